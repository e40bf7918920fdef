ghost use Rattle.std.specs.Prelude.{◌≡◌};
ghost use Rattle.state_cache.specs.Reaching.{of_bytes, of_states};

/// The most that a cache holds.
#[derive(Clone, Copy, Debug, PartialEq, Eq)]
pub struct Capacity {
    /// The most outcomes, 1 to 4,096.
    pub states: u16,
    /// The most bytes of their pictures, if there is such a limit. The newest outcome is cached even if
    /// its pictures take more.
    pub bytes: Option<u64>,
}

impl Capacity {
    /// So many outcomes, without a limit in bytes.
    pub fn of_states(states: u16) -> Capacity
        ensures { result ≡ of_states states }
    {
        Capacity {
            states,
            bytes: None,
        }
    }

    /// As many outcomes as have pictures of so many bytes together, at most 4,096.
    pub fn of_bytes(bytes: u64) -> Capacity
        ensures { result ≡ of_bytes bytes }
    {
        Capacity {
            states: 4_096,
            bytes: Some(bytes),
        }
    }
}
