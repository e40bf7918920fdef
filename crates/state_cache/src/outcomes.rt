ghost use Rattle.std.specs.Prelude.{◌≡◌, IfOk};
ghost use Rattle.state_cache.specs.Faults.{reach_fault_word};

use pixel_planes::{NoMemory, Picture, Recycled};
use reference_frames::State;
use stream_steps::Broken;
use thiserror::Error;

/// Why an index is not reached.
#[derive(Clone, Copy, Debug, PartialEq, Eq, Error)]
pub enum ReachFault {
    /// The stream is broken at the index.
    #[error("the stream is broken at packet {}: {}", .0.place, .0.cause)]
    Refused(Broken),
    /// Memory was refused.
    #[error("memory was refused")]
    NoMemory,
    /// The outcome is cached, but a part of it is shared as often as can be counted.
    #[error("the outcome is shared too often")]
    TooManyShares,
}

impl ReachFault {
    /// The name of the error; that of `Refused` is without its packet and cause.
    pub fn word(self) -> &'static str
        ensures { result.now ≡ reach_fault_word self }
    {
        match self {
            ReachFault::Refused(_) => "Refused",
            ReachFault::NoMemory => "NoMemory",
            ReachFault::TooManyShares => "TooManyShares",
        }
    }
}

/// The key of a cached outcome: the number of a source, and the id of a packet of this source.
#[derive(Clone, Copy, PartialEq, Eq, Hash)]
pub(crate) struct PacketKey {
    pub source: usize,
    pub id: u64,
}

/// The good outcome of a packet: the state after it and its picture.
#[derive(Debug, Drop)]
pub struct Kept {
    pub state: State,
    pub picture: Picture,
}

impl Kept {
    /// Another handle to the same outcome. It shares the planes and allocates nothing. `NoMemory`
    /// if the share count of one of its parts is full.
    pub fn again(&self) -> Result<Kept, NoMemory>
        ensures { IfOk result (λ kept. kept ≡ self.now) }
    {
        Ok(Kept {
            state: self.state.again()?,
            picture: self.picture.again()?,
        })
    }

    /// Drops the outcome. Planes that nothing else shares become the recycled ones.
    pub(crate) fn drop_into(self, recycled: &mut Recycled) {
        let Kept { state, picture } = self;
        state.drop_into(recycled);
        recycled.put(picture);
    }
}
