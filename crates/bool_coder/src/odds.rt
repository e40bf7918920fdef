//! The probability of a bit as the decoder multiplies with it.

ghost use Rattle.std.specs.Prelude.{◌≡◌};
ghost use Rattle.bool_coder.specs.Odds.{AreOdds, odds_of};

/// The probability of a bit: 65,536 times that of a 0, in 256, and 65,536 times the rest. Where many bits are
/// read with a probability, its odds are made once.
#[derive(Clone, Copy, Debug, PartialEq, Eq)]
pub struct Odds {
    pub zero: u32,
    pub one: u32,
}

impl Odds {
    /// The odds of a bit that is 0 with a probability of `prob` in 256.
    #[inline(always)]
    pub fn of(prob: u8) -> Odds
        ensures value { result ≡ odds_of prob }
        ensures odds { AreOdds result }
    {
        let prob = prob as u32;
        Odds {
            zero: prob << 16,
            one: (256 - prob) << 16,
        }
    }
}
