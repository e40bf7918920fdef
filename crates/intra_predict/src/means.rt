ghost use Rattle.std.specs.Prelude.{◌≡◌};
ghost use Rattle.intra_predict.specs.Means.{mean_of_two, mean_of_three};

/// The mean of two samples, rounded.
#[tactic(auto, unfolding(crate::specs::Means::mean_of_two))]
pub fn avg2(a: u8, b: u8) -> u8
    ensures { result ≡ mean_of_two a b }
{
    ((u16::from(a) + u16::from(b) + 1) >> 1) as u8
}

/// The mean of three samples of which the middle one counts twice, rounded.
#[tactic(auto, unfolding(crate::specs::Means::mean_of_three))]
pub fn avg3(a: u8, b: u8, c: u8) -> u8
    ensures { result ≡ mean_of_three a b c }
{
    ((u16::from(a) + 2 * u16::from(b) + u16::from(c) + 2) >> 2) as u8
}
