// The time stamps of frames, by their durations.
ghost use Rattle.std.specs.Prelude.{◌≡◌, ℕ, ◌+◌, ◌-◌, ◌*◌, ◌/◌, ◌^◌, ◌<◌, ◌++◌, [], ◌∷◌, List, OnOk, map, min, sum_by};
ghost use Rattle.std.specs.List.{list_any};
ghost use Rattle.packet_times.specs.Clocks.{HasShown, added, has_base, in_units, opened};
ghost use Rattle.packet_times.specs.Sums.{base_of, base_of_head, is_base};
ghost use Rattle.packet_times.specs.declared.durations.Duration.{Duration};

use crate::durations::{Duration, frame_rate};
use pixel_planes::NoMemory;
use std::alloc::Global;
use stream_files::Head;

/// A time base, whose unit is `base.1 / base.0` seconds, and the sum of the units of the durations that have it.
#[derive(Clone, Copy)]
struct Sum {
    base: (u32, u32),
    units: u128,
}

/// The time stamps of frames of a file that are shown one after another, in the units of the file's head. The units of their
/// durations are summed for each time base, and each sum is rounded half up.
#[derive(Drop)]
pub struct Clock {
    head: Head,
    sums: Vec<Sum>,
    stamp: u64,
}

/// Whether two time bases are the same.
pub(crate) fn is_base(one: (u32, u32), other: (u32, u32)) -> bool
    ensures { result ≡ is_base one other }
{
    one.0 == other.0 && one.1 == other.1
}

impl Duration {
    /// The time base: the rate and the scale, neither of them 0.
    pub(crate) fn base(self) -> (u32, u32)
        ensures value { result ≡ base_of self }
        ensures positive { (0 < result.0) × (0 < result.1) }
    {
        frame_rate(self.rate, self.scale)
    }
}

/// The time base of a file: the rate and the scale, neither of them 0.
pub(crate) fn base_of_head(head: Head) -> (u32, u32)
    ensures value { result ≡ base_of_head head }
    ensures positive { (0 < result.0) × (0 < result.1) }
{
    frame_rate(head.rate, head.scale)
}

/// A quotient, rounded half up, and at most 18,446,744,073,709,551,615.
fn rounded(n: u128, by: u128) -> u64
    requires { 0 < by }
    ensures { result ≡ min (2 ^ 64 - 1) ((2 * n + by) / (2 * by)) }
{
    let rest = n % by;
    let up = u128::from(by - rest <= rest);
    (n / by).saturating_add(up).min(u128::from(u64::MAX)) as u64
}

/// A sum in units of another time base, rounded half up. It is at most 18,446,744,073,709,551,615.
fn in_units(sum: Sum, to: (u32, u32)) -> u64
    ensures { result ≡ in_units to sum }
{
    let by = u128::from(sum.base.0) * u128::from(to.1);
    if by == 0 {
        return 0;
    }
    match sum
        .units
        .checked_mul(u128::from(sum.base.1) * u128::from(to.0))
    {
        Some(n) => rounded(n, by),
        None => u64::MAX,
    }
}

/// The sums in units of a time base together. It is at most 18,446,744,073,709,551,615.
fn due(sums: &[Sum], to: (u32, u32)) -> u64
    ensures { result ≡ min (2 ^ 64 - 1) (sum_by (in_units to) sums.now) }
{
    let mut due: u64 = 0;
    for sum in sums {
        due = due.saturating_add(in_units(*sum, to));
    }
    due
}

/// A sum with the units of a duration, if that has the same time base.
fn added(sum: Sum, duration: Duration) -> Sum
    ensures { result ≡ added duration sum }
{
    if !is_base(duration.base(), sum.base) {
        return sum;
    }
    let units = sum.units.saturating_add(u128::from(duration.units));
    Sum { units, ..sum }
}

/// Whether one of the sums has a time base.
fn has_sum(sums: &[Sum], base: (u32, u32)) -> bool
    ensures { result ≡ list_any (has_base base) sums.now }
{
    for sum in sums {
        if is_base(base, sum.base) {
            return true;
        }
    }
    false
}

/// Appends an empty sum of a time base, if there is none.
fn open_sum(sums: &mut Vec<Sum>, base: (u32, u32)) -> Result<(), NoMemory>
    ensures { OnOk result (sums.new.items ≡ opened base sums.old.items) }
{
    if !has_sum(sums, base) {
        sums.push(Sum { base, units: 0 })?;
    }
    Ok(())
}

/// Adds the units of a duration to the sum that has its time base, if there is one.
fn add_to(sums: &mut Vec<Sum>, duration: Duration)
    ensures { sums.new.items ≡ map (added duration) sums.old.items }
{
    for at in 0..sums.len() {
        sums[at] = added(sums[at], duration);
    }
}

impl Clock {
    /// A clock that has shown no frame: the first one has time stamp 0.
    pub fn starting(alloc: Global, head: Head) -> Clock
        ensures { HasShown head [] result }
    {
        Clock {
            head,
            sums: Vec::new(alloc),
            stamp: 0,
        }
    }

    /// The time stamp of the next frame.
    pub fn stamp(&self) -> u64
        ensures { result ≡ self.now.stamp }
    {
        self.stamp
    }

    /// Shows a frame for a duration. The time stamp of the next one is the time after this one, or one more than that of this one if
    /// that is greater, and at most 18,446,744,073,709,551,615.
    pub fn show(&mut self, duration: Duration) -> Result<(), NoMemory>
        ensures { OnOk result ((head : Head) (durations : List Duration) → HasShown head durations self.old → HasShown head (durations ++ duration ∷ []) self.new) }
    {
        open_sum(&mut self.sums, duration.base())?;
        add_to(&mut self.sums, duration);
        let due = due(&self.sums, base_of_head(self.head));
        self.stamp = due.max(self.stamp.saturating_add(1));
        Ok(())
    }
}
