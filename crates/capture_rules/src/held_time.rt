//! When the segment of a number was handed in.
ghost use Rattle.std.specs.Prelude.{◌≡◌, ◌<◌};
ghost use Rattle.reorder.specs.Limits.{modulus};

use crate::arrival::HandedOn;

/// A number, and when its segment was handed in.
#[derive(Clone, Copy, Debug, PartialEq, Eq)]
pub struct HeldTime {
    /// 0 to 8191.
    pub number: u16,
    /// In nanoseconds of the packets' clock.
    pub time: u64,
    ghost in_range: { number < modulus },
}

impl HeldTime {
    /// The number of a burst, held since it is handed on.
    pub fn of<T>(one: &HandedOn<T>) -> HeldTime
        ensures number { result.number ≡ one.now.arrival.number }
        ensures time { result.time ≡ one.now.time }
    {
        HeldTime {
            number: one.arrival.number,
            time: one.time,
        }
    }
}
