//! How many of a channel's inputs were admitted, and how many refused.
ghost use Rattle.std.specs.Prelude.{[]};
ghost use Rattle.receiver.specs.Tallies.{IsTallyOf, TalliesAnswer};

use lane::Answer;

/// How many bursts of a channel were admitted, and how many of its inputs were refused. It takes no
/// memory, however many inputs there are. Each number stays at its greatest value, 2^64 - 1.
#[derive(Clone, Copy, Debug, PartialEq, Eq)]
pub struct LaneTally {
    /// How many bursts were admitted.
    pub admitted: u64,
    /// How many grants and bursts were refused.
    pub refused: u64,
}

impl LaneTally {
    /// No input came yet.
    pub fn none() -> LaneTally
        ensures { IsTallyOf [] result }
    {
        LaneTally {
            admitted: 0,
            refused: 0,
        }
    }

    /// Counts what was answered to one input more.
    pub fn count(&mut self, answer: &Answer)
        ensures { TalliesAnswer self.old answer.now self.new }
    {
        match answer {
            Ok(admitted) => {
                if admitted.is_some() {
                    self.admitted = self.admitted.saturating_add(1);
                }
            }
            Err(_) => self.refused = self.refused.saturating_add(1),
        }
    }
}
