//! Decisions about one flow.
ghost use Rattle.std.specs.Prelude.{ℕ, ◌<◌};

use docsis_wire::SEQUENCE_MODULUS;

/// The decision that segments of a flow are lost.
#[derive(Clone, Copy, Debug, PartialEq, Eq)]
pub enum FlowDecision {
    /// The expected segment is. It has an effect only if a later segment was kept.
    Gap,
    /// Those before the one with this number, 0 to 8191, are if they haven't come. It reaches only
    /// those with a later segment that was kept, and has no effect if the number is the expected
    /// one or lies behind it, 4,096 ahead or more, going up and round.
    GapTo(u16),
    /// Those before the one with this number, 0 to 8191, are if they haven't come, whether or not a
    /// later one was kept. It has no effect if the number is the expected one or lies behind it.
    SkipTo(u16),
}

impl FlowDecision {
    ghost use Rattle.std.specs.Prelude.{◌≡◌, ◌↔◌, IsTrue};
    ghost use Rattle.bonded_flows.specs.ByRule.{is_in_range, skips_any, IsTakable};

    /// Whether its number is a sequence number, 0 to 8191, if it has one.
    pub fn is_in_range(self) -> bool
        ensures is { result ≡ is_in_range self }
        ensures takable { IsTrue result ↔ IsTakable self }
    {
        match self {
            FlowDecision::Gap => true,
            FlowDecision::GapTo(number) | FlowDecision::SkipTo(number) => number < SEQUENCE_MODULUS,
        }
    }

    /// Whether it is a skip.
    pub fn is_skip(self) -> bool
        ensures { result ≡ skips_any self }
    {
        matches!(self, FlowDecision::SkipTo(_))
    }
}
