//! What happens to a flow.
ghost use Rattle.std.specs.Prelude.{◌≡◌};
ghost use Rattle.flow_records.specs.Events.{flow_of};

use docsis_wire::Segment;

/// An event of the flow with this index.
#[derive(Debug, Drop)]
pub enum Event {
    /// A segment arrives. It is ready.
    Arrive { flow: usize, segment: Segment },
    /// The decision that the expected segment is lost. It has an effect only if a later segment was
    /// kept.
    Gap { flow: usize },
    /// The decision that the segments before the one with this number, 0 to 8191, are lost if they
    /// haven't come. It reaches only those with a later segment that was kept, and has no effect if
    /// the number is the expected one or lies behind it, 4,096 ahead or more, going up and round.
    GapTo { flow: usize, number: u16 },
    /// The decision that the segments before the one with this number, 0 to 8191, are lost if they
    /// haven't come, whether or not a later one was kept. It has no effect if the number is the
    /// expected one or lies behind it, 4,096 ahead or more, going up and round.
    SkipTo { flow: usize, number: u16 },
}

impl Event {
    /// The index of the flow.
    pub fn flow(&self) -> usize
        ensures { result ≡ flow_of self.now }
    {
        match self {
            Event::Arrive { flow, .. } | Event::Gap { flow } => *flow,
            Event::GapTo { flow, .. } | Event::SkipTo { flow, .. } => *flow,
        }
    }
}
