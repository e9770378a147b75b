//! Decisions that segments are lost, as they come in.
ghost use Rattle.std.specs.Prelude.{◌≡◌};
ghost use Rattle.flow_records.specs.Decisions.{names_a_flow, event_of_decision};

use crate::event::Event;
use docsis_wire::SEQUENCE_MODULUS;

/// The decision that segments of a flow are lost. One that names no flow, or a number above 8191,
/// is passed over.
#[derive(Clone, Copy, Debug, PartialEq, Eq)]
pub struct Decision {
    /// The index of the flow's record.
    pub flow: usize,
    /// Where it is none, the expected segment is lost; otherwise the segments before the one with
    /// this number, 0 to 8191, are.
    pub upto: Option<u16>,
}

impl Decision {
    /// Whether it names one of so many flows, and no number above 8191.
    pub fn names_a_flow(&self, flow_count: usize) -> bool
        ensures { result ≡ names_a_flow flow_count self.now }
    {
        self.flow < flow_count && self.upto.is_none_or(|number| number < SEQUENCE_MODULUS)
    }

    /// What it is to the flows.
    pub fn event(&self) -> Event
        ensures { result ≡ event_of_decision self.now }
    {
        let flow = self.flow;
        match self.upto {
            None => Event::Gap { flow },
            Some(number) => Event::GapTo { flow, number },
        }
    }
}
