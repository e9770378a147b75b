//! Flows whose indexes follow each other.
ghost use Rattle.std.specs.Prelude.{◌≡◌};
ghost use Rattle.flow_selection.specs.Ranges.{is_in_range};

/// The flows from one index to another, both included. Where the last comes before the first there
/// are none.
#[derive(Clone, Copy, Debug, PartialEq, Eq)]
pub struct FlowRange {
    /// The index of the first flow.
    pub first: u16,
    /// The index of the last flow.
    pub last: u16,
}

impl FlowRange {
    /// Whether the flow with this index is one of them.
    pub fn has(&self, flow: usize) -> bool
        ensures { result ≡ is_in_range self.now flow }
    {
        usize::from(self.first) <= flow && flow <= usize::from(self.last)
    }
}
