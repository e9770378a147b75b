//! One of so many parts into which flows are divided.
ghost use Rattle.std.specs.Prelude.{◌≡◌};
ghost use Rattle.flow_selection.specs.Selection.{is_in_shard};

/// The flows whose index leaves a remainder when divided by a count: one of so many shards. Where
/// the count is 0, or no more than the remainder, there are none.
#[derive(Clone, Copy, Debug, PartialEq, Eq)]
pub struct Shard {
    /// What the index leaves.
    pub remainder: u16,
    /// By what it is divided: how many shards there are.
    pub count: u16,
}

impl Shard {
    /// Whether the flow with this index is one of them.
    pub fn has(&self, flow: usize) -> bool
        ensures { result ≡ is_in_shard self.now flow }
    {
        self.count != 0 && flow % usize::from(self.count) == usize::from(self.remainder)
    }
}
