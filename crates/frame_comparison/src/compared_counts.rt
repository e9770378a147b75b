//! How many frames both sides have, and how many only one.
ghost use Rattle.std.specs.Prelude.{◌≡◌};
ghost use Rattle.frame_comparison.specs.Seen.{has_none_alone, is_quiet, no_counts, with_counts};

/// How many frames of a flow are in both, and how many only one side has. Each count stays at its
/// greatest value, 2^64 − 1.
#[derive(Clone, Copy, Debug, PartialEq, Eq)]
pub struct ComparedCounts {
    /// Frames that both sides have.
    pub both: u64,
    /// Frames that only the analyser has.
    pub only_analyser: u64,
    /// Frames that only we have.
    pub only_here: u64,
}

impl ComparedCounts {
    /// Nothing was counted.
    pub fn none() -> ComparedCounts
        ensures { result ≡ no_counts }
    {
        ComparedCounts {
            both: 0,
            only_analyser: 0,
            only_here: 0,
        }
    }

    /// Whether no frame is only one side's.
    pub fn has_none_alone(&self) -> bool
        ensures { result ≡ has_none_alone self.now }
    {
        self.only_analyser == 0 && self.only_here == 0
    }

    /// Whether nothing was counted.
    pub fn is_quiet(&self) -> bool
        ensures { result ≡ is_quiet self.now }
    {
        self.both == 0 && self.has_none_alone()
    }

    /// Counts so many more of each.
    pub(crate) fn add(&mut self, more: ComparedCounts)
        ensures { self.new ≡ with_counts more self.old }
    {
        self.both = self.both.saturating_add(more.both);
        self.only_analyser = self.only_analyser.saturating_add(more.only_analyser);
        self.only_here = self.only_here.saturating_add(more.only_here);
    }
}
