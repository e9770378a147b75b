//! Who has a frame.

/// Who has a frame.
#[derive(Clone, Copy, Debug, PartialEq, Eq)]
pub enum Side {
    /// The analyser, which joined the bursts itself.
    Analyser,
    /// We, who joined the same bursts.
    Here,
}
