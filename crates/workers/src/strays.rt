//! Inputs of channels that aren't their source's own.

/// How many inputs of a source were refused since they came on a channel that isn't the source's
/// own. Such an input changes nothing else. Each count stays at its greatest value, 2^64 - 1.
#[derive(Clone, Copy, Debug, PartialEq, Eq, Default)]
pub struct Strays {
    /// How many were of a channel that belongs to another source.
    pub foreign: u64,
    /// How many were of a channel that there isn't.
    pub absent: u64,
}
