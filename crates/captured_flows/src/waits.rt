//! How long bursts wait and are held.

/// How long the bursts of a capture wait for those that were written the other way round, and how
/// long they are held for those that are missing, in nanoseconds.
#[derive(Clone, Copy, Debug, PartialEq, Eq)]
pub struct Waits {
    /// How long a burst waits for its neighbours on its channel.
    pub reorder: u64,
    /// How long a segment is held before what is missing before it is lost, and how long a silence
    /// is at least.
    pub wait: u64,
}
