//! A burst of a flow, when it comes, while it waits, and when it is handed on.
ghost use Rattle.std.specs.Prelude.{◌<◌};
ghost use Rattle.reorder.specs.Limits.{modulus};

/// A burst of a flow that came.
#[derive(Debug, Drop)]
pub struct Arrival<T> {
    /// When it came, in nanoseconds of the packets' clock.
    pub time: u64,
    /// The channel on which it came, counted from 0: what waits takes memory for each channel up to
    /// the greatest one.
    pub channel: usize,
    /// The number of its segment, 0 to 8191.
    pub number: u16,
    /// What it brings.
    pub item: T,
    ghost in_range: { number < modulus },
}

/// A burst that waits for its turn.
#[derive(Debug, Drop)]
pub(crate) struct Waiting<T> {
    /// When it came, by the flow's clock.
    pub came: u64,
    pub arrival: Arrival<T>,
}

/// A burst that is handed on.
#[derive(Debug, Drop)]
pub struct HandedOn<T> {
    /// When it is: when the burst came in whose place it is handed on, by the flow's clock.
    pub time: u64,
    pub arrival: Arrival<T>,
}
