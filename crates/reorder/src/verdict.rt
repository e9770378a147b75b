//! What a window answers to an offer, and to the decision that a number is lost.

/// What became of an item that was offered under a number. Every verdict but `Kept` hands it back.
#[derive(Clone, Copy, PartialEq, Eq, Debug, Drop)]
pub enum Verdict<T> {
    /// The number lies behind the expected one.
    Late(T),
    /// The number lies ahead of the expected one by the window's width or more.
    Beyond(T),
    /// An item is held under this number already.
    Repeat(T),
    /// The window holds the item.
    Kept,
}

/// What became of the decision that the expected number is lost.
#[derive(Clone, Copy, PartialEq, Eq, Debug, Drop)]
pub enum Declared {
    /// The expected number is held, so that there is no gap.
    NextIsHere,
    /// Nothing is held, so that no gap shows.
    NothingHeld,
    /// This number, 0 to 8191, is lost, and the one after it is expected.
    Lost(u16),
}
