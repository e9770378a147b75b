//! What one take answers.

/// What [`Mouth::next`](crate::Mouth::next) took, and of which sender, 0 to 4.
#[derive(Debug, PartialEq, Eq, Drop)]
pub enum Taken<T> {
    /// An item of this sender.
    Item { from: u8, item: T },
    /// The end mark of this sender.
    End { from: u8 },
    /// Nothing: the mailbox was empty at one moment of the call.
    Empty,
}
