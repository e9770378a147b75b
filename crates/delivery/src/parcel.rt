//! What lies in a ring.

/// A frame, or the mark after the last one.
#[derive(Drop)]
pub(crate) enum Parcel {
    Frame(Vec<u8>),
    End,
}
