//! What becomes of a burst of a capture.
use receiver::Reply;

/// What became of a burst that came.
#[derive(Clone, Copy, Debug, PartialEq, Eq)]
pub enum BurstTaken {
    /// The map has no channel with its upstream channel id. It is passed over.
    UnknownChannel,
    /// The map has no such service identifier of its channel. It is passed over.
    UnknownSid,
    /// Its lane refused it, as the reply says.
    Refused(Reply),
    /// It waits, or was handed on: it is of the flow with this index.
    Waits(usize),
}
