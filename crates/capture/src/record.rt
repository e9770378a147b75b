//! A record of a pcap file, as a reader gives it.
ghost use Rattle.std.specs.Prelude.{◌≡◌, length};

use crate::pcap::RecordHead;

/// A record of a pcap file.
#[derive(Debug, Drop)]
pub struct Record {
    pub head: RecordHead,
    /// The bytes that were captured. A reader gives at most 1 MiB.
    pub bytes: Vec<u8>,
    ghost size: { head.captured ≡ length bytes.items },
}

/// What a reader took from a piece.
#[derive(Debug, Drop)]
pub struct Taken<'a> {
    /// The record that these bytes completed, if they did.
    pub record: Option<Record>,
    /// What is left of the piece: it has to be handed in next.
    pub rest: &'a [u8],
}
