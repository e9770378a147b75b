//! What each piece brings to the part of a pcap file that is next.
ghost use Rattle.std.specs.Prelude.{◌≡◌, ◌++◌, ◌<◌, ◌≤◌, ℕ, List, length, IfOk, IfErr, OnErr};

use crate::pcap::{PcapHeader, RecordHead};
use crate::pcap_fault::PcapFault;
use crate::pcap_parts::{split_record, take_bytes, take_head, take_header};
use crate::record::{Record, Taken};
use std::alloc::Global;

/// Which part of a file comes next.
#[derive(Clone, Copy, Debug, PartialEq, Eq)]
pub(crate) enum Stage {
    /// The file's header.
    Header,
    /// A record's header.
    Head(PcapHeader),
    /// A record's bytes, one at least.
    Bytes(PcapHeader, RecordHead),
}

ghost use Rattle.capture.specs.Pcap.{FitsHead, longest_record};
ghost use Rattle.capture.specs.SeenRecord.{given_by};
ghost use Rattle.capture.specs.Inside.Stages.{IsInStep, Passes, IsFaultAt};

/// Takes a whole record from the front of a piece, where one is next and the piece has all of it;
/// else bytes for the part that is next.
pub(crate) fn take_next<'a>(
    alloc: Global,
    stage: &mut Stage,
    pending: &mut Vec<u8>,
    piece: &'a [u8],
) -> Result<Taken<'a>, PcapFault>
    requires { IsInStep stage.old (length pending.old.items) }
    ensures passes { IfOk result (λ taken. Passes stage.old pending.old.items stage.new
        pending.new.items (given_by taken.record) piece.now taken.rest.now) }
    ensures fault { IfErr result (IsFaultAt stage.old pending.old.items piece.now) }
    ensures stage { OnErr result (stage.new ≡ stage.old) }
{
    if let Stage::Head(header) = stage
        && pending.is_empty()
        && let Some((head, bytes, rest)) = split_record(header.endian, piece)
    {
        let bytes = Vec::from_slice(alloc, bytes)?;
        let record = Some(Record { head, bytes });
        return Ok(Taken { record, rest });
    }
    let (next, taken) = take_part(alloc, *stage, pending, piece)?;
    *stage = next;
    Ok(taken)
}

/// Takes bytes from the front of a piece for the part that is next, and says what is next then.
fn take_part<'a>(
    alloc: Global,
    stage: Stage,
    pending: &mut Vec<u8>,
    piece: &'a [u8],
) -> Result<(Stage, Taken<'a>), PcapFault>
    requires { IsInStep stage (length pending.old.items) }
    ensures passes { IfOk result (λ next. Passes stage pending.old.items next.0 pending.new.items
        (given_by next.1.record) piece.now next.1.rest.now) }
    ensures fault { IfErr result (IsFaultAt stage pending.old.items piece.now) }
{
    match stage {
        Stage::Header => from_header(pending, piece),
        Stage::Head(header) => from_head(alloc, header, pending, piece),
        Stage::Bytes(header, head) => from_bytes(alloc, header, head, pending, piece),
    }
}

/// The same where the file's header is next.
fn from_header<'a>(pending: &mut Vec<u8>, piece: &'a [u8]) -> Result<(Stage, Taken<'a>), PcapFault>
    requires { length pending.old.items < 24 }
    ensures passes { IfOk result (λ next. Passes Stage.Header pending.old.items next.0
        pending.new.items (given_by next.1.record) piece.now next.1.rest.now) }
    ensures fault { IfErr result (IsFaultAt Stage.Header pending.old.items piece.now) }
{
    let (header, rest) = take_header(pending, piece)?;
    match header {
        Some(header) => Ok((Stage::Head(header), Taken { record: None, rest })),
        None => Ok((Stage::Header, Taken { record: None, rest })),
    }
}

/// The same where a record's header is next. A record without bytes is given at once.
fn from_head<'a>(
    alloc: Global,
    header: PcapHeader,
    pending: &mut Vec<u8>,
    piece: &'a [u8],
) -> Result<(Stage, Taken<'a>), PcapFault>
    requires { length pending.old.items < 16 }
    ensures passes { IfOk result (λ next. Passes (Stage.Head header) pending.old.items next.0
        pending.new.items (given_by next.1.record) piece.now next.1.rest.now) }
    ensures fault { IfErr result (IsFaultAt (Stage.Head header) pending.old.items piece.now) }
{
    let (head, rest) = take_head(header.endian, pending, piece)?;
    match head {
        None => Ok((Stage::Head(header), Taken { record: None, rest })),
        Some(head) if head.captured > 0 => {
            Ok((Stage::Bytes(header, head), Taken { record: None, rest }))
        }
        Some(head) => {
            let bytes = Vec::new(alloc);
            let record = Some(Record { head, bytes });
            Ok((Stage::Head(header), Taken { record, rest }))
        }
    }
}

/// The same where a record's bytes are next.
fn from_bytes<'a>(
    alloc: Global,
    header: PcapHeader,
    head: RecordHead,
    pending: &mut Vec<u8>,
    piece: &'a [u8],
) -> Result<(Stage, Taken<'a>), PcapFault>
    requires fewer { length pending.old.items < head.captured }
    requires short { head.captured ≤ longest_record }
    requires fits { FitsHead head }
    ensures passes { IfOk result (λ next. Passes (Stage.Bytes header head) pending.old.items next.0
        pending.new.items (given_by next.1.record) piece.now next.1.rest.now) }
    ensures fault { IfErr result
        (IsFaultAt (Stage.Bytes header head) pending.old.items piece.now) }
{
    let (bytes, rest) = take_bytes(alloc, head.captured as usize, pending, piece)?;
    match bytes {
        Some(bytes) => {
            let record = Some(Record { head, bytes });
            Ok((Stage::Head(header), Taken { record, rest }))
        }
        None => Ok((Stage::Bytes(header, head), Taken { record: None, rest })),
    }
}
