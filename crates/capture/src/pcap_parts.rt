//! What a reader of pcap takes from a piece of a file: bytes of the part that is next, which is the
//! file's header, a record's header or a record's bytes.
ghost use Rattle.std.specs.Prelude.{◌≡◌, ◌≤◌, ◌<◌, [], ◌++◌, length, option_map, IfOk, IfErr};
ghost use Rattle.std.specs.Prelude.{IfSome};
ghost use Rattle.capture.specs.Pcap.{head_bytes, FitsHead};
ghost use Rattle.capture.specs.PcapReading.{MovesOn};
ghost use Rattle.capture.specs.Inside.PcapParts.{Completes, TakesHeader, TakesHead, ReadsHead};
ghost use Rattle.capture.specs.Inside.PcapParts.{TakesBytes, HeaderFault, HeadFault, SplitsRecord};

use crate::endian::Endian;
use crate::pcap::{
    PCAP_HEADER_BYTES, PcapHeader, RECORD_HEADER_BYTES, RecordHead, read_pcap_header,
    read_record_head,
};
use crate::pcap_fault::PcapFault;
use std::alloc::{AllocError, Global};
use std::mem;

/// A record has at most so many bytes.
pub const LONGEST_RECORD: u32 = 1 << 20;

/// Moves bytes from the front of the piece to those that are pending, until these are as many as
/// are wanted, and answers the rest of the piece.
pub(crate) fn fill<'a>(
    pending: &mut Vec<u8>,
    wanted: usize,
    piece: &'a [u8],
) -> Result<&'a [u8], AllocError>
    requires { length pending.old.items ≤ wanted }
    ensures moved { IfOk result (λ rest.
        Completes pending.old.items pending.new.items piece.now rest.now) }
    ensures room { IfOk result (λ _. length pending.new.items ≤ wanted) }
    ensures all { IfOk result (λ rest. length pending.new.items < wanted → rest.now ≡ []) }
    ensures some { IfOk result (λ rest. length pending.old.items < wanted
        → MovesOn piece.now rest.now) }
{
    let count = piece.len().min(wanted - pending.len());
    let (front, rest) = piece.split_at(count);
    pending.extend_from_slice(front)?;
    Ok(rest)
}

/// The file's header, once its 24 bytes are there, and the rest of the piece.
pub(crate) fn take_header<'a>(
    pending: &mut Vec<u8>,
    piece: &'a [u8],
) -> Result<(Option<PcapHeader>, &'a [u8]), PcapFault>
    requires { length pending.old.items < 24 }
    ensures part { IfOk result (λ taken. TakesHeader pending.old.items pending.new.items
        piece.now taken.0 taken.1.now) }
    ensures some { IfOk result (λ taken. MovesOn piece.now taken.1.now) }
    ensures fault { IfErr result (HeaderFault (pending.old.items ++ piece.now)) }
{
    let rest = fill(pending, PCAP_HEADER_BYTES, piece)?;
    if pending.len() < PCAP_HEADER_BYTES {
        return Ok((None, rest));
    }
    match read_pcap_header(pending) {
        Some(header) => {
            pending.clear();
            Ok((Some(header), rest))
        }
        None => Err(PcapFault::NotPcap),
    }
}

/// The header of a record at the front of a piece that has all of it, and what is behind it.
fn split_head(endian: Endian, piece: &[u8]) -> Option<(RecordHead, &[u8])>
    ensures found { IfSome result (λ split. piece.now ≡ head_bytes endian split.0 ++ split.1.now) }
    ensures fits { IfSome result (λ split. FitsHead split.0) }
{
    let (head, rest) = piece.split_at_checked(RECORD_HEADER_BYTES)?;
    Some((read_record_head(endian, head), rest))
}

/// The record at the front of a piece that has all of it: its header, its bytes, and what is behind
/// it. None is found where the piece ends before the record does, or it is said to have more than
/// 1 MiB.
pub(crate) fn split_record(endian: Endian, piece: &[u8]) -> Option<(RecordHead, &[u8], &[u8])>
    ensures { IfSome result (λ split.
        SplitsRecord endian split.0 split.1.now split.2.now piece.now) }
{
    let (head, rest) = split_head(endian, piece)?;
    if head.captured > LONGEST_RECORD {
        return None;
    }
    let (bytes, rest) = rest.split_at_checked(head.captured as usize)?;
    Some((head, bytes, rest))
}

/// The header of a record, once its sixteen bytes are there, and the rest of the piece. Where the
/// piece has all of them they are read where they stand, and no memory is asked for.
fn next_head<'a>(
    endian: Endian,
    pending: &mut Vec<u8>,
    piece: &'a [u8],
) -> Result<(Option<RecordHead>, &'a [u8]), AllocError>
    requires { length pending.old.items < 16 }
    ensures part { IfOk result (λ taken. ReadsHead endian pending.old.items pending.new.items
        piece.now taken.0 taken.1.now) }
    ensures some { IfOk result (λ taken. MovesOn piece.now taken.1.now) }
{
    if pending.is_empty()
        && let Some((head, rest)) = split_head(endian, piece)
    {
        return Ok((Some(head), rest));
    }
    let rest = fill(pending, RECORD_HEADER_BYTES, piece)?;
    if pending.len() < RECORD_HEADER_BYTES {
        return Ok((None, rest));
    }
    let head = read_record_head(endian, pending);
    pending.clear();
    Ok((Some(head), rest))
}

/// The header of a record of at most 1 MiB, once it is there, and the rest of the piece.
pub(crate) fn take_head<'a>(
    endian: Endian,
    pending: &mut Vec<u8>,
    piece: &'a [u8],
) -> Result<(Option<RecordHead>, &'a [u8]), PcapFault>
    requires { length pending.old.items < 16 }
    ensures part { IfOk result (λ taken. TakesHead endian pending.old.items pending.new.items
        piece.now taken.0 taken.1.now) }
    ensures some { IfOk result (λ taken. MovesOn piece.now taken.1.now) }
    ensures fault { IfErr result (HeadFault endian (pending.old.items ++ piece.now)) }
{
    let (head, rest) = next_head(endian, pending, piece)?;
    match head {
        Some(head) if head.captured > LONGEST_RECORD => Err(PcapFault::RecordTooLong),
        head => Ok((head, rest)),
    }
}

/// The bytes of a record, once as many are there as were captured, and the rest of the piece.
pub(crate) fn take_bytes<'a>(
    alloc: Global,
    captured: usize,
    pending: &mut Vec<u8>,
    piece: &'a [u8],
) -> Result<(Option<Vec<u8>>, &'a [u8]), AllocError>
    requires { length pending.old.items < captured }
    ensures part { IfOk result (λ taken. TakesBytes captured pending.old.items pending.new.items
        piece.now (option_map (λ bytes. bytes.items) taken.0) taken.1.now) }
    ensures some { IfOk result (λ taken. MovesOn piece.now taken.1.now) }
{
    let rest = fill(pending, captured, piece)?;
    if pending.len() < captured {
        return Ok((None, rest));
    }
    Ok((Some(mem::replace(pending, Vec::new(alloc))), rest))
}
