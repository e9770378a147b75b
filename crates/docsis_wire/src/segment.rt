//! A segment, and its header and its whole read from bytes and the header written as bytes.
ghost use Rattle.std.specs.Prelude.{◌≡◌, ◌≢◌, ◌+◌, ◌<◌, ◌≤◌, ◌↔◌, true, length, take, IsTrue};
ghost use Rattle.std.specs.Prelude.{IsSome, IfSome, IfOk, IfErr, IsErrAnd};
ghost use Rattle.docsis_wire.specs.Limits.{header_length};
ghost use Rattle.docsis_wire.specs.Header.{header_bytes};

use crate::buffer::Bytes;
use crate::header::SegmentHeader;
use std::alloc::{AllocError, Global};
use thiserror::Error;

/// Bit 15 of the first word of a segment header.
const PFI: u16 = 0x8000;
/// Bit 14 of the first word of a segment header.
const RESERVED: u16 = 0x4000;
/// The pointer's 14 bits in the first word of a segment header.
const POINTER: u16 = 0x3FFF;
/// The SID cluster's 3 bits in the second word of a segment header.
const CLUSTER: u16 = 0x0007;

/// How many bytes of a segment its header takes.
pub const HEADER_BYTES: usize = 8;

/// Why bytes are no segment.
#[derive(Clone, Copy, Debug, PartialEq, Eq, Error)]
pub enum SegmentFault {
    /// There are fewer than eight bytes, and so no header.
    #[error("too short")]
    TooShort,
    /// The header says that a MAC header begins in the segment, and points to no byte of the
    /// payload.
    #[error("pointer past the end")]
    PointerPast,
    /// An allocation failed. It is reported only of the bytes of a segment that has neither other
    /// fault.
    #[error("out of memory")]
    OutOfMemory,
}

/// A burst that is no segment.
#[derive(Debug, Drop)]
pub struct RefusedBurst {
    /// Its bytes, all of them.
    pub burst: Bytes,
    /// Why they are no segment: never that an allocation failed.
    pub fault: SegmentFault,
}

/// A segment as it came from a modem: its header, and the payload after it.
#[derive(Debug, Drop)]
pub struct Segment {
    pub head: SegmentHeader,
    pub payload: Bytes,
}

/// The segment header that the first eight bytes spell, or `None` where there are fewer than eight.
///
/// The eight bytes spell one header only, and `write_segment` writes them of it:
/// `laws::eight_bytes_spell_one_header`,
/// `laws::read_header_is_written_back`.
pub fn read_segment(bytes: &[u8]) -> Option<SegmentHeader>
    ensures found { IsSome result ↔ (header_length ≤ length bytes.now) }
    ensures spelled { IfSome result (λ head. header_bytes head ≡ take header_length bytes.now) }
{
    let [b0, b1, b2, b3, b4, b5, b6, b7] = *bytes.first_chunk::<8>()?;
    let first = u16::from_be_bytes([b0, b1]);
    let second = u16::from_be_bytes([b2, b3]);
    Some(SegmentHeader {
        pfi: first & PFI != 0,
        reserved: first & RESERVED != 0,
        pointer: first & POINTER,
        sequence: second >> 3,
        cluster: (second & CLUSTER) as u8,
        request: u16::from_be_bytes([b4, b5]),
        hcs: u16::from_be_bytes([b6, b7]),
    })
}

/// The eight bytes of a segment header (CM-SP-MULPIv3.0, segment header format). `read_segment`
/// reads the same header of them:
/// `laws::written_header_is_read_back`.
pub fn write_segment(head: &SegmentHeader) -> [u8; 8]
    ensures { result ≡ header_bytes head.now }
{
    let pfi = if head.pfi { PFI } else { 0 };
    let reserved = if head.reserved { RESERVED } else { 0 };
    let [b0, b1] = two_bytes(pfi | reserved | head.pointer);
    let [b2, b3] = two_bytes((head.sequence << 3) | u16::from(head.cluster));
    let [b4, b5] = two_bytes(head.request);
    let [b6, b7] = two_bytes(head.hcs);
    [b0, b1, b2, b3, b4, b5, b6, b7]
}

ghost use Rattle.docsis_wire.specs.Words.{two_bytes};

/// A word of a segment header, the more significant byte first.
fn two_bytes(word: u16) -> [u8; 2]
    ensures { result ≡ two_bytes word }
{
    word.to_be_bytes()
}

ghost use Rattle.docsis_wire.specs.Ready.{IsReady};
ghost use Rattle.docsis_wire.specs.SegmentBytes.{segment_bytes, PointsPast};

impl From<AllocError> for SegmentFault {
    ghost use Rattle.std.specs.Prelude.{◌≡◌};
    ghost use Rattle.docsis_wire.specs.declared.segment.SegmentFault.TheVariants.{OutOfMemory};

    ghost from_gives = { λ _ fault. fault ≡ OutOfMemory };

    fn from(_: AllocError) -> SegmentFault {
        SegmentFault::OutOfMemory
    }
}

impl Segment {
    /// The segment that the bytes of a burst spell: a header of eight bytes, and the payload after
    /// it. `TooShort` and `PointerPast` are looked for before any memory is taken.
    pub fn read(alloc: Global, bytes: &[u8]) -> Result<Segment, SegmentFault>
        ensures segment { IfOk result (λ segment. segment_bytes segment ≡ bytes.now) }
        ensures ready { IfOk result IsReady }
        ensures too_short { (result ≡ Err SegmentFault.TooShort)
            ↔ (length bytes.now < header_length) }
        ensures pointer_past { (result ≡ Err SegmentFault.PointerPast) ↔ PointsPast bytes.now }
    {
        match Segment::head_of(bytes) {
            Ok(head) => {
                let payload = Vec::from_slice(alloc, &bytes[HEADER_BYTES..])?;
                let payload = Bytes::from(payload);
                Ok(Segment { head, payload })
            }
            Err(fault) => Err(fault),
        }
    }

    /// The header of the segment that the bytes of a burst spell, or why they spell none, as
    /// [`Segment::read`] answers. It takes no memory, and never answers `OutOfMemory`.
    pub fn head_of(bytes: &[u8]) -> Result<SegmentHeader, SegmentFault>
        ensures spelled { IfOk result (λ head. header_bytes head ≡ take header_length bytes.now) }
        ensures ready { IfOk result
            (λ head. head.pfi ≡ true → head.pointer + header_length < length bytes.now) }
        ensures too_short { (result ≡ Err SegmentFault.TooShort)
            ↔ (length bytes.now < header_length) }
        ensures pointer_past { (result ≡ Err SegmentFault.PointerPast) ↔ PointsPast bytes.now }
        ensures memory { result ≢ Err SegmentFault.OutOfMemory }
    {
        let Some(head) = read_segment(bytes) else {
            return Err(SegmentFault::TooShort);
        };
        let payload = &bytes[HEADER_BYTES..];
        if head.pfi && usize::from(head.pointer) >= payload.len() {
            return Err(SegmentFault::PointerPast);
        }
        Ok(head)
    }

    /// The segment that a burst spells, as [`Segment::read`] answers, of the burst's own buffer: it
    /// becomes the payload, in which no byte is copied or moved, and no memory is taken. A burst
    /// that is no segment is given back, with the reason.
    #[inline(always)]
    pub fn from_burst(burst: Bytes) -> Result<Segment, RefusedBurst>
        ensures segment { IfOk result (λ segment. segment_bytes segment ≡ burst) }
        ensures ready { IfOk result IsReady }
        ensures too_short { IsErrAnd result (λ refused. refused.fault ≡ SegmentFault.TooShort)
            ↔ (length burst < header_length) }
        ensures pointer_past { IsErrAnd result
            (λ refused. refused.fault ≡ SegmentFault.PointerPast)
            ↔ PointsPast burst }
        ensures memory { IfErr result (λ refused. refused.fault ≢ SegmentFault.OutOfMemory) }
        ensures given_back { IfErr result (λ refused. refused.burst ≡ burst) }
    {
        match Segment::head_of(burst.as_slice()) {
            Ok(head) => {
                let payload = burst.without_front(HEADER_BYTES);
                Ok(Segment { head, payload })
            }
            Err(fault) => Err(RefusedBurst { burst, fault }),
        }
    }
}

/// A segment whose pointer, where it means anything, stays within its payload.
#[derive(Debug, Drop)]
pub struct ReadySegment {
    pub segment: Segment,
    ghost ready: { IsReady segment },
}

/// Whether the segment's pointer, where it means anything, stays within the payload.
pub fn ready(segment: &Segment) -> bool
    ensures { IsTrue result ↔ IsReady segment.now }
{
    !segment.head.pfi || usize::from(segment.head.pointer) < segment.payload.len()
}
