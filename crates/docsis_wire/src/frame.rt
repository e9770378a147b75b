//! The generic MAC header of a frame: what its first four bytes announce, and what a whole frame
//! is.
ghost use Rattle.std.specs.Prelude.{◌≡◌, ◌↔◌, ◌++◌, ℕ, ◌+◌, ◌≤◌, Bool, List, length, take, IsTrue};
ghost use Rattle.docsis_wire.specs.Frame.{IsFrame, header_front};
ghost use Rattle.docsis_wire.specs.Head.{head_of, IsShort, IsHeadOf};

use crate::header_check::HeaderCheck;
use thiserror::Error;

/// Extended headers are at most this long, in bytes (this project's profile).
const EHDR_MAX: u8 = 240;

/// Why bytes that are no fill do not begin as a frame does.
#[derive(Clone, Copy, Debug, PartialEq, Eq, Error)]
pub enum HeadFault {
    /// FC 0xC4, 0xC5, 0xC8 or 0xC9: a request frame, whose LEN is no length (this project's
    /// profile).
    #[error("the frame control byte announces no length")]
    NoLength,
    /// An extended header above 240 bytes, or longer than LEN.
    #[error("the extended header is too long")]
    ExtendedTooLong,
}

/// What the front of some bytes announces.
#[derive(Clone, Copy, Debug, PartialEq, Eq)]
pub enum HeadRead {
    /// More bytes have to come before anything can be said.
    Short,
    /// Fill: from here to the segment's end there is no frame (this project's profile).
    Fill,
    /// Neither fill nor a frame's head: from here to the segment's end no frame can be found.
    Bad(HeadFault),
    /// A frame of `total` bytes, 6 to 65,541, with `ehdr` bytes of extended header, 0 to 240.
    Head { ehdr: u8, total: u32 },
}

/// Reads the generic MAC header at the front (CM-SP-MULPIv3.0, generic MAC frame format). It looks
/// at no more than four bytes.
pub fn read_head(bytes: &[u8]) -> HeadRead
    ensures table { result ≡ head_of bytes.now }
    ensures short { (result ≡ HeadRead.Short) ↔ IsShort bytes.now }
    // The header ends within the frame that is announced.
    ensures header { (ehdr total : ℕ) → result ≡ HeadRead.Head ehdr total → 6 + ehdr ≤ total }
    // Whatever follows a frame, its head is read, and its length with it.
    ensures frame { (check : List ℕ → Bool) (frame more : List ℕ) → IsFrame check frame
        → bytes.now ≡ frame ++ more → IsHeadOf check frame result }
    // As many bytes as are announced are a frame, once they are there and the check says yes.
    ensures whole { (check : List ℕ → Bool) (ehdr total : ℕ)
        → result ≡ HeadRead.Head ehdr total → total ≤ length bytes.now
        → IsTrue (check (header_front ehdr bytes.now)) → IsFrame check (take total bytes.now) }
{
    match bytes {
        [0xFF, ..] => HeadRead::Fill,
        [fc, parm, high, low, ..] => read_front(*fc, *parm, u16::from_be_bytes([*high, *low])),
        _ => HeadRead::Short,
    }
}

ghost use Rattle.docsis_wire.specs.Head.{head_of_fields};

/// What FC, MAC_PARM and LEN announce where FC is not 0xFF.
fn read_front(fc: u8, parm: u8, len: u16) -> HeadRead
    ensures { result ≡ head_of_fields fc parm len }
{
    if fc == 0 && parm == 0 && len == 0 {
        return HeadRead::Fill;
    }
    if matches!(fc, 0xC4 | 0xC5 | 0xC8 | 0xC9) {
        return HeadRead::Bad(HeadFault::NoLength);
    }
    let ehdr = if fc % 2 == 1 { parm } else { 0 };
    if ehdr > EHDR_MAX || u16::from(ehdr) > len {
        return HeadRead::Bad(HeadFault::ExtendedTooLong);
    }
    HeadRead::Head {
        ehdr,
        total: 6 + u32::from(len),
    }
}

/// Whether the bytes are one whole frame and nothing else, with a header that passes the check.
pub fn well_formed<C: HeaderCheck>(bytes: &[u8], check: &C) -> bool
    ensures { IsTrue result ↔ IsFrame (C.accepts check.now) bytes.now }
{
    match read_head(bytes) {
        HeadRead::Head { ehdr, total } => {
            total as usize == bytes.len() && check.passes(&bytes[..6 + usize::from(ehdr)])
        }
        _ => false,
    }
}
