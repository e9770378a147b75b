//! What the tests of several parts take: two frames, the segments of a cut, a check of headers.
use docsis_wire::{Bytes, HeaderCheck};

/// A frame of eight bytes without an extended header.
pub const PLAIN: &[u8] = &[0, 0, 0, 2, 0x11, 0x11, 0xaa, 0xbb];
/// A frame of nine bytes with an extended header of one byte.
pub const EXTENDED: &[u8] = &[1, 1, 0, 3, 0xe0, 0x22, 0x22, 0xcc, 0xdd];

/// The segments of the two frames cut inside both of their headers.
pub const FIRST: &[u8] = &[0x80, 0, 0, 0, 0, 0, 0, 0, 0, 0, 0, 2, 0x11];

pub const SECOND: &[u8] = &[0x80, 3, 0, 8, 0, 0, 0, 0, 0x11, 0xaa, 0xbb, 1, 1, 0, 3];

pub const THIRD: &[u8] = &[0, 0, 0, 0x10, 0, 0, 0, 0, 0xe0, 0x22, 0x22, 0xcc, 0xdd];

/// Whether these are the frames with these bytes.
pub fn same_bytes(frames: &[Bytes], wanted: &[&[u8]]) -> bool {
    frames.len() == wanted.len()
        && frames
            .iter()
            .zip(wanted)
            .all(|(frame, want)| frame.as_slice() == *want)
}

/// A check that says no exactly where the header's last byte is 0x12.
pub struct NotEndingIn12;

impl HeaderCheck for NotEndingIn12 {
    ghost use Rattle.std.specs.Prelude.{◌==◌, ◌-◌, length, not, slice_get, unwrap_or};

    ghost accepts = { λ _ header. not (unwrap_or (slice_get header (length header - 1)) 0 == 18) };

    fn passes(&self, header: &[u8]) -> bool {
        header.last().copied().unwrap_or(0) != 0x12
    }
}

/// A frame of eight bytes whose header does not pass that check.
pub const SPOILED: &[u8] = &[0, 0, 0, 2, 0x11, 0x12, 0xaa, 0xbb];
