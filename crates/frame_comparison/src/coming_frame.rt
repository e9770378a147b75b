//! A frame that comes, and what would be kept of it.
ghost use Rattle.std.specs.Prelude.{◌≡◌, nat_le, if◌then◌else◌, length};
ghost use Rattle.frame_records.specs.Frames.{longest_frame};
ghost use Rattle.frame_comparison.specs.Frames.{came, kept, shown_front};
ghost use Rattle.frame_comparison.specs.Fingerprint.{siphash};

use crate::lonely_frame::SHOWN_BYTES;
use frame_records::LONGEST_FRAME;
use std::hash::{DefaultHasher, Hasher};
use std::marker::Model;

/// What is to be kept of a frame that comes. Contracts see a `CameFrame`.
#[derive(Debug, Drop)]
pub(crate) struct ComingFrame<'a> {
    /// When it came, in nanoseconds since 1970.
    pub(crate) time: u64,
    /// How many bytes it has.
    pub(crate) length: usize,
    /// The bytes that are kept of it: its first 16 where it is longer than a MAC frame can be.
    pub(crate) bytes: &'a [u8],
    /// The numbers of the bursts that are named of it.
    pub(crate) bursts: &'a [u64],
    /// A hash of the bytes that are kept, SipHash-1-3.
    pub(crate) fingerprint: u64,
}

impl<'a> Model for ComingFrame<'a> {
    ghost use Rattle.std.specs.Prelude.{◌≡◌};
    ghost use Rattle.frame_comparison.specs.Frames.{CameFrame};
    ghost use Rattle.frame_comparison.specs.Fingerprint.{siphash};

    ghost Value = { CameFrame };

    ghost view = { λ one. record {
      time = one.time;
      byte_count = one.length;
      bytes = one.bytes.now;
      bursts = one.bursts.now;
    } };

    ghost invariant = { λ one. one.fingerprint ≡ siphash one.bytes.now };
}

impl<'a> ComingFrame<'a> {
    /// What is to be kept of a frame that came at this time, in nanoseconds since 1970, and of
    /// which these bursts are named.
    pub(crate) fn new(time: u64, frame: &'a [u8], bursts: &'a [u64]) -> ComingFrame<'a>
        ensures { result ≡ kept (came time frame.now bursts.now) }
    {
        let bytes = kept_bytes(frame);
        ComingFrame {
            time,
            length: frame.len(),
            bytes,
            bursts,
            fingerprint: siphash(bytes),
        }
    }
}

/// The bytes that are kept of a frame: its first 16 where it is longer than a MAC frame can be.
fn kept_bytes(frame: &[u8]) -> &[u8]
    ensures { result.now ≡ (if nat_le (length frame.now) longest_frame then frame.now
        else shown_front frame.now) }
{
    if frame.len() <= LONGEST_FRAME {
        frame
    } else {
        &frame[..SHOWN_BYTES]
    }
}

/// SipHash-1-3 of some bytes: that of other bytes is another one, but for very few that are hard to
/// find.
fn siphash(bytes: &[u8]) -> u64
    ensures { result ≡ siphash bytes.now }
{
    let mut hasher = DefaultHasher::new();
    hasher.write(bytes);
    hasher.finish()
}
