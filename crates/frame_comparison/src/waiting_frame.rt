//! A frame that waits for its equal.
ghost use Rattle.std.specs.Prelude.{◌≡◌, IfOk};
ghost use Rattle.frame_comparison.specs.Frames.{shown_of};
ghost use Rattle.frame_comparison.specs.Compared.{are_equal, place_of_equal};

use crate::coming_frame::ComingFrame;
use crate::lonely_frame::{LonelyFrame, SHOWN_BYTES};
use frame_records::LONGEST_FRAME;
use std::alloc::{AllocError, Global};
use std::collections::VecDeque;
use std::marker::Model;

/// What is kept of a frame that waits for its equal. Contracts see a `CameFrame`.
#[derive(Debug, Drop)]
pub(crate) struct WaitingFrame {
    time: u64,
    length: usize,
    bytes: Vec<u8>,
    bursts: Vec<u64>,
    fingerprint: u64,
}

impl Model for WaitingFrame {
    ghost use Rattle.std.specs.Prelude.{◌≡◌};
    ghost use Rattle.frame_comparison.specs.Frames.{CameFrame};
    ghost use Rattle.frame_comparison.specs.Fingerprint.{siphash};

    ghost Value = { CameFrame };

    ghost view = { λ one. record {
      time = one.time;
      byte_count = one.length;
      bytes = one.bytes.items;
      bursts = one.bursts.items;
    } };

    ghost invariant = { λ one. one.fingerprint ≡ siphash one.bytes.items };
}

impl WaitingFrame {
    /// A frame that came and waits.
    pub(crate) fn new(alloc: Global, frame: &ComingFrame<'_>) -> Result<WaitingFrame, AllocError>
        ensures { IfOk result (λ one. one ≡ frame.now) }
    {
        let bytes = Vec::from_slice(alloc, frame.bytes)?;
        let bursts = Vec::from_slice(alloc, frame.bursts)?;
        Ok(WaitingFrame {
            time: frame.time,
            length: frame.length,
            bytes,
            bursts,
            fingerprint: frame.fingerprint,
        })
    }

    /// Whether this frame equals it: neither is longer than a MAC frame can be, and all bytes are
    /// the same. Their fingerprints are compared first, so that frames that differ late cost as
    /// little as others.
    pub(crate) fn equals(&self, frame: &ComingFrame<'_>) -> bool
        ensures { result ≡ are_equal self.now frame.now }
    {
        self.fingerprint == frame.fingerprint
            && self.length <= LONGEST_FRAME
            && frame.length <= LONGEST_FRAME
            && self.bytes.as_slice() == frame.bytes
    }

    /// What is told of it where it is given up, as a frame of this flow. It asks for no memory.
    pub(crate) fn into_lonely(self, flow: usize) -> LonelyFrame
        ensures { result ≡ shown_of flow self }
    {
        let WaitingFrame {
            time,
            length,
            bytes,
            bursts,
            fingerprint: _,
        } = self;
        let mut first = bytes;
        first.truncate(SHOWN_BYTES);
        LonelyFrame {
            flow,
            time,
            length,
            first,
            bursts,
        }
    }
}

/// The place of the first waiting frame that equals this one, if there is one.
pub(crate) fn place_of_equal(
    waiting: &VecDeque<WaitingFrame>,
    frame: &ComingFrame<'_>,
) -> Option<usize>
    ensures { result ≡ place_of_equal frame.now waiting.now.items }
{
    waiting.iter().position(|one| one.equals(frame))
}
