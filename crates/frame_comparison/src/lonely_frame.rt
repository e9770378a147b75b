//! The frames that only one side has.
ghost use Rattle.std.specs.Prelude.{◌≡◌, ◌≤◌, ◌++◌, ◌∷◌, [], IfOk, length, vec_capacity};
ghost use Rattle.frame_comparison.specs.Frames.{ShownFrame, shown_bytes};
ghost use Rattle.frame_comparison.specs.Seen.{listed, listed_most};

use std::alloc::{AllocError, Global};
use std::marker::Model;

/// So many bytes of a frame are told.
pub const SHOWN_BYTES: usize = 16;

/// So many frames of a side are listed.
pub const MOST_LISTED: usize = 100;

/// A frame that only one side has. Contracts see a `ShownFrame`.
#[derive(Debug, Drop)]
pub struct LonelyFrame {
    /// The flow's index.
    pub flow: usize,
    /// When it came, in nanoseconds since 1970.
    pub time: u64,
    /// How many bytes it has.
    pub length: usize,
    /// Its first 16 bytes, or all where it has fewer.
    pub first: Vec<u8>,
    /// The numbers of the bursts that are named of it.
    pub bursts: Vec<u64>,
}

impl Model for LonelyFrame {
    ghost use Rattle.frame_comparison.specs.Frames.{ShownFrame};

    ghost Value = { ShownFrame };

    ghost view = { λ one. record {
      flow = one.flow;
      time = one.time;
      byte_count = one.length;
      first = one.first.items;
      bursts = one.bursts.items;
    } };
}

/// The first frames that only one side has.
#[derive(Debug, Drop)]
pub(crate) struct ListedFrames {
    frames: Vec<LonelyFrame>,
    ghost room: { listed_most ≤ vec_capacity frames },
    ghost few: { length frames.items ≤ listed_most },
}

impl ListedFrames {
    /// None is listed, and there is room for all that may be.
    pub(crate) fn new(alloc: Global) -> Result<ListedFrames, AllocError>
        ensures { IfOk result (λ all. all.frames.items ≡ []) }
    {
        let frames = Vec::with_capacity(alloc, MOST_LISTED)?;
        Ok(ListedFrames { frames })
    }

    /// They, in the order in which they were listed.
    pub(crate) fn as_slice(&self) -> &[LonelyFrame]
        ensures { result.now ≡ self.now.frames.items }
    {
        self.frames.as_slice()
    }

    /// Lists one more if fewer than a hundred are. It asks for no memory.
    pub(crate) fn list(&mut self, frame: LonelyFrame)
        ensures { self.new.frames.items ≡ listed (self.old.frames.items ++ frame ∷ []) }
    {
        if self.frames.len() < MOST_LISTED {
            self.frames.push_reserved(frame);
        }
    }
}
