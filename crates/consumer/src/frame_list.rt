//! Frames that are kept in order.
ghost use Rattle.std.specs.Prelude.{◌≡◌, ◌≤◌, ◌↔◌, ◌++◌, ◌∷◌, [], ℕ, List, All, Some, None, length};
ghost use Rattle.std.specs.Prelude.{IsTrue, IfSome, OnOk, OnErr, slice_get};
ghost use Rattle.std.specs.Iterator.{YieldsFirstRef, UpTo, item_count};
ghost use Rattle.std.specs.Iterator.SizeHint.{IsWithinCount};
ghost use Rattle.consumer.specs.Listed.{frames_left};

use docsis_wire::Bytes;
use std::alloc::{AllocError, Global};
use std::fmt;
use std::marker::Model;

/// A frame of so many bytes or more keeps the memory that it came in. A shorter one is copied, so
/// that it needs no memory of its own beside its bytes.
const LONG_MIN: usize = 64;

/// The frames of a flow, in order. Contracts see a `Vec` of them.
///
/// Short frames are copied, and stand end to end.
#[derive(Drop)]
pub struct FrameList {
    /// The bytes of the short frames.
    short: Vec<u8>,
    frames: Vec<Kept>,
}

/// A frame: where it stands among the short ones, or its own bytes.
#[derive(Drop)]
enum Kept {
    Short { start: usize, end: usize },
    Long(Bytes),
}

impl Model for FrameList {
    ghost use Rattle.std.specs.Prelude.{ℕ, Vec, List, All};
    ghost use Rattle.std.specs.declared.alloc.Global.{Global};

    ghost Value = { Vec (List ℕ) Global };

    ghost use Rattle.consumer.specs.Inside.KeptFrames.{frames_kept, HasPlace};

    ghost view = { λ list. frames_kept list.short.items list.frames };

    ghost invariant = { λ list. All (HasPlace list.short.items) list.frames.items };
}

impl fmt::Debug for FrameList {
    fn fmt<W: fmt::Write>(&self, f: &mut fmt::Formatter<W>) -> fmt::Result {
        f.debug_list().entries(self.iter()).finish()
    }
}

impl FrameList {
    /// No frame.
    pub fn new(alloc: Global) -> FrameList
        ensures { result.items ≡ [] }
    {
        FrameList {
            short: Vec::new(alloc),
            frames: Vec::new(alloc),
        }
    }

    pub fn len(&self) -> usize
        ensures { result ≡ length self.now.items }
    {
        self.frames.len()
    }

    pub fn is_empty(&self) -> bool
        ensures { IsTrue result ↔ (self.now.items ≡ []) }
    {
        self.frames.is_empty()
    }

    /// The frame at this place, or none if there are no more than so many.
    pub fn get(&self, index: usize) -> Option<&[u8]>
        ensures frame { IfSome result (λ frame. slice_get self.now.items index ≡ Some frame.now) }
        ensures none { result ≡ None ↔ (length self.now.items ≤ index) }
    {
        match self.frames.get(index)? {
            Kept::Short { start, end } => Some(&self.short[*start..*end]),
            Kept::Long(frame) => Some(frame.as_slice()),
        }
    }

    /// The frames, in order.
    pub fn iter(&self) -> Frames<'_>
        ensures { frames_left result ≡ self.now.items }
    {
        Frames {
            list: self,
            next: 0,
        }
    }

    /// Lets all frames go. The room for the bytes of short ones and for places is kept for others,
    /// so that as many of the same lengths can be pushed again without more memory.
    pub fn clear(&mut self)
        ensures { self.new.items ≡ [] }
    {
        self.frames.clear();
        // No frame stands there any more. Else they would only grow.
        self.short.clear();
    }

    /// Adds a frame at the end. Where an allocation fails the frame is dropped, and the list is as
    /// it was.
    pub fn push(&mut self, frame: Bytes) -> Result<(), AllocError>
        ensures pushed { OnOk result (self.new.items ≡ self.old.items ++ frame ∷ []) }
        ensures unchanged { OnErr result (self.new.items ≡ self.old.items) }
    {
        self.frames.reserve(1)?;
        if frame.len() >= LONG_MIN {
            self.frames.push_reserved(Kept::Long(frame));
            return Ok(());
        }
        let start = self.short.len();
        self.short.extend_from_slice(frame.as_slice())?;
        let end = self.short.len();
        self.frames.push_reserved(Kept::Short { start, end });
        Ok(())
    }
}

/// The frames of a list that are still to come, in order.
#[derive(Clone, Debug, Drop)]
pub struct Frames<'a> {
    list: &'a FrameList,
    next: usize,
}

impl<'a> Iterator for Frames<'a> {
    type Item = &'a [u8];

    ghost next_gives = { YieldsFirstRef frames_left };

    ghost remaining = { item_count frames_left };

    fn next(&mut self) -> Option<&'a [u8]> {
        let frame = self.list.get(self.next)?;
        self.next += 1;
        Some(frame)
    }

    fn size_hint(&self) -> (usize, Option<usize>)
        ensures lower { IsWithinCount result.0 (item_count frames_left self.now) }
        ensures upper { IfSome result.1 (UpTo (item_count frames_left self.now)) }
        ensures exact { result
            ≡ (length (frames_left self.now), Some (length (frames_left self.now))) }
    {
        let left = self.list.len().saturating_sub(self.next);
        (left, Some(left))
    }
}

impl<'a> IntoIterator for &'a FrameList {
    type Item = &'a [u8];

    type IntoIter = Frames<'a>;

    ghost into_iter_gives = { λ list frames. frames_left frames ≡ list.now.items };

    fn into_iter(self) -> Frames<'a> {
        self.iter()
    }
}
