//! A segment of a cut, part by part as its bytes stand in the frames.
ghost use Rattle.std.specs.Prelude.{◌≡◌, ◌<◌, ◌++◌, [], None, length, min, replicate, IfSome, IfOk};
ghost use Rattle.std.specs.List.{AllByRecursion};
ghost use Rattle.docsis_wire.specs.Frame.{IsGenericFrame};
ghost use Rattle.docsis_wire.specs.Inside.Cursor.{IsPlaced, chunk_at};
ghost use Rattle.docsis_wire.specs.Pieces.{fill_byte};

use crate::buffer::Bytes;
use crate::cursor::{Cursor, next_part};
use crate::header::SegmentHeader;
use crate::pieces::{FillByte, Piece};
use crate::segment::Segment;
use std::alloc::{AllocError, Global};
use std::marker::Model;

/// At most so many bytes of fill are given at once.
const FILL_PART: usize = 64;

const ZEROS: &[u8] = &[0x00; FILL_PART];

const ONES: &[u8] = &[0xFF; FILL_PART];

/// A segment of a cut whose payload is given part by part, so that nothing is copied. Contracts see
/// the segment; its payload is what was not given yet.
#[derive(Drop)]
pub struct SegmentParts<'a> {
    head: SegmentHeader,
    frames: &'a [Bytes],
    at: Cursor,
    /// How many bytes of the frames are left to be given, if there are so many.
    bytes: usize,
    /// How many bytes of fill are left to be given.
    filling: usize,
    fill: FillByte,
}

impl<'a> Model for SegmentParts<'a> {
    ghost use Rattle.docsis_wire.specs.declared.segment.Segment.{Segment};
    ghost use Rattle.docsis_wire.specs.Inside.Parts.{payload_left, IsWithin};

    ghost Value = { Segment };

    ghost view = { λ parts. record {
      head = parts.head;
      payload = payload_left parts.frames.now parts.at parts.bytes parts.filling parts.fill;
    } };

    ghost invariant = { λ parts. IsWithin parts.frames.now parts.at };
}

/// So many bytes of fill, or 64 if that is less.
fn fill_part(fill: FillByte, most: usize) -> &'static [u8]
    ensures { result.now ≡ replicate (min most 64) (fill_byte fill) }
{
    let whole = match fill {
        FillByte::Zero => ZEROS,
        FillByte::Ones => ONES,
    };
    &whole[..most.min(FILL_PART)]
}

impl<'a> SegmentParts<'a> {
    /// A segment with this header, whose payload is the bytes that come next in the frames and then
    /// fill, as the piece has them.
    pub(crate) fn new(
        head: SegmentHeader,
        frames: &'a [Bytes],
        at: Cursor,
        piece: Piece,
        fill: FillByte,
    ) -> SegmentParts<'a>
        requires placed { IsPlaced frames.now at }
        requires each { AllByRecursion IsGenericFrame frames.now }
        ensures { result ≡ record {
          head = head;
          payload = chunk_at frames.now at piece.bytes ++ replicate piece.fill (fill_byte fill);
        } }
    {
        SegmentParts {
            head,
            frames,
            at,
            bytes: usize::from(piece.bytes),
            filling: usize::from(piece.fill),
            fill,
        }
    }

    /// Its header.
    pub fn head(&self) -> SegmentHeader
        ensures { result ≡ self.now.head }
    {
        self.head
    }

    /// The next bytes of the payload, at least one, or `None` once all were given.
    pub fn next_part(&mut self) -> Option<&'a [u8]>
        ensures part { IfSome result (λ part. self.old.payload ≡ part.now ++ self.new.payload) }
        ensures some { IfSome result (λ part. 0 < length part.now) }
        ensures all { result ≡ None → self.old.payload ≡ [] }
        ensures stays { result ≡ None → self.new ≡ self.old }
        ensures head { self.new.head ≡ self.old.head }
    {
        let part = next_part(self.frames, &mut self.at, self.bytes);
        if !part.is_empty() {
            self.bytes -= part.len();
            return Some(part);
        }
        let filled = fill_part(self.fill, self.filling);
        if filled.is_empty() {
            return None;
        }
        self.bytes = 0;
        self.filling -= filled.len();
        Some(filled)
    }

    /// The segment, with a copy of what was not given yet of its payload.
    pub fn to_segment(&self, alloc: Global) -> Result<Segment, AllocError>
        ensures { IfOk result (λ segment. segment ≡ self.now) }
    {
        let head = self.head;
        let mut parts = SegmentParts { ..*self };
        let mut payload = Vec::new(alloc);
        while let Some(part) = parts.next_part() {
            payload.extend_from_slice(part)?;
        }
        Ok(Segment {
            head,
            payload: Bytes::from(payload),
        })
    }
}
