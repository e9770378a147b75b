//! Frames cut into segments, all at once or a segment at a time.
ghost use Rattle.std.specs.Prelude.{◌≡◌, ◌≢◌, ◌+◌, ◌<◌, ◌↔◌, ◌⊎◌, ◌++◌, ℕ, Bool, List, false};
ghost use Rattle.std.specs.Prelude.{length, min, replicate};
ghost use Rattle.std.specs.Prelude.{IfOk, IfErr, IsOk, OnOk, OnErr};
ghost use Rattle.std.specs.List.{concat, AllByRecursion};
ghost use Rattle.docsis_wire.specs.Frame.{IsGenericFrame};
ghost use Rattle.docsis_wire.specs.Cut.{IsLawfulCut, Points};
ghost use Rattle.docsis_wire.specs.Inside.Cursor.{place_at, IsPlaced, chunk_at, CanPoint};
ghost use Rattle.docsis_wire.specs.Pieces.{fill_byte, chunks_of, ArePieceSegments, IsFirstBadFrame};
ghost use Rattle.docsis_wire.specs.Pieces.{IsFirstFillInsideFrame, IsFirstPointerTooFar};
ghost use Rattle.docsis_wire.specs.Pieces.{IsCuttable, Reports};
ghost use Rattle.docsis_wire.specs.Limits.{sequence_modulus};
ghost use Rattle.docsis_wire.specs.CutUnderWay.{GivesNext};

use crate::buffer::Bytes;
use crate::cursor::{Cursor, START, advance, first_start};
use crate::header::{SEQUENCE_MODULUS, SegmentHeader};
use crate::header_check::HeaderCheck;
use crate::pieces::{CutFault, FillByte, Piece, check};
use crate::segment::Segment;
use crate::segment_parts::SegmentParts;
use std::alloc::{AllocError, Global};
use std::marker::Model;

/// The header of a segment whose chunk is the next `bytes` bytes.
fn header_at(frames: &[Bytes], at: Cursor, bytes: usize, sequence: u16) -> SegmentHeader
    requires placed { IsPlaced frames.now at }
    requires each { AllByRecursion IsGenericFrame frames.now }
    requires near { CanPoint frames.now at bytes }
    requires number { sequence < sequence_modulus }
    ensures points { Points result.pfi result.pointer frames.now
        (place_at frames.now at) (chunk_at frames.now at bytes) }
    ensures no_pointer { result.pfi ≡ false → result.pointer ≡ 0 }
    ensures number { result.sequence ≡ sequence }
    ensures reserved { result.reserved ≡ false }
    ensures cluster { result.cluster ≡ 0 }
    ensures request { result.request ≡ 0 }
    ensures hcs { result.hcs ≡ 0 }
{
    let start = first_start(frames, at, bytes);
    SegmentHeader {
        pfi: start.is_some(),
        reserved: false,
        pointer: start.unwrap_or(0) as u16,
        sequence,
        cluster: 0,
        request: 0,
        hcs: 0,
    }
}

/// A cut of frames into pieces that is being made, a segment at a time. Contracts see what is cut
/// and into what, the first number, the fill, and how many segments were made.
#[derive(Drop)]
pub struct Cutter<'a> {
    frames: &'a [Bytes],
    pieces: &'a [Piece],
    first: u16,
    fill: FillByte,
    made: usize,
    at: Cursor,
}

impl<'a> Model for Cutter<'a> {
    ghost use Rattle.docsis_wire.specs.CutUnderWay.{CutUnderWay};
    ghost use Rattle.docsis_wire.specs.Inside.UnderWay.{IsUnderWay};

    ghost Value = { CutUnderWay };

    ghost view = { λ c. record {
      frames = c.frames.now;
      pieces = c.pieces.now;
      first = c.first;
      fill = c.fill;
      made = c.made;
    } };

    ghost invariant = { λ c. IsUnderWay c.frames.now c.pieces.now c.first c.made c.at };
}

impl<'a> Cutter<'a> {
    /// A cut of which no segment was made yet, or the first fault of the frames and the pieces. The
    /// first segment's number is `first`, 0 to 8191. The frames' headers have to pass the check,
    /// which is asked here and not again. It takes no memory.
    pub fn new<C: HeaderCheck>(
        frames: &'a [Bytes],
        pieces: &'a [Piece],
        first: u16,
        fill: FillByte,
        header_check: &C,
    ) -> Result<Cutter<'a>, CutFault>
        requires { first < sequence_modulus }
        ensures begins { IfOk result (λ cutter. cutter ≡ record {
          frames = frames.now;
          pieces = pieces.now;
          first = first;
          fill = fill;
          made = 0;
        }) }
        ensures cuttable { OnOk result
            (IsCuttable (C.accepts header_check.now) frames.now pieces.now) }
        ensures faults { IfErr result (Reports (C.accepts header_check.now) frames.now pieces.now) }
        ensures no_memory { IfErr result (λ fault. fault ≢ CutFault.OutOfMemory) }
    {
        check(frames, pieces, header_check)?;
        Ok(Cutter {
            frames,
            pieces,
            first,
            fill,
            made: 0,
            at: START,
        })
    }

    /// The next piece's segment, or `None` once all were given, however often it is called. It
    /// takes no memory.
    ///
    /// The segments that it gives one after another are the cut that it began with:
    /// `laws::segments_made_one_by_one_are_the_cut`.
    pub fn next(&mut self) -> Option<SegmentParts<'a>>
        ensures { GivesNext self.old self.new result }
    {
        let Some(piece) = self.pieces.get(self.made) else {
            return None;
        };
        let sequence = (self.first + (self.made % usize::from(SEQUENCE_MODULUS)) as u16)
            % SEQUENCE_MODULUS;
        let head = header_at(self.frames, self.at, usize::from(piece.bytes), sequence);
        let parts = SegmentParts::new(head, self.frames, self.at, *piece, self.fill);
        advance(self.frames, &mut self.at, usize::from(piece.bytes));
        self.made += 1;
        Some(parts)
    }
}

/// Makes the segment of each piece, of which there are so many.
fn make(alloc: Global, cutter: Cutter<'_>, count: usize) -> Result<Vec<Segment>, AllocError>
    requires begins { cutter.made ≡ 0 }
    ensures lawful { IfOk result
        (λ segments. (check : List ℕ → Bool)
        → IsCuttable check cutter.entry.frames cutter.entry.pieces
        → IsLawfulCut check cutter.entry.frames cutter.entry.first
        (fill_byte cutter.entry.fill) (chunks_of cutter.entry.frames cutter.entry.pieces)
        segments.items) }
    ensures named { IfOk result
        (λ segments. ArePieceSegments (fill_byte cutter.entry.fill) cutter.entry.frames
        cutter.entry.pieces segments.items) }
{
    let mut cutter = cutter;
    let mut segments = Vec::with_capacity(alloc, count)?;
    while let Some(parts) = cutter.next() {
        segments.push(parts.to_segment(alloc)?)?;
    }
    Ok(segments)
}

/// Cuts the frames, end to end, into one segment for each piece. Of the bytes of the frames segment
/// k takes as many of the next ones as piece k has in `bytes`, or those that remain if that is
/// less, and after them come as many bytes of fill as it has in `fill`. PFI is set exactly where a
/// frame starts in the bytes that the segment took, and the pointer is then how many of them come
/// before the first such start; otherwise it is 0. The number is `first + k` modulo 8192, and
/// `first` is 0 to 8191. All other fields are 0 (CM-SP-MULPIv3.0, segment header format; fill by
/// this project's profile).
///
/// No frame, no piece, and a piece with no bytes are lawful; such a piece may have fill before the
/// first frame, between two frames, and after the last. The faults are looked for before any memory
/// is taken.
///
/// The pieces make one cut only, and frames and pieces that make one have no fault:
/// `laws::pieces_make_one_cut`,
/// `laws::lawful_cut_has_no_fault`.
pub fn cut<C: HeaderCheck>(
    alloc: Global,
    frames: &[Bytes],
    pieces: &[Piece],
    first: u16,
    fill: FillByte,
    header_check: &C,
) -> Result<Vec<Segment>, CutFault>
    requires { first < sequence_modulus }
    ensures lawful { IfOk result
        (λ segments. IsLawfulCut (C.accepts header_check.now) frames.now first (fill_byte fill)
        (chunks_of frames.now pieces.now) segments.items) }
    ensures named { IfOk result
        (λ segments. ArePieceSegments (fill_byte fill) frames.now pieces.now segments.items) }

    // Each fault is reported exactly where it is the first.
    ensures bad_frame { (k : ℕ)
        → (result ≡ Err (CutFault.BadFrame k))
        ↔ IsFirstBadFrame (C.accepts header_check.now) frames.now k }
    ensures fill_inside_frame { (k : ℕ)
        → (result ≡ Err (CutFault.FillInsideFrame k))
        ↔ IsFirstFillInsideFrame (C.accepts header_check.now) frames.now pieces.now k }
    ensures pointer_too_far { (k : ℕ)
        → (result ≡ Err (CutFault.PointerTooFar k))
        ↔ IsFirstPointerTooFar (C.accepts header_check.now) frames.now pieces.now k }
    ensures cuttable { (IsOk result ⊎ (result ≡ Err CutFault.OutOfMemory))
        ↔ IsCuttable (C.accepts header_check.now) frames.now pieces.now }
{
    let cutter = Cutter::new(frames, pieces, first, fill, header_check)?;
    make(alloc, cutter, pieces.len()).or(Err(CutFault::OutOfMemory))
}
