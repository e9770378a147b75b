//! A header and its eight bytes determine each other, the pieces determine the cut, or its first
//! fault, and a long division leaves the one remainder.
//!
//! Each function states a law in its contract; its body is empty or only calls other laws.
ghost use Rattle.std.specs.Prelude.{◌≡◌, ◌≢◌, ◌<◌, ◌≤◌, ◌↔◌, ℕ, ◌%◌, Bool, Option, Some, IsSome};
ghost use Rattle.std.specs.Prelude.{IfSome, All, List, [], ◌∷◌, ◌++◌, length, take};
ghost use Rattle.docsis_wire.specs.declared.header.SegmentHeader.{SegmentHeader};
ghost use Rattle.docsis_wire.specs.declared.header_check.NoCheck.{NoCheck};
ghost use Rattle.docsis_wire.specs.declared.pieces.Piece.{Piece};
ghost use Rattle.docsis_wire.specs.declared.pieces.CutFault.{CutFault};
ghost use Rattle.docsis_wire.specs.declared.segment.Segment.{Segment};
ghost use Rattle.docsis_wire.specs.Limits.{header_length};
ghost use Rattle.docsis_wire.specs.Header.{header_bytes};
ghost use Rattle.docsis_wire.specs.Frame.{IsGenericFrame, IsFrame};
ghost use Rattle.docsis_wire.specs.Cut.{IsLawfulCut};
ghost use Rattle.docsis_wire.specs.CutUnderWay.{CutUnderWay, IsSameCut, HasMade, GivesNext};
ghost use Rattle.docsis_wire.specs.Division.{remainder_after, IsRemainder};
ghost use Rattle.docsis_wire.specs.Pieces.{fill_byte, chunks_of, ArePieceSegments, IsCuttable};
ghost use Rattle.docsis_wire.specs.Pieces.{Reports};

use crate::header_check::{HeaderCheck, NoCheck};

/// The same eight bytes are the bytes of one header only.
pub fn eight_bytes_spell_one_header()
    ensures { (head other : SegmentHeader)
        → header_bytes head ≡ header_bytes other → head ≡ other }
{}

/// Any eight bytes, each below 256, are the bytes of a header.
pub fn eight_bytes_spell_a_header()
    ensures { (bytes : List ℕ) → length bytes ≡ header_length → All (λ byte. byte < 256) bytes
        → (head : SegmentHeader) × (header_bytes head ≡ bytes) }
{}

/// What `read_segment` answers, by its contract, for the bytes that a header is written as is that
/// header.
pub fn written_header_is_read_back()
    ensures { (head : SegmentHeader) (answer : Option SegmentHeader)
        → IsSome answer ↔ (header_length ≤ length (header_bytes head))
        → IfSome answer (λ read. header_bytes read ≡ take header_length (header_bytes head))
        → answer ≡ Some head }
{}

/// The header that `read_segment` answers, by its contract, for eight bytes is written as those
/// bytes.
pub fn read_header_is_written_back()
    ensures { (bytes : List ℕ) (answer : Option SegmentHeader) → length bytes ≡ header_length
        → IsSome answer ↔ (header_length ≤ length bytes)
        → IfSome answer (λ read. header_bytes read ≡ take header_length bytes)
        → (head : SegmentHeader) × (answer ≡ Some head) × (header_bytes head ≡ bytes) }
{}

/// With `NoCheck` a frame is any frame of the generic format.
pub fn frame_without_check_is_a_generic_frame()
    ensures { (check : NoCheck) (frame : List ℕ)
        → IsFrame (⟦<NoCheck as HeaderCheck>⟧.accepts check) frame ↔ IsGenericFrame frame }
{}

/// The pieces make one cut of the frames: neither a header nor a payload is left open.
pub fn pieces_make_one_cut()
    ensures { (check : List ℕ → Bool) (frames : List (List ℕ)) (pieces : List Piece)
        (first fill : ℕ) (segments others : List Segment)
        → IsLawfulCut check frames first fill (chunks_of frames pieces) segments
        → ArePieceSegments fill frames pieces segments
        → IsLawfulCut check frames first fill (chunks_of frames pieces) others
        → ArePieceSegments fill frames pieces others
        → segments ≡ others }
{}

/// Frames and pieces have at most one first fault, and none but out of memory where they can be
/// cut.
pub fn cut_has_one_fault()
    ensures { (check : List ℕ → Bool) (frames : List (List ℕ)) (pieces : List Piece)
        (fault other : CutFault)
        → Reports check frames pieces fault → Reports check frames pieces other
        → fault ≡ other }
{}

/// Where the pieces make a lawful cut of the frames, nothing is at fault.
pub fn lawful_cut_has_no_fault()
    ensures { (check : List ℕ → Bool) (frames : List (List ℕ)) (pieces : List Piece)
        (first fill : ℕ) (segments : List Segment)
        → IsLawfulCut check frames first fill (chunks_of frames pieces) segments
        → ArePieceSegments fill frames pieces segments
        → IsCuttable check frames pieces }
{}

/// The segments that a `Cutter` makes one after another, until it gives none, are the cut that it
/// began with, a lawful one.
pub fn segments_made_one_by_one_are_the_cut()
    ensures none { (cut : CutUnderWay) → cut.made ≡ 0 → IsSameCut cut cut × HasMade cut [] }
    ensures one_more { (begun before after : CutUnderWay)
        (segments : List Segment) (segment : Segment)
        → IsSameCut begun before → HasMade before segments
        → GivesNext before after (Some segment)
        → IsSameCut begun after × HasMade after (segments ++ segment ∷ []) }
    ensures all { (check : List ℕ → Bool) (begun cut after : CutUnderWay)
        (segments : List Segment) (answer : Option Segment)
        → IsCuttable check begun.frames begun.pieces → IsSameCut begun cut → HasMade cut segments
        → GivesNext cut after answer → ((segment : Segment) → answer ≢ Some segment)
        → IsLawfulCut check begun.frames begun.first (fill_byte begun.fill)
        (chunks_of begun.frames begun.pieces) segments
        × ArePieceSegments (fill_byte begun.fill) begun.frames begun.pieces segments }
{}

/// What a long division leaves is the remainder, and no other number is, where the divisor's
/// leading coefficient is 1.
pub fn long_division_leaves_the_remainder()
    ensures { (divisor steps dividend remainder : ℕ) → divisor % 2 ≡ 1
        → IsRemainder divisor steps dividend remainder
        ↔ (remainder ≡ remainder_after divisor steps dividend) }
{}
