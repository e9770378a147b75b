//! What a cut is to put into each segment, and what can be at fault with it.
ghost use Rattle.std.specs.Prelude.{◌≡◌, ◌≢◌, ℕ, Bool, List, IfErr, OnOk};
ghost use Rattle.std.specs.List.{AllByRecursion};
ghost use Rattle.docsis_wire.specs.Frame.{IsGenericFrame, IsFrame};
ghost use Rattle.docsis_wire.specs.Pieces.{fill_byte, IsUnlawful, IsCuttable, Reports};

use crate::buffer::Bytes;
use crate::cursor::{START, advance, first_start};
use crate::frame::well_formed;
use crate::header_check::HeaderCheck;
use thiserror::Error;

/// The greatest number of bytes that a pointer can skip.
const POINTER_MAX: usize = 16_383;

/// The byte that a whole flow is filled with (this project's profile).
#[derive(Clone, Copy, Debug, PartialEq, Eq)]
pub enum FillByte {
    /// 0x00.
    Zero,
    /// 0xFF.
    Ones,
}

/// What one segment is to carry.
#[derive(Clone, Copy, Debug, PartialEq, Eq)]
pub struct Piece {
    /// How many of the next bytes of the frames, or those that remain if that is less.
    pub bytes: u16,
    /// How many bytes of fill follow them.
    pub fill: u16,
}

/// Why the frames cannot be cut into these pieces. Frames and pieces are counted from 0.
///
/// Frames and pieces have one fault at most: `laws::cut_has_one_fault`.
#[derive(Clone, Copy, Debug, PartialEq, Eq, Error)]
pub enum CutFault {
    /// This frame is not well formed. The first such frame is reported, before any other fault.
    #[error("frame {0} is not a frame")]
    BadFrame(usize),
    /// This piece has fill, and its data end neither at a frame's end nor before the first frame.
    /// Of this and a pointer that is too far the first piece is reported, and this one first of one
    /// piece.
    #[error("piece {0} has fill inside a frame")]
    FillInsideFrame(usize),
    /// More than 16,383 bytes of this piece precede the first frame that starts in it.
    #[error("piece {0} has a pointer past 16383")]
    PointerTooFar(usize),
    /// An allocation failed. It is reported only of frames and pieces without a fault.
    #[error("out of memory")]
    OutOfMemory,
}

impl FillByte {
    /// The byte itself.
    pub fn byte(self) -> u8
        ensures { result ≡ fill_byte self }
    {
        match self {
            FillByte::Zero => 0x00,
            FillByte::Ones => 0xFF,
        }
    }
}

/// Looks for the first fault of the frames and then of the pieces. It takes no memory.
pub fn check<C: HeaderCheck>(
    frames: &[Bytes],
    pieces: &[Piece],
    header_check: &C,
) -> Result<(), CutFault>
    ensures cuttable { OnOk result (IsCuttable (C.accepts header_check.now) frames.now pieces.now) }
    ensures faults { IfErr result (Reports (C.accepts header_check.now) frames.now pieces.now) }
    ensures no_memory { IfErr result (λ fault. fault ≢ CutFault.OutOfMemory) }
{
    for (k, frame) in frames.iter().enumerate() {
        if !well_formed(frame.as_slice(), header_check) {
            return Err(CutFault::BadFrame(k));
        }
    }
    check_pieces(frames, pieces)
}

/// Looks for the first fault of the pieces. Whatever the check of the frames' headers is, it plays
/// no part in that.
fn check_pieces(frames: &[Bytes], pieces: &[Piece]) -> Result<(), CutFault>
    requires { AllByRecursion IsGenericFrame frames.now }
    ensures cuttable { OnOk result ((k : ℕ) → ¬ IsUnlawful frames.now pieces.now k) }
    ensures faults { IfErr result
        (λ fault. (check : List ℕ → Bool) → AllByRecursion (IsFrame check) frames.now
        → Reports check frames.now pieces.now fault) }
    ensures no_memory { IfErr result (λ fault. fault ≢ CutFault.OutOfMemory) }
{
    let mut at = START;
    for (k, piece) in pieces.iter().enumerate() {
        let bytes = usize::from(piece.bytes);
        let pointer = first_start(frames, at, bytes).unwrap_or(0);
        advance(frames, &mut at, bytes);
        if piece.fill > 0 && at.offset > 0 {
            return Err(CutFault::FillInsideFrame(k));
        }
        if pointer > POINTER_MAX {
            return Err(CutFault::PointerTooFar(k));
        }
    }
    Ok(())
}
