//! A line of `cut`.
ghost use Rattle.std.specs.Prelude.{◌∷◌, IfOk, IfErr};
ghost use Rattle.text_lines.specs.Inside.LineFault.{IsLineFault};
ghost use Rattle.text_lines.specs.Lines.{words_of};
ghost use Rattle.texts.specs.Cut.Line.{HasFault, frame_word, piece_word};
ghost use Rattle.texts.specs.Inside.Cut.{Carries};

use docsis_wire::{Bytes, Piece};
use std::alloc::Global;
use text_lines::{LineFault, TraceKind, only_two_words, only_word, read_hex, read_number};

/// The greatest number of bytes, and of fill, that a piece can name.
const NUMBER_MAX: u32 = 65_535;

/// What a line of `cut` carries.
#[derive(Debug, Drop)]
pub enum CutLine {
    /// The bytes of what should be a frame.
    Frame(Bytes),
    /// What one segment is to carry.
    Piece(Piece),
}

/// The frame or the piece of a line, by its first field and what follows that.
pub fn read_cut_line(alloc: Global, field: &[u8], rest: &[u8]) -> Result<CutLine, LineFault>
    ensures carried { IfOk result (Carries (field.now ∷ words_of rest.now)) }
    ensures fault { IfErr result (IsLineFault (HasFault (field.now ∷ words_of rest.now))) }
{
    if field == b"frame".as_slice() {
        read_frame(alloc, rest)
    } else if field == b"piece".as_slice() {
        read_piece(rest)
    } else {
        Err(LineFault::Kind(TraceKind::UnknownLine))
    }
}

/// The frame of a line, by what follows the word `frame`.
fn read_frame(alloc: Global, rest: &[u8]) -> Result<CutLine, LineFault>
    ensures carried { IfOk result (Carries (frame_word ∷ words_of rest.now)) }
    ensures fault { IfErr result (IsLineFault (HasFault (frame_word ∷ words_of rest.now))) }
{
    let field = only_word(rest).ok_or(LineFault::Kind(TraceKind::FieldCount))?;
    Ok(CutLine::Frame(Bytes::from(read_hex(alloc, field)?)))
}

/// The piece of a line, by what follows the word `piece`.
fn read_piece(rest: &[u8]) -> Result<CutLine, LineFault>
    ensures carried { IfOk result (Carries (piece_word ∷ words_of rest.now)) }
    ensures fault { IfErr result (IsLineFault (HasFault (piece_word ∷ words_of rest.now))) }
{
    let (bytes, fill) = only_two_words(rest).ok_or(LineFault::Kind(TraceKind::FieldCount))?;
    let Some(bytes) = read_number(bytes, NUMBER_MAX) else {
        return Err(LineFault::Kind(TraceKind::BadNumber));
    };
    let Some(fill) = read_number(fill, NUMBER_MAX) else {
        return Err(LineFault::Kind(TraceKind::BadNumber));
    };
    Ok(CutLine::Piece(Piece {
        bytes: bytes as u16,
        fill: fill as u16,
    }))
}
