//! A line of `join`.
ghost use Rattle.std.specs.Prelude.{◌∷◌, IfOk, IfErr};
ghost use Rattle.text_lines.specs.Inside.LineFault.{IsLineFault};
ghost use Rattle.text_lines.specs.Lines.{words_of};
ghost use Rattle.texts.specs.Join.Line.{Carries, HasFault};

use docsis_wire::Segment;
use std::alloc::Global;
use text_lines::{LineFault, TraceKind, no_word, read_hex};

/// The segment of a line, by its first field and what follows that. The line is to have one
/// hexadecimal field.
pub fn read_segment(alloc: Global, field: &[u8], rest: &[u8]) -> Result<Segment, LineFault>
    ensures carried { IfOk result (Carries (field.now ∷ words_of rest.now)) }
    ensures fault { IfErr result (IsLineFault (HasFault (field.now ∷ words_of rest.now))) }
{
    if !no_word(rest) {
        return Err(LineFault::Kind(TraceKind::FieldCount));
    }
    let bytes = read_hex(alloc, field)?;
    Ok(Segment::read(alloc, &bytes)?)
}
