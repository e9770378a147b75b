//! The command `cut`: frames and pieces, one a line, become their segments, one a line.
ghost use Rattle.std.specs.Prelude.{◌≡◌, ◌<◌, []};
ghost use Rattle.docsis_wire.specs.Limits.{sequence_modulus};
ghost use Rattle.docsis_wire.specs.Pieces.{IsCuttable};
ghost use Rattle.engines.specs.Device.{IsFresh};
ghost use Rattle.engines.specs.Engine.{RunsEngine};
ghost use Rattle.engines.specs.Inside.Writing.{IsWrittenCut};
ghost use Rattle.texts.specs.AnyHeader.{any_header};
ghost use Rattle.texts.specs.Cut.{IsCutText, IsCutFault};

use crate::device::Device;
use crate::fault::{EngineFault, WriteFault};
use crate::lines_read::read_lines;
use crate::text_writer::{TextWriter, held_room};
use docsis_wire::{Cutter, FillByte};
use std::alloc::Global;
use std::io::{Read, Write};
use texts::{CutInput, put_cut};

/// Writes a line for each segment of a cut as it makes it. The room is empty, and no other memory
/// is taken.
fn write_segments<W: Write>(
    cutter: Cutter<'_>,
    room: &mut Vec<u8>,
    writer: &mut Device<W>,
) -> Result<(), WriteFault>
    requires room { room.old.items ≡ [] }
    requires cuttable { IsCuttable any_header cutter.frames cutter.pieces }
    requires none_made { cutter.made ≡ 0 }
    ensures { IsWrittenCut W.contents cutter.entry writer.old writer.new result }
{
    let mut text = TextWriter::new(writer, room);
    put_cut(&mut text, cutter);
    text.finish()
}

/// Cuts the frames that a reader gives into the pieces that it gives, and writes the segments, each
/// a line of hexadecimal. The first one has the number `first`, 0 to 8191, and what a piece has of
/// fill is this byte. It reads all, at most 268,435,456 bytes, piece by piece, of which it keeps
/// the frames and the pieces alone; then it writes the text as it makes it. An empty one is not
/// written.
///
/// `Read`: the reader failed or gave more. `Trace`: the first faulty line, `UnknownLine`,
/// `FieldCount`, `BadNumber` or `NotHex`. `Cut`: no line is at fault, and this is the first fault
/// of the frames and pieces. `OutOfMemory`: an allocation failed. Up to here nothing was written.
/// `Write`: the writer failed, and a front of the text may have gone out.
pub fn cut_text<R: Read, W: Write>(
    alloc: Global,
    first: u16,
    fill: FillByte,
    reader: &mut Device<R>,
    writer: &mut Device<W>,
) -> Result<(), EngineFault>
    requires first { first < sequence_modulus }
    requires reader { IsFresh reader.old }
    requires writer { IsFresh writer.old }
    ensures { RunsEngine R.remaining W.contents (IsCutText first fill) IsCutFault
        reader.old reader.new writer.old writer.new result }
{
    let read = read_lines(alloc, CutInput::new(alloc), reader)?;
    let cutter = read.cutter(first, fill)?;
    let mut room = held_room(alloc)?;
    write_segments(cutter, &mut room, writer)?;
    Ok(())
}
