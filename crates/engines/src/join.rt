//! The command `join`: segments, one a line, become their frames, one a line.
ghost use Rattle.std.specs.Prelude.{◌≡◌, [], flat_map};
ghost use Rattle.engines.specs.Device.{IsFresh};
ghost use Rattle.engines.specs.Engine.{RunsEngine};
ghost use Rattle.engines.specs.Writing.{IsWritten};
ghost use Rattle.texts.specs.Join.{IsJoined, IsJoinFault, frame_line};

use crate::device::Device;
use crate::fault::{EngineFault, WriteFault};
use crate::lines_read::read_lines;
use crate::text_writer::{TextWriter, held_room};
use std::alloc::Global;
use std::io::{Read, Write};
use texts::JoinInput;

/// Writes a line for each frame as it makes it. The room is empty, and no other memory is taken.
fn write_frames<W: Write>(
    joined: &JoinInput,
    room: &mut Vec<u8>,
    writer: &mut Device<W>,
) -> Result<(), WriteFault>
    requires { room.old.items ≡ [] }
    ensures { IsWritten W.contents (flat_map frame_line joined.now.frames.items)
        writer.old writer.new result }
{
    let mut text = TextWriter::new(writer, room);
    joined.put_lines(&mut text);
    text.finish()
}

/// Joins the segments that a reader gives and writes their frames, each a line of hexadecimal. It
/// reads all, at most 268,435,456 bytes, piece by piece, of which it keeps the frames alone; then
/// it writes the text as it makes it. An empty one is not written.
///
/// `Read`: the reader failed or gave more. `Trace`: the first faulty line, `FieldCount`, `NotHex`,
/// `TooShort` or `PointerPast`. `OutOfMemory`: an allocation failed. Up to here nothing was
/// written. `Write`: the writer failed, and a front of the text may have gone out.
pub fn join_text<R: Read, W: Write>(
    alloc: Global,
    reader: &mut Device<R>,
    writer: &mut Device<W>,
) -> Result<(), EngineFault>
    requires reader { IsFresh reader.old }
    requires writer { IsFresh writer.old }
    ensures { RunsEngine R.remaining W.contents IsJoined IsJoinFault
        reader.old reader.new writer.old writer.new result }
{
    let joined = read_lines(alloc, JoinInput::new(alloc), reader)?;
    let mut room = held_room(alloc)?;
    write_frames(&joined, &mut room, writer)?;
    Ok(())
}
