//! The command `map`: a capture becomes the map that the registrations in it give.
ghost use Rattle.std.specs.Prelude.{◌≡◌, [], false, IfOk, IfErr, OnOk};
ghost use Rattle.std.specs.Io.KnownBytes.{IsAtEnd};
ghost use Rattle.registered_map.specs.Holding.{registered_in};
ghost use Rattle.seen_sids.specs.Seen.{seen_in};
ghost use Rattle.text_lines.specs.Putting.{Puts};
ghost use Rattle.engines.specs.Device.{inner_of, has_failed, IsFresh};
ghost use Rattle.engines.specs.Writing.{IsWritten};
ghost use Rattle.capture_engines.specs.Mapping.{text_of, MapsCapture};
ghost use Rattle.capture_engines.specs.Inside.Reading.{HasReadAll, HasReadCause};

use crate::map_reading::MapReading;
use engines::{
    Device, EngineFault, PIECE_BYTES, TextWriter, WriteFault, held_room, read_some, zeros,
};
use registered_map::put_map;
use seen_sids::put_seen;
use std::alloc::Global;
use std::io::{Read, Write};
use text_lines::PutText;

/// Reads a capture to its end.
fn read_capture<R: Read>(alloc: Global, reader: &mut Device<R>) -> Result<MapReading, EngineFault>
    requires { IsFresh reader.old }
    ensures read { IfOk result (HasReadAll (R.remaining (inner_of reader.old))) }
    ensures sound { OnOk result (has_failed reader.new ≡ false) }
    ensures to_end { OnOk result (IsAtEnd (R.remaining (inner_of reader.new))) }
    ensures cause { IfErr result
        (HasReadCause (R.remaining (inner_of reader.old)) reader.new) }
{
    let mut piece = zeros(alloc, PIECE_BYTES)?;
    let mut reading = MapReading::new(alloc);
    for _ in 0..u64::MAX {
        let count = read_some(reader, &mut piece)?;
        if count == 0 {
            reading.finish()?;
            return Ok(reading);
        }
        reading.take_piece(alloc, &piece[..count])?;
    }
    Err(EngineFault::Read)
}

/// Puts the text of a map and, where no SID was added, what was seen above it.
fn put_reading<O: PutText>(out: &mut O, reading: &MapReading)
    ensures { Puts O.after out.old
        (text_of (registered_in reading.now.map) (seen_in reading.now.seen)) out.new }
{
    if reading.map.is_empty() {
        put_seen(out, &reading.seen);
    }
    put_map(out, &reading.map);
}

/// Writes the text of a map as it is made. The room is empty.
fn write_reading<W: Write>(
    reading: &MapReading,
    room: &mut Vec<u8>,
    writer: &mut Device<W>,
) -> Result<(), WriteFault>
    requires { room.old.items ≡ [] }
    ensures { IsWritten W.contents
        (text_of (registered_in reading.now.map) (seen_in reading.now.seen))
        writer.old writer.new result }
{
    let mut text = TextWriter::new(writer, room);
    put_reading(&mut text, reading);
    text.finish()
}

/// Reads a capture, pcap or pcapng, to its end, and writes the map that the registrations in it
/// give; where they add no SID, above it as comments what was seen of SIDs. It reads without a
/// limit, up to 2^64 - 1 bytes, and what it holds doesn't grow with them: a piece, one record or
/// block, the messages that are under way, the map, and what was seen.
///
/// `Read`: the reader failed, or gave more. `Capture`: the capture is malformed behind so many
/// records, or ends too early. `OutOfMemory`: an allocation failed. Up to here nothing was written.
/// `Write`: the writer failed, and a front of the text may have gone out.
pub fn map_capture<R: Read, W: Write>(
    alloc: Global,
    reader: &mut Device<R>,
    writer: &mut Device<W>,
) -> Result<(), EngineFault>
    requires reader { IsFresh reader.old }
    requires writer { IsFresh writer.old }
    ensures { MapsCapture R.remaining W.contents
        reader.old reader.new writer.old writer.new result }
{
    let reading = read_capture(alloc, reader)?;
    let mut room = held_room(alloc)?;
    write_reading(&reading, &mut room, writer)?;
    Ok(())
}
