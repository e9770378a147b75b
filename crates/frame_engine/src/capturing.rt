//! The command `capture`: the frames of a capture are written as they are joined.
ghost use Rattle.std.specs.Prelude.{◌≡◌, [], IfSome, OnOk};
ghost use Rattle.engines.specs.Device.{inner_of, IsFresh};
ghost use Rattle.engines.specs.Engine.{WritesText};
ghost use Rattle.engines.specs.FlushedReads.{ReadsBehindText};
ghost use Rattle.capture_map.specs.declared.map.CaptureMap.{CaptureMap};
ghost use Rattle.frame_engine.specs.declared.settings.CaptureSettings.{CaptureSettings};
ghost use Rattle.frame_engine.specs.Joining.{JoinsCapture, IsFileSoFar};
ghost use Rattle.frame_engine.specs.Begun.{IsBegun, IsBegunBeside, ComparesNothing, CanJoin};
ghost use Rattle.frame_engine.specs.Comparing.{IsComparedFile};
ghost use Rattle.frame_engine.specs.Progress.{HasToldProgress};

use crate::comparing::Comparing;
use crate::frame_reading::FrameReading;
use crate::progress::{TakeProgress, tell_progress};
use crate::tally::CaptureTally;
use engines::{Device, EngineFault, PIECE_BYTES, ReadBehind, read_behind, zeros};
use std::alloc::Global;
use std::io::Write;

/// Reads a capture, pcap or pcapng, to its end, and writes the pcap file of the frames of its
/// bursts, each with the time and the origin of the burst that completed it. The header is written
/// first, and what a piece brings is written and flushed before the next is read. It reads without
/// a limit, up to 2^64 - 1 bytes. What is counted on the way comes into the tally, and its lines of
/// requests go to a writer of their own, if there is one. Frames are compared where that is asked
/// for. Behind each piece it is told how far the reading is, where that is due.
///
/// `Read`: the reader failed, or gave more. `Capture`: the capture is malformed behind so many
/// records, or ends too early. `OutOfMemory`: an allocation failed. Whichever comes, the frames of
/// the records before were written and flushed; what waited then isn't handed in. `Write`: the
/// writer failed, and a front of the file may have gone out.
pub fn join_capture<R: ReadBehind, W: Write, Q: Write, P: TakeProgress>(
    alloc: Global,
    mut reading: FrameReading,
    tally: &mut CaptureTally,
    comparing: &mut Comparing,
    requests: &mut Option<Device<Q>>,
    reader: &mut Device<R>,
    writer: &mut Device<W>,
    told: &mut P,
) -> Result<(), EngineFault>
    requires reading { CanJoin reading }
    requires reader { IsFresh reader.old }
    requires writer { IsFresh writer.old }
    ensures joins { (settings : CaptureSettings) (capture_map : CaptureMap)
        → IsBegun settings capture_map reading
        → JoinsCapture settings capture_map R.remaining W.contents
        reader.old reader.new writer.old writer.new result }
    // Where nothing was compared before, the records of the capture were compared with just the
    // frames that were written, and the reasons that are listed are those of what became of the
    // bursts of the records.
    ensures compared { (settings : CaptureSettings) (capture_map : CaptureMap)
        → IsBegunBeside settings capture_map reading → ComparesNothing capture_map comparing.old
        → OnOk result (IfSome (R.remaining (inner_of reader.old)) (WritesText
        (IsComparedFile settings capture_map comparing.new)
        (W.contents (inner_of writer.old)) (W.contents (inner_of writer.new)))) }
    // What was told is how far the reading was at fronts of what was read, in order.
    ensures told { (settings : CaptureSettings) (capture_map : CaptureMap)
        → IsBegun settings capture_map reading → (start : P) → P.after start [] told.old
        → HasToldProgress settings capture_map R.remaining P.after
        reader.old reader.new start told.new }
    // At each read just the file of all records that were read before stood flushed in the writer.
    ensures shown { (settings : CaptureSettings) (capture_map : CaptureMap)
        → IsBegun settings capture_map reading → (start : R)
        → R.after start [] (inner_of reader.old)
        → ReadsBehindText (IsFileSoFar settings capture_map) (W.contents (inner_of writer.old))
        R.after (R.remaining (inner_of reader.old)) (R.remaining (inner_of reader.new))
        start (inner_of reader.new) }
{
    let mut piece = zeros(alloc, PIECE_BYTES)?;
    reading.joining.file.write(writer)?;
    for _ in 0..u64::MAX {
        let count = match read_behind(reader, writer, &mut piece) {
            Ok(count) => count,
            Err(fault) => {
                reading.note_all(tally);
                return Err(fault);
            }
        };
        if count == 0 {
            reading.note_clocks(tally);
            let ended = reading.finish(alloc, tally, comparing, writer);
            tally.write_requests(alloc, requests);
            return ended;
        }
        match reading.join_piece(alloc, &piece[..count], tally, comparing, writer) {
            Ok(()) => {
                tally.write_requests(alloc, requests);
                tell_progress(&reading, reader.given(), tally, told);
            }
            Err(fault) => {
                reading.note_all(tally);
                tally.write_requests(alloc, requests);
                return Err(fault);
            }
        }
    }
    Err(EngineFault::Read)
}
