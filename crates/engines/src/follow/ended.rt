//! The end of a trace that is followed: what is written once all its lines were taken.
ghost use Rattle.std.specs.Prelude.{◌≡◌, []};
ghost use Rattle.engines.specs.Inside.Following.{PutsPending, WritesPending, ClosesFollowed};
ghost use Rattle.engines.specs.Writing.{IsWritten};
ghost use Rattle.followed_traces.specs.End.{end_text};

use crate::device::Device;
use crate::fault::{EngineFault, WriteFault};
use crate::text_writer::TextWriter;
use followed_traces::{FollowInput, Followed, finish_follow, put_end};
use std::alloc::{AllocError, Global};
use std::io::Write;

/// A trace that is followed, of which all lines were taken.
#[derive(Drop)]
pub(super) struct EndedTrace {
    pub(super) input: FollowInput,
    /// The number of the last line.
    pub(super) line: u64,
}

impl EndedTrace {
    /// Writes what happened that wasn't written yet, which was by the last line. It answers how
    /// that went, and whether it was there. The room is empty.
    fn put_pending<W: Write>(
        &mut self,
        room: &mut Vec<u8>,
        writer: &mut Device<W>,
    ) -> (Result<(), WriteFault>, Result<(), AllocError>)
        requires { room.old.items ≡ [] }
        ensures { PutsPending W.contents self.old writer.old
            self.new writer.new result.0 result.1 }
    {
        let mut text = TextWriter::new(writer, room);
        let put = self.input.put_happened(self.line, &mut text);
        (text.finish(), put)
    }

    /// Writes what happened that wasn't written yet, and flushes.
    pub(super) fn write_pending<W: Write>(
        &mut self,
        room: &mut Vec<u8>,
        writer: &mut Device<W>,
    ) -> Result<(), EngineFault>
        ensures { WritesPending W.contents self.old writer.old self.new writer.new result }
    {
        room.clear();
        let (written, put) = self.put_pending(room, writer);
        written?;
        put?;
        Ok(())
    }

    /// Closes the receiver, and writes what is left to be written.
    pub(super) fn close<W: Write>(
        self,
        alloc: Global,
        room: &mut Vec<u8>,
        writer: &mut Device<W>,
    ) -> Result<(), EngineFault>
        ensures { ClosesFollowed W.contents self writer.old writer.new result }
    {
        let EndedTrace { input, line } = self;
        let end = finish_follow(alloc, input)?;
        room.clear();
        write_end(line, &end, room, writer)?;
        Ok(())
    }
}

/// Writes what is left to be written at the end of a trace that is followed, whose last line has
/// this number. The room is empty.
fn write_end<W: Write>(
    line: u64,
    end: &Followed,
    room: &mut Vec<u8>,
    writer: &mut Device<W>,
) -> Result<(), WriteFault>
    requires { room.old.items ≡ [] }
    ensures { IsWritten W.contents (end_text line end.now)
        writer.old writer.new result }
{
    let mut text = TextWriter::new(writer, room);
    put_end(&mut text, line, end);
    text.finish()
}
