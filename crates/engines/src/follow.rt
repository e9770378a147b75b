//! The command `follow`: what happens at a receiver by the lines of a trace is written as they are
//! read.
ghost use Rattle.std.specs.Prelude.{◌≡◌, ◌≤◌, [], length, IfOk, IfErr};
ghost use Rattle.engines.specs.Device.{inner_of, IsFresh};
ghost use Rattle.engines.specs.Following.{FollowsTrace, IsTextOfWhole};
ghost use Rattle.engines.specs.FlushedReads.{ReadsBehindText};
ghost use Rattle.engines.specs.Inside.Following.{HasFollowedBytes, FollowsPiece, IsLastLine};
ghost use Rattle.engines.specs.Inside.Following.{FollowsWritten, FollowsEnd};
ghost use Rattle.engines.specs.Inside.Following.{WritesPiece, EndsLines, CannotEnd};
ghost use Rattle.text_lines.specs.Lines.{lines_of};

use crate::device::Device;
use crate::fault::{EngineFault, WriteFault};
use crate::flushed_reads::ReadBehind;
use crate::text_writer::{TextWriter, held_room};
use crate::transfer::{PIECE_BYTES, read_behind, zeros};
use ended::EndedTrace;
use followed_traces::FollowInput;
use loss_rule::LossRule;
use receiver::Width;
use std::alloc::{AllocError, Global};
use std::io::Write;
use text_lines::{LineReader, PutText, split_behind_line};
use texts::FollowSettings;

mod ended;

/// The lines so far of a trace that is followed.
#[derive(Drop)]
struct Follower {
    lines: LineReader,
    input: FollowInput,
}

impl Follower {
    /// One that has read nothing.
    fn new(
        alloc: Global,
        rule: LossRule,
        width: Width,
        settings: FollowSettings,
    ) -> Result<Follower, AllocError>
        ensures { IfOk result (HasFollowedBytes rule width settings [] []) }
    {
        Ok(Follower {
            lines: LineReader::new(alloc),
            input: FollowInput::new(alloc, width, rule, settings)?,
        })
    }

    /// Takes the lines of a piece one after another, and puts what happens by each before the next
    /// is taken.
    fn take_lines<O: PutText>(
        &mut self,
        alloc: Global,
        piece: &[u8],
        out: &mut O,
    ) -> Result<(), EngineFault>
        ensures { FollowsPiece O.after self.old out.old piece.now self.new out.new result }
    {
        let mut rest = piece;
        while !rest.is_empty() {
            let (line, below) = split_behind_line(rest);
            self.take_line(alloc, line, out)?;
            rest = below;
        }
        Ok(())
    }

    /// Takes a piece of one line at most, and then puts what happened by it.
    fn take_line<O: PutText>(
        &mut self,
        alloc: Global,
        piece: &[u8],
        out: &mut O,
    ) -> Result<(), EngineFault>
        requires { length (lines_of piece.now) ≤ 1 }
        ensures { FollowsPiece O.after self.old out.old piece.now self.new out.new result }
    {
        self.lines.take_one_line(alloc, piece, &mut self.input)?;
        let line = self.lines.line_count();
        self.input.put_happened(line, out)?;
        Ok(())
    }

    /// Takes the lines of a piece, and writes what happens by them. It answers how that went, and
    /// how the lines were taken. The room is empty.
    fn write_lines<W: Write>(
        &mut self,
        alloc: Global,
        piece: &[u8],
        room: &mut Vec<u8>,
        writer: &mut Device<W>,
    ) -> (Result<(), WriteFault>, Result<(), EngineFault>)
        requires { room.old.items ≡ [] }
        ensures { WritesPiece W.contents self.old writer.old piece.now
            self.new writer.new result.0 result.1 }
    {
        let mut text = TextWriter::new(writer, room);
        let taken = self.take_lines(alloc, piece, &mut text);
        (text.finish(), taken)
    }

    /// Takes the lines of a piece, writes what happens by them, and flushes.
    fn take_piece<W: Write>(
        &mut self,
        alloc: Global,
        piece: &[u8],
        room: &mut Vec<u8>,
        writer: &mut Device<W>,
    ) -> Result<(), EngineFault>
        ensures { FollowsWritten W.contents self.old writer.old piece.now
            self.new writer.new result }
    {
        room.clear();
        let (written, taken) = self.write_lines(alloc, piece, room, writer);
        written?;
        taken
    }

    /// The number of the last line, which may not be ended yet.
    fn last_line(&self) -> u64
        ensures { IsLastLine self.now result }
    {
        let ended = self.lines.line_count();
        if self.lines.unfinished().is_empty() {
            return ended;
        }
        ended.saturating_add(1)
    }

    /// Takes the last line, which no line feed ends, if there is one.
    fn end_lines(self, alloc: Global) -> Result<EndedTrace, EngineFault>
        ensures end { IfOk result (EndsLines self) }
        ensures fault { IfErr result (CannotEnd self) }
    {
        let line = self.last_line();
        let Follower { lines, mut input } = self;
        lines.finish(alloc, &mut input)?;
        Ok(EndedTrace { input, line })
    }

    /// Takes the last line, and writes what happens by it; then it closes the receiver, and writes
    /// what is left to be written.
    fn finish<W: Write>(
        self,
        alloc: Global,
        room: &mut Vec<u8>,
        writer: &mut Device<W>,
    ) -> Result<(), EngineFault>
        ensures { FollowsEnd W.contents self writer.old writer.new result }
    {
        let mut ended = self.end_lines(alloc)?;
        ended.write_pending(room, writer)?;
        ended.close(alloc, room, writer)
    }
}

/// Follows the trace that a reader gives, of a receiver of this width, where besides the decisions
/// of the trace this rule decides which segments are lost: what the receiver gives for a line, and
/// with events also what became of its input or decision, is written as soon as the line is read,
/// of the flows that the settings select, and flushed before more is read. It reads without a
/// limit, up to 2^64 - 1 bytes, and holds a piece of the input, a line, and what the receiver
/// holds.
///
/// `Read`: the reader failed, or gave more. `Trace`: the first faulty line, any kind but `TooShort`
/// and `PointerPast`. `OutOfMemory`: an allocation failed. Whichever comes, what happened by the
/// lines before was written and flushed. `Write`: the writer failed, and a front of the text may
/// have gone out.
pub fn follow_text<R: ReadBehind, W: Write>(
    rule: LossRule,
    width: Width,
    settings: FollowSettings,
    alloc: Global,
    reader: &mut Device<R>,
    writer: &mut Device<W>,
) -> Result<(), EngineFault>
    requires reader { IsFresh reader.old }
    requires writer { IsFresh writer.old }
    ensures follows { FollowsTrace rule width settings R.remaining W.contents
        reader.old reader.new writer.old writer.new result }
    // At each read just the text of all lines that were read before stood flushed in the writer.
    ensures shown { (start : R) → R.after start [] (inner_of reader.old)
        → ReadsBehindText (IsTextOfWhole rule width settings) (W.contents (inner_of writer.old))
        R.after (R.remaining (inner_of reader.old)) (R.remaining (inner_of reader.new))
        start (inner_of reader.new) }
{
    let mut piece = zeros(alloc, PIECE_BYTES)?;
    let mut room = held_room(alloc)?;
    let mut follower = Follower::new(alloc, rule, width, settings)?;
    for _ in 0..u64::MAX {
        let count = read_behind(reader, writer, &mut piece)?;
        if count == 0 {
            return follower.finish(alloc, &mut room, writer);
        }
        follower.take_piece(alloc, &piece[..count], &mut room, writer)?;
    }
    Err(EngineFault::Read)
}
