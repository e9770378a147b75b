//! The command `replay`: a trace becomes the report of what a receiver gives for it.
ghost use Rattle.std.specs.Prelude.{◌≡◌, []};
ghost use Rattle.engines.specs.Device.{IsFresh};
ghost use Rattle.engines.specs.Engine.{RunsEngine};
ghost use Rattle.engines.specs.Writing.{IsWritten};
ghost use Rattle.texts.specs.Report.{report_text};
ghost use Rattle.texts.specs.Selected.{report_of, IsReplayedOf};
ghost use Rattle.texts.specs.Replay.{IsReplayed, IsReplayedBy, IsReplayFault};

use crate::device::Device;
use crate::fault::{EngineFault, WriteFault};
use crate::lines_read::read_lines;
use crate::text_writer::{TextWriter, held_room};
use answers::{other_payloads_change_no_selected_flow, stand_ins_give_a_part_of_the_whole_text};
use flow_selection::Selection;
use loss_rule::LossRule;
use receiver::{Outcome, Width};
use std::alloc::Global;
use std::io::{Read, Write};
use texts::{SelectedReplay, laws, put_report, put_report_of};

/// Writes the report of an outcome as it makes it. The room is empty, and no other memory is taken.
/// What it held last is left in it.
pub fn write_report<W: Write>(
    outcome: &Outcome,
    room: &mut Vec<u8>,
    writer: &mut Device<W>,
) -> Result<(), WriteFault>
    requires { room.old.items ≡ [] }
    ensures { IsWritten W.contents (report_text outcome.now) writer.old writer.new result }
{
    let mut text = TextWriter::new(writer, room);
    put_report(&mut text, outcome);
    text.finish()
}

/// Writes the report of an outcome as [`write_report`] does, but for the lines of the flows that
/// aren't selected and of their frames.
fn write_report_of<W: Write>(
    outcome: &Outcome,
    selected: &Selection,
    room: &mut Vec<u8>,
    writer: &mut Device<W>,
) -> Result<(), WriteFault>
    requires { room.old.items ≡ [] }
    ensures { IsWritten W.contents (report_of selected.now outcome.now)
        writer.old writer.new result }
{
    let mut text = TextWriter::new(writer, room);
    put_report_of(&mut text, selected, outcome);
    text.finish()
}

/// Replays the trace that a reader gives, in the order of its lines, and writes the report of it.
/// It reads all, at most 268,435,456 bytes, piece by piece, and plays each line as it is read; then
/// it writes the report as it makes it.
///
/// `Read`: the reader failed or gave more. `Trace`: the first faulty line, any kind but `TooShort`
/// and `PointerPast`. `OutOfMemory`: an allocation failed. Up to here nothing was written. `Write`:
/// the writer failed, and a front of the text may have gone out.
pub fn replay_text<R: Read, W: Write>(
    alloc: Global,
    reader: &mut Device<R>,
    writer: &mut Device<W>,
) -> Result<(), EngineFault>
    requires reader { IsFresh reader.old }
    requires writer { IsFresh writer.old }
    ensures { RunsEngine R.remaining W.contents IsReplayed IsReplayFault
        reader.old reader.new writer.old writer.new result }
{
    laws::replay_by_decisions_alone_is_a_replay();
    replay_text_by(LossRule::Decided, alloc, reader, writer)
}

/// Replays as [`replay_text`] does, where besides the decisions of the trace this rule decides
/// which segments are lost.
pub fn replay_text_by<R: Read, W: Write>(
    rule: LossRule,
    alloc: Global,
    reader: &mut Device<R>,
    writer: &mut Device<W>,
) -> Result<(), EngineFault>
    requires reader { IsFresh reader.old }
    requires writer { IsFresh writer.old }
    ensures { RunsEngine R.remaining W.contents (IsReplayedBy rule) IsReplayFault
        reader.old reader.new writer.old writer.new result }
{
    laws::report_of_all_flows_is_the_report();
    replay_text_of(&Selection::All, rule, alloc, reader, writer)
}

/// Replays as [`replay_text_by`] does, and writes the report of the flows that are selected: the
/// whole one but for the lines of the other flows and of their frames. All lines of the trace are
/// read, so that a fault of the whole is a fault here, too; but of a burst that would come to no
/// selected flow the digits behind the header are looked at and not decoded, and nothing is joined.
pub fn replay_text_of<R: Read, W: Write>(
    selected: &Selection,
    rule: LossRule,
    alloc: Global,
    reader: &mut Device<R>,
    writer: &mut Device<W>,
) -> Result<(), EngineFault>
    requires reader { IsFresh reader.old }
    requires writer { IsFresh writer.old }
    ensures { RunsEngine R.remaining W.contents (IsReplayedOf selected.now rule) IsReplayFault
        reader.old reader.new writer.old writer.new result }
{
    other_payloads_change_no_selected_flow();
    stand_ins_give_a_part_of_the_whole_text();
    let replay = SelectedReplay::new(alloc, Width::PROFILE, rule, selected)?;
    let lines = read_lines(alloc, replay, reader)?;
    let outcome = lines.finish(alloc)?;
    let mut room = held_room(alloc)?;
    write_report_of(&outcome, selected, &mut room, writer)?;
    Ok(())
}
