//! The whole program, over any reader that may be shown the output, and any two writers.
ghost use Rattle.std.specs.Prelude.{◌≡◌, ◌≢◌, ◌⊎◌, ℕ, Bool, map, Result, IfSome};
ghost use Rattle.loss_rule.specs.declared.rule.LossRule.{LossRule};
ghost use Rattle.engines.specs.declared.fault.EngineFault.{EngineFault};
ghost use Rattle.engines.specs.Device.{inner_of, IsFresh};
ghost use Rattle.engines.specs.Fault.{exit_status_of};
ghost use Rattle.command_line.specs.Command.{AsksToJoin, AsksToReplay, AsksToReplayBy};
ghost use Rattle.command_line.specs.Command.{AsksToRunByAlone};
ghost use Rattle.command_line.specs.Command.{AsksToFollowAlone, AsksToMap};
ghost use Rattle.texts.specs.Join.{IsJoinFault};
ghost use Rattle.texts.specs.Cut.{IsCutFault};
ghost use Rattle.texts.specs.Replay.{IsReplayFault};
ghost use Rattle.commands.specs.Program.{AsksToReplayOnly};
ghost use Rattle.commands.specs.Program.{AsksToCutOnly, AsksToRunOnly, AsksToRunByOnly};
ghost use Rattle.commands.specs.Program.{AsksToFollowOnly, AsksForNothing, Obeys, IsReported};
ghost use Rattle.commands.specs.Program.{RunsWords, ComesOf};
ghost use Rattle.commands.specs.Program.{ShowsFollowed};
ghost use Rattle.commands.specs.Inside.Program.{Performs, ShowsCommand, IsInRange};
ghost use Rattle.commands.specs.Program.{IsStatus, HasJoinedText, HasCutText, HasReport};
ghost use Rattle.commands.specs.Program.{HasReportBy, HasRunReport, HasRunReportBy, HasRunFault};
ghost use Rattle.commands.specs.Program.{HasFollowed, HasFollowFault, SaysOf, SaysOfMap};

use crate::run::run_text_by;
use capture_engines::map_capture;
use engines::{
    Command, Device, EngineFault, ReadBehind, cut_text, exit_status, follow_text, join_text,
    read_words, replay_text_of, write_fault, write_text,
};
use receiver::{MOST_FLOWS, Width};
use std::alloc::Global;
use std::convert::AsStr;
use std::io::Write;
use std::sync::Wait;
use std::thread::Threads;
use texts::{FollowSettings, laws};
use uplink::{NoTap, Taps};

/// Does what a command asks for: runs its engine between the reader and the writer, or writes the
/// text of help.
fn perform<T: Threads + Wait + Copy + Send + 'static, R: ReadBehind, W: Write>(
    alloc: Global,
    rt: T,
    command: Command,
    reader: &mut Device<R>,
    out: &mut Device<W>,
) -> Result<(), EngineFault>
    requires first { IsInRange command }
    requires reader { IsFresh reader.old }
    requires out { IsFresh out.old }
    ensures performs { Performs R.remaining W.contents command
        reader.old reader.new out.old out.new result }
    ensures shown { ShowsCommand R.after R.remaining W.contents command
        (inner_of reader.old) (inner_of reader.new) (inner_of out.old) }
{
    match command {
        Command::Join => join_text(alloc, reader, out),
        Command::Cut { first, fill } => cut_text(alloc, first, fill, reader, out),
        Command::Replay { rule, flows } => replay_text_of(&flows, rule, alloc, reader, out),
        Command::Run {
            rule,
            mailbox,
            ring,
        } => {
            let taps = Taps {
                frames: NoTap,
                requests: NoTap,
            };
            run_text_by(rule, alloc, rt, mailbox, ring, taps, reader, out)
        }
        Command::Follow {
            rule,
            channels,
            events,
            flows,
        } => {
            let Ok(width) = Width::new(channels, MOST_FLOWS) else {
                return Err(EngineFault::Usage);
            };
            let settings = FollowSettings {
                events,
                selected: flows,
            };
            follow_text(rule, width, settings, alloc, reader, out)
        }
        Command::Map => map_capture(alloc, reader, out),
        Command::Help(text) => Ok(write_text(out, text.as_bytes())?),
    }
}

/// Does what the words ask for.
fn obey<S: AsStr, T: Threads + Wait + Copy + Send + 'static, R: ReadBehind, W: Write>(
    alloc: Global,
    rt: T,
    words: &[S],
    reader: &mut Device<R>,
    out: &mut Device<W>,
) -> Result<(), EngineFault>
    requires reader { IsFresh reader.old }
    requires out { IsFresh out.old }
    ensures obeys { Obeys R.remaining W.contents (map S.text words.now)
        reader.old reader.new out.old out.new result }
    ensures shown { ShowsFollowed R.after R.remaining W.contents (map S.text words.now)
        (inner_of reader.old) (inner_of reader.new) (inner_of out.old) }
{
    laws::replay_by_decisions_alone_is_a_replay();
    laws::run_by_decisions_alone_is_a_run();
    laws::report_of_all_flows_is_the_report();
    let command = read_words(alloc, words)?;
    perform(alloc, rt, command, reader, out)
}

/// Answers the exit status of an outcome, and writes the line of its fault, if it has one. That the
/// line cannot be written changes nothing.
pub fn report_outcome<E: Write>(outcome: &Result<(), EngineFault>, err: &mut Device<E>) -> u8
    ensures report { IsReported E.contents err.old err.new outcome.now }
    ensures status { result ≡ exit_status_of outcome.now }
{
    if let Err(fault) = outcome {
        let _ = write_fault(fault, err);
    }
    exit_status(outcome)
}

/// Does what the words ask for between a reader and a writer that were not used yet, reports a
/// fault to `err`, and answers the exit status.
pub fn run_words<S, T, R, O, E>(
    alloc: Global,
    rt: T,
    words: &[S],
    reader: &mut Device<R>,
    out: &mut Device<O>,
    err: &mut Device<E>,
) -> u8
where
    S: AsStr,
    T: Threads + Wait + Copy + Send + 'static,
    R: ReadBehind,
    O: Write,
    E: Write,
    requires reader { IsFresh reader.old }
    requires out { IsFresh out.old }
    ensures runs { RunsWords R.remaining O.contents E.contents (map S.text words.now)
        reader.old reader.new out.old out.new err.old err.new result }
    // At each read of a trace that is followed just the text of what was read before stood flushed.
    ensures shown { ShowsFollowed R.after R.remaining O.contents (map S.text words.now)
        (inner_of reader.old) (inner_of reader.new) (inner_of out.old) }
{
    let outcome = obey(alloc, rt, words, reader, out);
    report_outcome(&outcome, err)
}

/// The whole program: it does what the words ask for, its name first, and answers the exit status:
/// 0 where it was done, also for help, which goes to `out`; 1 for a fault of a line, of the cut or
/// of a capture, 2 for usage, 3 for out of memory, 4 for a failed read or write. A fault's line
/// goes to `err`.
pub fn program<S, T, R, O, E>(alloc: Global, rt: T, words: &[S], reader: R, out: O, err: E) -> u8
where
    S: AsStr,
    T: Threads + Wait + Copy + Send + 'static,
    R: ReadBehind + Drop,
    O: Write + Drop,
    E: Write + Drop,
    // The status is that of what came of the words.
    ensures outcome { (outcome : Result (Unit {0}) EngineFault) × (result ≡ exit_status_of outcome)
        × ComesOf R.remaining O.contents E.contents (map S.text words.now) reader out err outcome }
    ensures status { IsStatus result }

    // What the status says of the reader's bytes, where they are known.
    ensures join { AsksToJoin (map S.text words.now)
        → IfSome (R.remaining reader) (SaysOf HasJoinedText IsJoinFault result) }
    ensures join_is_known { AsksToJoin (map S.text words.now) → result ≢ 2 }
    ensures cut { AsksToCutOnly (map S.text words.now)
        → IfSome (R.remaining reader) (SaysOf HasCutText IsCutFault result) }
    ensures replay { AsksToReplay (map S.text words.now)
        → IfSome (R.remaining reader) (SaysOf HasReport IsReplayFault result) }
    ensures replay_is_known { AsksToReplay (map S.text words.now) → result ≢ 2 }
    ensures run { AsksToRunOnly (map S.text words.now)
        → IfSome (R.remaining reader) (SaysOf HasRunReport HasRunFault result) }
    ensures replay_by { (rule : LossRule) → AsksToReplayBy rule (map S.text words.now)
        → IfSome (R.remaining reader) (SaysOf (HasReportBy rule) IsReplayFault result) }
    ensures replay_by_is_known { (rule : LossRule) → AsksToReplayBy rule (map S.text words.now)
        → result ≢ 2 }
    ensures replay_flows { (rule : LossRule) → AsksToReplayOnly rule (map S.text words.now)
        → IfSome (R.remaining reader) (SaysOf (HasReportBy rule) IsReplayFault result) }
    ensures run_by { (rule : LossRule) → AsksToRunByOnly rule (map S.text words.now)
        → IfSome (R.remaining reader) (SaysOf (HasRunReportBy rule) HasRunFault result) }
    ensures run_by_is_known { (rule : LossRule) → AsksToRunByAlone rule (map S.text words.now)
        → result ≢ 2 }
    ensures follow { (rule : LossRule) (channels : ℕ)
        → AsksToFollowOnly rule channels (map S.text words.now)
        → IfSome (R.remaining reader)
        (SaysOf (HasFollowed rule channels) (HasFollowFault channels) result) }
    ensures follow_is_known { (rule : LossRule) (events : Bool)
        → AsksToFollowAlone rule events (map S.text words.now) → result ≢ 2 }
    ensures map { AsksToMap (map S.text words.now)
        → IfSome (R.remaining reader) (SaysOfMap result) }
    ensures map_is_known { AsksToMap (map S.text words.now) → result ≢ 2 }
    ensures usage { AsksForNothing (map S.text words.now) → (result ≡ 2) ⊎ (result ≡ 3) }
{
    let mut reader = Device::new(reader);
    let mut out = Device::new(out);
    let mut err = Device::new(err);
    let status = run_words(alloc, rt, words, &mut reader, &mut out, &mut err);
    reader.into_inner();
    out.into_inner();
    err.into_inner();
    status
}
