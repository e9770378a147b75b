//! The command `run`: a trace is received on threads, and becomes the report of what that gave.
ghost use Rattle.std.specs.Prelude.{◌≤◌};
ghost use Rattle.engines.specs.Device.{IsFresh};
ghost use Rattle.engines.specs.Engine.{RunsEngine};
ghost use Rattle.texts.specs.Replay.{IsReportFault};
ghost use Rattle.texts.specs.Run.{IsRunText, IsRunTextBy};

use crate::run_trace::run_trace;
use docsis_wire::Bytes;
use engines::{Device, EngineFault, held_room, read_lines, write_report};
use loss_rule::LossRule;
use std::alloc::Global;
use std::io::{Read, Write};
use std::sync::Wait;
use std::thread::Threads;
use texts::{Reading, laws};
use uplink::{Request, Tap, Taps};

/// Receives the trace that a reader gives, each channel's inputs and the decisions on a thread of
/// their own, and writes the report of it. Items of different channels are taken in the order in
/// which they happen to come. `mailbox` and `ring` are the capacities of the two mailboxes and of
/// each flow's ring, at least 1. It reads all, at most 268,435,456 bytes, piece by piece, of which
/// it keeps the trace alone; then it receives, and then it writes the report as it makes it.
///
/// `Read`: the reader failed or gave more. `Trace`: the first faulty line, any kind but `TooShort`
/// and `PointerPast`. `OutOfMemory`: an allocation failed, or a thread could not be started. Up to
/// here nothing was written. `Write`: the writer failed, and a front of the text may have gone out.
pub fn run_text<F, Q, T, R: Read, W: Write>(
    alloc: Global,
    rt: T,
    mailbox: u16,
    ring: u16,
    taps: Taps<F, Q>,
    reader: &mut Device<R>,
    writer: &mut Device<W>,
) -> Result<(), EngineFault>
where
    F: Tap<Bytes> + Drop + Send + 'static,
    Q: Tap<Request> + Drop + Send + 'static,
    T: Threads + Wait + Copy + Send + 'static,
    requires mailbox { 1 ≤ mailbox }
    requires ring { 1 ≤ ring }
    requires reader { IsFresh reader.old }
    requires writer { IsFresh writer.old }
    ensures { RunsEngine R.remaining W.contents (IsRunText ring mailbox) (IsReportFault ring)
        reader.old reader.new writer.old writer.new result }
{
    laws::run_by_decisions_alone_is_a_run();
    run_text_by(
        LossRule::Decided,
        alloc,
        rt,
        mailbox,
        ring,
        taps,
        reader,
        writer,
    )
}

/// Receives as [`run_text`] does, where besides the decisions of the trace this rule decides which
/// segments are lost.
pub fn run_text_by<F, Q, T, R: Read, W: Write>(
    rule: LossRule,
    alloc: Global,
    rt: T,
    mailbox: u16,
    ring: u16,
    taps: Taps<F, Q>,
    reader: &mut Device<R>,
    writer: &mut Device<W>,
) -> Result<(), EngineFault>
where
    F: Tap<Bytes> + Drop + Send + 'static,
    Q: Tap<Request> + Drop + Send + 'static,
    T: Threads + Wait + Copy + Send + 'static,
    requires mailbox { 1 ≤ mailbox }
    requires ring { 1 ≤ ring }
    requires reader { IsFresh reader.old }
    requires writer { IsFresh writer.old }
    ensures { RunsEngine R.remaining W.contents (IsRunTextBy rule ring mailbox) (IsReportFault ring)
        reader.old reader.new writer.old writer.new result }
{
    laws::trace_passes_the_checks();
    let reading = read_lines(alloc, Reading::new(alloc, ring)?, reader)?;
    let trace = reading.into_trace(mailbox);
    let outcome = run_trace(rule, alloc, rt, trace, taps)?;
    let mut room = held_room(alloc)?;
    write_report(&outcome, &mut room, writer)?;
    Ok(())
}
