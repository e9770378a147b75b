//! The text of `replay`: the report of a trace.
ghost use Rattle.std.specs.Prelude.{IfOk, IfErr};
ghost use Rattle.texts.specs.Replay.{IsPlayedBy, IsReplayed, IsReplayedBy, IsReplayFault};
ghost use Rattle.texts.specs.Inside.Replayed.{HasReplayedLines};
ghost use Rattle.texts.specs.Inside.TraceInput.{TraceState};

use crate::report_text::report;
use crate::trace::TraceInput;
use loss_rule::LossRule;
use receiver::{Outcome, Width};
use std::alloc::{AllocError, Global};
use text_lines::{TextFault, take_lines};

mod selected_replay;
mod under_way;

pub use selected_replay::{SelectedReplay, leaves_none_out};
pub use under_way::UnderWay;

/// The lines so far of a trace that is replayed as they are read. It is for the profile's width.
pub type ReplayInput = TraceInput<UnderWay>;

/// What a trace gives, of which all lines were read.
pub fn finish_replay(alloc: Global, lines: ReplayInput) -> Result<Outcome, AllocError>
    requires { (given : TraceState (Unit {0}))
        × HasReplayedLines given lines.width lines.rule lines.setup lines.taker }
    ensures { IfOk result (λ outcome. (given : TraceState (Unit {0}))
        → HasReplayedLines given lines.width lines.rule lines.setup lines.taker
        → IsPlayedBy given.rule given.said outcome) }
{
    let (setup, replay) = lines.finish(alloc)?;
    replay.finish(alloc, &setup)
}

/// The report of a trace: its grants, bursts and decisions are taken in the order of their lines.
///
/// Otherwise it reports the first faulty line, or that an allocation failed. That an input has at
/// most one text or one fault, and never both, is stated by
/// [`replay_has_one_text`](crate::laws::replay_has_one_text),
/// [`report_has_one_fault`](crate::laws::report_has_one_fault) and
/// [`faulty_input_has_no_report`](crate::laws::faulty_input_has_no_report).
pub fn replay_lines(alloc: Global, input: Vec<u8>) -> Result<Vec<u8>, TextFault>
    ensures text { IfOk result (λ text. IsReplayed input.items text.items) }
    ensures fault { IfErr result (IsReplayFault input.items) }
{
    crate::laws::replay_by_decisions_alone_is_a_replay();
    replay_lines_by(LossRule::Decided, alloc, input)
}

/// The report of a trace as [`replay_lines`] makes it, where besides the decisions of the trace
/// this rule decides which segments are lost.
pub fn replay_lines_by(rule: LossRule, alloc: Global, input: Vec<u8>) -> Result<Vec<u8>, TextFault>
    ensures text { IfOk result (λ text. IsReplayedBy rule input.items text.items) }
    ensures fault { IfErr result (IsReplayFault input.items) }
{
    let mut lines = ReplayInput::new(alloc, Width::PROFILE, rule)?;
    take_lines(alloc, &input, &mut lines)?;
    let outcome = finish_replay(alloc, lines)?;
    Ok(report(alloc, &outcome)?)
}
