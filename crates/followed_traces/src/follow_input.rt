//! The lines of a trace that is followed as they are read.
ghost use Rattle.std.specs.Prelude.{◌≡◌, ◌<◌, [], None, OnOk, OnErr, IfOk};
ghost use Rattle.flow_selection.specs.Selection.{is_selected};
ghost use Rattle.lane.specs.declared.input.Input.{Input};
ghost use Rattle.text_lines.specs.Putting.{Puts};
ghost use Rattle.texts.specs.Inside.SetupLines.{AddsTo};
ghost use Rattle.texts.specs.Inside.StandIn.{MayStandFor};
ghost use Rattle.texts.specs.Inside.TraceInput.{TraceState, HasTakenLines};
ghost use Rattle.texts.specs.declared.trace.trace_line.TraceLine.TheVariants as line;
ghost use Rattle.followed_traces.specs.End.{IsFollowedTo, end_text};
ghost use Rattle.followed_traces.specs.Inside.Watched.{Watched, starts_watched, HasFollowed};
ghost use Rattle.followed_traces.specs.Inside.Watched.{would_be_followed};
ghost use Rattle.followed_traces.specs.Inside.Lines.{HasFollowedLines, PutsHappened};
ghost use Rattle.followed_traces.specs.Inside.Lines.{no_lines_followed};

use super::following::Following;
use lane::Input;
use loss_rule::LossRule;
use receiver::{Closed, Setup, Width};
use std::alloc::{AllocError, Global};
use text_lines::{LineFault, PutText, TakeLine};
use texts::{FollowSettings, Happening, TraceInput, leaves_none_out, put_closed, put_happened};

/// The lines so far of a trace that is followed as they are read. What happened by them that wasn't
/// put yet is held.
#[derive(Drop)]
pub struct FollowInput {
    input: TraceInput<Following>,
    /// What is put.
    settings: FollowSettings,
    /// Whether bursts of other flows are stood in for.
    in_part: bool,
}

impl FollowInput {
    /// A trace for a receiver of this width, of which no line was read yet, and of which these
    /// settings say what is put. Losses are decided by this rule. It is an error that an allocation
    /// failed.
    pub fn new(
        alloc: Global,
        width: Width,
        rule: LossRule,
        settings: FollowSettings,
    ) -> Result<FollowInput, AllocError>
        ensures settings { IfOk result (λ follow. follow.settings ≡ settings) }
        ensures nothing { IfOk result (λ follow.
            HasFollowedLines (no_lines_followed settings [] rule width) follow) }
        ensures put { IfOk result (λ follow. follow.input.taker ≡ None) }
    {
        let in_part = !leaves_none_out(&settings.selected, usize::from(width.flows()));
        Ok(FollowInput {
            input: TraceInput::new(alloc, width, rule)?,
            settings,
            in_part,
        })
    }

    /// Puts the lines of all that happened and that wasn't put yet, which was by the line of the
    /// trace with this number: of each frame of a selected flow and each request that the receiver
    /// gave, and with events also what became of inputs and decisions. It reports that an
    /// allocation failed, for which something is not there that happened; then nothing is put.
    pub fn put_happened<O: PutText>(&mut self, line: u64, out: &mut O) -> Result<(), AllocError>
        ensures put { OnOk result (PutsHappened O.after line self.old out.old self.new out.new) }
        ensures unchanged { OnErr result (out.new ≡ out.old) }
    {
        match &mut self.input.taker {
            Some(following) => following.put_happened(line, &self.settings, out),
            None => Ok(()),
        }
    }

    /// Hands in, in the place of what a line says that came on this channel, an input that may
    /// stand in for it.
    fn add_in_place(&mut self, alloc: Global, channel: u8, input: Input) -> Result<(), LineFault>
        requires { channel < self.old.input.width.channels }
        ensures lines { (given : TraceState Watched) (came : Input)
            → MayStandFor would_be_followed (is_selected given.state.settings.selected)
            self.old.input.taker channel came input
            → AddsTo (λ said follow. HasTakenLines starts_watched HasFollowed
            (record given { said = said }) follow.input.width follow.input.rule
            follow.input.setup follow.input.taker)
            self.old (line.Input channel came) result self.new }
        ensures settings { self.new.settings ≡ self.old.settings }
    {
        let taker = self.input.take_taker(alloc)?;
        self.input.taker = Some(taker.take_in_place(alloc, channel, input)?);
        Ok(())
    }
}

impl TakeLine for FollowInput {
    ghost use Rattle.texts.specs.Inside.TraceInput.{TraceState, taking_format};
    ghost use Rattle.followed_traces.specs.Inside.Watched.{Watched};
    ghost use Rattle.followed_traces.specs.Inside.Lines.{HasFollowedLines};

    ghost State = { TraceState Watched };

    ghost format = { taking_format };

    ghost stands_for = { HasFollowedLines };

    fn take_line(&mut self, alloc: Global, field: &[u8], rest: &[u8]) -> Result<(), LineFault> {
        if self.in_part && field == b"burst".as_slice() {
            let selected = &self.settings.selected;
            if let Some((channel, input)) = self.input.input_for(alloc, selected, rest)? {
                return self.add_in_place(alloc, channel, input);
            }
        }
        self.input.take_line(alloc, field, rest)
    }
}

/// What a trace gives at its end that is followed.
#[derive(Drop)]
pub struct Followed {
    /// The setup that its lines gave.
    pub setup: Setup,
    /// What happened that wasn't put yet, in order: what the receiver gave as it was closed comes
    /// last.
    pub happened: Vec<Happening>,
    /// What was counted of each flow and of each channel.
    pub closed: Closed,
    /// What is put.
    pub settings: FollowSettings,
}

/// Closes the receiver of a trace of which all lines were read.
pub fn finish_follow(alloc: Global, lines: FollowInput) -> Result<Followed, AllocError>
    ensures settings { IfOk result (λ end. end.settings ≡ lines.settings) }
    ensures to { IfOk result (λ end. (state : TraceState Watched)
        → HasFollowedLines state lines
        → IsFollowedTo state.rule state.width state.said state.state.told end) }
{
    let FollowInput {
        input,
        settings,
        ..
    } = lines;
    let (setup, following) = input.finish(alloc)?;
    let (happened, closed) = following.finish(alloc)?;
    Ok(Followed {
        setup,
        happened: happened.finish()?,
        closed,
        settings,
    })
}

/// Puts what is left to be put at the end of a trace that is followed, whose last line has this
/// number: the lines of what happened and of what was counted that its settings ask for.
pub fn put_end<O: PutText>(out: &mut O, line: u64, end: &Followed)
    ensures { Puts O.after out.old (end_text line end.now) out.new }
{
    put_happened(out, line, &end.settings, &end.happened);
    put_closed(out, &end.settings.selected, &end.setup, &end.closed);
}
