//! The lines of a trace whose inputs and decisions are handed in as the lines are read.
ghost use Rattle.std.specs.Prelude.{◌≡◌, true};
ghost use Rattle.text_lines.specs.Capacities.{default_capacity};
ghost use Rattle.texts.specs.Trace.Line.{shape_of};

use super::setup_lines::SetupLines;
use super::taking::TakeEntries;
use super::trace_line::{PeekedBurst, TraceLine, is_setup_word, peek_burst};
use docsis_wire::{Bytes, HEADER_BYTES};
use flow_selection::Selection;
use lane::Input;
use loss_rule::LossRule;
use receiver::{Decision, Setup, Width};
use std::alloc::{AllocError, Global};
use text_lines::{
    DEFAULT_CAPACITY, LineFault, TakeLine, TraceKind, is_hex, read_hex_front, read_if_hex,
};

/// The lines so far of a trace. Each input and each decision is handed in at its line to what takes
/// them, which begins with the first of them; the trace itself is not held, but for its setup.
#[derive(Drop)]
pub struct TraceInput<P: TakeEntries> {
    width: Width,
    rule: LossRule,
    setup: SetupLines,
    /// What takes the inputs and decisions, once a line says one.
    pub taker: Option<P>,
    ghost shape: { setup.shape ≡ shape_of width default_capacity },
    ghost fits: { P.fits width ≡ true },
}

impl<P: TakeEntries + Drop> TraceInput<P> {
    ghost use Rattle.std.specs.Prelude.{◌≢◌, ◌<◌, ◌↔◌, ◌⊎◌, ◌∷◌, None, Some};
    ghost use Rattle.std.specs.Prelude.{IsTrue, IsFalse, IfOk, IfErr, IfSome};
    ghost use Rattle.flow_selection.specs.Selection.{is_selected};
    ghost use Rattle.text_lines.specs.Lines.{words_of};
    ghost use Rattle.texts.specs.declared.trace.trace_line.TraceLine.TheVariants as line;
    ghost use Rattle.texts.specs.Replay.{IsSetupOf};
    ghost use Rattle.texts.specs.Trace.Line.{word_of, flow_line, sid_line, burst_line};
    ghost use Rattle.texts.specs.Inside.TraceInput.{TraceState, nothing_taken, HasTakenLines};
    ghost use Rattle.texts.specs.Inside.SetupLines.{IsCarried, SetsUp, AddsTo};
    ghost use Rattle.texts.specs.Inside.StandIn.{IsForAnother, StandsInForLine};

    /// A trace for a receiver of this width, of which no line was read yet. Losses are decided by
    /// this rule.
    pub fn new(alloc: Global, width: Width, rule: LossRule) -> Result<TraceInput<P>, AllocError>
        requires fits { P.fits width ≡ true }
        ensures lines { (state : P.State) → P.starts state
            → IfOk result (λ input. HasTakenLines P.starts P.has_taken
            (nothing_taken state rule width)
            input.width input.rule input.setup input.taker) }
        ensures none { IfOk result (λ input. input.taker ≡ None) }
    {
        Ok(TraceInput {
            width,
            rule,
            setup: SetupLines::new(alloc, width, DEFAULT_CAPACITY, DEFAULT_CAPACITY)?,
            taker: None,
        })
    }

    /// The setup that all lines gave, and what took the inputs and decisions.
    pub fn finish(self, alloc: Global) -> Result<(Setup, P), AllocError>
        ensures setup { IfOk result (λ end. (given : TraceState P.State)
            → HasTakenLines P.starts P.has_taken given self.width self.rule self.setup self.taker
            → IsSetupOf given.said end.0) }
        ensures taken { IfOk result (λ end. (given : TraceState P.State)
            → HasTakenLines P.starts P.has_taken given self.width self.rule self.setup self.taker
            → P.has_taken given.state given.rule given.width end.0 given.said.entries end.1) }
    {
        let mut input = self;
        let taker = input.take_taker(alloc)?;
        let TraceInput { setup, .. } = input;
        Ok((setup.into_setup(DEFAULT_CAPACITY), taker))
    }

    /// Whether a line that begins with this word is late: it sets up a flow or a service
    /// identifier, and a line above says what came in.
    fn is_late(&self, word: &[u8]) -> bool
        ensures { IsTrue result
            ↔ (((word.now ≡ word_of flow_line) ⊎ (word.now ≡ word_of sid_line))
            × (self.now.taker ≢ None)) }
    {
        is_setup_word(word) && self.taker.is_some()
    }

    /// Adds what a line says.
    fn add(&mut self, alloc: Global, line: TraceLine) -> Result<(), LineFault>
        requires carried { IsCarried self.old.setup.shape line }
        requires early { SetsUp line → self.old.taker ≡ None }
        ensures { (given : TraceState P.State) → AddsTo (λ said input.
            HasTakenLines P.starts P.has_taken (record given { said = said })
            input.width input.rule input.setup input.taker) self.old line result self.new }
    {
        match line {
            TraceLine::Flow(flow) => self.setup.add_flow(flow),
            TraceLine::Sid(row) => self.setup.add_sid(row),
            TraceLine::Input { channel, input } => self.add_input(alloc, channel, input),
            TraceLine::Gap(decision) => self.add_decision(alloc, decision),
        }
    }

    /// Hands in what came in on a channel.
    pub(crate) fn add_input(
        &mut self,
        alloc: Global,
        channel: u8,
        input: Input,
    ) -> Result<(), LineFault>
        requires { channel < self.old.width.channels }
        ensures { (given : TraceState P.State) → AddsTo (λ said input.
            HasTakenLines P.starts P.has_taken (record given { said = said })
            input.width input.rule input.setup input.taker)
            self.old (line.Input channel input) result self.new }
    {
        let taker = self.take_taker(alloc)?;
        self.taker = Some(taker.take(alloc, self.width, channel, input)?);
        Ok(())
    }

    /// Hands in a decision.
    fn add_decision(&mut self, alloc: Global, decision: Decision) -> Result<(), LineFault>
        ensures { (given : TraceState P.State) → AddsTo (λ said input.
            HasTakenLines P.starts P.has_taken (record given { said = said })
            input.width input.rule input.setup input.taker)
            self.old (line.Gap decision) result self.new }
    {
        self.setup.find_flow(decision.flow)?;
        let taker = self.take_taker(alloc)?;
        self.taker = Some(taker.decide(alloc, self.width, decision)?);
        Ok(())
    }

    /// Whether a burst like this one has to be handed in as it came, where some flows are selected:
    /// it would come to one of them, or nothing was handed in that says to which.
    fn is_wanted(&self, selected: &Selection, channel: u8, input: &Input) -> bool
        requires channel { channel < self.now.width.channels }
        ensures { IsFalse result → IsForAnother P.would_come (is_selected selected.now)
            self.now.taker channel input.now }
    {
        let Some(taker) = &self.taker else {
            return true;
        };
        match taker.look(self.width, channel, input) {
            Some(flow) => selected.has(flow),
            None => false,
        }
    }

    /// What is handed in of the burst that a line says, by what follows the first word, and on
    /// which channel, where these flows are selected: the burst itself, or, if it would come to
    /// none of them, one with zeros behind the same header. Then the other digits are only looked
    /// at. It is none where the line has a fault.
    pub fn input_for(
        &self,
        alloc: Global,
        selected: &Selection,
        rest: &[u8],
    ) -> Result<Option<(u8, Input)>, LineFault>
        ensures channel { IfOk result (λ found.
            IfSome found (λ one. one.0 < self.now.width.channels)) }
        ensures in_place { IfOk result (λ found. IfSome found (λ one.
            StandsInForLine P.would_come (is_selected selected.now) self.now.width self.now.taker
            (word_of burst_line ∷ words_of rest.now) one.0 one.1)) }
        ensures memory { IfErr result (λ fault. fault ≡ LineFault.OutOfMemory) }
    {
        let Some(burst) = peek_burst(self.width, rest) else {
            return Ok(None);
        };
        let front = read_hex_front(alloc, burst.field, HEADER_BYTES)?;
        let zeros = burst_of(&burst, front);
        if !self.is_wanted(selected, burst.channel, &zeros) {
            if is_hex(burst.field) {
                return Ok(Some((burst.channel, zeros)));
            }
            return Ok(None);
        }
        // Their memory is given back before as much is asked for again.
        drop(zeros);
        let Some(bytes) = read_if_hex(alloc, burst.field)? else {
            return Ok(None);
        };
        Ok(Some((burst.channel, burst_of(&burst, bytes))))
    }

    /// Takes out what takes the inputs and decisions, or begins it.
    pub fn take_taker(&mut self, alloc: Global) -> Result<P, AllocError>
        ensures taker { IfOk result (λ taker. (given : TraceState P.State)
            → HasTakenLines P.starts P.has_taken given
            self.old.width self.old.rule self.old.setup self.old.taker
            → P.has_taken given.state given.rule given.width self.old.setup.setup
            given.said.entries taker) }
        ensures same { IfOk result (λ taker.
            (one : P) → self.old.taker ≡ Some one → taker ≡ one) }
        ensures none { self.new.taker ≡ None }
        ensures width { self.new.width ≡ self.old.width }
        ensures rule { self.new.rule ≡ self.old.rule }
        ensures setup { self.new.setup ≡ self.old.setup }
    {
        match self.taker.take() {
            Some(taker) => Ok(taker),
            None => P::begin(alloc, self.width, self.rule, self.setup.setup()),
        }
    }
}

impl<P: TakeEntries + Drop> TakeLine for TraceInput<P> {
    ghost use Rattle.texts.specs.Inside.TraceInput.{TraceState, taking_format, HasTakenLines};

    ghost State = { TraceState P.State };

    ghost format = { taking_format };

    ghost stands_for = { λ given input. HasTakenLines P.starts P.has_taken given
        input.width input.rule input.setup input.taker };

    fn take_line(&mut self, alloc: Global, field: &[u8], rest: &[u8]) -> Result<(), LineFault> {
        if self.is_late(field) {
            return Err(LineFault::Kind(TraceKind::SetupLate));
        }
        let line = self.setup.read_line(alloc, field, rest)?;
        self.add(alloc, line)
    }
}

/// A burst of which a line says the rest, with these bytes.
fn burst_of(burst: &PeekedBurst, bytes: Vec<u8>) -> Input
    ensures { result ≡ Input.Burst burst.now.grant burst.now.hcs_ok bytes.items }
{
    Input::Burst {
        grant: burst.grant,
        hcs_ok: burst.hcs_ok,
        bytes: Bytes::from(bytes),
    }
}
