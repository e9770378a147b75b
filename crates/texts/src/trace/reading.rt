//! The lines of a trace, one after another.
ghost use Rattle.std.specs.Prelude.{◌≡◌, ◌≤◌, ◌<◌, ◌↔◌, ◌⊎◌, [], ◌∷◌, ◌++◌, IsTrue, OnOk, IfOk};
ghost use Rattle.std.specs.Prelude.{IfErr, vec_len};
ghost use Rattle.lane.specs.Limits.{channel_limit};
ghost use Rattle.texts.specs.Trace.{IsTrace, IsTraceFault};
ghost use Rattle.texts.specs.Trace.Line.{word_of, flow_line, sid_line};

use super::Trace;
use super::setup_lines::SetupLines;
use super::trace_line::{TraceLine, is_setup_word};
use lane::Input;
use receiver::{Decision, Lists, Width};
use std::alloc::{AllocError, Global};
use text_lines::{DEFAULT_CAPACITY, LineFault, ParseFault, TakeLine, TraceKind, take_lines};

/// The tag of a decision.
const DECISION: u8 = 4;

/// Appends a sender to the tags.
fn push_tag(tags: &mut Vec<u8>, sender: u8) -> Result<(), AllocError>
    ensures { OnOk result (tags.new.items ≡ tags.old.items ++ sender ∷ []) }
{
    Ok(tags.push(sender)?)
}

/// What the lines so far of a trace give.
#[derive(Drop)]
pub struct Reading {
    setup: SetupLines,
    lists: Lists,
    tags: Vec<u8>,
    ghost four_channels: { setup.shape.channels ≡ channel_limit },
}

impl Reading {
    ghost use Rattle.texts.specs.Trace.{IsGivenBy};
    ghost use Rattle.texts.specs.Trace.Place.{Said, nothing_said};
    ghost use Rattle.texts.specs.Inside.Reading.{HasRead};
    ghost use Rattle.texts.specs.Inside.SetupLines.{IsCarried, AddsTo};

    /// What no lines give, where each flow is to have a ring of this capacity.
    pub fn new(alloc: Global, ring: u16) -> Result<Reading, AllocError>
        ensures { IfOk result (HasRead (nothing_said ring)) }
    {
        let lists = Lists {
            inputs: [
                Vec::new(alloc),
                Vec::new(alloc),
                Vec::new(alloc),
                Vec::new(alloc),
            ],
            decisions: Vec::new(alloc),
        };
        Ok(Reading {
            setup: SetupLines::new(alloc, Width::PROFILE, ring, DEFAULT_CAPACITY)?,
            lists,
            tags: Vec::new(alloc),
        })
    }

    /// The trace that the lines give, with mailboxes of this capacity.
    pub fn into_trace(self, mailbox: u16) -> Trace
        ensures { (said : Said) → HasRead said self → IsGivenBy mailbox said result }
    {
        let Reading {
            setup,
            lists,
            tags,
            ..
        } = self;
        Trace {
            setup: setup.into_setup(mailbox),
            lists,
            tags,
        }
    }

    /// Whether a line that begins with this word is late: it sets up a flow or a service
    /// identifier, and a line above says what came in.
    fn is_late(&self, word: &[u8]) -> bool
        ensures { IsTrue result
            ↔ (((word.now ≡ word_of flow_line) ⊎ (word.now ≡ word_of sid_line))
            × (0 < vec_len self.now.tags)) }
    {
        is_setup_word(word) && !self.tags.is_empty()
    }

    /// Adds what a line says.
    fn add(&mut self, line: TraceLine) -> Result<(), LineFault>
        requires { IsCarried self.old.setup.shape line }
        ensures { AddsTo HasRead self.old line result self.new }
    {
        match line {
            TraceLine::Flow(flow) => self.setup.add_flow(flow),
            TraceLine::Sid(row) => self.setup.add_sid(row),
            TraceLine::Input { channel, input } => self.add_input(channel, input),
            TraceLine::Gap(decision) => self.add_decision(decision),
        }
    }

    /// Adds what came in on a channel, 0 to 3.
    fn add_input(&mut self, channel: u8, input: Input) -> Result<(), LineFault>
        requires { channel < channel_limit }
        ensures { AddsTo HasRead self.old (TraceLine.Input channel input) result self.new }
    {
        push_tag(&mut self.tags, channel)?;
        Ok(self.lists.inputs[usize::from(channel)].push(input)?)
    }

    /// Adds a decision.
    fn add_decision(&mut self, decision: Decision) -> Result<(), LineFault>
        ensures { AddsTo HasRead self.old (TraceLine.Gap decision) result self.new }
    {
        self.setup.find_flow(decision.flow)?;
        push_tag(&mut self.tags, DECISION)?;
        Ok(self.lists.decisions.push(decision)?)
    }
}

impl TakeLine for Reading {
    ghost use Rattle.texts.specs.Trace.Place.{Said, trace_format};
    ghost use Rattle.texts.specs.Inside.Reading.{HasRead};

    ghost State = { Said };

    ghost format = { trace_format };

    ghost stands_for = { λ said reading. HasRead said reading };

    fn take_line(&mut self, alloc: Global, field: &[u8], rest: &[u8]) -> Result<(), LineFault> {
        if self.is_late(field) {
            return Err(LineFault::Kind(TraceKind::SetupLate));
        }
        let line = self.setup.read_line(alloc, field, rest)?;
        self.add(line)
    }
}

/// The setup, the lists and the tags that a trace gives, with rings and mailboxes of these
/// capacities, each at least 1. Otherwise it reports the first faulty line with the least kind of
/// its faults, or that an allocation failed.
///
/// That an input is at most one trace or has at most one fault, and never both, is stated by
/// [`input_is_one_trace`](crate::laws::input_is_one_trace),
/// [`trace_has_one_fault`](crate::laws::trace_has_one_fault) and
/// [`faulty_input_is_no_trace`](crate::laws::faulty_input_is_no_trace).
pub fn parse_trace(
    alloc: Global,
    input: &[u8],
    ring: u16,
    mailbox: u16,
) -> Result<Trace, ParseFault>
    requires ring { 1 ≤ ring }
    requires mailbox { 1 ≤ mailbox }
    ensures trace { IfOk result (IsTrace ring mailbox input.now) }
    ensures fault { IfErr result (IsTraceFault ring input.now) }
{
    let mut reading = Reading::new(alloc, ring)?;
    take_lines(alloc, input, &mut reading)?;
    Ok(reading.into_trace(mailbox))
}
