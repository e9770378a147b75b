//! The lines of a trace that set a receiver up, one after another.
ghost use Rattle.std.specs.Prelude.{◌≡◌, ◌≤◌, ◌<◌, ◌↔◌, ◌∷◌, [], IsTrue, IfOk, OnOk, IfErr};
ghost use Rattle.std.specs.Prelude.{vec_len};
ghost use Rattle.receiver.specs.Widths.{CanReceiveWithin};
ghost use Rattle.texts.specs.Trace.Line.{shape_of};
ghost use Rattle.text_lines.specs.Inside.LineFault.{IsLineFault};
ghost use Rattle.text_lines.specs.Lines.{words_of};
ghost use Rattle.texts.specs.Inside.SetupLines.{HasSetup, IsCarried, AddsTo};
ghost use Rattle.texts.specs.Inside.TraceLine.{IsLeastFaultByItself};
ghost use Rattle.texts.specs.Trace.Line.{Carries};
ghost use Rattle.texts.specs.declared.trace.trace_line.TraceLine.TheVariants as line;

use super::trace_line::{TraceLine, read_trace_line};
use flow_core::FlowRecord;
use lane::{SidRow, SidTable};
use receiver::{Setup, Width};
use std::alloc::{AllocError, Global};
use std::collections::BTreeSet;
use std::marker::Model;
use text_lines::{LineFault, TraceKind};

/// The setup that the lines so far of a trace give. Contracts see the shape of the trace, which no
/// line says, and the setup.
#[derive(Drop)]
pub struct SetupLines {
    width: Width,
    ring: u16,
    setup: Setup,
    seen: SidTable,
    sfids: BTreeSet<u32>,
}

impl Model for SetupLines {
    ghost use Rattle.texts.specs.Trace.Line.{shape_of};
    ghost use Rattle.texts.specs.Inside.SetupLines.{SetupSoFar, HoldsSetup};

    ghost Value = { SetupSoFar };

    ghost view = { λ lines. record {
      shape = shape_of lines.width lines.ring;
      setup = lines.setup;
    } };

    ghost invariant = { λ lines.
        HoldsSetup (shape_of lines.width lines.ring) lines.setup lines.seen lines.sfids };
}

impl SetupLines {
    /// What no lines give of a trace for a receiver of this width, where each flow is to have a
    /// ring of this capacity, and the mailboxes have that one.
    pub fn new(
        alloc: Global,
        width: Width,
        ring: u16,
        mailbox: u16,
    ) -> Result<SetupLines, AllocError>
        ensures shape { IfOk result (λ lines. lines.shape ≡ shape_of width ring) }
        ensures flows { IfOk result (λ lines. lines.setup.flows.items ≡ []) }
        ensures sids { IfOk result (λ lines. lines.setup.sids.items ≡ []) }
        ensures mailbox { IfOk result (λ lines. lines.setup.mailbox ≡ mailbox) }
    {
        let seen = SidTable::new(alloc, width.channels())?;
        Ok(SetupLines {
            width,
            ring,
            setup: Setup {
                flows: Vec::new(alloc),
                sids: Vec::new(alloc),
                mailbox,
            },
            seen,
            sfids: BTreeSet::new(alloc),
        })
    }

    /// What a line of the trace says by itself, by its first field and what follows that.
    #[inline(always)]
    pub fn read_line(
        &self,
        alloc: Global,
        field: &[u8],
        rest: &[u8],
    ) -> Result<TraceLine, LineFault>
        ensures carried { IfOk result
            (Carries self.now.shape (field.now ∷ words_of rest.now)) }
        ensures fault { IfErr result (IsLineFault
            (IsLeastFaultByItself self.now.shape (field.now ∷ words_of rest.now))) }
    {
        read_trace_line(alloc, self.width, self.ring, field, rest)
    }

    /// The setup so far.
    pub fn setup(&self) -> &Setup
        ensures same { result.now ≡ self.now.setup }
        ensures can_receive { 1 ≤ self.now.shape.ring
            → CanReceiveWithin self.now.shape.channels self.now.shape.flows result.now }
    {
        &self.setup
    }

    /// The setup, with mailboxes of this capacity.
    pub fn into_setup(self, mailbox: u16) -> Setup
        ensures { result ≡ record self.setup { mailbox = mailbox } }
    {
        Setup {
            flows: self.setup.flows,
            sids: self.setup.sids,
            mailbox,
        }
    }

    /// Adds a flow.
    pub fn add_flow(&mut self, flow: FlowRecord) -> Result<(), LineFault>
        requires { IsCarried self.old.shape (line.Flow flow) }
        ensures added { AddsTo HasSetup self.old (line.Flow flow) result self.new }
        ensures shape { self.new.shape ≡ self.old.shape }
        ensures mailbox { self.new.setup.mailbox ≡ self.old.setup.mailbox }
    {
        if self.setup.flows.len() >= usize::from(self.width.flows()) {
            return Err(LineFault::Kind(TraceKind::TooManyFlows));
        }
        self.setup.flows.reserve(1)?;
        if !self.sfids.insert(flow.sfid)? {
            return Err(LineFault::Kind(TraceKind::SameFlow));
        }
        self.setup.flows.push_reserved(flow);
        Ok(())
    }

    /// Adds a service identifier.
    pub fn add_sid(&mut self, row: SidRow) -> Result<(), LineFault>
        requires { IsCarried self.old.shape (line.Sid row) }
        ensures added { AddsTo HasSetup self.old (line.Sid row) result self.new }
        ensures shape { self.new.shape ≡ self.old.shape }
        ensures mailbox { self.new.setup.mailbox ≡ self.old.setup.mailbox }
    {
        self.find_flow(row.flow)?;
        if self.seen.contains(row.channel, row.sid) {
            return Err(LineFault::Kind(TraceKind::SameSid));
        }
        self.setup.sids.push(row)?;
        self.seen.insert(row.channel, row.sid);
        Ok(())
    }

    /// Looks whether a line above gives this flow.
    pub fn find_flow(&self, flow: usize) -> Result<(), LineFault>
        ensures known { OnOk result (flow < vec_len self.now.setup.flows) }
        ensures unknown { IfErr result (λ fault. (fault ≡ LineFault.Kind TraceKind.UnknownFlow)
            × (vec_len self.now.setup.flows ≤ flow)) }
    {
        if flow >= self.setup.flows.len() {
            return Err(LineFault::Kind(TraceKind::UnknownFlow));
        }
        Ok(())
    }
}
