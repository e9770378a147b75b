//! All service flows.
//!
//! Each call names a flow by the place of its record, and leaves all others as they are.
ghost use Rattle.std.specs.Prelude.{◌≤◌, length};
ghost use Rattle.flow_records.specs.Limits.{flows_max};

mod draining;

use crate::counts::FlowCounts;
use crate::event::{Applied, Step};
use crate::flow::{Flow, new_flows};
use docsis_wire::HeaderCheck;
use flow_records::{Event, FlowRecord, SetupFault, check_records};
use reorder::Declared;
use std::alloc::{AllocError, Global};

/// All service flows, at most 64, and the check that their frames' headers have to pass.
#[derive(Drop)]
pub struct Core<C> {
    flows: Vec<Flow>,
    check: C,
    ghost few: { length flows.items ≤ flows_max },
}

impl<C: HeaderCheck + Drop> Core<C> {
    ghost use Rattle.std.specs.Prelude.{◌≡◌, ◌<◌, ◌↔◌, ℕ, length, IsTrue, IfOk, IsOk, OnErr, Ok};
    ghost use Rattle.std.specs.Prelude.{Err};
    ghost use Rattle.docsis_wire.specs.Limits.{sequence_modulus};
    ghost use Rattle.flow_records.specs.Setup.{IsSetupFault, CanBeSetUp};
    ghost use Rattle.flow_core.specs.Flows.{event_of, IsNewCore, HasFlow};
    ghost use Rattle.flow_records.specs.Events.{flow_of, IsTakable};
    ghost use Rattle.flow_core.specs.Flows.{IsDrainedAt, AdvancesAt, OthersStay, TakesEventAt};
    ghost use Rattle.flow_core.specs.Flows.{ClosesGapAt};
    ghost use Rattle.flow_core.specs.declared.event.Step.{Step};
    ghost use Rattle.flow_core.specs.declared.flow.Flow.{Flow};
    ghost use Rattle.flow_records.specs.declared.record.SetupFault.{SetupFault};

    /// Flows to which nothing happened yet, or the first fault of their records; `OutOfMemory` is
    /// reported only of records that have no fault. All windows are made here.
    pub fn new(alloc: Global, records: &[FlowRecord], check: C) -> Result<Core<C>, SetupFault>
        ensures new { IfOk result (λ core. IsNewCore check records.now core) }
        ensures can_be_set_up { IsOk result → CanBeSetUp records.now }
        ensures too_many { result ≡ Err SetupFault.TooManyFlows
            ↔ IsSetupFault records.now SetupFault.TooManyFlows }
        ensures bad { (k : ℕ) → result ≡ Err (SetupFault.BadFlow k)
            ↔ IsSetupFault records.now (SetupFault.BadFlow k) }
        ensures memory { result ≡ Err SetupFault.OutOfMemory → CanBeSetUp records.now }
        ensures repeated { (k : ℕ) → result ≡ Err (SetupFault.SameSfid k)
            ↔ IsSetupFault records.now (SetupFault.SameSfid k) }
    {
        check_records(records)?;
        let flows = new_flows(alloc, records)?;
        Ok(Core { flows, check })
    }

    /// Takes an event of a flow that exists and is drained. An arriving segment is ready, and a
    /// number is below 8192. It takes no memory.
    pub fn apply(&mut self, event: Event) -> Applied
        requires exists { flow_of event < length self.old.flows.items }
        requires drained { IsDrainedAt self.old (flow_of event) }
        requires takable { IsTakable event }
        ensures flow { TakesEventAt self.old (flow_of event) (event_of event) result self.new }
        ensures others { OthersStay self.old self.new (flow_of event) }
    {
        match event {
            Event::Arrive { flow, segment } => Applied::Arrival(self.flows[flow].arrive(segment)),
            Event::Gap { flow } => Applied::Decision(self.flows[flow].gap()),
            Event::GapTo { flow, number } => Applied::DecisionTo(self.flows[flow].gap_to(number)),
            Event::SkipTo { flow, number } => {
                Applied::DecisionSkip(self.flows[flow].skip_to(number))
            }
        }
    }

    /// Joins the next segment of a flow that exists. `Nothing`: none is next. Where an allocation
    /// failed nothing changed.
    pub fn advance(&mut self, alloc: Global, flow: usize) -> Result<Step, AllocError>
        requires exists { flow < length self.old.flows.items }
        ensures step { IfOk result
            (λ step. AdvancesAt C.accepts self.old flow step self.new) }
        ensures nothing { result ≡ Ok Step.Nothing ↔ IsDrainedAt self.old flow }
        ensures others { OthersStay self.old self.new flow }
        ensures refused { OnErr result (self.new ≡ self.old) }
    {
        self.flows[flow].advance(alloc, &self.check)
    }

    /// Whether no segment of the flow is next.
    pub fn is_drained(&self, flow: usize) -> bool
        requires exists { flow < length self.now.flows.items }
        ensures { IsTrue result ↔ IsDrainedAt self.now flow }
    {
        self.flows[flow].is_drained()
    }

    /// The number that a flow expects, 0 to 8191. Of a drained flow it is that of its expected
    /// index, by a law of [`crate::laws`].
    pub fn expected(&self, flow: usize) -> u16
        requires exists { flow < length self.now.flows.items }
        ensures number { (one : Flow) → HasFlow self.now flow one → result ≡ one.window.expected }
        ensures in_range { result < sequence_modulus }
    {
        self.flows[flow].expected()
    }

    /// How many flows there are, 0 to 64.
    pub fn flow_count(&self) -> usize
        ensures { result ≡ length self.now.flows.items }
    {
        self.flows.len()
    }

    /// Declares the expected segment of a drained flow lost if a later one was kept, as a flow's
    /// close does, and says whether it was. It takes no memory.
    pub fn close_gap(&mut self, flow: usize) -> bool
        requires exists { flow < length self.old.flows.items }
        requires drained { IsDrainedAt self.old flow }
        ensures flow { ClosesGapAt self.old flow result self.new }
        ensures others { OthersStay self.old self.new flow }
    {
        matches!(self.flows[flow].gap(), Declared::Lost(_))
    }

    /// What was counted of a flow so far.
    pub fn counts(&self, flow: usize) -> FlowCounts
        requires exists { flow < length self.now.flows.items }
        ensures { (one : Flow) → HasFlow self.now flow one → result ≡ one.counts }
    {
        self.flows[flow].counts()
    }
}
