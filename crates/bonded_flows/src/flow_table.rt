//! All flows of a receiver, each begun when its first segment comes.
ghost use Rattle.std.specs.Prelude.{◌≡◌, ◌<◌, ◌≤◌, ◌∷◌, [], ℕ, Bool, List, Some, IfOk, IfErr};
ghost use Rattle.std.specs.Prelude.{OnErr, Err, length, slice_get};
ghost use Rattle.docsis_wire.specs.Limits.{sequence_modulus};
ghost use Rattle.docsis_wire.specs.Ready.{IsReady};
ghost use Rattle.flow_records.specs.Setup.{CanBeSetUpWithin};
ghost use Rattle.lane.specs.Limits.{most_channels};
ghost use Rattle.lane.specs.Rows.{CanBeOpenedWithin};
ghost use Rattle.flow_core.specs.Fates.{Fates, number_of, IsExpected};
ghost use Rattle.flow_core.specs.Events.{FlowEvent};
ghost use Rattle.loss_rule.specs.Rule.{Coming, Lasts, AreRuled, on_channel, handed_in};
ghost use Rattle.bonded_flows.specs.FlowSetup.{FlowSetup, ruled_flow};
ghost use Rattle.bonded_flows.specs.declared.flow_slot.FlowSlot.{FlowSlot};
ghost use Rattle.consumer.specs.declared.given.Given.{Given};
ghost use Rattle.bonded_flows.specs.ByRule.{decision_event, IsTakable, IsTold, IsToldLost};
ghost use Rattle.bonded_flows.specs.ByRule.{HasGivenByRule};
ghost use Rattle.bonded_flows.specs.Parts.{comes};
ghost use Rattle.bonded_flows.specs.Slots.{LeavesOf, AreNewSlots, held_in};
ghost use Rattle.bonded_flows.specs.Table.{StandsFor, IsInUse};
ghost use Rattle.bonded_flows.specs.Table.{IsPreparedAt, IsAtRestAt, IsClosingAt, PartStandsAt};
ghost use Rattle.bonded_flows.specs.Table.{TakesMore, BeginsAnewAt};
ghost use Rattle.bonded_flows.specs.Table.{OthersStay, NoneBeginsToClose};
ghost use Rattle.bonded_flows.specs.declared.flow_slot.DecideFault.{DecideFault};
ghost use Rattle.bonded_flows.specs.declared.flow_slot.NotReady.{NotReady};

use crate::channel_sets::{ChannelSet, channel_sets};
use crate::decision::FlowDecision;
use crate::flow_slot::{DecideFault, FlowSlot, NotReady};
use crate::told::Told;
use consumer::Consumer;
use docsis_wire::{HeaderCheck, Segment};
use flow_core::{FlowCounts, FlowRecord};
use lane::SidRow;
use loss_rule::LossRule;
use std::alloc::{AllocError, Global};

/// The flows of a receiver. A flow takes memory of its own once its first segment comes.
#[derive(Drop)]
pub struct FlowTable<C> {
    check: C,
    slots: Vec<FlowSlot>,
}

impl<C: HeaderCheck + Drop> FlowTable<C> {
    /// Flows to which nothing came yet, for records and rows of so many channels that have no
    /// fault.
    pub fn new(
        alloc: Global,
        rule: LossRule,
        records: &[FlowRecord],
        channels: u8,
        rows: &[SidRow],
        check: C,
    ) -> Result<FlowTable<C>, AllocError>
        requires records { (limit : ℕ) × CanBeSetUpWithin limit records.now }
        requires channels { channels ≤ most_channels }
        requires rows { CanBeOpenedWithin channels rows.now (length records.now) }
        ensures stands { IfOk result (λ table. StandsFor C.accepts table (C.accepts check)
            (record { rule = rule; records = records.now; channels = channels; rows = rows.now })
            [] []) }
        ensures at_rest { IfOk result (λ table. (k : ℕ) → IsAtRestAt table k) }
        ensures in_use { IfOk result (λ table. IsInUse C.accepts table) }
    {
        let sets = channel_sets(alloc, channels, rows, records.len())?;
        let slots = new_slots(alloc, rule, records, &sets, usize::from(channels))?;
        Ok(FlowTable { check, slots })
    }

    /// How many flows there are.
    pub fn flow_count(&self) -> usize
        ensures { result ≡ length self.now.slots.items }
    {
        self.slots.len()
    }

    /// Makes a flow ready for a segment: begins it if it isn't begun, or does what an earlier call
    /// left to be done.
    pub fn prepare<O: Consumer>(
        &mut self,
        alloc: Global,
        flow: usize,
        out: &mut O,
    ) -> Result<(), NotReady>
        requires in_use { IsInUse C.accepts self.old }
        requires exists { flow < length self.old.slots.items }
        ensures takes { TakesMore O.after C.accepts self.old out.old flow [] self.new out.new }
        ensures prepared { IfOk result (λ _. IsPreparedAt self.new flow) }
        ensures closing { result ≡ Err NotReady.Closing → IsClosingAt self.new flow }
        ensures refused { IsClosingAt self.old flow → result ≡ Err NotReady.Closing }
        ensures open_still { NoneBeginsToClose self.old self.new }
        ensures others { OthersStay self.old flow self.new }
        ensures in_use { IsInUse C.accepts self.new }
    {
        self.slots[flow].prepare(alloc, &self.check, out)
    }

    /// Takes a segment that comes on this channel to a flow that is prepared, as
    /// [`BondedFlow::take_segment`](crate::BondedFlow::take_segment) does.
    pub fn take_segment<O: Consumer>(
        &mut self,
        alloc: Global,
        flow: usize,
        channel: usize,
        segment: Segment,
        out: &mut O,
    ) -> Result<Told, AllocError>
        requires in_use { IsInUse C.accepts self.old }
        requires exists { flow < length self.old.slots.items }
        requires prepared { IsPreparedAt self.old flow }
        requires ready { IsReady segment }
        ensures takes { TakesMore O.after C.accepts self.old out.old flow
            (record { flow = flow; input = comes (on_channel channel segment) } ∷ [])
            self.new out.new }
        ensures told { IfOk result (λ told. (setup : FlowSetup) (comings : List Coming)
            (given : List (List ℕ))
            → PartStandsAt (C.accepts self.old.check) setup self.old flow comings given
            → IsTold setup comings channel segment told) }
        ensures at_rest { IfOk result (λ _. IsAtRestAt self.new flow) }
        ensures open_still { NoneBeginsToClose self.old self.new }
        ensures others { OthersStay self.old flow self.new }
        ensures in_use { IsInUse C.accepts self.new }
    {
        self.slots[flow].take_segment(alloc, &self.check, channel, segment, out)
    }

    /// Takes a decision about a flow, and answers whether a segment is lost by it. Before its first
    /// segment comes a flow is begun only for a skip; other decisions change nothing then.
    pub fn decide<O: Consumer>(
        &mut self,
        alloc: Global,
        flow: usize,
        decision: FlowDecision,
        out: &mut O,
    ) -> Result<bool, DecideFault>
        requires in_use { IsInUse C.accepts self.old }
        requires exists { flow < length self.old.slots.items }
        requires takable { IsTakable decision }
        ensures takes { IfOk result (λ _. TakesMore O.after C.accepts self.old out.old flow
            (record { flow = flow; input = comes (handed_in (decision_event decision)) } ∷ [])
            self.new out.new) }
        ensures told { IfOk result (λ lost. (setup : FlowSetup) (comings : List Coming)
            (given : List (List ℕ))
            → PartStandsAt (C.accepts self.old.check) setup self.old flow comings given
            → IsToldLost setup comings (decision_event decision) lost) }
        ensures at_rest { IfOk result (λ _. IsAtRestAt self.new flow) }
        ensures not_taken { IfErr result (λ fault. LeavesOf fault
            (TakesMore O.after C.accepts self.old out.old flow [] self.new out.new)
            (TakesMore O.after C.accepts self.old out.old flow
            (record { flow = flow; input = comes (handed_in (decision_event decision)) } ∷ [])
            self.new out.new)) }
        ensures closing { result ≡ Err (DecideFault.NotTaken NotReady.Closing)
            → IsClosingAt self.new flow }
        ensures refused { IsClosingAt self.old flow
            → result ≡ Err (DecideFault.NotTaken NotReady.Closing) }
        ensures open_still { NoneBeginsToClose self.old self.new }
        ensures others { OthersStay self.old flow self.new }
        ensures in_use { IsInUse C.accepts self.new }
    {
        self.slots[flow].decide(alloc, &self.check, decision, out)
    }

    /// Does what an earlier call left to be done of a flow, if it is begun.
    pub fn go_on<O: Consumer>(
        &mut self,
        alloc: Global,
        flow: usize,
        out: &mut O,
    ) -> Result<(), NotReady>
        requires in_use { IsInUse C.accepts self.old }
        requires exists { flow < length self.old.slots.items }
        ensures takes { TakesMore O.after C.accepts self.old out.old flow [] self.new out.new }
        ensures at_rest { IfOk result (λ _. IsAtRestAt self.new flow) }
        ensures closing { result ≡ Err NotReady.Closing → IsClosingAt self.new flow }
        ensures refused { IsClosingAt self.old flow → result ≡ Err NotReady.Closing }
        ensures open_still { NoneBeginsToClose self.old self.new }
        ensures others { OthersStay self.old flow self.new }
        ensures in_use { IsInUse C.accepts self.new }
    {
        self.slots[flow].go_on(alloc, &self.check, out)
    }

    /// Closes a flow, gives what there is left to give, and answers what was counted of it since it
    /// was begun or began anew. Then it begins anew at this number, 0 to 8191. Where an allocation
    /// failed nothing begins anew, and the call is to be made again: until then the flow may be
    /// ready for nothing else.
    pub fn restart<O: Consumer>(
        &mut self,
        alloc: Global,
        flow: usize,
        first: u16,
        out: &mut O,
    ) -> Result<FlowCounts, AllocError>
        requires in_use { IsInUse C.accepts self.old }
        requires exists { flow < length self.old.slots.items }
        requires number { first < sequence_modulus }
        ensures begins_anew { IfOk result (λ counts.
            BeginsAnewAt O.after C.accepts self.old out.old flow first counts self.new out.new) }
        ensures at_rest { IfOk result (λ _. IsAtRestAt self.new flow) }
        ensures not_taken { OnErr result
            (TakesMore O.after C.accepts self.old out.old flow [] self.new out.new) }
        ensures others { OthersStay self.old flow self.new }
        ensures in_use { IsInUse C.accepts self.new }
    {
        self.slots[flow].restart(alloc, &self.check, first, out)
    }

    /// The number that a flow expects, 0 to 8191. Where nothing of the flow is left to be done it
    /// is that of its expected index.
    pub fn expected(&self, flow: usize) -> u16
        requires in_use { IsInUse C.accepts self.now }
        requires exists { flow < length self.now.slots.items }
        ensures in_range { result < sequence_modulus }
        ensures number { (setup : FlowSetup) (comings : List Coming) (given : List (List ℕ))
            (events : List FlowEvent) (lasts : Lasts) (fates : Fates) (x : ℕ)
            → PartStandsAt (C.accepts self.now.check) setup self.now flow comings given
            → IsAtRestAt self.now flow
            → AreRuled setup.rule (ruled_flow setup) comings events lasts fates
            → IsExpected fates x → result ≡ number_of setup.flow_record.first x }
    {
        self.slots[flow].expected()
    }

    /// How many segments of a flow are held: they were kept and are not joined yet.
    pub fn held(&self, flow: usize) -> usize
        requires exists { flow < length self.now.slots.items }
        ensures { (slot : FlowSlot) → slice_get self.now.slots.items flow ≡ Some slot
            → result ≡ held_in slot }
    {
        self.slots[flow].held()
    }

    /// What was counted of a flow since it was begun or began anew.
    pub fn counts(&self, flow: usize) -> FlowCounts
        requires exists { flow < length self.now.slots.items }
        ensures { (setup : FlowSetup) (comings : List Coming) (given : List (List ℕ))
            → PartStandsAt (C.accepts self.now.check) setup self.now flow comings given
            → IsAtRestAt self.now flow
            → HasGivenByRule (C.accepts self.now.check) setup comings given result }
    {
        self.slots[flow].counts()
    }
}

/// A slot of each flow, of whose channels it is told which are its own.
fn new_slots(
    alloc: Global,
    rule: LossRule,
    records: &[FlowRecord],
    sets: &[ChannelSet],
    channel_count: usize,
) -> Result<Vec<FlowSlot>, AllocError>
    requires { length sets.now ≡ length records.now }
    ensures count { IfOk result (λ slots. length slots.items ≡ length records.now) }
    ensures each { IfOk result (λ slots.
        AreNewSlots rule records.now sets.now channel_count slots.items) }
{
    let mut slots = Vec::with_capacity(alloc, records.len())?;
    for (index, flow_record) in records.iter().enumerate() {
        let slot = FlowSlot::new(index, rule, *flow_record, sets[index], channel_count);
        slots.push(slot)?;
    }
    Ok(slots)
}
