//! One place of a table: a flow that is begun when its first segment comes.
ghost use Rattle.std.specs.Prelude.{◌≡◌, ◌≢◌, ◌<◌, ◌≤◌, ◌∷◌, [], ℕ, Bool, List, None, Err, IfOk};
ghost use Rattle.std.specs.Prelude.{IfErr, OnErr};
ghost use Rattle.docsis_wire.specs.Limits.{sequence_modulus};
ghost use Rattle.docsis_wire.specs.Ready.{IsReady};
ghost use Rattle.flow_records.specs.Setup.{IsInRange};
ghost use Rattle.lane.specs.Limits.{most_channels};
ghost use Rattle.flow_core.specs.Fates.{Fates, number_of, IsExpected};
ghost use Rattle.flow_core.specs.Events.{FlowEvent};
ghost use Rattle.loss_rule.specs.Rule.{Coming, Lasts, AreRuled, on_channel, handed_in};
ghost use Rattle.bonded_flows.specs.FlowSetup.{FlowSetup, ruled_flow};
ghost use Rattle.bonded_flows.specs.Stands.{HasCome, IsUnderWay, IsSettled};
ghost use Rattle.std.specs.Box.{box_value};
ghost use Rattle.bonded_flows.specs.Taking.{Takes, Closes};
ghost use Rattle.bonded_flows.specs.ByRule.{decision_event, IsTakable, IsTold, IsToldLost};
ghost use Rattle.bonded_flows.specs.ByRule.{HasGivenByRule};
ghost use Rattle.bonded_flows.specs.Slots.{PartStands, IsInUse, IsPrepared, IsAtRest, IsClosing};
ghost use Rattle.bonded_flows.specs.Slots.{SlotTakes, BeginsAnew, LeavesOf, held_in, setup_in};
ghost use Rattle.bonded_flows.specs.declared.flow_slot.DecideFault.{DecideFault};
ghost use Rattle.bonded_flows.specs.declared.flow_slot.NotReady.{NotReady};

use crate::bonded_flow::BondedFlow;
use crate::decision::FlowDecision;
use crate::pending::Pending;
use crate::told::Told;
use consumer::Consumer;
use docsis_wire::{HeaderCheck, Segment};
use flow_core::{FlowCounts, FlowRecord};
use lane::MOST_CHANNELS;
use loss_rule::LossRule;
use std::alloc::{AllocError, Global};
use thiserror::Error;

/// A flow of a table. Until its first segment comes it takes no memory of its own.
#[derive(Drop)]
pub(crate) struct FlowSlot {
    /// The index under which its frames are given.
    index: usize,
    rule: LossRule,
    /// Its record, with the number of the first segment of the part that is under way.
    flow_record: FlowRecord,
    /// Of each channel whether it is the flow's; of those above the table's none is looked at.
    channels: [bool; MOST_CHANNELS],
    channel_count: usize,
    flow: Option<Box<BondedFlow>>,
}

/// Why a flow isn't ready to take what comes.
#[derive(Clone, Copy, Debug, PartialEq, Eq, Error)]
pub enum NotReady {
    /// An allocation failed.
    #[error("out of memory")]
    OutOfMemory,
    /// The flow is being closed: its restart is to be called again first.
    #[error("the flow is being closed")]
    Closing,
}

/// Why a decision isn't taken, or what it leaves.
#[derive(Clone, Copy, Debug, PartialEq, Eq, Error)]
pub enum DecideFault {
    /// The decision isn't taken.
    #[error("the decision is not taken: {0}")]
    NotTaken(NotReady),
    /// The decision is taken, and an allocation failed before all was given that is whole.
    #[error("the decision is taken, and out of memory")]
    Unfinished,
}

impl From<AllocError> for NotReady {
    ghost use Rattle.std.specs.Prelude.{◌≡◌};
    ghost use Rattle.bonded_flows.specs.declared.flow_slot.NotReady.TheVariants.{OutOfMemory};

    ghost from_gives = { λ _ fault. fault ≡ OutOfMemory };

    fn from(_: AllocError) -> NotReady {
        NotReady::OutOfMemory
    }
}

impl From<NotReady> for DecideFault {
    ghost use Rattle.std.specs.Prelude.{◌≡◌};
    ghost use Rattle.bonded_flows.specs.declared.flow_slot.DecideFault.TheVariants.{NotTaken};

    ghost from_gives = { λ why fault. fault ≡ NotTaken why };

    fn from(why: NotReady) -> DecideFault {
        DecideFault::NotTaken(why)
    }
}

impl FlowSlot {
    /// A flow that isn't begun.
    pub(crate) fn new(
        index: usize,
        rule: LossRule,
        flow_record: FlowRecord,
        channels: [bool; MOST_CHANNELS],
        channel_count: usize,
    ) -> FlowSlot
        ensures index { result.index ≡ index }
        ensures rule { result.rule ≡ rule }
        ensures flow_record { result.flow_record ≡ flow_record }
        ensures channels { result.channels ≡ channels }
        ensures channel_count { result.channel_count ≡ channel_count }
        ensures flow { result.flow ≡ None }
    {
        FlowSlot {
            index,
            rule,
            flow_record,
            channels,
            channel_count,
            flow: None,
        }
    }

    /// Begins the flow if it isn't, or does what an earlier call left to be done.
    pub(crate) fn prepare<C: HeaderCheck, O: Consumer>(
        &mut self,
        alloc: Global,
        check: &C,
        out: &mut O,
    ) -> Result<(), NotReady>
        requires { IsInUse (C.accepts check.now) self.old }
        ensures takes { SlotTakes O.after (C.accepts check.now) self.old out.old []
            self.new out.new }
        ensures prepared { IfOk result (λ _. IsPrepared self.new) }
        ensures closing { result ≡ Err NotReady.Closing → IsClosing self.new }
        ensures refused { IsClosing self.old → result ≡ Err NotReady.Closing }
        ensures open_still { IsClosing self.new → IsClosing self.old }
    {
        let Some(flow) = &mut self.flow else {
            return self.begin(alloc);
        };
        ready(flow, alloc, check, out)
    }

    /// Begins the flow, to which no segment has come.
    fn begin(&mut self, alloc: Global) -> Result<(), NotReady>
        requires none { self.old.flow ≡ None }
        requires few { self.old.channel_count ≤ most_channels }
        requires in_range { IsInRange self.old.flow_record }
        ensures stands { (check : List ℕ → Bool) (setup : FlowSetup) (comings : List Coming)
            (given : List (List ℕ)) → PartStands check setup self.old comings given
            → PartStands check setup self.new comings given }
        ensures prepared { IfOk result (λ _. IsPrepared self.new) }
        ensures memory { result ≢ Err NotReady.Closing }
        ensures index { self.new.index ≡ self.old.index }
        ensures unchanged { OnErr result (self.new ≡ self.old) }
    {
        let flow = self.new_flow(alloc)?;
        self.flow = Some(flow);
        Ok(())
    }

    /// A flow to which nothing came.
    fn new_flow(&self, alloc: Global) -> Result<Box<BondedFlow>, AllocError>
        requires few { self.now.channel_count ≤ most_channels }
        requires in_range { IsInRange self.now.flow_record }
        ensures stands { IfOk result (λ flow. (check : List ℕ → Bool)
            → HasCome check (setup_in self.now) (box_value flow) [] []) }
        ensures settled { IfOk result (λ flow. IsSettled (box_value flow)) }
    {
        let channels = &self.channels[..self.channel_count];
        let flow = BondedFlow::new(alloc, self.index, self.rule, &self.flow_record, channels)?;
        Ok(Box::new(alloc, flow)?)
    }

    /// Takes a segment that comes on this channel, as [`BondedFlow::take_segment`] does. The flow
    /// is prepared.
    pub(crate) fn take_segment<C: HeaderCheck, O: Consumer>(
        &mut self,
        alloc: Global,
        check: &C,
        channel: usize,
        segment: Segment,
        out: &mut O,
    ) -> Result<Told, AllocError>
        requires in_use { IsInUse (C.accepts check.now) self.old }
        requires prepared { IsPrepared self.old }
        requires ready { IsReady segment }
        ensures takes { SlotTakes O.after (C.accepts check.now) self.old out.old
            (on_channel channel segment ∷ []) self.new out.new }
        ensures told { IfOk result (λ told. (setup : FlowSetup) (comings : List Coming)
            (given : List (List ℕ))
            → PartStands (C.accepts check.now) setup self.old comings given
            → IsTold setup comings channel segment told) }
        ensures at_rest { IfOk result (λ _. IsAtRest self.new) }
        ensures open_still { ¬ IsClosing self.new }
    {
        let Some(flow) = &mut self.flow else {
            return Err(AllocError);
        };
        flow.take_segment(alloc, check, channel, segment, out)
    }

    /// Takes a decision, and answers whether a segment is lost by it. Before its first segment
    /// comes a flow is begun only for a skip; other decisions change nothing then.
    pub(crate) fn decide<C: HeaderCheck, O: Consumer>(
        &mut self,
        alloc: Global,
        check: &C,
        decision: FlowDecision,
        out: &mut O,
    ) -> Result<bool, DecideFault>
        requires in_use { IsInUse (C.accepts check.now) self.old }
        requires takable { IsTakable decision }
        ensures takes { IfOk result (λ _. SlotTakes O.after (C.accepts check.now) self.old out.old
            (handed_in (decision_event decision) ∷ []) self.new out.new) }
        ensures told { IfOk result (λ lost. (setup : FlowSetup) (comings : List Coming)
            (given : List (List ℕ))
            → PartStands (C.accepts check.now) setup self.old comings given
            → IsToldLost setup comings (decision_event decision) lost) }
        ensures at_rest { IfOk result (λ _. IsAtRest self.new) }
        ensures not_taken { IfErr result (λ fault. LeavesOf fault
            (SlotTakes O.after (C.accepts check.now) self.old out.old [] self.new out.new)
            (SlotTakes O.after (C.accepts check.now) self.old out.old
            (handed_in (decision_event decision) ∷ []) self.new out.new)) }
        ensures closing { result ≡ Err (DecideFault.NotTaken NotReady.Closing)
            → IsClosing self.new }
        ensures refused { IsClosing self.old
            → result ≡ Err (DecideFault.NotTaken NotReady.Closing) }
        ensures open_still { IsClosing self.new → IsClosing self.old }
    {
        if self.flow.is_none() && !decision.is_skip() {
            return Ok(false);
        }
        self.prepare_and_decide(alloc, check, decision, out)
    }

    /// Makes the flow ready and takes a decision.
    fn prepare_and_decide<C: HeaderCheck, O: Consumer>(
        &mut self,
        alloc: Global,
        check: &C,
        decision: FlowDecision,
        out: &mut O,
    ) -> Result<bool, DecideFault>
        requires in_use { IsInUse (C.accepts check.now) self.old }
        requires takable { IsTakable decision }
        ensures takes { IfOk result (λ _. SlotTakes O.after (C.accepts check.now) self.old out.old
            (handed_in (decision_event decision) ∷ []) self.new out.new) }
        ensures told { IfOk result (λ lost. (setup : FlowSetup) (comings : List Coming)
            (given : List (List ℕ))
            → PartStands (C.accepts check.now) setup self.old comings given
            → IsToldLost setup comings (decision_event decision) lost) }
        ensures at_rest { IfOk result (λ _. IsAtRest self.new) }
        ensures not_taken { IfErr result (λ fault. LeavesOf fault
            (SlotTakes O.after (C.accepts check.now) self.old out.old [] self.new out.new)
            (SlotTakes O.after (C.accepts check.now) self.old out.old
            (handed_in (decision_event decision) ∷ []) self.new out.new)) }
        ensures closing { result ≡ Err (DecideFault.NotTaken NotReady.Closing)
            → IsClosing self.new }
        ensures refused { IsClosing self.old
            → result ≡ Err (DecideFault.NotTaken NotReady.Closing) }
        ensures open_still { IsClosing self.new → IsClosing self.old }
    {
        self.prepare(alloc, check, out)?;
        match self.decide_prepared(alloc, check, decision, out) {
            Ok(lost) => Ok(lost),
            Err(_) => Err(DecideFault::Unfinished),
        }
    }

    /// Takes a decision about a flow that is prepared, as [`BondedFlow::decide`] does.
    fn decide_prepared<C: HeaderCheck, O: Consumer>(
        &mut self,
        alloc: Global,
        check: &C,
        decision: FlowDecision,
        out: &mut O,
    ) -> Result<bool, AllocError>
        requires in_use { IsInUse (C.accepts check.now) self.old }
        requires prepared { IsPrepared self.old }
        requires takable { IsTakable decision }
        ensures takes { SlotTakes O.after (C.accepts check.now) self.old out.old
            (handed_in (decision_event decision) ∷ []) self.new out.new }
        ensures told { IfOk result (λ lost. (setup : FlowSetup) (comings : List Coming)
            (given : List (List ℕ))
            → PartStands (C.accepts check.now) setup self.old comings given
            → IsToldLost setup comings (decision_event decision) lost) }
        ensures at_rest { IfOk result (λ _. IsAtRest self.new) }
        ensures open_still { ¬ IsClosing self.new }
    {
        let Some(flow) = &mut self.flow else {
            return Err(AllocError);
        };
        flow.decide(alloc, check, decision, out)
    }

    /// Does what an earlier call left to be done, if the flow is begun.
    pub(crate) fn go_on<C: HeaderCheck, O: Consumer>(
        &mut self,
        alloc: Global,
        check: &C,
        out: &mut O,
    ) -> Result<(), NotReady>
        requires { IsInUse (C.accepts check.now) self.old }
        ensures takes { SlotTakes O.after (C.accepts check.now) self.old out.old []
            self.new out.new }
        ensures at_rest { IfOk result (λ _. IsAtRest self.new) }
        ensures closing { result ≡ Err NotReady.Closing → IsClosing self.new }
        ensures refused { IsClosing self.old → result ≡ Err NotReady.Closing }
        ensures open_still { IsClosing self.new → IsClosing self.old }
    {
        if self.flow.is_none() {
            return Ok(());
        }
        self.prepare(alloc, check, out)
    }

    /// Closes the flow, gives what there is left to give, and answers what was counted of it. Then
    /// it begins anew at this number, 0 to 8191. Where an allocation failed nothing begins anew,
    /// and the call is to be made again: until then the flow may be ready for nothing else.
    pub(crate) fn restart<C: HeaderCheck, O: Consumer>(
        &mut self,
        alloc: Global,
        check: &C,
        first: u16,
        out: &mut O,
    ) -> Result<FlowCounts, AllocError>
        requires in_use { IsInUse (C.accepts check.now) self.old }
        requires number { first < sequence_modulus }
        ensures anew { IfOk result (λ counts.
            BeginsAnew O.after (C.accepts check.now) self.old out.old first counts
            self.new out.new) }
        ensures takes { OnErr result
            (SlotTakes O.after (C.accepts check.now) self.old out.old [] self.new out.new) }
        ensures at_rest { IfOk result (λ _. IsAtRest self.new) }
    {
        let Some(flow) = &mut self.flow else {
            self.flow_record.first = first;
            return Ok(FlowCounts::none());
        };
        let counts = close(flow, alloc, check, out)?;
        self.flow = None;
        self.flow_record.first = first;
        Ok(counts)
    }

    /// The number that the flow expects, 0 to 8191.
    pub(crate) fn expected(&self) -> u16
        requires in_range { self.now.flow_record.first < sequence_modulus }
        ensures in_range { result < sequence_modulus }
        ensures number { (check : List ℕ → Bool) (setup : FlowSetup) (comings : List Coming)
            (given : List (List ℕ)) (events : List FlowEvent) (lasts : Lasts) (fates : Fates)
            (x : ℕ)
            → PartStands check setup self.now comings given → IsAtRest self.now
            → AreRuled setup.rule (ruled_flow setup) comings events lasts fates
            → IsExpected fates x → result ≡ number_of setup.flow_record.first x }
    {
        match &self.flow {
            Some(flow) => flow.expected(),
            None => self.flow_record.first,
        }
    }

    /// How many segments are held.
    pub(crate) fn held(&self) -> usize
        ensures { result ≡ held_in self.now }
    {
        match &self.flow {
            Some(flow) => flow.held(),
            None => 0,
        }
    }

    /// What was counted so far.
    pub(crate) fn counts(&self) -> FlowCounts
        ensures { (check : List ℕ → Bool) (setup : FlowSetup) (comings : List Coming)
            (given : List (List ℕ))
            → PartStands check setup self.now comings given → IsAtRest self.now
            → HasGivenByRule check setup comings given result }
    {
        match &self.flow {
            Some(flow) => flow.counts(),
            None => FlowCounts::none(),
        }
    }
}

/// Does what an earlier call of a flow left to be done, unless it is being closed.
fn ready<C: HeaderCheck, O: Consumer>(
    flow: &mut BondedFlow,
    alloc: Global,
    check: &C,
    out: &mut O,
) -> Result<(), NotReady>
    requires { IsUnderWay (C.accepts check.now) flow.old }
    ensures takes { Takes O.after (C.accepts check.now) flow.old out.old [] flow.new out.new }
    ensures settled { IfOk result (λ _. IsSettled flow.new) }
    ensures closing { result ≡ Err NotReady.Closing → flow.new.pending ≡ Pending.Close }
    ensures refused { flow.old.pending ≡ Pending.Close → result ≡ Err NotReady.Closing }
    ensures open_still { flow.new.pending ≡ Pending.Close → flow.old.pending ≡ Pending.Close }
{
    if flow.is_being_closed() {
        return Err(NotReady::Closing);
    }
    flow.go_on(alloc, check, out)?;
    Ok(())
}

/// Closes a flow that is begun.
fn close<C: HeaderCheck, O: Consumer>(
    flow: &mut BondedFlow,
    alloc: Global,
    check: &C,
    out: &mut O,
) -> Result<FlowCounts, AllocError>
    requires { IsUnderWay (C.accepts check.now) flow.old }
    ensures closes { IfOk result
        (λ counts. Closes O.after (C.accepts check.now) flow.old out.old counts out.new) }
    ensures takes { OnErr result
        (Takes O.after (C.accepts check.now) flow.old out.old [] flow.new out.new) }
{
    begin_close(flow, alloc, check, out)?;
    flow.close(alloc, check, out)
}

/// Begins to close a flow, if that wasn't begun.
fn begin_close<C: HeaderCheck, O: Consumer>(
    flow: &mut BondedFlow,
    alloc: Global,
    check: &C,
    out: &mut O,
) -> Result<(), AllocError>
    requires { IsUnderWay (C.accepts check.now) flow.old }
    ensures takes { Takes O.after (C.accepts check.now) flow.old out.old [] flow.new out.new }
    ensures closing { IfOk result (λ _. flow.new.pending ≡ Pending.Close) }
{
    if flow.is_being_closed() {
        return Ok(());
    }
    flow.go_on(alloc, check, out)?;
    flow.begin_close();
    Ok(())
}
