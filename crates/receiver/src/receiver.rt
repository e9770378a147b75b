//! A receiver that takes one input at a time.
ghost use Rattle.std.specs.Prelude.{◌≡◌, ◌≢◌, ◌↔◌, ◌<◌, ◌≤◌, ◌∷◌, [], ◌&&◌, nat_lt, true, false, ℕ};
ghost use Rattle.std.specs.Prelude.{Bool, List, Some, None, Ok, Err, IfOk, IfErr, OnErr, IfSome};
ghost use Rattle.std.specs.Prelude.{length, slice_get};
ghost use Rattle.docsis_wire.specs.Limits.{sequence_modulus};
ghost use Rattle.flow_records.specs.declared.record.FlowRecord.{FlowRecord};
ghost use Rattle.lane.specs.Inputs.{outstanding_count};
ghost use Rattle.loss_rule.specs.Rule.{Coming};
ghost use Rattle.consumer.specs.declared.given.Given.{Given};
ghost use Rattle.bonded_flows.specs.FlowSetup.{FlowSetup};
ghost use Rattle.bonded_flows.specs.ByRule.{is_in_range, IsTold};
ghost use Rattle.bonded_flows.specs.Slots.{LeavesOf, held_in};
ghost use Rattle.bonded_flows.specs.declared.flow_slot.FlowSlot.{FlowSlot};
ghost use Rattle.bonded_flows.specs.Table.{TableSetup, PartStandsAt, IsPreparedAt, IsAtRestAt};
ghost use Rattle.bonded_flows.specs.Table.{IsClosingAt, OthersStay, NoneBeginsToClose};
ghost use Rattle.bonded_flows.specs.declared.flow_slot.DecideFault.{DecideFault};
ghost use Rattle.bonded_flows.specs.declared.flow_slot.NotReady.{NotReady};
ghost use Rattle.bonded_flows.specs.Table.{TakesMore as TableTakesMore, IsInUse as IsTableInUse};
ghost use Rattle.receiver.specs.declared.reply.DecisionReply.{DecisionReply};
ghost use Rattle.receiver.specs.declared.reply.RestartError.{RestartError};
ghost use Rattle.receiver.specs.Tallies.{IsTallyOf};
ghost use Rattle.receiver.specs.HandedIn.{HandedIn, decided, made_of, answered_on};
ghost use Rattle.receiver.specs.Held.{HoldsSince};
ghost use Rattle.receiver.specs.Receiving.{StandsFor, IsReceiving, TakesMore, IsSettledAt};
ghost use Rattle.receiver.specs.Receiving.{WouldCome};
ghost use Rattle.receiver.specs.Receiving.{Replies, Fails, FlowIsSettled, Restarts, HasGivenSince};
ghost use Rattle.receiver.specs.Receiving.{ChangesOneFlow, ChangesItsFlow, KeepsToItsFlow};
ghost use Rattle.receiver.specs.Receiving.{IsReadyFor, AnswersFor, TakesAdmitted};
ghost use Rattle.receiver.specs.Receiving.{IsLossToldRightly, IsNumberExpected};
ghost use Rattle.receiver.specs.Receiving.{IsSettledIfTaken, ClosesAFlow};
ghost use Rattle.receiver.specs.Received.{Closes, BeginsToClose, IsBeingClosed};
ghost use Rattle.receiver.specs.Widths.{CanReceiveWithin, IsSetupErrorWithin};

use crate::closing::{Closed, Closing};
use crate::reply::{DecisionReply, Reply, RestartError, TakeError};
use crate::setup::{Setup, SetupError};
use crate::tallied_lane::{TalliedLane, open_lanes};
use crate::tally::LaneTally;
use crate::width::Width;
use bonded_flows::{DecideFault, FlowDecision, FlowTable, NotReady, Told};
use consumer::{Consumer, give_request};
use docsis_wire::{HeaderCheck, SEQUENCE_MODULUS};
use flow_core::FlowCounts;
use lane::{Admitted, Input, Lane};
use loss_rule::LossRule;
use std::alloc::{AllocError, Global};

/// A receiver for the channels and flows of a setup. It takes inputs and decisions one after
/// another, and gives each frame and each request to a [`Consumer`] at once. Its memory doesn't
/// grow with what went through it: a flow holds what lies in its window and what isn't whole yet,
/// and takes memory of its own once its first segment comes, or a skip is decided.
#[derive(Drop)]
pub struct Receiver<C> {
    lanes: Vec<TalliedLane>,
    flows: FlowTable<C>,
}

impl<C: HeaderCheck + Drop> Receiver<C> {
    /// A receiver of this width, to which nothing was handed in, or the first fault of the setup.
    pub fn new(
        alloc: Global,
        width: Width,
        setup: &Setup,
        rule: LossRule,
        check: C,
    ) -> Result<Receiver<C>, SetupError>
        ensures stands { IfOk result (λ receiver. StandsFor C.accepts receiver (C.accepts check)
            (made_of rule width.channels setup.now) [] []) }
        ensures can_receive { IfOk result
            (λ _. CanReceiveWithin width.channels width.flows setup.now) }
        ensures fault { IfErr result
            (IsSetupErrorWithin width.channels width.flows setup.now) }
        ensures settled { IfOk result (λ receiver. (k : ℕ) → IsSettledAt receiver k) }
        ensures receiving { IfOk result (λ receiver. IsReceiving C.accepts receiver) }
    {
        setup.check_within(alloc, width)?;
        let channels = width.channels();
        let lanes = open_lanes(alloc, channels, setup)?;
        let flows = FlowTable::new(alloc, rule, &setup.flows, channels, &setup.sids, check)?;
        Ok(Receiver { lanes, flows })
    }

    /// Takes a grant or a burst that came on this channel. What is admitted of a burst comes to its
    /// flow, and its request and what the flow then gives are given to the consumer.
    #[inline(always)]
    pub fn take<O: Consumer>(
        &mut self,
        alloc: Global,
        channel: usize,
        input: Input,
        out: &mut O,
    ) -> Result<Reply, TakeError>
        requires receiving { IsReceiving C.accepts self.old }
        ensures replies { IfOk result (λ reply.
            Replies O.after C.accepts self.old out.old channel input reply self.new out.new) }
        ensures settled { IfOk result (FlowIsSettled self.new) }
        ensures fails { IfErr result (λ error.
            Fails O.after C.accepts self.old out.old channel input error self.new out.new) }
        ensures others { ChangesOneFlow self.old.flows result self.new.flows }
        ensures its_flow { channel < length self.old.lanes.items
            → KeepsToItsFlow self.old channel input result self.new }
        ensures open_still { NoneBeginsToClose self.old.flows self.new.flows }
        ensures receiving { IsReceiving C.accepts self.new }
    {
        if channel >= self.lanes.len() {
            return Err(TakeError::NoChannel(input));
        }
        let lane = &self.lanes[channel].lane;
        if let Err(why) = make_ready(&mut self.flows, alloc, lane, &input, out) {
            return Err(TakeError::NotTaken(input, why));
        }
        let answer = match self.lanes[channel].take(input) {
            Ok(answer) => answer,
            Err(input) => return Err(TakeError::NotTaken(input, NotReady::OutOfMemory)),
        };
        match answer {
            Err(refusal) => Ok(Reply::Refused(refusal)),
            Ok(None) => Ok(Reply::Granted),
            Ok(Some(admitted)) => {
                let flow = admitted.flow;
                let sequence = admitted.segment.head.sequence;
                match take_admitted(&mut self.flows, alloc, channel, admitted, out) {
                    Ok(told) => Ok(Reply::Admitted {
                        flow,
                        sequence,
                        told,
                    }),
                    Err(_) => Err(TakeError::Unfinished { flow }),
                }
            }
        }
    }

    /// The flow of which a segment would be admitted of this input, if it came on this channel now;
    /// none if nothing would be, or there is no such channel. Of a burst's bytes it looks at the
    /// header, and at how many there are. It takes no memory.
    pub fn look(&self, channel: usize, input: &Input) -> Option<usize>
        ensures none { length self.now.lanes.items ≤ channel → result ≡ None }
        ensures flow { WouldCome C.accepts self.now channel input.now result }
    {
        self.lanes.get(channel)?.lane.look(input)
    }

    /// Takes the decision that segments of a flow are lost. One that names no flow, or a number
    /// above 8191, is passed over.
    pub fn decide<O: Consumer>(
        &mut self,
        alloc: Global,
        flow: usize,
        decision: FlowDecision,
        out: &mut O,
    ) -> Result<DecisionReply, DecideFault>
        requires receiving { IsReceiving C.accepts self.old }
        ensures takes { IfOk result (λ _. TakesMore O.after C.accepts self.old out.old
            (decided flow decision ∷ []) self.new out.new) }
        ensures passed_over { result ≡ Ok DecisionReply.PassedOver
            ↔ ((nat_lt flow (length self.old.flows.slots.items) && is_in_range decision) ≡ false) }
        ensures unchanged { result ≡ Ok DecisionReply.PassedOver
            → (self.new ≡ self.old) × (out.new ≡ out.old) }
        ensures told { IfOk result (λ reply. (check : List ℕ → Bool) (made : TableSetup)
            (handed : List HandedIn) (given : List Given)
            → StandsFor C.accepts self.old check made handed given
            → IsLossToldRightly made handed flow decision reply) }
        ensures settled { IfOk result (IsSettledIfTaken self.new flow) }
        ensures not_taken { IfErr result (λ fault. LeavesOf fault
            (TakesMore O.after C.accepts self.old out.old [] self.new out.new)
            (TakesMore O.after C.accepts self.old out.old (decided flow decision ∷ [])
            self.new out.new)) }
        ensures closing { result ≡ Err (DecideFault.NotTaken NotReady.Closing)
            → IsClosingAt self.new.flows flow }
        ensures refused { flow < length self.old.flows.slots.items
            → is_in_range decision ≡ true → IsClosingAt self.old.flows flow
            → result ≡ Err (DecideFault.NotTaken NotReady.Closing) }
        ensures others { OthersStay self.old.flows flow self.new.flows }
        ensures open_still { NoneBeginsToClose self.old.flows self.new.flows }
        ensures receiving { IsReceiving C.accepts self.new }
    {
        if flow >= self.flows.flow_count() || !decision.is_in_range() {
            return Ok(DecisionReply::PassedOver);
        }
        let lost = self.flows.decide(alloc, flow, decision, out)?;
        Ok(DecisionReply::Taken { lost })
    }

    /// Does what an earlier call left to be done of a flow. Of one that doesn't exist nothing is.
    pub fn go_on<O: Consumer>(
        &mut self,
        alloc: Global,
        flow: usize,
        out: &mut O,
    ) -> Result<(), NotReady>
        requires receiving { IsReceiving C.accepts self.old }
        ensures takes { TakesMore O.after C.accepts self.old out.old [] self.new out.new }
        ensures settled { IfOk result (λ _. IsSettledAt self.new flow) }
        ensures closing { result ≡ Err NotReady.Closing → IsClosingAt self.new.flows flow }
        ensures refused { flow < length self.old.flows.slots.items
            → IsClosingAt self.old.flows flow → result ≡ Err NotReady.Closing }
        ensures no_flow { length self.old.flows.slots.items ≤ flow
            → (result ≡ Ok tt) × (self.new ≡ self.old) × (out.new ≡ out.old) }
        ensures others { OthersStay self.old.flows flow self.new.flows }
        ensures open_still { NoneBeginsToClose self.old.flows self.new.flows }
        ensures receiving { IsReceiving C.accepts self.new }
    {
        if flow >= self.flows.flow_count() {
            return Ok(());
        }
        self.flows.go_on(alloc, flow, out)
    }

    /// Closes a flow, gives what there is left to give, and answers what was counted of it since it
    /// was begun or began anew. Then it begins anew at this number, 0 to 8191. Where an allocation
    /// failed the call is to be made again: until then the flow may be ready for nothing else.
    pub fn restart<O: Consumer>(
        &mut self,
        alloc: Global,
        flow: usize,
        first: u16,
        out: &mut O,
    ) -> Result<FlowCounts, RestartError>
        requires receiving { IsReceiving C.accepts self.old }
        ensures restarts { IfOk result (λ counts.
            Restarts O.after C.accepts self.old out.old flow first counts self.new out.new) }
        ensures no_flow { result ≡ Err RestartError.NoFlow
            ↔ (length self.old.flows.slots.items ≤ flow) }
        ensures number { result ≡ Err RestartError.NumberRange
            ↔ (flow < length self.old.flows.slots.items) × (sequence_modulus ≤ first) }
        ensures unchanged { (error : RestartError) → result ≡ Err error
            → error ≢ RestartError.OutOfMemory → (self.new ≡ self.old) × (out.new ≡ out.old) }
        ensures settled { IfOk result (λ _. IsSettledAt self.new flow) }
        ensures not_taken { OnErr result
            (TakesMore O.after C.accepts self.old out.old [] self.new out.new) }
        ensures others { OthersStay self.old.flows flow self.new.flows }
        ensures receiving { IsReceiving C.accepts self.new }
    {
        if flow >= self.flows.flow_count() {
            return Err(RestartError::NoFlow);
        }
        if first >= SEQUENCE_MODULUS {
            return Err(RestartError::NumberRange);
        }
        Ok(self.flows.restart(alloc, flow, first, out)?)
    }

    /// Closes all flows, in the order of their records, and gives what each has left to give. Where
    /// an allocation failed the close is to be gone on with by [`Closing::go_on`].
    pub fn close<O: Consumer>(self, alloc: Global, out: &mut O) -> Result<Closed, Closing<C>>
        requires receiving { IsReceiving C.accepts self }
        ensures closes { IfOk result (λ closed.
            Closes O.after C.accepts self out.old closed out.new) }
        ensures begun { IfErr result (λ closing.
            BeginsToClose O.after C.accepts self out.old closing out.new) }
        ensures closing { IfErr result (λ closing. IsBeingClosed C.accepts closing) }
    {
        Closing::begin(alloc, self.lanes, self.flows).go_on(alloc, out)
    }

    /// The number that a flow expects, 0 to 8191, or none if there is no such flow. Where nothing
    /// of the flow is left to be done it is that of its expected index.
    pub fn expected(&self, flow: usize) -> Option<u16>
        requires receiving { IsReceiving C.accepts self.now }
        ensures none { result ≡ None ↔ (length self.now.flows.slots.items ≤ flow) }
        ensures in_range { IfSome result (λ number. number < sequence_modulus) }
        ensures number { IfSome result (λ number. (check : List ℕ → Bool) (made : TableSetup)
            (handed : List HandedIn) (given : List Given) (flow_record : FlowRecord)
            → StandsFor C.accepts self.now check made handed given
            → slice_get made.records flow ≡ Some flow_record → IsSettledAt self.now flow
            → IsNumberExpected made flow flow_record handed number) }
    {
        if flow >= self.flows.flow_count() {
            return None;
        }
        Some(self.flows.expected(flow))
    }

    /// How many segments of a flow are held, which were kept since it last began and aren't joined
    /// yet; or none if there is no such flow. By what came to it this is said where nothing of the
    /// flow is left to be done.
    pub fn held(&self, flow: usize) -> Option<usize>
        ensures none { result ≡ None ↔ (length self.now.flows.slots.items ≤ flow) }
        ensures held { IfSome result (λ held. (slot : FlowSlot)
            → slice_get self.now.flows.slots.items flow ≡ Some slot → held ≡ held_in slot) }
        ensures count { IfSome result (λ held. (check : List ℕ → Bool) (made : TableSetup)
            (handed : List HandedIn) (given : List Given) (flow_record : FlowRecord)
            → StandsFor C.accepts self.now check made handed given
            → slice_get made.records flow ≡ Some flow_record → IsSettledAt self.now flow
            → HoldsSince made flow flow_record handed held) }
    {
        if flow >= self.flows.flow_count() {
            return None;
        }
        Some(self.flows.held(flow))
    }

    /// What was counted of a flow since it was begun or began anew, or none if there is no such
    /// flow. Where something of the flow is left to be done that isn't counted yet.
    pub fn counts(&self, flow: usize) -> Option<FlowCounts>
        ensures none { result ≡ None ↔ (length self.now.flows.slots.items ≤ flow) }
        ensures counts { IfSome result (λ counts. (check : List ℕ → Bool) (made : TableSetup)
            (handed : List HandedIn) (given : List Given) (flow_record : FlowRecord)
            → StandsFor C.accepts self.now check made handed given
            → slice_get made.records flow ≡ Some flow_record → IsSettledAt self.now flow
            → HasGivenSince check made flow flow_record handed given counts) }
    {
        if flow >= self.flows.flow_count() {
            return None;
        }
        Some(self.flows.counts(flow))
    }

    /// How many grants of a channel are outstanding, or none if there is no such channel.
    pub fn outstanding(&self, channel: usize) -> Option<usize>
        ensures none { result ≡ None ↔ (length self.now.lanes.items ≤ channel) }
        ensures count { IfSome result (λ count. (check : List ℕ → Bool) (made : TableSetup)
            (handed : List HandedIn) (given : List Given)
            → StandsFor C.accepts self.now check made handed given
            → count ≡ outstanding_count (answered_on channel handed)) }
    {
        Some(self.lanes.get(channel)?.lane.outstanding())
    }

    /// How many inputs of a channel were admitted and refused, or none if there is no such channel.
    pub fn tally(&self, channel: usize) -> Option<LaneTally>
        ensures none { result ≡ None ↔ (length self.now.lanes.items ≤ channel) }
        ensures tally { IfSome result (λ tally. (check : List ℕ → Bool) (made : TableSetup)
            (handed : List HandedIn) (given : List Given)
            → StandsFor C.accepts self.now check made handed given
            → IsTallyOf (answered_on channel handed) tally) }
    {
        Some(self.lanes.get(channel)?.tally)
    }
}

/// Makes the flow ready of which this input would be admitted, if one would be.
#[inline(always)]
fn make_ready<C: HeaderCheck + Drop, O: Consumer>(
    flows: &mut FlowTable<C>,
    alloc: Global,
    lane: &Lane,
    input: &Input,
    out: &mut O,
) -> Result<(), NotReady>
    requires in_use { IsTableInUse C.accepts flows.old }
    requires lane { AnswersFor flows.old lane.now }
    ensures takes { (flow : ℕ)
        × TableTakesMore O.after C.accepts flows.old out.old flow [] flows.new out.new }
    ensures others { ChangesItsFlow lane.now input.now flows.old result flows.new }
    ensures ready { IfOk result (λ _. IsReadyFor lane.now input.now flows.new) }
    ensures closing { result ≡ Err NotReady.Closing → ClosesAFlow flows.new }
    ensures open_still { NoneBeginsToClose flows.old flows.new }
    ensures in_use { IsTableInUse C.accepts flows.new }
{
    let Some(flow) = lane.look(input) else {
        return Ok(());
    };
    flows.prepare(alloc, flow, out)
}

/// Gives the request of what is admitted, and takes its segment.
#[inline(always)]
fn take_admitted<C: HeaderCheck + Drop, O: Consumer>(
    flows: &mut FlowTable<C>,
    alloc: Global,
    channel: usize,
    admitted: Admitted,
    out: &mut O,
) -> Result<Told, AllocError>
    requires in_use { IsTableInUse C.accepts flows.old }
    requires exists { admitted.flow < length flows.old.slots.items }
    requires prepared { IsPreparedAt flows.old admitted.flow }
    ensures takes { TakesAdmitted O.after C.accepts flows.old out.old channel admitted
        flows.new out.new }
    ensures told { IfOk result (λ told. (setup : FlowSetup) (comings : List Coming)
        (given : List (List ℕ))
        → PartStandsAt (C.accepts flows.old.check) setup flows.old admitted.flow comings given
        → IsTold setup comings channel admitted.segment told) }
    ensures at_rest { IfOk result (λ _. IsAtRestAt flows.new admitted.flow) }
    ensures others { OthersStay flows.old admitted.flow flows.new }
    ensures open_still { NoneBeginsToClose flows.old flows.new }
    ensures in_use { IsTableInUse C.accepts flows.new }
{
    give_request(out, admitted.request);
    flows.take_segment(alloc, admitted.flow, channel, admitted.segment, out)
}
