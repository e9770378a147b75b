//! A receiver to which recorded inputs and decisions are handed in.
ghost use Rattle.std.specs.Prelude.{◌≡◌, ◌≢◌, ◌<◌, ◌≤◌, ◌+◌, ◌∷◌, ◌++◌, [], ◌⊎◌, nat_lt, ℕ, Bool};
ghost use Rattle.std.specs.Prelude.{false, List, All, Some, IfOk, MatchOption, length, take};
ghost use Rattle.std.specs.Prelude.{slice_get, slice_index_or, slice_set, if◌then◌else◌};
ghost use Rattle.lane.specs.Limits.{senders, channel_limit};
ghost use Rattle.lane.specs.declared.report.LaneReport.{LaneReport};
ghost use Rattle.loss_rule.specs.declared.rule.LossRule.{LossRule};
ghost use Rattle.consumer.specs.Collecting.{AreEmpty};
ghost use Rattle.receiver.specs.Faults.{CanReceive};
ghost use Rattle.receiver.specs.Items.{incoming_of};
ghost use Rattle.receiver.specs.Order.{IsLawfulOrder};
ghost use Rattle.receiver.specs.AdmittedOrder.{input_counts};
ghost use Rattle.receiver.specs.HandedIn.{HandedIn};
ghost use Rattle.receiver.specs.HandedOrder.{IsSent, flow_decision, handed_decision, gives_item};
ghost use Rattle.receiver.specs.HandedOrder.{count_from, IsUsedUp};
ghost use Rattle.receiver.specs.Receiving.{WouldCome};
ghost use Rattle.receiver.specs.Playing.{Plays, IsPlaying, PlaysOne, PlaysInput, PlaysNext};
ghost use Rattle.receiver.specs.Playing.{PlaysMore, PlaysTags, FindsNone, HaveGiven, IsReportWith};
ghost use Rattle.receiver.specs.Playing.{IsGiven};

use crate::outcome::{FlowOutcome, Outcome};
use crate::receiver::Receiver;
use crate::reply::{DecisionReply, Reply};
use crate::setup::{Lists, Setup};
use crate::tally::LaneTally;
use crate::width::Width;
use bonded_flows::FlowDecision;
use consumer::{Collected, FrameList};
use docsis_wire::{Bytes, HeaderCheck};
use flow_core::FlowCounts;
use flow_records::Decision;
use lane::{CHANNELS, Input, LaneReport, Request};
use loss_rule::LossRule;
use std::alloc::{AllocError, Global};

/// How many senders there are: the channels, and the one of decisions behind them.
const SENDERS: usize = CHANNELS + 1;
/// The sender of decisions.
pub const DECISIONS: u8 = CHANNELS as u8;

/// A receiver to which the inputs and decisions of some lists are handed in, and what it gave.
#[derive(Drop)]
pub struct Playing<C> {
    receiver: Receiver<C>,
    collected: Collected,
    /// The numbers of each channel's refusals, in order.
    refused: Vec<Vec<u8>>,
    /// How many inputs of each channel were handed in, and how many decisions.
    places: [usize; SENDERS],
}

impl<C: HeaderCheck + Drop> Playing<C> {
    /// A receiver to which nothing was handed in yet.
    pub fn new(
        alloc: Global,
        rule: LossRule,
        setup: &Setup,
        check: C,
    ) -> Result<Playing<C>, AllocError>
        requires { CanReceive setup.now }
        ensures plays { IfOk result (λ playing.
            Plays C.accepts rule (C.accepts check) setup.now playing []) }
        ensures places { IfOk result (λ playing. (sender : ℕ)
            → slice_index_or playing.places sender 0 ≡ 0) }
        ensures playing { IfOk result (λ playing. IsPlaying C.accepts playing) }
    {
        let Ok(receiver) = Receiver::new(alloc, Width::PROFILE, setup, rule, check) else {
            return Err(AllocError);
        };
        let collected = Collected::new(alloc, setup.flows.len(), CHANNELS)?;
        Ok(Playing {
            receiver,
            collected,
            refused: no_refusals(alloc)?,
            places: [0; SENDERS],
        })
    }

    /// Hands in the next input of a channel, or the next decision, and answers whether it gave an
    /// item.
    pub fn take_next(
        &mut self,
        alloc: Global,
        lists: &Lists,
        sender: usize,
    ) -> Result<bool, AllocError>
        requires playing { IsPlaying C.accepts self.old }
        requires sender { sender < senders }
        requires left { slice_index_or self.old.places sender 0
            < count_from (incoming_of lists.now) sender }
        ensures takes { IfOk result (λ is_item. PlaysNext C.accepts (incoming_of lists.now)
            self.old sender is_item self.new) }
        ensures places { IfOk result (λ _. self.new.places
            ≡ slice_set self.old.places sender (slice_index_or self.old.places sender 0 + 1)) }
        ensures playing { IfOk result (λ _. IsPlaying C.accepts self.new) }
    {
        if sender < CHANNELS {
            self.take_next_input(alloc, lists, sender)
        } else {
            self.take_next_decision(alloc, lists)
        }
    }

    /// Hands in the next input of a channel, and answers whether a segment of it was admitted.
    fn take_next_input(
        &mut self,
        alloc: Global,
        lists: &Lists,
        channel: usize,
    ) -> Result<bool, AllocError>
        requires playing { IsPlaying C.accepts self.old }
        requires channel { channel < channel_limit }
        requires left { slice_index_or self.old.places channel 0
            < length ((incoming_of lists.now).inputs channel) }
        ensures takes { IfOk result (λ is_item. PlaysNext C.accepts (incoming_of lists.now)
            self.old channel is_item self.new) }
        ensures places { IfOk result (λ _. self.new.places
            ≡ slice_set self.old.places channel (slice_index_or self.old.places channel 0 + 1)) }
        ensures playing { IfOk result (λ _. IsPlaying C.accepts self.new) }
    {
        let place = self.places[channel];
        let inputs = lists.inputs[channel].as_slice();
        let input = copy_of(alloc, &inputs[place])?;
        let is_item = self.take_input(alloc, channel, input)?;
        self.places[channel] = place + 1;
        Ok(is_item)
    }

    /// Hands in the next decision, and answers whether it names a flow.
    fn take_next_decision(&mut self, alloc: Global, lists: &Lists) -> Result<bool, AllocError>
        requires playing { IsPlaying C.accepts self.old }
        requires left { slice_index_or self.old.places channel_limit 0
            < length lists.now.decisions.items }
        ensures takes { IfOk result (λ is_item. PlaysNext C.accepts (incoming_of lists.now)
            self.old channel_limit is_item self.new) }
        ensures places { IfOk result (λ _. self.new.places ≡ slice_set self.old.places
            channel_limit (slice_index_or self.old.places channel_limit 0 + 1)) }
        ensures playing { IfOk result (λ _. IsPlaying C.accepts self.new) }
    {
        let place = self.places[CHANNELS];
        let is_item = self.take_decision(alloc, lists.decisions[place])?;
        self.places[CHANNELS] = place + 1;
        Ok(is_item)
    }

    /// Hands in an input of a channel, and answers whether a segment of it was admitted.
    #[inline(always)]
    pub fn take_input(
        &mut self,
        alloc: Global,
        channel: usize,
        input: Input,
    ) -> Result<bool, AllocError>
        requires playing { IsPlaying C.accepts self.old }
        requires channel { channel < channel_limit }
        ensures { IfOk result (λ is_item.
            PlaysInput C.accepts self.old channel input is_item self.new) }
    {
        let Ok(reply) = (self.receiver).take(alloc, channel, input, &mut self.collected) else {
            return Err(AllocError);
        };
        match reply {
            Reply::Granted => Ok(false),
            Reply::Admitted { .. } => Ok(true),
            Reply::Refused(refusal) => {
                self.refused[channel].push(refusal.number())?;
                Ok(false)
            }
        }
    }

    /// The flow of which a segment would be admitted of this input, as [`Receiver::look`] answers.
    pub fn look(&self, channel: usize, input: &Input) -> Option<usize>
        ensures { WouldCome C.accepts self.now.receiver channel input.now result }
    {
        self.receiver.look(channel, input)
    }

    /// Hands in a decision, and answers whether it names a flow.
    pub fn take_decision(&mut self, alloc: Global, decision: Decision) -> Result<bool, AllocError>
        requires playing { IsPlaying C.accepts self.old }
        ensures plays { IfOk result (λ _.
            PlaysOne C.accepts self.old (handed_decision decision) self.new) }
        ensures told { IfOk result (λ is_item. is_item
            ≡ gives_item (length self.old.receiver.flows.slots.items) (handed_decision decision)) }
        ensures places { IfOk result (λ _. self.new.places ≡ self.old.places) }
    {
        let Decision { flow, upto } = decision;
        match (self.receiver).decide(alloc, flow, decided(upto), &mut self.collected) {
            Ok(DecisionReply::Taken { .. }) => Ok(true),
            Ok(DecisionReply::PassedOver) => Ok(false),
            Err(_) => Err(AllocError),
        }
    }

    /// Hands in what a sender has until it gives an item, and answers whether it did.
    fn take_item(&mut self, alloc: Global, lists: &Lists, sender: usize) -> Result<bool, AllocError>
        requires playing { IsPlaying C.accepts self.old }
        ensures takes { IfOk result (λ is_item. PlaysMore C.accepts (incoming_of lists.now)
            self.old (if is_item then sender ∷ [] else []) self.new) }
        ensures used_up { IfOk result (λ is_item. is_item ≡ false
            → (senders ≤ sender) ⊎ IsUsedUp (incoming_of lists.now) self.new.places sender) }
        ensures playing { IfOk result (λ _. IsPlaying C.accepts self.new) }
    {
        if sender >= SENDERS {
            return Ok(false);
        }
        let count = count_of(lists, sender);
        for _ in self.places[sender]..count {
            if self.take_next(alloc, lists, sender)? {
                return Ok(true);
            }
        }
        Ok(false)
    }

    /// Has items taken in this order, and answers the place at which there was none.
    pub fn take_in_order(
        &mut self,
        alloc: Global,
        lists: &Lists,
        order: &[u8],
    ) -> Result<Option<usize>, AllocError>
        requires playing { IsPlaying C.accepts self.old }
        ensures takes { IfOk result (λ bad. MatchOption bad
            (PlaysMore C.accepts (incoming_of lists.now) self.old order.now self.new)
            (λ k. PlaysMore C.accepts (incoming_of lists.now) self.old (take k order.now) self.new
            × FindsNone (incoming_of lists.now) order.now k self.new.places)) }
        ensures playing { IfOk result (λ _. IsPlaying C.accepts self.new) }
    {
        for (place, sender) in order.iter().enumerate() {
            if !self.take_item(alloc, lists, usize::from(*sender))? {
                return Ok(Some(place));
            }
        }
        Ok(None)
    }

    /// Hands in all inputs and decisions in the order of these tags, which name the sender of each,
    /// and answers the tags of those that gave an item. Nothing was handed in before.
    pub fn take_by_tags(
        &mut self,
        alloc: Global,
        lists: &Lists,
        tags: &[u8],
    ) -> Result<Vec<u8>, AllocError>
        requires playing { IsPlaying C.accepts self.old }
        requires places { (sender : ℕ) → slice_index_or self.old.places sender 0 ≡ 0 }
        requires lawful { IsLawfulOrder (input_counts (incoming_of lists.now)) tags.now }
        ensures takes { IfOk result (λ order. PlaysTags C.accepts (incoming_of lists.now)
            self.old tags.now order.items self.new) }
        ensures used_up { IfOk result (λ _. (sender : ℕ) → sender < senders
            → IsUsedUp (incoming_of lists.now) self.new.places sender) }
    {
        let mut order = Vec::with_capacity(alloc, tags.len())?;
        for tag in tags {
            let is_item = self.take_next(alloc, lists, usize::from(*tag))?;
            append_if(&mut order, is_item, *tag)?;
        }
        Ok(order)
    }

    /// Hands in all that is left, and answers whether it gave an item.
    pub fn take_rest(&mut self, alloc: Global, lists: &Lists) -> Result<bool, AllocError>
        requires playing { IsPlaying C.accepts self.old }
        ensures takes { IfOk result (λ any. (rest : List ℕ)
            × PlaysMore C.accepts (incoming_of lists.now) self.old rest self.new
            × (any ≡ nat_lt 0 (length rest))) }
        ensures used_up { IfOk result (λ _. (sender : ℕ) → sender < senders
            → IsUsedUp (incoming_of lists.now) self.new.places sender) }
    {
        let mut any = false;
        for sender in 0..SENDERS {
            any |= self.take_rest_of(alloc, lists, sender)?;
        }
        Ok(any)
    }

    /// Hands in all that a sender has left, and answers whether it gave an item.
    fn take_rest_of(
        &mut self,
        alloc: Global,
        lists: &Lists,
        sender: usize,
    ) -> Result<bool, AllocError>
        requires playing { IsPlaying C.accepts self.old }
        requires sender { sender < senders }
        ensures takes { IfOk result (λ any. (rest : List ℕ)
            × PlaysMore C.accepts (incoming_of lists.now) self.old rest self.new
            × (any ≡ nat_lt 0 (length rest))) }
        ensures used_up { IfOk result (λ _.
            IsUsedUp (incoming_of lists.now) self.new.places sender) }
        ensures others { IfOk result (λ _. (other : ℕ) → other ≢ sender
            → slice_index_or self.new.places other 0 ≡ slice_index_or self.old.places other 0) }
        ensures playing { IfOk result (λ _. IsPlaying C.accepts self.new) }
    {
        let mut any = false;
        let count = count_of(lists, sender);
        for _ in self.places[sender]..count {
            any |= self.take_next(alloc, lists, sender)?;
        }
        Ok(any)
    }

    /// Closes the receiver: what it gave, where items were taken in this order.
    pub fn finish(self, alloc: Global, setup: &Setup, order: Vec<u8>) -> Result<Outcome, AllocError>
        requires { (rule : LossRule) × (check : List ℕ → Bool) × (handed : List HandedIn)
            × Plays C.accepts rule check setup.now self handed }
        ensures gives { IfOk result (λ outcome. (rule : LossRule) (check : List ℕ → Bool)
            (handed : List HandedIn) → Plays C.accepts rule check setup.now self handed
            → All IsSent handed → IsGiven rule check setup.now handed outcome) }
        ensures order { IfOk result (λ outcome. outcome.order.items ≡ order.items) }
    {
        let Playing {
            receiver,
            mut collected,
            refused,
            ..
        } = self;
        let Ok(closed) = receiver.close(alloc, &mut collected) else {
            return Err(AllocError);
        };
        if !collected.whole {
            return Err(AllocError);
        }
        Ok(Outcome {
            flows: flow_outcomes(alloc, setup, collected.frames, &closed.flows)?,
            requests: four_lists(collected.requests),
            lanes: reports(refused, &closed.lanes),
            order,
        })
    }
}

/// No refusals of any channel.
fn no_refusals(alloc: Global) -> Result<Vec<Vec<u8>>, AllocError>
    ensures { IfOk result (λ refused. AreEmpty channel_limit refused.items) }
{
    let mut refused = Vec::with_capacity(alloc, CHANNELS)?;
    for _ in 0..CHANNELS {
        refused.push(Vec::new(alloc))?;
    }
    Ok(refused)
}

/// An input with bytes of its own.
fn copy_of(alloc: Global, input: &Input) -> Result<Input, AllocError>
    ensures { IfOk result (λ copy. copy ≡ input.now) }
{
    Ok(match input {
        Input::Grant { number, sid, bytes } => Input::Grant {
            number: *number,
            sid: *sid,
            bytes: *bytes,
        },
        Input::Burst {
            grant,
            hcs_ok,
            bytes,
        } => Input::Burst {
            grant: *grant,
            hcs_ok: *hcs_ok,
            bytes: Bytes::from(Vec::from_slice(alloc, bytes.as_slice())?),
        },
    })
}

/// Appends the tag of something that gave an item.
pub fn append_if(order: &mut Vec<u8>, is_item: bool, tag: u8) -> Result<(), AllocError>
    ensures { IfOk result (λ _.
        order.new.items ≡ order.old.items ++ (if is_item then tag ∷ [] else [])) }
{
    if is_item {
        order.push(tag)?;
    }
    Ok(())
}

/// A decision about a flow, as decisions of lists are.
fn decided(upto: Option<u16>) -> FlowDecision
    ensures { result ≡ flow_decision upto }
{
    match upto {
        None => FlowDecision::Gap,
        Some(number) => FlowDecision::GapTo(number),
    }
}

/// How many inputs a channel has, or how many decisions there are.
fn count_of(lists: &Lists, sender: usize) -> usize
    requires { sender < senders }
    ensures { result ≡ count_from (incoming_of lists.now) sender }
{
    if sender < CHANNELS {
        lists.inputs[sender].len()
    } else {
        lists.decisions.len()
    }
}

/// What each flow gave.
fn flow_outcomes(
    alloc: Global,
    setup: &Setup,
    frames: Vec<FrameList>,
    counts: &[FlowCounts],
) -> Result<Vec<FlowOutcome>, AllocError>
    requires frames { length frames.items ≡ length setup.now.flows.items }
    requires counts { length counts.now ≡ length setup.now.flows.items }
    ensures count { IfOk result (λ flows. length flows.items ≡ length setup.now.flows.items) }
    ensures each { IfOk result (λ flows.
        HaveGiven setup.now.flows.items frames.items counts.now flows.items) }
{
    let mut flows = Vec::with_capacity(alloc, setup.flows.len())?;
    for (record, frames) in setup.flows.iter().zip(frames) {
        let counts = counts[flows.len()];
        flows.push_reserved(FlowOutcome {
            sfid: record.sfid,
            frames,
            counts,
        });
    }
    Ok(flows)
}

/// The lists of the four channels.
fn four_lists<T: Drop>(lists: Vec<Vec<T>>) -> [Vec<T>; CHANNELS]
    requires { length lists.items ≡ channel_limit }
    ensures { result ≡ lists.items }
{
    let mut lists = lists.into_iter();
    let (Some(l0), Some(l1), Some(l2), Some(l3)) = (
        lists.next(),
        lists.next(),
        lists.next(),
        lists.next(),
    ) else {
        unreachable!()
    };
    [l0, l1, l2, l3]
}

/// The reports of the four channels.
fn reports(refused: Vec<Vec<u8>>, tallies: &[LaneTally]) -> [LaneReport; CHANNELS]
    requires refused { length refused.items ≡ channel_limit }
    requires tallies { length tallies.now ≡ channel_limit }
    ensures count { length result ≡ channel_limit }
    ensures each { (channel : ℕ) (report : LaneReport) → slice_get result channel ≡ Some report
        → IsReportWith refused.items tallies.now channel report }
{
    let mut refused = refused.into_iter();
    let (Some(r0), Some(r1), Some(r2), Some(r3)) = (
        refused.next(),
        refused.next(),
        refused.next(),
        refused.next(),
    ) else {
        unreachable!()
    };
    [
        LaneReport {
            admitted: tallies[0].admitted,
            refused: r0,
        },
        LaneReport {
            admitted: tallies[1].admitted,
            refused: r1,
        },
        LaneReport {
            admitted: tallies[2].admitted,
            refused: r2,
        },
        LaneReport {
            admitted: tallies[3].admitted,
            refused: r3,
        },
    ]
}
