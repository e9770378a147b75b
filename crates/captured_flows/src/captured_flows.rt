//! The bursts of a capture with a map, handed in to a receiver.
ghost use Rattle.std.specs.Prelude.{◌≡◌, ◌↔◌, ◌≤◌, [], ℕ, Bool, List, true, Some, None, IfSome};
ghost use Rattle.std.specs.Prelude.{IfOk, IfErr, OnErr, map, length, slice_get};
ghost use Rattle.selected_receiver.specs.Whole.{IsReceivingWhole, IsAtHand};
ghost use Rattle.captured_flows.specs.Taking.{TakesBy, BreaksOff};
ghost use Rattle.captured_flows.specs.Sound.{IsUnsound};
ghost use Rattle.captured_flows.specs.Captures.{IsRefused, EndsAll};
ghost use Rattle.captured_flows.specs.Together.{HaveWaits, ComesAt, EndsAt, views_of, view_begun};

use crate::burst_taken::BurstTaken;
use crate::capture_consumer::CaptureConsumer;
use crate::captured_burst::{CapturedBurst, granted_to, sound};
use crate::flow_bursts::CapturedFlow;
use crate::map_setup::{flows_of, receiver_of, setup_of};
use crate::sids::{SidFlows, channel_of};
use crate::sound_burst::SoundBurst;
use crate::taken_inputs::{take_grant, take_unadmitted};
use crate::waits::Waits;
use capture_map::CaptureMap;
use capture_rules::{Arrival, ClockCounts};
use docsis_wire::HeaderCheck;
use flow_core::FlowCounts;
use flow_selection::Selection;
use lane::Input;
use loss_rule::LossRule;
use receiver::{Reply, SetupError};
use selected_receiver::{FlowFault, SelectedReceiver};
use std::alloc::Global;

/// A burst that its lane refuses is handed in at once.
fn refuse<C: HeaderCheck + Drop, O: CaptureConsumer>(
    alloc: Global,
    receiver: &mut SelectedReceiver<C>,
    channel: usize,
    burst: CapturedBurst,
    out: &mut O,
) -> Result<Reply, FlowFault>
    requires at_hand { IsAtHand C.accepts receiver.old }
    requires unsound { IsUnsound burst }
    ensures takes { IfOk result (λ reply. TakesBy C.accepts O.saw (IsRefused channel burst reply)
        receiver.old out.old receiver.new out.new) }
    ensures at_hand { IfOk result (λ _. IsAtHand C.accepts receiver.new) }
    ensures breaks { OnErr result (BreaksOff C.accepts O.saw receiver.old out.old
        receiver.new out.new) }
    ensures receiving { IsReceivingWhole C.accepts receiver.new }
{
    let granted = granted_to(&burst);
    take_grant(alloc, receiver, channel, burst.sid, granted, out)?;
    let input = Input::Burst {
        grant: 0,
        hcs_ok: burst.check,
        bytes: burst.bytes,
    };
    let reply = take_unadmitted(alloc, receiver, channel, input, out)?;
    Ok(reply)
}

/// A burst comes to its flow, one of these.
fn come_to<C: HeaderCheck + Drop, O: CaptureConsumer>(
    alloc: Global,
    receiver: &mut SelectedReceiver<C>,
    flows: &mut [CapturedFlow],
    k: usize,
    waits: Waits,
    one: Arrival<SoundBurst>,
    out: &mut O,
) -> Result<(), FlowFault>
    requires at_hand { IsAtHand C.accepts receiver.old }
    requires waits { HaveWaits waits flows.old }
    ensures takes { IfOk result (λ _. TakesBy C.accepts O.saw
        (λ made handed more. ComesAt waits k one (views_of flows.old) made handed more (views_of flows.new))
        receiver.old out.old receiver.new out.new) }
    ensures at_hand { IfOk result (λ _. IsAtHand C.accepts receiver.new) }
    ensures breaks { OnErr result (BreaksOff C.accepts O.saw receiver.old out.old
        receiver.new out.new) }
    ensures receiving { IsReceivingWhole C.accepts receiver.new }
    ensures waits { HaveWaits waits flows.new }
{
    if k >= flows.len() {
        return Err(FlowFault::NotThere);
    }
    flows[k].come(alloc, receiver, k, one, out)?;
    Ok(())
}

/// Nothing more comes to one of these flows: all that waits is handed on, and a beginning ends.
fn end_at<C: HeaderCheck + Drop, O: CaptureConsumer>(
    alloc: Global,
    receiver: &mut SelectedReceiver<C>,
    flows: &mut [CapturedFlow],
    k: usize,
    waits: Waits,
    out: &mut O,
) -> Result<(), FlowFault>
    requires at_hand { IsAtHand C.accepts receiver.old }
    requires waits { HaveWaits waits flows.old }
    ensures takes { IfOk result (λ _. TakesBy C.accepts O.saw
        (λ made handed more. EndsAt waits k (views_of flows.old) made handed more (views_of flows.new))
        receiver.old out.old receiver.new out.new) }
    ensures at_hand { IfOk result (λ _. IsAtHand C.accepts receiver.new) }
    ensures breaks { OnErr result (BreaksOff C.accepts O.saw receiver.old out.old
        receiver.new out.new) }
    ensures receiving { IsReceivingWhole C.accepts receiver.new }
    ensures waits { HaveWaits waits flows.new }
{
    if k >= flows.len() {
        return Err(FlowFault::NotThere);
    }
    flows[k].end_waiting(alloc, receiver, k, out)?;
    Ok(())
}

/// Nothing more comes to any of these flows.
fn end_all<C: HeaderCheck + Drop, O: CaptureConsumer>(
    alloc: Global,
    receiver: &mut SelectedReceiver<C>,
    flows: &mut [CapturedFlow],
    waits: Waits,
    out: &mut O,
) -> Result<(), FlowFault>
    requires at_hand { IsAtHand C.accepts receiver.old }
    requires waits { HaveWaits waits flows.old }
    ensures takes { IfOk result (λ _. TakesBy C.accepts O.saw
        (λ made handed more. EndsAll made waits.wait (views_of flows.old) handed
        (length flows.old) more (views_of flows.new)) receiver.old out.old receiver.new out.new) }
    ensures at_hand { IfOk result (λ _. IsAtHand C.accepts receiver.new) }
    ensures breaks { OnErr result (BreaksOff C.accepts O.saw receiver.old out.old
        receiver.new out.new) }
    ensures receiving { IsReceivingWhole C.accepts receiver.new }
    ensures waits { HaveWaits waits flows.new }
{
    for k in 0..flows.len() {
        end_at(alloc, receiver, flows, k, waits, out)?;
    }
    Ok(())
}

/// The flows of a capture with a map, before a receiver. A burst comes to its flow by its upstream
/// channel and its service identifier, and what becomes of it is handed in to the receiver.
#[derive(Drop)]
pub struct CapturedFlows<C> {
    receiver: SelectedReceiver<C>,
    flows: Vec<CapturedFlow>,
    sids: SidFlows,
    map: CaptureMap,
    waits: Waits,
}

impl<C: HeaderCheck + Drop> CapturedFlows<C> {
    ghost use Rattle.captured_flows.specs.Capturing.{IsCapturing, SpellsNext, SpellsAll};
    ghost use Rattle.captured_flows.specs.Capturing.{EndsWaitingOfAll, views_in, clock_counts_in};
    ghost use Rattle.captured_flows.specs.Captures.{made_from, IsFaultOf};
    ghost use Rattle.captured_flows.specs.Sids.{flow_in_map};
    ghost use Rattle.flow_records.specs.declared.record.FlowRecord.{FlowRecord};
    ghost use Rattle.consumer.specs.declared.given.Given.{Given};
    ghost use Rattle.bonded_flows.specs.Table.{TableSetup};
    ghost use Rattle.receiver.specs.HandedIn.{HandedIn};
    ghost use Rattle.flow_selection.specs.Selection.{is_selected};
    ghost use Rattle.receiver.specs.Receiving.{IsSettledAt, HasGivenSince};
    ghost use Rattle.selected_receiver.specs.Whole.{StandsForWhole};

    /// The flows of this map, of which nothing came yet, before a receiver of 16 channels that goes
    /// by this rule of losses. Of the selected flows frames are joined; bursts of the others are
    /// looked at. A fault is one of the setup that the map makes.
    pub fn new(
        alloc: Global,
        capture_map: CaptureMap,
        rule: LossRule,
        waits: Waits,
        selected: Selection,
        check: C,
    ) -> Result<CapturedFlows<C>, SetupError>
        ensures stands { IfOk result (λ captured. StandsForWhole C.accepts captured.receiver
            (C.accepts check) (made_from rule capture_map) [] []) }
        ensures views { IfOk result (λ captured. views_in captured
            ≡ map (view_begun waits) capture_map.flows.items) }
        ensures capturing { IfOk result (IsCapturing C.accepts) }
        ensures map { IfOk result (λ captured. captured.map ≡ capture_map) }
        ensures waits { IfOk result (λ captured. captured.waits ≡ waits) }
        ensures selected { IfOk result (λ captured. captured.receiver.selected ≡ selected) }
        ensures fault { IfErr result (IsFaultOf capture_map) }
    {
        let setup = setup_of(alloc, &capture_map)?;
        let receiver = match receiver_of(alloc, &setup, rule, selected, check) {
            Ok(receiver) => receiver,
            Err(error) => return Err(error),
        };
        let sids = SidFlows::new(alloc, &capture_map.sids)?;
        let flows = flows_of(alloc, &capture_map.flows, waits)?;
        Ok(CapturedFlows {
            receiver,
            flows,
            sids,
            map: capture_map,
            waits,
        })
    }

    /// A burst comes. It is passed over, handed in at once where its lane refuses it, or comes to
    /// its flow. After a fault nothing more is to be taken, and [`CapturedFlows::into_receiver`]
    /// gives the receiver to be closed.
    pub fn take<O: CaptureConsumer>(
        &mut self,
        alloc: Global,
        burst: CapturedBurst,
        out: &mut O,
    ) -> Result<BurstTaken, FlowFault>
        requires capturing { IsCapturing C.accepts self.old }
        ensures takes { IfOk result (λ told. TakesBy C.accepts O.saw
            (SpellsNext self.old burst told self.new) self.old.receiver out.old
            self.new.receiver out.new) }
        ensures capturing { IfOk result (λ _. IsCapturing C.accepts self.new) }
        ensures breaks { OnErr result (BreaksOff C.accepts O.saw self.old.receiver out.old
            self.new.receiver out.new) }
        ensures receiving { IsReceivingWhole C.accepts self.new.receiver }
        ensures map { self.new.map ≡ self.old.map }
        ensures waits { self.new.waits ≡ self.old.waits }
        ensures selected { self.new.receiver.selected ≡ self.old.receiver.selected }
    {
        let Some(channel) = channel_of(&self.map.channels, burst.channel) else {
            return Ok(BurstTaken::UnknownChannel);
        };
        let Some(flow) = self.sids.flow_of(channel, burst.sid) else {
            return Ok(BurstTaken::UnknownSid);
        };
        let channel = usize::from(channel);
        let flow = usize::from(flow);
        match sound(channel, burst) {
            Ok(one) => {
                come_to(
                    alloc,
                    &mut self.receiver,
                    &mut self.flows,
                    flow,
                    self.waits,
                    one,
                    out,
                )?;
                Ok(BurstTaken::Waits(flow))
            }
            Err(burst) => {
                let reply = refuse(alloc, &mut self.receiver, channel, burst, out)?;
                Ok(BurstTaken::Refused(reply))
            }
        }
    }

    /// Bursts come one after another, up to the first that isn't taken to the end.
    pub fn take_all<O: CaptureConsumer>(
        &mut self,
        alloc: Global,
        bursts: Vec<CapturedBurst>,
        out: &mut O,
    ) -> Result<(), FlowFault>
        requires capturing { IsCapturing C.accepts self.old }
        ensures takes { IfOk result (λ _. TakesBy C.accepts O.saw
            (SpellsAll self.old bursts.items self.new) self.old.receiver out.old
            self.new.receiver out.new) }
        ensures capturing { IfOk result (λ _. IsCapturing C.accepts self.new) }
        ensures breaks { OnErr result (BreaksOff C.accepts O.saw self.old.receiver out.old
            self.new.receiver out.new) }
        ensures receiving { IsReceivingWhole C.accepts self.new.receiver }
        ensures map { self.new.map ≡ self.old.map }
        ensures waits { self.new.waits ≡ self.old.waits }
        ensures selected { self.new.receiver.selected ≡ self.old.receiver.selected }
    {
        for burst in bursts {
            self.take(alloc, burst, out)?;
        }
        Ok(())
    }

    /// Nothing more comes: of each flow, one after another, all that waits is handed on, and a
    /// beginning ends. Then the receiver is to be closed.
    pub fn end_waiting<O: CaptureConsumer>(
        &mut self,
        alloc: Global,
        out: &mut O,
    ) -> Result<(), FlowFault>
        requires capturing { IsCapturing C.accepts self.old }
        ensures takes { IfOk result (λ _. TakesBy C.accepts O.saw
            (EndsWaitingOfAll self.old self.new) self.old.receiver out.old
            self.new.receiver out.new) }
        ensures capturing { IfOk result (λ _. IsCapturing C.accepts self.new) }
        ensures breaks { OnErr result (BreaksOff C.accepts O.saw self.old.receiver out.old
            self.new.receiver out.new) }
        ensures receiving { IsReceivingWhole C.accepts self.new.receiver }
        ensures selected { self.new.receiver.selected ≡ self.old.receiver.selected }
    {
        end_all(alloc, &mut self.receiver, &mut self.flows, self.waits, out)?;
        Ok(())
    }

    /// The flow to which a burst of this upstream channel with this service identifier comes, if
    /// the map has one.
    pub fn flow_of(&self, channel: u32, sid: u16) -> Option<usize>
        ensures { IsCapturing C.accepts self.now
            → result ≡ flow_in_map self.now.map channel sid }
    {
        let channel = channel_of(&self.map.channels, channel)?;
        let flow = self.sids.flow_of(channel, sid)?;
        Some(usize::from(flow))
    }

    /// The flows of which frames are joined.
    pub fn selected(&self) -> &Selection
        ensures { result.now ≡ self.now.receiver.selected }
    {
        self.receiver.selected()
    }

    /// What was counted of a flow since it last began, or none if there is no such flow. Of one
    /// that isn't selected it was counted of what stood in for its bursts.
    pub fn counts(&self, flow: usize) -> Option<FlowCounts>
        ensures none { result ≡ None
            ↔ (length self.now.receiver.receiver.flows.slots.items ≤ flow) }
        ensures counts { IfSome result (λ counts. (check : List ℕ → Bool) (made : TableSetup)
            (handed : List HandedIn) (given : List Given) (flow_record : FlowRecord)
            → StandsForWhole C.accepts self.now.receiver check made handed given
            → slice_get made.records flow ≡ Some flow_record
            → IsSettledAt self.now.receiver.receiver flow
            → is_selected self.now.receiver.selected flow ≡ true
            → HasGivenSince check made flow flow_record handed given counts) }
    {
        self.receiver.counts(flow)
    }

    /// How often the times of all flows' bursts couldn't be gone by.
    pub fn clock_counts(&self) -> ClockCounts
        ensures { result ≡ clock_counts_in self.now }
    {
        let flows = self.flows.iter();
        flows.fold(ClockCounts::none(), |counts, flow| {
            counts.and(flow.order.clock_counts())
        })
    }

    /// The receiver, to be closed.
    pub fn into_receiver(self) -> SelectedReceiver<C>
        ensures { result ≡ self.receiver }
    {
        self.receiver
    }
}
