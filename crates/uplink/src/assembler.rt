//! The assembler, which is the caller of a running receiver.
ghost use Rattle.std.specs.Prelude.{◌≡◌, ◌<◌, ◌≤◌, ◌++◌, ◌∷◌, [], ℕ, List, Some, true, IsTrue};
ghost use Rattle.std.specs.Prelude.{IfSome, IfOk, MatchOption, length, map};
ghost use Rattle.docsis_wire.specs.Ready.{IsReady};
ghost use Rattle.mailbox.specs.Mouths.{places, taken, ended};
ghost use Rattle.delivery.specs.Feeders.{feeder_ring, closed_ring};
ghost use Rattle.flow_records.specs.declared.event.Event.{Event};
ghost use Rattle.flow_records.specs.Events.{IsTakable};
ghost use Rattle.lane.specs.Limits.{senders};
ghost use Rattle.loss_rule.specs.Rule.{on_channel, handed_in};
ghost use Rattle.bonded_flows.specs.ByRule.{decision_event, IsTakable as IsDecisionTakable};
ghost use Rattle.bonded_flows.specs.Parts.{comes};
ghost use Rattle.bonded_flows.specs.Table.{IsInUse};
ghost use Rattle.receiver.specs.TakenInOrder.{table_input_of};
ghost use Rattle.uplink.specs.Inside.Feeding.{rings_of, HasOffered, IsClosedAfter};
ghost use Rattle.uplink.specs.Inside.Offering.{HasOrder, HasAssembledSoFar, Takes, TakesItem};
ghost use Rattle.uplink.specs.Inside.Offering.{ClosesFlows, HasAssembled};
ghost use Rattle.uplink.specs.Inside.Offering.{TakesAtMost, FeedsAtMost, ClosesFirst};
ghost use Rattle.uplink.specs.Inside.Offering.{HasAssembledFirst};

use crate::feeding::Feeding;
use bonded_flows::{FlowDecision, FlowTable};
use delivery::{ClosedFeeder, Feeder};
use docsis_wire::{HeaderCheck, Segment};
use flow_core::{Event, FlowCounts};
use mailbox::{Mouth, Taken};
use std::alloc::{AllocError, Global};
use std::sync::Wait;
use workers::{Item, MouthWait, Signals, close_feeders};

/// All flows, and the order of the items that were taken so far, if it is kept.
#[derive(Drop)]
pub struct Taking<C> {
    pub flows: FlowTable<C>,
    pub order: Option<Vec<u8>>,
}

/// The order of all items, if it was kept, and what was counted of each flow.
#[derive(Drop)]
pub struct Assembled {
    pub order: Option<Vec<u8>>,
    pub counts: Vec<FlowCounts>,
}

/// What the assembler hands on once all senders have ended: the mouth, the closed feeders, and,
/// unless an allocation failed, what it assembled.
#[derive(Drop)]
pub struct AssembledAll {
    pub mouth: Mouth<Item>,
    pub feeders: Vec<ClosedFeeder>,
    pub done: Option<Assembled>,
}

/// Takes until all senders have ended, and offers the frames that each flow gives to its feeder.
/// Then it closes all flows, and the feeders. Once an allocation failed, in whichever thread, it
/// drops what it takes, and closes no flow: so what was offered is what comes first of what would
/// have been. A clause (`first`) says so but for the close, since none knows what one thread sees
/// of another.
/// `closed` has room for a closed feeder of each flow. The order of the items is appended to
/// `order`, if there is one.
pub fn assemble<C: HeaderCheck + Drop, R: Wait>(
    alloc: Global,
    rt: &R,
    signals: &Signals,
    taking: Taking<C>,
    mouth: Mouth<Item>,
    feeders: Vec<Feeder>,
    closed: Vec<ClosedFeeder>,
) -> AssembledAll
    requires in_use { IsInUse C.accepts taking.flows }
    requires room { (closed.items ≡ []) × (length feeders.items ≤ closed.cap) }
    ensures places { places result.mouth ≡ places mouth }
    ensures ended { (sender : ℕ) → sender < senders → ended result.mouth sender ≡ true }
    ensures rings { map closed_ring result.feeders.items ≡ map feeder_ring feeders.items }
    ensures done { IfSome result.done (λ done. HasAssembled C.accepts taking feeders.items
        (taken mouth) (taken result.mouth) result.feeders.items done) }
    ensures first { HasAssembledFirst C.accepts taking (taken mouth) (taken result.mouth)
        (IsClosedAfter feeders.items result.feeders.items) }
{
    let mut mouth = mouth;
    let mut feeding = Feeding {
        feeders,
        whole: true,
        told: signals.offered(),
        is_bounded: taking.order.is_none(),
    };
    let taking = take_items(alloc, rt, signals, taking, &mut mouth, &mut feeding);
    let done = close_flows(alloc, signals, taking, &mut feeding);
    let feeders = close_feeders(rt, signals, feeding.feeders, closed);
    AssembledAll {
        mouth,
        feeders,
        done,
    }
}

/// Takes until all senders have ended, and offers the frames that each flow gives to its feeder.
/// Nothing where an allocation failed; what comes after that is dropped.
///
/// Where backlogs are bounded, no item is taken while a frame waits in one: then the mailbox fills,
/// and sources are asked no more until the consumer has taken.
fn take_items<C: HeaderCheck + Drop, R: Wait>(
    alloc: Global,
    rt: &R,
    signals: &Signals,
    taking: Taking<C>,
    mouth: &mut Mouth<Item>,
    feeding: &mut Feeding<'_>,
) -> Option<Taking<C>>
    requires { IsInUse C.accepts taking.flows }
    ensures places { places mouth.new ≡ places mouth.old }
    ensures ended { (sender : ℕ) → sender < senders → ended mouth.new sender ≡ true }
    ensures rings { rings_of feeding.new ≡ rings_of feeding.old }
    ensures so_far { IfSome result (λ made. HasAssembledSoFar C.accepts taking feeding.old
        (taken mouth.old) (taken mouth.new) made feeding.new) }
    ensures first { HasAssembledFirst C.accepts taking (taken mouth.old) (taken mouth.new)
        (λ given. HasOffered feeding.old given feeding.new) }
{
    let mut taking = Some(taking);
    let mut wait = MouthWait::at(signals.arrivals());
    for _ in rt.forever() {
        if mouth.all_ended() {
            break;
        }
        match mouth.next(rt) {
            Taken::Item { item, .. } => {
                wait.took();
                let flow = item.event.flow();
                taking = with_item(alloc, signals, taking, feeding, item);
                feeding.wait_for_room(rt, signals, flow);
            }
            Taken::End { .. } => wait.took(),
            Taken::Empty => {
                signals.want_room(feeding.flush());
                wait.pause(rt);
            }
        }
    }
    taking
}

/// With one item more, whose flow's frames were offered. Nothing where there was nothing, or where
/// an allocation failed, in whichever thread: an item of another channel may then be one that would
/// have had to wait.
fn with_item<C: HeaderCheck + Drop>(
    alloc: Global,
    signals: &Signals,
    taking: Option<Taking<C>>,
    feeding: &mut Feeding<'_>,
    item: Item,
) -> Option<Taking<C>>
    requires { IfSome taking (λ was. IsInUse C.accepts was.flows) }
    ensures rings { rings_of feeding.new ≡ rings_of feeding.old }
    ensures takes { IfSome result (λ now. (was : _) × (taking ≡ Some was)
        × HasOrder was.order (item.sender ∷ []) now.order
        × TakesItem C.accepts was.flows feeding.old item.sender item.event now.flows feeding.new) }
    ensures at_most { MatchOption taking (HasOffered feeding.old [] feeding.new)
        (λ was. FeedsAtMost C.accepts was.flows feeding.old
        (table_input_of item.sender item.event) feeding.new) }
{
    if signals.has_failed() {
        return None;
    }
    let Taking {
        mut flows,
        mut order,
    } = taking?;
    note_sender(&mut order, item.sender).ok()?;
    take_item(&mut flows, alloc, item.sender, item.event, feeding)?;
    if !feeding.whole {
        return None;
    }
    Some(Taking { flows, order })
}

/// Appends a sender to the order, if it is kept.
fn note_sender(order: &mut Option<Vec<u8>>, sender: u8) -> Result<(), AllocError>
    ensures { IfOk result (λ _. HasOrder order.old (sender ∷ []) order.new) }
{
    if let Some(order) = order {
        order.push(sender)?;
    }
    Ok(())
}

/// Has an item's flow take it, and offers the frames that the flow then gives. An item of a flow
/// that there isn't is passed over; none that is posted is such. Nothing where an allocation
/// failed.
fn take_item<C: HeaderCheck + Drop>(
    flows: &mut FlowTable<C>,
    alloc: Global,
    sender: u8,
    item: Event,
    feeding: &mut Feeding<'_>,
) -> Option<()>
    requires in_use { IsInUse C.accepts flows.old }
    requires takable { IsTakable item }
    ensures rings { rings_of feeding.new ≡ rings_of feeding.old }
    ensures takes { IfSome result (λ _.
        TakesItem C.accepts flows.old feeding.old sender item flows.new feeding.new) }
    ensures at_most { TakesAtMost C.accepts flows.old feeding.old (table_input_of sender item)
        flows.new feeding.new }
{
    let flow = item.flow();
    if flow >= flows.flow_count() {
        return Some(());
    }
    match item {
        Event::Arrive { segment, .. } => {
            take_segment(flows, alloc, flow, usize::from(sender), segment, feeding)
        }
        Event::Gap { .. } => decide(flows, alloc, flow, FlowDecision::Gap, feeding),
        Event::GapTo { number, .. } => {
            decide(flows, alloc, flow, FlowDecision::GapTo(number), feeding)
        }
        Event::SkipTo { number, .. } => {
            decide(flows, alloc, flow, FlowDecision::SkipTo(number), feeding)
        }
    }
}

/// Has a flow take a segment that comes on this channel. Nothing where an allocation failed.
fn take_segment<C: HeaderCheck + Drop>(
    flows: &mut FlowTable<C>,
    alloc: Global,
    flow: usize,
    channel: usize,
    segment: Segment,
    feeding: &mut Feeding<'_>,
) -> Option<()>
    requires in_use { IsInUse C.accepts flows.old }
    requires exists { flow < length flows.old.slots.items }
    requires ready { IsReady segment }
    ensures rings { rings_of feeding.new ≡ rings_of feeding.old }
    ensures takes { IfSome result (λ _. Takes C.accepts flows.old feeding.old
        (record { flow = flow; input = comes (on_channel channel segment) } ∷ [])
        flows.new feeding.new) }
    ensures at_most { TakesAtMost C.accepts flows.old feeding.old
        (record { flow = flow; input = comes (on_channel channel segment) })
        flows.new feeding.new }
{
    flows.prepare(alloc, flow, feeding).ok()?;
    flows
        .take_segment(alloc, flow, channel, segment, feeding)
        .ok()?;
    Some(())
}

/// Has a flow take a decision. Nothing where an allocation failed.
fn decide<C: HeaderCheck + Drop>(
    flows: &mut FlowTable<C>,
    alloc: Global,
    flow: usize,
    decision: FlowDecision,
    feeding: &mut Feeding<'_>,
) -> Option<()>
    requires in_use { IsInUse C.accepts flows.old }
    requires exists { flow < length flows.old.slots.items }
    requires takable { IsDecisionTakable decision }
    ensures rings { rings_of feeding.new ≡ rings_of feeding.old }
    ensures takes { IfSome result (λ _. Takes C.accepts flows.old feeding.old
        (record { flow = flow; input = comes (handed_in (decision_event decision)) } ∷ [])
        flows.new feeding.new) }
    ensures at_most { TakesAtMost C.accepts flows.old feeding.old
        (record { flow = flow; input = comes (handed_in (decision_event decision)) })
        flows.new feeding.new }
{
    flows.decide(alloc, flow, decision, feeding).ok()?;
    Some(())
}

/// Closes all flows, and offers the frames that this gives. Answers the order of the items, if it
/// is kept, and what was counted of each flow. Nothing where there was nothing, or where an
/// allocation failed, in whichever thread.
fn close_flows<C: HeaderCheck + Drop>(
    alloc: Global,
    signals: &Signals,
    taking: Option<Taking<C>>,
    feeding: &mut Feeding<'_>,
) -> Option<Assembled>
    requires { IfSome taking (λ was. IsInUse C.accepts was.flows) }
    ensures rings { rings_of feeding.new ≡ rings_of feeding.old }
    ensures closes { IfSome result (λ done. (was : _) × (taking ≡ Some was)
        × (done.order ≡ was.order)
        × ClosesFlows C.accepts was.flows feeding.old done.counts.items feeding.new) }
    ensures whole { IfSome result (λ _. IsTrue feeding.new.whole) }
    ensures first { MatchOption taking (HasOffered feeding.old [] feeding.new)
        (λ was. ClosesFirst C.accepts was.flows feeding.old feeding.new) }
{
    if signals.has_failed() {
        return None;
    }
    let Taking { mut flows, order } = taking?;
    let counts = close_all(alloc, &mut flows, feeding).ok()?;
    if !feeding.whole {
        return None;
    }
    Some(Assembled { order, counts })
}

/// Closes all flows, in the order of their records, offers the frames that this gives, and answers
/// what was counted of each.
fn close_all<C: HeaderCheck + Drop>(
    alloc: Global,
    flows: &mut FlowTable<C>,
    feeding: &mut Feeding<'_>,
) -> Result<Vec<FlowCounts>, AllocError>
    requires { IsInUse C.accepts flows.old }
    ensures rings { rings_of feeding.new ≡ rings_of feeding.old }
    ensures closes { IfOk result (λ counts.
        ClosesFlows C.accepts flows.old feeding.old counts.items feeding.new) }
    ensures first { ClosesFirst C.accepts flows.old feeding.old feeding.new }
{
    let flow_count = flows.flow_count();
    let mut counts = Vec::with_capacity(alloc, flow_count)?;
    for flow in 0..flow_count {
        let counted = flows.restart(alloc, flow, 0, feeding)?;
        counts.push_reserved(counted);
    }
    Ok(counts)
}
