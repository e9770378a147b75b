//! What becomes of the bursts of one flow.
ghost use Rattle.std.specs.Prelude.{◌≡◌, ◌++◌, ◌∷◌, [], List, IfOk, OnOk, OnErr, true, false};
ghost use Rattle.std.specs.Prelude.{option_to_list};
ghost use Rattle.capture_rules.specs.Begin.{beginning_seen};
ghost use Rattle.capture_rules.specs.Held.{held_by, wait_of};
ghost use Rattle.captured_flows.specs.Flow.{Skips, LetsGo, HandsIn, HandsInAll, Begins, BeginsIf};
ghost use Rattle.captured_flows.specs.Flow.{LetsGoIf, HandsInIf, says_kept};
ghost use Rattle.captured_flows.specs.Flow.{IsHandedOn, AreHandedOn, PassesOn, Comes, EndsWaiting};
ghost use Rattle.captured_flows.specs.Flow.{flow_begun};
ghost use Rattle.selected_receiver.specs.Whole.{IsReceivingWhole, IsAtHand};
ghost use Rattle.captured_flows.specs.Taking.{TakesBy, BreaksOff};
ghost use Rattle.captured_flows.specs.Shown.{begun_if};
ghost use Rattle.captured_flows.specs.Steps.{CaptureStep};

use crate::capture_consumer::CaptureConsumer;
use crate::sound_burst::SoundBurst;
use crate::taken_inputs::{take_grant, take_of};
use crate::waits::Waits;
use capture_rules::{Arrival, Beginning, Begun, ChannelOrder, HandedOn, HeldTime, HeldTimes};
use docsis_wire::HeaderCheck;
use flow_core::FlowCounts;
use flow_selection::Selection;
use lane::Input;
use receiver::{Reply, SegmentVerdict};
use selected_receiver::{FlowFault, SelectedReceiver};
use std::alloc::{AllocError, Global};

/// A flow whose bursts wait, are kept until it begins, or are held by the receiver.
#[derive(Drop)]
pub(crate) struct CapturedFlow {
    pub(crate) window: u16,
    pub(crate) order: ChannelOrder<SoundBurst>,
    pub(crate) beginning: Beginning<SoundBurst>,
    pub(crate) held: HeldTimes,
}

/// The flow skips to a number, and what then doesn't lie ahead is held no longer.
fn skip_past<C: HeaderCheck + Drop, O: CaptureConsumer>(
    alloc: Global,
    receiver: &mut SelectedReceiver<C>,
    flow: usize,
    held: &mut HeldTimes,
    number: u16,
    out: &mut O,
) -> Result<(), FlowFault>
    requires at_hand { IsAtHand C.accepts receiver.old }
    ensures takes { IfOk result (λ _. TakesBy C.accepts O.saw
        (λ made handed more. Skips made (wait_of held.old) flow number (held_by held.old) handed more
        (held_by held.new)) receiver.old out.old receiver.new out.new) }
    ensures at_hand { IfOk result (λ _. IsAtHand C.accepts receiver.new) }
    ensures breaks { OnErr result (BreaksOff C.accepts O.saw receiver.old out.old
        receiver.new out.new) }
    ensures receiving { IsReceivingWhole C.accepts receiver.new }
    ensures wait { wait_of held.new ≡ wait_of held.old }
{
    receiver.skip(alloc, flow, number, out)?;
    let number = receiver.expected(flow)?;
    held.pass(number);
    Ok(())
}

/// Where something is held for long, the flow skips to the last of that.
fn let_go<C: HeaderCheck + Drop, O: CaptureConsumer>(
    alloc: Global,
    receiver: &mut SelectedReceiver<C>,
    flow: usize,
    held: &mut HeldTimes,
    now: u64,
    out: &mut O,
) -> Result<(), FlowFault>
    requires at_hand { IsAtHand C.accepts receiver.old }
    ensures takes { IfOk result (λ _. TakesBy C.accepts O.saw
        (λ made handed more. LetsGo made (wait_of held.old) flow now (held_by held.old) handed more
        (held_by held.new)) receiver.old out.old receiver.new out.new) }
    ensures at_hand { IfOk result (λ _. IsAtHand C.accepts receiver.new) }
    ensures breaks { OnErr result (BreaksOff C.accepts O.saw receiver.old out.old
        receiver.new out.new) }
    ensures receiving { IsReceivingWhole C.accepts receiver.new }
    ensures wait { wait_of held.new ≡ wait_of held.old }
{
    let first = receiver.expected(flow)?;
    match held.skip_to(now, first) {
        Some(number) => {
            skip_past(alloc, receiver, flow, held, number, out)?;
            Ok(())
        }
        None => Ok(()),
    }
}

/// Whether a segment is kept.
fn says_kept(reply: &Reply) -> bool
    ensures { result ≡ says_kept reply.now }
{
    match reply {
        Reply::Admitted { told, .. } => told.verdict == SegmentVerdict::Kept,
        _ => false,
    }
}

/// A segment is held from now on, if it is kept.
fn keep_if(held: &mut HeldTimes, is_kept: bool, one: HeldTime) -> Result<(), AllocError>
    ensures kept { OnOk result (is_kept ≡ true → held_by held.new ≡ held_by held.old ++ one ∷ []) }
    ensures not_kept { is_kept ≡ false → held_by held.new ≡ held_by held.old }
    ensures wait { wait_of held.new ≡ wait_of held.old }
{
    if is_kept { held.keep(one) } else { Ok(()) }
}

/// A burst is handed in, after what is held for long is let go.
fn hand_in<C: HeaderCheck + Drop, O: CaptureConsumer>(
    alloc: Global,
    receiver: &mut SelectedReceiver<C>,
    flow: usize,
    held: &mut HeldTimes,
    one: HandedOn<SoundBurst>,
    out: &mut O,
) -> Result<(), FlowFault>
    requires at_hand { IsAtHand C.accepts receiver.old }
    ensures takes { IfOk result (λ _. TakesBy C.accepts O.saw
        (λ made handed more. HandsIn made (wait_of held.old) flow one (held_by held.old) handed more
        (held_by held.new)) receiver.old out.old receiver.new out.new) }
    ensures at_hand { IfOk result (λ _. IsAtHand C.accepts receiver.new) }
    ensures breaks { OnErr result (BreaksOff C.accepts O.saw receiver.old out.old
        receiver.new out.new) }
    ensures receiving { IsReceivingWhole C.accepts receiver.new }
    ensures wait { wait_of held.new ≡ wait_of held.old }
{
    let_go(alloc, receiver, flow, held, one.time, out)?;
    out.hand_in(flow, &one.arrival);
    let entry = HeldTime::of(&one);
    let channel = one.arrival.channel;
    let SoundBurst {
        sid,
        burst_id,
        granted,
        bytes,
    } = one.arrival.item;
    take_grant(alloc, receiver, channel, sid, granted, out)?;
    let burst = Input::Burst {
        grant: 0,
        hcs_ok: true,
        bytes,
    };
    let reply = take_of(alloc, receiver, channel, flow, burst, out)?;
    out.replied(flow, burst_id, reply);
    keep_if(held, says_kept(&reply), entry)?;
    let number = receiver.expected(flow)?;
    held.pass(number);
    Ok(())
}

/// These bursts are handed in, one after another.
fn hand_in_all<C: HeaderCheck + Drop, O: CaptureConsumer>(
    alloc: Global,
    receiver: &mut SelectedReceiver<C>,
    flow: usize,
    held: &mut HeldTimes,
    kept: Vec<HandedOn<SoundBurst>>,
    out: &mut O,
) -> Result<(), FlowFault>
    requires at_hand { IsAtHand C.accepts receiver.old }
    ensures takes { IfOk result (λ _. TakesBy C.accepts O.saw
        (λ made handed more. HandsInAll made (wait_of held.old) flow kept.items (held_by held.old) handed
        more (held_by held.new)) receiver.old out.old receiver.new out.new) }
    ensures at_hand { IfOk result (λ _. IsAtHand C.accepts receiver.new) }
    ensures breaks { OnErr result (BreaksOff C.accepts O.saw receiver.old out.old
        receiver.new out.new) }
    ensures receiving { IsReceivingWhole C.accepts receiver.new }
    ensures wait { wait_of held.new ≡ wait_of held.old }
{
    for one in kept {
        hand_in(alloc, receiver, flow, held, one, out)?;
    }
    Ok(())
}

/// Tells that a flow begins anew, and what was counted of it, if it is selected.
fn tell_begun<O: CaptureConsumer>(
    selected: &Selection,
    flow: usize,
    counts: FlowCounts,
    out: &mut O,
)
    ensures { (start : O) (steps : List CaptureStep) → O.saw start steps out.old
        → O.saw start (steps ++ begun_if selected.now flow counts) out.new }
{
    if selected.has(flow) {
        out.begin_anew(flow, counts);
    }
}

/// The flow begins, or begins anew: nothing is held, and what was kept is handed in.
fn begin<C: HeaderCheck + Drop, O: CaptureConsumer>(
    alloc: Global,
    receiver: &mut SelectedReceiver<C>,
    flow: usize,
    held: &mut HeldTimes,
    begun: Begun<SoundBurst>,
    out: &mut O,
) -> Result<(), FlowFault>
    requires at_hand { IsAtHand C.accepts receiver.old }
    ensures takes { IfOk result (λ _. TakesBy C.accepts O.saw
        (λ made handed more. Begins made (wait_of held.old) flow begun handed more (held_by held.new))
        receiver.old out.old receiver.new out.new) }
    ensures at_hand { IfOk result (λ _. IsAtHand C.accepts receiver.new) }
    ensures breaks { OnErr result (BreaksOff C.accepts O.saw receiver.old out.old
        receiver.new out.new) }
    ensures receiving { IsReceivingWhole C.accepts receiver.new }
    ensures wait { wait_of held.new ≡ wait_of held.old }
{
    let counts = receiver.restart(alloc, flow, begun.first, out)?;
    tell_begun(receiver.selected(), flow, counts, out);
    held.clear();
    hand_in_all(alloc, receiver, flow, held, begun.kept, out)?;
    Ok(())
}

/// A flow of which a beginning has ended begins, or begins anew.
fn begin_if<C: HeaderCheck + Drop, O: CaptureConsumer>(
    alloc: Global,
    receiver: &mut SelectedReceiver<C>,
    flow: usize,
    held: &mut HeldTimes,
    begun: Option<Begun<SoundBurst>>,
    out: &mut O,
) -> Result<(), FlowFault>
    requires at_hand { IsAtHand C.accepts receiver.old }
    ensures takes { IfOk result (λ _. TakesBy C.accepts O.saw
        (λ made handed more. BeginsIf made (wait_of held.old) flow (held_by held.old) handed begun
        more (held_by held.new)) receiver.old out.old receiver.new out.new) }
    ensures at_hand { IfOk result (λ _. IsAtHand C.accepts receiver.new) }
    ensures breaks { OnErr result (BreaksOff C.accepts O.saw receiver.old out.old
        receiver.new out.new) }
    ensures receiving { IsReceivingWhole C.accepts receiver.new }
    ensures wait { wait_of held.new ≡ wait_of held.old }
{
    match begun {
        Some(begun) => {
            begin(alloc, receiver, flow, held, begun, out)?;
            Ok(())
        }
        None => Ok(()),
    }
}

/// After a silence what is held for long is let go.
fn let_go_if<C: HeaderCheck + Drop, O: CaptureConsumer>(
    alloc: Global,
    receiver: &mut SelectedReceiver<C>,
    flow: usize,
    held: &mut HeldTimes,
    is_silent: bool,
    now: u64,
    out: &mut O,
) -> Result<(), FlowFault>
    requires at_hand { IsAtHand C.accepts receiver.old }
    ensures takes { IfOk result (λ _. TakesBy C.accepts O.saw
        (λ made handed more. LetsGoIf made (wait_of held.old) flow is_silent now (held_by held.old)
        handed more (held_by held.new)) receiver.old out.old receiver.new out.new) }
    ensures at_hand { IfOk result (λ _. IsAtHand C.accepts receiver.new) }
    ensures breaks { OnErr result (BreaksOff C.accepts O.saw receiver.old out.old
        receiver.new out.new) }
    ensures receiving { IsReceivingWhole C.accepts receiver.new }
    ensures wait { wait_of held.new ≡ wait_of held.old }
{
    if is_silent {
        let_go(alloc, receiver, flow, held, now, out)?;
        Ok(())
    } else {
        Ok(())
    }
}

/// A burst that isn't kept is handed in.
fn hand_in_if<C: HeaderCheck + Drop, O: CaptureConsumer>(
    alloc: Global,
    receiver: &mut SelectedReceiver<C>,
    flow: usize,
    held: &mut HeldTimes,
    next: Option<HandedOn<SoundBurst>>,
    out: &mut O,
) -> Result<(), FlowFault>
    requires at_hand { IsAtHand C.accepts receiver.old }
    ensures takes { IfOk result (λ _. TakesBy C.accepts O.saw
        (λ made handed more. HandsInIf made (wait_of held.old) flow (held_by held.old) handed next
        more (held_by held.new)) receiver.old out.old receiver.new out.new) }
    ensures at_hand { IfOk result (λ _. IsAtHand C.accepts receiver.new) }
    ensures breaks { OnErr result (BreaksOff C.accepts O.saw receiver.old out.old
        receiver.new out.new) }
    ensures receiving { IsReceivingWhole C.accepts receiver.new }
    ensures wait { wait_of held.new ≡ wait_of held.old }
{
    match next {
        Some(one) => {
            hand_in(alloc, receiver, flow, held, one, out)?;
            Ok(())
        }
        None => Ok(()),
    }
}

impl CapturedFlow {
    ghost use Rattle.captured_flows.specs.Seen.{flow_seen, KeepsWaits, HasWaits};

    /// Nothing of the flow came yet. Its window has this width; its first number is known or not.
    pub(crate) fn new(alloc: Global, window: u16, is_begun: bool, waits: Waits) -> CapturedFlow
        ensures seen { flow_seen result ≡ flow_begun window is_begun waits.reorder waits.wait }
        ensures waits { HasWaits waits result }
    {
        CapturedFlow {
            window,
            order: ChannelOrder::new(alloc, waits.reorder),
            beginning: Beginning::new(alloc, waits.wait, is_begun),
            held: HeldTimes::new(alloc, waits.wait),
        }
    }

    /// A burst is handed on.
    fn hand_on<C: HeaderCheck + Drop, O: CaptureConsumer>(
        &mut self,
        alloc: Global,
        receiver: &mut SelectedReceiver<C>,
        flow: usize,
        one: HandedOn<SoundBurst>,
        out: &mut O,
    ) -> Result<(), FlowFault>
        requires at_hand { IsAtHand C.accepts receiver.old }
        ensures takes { IfOk result (λ _. TakesBy C.accepts O.saw
            (λ made handed more. IsHandedOn made (wait_of self.old.held) flow self.old.window one
            (beginning_seen self.old.beginning) (held_by self.old.held) handed more
            (beginning_seen self.new.beginning) (held_by self.new.held))
            receiver.old out.old receiver.new out.new) }
        ensures at_hand { IfOk result (λ _. IsAtHand C.accepts receiver.new) }
        ensures breaks { OnErr result (BreaksOff C.accepts O.saw receiver.old out.old
            receiver.new out.new) }
        ensures receiving { IsReceivingWhole C.accepts receiver.new }
        ensures waits { KeepsWaits self.old self.new }
        ensures order { self.new.order ≡ self.old.order }
    {
        let begun = self.beginning.end_at(alloc, one.time);
        begin_if(alloc, receiver, flow, &mut self.held, begun, out)?;
        let is_silent = self.beginning.is_silent(one.time);
        let_go_if(
            alloc,
            receiver,
            flow,
            &mut self.held,
            is_silent,
            one.time,
            out,
        )?;
        let number = receiver.expected(flow)?;
        let next = self.beginning.hand_on(one, number, self.window)?;
        hand_in_if(alloc, receiver, flow, &mut self.held, next, out)?;
        Ok(())
    }

    /// What goes before a burst of this time comes is handed on.
    fn pass_on<C: HeaderCheck + Drop, O: CaptureConsumer>(
        &mut self,
        alloc: Global,
        receiver: &mut SelectedReceiver<C>,
        flow: usize,
        time: u64,
        out: &mut O,
    ) -> Result<(), FlowFault>
        requires at_hand { IsAtHand C.accepts receiver.old }
        ensures takes { IfOk result (λ _. TakesBy C.accepts O.saw
            (λ made handed more. PassesOn made (wait_of self.old.held) flow
            time (flow_seen self.old) handed more (flow_seen self.new))
            receiver.old out.old receiver.new out.new) }
        ensures at_hand { IfOk result (λ _. IsAtHand C.accepts receiver.new) }
        ensures breaks { OnErr result (BreaksOff C.accepts O.saw receiver.old out.old
            receiver.new out.new) }
        ensures receiving { IsReceivingWhole C.accepts receiver.new }
        ensures waits { KeepsWaits self.old self.new }
    {
        while let Some(next) = self.order.next(time) {
            self.hand_on(alloc, receiver, flow, next, out)?;
        }
        Ok(())
    }

    /// A burst is handed on, if there is one.
    fn hand_on_if<C: HeaderCheck + Drop, O: CaptureConsumer>(
        &mut self,
        alloc: Global,
        receiver: &mut SelectedReceiver<C>,
        flow: usize,
        last: Option<HandedOn<SoundBurst>>,
        out: &mut O,
    ) -> Result<(), FlowFault>
        requires at_hand { IsAtHand C.accepts receiver.old }
        ensures takes { IfOk result (λ _. TakesBy C.accepts O.saw
            (λ made handed more. AreHandedOn made (wait_of self.old.held) flow self.old.window
            (option_to_list last) (beginning_seen self.old.beginning) (held_by self.old.held) handed
            more (beginning_seen self.new.beginning) (held_by self.new.held))
            receiver.old out.old receiver.new out.new) }
        ensures at_hand { IfOk result (λ _. IsAtHand C.accepts receiver.new) }
        ensures breaks { OnErr result (BreaksOff C.accepts O.saw receiver.old out.old
            receiver.new out.new) }
        ensures receiving { IsReceivingWhole C.accepts receiver.new }
        ensures waits { KeepsWaits self.old self.new }
        ensures order { self.new.order ≡ self.old.order }
    {
        match last {
            Some(one) => {
                self.hand_on(alloc, receiver, flow, one, out)?;
                Ok(())
            }
            None => Ok(()),
        }
    }

    /// A burst comes: what is due is handed on, and then it waits.
    pub(crate) fn come<C: HeaderCheck + Drop, O: CaptureConsumer>(
        &mut self,
        alloc: Global,
        receiver: &mut SelectedReceiver<C>,
        flow: usize,
        one: Arrival<SoundBurst>,
        out: &mut O,
    ) -> Result<(), FlowFault>
        requires at_hand { IsAtHand C.accepts receiver.old }
        ensures takes { IfOk result (λ _. TakesBy C.accepts O.saw
            (λ made handed more. Comes made (wait_of self.old.held) flow
            one (flow_seen self.old) handed more (flow_seen self.new))
            receiver.old out.old receiver.new out.new) }
        ensures at_hand { IfOk result (λ _. IsAtHand C.accepts receiver.new) }
        ensures breaks { OnErr result (BreaksOff C.accepts O.saw receiver.old out.old
            receiver.new out.new) }
        ensures receiving { IsReceivingWhole C.accepts receiver.new }
        ensures waits { KeepsWaits self.old self.new }
    {
        self.pass_on(alloc, receiver, flow, one.time, out)?;
        let last = self.order.push(one)?;
        self.hand_on_if(alloc, receiver, flow, last, out)?;
        Ok(())
    }

    /// Nothing more comes: all that waits is handed on, and a beginning ends.
    pub(crate) fn end_waiting<C: HeaderCheck + Drop, O: CaptureConsumer>(
        &mut self,
        alloc: Global,
        receiver: &mut SelectedReceiver<C>,
        flow: usize,
        out: &mut O,
    ) -> Result<(), FlowFault>
        requires at_hand { IsAtHand C.accepts receiver.old }
        ensures takes { IfOk result (λ _. TakesBy C.accepts O.saw
            (λ made handed more. EndsWaiting made (wait_of self.old.held) flow
            (flow_seen self.old) handed more (flow_seen self.new))
            receiver.old out.old receiver.new out.new) }
        ensures at_hand { IfOk result (λ _. IsAtHand C.accepts receiver.new) }
        ensures breaks { OnErr result (BreaksOff C.accepts O.saw receiver.old out.old
            receiver.new out.new) }
        ensures receiving { IsReceivingWhole C.accepts receiver.new }
        ensures waits { KeepsWaits self.old self.new }
    {
        while let Some(next) = self.order.next_left() {
            self.hand_on(alloc, receiver, flow, next, out)?;
        }
        let begun = self.beginning.end(alloc);
        begin_if(alloc, receiver, flow, &mut self.held, begun, out)?;
        Ok(())
    }
}
