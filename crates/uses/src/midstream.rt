//! A receiver that begins in the midst of a flow: what was sent before is given up.
ghost use Rattle.std.specs.Prelude.{◌≡◌, ◌<◌, ◌∷◌, [], ℕ, Bool, List, Err, IfOk, length, map};
ghost use Rattle.docsis_wire.specs.Limits.{sequence_modulus};
ghost use Rattle.flow_core.specs.declared.counts.FlowCounts.{FlowCounts};
ghost use Rattle.flow_records.specs.declared.event.Event.{Event};
ghost use Rattle.lane.specs.Limits.{channel_limit};
ghost use Rattle.bonded_flows.specs.Table.{IsInUse};
ghost use Rattle.receiver.specs.declared.setup.BadSetup.{BadSetup};
ghost use Rattle.receiver.specs.Faults.{IsBadSetup};
ghost use Rattle.receiver.specs.Ruled.{AreRuledOutcomes};
ghost use Rattle.uplink.specs.Inside.Collected.{AreFlowsOf};
ghost use Rattle.uses.specs.Midstream.{arrival, TakesAll, ClosesAll};

use bonded_flows::{FlowDecision, FlowTable};
use consumer::{Collected, Consumer, FrameList, laws};
use docsis_wire::{HeaderCheck, ReadySegment};
use flow_core::{FlowCounts, FlowRecord};
use loss_rule::LossRule;
use receiver::{BadSetup, FlowOutcome, Setup, Width};
use std::alloc::{AllocError, Global};

/// A segment, and the channel on which it comes, 0 to 3.
#[derive(Drop)]
pub struct OnChannel {
    pub channel: u8,
    pub segment: ReadySegment,
}

/// Why nothing is received.
#[derive(Clone, Copy, Debug, PartialEq, Eq)]
pub enum MidstreamFault {
    /// The setup can't be used.
    Setup(BadSetup),
    /// An allocation failed.
    OutOfMemory,
}

impl From<AllocError> for MidstreamFault {
    ghost use Rattle.std.specs.Prelude.{◌≡◌};
    ghost use Rattle.uses.specs.declared.midstream.MidstreamFault.TheVariants.{OutOfMemory};

    ghost from_gives = { λ _ fault. fault ≡ OutOfMemory };

    fn from(_: AllocError) -> MidstreamFault {
        MidstreamFault::OutOfMemory
    }
}

/// Gives up all of a flow that lies before this number, the first that was heard of it, if that
/// lies ahead of the flow's first number by less than 4,096; then takes the flow's segments that
/// come, and answers what each flow gave; or the setup's first fault, or that an allocation failed.
/// The skip comes as a decision does, from the sender behind the channels.
pub fn receive_from<C: HeaderCheck + Drop>(
    alloc: Global,
    rule: LossRule,
    setup: &Setup,
    flow: usize,
    number: u16,
    came: Vec<OnChannel>,
    check: C,
) -> Result<Vec<FlowOutcome>, MidstreamFault>
    requires exists { flow < length setup.now.flows.items }
    requires number { number < sequence_modulus }
    ensures gives { IfOk result (λ flows. AreRuledOutcomes rule (C.accepts check) setup.now
        (channel_limit ∷ map (λ one. one.channel) came.items)
        (Event.SkipTo flow number
        ∷ map (λ one. Event.Arrive flow one.segment.segment) came.items) flows.items) }
    ensures fault { (bad : BadSetup) → result ≡ Err (MidstreamFault.Setup bad)
        → IsBadSetup setup.now bad }
{
    laws::consumers_begin_with_nothing_given();
    laws::collected_has_what_was_given();
    if let Err(bad) = setup.check() {
        return Err(MidstreamFault::Setup(bad));
    }
    let channels = Width::PROFILE.channels();
    let mut flows = FlowTable::new(alloc, rule, &setup.flows, channels, &setup.sids, check)?;
    let mut given = Collected::new(alloc, setup.flows.len(), 0)?;
    let skip = FlowDecision::SkipTo(number);
    if flows.decide(alloc, flow, skip, &mut given).is_err() {
        return Err(MidstreamFault::OutOfMemory);
    }
    take_all(&mut flows, alloc, flow, came, &mut given)?;
    let counts = close_all(&mut flows, alloc, &mut given)?;
    if !given.whole {
        return Err(MidstreamFault::OutOfMemory);
    }
    Ok(outcomes_of(alloc, &setup.flows, given.frames, &counts)?)
}

/// Has a flow take these segments, one after another.
fn take_all<C: HeaderCheck + Drop, O: Consumer>(
    flows: &mut FlowTable<C>,
    alloc: Global,
    flow: usize,
    came: Vec<OnChannel>,
    out: &mut O,
) -> Result<(), AllocError>
    requires in_use { IsInUse C.accepts flows.old }
    requires exists { flow < length flows.old.slots.items }
    ensures takes { IfOk result (λ _. TakesAll O.after C.accepts flows.old out.old
        (map (arrival flow) came.items) flows.new out.new) }
    ensures in_use { IsInUse C.accepts flows.new }
{
    for one in came {
        take_one(flows, alloc, flow, one, out)?;
    }
    Ok(())
}

/// Has a flow take a segment.
fn take_one<C: HeaderCheck + Drop, O: Consumer>(
    flows: &mut FlowTable<C>,
    alloc: Global,
    flow: usize,
    one: OnChannel,
    out: &mut O,
) -> Result<(), AllocError>
    requires in_use { IsInUse C.accepts flows.old }
    requires exists { flow < length flows.old.slots.items }
    ensures takes { IfOk result (λ _. TakesAll O.after C.accepts flows.old out.old
        (arrival flow one ∷ []) flows.new out.new) }
    ensures flows { length flows.new.slots.items ≡ length flows.old.slots.items }
    ensures in_use { IsInUse C.accepts flows.new }
{
    let OnChannel { channel, segment } = one;
    let ReadySegment { segment } = segment;
    if flows.prepare(alloc, flow, out).is_err() {
        return Err(AllocError);
    }
    flows.take_segment(alloc, flow, usize::from(channel), segment, out)?;
    Ok(())
}

/// Closes all flows, in the order of their records, and answers what was counted of each.
fn close_all<C: HeaderCheck + Drop, O: Consumer>(
    flows: &mut FlowTable<C>,
    alloc: Global,
    out: &mut O,
) -> Result<Vec<FlowCounts>, AllocError>
    requires { IsInUse C.accepts flows.old }
    ensures { IfOk result (λ counts.
        ClosesAll O.after C.accepts flows.old out.old counts.items out.new) }
{
    let flow_count = flows.flow_count();
    let mut counts = Vec::with_capacity(alloc, flow_count)?;
    for flow in 0..flow_count {
        let counted = flows.restart(alloc, flow, 0, out)?;
        counts.push_reserved(counted);
    }
    Ok(counts)
}

/// What each flow gave, by its record: these frames and these counts.
fn outcomes_of(
    alloc: Global,
    records: &[FlowRecord],
    given: Vec<FrameList>,
    counts: &[FlowCounts],
) -> Result<Vec<FlowOutcome>, AllocError>
    requires frames { length given.items ≡ length records.now }
    requires counts { length counts.now ≡ length records.now }
    ensures { IfOk result (λ flows.
        AreFlowsOf records.now given.items counts.now flows.items) }
{
    let mut flows = Vec::with_capacity(alloc, records.len())?;
    for frames in given {
        let k = flows.len();
        flows.push_reserved(FlowOutcome {
            sfid: records[k].sfid,
            frames,
            counts: counts[k],
        });
    }
    Ok(flows)
}
