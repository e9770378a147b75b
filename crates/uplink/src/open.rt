//! What a receiver needs before its workers start.
ghost use Rattle.std.specs.Prelude.{◌≡◌, ◌==◌, ◌%◌, ◌≤◌, ◌<◌, [], ℕ, IfOk, IfSome, is_some, length};
ghost use Rattle.flow_records.specs.Setup.{CanBeSetUpWithin};
ghost use Rattle.lane.specs.Limits.{most_channels};
ghost use Rattle.lane.specs.Rows.{CanBeOpenedWithin};
ghost use Rattle.lane.specs.Stands.{StandsFor};
ghost use Rattle.receiver.specs.Items.{lane_setup};
ghost use Rattle.uplink.specs.Inside.Running.{AreOpenLanesOf, AreOpenLanes, IsOpened};

use bonded_flows::FlowTable;
use delivery::ClosedFeeder;
use docsis_wire::HeaderCheck;
use lane::{Lane, Request};
use loss_rule::LossRule;
use receiver::Setup;
use std::alloc::{AllocError, Global};
use workers::{Item, Lanes, OpenMailbox, Rings, Signals, both_made, open_mailbox, open_rings};

/// How many sources there are.
pub const SOURCES: u8 = 4;

/// What a receiver needs before its workers start. `closed` has room for a closed feeder of each
/// flow.
#[derive(Drop)]
pub struct Opened<C> {
    /// How many channels there are.
    pub channels: u8,
    pub signals: Signals,
    pub lanes: Lanes,
    pub flows: FlowTable<C>,
    pub rings: Rings,
    pub closed: Vec<ClosedFeeder>,
    pub arrivals: OpenMailbox<Item>,
    pub requests: OpenMailbox<Request>,
}

/// Opens all that a receiver of so many channels needs that decides by this rule which segments are
/// lost, for a setup without a fault and a capacity above 0.
pub fn open_all<C: HeaderCheck + Drop>(
    alloc: Global,
    channels: u8,
    rule: LossRule,
    setup: &Setup,
    check: C,
) -> Result<Opened<C>, AllocError>
    requires records { (limit : ℕ) × CanBeSetUpWithin limit setup.now.flows.items }
    requires channels { channels ≤ most_channels }
    requires rows { CanBeOpenedWithin channels setup.now.sids.items
        (length setup.now.flows.items) }
    ensures { IfOk result (IsOpened C.accepts (C.accepts check) channels rule setup.now) }
{
    let lanes = open_lanes(alloc, channels, setup);
    let flows = FlowTable::new(alloc, rule, &setup.flows, channels, &setup.sids, check);
    let rings = open_rings(alloc, &setup.flows);
    let closed = Vec::with_capacity(alloc, setup.flows.len());
    let arrivals = open_mailbox(alloc, setup.mailbox);
    let requests = open_mailbox(alloc, setup.mailbox);
    let signals = Signals::new(alloc);
    let before = both_made(signals, both_made(lanes, flows));
    let between = both_made(rings, closed);
    let mailboxes = both_made(arrivals, requests);
    let all = both_made(before, both_made(between, mailboxes))?;
    let ((signals, (lanes, flows)), ((rings, closed), (arrivals, requests))) = all;
    Ok(Opened {
        channels,
        signals,
        lanes,
        flows,
        rings,
        closed,
        arrivals,
        requests,
    })
}

/// The lanes of the four sources, with nothing outstanding.
fn open_lanes(alloc: Global, channels: u8, setup: &Setup) -> Result<Lanes, AllocError>
    requires { CanBeOpenedWithin channels setup.now.sids.items (length setup.now.flows.items) }
    ensures { IfOk result (AreOpenLanes channels setup.now) }
{
    let l0 = open_lanes_of(alloc, channels, 0, setup);
    let l1 = open_lanes_of(alloc, channels, 1, setup);
    let l2 = open_lanes_of(alloc, channels, 2, setup);
    let l3 = open_lanes_of(alloc, channels, 3, setup);
    let ((l0, l1), (l2, l3)) = both_made(both_made(l0, l1), both_made(l2, l3))?;
    Ok(Lanes { l0, l1, l2, l3 })
}

/// The lanes of a source, each by the number of its channel.
fn open_lanes_of(
    alloc: Global,
    channels: u8,
    source: u8,
    setup: &Setup,
) -> Result<Vec<Option<Lane>>, AllocError>
    requires { CanBeOpenedWithin channels setup.now.sids.items (length setup.now.flows.items) }
    ensures { IfOk result (λ lanes. AreOpenLanesOf channels source setup.now lanes.items) }
{
    let mut lanes = Vec::with_capacity(alloc, usize::from(channels))?;
    for channel in 0..channels {
        lanes.push(open_lane(alloc, channels, source, channel, setup)?)?;
    }
    Ok(lanes)
}

/// The lane of a channel, if it belongs to this source.
fn open_lane(
    alloc: Global,
    channels: u8,
    source: u8,
    channel: u8,
    setup: &Setup,
) -> Result<Option<Lane>, AllocError>
    requires { CanBeOpenedWithin channels setup.now.sids.items (length setup.now.flows.items) }
    ensures own { IfOk result (λ lane. is_some lane ≡ (channel % 4 == source)) }
    ensures stands { IfOk result (λ lane. IfSome lane
        (λ one. StandsFor (lane_setup setup.now channel) one [])) }
{
    if channel % SOURCES != source {
        return Ok(None);
    }
    let lane = Lane::open_within(alloc, channels, channel, &setup.sids, &setup.flows)?;
    Ok(Some(lane))
}
