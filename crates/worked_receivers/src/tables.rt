//! Tables of flows on five channels.
ghost use Rattle.std.specs.Prelude.{IfOk};
ghost use Rattle.docsis_wire.specs.Ready.{IsReady};
ghost use Rattle.bonded_flows.specs.ByRule.{IsTakable};
ghost use Rattle.bonded_flows.specs.Table.{IsInUse};

use bonded_flows::{FlowDecision, FlowTable, SegmentVerdict, Told};
use consumer::Collected;
use docsis_wire::{HeaderCheck, NoCheck, Segment};
use flow_core::{FlowCounts, FlowRecord};
use lane::SidRow;
use loss_rule::LossRule;
use receiver::{Setup, Width};
use std::alloc::Global;
use std::process::Abort;
use std::test::Fail;

const fn record(sfid: u32, first: u16) -> FlowRecord {
    FlowRecord {
        sfid,
        first,
        window: 4,
        clusters: 1,
        ring: 1,
    }
}

const fn row(channel: u8, sid: u16, flow: usize) -> SidRow {
    SidRow { channel, sid, flow }
}

/// Two flows, the second on the channels 3 and 4, whose first numbers are 5 and 8190, of a receiver
/// with five channels.
fn table(alloc: Global, rule: LossRule) -> Result<FlowTable<NoCheck>, Fail>
    ensures { IfOk result (λ table. IsInUse ⟦<NoCheck as HeaderCheck>⟧.accepts table) }
{
    let width = Width::new(5, 2)?;
    let setup = Setup {
        flows: Vec::from_slice(alloc, &[record(7, 5), record(8, 8190)])?,
        sids: Vec::from_slice(alloc, &[row(0, 1, 0), row(3, 1, 1), row(4, 1, 1)])?,
        mailbox: 1,
    };
    setup.check_within(alloc, width)?;
    let channels = width.channels();
    Ok(FlowTable::new(alloc, rule, &setup.flows, channels, &setup.sids, NoCheck)?)
}

/// A segment with this number, whose payload is one frame that ends with its low byte.
fn segment(alloc: Global, number: u16) -> Result<Segment, Fail>
    ensures { IfOk result IsReady }
{
    let [high, low] = (number % 8192 * 8).to_be_bytes();
    let payload = [0, 0, 0, 2, 0x22, 0x22, 0xaa, (number % 256) as u8];
    let mut bytes = vec![in alloc; 0x80, 0, high, low, 0, 0, 0, 0]?;
    bytes.extend_from_slice(&payload)?;
    Ok(Segment::read(alloc, &bytes)?)
}

/// A segment with this number comes to a flow on a channel.
fn take<C: HeaderCheck + Drop>(
    alloc: Global,
    table: &mut FlowTable<C>,
    at: (usize, usize),
    number: u16,
    out: &mut Collected,
) -> Result<Told, Fail>
    requires { IsInUse C.accepts table.old }
    ensures { IsInUse C.accepts table.new }
{
    let (flow, channel) = at;
    let segment = segment(alloc, number)?;
    if flow >= table.flow_count() {
        return Err(Fail::new(format_args!("no flow {flow}")));
    }
    table.prepare(alloc, flow, out)?;
    if flow >= table.flow_count() {
        return Err(Fail::new(format_args!("no flow {flow}")));
    }
    Ok(table.take_segment(alloc, flow, channel, segment, out)?)
}

/// How a flow stands: its expected number, how many segments are held, and how many were kept.
fn stands<C: HeaderCheck + Drop>(table: &FlowTable<C>, flow: usize) -> Option<(u16, usize, u64)>
    requires { IsInUse C.accepts table.now }
{
    if flow >= table.flow_count() {
        return None;
    }
    let expected = table.expected(flow);
    Some((expected, table.held(flow), table.counts(flow).kept))
}

/// A decision about a flow.
fn decide<C: HeaderCheck + Drop>(
    alloc: Global,
    table: &mut FlowTable<C>,
    flow: usize,
    decision: FlowDecision,
    out: &mut Collected,
) -> Result<bool, Fail>
    requires in_use { IsInUse C.accepts table.old }
    requires takable { IsTakable decision }
    ensures { IsInUse C.accepts table.new }
{
    if flow >= table.flow_count() {
        return Err(Fail::new(format_args!("no flow {flow}")));
    }
    Ok(table.decide(alloc, flow, decision, out)?)
}

/// A flow begins anew at this number.
fn restart<C: HeaderCheck + Drop>(
    alloc: Global,
    table: &mut FlowTable<C>,
    flow: usize,
    first: u16,
    out: &mut Collected,
) -> Result<FlowCounts, Fail>
    requires in_use { IsInUse C.accepts table.old }
    ensures { IsInUse C.accepts table.new }
{
    if flow >= table.flow_count() {
        return Err(Fail::new(format_args!("no flow {flow}")));
    }
    Ok(table.restart(alloc, flow, first % 8192, out)?)
}

/// Compares the last byte of each frame that was given of a flow.
fn expect_given(rt: &impl Abort, out: &Collected, flow: usize, expected: &[u8]) {
    assert!(rt; out.whole);
    let Some(frames) = out.frames.get(flow) else {
        assert!(rt; expected.is_empty());
        return;
    };
    assert!(rt; frames.len() == expected.len());
    for (index, byte) in expected.iter().enumerate() {
        assert!(rt; frames.get(index).and_then(|frame| frame.last()) == Some(byte));
    }
}

const KEPT: Told = Told {
    skipped_to: None,
    verdict: SegmentVerdict::Kept,
};

#[test]
fn flow_is_begun_by_its_first_segment(rt: HostRuntime) -> Result<(), Fail> {
    let alloc = rt.alloc();
    let mut out = Collected::new(alloc, 2, 0)?;
    let mut table = table(alloc, LossRule::Passed)?;
    assert!(rt; !decide(alloc, &mut table, 1, FlowDecision::Gap, &mut out)?);
    assert!(rt; !decide(alloc, &mut table, 1, FlowDecision::GapTo(3), &mut out)?);
    assert!(rt; stands(&table, 1) == Some((8190, 0, 0)));
    assert!(rt; take(alloc, &mut table, (1, 3), 8190, &mut out)? == KEPT);
    assert!(rt; stands(&table, 1) == Some((8191, 0, 1)));
    assert!(rt; stands(&table, 0) == Some((5, 0, 0)));
    expect_given(&rt, &out, 1, &[254]);
    expect_given(&rt, &out, 0, &[]);
    Ok(())
}

#[test]
fn skip_begins_a_flow(rt: HostRuntime) -> Result<(), Fail> {
    let alloc = rt.alloc();
    let mut out = Collected::new(alloc, 2, 0)?;
    let mut table = table(alloc, LossRule::Decided)?;
    assert!(rt; decide(alloc, &mut table, 1, FlowDecision::SkipTo(2), &mut out)?);
    assert!(rt; stands(&table, 1) == Some((2, 0, 0)));
    assert!(rt; take(alloc, &mut table, (1, 4), 2, &mut out)? == KEPT);
    expect_given(&rt, &out, 1, &[2]);
    Ok(())
}

/// What the channels 3 and 4 have passed is skipped: channel 0 isn't the flow's.
#[test]
fn rule_goes_by_the_channels_of_the_flow(rt: HostRuntime) -> Result<(), Fail> {
    let alloc = rt.alloc();
    let mut out = Collected::new(alloc, 2, 0)?;
    let mut table = table(alloc, LossRule::Passed)?;
    assert!(rt; take(alloc, &mut table, (1, 3), 8191, &mut out)? == KEPT);
    let told = take(alloc, &mut table, (1, 4), 0, &mut out)?;
    assert!(rt; (told.skipped_to, told.verdict) == (Some(8191), SegmentVerdict::Kept));
    assert!(rt; stands(&table, 1) == Some((1, 0, 2)));
    expect_given(&rt, &out, 1, &[255, 0]);
    Ok(())
}

#[test]
fn restart_gives_what_was_held_and_begins_anew(rt: HostRuntime) -> Result<(), Fail> {
    let alloc = rt.alloc();
    let mut out = Collected::new(alloc, 2, 0)?;
    let mut table = table(alloc, LossRule::Decided)?;
    assert!(rt; take(alloc, &mut table, (1, 3), 0, &mut out)? == KEPT);
    assert!(rt; stands(&table, 1) == Some((8190, 1, 1)));
    let counts = restart(alloc, &mut table, 1, 300, &mut out)?;
    assert!(rt; (counts.kept, counts.lost, counts.frames) == (1, 2, 1));
    assert!(rt; stands(&table, 1) == Some((300, 0, 0)));
    assert!(rt; take(alloc, &mut table, (1, 3), 300, &mut out)? == KEPT);
    expect_given(&rt, &out, 1, &[0, 44]);
    let counts = restart(alloc, &mut table, 0, 0, &mut out)?;
    assert!(rt; counts.kept == 0);
    Ok(())
}
