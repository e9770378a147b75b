//! What no clause says: that a replay by a rule gives what was worked out by hand where segments
//! are lost.
ghost use Rattle.std.specs.Prelude.{◌<◌};

mod failed_allocations;

use docsis_wire::{Bytes, NoCheck};
use flow_core::FlowRecord;
use lane::{Input, SidRow};
use loss_rule::LossRule;
use receiver::{Lists, Outcome, Setup, replay_by};
use std::alloc::{AllocError, Global};
use std::process::Abort;
use std::test::Fail;

/// A flow on the channels 0 and 1, and in some rows on channel 0 alone.
const FLOW: FlowRecord = FlowRecord {
    sfid: 100,
    first: 0,
    window: 4,
    clusters: 1,
    ring: 1,
};

/// A segment on channel 0 or 1.
#[derive(Clone, Copy)]
struct On(u8, u16);

/// How many segments were kept, came late, lay beyond the window and were lost, and how many frames
/// were given.
#[derive(Clone, Copy, Debug, PartialEq, Eq)]
struct Tally {
    kept: u64,
    late: u64,
    beyond: u64,
    lost: u64,
    frames: usize,
}

fn setup_of(alloc: Global, channels: u8) -> Result<Setup, AllocError> {
    let mut sids = Vec::new(alloc);
    for channel in 0..channels {
        sids.push(SidRow {
            channel,
            sid: 1,
            flow: 0,
        })?;
    }
    Ok(Setup {
        flows: Vec::from_slice(alloc, &[FLOW])?,
        sids,
        mailbox: 1,
    })
}

/// A segment with one whole frame in it.
fn segment_of(number: u16) -> [u8; 15]
    requires { number < 8192 }
{
    let [high, low] = (number << 3).to_be_bytes();
    [0x80, 0, high, low, 0, 0, 0, 0, 0, 0, 0, 1, 0x11, 0x11, low]
}

fn push_segment(alloc: Global, inputs: &mut Vec<Input>, number: u16) -> Result<(), AllocError>
    requires { number < 8192 }
{
    inputs.push(Input::Grant {
        number: 1,
        sid: 1,
        bytes: 15,
    })?;
    inputs.push(Input::Burst {
        grant: 1,
        hcs_ok: true,
        bytes: Bytes::from(Vec::from_slice(alloc, &segment_of(number))?),
    })?;
    Ok(())
}

fn lists_of(rt: &impl Abort, alloc: Global, segments: &[On]) -> Result<Lists, AllocError> {
    let (mut i0, mut i1) = (Vec::new(alloc), Vec::new(alloc));
    for On(channel, number) in segments {
        assert!(rt; *number < 8192);
        let inputs = if *channel == 0 { &mut i0 } else { &mut i1 };
        push_segment(alloc, inputs, *number)?;
    }
    Ok(Lists {
        inputs: [i0, i1, Vec::new(alloc), Vec::new(alloc)],
        decisions: Vec::new(alloc),
    })
}

/// The order in which they are listed.
fn order_of(alloc: Global, segments: &[On]) -> Result<Vec<u8>, AllocError> {
    segments
        .iter()
        .map(|On(channel, _)| *channel)
        .collect(alloc)
}

/// What came of these segments, in the order in which they are listed.
fn replayed(
    rt: &impl Abort,
    alloc: Global,
    rule: LossRule,
    channels: u8,
    segments: &[On],
) -> Result<Outcome, Fail> {
    let setup = setup_of(alloc, channels)?;
    let lists = lists_of(rt, alloc, segments)?;
    let order = order_of(alloc, segments)?;
    Ok(replay_by(rule, alloc, &setup, &lists, &order, NoCheck)?)
}

fn tally_of(rt: &impl Abort, outcome: &Outcome) -> Tally {
    assert!(rt; outcome.flows.len() == 1);
    let flow = &outcome.flows[0];
    Tally {
        kept: flow.counts.kept,
        late: flow.counts.late,
        beyond: flow.counts.beyond,
        lost: flow.counts.lost,
        frames: flow.frames.len(),
    }
}

/// Replays the same segments by each rule, and compares how many were kept, came late, lay beyond
/// the window and were lost, and how many frames were given.
fn expect_tallies(
    rt: &impl Abort,
    alloc: Global,
    channels: u8,
    segments: &[On],
    rows: [(LossRule, [u64; 5]); 3],
) -> Result<(), Fail> {
    for (rule, [kept, late, beyond, lost, frames]) in rows {
        let outcome = replayed(rt, alloc, rule, channels, segments)?;
        let wanted = Tally {
            kept,
            late,
            beyond,
            lost,
            frames: frames as usize,
        };
        assert!(rt; tally_of(rt, &outcome) == wanted, "{rule:?}");
    }
    Ok(())
}

#[test]
fn segment_comes_after_a_later_one_of_its_channel(rt: HostRuntime) -> Result<(), Fail> {
    let segments = [On(0, 0), On(0, 2), On(0, 1)];
    let rows = [
        (LossRule::Decided, [3, 0, 0, 0, 3]),
        (LossRule::Passed, [2, 1, 0, 1, 2]),
        (LossRule::PassedOrSlid, [2, 1, 0, 1, 2]),
    ];
    expect_tallies(&rt, rt.alloc(), 1, &segments, rows)
}

#[test]
fn outage_is_longer_than_the_window(rt: HostRuntime) -> Result<(), Fail> {
    let segments = [On(0, 0), On(0, 10), On(0, 11)];
    let rows = [
        (LossRule::Decided, [1, 0, 2, 0, 1]),
        (LossRule::Passed, [3, 0, 0, 9, 3]),
        (LossRule::PassedOrSlid, [3, 0, 0, 9, 3]),
    ];
    expect_tallies(&rt, rt.alloc(), 1, &segments, rows)
}

#[test]
fn another_channel_is_behind(rt: HostRuntime) -> Result<(), Fail> {
    let segments = [On(0, 0), On(0, 2), On(1, 1), On(1, 3)];
    let rows = [
        (LossRule::Decided, [4, 0, 0, 0, 4]),
        (LossRule::Passed, [4, 0, 0, 0, 4]),
        (LossRule::PassedOrSlid, [4, 0, 0, 0, 4]),
    ];
    expect_tallies(&rt, rt.alloc(), 2, &segments, rows)
}

#[test]
fn another_channel_is_silent(rt: HostRuntime) -> Result<(), Fail> {
    let segments = [On(0, 0), On(0, 2), On(0, 9), On(0, 10)];
    let rows = [
        (LossRule::Decided, [2, 0, 2, 1, 2]),
        (LossRule::Passed, [2, 0, 2, 1, 2]),
        (LossRule::PassedOrSlid, [4, 0, 0, 7, 4]),
    ];
    expect_tallies(&rt, rt.alloc(), 2, &segments, rows)
}
