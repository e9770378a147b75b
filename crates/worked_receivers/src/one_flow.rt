//! Flows of two channels that were worked out by hand.
ghost use Rattle.std.specs.Prelude.{true, IfOk};
ghost use Rattle.bonded_flows.specs.Stands.{IsUnderWay, IsSettled};

use bonded_flows::{BondedFlow, FlowDecision, SegmentVerdict, Told};
use consumer::Collected;
use docsis_wire::{NoCheck, Segment};
use flow_core::FlowRecord;
use loss_rule::LossRule;
use std::alloc::Global;
use std::process::Abort;
use std::test::Fail;

/// A flow of two channels, whose first number is 8190 and whose window has four.
fn new_flow(alloc: Global, rule: LossRule) -> Result<BondedFlow, Fail>
    ensures under_way { IfOk result (λ flow. IsUnderWay (λ _. true) flow) }
    ensures settled { IfOk result (λ flow. IsSettled flow) }
{
    let flow_record = FlowRecord {
        sfid: 1,
        first: 8190,
        window: 4,
        clusters: 1,
        ring: 1,
    };
    Ok(BondedFlow::new(alloc, 0, rule, &flow_record, &[true, true])?)
}

/// A segment with this number comes on a channel. Its payload is one frame, which names it.
fn take(
    alloc: Global,
    flow: &mut BondedFlow,
    channel: usize,
    number: u16,
    out: &mut Collected,
) -> Result<Told, Fail>
    requires under_way { IsUnderWay (λ _. true) flow.old }
    requires settled { IsSettled flow.old }
    ensures under_way { IfOk result (λ _. IsUnderWay (λ _. true) flow.new) }
    ensures settled { IfOk result (λ _. IsSettled flow.new) }
{
    let [high, low] = (number % 8192 * 8).to_be_bytes();
    let payload = [0, 0, 0, 2, 0x22, 0x22, (number % 256) as u8, 0xbb];
    let mut bytes = vec![in alloc; 0x80, 0, high, low, 0, 0, 0, 0]?;
    for byte in payload {
        bytes.push(byte)?;
    }
    let segment = Segment::read(alloc, &bytes)?;
    Ok(flow.take_segment(alloc, &NoCheck, channel, segment, out)?)
}

/// What is told of a segment that is kept, before which nothing is skipped.
const KEPT: Told = Told {
    skipped_to: None,
    verdict: SegmentVerdict::Kept,
};

/// Compares the seventh byte of each frame that was given.
fn expect_given(rt: &impl Abort, out: &Collected, expected: &[u8]) {
    assert!(rt; out.whole);
    let Some(frames) = out.frames.first() else {
        assert!(rt; expected.is_empty());
        return;
    };
    assert!(rt; frames.len() == expected.len());
    for (index, byte) in expected.iter().enumerate() {
        assert!(rt; frames.get(index).and_then(|frame| frame.get(6)) == Some(byte));
    }
}

#[test]
fn skips_what_both_channels_have_passed(rt: HostRuntime) -> Result<(), Fail> {
    let alloc = rt.alloc();
    let mut out = Collected::new(alloc, 1, 0)?;
    let mut flow = new_flow(alloc, LossRule::Passed)?;
    assert!(rt; take(alloc, &mut flow, 0, 8190, &mut out)? == KEPT);
    assert!(rt; take(alloc, &mut flow, 1, 0, &mut out)? == KEPT);
    assert!(rt; flow.expected() == 8191);
    assert!(rt; flow.held() == 1);
    let told = take(alloc, &mut flow, 0, 1, &mut out)?;
    assert!(rt;
        told == Told {
            skipped_to: Some(0),
            verdict: SegmentVerdict::Kept
        }
    );
    assert!(rt; flow.expected() == 2);
    assert!(rt; flow.held() == 0);
    assert!(rt; flow.counts().kept == 3);
    assert!(rt; flow.counts().lost == 1);
    expect_given(&rt, &out, &[254, 0, 1]);
    let late = take(alloc, &mut flow, 1, 8191, &mut out)?;
    assert!(rt;
        late == Told {
            skipped_to: None,
            verdict: SegmentVerdict::Late
        }
    );
    Ok(())
}

#[test]
fn slides_its_window_to_a_segment(rt: HostRuntime) -> Result<(), Fail> {
    let alloc = rt.alloc();
    let mut out = Collected::new(alloc, 1, 0)?;
    let mut flow = new_flow(alloc, LossRule::PassedOrSlid)?;
    assert!(rt; take(alloc, &mut flow, 0, 8191, &mut out)? == KEPT);
    let told = take(alloc, &mut flow, 0, 5, &mut out)?;
    assert!(rt;
        told == Told {
            skipped_to: Some(2),
            verdict: SegmentVerdict::Kept
        }
    );
    assert!(rt; flow.expected() == 2);
    assert!(rt; flow.held() == 1);
    let told = take(alloc, &mut flow, 1, 10, &mut out)?;
    assert!(rt;
        told == Told {
            skipped_to: Some(7),
            verdict: SegmentVerdict::Kept
        }
    );
    let repeat = take(alloc, &mut flow, 1, 10, &mut out)?;
    assert!(rt;
        repeat
            == Told {
                skipped_to: None,
                verdict: SegmentVerdict::Repeat
            }
    );
    expect_given(&rt, &out, &[255, 5]);
    flow.begin_close();
    let counts = flow.close(alloc, &NoCheck, &mut out)?;
    expect_given(&rt, &out, &[255, 5, 10]);
    assert!(rt; counts.kept == 3);
    assert!(rt; counts.lost == 10);
    assert!(rt; counts.repeat == 1);
    assert!(rt; counts.frames == 3);
    Ok(())
}

#[test]
fn loses_what_is_decided(rt: HostRuntime) -> Result<(), Fail> {
    let alloc = rt.alloc();
    let mut out = Collected::new(alloc, 1, 0)?;
    let mut flow = new_flow(alloc, LossRule::Decided)?;
    assert!(rt; take(alloc, &mut flow, 0, 0, &mut out)? == KEPT);
    assert!(rt; take(alloc, &mut flow, 1, 1, &mut out)? == KEPT);
    let beyond = take(alloc, &mut flow, 1, 2, &mut out)?;
    assert!(rt;
        beyond
            == Told {
                skipped_to: None,
                verdict: SegmentVerdict::Beyond
            }
    );
    assert!(rt; flow.decide(alloc, &NoCheck, FlowDecision::Gap, &mut out)?);
    assert!(rt; flow.expected() == 8191);
    assert!(rt; flow.held() == 2);
    assert!(rt; flow.decide(alloc, &NoCheck, FlowDecision::GapTo(0), &mut out)?);
    expect_given(&rt, &out, &[0, 1]);
    assert!(rt; !flow.decide(alloc, &NoCheck, FlowDecision::GapTo(5), &mut out)?);
    assert!(rt; flow.decide(alloc, &NoCheck, FlowDecision::SkipTo(5), &mut out)?);
    assert!(rt; flow.expected() == 5);
    assert!(rt; flow.counts().lost == 5);
    Ok(())
}
