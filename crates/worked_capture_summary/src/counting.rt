//! What is counted, one after another.
use capture::Passed;
use capture_summary::{
    CaptureSummary, ChannelSummary, FlowSummary, FrameSequence, PassedCounts, PassedReason,
    RefusalCounts, both_counts,
};
use flow_core::FlowCounts;
use lane::Refusal;
use std::test::Fail;

#[test]
fn frames_are_counted_by_what_is_known_of_them(rt: HostRuntime) -> Result<(), Fail> {
    let mut flow = FlowSummary::new(100);
    assert!(rt; flow.sfid == 100 && flow.is_quiet());
    for (sequence, count) in [
        (FrameSequence::Right, 3),
        (FrameSequence::Wrong, 2),
        (FrameSequence::Encrypted, 1),
        (FrameSequence::NotThere, 4),
    ] {
        for _ in 0..count {
            flow.count_frame(sequence);
        }
    }
    assert!(rt; (flow.right, flow.wrong, flow.encrypted) == (3, 2, 1));
    assert!(rt; flow.counts == FlowCounts::none() && !flow.is_quiet());
    Ok(())
}

#[test]
fn requests_and_restarts_are_counted(rt: HostRuntime) -> Result<(), Fail> {
    let mut flow = FlowSummary::new(7);
    flow.count_request(9);
    flow.count_request(65_535);
    flow.count_restart();
    assert!(rt; (flow.requests, flow.units, flow.restarts) == (2, 65_544, 1));
    flow.units = u64::MAX - 1;
    flow.count_request(5);
    assert!(rt; (flow.requests, flow.units) == (3, u64::MAX));
    Ok(())
}

#[test]
fn one_count_is_enough_to_be_heard_of(rt: HostRuntime) -> Result<(), Fail> {
    let mut flow = FlowSummary::new(0);
    flow.counts.beyond = 1;
    assert!(rt; !flow.is_quiet());
    Ok(())
}

#[test]
fn counts_of_two_parts_are_added(rt: HostRuntime) -> Result<(), Fail> {
    let one = FlowCounts {
        kept: 1,
        late: 2,
        repeat: 3,
        beyond: 4,
        lost: 5,
        frames: 6,
        skipped: u64::MAX - 7,
    };
    let both = both_counts(one, one);
    assert!(rt; (both.kept, both.late, both.repeat, both.beyond) == (2, 4, 6, 8));
    assert!(rt; (both.lost, both.frames, both.skipped) == (10, 12, u64::MAX));
    assert!(rt; both_counts(one, FlowCounts::none()) == one);
    Ok(())
}

#[test]
fn each_refusal_has_a_count(rt: HostRuntime) -> Result<(), Fail> {
    let mut refused = RefusalCounts::none();
    assert!(rt; refused.is_empty());
    for _ in 0..3 {
        refused.count(Refusal::BadCheck);
    }
    refused.count(Refusal::GrantRange);
    refused.count(Refusal::BurstOutOfMemory);
    assert!(rt; !refused.is_empty());
    for (refusal, count) in [
        (Refusal::GrantRange, 1),
        (Refusal::TooLong, 0),
        (Refusal::BadCheck, 3),
        (Refusal::TooShort, 0),
        (Refusal::BurstOutOfMemory, 1),
    ] {
        assert!(rt; refused.of(refusal) == count);
    }
    Ok(())
}

#[test]
fn bursts_above_their_grants_are_bursts(rt: HostRuntime) -> Result<(), Fail> {
    let mut channel = ChannelSummary::new(3, 17);
    channel.count_burst(false);
    channel.count_burst(true);
    assert!(rt; (channel.channel, channel.id) == (3, 17));
    assert!(rt; (channel.bursts, channel.above, channel.admitted) == (2, 1, 0));
    Ok(())
}

#[test]
fn each_reason_has_a_count(rt: HostRuntime) -> Result<(), Fail> {
    let mut passed = PassedCounts::none();
    for (place, reason) in [
        PassedReason::OtherLinkType,
        PassedReason::Packet(Passed::CutShort),
        PassedReason::Packet(Passed::OtherType),
        PassedReason::Packet(Passed::Malformed),
        PassedReason::Packet(Passed::NoSegmentHeader),
        PassedReason::Packet(Passed::NoChannelOrSid),
        PassedReason::UnknownChannel,
        PassedReason::UnknownSid,
    ]
    .iter()
    .enumerate()
    {
        for _ in 0..place {
            passed.count(*reason);
        }
        assert!(rt; passed.of(*reason) == place as u64);
    }
    assert!(rt; (passed.other_link_type, passed.cut_short, passed.unknown_sid) == (0, 1, 7));
    Ok(())
}

#[test]
fn records_with_earlier_times_are_records(rt: HostRuntime) -> Result<(), Fail> {
    let mut summary = CaptureSummary {
        flows: Vec::new(rt.alloc()),
        channels: Vec::new(rt.alloc()),
        passed: PassedCounts::none(),
        records: u64::MAX - 1,
        earlier: 0,
        set_back: 0,
        crowded: 0,
    };
    for is_earlier in [false, true, true] {
        summary.count_record(is_earlier);
    }
    assert!(rt; (summary.records, summary.earlier) == (u64::MAX, 2));
    Ok(())
}
