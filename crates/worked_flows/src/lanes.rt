//! Grants and bursts that were worked out by hand, one after another.
mod failed_allocations;
mod owned;
mod width;

use docsis_wire::{Bytes, Segment};
use flow_core::FlowRecord;
use lane::{Admitted, Input, Lane, LaneFault, Refusal, Request, SidRow};
use std::alloc::{AllocError, Global};
use std::process::Abort;
use std::test::Fail;

const RECORD: FlowRecord = FlowRecord {
    sfid: 0,
    first: 0,
    window: 16,
    clusters: 2,
    ring: 1,
};

const ROW: SidRow = SidRow {
    channel: 0,
    sid: 1,
    flow: 0,
};

/// What is answered to an input: a grant is accepted, a burst is admitted with this request, or a
/// refusal's number.
#[derive(Clone, Copy, Debug, PartialEq, Eq)]
enum Answer {
    Accepted,
    Admitted(Option<Request>),
    Refused(u8),
}

fn answer_of(answer: Result<Option<Admitted>, Refusal>) -> Answer {
    match answer {
        Ok(None) => Answer::Accepted,
        Ok(Some(admitted)) => Answer::Admitted(admitted.request),
        Err(refusal) => Answer::Refused(refusal.number()),
    }
}

fn grant(number: u32, sid: u16, bytes: u32) -> Input {
    Input::Grant { number, sid, bytes }
}

fn burst(alloc: Global, grant: u32, hcs_ok: bool, bytes: &[u8]) -> Result<Input, AllocError> {
    let bytes = Bytes::from(Vec::from_slice(alloc, bytes)?);
    Ok(Input::Burst {
        grant,
        hcs_ok,
        bytes,
    })
}

/// Takes inputs one after another, and compares the answers.
fn expect_answers(
    rt: &impl Abort,
    alloc: Global,
    lane: &mut Lane,
    cases: &[(&str, Input, Answer)],
) {
    for (name, input, expected) in cases {
        assert!(rt; answer_of(lane.take(alloc, input)) == *expected, "{name}");
    }
}

#[test]
fn answers_grants(rt: HostRuntime) -> Result<(), Fail> {
    let mut lane = Lane::new(rt.alloc(), 0, &[ROW], &[RECORD])?;
    let cases: [(&str, Input, Answer); 6] = [
        ("seven bytes", grant(5, 1, 7), Answer::Refused(1)),
        ("65,536 bytes", grant(5, 1, 65_536), Answer::Refused(1)),
        (
            "a service identifier without a row",
            grant(5, 2, 8),
            Answer::Refused(3),
        ),
        ("the fewest bytes", grant(6, 1, 8), Answer::Accepted),
        ("the same number again", grant(6, 1, 8), Answer::Refused(2)),
        ("the most bytes", grant(7, 1, 65_535), Answer::Accepted),
    ];
    expect_answers(&rt, rt.alloc(), &mut lane, &cases);
    Ok(())
}

struct BurstCase {
    name: &'static str,
    granted: u32,
    hcs_ok: bool,
    bytes: &'static [u8],
    answer: Answer,
}

const BURSTS: [BurstCase; 8] = [
    BurstCase {
        name: "a header alone",
        granted: 8,
        hcs_ok: true,
        bytes: &[0; 8],
        answer: Answer::Admitted(None),
    },
    BurstCase {
        name: "too long",
        granted: 8,
        hcs_ok: true,
        bytes: &[0; 9],
        answer: Answer::Refused(7),
    },
    BurstCase {
        name: "too long with a bad check",
        granted: 8,
        hcs_ok: false,
        bytes: &[0; 9],
        answer: Answer::Refused(7),
    },
    BurstCase {
        name: "nothing received",
        granted: 8,
        hcs_ok: false,
        bytes: &[],
        answer: Answer::Refused(8),
    },
    BurstCase {
        name: "too short",
        granted: 8,
        hcs_ok: true,
        bytes: &[0; 7],
        answer: Answer::Refused(9),
    },
    BurstCase {
        name: "a pointer past the payload",
        granted: 13,
        hcs_ok: true,
        bytes: &[0x80, 5, 0, 0, 0, 0, 0, 0, 0, 0, 0, 2, 0x11],
        answer: Answer::Refused(10),
    },
    BurstCase {
        name: "a request",
        granted: 8,
        hcs_ok: true,
        bytes: &[0, 0, 0, 9, 0, 7, 0, 0],
        answer: Answer::Admitted(Some(Request {
            channel: 0,
            flow: 0,
            cluster: 1,
            units: 7,
            sequence: 1,
        })),
    },
    BurstCase {
        name: "a request for a cluster that the flow doesn't have",
        granted: 8,
        hcs_ok: true,
        bytes: &[0, 0, 0, 0x12, 0, 9, 0, 0],
        answer: Answer::Admitted(None),
    },
];

/// Each burst comes in a grant of its own, which is then spent: a second burst is refused, and the
/// number is free again.
#[test]
fn answers_bursts(rt: HostRuntime) -> Result<(), Fail> {
    let mut lane = Lane::new(rt.alloc(), 0, &[ROW], &[RECORD])?;
    let early = burst(rt.alloc(), 9, true, &[0; 8])?;
    assert!(rt; answer_of(lane.take(rt.alloc(), &early)) == Answer::Refused(6));
    for case in &BURSTS {
        let name = case.name;
        let granted = grant(9, 1, case.granted);
        let received = burst(rt.alloc(), 9, case.hcs_ok, case.bytes)?;
        assert!(rt;
            answer_of(lane.take(rt.alloc(), &granted)) == Answer::Accepted,
            "{name}"
        );
        assert!(rt;
            answer_of(lane.take(rt.alloc(), &received)) == case.answer,
            "{name}"
        );
        assert!(rt;
            answer_of(lane.take(rt.alloc(), &received)) == Answer::Refused(6),
            "{name}"
        );
    }
    Ok(())
}

#[test]
fn admits_the_segment(rt: HostRuntime) -> Result<(), Fail> {
    let bytes = [0x80, 2, 0, 8, 0, 0, 0, 0, 0x11, 0x22, 0x33];
    let mut lane = Lane::new(rt.alloc(), 0, &[ROW], &[RECORD])?;
    lane.take(rt.alloc(), &grant(1, 1, 100))?;
    let received = burst(rt.alloc(), 1, true, &bytes)?;
    let admitted = lane.take(rt.alloc(), &received)?.ok_or("nothing admitted")?;
    let segment = Segment::read(rt.alloc(), &bytes)?;
    assert!(rt; admitted.flow == 0);
    assert!(rt; admitted.segment.head == segment.head);
    assert!(rt; admitted.segment.payload.as_slice() == segment.payload.as_slice());
    Ok(())
}

#[test]
fn refuses_a_grant_too_many(rt: HostRuntime) -> Result<(), Fail> {
    let mut lane = Lane::new(rt.alloc(), 0, &[ROW], &[RECORD])?;
    for number in 0..65_536 {
        lane.take(rt.alloc(), &grant(number, 1, 8))?;
    }
    let many = lane.take(rt.alloc(), &grant(65_536, 1, 8));
    assert!(rt; answer_of(many) == Answer::Refused(4));
    Ok(())
}

#[test]
fn reports_faults_of_rows(rt: HostRuntime) -> Result<(), Fail> {
    let far = SidRow { sid: 16_384, ..ROW };
    let fifth = SidRow { channel: 4, ..ROW };
    let unknown = SidRow { flow: 1, ..ROW };
    let other = SidRow { channel: 3, ..ROW };
    let cases: [(&str, &[SidRow], Option<LaneFault>); 8] = [
        ("no rows", &[], None),
        ("one identifier on two channels", &[ROW, other], None),
        (
            "an identifier of fifteen bits",
            &[far],
            Some(LaneFault::SidRange(0)),
        ),
        (
            "a fifth channel",
            &[ROW, fifth],
            Some(LaneFault::SidRange(1)),
        ),
        ("one row twice", &[ROW, ROW], Some(LaneFault::SameSid(1))),
        (
            "a flow without a record",
            &[unknown],
            Some(LaneFault::UnknownFlow(0)),
        ),
        (
            "a range before a repeat",
            &[ROW, ROW, far],
            Some(LaneFault::SidRange(2)),
        ),
        (
            "a repeat before a flow",
            &[unknown, unknown],
            Some(LaneFault::SameSid(1)),
        ),
    ];
    for (name, rows, fault) in cases {
        let answer = Lane::new(rt.alloc(), 0, rows, &[RECORD]);
        assert!(rt; answer.err() == fault, "{name}");
    }
    Ok(())
}

/// A lane uses the rows of its own channel, and its requests name that channel.
#[test]
fn answers_on_the_last_channel(rt: HostRuntime) -> Result<(), Fail> {
    let first = SidRow {
        channel: 3,
        sid: 2,
        ..ROW
    };
    let second = SidRow {
        channel: 3,
        sid: 16_383,
        flow: 1,
    };
    let record = FlowRecord {
        sfid: 1,
        clusters: 8,
        ..RECORD
    };
    let mut lane = Lane::new(rt.alloc(), 3, &[ROW, first, second], &[RECORD, record])?;
    let request = Request {
        channel: 3,
        flow: 1,
        cluster: 7,
        units: 65_535,
        sequence: 8191,
    };
    let last: [u8; 8] = [0, 0, 0xff, 0xff, 0xff, 0xff, 0, 0];
    let cases: [(&str, Input, Answer); 6] = [
        (
            "an identifier of channel 0",
            grant(1, 1, 8),
            Answer::Refused(3),
        ),
        ("the first flow", grant(1, 2, 8), Answer::Accepted),
        ("the second flow", grant(2, 16_383, 8), Answer::Accepted),
        (
            "a request of the second flow",
            burst(rt.alloc(), 2, true, &last)?,
            Answer::Admitted(Some(request)),
        ),
        (
            "a cluster that the first flow doesn't have",
            burst(rt.alloc(), 1, true, &last)?,
            Answer::Admitted(None),
        ),
        (
            "a spent grant",
            burst(rt.alloc(), 1, true, &last)?,
            Answer::Refused(6),
        ),
    ];
    expect_answers(&rt, rt.alloc(), &mut lane, &cases);
    Ok(())
}
