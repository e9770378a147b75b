//! Inputs that are handed over, and lanes that are looked at before.
use super::{Answer, BURSTS, RECORD, ROW, answer_of, burst, grant};
use flow_core::FlowRecord;
use lane::{Admitted, Input, Lane, Refusal, SidRow};
use std::alloc::Global;
use std::test::Fail;

/// Opens a lane with one row, and accepts a grant of nine for so many bytes.
fn lane_with_grant(alloc: Global, granted: u32) -> Result<Lane, Fail> {
    let mut lane = Lane::new(alloc, 0, &[ROW], &[RECORD])?;
    let answer = lane.take_owned(grant(9, 1, granted))?;
    if answer_of(answer) != Answer::Accepted {
        return Err(Fail::new("the grant was refused"));
    }
    Ok(lane)
}

/// The flow of what was admitted, if something was.
fn flow_of(answer: &Result<Option<Admitted>, Refusal>) -> Option<usize> {
    match answer {
        Ok(Some(admitted)) => Some(admitted.flow),
        Ok(None) => None,
        Err(_) => None,
    }
}

/// A burst that is handed over is answered as one that is lent, by a lane that said before of which
/// flow it would be admitted. Its grant is spent then.
#[test]
fn answers_owned_bursts_alike(rt: HostRuntime) -> Result<(), Fail> {
    for case in &BURSTS {
        let name = case.name;
        let mut lane = lane_with_grant(rt.alloc(), case.granted)?;
        assert!(rt; lane.outstanding() == 1, "{name}");
        let received = burst(rt.alloc(), 9, case.hcs_ok, case.bytes)?;
        let seen = lane.look(&received);
        let answer = lane.take_owned(received)?;
        assert!(rt; seen == flow_of(&answer), "{name}");
        assert!(rt; answer_of(answer) == case.answer, "{name}");
        assert!(rt; lane.outstanding() == 0, "{name}");
        let again = burst(rt.alloc(), 9, case.hcs_ok, case.bytes)?;
        assert!(rt; lane.look(&again) == None, "{name}");
        assert!(rt;
            answer_of(lane.take_owned(again)?) == Answer::Refused(6),
            "{name}"
        );
    }
    Ok(())
}

#[test]
fn answers_owned_grants_alike(rt: HostRuntime) -> Result<(), Fail> {
    let mut lane = lane_with_grant(rt.alloc(), 8)?;
    let cases: [(&str, Input, Answer, usize); 5] = [
        ("seven bytes", grant(5, 1, 7), Answer::Refused(1), 1),
        ("a known number", grant(9, 1, 8), Answer::Refused(2), 1),
        (
            "an unknown identifier",
            grant(5, 2, 8),
            Answer::Refused(3),
            1,
        ),
        ("another number", grant(5, 1, 8), Answer::Accepted, 2),
        ("a third number", grant(6, 1, 8), Answer::Accepted, 3),
    ];
    for (name, input, answer, outstanding) in cases {
        assert!(rt; lane.look(&input) == None, "{name}");
        assert!(rt; answer_of(lane.take_owned(input)?) == answer, "{name}");
        assert!(rt; lane.outstanding() == outstanding, "{name}");
    }
    Ok(())
}

/// The payload is that of the burst, and the flow that of the grant's own identifier.
#[test]
fn admits_the_bursts_own_bytes(rt: HostRuntime) -> Result<(), Fail> {
    let other = FlowRecord { sfid: 1, ..RECORD };
    let rows = [
        ROW,
        SidRow {
            channel: 0,
            sid: 16_383,
            flow: 1,
        },
    ];
    let mut lane = Lane::new(rt.alloc(), 0, &rows, &[RECORD, other])?;
    lane.take_owned(grant(1, 1, 100))??;
    lane.take_owned(grant(2, 16_383, 100))??;
    let bytes = [0x80, 2, 0, 8, 0, 0, 0, 0, 0x11, 0x22, 0x33];
    for (number, flow) in [(2, 1), (1, 0)] {
        let received = burst(rt.alloc(), number, true, &bytes)?;
        assert!(rt; lane.look(&received) == Some(flow));
        let admitted = lane.take_owned(received)??.ok_or("nothing admitted")?;
        assert!(rt; admitted.flow == flow);
        assert!(rt; admitted.segment.head.sequence == 1);
        assert!(rt; admitted.segment.payload.as_slice() == [0x11, 0x22, 0x33].as_slice());
    }
    Ok(())
}
