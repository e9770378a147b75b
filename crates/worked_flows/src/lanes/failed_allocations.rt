//! Tests to be run with the Nth request for memory refused, and those whose names end in
//! `without_memory` with all later ones refused too. Each says `refused` when a call was.
use super::{Answer, RECORD, ROW, answer_of, burst, grant};
use docsis_wire::Bytes;
use lane::{Input, Lane, LaneFault, SidRow, check_rows_within};
use std::alloc::Global;
use std::process::Abort;
use std::test::Fail;
use worked_frames::refused::{expect_refused, say_refused, say_whether_refused};

/// How many rows and grants there are in a test, so that a map has more than one node.
const MANY: u16 = 40;

/// Opens a lane, and once more where the first call was refused memory.
fn lane_again(rt: &(impl Abort + Print), alloc: Global, rows: &[SidRow]) -> Result<Lane, Fail> {
    match Lane::new(alloc, 0, rows, &[RECORD]) {
        Ok(lane) => Ok(lane),
        Err(fault) => {
            expect_refused(rt, fault, LaneFault::OutOfMemory)?;
            Ok(Lane::new(alloc, 0, rows, &[RECORD])?)
        }
    }
}

/// A burst, made once more where the first call was refused memory.
fn burst_again(rt: &impl Print, alloc: Global, number: u32, bytes: &[u8]) -> Result<Input, Fail> {
    if let Ok(first) = burst(alloc, number, true, bytes) {
        return Ok(first);
    }
    say_refused(rt)?;
    Ok(burst(alloc, number, true, bytes)?)
}

/// Takes a grant that is accepted, and once more where the first call was refused memory. After a
/// refusal no such grant is outstanding.
fn accepts(
    rt: &(impl Abort + Print),
    alloc: Global,
    lane: &mut Lane,
    number: u32,
    sid: u16,
) -> Result<(), Fail> {
    let granted = grant(number, sid, 9);
    let first = answer_of(lane.take(alloc, &granted));
    if first != Answer::Accepted {
        expect_refused(rt, first, Answer::Refused(5))?;
        let nothing = Input::Burst {
            grant: number,
            hcs_ok: false,
            bytes: Bytes::from(Vec::new(alloc)),
        };
        assert!(rt; answer_of(lane.take(alloc, &nothing)) == Answer::Refused(6));
        assert!(rt; answer_of(lane.take(alloc, &granted)) == Answer::Accepted);
    }
    Ok(())
}

/// Takes a burst that is admitted, and once more where the first call was refused memory. After a
/// refusal its grant is still outstanding.
fn admits(
    rt: &(impl Abort + Print),
    alloc: Global,
    lane: &mut Lane,
    number: u32,
) -> Result<(), Fail> {
    let received = burst_again(rt, alloc, number, &[0x80, 0, 0, 0, 0, 0, 0, 0, 0x11])?;
    let first = answer_of(lane.take(alloc, &received));
    if first != Answer::Admitted(None) {
        expect_refused(rt, first, Answer::Refused(11))?;
        assert!(rt; answer_of(lane.take(alloc, &grant(number, ROW.sid, 9))) == Answer::Refused(2));
        assert!(rt; answer_of(lane.take(alloc, &received)) == Answer::Admitted(None));
    }
    assert!(rt; answer_of(lane.take(alloc, &received)) == Answer::Refused(6));
    Ok(())
}

/// As many rows as `MANY`, each with an identifier of its own.
fn many_rows() -> [SidRow; 40] {
    let mut rows = [ROW; 40];
    for sid in 0..MANY {
        rows[usize::from(sid)].sid = sid;
    }
    rows
}

#[test]
fn new_refused(rt: HostRuntime) -> Result<(), Fail> {
    let mut lane = lane_again(&rt, rt.alloc(), &many_rows())?;
    for sid in 0..MANY {
        accepts(&rt, rt.alloc(), &mut lane, u32::from(sid), sid)?;
    }
    let unknown = answer_of(lane.take(rt.alloc(), &grant(1000, MANY, 8)));
    assert!(rt; unknown == Answer::Refused(3));
    Ok(())
}

#[test]
fn take_refused(rt: HostRuntime) -> Result<(), Fail> {
    let mut lane = lane_again(&rt, rt.alloc(), &[ROW])?;
    for number in 0..u32::from(MANY) {
        accepts(&rt, rt.alloc(), &mut lane, number, ROW.sid)?;
    }
    for number in 0..u32::from(MANY) {
        admits(&rt, rt.alloc(), &mut lane, number)?;
    }
    Ok(())
}

/// A grant that is handed over and can't be kept is given back, and is accepted when it is taken
/// again.
#[test]
fn take_owned_refused(rt: HostRuntime) -> Result<(), Fail> {
    let mut lane = lane_again(&rt, rt.alloc(), &[ROW])?;
    for number in 0..u32::from(MANY) {
        let outstanding = lane.outstanding();
        let answer = match lane.take_owned(grant(number, ROW.sid, 9)) {
            Ok(answer) => answer,
            Err(input) => {
                say_refused(&rt)?;
                assert!(rt; lane.outstanding() == outstanding);
                lane.take_owned(input)?
            }
        };
        assert!(rt; answer_of(answer) == Answer::Accepted);
        assert!(rt; lane.outstanding() == outstanding.saturating_add(1));
    }
    Ok(())
}

/// A burst that is handed over takes no memory, and neither does a look at a lane.
#[test]
fn owned_bursts_without_memory(rt: HostRuntime) -> Result<(), Fail> {
    let Some((mut lane, bursts)) = refused_bursts(rt.alloc()) else {
        return say_refused(&rt);
    };
    let Ok(fitting) = burst(rt.alloc(), 4, true, &[0; 13]) else {
        return say_refused(&rt);
    };
    if lane.take(rt.alloc(), &grant(4, ROW.sid, 13)).is_err() {
        return say_refused(&rt);
    }
    assert!(rt; lane.look(&fitting) == Some(0));
    let admitted = answer_of(lane.take_owned(fitting)?);
    assert!(rt; admitted == Answer::Admitted(None));
    for (received, number) in bursts.into_iter().zip(7..) {
        assert!(rt; lane.look(&received) == None);
        let answer = answer_of(lane.take_owned(received)?);
        assert!(rt; answer == Answer::Refused(number));
    }
    assert!(rt; lane.outstanding() == 0);
    say_whether_refused(&rt, rt.alloc())
}

/// The table of identifiers that were seen is asked for once all rows are known to be in range.
#[test]
fn check_rows_within_refused(rt: HostRuntime) -> Result<(), Fail> {
    let rows = [SidRow { channel: 15, ..ROW }, ROW];
    let far = [SidRow { channel: 16, ..ROW }];
    let refused = check_rows_within(rt.alloc(), 16, &far, 1);
    assert!(rt; refused == Err(LaneFault::SidRange(0)));
    if let Err(fault) = check_rows_within(rt.alloc(), 16, &rows, 1) {
        expect_refused(&rt, fault, LaneFault::OutOfMemory)?;
        let again = check_rows_within(rt.alloc(), 16, &rows, 1);
        assert!(rt; again == Ok(()));
    }
    Ok(())
}

/// Faults of the rows are reported before any memory is taken.
#[test]
fn faults_without_memory(rt: HostRuntime) -> Result<(), Fail> {
    let far = SidRow { sid: 16_384, ..ROW };
    let unknown = SidRow { flow: 1, ..ROW };
    for (rows, wanted) in [
        ([ROW, far], LaneFault::SidRange(1)),
        ([ROW, ROW], LaneFault::SameSid(1)),
        (
            [unknown, SidRow { sid: 2, ..ROW }],
            LaneFault::UnknownFlow(0),
        ),
    ] {
        assert!(rt; Lane::new(rt.alloc(), 0, &rows, &[RECORD]).err() == Some(wanted));
    }
    say_whether_refused(&rt, rt.alloc())
}

/// A lane with four grants of thirteen bytes, and a burst for each that is refused.
fn refused_bursts(alloc: Global) -> Option<(Lane, Vec<Input>)> {
    let mut lane = Lane::new(alloc, 0, &[ROW], &[RECORD]).ok()?;
    for number in 0..4 {
        lane.take(alloc, &grant(number, ROW.sid, 13)).ok()?;
    }
    let past = [0x80, 5, 0, 0, 0, 0, 0, 0, 0, 0, 0, 2, 0x11];
    let bursts = [
        burst(alloc, 0, true, &[0; 14]).ok()?,
        burst(alloc, 1, false, &[0; 13]).ok()?,
        burst(alloc, 2, true, &[0; 7]).ok()?,
        burst(alloc, 3, true, &past).ok()?,
    ];
    Some((lane, Vec::from_array(alloc, bursts).ok()?))
}

/// An input to which another refusal applies takes no memory, and a refused burst spends its grant.
#[test]
fn refuses_without_memory(rt: HostRuntime) -> Result<(), Fail> {
    let Some((mut lane, bursts)) = refused_bursts(rt.alloc()) else {
        return say_refused(&rt);
    };
    for (granted, number) in [
        (grant(9, ROW.sid, 7), 1),
        (grant(0, ROW.sid, 8), 2),
        (grant(9, 2, 8), 3),
    ] {
        let answer = answer_of(lane.take(rt.alloc(), &granted));
        assert!(rt; answer == Answer::Refused(number));
    }
    for (received, number) in bursts.iter().zip(7..) {
        let answer = answer_of(lane.take(rt.alloc(), received));
        assert!(rt; answer == Answer::Refused(number));
        let again = answer_of(lane.take(rt.alloc(), received));
        assert!(rt; again == Answer::Refused(6));
    }
    say_whether_refused(&rt, rt.alloc())
}
