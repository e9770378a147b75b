//! Rows and lanes of one channel, of five and of sixteen.
use super::{Answer, RECORD, ROW, answer_of, burst, grant};
use flow_core::FlowRecord;
use lane::{Lane, LaneFault, Request, SidRow, check_rows_within};
use std::test::Fail;

/// A row of this channel, with the greatest service identifier.
fn last_row(channel: u8) -> SidRow {
    SidRow {
        channel,
        sid: 16_383,
        flow: 0,
    }
}

#[test]
fn one_channel_more_is_refused(rt: HostRuntime) -> Result<(), Fail> {
    for channels in [1, 5, 16] {
        let last = [last_row(0), last_row(channels - 1)];
        let one = &last[1..];
        let past = [last_row(channels)];
        let within = check_rows_within(rt.alloc(), channels, one, 1);
        let beyond = check_rows_within(rt.alloc(), channels, &past, 1);
        assert!(rt; within == Ok(()), "{channels} channels");
        assert!(rt;
            beyond == Err(LaneFault::SidRange(0)),
            "{channels} channels"
        );
    }
    Ok(())
}

#[test]
fn reports_faults_of_wide_rows(rt: HostRuntime) -> Result<(), Fail> {
    let far = SidRow {
        sid: 16_384,
        ..last_row(15)
    };
    let unknown = SidRow {
        flow: 1,
        ..last_row(15)
    };
    let cases: [(&str, &[SidRow], Result<(), LaneFault>); 6] = [
        ("no rows", &[], Ok(())),
        (
            "one identifier on two channels",
            &[last_row(14), last_row(15)],
            Ok(()),
        ),
        (
            "an identifier of fifteen bits",
            &[ROW, far],
            Err(LaneFault::SidRange(1)),
        ),
        (
            "one row twice",
            &[last_row(15), ROW, last_row(15)],
            Err(LaneFault::SameSid(2)),
        ),
        (
            "a repeat before a flow",
            &[unknown, unknown],
            Err(LaneFault::SameSid(1)),
        ),
        (
            "a flow without a record",
            &[ROW, unknown],
            Err(LaneFault::UnknownFlow(1)),
        ),
    ];
    for (name, rows, wanted) in cases {
        let answer = check_rows_within(rt.alloc(), 16, rows, 1);
        assert!(rt; answer == wanted, "{name}");
    }
    Ok(())
}

/// The lane of channel 15 answers by the row of its own channel, and its requests name the channel.
#[test]
fn answers_on_the_sixteenth_channel(rt: HostRuntime) -> Result<(), Fail> {
    let other = FlowRecord { sfid: 1, ..RECORD };
    let rows = [
        ROW,
        SidRow {
            flow: 1,
            ..last_row(15)
        },
    ];
    let records = [RECORD, other];
    check_rows_within(rt.alloc(), 16, &rows, 2)?;
    let mut lane = Lane::open_within(rt.alloc(), 16, 15, &rows, &records)?;
    let asked: [u8; 8] = [0, 0, 0, 9, 0, 7, 0, 0];
    let request = Request {
        channel: 15,
        flow: 1,
        cluster: 1,
        units: 7,
        sequence: 1,
    };
    let unknown = answer_of(lane.take(rt.alloc(), &grant(1, 1, 8)));
    assert!(rt; unknown == Answer::Refused(3));
    let granted = answer_of(lane.take(rt.alloc(), &grant(1, 16_383, 8)));
    assert!(rt; granted == Answer::Accepted);
    let received = answer_of(lane.take(rt.alloc(), &burst(rt.alloc(), 1, true, &asked)?));
    assert!(rt; received == Answer::Admitted(Some(request)));
    Ok(())
}
