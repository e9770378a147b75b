//! What is answered to each input and to each decision, and how the receiver then stands.
ghost use Rattle.receiver.specs.Receiving.{IsReceiving};

use crate::handing_in::{State, hand_in, hand_in_all, input, made, state};
use consumer::Collected;
use docsis_wire::HeaderCheck;
use lane::{Input, Refusal};
use receiver::{
    DecisionReply, FlowDecision, LaneTally, Receiver, Reply, SegmentVerdict, TakeError, Told,
};
use std::alloc::Global;
use std::process::Abort;
use std::test::Fail;
use worked_frames::samples::SECOND;
use worked_traces::traces::{FIRST_LOST, Line, SECOND_FIRST};

/// After each line of the trace whose second segment comes first.
const STATES: [State; 6] = [
    (Some(0), Some(0), (0, 0), (1, 0)),
    (Some(0), Some(0), (0, 0), (1, 1)),
    (Some(0), Some(0), (0, 0), (2, 1)),
    (Some(0), Some(1), (1, 0), (2, 0)),
    (Some(2), Some(0), (2, 1), (1, 0)),
    (Some(3), Some(0), (3, 2), (0, 0)),
];

/// Hands in the lines, and compares the state after each.
fn expect_states<C: HeaderCheck + Drop>(
    rt: &impl Abort,
    alloc: Global,
    receiver: &mut Receiver<C>,
    out: &mut Collected,
) -> Result<(), Fail>
    requires { IsReceiving C.accepts receiver.old }
    ensures { IsReceiving C.accepts receiver.new }
{
    for (place, line) in SECOND_FIRST.iter().enumerate() {
        hand_in(alloc, receiver, line, out)?;
        assert!(rt;
            Some(state(receiver)) == STATES.get(place).copied(),
            "{place}"
        );
    }
    Ok(())
}

#[test]
fn its_state_after_each_input(rt: HostRuntime) -> Result<(), Fail> {
    let (mut receiver, mut out) = made(rt.alloc())?;
    expect_states(&rt, rt.alloc(), &mut receiver, &mut out)
}

/// The answer to the second segment where it is kept.
const KEPT: Reply = Reply::Admitted {
    flow: 0,
    sequence: 1,
    told: Told {
        skipped_to: None,
        verdict: SegmentVerdict::Kept,
    },
};

/// Where it comes once more.
const REPEATED: Reply = Reply::Admitted {
    flow: 0,
    sequence: 1,
    told: Told {
        skipped_to: None,
        verdict: SegmentVerdict::Repeat,
    },
};

/// Lines, and what is answered to each: the second burst comes in the grant of the first.
const ANSWERED: [(Line, Reply); 7] = [
    (Line::Grant(0, 1, 1, 7), Reply::Refused(Refusal::GrantRange)),
    (Line::Grant(0, 1, 1, 15), Reply::Granted),
    (
        Line::Grant(0, 1, 1, 15),
        Reply::Refused(Refusal::GrantKnown),
    ),
    (Line::Burst(0, 1, SECOND), KEPT),
    (Line::Burst(0, 1, SECOND), Reply::Refused(Refusal::NoGrant)),
    (Line::Grant(1, 1, 2, 15), Reply::Granted),
    (Line::Burst(1, 1, SECOND), REPEATED),
];

/// The flow to which a segment was admitted, if one was.
fn flow_of(reply: &Reply) -> Option<usize> {
    match reply {
        Reply::Admitted { flow, .. } => Some(*flow),
        _ => None,
    }
}

/// Hands in the lines, and compares each answer, and with it where the input was to come before.
fn expect_replies<C: HeaderCheck + Drop>(
    rt: &impl Abort,
    alloc: Global,
    receiver: &mut Receiver<C>,
    out: &mut Collected,
) -> Result<(), Fail>
    requires { IsReceiving C.accepts receiver.old }
    ensures { IsReceiving C.accepts receiver.new }
{
    for (line, wanted) in &ANSWERED {
        if let Some((channel, input)) = input(alloc, line)? {
            assert!(rt; receiver.look(channel, &input) == flow_of(wanted));
            let reply = receiver.take(alloc, channel, input, out)?;
            assert!(rt; reply == *wanted);
        }
    }
    Ok(())
}

#[test]
fn each_input_has_its_answer(rt: HostRuntime) -> Result<(), Fail> {
    let (mut receiver, mut out) = made(rt.alloc())?;
    expect_replies(&rt, rt.alloc(), &mut receiver, &mut out)?;
    let tally = LaneTally {
        admitted: 1,
        refused: 3,
    };
    assert!(rt; receiver.tally(0) == Some(tally));
    assert!(rt; receiver.tally(4).is_none());
    Ok(())
}

#[test]
fn a_channel_that_isnt_gives_the_input_back(rt: HostRuntime) -> Result<(), Fail> {
    let (mut receiver, mut out) = made(rt.alloc())?;
    let grant = Input::Grant {
        number: 1,
        sid: 1,
        bytes: 8,
    };
    let Err(TakeError::NoChannel(back)) = receiver.take(rt.alloc(), 4, grant, &mut out) else {
        return Err(Fail::new(format_args!("channel 4 was taken")));
    };
    let reply = receiver.take(rt.alloc(), 0, back, &mut out)?;
    assert!(rt; reply == Reply::Granted);
    Ok(())
}

/// Decisions, and what is answered to each while the segments 1 and 2 are held.
const DECIDED: [((usize, FlowDecision), DecisionReply); 5] = [
    ((1, FlowDecision::Gap), DecisionReply::PassedOver),
    ((0, FlowDecision::GapTo(8192)), DecisionReply::PassedOver),
    (
        (0, FlowDecision::GapTo(0)),
        DecisionReply::Taken { lost: false },
    ),
    ((0, FlowDecision::Gap), DecisionReply::Taken { lost: true }),
    (
        (0, FlowDecision::SkipTo(5)),
        DecisionReply::Taken { lost: true },
    ),
];

/// Hands in the decisions, and compares each answer.
fn expect_decisions<C: HeaderCheck + Drop>(
    rt: &impl Abort,
    alloc: Global,
    receiver: &mut Receiver<C>,
    out: &mut Collected,
) -> Result<(), Fail>
    requires { IsReceiving C.accepts receiver.old }
    ensures { IsReceiving C.accepts receiver.new }
{
    for ((flow, decision), wanted) in &DECIDED {
        let reply = receiver.decide(alloc, *flow, *decision, out)?;
        assert!(rt; reply == *wanted);
    }
    Ok(())
}

#[test]
fn each_decision_has_its_answer(rt: HostRuntime) -> Result<(), Fail> {
    let (mut receiver, mut out) = made(rt.alloc())?;
    hand_in_all(rt.alloc(), &mut receiver, &FIRST_LOST, &mut out)?;
    expect_decisions(&rt, rt.alloc(), &mut receiver, &mut out)?;
    assert!(rt; receiver.expected(0) == Some(5));
    Ok(())
}
