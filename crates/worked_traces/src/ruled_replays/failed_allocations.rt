//! Tests to be run with the Nth request for memory refused. Each says `refused` when a call was.
use super::{On, Tally, lists_of, order_of, setup_of, tally_of};
use docsis_wire::NoCheck;
use loss_rule::LossRule;
use receiver::{Lists, Outcome, ReplayFault, Setup, replay_by};
use std::alloc::{AllocError, Global};
use std::process::Abort;
use std::test::Fail;
use worked_frames::refused::{expect_refused, say_refused};

/// Number 2 is lost, which both channels pass, and then five others before one beyond the window.
const SEGMENTS: [On; 7] = [
    On(0, 0),
    On(1, 1),
    On(0, 3),
    On(1, 4),
    On(0, 5),
    On(1, 6),
    On(0, 12),
];

/// What is replayed.
#[derive(Drop)]
struct Recording {
    setup: Setup,
    lists: Lists,
    order: Vec<u8>,
}

fn recorded(rt: &impl Abort, alloc: Global) -> Result<Recording, AllocError> {
    Ok(Recording {
        setup: setup_of(alloc, 2)?,
        lists: lists_of(rt, alloc, &SEGMENTS)?,
        order: order_of(alloc, &SEGMENTS)?,
    })
}

/// Makes it, and once more where memory was refused.
fn recorded_again(rt: &(impl Abort + Print), alloc: Global) -> Result<Recording, Fail> {
    if let Ok(first) = recorded(rt, alloc) {
        return Ok(first);
    }
    say_refused(rt)?;
    Ok(recorded(rt, alloc)?)
}

fn try_replay(alloc: Global, rule: LossRule, given: &Recording) -> Result<Outcome, ReplayFault> {
    replay_by(
        rule,
        alloc,
        &given.setup,
        &given.lists,
        &given.order,
        NoCheck,
    )
}

/// Replays by this rule, and once more where memory was refused.
fn expect_again(
    rt: &(impl Abort + Print),
    alloc: Global,
    rule: LossRule,
    wanted: Tally,
) -> Result<(), Fail> {
    let given = recorded_again(rt, alloc)?;
    let outcome = match try_replay(alloc, rule, &given) {
        Ok(outcome) => outcome,
        Err(fault) => {
            expect_refused(rt, fault, ReplayFault::OutOfMemory)?;
            try_replay(alloc, rule, &given)?
        }
    };
    assert!(rt; tally_of(rt, &outcome) == wanted);
    Ok(())
}

#[test]
fn replay_by_decisions_refused(rt: HostRuntime) -> Result<(), Fail> {
    let wanted = Tally {
        kept: 5,
        late: 0,
        beyond: 2,
        lost: 1,
        frames: 5,
    };
    expect_again(&rt, rt.alloc(), LossRule::Decided, wanted)
}

#[test]
fn replay_by_what_all_have_passed_refused(rt: HostRuntime) -> Result<(), Fail> {
    let wanted = Tally {
        kept: 6,
        late: 0,
        beyond: 1,
        lost: 1,
        frames: 6,
    };
    expect_again(&rt, rt.alloc(), LossRule::Passed, wanted)
}

#[test]
fn replay_by_a_window_that_slides_refused(rt: HostRuntime) -> Result<(), Fail> {
    let wanted = Tally {
        kept: 7,
        late: 0,
        beyond: 0,
        lost: 6,
        frames: 7,
    };
    expect_again(&rt, rt.alloc(), LossRule::PassedOrSlid, wanted)
}
