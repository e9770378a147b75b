//! How wide a receiver can be, and which setups one of a width takes.
mod failed_allocations;

use crate::setups::{row, setup};
use flow_core::SetupFault;
use lane::LaneFault;
use receiver::{SetupError, Width, WidthFault};
use std::alloc::Global;
use std::process::Abort;
use std::test::Fail;

/// Channels, flows, and why no receiver is so wide.
const TOO_WIDE: [(u8, u16, WidthFault); 6] = [
    (0, 1, WidthFault::NoChannel),
    (0, 0, WidthFault::NoChannel),
    (17, 0, WidthFault::TooManyChannels),
    (255, 1, WidthFault::TooManyChannels),
    (1, 0, WidthFault::NoFlow),
    (16, 16385, WidthFault::TooManyFlows),
];

/// Channels and flows of receivers that there can be.
const WIDTHS: [(u8, u16); 4] = [(1, 1), (4, 64), (5, 65), (16, 16384)];

#[test]
fn widths_have_ranges(rt: HostRuntime) {
    for (channels, flows, fault) in TOO_WIDE {
        assert!(rt; Width::new(channels, flows) == Err(fault));
    }
}

/// What a width says of itself.
fn said(width: Width) -> (u8, u16) {
    (width.channels(), width.flows())
}

#[test]
fn widths_say_what_they_were_made_of(rt: HostRuntime) -> Result<(), WidthFault> {
    for (channels, flows) in WIDTHS {
        let width = Width::new(channels, flows)?;
        assert!(rt; said(width) == (channels, flows));
    }
    assert!(rt; said(Width::PROFILE) == (4, 64));
    Ok(())
}

/// Channels and flows of a width, how many flows a setup has, the channel, identifier and flow of
/// its row, and what its check answers.
type Case = ((u8, u16), u32, (u8, u16, usize), Result<(), SetupError>);

const TOO_MANY_FLOWS: SetupError = SetupError::Flows(SetupFault::TooManyFlows);

const OUT_OF_RANGE: SetupError = SetupError::Rows(LaneFault::SidRange(0));

const OF_NO_FLOW: SetupError = SetupError::Rows(LaneFault::UnknownFlow(0));

const CASES: [Case; 8] = [
    ((4, 64), 64, (3, 16383, 63), Ok(())),
    ((4, 64), 64, (4, 0, 0), Err(OUT_OF_RANGE)),
    ((5, 64), 64, (4, 0, 0), Ok(())),
    ((4, 64), 65, (0, 0, 0), Err(TOO_MANY_FLOWS)),
    ((4, 65), 65, (3, 0, 64), Ok(())),
    ((16, 100), 100, (15, 16383, 99), Ok(())),
    ((16, 100), 100, (16, 0, 0), Err(OUT_OF_RANGE)),
    ((16, 100), 100, (15, 0, 100), Err(OF_NO_FLOW)),
];

/// What the check of a case's setup answers.
fn answered(alloc: Global, case: Case) -> Result<Result<(), SetupError>, Fail> {
    let ((channels, flows), flow_count, (channel, sid, flow), _) = case;
    let setup = setup(alloc, flow_count, &[row(channel, sid, flow)])?;
    Ok(setup.check_within(alloc, Width::new(channels, flows)?))
}

#[test]
fn setups_are_checked_within_a_width(rt: HostRuntime) -> Result<(), Fail> {
    for case in CASES {
        assert!(rt; answered(rt.alloc(), case)? == case.3);
    }
    Ok(())
}

#[test]
fn greatest_width_takes_all_its_flows(rt: HostRuntime) -> Result<(), Fail> {
    let width = Width::new(16, 16384)?;
    let setup = setup(rt.alloc(), 16384, &[row(15, 16383, 16383)])?;
    assert!(rt; setup.check_within(rt.alloc(), width) == Ok(()));
    Ok(())
}

#[test]
fn faults_of_flows_come_first(rt: HostRuntime) -> Result<(), Fail> {
    let width = Width::new(4, 1)?;
    let setup = setup(rt.alloc(), 2, &[row(4, 0, 0)])?;
    let fault = SetupError::Flows(SetupFault::TooManyFlows);
    assert!(rt; setup.check_within(rt.alloc(), width) == Err(fault));
    Ok(())
}

#[test]
fn identifiers_given_twice_are_found(rt: HostRuntime) -> Result<(), Fail> {
    let width = Width::new(5, 64)?;
    let rows = [row(4, 7, 0), row(3, 7, 0), row(4, 7, 1)];
    let setup = setup(rt.alloc(), 2, &rows)?;
    let fault = SetupError::Rows(LaneFault::SameSid(2));
    assert!(rt; setup.check_within(rt.alloc(), width) == Err(fault));
    Ok(())
}
