//! Tests to be run with the Nth request for memory refused, and those whose names end in
//! `without_memory` with all later ones refused too. Each says `refused` when a call was.
use super::{row, said, setup};
use receiver::{Setup, SetupError, Width};
use std::alloc::Global;
use std::test::Fail;
use worked_frames::refused::say_refused;

/// A setup of two flows, made once more where the first call was refused memory.
fn setup_again(rt: &impl Print, alloc: Global) -> Result<Setup, Fail> {
    let rows = [row(4, 7, 0), row(3, 7, 1)];
    if let Ok(first) = setup(alloc, 2, &rows) {
        return Ok(first);
    }
    say_refused(rt)?;
    Ok(setup(alloc, 2, &rows)?)
}

#[test]
fn check_within_refused(rt: HostRuntime) -> Result<(), Fail> {
    let alloc = rt.alloc();
    let width = Width::new(5, 64)?;
    let setup = setup_again(&rt, alloc)?;
    let mut answer = setup.check_within(alloc, width);
    if answer == Err(SetupError::OutOfMemory) {
        say_refused(&rt)?;
        answer = setup.check_within(alloc, width);
    }
    assert!(rt; answer == Ok(()));
    Ok(())
}

#[test]
fn widths_without_memory(rt: HostRuntime) -> Result<(), Fail> {
    let width = Width::new(16, 16384)?;
    assert!(rt; said(width) == (16, 16384));
    Ok(())
}
