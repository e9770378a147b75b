//! Sources and decisions of lists, through their traits.
mod failed_allocations;

use std::alloc::{AllocError, Global};
use std::process::Abort;
use std::test::Fail;
use uplink::{Decision, Decisions, Input, ListDecisions, ListSource, Source, Sources};

/// The number of the grant that a source gives next.
fn next_number<S: Source>(source: &mut S) -> Option<u32> {
    match source.next()? {
        Input::Grant { number, .. } => Some(number),
        Input::Burst { grant, .. } => Some(grant),
    }
}

fn next_decision<D: Decisions>(decisions: &mut D) -> Option<Decision> {
    decisions.next()
}

fn grant(number: u32) -> Input {
    let (sid, bytes) = (1, 8);
    Input::Grant { number, sid, bytes }
}

/// Grants with the numbers 0 to 2.
fn three_grants(alloc: Global) -> Result<Vec<Input>, AllocError> {
    Ok(vec![in alloc; grant(0), grant(1), grant(2)]?)
}

/// They are given once, and nothing more however often the source is asked.
fn expect_three_grants(rt: &impl Abort, mut source: ListSource) {
    let numbers = [
        next_number(&mut source),
        next_number(&mut source),
        next_number(&mut source),
        next_number(&mut source),
        next_number(&mut source),
    ];
    assert!(rt; numbers == [Some(0), Some(1), Some(2), None, None]);
}

#[test]
fn source_gives_its_list(rt: HostRuntime) -> Result<(), Fail> {
    let inputs = three_grants(rt.alloc())?;
    expect_three_grants(&rt, ListSource::new(inputs));
    Ok(())
}

const FIRST: Decision = Decision {
    flow: 1,
    upto: None,
};

const SECOND: Decision = Decision {
    flow: 0,
    upto: Some(8191),
};

/// The two are given once, and nothing more however often it is asked.
fn expect_both_decisions(rt: &impl Abort, mut decisions: ListDecisions) {
    let given = [
        next_decision(&mut decisions),
        next_decision(&mut decisions),
        next_decision(&mut decisions),
        next_decision(&mut decisions),
    ];
    assert!(rt; given == [Some(FIRST), Some(SECOND), None, None]);
}

#[test]
fn decisions_are_given_in_order(rt: HostRuntime) -> Result<(), Fail> {
    let decisions = Vec::from_slice(rt.alloc(), &[FIRST, SECOND])?;
    expect_both_decisions(&rt, ListDecisions::new(decisions));
    Ok(())
}

/// A source of channel 2 that gives a grant with the number 7.
fn one_grant(
    alloc: Global,
) -> Result<Sources<ListSource, ListSource, ListSource, ListSource>, AllocError> {
    Ok(Sources {
        s0: ListSource::new(Vec::new(alloc)),
        s1: ListSource::new(Vec::new(alloc)),
        s2: ListSource::new(vec![in alloc; grant(7)]?),
        s3: ListSource::new(Vec::new(alloc)),
    })
}

#[test]
fn four_sources_are_told_apart(rt: HostRuntime) -> Result<(), Fail> {
    let mut sources = one_grant(rt.alloc())?;
    let numbers = [
        next_number(&mut sources.s0),
        next_number(&mut sources.s1),
        next_number(&mut sources.s2),
        next_number(&mut sources.s3),
    ];
    assert!(rt; numbers == [None, None, Some(7), None]);
    Ok(())
}
