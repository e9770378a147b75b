//! Tests to be run with the Nth request for memory and all later ones refused. Each says `refused`
//! when a call was.
use super::{FIRST, SECOND, expect_both_decisions, expect_three_grants, three_grants};
use std::test::Fail;
use uplink::{ListDecisions, ListSource};
use worked_frames::refused::{say_refused, say_whether_refused};

/// A source takes no memory to be made of a list, or to give it.
#[test]
fn list_source_without_memory(rt: HostRuntime) -> Result<(), Fail> {
    let Ok(inputs) = three_grants(rt.alloc()) else {
        return say_refused(&rt);
    };
    expect_three_grants(&rt, ListSource::new(inputs));
    say_whether_refused(&rt, rt.alloc())
}

/// So do decisions.
#[test]
fn list_decisions_without_memory(rt: HostRuntime) -> Result<(), Fail> {
    let Ok(list) = Vec::from_slice(rt.alloc(), &[FIRST, SECOND]) else {
        return say_refused(&rt);
    };
    expect_both_decisions(&rt, ListDecisions::new(list));
    say_whether_refused(&rt, rt.alloc())
}
