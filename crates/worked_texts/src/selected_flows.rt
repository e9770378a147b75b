//! Selections of flows, on all small cases: each flow is of exactly one of so many shards, and of a
//! list just where one of its ranges has it.
use flow_selection::{FlowList, FlowRange, Selection, Shard};
use std::test::Fail;

#[test]
fn each_flow_is_of_one_shard(rt: HostRuntime) {
    for count in 1..=40u16 {
        // What the index leaves when divided by the count.
        let mut left = 0u16;
        for flow in 0..100usize {
            for remainder in 0..=count {
                let selected = Selection::Shard(Shard { remainder, count });
                let is_left = remainder == left;
                assert!(rt;
                    selected.has(flow) == is_left,
                    "{flow}: {remainder}/{count}"
                );
            }
            left = left.saturating_add(1);
            if left == count {
                left = 0;
            }
        }
    }
}

#[test]
fn no_shard_of_none_has_a_flow(rt: HostRuntime) {
    for remainder in 0..3u16 {
        for flow in 0..10usize {
            assert!(rt;
                !Shard {
                    remainder,
                    count: 0
                }
                .has(flow)
            );
        }
    }
}

#[test]
fn ranges_have_their_ends(rt: HostRuntime) {
    for first in 0..12u16 {
        for last in 0..12u16 {
            let range = FlowRange { first, last };
            for flow in 0..14usize {
                let within = usize::from(first) <= flow && flow <= usize::from(last);
                assert!(rt; range.has(flow) == within, "{first}-{last}: {flow}");
            }
        }
    }
}

#[test]
fn list_has_the_flows_of_each_range(rt: HostRuntime) -> Result<(), Fail> {
    let mut ranges = Vec::new(rt.alloc());
    for (first, last) in [(0, 0), (3, 3), (8, 15), (14, 16)] {
        ranges.push(FlowRange { first, last })?;
    }
    let selected = Selection::Listed(FlowList::new(rt.alloc(), ranges)?);
    for flow in 0..20usize {
        let listed = matches!(flow, 0 | 3 | 8..=16);
        assert!(rt; selected.has(flow) == listed, "{flow}");
    }
    let none = FlowList::new(rt.alloc(), Vec::new(rt.alloc()))?;
    assert!(rt; !Selection::Listed(none).has(0));
    assert!(rt; Selection::All.has(16_383));
    Ok(())
}

/// Each two ranges of the first six flows, also such that have no flows.
#[test]
fn list_has_what_one_of_its_ranges_has(rt: HostRuntime) -> Result<(), Fail> {
    let ends = || (0..6u16).flat_map(|first| (0..6u16).map(move |last| FlowRange { first, last }));
    for one in ends() {
        for other in ends() {
            let list = FlowList::new(rt.alloc(), vec![in rt.alloc(); one, other]?)?;
            for flow in 0..8usize {
                let listed = one.has(flow) || other.has(flow);
                assert!(rt; list.has(flow) == listed, "{list:?}: {flow}");
            }
        }
    }
    Ok(())
}

#[test]
fn list_prints_its_ranges(rt: HostRuntime) -> Result<(), Fail> {
    let ranges = vec![in rt.alloc(); FlowRange { first: 3, last: 5 }]?;
    let printed = format!(in rt.alloc(); "{:?}", FlowList::new(rt.alloc(), ranges)?)?;
    assert!(rt;
        printed.as_str() == "FlowList { ranges: [FlowRange { first: 3, last: 5 }], flags: .. }"
    );
    Ok(())
}
