//! Which records can be set up, and the fault that is reported of others.
use super::*;
use flow_core::{SetupFault, check_records};

/// Compares what both calls answer to the records.
fn fault_is(
    rt: &impl Abort,
    alloc: Global,
    name: &str,
    records: &[FlowRecord],
    wanted: Option<SetupFault>,
) {
    assert!(rt; check_records(records).err() == wanted, "{name}");
    match Core::new(alloc, records, NoCheck) {
        Err(fault) => assert!(rt; Some(fault) == wanted, "{name}"),
        Ok(core) => {
            assert!(rt; None == wanted, "{name}");
            assert!(rt; core.flow_count() == records.len(), "{name}");
        }
    }
}

/// So many records with the service flow identifiers 0, 1, and so on.
fn lawful(alloc: Global, count: u32) -> Result<Vec<FlowRecord>, Fail> {
    let mut records = Vec::new(alloc);
    for sfid in 0..count {
        records.push(record(sfid, 8191, 4))?;
    }
    Ok(records)
}

#[test]
fn up_to_64_flows(rt: HostRuntime) -> Result<(), Fail> {
    let alloc = rt.alloc();
    fault_is(&rt, alloc, "none", &[], None);
    fault_is(&rt, alloc, "one", &lawful(alloc, 1)?, None);
    fault_is(&rt, alloc, "64", &lawful(alloc, 64)?, None);
    let many = Some(SetupFault::TooManyFlows);
    fault_is(&rt, alloc, "65", &lawful(alloc, 65)?, many);
    let mut records = lawful(alloc, 64)?;
    records.push(record(0, 8192, 0))?;
    fault_is(
        &rt,
        alloc,
        "65, of which the last is out of range",
        &records,
        many,
    );
    Ok(())
}

#[test]
fn each_field_has_a_range(rt: HostRuntime) -> Result<(), Fail> {
    let good = record(0, 0, 1);
    let bad = Some(SetupFault::BadFlow(0));
    for (name, one, wanted) in [
        ("the greatest first number", record(0, 8191, 1), None),
        ("a first number of 8192", record(0, 8192, 1), bad),
        ("no window", record(0, 0, 0), bad),
        ("the widest window", record(0, 0, 4096), None),
        ("a wider window", record(0, 0, 4097), bad),
        (
            "no cluster",
            FlowRecord {
                clusters: 0,
                ..good
            },
            bad,
        ),
        (
            "eight clusters",
            FlowRecord {
                clusters: 8,
                ..good
            },
            None,
        ),
        (
            "nine clusters",
            FlowRecord {
                clusters: 9,
                ..good
            },
            bad,
        ),
        ("a ring of none", FlowRecord { ring: 0, ..good }, bad),
        (
            "the greatest ring",
            FlowRecord {
                ring: 65_535,
                ..good
            },
            None,
        ),
        ("the greatest identifier", record(u32::MAX, 0, 1), None),
    ] {
        fault_is(&rt, rt.alloc(), name, &[one], wanted);
    }
    Ok(())
}

#[test]
fn first_fault(rt: HostRuntime) -> Result<(), Fail> {
    let [zero, one, two] = [record(0, 0, 1), record(1, 0, 1), record(2, 0, 1)];
    let bad = record(0, 0, 0);
    for (name, records, wanted) in [
        (
            "the second is out of range",
            [zero, bad, one],
            SetupFault::BadFlow(1),
        ),
        ("two out of range", [one, bad, bad], SetupFault::BadFlow(1)),
        (
            "a repeat before one out of range",
            [zero, zero, bad],
            SetupFault::BadFlow(2),
        ),
        (
            "the second repeats",
            [zero, zero, one],
            SetupFault::SameSfid(1),
        ),
        ("both repeat", [two, two, two], SetupFault::SameSfid(1)),
        (
            "the third repeats",
            [one, two, one],
            SetupFault::SameSfid(2),
        ),
    ] {
        fault_is(&rt, rt.alloc(), name, &records, Some(wanted));
    }
    Ok(())
}
