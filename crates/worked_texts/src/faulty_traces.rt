//! Inputs that are no traces.
use crate::faulty_lines::expect_no_trace;
use crate::flow_lines::below_flows;
use std::test::Fail;
use texts::TraceKind;

/// Lines whose first word begins no line, and lines with too few or too many words.
const MISCOUNTED: [(&str, TraceKind); 18] = [
    ("flows 1 0 1 1", TraceKind::UnknownLine),
    ("Flow 1 0 1 1", TraceKind::UnknownLine),
    ("gap\u{b}0", TraceKind::UnknownLine),
    ("ok", TraceKind::UnknownLine),
    ("si 9 9", TraceKind::UnknownLine),
    ("flow", TraceKind::FieldCount),
    ("flow 1 0 1", TraceKind::FieldCount),
    ("flow 1 0 1 1 1", TraceKind::FieldCount),
    ("flow x 0 1", TraceKind::FieldCount),
    ("sid 0 1", TraceKind::FieldCount),
    ("sid 0 1 0 0", TraceKind::FieldCount),
    ("grant 0 1 1", TraceKind::FieldCount),
    ("grant 4 1 1 13 0", TraceKind::FieldCount),
    ("burst 0 1 ok", TraceKind::FieldCount),
    ("burst 0 1 maybe", TraceKind::FieldCount),
    ("burst 0 1 ok 00 00", TraceKind::FieldCount),
    ("gap", TraceKind::FieldCount),
    ("gap 0 0 0", TraceKind::FieldCount),
];

#[test]
fn refuses_unknown_words_and_wrong_counts(rt: HostRuntime) {
    for (line, kind) in &MISCOUNTED {
        expect_no_trace(&rt, rt.alloc(), line, 1, *kind);
    }
}

/// Lines with a number that is none in its range.
const BAD_NUMBERS: [&str; 22] = [
    "flow 4294967296 0 1 1",
    "flow 1 8192 1 1",
    "flow 1 0 0 1",
    "flow 1 0 4097 1",
    "flow 1 0 1 0",
    "flow 1 0 1 9",
    "flow -1 0 1 1",
    "sid 4 1 0",
    "sid 0 16384 0",
    "sid 0 1 64",
    "grant 4 1 1 13",
    "grant 0 4294967296 1 13",
    "grant 0 1 16384 13",
    "grant 0 1 1 4294967296",
    "burst 4 1 ok 00",
    "burst 0 4294967296 ok 00",
    "burst 0 0x1 ok 00",
    "burst 4 1 maybe zz",
    "gap 64",
    "gap 64 0",
    "gap 0 8192",
    "gap 0 +1",
];

#[test]
fn refuses_numbers_out_of_their_ranges(rt: HostRuntime) {
    for line in BAD_NUMBERS {
        expect_no_trace(&rt, rt.alloc(), line, 1, TraceKind::BadNumber);
    }
}

/// Bursts with a word that is neither `ok` nor `bad`, or with a field that is not hexadecimal.
const BAD_WORDS: [(&str, TraceKind); 8] = [
    ("burst 0 1 OK 00", TraceKind::BadWord),
    ("burst 0 1 1 00", TraceKind::BadWord),
    ("burst 0 1 - zz", TraceKind::BadWord),
    ("burst 0 1 okay 0", TraceKind::BadWord),
    ("burst 0 1 ok 0", TraceKind::NotHex),
    ("burst 0 1 bad zz", TraceKind::NotHex),
    ("burst 0 1 ok 0x00", TraceKind::NotHex),
    ("burst 0 1 bad --", TraceKind::NotHex),
];

#[test]
fn refuses_bad_words_and_bad_digits(rt: HostRuntime) {
    for (line, kind) in &BAD_WORDS {
        expect_no_trace(&rt, rt.alloc(), line, 1, *kind);
    }
}

/// Inputs that are no traces, with the line that is reported and its kind.
const FAULTY: [(&str, u64, TraceKind); 23] = [
    ("frob", 1, TraceKind::UnknownLine),
    (
        "flow 1 0 16 1\ngap 0\nflow 2 0 16 1",
        3,
        TraceKind::SetupLate,
    ),
    ("flow 1 9000 16", 1, TraceKind::FieldCount),
    ("flow 1 8192 16 1", 1, TraceKind::BadNumber),
    ("burst 0 1 maybe 00", 1, TraceKind::BadWord),
    ("burst 0 1 ok 0", 1, TraceKind::NotHex),
    ("gap 0", 1, TraceKind::UnknownFlow),
    ("flow 1 0 16 1\nflow 1 0 16 1", 2, TraceKind::SameFlow),
    ("flow 1 0 16 1\nsid 0 1 0\nsid 0 1 0", 3, TraceKind::SameSid),
    // Of several faulty lines the first is reported, by its number among all lines.
    ("\n# gap 0\ngap 0\nfrob", 3, TraceKind::UnknownFlow),
    ("grant 0 1 1 13\n\nsid 0 1\nfrob", 3, TraceKind::SetupLate),
    // Of several faults of a line the one with the least number is.
    ("grant 0 1 1 13\nfrob", 2, TraceKind::UnknownLine),
    ("grant 0 1 1 13\nflow", 2, TraceKind::SetupLate),
    ("grant 0 1 1 13\nsid x", 2, TraceKind::SetupLate),
    ("grant 0 1 1 13\nsid 0 1 0", 2, TraceKind::SetupLate),
    ("sid 4 1 0", 1, TraceKind::BadNumber),
    ("burst 4 1 maybe 0", 1, TraceKind::BadNumber),
    ("burst 0 1 maybe 0", 1, TraceKind::BadWord),
    (
        "flow 1 0 16 1\nsid 0 1 0\nsid 0 1 1",
        3,
        TraceKind::UnknownFlow,
    ),
    // A flow is named by its place among the flows, counted from 0.
    ("flow 1 0 16 1\nsid 0 1 1", 2, TraceKind::UnknownFlow),
    ("flow 1 0 16 1\nsid 0 1 0\ngap 1", 3, TraceKind::UnknownFlow),
    ("flow 1 0 16 1\ngap 1 0", 2, TraceKind::UnknownFlow),
    ("sid 0 1 0\nflow 1 0 16 1", 1, TraceKind::UnknownFlow),
];

#[test]
fn reports_the_first_faulty_line(rt: HostRuntime) {
    for (input, line, kind) in &FAULTY {
        expect_no_trace(&rt, rt.alloc(), input, *line, *kind);
    }
}

/// Lines below 64 flows.
const BELOW_64_FLOWS: [(&str, TraceKind); 4] = [
    ("flow 64 0 16 1", TraceKind::TooManyFlows),
    ("flow 7 0 16 1", TraceKind::TooManyFlows),
    ("flow 64 0 16 9", TraceKind::BadNumber),
    ("flow 64 0 16", TraceKind::FieldCount),
];

#[test]
fn refuses_a_65th_flow(rt: HostRuntime) -> Result<(), Fail> {
    for (line, kind) in &BELOW_64_FLOWS {
        let input = below_flows(rt.alloc(), 64, line)?;
        expect_no_trace(&rt, rt.alloc(), &input, 65, *kind);
    }
    Ok(())
}
