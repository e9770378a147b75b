//! The words of a line, and its fields. A line of `join` has one field, which is hexadecimal; of a
//! line of a trace the first field says which others it has.
use crate::faulty_lines::{expect_no_text, expect_no_trace};
use std::test::Fail;
use texts::{TraceKind, join_lines};

/// Lines without a field.
const WITHOUT_FIELD: [&str; 4] = ["", " \t\r", "# a", "  #a b"];

#[test]
fn skips_lines_without_fields(rt: HostRuntime) -> Result<(), Fail> {
    for line in WITHOUT_FIELD {
        let text = join_lines(rt.alloc(), line.as_bytes())?;
        assert!(rt; text.is_empty(), "{line}");
    }
    Ok(())
}

/// Lines of `join` with one field, which is not hexadecimal, or with more.
const ONE_OR_MORE: [(&str, TraceKind); 5] = [
    ("a", TraceKind::NotHex),
    ("\ra\r", TraceKind::NotHex),
    ("a\tb  c", TraceKind::FieldCount),
    ("a#b", TraceKind::NotHex),
    ("\u{b}\u{c}", TraceKind::NotHex),
];

#[test]
fn tells_one_field_from_more(rt: HostRuntime) {
    for (line, kind) in &ONE_OR_MORE {
        let text = join_lines(rt.alloc(), line.as_bytes());
        expect_no_text(&rt, text, line, 1, *kind);
    }
}

/// Lines of a trace whose first field is `gap`, without further fields or with two, of which the
/// first is no number; and lines with another first field.
const FIRST_FIELDS: [(&str, TraceKind); 5] = [
    ("gap", TraceKind::FieldCount),
    ("\rgap\r", TraceKind::FieldCount),
    ("gap\tb  c", TraceKind::BadNumber),
    ("gap#b", TraceKind::UnknownLine),
    ("gap\u{b}\u{c}", TraceKind::UnknownLine),
];

#[test]
fn finds_the_first_field(rt: HostRuntime) {
    for (line, kind) in &FIRST_FIELDS {
        expect_no_trace(&rt, rt.alloc(), line, 1, *kind);
    }
}
