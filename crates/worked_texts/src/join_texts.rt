//! A text of `join` that is long, and inputs that have none.
use crate::faulty_lines::expect_no_text;
use crate::greatest_frame::greatest_frame_after;
use std::test::Fail;
use texts::{TraceKind, join_lines};

#[test]
fn joins_the_greatest_frame(rt: HostRuntime) -> Result<(), Fail> {
    // Its header begins in a segment that has all of it.
    let mut input = greatest_frame_after(rt.alloc(), b"8000000000000000")?;
    input.push(b'\n')?;
    let text = join_lines(rt.alloc(), &input)?;
    assert!(rt; text.len() == 2 * 65_541 + 1);
    assert!(rt; text.starts_with(b"0101ffff0000"));
    assert!(rt; text.ends_with(b"0000\n"));
    Ok(())
}

/// Inputs that have no text, with the line that is reported and its kind.
const FAULTY: [(&str, u64, TraceKind); 6] = [
    ("\n# comment\n00 00", 3, TraceKind::FieldCount),
    ("0", 1, TraceKind::NotHex),
    ("zz 00\nzz", 1, TraceKind::FieldCount),
    ("80000000000000\n", 1, TraceKind::TooShort),
    ("-", 1, TraceKind::TooShort),
    ("8000000000000000", 1, TraceKind::PointerPast),
];

#[test]
fn reports_the_first_faulty_line(rt: HostRuntime) {
    for (input, line, kind) in &FAULTY {
        let text = join_lines(rt.alloc(), input.as_bytes());
        expect_no_text(&rt, text, input, *line, *kind);
    }
}
