//! Hexadecimal fields: refused, and written. Those that are read stand with the bursts of
//! [`trace_lines`](crate::trace_lines).
use crate::faulty_lines::expect_no_trace;
use std::test::Fail;
use texts::{TraceKind, join_lines};

/// Fields that are not hexadecimal.
const NOT_HEX: [&str; 12] = [
    "0",
    "000",
    "--",
    "-0",
    "0x00",
    "0g",
    "g0",
    "/0",
    ":0",
    "@0",
    "`0",
    "\u{ff10}0",
];

#[test]
fn refuses_fields_that_are_not_hexadecimal(rt: HostRuntime) -> Result<(), Fail> {
    for field in NOT_HEX {
        let input = format!(in rt.alloc(); "burst 0 1 ok {field}")?;
        expect_no_trace(&rt, rt.alloc(), &input, 1, TraceKind::NotHex);
    }
    Ok(())
}

/// A segment of two frames in digits of either case, and the frames.
const MIXED: &str = "8000000000000000000000021111AAbb000000031111009FfA";

const LOWER: &str = "000000021111aabb\n000000031111009ffa\n";

#[test]
fn writes_lower_case_digits(rt: HostRuntime) -> Result<(), Fail> {
    let text = join_lines(rt.alloc(), MIXED.as_bytes())?;
    assert!(rt; text.as_slice() == LOWER.as_bytes());
    Ok(())
}
