//! Texts of `cut` that are long, and inputs that have none.
use crate::faulty_lines::expect_no_text;
use crate::greatest_frame::greatest_frame_after;
use docsis_wire::FillByte;
use std::alloc::{AllocError, Global};
use std::test::Fail;
use texts::{TraceKind, cut_lines};

/// How many pieces the long input has.
const PIECES: usize = 70_000;

/// A frame, and so many pieces.
fn many_pieces(alloc: Global) -> Result<Vec<u8>, AllocError> {
    let mut input = Vec::from_slice(alloc, b"frame 000100000000\n")?;
    for _ in 0..PIECES {
        input.extend_from_slice(b"piece 0 0\n")?;
    }
    Ok(input)
}

#[test]
fn cuts_into_seventy_thousand_pieces(rt: HostRuntime) -> Result<(), Fail> {
    let input = many_pieces(rt.alloc())?;
    let text = cut_lines(rt.alloc(), input, 8191, FillByte::Zero)?;
    assert!(rt; text.len() == 17 * PIECES);
    assert!(rt; text.starts_with(b"0000fff800000000\n0000000000000000\n"));
    // The last one has the number 8191 + 69,999 modulo 8192, 4,462.
    assert!(rt; text.ends_with(b"\n00008b7000000000\n"));
    Ok(())
}

#[test]
fn cuts_the_greatest_frame_by_the_greatest_piece(rt: HostRuntime) -> Result<(), Fail> {
    let input = greatest_frame_after(rt.alloc(), b"piece 65535 0\npiece 6 65535\nframe ")?;
    let text = cut_lines(rt.alloc(), input, 0, FillByte::Ones)?;
    assert!(rt; text.len() == 2 * (8 + 65_535 + 8 + 6 + 65_535) + 2);
    assert!(rt; text.starts_with(b"80000000000000000101ffff00"));
    assert!(rt; text.ends_with(b"ffff\n"));
    Ok(())
}

/// Inputs that have no text, with the line that is reported and its kind.
const FAULTY: [(&str, u64, TraceKind); 8] = [
    ("frames 00", 1, TraceKind::UnknownLine),
    ("Frame", 1, TraceKind::UnknownLine),
    ("\nframe", 2, TraceKind::FieldCount),
    ("#\nframe zz 00\n", 2, TraceKind::FieldCount),
    ("piece 1\n", 1, TraceKind::FieldCount),
    ("piece 1 2 3\n", 1, TraceKind::FieldCount),
    ("piece 0 65536", 1, TraceKind::BadNumber),
    ("frame 0", 1, TraceKind::NotHex),
];

#[test]
fn reports_the_first_faulty_line(rt: HostRuntime) -> Result<(), Fail> {
    for (input, line, kind) in &FAULTY {
        let copy = Vec::from_slice(rt.alloc(), input.as_bytes())?;
        let text = cut_lines(rt.alloc(), copy, 0, FillByte::Zero);
        expect_no_text(&rt, text, input, *line, *kind);
    }
    Ok(())
}
