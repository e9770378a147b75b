//! Inputs that come in pieces.
use crate::taken_lines::TakenLines;
use std::alloc::Global;
use std::test::Fail;
use text_lines::{LineReader, ParseFault, TraceFault, TraceKind, take_lines};

/// Takes an input in pieces of so many bytes.
fn take_in_pieces(
    alloc: Global,
    input: &[u8],
    size: usize,
    taken: &mut TakenLines,
) -> Result<(), ParseFault> {
    let mut reader = LineReader::new(alloc);
    for piece in input.chunks(size.max(1)) {
        reader.take_piece(alloc, piece, taken)?;
    }
    reader.finish(alloc, taken)
}

/// An input, and its lines that have fields.
const INPUT: &str = "one two\n\n# comment\n  three\tfour five\r\n-\n\n \nsix\nseven 8";

const LINES: &str = "one two|three\tfour five\r|-|six|seven 8|";

#[test]
fn takes_the_same_in_pieces_of_any_length(rt: HostRuntime) -> Result<(), Fail> {
    for size in 1..=INPUT.len() {
        let mut taken = TakenLines::new(rt.alloc());
        take_in_pieces(rt.alloc(), INPUT.as_bytes(), size, &mut taken)?;
        assert!(rt;
            taken.text.as_slice() == LINES.as_bytes(),
            "in pieces of {size}"
        );
    }
    Ok(())
}

/// Inputs with the first faulty line, its kind and what was taken before it.
const FAULTY: [(&str, u64, TraceKind, &str); 6] = [
    ("bad", 1, TraceKind::UnknownLine, ""),
    ("bad\none\n", 1, TraceKind::UnknownLine, ""),
    ("one\n\n#\nbad 2", 4, TraceKind::UnknownLine, "one|"),
    (
        "one\ntwo\nthree\nbad\nfive",
        4,
        TraceKind::UnknownLine,
        "one|two|three|",
    ),
    // The kind of the second has the lesser number.
    ("one\nworse\nbad\n", 2, TraceKind::PointerPast, "one|"),
    ("\n\n\n\n\n\n\n\nbad\n", 9, TraceKind::UnknownLine, ""),
];

#[test]
fn reports_the_same_line_in_pieces_of_any_length(rt: HostRuntime) {
    for (input, line, kind, before) in &FAULTY {
        let fault = ParseFault::Line(TraceFault {
            line: *line,
            kind: *kind,
        });
        for size in 1..=input.len() {
            let mut taken = TakenLines::new(rt.alloc());
            let answer = take_in_pieces(rt.alloc(), input.as_bytes(), size, &mut taken);
            assert!(rt; answer == Err(fault), "{input} in pieces of {size}");
            assert!(rt; taken.text.as_slice() == before.as_bytes(), "{input}");
        }
        let mut taken = TakenLines::new(rt.alloc());
        let answer = take_lines(rt.alloc(), input.as_bytes(), &mut taken);
        assert!(rt; answer == Err(fault), "{input} as a whole");
    }
}

/// Pieces, some of them empty, and the lines that they have.
const PIECES: [(&[&str], &str); 8] = [
    (&[], ""),
    (&["", ""], ""),
    (&["\n"], ""),
    (&["one", "", " two", "\n", ""], "one two|"),
    (&["one\n", "", "\n", "two"], "one|two|"),
    (&["one\ntwo\nth", "ree\nfour\n"], "one|two|three|four|"),
    (&["o", "n", "e\ntw", "o", "\n", "three\n"], "one|two|three|"),
    (&["#", "one\n", "two"], "two|"),
];

#[test]
fn takes_pieces_of_unlike_lengths(rt: HostRuntime) -> Result<(), Fail> {
    for (pieces, lines) in &PIECES {
        let mut taken = TakenLines::new(rt.alloc());
        let mut reader = LineReader::new(rt.alloc());
        for piece in *pieces {
            reader.take_piece(rt.alloc(), piece.as_bytes(), &mut taken)?;
        }
        reader.finish(rt.alloc(), &mut taken)?;
        assert!(rt; taken.text.as_slice() == lines.as_bytes());
    }
    Ok(())
}

/// How many digits the long line has.
const DIGITS: usize = 1_048_576;

#[test]
fn takes_a_line_that_is_longer_than_its_pieces(rt: HostRuntime) -> Result<(), Fail> {
    let mut input = vec![in rt.alloc(); b'a'; DIGITS]?;
    input.extend_from_slice(b"\none")?;
    let mut taken = TakenLines::new(rt.alloc());
    take_in_pieces(rt.alloc(), &input, 4096, &mut taken)?;
    assert!(rt; taken.text.len() == DIGITS + 5);
    assert!(rt; taken.text.starts_with(b"aaaa"));
    assert!(rt; taken.text.ends_with(b"aaaa|one|"));
    Ok(())
}

#[test]
fn shows_what_is_unfinished(rt: HostRuntime) -> Result<(), Fail> {
    let mut taken = TakenLines::new(rt.alloc());
    let mut reader = LineReader::new(rt.alloc());
    assert!(rt; reader.unfinished().is_empty());
    for (piece, unfinished) in [
        ("on", "on"),
        ("e\ntw", "tw"),
        ("", "tw"),
        ("o", "two"),
        ("\n", ""),
    ] {
        reader.take_piece(rt.alloc(), piece.as_bytes(), &mut taken)?;
        assert!(rt;
            reader.unfinished() == unfinished.as_bytes(),
            "after {piece}"
        );
    }
    Ok(())
}

#[test]
fn reports_a_fault_again(rt: HostRuntime) {
    let fault = ParseFault::Line(TraceFault {
        line: 2,
        kind: TraceKind::UnknownLine,
    });
    let mut taken = TakenLines::new(rt.alloc());
    let mut reader = LineReader::new(rt.alloc());
    for piece in ["one\nbad\ntwo\n", "three\n", ""] {
        let answer = reader.take_piece(rt.alloc(), piece.as_bytes(), &mut taken);
        assert!(rt; answer == Err(fault), "at {piece}");
    }
    assert!(rt; reader.finish(rt.alloc(), &mut taken) == Err(fault));
    assert!(rt; taken.text.as_slice() == b"one|".as_slice());
}
