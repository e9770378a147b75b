//! Inputs that a reader gives in pieces of any size: what comes of them doesn't depend on where the
//! pieces end.
use engines::{Device, EngineFault, ReadBehind, join_text};
use std::alloc::{AllocError, Global};
use std::io;
use std::io::{Read, Write};
use std::process::Abort;
use std::test::Fail;
use texts::{TraceFault, TraceKind};

/// A reader that gives at most so many bytes of a text at each call.
#[derive(Drop)]
pub(crate) struct InPieces<'a> {
    pub(crate) rest: &'a [u8],
    pub(crate) most: usize,
}

impl Read for InPieces<'_> {
    fn read(&mut self, buf: &mut [u8]) -> io::Result<usize> {
        let count = self.most.min(buf.len()).min(self.rest.len());
        let (piece, rest) = self.rest.split_at(count);
        buf[..count].copy_from_slice(piece);
        self.rest = rest;
        Ok(count)
    }
}

impl ReadBehind for InPieces<'_> {
    fn read_behind<W: Write>(&mut self, _writer: &Device<W>, buf: &mut [u8]) -> io::Result<usize> {
        self.read(buf)
    }
}

/// Joins an input that comes in pieces of so many bytes: what is written, and what came of it.
fn join_in_pieces(alloc: Global, rest: &[u8], most: usize) -> (Result<(), EngineFault>, Vec<u8>) {
    let mut reader = Device::new(InPieces { rest, most });
    let mut writer = Device::new(Vec::<u8>::new(alloc));
    let done = join_text(alloc, &mut reader, &mut writer);
    reader.into_inner();
    (done, writer.into_inner())
}

/// The two halves of a frame and a comment between them, without a line feed at the end.
const HALVES: &[u8] = b"80000000000000000000000211\n# half a frame\n000000080000000011aabb";

/// Ends the test if the frame isn't joined from pieces of so many bytes.
fn expect_frame(rt: &impl Abort, alloc: Global, most: usize) {
    let (done, text) = join_in_pieces(alloc, HALVES, most);
    assert!(rt; done == Ok(()));
    assert!(rt;
        text.as_slice() == b"000000021111aabb\n".as_slice(),
        "pieces of {most}"
    );
}

#[test]
fn pieces_may_end_anywhere(rt: HostRuntime) {
    for most in 1..=HALVES.len() {
        expect_frame(&rt, rt.alloc(), most);
    }
}

/// The segment of a header and so many frames of eight bytes, as a line.
fn long_line(alloc: Global, frames: usize) -> Result<Vec<u8>, AllocError> {
    let mut line = Vec::new(alloc);
    line.extend_from_slice(b"8000000000000000")?;
    for _ in 0..frames {
        line.extend_from_slice(b"000000021111aabb")?;
    }
    line.push(b'\n')?;
    Ok(line)
}

/// A line of more than 1 MiB, four times as long as what is asked of the reader at once.
#[test]
fn line_longer_than_a_piece(rt: HostRuntime) -> Result<(), Fail> {
    let line = long_line(rt.alloc(), 65_536)?;
    for most in [4096usize, 262_143, 262_144, usize::MAX] {
        let (done, text) = join_in_pieces(rt.alloc(), &line, most);
        assert!(rt; done == Ok(()));
        assert!(rt; text.len() == 17 * 65_536);
    }
    Ok(())
}

/// What is reported of an input whose lines have faults.
#[derive(Clone, Copy)]
struct Faulty {
    input: &'static [u8],
    line: u64,
    kind: TraceKind,
}

const FAULTY: [Faulty; 4] = [
    Faulty {
        input: b"8x\n80000000000000000000000211\n",
        line: 1,
        kind: TraceKind::NotHex,
    },
    Faulty {
        input: b"80000000000000000000000211\n\n8",
        line: 3,
        kind: TraceKind::NotHex,
    },
    Faulty {
        // The kind of the first faulty line comes behind that of the second.
        input: b"80000000000000000000000211\n8000\nz\n",
        line: 2,
        kind: TraceKind::TooShort,
    },
    Faulty {
        input: b"80050000000000000000000211\n0 0\n",
        line: 1,
        kind: TraceKind::PointerPast,
    },
];

#[test]
fn first_faulty_line_counts_wherever_pieces_end(rt: HostRuntime) {
    for Faulty { input, line, kind } in FAULTY {
        for most in 1..=input.len() {
            let (done, text) = join_in_pieces(rt.alloc(), input, most);
            let fault = EngineFault::Trace(TraceFault { line, kind });
            assert!(rt; done == Err(fault));
            assert!(rt; text.len() == 0);
        }
    }
}
