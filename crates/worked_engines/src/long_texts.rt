//! An input that is read in several pieces, and a text that is longer than what a writer holds
//! back.
use crate::fitful::{FitfulWriter, Full};
use engines::{Device, EngineFault, join_text};
use std::alloc::{AllocError, Global};
use std::io::{ErrorKind, Write};
use std::test::Fail;

/// A segment that carries one frame, and the line of that frame.
const SEGMENT: &str = "8000000000000000000000021111aabb\n";

const FRAME: &str = "000000021111aabb\n";

/// How many there are.
const COUNT: usize = 20_000;

/// A line, again and again.
fn repeated(alloc: Global, line: &str) -> Result<Vec<u8>, AllocError> {
    let mut text = Vec::new(alloc);
    for _ in 0..COUNT {
        text.extend_from_slice(line.as_bytes())?;
    }
    Ok(text)
}

/// Joins the segments.
fn join_many<W: Write + Drop>(alloc: Global, writer: W) -> Result<(), EngineFault> {
    let input = repeated(alloc, SEGMENT)?;
    let mut reader = Device::new(input.as_slice());
    let mut writer = Device::new(writer);
    let done = join_text(alloc, &mut reader, &mut writer);
    reader.into_inner();
    writer.into_inner();
    done
}

#[test]
fn joins_pieces_and_writes_each_frame_once(rt: HostRuntime) -> Result<(), Fail> {
    let frames = repeated(rt.alloc(), FRAME)?;
    let mut written = Vec::new(rt.alloc());
    assert!(rt; join_many(rt.alloc(), &mut written) == Ok(()));
    assert!(rt; written.len() == frames.len());
    assert!(rt; written.as_slice() == frames.as_slice());
    Ok(())
}

#[test]
fn writes_nothing_behind_a_failed_write(rt: HostRuntime) -> Result<(), Fail> {
    let frames = repeated(rt.alloc(), FRAME)?;
    for room in [65_535usize, 65_536, 65_552, 100_000] {
        let mut written = Vec::new(rt.alloc());
        let writer = FitfulWriter::new(&mut written, room, Full::Fails(ErrorKind::StorageFull));
        assert!(rt; join_many(rt.alloc(), writer) == Err(EngineFault::Write));
        assert!(rt; room <= frames.len());
        assert!(rt; written.as_slice() == &frames[..room], "after {room}");
    }
    Ok(())
}
