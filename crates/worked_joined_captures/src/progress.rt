//! How far the reading of a capture is, as it is told on the way.
use crate::capture_samples::{
    FRAMES_APART, frame, header, map_of_two_channels, put_burst_of, put_file,
};
use crate::joined::{InPieces, settings};
use crate::one_map::{MAP_PATH, ONE_MAP, OneMap};
use capture_command::capture_program;
use engines::Device;
use flow_selection::{FlowList, Selection};
use frame_engine::{
    CaptureProgress, CaptureSettings, CaptureTally, Comparing, FrameReading, TakeProgress,
    join_capture,
};
use frame_records::FrameLink;
use std::alloc::{AllocError, Global};
use std::cell::Cell;
use std::io;
use std::io::{Error, ErrorKind, Write};
use std::rt::Clock;
use std::test::Fail;
use std::time::Duration;

/// Takes how far the reading is behind each piece.
#[derive(Drop)]
struct EachPiece {
    taken: Vec<CaptureProgress>,
}

impl TakeProgress for EachPiece {
    ghost after = { λ start told end. Unit };

    fn is_due(&mut self) -> bool {
        true
    }

    fn take(&mut self, progress: CaptureProgress) {
        let _ = self.taken.push(progress);
    }
}

/// A capture of whole frames of the first flow in segments with these numbers, a second apart.
fn segments_apart(alloc: Global, numbers: &[u8]) -> Result<Vec<u8>, AllocError> {
    let mut file = Vec::new(alloc);
    put_file(&mut file)?;
    let mut second = 0u8;
    for number in numbers {
        second = second.saturating_add(1);
        let header = header(*number, true, 0);
        put_burst_of(&mut file, second, (100, 7), header, &frame())?;
    }
    Ok(file)
}

/// How far the reading of a capture is behind each piece of 50 bytes.
fn told(
    alloc: Global,
    bytes: &[u8],
    settings: CaptureSettings,
) -> Result<Vec<CaptureProgress>, Fail> {
    let capture_map = map_of_two_channels(alloc)?;
    let mut tally = CaptureTally::new(alloc, &capture_map, &settings.selected, false)?;
    let Ok(reading) = FrameReading::new(alloc, settings, capture_map) else {
        return Err("the map can't be set up".into());
    };
    let mut frames = Vec::new(alloc);
    let mut reader = Device::new(InPieces {
        rest: bytes,
        size: 50,
    });
    let mut writer = Device::new(&mut frames);
    let mut requests: Option<Device<&mut [u8]>> = None;
    let mut told = EachPiece {
        taken: Vec::new(alloc),
    };
    let done = join_capture(
        alloc,
        reading,
        &mut tally,
        &mut Comparing::nothing(),
        &mut requests,
        &mut reader,
        &mut writer,
        &mut told,
    );
    reader.into_inner();
    writer.into_inner();
    if let Some(requests) = requests {
        requests.into_inner();
    }
    if done.is_err() {
        return Err("the capture isn't joined".into());
    }
    Ok(told.taken)
}

/// So many bytes, records, frames and lost segments.
fn at([bytes, records, frames, lost]: [u64; 4]) -> CaptureProgress {
    CaptureProgress {
        bytes,
        records,
        frames,
        lost,
    }
}

/// The second segment is lost, and the flow begins anew with the third record. A burst is handed in
/// once the next has come, and one that isn't the next by its number, after the silence before it,
/// once two have.
#[test]
fn progress_is_told_behind_each_piece(rt: HostRuntime) -> Result<(), Fail> {
    let bytes = segments_apart(rt.alloc(), &[0, 2, 0, 1, 2])?;
    let told = told(rt.alloc(), &bytes, settings(FrameLink::Docsis))?;
    let wanted = [
        [50, 0, 0, 0],
        [100, 1, 0, 0],
        [150, 2, 1, 0],
        [200, 3, 1, 0],
        [250, 4, 2, 1],
        [254, 5, 4, 1],
    ];
    assert!(rt; told.len() == wanted.len());
    for (one, wanted) in told.iter().zip(wanted) {
        assert!(rt; *one == at(wanted));
    }
    Ok(())
}

#[test]
fn other_flows_are_not_told_of(rt: HostRuntime) -> Result<(), Fail> {
    let bytes = segments_apart(rt.alloc(), &[0, 2, 0, 1])?;
    let settings = CaptureSettings {
        selected: Selection::Listed(FlowList::new(rt.alloc(), Vec::new(rt.alloc()))?),
        ..settings(FrameLink::Docsis)
    };
    let told = told(rt.alloc(), &bytes, settings)?;
    assert!(rt; told.last() == Some(&at([208, 4, 0, 0])));
    Ok(())
}

/// A clock that shows another time whenever it is read, in milliseconds: it goes on or back.
#[derive(Drop)]
struct Steps {
    now: Cell<u64>,
    on: u64,
    back: u64,
}

impl Steps {
    /// A runtime with such a clock.
    fn by(on: u64, back: u64) -> OneMap<Steps> {
        OneMap {
            clock: Steps {
                now: Cell::new(1_000_000),
                on,
                back,
            },
        }
    }
}

impl Clock for Steps {
    fn monotonic(&self) -> io::Result<Duration> {
        let now = self
            .now
            .get()
            .saturating_add(self.on)
            .saturating_sub(self.back);
        self.now.set(now);
        Ok(Duration::from_millis(now))
    }

    fn since_1970(&self) -> io::Result<Duration> {
        self.monotonic()
    }
}

/// How much of standard error is kept.
const ERROR_ROOM: usize = 512;

/// Takes a text, but refuses the first writes.
#[derive(Drop)]
struct Refusing<'a> {
    text: &'a mut [u8],
    refused: u8,
}

impl Write for Refusing<'_> {
    fn write(&mut self, buf: &[u8]) -> io::Result<usize> {
        if self.refused > 0 {
            self.refused -= 1;
            return Err(Error::from(ErrorKind::BrokenPipe));
        }
        self.text.write(buf)
    }

    fn flush(&mut self) -> io::Result<()> {
        Ok(())
    }
}

/// What the command says of a capture in pieces of 50 bytes, and its exit status. So many writes to
/// standard error are refused.
fn said<C: Clock>(
    alloc: Global,
    rt: &OneMap<C>,
    option: &str,
    refused: u8,
) -> Result<([u8; ERROR_ROOM], u8), Fail> {
    let bytes = segments_apart(alloc, &[0, 1, 2])?;
    let (mut frames, mut said) = ([0u8; 96], [0u8; ERROR_ROOM]);
    let words = ["segrx", "capture", MAP_PATH, option];
    let reader = InPieces {
        rest: &bytes,
        size: 50,
    };
    let err = Refusing {
        text: &mut said,
        refused,
    };
    let status = capture_program(alloc, rt, &words, reader, &mut frames[..], err);
    if frames != FRAMES_APART {
        return Err("other frames were written".into());
    }
    Ok((said, status))
}

/// The lines of progress where each look at the clock is 600 milliseconds behind the last.
const LINES: &str = "\
bytes 100, records 1, frames 0, lost 0
bytes 162, records 3, frames 2, lost 0
flow 1: segments kept 3,";
/// The summary begins so.
const NO_LINES: &str = "flow 1: segments kept 3,";

#[test]
fn lines_are_written_once_a_second(rt: HostRuntime) -> Result<(), Fail> {
    let (text, status) = said(rt.alloc(), &Steps::by(600, 0), "--progress", 0)?;
    assert!(rt; status == 0);
    assert!(rt; text.starts_with(LINES.as_bytes()));
    Ok(())
}

#[test]
fn no_line_is_written_unasked(rt: HostRuntime) -> Result<(), Fail> {
    let (text, status) = said(rt.alloc(), &Steps::by(600, 0), "--losses=slid", 0)?;
    assert!(rt; status == 0);
    assert!(rt; text.starts_with(NO_LINES.as_bytes()));
    Ok(())
}

#[test]
fn clock_that_fails_or_goes_back_writes_no_line(rt: HostRuntime) -> Result<(), Fail> {
    let (text, status) = said(rt.alloc(), &ONE_MAP, "--progress", 0)?;
    assert!(rt; status == 0);
    assert!(rt; text.starts_with(NO_LINES.as_bytes()));
    let (text, status) = said(rt.alloc(), &Steps::by(0, 5_000), "--progress", 0)?;
    assert!(rt; status == 0);
    assert!(rt; text.starts_with(NO_LINES.as_bytes()));
    Ok(())
}

/// No other line is tried, the summary is written, and the status says that a write failed.
#[test]
fn line_that_is_refused(rt: HostRuntime) -> Result<(), Fail> {
    let (text, status) = said(rt.alloc(), &Steps::by(600, 0), "--progress", 1)?;
    assert!(rt; status == 4);
    assert!(rt; text.starts_with(NO_LINES.as_bytes()));
    Ok(())
}
