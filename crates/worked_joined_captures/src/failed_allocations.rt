//! Each allocation of a capture that is joined is refused once: it is reported, what was written
//! until then is a front of the frames, record for record, and a second call joins the capture.
use crate::capture_samples::{
    FRAMES_APART, REQUESTS_APART, are_frames_apart, frame, frames_apart, frames_joined_twice,
    map_of_two_channels,
};
use crate::capture_words::is_path;
use crate::compared_captures::{COMPARES, EQUAL, compare};
use crate::joined::{InPieces, settings};
use crate::one_map::{MAP_PATH, ONE_MAP};
use capture_command::{CaptureWords, capture_program, read_capture_words};
use capture_rules::Arrival;
use captured_flows::{CaptureConsumer, SoundBurst};
use command_line::UsageFault;
use docsis_wire::Bytes;
use engines::{Device, EngineFault};
use flow_selection::Selection;
use frame_engine::{CaptureTally, Comparing, FrameReading, NoProgress, join_capture};
use frame_records::FrameLink;
use receiver::SetupError;
use std::alloc::{AllocError, Global};
use std::test::Fail;
use timed_frames::{TimedFrames, TimedStep};

/// What came of the capture.
#[derive(Clone, Copy, PartialEq, Eq)]
struct Joined {
    done: Result<(), EngineFault>,
    /// How many bytes of frames and of lines of requests were taken.
    frames: usize,
    lines: usize,
    lost_requests: Option<EngineFault>,
}

/// What comes of the capture where it is joined into arrays, a piece of 50 bytes after another, or
/// why it isn't begun.
fn try_to_join(alloc: Global, frames: &mut [u8], lines: &mut [u8]) -> Result<Joined, EngineFault> {
    let (room, room_of_lines) = (frames.len(), lines.len());
    let bytes = frames_apart(alloc)?;
    let capture_map = map_of_two_channels(alloc)?;
    let mut tally = CaptureTally::new(alloc, &capture_map, &Selection::All, true)?;
    let reading = match FrameReading::new(alloc, settings(FrameLink::Docsis), capture_map) {
        Ok(reading) => reading,
        Err(SetupError::OutOfMemory) => return Err(EngineFault::OutOfMemory),
        Err(_) => return Err(EngineFault::Usage),
    };
    let mut reader = Device::new(InPieces {
        rest: &bytes,
        size: 50,
    });
    let mut writer = Device::new(frames);
    let mut requests = Some(Device::new(lines));
    let mut comparing = Comparing::nothing();
    let done = join_capture(
        alloc,
        reading,
        &mut tally,
        &mut comparing,
        &mut requests,
        &mut reader,
        &mut writer,
        &mut NoProgress,
    );
    reader.into_inner();
    let left = writer.into_inner().len();
    let left_of_lines = match requests {
        Some(requests) => requests.into_inner().len(),
        None => room_of_lines,
    };
    Ok(Joined {
        done,
        frames: room.saturating_sub(left),
        lines: room_of_lines.saturating_sub(left_of_lines),
        lost_requests: tally.lost_requests(),
    })
}

/// Joins the capture into arrays that are just large enough.
fn join_into(alloc: Global, frames: &mut [u8], lines: &mut [u8]) -> Joined {
    match try_to_join(alloc, frames, lines) {
        Ok(joined) => joined,
        Err(fault) => Joined {
            done: Err(fault),
            frames: 0,
            lines: 0,
            lost_requests: None,
        },
    }
}

/// Whether bytes begin with so many of these, which end where a record ends.
fn are_whole_records(bytes: &[u8], count: usize) -> bool {
    let taken = FRAMES_APART.get(..count);
    taken.is_some_and(|taken| bytes.starts_with(taken) && count % 24 == 0)
}

/// Whether bytes begin with so many of these, which end where a line ends.
fn are_whole_lines(bytes: &[u8], count: usize) -> bool {
    let taken = REQUESTS_APART.get(..count);
    taken.is_some_and(|taken| {
        bytes.starts_with(taken) && taken.last().is_none_or(|last| *last == b'\n')
    })
}

/// Without memory for lines of requests these are lost, and all frames are written.
#[test]
fn a_capture_is_joined(rt: HostRuntime) -> Result<(), Fail> {
    let (mut frames, mut lines) = ([0u8; 96], [0u8; 80]);
    let mut joined = join_into(rt.alloc(), &mut frames, &mut lines);
    if joined.done == Err(EngineFault::OutOfMemory) || joined.lost_requests.is_some() {
        println!(rt; "refused")?;
        assert!(rt;
            joined
                .lost_requests
                .is_none_or(|why| why == EngineFault::OutOfMemory)
        );
        assert!(rt; are_whole_records(&frames, joined.frames));
        assert!(rt; are_whole_lines(&lines, joined.lines));
        assert!(rt; joined.done.is_err() || joined.frames == 96);
        (frames, lines) = ([0u8; 96], [0u8; 80]);
        joined = join_into(rt.alloc(), &mut frames, &mut lines);
    }
    let wanted = Joined {
        done: Ok(()),
        frames: 96,
        lines: 80,
        lost_requests: None,
    };
    assert!(rt; joined == wanted);
    assert!(rt; are_frames_apart(&frames));
    assert!(rt; lines == REQUESTS_APART);
    Ok(())
}

/// The summary of that capture.
const SUMMARY: &str = "\
flow 1: segments kept 3, late 0, repeated 0, beyond the window 0, lost 0
  frames 3: FCS right 0, wrong 3, encrypted 0; bytes skipped 0
  restarts 0; requests 2, units 14
channel 0, upstream channel id 100: bursts 3, above their grant 0, admitted 3
channel 1, upstream channel id 101: bursts 0, above their grant 0, admitted 0
records 3, earlier than the record before 0
";
/// How much of standard error is kept.
const ERROR_ROOM: usize = 512;

/// Whether a text stands at the front of what an array took, and nothing behind it.
fn took(array: &[u8], text: &str) -> bool {
    let (front, rest) = array.split_at(array.len().min(text.len()));
    front == text.as_bytes() && rest.iter().all(|byte| *byte == 0)
}

/// Whether an array took so many bytes of the frames, whole records, and nothing behind them.
fn took_records(array: &[u8], count: usize) -> bool {
    let rest = array.get(count..);
    are_whole_records(array, count) && rest.is_some_and(|rest| rest.iter().all(|byte| *byte == 0))
}

/// Whether a text is the last of what an array took.
fn took_last(array: &[u8], text: &str) -> bool {
    let count = array.iter().take_while(|byte| **byte > 0).count();
    let taken = array.get(..count);
    taken.is_some_and(|taken| taken.ends_with(text.as_bytes()))
}

/// The exit status of the whole command on a capture, whose report and requests are written too.
fn program_into(alloc: Global, bytes: &[u8], out: &mut [u8], err: &mut [u8]) -> u8 {
    let words = [
        "segrx",
        "capture",
        MAP_PATH,
        "--report=report",
        "--json=json",
        "--requests",
        "lines",
        "--picture=drawn",
    ];
    let reader = InPieces {
        rest: bytes,
        size: 50,
    };
    capture_program(alloc, &ONE_MAP, &words, reader, out, err)
}

/// Where lines of requests or of the report are lost all frames are written, and the status is 4.
#[test]
fn program_is_refused(rt: HostRuntime) -> Result<(), Fail> {
    let bytes = match frames_apart(rt.alloc()) {
        Ok(bytes) => bytes,
        Err(_) => frames_apart(rt.alloc())?,
    };
    let (mut out, mut err) = ([0u8; 96], [0u8; ERROR_ROOM]);
    let mut status = program_into(rt.alloc(), &bytes, &mut out, &mut err);
    if status != 0 {
        println!(rt; "refused")?;
        if status == 3 {
            assert!(rt; took_last(&err, "segrx: out of memory\n"));
        } else {
            assert!(rt; status == 4);
            assert!(rt; are_frames_apart(&out));
            assert!(rt; took_last(&err, "segrx: a file cannot be written\n"));
        }
        let ends = [0, 24, 48, 72, 96];
        assert!(rt; ends.iter().any(|count| took_records(&out, *count)));
        (out, err) = ([0u8; 96], [0u8; ERROR_ROOM]);
        status = program_into(rt.alloc(), &bytes, &mut out, &mut err);
    }
    assert!(rt; status == 0);
    assert!(rt; are_frames_apart(&out));
    assert!(rt; took(&err, SUMMARY));
    Ok(())
}

#[test]
fn words_of_capture_are_refused(rt: HostRuntime) -> Result<(), Fail> {
    let words = ["segrx", "capture", "m", "--report", "r", "--requests=q"];
    let mut read = read_capture_words(rt.alloc(), &words);
    if let Err(UsageFault::OutOfMemory) = read {
        println!(rt; "refused")?;
        read = read_capture_words(rt.alloc(), &words);
    }
    match read {
        Ok(CaptureWords::Capture(asked)) => {
            assert!(rt; asked.map.as_str() == "m");
            assert!(rt; is_path(&asked.files.report, "r"));
            assert!(rt; is_path(&asked.files.requests, "q"));
        }
        _ => return Err("another answer".into()),
    }
    Ok(())
}

#[test]
fn help_for_capture_is_refused(rt: HostRuntime) -> Result<(), Fail> {
    let words = ["segrx", "capture", "--help"];
    let mut read = read_capture_words(rt.alloc(), &words);
    if let Err(UsageFault::OutOfMemory) = read {
        println!(rt; "refused")?;
        read = read_capture_words(rt.alloc(), &words);
    }
    match read {
        Ok(CaptureWords::Help(text)) => assert!(rt; text.as_str().contains("segrx capture MAP")),
        _ => return Err("no help".into()),
    }
    Ok(())
}

/// How many bursts of one flow are handed in.
const BURSTS: u16 = 20;

/// What takes so many bursts of a flow that are handed in.
fn handed_in(alloc: Global) -> Result<TimedFrames, AllocError> {
    let mut timed = TimedFrames::new(alloc, 1)?;
    for number in 0..BURSTS {
        let item = SoundBurst {
            sid: number,
            burst_id: None,
            granted: 8,
            bytes: Bytes::from(Vec::new(alloc)),
        };
        let burst = Arrival {
            time: 5,
            channel: 0,
            number,
            item,
        };
        timed.hand_in(0, &burst);
    }
    Ok(timed)
}

/// The service identifiers of the bursts that wait are in order, and none stands twice.
fn are_in_order(steps: &[TimedStep]) -> bool {
    let mut least = 0;
    for step in steps {
        match step {
            TimedStep::HandedIn { burst, .. } if burst.sid >= least => {
                least = burst.sid.saturating_add(1);
            }
            _ => return false,
        }
    }
    true
}

/// What can't be kept is left out, and told from then on.
#[test]
fn what_waits_is_whole_or_says_so(rt: HostRuntime) -> Result<(), Fail> {
    let mut timed = match handed_in(rt.alloc()) {
        Ok(timed) => timed,
        Err(_) => handed_in(rt.alloc())?,
    };
    if !timed.is_whole() {
        println!(rt; "refused")?;
        assert!(rt; timed.waiting().len() < usize::from(BURSTS));
        assert!(rt; are_in_order(timed.waiting()));
        timed = handed_in(rt.alloc())?;
    }
    assert!(rt; timed.is_whole());
    assert!(rt; timed.waiting().len() == usize::from(BURSTS));
    assert!(rt; are_in_order(timed.waiting()));
    timed.let_go(rt.alloc());
    assert!(rt; timed.waiting().is_empty());
    Ok(())
}

/// One of the requests for memory is refused: that is told, or the frames are compared.
#[test]
fn comparison_is_refused(rt: HostRuntime) -> Result<(), Fail> {
    let joined = [Some(frame()); 3];
    let bytes = match frames_joined_twice(rt.alloc(), joined) {
        Ok(bytes) => bytes,
        Err(_) => frames_joined_twice(rt.alloc(), joined)?,
    };
    let mut compared = compare(rt.alloc(), &bytes, COMPARES);
    if compared.status != 0 {
        println!(rt; "refused")?;
        assert!(rt; compared.status == 3);
        assert!(rt; compared.text().ends_with(b"segrx: out of memory\n"));
        compared = compare(rt.alloc(), &bytes, COMPARES);
    }
    assert!(rt; compared.status == 0);
    assert!(rt; compared.has_all_frames());
    assert!(rt; compared.text().ends_with(EQUAL.as_bytes()));
    Ok(())
}
