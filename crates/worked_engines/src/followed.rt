//! Traces that are followed: in pieces of any size, with faults, and up to a failure of the reader.
ghost use Rattle.std.specs.Prelude.{◌≤◌, length};

use crate::fitful::{FitfulReader, FitfulWriter, Full};
use crate::inputs_in_pieces::InPieces;
use engines::{Device, EngineFault, ReadBehind, follow_text};
use flow_selection::{FlowList, FlowRange, Selection, Shard};
use loss_rule::LossRule;
use receiver::Width;
use std::alloc::Global;
use std::io;
use std::io::{ErrorKind, Read, Write};
use std::test::Fail;
use texts::{FollowSettings, TraceFault, TraceKind};
use worked_texts::text_samples::TRACE;

/// What is printed of the trace where it may have four channels.
pub(crate) const FOLLOWED: &str = "\
frame 0 000000021111aabb
frame 0 01010003e02222ccdd
flow 0 100 kept 3 late 0 repeat 0 beyond 0 lost 0 frames 2 skipped 0
lane 0 admitted 2 refusals 0
lane 1 admitted 1 refusals 0
lane 2 admitted 0 refusals 0
lane 3 admitted 0 refusals 0
";
/// How many bytes of that are the two frames, and how many the first.
const FRAMES_LENGTH: usize = 52;

const FIRST_LENGTH: usize = 25;

/// What came of following a trace, and what was written of it.
#[derive(Drop)]
struct Followed {
    done: Result<(), EngineFault>,
    text: Vec<u8>,
}

/// Follows what a reader gives, of so many channels and two flows, by decisions alone.
fn follow<R: ReadBehind + Drop>(alloc: Global, channels: u8, reader: R) -> Result<Followed, Fail> {
    follow_by(alloc, channels, LossRule::Decided, all_flows(false), reader)
}

/// All flows are selected, with events or without.
pub(crate) fn all_flows(events: bool) -> FollowSettings {
    FollowSettings {
        events,
        selected: Selection::All,
    }
}

/// Follows what a reader gives by this rule and these settings.
fn follow_by<R: ReadBehind + Drop>(
    alloc: Global,
    channels: u8,
    rule: LossRule,
    settings: FollowSettings,
    reader: R,
) -> Result<Followed, Fail> {
    let width = Width::new(channels, 2)?;
    let mut reader = Device::new(reader);
    let mut writer = Device::new(Vec::<u8>::new(alloc));
    let done = follow_text(rule, width, settings, alloc, &mut reader, &mut writer);
    reader.into_inner();
    Ok(Followed {
        done,
        text: writer.into_inner(),
    })
}

/// The fault of this line.
fn fault(line: u64, kind: TraceKind) -> Result<(), EngineFault> {
    Err(EngineFault::Trace(TraceFault { line, kind }))
}

#[test]
fn pieces_may_end_anywhere(rt: HostRuntime) -> Result<(), Fail> {
    for most in 1..=TRACE.len() {
        let rest = TRACE.as_bytes();
        let Followed { done, text } = follow(rt.alloc(), 4, InPieces { rest, most })?;
        assert!(rt; done == Ok(()));
        assert!(rt; text.as_slice() == FOLLOWED.as_bytes(), "pieces of {most}");
    }
    Ok(())
}

/// How much of the text is printed where this front of the trace was read: a frame once the line is
/// whole that brings it.
fn printed_after(front: &[u8]) -> usize {
    match front.iter().filter(|byte| **byte == b'\n').count() {
        0..=8 => 0,
        9 => FIRST_LENGTH,
        _ => FRAMES_LENGTH,
    }
}

#[test]
fn all_is_written_of_the_lines_before_the_reader_fails(rt: HostRuntime) -> Result<(), Fail> {
    for count in 0..=TRACE.len() {
        let front = TRACE.as_bytes().get(..count).unwrap_or_default();
        let reader = FitfulReader::new(front, Some(ErrorKind::BrokenPipe));
        let Followed { done, text } = follow(rt.alloc(), 4, reader)?;
        assert!(rt; done == Err(EngineFault::Read));
        assert!(rt; text.len() == printed_after(front), "{count} bytes");
        assert!(rt; FOLLOWED.as_bytes().starts_with(&text), "{count} bytes");
    }
    Ok(())
}

#[test]
fn faulty_line_is_reported_behind_what_came_before(rt: HostRuntime) -> Result<(), Fail> {
    let mut trace = Vec::new(rt.alloc());
    trace.extend_from_slice(TRACE.as_bytes())?;
    trace.extend_from_slice(b"sid 0 2 0\nburst 0 1 ok 0\n")?;
    for most in [1usize, 7, 100, 1000] {
        let rest = trace.as_slice();
        let Followed { done, text } = follow(rt.alloc(), 4, InPieces { rest, most })?;
        assert!(rt; done == fault(11, TraceKind::SetupLate));
        assert!(rt; text.len() == FRAMES_LENGTH);
        assert!(rt; FOLLOWED.as_bytes().starts_with(&text));
    }
    Ok(())
}

/// Two flows, and a segment of the second on channel 15.
const WIDE: &[u8] = b"flow 7 5 16 1\nflow 8 0 16 1\nsid 15 16383 1\ngrant 15 1 16383 14\n\
burst 15 1 ok 800000000007000000000000aabb\ngap 1\n";

/// What is printed of that where it may have 16 channels, up to the lines of lanes.
const WIDE_FLOWS: &[u8] = b"request 15 1 0 7 0\n\
flow 0 7 kept 0 late 0 repeat 0 beyond 0 lost 0 frames 0 skipped 0\n\
flow 1 8 kept 1 late 0 repeat 0 beyond 0 lost 0 frames 0 skipped 6\nlane 0 admitted 0";

#[test]
fn as_wide_as_is_asked_for(rt: HostRuntime) -> Result<(), Fail> {
    let Followed { done, text } = follow(rt.alloc(), 16, WIDE)?;
    assert!(rt; done == Ok(()));
    assert!(rt; text.as_slice().starts_with(WIDE_FLOWS));
    let Followed { done, text } = follow(rt.alloc(), 15, WIDE)?;
    assert!(rt; done == fault(3, TraceKind::BadNumber));
    assert!(rt; text.len() == 0);
    let three = b"flow 7 5 16 1\nflow 8 0 16 1\nflow 9 0 16 1\n".as_slice();
    let Followed { done, .. } = follow(rt.alloc(), 16, three)?;
    assert!(rt; done == fault(3, TraceKind::TooManyFlows));
    Ok(())
}

#[test]
fn writer_that_fails_is_reported(rt: HostRuntime) -> Result<(), Fail> {
    for room in 0..FOLLOWED.len() {
        let mut written = Vec::new(rt.alloc());
        let mut reader = Device::new(TRACE.as_bytes());
        let mut writer = Device::new(FitfulWriter::new(&mut written, room, Full::TakesNothing));
        let done = follow_text(
            LossRule::Decided,
            Width::PROFILE,
            all_flows(false),
            rt.alloc(),
            &mut reader,
            &mut writer,
        );
        reader.into_inner();
        writer.into_inner();
        assert!(rt; done == Err(EngineFault::Write));
        assert!(rt; FOLLOWED.as_bytes().starts_with(&written), "{room} bytes");
    }
    Ok(())
}

/// A trace of which the last line alone brings something, which no line feed ends.
const LAST_LINE: &str = "\
flow 100 0 16 1
sid 0 1 0
grant 0 1 1 16
burst 0 1 ok 8000000000000000000000021111aabb";

#[test]
fn last_line_is_flushed_before_the_flows_are_closed(rt: HostRuntime) -> Result<(), Fail> {
    let mut written = Vec::new(rt.alloc());
    let mut reader = Device::new(LAST_LINE.as_bytes());
    let full = FitfulWriter::fails_to_flush(&mut written, ErrorKind::BrokenPipe);
    let mut writer = Device::new(full);
    let rule = LossRule::Decided;
    let done = follow_text(
        rule,
        Width::PROFILE,
        all_flows(false),
        rt.alloc(),
        &mut reader,
        &mut writer,
    );
    reader.into_inner();
    writer.into_inner();
    assert!(rt; done == Err(EngineFault::Write));
    assert!(rt; written.as_slice() == b"frame 0 000000021111aabb\n".as_slice());
    Ok(())
}

#[test]
fn trace_is_read_behind_flushes_alone(rt: HostRuntime) {
    let mut reader = Device::new(TRACE.as_bytes());
    let mut writer = Device::new(Vec::<u8>::new(rt.alloc()));
    let done = follow_text(
        LossRule::Decided,
        Width::PROFILE,
        all_flows(false),
        rt.alloc(),
        &mut reader,
        &mut writer,
    );
    let behind_flushes = reader.behind_flushes();
    // The device knows a read that waits for no flush, even at the end of the input.
    let read_more = reader.read(&mut [0]).ok();
    let behind_flushes_still = reader.behind_flushes();
    reader.into_inner();
    writer.into_inner();
    assert!(rt; done == Ok(()));
    assert!(rt; read_more == Some(0));
    assert!(rt; behind_flushes && !behind_flushes_still);
}

/// Gives a trace line by line, and notes of each read whether all that was written was flushed.
#[derive(Drop)]
struct LinesBehind<'a> {
    rest: &'a [u8],
    reads: u64,
    all_flushed: bool,
}

impl LinesBehind<'_> {
    /// Gives a line, or as much of it as there is room for.
    fn give(&mut self, buf: &mut [u8]) -> usize
        ensures { result ≤ length buf.new }
    {
        let line = match self.rest.iter().position(|byte| *byte == b'\n') {
            Some(end) => end + 1,
            None => self.rest.len(),
        };
        let count = line.min(buf.len());
        let (front, rest) = self.rest.split_at(count);
        buf[..count].copy_from_slice(front);
        self.rest = rest;
        count
    }
}

impl Read for LinesBehind<'_> {
    fn read(&mut self, buf: &mut [u8]) -> io::Result<usize> {
        Ok(self.give(buf))
    }
}

impl ReadBehind for LinesBehind<'_> {
    fn read_behind<W: Write>(&mut self, writer: &Device<W>, buf: &mut [u8]) -> io::Result<usize> {
        self.reads = self.reads.saturating_add(1);
        self.all_flushed = self.all_flushed && writer.flushed();
        Ok(self.give(buf))
    }
}

#[test]
fn each_line_is_read_where_all_is_flushed(rt: HostRuntime) {
    let mut reader = Device::new(LinesBehind {
        rest: TRACE.as_bytes(),
        reads: 0,
        all_flushed: true,
    });
    let mut writer = Device::new(Vec::<u8>::new(rt.alloc()));
    let done = follow_text(
        LossRule::Decided,
        Width::PROFILE,
        all_flows(false),
        rt.alloc(),
        &mut reader,
        &mut writer,
    );
    let read = reader.into_inner();
    writer.into_inner();
    let lines = TRACE.bytes().filter(|byte| *byte == b'\n').count();
    assert!(rt; done == Ok(()));
    // The last read finds the end.
    assert!(rt; read.reads == lines as u64 + 1);
    assert!(rt; read.all_flushed);
}

/// The first of three segments is lost, which channel 1 passes and then channel 0; a line that is
/// no input stands between. One grant is refused, one burst has none, and one segment comes twice.
const LOSSY: &str = "\
flow 100 8190 16 2
sid 0 1 0

sid 1 2 0
grant 0 1 1 13
grant 0 1 1 13
grant 1 1 2 15
grant 1 2 2 15
burst 1 2 ok 8000fff800000000000000011111aa
# the first number is lost
burst 0 1 ok 8000000000000000000000021a
burst 1 3 bad -
burst 1 1 ok 8000fff800000000000000011111aa
gap 0
gap 0 3";

/// What is printed of it by the rule `passed`, the last line without a line feed with it.
const LOSSY_EVENTS: &str = "\
line 5 grant 0 1 granted
line 6 grant 0 1 refused 2 grant known
line 7 grant 1 1 granted
line 8 grant 1 2 granted
line 9 flow 0 number 8191 kept
line 9 flow 0 expects 8190 holds 1
frame 0 000000011111aa
line 11 flow 0 skips to 8191
line 11 flow 0 number 0 kept
line 11 flow 0 expects 1 holds 0
line 12 burst 1 3 refused 6 no grant
line 13 flow 0 number 8191 late
line 13 flow 0 expects 1 holds 0
line 14 flow 0 gap lost none
line 14 flow 0 expects 1 holds 0
line 15 flow 0 gap lost none
line 15 flow 0 expects 1 holds 0
flow 0 100 kept 2 late 1 repeat 0 beyond 0 lost 1 frames 1 skipped 0
lane 0 admitted 1 refusals 1
lane 1 admitted 2 refusals 1
";

#[test]
fn events_say_what_became_of_each_line(rt: HostRuntime) -> Result<(), Fail> {
    for most in 1..=LOSSY.len() {
        let rest = LOSSY.as_bytes();
        let pieces = InPieces { rest, most };
        let Followed { done, text } = follow_by(
            rt.alloc(),
            2,
            LossRule::Passed,
            all_flows(true),
            pieces,
        )?;
        assert!(rt; done == Ok(()));
        assert!(rt;
            text.as_slice() == LOSSY_EVENTS.as_bytes(),
            "pieces of {most}"
        );
    }
    Ok(())
}

/// Three flows, two of which have segments, on two channels: grants, bursts that come to a flow and
/// to none, a request of flow 2 and decisions of each flow.
const SOME: &str = "\
flow 100 0 16 1
flow 101 0 16 1
flow 102 0 16 1
sid 0 1 0
sid 0 3 2
sid 1 3 2
grant 0 1 1 16
grant 0 2 3 16
grant 1 1 3 16
burst 0 1 ok 8000000000000000000000021111aabb
burst 0 2 ok 8000000000070000000000021111ccdd
burst 1 9 ok -
burst 1 1 ok 8000000800000000000000021111eeff
gap 0
gap 1
gap 2
";

/// What is printed of it with events: each line, and the flow whose line it is, if it is one's.
const SOME_LINES: [(Option<usize>, &str); 24] = [
    (None, "line 7 grant 0 1 granted\n"),
    (None, "line 8 grant 0 2 granted\n"),
    (None, "line 9 grant 1 1 granted\n"),
    (Some(0), "frame 0 000000021111aabb\n"),
    (Some(0), "line 10 flow 0 number 0 kept\n"),
    (Some(0), "line 10 flow 0 expects 1 holds 0\n"),
    (None, "request 0 2 0 7 0\n"),
    (Some(2), "frame 2 000000021111ccdd\n"),
    (Some(2), "line 11 flow 2 number 0 kept\n"),
    (Some(2), "line 11 flow 2 expects 1 holds 0\n"),
    (None, "line 12 burst 1 9 refused 6 no grant\n"),
    (Some(2), "frame 2 000000021111eeff\n"),
    (Some(2), "line 13 flow 2 number 1 kept\n"),
    (Some(2), "line 13 flow 2 expects 2 holds 0\n"),
    (Some(0), "line 14 flow 0 gap lost none\n"),
    (Some(0), "line 14 flow 0 expects 1 holds 0\n"),
    (Some(1), "line 15 flow 1 gap lost none\n"),
    (Some(1), "line 15 flow 1 expects 0 holds 0\n"),
    (Some(2), "line 16 flow 2 gap lost none\n"),
    (Some(2), "line 16 flow 2 expects 2 holds 0\n"),
    (
        Some(0),
        "flow 0 100 kept 1 late 0 repeat 0 beyond 0 lost 0 frames 1 skipped 0\n",
    ),
    (
        Some(1),
        "flow 1 101 kept 0 late 0 repeat 0 beyond 0 lost 0 frames 0 skipped 0\n",
    ),
    (
        Some(2),
        "flow 2 102 kept 2 late 0 repeat 0 beyond 0 lost 0 frames 2 skipped 0\n",
    ),
    (
        None,
        "lane 0 admitted 2 refusals 0\nlane 1 admitted 1 refusals 1\n",
    ),
];

/// What is left of these lines where the flows of a selection are asked for, with events or
/// without.
fn lines_left(alloc: Global, events: bool, selected: &Selection) -> Result<Vec<u8>, Fail> {
    let mut left = Vec::new(alloc);
    for (flow, line) in &SOME_LINES {
        let is_told = events || !line.starts_with("line ");
        if is_told && selected.leaves(*flow) {
            left.extend_from_slice(line.as_bytes())?;
        }
    }
    Ok(left)
}

/// What is printed where these flows are asked for, with events or without.
fn follow_some(alloc: Global, events: bool, selected: Selection) -> Result<Vec<u8>, Fail> {
    let settings = FollowSettings { events, selected };
    let width = Width::new(2, 3)?;
    let mut reader = Device::new(SOME.as_bytes());
    let mut writer = Device::new(Vec::<u8>::new(alloc));
    let rule = LossRule::Decided;
    let done = follow_text(rule, width, settings, alloc, &mut reader, &mut writer);
    reader.into_inner();
    let text = writer.into_inner();
    match done {
        Ok(()) => Ok(text),
        Err(_) => Err("a fault".into()),
    }
}

#[test]
fn lines_of_other_flows_are_left_out(rt: HostRuntime) -> Result<(), Fail> {
    let alloc = rt.alloc();
    for events in [false, true] {
        let text = follow_some(alloc, events, Selection::All)?;
        let all = lines_left(alloc, events, &Selection::All)?;
        assert!(rt; text == all);
        for (remainder, count) in [(0, 1), (0, 2), (1, 2), (0, 3), (1, 3), (2, 3), (3, 4)] {
            let shard = Selection::Shard(Shard { remainder, count });
            let left = lines_left(alloc, events, &shard)?;
            assert!(rt;
                follow_some(alloc, events, shard)? == left,
                "{remainder} of {count}"
            );
        }
        let ranges = vec![in alloc; FlowRange { first: 1, last: 2 }]?;
        let listed = Selection::Listed(FlowList::new(alloc, ranges)?);
        let left = lines_left(alloc, events, &listed)?;
        assert!(rt; follow_some(alloc, events, listed)? == left);
    }
    Ok(())
}

/// Two flows, and a burst of the second with a digit that is none, far behind its header.
const BAD_DIGIT: &str = "\
flow 100 0 16 1
flow 101 0 16 1
sid 0 1 1
grant 0 1 1 48
burst 0 1 ok 80000000000000000000001a11110123456789abcdef0123456789abcdef0123456789abcdef0g23
";

#[test]
fn bad_digit_of_a_flow_that_is_left_out_is_a_fault(rt: HostRuntime) -> Result<(), Fail> {
    for remainder in [0, 1] {
        let shard = Shard {
            remainder,
            count: 2,
        };
        let settings = FollowSettings {
            events: true,
            selected: Selection::Shard(shard),
        };
        let reader = BAD_DIGIT.as_bytes();
        let Followed { done, text } = follow_by(
            rt.alloc(),
            1,
            LossRule::Decided,
            settings,
            reader,
        )?;
        assert!(rt; done == fault(5, TraceKind::NotHex));
        assert!(rt; text.as_slice() == b"line 4 grant 0 1 granted\n".as_slice());
    }
    Ok(())
}
