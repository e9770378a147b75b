//! The texts of a capture, as a plain reading in another language has its report and its requests.
mod failed_allocations;

use burst_fates::{BurstFate, MissingReason};
use capture_json::summary_json;
use capture_summary::{
    CaptureSummary, ChannelSummary, FlowSummary, PassedCounts, RefusalCounts, RequestLines,
    put_report, put_summary,
};
use comparison_report::put_comparison_report;
use csv::{ByteRecord, ReaderBuilder};
use flow_core::FlowCounts;
use frame_comparison::{FrameComparison, Side};
use lane::{Refusal, Request};
use std::alloc::{AllocError, Global};
use std::test::Fail;
use text_lines::TextBuffer;

/// A flow of which much came.
const BUSY_FLOW: FlowSummary = FlowSummary {
    sfid: 100,
    counts: FlowCounts {
        kept: 300,
        late: 1,
        repeat: 2,
        beyond: 3,
        lost: 10,
        frames: 120,
        skipped: 4567,
    },
    right: 114,
    wrong: 2,
    encrypted: 4,
    restarts: 1,
    requests: 2,
    units: 65_544,
    is_selected: true,
};

/// A flow whose counts are the greatest.
const FULL_FLOW: FlowSummary = FlowSummary {
    sfid: 7,
    counts: FlowCounts {
        kept: u64::MAX,
        late: u64::MAX,
        repeat: u64::MAX,
        beyond: u64::MAX,
        lost: u64::MAX,
        frames: u64::MAX,
        skipped: u64::MAX,
    },
    right: u64::MAX,
    wrong: u64::MAX,
    encrypted: u64::MAX,
    restarts: u64::MAX,
    requests: 2,
    units: 4,
    is_selected: true,
};

const PASSED: PassedCounts = PassedCounts {
    other_link_type: 1,
    cut_short: 2,
    other_type: 3,
    malformed: 4,
    no_segment_header: 5,
    no_channel_or_sid: 6,
    unknown_channel: 7,
    unknown_sid: 8,
};

/// A channel with bursts and some refusals.
fn busy_channel() -> ChannelSummary {
    let mut refused = RefusalCounts::none();
    refused.count(Refusal::BadCheck);
    refused.count(Refusal::PointerPast);
    refused.count(Refusal::BadCheck);
    ChannelSummary {
        bursts: 310,
        above: 1,
        admitted: 307,
        refused,
        ..ChannelSummary::new(0, 5)
    }
}

/// A channel on which each refusal came, the last one twice.
fn refusing_channel() -> ChannelSummary {
    let mut refused = RefusalCounts::none();
    for refusal in [
        Refusal::GrantRange,
        Refusal::GrantKnown,
        Refusal::UnknownSid,
        Refusal::TooManyGrants,
        Refusal::GrantOutOfMemory,
        Refusal::NoGrant,
        Refusal::TooLong,
        Refusal::BadCheck,
        Refusal::TooShort,
        Refusal::PointerPast,
        Refusal::BurstOutOfMemory,
        Refusal::BurstOutOfMemory,
    ] {
        refused.count(refusal);
    }
    ChannelSummary {
        bursts: 13,
        admitted: 1,
        refused,
        ..ChannelSummary::new(3, u32::MAX)
    }
}

/// A capture with these flows and channels.
fn summary_of(
    alloc: Global,
    flows: &[FlowSummary],
    channels: &[ChannelSummary],
    passed: PassedCounts,
) -> Result<CaptureSummary, AllocError> {
    Ok(CaptureSummary {
        flows: Vec::from_slice(alloc, flows)?,
        channels: Vec::from_slice(alloc, channels)?,
        passed,
        records: 1234,
        earlier: 3,
        set_back: 5,
        crowded: 6,
    })
}

/// A capture of much.
fn much(alloc: Global) -> Result<CaptureSummary, AllocError> {
    let flows = [
        BUSY_FLOW,
        FlowSummary::new(u32::MAX),
        FlowSummary::new(0),
        FULL_FLOW,
    ];
    let channels = [
        busy_channel(),
        refusing_channel(),
        ChannelSummary::new(15, 0),
    ];
    summary_of(alloc, &flows, &channels, PASSED)
}

const REPORT: &str = "\
flow 0 100 kept 300 late 1 repeat 2 beyond 3 lost 10 frames 120 skipped 4567
joined 0 right 114 wrong 2 encrypted 4 restarts 1 requests 2 units 65544
flow 1 4294967295 kept 0 late 0 repeat 0 beyond 0 lost 0 frames 0 skipped 0
joined 1 right 0 wrong 0 encrypted 0 restarts 0 requests 0 units 0
flow 2 0 kept 0 late 0 repeat 0 beyond 0 lost 0 frames 0 skipped 0
joined 2 right 0 wrong 0 encrypted 0 restarts 0 requests 0 units 0
flow 3 7 kept 18446744073709551615 late 18446744073709551615 repeat 18446744073709551615 \
beyond 18446744073709551615 lost 18446744073709551615 frames 18446744073709551615 \
skipped 18446744073709551615
joined 3 right 18446744073709551615 wrong 18446744073709551615 encrypted 18446744073709551615 \
restarts 18446744073709551615 requests 2 units 4
lane 0 admitted 307 refused 8x2 10x1
bursts 0 5 310 above 1
lane 3 admitted 1 refused 1x1 2x1 3x1 4x1 5x1 6x1 7x1 8x1 9x1 10x1 11x2
bursts 3 4294967295 13 above 0
lane 15 admitted 0 refused -
bursts 15 0 0 above 0
passed 2 cut short
passed 4 malformed
passed 6 no channel or SID
passed 5 no segment header
passed 1 other link type
passed 3 other type
passed 8 unknown SID
passed 7 unknown channel
records 1234 earlier 3
clock set_back 5 crowded 6
";

#[test]
fn report_is_that_of_a_plain_reading(rt: HostRuntime) -> Result<(), Fail> {
    let summary = much(rt.alloc())?;
    let mut text = TextBuffer::new(rt.alloc());
    put_report(&mut text, &summary);
    assert!(rt; text.finish()?.as_slice() == REPORT.as_bytes());
    Ok(())
}

/// What people read of the same capture, but for its last flow.
const SUMMARY: &str = "\
flow 100: segments kept 300, late 1, repeated 2, beyond the window 3, lost 10
  frames 120: FCS right 114, wrong 2, encrypted 4; bytes skipped 4567
  restarts 1; requests 2, units 65544
flows of which nothing came: 2
channel 0, upstream channel id 5: bursts 310, above their grant 1, admitted 307
  refused: bad check 2
  refused: pointer past the end 1
channel 3, upstream channel id 4294967295: bursts 13, above their grant 0, admitted 1
  refused: grant out of range 1
  refused: grant known 1
  refused: unknown SID 1
  refused: too many grants 1
  refused: out of memory for a grant 1
  refused: no grant 1
  refused: longer than its grant 1
  refused: bad check 1
  refused: too short 1
  refused: pointer past the end 1
  refused: out of memory for a burst 2
channel 15, upstream channel id 0: bursts 0, above their grant 0, admitted 0
records 1234, earlier than the record before 3
  bursts earlier than their flow's clock by more than --reorder, which set it back: 5
  bursts handed on early, as 2048 of their flow waited (times stand still, or --reorder is long): 6
  passed over: cut short 2
  passed over: malformed 4
  passed over: no channel or SID 6
  passed over: no segment header 5
  passed over: other link type 1
  passed over: other type 3
  passed over: unknown SID 8
  passed over: unknown channel 7
";

#[test]
fn summary_is_for_people(rt: HostRuntime) -> Result<(), Fail> {
    let flows = [FlowSummary::new(u32::MAX), BUSY_FLOW, FlowSummary::new(0)];
    let channels = [
        busy_channel(),
        refusing_channel(),
        ChannelSummary::new(15, 0),
    ];
    let summary = summary_of(rt.alloc(), &flows, &channels, PASSED)?;
    let mut text = TextBuffer::new(rt.alloc());
    put_summary(&mut text, &summary);
    assert!(rt; text.finish()?.as_slice() == SUMMARY.as_bytes());
    Ok(())
}

/// Two flows of which much came and two of which nothing did; the first of each is not selected.
fn some_selected(alloc: Global) -> Result<CaptureSummary, AllocError> {
    let mut busy = BUSY_FLOW;
    busy.is_selected = false;
    let mut quiet = FlowSummary::new(5);
    quiet.is_selected = false;
    let flows = [busy, BUSY_FLOW, quiet, FlowSummary::new(6)];
    summary_of(alloc, &flows, &[], PassedCounts::none())
}

/// The report of these, where clocks were told alike.
const SELECTED_REPORT: &str = "\
flow 1 100 kept 300 late 1 repeat 2 beyond 3 lost 10 frames 120 skipped 4567
joined 1 right 114 wrong 2 encrypted 4 restarts 1 requests 2 units 65544
flow 3 6 kept 0 late 0 repeat 0 beyond 0 lost 0 frames 0 skipped 0
joined 3 right 0 wrong 0 encrypted 0 restarts 0 requests 0 units 0
records 1234 earlier 3
clock set_back 5 crowded 6
";

#[test]
fn flows_that_are_not_selected_are_not_told(rt: HostRuntime) -> Result<(), Fail> {
    let alloc = rt.alloc();
    let summary = some_selected(alloc)?;
    let mut report = TextBuffer::new(alloc);
    put_report(&mut report, &summary);
    assert!(rt; report.finish()?.as_slice() == SELECTED_REPORT.as_bytes());
    // For people, and as JSON, they are as good as not there.
    let others = [BUSY_FLOW, FlowSummary::new(6)];
    let others = summary_of(alloc, &others, &[], PassedCounts::none())?;
    let (mut text, mut wanted) = (TextBuffer::new(alloc), TextBuffer::new(alloc));
    put_summary(&mut text, &summary);
    put_summary(&mut wanted, &others);
    assert!(rt; text.finish()? == wanted.finish()?);
    let text = summary_json(alloc, &summary, None, &[], 0)?;
    assert!(rt; text == summary_json(alloc, &others, None, &[], 0)?);
    Ok(())
}

#[test]
fn of_nothing_only_the_records_are_told(rt: HostRuntime) -> Result<(), Fail> {
    let mut summary = summary_of(rt.alloc(), &[], &[], PassedCounts::none())?;
    summary.set_back = 0;
    summary.crowded = 0;
    let mut report = TextBuffer::new(rt.alloc());
    put_report(&mut report, &summary);
    let lines = b"records 1234 earlier 3\nclock set_back 0 crowded 0\n";
    assert!(rt; report.finish()?.as_slice() == lines.as_slice());
    let mut text = TextBuffer::new(rt.alloc());
    put_summary(&mut text, &summary);
    assert!(rt;
        text.finish()?.as_slice() == b"records 1234, earlier than the record before 3\n".as_slice()
    );
    Ok(())
}

fn request(channel: u8, flow: usize, cluster: u8, units: u16) -> Request {
    Request {
        channel,
        flow,
        cluster,
        units,
        sequence: 0,
    }
}

const LINES: &str = "\
time,channel,sid,flow,cluster,units
1600000000.123456789,0,256,0,1,9
1600000000.000000005,3,16383,0,0,65535
18446744073.709551615,15,1,3,7,1
0.000000000,0,2,3,0,3
";

/// The lines of requests that were made at these times, in nanoseconds, on these SIDs.
fn lines_of_requests(alloc: Global) -> Result<Vec<u8>, AllocError> {
    let mut lines = RequestLines::new(alloc);
    lines.put_names();
    for (time, sid, request) in [
        (1_600_000_000_123_456_789, 256, request(0, 0, 1, 9)),
        (1_600_000_000_000_000_005, 16_383, request(3, 0, 0, 65_535)),
        (u64::MAX, 1, request(15, 3, 7, 1)),
        (0, 2, request(0, 3, 0, 3)),
    ] {
        lines.put(alloc, time, sid, &request);
    }
    lines.finish()
}

#[test]
fn requests_are_lines_of_csv(rt: HostRuntime) -> Result<(), Fail> {
    assert!(rt; lines_of_requests(rt.alloc())?.as_slice() == LINES.as_bytes());
    Ok(())
}

/// The fields of these lines.
const ROWS: [[&str; 6]; 5] = [
    ["time", "channel", "sid", "flow", "cluster", "units"],
    ["1600000000.123456789", "0", "256", "0", "1", "9"],
    ["1600000000.000000005", "3", "16383", "0", "0", "65535"],
    ["18446744073.709551615", "15", "1", "3", "7", "1"],
    ["0.000000000", "0", "2", "3", "0", "3"],
];

#[test]
fn lines_of_requests_are_read_by_a_reader_of_csv(rt: HostRuntime) -> Result<(), Fail> {
    let mut builder = ReaderBuilder::new();
    builder.has_headers(false);
    let mut reader = builder.from_reader(rt.alloc(), LINES.as_bytes());
    let mut row = ByteRecord::new(rt.alloc());
    for fields in ROWS {
        let Ok(true) = reader.read_byte_record(&mut row) else {
            return Err(Fail::from("no row"));
        };
        assert!(rt; row.len() == fields.len());
        for (place, field) in fields.iter().enumerate() {
            assert!(rt; row.get(place) == Some(field.as_bytes()));
        }
    }
    assert!(rt; matches!(reader.read_byte_record(&mut row), Ok(false)));
    Ok(())
}

/// All that was counted of a capture of much, as JSON: one line.
const JSON: &str = "\
{\"channels\":[{\"above_grant\":1,\"admitted\":307,\"bursts\":310,\"channel\":0,\"id\":5,\
\"refused_bursts\":{\"bad_check\":2,\"no_grant\":0,\"out_of_memory\":0,\
\"pointer_past_the_end\":1,\"too_long\":0,\"too_short\":0},\
\"refused_grants\":{\"known\":0,\"out_of_memory\":0,\"out_of_range\":0,\"too_many\":0,\
\"unknown_sid\":0}},{\"above_grant\":0,\"admitted\":1,\"bursts\":13,\"channel\":3,\
\"id\":4294967295,\"refused_bursts\":{\"bad_check\":1,\"no_grant\":1,\"out_of_memory\":2,\
\"pointer_past_the_end\":1,\"too_long\":1,\"too_short\":1},\
\"refused_grants\":{\"known\":1,\"out_of_memory\":1,\"out_of_range\":1,\"too_many\":1,\
\"unknown_sid\":1}},{\"above_grant\":0,\"admitted\":0,\"bursts\":0,\"channel\":15,\
\"id\":0,\"refused_bursts\":{\"bad_check\":0,\"no_grant\":0,\"out_of_memory\":0,\
\"pointer_past_the_end\":0,\"too_long\":0,\"too_short\":0},\
\"refused_grants\":{\"known\":0,\"out_of_memory\":0,\"out_of_range\":0,\"too_many\":0,\
\"unknown_sid\":0}}],\"clock_crowded\":6,\"clock_set_back\":5,\
\"comparison\":null,\"earlier\":3,\
\"flows\":[{\"frames\":{\"all\":120,\"encrypted\":4,\"fcs_right\":114,\"fcs_wrong\":2},\
\"requests\":{\"all\":2,\"units\":65544},\"restarts\":1,\"segments\":{\"beyond\":3,\
\"kept\":300,\"late\":1,\"lost\":10,\"repeated\":2},\"sfid\":100,\"skipped_bytes\":4567},\
{\"frames\":{\"all\":0,\"encrypted\":0,\"fcs_right\":0,\"fcs_wrong\":0},\
\"requests\":{\"all\":0,\"units\":0},\"restarts\":0,\"segments\":{\"beyond\":0,\"kept\":0,\
\"late\":0,\"lost\":0,\"repeated\":0},\"sfid\":4294967295,\"skipped_bytes\":0},\
{\"frames\":{\"all\":0,\"encrypted\":0,\"fcs_right\":0,\"fcs_wrong\":0},\
\"requests\":{\"all\":0,\"units\":0},\"restarts\":0,\"segments\":{\"beyond\":0,\"kept\":0,\
\"late\":0,\"lost\":0,\"repeated\":0},\"sfid\":0,\"skipped_bytes\":0},\
{\"frames\":{\"all\":18446744073709551615,\"encrypted\":18446744073709551615,\
\"fcs_right\":18446744073709551615,\"fcs_wrong\":18446744073709551615},\
\"requests\":{\"all\":2,\"units\":4},\"restarts\":18446744073709551615,\
\"segments\":{\"beyond\":18446744073709551615,\"kept\":18446744073709551615,\
\"late\":18446744073709551615,\"lost\":18446744073709551615,\
\"repeated\":18446744073709551615},\"sfid\":7,\"skipped_bytes\":18446744073709551615}],\
\"passed\":{\"cut_short\":2,\"malformed\":4,\"no_channel_or_sid\":6,\
\"no_segment_header\":5,\"other_link_type\":1,\"other_type\":3,\"unknown_channel\":7,\
\"unknown_sid\":8},\"records\":1234}
";

/// How frames compare, behind what stands before it where nothing else came.
const COMPARISON: &str = "\
{\"channels\":[],\"clock_crowded\":6,\"clock_set_back\":5,\"comparison\":{\
\"flows\":[{\"both\":1,\"flow\":0,\"only_analyser\":0,\"only_here\":1,\"sfid\":100},\
{\"both\":0,\"flow\":2,\"only_analyser\":1,\"only_here\":0,\"sfid\":null}],\
\"only_analyser\":[{\"bytes\":2,\"first\":\"0aff\",\"flow\":2,\"nanoseconds\":7,\
\"seconds\":2,\"sfid\":null,\"why\":{\"burst\":5,\"reason\":\"beyond\"}}],\"only_here\":[{\"bytes\":0,\"first\":\"\",\"flow\":0,\
\"nanoseconds\":1,\"seconds\":0,\"sfid\":100}],\"strangers\":4,\"whole\":true},\
\"earlier\":3,";

/// How frames of three flows compare, of which the map has two.
fn some_compared(alloc: Global) -> Result<FrameComparison, AllocError> {
    let mut comparison = FrameComparison::new(alloc, 3)?;
    comparison.take(alloc, Side::Here, 0, 1, b"\x01", &[]);
    comparison.take(alloc, Side::Analyser, 0, 1, b"\x01", &[]);
    comparison.take(alloc, Side::Analyser, 2, 2_000_000_007, b"\x0a\xff", &[5]);
    comparison.take(alloc, Side::Here, 0, 1, b"", &[]);
    comparison.finish(alloc);
    Ok(comparison)
}

/// The lines of that comparison, where four frames are of no flow.
const COMPARISON_REPORT: &str = "\
compared 0 both 1 analyser 0 here 1
compared 2 both 0 analyser 1 here 0
only analyser 2 2000000007 2 0aff beyond 5
only here 0 1 0 -
comparison whole strangers 4
";

#[test]
fn report_tells_how_frames_compare(rt: HostRuntime) -> Result<(), Fail> {
    let comparison = some_compared(rt.alloc())?;
    let mut text = TextBuffer::new(rt.alloc());
    let reasons = [MissingReason::Burst(5, BurstFate::Beyond)];
    put_comparison_report(&mut text, &comparison, &reasons, 4);
    assert!(rt; text.finish()?.as_slice() == COMPARISON_REPORT.as_bytes());
    Ok(())
}

#[test]
fn json_tells_how_frames_compare(rt: HostRuntime) -> Result<(), Fail> {
    let flows = [BUSY_FLOW, FlowSummary::new(6)];
    let summary = summary_of(rt.alloc(), &flows, &[], PassedCounts::none())?;
    let comparison = some_compared(rt.alloc())?;
    let reasons = [MissingReason::Burst(5, BurstFate::Beyond)];
    let text = summary_json(rt.alloc(), &summary, Some(&comparison), &reasons, 4)?;
    assert!(rt; text.as_slice().starts_with(COMPARISON.as_bytes()));
    Ok(())
}

#[test]
fn json_tells_all_that_was_counted(rt: HostRuntime) -> Result<(), Fail> {
    let text = summary_json(rt.alloc(), &much(rt.alloc())?, None, &[], 0)?;
    assert!(rt; text.as_slice() == JSON.as_bytes());
    Ok(())
}
