//! What comes of a capture that is joined.
use crate::capture_samples::{
    frames_apart, joined_file, map_of_two_channels, segments_at, still_segments, two_segments,
};
use capture_map::CaptureMap;
use captured_flows::Waits;
use engines::{Device, EngineFault, ReadBehind};
use flow_selection::Selection;
use frame_engine::{
    CaptureSettings, CaptureTally, Comparing, FrameReading, InnerCheck, NoProgress, join_capture,
};
use frame_records::FrameLink;
use loss_rule::LossRule;
use std::alloc::Global;
use std::io;
use std::io::{Error, ErrorKind, Read, Write};
use std::test::Fail;

/// Gives some bytes, so many at once.
#[derive(Drop)]
pub(crate) struct InPieces<'a> {
    pub(crate) rest: &'a [u8],
    pub(crate) size: usize,
}

impl Read for InPieces<'_> {
    fn read(&mut self, buf: &mut [u8]) -> io::Result<usize> {
        let count = self.size.min(self.rest.len()).min(buf.len());
        let (front, rest) = self.rest.split_at(count);
        buf[..count].copy_from_slice(front);
        self.rest = rest;
        Ok(count)
    }
}

impl ReadBehind for InPieces<'_> {
    fn read_behind<W: Write>(&mut self, _writer: &Device<W>, buf: &mut [u8]) -> io::Result<usize> {
        self.read(buf)
    }
}

/// Takes nothing.
#[derive(Drop)]
struct Full;

impl Write for Full {
    fn write(&mut self, _buf: &[u8]) -> io::Result<usize> {
        Err(Error::new(ErrorKind::StorageFull, "full"))
    }

    fn flush(&mut self) -> io::Result<()> {
        Ok(())
    }
}

/// The settings that are usual, with this link type.
pub(crate) fn settings(link: FrameLink) -> CaptureSettings {
    CaptureSettings {
        rule: LossRule::PassedOrSlid,
        waits: Waits {
            reorder: 2_000_000,
            wait: 20_000_000,
        },
        check: InnerCheck::Sequence,
        link,
        selected: Selection::All,
    }
}

/// What came of a capture.
#[derive(Drop)]
pub(crate) struct Joined {
    pub(crate) done: Result<(), EngineFault>,
    pub(crate) frames: Vec<u8>,
    pub(crate) requests: Vec<u8>,
    pub(crate) tally: CaptureTally,
}

/// Joins a capture that is read in pieces of this size.
fn join(alloc: Global, bytes: &[u8], size: usize, link: FrameLink) -> Result<Joined, Fail> {
    join_by(
        alloc,
        bytes,
        size,
        settings(link),
        map_of_two_channels(alloc)?,
    )
}

/// The same by other settings and another map.
pub(crate) fn join_by(
    alloc: Global,
    bytes: &[u8],
    size: usize,
    settings: CaptureSettings,
    capture_map: CaptureMap,
) -> Result<Joined, Fail> {
    let mut tally = CaptureTally::new(alloc, &capture_map, &settings.selected, true)?;
    let Ok(reading) = FrameReading::new(alloc, settings, capture_map) else {
        return Err("the map can't be set up".into());
    };
    let mut frames = Vec::new(alloc);
    let mut requests = Vec::new(alloc);
    let mut reader = Device::new(InPieces { rest: bytes, size });
    let mut writer = Device::new(&mut frames);
    let mut lines = Some(Device::new(&mut requests));
    let mut comparing = Comparing::nothing();
    let done = join_capture(
        alloc,
        reading,
        &mut tally,
        &mut comparing,
        &mut lines,
        &mut reader,
        &mut writer,
        &mut NoProgress,
    );
    reader.into_inner();
    writer.into_inner();
    if let Some(lines) = lines {
        lines.into_inner();
    }
    Ok(Joined {
        done,
        frames,
        requests,
        tally,
    })
}

#[test]
fn a_capture_is_joined_in_pieces_of_any_size(rt: HostRuntime) -> Result<(), Fail> {
    let bytes = two_segments(rt.alloc())?;
    for (link, size) in [(FrameLink::Docsis, 7), (FrameLink::Xra, 1_000_000)] {
        let wanted = joined_file(rt.alloc(), link)?;
        let joined = join(rt.alloc(), &bytes, size, link)?;
        assert!(rt; joined.done.is_ok());
        assert!(rt; joined.frames == wanted);
        assert!(rt;
            joined.requests.as_slice()
                == b"time,channel,sid,flow,cluster,units\n1.000000001,0,7,0,0,9\n".as_slice()
        );
    }
    Ok(())
}

#[test]
fn a_capture_is_counted(rt: HostRuntime) -> Result<(), Fail> {
    let bytes = two_segments(rt.alloc())?;
    let joined = join(rt.alloc(), &bytes, 50, FrameLink::Docsis)?;
    let summary = &joined.tally.summary;
    assert!(rt; summary.records == 3);
    assert!(rt; summary.earlier == 0);
    assert!(rt; summary.passed.unknown_channel == 1);
    let Some(flow) = summary.flows.first() else {
        return Err("no flow".into());
    };
    assert!(rt; flow.counts.kept == 2);
    assert!(rt; flow.counts.frames == 1);
    assert!(rt; flow.counts.lost == 0);
    assert!(rt; flow.wrong == 1);
    assert!(rt; flow.requests == 1);
    assert!(rt; flow.units == 9);
    assert!(rt; flow.restarts == 0);
    for channel in &summary.channels {
        assert!(rt; channel.bursts == 1);
        assert!(rt; channel.admitted == 1);
        assert!(rt; channel.refused.is_empty());
    }
    assert!(rt; joined.tally.lost_requests().is_none());
    Ok(())
}

#[test]
fn a_clock_that_is_set_back_is_told(rt: HostRuntime) -> Result<(), Fail> {
    let mut bytes = segments_at(rt.alloc(), [2, 1])?;
    let joined = join(rt.alloc(), &bytes, 50, FrameLink::Docsis)?;
    let summary = &joined.tally.summary;
    assert!(rt; joined.done.is_ok());
    assert!(rt; summary.earlier == 1);
    assert!(rt; summary.set_back == 1);
    assert!(rt; summary.crowded == 0);
    let Some(flow) = summary.flows.first() else {
        return Err("no flow".into());
    };
    assert!(rt; flow.counts.frames == 1);
    // Also where a fault ends the capture.
    bytes.push(0)?;
    let joined = join(rt.alloc(), &bytes, 50, FrameLink::Docsis)?;
    assert!(rt; joined.done.is_err());
    assert!(rt; joined.tally.summary.set_back == 1);
    Ok(())
}

#[test]
fn bursts_that_are_handed_on_early_are_told(rt: HostRuntime) -> Result<(), Fail> {
    let bytes = still_segments(rt.alloc(), 2060)?;
    let joined = join(rt.alloc(), &bytes, 5000, FrameLink::Docsis)?;
    let summary = &joined.tally.summary;
    assert!(rt; joined.done.is_ok());
    assert!(rt; summary.records == 2060);
    assert!(rt; summary.earlier == 0);
    assert!(rt; summary.set_back == 0);
    assert!(rt; summary.crowded == 12);
    Ok(())
}

/// Gives some bytes, and then fails.
#[derive(Drop)]
struct Breaking<'a> {
    given: InPieces<'a>,
}

impl Read for Breaking<'_> {
    fn read(&mut self, buf: &mut [u8]) -> io::Result<usize> {
        match self.given.read(buf) {
            Ok(0) => Err(Error::new(ErrorKind::ConnectionReset, "broken")),
            given => given,
        }
    }
}

impl ReadBehind for Breaking<'_> {
    fn read_behind<W: Write>(&mut self, _writer: &Device<W>, buf: &mut [u8]) -> io::Result<usize> {
        self.read(buf)
    }
}

#[test]
fn times_are_told_where_a_read_fails(rt: HostRuntime) -> Result<(), Fail> {
    let alloc = rt.alloc();
    let bytes = segments_at(alloc, [2, 1])?;
    let capture_map = map_of_two_channels(alloc)?;
    let mut tally = CaptureTally::new(alloc, &capture_map, &Selection::All, false)?;
    let Ok(reading) = FrameReading::new(alloc, settings(FrameLink::Xra), capture_map) else {
        return Err("the map can't be set up".into());
    };
    let given = InPieces {
        rest: &bytes,
        size: 50,
    };
    let mut frames = Vec::new(alloc);
    let mut reader = Device::new(Breaking { given });
    let mut writer = Device::new(&mut frames);
    let mut lines: Option<Device<Full>> = None;
    let mut comparing = Comparing::nothing();
    let done = join_capture(
        alloc,
        reading,
        &mut tally,
        &mut comparing,
        &mut lines,
        &mut reader,
        &mut writer,
        &mut NoProgress,
    );
    reader.into_inner();
    writer.into_inner();
    if let Some(lines) = lines {
        lines.into_inner();
    }
    assert!(rt; matches!(done, Err(EngineFault::Read)));
    assert!(rt; tally.summary.records == 3);
    assert!(rt; tally.summary.set_back == 1);
    Ok(())
}

#[test]
fn what_came_before_a_fault_is_counted(rt: HostRuntime) -> Result<(), Fail> {
    let mut bytes = frames_apart(rt.alloc())?;
    bytes.pop();
    let joined = join(rt.alloc(), &bytes, 50, FrameLink::Docsis)?;
    assert!(rt; joined.done.is_err());
    let Some(flow) = joined.tally.summary.flows.first() else {
        return Err("no flow".into());
    };
    // The second of the two that came whole waits for its neighbours.
    assert!(rt; flow.counts.kept == 1);
    assert!(rt; flow.counts.frames == 1);
    assert!(rt; flow.wrong == 1);
    Ok(())
}

#[test]
fn a_fault_is_told_behind_the_frames_before_it(rt: HostRuntime) -> Result<(), Fail> {
    let mut bytes = two_segments(rt.alloc())?;
    bytes.pop();
    let joined = join(rt.alloc(), &bytes, 50, FrameLink::Docsis)?;
    match joined.done {
        Err(EngineFault::Capture(fault)) => assert!(rt; fault.records == 2),
        _ => return Err("another outcome".into()),
    }
    // The header alone: the frame isn't whole.
    assert!(rt; joined.frames.len() == 24);
    let joined = join(rt.alloc(), &[], 50, FrameLink::Docsis)?;
    assert!(rt; matches!(joined.done, Err(EngineFault::Capture(_))));
    Ok(())
}

/// Joins two segments into so much room, which is too little, and answers how many were kept.
fn kept_without_room(alloc: Global, room: &mut [u8]) -> Result<u64, Fail> {
    let bytes = two_segments(alloc)?;
    let capture_map = map_of_two_channels(alloc)?;
    let mut tally = CaptureTally::new(alloc, &capture_map, &Selection::All, false)?;
    let Ok(reading) = FrameReading::new(alloc, settings(FrameLink::Xra), capture_map) else {
        return Err("the map can't be set up".into());
    };
    let mut reader = Device::new(InPieces {
        rest: &bytes,
        size: 50,
    });
    let mut writer = Device::new(room);
    let mut lines: Option<Device<Full>> = None;
    let mut comparing = Comparing::nothing();
    let done = join_capture(
        alloc,
        reading,
        &mut tally,
        &mut comparing,
        &mut lines,
        &mut reader,
        &mut writer,
        &mut NoProgress,
    );
    reader.into_inner();
    writer.into_inner();
    if let Some(lines) = lines {
        lines.into_inner();
    }
    let Some(flow) = tally.summary.flows.first() else {
        return Err("no flow".into());
    };
    match done {
        Err(EngineFault::Write) => Ok(flow.counts.kept),
        _ => Err("another outcome".into()),
    }
}

#[test]
fn a_full_writer_is_a_fault(rt: HostRuntime) -> Result<(), Fail> {
    // Room for nothing, for the header, and for a part of the frame, which comes at the end.
    let mut room = [0u8; 40];
    for (size, kept) in [(0usize, 0u64), (24, 2), (40, 2)] {
        let Some(front) = room.get_mut(0..size) else {
            return Err("no such room".into());
        };
        assert!(rt; kept_without_room(rt.alloc(), front)? == kept);
    }
    Ok(())
}
