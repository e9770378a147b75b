//! A capture of a frame in two segments on two channels, and its map.
use capture_map::{CaptureMap, MapChannel, MapFlow, MapSid};
use docsis_wire::check_sequence;
use frame_records::{FrameLink, FrameOrigin, put_file_header, put_frame};
use std::alloc::{AllocError, Global};

/// The map of one flow, which begins at 0, with a service identifier, 7, on the upstream channels
/// 100 and 101.
pub(crate) fn map_of_two_channels(alloc: Global) -> Result<CaptureMap, AllocError> {
    map_of_flows(alloc, 1)
}

/// The map of so many such flows, each with a service identifier of its own from 7 on.
pub(crate) fn map_of_flows(alloc: Global, count: u8) -> Result<CaptureMap, AllocError> {
    let mut capture_map = CaptureMap {
        flows: Vec::new(alloc),
        channels: Vec::new(alloc),
        sids: Vec::new(alloc),
    };
    for flow in 0..count {
        capture_map.flows.push(MapFlow {
            sfid: 1 + u32::from(flow),
            first: Some(0),
            window: 64,
            clusters: 1,
        })?;
    }
    for channel in 0..2_u8 {
        let id = 100 + u32::from(channel);
        capture_map.channels.push(MapChannel { channel, id })?;
        for flow in 0..count {
            capture_map.sids.push(MapSid {
                channel,
                sid: 7 + u16::from(flow),
                flow: u16::from(flow),
            })?;
        }
    }
    Ok(capture_map)
}

/// A frame of eight bytes, whose header check sequence is right.
pub(crate) fn frame() -> [u8; 8] {
    frame_with(0xaa, 0xbb)
}

/// The same with these two bytes behind its header.
pub(crate) fn frame_with(first: u8, second: u8) -> [u8; 8] {
    let [low, high] = check_sequence(&[0, 0, 0, 2]).to_le_bytes();
    [0, 0, 0, 2, low, high, first, second]
}

/// The header of the segment with this number, in which a frame begins at its front or none does,
/// and which asks for so many units.
pub(crate) fn header(number: u8, begins: bool, units: u8) -> [u8; 8] {
    let first = if begins { 0x80 } else { 0 };
    let front = [first, 0, 0, number.wrapping_mul(8), 0, units];
    let [low, high] = check_sequence(&front).to_le_bytes();
    [
        front[0], front[1], front[2], front[3], front[4], front[5], low, high,
    ]
}

/// Appends a record of a packet with a burst of the first flow on this upstream channel, which came
/// at this second. Its payload has at most 100 bytes.
fn put_burst(
    out: &mut Vec<u8>,
    second: u8,
    channel: u8,
    header: [u8; 8],
    payload: &[u8],
) -> Result<(), AllocError> {
    put_burst_of(out, second, (channel, 7), header, payload)
}

/// So of the flow that has this service identifier on the channel.
pub(crate) fn put_burst_of(
    out: &mut Vec<u8>,
    second: u8,
    (channel, sid): (u8, u8),
    header: [u8; 8],
    payload: &[u8],
) -> Result<(), AllocError> {
    let length = if payload.len() <= 100 {
        (22 + payload.len()) as u8
    } else {
        0
    };
    out.extend_from_slice(&[
        0, 0, 0, second, 0, 0, 0, 1, 0, 0, 0, length, 0, 0, 0, length,
    ])?;
    out.extend_from_slice(&[1, 0x41, 0, 10, 10, 1, channel, 11, 2, 0, sid, 18, 1, 1])?;
    out.extend_from_slice(&header)?;
    out.extend_from_slice(payload)
}

/// Appends the header of a pcap file in nanoseconds, of link type 273.
pub(crate) fn put_file(out: &mut Vec<u8>) -> Result<(), AllocError> {
    out.extend_from_slice(&[
        0xa1, 0xb2, 0x3c, 0x4d, 0, 2, 0, 4, 0, 0, 0, 0, 0, 0, 0, 0, 0, 4, 0, 0, 0, 0, 1, 0x11,
    ])
}

/// A capture of the frame in two segments, the second a second after the first, and between them of
/// a burst on an upstream channel that the map doesn't have.
pub(crate) fn two_segments(alloc: Global) -> Result<Vec<u8>, AllocError> {
    segments_at(alloc, [1, 2])
}

/// The same, where the segments come at these seconds.
pub(crate) fn segments_at(alloc: Global, seconds: [u8; 2]) -> Result<Vec<u8>, AllocError> {
    let frame = frame();
    let mut file = Vec::new(alloc);
    put_file(&mut file)?;
    let [first, second] = seconds;
    put_burst(&mut file, first, 100, header(0, true, 9), &frame[..5])?;
    put_burst(&mut file, first, 102, header(0, true, 0), &frame)?;
    put_burst(&mut file, second, 101, header(1, false, 0), &frame[5..])?;
    Ok(file)
}

/// A capture of so many segments of one channel, all of one time.
pub(crate) fn still_segments(alloc: Global, count: usize) -> Result<Vec<u8>, AllocError> {
    let mut file = Vec::new(alloc);
    put_file(&mut file)?;
    for place in 0..count {
        put_burst(
            &mut file,
            1,
            100,
            header((place % 32) as u8, true, 0),
            &frame(),
        )?;
    }
    Ok(file)
}

/// A capture of three segments of one channel, a second apart, each with a whole frame. The first
/// asks for 9 units, the last for 5.
pub(crate) fn frames_apart(alloc: Global) -> Result<Vec<u8>, AllocError> {
    let mut file = Vec::new(alloc);
    put_file(&mut file)?;
    for (number, units) in [(0, 9), (1, 0), (2, 5)] {
        put_burst(
            &mut file,
            1 + number,
            100,
            header(number, true, units),
            &frame(),
        )?;
    }
    Ok(file)
}

/// The same, and behind each segment, at its time, the frame that the analyser joined of it, if it
/// did.
pub(crate) fn frames_joined_twice(
    alloc: Global,
    joined: [Option<[u8; 8]>; 3],
) -> Result<Vec<u8>, AllocError> {
    let mut file = Vec::new(alloc);
    put_file(&mut file)?;
    for (place, one) in joined.iter().enumerate() {
        let number = place as u8;
        put_burst(
            &mut file,
            1 + number,
            100,
            header(number, true, 0),
            &frame(),
        )?;
        if let Some(frame) = one {
            put_joined(&mut file, 1 + number, 7, frame)?;
        }
    }
    Ok(file)
}

/// Appends a record of a packet with a frame that the analyser joined, of this service identifier.
pub(crate) fn put_joined(
    out: &mut Vec<u8>,
    second: u8,
    sid: u8,
    frame: &[u8; 8],
) -> Result<(), AllocError> {
    out.extend_from_slice(&[0, 0, 0, second, 0, 0, 0, 1, 0, 0, 0, 19, 0, 0, 0, 19])?;
    out.extend_from_slice(&[1, 0x50, 0, 7, 10, 1, 100, 11, 2, 0, sid])?;
    out.extend_from_slice(frame)
}

/// Appends a record of a burst on an upstream channel, with this number of the analyser's.
pub(crate) fn put_numbered(
    out: &mut Vec<u8>,
    channel: u8,
    burst: u8,
    header: [u8; 8],
    payload: &[u8; 8],
) -> Result<(), AllocError> {
    out.extend_from_slice(&[0, 0, 0, 1, 0, 0, 0, 1, 0, 0, 0, 33, 0, 0, 0, 33])?;
    out.extend_from_slice(&[1, 0x41, 0, 13, 10, 1, channel, 11, 2, 0, 7, 13, 1, burst])?;
    out.extend_from_slice(&[18, 1, 1])?;
    out.extend_from_slice(&header)?;
    out.extend_from_slice(payload)
}

/// Appends a record of a packet with a frame that the analyser joined of these bursts, at most ten.
pub(crate) fn put_named(
    out: &mut Vec<u8>,
    bursts: &[u8],
    frame: &[u8; 8],
) -> Result<(), AllocError> {
    let tlvs = 7 + 5 * bursts.len().min(10) as u8;
    let length = 12 + tlvs;
    out.extend_from_slice(&[0, 0, 0, 1, 0, 0, 0, 1, 0, 0, 0, length, 0, 0, 0, length])?;
    out.extend_from_slice(&[1, 0x50, 0, tlvs, 10, 1, 100, 11, 2, 0, 7])?;
    for burst in bursts.iter().take(10) {
        out.extend_from_slice(&[14, 3, 1, 1, *burst])?;
    }
    out.extend_from_slice(frame)
}

/// The file of these frames: its header, and three records with a header of 16 bytes.
pub(crate) const FRAMES_APART: [u8; 96] = [
    0x4d, 0x3c, 0xb2, 0xa1, 2, 0, 4, 0, 0, 0, 0, 0, 0, 0, 0, 0, 0, 0, 4, 0, 143, 0, 0, 0, 1, 0, 0,
    0, 1, 0, 0, 0, 8, 0, 0, 0, 8, 0, 0, 0, 0, 0, 0, 2, 0xcc, 0xdf, 0xaa, 0xbb, 2, 0, 0, 0, 1, 0, 0,
    0, 8, 0, 0, 0, 8, 0, 0, 0, 0, 0, 0, 2, 0xcc, 0xdf, 0xaa, 0xbb, 3, 0, 0, 0, 1, 0, 0, 0, 8, 0, 0,
    0, 8, 0, 0, 0, 0, 0, 0, 2, 0xcc, 0xdf, 0xaa, 0xbb,
];

/// Whether these bytes are that file.
pub(crate) fn are_frames_apart(bytes: &[u8]) -> bool {
    bytes == FRAMES_APART.as_slice()
}

/// The lines of the requests in that capture.
pub(crate) const REQUESTS_APART: [u8; 80] = *b"time,channel,sid,flow,cluster,units\n\
    1.000000001,0,7,0,0,9\n\
    3.000000001,0,7,0,0,5\n";

/// The file of that frame, at the time of the second segment.
pub(crate) fn joined_file(alloc: Global, link: FrameLink) -> Result<Vec<u8>, AllocError> {
    let origin = FrameOrigin {
        channel: 101,
        sid: 7,
        burst_id: None,
    };
    let mut file = Vec::new(alloc);
    put_file_header(&mut file, link)?;
    put_frame(alloc, &mut file, link, 2_000_000_001, &origin, &frame())?;
    Ok(file)
}
