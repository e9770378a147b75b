//! The frames of some flows of a capture: those of the whole, in their order, but those of the
//! others.
use crate::capture_samples::{frame_with, header, map_of_flows, put_burst_of, put_file};
use crate::joined::{Joined, join_by, settings};
use captured_flows::Waits;
use flow_selection::{FlowList, FlowRange, Selection, Shard};
use frame_engine::CaptureSettings;
use frame_records::FrameLink;
use std::alloc::{AllocError, Global};
use std::test::Fail;

/// How many flows there are.
const FLOWS: u8 = 5;

/// Numbers by chance.
#[derive(Drop)]
struct Chance {
    state: u64,
}

impl Chance {
    /// The next one, below this.
    fn below(&mut self, bound: u8) -> u8 {
        self.state = self
            .state
            .wrapping_mul(6_364_136_223_846_793_005)
            .wrapping_add(1_442_695_040_888_963_407);
        let high = (self.state >> 40) & 0xffff;
        (high * u64::from(bound) / 0x1_0000) as u8
    }
}

/// How far a flow's segments came.
#[derive(Clone, Copy)]
struct Sender {
    /// The next number, up to 31.
    number: u8,
    /// Whether a frame is begun and not ended.
    is_within: bool,
}

/// The end of a frame that is begun, the front of one, or all of it.
fn part_of(frame: &[u8; 8], is_within: bool, is_front: bool) -> &[u8] {
    if is_within {
        return &frame[5..];
    }
    if is_front { &frame[..5] } else { frame }
}

/// Appends the next burst of a flow: a whole frame, the front of one or its end. One of eight
/// bursts is lost.
fn put_next(
    out: &mut Vec<u8>,
    second: u8,
    flow: u8,
    sender: &mut Sender,
    chance: &mut Chance,
) -> Result<(), AllocError> {
    let number = sender.number;
    let frame = frame_with(flow, number);
    let is_front = !sender.is_within && chance.below(2) == 0;
    let part = part_of(&frame, sender.is_within, is_front);
    let header = header(number, !sender.is_within, chance.below(3));
    sender.number = number.wrapping_add(1);
    sender.is_within = is_front;
    let channel = chance.below(2).saturating_add(100);
    if chance.below(8) == 0 {
        return Ok(());
    }
    put_burst_of(out, second, (channel, flow.saturating_add(7)), header, part)
}

/// A capture of bursts of five flows in an order by chance.
fn some_capture(alloc: Global, seed: u64) -> Result<Vec<u8>, AllocError> {
    let mut chance = Chance { state: seed };
    let mut senders = [Sender {
        number: 0,
        is_within: false,
    }; 5];
    let mut file = Vec::new(alloc);
    put_file(&mut file)?;
    for place in 0..100_u8 {
        let flow = chance.below(FLOWS);
        if let Some(sender) = senders.get_mut(usize::from(flow))
            && sender.number < 31
        {
            put_next(&mut file, 1 + place / 4, flow, sender, &mut chance)?;
        }
    }
    Ok(file)
}

/// What comes of a capture for the flows of a selection.
fn join_some(alloc: Global, bytes: &[u8], selected: Selection) -> Result<Joined, Fail> {
    let settings = CaptureSettings {
        waits: Waits {
            reorder: 0,
            wait: 20_000_000,
        },
        selected,
        ..settings(FrameLink::Docsis)
    };
    let joined = join_by(alloc, bytes, 500, settings, map_of_flows(alloc, FLOWS)?)?;
    if joined.done.is_err() {
        return Err("a fault".into());
    }
    Ok(joined)
}

/// The file of frames without those of the flows whose index leaves another remainder. Its records
/// have 24 bytes, of which the 23rd is the flow's index.
fn frames_left(alloc: Global, whole: &[u8], remainder: u8, count: u8) -> Result<Vec<u8>, Fail> {
    let Some((header, records)) = whole.split_at_checked(24) else {
        return Err("no header".into());
    };
    let mut left = Vec::from_slice(alloc, header)?;
    for record in records.chunks(24) {
        let Some(flow) = record.get(22) else {
            return Err("a record of another length".into());
        };
        if flow.checked_rem(count) == Some(remainder) {
            left.extend_from_slice(record)?;
        }
    }
    Ok(left)
}

#[test]
fn shards_have_the_frames_of_their_flows(rt: HostRuntime) -> Result<(), Fail> {
    let alloc = rt.alloc();
    for seed in 0..2 {
        let bytes = some_capture(alloc, seed)?;
        let whole = join_some(alloc, &bytes, Selection::All)?;
        assert!(rt; whole.frames.len() > 24 * 20);
        for count in [1_u8, 3, 6] {
            let mut together = 24_usize;
            for remainder in 0..count {
                let shard = Shard {
                    remainder: u16::from(remainder),
                    count: u16::from(count),
                };
                let joined = join_some(alloc, &bytes, Selection::Shard(shard))?;
                assert!(rt; joined.frames == frames_left(alloc, &whole.frames, remainder, count)?);
                assert!(rt; joined.requests == whole.requests);
                together = together.saturating_add(joined.frames.len().saturating_sub(24));
            }
            assert!(rt; together == whole.frames.len());
        }
    }
    Ok(())
}

#[test]
fn frames_of_listed_flows_are_written_and_counted(rt: HostRuntime) -> Result<(), Fail> {
    let alloc = rt.alloc();
    let bytes = some_capture(alloc, 9)?;
    let whole = join_some(alloc, &bytes, Selection::All)?;
    let ranges = vec![in alloc;
        FlowRange { first: 0, last: 0 },
        FlowRange { first: 2, last: 2 },
        FlowRange { first: 4, last: 4 },
    ]?;
    let listed = Selection::Listed(FlowList::new(alloc, ranges)?);
    let joined = join_some(alloc, &bytes, listed)?;
    assert!(rt; joined.frames == frames_left(alloc, &whole.frames, 0, 2)?);
    for (k, flow) in joined.tally.summary.flows.iter().enumerate() {
        let Some(of_whole) = whole.tally.summary.flows.get(k) else {
            return Err("no flow".into());
        };
        assert!(rt; flow.is_selected == (k % 2 == 0));
        assert!(rt; of_whole.is_selected);
        assert!(rt; !flow.is_selected || flow == of_whole);
    }
    assert!(rt; joined.tally.summary.channels == whole.tally.summary.channels);
    let listed = Selection::Listed(FlowList::new(alloc, Vec::new(alloc))?);
    let none = join_some(alloc, &bytes, listed)?;
    assert!(rt; none.frames.len() == 24);
    assert!(rt; none.requests == whole.requests);
    Ok(())
}
