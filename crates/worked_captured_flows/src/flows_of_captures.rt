//! Captures of one flow.
ghost use Rattle.std.specs.Prelude.{◌<◌};

use capture_map::{CaptureMap, MapChannel, MapFlow, MapSid};
use capture_rules::{Arrival, ClockCounts};
use captured_flows::{
    BurstTaken, CaptureConsumer, CapturedBurst, CapturedFlows, SoundBurst, Waits,
};
use consumer::Consumer;
use docsis_wire::{Bytes, NoCheck};
use flow_core::FlowCounts;
use flow_selection::Selection;
use lane::Request;
use loss_rule::LossRule;
use receiver::{Closed, Reply, SegmentVerdict};
use std::alloc::{AllocError, Global};
use std::test::Fail;

/// One thing that is seen of a capture.
#[derive(Clone, Copy, Debug, PartialEq, Eq)]
pub(crate) enum Seen {
    /// A burst of this flow was handed in, of this time and with this number of the analyser's.
    HandedIn(usize, u64, Option<u64>),
    /// A frame of this flow was given, whose last byte is this.
    Frame(usize, u8),
    /// A request came on this channel.
    Request(u8),
    /// This was replied to a burst of this flow, with this number of the analyser's.
    Replied(usize, Option<u64>, Option<SegmentVerdict>),
    /// This flow began anew, after it had kept and lost so many segments.
    BeganAnew(usize, u64, u64),
}

/// Notes what is seen, and the time of each burst that is handed in.
#[derive(Debug, Drop)]
pub(crate) struct Noted {
    pub(crate) seen: Vec<Seen>,
    pub(crate) times: Vec<u64>,
    pub(crate) is_whole: bool,
}

impl Consumer for Noted {
    ghost after = { λ _ _ _. Unit {0} };

    fn frame(&mut self, flow: usize, frame: Bytes) {
        let last = frame.as_slice().last().copied();
        self.note(Seen::Frame(flow, last.unwrap_or(0)));
    }

    fn request(&mut self, request: Request) {
        self.note(Seen::Request(request.channel));
    }
}

impl CaptureConsumer for Noted {
    ghost saw = { λ _ _ _. Unit {0} };

    ghost begins = { λ _. tt };

    ghost sees = { λ _ _ _ _ _ _ _. tt };

    fn hand_in(&mut self, flow: usize, burst: &Arrival<SoundBurst>) {
        self.note(Seen::HandedIn(flow, burst.time, burst.item.burst_id));
        if self.times.push(burst.time).is_err() {
            self.is_whole = false;
        }
    }

    fn replied(&mut self, flow: usize, burst_id: Option<u64>, reply: Reply) {
        self.note(Seen::Replied(flow, burst_id, verdict_of(reply)));
    }

    fn begin_anew(&mut self, flow: usize, counts: FlowCounts) {
        self.note(Seen::BeganAnew(flow, counts.kept, counts.lost));
    }
}

/// What became of a segment, by what was replied to its burst.
pub(crate) fn verdict_of(reply: Reply) -> Option<SegmentVerdict> {
    match reply {
        Reply::Admitted { told, .. } => Some(told.verdict),
        _ => None,
    }
}

impl Noted {
    pub(crate) fn new(alloc: Global) -> Noted {
        Noted {
            seen: Vec::new(alloc),
            times: Vec::new(alloc),
            is_whole: true,
        }
    }

    fn note(&mut self, one: Seen) {
        if self.seen.push(one).is_err() {
            self.is_whole = false;
        }
    }
}

/// A map of one flow with a service identifier, 7, on so many channels, of the ids from 100 on.
pub(crate) fn map_of(
    alloc: Global,
    first: Option<u16>,
    window: u16,
    channels: u8,
) -> Result<CaptureMap, AllocError> {
    let flows = vec![in alloc;
        MapFlow {
            sfid: 1,
            first,
            window,
            clusters: 1,
        },
    ]?;
    let mut ids = Vec::new(alloc);
    let mut sids = Vec::new(alloc);
    for channel in 0..channels {
        ids.push(MapChannel {
            channel,
            id: 100 + u32::from(channel),
        })?;
        sids.push(MapSid {
            channel,
            sid: 7,
            flow: 0,
        })?;
    }
    Ok(CaptureMap {
        flows,
        channels: ids,
        sids,
    })
}

/// A burst of the segment with this number, without payload.
pub(crate) fn burst(
    alloc: Global,
    time: u64,
    id: u32,
    number: u16,
    check: bool,
) -> Result<CapturedBurst, AllocError> {
    let [high, low] = (number % 8192 * 8).to_be_bytes();
    let bytes = vec![in alloc; 0_u8, 0, high, low, 0, 0, 0, 0]?;
    Ok(CapturedBurst {
        time,
        channel: id,
        sid: 7,
        burst_id: None,
        granted: 0,
        check,
        bytes: Bytes::from(bytes),
    })
}

#[test]
fn bursts_are_passed_over_refused_and_handed_in(rt: HostRuntime) -> Result<(), Fail> {
    let alloc = rt.alloc();
    let waits = Waits {
        reorder: 2,
        wait: 20,
    };
    let map = map_of(alloc, Some(5), 16, 1)?;
    let mut captured = CapturedFlows::new(
        alloc,
        map,
        LossRule::PassedOrSlid,
        waits,
        Selection::All,
        NoCheck,
    )?;
    let mut noted = Noted::new(alloc);
    let unknown = captured.take(alloc, burst(alloc, 0, 101, 5, true)?, &mut noted)?;
    assert!(rt; unknown == BurstTaken::UnknownChannel);
    let mut stranger = burst(alloc, 0, 100, 5, true)?;
    stranger.sid = 8;
    assert!(rt; captured.take(alloc, stranger, &mut noted)? == BurstTaken::UnknownSid);
    let spoiled = captured.take(alloc, burst(alloc, 0, 100, 5, false)?, &mut noted)?;
    assert!(rt; matches!(spoiled, BurstTaken::Refused(Reply::Refused(_))));
    let first = captured.take(alloc, burst(alloc, 1, 100, 6, true)?, &mut noted)?;
    let second = captured.take(alloc, burst(alloc, 2, 100, 5, true)?, &mut noted)?;
    assert!(rt; first == BurstTaken::Waits(0));
    assert!(rt; second == BurstTaken::Waits(0));
    let last = vec![in alloc; burst(alloc, 9, 100, 7, true)?]?;
    captured.take_all(alloc, last, &mut noted)?;
    assert!(rt; noted.times.as_slice() == [2, 1].as_slice());
    captured.end_waiting(alloc, &mut noted)?;
    assert!(rt; noted.is_whole);
    assert!(rt; noted.times.as_slice() == [2, 1, 9].as_slice());
    let closed = captured.into_receiver().close(alloc, &mut noted).1.ok();
    assert!(rt; closed.is_some_and(|closed| closed.flows.len() == 1 && closed.flows[0].kept == 3));
    Ok(())
}

#[test]
fn clocks_of_all_flows_are_counted(rt: HostRuntime) -> Result<(), Fail> {
    let alloc = rt.alloc();
    let waits = Waits {
        reorder: 2,
        wait: 20,
    };
    let map = map_of(alloc, Some(5), 16, 1)?;
    let mut captured = CapturedFlows::new(
        alloc,
        map,
        LossRule::PassedOrSlid,
        waits,
        Selection::All,
        NoCheck,
    )?;
    let mut noted = Noted::new(alloc);
    assert!(rt; captured.clock_counts() == ClockCounts::none());
    // What waits is handed on where the clock is set back, and not where it goes back by 2.
    let bursts = vec![in alloc;
        burst(alloc, 30, 100, 5, true)?,
        burst(alloc, 28, 100, 6, true)?,
        burst(alloc, 27, 100, 7, true)?,
        burst(alloc, 27, 100, 8, true)?,
    ]?;
    captured.take_all(alloc, bursts, &mut noted)?;
    let counts = ClockCounts {
        set_back: 1,
        crowded: 0,
    };
    assert!(rt; captured.clock_counts() == counts);
    assert!(rt; noted.times.as_slice() == [30, 28].as_slice());
    captured.end_waiting(alloc, &mut noted)?;
    assert!(rt; captured.clock_counts() == counts);
    assert!(rt; noted.times.len() == 4);
    let closed = captured.into_receiver().close(alloc, &mut noted).1.ok();
    assert!(rt; closed.is_some_and(|closed| closed.flows.len() == 1 && closed.flows[0].kept == 4));
    Ok(())
}

/// The burst of the segment with this number, whose request for cluster 0 is of this size, and
/// whose payload is this; it came at a time which is also the analyser's number of it.
pub(crate) fn burst_with(
    alloc: Global,
    time: u64,
    number: u16,
    requested: u8,
    payload: &[u8],
) -> Result<CapturedBurst, AllocError> {
    let [high, low] = (number % 8192 * 8).to_be_bytes();
    let mut bytes = vec![in alloc; 0x80, 0, high, low, 0, requested, 0, 0]?;
    bytes.extend_from_slice(payload)?;
    Ok(CapturedBurst {
        time,
        channel: 100,
        sid: 7,
        burst_id: Some(time),
        granted: 0,
        check: true,
        bytes: Bytes::from(bytes),
    })
}

/// A frame of 8 bytes, the last of which is this.
pub(crate) fn frame_of(last: u8) -> [u8; 8] {
    [0, 0, 0, 2, 0, 0, 0, last]
}

/// Bursts of a flow that begins at 5: the frame of 7 waits for 6, which is spoiled, until 8 comes
/// too late for that; 500 begins the flow anew.
pub(crate) fn bursts_of_each_kind(alloc: Global) -> Result<Vec<CapturedBurst>, AllocError> {
    let bursts = vec![in alloc;
        burst_with(alloc, 1, 5, 9, &frame_of(51))?,
        burst_with(alloc, 5, 7, 0, &frame_of(71))?,
        burst(alloc, 6, 100, 6, false)?,
        burst_with(alloc, 30, 8, 0, &frame_of(81))?,
        burst_with(alloc, 90, 500, 0, &frame_of(50))?,
    ]?;
    Ok(bursts)
}

/// What is handed in and given of these, where none waits for its neighbours.
pub(crate) fn given_of_each_kind() -> [Seen; 14] {
    let kept = Some(SegmentVerdict::Kept);
    [
        Seen::HandedIn(0, 1, Some(1)),
        Seen::Request(0),
        Seen::Frame(0, 51),
        Seen::Replied(0, Some(1), kept),
        Seen::HandedIn(0, 5, Some(5)),
        Seen::Replied(0, Some(5), kept),
        Seen::Frame(0, 71),
        Seen::HandedIn(0, 30, Some(30)),
        Seen::Frame(0, 81),
        Seen::Replied(0, Some(30), kept),
        Seen::BeganAnew(0, 3, 1),
        Seen::HandedIn(0, 90, Some(90)),
        Seen::Frame(0, 50),
        Seen::Replied(0, Some(90), kept),
    ]
}

#[test]
fn what_is_given_stands_behind_its_burst(rt: HostRuntime) -> Result<(), Fail> {
    let alloc = rt.alloc();
    let waits = Waits {
        reorder: 0,
        wait: 20,
    };
    let map = map_of(alloc, Some(5), 16, 1)?;
    let mut captured = CapturedFlows::new(
        alloc,
        map,
        LossRule::Decided,
        waits,
        Selection::All,
        NoCheck,
    )?;
    let mut noted = Noted::new(alloc);
    captured.take_all(alloc, bursts_of_each_kind(alloc)?, &mut noted)?;
    captured.end_waiting(alloc, &mut noted)?;
    assert!(rt; noted.is_whole);
    assert!(rt; noted.seen.as_slice() == given_of_each_kind().as_slice());
    let closed = captured.into_receiver().close(alloc, &mut noted).1.ok();
    assert!(rt; closed.is_some_and(|closed| closed.flows.len() == 1 && closed.flows[0].kept == 1));
    Ok(())
}

#[test]
fn what_became_of_a_burst_is_replied(rt: HostRuntime) -> Result<(), Fail> {
    let alloc = rt.alloc();
    let waits = Waits {
        reorder: 0,
        wait: 20,
    };
    let map = map_of(alloc, Some(5), 16, 1)?;
    let mut captured = CapturedFlows::new(
        alloc,
        map,
        LossRule::Decided,
        waits,
        Selection::All,
        NoCheck,
    )?;
    let mut noted = Noted::new(alloc);
    let bursts = vec![in alloc;
        burst_with(alloc, 1, 5, 0, &frame_of(1))?,
        burst_with(alloc, 2, 5, 0, &frame_of(2))?,
        burst_with(alloc, 3, 7, 0, &frame_of(3))?,
        burst_with(alloc, 4, 7, 0, &frame_of(4))?,
        burst_with(alloc, 5, 30, 0, &frame_of(5))?,
    ]?;
    captured.take_all(alloc, bursts, &mut noted)?;
    captured.end_waiting(alloc, &mut noted)?;
    let wanted = [
        Seen::Replied(0, Some(1), Some(SegmentVerdict::Kept)),
        Seen::Replied(0, Some(2), Some(SegmentVerdict::Late)),
        Seen::Replied(0, Some(3), Some(SegmentVerdict::Kept)),
        Seen::Replied(0, Some(4), Some(SegmentVerdict::Repeat)),
        Seen::Replied(0, Some(5), Some(SegmentVerdict::Beyond)),
    ];
    let mut replies = Vec::new(alloc);
    for one in &noted.seen {
        if matches!(one, Seen::Replied(..)) {
            replies.push(*one)?;
        }
    }
    assert!(rt; noted.is_whole);
    assert!(rt; replies.as_slice() == wanted.as_slice());
    Ok(())
}
