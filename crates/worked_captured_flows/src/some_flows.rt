//! Captures of two flows of which some are selected: what is given of these, and of none, is what
//! is given where all are selected; and of the others nothing is joined.

use crate::flows_of_captures::{Noted, Seen, burst_with, frame_of, map_of};
use capture_map::{CaptureMap, MapFlow, MapSid};
use captured_flows::{CapturedBurst, CapturedFlows, Waits};
use docsis_wire::{Bytes, NoCheck};
use flow_core::FlowCounts;
use flow_selection::{FlowList, FlowRange, Selection, Shard};
use loss_rule::LossRule;
use std::alloc::{AllocError, Global};
use std::test::Fail;

/// A map of two flows that begin at 5, of which the first has the service identifier 7, the second
/// 8.
pub(crate) fn map_of_two(alloc: Global) -> Result<CaptureMap, AllocError> {
    let mut map = map_of(alloc, Some(5), 16, 1)?;
    map.flows.push(MapFlow {
        sfid: 2,
        first: Some(5),
        window: 16,
        clusters: 1,
    })?;
    map.sids.push(MapSid {
        channel: 0,
        sid: 8,
        flow: 1,
    })?;
    Ok(map)
}

/// The bytes of a segment in which the first frame begins at this byte of what it carries.
fn begins_at(mut bytes: Vec<u8>, place: u8) -> Vec<u8> {
    if let [_, pointer, ..] = bytes.as_mut_slice() {
        *pointer = place;
    }
    bytes
}

/// Three frames of the second flow in two segments between two of the first; then one segment of it
/// is spoiled, and lost where the next comes too late to wait for it; and last a segment of each
/// begins it anew, which are those that are asked for or left out here. The flow's index, the time,
/// the number, the request and what is carried.
pub(crate) fn bursts_of_two(
    alloc: Global,
    begin_anew: bool,
) -> Result<Vec<CapturedBurst>, AllocError> {
    let begun = frame_of(61);
    let mut rest = Vec::from_slice(alloc, &begun[3..])?;
    for last in [62, 63] {
        rest.extend_from_slice(&frame_of(last))?;
    }
    let cuts: [(usize, u64, u16, u8, &[u8]); 8] = [
        (0, 1, 5, 9, &frame_of(51)),
        (1, 2, 5, 0, &begun[..3]),
        (1, 3, 6, 4, &rest),
        (0, 4, 6, 0, &frame_of(52)),
        (1, 5, 7, 0, &frame_of(64)),
        (1, 35, 8, 0, &frame_of(65)),
        (1, 125, 500, 0, &frame_of(66)),
        (0, 215, 500, 0, &frame_of(53)),
    ];
    let mut bursts = Vec::new(alloc);
    for (flow, time, number, requested, payload) in cuts {
        let mut burst = burst_with(alloc, time, number, requested, payload)?;
        burst.sid = if flow == 0 { 7 } else { 8 };
        burst.check = number != 7;
        if (flow, number) == (1, 6) {
            burst.bytes = Bytes::from(begins_at(burst.bytes.into_vec(), 5));
        }
        if begin_anew == (number == 500) {
            bursts.push(burst)?;
        }
    }
    Ok(bursts)
}

/// What is seen where these flows are selected, until all is closed, and what is counted of both
/// before the first begins anew, and at the close.
fn seen_where(alloc: Global, selected: Selection) -> Result<(Noted, Vec<FlowCounts>), Fail> {
    let waits = Waits {
        reorder: 0,
        wait: 20,
    };
    let map = map_of_two(alloc)?;
    let mut captured = CapturedFlows::new(alloc, map, LossRule::Decided, waits, selected, NoCheck)?;
    let (mut noted, mut counts) = (Noted::new(alloc), Vec::new(alloc));
    captured.take_all(alloc, bursts_of_two(alloc, false)?, &mut noted)?;
    counts.extend(captured.counts(0))?;
    counts.extend(captured.counts(1))?;
    captured.take_all(alloc, bursts_of_two(alloc, true)?, &mut noted)?;
    captured.end_waiting(alloc, &mut noted)?;
    let (_, closed) = captured.into_receiver().close(alloc, &mut noted);
    if let Ok(closed) = closed {
        counts.extend_from_slice(&closed.flows)?;
    }
    Ok((noted, counts))
}

/// Whether this is told where this flow alone is selected.
fn is_told_of(flow: usize, one: &Seen) -> bool {
    match one {
        Seen::Frame(of, _) | Seen::BeganAnew(of, _, _) => *of == flow,
        Seen::HandedIn(..) | Seen::Replied(..) | Seen::Request(_) => true,
    }
}

/// Selections of the first flow alone, and of the second.
fn selections(alloc: Global) -> Result<[(usize, Selection); 3], AllocError> {
    let shard = |remainder| {
        Selection::Shard(Shard {
            remainder,
            count: 2,
        })
    };
    let range = FlowRange { first: 1, last: 9 };
    let listed = FlowList::new(alloc, vec![in alloc; range]?)?;
    Ok([(0, shard(0)), (1, shard(1)), (1, Selection::Listed(listed))])
}

#[test]
fn nothing_of_other_flows_is_joined(rt: HostRuntime) -> Result<(), Fail> {
    let alloc = rt.alloc();
    let (whole, all) = seen_where(alloc, Selection::All)?;
    // Of each of 7 bursts two things, 2 requests, 8 frames, and each flow begins anew once.
    assert!(rt; whole.is_whole && whole.seen.len() == 26 && all.len() == 4);
    assert!(rt; all.iter().all(|counted| counted.frames > 0));
    for (flow, selected) in selections(alloc)? {
        let (noted, counts) = seen_where(alloc, selected)?;
        let mut wanted = Vec::new(alloc);
        for one in &whole.seen {
            if is_told_of(flow, one) {
                wanted.push(*one)?;
            }
        }
        assert!(rt; noted.is_whole && counts.len() == 4);
        assert!(rt; noted.seen.as_slice() == wanted.as_slice());
        for (place, (one, counted)) in counts.iter().zip(&all).enumerate() {
            let is_selected = place % 2 == flow;
            assert!(rt; one.frames == if is_selected { counted.frames } else { 0 });
            assert!(rt; one.kept == counted.kept && one.lost == counted.lost);
        }
    }
    Ok(())
}
