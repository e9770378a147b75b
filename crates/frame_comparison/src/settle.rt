//! What a frame that comes settles of its flow.
ghost use Rattle.std.specs.Prelude.{◌≡◌, ◌<◌, IfOk, OnOk, OnErr, length};
ghost use Rattle.frame_comparison.specs.Frames.{frames_in_both, frames_given_up};
ghost use Rattle.frame_comparison.specs.Seen.{side_seen_after, settled_counts, moved_in};
ghost use Rattle.frame_comparison.specs.Seen.{own_moved_in, other_moved_in};

use crate::coming_frame::ComingFrame;
use crate::compared_counts::ComparedCounts;
use crate::one_side::OneSide;
use crate::side::Side;
use std::alloc::{AllocError, Global};

/// How many frames were settled: in both, of the frame's own side alone and of the other alone.
#[derive(Clone, Copy, Debug)]
struct Settled {
    both: u64,
    own: u64,
    other: u64,
}

/// Takes a frame of one of two sides, and answers what is to be counted.
pub(crate) fn settle_sides(
    alloc: Global,
    side: Side,
    analyser: &mut OneSide,
    here: &mut OneSide,
    flow: usize,
    frame: &ComingFrame<'_>,
) -> Result<ComparedCounts, AllocError>
    requires analyser { flow < length analyser.old.waiting }
    requires here { flow < length here.old.waiting }
    ensures analyser { let more = moved_in side flow frame.now analyser.old here.old in
        OnOk result (analyser.new ≡ side_seen_after flow more.analyser analyser.old) }
    ensures here { let more = moved_in side flow frame.now analyser.old here.old in
        OnOk result (here.new ≡ side_seen_after flow more.here here.old) }
    ensures counts { let more = moved_in side flow frame.now analyser.old here.old in
        IfOk result (λ counts. counts ≡ settled_counts more) }
    ensures analyser_stays { OnErr result (analyser.new ≡ analyser.old) }
    ensures here_stays { OnErr result (here.new ≡ here.old) }
{
    match side {
        Side::Analyser => {
            let settled = settle(alloc, analyser, here, flow, frame)?;
            Ok(ComparedCounts {
                both: settled.both,
                only_analyser: settled.own,
                only_here: settled.other,
            })
        }
        Side::Here => {
            let settled = settle(alloc, here, analyser, flow, frame)?;
            Ok(ComparedCounts {
                both: settled.both,
                only_analyser: settled.other,
                only_here: settled.own,
            })
        }
    }
}

/// Takes a frame of one side: it is in both, or it waits.
fn settle(
    alloc: Global,
    own: &mut OneSide,
    other: &mut OneSide,
    flow: usize,
    frame: &ComingFrame<'_>,
) -> Result<Settled, AllocError>
    requires own { flow < length own.old.waiting }
    requires other { flow < length other.old.waiting }
    ensures own { let more = own_moved_in flow frame.now own.old other.old in
        OnOk result (own.new ≡ side_seen_after flow more own.old) }
    ensures other { let more = other_moved_in flow frame.now other.old in
        OnOk result (other.new ≡ side_seen_after flow more other.old) }
    ensures both { let more = own_moved_in flow frame.now own.old other.old in
        IfOk result (λ settled. settled.both ≡ length (frames_in_both more.settled)) }
    ensures own_count { let more = own_moved_in flow frame.now own.old other.old in
        IfOk result (λ settled. settled.own ≡ length (frames_given_up more.settled)) }
    ensures other_count { let more = other_moved_in flow frame.now other.old in
        IfOk result (λ settled. settled.other ≡ length (frames_given_up more.settled)) }
    ensures own_stays { OnErr result (own.new ≡ own.old) }
    ensures other_stays { OnErr result (other.new ≡ other.old) }
{
    match other.place_of(flow, frame) {
        Some(place) => {
            let given_up = own.give_up_all(flow);
            other.settle_to(flow, place);
            Ok(Settled {
                both: 1,
                own: given_up as u64,
                other: place as u64,
            })
        }
        None => {
            let given_up = own.wait(alloc, flow, frame)?;
            Ok(Settled {
                both: 0,
                own: given_up as u64,
                other: 0,
            })
        }
    }
}
