//! The feeders of all flows, which the assembler of a running receiver drives.
ghost use Rattle.std.specs.Prelude.{◌≡◌, ◌≢◌, ◌≤◌, ◌⊎◌, true, false, [], All, Any, length, map};
ghost use Rattle.std.specs.Prelude.{IfSome, slice_get};
ghost use Rattle.delivery.specs.Feeders.{feeder_ring, offered, backlog, room, closed_ring};
ghost use Rattle.delivery.specs.Feeders.{closed_offered};

use crate::signals::Signals;
use crate::waiting::Waiting;
use crossbeam_utils::sync::EventCount;
use delivery::{ClosedFeeder, Feeder};
use std::sync::Wait;

/// Moves what the backlogs hold into the rings for as long as they have room, and tells of it. It
/// says whether frames are left.
pub fn flush_all(feeders: &mut [Feeder], told: &EventCount) -> bool
    ensures rings { map feeder_ring feeders.new ≡ map feeder_ring feeders.old }
    ensures offered { map offered feeders.new ≡ map offered feeders.old }
    ensures flushed { All (λ feeder. (backlog feeder ≡ []) ⊎ (room feeder ≡ 0)) feeders.new }
    ensures none_left { result ≡ false → All (λ feeder. backlog feeder ≡ []) feeders.new }
    ensures some_left { result ≡ true → Any (λ feeder. backlog feeder ≢ []) feeders.new }
{
    let mut are_left = false;
    for feeder in feeders.iter_mut() {
        are_left |= flush(feeder, told);
    }
    are_left
}

/// Waits for as long as a frame of this flow stands in the backlog of its feeder.
pub fn wait_for_room<R: Wait>(rt: &R, signals: &Signals, feeders: &mut [Feeder], flow: usize)
    ensures rings { map feeder_ring feeders.new ≡ map feeder_ring feeders.old }
    ensures offered { map offered feeders.new ≡ map offered feeders.old }
    ensures emptied { IfSome (slice_get feeders.new flow) (λ feeder. backlog feeder ≡ []) }
{
    if flow < feeders.len() {
        empty_backlog(rt, signals, &mut feeders[flow]);
    }
}

/// Waits until all frames of a backlog were moved into the ring.
fn empty_backlog<R: Wait>(rt: &R, signals: &Signals, feeder: &mut Feeder)
    ensures ring { feeder_ring feeder.new ≡ feeder_ring feeder.old }
    ensures offered { offered feeder.new ≡ offered feeder.old }
    ensures emptied { backlog feeder.new ≡ [] }
{
    if !feeder.has_backlog() {
        return;
    }
    let mut waiting = Waiting::on(&signals.arrivals().posted);
    for _ in rt.forever() {
        let are_left = flush(feeder, signals.offered());
        signals.want_room(are_left);
        if !are_left {
            return;
        }
        waiting.pause(rt);
    }
    unreachable!()
}

/// Flushes one feeder. It says whether frames are left.
fn flush(feeder: &mut Feeder, told: &EventCount) -> bool
    ensures ring { feeder_ring feeder.new ≡ feeder_ring feeder.old }
    ensures offered { offered feeder.new ≡ offered feeder.old }
    ensures flushed { (backlog feeder.new ≡ []) ⊎ (room feeder.new ≡ 0) }
    ensures none_left { result ≡ false → backlog feeder.new ≡ [] }
    ensures some_left { result ≡ true → backlog feeder.new ≢ [] }
{
    if !feeder.has_backlog() {
        return false;
    }
    let left = feeder.flush();
    told.notify_one();
    left > 0
}

/// Closes all feeders, and waits for each until it has room for its end mark.
pub fn close_feeders<R: Wait>(
    rt: &R,
    signals: &Signals,
    feeders: Vec<Feeder>,
    closed: Vec<ClosedFeeder>,
) -> Vec<ClosedFeeder>
    requires room { (closed.items ≡ []) × (length feeders.items ≤ closed.cap) }
    ensures rings { map closed_ring result.items ≡ map feeder_ring feeders.items }
    ensures offered { map closed_offered result.items ≡ map offered feeders.items }
{
    let mut closed = closed;
    signals.want_room(true);
    for feeder in feeders {
        closed.push_reserved(wait_to_close(rt, signals, feeder));
    }
    closed
}

/// Closes a feeder, and waits for as long as its ring has no room. Each try may move frames of the
/// backlog, so whoever takes is told of each.
fn wait_to_close<R: Wait>(rt: &R, signals: &Signals, feeder: Feeder) -> ClosedFeeder
    ensures ring { closed_ring result ≡ feeder_ring feeder }
    ensures offered { closed_offered result ≡ offered feeder }
{
    let mut feeder = feeder;
    let mut waiting = Waiting::on(&signals.arrivals().posted);
    for _ in rt.forever() {
        let tried = feeder.close();
        signals.offered().notify_one();
        match tried {
            Ok(closed) => return closed,
            Err(back) => feeder = back,
        }
        waiting.pause(rt);
    }
    unreachable!()
}
