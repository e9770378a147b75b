//! The feeders of all flows, as a consumer.
ghost use Rattle.std.specs.Prelude.{◌≡◌, ◌≢◌, ◌⊎◌, [], All, Any, IsTrue, true, false, map};
ghost use Rattle.delivery.specs.Feeders.{feeder_ring, offered, backlog, room};
ghost use Rattle.uplink.specs.Inside.Feeding.{HasOffered, Offers};

use consumer::Consumer;
use crossbeam_utils::sync::EventCount;
use delivery::Feeder;
use docsis_wire::Bytes;
use lane::Request;
use std::alloc::{AllocError, Global};
use std::sync::Wait;
use workers::{Signals, flush_all, wait_for_room};

/// The feeders of all flows. Each frame that it is given is offered to the feeder of its flow, of
/// which whoever takes frames is told; a request is none of its business.
///
/// It is whole as long as each frame was offered. For one there may be no memory in the backlog of
/// its feeder, or no feeder; from then on it isn't whole, and no frame is offered any more.
#[derive(Drop)]
pub struct Feeding<'a> {
    pub feeders: Vec<Feeder>,
    pub whole: bool,
    pub told: &'a EventCount,
    /// Whether no more is to wait in a backlog than what one item gives.
    pub is_bounded: bool,
}

impl Feeding<'_> {
    /// Moves what the backlogs hold into the rings for as long as they have room. It says whether
    /// frames are left.
    pub fn flush(&mut self) -> bool
        ensures offered { HasOffered self.old [] self.new }
        ensures flushed { All (λ feeder. (backlog feeder ≡ []) ⊎ (room feeder ≡ 0))
            self.new.feeders.items }
        ensures none_left { result ≡ false
            → All (λ feeder. backlog feeder ≡ []) self.new.feeders.items }
        ensures some_left { result ≡ true
            → Any (λ feeder. backlog feeder ≢ []) self.new.feeders.items }
    {
        flush_all(&mut self.feeders, self.told)
    }

    /// Waits for as long as a frame of this flow stands in the backlog of its feeder, if backlogs
    /// are bounded.
    pub fn wait_for_room<R: Wait>(&mut self, rt: &R, signals: &Signals, flow: usize)
        ensures { HasOffered self.old [] self.new }
    {
        if self.is_bounded {
            wait_for_room(rt, signals, &mut self.feeders, flow);
        }
    }
}

impl Consumer for Feeding<'_> {
    ghost after = { HasOffered };

    fn frame(&mut self, flow: usize, frame: Bytes) {
        if !self.whole {
            return;
        }
        let alloc = *self.feeders.allocator();
        if !offer(alloc, &mut self.feeders, flow, frame, self.told) {
            self.whole = false;
        }
    }

    fn request(&mut self, _request: Request) {}
}

/// Offers a frame to the feeder of this index, says whether it did, and tells whoever takes.
fn offer(
    alloc: Global,
    feeders: &mut [Feeder],
    flow: usize,
    frame: Bytes,
    told: &EventCount,
) -> bool
    ensures rings { map feeder_ring feeders.new ≡ map feeder_ring feeders.old }
    ensures offers { IsTrue result → Offers feeders.old flow frame feeders.new }
    ensures not { result ≡ false → map offered feeders.new ≡ map offered feeders.old }
{
    if flow >= feeders.len() {
        return false;
    }
    let is_offered = feeders[flow].offer(own_copy(alloc, frame)).is_ok();
    told.notify_one();
    is_offered
}

/// The frame in memory of its own size, or as it is where that memory can't be had. What a burst
/// was given in is freed at once, and not kept in the part of the heap of the thread that asked for
/// it for as long as the frame waits.
fn own_copy(alloc: Global, frame: Bytes) -> Vec<u8>
    ensures { result.items ≡ frame }
{
    match Vec::from_slice(alloc, frame.as_slice()) {
        Ok(copied) => copied,
        Err(AllocError) => frame.into_vec(),
    }
}
