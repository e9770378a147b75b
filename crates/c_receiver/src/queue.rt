//! What a receiver gave and nobody took yet.
ghost use Rattle.std.specs.Prelude.{◌≡◌, [], IsTrue};
ghost use Rattle.c_receiver.specs.Statuses.{told};

use crate::plain::PlainRequest;
use crate::status::Status;
use consumer::Consumer;
use docsis_wire::Bytes;
use lane::Request;
use std::alloc::Global;
use std::collections::VecDeque;

/// A frame that waits.
#[derive(Debug, Drop)]
pub struct QueuedFrame {
    /// The index of its flow.
    pub flow: usize,
    /// Its bytes, the header included.
    pub frame: Bytes,
}

/// What was given and waits: frames and requests, each in order. Where an allocation failed for one
/// it is missing, and from then on the queue isn't whole.
#[derive(Debug, Drop)]
pub struct Queue {
    /// The frames of all flows.
    pub frames: VecDeque<QueuedFrame>,
    /// The requests of all channels, as C sees them.
    pub requests: VecDeque<PlainRequest>,
    /// Whether all that was given was kept.
    pub whole: bool,
}

impl Queue {
    /// Nothing was given yet.
    pub fn new(alloc: Global) -> Queue
        ensures frames { result.frames.items ≡ [] }
        ensures requests { result.requests.items ≡ [] }
        ensures whole { IsTrue result.whole }
    {
        Queue {
            frames: VecDeque::new(alloc),
            requests: VecDeque::new(alloc),
            whole: true,
        }
    }

    /// This status, or that something is missing, if it is.
    pub fn told(&self, status: Status) -> Status
        ensures { result ≡ told self.now.whole status }
    {
        if self.whole { status } else { Status::NotKept }
    }
}

impl Consumer for Queue {
    ghost use Rattle.c_receiver.specs.Queued.{HasQueued};

    ghost after = { HasQueued };

    // Called for each frame: in line, its bytes' place needn't go through memory.
    #[inline(always)]
    fn frame(&mut self, flow: usize, frame: Bytes) {
        if self.frames.push_back(QueuedFrame { flow, frame }).is_err() {
            self.whole = false;
        }
    }

    fn request(&mut self, request: Request) {
        if self.requests.push_back(PlainRequest::of(&request)).is_err() {
            self.whole = false;
        }
    }
}
