//! The consumer that keeps times.
ghost use Rattle.std.specs.Prelude.{◌≡◌, ◌<◌, ◌≤◌, [], ◌∷◌, ◌++◌, length, vec_capacity};
ghost use Rattle.std.specs.Prelude.{Some, None, Option, MatchOption, IfSome, IfOk, IsTrue};
ghost use Rattle.std.specs.Prelude.{slice_get};
ghost use Rattle.timed_frames.specs.declared.timed_step.TimedStep.{TimedStep};
ghost use Rattle.timed_frames.specs.Seen.{HasSeenNothing, HasSeen, HasGiven, Keeps};

use crate::timed_step::{LastBurst, TimedStep};
use capture_rules::Arrival;
use captured_flows::{CaptureConsumer, SoundBurst};
use consumer::Consumer;
use docsis_wire::Bytes;
use flow_core::FlowCounts;
use lane::Request;
use receiver::Reply;
use std::alloc::{AllocError, Global};

/// For so many steps at most room is kept once they are let go.
const KEPT_ROOM: usize = 256;

/// Keeps what it is given of a capture, with times, until that is let go.
///
/// It is whole as long as everything was kept. What a failed allocation left out it doesn't have,
/// nor what is of a flow that it doesn't know or of which no burst was handed in; from then on it
/// isn't whole.
#[derive(Debug, Drop)]
pub struct TimedFrames {
    /// Of each flow the burst that was handed in last.
    lasts: Vec<Option<LastBurst>>,
    /// What came and wasn't let go, in order.
    waiting: Vec<TimedStep>,
    /// Whether everything was kept.
    whole: bool,
}

impl TimedFrames {
    /// Nothing yet, of so many flows.
    pub fn new(alloc: Global, flow_count: usize) -> Result<TimedFrames, AllocError>
        ensures { IfOk result (HasSeenNothing flow_count) }
    {
        Ok(TimedFrames {
            lasts: vec![in alloc; None; flow_count]?,
            waiting: Vec::new(alloc),
            whole: true,
        })
    }

    /// Whether everything was kept.
    pub fn is_whole(&self) -> bool
        ensures { result ≡ self.now.whole }
    {
        self.whole
    }

    /// What came since it was let go last, in order.
    pub fn waiting(&self) -> &[TimedStep]
        ensures { result.now ≡ self.now.waiting.items }
    {
        &self.waiting
    }

    /// Lets go of what waits. Room for 256 steps stays at most, so that what comes next asks for
    /// none.
    pub fn let_go(&mut self, alloc: Global)
        ensures none_waits { self.new.waiting.items ≡ [] }
        ensures room { vec_capacity self.new.waiting ≤ 256 }
        ensures lasts { self.new.lasts ≡ self.old.lasts }
        ensures whole { self.new.whole ≡ self.old.whole }
    {
        self.waiting.clear();
        if self.waiting.capacity() > KEPT_ROOM {
            self.waiting = Vec::new(alloc);
        }
    }

    /// The burst of a flow that was handed in last.
    fn last_of(&self, flow: usize) -> Option<LastBurst>
        ensures { IfSome result (λ burst. slice_get self.now.lasts.items flow ≡ Some (Some burst)) }
    {
        *self.lasts.get(flow)?
    }

    /// Keeps what came, if there is memory for it.
    fn keep(&mut self, step: TimedStep)
        ensures lasts { self.new.lasts ≡ self.old.lasts }
        ensures kept { Keeps self.old step self.new }
    {
        self.whole = self.waiting.push(step).is_ok() && self.whole;
    }
}

impl Consumer for TimedFrames {
    ghost after = { HasGiven };

    fn frame(&mut self, flow: usize, frame: Bytes) {
        match self.last_of(flow) {
            Some(burst) => self.keep(TimedStep::Frame { flow, burst, frame }),
            None => self.whole = false,
        }
    }

    fn request(&mut self, request: Request) {
        match self.last_of(request.flow) {
            Some(burst) => self.keep(TimedStep::Asked { burst, request }),
            None => self.whole = false,
        }
    }
}

impl CaptureConsumer for TimedFrames {
    ghost use Rattle.std.specs.Prelude.{map};
    ghost use Rattle.captured_flows.specs.Steps.{gave};
    ghost use Rattle.timed_frames.specs.Timing.{seen_nothing, seen_then};

    ghost saw = { HasSeen };

    fn hand_in(&mut self, flow: usize, burst: &Arrival<SoundBurst>) {
        let burst = LastBurst {
            time: burst.time,
            channel: burst.channel,
            number: burst.number,
            sid: burst.item.sid,
            burst_id: burst.item.burst_id,
        };
        if flow >= self.lasts.len() {
            self.whole = false;
            return;
        }
        self.lasts[flow] = Some(burst);
        self.keep(TimedStep::HandedIn { flow, burst });
    }

    fn replied(&mut self, flow: usize, burst_id: Option<u64>, reply: Reply) {
        self.keep(TimedStep::Replied {
            flow,
            burst_id,
            reply,
        });
    }

    fn begin_anew(&mut self, flow: usize, counts: FlowCounts) {
        self.keep(TimedStep::Ended { flow, counts });
    }

    ghost begins = { seen_nothing };

    ghost sees = { λ start now later steps given. seen_then start now later steps (map gave given) };
}
