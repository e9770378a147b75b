//! The worker that takes requests for the scheduler.
ghost use Rattle.workers.specs.Inside.Scheduling.{DidSchedule, HasScheduled};

use crate::mouth_wait::MouthWait;
use crate::signals::Signals;
use crate::worker::{BusyWorker, Job};
use consumer::Consumer;
use lane::Request;
use mailbox::{Mouth, Taken};
use std::alloc::Global;
use std::sync::Wait;

/// What the worker of requests works with, and hands back: the mouth of their mailbox, and who
/// takes them.
#[derive(Drop)]
pub struct RequestWork<Q> {
    pub mouth: Mouth<Request>,
    pub scheduler: Q,
}

impl<Q: Consumer + Drop> Job<RequestWork<Q>> for RequestWork<Q> {
    ghost did = { λ work done. DidSchedule Q.after work done };

    fn serve<R: Wait>(self, _: Global, rt: &R, signals: &Signals) -> RequestWork<Q> {
        serve_requests(rt, signals, self)
    }
}

pub type RequestWorker<Q> = BusyWorker<RequestWork<Q>, RequestWork<Q>>;

/// Takes requests until all senders have ended, and gives each to the scheduler.
fn serve_requests<Q: Consumer + Drop, R: Wait>(
    rt: &R,
    signals: &Signals,
    work: RequestWork<Q>,
) -> RequestWork<Q>
    ensures { DidSchedule Q.after work result }
{
    let RequestWork {
        mut mouth,
        mut scheduler,
    } = work;
    let mut wait = MouthWait::at(signals.requests());
    for _ in rt.forever() {
        if mouth.all_ended() {
            break;
        }
        match mouth.next(rt) {
            Taken::Item { item, .. } => {
                wait.took();
                scheduler.request(item);
            }
            Taken::End { .. } => wait.took(),
            Taken::Empty => wait.pause(rt),
        }
    }
    RequestWork { mouth, scheduler }
}
