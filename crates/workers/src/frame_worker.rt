//! The worker that takes frames for the consumer.
ghost use Rattle.std.specs.Prelude.{◌≡◌, true, All};
ghost use Rattle.delivery.specs.Takers.{is_closed};
ghost use Rattle.workers.specs.Inside.Consuming.{FeedsOne, HasFed, DidConsume};

use crate::signals::Signals;
use crate::waiting::Waiting;
use crate::worker::{BusyWorker, Job};
use consumer::Consumer;
use delivery::{Taker, Took};
use docsis_wire::Bytes;
use std::alloc::Global;
use std::sync::Wait;
use std::thread;

/// What the worker of frames works with, and hands back: a taker of each flow, and who takes the
/// frames.
#[derive(Drop)]
pub struct FrameWork<F> {
    pub takers: Vec<Taker>,
    pub consumer: F,
}

/// What one look at a taker found.
#[derive(Clone, Copy, Debug, PartialEq, Eq)]
pub enum Look {
    /// A frame was taken, of several takers from each that wasn't closed.
    Took,
    /// Of several takers a frame was taken from one, and nothing was there at another.
    TookSome,
    /// Nothing was there.
    NothingYet,
    /// All frames were taken.
    Closed,
}

impl Look {
    /// What two looks found together. It is `Closed` only where both are.
    pub fn and(self, other: Look) -> Look
        ensures { result ≡ Look.Closed → (self ≡ Look.Closed) × (other ≡ Look.Closed) }
    {
        match (self, other) {
            (Look::Closed, Look::Closed) => Look::Closed,
            (Look::Closed | Look::NothingYet, Look::Closed | Look::NothingYet) => Look::NothingYet,
            (Look::Closed | Look::Took, Look::Closed | Look::Took) => Look::Took,
            _ => Look::TookSome,
        }
    }
}

impl<F: Consumer + Drop> Job<FrameWork<F>> for FrameWork<F> {
    ghost did = { λ work done. DidConsume F.after work done };

    fn serve<R: Wait>(self, _: Global, rt: &R, signals: &Signals) -> FrameWork<F> {
        take_frames(rt, signals, self)
    }
}

pub type FrameWorker<F> = BusyWorker<FrameWork<F>, FrameWork<F>>;

/// Takes until each taker has answered `Closed`.
fn take_frames<F: Consumer + Drop, R: Wait>(
    rt: &R,
    signals: &Signals,
    work: FrameWork<F>,
) -> FrameWork<F>
    ensures fed { HasFed F.after work.takers.items work.consumer
        result.takers.items result.consumer }
    ensures closed { All (λ taker. is_closed taker ≡ true) result.takers.items }
{
    let FrameWork {
        mut takers,
        mut consumer,
    } = work;
    let mut waiting = Waiting::on(signals.offered());
    for _ in rt.forever() {
        let look = look_at_all(takers.as_mut_slice(), &mut consumer);
        match look {
            Look::Closed => return FrameWork { takers, consumer },
            Look::NothingYet => waiting.pause(rt),
            Look::Took | Look::TookSome => {
                signals.tell_of_room();
                waiting.end();
            }
        }
        if look == Look::TookSome {
            thread::yield_now();
        }
    }
    unreachable!()
}

/// One look at each taker. `Closed` if that is what all of them answered.
fn look_at_all<F: Consumer>(takers: &mut [Taker], consumer: &mut F) -> Look
    ensures fed { HasFed F.after takers.old consumer.old takers.new consumer.new }
    ensures closed { result ≡ Look.Closed → All (λ taker. is_closed taker ≡ true) takers.new }
{
    let mut found = Look::Closed;
    for (flow, taker) in takers.iter_mut().enumerate() {
        let look = look_at(taker, flow, consumer);
        found = found.and(look);
    }
    found
}

/// Takes a frame of the flow with this index, if one is there, and gives it to the consumer.
fn look_at<F: Consumer>(taker: &mut Taker, flow: usize, consumer: &mut F) -> Look
    ensures feeds { FeedsOne F.after flow taker.old consumer.old taker.new consumer.new }
    ensures closed { result ≡ Look.Closed → is_closed taker.new ≡ true }
{
    match taker.take() {
        Took::Frame(frame) => {
            consumer.frame(flow, Bytes::from(frame));
            Look::Took
        }
        Took::NothingYet => Look::NothingYet,
        Took::Closed => Look::Closed,
    }
}
