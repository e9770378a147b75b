//! A running receiver whose consumer hands the frames of a flow on to another thread.
ghost use Rattle.std.specs.Prelude.{◌≡◌, ◌<◌, ◌++◌, ◌∷◌, [], IsTrue, IfOk, IfErr, IfSome};
ghost use Rattle.delivery.specs.Frames.{frames_in};
ghost use Rattle.delivery.specs.Feeders.{feeder_ring, offered, closed_ring, closed_offered};
ghost use Rattle.delivery.specs.Takers.{taker_ring, taken};
ghost use Rattle.uplink.specs.Faults.{CanRunWithin};
ghost use Rattle.uplink.specs.Received.{CameFrom};
ghost use Rattle.workers.specs.Given.{Yields};
ghost use Rattle.uses.specs.DeliveryRun.{IsServed};
ghost use Rattle.uses.specs.HandedOn.{TookOfFlow, IsHandingFault};

use crate::delivery_run::{ConsumerPromise, Served, close, start_consumer};
use consumer::{Consumer, Forgets};
use delivery::{ClosedFeeder, Feeder, OpenFault, ring, settle};
use docsis_wire::{Bytes, HeaderCheck};
use lane::Request;
use std::alloc::Global;
use std::sync::Wait;
use std::thread;
use std::thread::{PromisedHandle, Threads};
use thiserror::Error;
use uplink::{LiveDecisions, LiveSource, LossRule, RunFault, Setup, Sources, Width, receive};

/// Hands the frames of one flow on into a ring, and waits where that is full, so that a receiver
/// waits for whoever takes them. Frames of other flows, and requests, it lets go.
#[derive(Drop)]
pub struct HandsOn<R> {
    rt: R,
    flow: usize,
    feeder: Feeder,
    /// Whether every frame went on: one for which an allocation failed did not.
    is_whole: bool,
}

#[tactic(auto, using(crate::proofs::HandingOn::handing))]
impl<R: Wait> Consumer for HandsOn<R> {
    ghost use Rattle.uses.specs.HandedOn.{HasHandedOn};

    ghost after = { HasHandedOn };

    fn frame(&mut self, flow: usize, frame: Bytes) {
        if flow != self.flow {
            return;
        }
        if !hand_on(&self.rt, &mut self.feeder, frame.into_vec()) {
            self.is_whole = false;
        }
    }

    fn request(&mut self, _request: Request) {}
}

/// Offers a frame, and waits until it is in the ring. Answers false where an allocation failed.
fn hand_on<R: Wait>(rt: &R, feeder: &mut Feeder, frame: Vec<u8>) -> bool
    ensures ring { feeder_ring feeder.new ≡ feeder_ring feeder.old }
    ensures offered { IsTrue result → offered feeder.new ≡ offered feeder.old ++ frame.items ∷ [] }
{
    if feeder.offer(frame).is_err() {
        return false;
    }
    for _ in rt.forever() {
        if feeder.flush() == 0 {
            break;
        }
        thread::yield_now();
    }
    true
}

/// Why no frames are handed on, or not all.
#[derive(Clone, Copy, Debug, PartialEq, Eq, Error)]
pub enum HandingFault {
    /// The ring can't be made.
    #[error(transparent)]
    Ring(OpenFault),
    /// The receiver doesn't run, or not to its end.
    #[error(transparent)]
    Run(RunFault),
}

/// Receives until all sources and decisions are used up. The frames of the flow
/// with this index go through a ring of this capacity to a thread of their own, as they come. The
/// answer is what that thread took.
///
/// `Ring`: the ring has no capacity, or there is no memory for it. Then `Run`: the receiver's
/// fault, or an allocation failed or a thread could not be started, here or there. No source is
/// asked for anything where the ring can't be made or the setup has a fault.
pub fn take_elsewhere<S0, S1, S2, S3, D, C, R>(
    alloc: Global,
    rt: R,
    width: Width,
    setup: Setup,
    rule: LossRule,
    sources: Sources<S0, S1, S2, S3>,
    decisions: D,
    check: C,
    flow: usize,
    capacity: u16,
) -> Result<Vec<Vec<u8>>, HandingFault>
where
    S0: LiveSource + Drop + Send + 'static,
    S1: LiveSource + Drop + Send + 'static,
    S2: LiveSource + Drop + Send + 'static,
    S3: LiveSource + Drop + Send + 'static,
    D: LiveDecisions + Drop + Send + 'static,
    C: HeaderCheck + Drop,
    R: Threads + Wait + Copy + Send + 'static,
    ensures taken { IfOk result (TookOfFlow width.channels rule (C.accepts check) setup
        (CameFrom (Yields S0.gave S0.is_over sources.s0) (Yields S1.gave S1.is_over sources.s1)
        (Yields S2.gave S2.is_over sources.s2) (Yields S3.gave S3.is_over sources.s3)
        (Yields D.gave D.is_over decisions)) flow) }
    ensures can_run { IfOk result
        (λ _. (0 < capacity) × CanRunWithin width.channels width.flows setup) }
    ensures fault { IfErr result (IsHandingFault width.channels width.flows setup capacity) }
{
    let (feeder, taker) = match ring(alloc, capacity) {
        Ok(ends) => ends,
        Err(fault) => return Err(HandingFault::Ring(fault)),
    };
    let Ok(handle) = start_consumer(&rt, alloc, taker) else {
        return Err(HandingFault::Run(RunFault::OutOfMemory));
    };
    let consumer = HandsOn {
        rt,
        flow,
        feeder,
        is_whole: true,
    };
    match receive(
        alloc, rt, width, setup, rule, sources, decisions, consumer, Forgets, check,
    ) {
        Ok(received) => match take_rest(&rt, received.consumer, handle) {
            Some(frames) => Ok(frames),
            None => Err(HandingFault::Run(RunFault::OutOfMemory)),
        },
        Err(error) => {
            let HandsOn { feeder, .. } = error.consumer;
            close_and_join(&rt, feeder, handle);
            Err(HandingFault::Run(error.fault))
        }
    }
}

/// Closes the ring, and waits for the thread at its other end.
fn close_and_join<R: Threads + Wait>(
    rt: &R,
    feeder: Feeder,
    handle: PromisedHandle<Option<Served>, ConsumerPromise>,
) -> (ClosedFeeder, Option<Served>)
    ensures ring { closed_ring result.0 ≡ feeder_ring feeder }
    ensures offered { closed_offered result.0 ≡ offered feeder }
    ensures served { IfSome result.1 (IsServed handle.promise.0.value) }
{
    let closed = close(rt, feeder);
    (closed, handle.join(rt))
}

/// Closes the ring, waits for the thread at its other end, and answers what that took, or nothing
/// where an allocation failed.
fn take_rest<R: Threads + Wait + Copy>(
    rt: &R,
    consumer: HandsOn<R>,
    handle: PromisedHandle<Option<Served>, ConsumerPromise>,
) -> Option<Vec<Vec<u8>>>
    requires { feeder_ring consumer.feeder ≡ taker_ring handle.promise.0.value }
    ensures whole { IfSome result (λ _. IsTrue consumer.is_whole) }
    ensures taken { IfSome result (λ frames. taken handle.promise.0.value
        ++ frames_in frames.items ≡ offered consumer.feeder) }
{
    let HandsOn {
        feeder,
        is_whole,
        ..
    } = consumer;
    let (mut closed, served) = close_and_join(rt, feeder, handle);
    let Served { mut taker, frames } = served?;
    if !is_whole {
        return None;
    }
    settle(&mut closed, &mut taker);
    Some(frames)
}
