//! Frames that are handed from the caller's thread to a consumer's: all that was offered is taken.
ghost use Rattle.std.specs.Prelude.{◌≡◌, ◌↔◌, ◌++◌, IfSome, IfOk, OnOk};
ghost use Rattle.delivery.specs.Frames.{frames_in};
ghost use Rattle.delivery.specs.Feeders.{feeder_ring, offered, closed_ring, closed_offered};
ghost use Rattle.delivery.specs.Takers.{taken};
ghost use Rattle.uses.specs.DeliveryRun.{IsServed, Appends};

use delivery::{ClosedFeeder, Feeder, OpenFault, Refused, Taker, Took, ring, settle};
use std::alloc::{AllocError, Global};
use std::snapshot::Snapshot;
use std::sync::Wait;
use std::thread;
use std::thread::{Promise, PromisedHandle, Threads};

/// A taker that has answered `Closed`, and the frames that it gave.
#[derive(Drop)]
pub struct Served {
    pub taker: Taker,
    pub frames: Vec<Vec<u8>>,
}

/// The taker that a consumer's thread is started with.
#[derive(Drop)]
pub(crate) struct ConsumerPromise(Snapshot<Taker>);

impl Promise<Option<Served>> for ConsumerPromise {
    ghost kept_by = { λ promise result. IfSome result (IsServed promise.0.value) };
}

/// Hands the frames through a ring of this capacity to a thread that takes them, and answers what
/// that thread took. `NoCapacity`: the capacity is 0. `OutOfMemory`: an allocation failed, or the
/// thread could not be started.
pub fn deliver<R>(
    rt: R,
    alloc: Global,
    capacity: u16,
    frames: Vec<Vec<u8>>,
) -> Result<Vec<Vec<u8>>, OpenFault>
where
    R: Threads + Wait + Copy + Send + 'static,
    ensures delivered { IfOk result (λ taken. frames_in taken.items ≡ frames_in frames.items) }
    ensures no_capacity { (result ≡ Err OpenFault.NoCapacity) ↔ (capacity ≡ 0) }
{
    let (mut feeder, taker) = ring(alloc, capacity)?;
    let Ok(consumer) = start_consumer(&rt, alloc, taker) else {
        return Err(OpenFault::OutOfMemory);
    };
    let accepted = offer_all(&mut feeder, frames);
    feeder.flush();
    let mut closed = close(&rt, feeder);
    let served = consumer.join(&rt);
    let (Ok(()), Some(served)) = (accepted, served) else {
        return Err(OpenFault::OutOfMemory);
    };
    let Served { mut taker, frames } = served;
    settle(&mut closed, &mut taker);
    Ok(frames)
}

/// Starts a thread that takes all frames.
pub(crate) fn start_consumer<R>(
    rt: &R,
    alloc: Global,
    taker: Taker,
) -> Result<PromisedHandle<Option<Served>, ConsumerPromise>, AllocError>
where
    R: Threads + Wait + Copy + Send + 'static,
    ensures { IfOk result (λ handle. handle.promise.0.value ≡ taker) }
{
    let promise = ConsumerPromise(Snapshot::of(&taker));
    let theirs = *rt;
    let handle = thread::spawn_with(rt, promise, move || take_all(&theirs, alloc, taker))?;
    Ok(handle)
}

/// Takes until the taker answers `Closed`. Where memory runs out it drops what it takes, and
/// answers nothing.
fn take_all<R: Wait>(rt: &R, alloc: Global, taker: Taker) -> Option<Served>
    ensures { IfSome result (IsServed taker) }
{
    let mut taker = taker;
    let mut frames = Some(Vec::new(alloc));
    for _ in rt.forever() {
        match taker.take() {
            Took::Frame(frame) => frames = append(frames, frame),
            Took::NothingYet => thread::yield_now(),
            Took::Closed => break,
        }
    }
    let frames = frames?;
    Some(Served { taker, frames })
}

/// The frames with one more, or nothing where there were none or memory ran out.
pub(crate) fn append(frames: Option<Vec<Vec<u8>>>, frame: Vec<u8>) -> Option<Vec<Vec<u8>>>
    ensures { Appends frames frame result }
{
    let mut frames = frames?;
    frames.push(frame).ok()?;
    Some(frames)
}

/// Offers all frames in order, up to the first that is refused.
fn offer_all(feeder: &mut Feeder, frames: Vec<Vec<u8>>) -> Result<(), Refused>
    ensures ring { feeder_ring feeder.new ≡ feeder_ring feeder.old }
    ensures offered { OnOk result
        (offered feeder.new ≡ offered feeder.old ++ frames_in frames.items) }
{
    for frame in frames {
        feeder.offer(frame)?;
    }
    Ok(())
}

/// Closes a feeder, and tries again until it is closed.
pub(crate) fn close<R: Wait>(rt: &R, feeder: Feeder) -> ClosedFeeder
    ensures ring { closed_ring result ≡ feeder_ring feeder }
    ensures offered { closed_offered result ≡ offered feeder }
{
    let mut feeder = feeder;
    for _ in rt.forever() {
        match feeder.close() {
            Ok(closed) => return closed,
            Err(back) => feeder = back,
        }
        thread::yield_now();
    }
    unreachable!()
}
