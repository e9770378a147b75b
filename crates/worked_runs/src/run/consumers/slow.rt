//! A consumer that takes longer than its frames come.
use super::{Answer, receive_on_channel_0};
use crate::run::held_up::{Calls, Counting, HeldUp};
use crate::run::numbered;
use docsis_wire::Bytes;
use std::alloc::{AllocError, Global};
use std::sync::{Arc, Wait};
use std::test::Fail;
use std::thread::Threads;
use uplink::{Consumer, Counts, Forgets, ListSource, Request, Tap};

/// How many segments come, each with a frame.
const SEGMENTS: u16 = 512;

/// Counts what it is given. It is held up by its first frame, and then looks how often the source
/// was asked.
#[derive(Drop)]
struct Slow {
    counts: Counts,
    held_up: HeldUp,
}

impl Consumer for Slow {
    ghost use Rattle.consumer.specs.Counting.{HasCounted};

    ghost after = { λ start given now. HasCounted start.counts given now.counts };

    fn frame(&mut self, flow: usize, frame: Bytes) {
        self.held_up.took(flow, &frame);
        self.counts.frame(flow, frame);
    }

    fn request(&mut self, request: Request) {
        self.counts.request(request);
    }
}

/// Receives the segments. The ring and the mailboxes have room for one entry.
fn receive_slowly<R>(
    alloc: Global,
    rt: R,
    calls: &Arc<Calls, Global>,
) -> Result<Answer<Slow, Forgets>, AllocError>
where
    R: Threads + Wait + Copy + Send + 'static,
{
    let inputs = numbered::inputs_on_channel_0(alloc, SEGMENTS, 0)?;
    let source = Counting::new(ListSource::new(inputs), calls)?;
    let setup = numbered::narrow(alloc, 16)?;
    let consumer = Slow {
        counts: Counts::default(),
        held_up: HeldUp::new(calls)?,
    };
    Ok(receive_on_channel_0(alloc, rt, setup, source, consumer, Forgets))
}

/// How many frames were counted.
fn frames_counted(answer: Answer<Slow, Forgets>) -> Option<u64> {
    Some(answer.ok()?.consumer.counts.frames)
}

/// While the consumer has the first frame, one lies in the ring, one in the backlog, one segment in
/// the mailbox, and one waits for room there: the source was asked for five segments, each of which
/// is two inputs. No frame is dropped.
#[test]
fn slow_consumer_is_waited_for(rt: HostRuntime) -> Result<(), Fail> {
    let calls = Calls::none(rt.alloc())?;
    let answer = receive_slowly(rt.alloc(), rt, &calls)?;
    let seen = calls.seen();
    assert!(rt; 2 <= seen, "{seen}");
    assert!(rt; seen <= 10, "{seen}");
    assert!(rt; frames_counted(answer) == Some(u64::from(SEGMENTS)));
    Ok(())
}
