//! Frames that lie in a backlog while nothing comes.
use super::count::Count;
use super::numbered;
use super::receivers::{receive_checked_on_channel_0, receive_on_channel_0};
use docsis_wire::{Bytes, HeaderCheck};
use std::alloc::{AllocError, Global};
use std::sync::{Arc, Wait};
use std::test::Fail;
use std::thread;
use std::thread::Threads;
use std::time::{Clock, Duration};
use uplink::{Input, ListSource, NoTap, Outcome, RunFault, Source, Tap, Taps};
use worked_traces::traces::push_segment;

/// How many segments come, each with a frame: more than the ring and the mailbox hold.
const SEGMENTS: u16 = 8;

/// Gives a list, and doesn't end before a tap was shown all frames.
#[derive(Drop)]
struct EndingLate {
    list: ListSource,
    used_up: Arc<Count, Global>,
    shown: Arc<Count, Global>,
}

impl EndingLate {
    fn new(
        list: ListSource,
        used_up: &Arc<Count, Global>,
        shown: &Arc<Count, Global>,
    ) -> Result<EndingLate, AllocError> {
        Ok(EndingLate {
            list,
            used_up: Arc::try_clone(used_up)?,
            shown: Arc::try_clone(shown)?,
        })
    }
}

impl Source for EndingLate {
    ghost gives = { λ source. ⟦<ListSource as Source>⟧.gives source.list };

    fn next(&mut self) -> Option<Input> {
        let input = self.list.next();
        if input.is_none() {
            self.used_up.add();
            self.shown.look_for(u64::from(SEGMENTS));
        }
        input
    }
}

/// Is held up by its first frame until the source's list is used up, and counts all frames.
#[derive(Drop)]
struct BeginningLate {
    used_up: Arc<Count, Global>,
    shown: Arc<Count, Global>,
}

impl BeginningLate {
    fn new(
        used_up: &Arc<Count, Global>,
        shown: &Arc<Count, Global>,
    ) -> Result<BeginningLate, AllocError> {
        Ok(BeginningLate {
            used_up: Arc::try_clone(used_up)?,
            shown: Arc::try_clone(shown)?,
        })
    }
}

impl Tap<Bytes> for BeginningLate {
    fn took(&mut self, _flow: usize, _frame: &Bytes) {
        self.used_up.look_for(1);
        self.shown.add();
    }
}

/// Receives the segments while their source and the tap of their frames wait for each other.
fn receive_late<R>(
    alloc: Global,
    rt: R,
    used_up: &Arc<Count, Global>,
    shown: &Arc<Count, Global>,
) -> Result<Outcome, RunFault>
where
    R: Threads + Wait + Copy + Send + 'static,
{
    let inputs = numbered::inputs_on_channel_0(alloc, SEGMENTS, 0)?;
    let source = EndingLate::new(ListSource::new(inputs), used_up, shown)?;
    let taps = Taps {
        frames: BeginningLate::new(used_up, shown)?,
        requests: NoTap,
    };
    receive_on_channel_0(alloc, rt, source, taps)
}

/// When the list is used up, all segments but one at least were assembled, and of their frames one
/// is held up and one is in the ring. The others come only if the backlog is moved on while the
/// source still waits.
#[test]
fn backlog_is_moved_on_while_nothing_comes(rt: HostRuntime) -> Result<(), Fail> {
    let used_up = Count::shared(rt.alloc())?;
    let shown = Count::shared(rt.alloc())?;
    let outcome = receive_late(rt.alloc(), rt, &used_up, &shown)?;
    numbered::expect_frames(&rt, &outcome, SEGMENTS);
    used_up.expect_met(&rt, "the source's end");
    shown.expect_met(&rt, "the frames");
    Ok(())
}

/// A segment with the front of a frame of two bytes.
const UNFINISHED: &[u8] = &[0x80, 0, 0, 64, 0, 0, 0, 0, 0, 0, 0, 2, 0x11, 0x11, 0];

/// Lets each header pass, that of a frame of two bytes late.
#[derive(Drop)]
struct CheckedLate<R> {
    rt: R,
}

impl<R: Clock> HeaderCheck for CheckedLate<R> {
    ghost use Rattle.std.specs.Prelude.{true};

    ghost accepts = { λ _ _. true };

    fn passes(&self, header: &[u8]) -> bool {
        if header.get(3) == Some(&2) {
            thread::sleep(&self.rt, Duration::from_millis(200));
        }
        true
    }
}

/// Receives the segments as before, and an unfinished one after them, whose header is checked late.
fn receive_held_up<R>(
    alloc: Global,
    rt: R,
    used_up: &Arc<Count, Global>,
    shown: &Arc<Count, Global>,
) -> Result<Outcome, RunFault>
where
    R: Threads + Wait + Clock + Copy + Send + 'static,
{
    let mut inputs = numbered::inputs_on_channel_0(alloc, SEGMENTS, 0)?;
    push_segment(alloc, &mut inputs, u32::from(SEGMENTS), 1, UNFINISHED)?;
    let source = EndingLate::new(ListSource::new(inputs), used_up, shown)?;
    let taps = Taps {
        frames: BeginningLate::new(used_up, shown)?,
        requests: NoTap,
    };
    receive_checked_on_channel_0(alloc, rt, source, taps, CheckedLate { rt })
}

/// While the last header is checked the consumer takes what is in the ring, and goes to sleep. The
/// unfinished frame isn't offered, so it is woken only if the backlog that moves on wakes it.
#[test]
fn moved_backlog_wakes_the_consumer(rt: HostRuntime) -> Result<(), Fail> {
    let used_up = Count::shared(rt.alloc())?;
    let shown = Count::shared(rt.alloc())?;
    let outcome = receive_held_up(rt.alloc(), rt, &used_up, &shown)?;
    assert!(rt; outcome.flows.len() == 1);
    assert!(rt; outcome.flows[0].frames.len() == usize::from(SEGMENTS));
    used_up.expect_met(&rt, "the source's end");
    shown.expect_met(&rt, "the frames");
    Ok(())
}
