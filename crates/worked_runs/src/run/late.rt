//! Threads that have gone to sleep when what they wait for comes.
use super::numbered;
use super::receivers::{
    no_decisions, no_inputs, no_taps, receive, receive_on_channel_0, sources_of,
};
use docsis_wire::{Bytes, HeaderCheck, NoCheck};
use std::alloc::Global;
use std::process::Abort;
use std::sync::Wait;
use std::test::Fail;
use std::thread::Threads;
use std::time::{Clock, Duration};
use std::{fs, thread};
use uplink::{
    Decision, Decisions, Input, ListSource, Lists, NoTap, Outcome, Request, RunFault, Source, Tap,
    Taps, run,
};
use worked_traces::traces::Trace;

/// How many milliseconds all others have, each time, to go to sleep.
const LATE: u64 = 5;

/// Does what another does, each time late.
#[derive(Drop)]
struct Late<T, R> {
    given: T,
    rt: R,
    milliseconds: u64,
}

impl<T, R: Clock> Late<T, R> {
    fn new(given: T, rt: R) -> Late<T, R> {
        Late::by(given, rt, LATE)
    }

    fn by(given: T, rt: R, milliseconds: u64) -> Late<T, R> {
        Late {
            given,
            rt,
            milliseconds,
        }
    }

    fn be_late(&self) {
        thread::sleep(&self.rt, Duration::from_millis(self.milliseconds));
    }
}

impl<S: Source + Drop, R: Clock> Source for Late<S, R> {
    ghost gives = { λ source. S.gives source.given };

    fn next(&mut self) -> Option<Input> {
        self.be_late();
        self.given.next()
    }
}

impl<D: Decisions + Drop, R: Clock> Decisions for Late<D, R> {
    ghost decides = { λ decisions. D.decides decisions.given };

    fn next(&mut self) -> Option<Decision> {
        self.be_late();
        self.given.next()
    }
}

impl<C: HeaderCheck + Drop, R: Clock> HeaderCheck for Late<C, R> {
    ghost accepts = { λ check. C.accepts check.given };

    fn passes(&self, header: &[u8]) -> bool {
        self.be_late();
        self.given.passes(header)
    }
}

impl<T, X: Tap<T>, R: Clock> Tap<T> for Late<X, R> {
    fn took(&mut self, flow: usize, item: &T) {
        self.be_late();
        self.given.took(flow, item);
    }
}

/// How many segments come, each with a frame and a request.
const SEGMENTS: u16 = 6;

/// Receives them, with little room, while these taps look on.
fn receive_all<F, Q, R>(alloc: Global, rt: R, taps: Taps<F, Q>) -> Result<Outcome, RunFault>
where
    F: Tap<Bytes> + Drop + Send + 'static,
    Q: Tap<Request> + Drop + Send + 'static,
    R: Threads + Wait + Copy + Send + 'static,
{
    let inputs = numbered::inputs_on_channel_0(alloc, SEGMENTS, 7)?;
    receive_on_channel_0(alloc, rt, ListSource::new(inputs), taps)
}

/// All of them came, with their requests.
fn expect_all(rt: &impl Abort, outcome: &Outcome) {
    numbered::expect_frames(rt, outcome, SEGMENTS);
    assert!(rt; outcome.requests[0].len() == usize::from(SEGMENTS));
}

/// Each input comes late, and so does the end, when all that take are asleep.
#[test]
fn sleepers_are_woken_by_a_late_source(rt: HostRuntime) -> Result<(), Fail> {
    let inputs = numbered::inputs_on_channel_0(rt.alloc(), SEGMENTS, 7)?;
    let source = Late::new(ListSource::new(inputs), rt);
    let outcome = receive_on_channel_0(rt.alloc(), rt, source, no_taps())?;
    expect_all(&rt, &outcome);
    Ok(())
}

/// Each request is looked at for a while: the channel sleeps until there is room for the next.
#[test]
fn channel_is_woken_by_a_late_scheduler(rt: HostRuntime) -> Result<(), Fail> {
    let taps = Taps {
        frames: NoTap,
        requests: Late::new(NoTap, rt),
    };
    expect_all(&rt, &receive_all(rt.alloc(), rt, taps)?);
    Ok(())
}

/// Each frame is looked at for a while: the assembler sleeps while the others wait in the backlog,
/// and then at the close.
#[test]
fn assembler_is_woken_by_a_late_consumer(rt: HostRuntime) -> Result<(), Fail> {
    let taps = Taps {
        frames: Late::new(NoTap, rt),
        requests: NoTap,
    };
    expect_all(&rt, &receive_all(rt.alloc(), rt, taps)?);
    Ok(())
}

/// Receives segments on four channels, and checks each header late.
fn receive_checked_late<R>(alloc: Global, rt: R, all: u16) -> Result<Outcome, RunFault>
where
    R: Threads + Wait + Clock + Copy + Send + 'static,
{
    let Lists { inputs, .. } = numbered::lists(alloc, all)?;
    let decisions = Late::new(no_decisions(alloc), rt);
    let setup = numbered::narrow(alloc, 4096)?;
    let check = Late::new(NoCheck, rt);
    let sources = sources_of(inputs);
    run(alloc, rt, setup, sources, decisions, no_taps(), check)
}

/// The assembler checks each header for a while: all five that post sleep until there is room.
#[test]
fn channels_are_woken_by_a_late_assembler(rt: HostRuntime) -> Result<(), Fail> {
    let outcome = receive_checked_late(rt.alloc(), rt, 16)?;
    numbered::expect_all(&rt, &outcome, 16);
    Ok(())
}

/// Where the system says how long this process has had a processor.
const STAT: &str = "/proc/self/stat";

/// How many hundredths of a second that is, by the process itself and by the system for it: the
/// twelfth and the thirteenth field behind its name.
fn processor_time(stat: &str) -> Option<u64> {
    let (_, fields) = stat.rsplit_once(')')?;
    let mut fields = fields.split_whitespace().skip(11);
    let user = fields.next()?.parse::<u64>().ok()?;
    let system = fields.next()?.parse::<u64>().ok()?;
    user.checked_add(system)
}

/// A source comes late with its end, by 400 milliseconds, in which three threads wait. If they
/// tried again all the time they would take 1.2 seconds of idle processors.
#[test]
fn sleepers_take_no_processor(rt: HostRuntime) -> Result<(), Fail> {
    let before = processor_time(&fs::read_to_string(&rt, STAT)?);
    let source = Late::by(no_inputs(rt.alloc()), rt, 400);
    receive_on_channel_0(rt.alloc(), rt, source, no_taps())?;
    let after = processor_time(&fs::read_to_string(&rt, STAT)?);
    let (before, after) = (before.expect(&rt, STAT), after.expect(&rt, STAT));
    assert!(rt; after < before.saturating_add(10), "{before}, then {after}");
    Ok(())
}

/// With little room each thread waits for the others at nearly every item. A wake-up that is lost
/// now and then, as between a look and the sleep, would leave a run standing still. The whole of
/// this is `bench/run_soak`.
#[test]
fn no_run_of_many_stands_still(rt: HostRuntime) -> Result<(), Fail> {
    for _ in 0..100_u8 {
        let setup = numbered::narrow(rt.alloc(), 16)?;
        let lists = numbered::lists(rt.alloc(), 8)?;
        let outcome = receive(rt.alloc(), rt, Trace { setup, lists })?;
        numbered::expect_all(&rt, &outcome, 8);
    }
    Ok(())
}
