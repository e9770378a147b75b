//! Requests that come while their segments find no room yet.
use super::count::Count;
use super::numbered;
use super::receivers::{no_decisions, no_inputs};
use docsis_wire::{HeaderCheck, NoCheck};
use std::alloc::{AllocError, Global};
use std::sync::{Arc, Wait};
use std::test::Fail;
use std::thread::Threads;
use uplink::{
    Decision, Decisions, Input, ListSource, NoTap, Outcome, Request, RunFault, Source, Sources,
    Tap, Taps, run,
};

/// How many segments come, each with a frame and a request.
const SEGMENTS: u16 = 3;

/// Gives and answers what another does, each time once a tap was shown all requests.
#[derive(Drop)]
struct Awaiting<T> {
    given: T,
    requests: Arc<Count, Global>,
}

impl<T: Drop> Awaiting<T> {
    fn new(given: T, requests: &Arc<Count, Global>) -> Result<Awaiting<T>, AllocError> {
        let requests = Arc::try_clone(requests)?;
        Ok(Awaiting { given, requests })
    }

    fn look_for_requests(&self) {
        self.requests.look_for(u64::from(SEGMENTS));
    }
}

impl<S: Source + Drop> Source for Awaiting<S> {
    ghost gives = { λ source. S.gives source.given };

    fn next(&mut self) -> Option<Input> {
        self.look_for_requests();
        self.given.next()
    }
}

impl<D: Decisions + Drop> Decisions for Awaiting<D> {
    ghost decides = { λ decisions. D.decides decisions.given };

    fn next(&mut self) -> Option<Decision> {
        self.look_for_requests();
        self.given.next()
    }
}

impl<C: HeaderCheck + Drop> HeaderCheck for Awaiting<C> {
    ghost accepts = { λ check. C.accepts check.given };

    fn passes(&self, header: &[u8]) -> bool {
        self.look_for_requests();
        self.given.passes(header)
    }
}

/// Counts the requests that it is shown.
#[derive(Drop)]
struct CountingTap {
    requests: Arc<Count, Global>,
}

impl CountingTap {
    fn new(requests: &Arc<Count, Global>) -> Result<CountingTap, AllocError> {
        let requests = Arc::try_clone(requests)?;
        Ok(CountingTap { requests })
    }
}

impl Tap<Request> for CountingTap {
    fn took(&mut self, _flow: usize, _request: &Request) {
        self.requests.add();
    }
}

type Late = Awaiting<ListSource>;

/// The segments on channel 0. The other sources give nothing, and end late.
fn all_sources(
    alloc: Global,
    requests: &Arc<Count, Global>,
) -> Result<Sources<ListSource, Late, Late, Late>, AllocError> {
    let inputs = numbered::inputs_on_channel_0(alloc, SEGMENTS, 7)?;
    Ok(Sources {
        s0: ListSource::new(inputs),
        s1: Awaiting::new(no_inputs(alloc), requests)?,
        s2: Awaiting::new(no_inputs(alloc), requests)?,
        s3: Awaiting::new(no_inputs(alloc), requests)?,
    })
}

/// Receives the segments. All but their source wait until a tap was shown all requests.
fn receive_awaiting<R>(
    alloc: Global,
    rt: R,
    requests: &Arc<Count, Global>,
) -> Result<Outcome, RunFault>
where
    R: Threads + Wait + Copy + Send + 'static,
{
    let sources = all_sources(alloc, requests)?;
    let decisions = Awaiting::new(no_decisions(alloc), requests)?;
    let taps = Taps {
        frames: NoTap,
        requests: CountingTap::new(requests)?,
    };
    let check = Awaiting::new(NoCheck, requests)?;
    let setup = numbered::narrow(alloc, 16)?;
    run(alloc, rt, setup, sources, decisions, taps, check)
}

/// The check of the first segment's frame waits for the request of the third segment. The second
/// segment fills the mailbox meanwhile, since no other sender ends earlier: the third has no room,
/// and its request comes only if it is posted before it.
#[test]
fn request_is_posted_before_its_segment(rt: HostRuntime) -> Result<(), Fail> {
    let requests = Count::shared(rt.alloc())?;
    let outcome = receive_awaiting(rt.alloc(), rt, &requests)?;
    numbered::expect_frames(&rt, &outcome, SEGMENTS);
    assert!(rt; outcome.requests[0].len() == usize::from(SEGMENTS));
    requests.expect_met(&rt, "all requests");
    Ok(())
}
