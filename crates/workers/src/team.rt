//! The seven workers.
ghost use Rattle.std.specs.Prelude.{◌≡◌, IfOk, IfErr};
ghost use Rattle.workers.specs.Inside.Handover.{IsIdle, AreIdle, AreBusy};
ghost use Rattle.workers.specs.Inside.Joining.{HaveTakenFor};
ghost use Rattle.workers.specs.Inside.Working.{DidServe, DidDecideAll};

use crate::consumers::Consumers;
use crate::decision_worker::{DecidingWork, DecisionWorker};
use crate::frame_worker::{FrameWork, FrameWorker};
use crate::item::Item;
use crate::lane_notes::LaneNotes;
use crate::lane_worker::{LaneDone, LaneWork, LaneWorker};
use crate::live_source::{LiveDecisions, LiveSource};
use crate::request_worker::{RequestWork, RequestWorker};
use crate::signals::Signals;
use crate::work::Work;
use crate::worker::{IdleWorker, Job, both_started, start_worker};
use consumer::Consumer;
use delivery::Taker;
use lane::Request;
use mailbox::{ClosedPort, Mouth};
use std::alloc::{AllocError, Global};
use std::sync::Wait;
use std::thread::Threads;

/// The workers, each at work, and what they share with the caller.
#[derive(Drop)]
pub struct Team<S0, S1, S2, S3, D, F, Q, N>
where
    S0: LiveSource + Drop,
    S1: LiveSource + Drop,
    S2: LiveSource + Drop,
    S3: LiveSource + Drop,
    D: LiveDecisions + Drop,
    F: Consumer + Drop,
    Q: Consumer + Drop,
    N: LaneNotes + Drop,
{
    pub signals: Signals,
    pub lanes: (LanePair<S0, S1, N>, LanePair<S2, S3, N>),
    pub decider: DecisionWorker<D>,
    pub takers: TakerPair<F, Q>,
}

/// The workers of two sources.
type LanePair<S0, S1, N> = (LaneWorker<S0, N>, LaneWorker<S1, N>);

/// The workers of frames and of requests.
type TakerPair<F, Q> = (FrameWorker<F>, RequestWorker<Q>);

/// The threads of the workers, which wait for their work.
#[derive(Drop)]
pub struct IdleTeam<S0, S1, S2, S3, D, F, Q, N>
where
    S0: LiveSource + Drop,
    S1: LiveSource + Drop,
    S2: LiveSource + Drop,
    S3: LiveSource + Drop,
    D: LiveDecisions + Drop,
    F: Consumer + Drop,
    Q: Consumer + Drop,
    N: LaneNotes + Drop,
{
    pub lanes: (IdlePair<S0, S1, N>, IdlePair<S2, S3, N>),
    pub decider: IdleWorker<DecidingWork<D>, ClosedPort<Item>>,
    pub takers: IdleTakers<F, Q>,
}

/// The threads for two sources.
type IdlePair<S0, S1, N> = (
    IdleWorker<LaneWork<S0>, LaneDone<N>>,
    IdleWorker<LaneWork<S1>, LaneDone<N>>,
);

/// The threads for frames and for requests.
type IdleTakers<F, Q> = (
    IdleWorker<FrameWork<F>, FrameWork<F>>,
    IdleWorker<RequestWork<Q>, RequestWork<Q>>,
);

/// What the workers have done.
#[derive(Drop)]
pub struct Done<N> {
    pub l0: LaneDone<N>,
    pub l1: LaneDone<N>,
    pub l2: LaneDone<N>,
    pub l3: LaneDone<N>,
    pub decided: ClosedPort<Item>,
    pub mouth: Mouth<Request>,
    pub takers: Vec<Taker>,
}

/// What the workers hand back: the consumers, and what they have done.
#[derive(Drop)]
pub struct Joined<F, Q, N> {
    pub consumers: Consumers<F, Q>,
    pub done: Done<N>,
}

/// Starts all workers, and hands each its part once all are there. Where one can't be started,
/// those that were return at once, and all that they were to work with comes back as it was: the
/// consumers were given nothing, and no source was asked.
pub fn start_team<S0, S1, S2, S3, D, F, Q, N, R>(
    alloc: Global,
    rt: &R,
    work: Work<S0, S1, S2, S3, D, F, Q>,
) -> Result<Team<S0, S1, S2, S3, D, F, Q, N>, Work<S0, S1, S2, S3, D, F, Q>>
where
    S0: LiveSource + Drop + Send + 'static,
    S1: LiveSource + Drop + Send + 'static,
    S2: LiveSource + Drop + Send + 'static,
    S3: LiveSource + Drop + Send + 'static,
    D: LiveDecisions + Drop + Send + 'static,
    F: Consumer + Drop + Send + 'static,
    Q: Consumer + Drop + Send + 'static,
    N: LaneNotes + Drop + Send + 'static,
    R: Threads + Wait + Copy + Send + 'static,
    ensures l0 { IfOk result (λ team. team.lanes.0.0.given.value ≡ work.l0) }
    ensures l1 { IfOk result (λ team. team.lanes.0.1.given.value ≡ work.l1) }
    ensures l2 { IfOk result (λ team. team.lanes.1.0.given.value ≡ work.l2) }
    ensures l3 { IfOk result (λ team. team.lanes.1.1.given.value ≡ work.l3) }
    ensures decider { IfOk result (λ team. team.decider.given.value ≡ work.decisions) }
    ensures frames { IfOk result (λ team. team.takers.0.given.value ≡ work.frames) }
    ensures requests { IfOk result (λ team. team.takers.1.given.value ≡ work.requests) }
    ensures busy { IfOk result AreBusy }
    ensures given_back { IfErr result (λ back. back ≡ work) }
{
    match start_all(alloc, rt, &work.signals) {
        Ok(idle) => Ok(begin_all(idle, work)),
        Err(AllocError) => Err(work),
    }
}

/// Starts the threads of all workers. Where one can't be started, the others return at once.
fn start_all<S0, S1, S2, S3, D, F, Q, N, R>(
    alloc: Global,
    rt: &R,
    signals: &Signals,
) -> Result<IdleTeam<S0, S1, S2, S3, D, F, Q, N>, AllocError>
where
    S0: LiveSource + Drop + Send + 'static,
    S1: LiveSource + Drop + Send + 'static,
    S2: LiveSource + Drop + Send + 'static,
    S3: LiveSource + Drop + Send + 'static,
    D: LiveDecisions + Drop + Send + 'static,
    F: Consumer + Drop + Send + 'static,
    Q: Consumer + Drop + Send + 'static,
    N: LaneNotes + Drop + Send + 'static,
    R: Threads + Wait + Copy + Send + 'static,
    ensures { IfOk result AreIdle }
{
    let first = start_two(alloc, rt, signals);
    let second = start_two(alloc, rt, signals);
    let lanes = both_started(rt, signals, first, second);
    let takers = start_two(alloc, rt, signals);
    let others = both_started(rt, signals, start_worker(alloc, rt, signals), takers);
    let (lanes, (decider, takers)) = both_started(rt, signals, lanes, others)?;
    Ok(IdleTeam {
        lanes,
        decider,
        takers,
    })
}

/// Starts two threads.
fn start_two<V, X, W, Y, R>(
    alloc: Global,
    rt: &R,
    signals: &Signals,
) -> Result<(IdleWorker<V, X>, IdleWorker<W, Y>), AllocError>
where
    V: Job<X> + Drop + Send + 'static,
    X: Drop + Send + 'static,
    W: Job<Y> + Drop + Send + 'static,
    Y: Drop + Send + 'static,
    R: Threads + Wait + Copy + Send + 'static,
    ensures one { IfOk result (λ pair. IsIdle pair.0) }
    ensures other { IfOk result (λ pair. IsIdle pair.1) }
{
    let one = start_worker(alloc, rt, signals);
    let other = start_worker(alloc, rt, signals);
    both_started(rt, signals, one, other)
}

/// Hands each thread its part, and wakes them.
fn begin_all<S0, S1, S2, S3, D, F, Q, N>(
    idle: IdleTeam<S0, S1, S2, S3, D, F, Q, N>,
    work: Work<S0, S1, S2, S3, D, F, Q>,
) -> Team<S0, S1, S2, S3, D, F, Q, N>
where
    S0: LiveSource + Drop,
    S1: LiveSource + Drop,
    S2: LiveSource + Drop,
    S3: LiveSource + Drop,
    D: LiveDecisions + Drop,
    F: Consumer + Drop,
    Q: Consumer + Drop,
    N: LaneNotes + Drop,
    requires { AreIdle idle }
    ensures l0 { result.lanes.0.0.given.value ≡ work.l0 }
    ensures l1 { result.lanes.0.1.given.value ≡ work.l1 }
    ensures l2 { result.lanes.1.0.given.value ≡ work.l2 }
    ensures l3 { result.lanes.1.1.given.value ≡ work.l3 }
    ensures decider { result.decider.given.value ≡ work.decisions }
    ensures frames { result.takers.0.given.value ≡ work.frames }
    ensures requests { result.takers.1.given.value ≡ work.requests }
    ensures busy { AreBusy result }
{
    let IdleTeam {
        lanes: ((h0, h1), (h2, h3)),
        decider,
        takers: (consuming, scheduling),
    } = idle;
    let team = Team {
        signals: work.signals,
        lanes: (
            (h0.begin(work.l0), h1.begin(work.l1)),
            (h2.begin(work.l2), h3.begin(work.l3)),
        ),
        decider: decider.begin(work.decisions),
        takers: (
            consuming.begin(work.frames),
            scheduling.begin(work.requests),
        ),
    };
    team.signals.told().notify_all();
    team
}

impl<S0, S1, S2, S3, D, F, Q, N> Team<S0, S1, S2, S3, D, F, Q, N>
where
    S0: LiveSource + Drop,
    S1: LiveSource + Drop,
    S2: LiveSource + Drop,
    S3: LiveSource + Drop,
    D: LiveDecisions + Drop,
    F: Consumer + Drop,
    Q: Consumer + Drop,
    N: LaneNotes + Drop,
{
    /// Waits until all workers have returned.
    pub fn join<R: Threads>(self, rt: &R) -> Joined<F, Q, N>
        requires { AreBusy self }
        ensures l0 { DidServe N.are_of S0.gave S0.is_over self.lanes.0.0.given.value
            result.done.l0 }
        ensures l1 { DidServe N.are_of S1.gave S1.is_over self.lanes.0.1.given.value
            result.done.l1 }
        ensures l2 { DidServe N.are_of S2.gave S2.is_over self.lanes.1.0.given.value
            result.done.l2 }
        ensures l3 { DidServe N.are_of S3.gave S3.is_over self.lanes.1.1.given.value
            result.done.l3 }
        ensures decided { DidDecideAll D.gave D.is_over self.decider.given.value
            result.done.decided }
        ensures taken { HaveTakenFor F.after Q.after self.takers.0.given.value
            self.takers.1.given.value result }
    {
        let ((w0, w1), (w2, w3)) = self.lanes;
        let (consuming, scheduling) = self.takers;
        let l0 = w0.join(rt);
        let l1 = w1.join(rt);
        let l2 = w2.join(rt);
        let l3 = w3.join(rt);
        let decided = self.decider.join(rt);
        let FrameWork { takers, consumer } = consuming.join(rt);
        let RequestWork { mouth, scheduler } = scheduling.join(rt);
        Joined {
            consumers: Consumers {
                consumer,
                scheduler,
            },
            done: Done {
                l0,
                l1,
                l2,
                l3,
                decided,
                mouth,
                takers,
            },
        }
    }
}
