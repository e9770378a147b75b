//! What the workers of a running receiver are started with.
ghost use Rattle.std.specs.Prelude.{◌≡◌, []};
ghost use Rattle.workers.specs.Inside.Working.{HasPosted};

use crate::consumers::Consumers;
use crate::decision_worker::DecidingWork;
use crate::frame_worker::FrameWork;
use crate::item::Item;
use crate::lane_worker::LaneWork;
use crate::mailboxes::OpenMailbox;
use crate::request_worker::RequestWork;
use crate::retry::close_port;
use crate::signals::Signals;
use crate::source::Sources;
use delivery::Taker;
use lane::{Lane, Request};
use mailbox::{ClosedPort, Ports};
use std::sync::Wait;

/// The lanes of the four sources, each by the number of its channel.
#[derive(Drop)]
pub struct Lanes {
    pub l0: Vec<Option<Lane>>,
    pub l1: Vec<Option<Lane>>,
    pub l2: Vec<Option<Lane>>,
    pub l3: Vec<Option<Lane>>,
}

/// What was opened for the workers: what they share, the lanes, the ports of the arrivals, the
/// mailbox of the requests, and the taker of each flow.
#[derive(Drop)]
pub struct Share {
    pub signals: Signals,
    pub lanes: Lanes,
    pub arrivals: Ports<Item>,
    pub requests: OpenMailbox<Request>,
    pub takers: Vec<Taker>,
}

/// What the workers are started with.
#[derive(Drop)]
pub struct Work<S0, S1, S2, S3, D, F, Q> {
    pub signals: Signals,
    pub l0: LaneWork<S0>,
    pub l1: LaneWork<S1>,
    pub l2: LaneWork<S2>,
    pub l3: LaneWork<S3>,
    pub decisions: DecidingWork<D>,
    pub requests: RequestWork<Q>,
    pub frames: FrameWork<F>,
}

impl<S0, S1, S2, S3, D, F, Q> Work<S0, S1, S2, S3, D, F, Q> {
    /// Gives each worker its part, where there are so many channels and flows. The fifth port of
    /// the requests, which no worker needs, is closed.
    pub fn new<R: Wait>(
        rt: &R,
        channels: u8,
        flow_count: usize,
        share: Share,
        sources: Sources<S0, S1, S2, S3>,
        decisions: D,
        consumers: Consumers<F, Q>,
    ) -> (Work<S0, S1, S2, S3, D, F, Q>, ClosedPort<Request>)
        ensures l0 { result.0.l0 ≡ record {
          lanes = share.lanes.l0;
          arrivals = share.arrivals.p0;
          requests = share.requests.ports.p0;
          source = sources.s0;
        } }
        ensures l1 { result.0.l1 ≡ record {
          lanes = share.lanes.l1;
          arrivals = share.arrivals.p1;
          requests = share.requests.ports.p1;
          source = sources.s1;
        } }
        ensures l2 { result.0.l2 ≡ record {
          lanes = share.lanes.l2;
          arrivals = share.arrivals.p2;
          requests = share.requests.ports.p2;
          source = sources.s2;
        } }
        ensures l3 { result.0.l3 ≡ record {
          lanes = share.lanes.l3;
          arrivals = share.arrivals.p3;
          requests = share.requests.ports.p3;
          source = sources.s3;
        } }
        ensures decisions { result.0.decisions ≡ record {
          sender = channels;
          flow_count = flow_count;
          arrivals = share.arrivals.p4;
          decisions = decisions;
        } }
        ensures requests { result.0.requests ≡ record {
          mouth = share.requests.mouth;
          scheduler = consumers.scheduler;
        } }
        ensures frames { result.0.frames ≡ record {
          takers = share.takers;
          consumer = consumers.consumer;
        } }
        ensures unused { HasPosted share.requests.ports.p4 [] result.1 }
    {
        let Share {
            signals,
            lanes,
            arrivals,
            requests,
            takers,
        } = share;
        let ports = requests.ports;
        let unused_port = close_port(rt, signals.requests(), ports.p4);
        let work = Work {
            signals,
            l0: LaneWork::new(lanes.l0, arrivals.p0, ports.p0, sources.s0),
            l1: LaneWork::new(lanes.l1, arrivals.p1, ports.p1, sources.s1),
            l2: LaneWork::new(lanes.l2, arrivals.p2, ports.p2, sources.s2),
            l3: LaneWork::new(lanes.l3, arrivals.p3, ports.p3, sources.s3),
            decisions: DecidingWork {
                sender: channels,
                flow_count,
                arrivals: arrivals.p4,
                decisions,
            },
            requests: RequestWork {
                mouth: requests.mouth,
                scheduler: consumers.scheduler,
            },
            frames: FrameWork {
                takers,
                consumer: consumers.consumer,
            },
        };
        (work, unused_port)
    }
}
