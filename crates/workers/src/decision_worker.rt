//! The worker of the decisions.
ghost use Rattle.std.specs.Prelude.{◌≡◌};
ghost use Rattle.workers.specs.Inside.Working.{DidDecideAll, HasPassedOn};

use crate::item::Item;
use crate::live_source::LiveDecisions;
use crate::retry::{close_port, post_item};
use crate::signals::Signals;
use crate::worker::{BusyWorker, Job};
use mailbox::{ClosedPort, Port};
use std::alloc::Global;
use std::sync::Wait;

/// What the decisions' worker works with.
#[derive(Drop)]
pub struct DecidingWork<D> {
    /// The number of channels, which stands for the sender of decisions.
    pub sender: u8,
    pub flow_count: usize,
    pub arrivals: Port<Item>,
    pub decisions: D,
}

impl<D: LiveDecisions + Drop> Job<ClosedPort<Item>> for DecidingWork<D> {
    ghost did = { λ work closed. DidDecideAll D.gave D.is_over work closed };

    fn serve<R: Wait>(self, _: Global, rt: &R, signals: &Signals) -> ClosedPort<Item> {
        serve_decisions(rt, signals, self)
    }
}

pub type DecisionWorker<D> = BusyWorker<DecidingWork<D>, ClosedPort<Item>>;

/// Posts all decisions that name a flow, and then closes its port.
fn serve_decisions<D: LiveDecisions + Drop, R: Wait>(
    rt: &R,
    signals: &Signals,
    work: DecidingWork<D>,
) -> ClosedPort<Item>
    ensures { DidDecideAll D.gave D.is_over work result }
{
    let mut work = work;
    pass_on(rt, signals, &mut work);
    let DecidingWork {
        sender: _,
        flow_count: _,
        arrivals,
        decisions: _,
    } = work;
    close_port(rt, signals.arrivals(), arrivals)
}

/// Posts all decisions that name a flow.
fn pass_on<D: LiveDecisions, R: Wait>(rt: &R, signals: &Signals, work: &mut DecidingWork<D>)
    ensures { HasPassedOn D.gave D.is_over work.old work.new }
{
    for _ in rt.forever() {
        let Some(decision) = work.decisions.next() else {
            return;
        };
        if decision.names_a_flow(work.flow_count) {
            let event = decision.event();
            let item = Item {
                sender: work.sender,
                event,
            };
            post_item(rt, signals.arrivals(), &mut work.arrivals, item);
        }
    }
    unreachable!()
}
