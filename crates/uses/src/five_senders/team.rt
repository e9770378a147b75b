//! The five workers.
ghost use Rattle.std.specs.Prelude.{◌≡◌, IfOk};
ghost use Rattle.uses.specs.FiveSenders.{HavePosted, ports_of, given_lists};

use super::Lists;
use super::taker::drop_all;
use super::worker::{Worker, start};
use mailbox::{ClosedPorts, Mouth, Ports};
use std::alloc::AllocError;
use std::sync::Wait;
use std::thread::Threads;

/// Worker k posts list k through port k.
pub struct Team<T> {
    pub w0: Worker<T>,
    pub w1: Worker<T>,
    pub w2: Worker<T>,
    pub w3: Worker<T>,
    pub w4: Worker<T>,
}

type Started<T> = Result<Worker<T>, AllocError>;

/// Starts all five workers. Where one can't be started, those that were are ended.
pub fn start_all<T, R>(
    rt: &R,
    ports: Ports<T>,
    lists: Lists<T>,
    mouth: Mouth<T>,
) -> Result<(Team<T>, Mouth<T>), AllocError>
where
    T: Drop + Send + 'static,
    R: Threads + Wait + Copy + Send + 'static,
    ensures ports { IfOk result (λ started. ports_of started.0 ≡ ports) }
    ensures lists { IfOk result (λ started. given_lists started.0 ≡ lists) }
    ensures mouth { IfOk result (λ started. started.1 ≡ mouth) }
{
    let w0 = start(rt, ports.p0, lists.l0);
    let w1 = start(rt, ports.p1, lists.l1);
    let w2 = start(rt, ports.p2, lists.l2);
    let w3 = start(rt, ports.p3, lists.l3);
    let w4 = start(rt, ports.p4, lists.l4);
    if w0.is_err() || w1.is_err() || w2.is_err() || w3.is_err() || w4.is_err() {
        abandon(rt, mouth, (w0, w1, w2, w3, w4));
        return Err(AllocError);
    }
    let team = Team {
        w0: w0.unwrap(),
        w1: w1.unwrap(),
        w2: w2.unwrap(),
        w3: w3.unwrap(),
        w4: w4.unwrap(),
    };
    Ok((team, mouth))
}

// Lets those workers end that were started, and drops what they post.
fn abandon<T: Drop, R: Threads + Wait>(
    rt: &R,
    mouth: Mouth<T>,
    workers: (Started<T>, Started<T>, Started<T>, Started<T>, Started<T>),
) {
    let (w0, w1, w2, w3, w4) = workers;
    let started = [w0.is_ok(), w1.is_ok(), w2.is_ok(), w3.is_ok(), w4.is_ok()];
    drop_all(rt, mouth, started.iter().filter(|ok| **ok).count());
    end(rt, w0);
    end(rt, w1);
    end(rt, w2);
    end(rt, w3);
    end(rt, w4);
}

fn end<T: Drop, R: Threads>(rt: &R, worker: Started<T>) {
    if let Ok(worker) = worker {
        worker.join(rt);
    }
}

impl<T: Drop> Team<T> {
    /// Waits until all five have closed their ports.
    pub fn join<R: Threads>(self, rt: &R) -> ClosedPorts<T>
        ensures { HavePosted (ports_of self) (given_lists self) result }
    {
        let Team { w0, w1, w2, w3, w4 } = self;
        ClosedPorts {
            p0: w0.join(rt),
            p1: w1.join(rt),
            p2: w2.join(rt),
            p3: w3.join(rt),
            p4: w4.join(rt),
        }
    }
}
