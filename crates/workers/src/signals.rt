//! What threads tell each other beside what they hand on: that something was put or taken for which
//! another may wait.
use crossbeam_utils::atomic::AtomicCell;
use crossbeam_utils::sync::EventCount;
use std::alloc::{AllocError, Global};
use std::sync::Arc;

/// What is told of a mailbox.
#[derive(Drop)]
pub struct MailboxSignals {
    /// An entry was posted. The one who takes waits for it.
    pub posted: EventCount,
    /// An entry was taken. Who found no room waits for it.
    pub taken: EventCount,
}

impl MailboxSignals {
    fn new() -> MailboxSignals {
        MailboxSignals {
            posted: EventCount::new(),
            taken: EventCount::new(),
        }
    }
}

/// What the caller and all workers share. Nothing is claimed of it.
#[derive(Drop)]
pub struct Signals {
    shared: Arc<Shared, Global>,
}

#[derive(Drop)]
struct Shared {
    told: EventCount,
    arrivals: MailboxSignals,
    requests: MailboxSignals,
    offered: EventCount,
    wants_room: AtomicCell<bool>,
    failed: AtomicCell<bool>,
}

impl Signals {
    /// Of a receiver whose workers are not started yet.
    pub fn new(alloc: Global) -> Result<Signals, AllocError> {
        let shared = Shared {
            told: EventCount::new(),
            arrivals: MailboxSignals::new(),
            requests: MailboxSignals::new(),
            offered: EventCount::new(),
            wants_room: AtomicCell::new(false),
            failed: AtomicCell::new(false),
        };
        let Ok(shared) = Arc::new(alloc, shared) else {
            return Err(AllocError);
        };
        Ok(Signals { shared })
    }

    /// The same, for a worker.
    pub fn share(&self) -> Result<Signals, AllocError> {
        let shared = Arc::try_clone(&self.shared)?;
        Ok(Signals { shared })
    }

    /// A worker was told to begin, or to return. Workers wait for it.
    pub fn told(&self) -> &EventCount {
        &self.shared.told
    }

    /// Of the mailbox from which the assembler takes.
    pub fn arrivals(&self) -> &MailboxSignals {
        &self.shared.arrivals
    }

    /// Of the mailbox from which the worker of requests takes.
    pub fn requests(&self) -> &MailboxSignals {
        &self.shared.requests
    }

    /// A frame or an end mark was put into a ring. The worker of frames waits for it.
    pub fn offered(&self) -> &EventCount {
        &self.shared.offered
    }

    /// Whether the assembler waits for room in a ring too, and not for arrivals alone.
    pub fn want_room(&self, wants: bool) {
        self.shared.wants_room.store(wants);
    }

    /// An allocation of a source's worker failed.
    pub fn fail(&self) {
        self.shared.failed.store(true);
    }

    /// Whether an allocation of a source's worker failed.
    pub fn has_failed(&self) -> bool {
        self.shared.failed.load()
    }

    /// Frames were taken out of rings. The assembler is told as of an arrival, if it wants room.
    pub fn tell_of_room(&self) {
        if self.shared.wants_room.load() {
            self.shared.arrivals.posted.notify_one();
        }
    }
}
