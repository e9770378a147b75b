//! Workers that look for each other while a receiver runs.
ghost use Rattle.std.specs.Prelude.{◌≡◌};

use std::alloc::{AllocError, Global};
use std::process::Abort;
use std::sync::Arc;
use std::sync::atomic::{AtomicU64, Ordering};
use std::thread;
use uplink::{Decision, Decisions, Input, Source, Tap};

/// How often a party looks for the others.
const LOOKS: u32 = 1_000_000;

/// A meeting of so many parties.
#[derive(Drop)]
pub struct Meeting {
    parties: u64,
    came: AtomicU64,
    missed: AtomicU64,
}

impl Meeting {
    pub fn of(alloc: Global, parties: u64) -> Result<Arc<Meeting, Global>, AllocError> {
        let meeting = Meeting {
            parties,
            came: AtomicU64::new(0),
            missed: AtomicU64::new(0),
        };
        match Arc::new(alloc, meeting) {
            Ok(meeting) => Ok(meeting),
            Err(_) => Err(AllocError),
        }
    }

    /// One party more is there. Each comes once.
    pub fn come(&self) {
        self.came.fetch_add(1, Ordering::SeqCst);
    }

    /// Looks until all parties are there, and notes it if it never sees that.
    fn look_for_all(&self) {
        for _ in 0..LOOKS {
            if self.came.load(Ordering::SeqCst) == self.parties {
                return;
            }
            thread::yield_now();
        }
        self.missed.fetch_add(1, Ordering::SeqCst);
    }

    /// Ends the test if a party looked and didn't see all the others.
    pub fn expect_met(&self, rt: &impl Abort) {
        assert!(rt; self.missed.load(Ordering::SeqCst) == 0, "not met");
    }
}

/// Gives what another source or other decisions give. It comes to a meeting before it gives what
/// follows so many items, and looks for all parties there.
#[derive(Drop)]
pub struct Attending<T> {
    given: T,
    items_before: u32,
    meeting: Option<Arc<Meeting, Global>>,
}

impl<T: Drop> Attending<T> {
    pub fn new(
        given: T,
        items_before: u32,
        meeting: &Arc<Meeting, Global>,
    ) -> Result<Attending<T>, AllocError> {
        Ok(Attending {
            given,
            items_before,
            meeting: Some(Arc::try_clone(meeting)?),
        })
    }

    /// It is asked for an item.
    fn attend(&mut self)
        ensures { self.new.given ≡ self.old.given }
    {
        if self.items_before > 0 {
            self.items_before -= 1;
            return;
        }
        if let Some(meeting) = self.meeting.take() {
            meeting.come();
            meeting.look_for_all();
        }
    }
}

impl<S: Source + Drop> Source for Attending<S> {
    ghost gives = { λ source. S.gives source.given };

    fn next(&mut self) -> Option<Input> {
        self.attend();
        self.given.next()
    }
}

impl<D: Decisions + Drop> Decisions for Attending<D> {
    ghost decides = { λ decisions. D.decides decisions.given };

    fn next(&mut self) -> Option<Decision> {
        self.attend();
        self.given.next()
    }
}

/// Comes to a meeting when it is first shown an item, and looks for nobody.
#[derive(Drop)]
pub struct Arriving {
    meeting: Option<Arc<Meeting, Global>>,
}

impl Arriving {
    pub fn new(meeting: &Arc<Meeting, Global>) -> Result<Arriving, AllocError> {
        Ok(Arriving {
            meeting: Some(Arc::try_clone(meeting)?),
        })
    }
}

impl<T> Tap<T> for Arriving {
    fn took(&mut self, _flow: usize, _item: &T) {
        if let Some(meeting) = self.meeting.take() {
            meeting.come();
        }
    }
}
