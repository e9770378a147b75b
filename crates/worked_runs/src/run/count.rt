//! Counts that the threads of a run share with the test that runs them.
use std::alloc::{AllocError, Global};
use std::process::Abort;
use std::sync::Arc;
use std::sync::atomic::{AtomicU64, Ordering};
use std::thread;

/// How often a thread looks whether a count has come far enough.
const LOOKS: u32 = 1_000_000;

/// A count, and how many threads gave up looking for a greater one.
#[derive(Drop)]
pub struct Count {
    value: AtomicU64,
    missed: AtomicU64,
}

impl Count {
    /// Nothing was counted yet.
    pub fn new() -> Count {
        Count {
            value: AtomicU64::new(0),
            missed: AtomicU64::new(0),
        }
    }

    /// The same, to be shared.
    pub fn shared(alloc: Global) -> Result<Arc<Count, Global>, AllocError> {
        match Arc::new(alloc, Count::new()) {
            Ok(count) => Ok(count),
            Err(_) => Err(AllocError),
        }
    }

    pub fn add(&self) {
        self.value.fetch_add(1, Ordering::SeqCst);
    }

    pub fn subtract(&self) {
        self.value.fetch_sub(1, Ordering::SeqCst);
    }

    pub fn value(&self) -> u64 {
        self.value.load(Ordering::SeqCst)
    }

    /// Looks so often at most, until it sees at least this value, and answers whether it did.
    pub fn sees(&self, least: u64, looks: u32) -> bool {
        for _ in 0..looks {
            if self.value() >= least {
                return true;
            }
            thread::yield_now();
        }
        false
    }

    /// Looks until it sees at least this value, and notes it if it never does.
    pub fn look_for(&self, least: u64) {
        if !self.sees(least, LOOKS) {
            self.missed.fetch_add(1, Ordering::SeqCst);
        }
    }

    /// Ends the test if a thread never saw what it looked for.
    pub fn expect_met(&self, rt: &impl Abort, what: &str) {
        let missed = self.missed.load(Ordering::SeqCst);
        assert!(rt; missed == 0, "{what}: not met");
    }
}
