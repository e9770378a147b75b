//! A source that counts what is asked of it, and a tap that is held up.
use std::alloc::{AllocError, Global};
use std::sync::Arc;
use std::sync::atomic::{AtomicU64, Ordering};
use std::thread;
use uplink::{Input, ListSource, Source, Tap};

/// How often a source was asked for an input, and how often it had been when a tap looked.
#[derive(Drop)]
pub struct Calls {
    made: AtomicU64,
    seen: AtomicU64,
}

impl Calls {
    pub fn none(alloc: Global) -> Result<Arc<Calls, Global>, AllocError> {
        let calls = Calls {
            made: AtomicU64::new(0),
            seen: AtomicU64::new(0),
        };
        match Arc::new(alloc, calls) {
            Ok(calls) => Ok(calls),
            Err(_) => Err(AllocError),
        }
    }

    /// How often the source was asked.
    pub fn made(&self) -> u64 {
        self.made.load(Ordering::SeqCst)
    }

    /// How often the source had been asked when the tap looked, and 0 before that.
    pub fn seen(&self) -> u64 {
        self.seen.load(Ordering::SeqCst)
    }
}

/// Gives a list, and counts how often it is asked.
#[derive(Drop)]
pub struct Counting {
    list: ListSource,
    calls: Arc<Calls, Global>,
}

impl Counting {
    pub fn new(list: ListSource, calls: &Arc<Calls, Global>) -> Result<Counting, AllocError> {
        let calls = Arc::try_clone(calls)?;
        Ok(Counting { list, calls })
    }
}

impl Source for Counting {
    ghost gives = { λ source. ⟦<ListSource as Source>⟧.gives source.list };

    fn next(&mut self) -> Option<Input> {
        self.calls.made.fetch_add(1, Ordering::SeqCst);
        self.list.next()
    }
}

/// Is held up by its first item, and then looks how often a source was asked.
#[derive(Drop)]
pub struct HeldUp {
    calls: Option<Arc<Calls, Global>>,
}

impl HeldUp {
    pub fn new(calls: &Arc<Calls, Global>) -> Result<HeldUp, AllocError> {
        Ok(HeldUp {
            calls: Some(Arc::try_clone(calls)?),
        })
    }
}

impl<T> Tap<T> for HeldUp {
    fn took(&mut self, _flow: usize, _item: &T) {
        if let Some(calls) = self.calls.take() {
            for _ in 0..100_000 {
                thread::yield_now();
            }
            let made = calls.made.load(Ordering::SeqCst);
            calls.seen.store(made, Ordering::SeqCst);
        }
    }
}
