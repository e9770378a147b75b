//! Sources, decisions and taps that are counted until they are dropped.
use super::count::Count;
use std::alloc::{AllocError, Global};
use std::sync::Arc;
use uplink::{Decision, Decisions, Input, ListDecisions, ListSource, Source, Tap};

/// How often a tap looks whether the run has returned. A run that waits for its threads has not.
const LOOKS: u32 = 20_000;

/// What is counted of a run.
#[derive(Drop)]
pub struct Watch {
    alive: Count,
    asked: Count,
    returned: Count,
}

impl Watch {
    pub fn new(alloc: Global) -> Result<Arc<Watch, Global>, AllocError> {
        let watch = Watch {
            alive: Count::new(),
            asked: Count::new(),
            returned: Count::new(),
        };
        match Arc::new(alloc, watch) {
            Ok(watch) => Ok(watch),
            Err(_) => Err(AllocError),
        }
    }

    /// How many sources, decisions and taps there are.
    pub fn alive(&self) -> u64 {
        self.alive.value()
    }

    /// How often sources were asked for an input.
    pub fn asked(&self) -> u64 {
        self.asked.value()
    }

    /// The run has returned.
    pub fn has_returned(&self) {
        self.returned.add();
    }
}

/// Counts as alive until it is dropped.
struct Life {
    watch: Arc<Watch, Global>,
}

impl Life {
    fn new(watch: &Arc<Watch, Global>) -> Result<Life, AllocError> {
        let watch = Arc::try_clone(watch)?;
        watch.alive.add();
        Ok(Life { watch })
    }
}

impl Drop for Life {
    fn drop(self) {
        let Life { watch } = self;
        watch.alive.subtract();
    }
}

/// Gives a list.
#[derive(Drop)]
pub struct Living<T> {
    list: T,
    life: Life,
}

impl<T: Drop> Living<T> {
    pub fn new(list: T, watch: &Arc<Watch, Global>) -> Result<Living<T>, AllocError> {
        let life = Life::new(watch)?;
        Ok(Living { list, life })
    }
}

impl Source for Living<ListSource> {
    ghost gives = { λ source. ⟦<ListSource as Source>⟧.gives source.list };

    fn next(&mut self) -> Option<Input> {
        self.life.watch.asked.add();
        self.list.next()
    }
}

impl Decisions for Living<ListDecisions> {
    ghost decides = { λ decisions. ⟦<ListDecisions as Decisions>⟧.decides decisions.list };

    fn next(&mut self) -> Option<Decision> {
        self.list.next()
    }
}

/// Is held up by its first item: it looks whether the run has returned without it.
#[derive(Drop)]
pub struct LivingTap {
    life: Life,
    is_held_up: bool,
}

impl LivingTap {
    pub fn new(watch: &Arc<Watch, Global>) -> Result<LivingTap, AllocError> {
        let life = Life::new(watch)?;
        Ok(LivingTap {
            life,
            is_held_up: true,
        })
    }
}

impl<T> Tap<T> for LivingTap {
    fn took(&mut self, _flow: usize, _item: &T) {
        if self.is_held_up {
            self.is_held_up = false;
            self.life.watch.returned.sees(1, LOOKS);
        }
    }
}
