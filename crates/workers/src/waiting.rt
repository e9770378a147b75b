//! Waiting for another thread: some tries, each after a yield, and then sleep.
//!
//! **No wake-up is lost.** Who waits announces it at an [`EventCount`], looks again, and sleeps
//! only if that look found nothing either. Who changes what is waited for does so first, and then
//! tells the count, which looks whether anybody announced a wait. The steps of the queues, of the
//! rings and of the counts are sequentially consistent, so they stand in one order. If the look
//! after the announcement didn't see the change, the look came before the change, so the
//! announcement came before the count was told: then the count moves on, by which it ends the wait,
//! whether the thread sleeps already or is about to. Until then nothing was missed, since the look
//! after an announcement is a whole try. No contract says so: what a thread sees of another is
//! known to no clause. Tests stand for it.
use crossbeam_utils::sync::{EventCount, Key};
use std::sync::Wait;
use std::thread;

/// How often a thread tries again before it announces that it will sleep. With few, threads of an
/// idle machine sleep for less than that costs; on a busy one each yield before a try may take as
/// long as another program's turn.
const TRIES: u32 = 64;

/// A thread's wait for what an event count tells of.
#[derive(Drop)]
pub struct Waiting<'a> {
    told: &'a EventCount,
    tries: u32,
    announced: Option<Key<'a>>,
}

impl<'a> Waiting<'a> {
    /// A wait in which nothing was tried yet.
    pub fn on(told: &'a EventCount) -> Waiting<'a> {
        Waiting {
            told,
            tries: 0,
            announced: None,
        }
    }

    /// To be called after each try that found no room or nothing. It yields; after some such tries
    /// it announces that the thread will sleep if the next try fails too, and after that try it
    /// sleeps until the count is told.
    pub fn pause<R: Wait>(&mut self, rt: &R) {
        thread::yield_now();
        if let Some(key) = self.announced.take() {
            key.wait(rt);
        } else if self.tries < TRIES {
            self.tries += 1;
        } else {
            self.announced = Some(self.told.prepare_wait());
        }
    }

    /// The last try found what it looked for: nothing is announced any more.
    pub fn end(&mut self) {
        self.announced = None;
        self.tries = 0;
    }
}
