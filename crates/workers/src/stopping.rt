//! Telling a running receiver to stop.
ghost use Rattle.std.specs.Prelude.{◌≡◌, ◌++◌, ◌∷◌, ◌⊎◌, [], false, List, None, IsTrue};
ghost use Rattle.std.specs.Prelude.{MatchOption};
ghost use Rattle.flow_records.specs.declared.decision.Decision.{Decision};
ghost use Rattle.workers.specs.declared.channel_input.ChannelInput.{ChannelInput};

use crate::channel_input::ChannelInput;
use crate::live_source::{LiveDecisions, LiveSource};
use flow_records::Decision;
use std::alloc::{AllocError, Global};
use std::sync::Arc;
use std::sync::atomic::{AtomicBool, Ordering};

/// Tells the sources that were made with it that they are to give nothing more. Any thread may
/// tell them, as often as it likes; what was told can't be taken back. Nothing is claimed of when a
/// source sees it.
#[derive(Drop)]
pub struct Stopper {
    told: Arc<AtomicBool, Global>,
}

impl Stopper {
    /// One that has told nothing yet. `AllocError`: there is no memory for its word.
    pub fn new(alloc: Global) -> Result<Stopper, AllocError> {
        match Arc::new(alloc, AtomicBool::new(false)) {
            Ok(told) => Ok(Stopper { told }),
            Err(_) => Err(AllocError),
        }
    }

    /// Another that tells the same sources: one for each that is to look or to tell. `AllocError`:
    /// there are too many.
    pub fn try_clone(&self) -> Result<Stopper, AllocError> {
        let told = Arc::try_clone(&self.told)?;
        Ok(Stopper { told })
    }

    /// Tells the sources to stop.
    pub fn stop(&self) {
        self.told.store(true, Ordering::SeqCst);
    }

    /// Whether they were told to stop.
    pub fn is_stopped(&self) -> bool {
        self.told.load(Ordering::SeqCst)
    }
}

/// Inputs or decisions that can be stopped: it gives what another source gives, or other decisions,
/// until its [`Stopper`] has told it to stop. From then on it answers `None`, and asks the other
/// for nothing more. What it had given is received as ever: with sources and decisions that were
/// all stopped, a receiver finishes what it took, closes each flow, and answers `Ok`.
///
/// It looks before each item. One whose inner source waits inside its own `next`, as for a socket,
/// isn't woken by its stopper: it stops once that call has returned, after what that call gave.
#[derive(Drop)]
pub struct Stoppable<S> {
    inner: S,
    stopper: Stopper,
    stopped: bool,
}

impl<S> Stoppable<S> {
    /// Gives what this one gives until the stopper tells it to stop.
    pub fn new(inner: S, stopper: Stopper) -> Stoppable<S>
        ensures inner { result.inner ≡ inner }
        ensures running { result.stopped ≡ false }
    {
        Stoppable {
            inner,
            stopper,
            stopped: false,
        }
    }

    /// Looks whether it is to stop, unless it knows that it is.
    fn look(&mut self) -> bool
        ensures inner { self.new.inner ≡ self.old.inner }
        ensures looked { result ≡ self.new.stopped }
        ensures stays { IsTrue self.old.stopped → IsTrue self.new.stopped }
    {
        self.stopped = self.stopped || self.stopper.is_stopped();
        self.stopped
    }
}

impl<S: LiveSource> LiveSource for Stoppable<S> {
    ghost use Rattle.workers.specs.declared.stopping.Stoppable.{Stoppable};

    ghost gave = { λ start inputs now. S.gave start.inner inputs now.inner };

    ghost is_over = { λ now. IsTrue now.stopped ⊎ S.is_over now.inner };

    fn next(&mut self) -> Option<ChannelInput>
        ensures given { (start : Stoppable S) (inputs : List ChannelInput)
            → S.gave start.inner inputs self.old.inner
            → MatchOption result (S.gave start.inner inputs self.new.inner)
            (λ input. S.gave start.inner (inputs ++ input ∷ []) self.new.inner) }
        ensures over { result ≡ None → IsTrue self.new.stopped ⊎ S.is_over self.new.inner }
        ensures asks_no_more { IsTrue self.new.stopped
            → (result ≡ None) × (self.new.inner ≡ self.old.inner) }
        ensures stays { IsTrue self.old.stopped → IsTrue self.new.stopped }
    {
        if self.look() {
            // The inner source isn't asked again.
            return None;
        }
        self.inner.next()
    }
}

impl<D: LiveDecisions> LiveDecisions for Stoppable<D> {
    ghost use Rattle.workers.specs.declared.stopping.Stoppable.{Stoppable};

    ghost gave = { λ start decisions now. D.gave start.inner decisions now.inner };

    ghost is_over = { λ now. IsTrue now.stopped ⊎ D.is_over now.inner };

    fn next(&mut self) -> Option<Decision>
        ensures given { (start : Stoppable D) (decisions : List Decision)
            → D.gave start.inner decisions self.old.inner
            → MatchOption result (D.gave start.inner decisions self.new.inner)
            (λ decision. D.gave start.inner (decisions ++ decision ∷ []) self.new.inner) }
        ensures over { result ≡ None → IsTrue self.new.stopped ⊎ D.is_over self.new.inner }
        ensures asks_no_more { IsTrue self.new.stopped
            → (result ≡ None) × (self.new.inner ≡ self.old.inner) }
        ensures stays { IsTrue self.old.stopped → IsTrue self.new.stopped }
    {
        if self.look() {
            // Nor are the inner decisions.
            return None;
        }
        self.inner.next()
    }
}
