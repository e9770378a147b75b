//! The frames of two sides, set beside each other as they come.
ghost use Rattle.std.specs.Prelude.{◌≡◌, ◌<◌, IfOk, OnOk, OnErr, IsTrue, IsFalse, length};
ghost use Rattle.frame_comparison.specs.Frames.{came};
ghost use Rattle.frame_comparison.specs.Compared.{Comparison, ended, with_frame, nothing_came};
ghost use Rattle.frame_comparison.specs.Compared.{finished};
ghost use Rattle.frame_comparison.specs.Seen.{ComparisonSeen, seen_of, seen_after, moved_in};
ghost use Rattle.frame_comparison.specs.Seen.{waiting_of, listed_of, have_none_alone, failed};

use crate::coming_frame::ComingFrame;
use crate::compared_counts::ComparedCounts;
use crate::lonely_frame::LonelyFrame;
use crate::one_side::OneSide;
use crate::settle::settle_sides;
use crate::side::Side;
use std::alloc::{AllocError, Global};
use std::marker::Model;

/// The frames of two sides, set beside each other flow by flow, in bounded memory: of each flow and
/// side at most 1,024 frames wait for their equals. Contracts see a `ComparisonSeen`.
#[derive(Debug, Drop)]
pub struct FrameComparison {
    counts: Vec<ComparedCounts>,
    analyser: OneSide,
    here: OneSide,
    is_whole: bool,
}

impl Model for FrameComparison {
    ghost use Rattle.std.specs.Prelude.{◌≡◌, IsTrue, length};
    ghost use Rattle.frame_comparison.specs.Seen.{ComparisonSeen};

    ghost Value = { ComparisonSeen };

    ghost view = { λ all. record {
      counts = all.counts.items;
      analyser = all.analyser;
      here = all.here;
      is_whole = all.is_whole;
    } };

    ghost invariant = { λ all. IsTrue all.is_whole
        → (length all.analyser.waiting ≡ length all.counts.items)
        × (length all.here.waiting ≡ length all.counts.items) };
}

impl FrameComparison {
    /// Nothing came, of so many flows.
    pub fn new(alloc: Global, flows: usize) -> Result<FrameComparison, AllocError>
        ensures { IfOk result (λ all. all ≡ seen_of (nothing_came flows)) }
    {
        Ok(FrameComparison {
            counts: Vec::from_elem(alloc, ComparedCounts::none(), flows)?,
            analyser: OneSide::new(alloc, flows)?,
            here: OneSide::new(alloc, flows)?,
            is_whole: true,
        })
    }

    /// Takes the next frame of a flow that one side has, which came at this time, in nanoseconds
    /// since 1970, and of which these bursts are named by their numbers: they make no difference to
    /// what it equals. A flow that there isn't is passed over. If an allocation fails, or failed
    /// before, the comparison is no longer whole and takes nothing more: what was counted and
    /// listed stays, and what waited is let go.
    pub fn take(
        &mut self,
        alloc: Global,
        side: Side,
        flow: usize,
        time: u64,
        frame: &[u8],
        bursts: &[u64],
    )
        ensures taken { (comparison : Comparison) → self.old ≡ seen_of comparison
            → IsTrue self.new.is_whole
            → self.new ≡ seen_of (with_frame side flow (came time frame.now bursts.now)
            comparison) }
        ensures failed { IsTrue self.old.is_whole → IsFalse self.new.is_whole
            → self.new ≡ failed self.old }
        ensures stays { IsFalse self.old.is_whole → self.new ≡ self.old }
    {
        if !self.is_whole || flow >= self.counts.len() {
            return;
        }
        let frame = ComingFrame::new(time, frame, bursts);
        if self.settle(alloc, side, flow, &frame).is_err() {
            self.fail();
        }
    }

    /// Nothing more comes: what waits is only one side's, flow after flow, and its memory is freed.
    /// A comparison that isn't whole stays as it is.
    pub fn finish(&mut self, alloc: Global)
        ensures finished { (comparison : Comparison) → self.old ≡ seen_of comparison
            → self.new ≡ seen_of (finished comparison) }
        ensures failed { IsFalse self.old.is_whole → self.new ≡ self.old }
    {
        if !self.is_whole {
            return;
        }
        for flow in 0..self.counts.len() {
            self.end(alloc, flow);
        }
    }

    /// Whether no allocation failed.
    pub fn is_whole(&self) -> bool
        ensures { result ≡ self.now.is_whole }
    {
        self.is_whole
    }

    /// How many frames of each flow are in both, and how many only one side has.
    pub fn counts(&self) -> &[ComparedCounts]
        ensures { result.now ≡ self.now.counts }
    {
        self.counts.as_slice()
    }

    /// The frames that only this side has, in the order in which they were given up: the first
    /// hundred of them.
    pub fn lonely(&self, side: Side) -> &[LonelyFrame]
        ensures { result.now ≡ listed_of side self.now }
    {
        match side {
            Side::Analyser => self.analyser.only(),
            Side::Here => self.here.only(),
        }
    }

    /// Whether no frame that was counted is only one side's.
    pub fn is_equal(&self) -> bool
        ensures { result ≡ have_none_alone self.now.counts }
    {
        self.counts.iter().all(|counts| counts.has_none_alone())
    }

    /// Settles what a frame of a flow settles.
    fn settle(
        &mut self,
        alloc: Global,
        side: Side,
        flow: usize,
        frame: &ComingFrame<'_>,
    ) -> Result<(), AllocError>
        requires whole { IsTrue self.old.is_whole }
        requires flow { flow < length self.old.counts }
        ensures settled { let old = self.old in
            let more = moved_in side flow frame.now old.analyser old.here in
            OnOk result (self.new ≡ seen_after flow more self.old) }
        ensures refused { OnErr result (self.new ≡ self.old) }
    {
        let counts = settle_sides(alloc, side, &mut self.analyser, &mut self.here, flow, frame)?;
        self.counts[flow].add(counts);
        Ok(())
    }

    /// An allocation failed: what waits is let go.
    fn fail(&mut self)
        ensures { self.new ≡ failed self.old }
    {
        self.is_whole = false;
        self.analyser.let_go();
        self.here.let_go();
    }

    /// Gives up all frames of a flow that wait.
    fn end(&mut self, alloc: Global, flow: usize)
        requires whole { IsTrue self.old.is_whole }
        requires flow { flow < length self.old.counts }
        ensures { let old = self.old in
            let more = ended (waiting_of flow old.analyser) (waiting_of flow old.here) in
            self.new ≡ seen_after flow more old }
    {
        let only_analyser = self.analyser.end(alloc, flow) as u64;
        let only_here = self.here.end(alloc, flow) as u64;
        self.counts[flow].add(ComparedCounts {
            both: 0,
            only_analyser,
            only_here,
        });
    }
}
