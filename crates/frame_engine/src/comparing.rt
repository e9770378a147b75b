//! The frames of a capture beside those that the analyser joined itself.
ghost use Rattle.std.specs.Prelude.{◌≡◌, Some, None, List, IfOk, IfSome};
ghost use Rattle.capture.specs.SeenCapture.{capture_parts};
ghost use Rattle.captured_flows.specs.Capturing.{IsCapturing};
ghost use Rattle.frame_comparison.specs.Frames.{came};
ghost use Rattle.frame_comparison.specs.Aligned.{Arrival, with_all};
ghost use Rattle.frame_comparison.specs.Compared.{Comparison, nothing_came};
ghost use Rattle.frame_comparison.specs.Seen.{seen_of};
ghost use Rattle.frame_engine.specs.Settings.{inner_accepts};
ghost use Rattle.frame_engine.specs.Compared.{Brings, arrivals_if, arrivals_of_step};
ghost use Rattle.frame_engine.specs.Compared.{arrivals_of_steps};
ghost use Rattle.frame_engine.specs.Comparing.{IsKeptOf, Takes, TakesBrought, Finishes};
ghost use Rattle.frame_reasons.specs.Told.{fate_of_taken, told_if, told_in_steps};
ghost use Rattle.frame_engine.specs.Explaining.{reasons_in, NothingTold, Tells, Explains};
ghost use Rattle.frame_engine.specs.Explaining.{ExplainsAfter};

use crate::inner_check::InnerCheck;
use crate::record_burst::short_sid;
use burst_fates::MissingReason;
use capture::CaptureRecord;
use captured_flows::{BurstTaken, CapturedFlows};
use flow_selection::Selection;
use frame_comparison::{FrameComparison, Side};
use frame_reasons::Reasons;
use frame_records::{first_burst_ids, recorded_frame};
use std::alloc::{AllocError, Global};
use timed_frames::TimedStep;

/// The frames of a capture beside those that the analyser joined itself, where that is asked for.
#[derive(Drop)]
pub struct Comparing {
    pub(crate) comparison: Option<FrameComparison>,
    /// How many frames that the analyser joined are of no flow of the map.
    strangers: u64,
    /// Why frames are missing that only the analyser has, where frames are compared.
    reasons: Option<Reasons>,
}

/// A frame of a flow, when it came, and the first of the bursts that are named of it.
#[derive(Clone, Copy)]
struct ComparedFrame<'a> {
    flow: usize,
    time: u64,
    frame: &'a [u8],
    bursts: &'a [u64],
}

/// Takes the next frame of one side, if its flow is selected.
fn take_selected(
    comparison: &mut FrameComparison,
    alloc: Global,
    selected: &Selection,
    side: Side,
    one: &ComparedFrame<'_>,
)
    ensures { (before : Comparison) → IsKeptOf before comparison.old
        → IsKeptOf (with_all
        (arrivals_if selected.now side one.now.flow
        (came one.now.time one.now.frame.now one.now.bursts.now)) before)
        comparison.new }
{
    if selected.has(one.flow) {
        comparison.take(alloc, side, one.flow, one.time, one.frame, one.bursts);
    }
}

/// Takes a frame of ours, if this is one and its flow is selected.
fn take_step(
    comparison: &mut FrameComparison,
    alloc: Global,
    selected: &Selection,
    step: &TimedStep,
)
    ensures { (before : Comparison) → IsKeptOf before comparison.old
        → IsKeptOf (with_all (arrivals_of_step selected.now step.now) before) comparison.new }
{
    if let TimedStep::Frame { flow, burst, frame } = step {
        let one = ComparedFrame {
            flow: *flow,
            time: burst.time,
            frame: frame.as_slice(),
            bursts: &[],
        };
        take_selected(comparison, alloc, selected, Side::Here, &one);
    }
}

/// Takes the frames of ours among these steps whose flows are selected.
fn take_all(
    comparison: &mut FrameComparison,
    alloc: Global,
    selected: &Selection,
    steps: &[TimedStep],
)
    ensures { (before : Comparison) → IsKeptOf before comparison.old
        → IsKeptOf (with_all (arrivals_of_steps selected.now steps.now) before) comparison.new }
{
    for step in steps {
        take_step(comparison, alloc, selected, step);
    }
}

/// Takes the frame that a record holds, if it holds one that the analyser joined and the map has a
/// flow of its channel and its SID that is selected. It answers whether the map has no such flow.
fn take_recorded(
    comparison: &mut FrameComparison,
    alloc: Global,
    flows: &CapturedFlows<InnerCheck>,
    selected: &Selection,
    given: &CaptureRecord,
) -> bool
    requires capturing { IsCapturing inner_accepts flows.now }
    ensures { (before : Comparison) → IsKeptOf before comparison.old → (more : List Arrival)
        × Brings selected.now flows.now.map (capture_parts given.now) more
        × IsKeptOf (with_all more before) comparison.new }
{
    let Some(found) = recorded_frame(given) else {
        return false;
    };
    let bursts = first_burst_ids(given);
    let Some(flow) = flows.flow_of(found.channel, short_sid(found.sid)) else {
        return true;
    };
    let one = ComparedFrame {
        flow,
        time: found.time,
        frame: found.frame,
        bursts: bursts.as_slice(),
    };
    take_selected(comparison, alloc, selected, Side::Analyser, &one);
    false
}

impl Comparing {
    /// Nothing is compared.
    pub fn nothing() -> Comparing
        ensures comparison { result.comparison ≡ None }
        ensures reasons { result.reasons ≡ None }
    {
        Comparing {
            comparison: None,
            strangers: 0,
            reasons: None,
        }
    }

    /// The frames of so many flows are compared, of which nothing came.
    pub fn new(alloc: Global, flows: usize) -> Result<Comparing, AllocError>
        ensures comparison { IfOk result (λ comparing. comparing.comparison
            ≡ Some (seen_of (nothing_came flows))) }
        ensures reasons { IfOk result (λ comparing. NothingTold comparing.reasons) }
    {
        Ok(Comparing {
            comparison: Some(FrameComparison::new(alloc, flows)?),
            strangers: 0,
            reasons: Some(Reasons::new(alloc)?),
        })
    }

    /// How the frames compare, if they are compared.
    pub fn comparison(&self) -> Option<&FrameComparison>
        ensures some { IfSome result (λ comparison.
            self.now.comparison ≡ Some comparison.now) }
        ensures none { result ≡ None → self.now.comparison ≡ None }
    {
        self.comparison.as_ref()
    }

    /// How many frames that the analyser joined are of no flow of the map, if frames are compared:
    /// they are compared with none. It stays at its greatest value.
    pub fn strangers(&self) -> u64
        ensures { result ≡ self.now.strangers }
    {
        self.strangers
    }

    /// Why each frame is missing that is listed as only the analyser's, in the order of the list,
    /// by what was known of its bursts when it was listed; none, if frames aren't compared.
    pub fn reasons(&self) -> &[MissingReason]
        ensures { result.now ≡ reasons_in self.now.reasons }
    {
        match &self.reasons {
            Some(reasons) => reasons.listed(),
            None => &[],
        }
    }

    /// Nothing more comes: what waits for its equal has none.
    pub fn finish(&mut self, alloc: Global)
        ensures finishes { Finishes self.old self.new }
        ensures explains { Explains self.new.comparison self.old.reasons self.new.reasons }
    {
        self.finish_comparison(alloc);
        self.explain();
    }

    /// All frames that wait are given up.
    fn finish_comparison(&mut self, alloc: Global)
        ensures finishes { Finishes self.old self.new }
        ensures reasons { self.new.reasons ≡ self.old.reasons }
    {
        if let Some(comparison) = &mut self.comparison {
            comparison.finish(alloc);
        }
    }

    /// Those of the frames that are listed as only the analyser's that have no reason yet get
    /// theirs.
    fn explain(&mut self)
        ensures comparison { self.new.comparison ≡ self.old.comparison }
        ensures explains { Explains self.old.comparison self.old.reasons self.new.reasons }
    {
        let Some(comparison) = &self.comparison else {
            return;
        };
        let Some(reasons) = &mut self.reasons else {
            return;
        };
        reasons.explain(comparison.lonely(Side::Analyser));
    }

    /// It is told what became of a burst with this number, if it has one.
    pub(crate) fn tell_taken(&mut self, burst_id: Option<u64>, told: BurstTaken)
        ensures comparison { self.new.comparison ≡ self.old.comparison }
        ensures tells { Tells (told_if burst_id (fate_of_taken told))
            self.old.reasons self.new.reasons }
    {
        if let Some(reasons) = &mut self.reasons {
            reasons.tell_taken(burst_id, told);
        }
    }

    /// It is told what these steps say of bursts.
    fn tell_steps(&mut self, steps: &[TimedStep])
        ensures comparison { self.new.comparison ≡ self.old.comparison }
        ensures tells { Tells (told_in_steps steps.now) self.old.reasons self.new.reasons }
    {
        if let Some(reasons) = &mut self.reasons {
            reasons.tell_steps(steps);
        }
    }

    /// Takes the frames of ours among these steps whose flows are selected, and is told what they
    /// say of bursts before.
    pub(crate) fn take_steps(&mut self, alloc: Global, selected: &Selection, steps: &[TimedStep])
        ensures takes { Takes (arrivals_of_steps selected.now steps.now) self.old self.new }
        ensures explains { ExplainsAfter (told_in_steps steps.now) self.new.comparison
            self.old.reasons self.new.reasons }
    {
        self.tell_steps(steps);
        self.compare_steps(alloc, selected, steps);
        self.explain();
    }

    /// Compares the frames of ours among these steps whose flows are selected.
    fn compare_steps(&mut self, alloc: Global, selected: &Selection, steps: &[TimedStep])
        ensures takes { Takes (arrivals_of_steps selected.now steps.now) self.old self.new }
        ensures reasons { self.new.reasons ≡ self.old.reasons }
    {
        if let Some(comparison) = &mut self.comparison {
            take_all(comparison, alloc, selected, steps);
        }
    }

    /// Takes the frame that a record holds, if the analyser joined it and its flow is selected.
    pub(crate) fn take_record(
        &mut self,
        alloc: Global,
        flows: &CapturedFlows<InnerCheck>,
        selected: &Selection,
        given: &CaptureRecord,
    )
        requires capturing { IsCapturing inner_accepts flows.now }
        ensures takes { TakesBrought selected.now flows.now.map (capture_parts given.now)
            self.old self.new }
        ensures explains { Explains self.new.comparison self.old.reasons self.new.reasons }
    {
        self.compare_record(alloc, flows, selected, given);
        self.explain();
    }

    /// Compares the frame that a record holds, if the analyser joined it and its flow is selected.
    fn compare_record(
        &mut self,
        alloc: Global,
        flows: &CapturedFlows<InnerCheck>,
        selected: &Selection,
        given: &CaptureRecord,
    )
        requires capturing { IsCapturing inner_accepts flows.now }
        ensures takes { TakesBrought selected.now flows.now.map (capture_parts given.now)
            self.old self.new }
        ensures reasons { self.new.reasons ≡ self.old.reasons }
    {
        let Some(comparison) = &mut self.comparison else {
            return;
        };
        if take_recorded(comparison, alloc, flows, selected, given) {
            self.strangers = self.strangers.saturating_add(1);
        }
    }
}
