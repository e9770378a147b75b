//! One service flow: its window, its joiner, its counts.
ghost use Rattle.std.specs.FinMap as map;
ghost use Rattle.std.specs.Prelude.{◌≡◌, ◌<◌, ◌↔◌, ℕ, Bool, List, [], ◌∷◌, length, IsTrue, Ok};
ghost use Rattle.std.specs.Prelude.{IfOk, OnErr};
ghost use Rattle.docsis_wire.specs.Limits.{sequence_modulus};
ghost use Rattle.docsis_wire.specs.Ready.{IsReady};
ghost use Rattle.flow_records.specs.Setup.{IsInRange, CanBeSetUp};
ghost use Rattle.flow_core.specs.Events.{arrives, gap, gap_to, skip_to};
ghost use Rattle.reorder.specs.View.{IsLawful};
ghost use Rattle.flow_core.specs.Flows.{IsLoss, AreNewFlows};
ghost use Rattle.flow_core.specs.Inside.Losses.{event_to, answer_to, count_to};
ghost use Rattle.flow_core.specs.Inside.Losses.{after_losses, after_passing, GoesOn};
ghost use Rattle.flow_core.specs.Inside.Steps.{counts_joined, JoinsUnlessWhole};
ghost use Rattle.flow_core.specs.Stands.{StandsFor, IsDrained, TakesEvent, Gives, Advances};
ghost use Rattle.flow_core.specs.AsItIs.{IsNextOneFrame, AdvancesAsItIs};
ghost use Rattle.flow_core.specs.declared.event.Applied.{Applied};
ghost use Rattle.flow_core.specs.declared.event.Step.{Step};
ghost use Rattle.flow_core.specs.declared.event.StepAsItIs.{StepAsItIs};

use crate::counts::FlowCounts;
use crate::event::{Step, StepAsItIs};
use crate::sequence::SequenceNumber;
use crate::up_to::UpTo;
use ccf::{FedUnlessWhole, Joiner};
use docsis_wire::{Bytes, HeaderCheck, ReadySegment, Segment};
use flow_records::FlowRecord;
use reorder::{Declared, Verdict, Window};
use std::alloc::{AllocError, Global};

/// One service flow by itself, for a caller that keeps its flows in a table of its own.
///
/// It stands for the events that it has taken, and for the frames that it has given. It takes an
/// event only while it is drained: after each, [`Flow::advance`] is called until it answers
/// [`Step::Nothing`]. Memory is asked for by [`Flow::new`], which makes the window, and by
/// [`Flow::advance`], which makes the frames; where it fails nothing changed and the call can be
/// made again. [`crate::Core`] is many of them with one check.
#[derive(Drop)]
pub struct Flow {
    window: Window<ReadySegment>,
    joiner: Joiner,
    counts: FlowCounts,
    /// The decision whose losses go on, while segments that are held before its number wait to be
    /// joined.
    going_on: Option<UpTo>,
}

impl Flow {
    /// A flow to which nothing happened yet, of a record that is in range. It asks for the memory
    /// of a window of the record's width, all at once.
    pub fn new(alloc: Global, flow_record: &FlowRecord) -> Result<Flow, AllocError>
        requires { IsInRange flow_record.now }
        ensures stands { IfOk result
            (λ flow. (check : List ℕ → Bool) → StandsFor check flow_record.now flow [] [] 0 []) }
    {
        Ok(Flow {
            window: Window::new(alloc, flow_record.first, flow_record.window)?,
            joiner: Joiner::new(alloc),
            counts: FlowCounts::none(),
            going_on: None,
        })
    }

    /// Takes a segment that arrives, and answers its verdict; all but a kept one come back with it.
    /// The segment is ready. It takes no memory.
    #[inline(always)]
    pub fn arrive(&mut self, segment: Segment) -> Verdict<Segment>
        requires ready { IsReady segment }
        requires drained { IsDrained self.old }
        ensures { TakesEvent self.old (arrives segment) (Applied.Arrival result) self.new }
    {
        let number = segment.head.sequence;
        match self.window.offer(number, ReadySegment { segment }) {
            Verdict::Kept => {
                self.counts.kept = self.counts.kept.saturating_add(1);
                Verdict::Kept
            }
            Verdict::Late(back) => {
                self.counts.late = self.counts.late.saturating_add(1);
                Verdict::Late(back.segment)
            }
            Verdict::Repeat(back) => {
                self.counts.repeat = self.counts.repeat.saturating_add(1);
                Verdict::Repeat(back.segment)
            }
            Verdict::Beyond(back) => {
                self.counts.beyond = self.counts.beyond.saturating_add(1);
                Verdict::Beyond(back.segment)
            }
        }
    }

    /// Declares the expected segment lost, if a later one was kept, and answers its number;
    /// otherwise nothing changes, so that a close that goes on until then ends. It takes no memory.
    pub fn gap(&mut self) -> Declared
        requires { IsDrained self.old }
        ensures taken { TakesEvent self.old gap (Applied.Decision result) self.new }
        ensures unchanged { ¬ (IsLoss result) → self.new ≡ self.old }
    {
        let declared = self.window.declare();
        if let Declared::Lost(_) = declared {
            self.lose(1);
        }
        declared
    }

    /// Declares lost what hasn't come before this number, 0 to 8191, and answers whether at least
    /// one segment is declared lost; none is if the number is the expected one or lies behind.
    /// Where held segments lie before the number they are joined first; until then the flow
    /// remembers the number.
    pub fn gap_to(&mut self, number: u16) -> bool
        requires drained { IsDrained self.old }
        requires number { number < sequence_modulus }
        ensures { TakesEvent self.old (gap_to number) (Applied.DecisionTo result) self.new }
    {
        self.lose_up_to(UpTo::Declare(SequenceNumber { number }))
    }

    /// Loses what hasn't come before this number, 0 to 8191, whether or not a later segment was
    /// kept, and answers whether at least one segment is lost; none is if the number is the
    /// expected one or lies behind. It goes on past held segments as [`Flow::gap_to`] does.
    pub fn skip_to(&mut self, number: u16) -> bool
        requires drained { IsDrained self.old }
        requires number { number < sequence_modulus }
        ensures { TakesEvent self.old (skip_to number) (Applied.DecisionSkip result) self.new }
    {
        self.lose_up_to(UpTo::Skip(SequenceNumber { number }))
    }

    /// Takes a decision up to a number, and remembers it where a held segment comes before the
    /// number.
    fn lose_up_to(&mut self, up_to: UpTo) -> bool
        requires { IsDrained self.old }
        ensures { TakesEvent self.old (event_to up_to) (answer_to up_to result) self.new }
    {
        let count = self.pass_to(up_to);
        if count > 0 && self.window.expected() != up_to.number() {
            self.going_on = Some(up_to);
        }
        count > 0
    }

    /// Joins the next segment, and answers the frames that it completes; `Nothing`: none is next.
    /// Where an allocation failed nothing changed. Each call of a flow is to have the same check.
    pub fn advance<C: HeaderCheck>(&mut self, alloc: Global, check: &C) -> Result<Step, AllocError>
        ensures step { IfOk result
            (λ step. Advances (C.accepts check.now) self.old step self.new) }
        ensures nothing { result ≡ Ok Step.Nothing ↔ IsDrained self.old }
        ensures refused { OnErr result (self.new ≡ self.old) }
    {
        match self.join_unless_whole(alloc, check)? {
            None => Ok(Step::Nothing),
            Some(FedUnlessWhole::Whole) => {
                let mut frames = Vec::with_capacity(alloc, 1)?;
                frames.push_reserved(self.give_next(alloc));
                Ok(Step::Frames(frames))
            }
            Some(FedUnlessWhole::Fed(fed)) => Ok(Step::Frames(fed.frames)),
        }
    }

    /// The same, but where nothing is unfinished and the next segment is one whole frame by
    /// itself, the answer is that frame alone: the segment's own payload, which is copied only
    /// out of memory that is much larger. No failed allocation fails such a step.
    #[inline(always)]
    pub fn advance_as_it_is<C: HeaderCheck>(
        &mut self,
        alloc: Global,
        check: &C,
    ) -> Result<StepAsItIs, AllocError>
        ensures step { IfOk result
            (λ step. AdvancesAsItIs (C.accepts check.now) self.old step self.new) }
        ensures nothing { result ≡ Ok StepAsItIs.Nothing ↔ IsDrained self.old }
        ensures refused { OnErr result ((self.new ≡ self.old)
            × ¬ (IsNextOneFrame (C.accepts check.now) self.old)) }
    {
        match self.join_unless_whole(alloc, check)? {
            None => Ok(StepAsItIs::Nothing),
            Some(FedUnlessWhole::Whole) => Ok(StepAsItIs::Whole(self.give_next(alloc))),
            Some(FedUnlessWhole::Fed(fed)) => Ok(StepAsItIs::Frames(fed.frames)),
        }
    }

    /// Joins the next segment, if there is one, unless it is one whole frame by itself and nothing
    /// is unfinished: then nothing changes.
    #[inline(always)]
    fn join_unless_whole<C: HeaderCheck>(
        &mut self,
        alloc: Global,
        check: &C,
    ) -> Result<Option<FedUnlessWhole>, AllocError>
        ensures joins { IfOk result
            (λ joined. JoinsUnlessWhole (C.accepts check.now) self.old joined self.new) }
        ensures refused { OnErr result ((self.new ≡ self.old) × ¬ (IsDrained self.old)
            × ¬ (IsNextOneFrame (C.accepts check.now) self.old)) }
    {
        let Some(ready) = self.window.next() else {
            return Ok(None);
        };
        let joined = self.joiner.feed_unless_whole(alloc, &ready.segment, check)?;
        match joined {
            FedUnlessWhole::Whole => Ok(Some(FedUnlessWhole::Whole)),
            FedUnlessWhole::Fed(fed) => {
                self.window.take_next();
                self.end_step(fed.frames.len(), fed.skipped);
                Ok(Some(FedUnlessWhole::Fed(fed)))
            }
        }
    }

    /// Takes the next segment, which is one whole frame, and answers the frame.
    #[inline(always)]
    fn give_next(&mut self, alloc: Global) -> Bytes
        requires { (check : List ℕ → Bool) × IsNextOneFrame check self.old }
        ensures { (check : List ℕ → Bool) → IsNextOneFrame check self.old
            → Gives check self.old (result ∷ []) self.new }
    {
        let ready = self.window.take_next().unwrap();
        self.end_step(1, 0);
        ready.segment.payload.without_spare_room(alloc)
    }

    /// Counts what a segment gave that was taken and joined, and goes on with the decision that is
    /// remembered.
    fn end_step(&mut self, frames: usize, skipped: usize)
        ensures after { GoesOn self.old.going_on
            (record self.old { counts = counts_joined self.old.counts frames skipped }) self.new }
        ensures lawful { IsLawful self.old.window → IsLawful self.new.window }
    {
        self.counts.frames = self.counts.frames.saturating_add(frames as u64);
        self.counts.skipped = self.counts.skipped.saturating_add(skipped as u64);
        self.go_on();
    }

    /// Goes on with the decision that is remembered, and forgets it once its number is reached.
    fn go_on(&mut self)
        ensures after { GoesOn self.old.going_on self.old self.new }
        ensures lawful { IsLawful self.old.window → IsLawful self.new.window }
    {
        let Some(up_to) = self.going_on else {
            return;
        };
        self.pass_to(up_to);
        if self.window.held() == 0 || self.window.expected() == up_to.number() {
            self.going_on = None;
        }
    }

    /// Loses what isn't held before the decision's number and before the next held segment, and
    /// answers how many numbers that is.
    fn pass_to(&mut self, up_to: UpTo) -> u16
        ensures count { result ≡ count_to self.old.window up_to }
        ensures after { self.new ≡ after_passing (count_to self.old.window up_to) self.old }
        ensures lawful { IsLawful self.new.window }
    {
        let count = match up_to {
            UpTo::Declare(sequence) => self.window.declare_to(sequence.number),
            UpTo::Skip(sequence) => self.window.skip_to(sequence.number),
        };
        self.lose(count);
        count
    }

    /// Counts losses, and drops what is unfinished.
    fn lose(&mut self, count: u16)
        ensures { self.new ≡ after_losses count self.old }
    {
        if count > 0 {
            self.counts.lost = self.counts.lost.saturating_add(u64::from(count));
            let dropped = self.joiner.gap();
            self.counts.skipped = self.counts.skipped.saturating_add(dropped as u64);
        }
    }

    /// Whether no segment is next.
    pub fn is_drained(&self) -> bool
        ensures { IsTrue result ↔ IsDrained self.now }
    {
        self.window.next().is_none()
    }

    /// The number that the window expects, 0 to 8191. Of a drained flow it is that of its expected
    /// index, by a law of [`crate::laws`].
    pub fn expected(&self) -> u16
        ensures number { result ≡ self.now.window.expected }
        ensures in_range { result < sequence_modulus }
    {
        self.window.expected()
    }

    /// How many segments are held, 0 to the window's width: they were kept and are not joined yet.
    pub fn held(&self) -> usize
        ensures { result ≡ map.len self.now.window.held }
    {
        self.window.held()
    }

    /// What was counted so far.
    pub fn counts(&self) -> FlowCounts
        ensures { result ≡ self.now.counts }
    {
        self.counts
    }
}

/// A flow for each record, in their order.
pub fn new_flows(alloc: Global, records: &[FlowRecord]) -> Result<Vec<Flow>, AllocError>
    requires { CanBeSetUp records.now }
    ensures count { IfOk result (λ flows. length flows.items ≡ length records.now) }
    ensures each { IfOk result (λ flows. AreNewFlows records.now flows.items) }
{
    let mut flows = Vec::with_capacity(alloc, records.len())?;
    for record in records {
        flows.push_reserved(Flow::new(alloc, record)?);
    }
    Ok(flows)
}
