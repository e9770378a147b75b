//! What a source's worker notes of what became of the source's inputs.
ghost use Rattle.std.specs.Prelude.{◌≡◌, ◌++◌, ◌∷◌, [], Bool, List, IfOk, length};
ghost use Rattle.lane.specs.declared.input.Input.{Input};
ghost use Rattle.lane.specs.Inputs.{AnsweredInput};
ghost use Rattle.lane.specs.Report.{IsReportOf};
ghost use Rattle.receiver.specs.Tallies.{IsTallyOf};
ghost use Rattle.workers.specs.Inside.Working.{AreNotesOf};

use crate::strays::Strays;
use lane::{Answer, LaneReport};
use receiver::LaneTally;
use std::alloc::{AllocError, Global};

/// Notes of what became of a channel's inputs, one answer after another.
pub trait LaneNotes {
    // They are of these inputs with their answers.
    ghost are_of: { List AnsweredInput → Self → Type 0 };

    /// No input came yet.
    fn blank(alloc: Global) -> Self
        ensures { are_of [] result };

    /// Notes what was answered to one input more.
    fn add(&mut self, answer: &Answer) -> Result<(), AllocError>
        ensures { IfOk result (λ _. (answered : List AnsweredInput) (input : Input)
            → are_of answered self.old
            → are_of (answered ++ record { input = input; answer = answer.now } ∷ []) self.new) };
}

/// Each refusal is kept.
impl LaneNotes for LaneReport {
    ghost are_of = { IsReportOf };

    fn blank(alloc: Global) -> LaneReport {
        LaneReport::none(alloc)
    }

    fn add(&mut self, answer: &Answer) -> Result<(), AllocError> {
        self.note(answer)
    }
}

/// Refusals are counted. It takes no memory, however many inputs come.
impl LaneNotes for LaneTally {
    ghost are_of = { IsTallyOf };

    fn blank(_alloc: Global) -> LaneTally {
        LaneTally::none()
    }

    fn add(&mut self, answer: &Answer) -> Result<(), AllocError> {
        self.count(answer);
        Ok(())
    }
}

/// What became of a source's inputs.
#[derive(Drop)]
pub struct SourceNotes<N> {
    /// What is noted of the inputs of each channel, by the channel's number. Of a channel that
    /// isn't the source's own that is what is noted of none.
    pub lanes: Vec<N>,
    /// How many inputs were of other channels.
    pub strays: Strays,
}

/// Notes of so many channels of which no input came yet.
pub(crate) fn blank_notes<N: LaneNotes + Drop>(
    alloc: Global,
    channels: usize,
) -> Result<SourceNotes<N>, AllocError>
    ensures { IfOk result (λ notes. (flags : List Bool) → length flags ≡ channels
        → AreNotesOf N.are_of flags [] [] notes) }
{
    let mut lanes = Vec::with_capacity(alloc, channels)?;
    for _ in 0..channels {
        lanes.push(N::blank(alloc))?;
    }
    Ok(SourceNotes {
        lanes,
        strays: Strays::default(),
    })
}
