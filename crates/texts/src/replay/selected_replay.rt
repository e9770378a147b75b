//! A replay of a trace for some flows, as its lines are read.
ghost use Rattle.std.specs.Prelude.{◌≡◌, ◌<◌, ℕ, true, false, IsTrue, IsFalse, IfOk};
ghost use Rattle.flow_selection.specs.declared.selection.Selection.{Selection};
ghost use Rattle.flow_selection.specs.Selection.{is_selected};
ghost use Rattle.texts.specs.Inside.Replayed.{is_profile};
ghost use Rattle.texts.specs.Inside.InPlace.{HasReplayedInPart, IsPlayedInPart};
ghost use Rattle.texts.specs.Inside.TraceInput.{TraceState, nothing_taken};

use super::{ReplayInput, finish_replay};
use flow_selection::Selection;
use loss_rule::LossRule;
use receiver::{Outcome, Width};
use std::alloc::{AllocError, Global};
use text_lines::{LineFault, TakeLine};

/// The lines so far of a trace that is replayed for some flows. In the place of a burst that would
/// come to no selected flow it hands in one with the same header and zeros behind it: the digits
/// behind the header are looked at and not decoded, and nothing of it is joined. Where all flows
/// are selected each burst is handed in as it comes. It is for the profile's width.
#[derive(Drop)]
pub struct SelectedReplay<'a> {
    input: ReplayInput,
    selected: &'a Selection,
    /// Whether some flow isn't selected.
    in_part: bool,
}

impl<'a> SelectedReplay<'a> {
    /// A trace for a receiver of this width, of which no line was read yet. Losses are decided by
    /// this rule. It is an error that an allocation failed.
    pub fn new(
        alloc: Global,
        width: Width,
        rule: LossRule,
        selected: &'a Selection,
    ) -> Result<SelectedReplay<'a>, AllocError>
        requires fits { is_profile width ≡ true }
        ensures { IfOk result (λ replay. HasReplayedInPart
            (nothing_taken selected.now rule width) replay.selected.now
            replay.input.width replay.input.rule replay.input.setup replay.input.taker) }
    {
        Ok(SelectedReplay {
            input: ReplayInput::new(alloc, width, rule)?,
            selected,
            in_part: !leaves_none_out(selected, usize::from(width.flows())),
        })
    }

    /// What a trace gives, of which all lines were read: of other flows what comes of bursts with
    /// zeros in them. It is an error that an allocation failed.
    pub fn finish(self, alloc: Global) -> Result<Outcome, AllocError>
        requires { (given : TraceState Selection) × HasReplayedInPart given self.selected.now
            self.input.width self.input.rule self.input.setup self.input.taker }
        ensures { IfOk result (λ outcome. (given : TraceState Selection)
            → HasReplayedInPart given self.entry.selected.now
            self.entry.input.width self.entry.input.rule self.entry.input.setup
            self.entry.input.taker
            → IsPlayedInPart given.state given.rule given.said outcome) }
    {
        finish_replay(alloc, self.input)
    }
}

impl<'a> TakeLine for SelectedReplay<'a> {
    ghost use Rattle.flow_selection.specs.declared.selection.Selection.{Selection};
    ghost use Rattle.texts.specs.Inside.InPlace.{HasReplayedInPart};
    ghost use Rattle.texts.specs.Inside.TraceInput.{TraceState, taking_format};

    ghost State = { TraceState Selection };

    ghost format = { taking_format };

    ghost stands_for = { λ given replay. HasReplayedInPart given replay.selected.now
        replay.input.width replay.input.rule replay.input.setup replay.input.taker };

    #[inline(never)]
    fn take_line(&mut self, alloc: Global, field: &[u8], rest: &[u8]) -> Result<(), LineFault> {
        if self.in_part && field == b"burst".as_slice() {
            if let Some((channel, input)) = self.input.input_for(alloc, self.selected, rest)? {
                return self.input.add_input(alloc, channel, input);
            }
        }
        self.input.take_line(alloc, field, rest)
    }
}

/// Whether each of so many flows is selected.
pub fn leaves_none_out(selected: &Selection, flows: usize) -> bool
    ensures all { IsTrue result → (k : ℕ) → k < flows → is_selected selected.now k ≡ true }
    ensures some { IsFalse result
        → (k : ℕ) × (k < flows) × (is_selected selected.now k ≡ false) }
{
    if let Selection::All = selected {
        return true;
    }
    for flow in 0..flows {
        if !selected.has(flow) {
            return false;
        }
    }
    true
}
