//! Laws about the three consumers: each begins with nothing given, and what it has after a list is
//! what the list has.
//!
//! Each function states a law in its contract; its body is empty.
ghost use Rattle.std.specs.Prelude.{◌≡◌, ℕ, ◌<◌, ◌^◌, List, [], ◌++◌, IsTrue};
ghost use Rattle.consumer.specs.declared.given.Given.{Given};
ghost use Rattle.consumer.specs.declared.collected.Collected.{Collected};
ghost use Rattle.consumer.specs.declared.counts.Counts.{Counts};
ghost use Rattle.consumer.specs.declared.forgets.Forgets.{Forgets};
ghost use Rattle.consumer.specs.Given.{frames_of, requests_given};
ghost use Rattle.consumer.specs.Collecting.{HasNothing, HasCollected, list_at};
ghost use Rattle.consumer.specs.Counting.{HasCounted};

use crate::collected::Collected;
use crate::consumer::Consumer;
use crate::counts::Counts;
use crate::forgets::Forgets;

/// Before anything is given, each of the three was given nothing.
pub fn consumers_begin_with_nothing_given()
    ensures collected { (start : Collected) → ⟦<Collected as Consumer>⟧.after start [] start }
    ensures counts { (start : Counts) → start.frames < 2 ^ 64 → start.bytes < 2 ^ 64
        → start.requests < 2 ^ 64 → ⟦<Counts as Consumer>⟧.after start [] start }
    ensures forgets { (start : Forgets) → ⟦<Forgets as Consumer>⟧.after start [] start }
{}

/// What began with nothing and is whole has of each flow the frames, and of each channel the
/// requests, that were given of it.
pub fn collected_has_what_was_given()
    ensures frames { (flow_count channel_count : ℕ) (start end : Collected) (given : List Given)
        → HasNothing flow_count channel_count start
        → ⟦<Collected as Consumer>⟧.after start given end → IsTrue end.whole
        → (k : ℕ) → list_at end.frames.items k ≡ frames_of k given }
    ensures requests { (flow_count channel_count : ℕ) (start end : Collected) (given : List Given)
        → HasNothing flow_count channel_count start
        → ⟦<Collected as Consumer>⟧.after start given end → IsTrue end.whole
        → (channel : ℕ) → list_at end.requests.items channel ≡ requests_given channel given }
{}

/// What is given in two parts was given.
pub fn what_is_given_in_parts_was_given()
    ensures collected { (start middle end : Collected) (given more : List Given)
        → ⟦<Collected as Consumer>⟧.after start given middle
        → ⟦<Collected as Consumer>⟧.after middle more end
        → ⟦<Collected as Consumer>⟧.after start (given ++ more) end }
    ensures counts { (start middle end : Counts) (given more : List Given)
        → ⟦<Counts as Consumer>⟧.after start given middle
        → ⟦<Counts as Consumer>⟧.after middle more end
        → ⟦<Counts as Consumer>⟧.after start (given ++ more) end }
{}
