//! What follows from the definitions alone.
ghost use Rattle.std.specs.Prelude.{◌≡◌, ℕ, List};
ghost use Rattle.capture_map.specs.Reading.{Said, Outcome, Reads};

/// A text is at most one map, or has at most one first faulty line with at most one fault, and
/// never both: whatever lines come to after the same lines, they come to only one thing.
pub fn lines_come_to_one_thing()
    ensures { (said : Said) (number : ℕ) (lines : List (List ℕ)) (outcome other : Outcome)
        → Reads said number lines outcome → Reads said number lines other → outcome ≡ other }
{}
