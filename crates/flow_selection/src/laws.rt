//! Facts about selections, each stated in the contract of a function whose body is empty.
ghost use Rattle.std.specs.Prelude.{◌≡◌, ◌<◌, ◌++◌, ℕ, List, true};
ghost use Rattle.flow_selection.specs.declared.shard.Shard.{Shard};
ghost use Rattle.flow_selection.specs.declared.selection.Selection.{Selection};
ghost use Rattle.flow_selection.specs.Selection.{is_in_shard};
ghost use Rattle.flow_selection.specs.Lines.{FlowLine, text_left, text_of_lines};

/// **Each flow is of exactly one of so many shards**: of the one whose remainder its index leaves.
/// So shards together have each flow, and none twice.
pub fn flow_is_of_one_shard()
    ensures some { (count flow : ℕ) → 0 < count → (remainder : ℕ) × (remainder < count)
        × ((shard : Shard) → shard.remainder ≡ remainder → shard.count ≡ count
        → is_in_shard shard flow ≡ true) }
    ensures one { (shard other : Shard) (flow : ℕ) → shard.count ≡ other.count
        → is_in_shard shard flow ≡ true → is_in_shard other flow ≡ true
        → shard.remainder ≡ other.remainder }
    ensures below { (shard : Shard) (flow : ℕ)
        → is_in_shard shard flow ≡ true → shard.remainder < shard.count }
{}

/// All lines are left where all flows are selected, and what is left of lines is left of each part
/// of them.
pub fn lines_are_left_one_by_one()
    ensures all { (lines : List FlowLine) → text_left Selection.All lines ≡ text_of_lines lines }
    ensures parts { (selected : Selection) (lines others : List FlowLine)
        → text_left selected (lines ++ others)
        ≡ text_left selected lines ++ text_left selected others }
{}
