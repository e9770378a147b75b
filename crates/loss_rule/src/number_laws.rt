//! Laws that tie the rule by numbers to the rule by true indexes.
//!
//! Each function states a law in its contract; its body is empty.
ghost use Rattle.std.specs.Prelude.{◌≡◌, ◌↔◌, ◌-◌, ◌<◌, ◌≤◌, ℕ, Option, List, map, slice_set};
ghost use Rattle.reorder.specs.Limits.{modulus, width_max};
ghost use Rattle.flow_core.specs.Fates.{number_of};
ghost use Rattle.flow_core.specs.Events.{FlowEvent};
ghost use Rattle.loss_rule.specs.Rule.{RuledFlow, Lasts, no_lasts, Notes, IsPassing, IsSliding};
ghost use Rattle.loss_rule.specs.Numbers.{AreDistancesOf, ahead_distance, distance_from};
ghost use Rattle.loss_rule.specs.Numbers.{no_distances, skips_to, IsPassedByAll, IsSlidTo};

/// Where nothing came yet, no channel has a last segment or a last index.
pub fn nothing_came_by_numbers()
    ensures { (flow : RuledFlow) (x : ℕ)
        → AreDistancesOf x (no_lasts flow) (no_distances flow.channels) }
{}

/// To note a segment's number notes its index.
pub fn noting_by_numbers_is_noting_by_indexes()
    ensures { (first x channel number : ℕ) (lasts noted : Lasts) (distances : List (Option ℕ))
        → number < modulus → AreDistancesOf x lasts distances
        → Notes first x channel number lasts noted
        → AreDistancesOf x noted
        (slice_set distances channel (ahead_distance (number_of first x) number)) }
{}

/// Once a later index is expected, the distances that are left are those of the same last indexes.
pub fn distances_that_are_left_are_of_the_last_indexes()
    ensures { (x y : ℕ) (lasts : Lasts) (distances : List (Option ℕ))
        → x ≤ y → AreDistancesOf x lasts distances
        → AreDistancesOf y lasts (map (distance_from (y - x)) distances) }
{}

/// The number to which every channel has come is that of the index to which the rule skips.
pub fn number_passed_by_all_is_of_the_index_passed()
    ensures { (flow : RuledFlow) (x : ℕ) (lasts : Lasts) (distances : List (Option ℕ))
        (passed : Option ℕ) (skips : List FlowEvent)
        → AreDistancesOf x lasts distances
        → IsPassedByAll flow.channels distances (number_of flow.first x) passed
        → IsPassing flow lasts x skips ↔ (skips ≡ skips_to passed) }
{}

/// The number to which a window slides is that of the index to which the rule skips then.
pub fn number_slid_to_is_of_the_index_slid_to()
    ensures { (flow : RuledFlow) (x number : ℕ) (slid : Option ℕ) (skips : List FlowEvent)
        → 1 ≤ flow.width → flow.width ≤ width_max → number < modulus
        → IsSlidTo (number_of flow.first x) flow.width number slid
        → IsSliding flow x number skips ↔ (skips ≡ skips_to slid) }
{}
