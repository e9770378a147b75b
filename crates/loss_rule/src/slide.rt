//! How far a window has to slide so that it takes a segment in.
ghost use Rattle.std.specs.Prelude.{◌<◌, ◌≤◌};
ghost use Rattle.docsis_wire.specs.Limits.{sequence_modulus};
ghost use Rattle.reorder.specs.Limits.{width_max};
ghost use Rattle.loss_rule.specs.Numbers.{IsSlidTo};

use reorder::{MODULUS, NUMBERS_AHEAD, offset};

/// Up to which number a window of this width, 1 to 4,096, has to slide so that a number, 0 to 8191,
/// is its last one: none where the number lies behind, or in the window already.
pub fn slid_to(expected: u16, width: u16, number: u16) -> Option<u16>
    requires expected { expected < sequence_modulus }
    requires number { number < sequence_modulus }
    requires narrowest { 1 ≤ width }
    requires widest { width ≤ width_max }
    ensures { IsSlidTo expected width number result }
{
    let distance = offset(expected, number);
    if distance < width || distance >= NUMBERS_AHEAD {
        return None;
    }
    Some((expected + (distance + 1 - width)) % MODULUS)
}
