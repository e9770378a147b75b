//! Numbers near another one.
ghost use Rattle.std.specs.Prelude.{◌≡◌, ◌<◌};
ghost use Rattle.reorder.specs.Limits.{modulus};
ghost use Rattle.capture_rules.specs.Order.{place_from};

use reorder::{MODULUS, NUMBERS_AHEAD, offset};

/// Where a number, 0 to 8191, stands among those from 4,096 before another one, 0 to 8191, up to
/// 4,095 after it: 0 to 8191, and 4,096 is the place of the other number itself.
pub fn place_from(other: u16, number: u16) -> u16
    requires other_in_range { other < modulus }
    requires number_in_range { number < modulus }
    ensures { result ≡ place_from other number }
{
    offset(other, (number + NUMBERS_AHEAD) % MODULUS)
}
