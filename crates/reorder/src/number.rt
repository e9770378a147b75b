//! Sequence numbers, which run from 0 to 8191 and then begin again.
ghost use Rattle.std.specs.Prelude.{◌≡◌, ◌<◌};
ghost use Rattle.reorder.specs.Limits.{modulus};
ghost use Rattle.reorder.specs.Number.{offset};

use crate::MODULUS;

/// How far a number, 0 to 8191, lies ahead of an expected one, 0 to 8191, going up and round: 0 to
/// 8191, and 0 is the expected number itself. From 4,096 on the number lies behind.
pub fn offset(expected: u16, number: u16) -> u16
    requires expected_in_range { expected < modulus }
    requires number_in_range { number < modulus }
    ensures { result ≡ offset expected number }
{
    (number + MODULUS - expected) % MODULUS
}
