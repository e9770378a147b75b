//! The index of a segment by its number.
ghost use Rattle.std.specs.Prelude.{◌≡◌};
ghost use Rattle.capture_picture.specs.Index.{numbers, first_index, nearest_index};

use docsis_wire::SEQUENCE_MODULUS;

/// Numbers are modulo this.
const NUMBERS: u64 = SEQUENCE_MODULUS as u64;

/// The index of a flow's first segment. It lies one round of numbers above 0, so that those which
/// lie before it have an index too.
pub(crate) fn first_index(number: u16) -> u64
    ensures { result ≡ first_index number }
{
    NUMBERS + u64::from(number) % NUMBERS
}

/// Of the indexes with this number the one that is nearest to the newest one: at most 4,096 below
/// it, or 4,095 above. It stays from 0 to 2^64 − 1.
pub(crate) fn nearest_index(newest: u64, number: u16) -> u64
    ensures { result ≡ nearest_index newest number }
{
    let ahead = (NUMBERS + u64::from(number) % NUMBERS - newest % NUMBERS) % NUMBERS;
    if ahead < NUMBERS / 2 {
        newest.saturating_add(ahead)
    } else {
        newest.saturating_sub(NUMBERS - ahead)
    }
}
