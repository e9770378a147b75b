//! Which SIDs look like one flow: a guess.
ghost use Rattle.std.specs.Prelude.{◌≡◌};
ghost use Rattle.seen_sids.specs.Guess.{ahead, lies_within, some_within, is_one_of, have_one};
ghost use Rattle.seen_sids.specs.Guess.{look_like_one, twin_of};

use crate::seen_sid::SeenSid;
use docsis_wire::SEQUENCE_MODULUS;

/// Numbers are counted modulo this.
const MODULUS: u32 = SEQUENCE_MODULUS as u32;

/// How far a number lies ahead of another.
fn ahead(first: u16, number: u16) -> u32
    ensures { result ≡ ahead first number }
{
    (u32::from(number) + MODULUS - u32::from(first) % MODULUS) % MODULUS
}

/// Whether a number lies from the first to the last of these.
fn lies_within(numbers: &[u16], number: u16) -> bool
    ensures { result ≡ lies_within numbers.now number }
{
    if numbers.is_empty() {
        return false;
    }
    let first = numbers[0];
    let last = numbers[numbers.len() - 1];
    ahead(first, number) <= ahead(first, last)
}

/// Whether some of the others lies from the first to the last of these.
fn some_within(numbers: &[u16], others: &[u16]) -> bool
    ensures { result ≡ some_within numbers.now others.now }
{
    others.iter().any(|number| lies_within(numbers, *number))
}

/// Whether a number is one of these.
fn is_one_of(numbers: &[u16], number: u16) -> bool
    ensures { result ≡ is_one_of numbers.now number }
{
    numbers.iter().any(|other| *other == number)
}

/// Whether some number is both of these and of the others.
fn have_one(numbers: &[u16], others: &[u16]) -> bool
    ensures { result ≡ have_one numbers.now others.now }
{
    others.iter().any(|number| is_one_of(numbers, *number))
}

/// Whether two SIDs look like one flow: whether their first numbers interleave without repeats.
pub(crate) fn look_like_one(one: &SeenSid, other: &SeenSid) -> bool
    ensures { result ≡ look_like_one one.now other.now }
{
    let numbers = one.numbers();
    let others = other.numbers();
    (some_within(numbers, others) || some_within(others, numbers)) && !have_one(numbers, others)
}

/// The first one of these SIDs with which a SID looks like one flow.
pub(crate) fn twin_of(rows: &[SeenSid], row: &SeenSid) -> Option<SeenSid>
    ensures { result ≡ twin_of rows.now row.now }
{
    for one in rows {
        if look_like_one(one, row) {
            return Some(*one);
        }
    }
    None
}
