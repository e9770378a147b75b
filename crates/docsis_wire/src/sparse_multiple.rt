//! The front of a long message, taken away two words at a time without a table.
//!
//! What a message leaves stays the same where a multiple of the generator is added to it. One with
//! few powers is x^300 + x^155 + x^117 + x^89 + 1. Added as often as the two words at the front
//! say, it makes both 0, and they come again in four places further on, all behind the two. (The
//! way is known as Chorba.)
ghost use Rattle.std.specs.Prelude.{◌≡◌, ℕ, ◌+◌, ◌*◌, ◌^◌, ◌<◌, ◌≤◌, length, take, drop};
ghost use Rattle.std.specs.Prelude.{slice_index, bit_xor};
ghost use Rattle.docsis_wire.specs.Division.{message, remainder_after};
ghost use Rattle.docsis_wire.specs.Checks.{frame_generator};
ghost use Rattle.docsis_wire.specs.Inside.Pending.{pair_sum, to_add};

use std::simd::prelude::*;

/// What is still to be added to the words that come, after words before them were taken away.
#[derive(Drop)]
pub(crate) struct Pending {
    /// To the first and the second word.
    next: u64x2,
    /// To the second and the third word. What the second gets of it is in `next` already.
    straddling: u64x2,
    /// To the third and the fourth word.
    later: u64x2,
    /// To the fourth and the fifth word.
    last: u64x2,
}

impl Pending {
    /// What is left of a message so far, to be added to its next word.
    #[inline(always)]
    pub(crate) fn new(remainder: u32) -> Pending
        ensures { to_add result ≡ remainder }
    {
        Pending {
            next: u64x2::from_array([u64::from(remainder), 0]),
            straddling: u64x2::splat(0),
            later: u64x2::splat(0),
            last: u64x2::splat(0),
        }
    }

    /// Takes the next two words away, these and what is to be added to them. At least 269
    /// coefficients have to follow them, so that the last multiple ends within the message.
    #[inline(always)]
    pub(crate) fn take_away(self, words: u64x2) -> Pending
        ensures { (steps : ℕ) → 269 ≤ steps
            → remainder_after frame_generator steps (to_add result)
            ≡ remainder_after frame_generator (128 + steps)
            (bit_xor (to_add self) (pair_sum words)) }
    {
        let pair = sum(self.next, words);
        let (first, first_over) = moved(pair, 300 - 155 - 128);
        let (second, second_over) = moved(pair, 300 - 117 - 128);
        let (third, third_over) = moved(pair, 300 - 89 - 192);
        let (fourth, fourth_over) = moved(pair, 300 - 256);
        let straddling = sum(sum(first_over, second_over), sum(third, self.last));
        let added = sum(self.later, between(self.straddling, straddling));
        let next = sum(sum(first, second), added);
        let later = sum(third_over, fourth);
        Pending {
            next,
            straddling,
            later,
            last: fourth_over,
        }
    }

    /// What is to be added to the next two words, to the two behind them and to the next two.
    #[inline(always)]
    pub(crate) fn pairs(self) -> (u64x2, u64x2, u64x2)
        ensures { to_add self ≡ bit_xor (pair_sum result.0)
            (bit_xor (pair_sum result.1) (pair_sum result.2 * 2 ^ 128) * 2 ^ 128) }
    {
        let second = sum(self.later, between(self.straddling, self.last));
        let third = between(self.last, u64x2::splat(0));
        (self.next, second, third)
    }
}

/// Two words of a message.
#[inline(always)]
pub(crate) fn words_at(bytes: &[u8], at: usize) -> u64x2
    requires { at + 16 ≤ length bytes.now }
    ensures { pair_sum result ≡ message (take 16 (drop at bytes.now)) }
{
    u64x2::from_le_bytes(u8x16::from_slice(&bytes[at..]))
}

/// The sum of two pairs of words.
#[inline(always)]
pub(crate) fn sum(left: u64x2, right: u64x2) -> u64x2
    ensures sum { pair_sum result ≡ bit_xor (pair_sum left) (pair_sum right) }
    ensures fits { pair_sum result < 2 ^ 128 }
{
    left ^ right
}

/// A pair so many places further on, 1 to 63: what of it stays in the pair, and what goes over into
/// the pair one word further on.
#[inline(always)]
fn moved(pair: u64x2, places: u64) -> (u64x2, u64x2)
    requires some { 0 < places }
    requires few { places < 64 }
    ensures { bit_xor (pair_sum result.0) (pair_sum result.1 * 2 ^ 64)
        ≡ pair_sum pair * 2 ^ places }
{
    let stays = pair << u64x2::splat(places);
    let goes_over = pair >> u64x2::splat(64 - places);
    (stays, goes_over)
}

/// The second word of a pair and the first word of another.
#[inline(always)]
fn between(pair: u64x2, other: u64x2) -> u64x2
    ensures { pair_sum result ≡ bit_xor (slice_index pair 1) (slice_index other 0 * 2 ^ 64) }
{
    pair.shuffle(other, [1, 2])
}
