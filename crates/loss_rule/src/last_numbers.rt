//! Of each channel of a flow how far ahead the last segment lies that came there.
//!
//! It is what the rule knows in numbers. A segment is kept by its place, which goes on where
//! numbers begin again; so a flow that comes past it drops it by an addition to its own place
//! alone.
ghost use Rattle.std.specs.Prelude.{◌≡◌, ◌<◌, ◌≤◌, ◌⊎◌, ℕ, IfOk, IfSome, MatchResult, IsTrue, None};
ghost use Rattle.std.specs.Prelude.{Some, map, slice_set};
ghost use Rattle.std.specs.Option.{ForSome};
ghost use Rattle.docsis_wire.specs.Limits.{sequence_modulus};
ghost use Rattle.reorder.specs.Number.{offset, number_ahead};
ghost use Rattle.loss_rule.specs.Numbers.{carried_of, distances_of, expected_of};
ghost use Rattle.loss_rule.specs.Numbers.{ahead_distance, distance_from};
ghost use Rattle.loss_rule.specs.Numbers.{no_distances, IsPassedByAll};
ghost use Rattle.loss_rule.specs.Inside.Holding.{HoldsBack, IsNearest};

use crate::known_channel::KnownChannel;
use crate::place::Place;
use reorder::{MODULUS, NUMBERS_AHEAD, offset};
use std::alloc::{AllocError, Global};

/// The greatest place of an expected number: each number that lies ahead has a place, too.
const REACH: u16 = u16::MAX - NUMBERS_AHEAD + 1;

/// What is known of each channel of one flow, and the number that the flow expects.
#[derive(Drop)]
pub struct LastNumbers {
    channels: Vec<KnownChannel>,
    /// The expected number and its place.
    reached: Place,
    /// The channel that held the flow back when all were last looked at.
    holder: usize,
}

impl LastNumbers {
    /// Nothing came yet on any of the channels, of which each is carried or not, and the flow
    /// expects this number, 0 to 8191.
    pub fn new(alloc: Global, channels: &[bool], expected: u16) -> Result<LastNumbers, AllocError>
        requires { expected < sequence_modulus }
        ensures carried { IfOk result (λ lasts. carried_of lasts ≡ channels.now) }
        ensures distances { IfOk result (λ lasts. distances_of lasts ≡ no_distances channels.now) }
        ensures expected { IfOk result (λ lasts. expected_of lasts ≡ expected) }
    {
        let mut known = Vec::with_capacity(alloc, channels.len())?;
        for carried in channels {
            known.push_reserved(KnownChannel {
                carried: *carried,
                last: None,
            });
        }
        Ok(LastNumbers {
            channels: known,
            reached: Place {
                at: 0,
                number: expected,
            },
            holder: 0,
        })
    }

    /// A segment with this number, 0 to 8191, came on a channel: it is the channel's last one where
    /// it lies ahead of the expected number, and otherwise there is none. On any other channel than
    /// those it knows it notes nothing.
    pub fn note(&mut self, channel: usize, number: u16)
        requires { number < sequence_modulus }
        ensures carried { carried_of self.new ≡ carried_of self.old }
        ensures expected { expected_of self.new ≡ expected_of self.old }
        ensures distances { distances_of self.new ≡ slice_set (distances_of self.old) channel
            (ahead_distance (expected_of self.old) number) }
    {
        if channel >= self.channels.len() {
            return;
        }
        let KnownChannel { carried, .. } = self.channels[channel];
        let last = place_ahead(self.reached, number);
        self.channels[channel] = KnownChannel { carried, last };
    }

    /// The flow expects this number now, 0 to 8191: what it has come past no longer lies ahead.
    pub fn come_to(&mut self, expected: u16)
        requires { expected < sequence_modulus }
        ensures carried { carried_of self.new ≡ carried_of self.old }
        ensures expected { expected_of self.new ≡ expected }
        ensures distances { distances_of self.new
            ≡ map (distance_from (offset (expected_of self.old) expected)) (distances_of self.old) }
    {
        let Place { at, number } = self.reached;
        let by = offset(number, expected);
        if by <= REACH - at {
            self.reached = Place {
                at: at + by,
                number: expected,
            };
        } else {
            self.count_anew(by, expected);
        }
    }

    /// Moves on by so many numbers, to this one, and counts places from there. It is compiled
    /// apart, since it is seldom done.
    #[inline(never)]
    fn count_anew(&mut self, by: u16, expected: u16)
        requires { expected < sequence_modulus }
        ensures carried { carried_of self.new ≡ carried_of self.old }
        ensures expected { expected_of self.new ≡ expected }
        ensures distances { distances_of self.new ≡ map (distance_from by) (distances_of self.old) }
    {
        let Place { at, .. } = self.reached;
        for one in self.channels.iter_mut() {
            let last = distance_from(at, one.last);
            one.last = distance_from(by, last);
        }
        self.reached = Place {
            at: 0,
            number: expected,
        };
    }

    /// The number that each channel of the flow has come to: where the last segment of each lies
    /// ahead, and none has the expected number, the number of the nearest of these. It is none
    /// where the flow has no channel.
    pub fn passed_by_all(&mut self) -> Option<u16>
        ensures carried { carried_of self.new ≡ carried_of self.old }
        ensures expected { expected_of self.new ≡ expected_of self.old }
        ensures distances { distances_of self.new ≡ distances_of self.old }
        ensures passed { IsPassedByAll (carried_of self.old) (distances_of self.old)
            (expected_of self.old) result }
        ensures in_range { ForSome result (λ number. number < sequence_modulus) }
    {
        if self.holds_back(self.holder) {
            return None;
        }
        match self.nearest() {
            Ok(nearest) => Some(number_ahead(self.reached.number, nearest?)),
            Err(holder) => {
                self.holder = holder;
                None
            }
        }
    }

    /// Whether this is a channel of the flow that hasn't come past the expected number.
    fn holds_back(&self, channel: usize) -> bool
        ensures { IsTrue result → HoldsBack (carried_of self.now) (distances_of self.now) channel }
    {
        match self.channels.get(channel) {
            Some(one) => one.carried && beyond(self.reached.at, one.last).is_none(),
            None => false,
        }
    }

    /// The least distance of all channels of the flow, if there are any, or one that holds it back.
    /// It is compiled apart, since mostly the channel that held the flow back still does.
    #[inline(never)]
    fn nearest(&self) -> Result<Option<u16>, usize>
        ensures { MatchResult result
            (λ nearest. IsNearest (carried_of self.now) (distances_of self.now) nearest)
            (λ channel. HoldsBack (carried_of self.now) (distances_of self.now) channel) }
    {
        let mut nearest = None;
        for (channel, one) in self.channels.iter().enumerate() {
            if one.carried {
                match beyond(self.reached.at, one.last) {
                    None => return Err(channel),
                    Some(distance) => nearest = Some(lesser(nearest, distance)),
                }
            }
        }
        Ok(nearest)
    }
}

/// The place of a number, where it lies ahead of the expected one.
fn place_ahead(reached: Place, number: u16) -> Option<u16>
    requires { number < sequence_modulus }
    ensures { distance_from reached.at result ≡ ahead_distance reached.number number }
{
    let distance = offset(reached.number, number);
    if distance < NUMBERS_AHEAD {
        Some(reached.at + distance)
    } else {
        None
    }
}

/// How far a place lies from this one on.
fn distance_from(place: u16, last: Option<u16>) -> Option<u16>
    ensures { result ≡ distance_from place last }
{
    match last {
        Some(last) if last >= place => Some(last - place),
        _ => None,
    }
}

/// How far the last segment of a channel lies beyond the expected number.
fn beyond(reached: u16, last: Option<u16>) -> Option<u16>
    ensures distance { ForSome result (λ distance. distance_from reached last ≡ Some distance) }
    ensures after { ForSome result (λ distance. 1 ≤ distance) }
    ensures none { result ≡ None → (distance : ℕ) → distance_from reached last ≡ Some distance
        → distance ≡ 0 }
{
    match distance_from(reached, last)? {
        0 => None,
        distance => Some(distance),
    }
}

/// The lesser of two distances, or the one that there is.
fn lesser(nearest: Option<u16>, distance: u16) -> u16
    ensures one { (result ≡ distance) ⊎ (nearest ≡ Some result) }
    ensures distance { result ≤ distance }
    ensures nearest { IfSome nearest (λ other. result ≤ other) }
{
    match nearest {
        Some(nearest) if nearest <= distance => nearest,
        _ => distance,
    }
}

/// The number that lies this far ahead of the expected one.
fn number_ahead(expected: u16, distance: u16) -> u16
    requires { expected < sequence_modulus }
    ensures { result ≡ number_ahead expected distance }
{
    (expected + distance % MODULUS) % MODULUS
}
