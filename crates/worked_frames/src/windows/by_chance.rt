//! Windows beside a plain one that moves number by number, on calls that are made by chance.
ghost use Rattle.std.specs.Prelude.{◌<◌};

use crate::expect::{expect_same_at, expect_true};
use reorder::{Declared, MODULUS, NUMBERS_AHEAD, Verdict, WIDTH_MAX, Window, offset};
use std::alloc::{AllocError, Global};
use std::process::Abort;
use std::test::Fail;

/// A window that has a place for every number, and passes numbers one by one.
#[derive(Drop)]
struct Plain {
    expected: u16,
    width: u16,
    held: usize,
    /// What is held, by its number.
    items: Vec<Option<usize>>,
}

impl Plain {
    fn new(alloc: Global, first: u16, width: u16) -> Result<Plain, AllocError> {
        let mut items = Vec::new(alloc);
        for _ in 0..MODULUS {
            items.push(None)?;
        }
        Ok(Plain {
            expected: first % MODULUS,
            width,
            held: 0,
            items,
        })
    }

    /// How far a number lies ahead.
    fn ahead(&self, number: u16) -> u16 {
        offset(self.expected % MODULUS, number % MODULUS)
    }

    fn next(&self) -> Option<usize> {
        self.items
            .get(usize::from(self.expected))
            .copied()
            .flatten()
    }

    fn offer(&mut self, number: u16, item: usize) -> Verdict<usize> {
        let ahead = self.ahead(number);
        if ahead >= NUMBERS_AHEAD {
            return Verdict::Late(item);
        }
        if ahead >= self.width {
            return Verdict::Beyond(item);
        }
        match self.items.get_mut(usize::from(number)) {
            Some(place) if place.is_none() => {
                *place = Some(item);
                self.held = self.held.wrapping_add(1);
                Verdict::Kept
            }
            _ => Verdict::Repeat(item),
        }
    }

    /// Takes out what is held under the expected number, and expects the next one.
    fn pass(&mut self) -> Option<usize> {
        let item = self.next();
        if let Some(place) = self.items.get_mut(usize::from(self.expected)) {
            *place = None;
        }
        if item.is_some() {
            self.held = self.held.wrapping_sub(1);
        }
        self.expected = self.expected.wrapping_add(1) % MODULUS;
        item
    }

    fn take_next(&mut self) -> Option<usize> {
        self.next()?;
        self.pass()
    }

    fn declare(&mut self) -> Declared {
        if self.next().is_some() {
            return Declared::NextIsHere;
        }
        if self.held == 0 {
            return Declared::NothingHeld;
        }
        let lost = self.expected;
        self.pass();
        Declared::Lost(lost)
    }

    fn declare_to(&mut self, number: u16) -> u16 {
        let ahead = self.ahead(number);
        if ahead >= NUMBERS_AHEAD {
            return 0;
        }
        for count in 0..ahead {
            if !matches!(self.declare(), Declared::Lost(_)) {
                return count;
            }
        }
        ahead
    }

    fn skip_to(&mut self, number: u16) -> u16 {
        let ahead = self.ahead(number);
        if ahead >= NUMBERS_AHEAD {
            return 0;
        }
        for count in 0..ahead {
            if self.next().is_some() {
                return count;
            }
            self.pass();
        }
        ahead
    }
}

/// Numbers by chance (a linear congruential generator of Knuth's).
#[derive(Clone, Copy)]
struct Chance {
    state: u64,
}

impl Chance {
    /// One below `limit`, which is at most 65,535; 0 where that is 0.
    fn below(&mut self, limit: u16) -> u16 {
        self.state = self
            .state
            .wrapping_mul(6_364_136_223_846_793_005)
            .wrapping_add(1_442_695_040_888_963_407);
        ((self.state >> 33) % u64::from(limit.max(1))) as u16
    }
}

/// Which numbers calls name: how far ahead of the expected one they lie at most.
const REACHES: [u16; 6] = [2, 5, 20, 300, 4200, 8192];

/// A number that lies ahead, mostly near.
fn number_near(chance: &mut Chance, expected: u16) -> u16
    ensures { result < 8192 }
{
    let reach = REACHES
        .get(usize::from(chance.below(6)))
        .copied()
        .unwrap_or(1);
    expected.wrapping_add(chance.below(reach)) % MODULUS
}

/// The ways in which a window does what it is asked, by what it holds: whether calls came to each.
#[derive(Clone, Copy)]
struct Ways {
    took_the_only_one: bool,
    took_one_of_many: bool,
    only_one_is_not_next: bool,
    passed_nothing_within: bool,
    passed_nothing_beyond: bool,
    turned_on: bool,
    turned_back: bool,
}

impl Ways {
    fn none() -> Ways {
        Ways {
            took_the_only_one: false,
            took_one_of_many: false,
            only_one_is_not_next: false,
            passed_nothing_within: false,
            passed_nothing_beyond: false,
            turned_on: false,
            turned_back: false,
        }
    }

    /// The next item is about to be taken.
    fn see_taking(&mut self, plain: &Plain) {
        let is_next = plain.next().is_some();
        self.took_the_only_one |= plain.held == 1 && is_next;
        self.took_one_of_many |= plain.held > 1 && is_next;
        self.only_one_is_not_next |= plain.held == 1 && !is_next;
    }

    /// So many numbers were passed at once.
    fn see_passing(&mut self, plain: &Plain, count: u16) {
        let others = plain.width.saturating_sub(count);
        if plain.held == 0 {
            self.passed_nothing_within |= 0 < count && count < plain.width;
            self.passed_nothing_beyond |= count >= plain.width;
        } else {
            self.turned_on |= 0 < count && count <= others;
            self.turned_back |= count > others;
        }
    }

    /// Calls came to each way that there is in a window so wide.
    fn are_seen(&self, width: u16) -> bool {
        let took = self.took_the_only_one && (self.took_one_of_many || width < 2);
        let within = self.passed_nothing_within || width < 2;
        let beyond = self.passed_nothing_beyond || width > 4000;
        let stays = self.only_one_is_not_next || width < 2;
        let turned = (self.turned_on || width < 2) && (self.turned_back || width < 3);
        took && within && beyond && stays && turned
    }
}

/// Gives numbers up in both, and compares how many.
fn give_up_both(
    rt: &impl Abort,
    window: &mut Window<usize>,
    plain: &mut Plain,
    chance: &mut Chance,
    place: usize,
) -> u16 {
    let number = number_near(chance, plain.expected);
    if chance.below(3) == 0 {
        let count = window.declare_to(number);
        expect_same_at(rt, "declared to", place, count, plain.declare_to(number));
        return count;
    }
    let count = window.skip_to(number);
    expect_same_at(rt, "skipped to", place, count, plain.skip_to(number));
    count
}

/// Makes a call of both, `offers` of 16 of which are offers, and compares what they answer. What is
/// offered is the call's place.
fn call_both(
    rt: &impl Abort,
    (window, plain): (&mut Window<usize>, &mut Plain),
    (chance, ways): (&mut Chance, &mut Ways),
    offers: u16,
    place: usize,
) {
    if chance.below(16) < offers {
        let number = number_near(chance, plain.expected);
        let found = window.offer(number, place);
        expect_same_at(rt, "offered", place, found, plain.offer(number, place));
        return;
    }
    match chance.below(8) {
        0..4 => {
            ways.see_taking(plain);
            let found = window.take_next();
            expect_same_at(rt, "taken", place, found, plain.take_next());
        }
        4 => {
            let found = window.declare();
            expect_same_at(rt, "declared", place, found, plain.declare());
        }
        _ => {
            let count = give_up_both(rt, window, plain, chance, place);
            ways.see_passing(plain, count);
        }
    }
}

/// Makes so many calls of both, and empties both in the end.
fn plays_alike(
    rt: &impl Abort,
    alloc: Global,
    (width, offers): (u16, u16),
    chance: &mut Chance,
    ways: &mut Ways,
) -> Result<(), Fail> {
    expect_true(rt, "a width", 1 <= width && width <= WIDTH_MAX);
    let first = chance.below(MODULUS) % MODULUS;
    let mut window = Window::new(alloc, first, width)?;
    let mut plain = Plain::new(alloc, first, width)?;
    for place in 0..4000 {
        call_both(rt, (&mut window, &mut plain), (chance, ways), offers, place);
        let found = (window.expected(), window.held(), window.next().copied());
        let wanted = (plain.expected, plain.held, plain.next());
        expect_same_at(rt, "after the call", place, found, wanted);
    }
    for place in 0..4096 {
        expect_same_at(rt, "left", place, window.take_next(), plain.take_next());
        expect_same_at(rt, "lost", place, window.declare(), plain.declare());
    }
    Ok(())
}

#[test]
fn windows_answer_as_plain_ones(rt: HostRuntime) -> Result<(), Fail> {
    let mut chance = Chance { state: 1 };
    for width in [1, 2, 3, 7, 64, 4095, 4096] {
        let mut ways = Ways::none();
        for offers in [8, 8, 8, 1, 1] {
            plays_alike(&rt, rt.alloc(), (width, offers), &mut chance, &mut ways)?;
        }
        expect_true(&rt, "each way", ways.are_seen(width));
    }
    Ok(())
}
