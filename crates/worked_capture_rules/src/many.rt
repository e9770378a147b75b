//! Where many wait: what is handed on is what a look at each burst finds.
ghost use Rattle.std.specs.Prelude.{◌<◌};

use capture_rules::{Arrival, ChannelOrder, HandedOn};
use std::alloc::{AllocError, Global};
use std::collections::VecDeque;
use std::test::Fail;

/// The order of bursts in its plainest form: it looks at each that waits.
#[derive(Drop)]
struct ScannedOrder {
    reorder: u64,
    clock: u64,
    /// Bursts, and when they came by the clock.
    waiting: VecDeque<(u64, Arrival<u64>)>,
}

impl ScannedOrder {
    fn next_left(&mut self) -> Option<HandedOn<u64>> {
        let (time, oldest) = self.waiting.front()?;
        let time = *time;
        let mut least = 0;
        let mut least_place = place_from(oldest.number, oldest.number);
        for at in 1..self.waiting.len() {
            if let Some((_, one)) = self.waiting.get(at) {
                let place = place_from(oldest.number, one.number);
                if place < least_place && one.channel == oldest.channel {
                    least = at;
                    least_place = place;
                }
            }
        }
        let (_, arrival) = self.waiting.remove(least)?;
        Some(HandedOn { time, arrival })
    }

    fn is_set_back(&self, time: u64) -> bool {
        self.clock.saturating_sub(time) > self.reorder
    }

    fn next(&mut self, time: u64) -> Option<HandedOn<u64>> {
        let (came, _) = self.waiting.front()?;
        let waited = self.clock.max(time).saturating_sub(*came);
        if !self.is_set_back(time) && waited <= self.reorder {
            return None;
        }
        self.next_left()
    }

    fn push(&mut self, arrival: Arrival<u64>) -> Result<Option<HandedOn<u64>>, AllocError> {
        self.clock = if self.is_set_back(arrival.time) {
            arrival.time
        } else {
            self.clock.max(arrival.time)
        };
        self.waiting.push_back((self.clock, arrival))?;
        if self.waiting.len() <= 2048 {
            return Ok(None);
        }
        Ok(self.next_left())
    }
}

/// Where a number stands among those from 4,096 before another one on.
fn place_from(other: u16, number: u16) -> u32 {
    u32::from(number)
        .wrapping_add(8192 + 4096)
        .wrapping_sub(u32::from(other))
        % 8192
}

/// Numbers by chance, the same in each run.
#[derive(Drop)]
struct Dice {
    state: u64,
}

impl Dice {
    /// A number below this one, which isn't 0.
    fn below(&mut self, limit: u64) -> u64 {
        let mut x = self.state;
        x ^= x << 13;
        x ^= x >> 7;
        x ^= x << 17;
        self.state = x;
        (x >> 16) % limit.max(1)
    }
}

/// How bursts come.
#[derive(Clone, Copy, Debug)]
struct Kind {
    reorder: u64,
    channels: u64,
    /// How many numbers there are, from `first` on.
    numbers: u64,
    first: u64,
    /// How far a time lies after the one before it at most, and before it; 0 where times were lost.
    ahead: u64,
    back: u64,
    /// One of so many is handed on however short it has waited.
    left: u64,
    count: u64,
}

fn sequence(number: u64) -> u16
    ensures { result < 8192 }
{
    (number % 8192) as u16
}

/// A burst, twice.
fn arrival(time: u64, channel: u64, number: u64, item: u64) -> (Arrival<u64>, Arrival<u64>) {
    let channel = (channel % 16) as usize;
    let number = sequence(number);
    let one = Arrival {
        time,
        channel,
        number,
        item,
    };
    let other = Arrival {
        time,
        channel,
        number,
        item,
    };
    (one, other)
}

/// All that is handed on with a burst, as numbers.
fn parts(handed: &Option<HandedOn<u64>>) -> Option<[u64; 5]> {
    let HandedOn { time, arrival } = handed.as_ref()?;
    let (channel, number) = (arrival.channel as u64, u64::from(arrival.number));
    Some([*time, arrival.time, channel, number, arrival.item])
}

/// Whether the same is handed on.
fn is_same(one: &Option<HandedOn<u64>>, other: &Option<HandedOn<u64>>) -> bool {
    parts(one) == parts(other)
}

/// How many were handed on before both orders differed; all, where they don't.
fn handed_alike(alloc: Global, kind: &Kind, dice: &mut Dice) -> Result<u64, AllocError> {
    let mut order = ChannelOrder::new(alloc, kind.reorder);
    let mut scanned = ScannedOrder {
        reorder: kind.reorder,
        clock: 0,
        waiting: VecDeque::new(alloc),
    };
    let mut time = 1_000_000_u64;
    let mut alike = 0_u64;
    for item in 0..kind.count {
        let by = dice.below(kind.ahead.wrapping_add(1));
        let back = dice.below(kind.back.wrapping_add(1));
        time = time.wrapping_add(by).wrapping_sub(back);
        let number = kind.first.wrapping_add(dice.below(kind.numbers));
        let (one, other) = arrival(time, dice.below(kind.channels), number, item);
        for _ in 0..=kind.count {
            let (next, wanted) = (order.next(time), scanned.next(time));
            if !is_same(&next, &wanted) {
                return Ok(alike);
            }
            if next.is_none() {
                break;
            }
            alike = alike.wrapping_add(1);
        }
        let (last, wanted) = (order.push(one)?, scanned.push(other)?);
        if !is_same(&last, &wanted) {
            return Ok(alike);
        }
        if last.is_some() {
            alike = alike.wrapping_add(1);
        }
        if kind.left > 0 && dice.below(kind.left) == 0 {
            let (next, wanted) = (order.next_left(), scanned.next_left());
            if !is_same(&next, &wanted) {
                return Ok(alike);
            }
            alike = alike.wrapping_add(1);
        }
        if order.len() != scanned.waiting.len() {
            return Ok(alike);
        }
    }
    for _ in 0..=kind.count {
        let (next, wanted) = (order.next_left(), scanned.next_left());
        if !is_same(&next, &wanted) {
            return Ok(alike);
        }
        if next.is_none() {
            break;
        }
        alike = alike.wrapping_add(1);
    }
    Ok(alike)
}

/// A kind from which others differ in one thing or two.
const PLAIN: Kind = Kind {
    reorder: 1000,
    channels: 3,
    numbers: 8192,
    first: 0,
    ahead: 10,
    back: 0,
    left: 0,
    count: 300,
};

/// Kinds by their names.
const KINDS: [(&str, Kind); 16] = [
    ("plain", PLAIN),
    (
        "few numbers of one channel",
        Kind {
            channels: 1,
            numbers: 8,
            ahead: 2,
            count: 2500,
            ..PLAIN
        },
    ),
    (
        "ties",
        Kind {
            numbers: 12,
            ..PLAIN
        },
    ),
    (
        "round the greatest number",
        Kind {
            numbers: 300,
            first: 8100,
            ..PLAIN
        },
    ),
    (
        "half the numbers away",
        Kind {
            numbers: 4100,
            first: 4090,
            ..PLAIN
        },
    ),
    (
        "one channel",
        Kind {
            channels: 1,
            ..PLAIN
        },
    ),
    (
        "many channels",
        Kind {
            channels: 15,
            ..PLAIN
        },
    ),
    (
        "times lost",
        Kind {
            ahead: 0,
            reorder: 0,
            ..PLAIN
        },
    ),
    (
        "times that go back",
        Kind {
            ahead: 60,
            back: 40,
            reorder: 700,
            ..PLAIN
        },
    ),
    (
        "times that jump",
        Kind {
            ahead: 2000,
            back: 1900,
            reorder: 3000,
            ..PLAIN
        },
    ),
    (
        "some of those that are left",
        Kind {
            left: 3,
            reorder: 4000,
            ..PLAIN
        },
    ),
    (
        "ties of those that are left",
        Kind {
            left: 2,
            numbers: 5,
            back: 9,
            ahead: 10,
            ..PLAIN
        },
    ),
    (
        "some of those that are left, most of which came too late for the oldest one",
        Kind {
            channels: 1,
            numbers: 900,
            ahead: 2000,
            back: 1990,
            reorder: 300,
            left: 2,
            count: 1200,
            ..PLAIN
        },
    ),
    (
        "none waits",
        Kind {
            reorder: 0,
            ..PLAIN
        },
    ),
    (
        "some fifty wait",
        Kind {
            reorder: 160,
            numbers: 500,
            ..PLAIN
        },
    ),
    (
        "some hundred wait",
        Kind {
            reorder: 320,
            numbers: 500,
            ..PLAIN
        },
    ),
];

#[test]
fn many_are_handed_on_as_a_look_at_each_finds_them(rt: HostRuntime) -> Result<(), Fail> {
    let mut dice = Dice {
        state: 0x9E37_79B9_7F4A_7C15,
    };
    for (name, kind) in &KINDS {
        for _ in 0..16 {
            let alike = handed_alike(rt.alloc(), kind, &mut dice)?;
            assert!(rt; alike == kind.count, "{name}: {alike}");
        }
    }
    Ok(())
}
