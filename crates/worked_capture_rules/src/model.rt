//! Cases that were made by chance, with what a model of the same rules answers to them.
//!
//! A case is a line of numbers: what is handed in, `=`, and what is answered.
ghost use Rattle.std.specs.Prelude.{◌<◌};

use crate::model_cases::CASES;
use capture_rules::{Arrival, Beginning, Begun, ChannelOrder, HandedOn, HeldTime, HeldTimes};
use std::alloc::{AllocError, Global};
use std::test::Fail;

/// The numbers of a text.
fn numbers(alloc: Global, text: &str) -> Result<Vec<u64>, AllocError> {
    let mut numbers = Vec::new(alloc);
    for word in text.split_whitespace() {
        numbers.push(word.parse::<u64>().unwrap_or(u64::MAX))?;
    }
    Ok(numbers)
}

/// A sequence number.
fn sequence(number: u64) -> u16
    ensures { result < 8192 }
{
    (number % 8192) as u16
}

fn arrival(time: u64, channel: u64, number: u64, item: u64) -> Arrival<u64> {
    Arrival {
        time,
        channel: (channel % 16) as usize,
        number: sequence(number),
        item,
    }
}

/// The time and the place of a burst that is handed on.
fn put_next(answers: &mut Vec<u64>, next: Option<HandedOn<u64>>) -> Result<(), AllocError> {
    match next {
        Some(next) => answers.extend_from_slice(&[next.time, next.arrival.item]),
        None => Ok(()),
    }
}

/// Bursts as (time, channel, number): what is handed on, as (time, place).
fn order(alloc: Global, reorder: u64, came: &[u64]) -> Result<Vec<u64>, AllocError> {
    let mut order = ChannelOrder::new(alloc, reorder);
    let mut answers = Vec::new(alloc);
    let mut item = 0;
    for one in came.chunks_exact(3) {
        if let [time, channel, number] = one {
            for _ in 0..order.len() {
                put_next(&mut answers, order.next(*time))?;
            }
            let last = order.push(arrival(*time, *channel, *number, item))?;
            put_next(&mut answers, last)?;
            item = item.wrapping_add(1);
        }
    }
    for _ in 0..order.len() {
        put_next(&mut answers, order.next_left())?;
    }
    Ok(answers)
}

/// What a beginning that has ended is: 1, its first number, whether it is anew, and what was kept.
fn put_begun(answers: &mut Vec<u64>, begun: Option<Begun<u64>>) -> Result<(), AllocError> {
    if let Some(begun) = begun {
        let (first, is_anew) = (u64::from(begun.first), u64::from(begun.is_anew));
        answers.extend_from_slice(&[1, first, is_anew])?;
        for one in &begun.kept {
            answers.push(one.arrival.item)?;
        }
    }
    Ok(())
}

/// Bursts as (time, number, expected number, window): beginnings that end, 2 for a silence, 3 for
/// one that is kept, and 4 with one that is handed in.
fn beginnings(
    alloc: Global,
    wait: u64,
    is_begun: bool,
    came: &[u64],
) -> Result<Vec<u64>, AllocError> {
    let mut flow = Beginning::new(alloc, wait, is_begun);
    let mut answers = Vec::new(alloc);
    let mut item = 0;
    for one in came.chunks_exact(4) {
        if let [time, number, expected, window] = one {
            let time = *time;
            put_begun(&mut answers, flow.end_at(alloc, time))?;
            if flow.is_silent(time) {
                answers.push(2)?;
            }
            let handed = HandedOn {
                time,
                arrival: arrival(time, 0, *number, item),
            };
            item = item.wrapping_add(1);
            match flow.hand_on(handed, sequence(*expected), sequence(*window))? {
                None => answers.push(3)?,
                Some(next) => {
                    answers.push(4)?;
                    answers.push(next.arrival.item)?;
                }
            }
        }
    }
    put_begun(&mut answers, flow.end(alloc))?;
    Ok(answers)
}

/// Steps as (what, number, time): 0 to keep a number, 1 to pass to one, and 2 for the number to
/// skip to from one, which is 9999 where there is none.
fn held(alloc: Global, wait: u64, steps: &[u64]) -> Result<Vec<u64>, AllocError> {
    let mut held = HeldTimes::new(alloc, wait);
    let mut answers = Vec::new(alloc);
    for one in steps.chunks_exact(3) {
        if let [what, number, time] = one {
            let number = sequence(*number);
            match *what {
                0 => held.keep(HeldTime {
                    number,
                    time: *time,
                })?,
                1 => held.pass(number),
                _ => answers.push(held.skip_to(*time, number).map_or(9999, u64::from))?,
            }
        }
    }
    Ok(answers)
}

/// What is answered to a case.
fn answers(alloc: Global, case: &[u64]) -> Result<Vec<u64>, AllocError> {
    match case {
        [0, reorder, came @ ..] => order(alloc, *reorder, came),
        [1, wait, is_begun, came @ ..] => beginnings(alloc, *wait, *is_begun == 1, came),
        [2, wait, steps @ ..] => held(alloc, *wait, steps),
        _ => Ok(Vec::new(alloc)),
    }
}

#[test]
fn it_answers_as_a_model_does(rt: HostRuntime) -> Result<(), Fail> {
    let mut cases: u32 = 0;
    for line in CASES.lines() {
        if let Some((case, wanted)) = line.split_once(" =") {
            let case = numbers(rt.alloc(), case)?;
            let wanted = numbers(rt.alloc(), wanted)?;
            let given = answers(rt.alloc(), &case)?;
            assert!(rt; given.as_slice() == wanted.as_slice(), "{line}");
            cases = cases.wrapping_add(1);
        }
    }
    assert!(rt; cases > 50);
    Ok(())
}
