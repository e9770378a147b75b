//! Captures of one flow that were made by chance, with what a model of the same rules says of them.
//!
//! A case is a line of numbers: what is handed in, `=`, and what came of it.
use crate::flows_of_captures::{Noted, burst, map_of};
use crate::model_cases::CASES;
use captured_flows::{CapturedBurst, CapturedFlows, Waits};
use docsis_wire::NoCheck;
use flow_selection::Selection;
use loss_rule::LossRule;
use std::alloc::{AllocError, Global};
use std::test::Fail;

/// The numbers of a text.
fn numbers(alloc: Global, text: &str) -> Result<Vec<u64>, AllocError> {
    let mut numbers = Vec::new(alloc);
    for word in text.split_whitespace() {
        numbers.push(word.parse::<u64>().unwrap_or(u64::MAX))?;
    }
    Ok(numbers)
}

/// The rule of a case.
fn rule_of(number: u64) -> LossRule {
    match number {
        0 => LossRule::Decided,
        1 => LossRule::Passed,
        _ => LossRule::PassedOrSlid,
    }
}

/// The bursts of a case, as (time, channel, number, check).
fn bursts_of(alloc: Global, came: &[u64]) -> Result<Vec<CapturedBurst>, AllocError> {
    let mut bursts = Vec::new(alloc);
    for one in came.chunks_exact(4) {
        if let [time, channel, number, check] = one {
            let id = 100 + (*channel % 16) as u32;
            let number = (*number % 8192) as u16;
            bursts.push(burst(alloc, *time, id, number, *check == 1)?)?;
        }
    }
    Ok(bursts)
}

/// What came of a case: the times of what was handed in, in order, and what was counted since the
/// flow began last. It is nothing where something isn't as it ought to be.
fn answer(alloc: Global, case: &[u64]) -> Result<Option<Vec<u64>>, Fail> {
    let [rule, reorder, wait, first, window, channels, came @ ..] = case else {
        return Ok(None);
    };
    let waits = Waits {
        reorder: *reorder,
        wait: *wait,
    };
    let first = Some((*first % 65_536) as u16).filter(|first| *first < 8192);
    let map = map_of(
        alloc,
        first,
        (*window % 65_536) as u16,
        (*channels % 17) as u8,
    )?;
    let mut captured = CapturedFlows::new(
        alloc,
        map,
        rule_of(*rule),
        waits,
        Selection::All,
        NoCheck,
    )?;
    let mut noted = Noted::new(alloc);
    captured.take_all(alloc, bursts_of(alloc, came)?, &mut noted)?;
    captured.end_waiting(alloc, &mut noted)?;
    let (_, closed) = captured.into_receiver().close(alloc, &mut noted);
    let Ok(closed) = closed else {
        return Ok(None);
    };
    let mut answer = noted.times;
    for counts in &closed.flows {
        for count in [
            counts.kept,
            counts.late,
            counts.repeat,
            counts.beyond,
            counts.lost,
        ] {
            answer.push(count)?;
        }
    }
    Ok(Some(answer))
}

#[test]
fn it_answers_as_a_model_does(rt: HostRuntime) -> Result<(), Fail> {
    let mut cases: u32 = 0;
    for line in CASES.lines() {
        if let Some((case, wanted)) = line.split_once(" =") {
            let case = numbers(rt.alloc(), case)?;
            let wanted = numbers(rt.alloc(), wanted)?;
            let given = answer(rt.alloc(), &case)?;
            assert!(rt;
                given.is_some_and(|given| given.as_slice() == wanted.as_slice()),
                "{line}"
            );
            cases = cases.wrapping_add(1);
        }
    }
    assert!(rt; cases >= 20);
    Ok(())
}
