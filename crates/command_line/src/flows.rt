//! The options `--flows` and `--shard`: which flows are asked for.
ghost use Rattle.std.specs.Prelude.{◌≡◌, map, IfOk, IfSome, None};
ghost use Rattle.flow_selection.specs.declared.shard.Shard.{Shard};
ghost use Rattle.text_lines.specs.Number.{IsNumber, IsNoNumber};
ghost use Rattle.command_line.specs.Flows.{SaysShard, SaysRange, SaysRanges, AskForFlows};
ghost use Rattle.command_line.specs.Flows.{shards_max};
ghost use Rattle.command_line.specs.Inside.Flows.{AddsRange};

use crate::command::UsageFault;
use crate::option_words::only_value;
use flow_records::MOST_FLOWS;
use flow_selection::{FlowList, FlowRange, Selection, Shard};
use std::alloc::Global;
use std::convert::AsStr;
use text_lines::read_number;

/// How many shards there are at most: one for each flow.
const SHARDS_MAX: u16 = MOST_FLOWS;

/// A number of a shard's value, which is no greater than how many shards there may be.
fn read_shard_number(text: &str) -> Option<u32>
    ensures number { IfSome result (IsNumber text.now shards_max) }
    ensures none { result ≡ None → IsNoNumber text.now shards_max }
{
    read_number(text.as_bytes(), u32::from(SHARDS_MAX))
}

/// The shard that a value says, as `2/4`: the third of four.
fn read_shard(value: &str) -> Option<Shard>
    ensures says { IfSome result (SaysShard value.now) }
    ensures none { result ≡ None → (shard : Shard) → ¬ SaysShard value.now shard }
{
    let (remainder_text, count_text) = value.split_once('/')?;
    let remainder = read_shard_number(remainder_text)?;
    let count = read_shard_number(count_text)?;
    if remainder >= count {
        return None;
    }
    Some(Shard {
        remainder: remainder as u16,
        count: count as u16,
    })
}

/// The flows of one index, as `3`, or of some that follow each other, as `8-15`. No index is
/// greater than the last one.
fn read_range(text: &str, last: u16) -> Option<FlowRange>
    ensures { IfSome result (SaysRange last text.now) }
{
    let Some((first, to)) = text.split_once('-') else {
        let flow = read_number(text.as_bytes(), u32::from(last))? as u16;
        return Some(FlowRange {
            first: flow,
            last: flow,
        });
    };
    let first = read_number(first.as_bytes(), u32::from(last))?;
    let to = read_number(to.as_bytes(), u32::from(last))?;
    if to < first {
        return None;
    }
    Some(FlowRange {
        first: first as u16,
        last: to as u16,
    })
}

/// Adds the flows that a text says to a list of them.
fn add_range(text: &str, last: u16, ranges: &mut Vec<FlowRange>) -> Result<(), UsageFault>
    ensures { IfOk result (λ _. AddsRange last text.now ranges.old.items ranges.new.items) }
{
    let Some(range) = read_range(text, last) else {
        return Err(UsageFault::Usage);
    };
    match ranges.push(range) {
        Ok(()) => Ok(()),
        Err(_) => Err(UsageFault::OutOfMemory),
    }
}

/// The flows that a list says, as `0,3,8-15`. No index is greater than the last one.
fn read_ranges(alloc: Global, value: &str, last: u16) -> Result<Vec<FlowRange>, UsageFault>
    ensures { IfOk result (λ ranges. SaysRanges last value.now ranges.items) }
{
    let mut ranges = Vec::new(alloc);
    let mut rest = value;
    while let Some((part, more)) = rest.split_once(',') {
        add_range(part, last, &mut ranges)?;
        rest = more;
    }
    add_range(rest, last, &mut ranges)?;
    Ok(ranges)
}

/// The flows that options ask for, whose indexes go up to the last one: all where they ask for
/// none.
///
/// `Usage`: both options are there, or one twice, or its value says no flows: the remainder of a
/// shard isn't below its count, a range goes backwards, an index is greater than the last one, or
/// something is no number. `OutOfMemory`: an allocation failed.
pub fn asked_flows<S: AsStr>(
    alloc: Global,
    options: &[S],
    last: u16,
) -> Result<Selection, UsageFault>
    ensures { IfOk result (λ selected. AskForFlows last selected (map S.text options.now)) }
{
    match (
        only_value(options, "--shard")?,
        only_value(options, "--flows")?,
    ) {
        (None, None) => Ok(Selection::All),
        (Some(value), None) => match read_shard(value) {
            Some(shard) => Ok(Selection::Shard(shard)),
            None => Err(UsageFault::Usage),
        },
        (None, Some(value)) => {
            let ranges = read_ranges(alloc, value, last)?;
            Ok(Selection::Listed(FlowList::new(alloc, ranges)?))
        }
        (Some(_), Some(_)) => Err(UsageFault::Usage),
    }
}
