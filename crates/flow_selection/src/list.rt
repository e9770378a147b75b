//! Flows that are listed.
ghost use Rattle.std.specs.Prelude.{◌≡◌, ◌||◌, ℕ, List, Bool, false, get_or, IfOk};
ghost use Rattle.flow_selection.specs.declared.range.FlowRange.{FlowRange};
ghost use Rattle.flow_selection.specs.Ranges.{has_some, is_in_range};

use crate::range::FlowRange;
use std::alloc::{AllocError, Global};
use std::fmt;
use std::marker::Model;

/// The flows of at least one of some ranges. Whether it has a flow is known at once, however many
/// ranges there are. Contracts see the list of the ranges.
#[derive(Debug, Drop)]
pub struct FlowList {
    ranges: Vec<FlowRange>,
    flags: Flags,
}

/// For each index up to the greatest that is listed, whether a range has it: at most 64 KiB.
#[derive(Drop)]
struct Flags {
    all: Vec<bool>,
}

/// The ranges say it all.
impl fmt::Debug for Flags {
    fn fmt<W: fmt::Write>(&self, f: &mut fmt::Formatter<W>) -> fmt::Result {
        f.write_str("..")
    }
}

impl Model for FlowList {
    ghost Value = { List FlowRange };

    ghost view = { λ list. list.ranges.items };

    ghost invariant = { λ list. (k : ℕ)
        → get_or list.flags.all.items k false ≡ has_some list.ranges.items k };
}

/// Sets the flag of each flow of a range.
fn set_flags(flags: &mut Vec<bool>, range: FlowRange) -> Result<(), AllocError>
    ensures { IfOk result (λ _. (k : ℕ) → get_or flags.new.items k false
        ≡ (get_or flags.old.items k false || is_in_range range k)) }
{
    let behind = usize::from(range.last) + 1;
    if flags.len() < behind {
        flags.resize(behind, false)?;
    }
    let mut flow = usize::from(range.first);
    while flow < behind {
        flags[flow] = true;
        flow += 1;
    }
    Ok(())
}

impl FlowList {
    /// The flows of these ranges. It takes a step for each flow of each of them. `Err` comes only
    /// where memory ran out.
    pub fn new(alloc: Global, ranges: Vec<FlowRange>) -> Result<FlowList, AllocError>
        ensures { IfOk result (λ list. list ≡ ranges.items) }
    {
        let mut all = Vec::new(alloc);
        let mut rest = ranges.as_slice();
        while let [range, more @ ..] = rest {
            set_flags(&mut all, *range)?;
            rest = more;
        }
        Ok(FlowList {
            ranges,
            flags: Flags { all },
        })
    }

    /// Whether the flow with this index is of one of the ranges.
    pub fn has(&self, flow: usize) -> bool
        ensures { result ≡ has_some self.now flow }
    {
        matches!(self.flags.all.get(flow), Some(true))
    }
}
