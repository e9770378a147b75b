//! Which flows are selected.
ghost use Rattle.std.specs.Prelude.{◌≡◌};
ghost use Rattle.flow_selection.specs.Selection.{is_selected};
ghost use Rattle.flow_selection.specs.Lines.{is_left};

use crate::list::FlowList;
use crate::shard::Shard;

/// Which flows are selected, each by its index: the place of its record, from 0.
#[derive(Debug, Drop)]
pub enum Selection {
    /// Each flow.
    All,
    /// Those of a shard.
    Shard(Shard),
    /// Those of a list of ranges.
    Listed(FlowList),
}

impl Selection {
    /// Whether the flow with this index is of the selection.
    pub fn has(&self, flow: usize) -> bool
        ensures { result ≡ is_selected self.now flow }
    {
        match self {
            Selection::All => true,
            Selection::Shard(shard) => shard.has(flow),
            Selection::Listed(list) => list.has(flow),
        }
    }

    /// Whether what is of this flow, or of none, is left where the flows of the selection are asked
    /// for.
    pub fn leaves(&self, flow: Option<usize>) -> bool
        ensures { result ≡ is_left self.now flow }
    {
        match flow {
            Some(flow) => self.has(flow),
            None => true,
        }
    }
}
