//! What is drawn of one flow.
ghost use Rattle.std.specs.Prelude.{◌≡◌, ◌<◌, IfOk, map};
ghost use Rattle.capture_picture.specs.Columns.{columns_most};
ghost use Rattle.capture_picture.specs.ShownFlow.{new_flow, halved_flow, with_segment};
ghost use Rattle.capture_picture.specs.ShownFlow.{with_mark_in};

use crate::column::{COLUMNS, Column, halve};
use crate::index::{first_index, nearest_index};
use crate::marks::Mark;
use crate::span::Span;
use std::alloc::{AllocError, Global};
use std::marker::Model;

/// What is drawn of a flow. Contracts see a `ShownFlow`.
#[derive(Debug, Drop)]
pub(crate) struct FlowPicture {
    flow: usize,
    sfid: u32,
    newest: u64,
    bursts: u64,
    columns: Vec<Column>,
}

impl Model for FlowPicture {
    ghost use Rattle.std.specs.Prelude.{◌≡◌, length};
    ghost use Rattle.capture_picture.specs.Columns.{columns_most};
    ghost use Rattle.capture_picture.specs.ShownFlow.{ShownFlow};

    ghost Value = { ShownFlow };

    ghost view = { λ one. record {
      flow = one.flow;
      sfid = one.sfid;
      newest = one.newest;
      bursts = one.bursts;
      columns = one.columns.items;
    } };

    ghost invariant = { λ one. length one.columns.items ≡ columns_most };
}

impl FlowPicture {
    /// Nothing came yet but that there is a flow, and the number of its first segment.
    pub(crate) fn new(
        alloc: Global,
        flow: usize,
        sfid: u32,
        number: u16,
    ) -> Result<FlowPicture, AllocError>
        ensures { IfOk result (λ one. one ≡ new_flow flow sfid number) }
    {
        Ok(FlowPicture {
            flow,
            sfid,
            newest: first_index(number),
            bursts: 0,
            columns: Vec::from_elem(alloc, Column::empty(), COLUMNS)?,
        })
    }

    /// Its index in the map.
    pub(crate) fn flow(&self) -> usize
        ensures { result ≡ self.now.flow }
    {
        self.flow
    }

    /// Its service flow identifier.
    pub(crate) fn sfid(&self) -> u32
        ensures { result ≡ self.now.sfid }
    {
        self.sfid
    }

    /// How many bursts it had.
    pub(crate) fn bursts(&self) -> u64
        ensures { result ≡ self.now.bursts }
    {
        self.bursts
    }

    pub(crate) fn columns(&self) -> &[Column]
        ensures { result.now ≡ self.now.columns }
    {
        &self.columns
    }

    /// A segment of this number came on a channel in the time of this column.
    pub(crate) fn take_segment(&mut self, column: usize, channel: usize, number: u16)
        requires { column < columns_most }
        ensures { self.new ≡ with_segment column channel number self.old }
    {
        let index = nearest_index(self.newest, number);
        self.newest = self.newest.max(index);
        self.bursts = self.bursts.saturating_add(1);
        let span = Span {
            low: index,
            high: index,
            behind: self.newest - index,
        };
        self.columns[column].add(channel, span);
    }

    /// So many marks were made in the time of this column.
    pub(crate) fn mark(&mut self, column: usize, mark: Mark, count: u64)
        requires { column < columns_most }
        ensures { self.new ≡ with_mark_in column mark count self.old }
    {
        self.columns[column].marks.add(mark, count);
    }

    /// Each two neighbouring columns become one.
    pub(crate) fn halve(&mut self)
        ensures { self.new ≡ halved_flow self.old }
    {
        halve(&mut self.columns);
    }
}

/// Each two neighbouring columns of each flow become one.
pub(crate) fn halve_all(flows: &mut [FlowPicture])
    ensures { flows.new ≡ map halved_flow flows.old }
{
    for flow in flows {
        flow.halve();
    }
}
