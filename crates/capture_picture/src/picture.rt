//! What is drawn of a capture.
ghost use Rattle.std.specs.Prelude.{◌/◌, ◌<◌, ◌≤◌, length};
ghost use Rattle.capture_picture.specs.Columns.{columns_most, channels_most};
ghost use Rattle.capture_picture.specs.ShownFlow.{flows_most};

use crate::column::{CHANNELS, COLUMNS};
use crate::flow_picture::{FlowPicture, halve_all};
use crate::grid::{Grid, PLOT_UNITS};
use crate::marks::Mark;
use std::alloc::{AllocError, Global};

/// So many flows are shown.
pub(crate) const MOST_FLOWS: usize = 8;

/// A column's time in nanoseconds where the capture begins.
const FIRST_WIDTH: u64 = 1_000;

/// A channel of a map.
#[derive(Clone, Copy, Debug, PartialEq, Eq)]
pub struct PictureChannel {
    /// The channel, 0 to 15.
    pub channel: u8,
    /// The upstream channel id.
    pub id: u32,
}

/// A burst of a capture that brought a segment.
#[derive(Clone, Copy, Debug, PartialEq, Eq)]
pub struct PictureBurst {
    /// The flow's index in the map.
    pub flow: usize,
    /// The flow's service flow identifier.
    pub sfid: u32,
    /// When it came, in nanoseconds since any fixed time.
    pub time: u64,
    /// The channel, 0 to 15.
    pub channel: usize,
    /// The number of the segment, modulo 8192.
    pub number: u16,
}

/// What is drawn of a capture: 256 columns of time for each of the first eight flows of which a
/// burst came. The time of a column begins with a microsecond and doubles.
#[derive(Debug, Drop)]
pub struct CapturePicture {
    /// When the first burst came.
    first: Option<u64>,
    /// How long a column is, in nanoseconds.
    column_width: u64,
    /// How long after the first burst the last thing came, in nanoseconds.
    latest: u64,
    pub(crate) flows: Vec<FlowPicture>,
    /// Whether a burst came of each flow that isn't shown, by its index.
    others: Vec<bool>,
    pub(crate) channels: Vec<PictureChannel>,
    ghost wide: { latest / columns_most < column_width },
    ghost few_flows: { length flows.items ≤ flows_most },
    ghost few_channels: { length channels.items ≤ channels_most },
}

impl CapturePicture {
    ghost use Rattle.std.specs.Prelude.{◌≡◌, ◌^◌, IsOk, OnOk, OnErr};
    ghost use Rattle.capture_picture.specs.Picture.{picture_in, new_picture, place_of_flow};
    ghost use Rattle.capture_picture.specs.Picture.{doubled, reached, with_segment_at};
    ghost use Rattle.capture_picture.specs.Picture.{with_mark_at, with_flow, with_other};
    ghost use Rattle.capture_picture.specs.Picture.{other_count, with_burst, with_mark};
    ghost use Rattle.capture_picture.specs.Grid.{used_columns, grid_of, end_of};

    /// Nothing came yet. The channels are those of the map, of which the first 16 are kept.
    pub fn new(alloc: Global, mut channels: Vec<PictureChannel>) -> CapturePicture
        ensures { picture_in result ≡ new_picture channels.items }
    {
        channels.truncate(CHANNELS);
        CapturePicture {
            first: None,
            column_width: FIRST_WIDTH,
            latest: 0,
            flows: Vec::new(alloc),
            others: Vec::new(alloc),
            channels,
        }
    }

    /// Takes a burst. A flow of which none came before is shown from now on if fewer than eight
    /// are, and its first segment has the index 8192 + number; each later one has the index that is
    /// nearest to the flow's newest one. A burst from before the first one counts as of its time,
    /// and a channel above 15 isn't drawn. Memory is asked for only where a flow is new.
    pub fn take_burst(&mut self, alloc: Global, burst: PictureBurst) -> Result<(), AllocError>
        ensures taken { OnOk result
            (picture_in self.new ≡ with_burst burst (picture_in self.old)) }
        ensures refused { OnErr result (picture_in self.new ≡ picture_in self.old) }
        ensures known { let flows = (picture_in self.old).flows in
            place_of_flow burst.flow flows < length flows → IsOk result }
    {
        let place = self.place_of(burst.flow);
        if place < self.flows.len() {
            self.draw_segment(place, &burst);
            return Ok(());
        }
        if place >= MOST_FLOWS {
            return self.note_other(burst.flow);
        }
        self.show(alloc, &burst)?;
        self.draw_segment(place, &burst);
        Ok(())
    }

    /// Marks so much in a flow, at a time in nanoseconds, if the flow is shown. It asks for no
    /// memory.
    pub fn mark(&mut self, flow: usize, time: u64, mark: Mark, count: u64)
        ensures { picture_in self.new ≡ with_mark flow time mark count (picture_in self.old) }
    {
        let place = self.place_of(flow);
        if place < self.flows.len() {
            self.draw_mark(place, time, mark, count);
        }
    }

    /// How its columns are laid out.
    pub(crate) fn grid(&self) -> Grid
        ensures { result ≡ grid_of (picture_in self.now) }
    {
        let used = self.used_columns();
        Grid {
            used,
            column: PLOT_UNITS / used,
            channels: self.channels.len() as u64,
        }
    }

    /// How long after the first burst the used columns end, in nanoseconds.
    pub(crate) fn end(&self) -> u64
        ensures { result ≡ end_of (picture_in self.now) }
    {
        self.used_columns().saturating_mul(self.column_width)
    }

    /// How many columns are used.
    fn used_columns(&self) -> u64
        ensures used { result ≡ used_columns (picture_in self.now) }
        ensures some { 0 < result }
        ensures few { result ≤ columns_most }
    {
        self.latest / self.column_width + 1
    }

    /// The place of a flow among those that are shown, or how many are shown where it isn't.
    fn place_of(&self, flow: usize) -> usize
        ensures { result ≡ place_of_flow flow self.now.flows.items }
    {
        for (place, one) in self.flows.iter().enumerate() {
            if one.flow() == flow {
                return place;
            }
        }
        self.flows.len()
    }

    /// Shows a flow, whose first burst this is.
    fn show(&mut self, alloc: Global, burst: &PictureBurst) -> Result<(), AllocError>
        requires { length self.old.flows.items < flows_most }
        ensures shown { OnOk result
            (picture_in self.new ≡ with_flow burst.now (picture_in self.old)) }
        ensures refused { OnErr result (picture_in self.new ≡ picture_in self.old) }
    {
        let flow = FlowPicture::new(alloc, burst.flow, burst.sfid, burst.number)?;
        self.flows.push(flow)?;
        Ok(())
    }

    /// Of how many flows that aren't shown a burst came.
    pub(crate) fn other_count(&self) -> usize
        ensures { result ≡ other_count (picture_in self.now) }
    {
        self.others.iter().filter(|came| **came).count()
    }

    /// Notes a flow that isn't shown.
    fn note_other(&mut self, flow: usize) -> Result<(), AllocError>
        ensures noted { OnOk result
            (picture_in self.new ≡ with_other flow (picture_in self.old)) }
        ensures refused { OnErr result (picture_in self.new ≡ picture_in self.old) }
    {
        if flow >= self.others.len() {
            self.others.resize(flow.saturating_add(1), false)?;
        }
        if let Some(came) = self.others.get_mut(flow) {
            *came = true;
        }
        Ok(())
    }

    /// Draws a burst of the flow at this place.
    fn draw_segment(&mut self, place: usize, burst: &PictureBurst)
        requires { place < length self.old.flows.items }
        ensures { picture_in self.new ≡ with_segment_at place burst.now (picture_in self.old) }
    {
        let first = self.first.unwrap_or(burst.time);
        self.first = Some(first);
        let column = self.reach(burst.time.saturating_sub(first));
        self.flows[place].take_segment(column, burst.channel, burst.number);
    }

    /// Draws marks of the flow at this place.
    fn draw_mark(&mut self, place: usize, time: u64, mark: Mark, count: u64)
        requires { place < length self.old.flows.items }
        ensures { picture_in self.new ≡ with_mark_at place time mark count (picture_in self.old) }
    {
        let first = self.first.unwrap_or(time);
        let column = self.reach(time.saturating_sub(first));
        self.flows[place].mark(column, mark, count);
    }

    /// Lets the columns be wide enough for so many nanoseconds after the first burst, and answers
    /// the column.
    fn reach(&mut self, age: u64) -> usize
        ensures reached { picture_in self.new ≡ reached age (picture_in self.old) }
        ensures column { result ≡ age / self.new.column_width }
        ensures within { result < columns_most }
        ensures flows { length self.new.flows.items ≡ length self.old.flows.items }
    {
        while age / COLUMNS as u64 >= self.column_width {
            self.double();
        }
        self.latest = self.latest.max(age);
        (age / self.column_width) as usize
    }

    /// Columns become twice as wide.
    fn double(&mut self)
        requires { self.old.column_width ≤ 2 ^ 56 }
        ensures { picture_in self.new ≡ doubled (picture_in self.old) }
    {
        halve_all(&mut self.flows);
        self.column_width *= 2;
    }
}
