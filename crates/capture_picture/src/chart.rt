//! The strokes of a chart.
ghost use Rattle.std.specs.Prelude.{◌≡◌};
ghost use Rattle.text_lines.specs.Putting.{Puts};
ghost use Rattle.capture_picture.specs.Grid.{stroke_left};
ghost use Rattle.capture_picture.specs.Charts.{chart_head, frame_end, index_height, index_stroke};
ghost use Rattle.capture_picture.specs.Charts.{behind_stroke, stroke_text, channel_strokes};
ghost use Rattle.capture_picture.specs.Charts.{channel_path, channel_paths, chart_text};

use crate::colours::colour_of;
use crate::column::Column;
use crate::grid::{Grid, scaled};
use crate::picture::PictureChannel;
use crate::span::Span;
use crate::svg::put_valued;
use text_lines::{PutText, put_word};

/// What is drawn of each channel over time.
#[derive(Clone, Copy, Debug, PartialEq, Eq)]
pub(crate) enum Chart {
    /// From the least to the greatest index.
    Indexes,
    /// How far segments lay behind the newest one.
    Behind,
}

impl Chart {
    /// How its group begins, up to the width of strokes.
    fn head(self) -> &'static str
        ensures { result.now ≡ chart_head self }
    {
        match self {
            Chart::Indexes => "<g transform='translate(0,28)' fill='none' stroke-width='",
            Chart::Behind => "<g transform='translate(0,320)' fill='none' stroke-width='",
        }
    }

    /// How its frame ends, from behind the width.
    fn frame_end(self) -> &'static str
        ensures { result.now ≡ frame_end self }
    {
        match self {
            Chart::Indexes => "' height='200' stroke='#999' stroke-width='1'/>\n",
            Chart::Behind => "' height='60' stroke='#999' stroke-width='1'/>\n",
        }
    }
}

/// How high an index is drawn above the least one.
fn index_height(whole: Span, index: u64) -> u64
    ensures { result ≡ index_height whole index }
{
    scaled(
        index.saturating_sub(whole.low),
        whole.high.saturating_sub(whole.low),
        197,
    )
}

/// Puts a stroke from the greatest index down to the least.
fn put_index_stroke<O: PutText>(out: &mut O, whole: Span, left: u64, span: Span)
    ensures { Puts O.after out.old (index_stroke whole left span) out.new }
{
    let high = index_height(whole, span.high);
    let low = index_height(whole, span.low);
    put_valued(out, "M", left);
    put_valued(out, " ", 197u64.saturating_sub(high));
    put_valued(out, "v", high.saturating_sub(low).saturating_add(3));
}

/// Puts a short stroke as high as a segment lay behind.
fn put_behind_stroke<O: PutText>(out: &mut O, whole: Span, left: u64, span: Span)
    ensures { Puts O.after out.old (behind_stroke whole left span) out.new }
{
    put_valued(out, "M", left);
    put_valued(
        out,
        " ",
        57u64.saturating_sub(scaled(span.behind, whole.behind, 57)),
    );
    put_word(out, "v3");
}

/// Puts what is drawn of what a channel brought in a column, if it brought something.
fn put_stroke<O: PutText>(out: &mut O, chart: Chart, whole: Span, left: u64, span: Option<Span>)
    ensures { Puts O.after out.old (stroke_text chart whole left span) out.new }
{
    let Some(span) = span else {
        return;
    };
    match chart {
        Chart::Indexes => put_index_stroke(out, whole, left, span),
        Chart::Behind => put_behind_stroke(out, whole, left, span),
    }
}

/// Where the strokes of the channel at a place stand in the column at another.
fn stroke_left(grid: &Grid, place: usize, column: usize) -> u64
    ensures { result ≡ stroke_left grid.now place column }
{
    grid.column_left(column)
        .saturating_add(grid.lane_offset(place))
}

/// Puts the strokes of the channel at a place.
fn put_channel_strokes<O: PutText>(
    out: &mut O,
    chart: Chart,
    whole: Span,
    grid: &Grid,
    place: usize,
    channel: u8,
    columns: &[Column],
)
    ensures { Puts O.after out.old
        (channel_strokes chart whole grid.now place channel columns.now) out.new }
{
    for (at, column) in columns.iter().enumerate() {
        let left = stroke_left(grid, place, at);
        put_stroke(out, chart, whole, left, column.span_of(channel));
    }
}

/// Puts the path of the channel at a place.
fn put_channel_path<O: PutText>(
    out: &mut O,
    chart: Chart,
    whole: Span,
    grid: &Grid,
    place: usize,
    channel: u8,
    columns: &[Column],
)
    ensures { Puts O.after out.old
        (channel_path chart whole grid.now columns.now place channel) out.new }
{
    put_word(out, "<path stroke='");
    out.put(&colour_of(channel));
    put_word(out, "' d='");
    put_channel_strokes(out, chart, whole, grid, place, channel, columns);
    put_word(out, "'/>\n");
}

/// Puts the paths of channels.
fn put_channel_paths<O: PutText>(
    out: &mut O,
    chart: Chart,
    whole: Span,
    grid: &Grid,
    columns: &[Column],
    channels: &[PictureChannel],
)
    ensures { Puts O.after out.old
        (channel_paths chart whole grid.now columns.now channels.now) out.new }
{
    for (place, channel) in channels.iter().enumerate() {
        put_channel_path(out, chart, whole, grid, place, channel.channel, columns);
    }
}

/// Puts a chart: a frame, and a path for each channel.
pub(crate) fn put_chart<O: PutText>(
    out: &mut O,
    chart: Chart,
    whole: Span,
    grid: &Grid,
    columns: &[Column],
    channels: &[PictureChannel],
)
    ensures { Puts O.after out.old
        (chart_text chart whole grid.now columns.now channels.now) out.new }
{
    put_valued(out, chart.head(), grid.stroke_width());
    put_valued(out, "'>\n<rect width='", grid.plot_width());
    put_word(out, chart.frame_end());
    put_channel_paths(out, chart, whole, grid, columns, channels);
    put_word(out, "</g>\n");
}
