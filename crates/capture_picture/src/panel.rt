//! What is drawn of one flow.
ghost use Rattle.std.specs.Prelude.{◌≡◌};
ghost use Rattle.text_lines.specs.Putting.{Puts};
ghost use Rattle.capture_picture.specs.Panel.{all_marks, whole_span, mark_head, mark_stroke};
ghost use Rattle.capture_picture.specs.Panel.{mark_strokes, mark_row, mark_rows, marks_text};
ghost use Rattle.capture_picture.specs.Panel.{heading_text, index_labels, behind_labels, axis_text};
ghost use Rattle.capture_picture.specs.Panel.{panel_text};

use crate::chart::{Chart, put_chart};
use crate::column::Column;
use crate::flow_picture::FlowPicture;
use crate::grid::Grid;
use crate::marks::{ALL_MARKS, Mark, Marks};
use crate::picture::PictureChannel;
use crate::span::Span;
use crate::svg::{put_time, put_valued};
use text_lines::{PutText, put_word};

/// The marks of all columns.
fn all_marks(columns: &[Column]) -> Marks
    ensures { result ≡ all_marks columns.now }
{
    columns
        .iter()
        .fold(Marks::none(), |all, column| all.joined(column.marks))
}

/// What all channels brought in all columns, and where nothing came the index 0.
fn whole_span(columns: &[Column]) -> Span
    ensures { result ≡ whole_span columns.now }
{
    columns
        .iter()
        .fold(None, |all, column| column.with_spans(all))
        .unwrap_or(Span {
            low: 0,
            high: 0,
            behind: 0,
        })
}

/// How the row of a mark begins, up to its strokes.
fn mark_head(mark: Mark) -> &'static str
    ensures { result.now ≡ mark_head mark }
{
    match mark {
        Mark::Lost => { "<text x='-8' y='10' text-anchor='end'>lost</text><path stroke='red' d='" }
        Mark::Late => {
            "<text x='-8' y='24' text-anchor='end'>late</text>\
             <path transform='translate(0,14)' stroke='orange' d='"
        }
        Mark::BadCheck => {
            "<text x='-8' y='38' text-anchor='end'>bad checks</text>\
             <path transform='translate(0,28)' stroke='purple' d='"
        }
        Mark::Restart => {
            "<text x='-8' y='52' text-anchor='end'>restarts</text>\
             <path transform='translate(0,42)' stroke='black' d='"
        }
    }
}

/// Puts a stroke where there are marks.
fn put_mark_stroke<O: PutText>(out: &mut O, left: u64, count: u64)
    ensures { Puts O.after out.old (mark_stroke left count) out.new }
{
    if count == 0 {
        return;
    }
    put_valued(out, "M", left);
    put_word(out, " 0v10");
}

/// Puts the strokes of a mark.
fn put_mark_strokes<O: PutText>(out: &mut O, grid: &Grid, columns: &[Column], mark: Mark)
    ensures { Puts O.after out.old (mark_strokes grid.now columns.now mark) out.new }
{
    for (at, column) in columns.iter().enumerate() {
        let left = grid.column_left(at).saturating_add(grid.column / 2);
        put_mark_stroke(out, left, column.marks.of(mark));
    }
}

/// Puts the row of a mark.
fn put_mark_row<O: PutText>(out: &mut O, grid: &Grid, columns: &[Column], mark: Mark)
    ensures { Puts O.after out.old (mark_row grid.now columns.now mark) out.new }
{
    put_word(out, mark_head(mark));
    put_mark_strokes(out, grid, columns, mark);
    put_word(out, "'/>\n");
}

/// Puts the rows of these marks.
fn put_mark_rows<O: PutText>(out: &mut O, grid: &Grid, columns: &[Column], marks: &[Mark])
    ensures { Puts O.after out.old (mark_rows grid.now columns.now marks.now) out.new }
{
    for mark in marks {
        put_mark_row(out, grid, columns, *mark);
    }
}

/// Puts the strip of marks.
fn put_marks<O: PutText>(out: &mut O, grid: &Grid, columns: &[Column])
    ensures { Puts O.after out.old (marks_text grid.now columns.now) out.new }
{
    put_valued(
        out,
        "<g transform='translate(0,240)' stroke-width='",
        grid.column,
    );
    put_word(out, "'>\n");
    put_mark_rows(out, grid, columns, &ALL_MARKS);
    put_word(out, "</g>\n");
}

/// Puts which flow it is, and what was counted.
fn put_heading<O: PutText>(out: &mut O, flow: usize, sfid: u32, bursts: u64, marks: &Marks)
    ensures { Puts O.after out.old (heading_text flow sfid bursts marks.now) out.new }
{
    put_valued(
        out,
        "<text x='-130' y='16' font-size='14'>flow ",
        flow as u64,
    );
    put_valued(out, ", SFID ", u64::from(sfid));
    put_valued(out, ": ", bursts);
    put_valued(out, " bursts, lost ", marks.lost);
    put_valued(out, ", late ", marks.late);
    put_valued(out, ", bad checks ", marks.bad_checks);
    put_valued(out, ", restarts ", marks.restarts);
    put_word(out, "</text>\n");
}

/// Puts the labels of the chart of indexes.
fn put_index_labels<O: PutText>(out: &mut O, whole: Span)
    ensures { Puts O.after out.old (index_labels whole) out.new }
{
    put_valued(out, "<text x='-8' y='38' text-anchor='end'>", whole.high);
    put_word(
        out,
        "</text><text x='-8' y='132' text-anchor='end'>segment index</text>",
    );
    put_valued(out, "<text x='-8' y='228' text-anchor='end'>", whole.low);
    put_word(out, "</text>\n");
}

/// Puts the labels of the chart of how far segments lay behind.
fn put_behind_labels<O: PutText>(out: &mut O, whole: Span)
    ensures { Puts O.after out.old (behind_labels whole) out.new }
{
    put_valued(
        out,
        "<text x='0' y='314'>segments behind the newest</text>\
         <text x='-8' y='330' text-anchor='end'>",
        whole.behind,
    );
    put_word(
        out,
        "</text><text x='-8' y='380' text-anchor='end'>0</text>\n",
    );
}

/// Puts the labels of the time axis, whose end is at this time in nanoseconds.
fn put_axis<O: PutText>(out: &mut O, grid: &Grid, end: u64)
    ensures { Puts O.after out.old (axis_text grid.now end) out.new }
{
    put_valued(
        out,
        "<text x='0' y='396'>0 s</text><text text-anchor='end' y='396' x='",
        grid.plot_width(),
    );
    put_word(out, "'>");
    put_time(out, end);
    put_word(out, " s</text>\n");
}

/// Puts what is drawn of a flow, so far down.
pub(crate) fn put_panel<O: PutText>(
    out: &mut O,
    top: u64,
    flow: &FlowPicture,
    grid: &Grid,
    end: u64,
    channels: &[PictureChannel],
)
    ensures { Puts O.after out.old
        (panel_text grid.now end channels.now top flow.now) out.new }
{
    let columns = flow.columns();
    let whole = whole_span(columns);
    put_valued(out, "<g transform='translate(150,", top);
    put_word(out, ")'>\n");
    put_heading(
        out,
        flow.flow(),
        flow.sfid(),
        flow.bursts(),
        &all_marks(columns),
    );
    put_index_labels(out, whole);
    put_chart(out, Chart::Indexes, whole, grid, columns, channels);
    put_marks(out, grid, columns);
    put_behind_labels(out, whole);
    put_chart(out, Chart::Behind, whole, grid, columns, channels);
    put_axis(out, grid, end);
    put_word(out, "</g>\n");
}
