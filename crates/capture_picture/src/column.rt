//! A column of a flow's picture.
ghost use Rattle.std.specs.Prelude.{◌≡◌, ◌<◌, length, slice_index_or};
ghost use Rattle.std.specs.List.{fold};
ghost use Rattle.capture_picture.specs.Spans.{both_spans};
ghost use Rattle.capture_picture.specs.Columns.{columns_most, no_column, with_span, both_columns};
ghost use Rattle.capture_picture.specs.Columns.{pair_at, halved};

use crate::marks::Marks;
use crate::span::{Span, both_spans};
use lane::MOST_CHANNELS;

/// So many channels there are at most.
pub(crate) const CHANNELS: usize = MOST_CHANNELS;

/// So many columns a flow's picture has.
pub(crate) const COLUMNS: usize = 256;

/// What came of a flow in the time of a column.
#[derive(Clone, Copy, Debug)]
pub(crate) struct Column {
    /// What each channel brought.
    pub(crate) spans: [Option<Span>; CHANNELS],
    pub(crate) marks: Marks,
}

impl Column {
    /// Nothing came.
    pub(crate) fn empty() -> Column
        ensures { result ≡ no_column }
    {
        Column {
            spans: [None; CHANNELS],
            marks: Marks::none(),
        }
    }

    /// A channel brought this too. Of a channel that there isn't nothing is kept.
    pub(crate) fn add(&mut self, channel: usize, span: Span)
        ensures { self.new ≡ with_span channel span self.old }
    {
        if channel < CHANNELS {
            self.spans[channel] = both_spans(self.spans[channel], Some(span));
        }
    }

    /// What a channel brought.
    pub(crate) fn span_of(&self, channel: u8) -> Option<Span>
        ensures { result ≡ slice_index_or self.now.spans channel None }
    {
        match self.spans.get(usize::from(channel)) {
            Some(span) => *span,
            None => None,
        }
    }

    /// What all channels brought, besides this.
    pub(crate) fn with_spans(&self, all: Option<Span>) -> Option<Span>
        ensures { result ≡ fold both_spans all self.now.spans }
    {
        self.spans
            .iter()
            .fold(all, |all, span| both_spans(all, *span))
    }

    /// What came in both.
    pub(crate) fn joined(&self, other: &Column) -> Column
        ensures { result ≡ both_columns self.now other.now }
    {
        let mut spans = self.spans;
        for channel in 0..CHANNELS {
            spans[channel] = both_spans(spans[channel], other.spans[channel]);
        }
        Column {
            spans,
            marks: self.marks.joined(other.marks),
        }
    }
}

/// A column, or an empty one past the last.
fn column_at(columns: &[Column], place: usize) -> Column
    ensures { result ≡ slice_index_or columns.now place no_column }
{
    match columns.get(place) {
        Some(column) => *column,
        None => Column::empty(),
    }
}

/// What came in the two columns that become the one at this place.
fn pair_at(columns: &[Column], place: usize) -> Column
    requires { place < columns_most }
    ensures { result ≡ pair_at columns.now place }
{
    column_at(columns, 2 * place).joined(&column_at(columns, 2 * place + 1))
}

/// Each two neighbours become one, and the other half is empty.
pub(crate) fn halve(columns: &mut [Column])
    requires { length columns.old ≡ columns_most }
    ensures { columns.new ≡ halved columns.old }
{
    for place in 0..COLUMNS {
        columns[place] = pair_at(columns, place);
    }
}
