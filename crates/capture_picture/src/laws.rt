//! What follows from the definitions alone.
ghost use Rattle.std.specs.Prelude.{◌≡◌, ℕ, ◌+◌, ◌*◌, ◌/◌, ◌%◌, ◌^◌, ◌<◌, ◌≤◌, List, length, Some};
ghost use Rattle.std.specs.List.{All};
ghost use Rattle.capture_picture.specs.Index.{numbers, nearest_index};
ghost use Rattle.capture_picture.specs.Columns.{channels_most, columns_most, with_span, halved};
ghost use Rattle.capture_picture.specs.ShownFlow.{changed_at};
ghost use Rattle.capture_picture.specs.Picture.{Picture, reached};
ghost use Rattle.capture_picture.specs.Covering.{Covers, span_at, HasAllChannels};
ghost use Rattle.capture_picture.specs.declared.column.Column.{Column};
ghost use Rattle.capture_picture.specs.declared.span.Span.{Span};

/// Columns become wide enough: the column of an age is one of the 256.
pub fn columns_reach_each_age()
    ensures { (age : ℕ) (picture : Picture) → 0 < picture.column_width
        → age / (reached age picture).column_width < columns_most }
{}

/// Where no end of the indexes is near, a segment's index has its number, and lies at most 4,096
/// below the newest one or 4,095 above it.
pub fn indexes_are_nearest_to_the_newest()
    ensures number { (newest number : ℕ) → 4096 ≤ newest → newest + 4096 < 2 ^ 64
        → nearest_index newest number % numbers ≡ number % numbers }
    ensures below { (newest number : ℕ) → newest < 2 ^ 64
        → newest ≤ nearest_index newest number + 4096 }
    ensures above { (newest number : ℕ) → nearest_index newest number ≤ newest + 4095 }
{}

/// What a channel brought is within what is drawn of it in the column.
pub fn spans_are_drawn()
    ensures { (columns : List Column) (column channel : ℕ) (span : Span)
        → All HasAllChannels columns → column < length columns → channel < channels_most
        → Covers (span_at (changed_at column (with_span channel span) columns) column channel)
        (Some span) }
{}

/// What is drawn of a channel in a column is within what is drawn of it where two columns became
/// one.
pub fn spans_stay_where_columns_become_one()
    ensures { (columns : List Column) (column channel : ℕ)
        → All HasAllChannels columns → column < length columns → channel < channels_most
        → Covers (span_at (halved columns) (column / 2) channel) (span_at columns column channel) }
{}
