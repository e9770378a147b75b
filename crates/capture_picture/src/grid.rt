//! Where columns and channels are drawn.
ghost use Rattle.std.specs.Prelude.{◌≡◌};
ghost use Rattle.capture_picture.specs.Grid.{scaled, stroke_width, plot_width, lane_offset};
ghost use Rattle.capture_picture.specs.Grid.{column_left};

/// So many units wide a chart is at most.
pub(crate) const PLOT_UNITS: u64 = 1024;

/// How columns of time are laid out from left to right.
#[derive(Clone, Copy, Debug)]
pub(crate) struct Grid {
    /// So many columns are used.
    pub(crate) used: u64,
    /// So many units wide a column is.
    pub(crate) column: u64,
    /// So many channels share a column.
    pub(crate) channels: u64,
}

impl Grid {
    /// How wide the chart is.
    pub(crate) fn plot_width(&self) -> u64
        ensures { result ≡ plot_width self.now }
    {
        self.used.saturating_mul(self.column)
    }

    /// How wide the strokes of a channel are.
    pub(crate) fn stroke_width(&self) -> u64
        ensures { result ≡ stroke_width self.now }
    {
        (self.column / self.channels.max(1)).max(1)
    }

    /// How far from a column's left end the strokes of the channel at this place are.
    pub(crate) fn lane_offset(&self, place: usize) -> u64
        ensures { result ≡ lane_offset self.now place }
    {
        let left = (place as u64).saturating_mul(self.column) / self.channels.max(1);
        left.saturating_add(self.stroke_width() / 2)
    }

    /// Where a column's left end is.
    pub(crate) fn column_left(&self, place: usize) -> u64
        ensures { result ≡ column_left self.now place }
    {
        (place as u64).saturating_mul(self.column)
    }
}

/// How many of so many units a part of a whole takes.
pub(crate) fn scaled(part: u64, whole: u64, units: u64) -> u64
    ensures { result ≡ scaled part whole units }
{
    part.saturating_mul(units) / whole.max(1)
}
