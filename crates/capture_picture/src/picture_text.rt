//! The picture of a capture.
ghost use Rattle.std.specs.Prelude.{◌≡◌, ◌≤◌, ◌<◌, length};
ghost use Rattle.text_lines.specs.Putting.{Puts};
ghost use Rattle.capture_picture.specs.Picture.{picture_in};
ghost use Rattle.capture_picture.specs.Columns.{channels_most};
ghost use Rattle.capture_picture.specs.ShownFlow.{flows_most};
ghost use Rattle.capture_picture.specs.PictureText.{panels_top, picture_height, entry_text};
ghost use Rattle.capture_picture.specs.PictureText.{entries_text, legend_text, panels_text};
ghost use Rattle.capture_picture.specs.PictureText.{others_text, opening_text, picture_text};

use crate::colours::colour_of;
use crate::flow_picture::FlowPicture;
use crate::grid::Grid;
use crate::panel::put_panel;
use crate::picture::{CapturePicture, PictureChannel};
use crate::svg::put_valued;
use text_lines::{PutText, put_word};

/// So many units high what is drawn of a flow is.
const PANEL_HEIGHT: u64 = 430;

/// So many channels stand in a row of the legend.
const ROW_CHANNELS: usize = 6;

/// How far down the first flow is drawn, below the legend of so many channels.
fn panels_top(channels: usize) -> u64
    requires { channels ≤ channels_most }
    ensures { result ≡ panels_top channels }
{
    64 + 20 * ((channels + ROW_CHANNELS - 1) / ROW_CHANNELS) as u64
}

/// How high the picture of so many channels and flows is.
fn picture_height(channels: usize, flows: usize) -> u64
    requires channels { channels ≤ channels_most }
    requires flows { flows ≤ flows_most }
    ensures { result ≡ picture_height channels flows }
{
    panels_top(channels) + PANEL_HEIGHT * flows as u64 + 30
}

/// Puts the entry of a channel at a place of the legend.
fn put_entry<O: PutText>(out: &mut O, place: usize, channel: PictureChannel)
    requires { place < channels_most }
    ensures { Puts O.after out.old (entry_text place channel) out.new }
{
    put_valued(
        out,
        "<g transform='translate(",
        190 * (place % ROW_CHANNELS) as u64,
    );
    put_valued(out, ",", 20 * (place / ROW_CHANNELS) as u64);
    put_word(out, ")'><rect width='14' height='14' fill='");
    out.put(&colour_of(channel.channel));
    put_valued(
        out,
        "'/><text x='20' y='12'>channel ",
        u64::from(channel.channel),
    );
    put_valued(out, " (id ", u64::from(channel.id));
    put_word(out, ")</text></g>\n");
}

/// Puts the legend.
fn put_legend<O: PutText>(out: &mut O, channels: &[PictureChannel])
    requires { length channels.now ≤ channels_most }
    ensures { Puts O.after out.old (legend_text channels.now) out.new }
{
    put_word(out, "<g transform='translate(20,44)'>\n");
    put_entries(out, channels);
    put_word(out, "</g>\n");
}

/// Puts the entries of the legend.
fn put_entries<O: PutText>(out: &mut O, channels: &[PictureChannel])
    requires { length channels.now ≤ channels_most }
    ensures { Puts O.after out.old (entries_text channels.now) out.new }
{
    for (place, channel) in channels.iter().enumerate() {
        put_entry(out, place, *channel);
    }
}

/// Puts what is drawn of flows, one below the other.
fn put_panels<O: PutText>(
    out: &mut O,
    flows: &[FlowPicture],
    grid: &Grid,
    end: u64,
    channels: &[PictureChannel],
)
    requires flows { length flows.now ≤ flows_most }
    requires channels { length channels.now ≤ channels_most }
    ensures { Puts O.after out.old
        (panels_text grid.now end channels.now flows.now) out.new }
{
    let top = panels_top(channels.len());
    for (place, flow) in flows.iter().enumerate() {
        put_panel(
            out,
            top + PANEL_HEIGHT * place as u64,
            flow,
            grid,
            end,
            channels,
        );
    }
}

/// Puts how many flows aren't shown, if some aren't, at the foot of a picture of this height.
fn put_others<O: PutText>(out: &mut O, height: u64, others: usize)
    ensures { Puts O.after out.old (others_text height others) out.new }
{
    if others == 0 {
        return;
    }
    put_valued(out, "<text x='20' y='", height.saturating_sub(14));
    put_valued(out, "'>flows that are not shown: ", others as u64);
    put_word(out, "</text>\n");
}

/// Puts how the picture begins, of this height.
fn put_opening<O: PutText>(out: &mut O, height: u64)
    ensures { Puts O.after out.old (opening_text height) out.new }
{
    put_valued(
        out,
        "<svg xmlns='http://www.w3.org/2000/svg' viewBox='0 0 1200 ",
        height,
    );
    put_valued(out, "' width='1200' height='", height);
    put_valued(
        out,
        "' font-family='sans-serif' font-size='12' shape-rendering='crispEdges'>\n\
         <rect width='1200' height='",
        height,
    );
    put_word(
        out,
        "' fill='white'/>\n<text x='20' y='28' font-size='18'>Segments of a capture</text>\n",
    );
}

/// Puts the picture of a capture, as SVG: a legend of the channels; for each flow that is shown
/// what was counted, a chart of the indexes that each channel brought, the marks, and a chart of
/// how far each channel lay behind the flow's newest segment, over the same time; and how many
/// flows aren't shown.
pub fn put_picture<O: PutText>(out: &mut O, picture: &CapturePicture)
    ensures { Puts O.after out.old (picture_text (picture_in picture.now)) out.new }
{
    let grid = picture.grid();
    let height = picture_height(picture.channels.len(), picture.flows.len());
    put_opening(out, height);
    put_legend(out, &picture.channels);
    put_panels(out, &picture.flows, &grid, picture.end(), &picture.channels);
    put_others(out, height, picture.other_count());
    put_word(out, "</svg>\n");
}
