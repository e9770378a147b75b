//! The text of a map.
ghost use Rattle.std.specs.Prelude.{◌≡◌, ◌++◌, flat_map, codes};
ghost use Rattle.text_lines.specs.Putting.{Puts};
ghost use Rattle.registered_map.specs.Registered.{remarks_in};
ghost use Rattle.registered_map.specs.Holding.{registered_in};
ghost use Rattle.registered_map.specs.MapText.{telling_text, flow_lines, channel_lines, sid_lines};
ghost use Rattle.registered_map.specs.MapText.{remark_words, remark_line, more_line, remarks_text};
ghost use Rattle.registered_map.specs.MapText.{map_text};

use crate::registered_map::RegisteredMap;
use crate::remarks::Remarks;
use crate::telling::{
    RegisteredChannel, RegisteredFlow, RegisteredSid, Remark, RemarkKind, Telling,
};
use crate::telling_text::put_telling;
use text_lines::{PutText, put_spaced, put_word};

/// The window that a flow is given, which no registration says.
const USUAL_WINDOW: u64 = 1024;

/// Puts the comment above a line.
fn put_comment<O: PutText>(out: &mut O, telling: Telling)
    ensures { Puts O.after out.old (codes "# " ++ telling_text telling) out.new }
{
    put_word(out, "# ");
    put_telling(out, telling);
}

/// Puts the lines of a flow.
fn put_flow<O: PutText>(out: &mut O, flow: &RegisteredFlow)
    ensures { Puts O.after out.old (flow_lines flow.now) out.new }
{
    put_comment(out, flow.telling);
    put_word(out, "flow");
    put_spaced(out, u64::from(flow.sfid));
    put_word(out, " auto");
    put_spaced(out, USUAL_WINDOW);
    put_spaced(out, u64::from(flow.clusters));
    put_word(out, "\n");
}

/// Puts the lines of a channel.
fn put_channel<O: PutText>(out: &mut O, one: &RegisteredChannel)
    ensures { Puts O.after out.old (channel_lines one.now) out.new }
{
    put_comment(out, one.telling);
    put_word(out, "channel");
    put_spaced(out, u64::from(one.channel));
    put_spaced(out, u64::from(one.id));
    put_word(out, "\n");
}

/// Puts the lines of a SID.
fn put_sid<O: PutText>(out: &mut O, row: &RegisteredSid)
    ensures { Puts O.after out.old (sid_lines row.now) out.new }
{
    put_comment(out, row.telling);
    put_word(out, "sid");
    put_spaced(out, u64::from(row.channel));
    put_spaced(out, u64::from(row.sid));
    put_spaced(out, u64::from(row.flow));
    put_word(out, "\n");
}

/// Puts why something is remarked.
fn put_kind<O: PutText>(out: &mut O, kind: RemarkKind)
    ensures { Puts O.after out.old (remark_words kind) out.new }
{
    put_word(
        out,
        match kind {
            RemarkKind::Deleted => "deleted later: ",
            RemarkKind::OfAnotherFlow => "of another flow before: ",
            RemarkKind::LeftOut => "left out, as a map can't say it: ",
        },
    );
}

/// Puts the line of a remark.
fn put_remark<O: PutText>(out: &mut O, remark: &Remark)
    ensures { Puts O.after out.old (remark_line remark.now) out.new }
{
    put_word(out, "# ");
    put_kind(out, remark.kind);
    put_word(out, "upstream channel");
    put_spaced(out, u64::from(remark.told.channel));
    put_word(out, ", SID");
    put_spaced(out, u64::from(remark.told.sid));
    put_word(out, ", flow");
    put_spaced(out, u64::from(remark.told.sfid));
    put_word(out, ", cluster");
    put_spaced(out, u64::from(remark.told.cluster));
    put_word(out, ", ");
    put_telling(out, remark.telling);
}

/// Puts how many remarks are not kept.
fn put_more<O: PutText>(out: &mut O, more: u64)
    ensures { Puts O.after out.old (more_line more) out.new }
{
    if more == 0 {
        return;
    }
    put_word(out, "# and");
    put_spaced(out, more);
    put_word(out, " more like these");
    put_word(out, "\n");
}

/// Puts the lines of flows.
fn put_flows<O: PutText>(out: &mut O, flows: &[RegisteredFlow])
    ensures { Puts O.after out.old (flat_map flow_lines flows.now) out.new }
{
    for flow in flows {
        put_flow(out, flow);
    }
}

/// Puts the lines of channels.
fn put_channels<O: PutText>(out: &mut O, channels: &[RegisteredChannel])
    ensures { Puts O.after out.old (flat_map channel_lines channels.now) out.new }
{
    for one in channels {
        put_channel(out, one);
    }
}

/// Puts the lines of SIDs.
fn put_sids<O: PutText>(out: &mut O, rows: &[RegisteredSid])
    ensures { Puts O.after out.old (flat_map sid_lines rows.now) out.new }
{
    for row in rows {
        put_sid(out, row);
    }
}

/// Puts the lines of remarks.
fn put_noted<O: PutText>(out: &mut O, noted: &[Remark])
    ensures { Puts O.after out.old (flat_map remark_line noted.now) out.new }
{
    for remark in noted {
        put_remark(out, remark);
    }
}

/// Puts remarks, and how many there were beyond those that are kept.
fn put_remarks<O: PutText>(out: &mut O, remarks: &Remarks)
    ensures { Puts O.after out.old (remarks_text (remarks_in remarks.now)) out.new }
{
    put_noted(out, &remarks.noted);
    put_more(out, remarks.more);
}

/// Puts the text of a map: the lines of its flows, channels and SIDs, each below a comment that
/// says which modem was told it, when and by which message, and then the remarks as comments. Its
/// lines but for the comments are a map that `capture_map` reads.
pub fn put_map<O: PutText>(out: &mut O, map: &RegisteredMap)
    ensures { Puts O.after out.old (map_text (registered_in map.now)) out.new }
{
    put_flows(out, &map.flows.named);
    put_channels(out, &map.channels);
    put_sids(out, &map.sids.rows);
    put_remarks(out, &map.remarks);
}
