//! The table of what was seen.
ghost use Rattle.std.specs.Prelude.{take};
ghost use Rattle.text_lines.specs.Putting.{Puts};
ghost use Rattle.seen_sids.specs.Seen.{seen_in};
ghost use Rattle.seen_sids.specs.SeenText.{sid_text, numbers_text, twin_text, row_line, rows_text};
ghost use Rattle.seen_sids.specs.SeenText.{others_line, seen_text};

use crate::guess::twin_of;
use crate::seen::SeenSids;
use crate::seen_sid::SeenSid;
use text_lines::{PutText, put_spaced, put_word};

/// Puts a SID of a channel.
fn put_sid<O: PutText>(out: &mut O, row: &SeenSid)
    ensures { Puts O.after out.old (sid_text row.now) out.new }
{
    put_word(out, "channel");
    put_spaced(out, u64::from(row.channel));
    put_word(out, ", SID");
    put_spaced(out, u64::from(row.sid));
}

/// Puts the first number of a SID and the last.
fn put_numbers<O: PutText>(out: &mut O, row: &SeenSid)
    ensures { Puts O.after out.old (numbers_text row.now row.now.last) out.new }
{
    match row.last {
        None => put_word(out, ", no number"),
        Some(last) => {
            put_word(out, ", numbers");
            put_spaced(out, u64::from(row.kept[0]));
            put_word(out, " to");
            put_spaced(out, u64::from(last));
        }
    }
}

/// Puts the SID with which another one looks like one flow.
fn put_twin<O: PutText>(out: &mut O, twin: Option<SeenSid>)
    ensures { Puts O.after out.old (twin_text twin) out.new }
{
    if let Some(twin) = twin {
        put_word(out, "; a guess: of one flow with ");
        put_sid(out, &twin);
    }
}

/// Puts the line of a SID behind these.
fn put_row<O: PutText>(out: &mut O, above: &[SeenSid], row: &SeenSid)
    ensures { Puts O.after out.old (row_line above.now row.now) out.new }
{
    put_word(out, "# ");
    put_sid(out, row);
    put_word(out, ": segments");
    put_spaced(out, row.segments);
    put_word(out, ", bad checks");
    put_spaced(out, row.bad);
    put_numbers(out, row);
    put_twin(out, twin_of(above, row));
    put_word(out, "\n");
}

/// Puts the lines of all SIDs.
fn put_rows<O: PutText>(out: &mut O, rows: &[SeenSid])
    ensures { Puts O.after out.old (rows_text rows.now) out.new }
{
    for (place, row) in rows.iter().enumerate() {
        put_row(out, &rows[..place], row);
    }
}

/// Puts how many segments of other SIDs there were.
fn put_others<O: PutText>(out: &mut O, others: u64)
    ensures { Puts O.after out.old (others_line others) out.new }
{
    if others == 0 {
        return;
    }
    put_word(out, "# segments of other SIDs:");
    put_spaced(out, others);
    put_word(out, "\n");
}

/// Puts the table of what was seen, of comments.
pub fn put_seen<O: PutText>(out: &mut O, seen: &SeenSids)
    ensures { Puts O.after out.old (seen_text (seen_in seen.now)) out.new }
{
    put_word(
        out,
        "# No registration tells the SID of a flow. What was seen of segments, by upstream channel and SID:\n",
    );
    put_rows(out, &seen.rows);
    put_others(out, seen.others);
}
