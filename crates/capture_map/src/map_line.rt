//! A line of a map, by itself.
ghost use Rattle.std.specs.Prelude.{◌≡◌, ◌∷◌, IfOk, IfErr};
ghost use Rattle.text_lines.specs.Lines.{words_of};
ghost use Rattle.capture_map.specs.Line.{Says, HasFaultByItself, word_of, flow_form, channel_form};
ghost use Rattle.capture_map.specs.Line.{sid_form};

use crate::fields::{channel_said, flow_said, sid_said};
use crate::map::{MapChannel, MapFlow, MapSid};
use crate::map_fault::MapKind;
use text_lines::{only_four_words, only_three_words, only_two_words};

/// What a line of a map says.
#[derive(Clone, Copy, Debug, PartialEq, Eq)]
pub(crate) enum MapLine {
    /// A flow.
    Flow(MapFlow),
    /// A channel.
    Channel(MapChannel),
    /// A service identifier of a channel.
    Sid(MapSid),
}

/// What a line says by itself, by its first field and what follows that.
pub(crate) fn read_map_line(field: &[u8], rest: &[u8]) -> Result<MapLine, MapKind>
    ensures says { IfOk result (λ line. Says line (field.now ∷ words_of rest.now)) }
    ensures fault { IfErr result (HasFaultByItself (field.now ∷ words_of rest.now)) }
{
    if field == b"flow".as_slice() {
        read_flow(rest)
    } else if field == b"channel".as_slice() {
        read_channel(rest)
    } else if field == b"sid".as_slice() {
        read_sid(rest)
    } else {
        Err(MapKind::UnknownLine)
    }
}

/// `flow <sfid> <first>|auto <window> <clusters>`, by what follows the first word.
fn read_flow(rest: &[u8]) -> Result<MapLine, MapKind>
    ensures says { IfOk result (λ line. Says line (word_of flow_form ∷ words_of rest.now)) }
    ensures fault { IfErr result (HasFaultByItself (word_of flow_form ∷ words_of rest.now)) }
{
    let Some((sfid, first, window, clusters)) = only_four_words(rest) else {
        return Err(MapKind::FieldCount);
    };
    match flow_said(sfid, first, window, clusters) {
        Some(flow) => Ok(MapLine::Flow(flow)),
        None => Err(MapKind::BadNumber),
    }
}

/// `channel <channel> <id>`, by what follows the first word.
fn read_channel(rest: &[u8]) -> Result<MapLine, MapKind>
    ensures says { IfOk result (λ line. Says line (word_of channel_form ∷ words_of rest.now)) }
    ensures fault { IfErr result (HasFaultByItself (word_of channel_form ∷ words_of rest.now)) }
{
    let Some((channel, id)) = only_two_words(rest) else {
        return Err(MapKind::FieldCount);
    };
    match channel_said(channel, id) {
        Some(channel) => Ok(MapLine::Channel(channel)),
        None => Err(MapKind::BadNumber),
    }
}

/// `sid <channel> <sid> <flow>`, by what follows the first word.
fn read_sid(rest: &[u8]) -> Result<MapLine, MapKind>
    ensures says { IfOk result (λ line. Says line (word_of sid_form ∷ words_of rest.now)) }
    ensures fault { IfErr result (HasFaultByItself (word_of sid_form ∷ words_of rest.now)) }
{
    let Some((channel, sid, flow)) = only_three_words(rest) else {
        return Err(MapKind::FieldCount);
    };
    match sid_said(channel, sid, flow) {
        Some(row) => Ok(MapLine::Sid(row)),
        None => Err(MapKind::BadNumber),
    }
}
