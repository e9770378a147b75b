//! The MAC frames that an analyser has recorded beside its bursts.
ghost use Rattle.std.specs.Prelude.{◌≡◌, List, Some, IfSome, option_map};

use crate::origin::{CHANNEL, SID};
use crate::record_packet::packet_in;
use crate::tlv_number::number;
use capture::{CaptureRecord, Packet, last_value};

/// The type of a packet that holds an upstream MAC frame.
const MAC_FRAME: u8 = 80;

/// A MAC frame that an analyser recorded. Of a TLV that stands twice the last one counts.
#[derive(Clone, Copy, Debug, PartialEq, Eq)]
pub struct RecordedFrame<'a> {
    /// The time of its record, in nanoseconds since the beginning of 1970.
    pub time: u64,
    /// The upstream channel id: TLV 10, of 1 to 4 bytes.
    pub channel: u32,
    /// TLV 11, of 1 to 4 bytes.
    pub sid: u32,
    /// The bytes of the frame, which may be none.
    pub frame: &'a [u8],
}

ghost use Rattle.capture.specs.Fields.{Field, fields_bytes};
ghost use Rattle.capture.specs.Packet.{Parts, IsPacket};
ghost use Rattle.capture.specs.SeenCapture.{capture_parts};
ghost use Rattle.frame_records.specs.Recorded.{FrameParts, HoldsFrame, frame_parts, recorded_of};
ghost use Rattle.frame_records.specs.Recorded.{number_at};

/// The frame that a record of a capture holds. `None` where its link type isn't 273, the capture
/// kept fewer bytes than the packet had, the bytes spell no packet, its type isn't 80, or there is
/// no TLV 10, the channel, or no TLV 11, the SID, or the last one of them has no bytes or more than
/// four.
pub fn recorded_frame(given: &CaptureRecord) -> Option<RecordedFrame<'_>>
    // What is found is in the record.
    ensures found { IfSome result (λ found.
        HoldsFrame (capture_parts given.now) (frame_parts found)) }
    // And a frame that is in the record is found, and no other.
    ensures only { (frame : FrameParts) → HoldsFrame (capture_parts given.now) frame
        → option_map frame_parts result ≡ Some frame }
{
    let packet = packet_in(given)?;
    frame_in(given.nanoseconds, &packet)
}

/// The frame that a packet holds, recorded at this time.
fn frame_in<'a>(time: u64, packet: &Packet<'a>) -> Option<RecordedFrame<'a>>
    ensures { (parts : Parts) → IsPacket parts packet.now
        → option_map frame_parts result ≡ recorded_of time parts }
{
    if packet.kind != MAC_FRAME {
        return None;
    }
    let channel = number_at(packet.tlvs, CHANNEL)?;
    let sid = number_at(packet.tlvs, SID)?;
    Some(RecordedFrame {
        time,
        channel,
        sid,
        frame: packet.payload,
    })
}

/// The number of 1 to 4 bytes that the last TLV of a type is.
fn number_at(tlvs: &[u8], kind: u8) -> Option<u32>
    ensures { (fields : List Field) → tlvs.now ≡ fields_bytes fields
        → result ≡ number_at kind fields }
{
    let value = last_value(tlvs, kind)?;
    match number(value, 4) {
        Some(number) => Some(number as u32),
        None => None,
    }
}
