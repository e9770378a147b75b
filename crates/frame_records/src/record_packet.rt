//! The packet of link type 273 in a record of a capture.
ghost use Rattle.std.specs.Prelude.{IfSome, IsSomeAnd};
ghost use Rattle.capture.specs.Packet.{Parts, IsPacket};
ghost use Rattle.capture.specs.SeenCapture.{capture_parts};
ghost use Rattle.frame_records.specs.Recorded.{HoldsPacket, HasPacket};

use capture::{CaptureRecord, Packet, XRA, read_packet};

/// The packet that a record holds the whole of.
pub(crate) fn packet_in(given: &CaptureRecord) -> Option<Packet<'_>>
    ensures found { IfSome result (HasPacket (capture_parts given.now)) }
    ensures only { (parts : Parts) → HoldsPacket (capture_parts given.now) parts
        → IsSomeAnd result (IsPacket parts) }
{
    if given.link_type != XRA || given.is_cut_short() {
        return None;
    }
    read_packet(&given.bytes)
}
