//! A packet of link type 273: a header of four bytes, TLVs, and a payload.
ghost use Rattle.std.specs.Prelude.{◌≡◌, IfSome, IsSomeAnd};

use crate::tlv::are_tlvs;

/// A packet of link type 273, of whatever type.
#[derive(Clone, Copy, Debug, PartialEq, Eq)]
pub struct Packet<'a> {
    /// The version of the format. 0, 1 and 2 are read alike, and so is any other.
    pub version: u8,
    /// The type of the packet. Its top two bits are the direction: 1 is upstream.
    pub kind: u8,
    /// The TLVs, end to end.
    pub tlvs: &'a [u8],
    /// What follows the TLVs: of a burst its bytes.
    pub payload: &'a [u8],
}

ghost use Rattle.capture.specs.Fields.{AreFields};
ghost use Rattle.capture.specs.Packet.{Parts, packet_bytes, IsPacket, SpellsPacket};

/// The packet that the bytes spell, all of them. `None` where they spell none: there are fewer than
/// four, they end before the TLVs do, or the last TLV overruns the length that the header says.
pub fn read_packet(bytes: &[u8]) -> Option<Packet<'_>>
    ensures found { IfSome result (SpellsPacket bytes.now) }
    ensures only { (parts : Parts) → bytes.now ≡ packet_bytes parts
        → IsSomeAnd result (IsPacket parts) }
{
    let packet = split_packet(bytes)?;
    if !are_tlvs(packet.tlvs) {
        return None;
    }
    Some(packet)
}

/// The packet that the bytes spell if its TLVs are whole TLVs to the end, which isn't looked at.
pub(crate) fn split_packet(bytes: &[u8]) -> Option<Packet<'_>>
    ensures found { IfSome result
        (λ packet. AreFields packet.tlvs.now → SpellsPacket bytes.now packet) }
    ensures only { (parts : Parts) → bytes.now ≡ packet_bytes parts
        → IsSomeAnd result (IsPacket parts) }
{
    let (head, rest) = bytes.split_first_chunk::<4>()?;
    let [version, kind, high, low] = *head;
    let length = usize::from(u16::from_be_bytes([high, low]));
    let (tlvs, payload) = rest.split_at_checked(length)?;
    Some(Packet {
        version,
        kind,
        tlvs,
        payload,
    })
}
