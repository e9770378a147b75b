//! The bursts that a frame came from, by the numbers that an analyser gave them.
ghost use Rattle.std.specs.Prelude.{◌≡◌, ◌<◌, ℕ, List, [], Some, IfSome, length, take, option_map};
ghost use Rattle.std.specs.Iterator.{at_most};
ghost use Rattle.capture.specs.Fields.{Field, fields_bytes};
ghost use Rattle.capture.specs.Packet.{Parts};
ghost use Rattle.capture.specs.Seen.{field};
ghost use Rattle.capture.specs.SeenCapture.{capture_parts};

use crate::origin::{BURST, BURST_ID};
use crate::record_packet::packet_in;
use crate::tlv_number::number;
use arrayvec::ArrayVec;
use capture::{CaptureRecord, Tlv, are_tlvs, last_value, split_tlv};

/// So many bursts of a frame are looked at.
pub const MOST_BURSTS: usize = 16;

/// The numbers of the bursts that a frame came from, in order.
#[derive(Debug, Drop)]
pub struct BurstIds<'a> {
    /// The TLVs of the packet that are still to be read, end to end.
    pub tlvs: &'a [u8],
}

ghost use Rattle.frame_records.specs.Recorded.{HoldsPacket};
ghost use Rattle.frame_records.specs.BurstIds.{NamesBurst, IsFirstId, GivesId, AreBurstIds};
ghost use Rattle.frame_records.specs.BurstIds.{AreFirstBursts, most_bursts};

/// The bursts that the packet in a record names. It names none where the record doesn't hold the
/// whole of a packet of link type 273.
pub fn burst_ids(given: &CaptureRecord) -> BurstIds<'_>
    ensures held { (parts : Parts) → HoldsPacket (capture_parts given.now) parts
        → result.tlvs.now ≡ fields_bytes parts.fields }
    ensures none { ((parts : Parts) → HoldsPacket (capture_parts given.now) parts → ⊥)
        → result.tlvs.now ≡ [] }
{
    match packet_in(given) {
        Some(packet) => BurstIds { tlvs: packet.tlvs },
        None => BurstIds { tlvs: &[] },
    }
}

impl Iterator for BurstIds<'_> {
    type Item = u64;

    ghost next_gives = { GivesId };

    ghost remaining = { λ ids. at_most (length ids.tlvs.now) };

    /// The number of the next burst. A TLV 14 that isn't TLVs within, or whose last TLV 1 isn't a
    /// number of 1 to 8 bytes, names none and is passed over.
    fn next(&mut self) -> Option<u64> {
        let (id, after) = first_id(self.tlvs)?;
        self.tlvs = after;
        Some(id)
    }
}

/// The numbers of the first bursts that some TLVs name, 16 at most.
fn first_named(tlvs: &[u8]) -> ArrayVec<u64, MOST_BURSTS>
    ensures { (fields : List Field) (all : List ℕ) → tlvs.now ≡ fields_bytes fields
        → AreBurstIds fields all → result.items ≡ take most_bursts all }
{
    let mut ids = BurstIds { tlvs };
    let mut first = ArrayVec::new();
    while first.len() < MOST_BURSTS {
        match ids.next() {
            Some(id) => first.push(id),
            None => return first,
        }
    }
    first
}

/// The numbers of the first bursts that the packet in a record names, 16 at most. There are none
/// where the record doesn't hold the whole of a packet of link type 273.
pub fn first_burst_ids(given: &CaptureRecord) -> ArrayVec<u64, MOST_BURSTS>
    ensures named { AreFirstBursts (capture_parts given.now) result.items }
    ensures none { ((parts : Parts) → HoldsPacket (capture_parts given.now) parts → ⊥)
        → result.items ≡ [] }
{
    first_named(burst_ids(given).tlvs)
}

/// The number of the first burst that some TLVs name, and the TLVs behind the one that does.
fn first_id(tlvs: &[u8]) -> Option<(u64, &[u8])>
    ensures first { (fields : List Field) → tlvs.now ≡ fields_bytes fields
        → IsFirstId fields (option_map (λ split. (split.0, split.1.now)) result) }
    ensures shorter { IfSome result (λ split. length split.1.now < length tlvs.now) }
{
    let mut rest = tlvs;
    while let Some((tlv, after)) = split_tlv(rest) {
        if let Some(id) = id_in(tlv) {
            return Some((id, after));
        }
        rest = after;
    }
    None
}

/// The number by which a TLV names a burst.
fn id_in(tlv: Tlv<'_>) -> Option<u64>
    ensures found { IfSome result (NamesBurst (field tlv.entry)) }
    ensures only { (id : ℕ) → NamesBurst (field tlv.entry) id → result ≡ Some id }
{
    if tlv.kind != BURST || !are_tlvs(tlv.value) {
        return None;
    }
    let value = last_value(tlv.value, BURST_ID)?;
    number(value, 8)
}
