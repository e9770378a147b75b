//! The upstream bursts among the packets of link type 273.
ghost use Rattle.std.specs.Prelude.{◌≡◌, ◌⊎◌, ℕ, List, IfOk, IsSomeAnd, OnSome};

use crate::numbers::number;
use crate::packet::{Packet, split_packet};
use crate::tlv::{Tlv, split_tlv};

/// The type of a packet that holds a TDMA burst.
const TDMA_BURST: u8 = 65;
/// The type of a packet that holds an OFDMA data burst.
const OFDMA_DATA_BURST: u8 = 72;

/// The type of the TLV with the upstream channel id.
const CHANNEL: u8 = 10;
/// The type of the TLV with the SID.
const SID: u8 = 11;
/// The type of the TLV with the analyser's number of the burst.
const BURST_ID: u8 = 13;
/// The type of the TLV with the grant's size in bits.
const GRANT_SIZE: u8 = 17;
/// The type of the TLV that says whether the burst begins with a segment header.
const SEGMENT_HEADER_PRESENT: u8 = 18;

/// Of a grant's size the low 24 bits count: it is taken modulo this.
const GRANT_MODULUS: u32 = 0x100_0000;
/// A segment has a header of so many bytes, and no burst with one is shorter.
const SEGMENT_HEADER_BYTES: usize = 8;

/// How a burst was sent.
#[derive(Clone, Copy, Debug, PartialEq, Eq)]
pub enum BurstKind {
    /// A burst on a TDMA channel: packet type 65.
    Tdma,
    /// A data burst on an OFDMA channel: packet type 72.
    Ofdma,
}

/// Why a packet is passed over.
#[derive(Clone, Copy, Debug, PartialEq, Eq)]
pub enum Passed {
    /// The capture kept fewer bytes than the packet had.
    CutShort,
    /// The packet's type is neither 65 nor 72, so it holds no segment.
    OtherType,
    /// The bytes spell no packet, a number of the burst has no bytes or too many, or the burst is
    /// said to have a segment header and has fewer than eight bytes.
    Malformed,
    /// TLV 18 isn't there or is 0: the burst has no segment header.
    NoSegmentHeader,
    /// The burst has a segment header, but no TLV 10, its channel, or no TLV 11, its SID.
    NoChannelOrSid,
}

/// A burst with a segment header, as it was captured. Of a TLV that stands twice the last one
/// counts.
#[derive(Clone, Copy, Debug, PartialEq, Eq)]
pub struct Burst<'a> {
    pub kind: BurstKind,
    /// The upstream channel id: TLV 10, of 1 to 4 bytes.
    pub channel: u32,
    /// TLV 11, of 1 to 4 bytes.
    pub sid: u32,
    /// The grant's size in bits, below 2^24: the low 24 bits of TLV 17, of 1 to 4 bytes, where it
    /// is there.
    pub grant_bits: Option<u32>,
    /// The analyser's number of the burst: TLV 13, of 1 to 8 bytes, where it is there.
    pub burst_id: Option<u64>,
    /// The bytes of the burst, eight or more: a segment header and its payload.
    pub bytes: &'a [u8],
}

/// The values of a burst's TLVs, each the last of its type.
#[derive(Clone, Copy, Debug, PartialEq, Eq)]
struct LastValues<'a> {
    segment_header: Option<&'a [u8]>,
    channel: Option<&'a [u8]>,
    sid: Option<&'a [u8]>,
    grant: Option<&'a [u8]>,
    burst_id: Option<&'a [u8]>,
}

/// The numbers that these values are.
#[derive(Clone, Copy, Debug, PartialEq, Eq)]
struct BurstNumbers {
    segment_header: Option<u32>,
    channel: Option<u32>,
    sid: Option<u32>,
    grant: Option<u32>,
    burst_id: Option<u64>,
}

ghost use Rattle.capture.specs.Packet.{Parts, packet_bytes, IsPacket};
ghost use Rattle.capture.specs.Fields.{Field, AreFields, fields_bytes};
ghost use Rattle.capture.specs.Burst.{Gives, burst_of, burst_of_values, kind_of, values_of};
ghost use Rattle.capture.specs.Burst.{number_said, numbers_of, burst_from, low_24_bits};
ghost use Rattle.capture.specs.Inside.Newer.{value_with};
ghost use Rattle.capture.specs.Seen.{field, value_seen};
ghost use Rattle.capture.specs.SeenBurst.{SpellsBurst, burst_parts, numbers_seen, values_seen};

/// The burst that the bytes of a packet of link type 273 hold. What is asked first is the first
/// that [`Passed`] tells: whether the bytes are a packet, its type, the size of each number, TLV
/// 18, the length of the burst, and at last its channel and SID.
pub fn read_burst(bytes: &[u8]) -> Result<Burst<'_>, Passed>
    // Of bytes that spell a packet: what the list of its TLVs says.
    ensures spelled { (parts : Parts) → bytes.now ≡ packet_bytes parts
        → Gives burst_parts result (burst_of parts) }
    // Bytes that spell no packet are malformed.
    ensures unspelled { ((parts : Parts) → bytes.now ≡ packet_bytes parts → ⊥)
        → result ≡ Err Passed.Malformed }
    // What is found is in the bytes.
    ensures found { IfOk result (SpellsBurst bytes.now) }
{
    match split_packet(bytes) {
        Some(packet) => burst_in(&packet),
        None => Err(Passed::Malformed),
    }
}

/// The burst in a packet, if its TLVs are whole TLVs to the end.
fn burst_in<'a>(packet: &Packet<'a>) -> Result<Burst<'a>, Passed>
    ensures read { (parts : Parts) → IsPacket parts packet.now
        → Gives burst_parts result (burst_of parts) }
    ensures whole { AreFields packet.now.tlvs.now ⊎ (result ≡ Err Passed.Malformed) }
{
    match last_values(packet.tlvs) {
        Some(values) => burst_of_values(packet.kind, values, packet.payload),
        None => Err(Passed::Malformed),
    }
}

/// The last value of each type that matters, by one pass over the TLVs. `None` where they aren't
/// whole TLVs to the end.
fn last_values(tlvs: &[u8]) -> Option<LastValues<'_>>
    ensures whole { OnSome result (AreFields tlvs.now) }
    ensures values { (fields : List Field) → tlvs.now ≡ fields_bytes fields
        → IsSomeAnd result (λ values. values_seen values ≡ values_of fields) }
{
    let mut values = LastValues {
        segment_header: None,
        channel: None,
        sid: None,
        grant: None,
        burst_id: None,
    };
    let mut rest = tlvs;
    while let Some((tlv, after)) = split_tlv(rest) {
        values = with_tlv(values, tlv);
        rest = after;
    }
    if rest.is_empty() { Some(values) } else { None }
}

/// The last values once this TLV was passed too.
fn with_tlv<'a>(mut values: LastValues<'a>, tlv: Tlv<'a>) -> LastValues<'a>
    ensures segment_header { value_seen result.segment_header
        ≡ value_with 18 (field tlv.entry) (value_seen values.entry.segment_header) }
    ensures channel { value_seen result.channel
        ≡ value_with 10 (field tlv.entry) (value_seen values.entry.channel) }
    ensures sid { value_seen result.sid
        ≡ value_with 11 (field tlv.entry) (value_seen values.entry.sid) }
    ensures grant { value_seen result.grant
        ≡ value_with 17 (field tlv.entry) (value_seen values.entry.grant) }
    ensures burst_id { value_seen result.burst_id
        ≡ value_with 13 (field tlv.entry) (value_seen values.entry.burst_id) }
{
    let value = Some(tlv.value);
    match tlv.kind {
        SEGMENT_HEADER_PRESENT => values.segment_header = value,
        CHANNEL => values.channel = value,
        SID => values.sid = value,
        GRANT_SIZE => values.grant = value,
        BURST_ID => values.burst_id = value,
        _ => {}
    }
    values
}

/// The burst that a packet of this type holds, by the last values of its TLVs.
fn burst_of_values<'a>(
    kind: u8,
    values: LastValues<'_>,
    payload: &'a [u8],
) -> Result<Burst<'a>, Passed>
    ensures { Gives burst_parts result
        (burst_of_values kind (values_seen values.entry) payload.now) }
{
    let kind = kind_of(kind)?;
    let numbers = numbers_of(values)?;
    burst_from(kind, numbers, payload)
}

/// How a burst was sent that a packet of this type holds.
fn kind_of(kind: u8) -> Result<BurstKind, Passed>
    ensures { result ≡ kind_of kind }
{
    match kind {
        TDMA_BURST => Ok(BurstKind::Tdma),
        OFDMA_DATA_BURST => Ok(BurstKind::Ofdma),
        _ => Err(Passed::OtherType),
    }
}

/// The number of 1 to 4 bytes that a value is, if there is one.
fn short_number(value: Option<&[u8]>) -> Result<Option<u32>, Passed>
    ensures { result ≡ number_said 4 (value_seen value.entry) }
{
    match value {
        None => Ok(None),
        Some(value) => match number(value, 4) {
            Some(number) => Ok(Some(number as u32)),
            None => Err(Passed::Malformed),
        },
    }
}

/// The number of 1 to 8 bytes that a value is, if there is one.
fn long_number(value: Option<&[u8]>) -> Result<Option<u64>, Passed>
    ensures { result ≡ number_said 8 (value_seen value.entry) }
{
    match value {
        None => Ok(None),
        Some(value) => match number(value, 8) {
            Some(number) => Ok(Some(number)),
            None => Err(Passed::Malformed),
        },
    }
}

/// The numbers that the values are.
fn numbers_of(values: LastValues<'_>) -> Result<BurstNumbers, Passed>
    ensures { Gives numbers_seen result (numbers_of (values_seen values.entry)) }
{
    Ok(BurstNumbers {
        segment_header: short_number(values.segment_header)?,
        channel: short_number(values.channel)?,
        sid: short_number(values.sid)?,
        grant: short_number(values.grant)?,
        burst_id: long_number(values.burst_id)?,
    })
}

/// The burst with these numbers and bytes.
fn burst_from(kind: BurstKind, numbers: BurstNumbers, bytes: &[u8]) -> Result<Burst<'_>, Passed>
    ensures { Gives burst_parts result (burst_from kind (numbers_seen numbers) bytes.now) }
{
    if numbers.segment_header.unwrap_or(0) == 0 {
        return Err(Passed::NoSegmentHeader);
    }
    if bytes.len() < SEGMENT_HEADER_BYTES {
        return Err(Passed::Malformed);
    }
    let (Some(channel), Some(sid)) = (numbers.channel, numbers.sid) else {
        return Err(Passed::NoChannelOrSid);
    };
    Ok(Burst {
        kind,
        channel,
        sid,
        grant_bits: low_24_bits(numbers.grant),
        burst_id: numbers.burst_id,
        bytes,
    })
}

/// The low 24 bits of a grant's size.
fn low_24_bits(bits: Option<u32>) -> Option<u32>
    ensures { result ≡ low_24_bits bits }
{
    match bits {
        Some(bits) => Some(bits % GRANT_MODULUS),
        None => None,
    }
}
