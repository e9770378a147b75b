//! The header of a pcap file, and the header of each record in it.
ghost use Rattle.std.specs.Prelude.{◌≡◌, length, IfSome, IfNone};
ghost use Rattle.capture.specs.Pcap.{header_bytes, head_bytes, magic_said, FitsHead, FitsHeader};

use crate::endian::Endian;

/// The header of a pcap file has so many bytes.
pub const PCAP_HEADER_BYTES: usize = 24;
/// The header of a record of a pcap file has so many bytes.
pub const RECORD_HEADER_BYTES: usize = 16;

/// The unit of a record's fraction of a second.
#[derive(Clone, Copy, Debug, PartialEq, Eq)]
pub enum Resolution {
    /// Magic a1b2c3d4.
    Microseconds,
    /// Magic a1b23c4d.
    Nanoseconds,
}

/// The header of a pcap file: its first 24 bytes.
#[derive(Clone, Copy, Debug, PartialEq, Eq)]
pub struct PcapHeader {
    /// The order in which the bytes of all numbers of the file's headers stand.
    pub endian: Endian,
    pub resolution: Resolution,
    /// The version of the format, 2 in files of today. It is kept as it came.
    pub major: u16,
    /// The version's second part, 4 in files of today. It is kept as it came.
    pub minor: u16,
    /// Reserved: kept as it came.
    pub zone: u32,
    /// Reserved: kept as it came.
    pub accuracy: u32,
    /// The most bytes of a packet that are captured. It is kept as it came, and not believed.
    pub snap_length: u32,
    /// The type of the packets: 273 for those of an XRA analyser.
    pub link_type: u32,
}

/// The header of a record of a pcap file: sixteen bytes before the packet's.
#[derive(Clone, Copy, Debug, PartialEq, Eq)]
pub struct RecordHead {
    /// Seconds since the beginning of 1970.
    pub seconds: u32,
    /// What passed of the second, in the unit that the file's header says.
    pub fraction: u32,
    /// How many bytes of the packet follow.
    pub captured: u32,
    /// How many bytes the packet had.
    pub original: u32,
}

/// The order and the unit that a magic number says, read with its most significant byte first.
fn magic_said(magic: u32) -> Option<(Endian, Resolution)>
    ensures { result ≡ magic_said magic }
{
    match magic {
        0xA1B2_C3D4 => Some((Endian::Big, Resolution::Microseconds)),
        0xA1B2_3C4D => Some((Endian::Big, Resolution::Nanoseconds)),
        0xD4C3_B2A1 => Some((Endian::Little, Resolution::Microseconds)),
        0x4D3C_B2A1 => Some((Endian::Little, Resolution::Nanoseconds)),
        _ => None,
    }
}

/// The header that 24 bytes spell, or `None` where they don't begin with a magic number of pcap.
pub(crate) fn read_pcap_header(bytes: &[u8]) -> Option<PcapHeader>
    requires { length bytes.now ≡ 24 }
    ensures found { IfSome result (λ header. bytes.now ≡ header_bytes header) }
    ensures fits { IfSome result FitsHeader }
    ensures none { IfNone result ((header : PcapHeader) → bytes.now ≡ header_bytes header → ⊥) }
{
    let (magic, rest) = Endian::Big.split_u32(bytes);
    let (endian, resolution) = magic_said(magic)?;
    let (major, rest) = endian.split_u16(rest);
    let (minor, rest) = endian.split_u16(rest);
    let (zone, rest) = endian.split_u32(rest);
    let (accuracy, rest) = endian.split_u32(rest);
    let (snap_length, rest) = endian.split_u32(rest);
    let (link_type, _) = endian.split_u32(rest);
    Some(PcapHeader {
        endian,
        resolution,
        major,
        minor,
        zone,
        accuracy,
        snap_length,
        link_type,
    })
}

/// The header of a record that sixteen bytes spell.
pub(crate) fn read_record_head(endian: Endian, bytes: &[u8]) -> RecordHead
    requires { length bytes.now ≡ 16 }
    ensures spelled { bytes.now ≡ head_bytes endian result }
    ensures fits { FitsHead result }
{
    let (seconds, rest) = endian.split_u32(bytes);
    let (fraction, rest) = endian.split_u32(rest);
    let (captured, rest) = endian.split_u32(rest);
    let (original, _) = endian.split_u32(rest);
    RecordHead {
        seconds,
        fraction,
        captured,
        original,
    }
}
