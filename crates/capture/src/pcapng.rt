//! The blocks of a pcapng file, and what an interface says of its packets.
ghost use Rattle.std.specs.Prelude.{◌≡◌, ◌<◌, ◌*◌, ◌/◌};
ghost use Rattle.capture.specs.Pcapng.{block_kind, least_total, order_said, unit_said, nanoseconds};

use crate::endian::Endian;

/// A section header begins with its type, the same in either order.
pub(crate) const SECTION_HEADER: u32 = 0x0A0D_0D0A;
/// The type of a block that describes an interface.
const INTERFACE_DESCRIPTION: u32 = 1;
/// The type of a block with a packet.
const ENHANCED_PACKET: u32 = 6;
/// The number that says in which order the numbers of a section stand.
const BYTE_ORDER_MAGIC: u32 = 0x1A2B_3C4D;

/// What a reader makes of a block.
#[derive(Clone, Copy, Debug, PartialEq, Eq)]
pub(crate) enum BlockKind {
    /// A new section begins: type 0A0D0D0A.
    SectionHeader,
    /// The section has one interface more: type 1.
    InterfaceDescription,
    /// A packet with its time: type 6.
    EnhancedPacket,
    /// Any other type is passed over.
    Other,
}

/// The first eight bytes of a block, in the order of its section.
#[derive(Clone, Copy, Debug, PartialEq, Eq)]
pub(crate) struct BlockHead {
    pub(crate) endian: Endian,
    /// The block's type.
    pub(crate) number: u32,
    /// How many bytes the block has in all.
    pub(crate) total: u32,
}

/// The unit of the times of an interface's packets, as a part of a second.
#[derive(Clone, Copy, Debug, PartialEq, Eq)]
pub enum TimeUnit {
    /// A second is 10 to this power of units; the exponent is below 128. It is 6 where an interface
    /// says nothing.
    PowerOfTen(u8),
    /// A second is 2 to this power of units; the exponent is below 128.
    PowerOfTwo(u8),
}

/// An interface of a section.
#[derive(Clone, Copy, Debug, PartialEq, Eq)]
pub struct Interface {
    /// The type of its packets: 273 for those of an XRA analyser.
    pub link_type: u16,
    pub unit: TimeUnit,
}

/// What a reader makes of a block of this type.
pub(crate) fn block_kind(number: u32) -> BlockKind
    ensures { result ≡ block_kind number }
{
    match number {
        SECTION_HEADER => BlockKind::SectionHeader,
        INTERFACE_DESCRIPTION => BlockKind::InterfaceDescription,
        ENHANCED_PACKET => BlockKind::EnhancedPacket,
        _ => BlockKind::Other,
    }
}

/// The fewest bytes that a block has.
pub(crate) fn least_total(kind: BlockKind) -> u32
    ensures { result ≡ least_total kind }
{
    match kind {
        BlockKind::SectionHeader => 28,
        BlockKind::InterfaceDescription => 20,
        BlockKind::EnhancedPacket => 32,
        BlockKind::Other => 12,
    }
}

/// The order that the byte-order magic says, read with its most significant byte first.
pub(crate) fn order_said(magic: u32) -> Option<Endian>
    ensures { result ≡ order_said magic }
{
    match magic {
        BYTE_ORDER_MAGIC => Some(Endian::Big),
        0x4D3C_2B1A => Some(Endian::Little),
        _ => None,
    }
}

/// The unit that the byte of option 9 says.
pub(crate) fn unit_said(byte: u8) -> TimeUnit
    ensures { result ≡ unit_said byte }
{
    if byte < 128 {
        TimeUnit::PowerOfTen(byte)
    } else {
        TimeUnit::PowerOfTwo(byte - 128)
    }
}

/// A second has 10 to at most this power of units: more have no place in 128 bits, and then no time
/// has a nanosecond.
const GREATEST_POWER_OF_TEN: u8 = 38;
/// The same of 2.
const GREATEST_POWER_OF_TWO: u8 = 127;

/// The whole nanoseconds of a time in units, of which a second has so many.
fn scaled(time: u64, units: u128) -> u128
    requires { 0 < units }
    ensures { result ≡ time * 1000000000 / units }
{
    u128::from(time) * 1_000_000_000 / units
}

/// A time in nanoseconds, the rest cut off. A time of 2^64 nanoseconds or more, in the year 2554 or
/// later, is given as 2^64 - 1.
pub(crate) fn nanoseconds(unit: TimeUnit, time: u64) -> u64
    ensures { result ≡ nanoseconds unit time }
{
    let nanoseconds = match unit {
        TimeUnit::PowerOfTen(power) if power <= GREATEST_POWER_OF_TEN => {
            scaled(time, 10_u128.pow(u32::from(power)))
        }
        TimeUnit::PowerOfTwo(power) if power <= GREATEST_POWER_OF_TWO => {
            scaled(time, 2_u128.pow(u32::from(power)))
        }
        _ => 0,
    };
    nanoseconds.min(u128::from(u64::MAX)) as u64
}
