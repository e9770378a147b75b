//! Numbers as the values of TLVs: some bytes, the most significant first.
ghost use Rattle.std.specs.Prelude.{◌≡◌, ◌≤◌, ◌<◌, ◌^◌, length, IfSome};
ghost use Rattle.byteorder.specs.Endian.{big_number};
ghost use Rattle.capture.specs.Numbers.{number_in};

use byteorder::{BigEndian, ByteOrder};

/// The number in a value of 1 to `most` bytes, `None` where it has none or more.
pub(crate) fn number(value: &[u8], most: usize) -> Option<u64>
    requires { most ≤ 8 }
    ensures value { result ≡ number_in most value.now }
    ensures fits { IfSome result (λ number. number < 256 ^ most) }
{
    if value.is_empty() || value.len() > most {
        return None;
    }
    Some(spelled(value))
}

/// The number that 1 to 8 bytes spell.
fn spelled(value: &[u8]) -> u64
    requires some { 0 < length value.now }
    requires most { length value.now ≤ 8 }
    ensures { result ≡ big_number (length value.now) value.now }
{
    match value.len() {
        1 => u64::from(value[0]),
        2 => u64::from(BigEndian::read_u16(value)),
        4 => u64::from(BigEndian::read_u32(value)),
        8 => BigEndian::read_u64(value),
        length => BigEndian::read_uint(value, length),
    }
}
