//! Numbers as the values of TLVs: some bytes, the most significant first.
ghost use Rattle.std.specs.Prelude.{◌≡◌, ◌≤◌, ◌<◌, ◌^◌, IfSome};
ghost use Rattle.capture.specs.Numbers.{number_in};

use byteorder::{BigEndian, ByteOrder};

/// The number in a value of 1 to `most` bytes, `None` where it has none or more.
pub(crate) fn number(value: &[u8], most: usize) -> Option<u64>
    requires { most ≤ 8 }
    ensures value { result ≡ number_in most value.now }
    ensures fits { IfSome result (λ number. number < 256 ^ most) }
{
    if value.is_empty() || value.len() > most {
        return None;
    }
    Some(BigEndian::read_uint(value, value.len()))
}
