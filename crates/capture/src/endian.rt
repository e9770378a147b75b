//! Numbers of two and of four bytes, in either order.
ghost use Rattle.std.specs.Prelude.{◌≡◌, ◌≤◌, ◌+◌, ◌++◌, length};
ghost use Rattle.std.specs.Int.{w16, w32};

/// In which order the bytes of a file's numbers stand.
#[derive(Clone, Copy, Debug, PartialEq, Eq)]
pub enum Endian {
    /// The most significant byte first.
    Big,
    /// The least significant byte first.
    Little,
}

impl Endian {
    ghost use Rattle.capture.specs.Endian.{number_bytes};

    /// The number of two bytes at the front, and the bytes after it.
    pub(crate) fn split_u16(self, bytes: &[u8]) -> (u16, &[u8])
        requires { 2 ≤ length bytes.now }
        ensures spelled { bytes.now ≡ number_bytes self w16 result.0 ++ result.1.now }
        ensures left { length result.1.now + 2 ≡ length bytes.now }
    {
        let Some((front, rest)) = bytes.split_first_chunk::<2>() else {
            unreachable!()
        };
        let number = match self {
            Endian::Big => u16::from_be_bytes(*front),
            Endian::Little => u16::from_le_bytes(*front),
        };
        (number, rest)
    }

    /// The number of four bytes at the front, and the bytes after it.
    pub(crate) fn split_u32(self, bytes: &[u8]) -> (u32, &[u8])
        requires { 4 ≤ length bytes.now }
        ensures spelled { bytes.now ≡ number_bytes self w32 result.0 ++ result.1.now }
        ensures left { length result.1.now + 4 ≡ length bytes.now }
    {
        let Some((front, rest)) = bytes.split_first_chunk::<4>() else {
            unreachable!()
        };
        let number = match self {
            Endian::Big => u32::from_be_bytes(*front),
            Endian::Little => u32::from_le_bytes(*front),
        };
        (number, rest)
    }

    /// The two bytes of a number.
    pub(crate) fn bytes_of_u16(self, number: u16) -> [u8; 2]
        ensures { result ≡ number_bytes self w16 number }
    {
        match self {
            Endian::Big => number.to_be_bytes(),
            Endian::Little => number.to_le_bytes(),
        }
    }

    /// The four bytes of a number.
    pub(crate) fn bytes_of_u32(self, number: u32) -> [u8; 4]
        ensures { result ≡ number_bytes self w32 number }
    {
        match self {
            Endian::Big => number.to_be_bytes(),
            Endian::Little => number.to_le_bytes(),
        }
    }
}
