//! The values of TLVs that are numbers of one, two or four bytes.
ghost use Rattle.std.specs.Prelude.{◌≡◌, option_map};
ghost use Rattle.registrations.specs.Values.{value_if_there, value_at, byte_in, word_in, long_in};
ghost use Rattle.registrations.specs.Values.{word_if_there, long_if_there, byte_at, word_at};
ghost use Rattle.registrations.specs.Values.{long_at};
ghost use Rattle.capture.specs.Seen.{value_seen};

use capture::{are_tlvs, last_value};

/// The value of the last TLV of a type, if there is one. `None` where the bytes are no whole TLVs.
fn value_if_there(tlvs: &[u8], kind: u8) -> Option<Option<&[u8]>>
    ensures { option_map value_seen result ≡ value_if_there kind tlvs.now }
{
    if !are_tlvs(tlvs) {
        return None;
    }
    Some(last_value(tlvs, kind))
}

/// The value of the last TLV of a type. `None` where there is none too.
fn value_at(tlvs: &[u8], kind: u8) -> Option<&[u8]>
    ensures { value_seen result ≡ value_at kind tlvs.now }
{
    value_if_there(tlvs, kind)?
}

/// The number of one byte that a value is.
fn byte_in(value: &[u8]) -> Option<u8>
    ensures { result ≡ byte_in value.now }
{
    match value {
        [byte] => Some(*byte),
        _ => None,
    }
}

/// The number of two bytes that a value is.
fn word_in(value: &[u8]) -> Option<u16>
    ensures { result ≡ word_in value.now }
{
    match value {
        [high, low] => Some(u16::from_be_bytes([*high, *low])),
        _ => None,
    }
}

/// The number of four bytes that a value is.
fn long_in(value: &[u8]) -> Option<u32>
    ensures { result ≡ long_in value.now }
{
    match value {
        [first, second, third, fourth] => {
            Some(u32::from_be_bytes([*first, *second, *third, *fourth]))
        }
        _ => None,
    }
}

/// The number of two bytes that the last TLV of a type is, if there is one. `None` where it is no
/// such number, or the bytes are no whole TLVs.
pub(crate) fn word_if_there(tlvs: &[u8], kind: u8) -> Option<Option<u16>>
    ensures { result ≡ word_if_there kind tlvs.now }
{
    match value_if_there(tlvs, kind)? {
        Some(value) => Some(Some(word_in(value)?)),
        None => Some(None),
    }
}

/// The same of four bytes.
pub(crate) fn long_if_there(tlvs: &[u8], kind: u8) -> Option<Option<u32>>
    ensures { result ≡ long_if_there kind tlvs.now }
{
    match value_if_there(tlvs, kind)? {
        Some(value) => Some(Some(long_in(value)?)),
        None => Some(None),
    }
}

/// The number of one byte that the last TLV of a type is. `None` where there is none, it is no such
/// number, or the bytes are no whole TLVs.
pub(crate) fn byte_at(tlvs: &[u8], kind: u8) -> Option<u8>
    ensures { result ≡ byte_at kind tlvs.now }
{
    byte_in(value_at(tlvs, kind)?)
}

/// The same of two bytes.
pub(crate) fn word_at(tlvs: &[u8], kind: u8) -> Option<u16>
    ensures { result ≡ word_at kind tlvs.now }
{
    word_in(value_at(tlvs, kind)?)
}

/// The same of four bytes.
pub(crate) fn long_at(tlvs: &[u8], kind: u8) -> Option<u32>
    ensures { result ≡ long_at kind tlvs.now }
{
    long_in(value_at(tlvs, kind)?)
}
