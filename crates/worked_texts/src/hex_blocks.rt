//! Hexadecimal fields against the tables by which they were read and written, one digit after the
//! other, before they were read thirty-two digits and written sixteen bytes at a time.
use std::alloc::{AllocError, Global};
use std::test::Fail;
use text_lines::{LineFault, TextBuffer, put_hex, read_hex};
use texts::TraceKind;

/// What the table has for a byte that is no digit.
const NO_DIGIT: u8 = 16;

/// Of each byte the value of the digit that it is, in either case, or 16.
static DIGIT_VALUES: [u8; 256] = [
    16, 16, 16, 16, 16, 16, 16, 16, 16, 16, 16, 16, 16, 16, 16, 16, 16, 16, 16, 16, 16, 16, 16, 16,
    16, 16, 16, 16, 16, 16, 16, 16, 16, 16, 16, 16, 16, 16, 16, 16, 16, 16, 16, 16, 16, 16, 16, 16,
    0, 1, 2, 3, 4, 5, 6, 7, 8, 9, 16, 16, 16, 16, 16, 16, 16, 10, 11, 12, 13, 14, 15, 16, 16, 16,
    16, 16, 16, 16, 16, 16, 16, 16, 16, 16, 16, 16, 16, 16, 16, 16, 16, 16, 16, 16, 16, 16, 16, 10,
    11, 12, 13, 14, 15, 16, 16, 16, 16, 16, 16, 16, 16, 16, 16, 16, 16, 16, 16, 16, 16, 16, 16, 16,
    16, 16, 16, 16, 16, 16, 16, 16, 16, 16, 16, 16, 16, 16, 16, 16, 16, 16, 16, 16, 16, 16, 16, 16,
    16, 16, 16, 16, 16, 16, 16, 16, 16, 16, 16, 16, 16, 16, 16, 16, 16, 16, 16, 16, 16, 16, 16, 16,
    16, 16, 16, 16, 16, 16, 16, 16, 16, 16, 16, 16, 16, 16, 16, 16, 16, 16, 16, 16, 16, 16, 16, 16,
    16, 16, 16, 16, 16, 16, 16, 16, 16, 16, 16, 16, 16, 16, 16, 16, 16, 16, 16, 16, 16, 16, 16, 16,
    16, 16, 16, 16, 16, 16, 16, 16, 16, 16, 16, 16, 16, 16, 16, 16, 16, 16, 16, 16, 16, 16, 16, 16,
    16, 16, 16, 16, 16, 16, 16, 16, 16, 16, 16, 16, 16, 16,
];

/// What some digits spell, of which there is an even number, or `None` where one is no digit.
fn spell_by_table(alloc: Global, digits: &[u8]) -> Result<Option<Vec<u8>>, AllocError> {
    let mut bytes = Vec::new(alloc);
    let mut greatest = 0;
    for place in 0..digits.len() / 2 {
        let high = DIGIT_VALUES[usize::from(digits[2 * place])];
        let low = DIGIT_VALUES[usize::from(digits[2 * place + 1])];
        greatest = greatest.max(high).max(low);
        bytes.push(high % NO_DIGIT * NO_DIGIT + low % NO_DIGIT)?;
    }
    Ok((greatest < NO_DIGIT).then_some(bytes))
}

/// Whether a field is read as the table spells it.
fn is_read_by_table(alloc: Global, field: &[u8]) -> Result<bool, AllocError> {
    let spelled = spell_by_table(alloc, field)?;
    match (read_hex(alloc, field), spelled) {
        (Ok(bytes), Some(wanted)) => Ok(bytes.as_slice() == wanted.as_slice()),
        (Err(LineFault::Kind(TraceKind::NotHex)), None) => Ok(true),
        _ => Ok(false),
    }
}

/// The digits of some bytes, by a table of the sixteen.
fn digits_by_table(alloc: Global, bytes: &[u8]) -> Result<Vec<u8>, AllocError> {
    let mut digits = Vec::new(alloc);
    for byte in bytes {
        digits.push(b"0123456789abcdef"[usize::from(*byte / 16)])?;
        digits.push(b"0123456789abcdef"[usize::from(*byte % 16)])?;
    }
    Ok(digits)
}

/// Whether some bytes are written as the table has their digits.
fn is_written_by_table(alloc: Global, bytes: &[u8]) -> Result<bool, AllocError> {
    let mut text = TextBuffer::new(alloc);
    put_hex(&mut text, bytes);
    Ok(text.finish()?.as_slice() == digits_by_table(alloc, bytes)?.as_slice())
}

/// Digits in either case, by a row of numbers that begins with the seed.
fn made_digits(alloc: Global, count: usize, seed: u32) -> Result<Vec<u8>, AllocError> {
    let mut digits = Vec::new(alloc);
    let mut state = seed;
    for _ in 0..count {
        state = state.wrapping_mul(1_664_525).wrapping_add(1_013_904_223);
        digits.push(b"0123456789abcdefABCDEF"[(state / 0x1_0000) as usize % 22])?;
    }
    Ok(digits)
}

#[test]
fn fields_of_each_length_are_read_as_by_the_table(rt: HostRuntime) -> Result<(), Fail> {
    let alloc = rt.alloc();
    for pairs in 1..130 {
        for seed in 0..20 {
            let digits = made_digits(alloc, 2 * pairs, seed)?;
            let same = is_read_by_table(alloc, digits.as_slice())?;
            assert!(rt; same, "{pairs} pairs, seed {seed}");
        }
    }
    Ok(())
}

#[test]
fn each_byte_at_each_place_is_read_as_by_the_table(rt: HostRuntime) -> Result<(), Fail> {
    let alloc = rt.alloc();
    for pairs in [1, 15, 16, 17, 32, 33] {
        for place in 0..2 * pairs {
            for byte in 0..=255 {
                let mut digits = made_digits(alloc, 2 * pairs, 7)?;
                if place < digits.len() {
                    digits[place] = byte;
                }
                let same = is_read_by_table(alloc, digits.as_slice())?;
                assert!(rt; same, "byte {byte} at {place} of {pairs} pairs");
            }
        }
    }
    Ok(())
}

#[test]
fn bytes_of_each_count_are_written_as_by_the_table(rt: HostRuntime) -> Result<(), Fail> {
    let alloc = rt.alloc();
    for count in 0..600 {
        let bytes = made_digits(alloc, count, count as u32)?;
        let same = is_written_by_table(alloc, bytes.as_slice())?;
        assert!(rt; same, "{count} bytes");
    }
    Ok(())
}

#[test]
fn each_byte_at_each_place_is_written_as_by_the_table(rt: HostRuntime) -> Result<(), Fail> {
    let alloc = rt.alloc();
    for count in [1, 15, 16, 17, 32, 33] {
        for place in 0..count {
            for byte in 0..=255 {
                let mut bytes = made_digits(alloc, count, 7)?;
                if place < bytes.len() {
                    bytes[place] = byte;
                }
                let same = is_written_by_table(alloc, bytes.as_slice())?;
                assert!(rt; same, "byte {byte} at {place} of {count}");
            }
        }
    }
    Ok(())
}
