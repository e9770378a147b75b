//! Words of lines, short and long, against a walk from byte to byte.
use std::alloc::{AllocError, Global};
use std::test::Fail;
use text_lines::split_field;

/// The first word of a line and what follows it, if there is one.
fn first_word(line: &[u8]) -> Option<(&[u8], &[u8])> {
    let start = line.iter().position(|byte| !is_separator(*byte))?;
    let words = &line[start..];
    match words.iter().position(|byte| is_separator(*byte)) {
        Some(end) => Some(words.split_at(end)),
        None => Some((words, &[])),
    }
}

fn is_separator(byte: u8) -> bool {
    byte == b' ' || byte == b'\t' || byte == b'\r'
}

/// Whether a line has the words that the walk finds.
fn has_the_words(line: &[u8]) -> bool {
    let mut rest = line;
    for _ in 0..=line.len() {
        match (split_field(rest), first_word(rest)) {
            (Some((word, more)), Some((wanted, others))) => {
                if word != wanted || more != others {
                    return false;
                }
                rest = more;
            }
            (None, None) => return true,
            _ => return false,
        }
    }
    false
}

#[test]
fn words_of_each_length_are_split(rt: HostRuntime) -> Result<(), Fail> {
    let alloc = rt.alloc();
    for separator in b" \t\r" {
        for first in 0..70 {
            for second in 0..40 {
                let mut line = vec![in alloc; b'a'; first]?;
                line.push(*separator)?;
                for _ in 0..second {
                    line.push(b'b')?;
                }
                let is_split = has_the_words(line.as_slice());
                assert!(rt; is_split, "{first} and {second} behind {separator}");
            }
        }
    }
    Ok(())
}

/// A line of letters and bytes that separate words, by a row of numbers that begins with the seed.
fn made_line(alloc: Global, length: usize, seed: u32) -> Result<Vec<u8>, AllocError> {
    let mut line = Vec::new(alloc);
    let mut state = seed;
    for _ in 0..length {
        state = state.wrapping_mul(1_664_525).wrapping_add(1_013_904_223);
        line.push(b"abcdefghij\n\x0b\x00 \t\r"[(state / 0x100_0000) as usize % 16])?;
    }
    Ok(line)
}

#[test]
fn words_of_made_lines_are_split(rt: HostRuntime) -> Result<(), Fail> {
    let alloc = rt.alloc();
    for length in 0..80 {
        for seed in 0..60 {
            let line = made_line(alloc, length, seed)?;
            let is_split = has_the_words(line.as_slice());
            assert!(rt; is_split, "{length} bytes, seed {seed}");
        }
    }
    Ok(())
}

#[test]
fn each_byte_in_a_word_is_split_as_it_should_be(rt: HostRuntime) -> Result<(), Fail> {
    let alloc = rt.alloc();
    for length in [1, 15, 16, 17, 33] {
        for place in 0..length {
            for byte in 0..=255 {
                let mut line = vec![in alloc; b'a'; length]?;
                if place < line.len() && byte != b'#' {
                    line[place] = byte;
                }
                let is_split = has_the_words(line.as_slice());
                assert!(rt; is_split, "byte {byte} at {place} of {length}");
            }
        }
    }
    Ok(())
}
