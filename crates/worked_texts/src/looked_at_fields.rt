//! Hexadecimal fields that are looked at and not decoded, and the words that may be such.
use text_lines::{is_hex, likely_field};

/// Fields, and whether they are hexadecimal. A block that is looked at at once has 32 digits.
const FIELDS: [(&str, bool); 16] = [
    ("-", true),
    ("00", true),
    ("0aF9", true),
    ("0123456789abcdefABCDEF0123456789", true),
    ("0123456789abcdefABCDEF0123456789ff", true),
    ("", true),
    ("0", false),
    ("--", false),
    ("0g", false),
    ("g0", false),
    ("00 00", false),
    ("0123456789abcdefABCDEF012345678g", false),
    ("g123456789abcdefABCDEF0123456789", false),
    (
        "0123456789abcdefABCDEF012345678g0123456789abcdefABCDEF0123456789",
        false,
    ),
    ("0123456789abcdefABCDEF0123456789fg", false),
    ("0123456789abcdefABCDEF0123456789f", false),
];

#[test]
fn looks_at_fields(rt: HostRuntime) {
    for (field, wanted) in FIELDS {
        assert!(rt; is_hex(field.as_bytes()) == wanted, "{field}");
    }
}

/// The bytes that are digits, which stand next to others in their table.
const DIGITS: &[u8; 22] = b"0123456789abcdefABCDEF";

/// Whether a byte is a digit, by the list of them.
fn is_listed(byte: u8) -> bool {
    DIGITS.contains(&byte)
}

#[test]
fn looks_at_each_byte_at_each_place(rt: HostRuntime) {
    for byte in 0..=255 {
        for place in 0..34 {
            let mut field = [b'7'; 34];
            field[place] = byte;
            assert!(rt; is_hex(&field) == is_listed(byte), "{byte} at {place}");
        }
    }
}

/// What stands behind a word, and its only word.
const ONLY_WORDS: [(&str, &str); 7] = [
    (" -", "-"),
    (" 00", "00"),
    ("\t0aF9\r", "0aF9"),
    (" 0aF9\r", "0aF9"),
    ("  Ff", "Ff"),
    (" Ff \t", "Ff"),
    ("Ff", "Ff"),
];

#[test]
fn finds_the_only_word(rt: HostRuntime) {
    for (rest, wanted) in ONLY_WORDS {
        assert!(rt;
            likely_field(rest.as_bytes()) == Some(wanted.as_bytes()),
            "{rest}"
        );
    }
}

#[test]
fn takes_no_word_where_there_are_none(rt: HostRuntime) {
    assert!(rt; likely_field(b"".as_slice()) == None);
    assert!(rt; likely_field(b" ".as_slice()) == None);
    assert!(rt; likely_field(b"\t-\t-".as_slice()) == None);
}

#[test]
fn more_words_are_no_digits(rt: HostRuntime) {
    assert!(rt; likely_field(b" 00 000".as_slice()) == Some(b"00 000".as_slice()));
    assert!(rt; likely_field(b" 00 00\r".as_slice()) == None);
}
