//! What is known of frame check sequences, of frames that were made with the check sequences of
//! another program.
use capture_summary::{FrameSequence, sequence_of};
use std::test::Fail;

/// Frames in hexadecimal, each with its name.
const FRAMES: [(&str, FrameSequence, &str); 23] = [
    (
        "right",
        FrameSequence::Right,
        "000000124dcf0102030405060708090a0b0c08003cc4cb3c",
    ),
    (
        "one bit of it flipped",
        FrameSequence::Wrong,
        "000000124dcf0102030405060708090a0b0c08003dc4cb3c",
    ),
    (
        "its bytes the other way round",
        FrameSequence::Wrong,
        "000000124dcf0102030405060708090a0b0c08003ccbc43c",
    ),
    (
        "of no bytes before it",
        FrameSequence::Right,
        "00000004faba00000000",
    ),
    ("three bytes", FrameSequence::Wrong, "0000000345ce000000"),
    ("no Ethernet frame", FrameSequence::Wrong, "00000000defc"),
    (
        "MAC_PARM without an extended header",
        FrameSequence::Right,
        "00050012f0f60102030405060708090a0b0c08003cc4cb3c",
    ),
    (
        "behind an extended header",
        FrameSequence::Right,
        "010100134075250102030405060708090a0b0c08003cc4cb3c",
    ),
    (
        "wrong behind an extended header",
        FrameSequence::Wrong,
        "010100134075250102030405060708090a0b0c08003dc4cb3c",
    ),
    (
        "element of type 3, encrypted",
        FrameSequence::Encrypted,
        "0104001633f08000a58b0102030405060708090a0b0c08003dc4cb3c",
    ),
    (
        "element of type 3, encrypted, with a right one",
        FrameSequence::Encrypted,
        "0104001633f08000a58b0102030405060708090a0b0c08003cc4cb3c",
    ),
    (
        "element of type 3, not encrypted",
        FrameSequence::Right,
        "0104001633f07f0065740102030405060708090a0b0c08003cc4cb3c",
    ),
    (
        "element of type 7, encrypted",
        FrameSequence::Encrypted,
        "0103001572ff8086fc0102030405060708090a0b0c08003cc4cb3c",
    ),
    (
        "element of type 4, the bit set",
        FrameSequence::Right,
        "010400164380808030d50102030405060708090a0b0c08003cc4cb3c",
    ),
    (
        "element of type 3 of one byte",
        FrameSequence::Right,
        "0102001431ffdaa30102030405060708090a0b0c08003cc4cb3c",
    ),
    (
        "behind another element",
        FrameSequence::Encrypted,
        "010700196212343380ff00c1d30102030405060708090a0b0c08003cc4cb3c",
    ),
    (
        "behind a byte of fill",
        FrameSequence::Encrypted,
        "01050017003380ff0009af0102030405060708090a0b0c08003cc4cb3c",
    ),
    (
        "element that overruns the header",
        FrameSequence::Right,
        "010400163480ff00502f0102030405060708090a0b0c08003cc4cb3c",
    ),
    (
        "behind one that overruns the header",
        FrameSequence::Right,
        "010500176f3380ff0046640102030405060708090a0b0c08003cc4cb3c",
    ),
    (
        "management message",
        FrameSequence::NotThere,
        "c2000012e2cd0102030405060708090a0b0c08003cc4cb3c",
    ),
    (
        "management message with an extended header",
        FrameSequence::NotThere,
        "c30400163380ff000ddd0102030405060708090a0b0c08003cc4cb3c",
    ),
    (
        "packet of ATM cells",
        FrameSequence::NotThere,
        "020000123bf60102030405060708090a0b0c08003cc4cb3c",
    ),
    (
        "header of 240 bytes of elements, the last one encrypted",
        FrameSequence::Encrypted,
        "01f0010263ffffff63ffffff63ffffff63ffffff63ffffff63ffffff63ffffff63ffffff63ffffff\
            63ffffff63ffffff63ffffff63ffffff63ffffff63ffffff63ffffff63ffffff63ffffff63ffffff\
            63ffffff63ffffff63ffffff63ffffff63ffffff63ffffff63ffffff63ffffff63ffffff63ffffff\
            63ffffff63ffffff63ffffff63ffffff63ffffff63ffffff63ffffff63ffffff63ffffff63ffffff\
            63ffffff63ffffff63ffffff63ffffff63ffffff63ffffff63ffffff63ffffff63ffffff63ffffff\
            63ffffff63ffffff63ffffff63ffffff63ffffff63ffffff63ffffff63ffffff63ffffff63ffffff\
            330080007d930102030405060708090a0b0c08003cc4cb3c",
    ),
];

#[test]
fn frames_have_the_sequences_that_were_made(rt: HostRuntime) -> Result<(), Fail> {
    for (name, sequence, digits) in FRAMES {
        let Ok(frame) = hex::decode(rt.alloc(), digits) else {
            return Err(Fail::from("digits"));
        };
        assert!(rt; sequence_of(&frame) == sequence, "{name}");
    }
    Ok(())
}

/// Bytes that are no whole header, of which no joined frame has so few.
#[test]
fn fewer_bytes_than_a_header_have_none(rt: HostRuntime) -> Result<(), Fail> {
    for bytes in [&[][..], &[0], &[1, 0], &[0, 0, 0]] {
        assert!(rt; sequence_of(bytes) == FrameSequence::NotThere);
    }
    // The extended header and the header check sequence end where the bytes do.
    for bytes in [
        &[0, 0, 0, 0][..],
        &[1, 9, 0, 0, 0x33, 0x80],
        &[0, 0, 0, 0, 0, 0, 0, 0, 0],
    ] {
        assert!(rt; sequence_of(bytes) == FrameSequence::Wrong);
    }
    assert!(rt; sequence_of(&[1, 9, 0, 0, 0x32, 0, 0xff]) == FrameSequence::Encrypted);
    Ok(())
}
