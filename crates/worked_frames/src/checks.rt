//! Check sequences of headers and of frames.
mod by_chance;

use crate::expect::{expect_bytes, expect_same, expect_same_at, expect_true};
use docsis_wire::{
    HeaderCheck, HeaderSequence, check_sequence, frame_check_sequence, segment_check, well_formed,
};

/// Segment headers with their check sequences, as Wireshark 4.0.17 finds them right.
const HEADERS: [[u8; 8]; 4] = [
    [0, 0, 0, 0, 0, 0, 0x8f, 0xf7],
    [0x80, 0, 0, 0, 0, 0, 0x2d, 0xf2],
    [0x80, 0x03, 0, 0x08, 0, 0, 0x23, 0x29],
    [0x80, 0, 0x26, 0x92, 0, 0x09, 0xe4, 0x97],
];

/// The values that are published of the two CRCs for this text.
#[test]
fn have_the_published_values(rt: HostRuntime) {
    let header = check_sequence(b"123456789");
    expect_same(&rt, "of headers", header, 0x906E);
    let frame = frame_check_sequence(b"123456789");
    expect_same(&rt, "of frames", frame, 0xCBF4_3926);
}

#[test]
fn stand_in_segment_headers_with_the_low_byte_first(rt: HostRuntime) {
    for header in &HEADERS {
        let (front, sequence) = header.split_at(6);
        let sent = check_sequence(front).to_le_bytes();
        expect_bytes(&rt, "the sequence", sent.as_slice(), sequence);
        expect_same(
            &rt,
            "the check",
            (*header, segment_check(header)),
            (*header, true),
        );
    }
}

#[test]
fn show_each_single_flipped_bit(rt: HostRuntime) {
    for header in &HEADERS {
        for bit in 0..64_usize {
            let mut spoiled = *header;
            spoiled[bit / 8] ^= 1 << (bit % 8);
            let found = (
                spoiled,
                segment_check(&spoiled),
                HeaderSequence.passes(&spoiled),
            );
            expect_same_at(&rt, "a flipped bit", bit, found, (spoiled, false, false));
        }
    }
}

#[test]
fn tell_right_headers_of_frames_from_wrong_ones(rt: HostRuntime) {
    let cases: [(&str, &[u8], bool); 5] = [
        ("right", &[0, 0, 0, 2, 0xcc, 0xdf, 0xaa, 0xbb], true),
        (
            "right, with an extended header",
            &[1, 1, 0, 3, 0xe0, 0xee, 0x15, 0xcc, 0xdd],
            true,
        ),
        (
            "one bit wrong",
            &[0, 0, 0, 2, 0xcd, 0xdf, 0xaa, 0xbb],
            false,
        ),
        (
            "high byte first",
            &[0, 0, 0, 2, 0xdf, 0xcc, 0xaa, 0xbb],
            false,
        ),
        (
            "of the first four bytes alone",
            &[1, 1, 0, 3, 0xe0, 0xcc, 0xdf, 0xcc, 0xdd],
            false,
        ),
    ];
    for (name, frame, right) in &cases {
        expect_same(&rt, name, well_formed(frame, &HeaderSequence), *right);
    }
}

#[test]
fn are_of_two_bytes(rt: HostRuntime) {
    expect_true(&rt, "nothing", !HeaderSequence.passes(&[]));
    expect_true(&rt, "one byte", !HeaderSequence.passes(&[0]));
    expect_true(
        &rt,
        "nothing and its sequence",
        HeaderSequence.passes(&[0, 0]),
    );
    expect_true(&rt, "nothing and another", !HeaderSequence.passes(&[0, 1]));
}
