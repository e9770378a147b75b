//! Heads and whole frames.
mod failed_allocations;

use crate::expect::{expect_same, expect_true};
use crate::samples::{EXTENDED, PLAIN};
use docsis_wire::{HeadFault, HeadRead, NoCheck, read_head, well_formed};
use std::process::Abort;
use std::test::Fail;

const HEADS: [(&str, &[u8], HeadRead); 11] = [
    (
        "a management frame with nothing after its header",
        &[0xc2, 0, 0, 0],
        HeadRead::Head { ehdr: 0, total: 6 },
    ),
    (
        "the longest extended header and the longest frame",
        &[0x01, 0xf0, 0xff, 0xff],
        HeadRead::Head {
            ehdr: 240,
            total: 65_541,
        },
    ),
    ("fill of zeros", &[0, 0, 0, 0], HeadRead::Fill),
    ("fill of ones", &[0xff], HeadRead::Fill),
    (
        "fill of ones before other bytes",
        &[0xff, 0, 0, 2],
        HeadRead::Fill,
    ),
    ("three zeros", &[0, 0, 0], HeadRead::Short),
    ("no bytes", &[], HeadRead::Short),
    (
        "a queue depth request",
        &[0xc8, 0, 0, 0],
        HeadRead::Bad(HeadFault::NoLength),
    ),
    (
        "a request frame with an extended header that is too long",
        &[0xc5, 0xf1, 0xff, 0xff],
        HeadRead::Bad(HeadFault::NoLength),
    ),
    (
        "an extended header of 241 bytes",
        &[0x01, 0xf1, 0xff, 0xff],
        HeadRead::Bad(HeadFault::ExtendedTooLong),
    ),
    (
        "an extended header longer than LEN",
        &[0x01, 0x02, 0, 0x01],
        HeadRead::Bad(HeadFault::ExtendedTooLong),
    ),
];

fn expect_heads(rt: &impl Abort) {
    for (name, bytes, head) in &HEADS {
        expect_same(rt, name, read_head(bytes), *head);
    }
}

#[test]
fn reads_heads(rt: HostRuntime) {
    expect_heads(&rt);
}

#[test]
fn says_what_is_wrong_with_a_head(rt: HostRuntime) -> Result<(), Fail> {
    let texts = [
        (
            HeadFault::NoLength,
            "the frame control byte announces no length",
        ),
        (
            HeadFault::ExtendedTooLong,
            "the extended header is too long",
        ),
    ];
    for (fault, text) in &texts {
        let said = fault.to_string(rt.alloc())?;
        expect_same(&rt, text, said.as_str(), text);
    }
    Ok(())
}

fn expect_frames(rt: &impl Abort) {
    expect_true(rt, "plain", well_formed(PLAIN, &NoCheck));
    expect_true(rt, "extended", well_formed(EXTENDED, &NoCheck));
    let short = well_formed(&PLAIN[..7], &NoCheck);
    expect_true(rt, "one byte short", !short);
    let short = well_formed(&EXTENDED[..8], &NoCheck);
    expect_true(rt, "one byte short, extended", !short);
    let fill = well_formed(&[0, 0, 0, 0, 0x11, 0x11], &NoCheck);
    expect_true(rt, "fill", !fill);
    expect_true(rt, "nothing", !well_formed(&[], &NoCheck));
}

#[test]
fn knows_frames(rt: HostRuntime) {
    expect_frames(&rt);
}
