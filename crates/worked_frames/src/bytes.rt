//! Owned bytes: how they are printed, and the memory in which they stand.
mod failed_allocations;

use crate::expect::{expect_bytes, expect_same};
use docsis_wire::Bytes;
use std::alloc::{AllocError, Global};
use std::test::Fail;

/// What stands before the bytes, where something does.
const FRONT: &[u8] = &[0x80, 0, 0, 8, 0, 0, 0, 0];

const KEPT: &[u8] = &[17, 34, 51];

const PRINTED: &str = "Bytes { bytes: [17, 34, 51], skipped: 0 }";

const PRINTED_ON_LINES: &str = "\
Bytes {
    bytes: [
        17,
        34,
        51,
    ],
    skipped: 0,
}";

/// Bytes in memory for so many, behind these that are left out.
fn behind(alloc: Global, front: &[u8], room: usize) -> Result<Bytes, AllocError> {
    let mut bytes = Vec::with_capacity(alloc, room)?;
    bytes.extend_from_slice(front)?;
    bytes.extend_from_slice(KEPT)?;
    Ok(Bytes::from(bytes).without_front(front.len()))
}

#[test]
fn prints_no_bytes_that_are_left_out(rt: HostRuntime) -> Result<(), Fail> {
    let alone = behind(rt.alloc(), &[], 3)?;
    let others_before = behind(rt.alloc(), FRONT, 4096)?;
    for (name, bytes) in [("alone", &alone), ("others before", &others_before)] {
        let said = format!(in rt.alloc(); "{bytes:?}")?;
        expect_same(&rt, name, said.as_str(), PRINTED);
        let said = format!(in rt.alloc(); "{bytes:#?}")?;
        expect_same(&rt, name, said.as_str(), PRINTED_ON_LINES);
    }
    Ok(())
}

/// How many bytes stay, and the three bytes then.
const WITH_ZEROS: [(usize, &[u8]); 5] = [
    (0, &[0, 0, 0]),
    (1, &[17, 0, 0]),
    (2, &[17, 34, 0]),
    (3, KEPT),
    (4, KEPT),
];

#[test]
fn puts_zeros_behind_the_first_bytes(rt: HostRuntime) -> Result<(), Fail> {
    for (count, wanted) in &WITH_ZEROS {
        for front in [FRONT, &[]] {
            let bytes = behind(rt.alloc(), front, 16)?.with_zeros_behind(*count);
            expect_bytes(&rt, "zeros behind", bytes.as_slice(), wanted);
            expect_same(&rt, "room", bytes.into_vec().capacity(), 16);
        }
    }
    Ok(())
}

/// What stands before three bytes, the room of their memory, and the room that is left them: a
/// copy's just where it was more than twice three and 64.
const ROOMS: [(&str, &[u8], usize, usize); 6] = [
    ("no spare room", &[], 3, 3),
    ("all the room that may stay", &[], 70, 70),
    ("one byte more", &[], 71, 3),
    (
        "others before, and all the room that may stay",
        FRONT,
        70,
        70,
    ),
    ("others before, and one byte more", FRONT, 71, 3),
    ("much more", FRONT, 65_536, 3),
];

#[test]
fn copies_bytes_out_of_much_larger_memory(rt: HostRuntime) -> Result<(), Fail> {
    for (name, front, room, left) in &ROOMS {
        let bytes = behind(rt.alloc(), front, *room)?.without_spare_room(rt.alloc());
        expect_bytes(&rt, name, bytes.as_slice(), KEPT);
        expect_same(&rt, name, bytes.into_vec().capacity(), *left);
    }
    Ok(())
}
