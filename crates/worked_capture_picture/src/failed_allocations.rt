//! Each allocation is refused once: it is reported, the picture is as it was, and the next call
//! draws what the first would have drawn.
use crate::drawing::Step::{self, Burst, Mark};
use crate::drawing::{picture_of, some_channels, take_step, text_of};
use capture_picture::CapturePicture;
use capture_picture::Mark::Lost;
use std::alloc::{AllocError, Global};
use std::test::Fail;

/// Ten flows, the first of them twice.
const STEPS: [Step; 12] = [
    Burst(0, 0, 0, 0),
    Burst(1, 9_000, 1, 1),
    Burst(2, 500_000, 2, 2),
    Burst(3, 500_000, 2, 3),
    Burst(4, 500_000, 2, 4),
    Burst(5, 500_000, 2, 5),
    Burst(6, 500_000, 2, 6),
    Burst(7, 500_000, 2, 7),
    Burst(8, 900_000, 2, 8),
    Burst(9, 900_000, 2, 9),
    Burst(0, 900_000, 3, 5),
    Mark(0, 900_000, Lost, 1),
];

/// The text, or that of a second call where the first one was refused memory.
fn text_again(alloc: Global, picture: &CapturePicture) -> Result<Vec<u8>, AllocError> {
    match text_of(alloc, picture) {
        Ok(text) => Ok(text),
        Err(AllocError) => text_of(alloc, picture),
    }
}

#[test]
fn bursts_are_taken(rt: HostRuntime) -> Result<(), Fail> {
    let channels = match some_channels(rt.alloc(), 4) {
        Ok(channels) => channels,
        Err(AllocError) => some_channels(rt.alloc(), 4)?,
    };
    let mut picture = CapturePicture::new(rt.alloc(), channels);
    for step in STEPS {
        let before = text_again(rt.alloc(), &picture)?;
        if take_step(rt.alloc(), &mut picture, step).is_err() {
            let now = text_of(rt.alloc(), &picture)?;
            assert!(rt; now.as_slice() == before.as_slice());
            take_step(rt.alloc(), &mut picture, step)?;
        }
    }
    let drawn = text_again(rt.alloc(), &picture)?;
    let expected = match picture_of(rt.alloc(), 4, &STEPS) {
        Ok(expected) => expected,
        Err(AllocError) => picture_of(rt.alloc(), 4, &STEPS)?,
    };
    let expected = text_again(rt.alloc(), &expected)?;
    assert!(rt; drawn.as_slice() == expected.as_slice());
    Ok(())
}
