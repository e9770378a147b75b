//! How long the text of a picture is at most.
use crate::drawing::Step::{Burst, Mark};
use crate::drawing::{some_channels, take_step, text_of};
use capture_picture::Mark::{BadCheck, Late, Lost, Restart};
use capture_picture::{CapturePicture, PictureChannel};
use std::alloc::{AllocError, Global};
use std::test::Fail;

const FLOWS: usize = 8;

const CHANNELS: usize = 16;

const COLUMNS: u64 = 256;

/// When the capture begins: a time of 20 digits.
const START: u64 = 18_000_000_000_000_000_000;

/// Fills a column of a flow, before its newest segment comes. Each stroke of the indexes begins 100
/// units down and is 100 long, and each of how far a channel lay behind begins 29 units down, so
/// that they have as many digits as they get.
fn fill_column(
    alloc: Global,
    picture: &mut CapturePicture,
    flow: usize,
    column: u64,
) -> Result<(), AllocError> {
    let time = START.saturating_add(column.saturating_mul(1_000));
    for channel in 0..CHANNELS {
        take_step(alloc, picture, Burst(flow, time, channel, 97))?;
        take_step(alloc, picture, Burst(flow, time, channel, 0))?;
    }
    for mark in [Lost, Late, BadCheck, Restart] {
        take_step(alloc, picture, Mark(flow, time, mark, u64::MAX))?;
    }
    Ok(())
}

/// A picture in which all is filled, in flows with the longest names.
fn full_picture(alloc: Global) -> Result<CapturePicture, AllocError> {
    let mut channels = some_channels(alloc, 16)?;
    for channel in channels.as_mut_slice() {
        *channel = PictureChannel {
            id: u32::MAX,
            ..*channel
        };
    }
    let mut picture = CapturePicture::new(alloc, channels);
    for flow in 0..FLOWS {
        let name = usize::MAX - flow;
        for column in 0..COLUMNS {
            fill_column(alloc, &mut picture, name, column)?;
        }
        take_step(alloc, &mut picture, Burst(name, START, 0, 197))?;
        take_step(alloc, &mut picture, Burst(name, START, 0, 0))?;
    }
    take_step(alloc, &mut picture, Burst(0, START, 0, 0))?;
    Ok(picture)
}

#[test]
fn a_full_picture_is_at_most_a_million_bytes_long(rt: HostRuntime) -> Result<(), Fail> {
    let picture = full_picture(rt.alloc())?;
    let text = text_of(rt.alloc(), &picture)?;
    let strokes = text.iter().filter(|byte| **byte == b'M').count();
    assert!(rt; strokes == 8 * 256 * (2 * 16 + 4));
    assert!(rt; text.len() > 700_000);
    assert!(rt; text.len() <= 1_000_000);
    Ok(())
}
