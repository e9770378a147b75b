//! Pictures of a few bursts and marks.
use capture_picture::{CapturePicture, Mark, PictureBurst, PictureChannel, put_picture};
use std::alloc::{AllocError, Global};
use text_lines::TextBuffer;

/// What comes of a capture.
#[derive(Clone, Copy)]
pub(crate) enum Step {
    /// A burst of this flow, at this time, on this channel, with this number.
    Burst(usize, u64, usize, u16),
    /// So many marks of this flow, at this time.
    Mark(usize, u64, Mark, u64),
}

/// The service flow identifier of the flow with this index.
pub(crate) fn sfid_of(flow: usize) -> u32 {
    u32::try_from(flow).unwrap_or(0).saturating_add(77)
}

/// The first so many channels, with ids from 3 on.
pub(crate) fn some_channels(alloc: Global, count: u8) -> Result<Vec<PictureChannel>, AllocError> {
    let mut channels = Vec::new(alloc);
    for channel in 0..count {
        channels.push(PictureChannel {
            channel,
            id: u32::from(channel) + 3,
        })?;
    }
    Ok(channels)
}

/// Takes what comes.
pub(crate) fn take_step(
    alloc: Global,
    picture: &mut CapturePicture,
    step: Step,
) -> Result<(), AllocError> {
    match step {
        Step::Burst(flow, time, channel, number) => picture.take_burst(
            alloc,
            PictureBurst {
                flow,
                sfid: sfid_of(flow),
                time,
                channel,
                number,
            },
        ),
        Step::Mark(flow, time, mark, count) => {
            picture.mark(flow, time, mark, count);
            Ok(())
        }
    }
}

/// A capture of so many channels of which this came.
pub(crate) fn picture_of(
    alloc: Global,
    channels: u8,
    steps: &[Step],
) -> Result<CapturePicture, AllocError> {
    let mut picture = CapturePicture::new(alloc, some_channels(alloc, channels)?);
    for step in steps {
        take_step(alloc, &mut picture, *step)?;
    }
    Ok(picture)
}

/// The picture's text.
pub(crate) fn text_of(alloc: Global, picture: &CapturePicture) -> Result<Vec<u8>, AllocError> {
    let mut text = TextBuffer::new(alloc);
    put_picture(&mut text, picture);
    text.finish()
}
