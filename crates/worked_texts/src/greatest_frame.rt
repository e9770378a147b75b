//! The longest frame that there is.
use std::alloc::{AllocError, Global};

/// The digits of a frame of 6 + 65,535 bytes, after a front.
pub(crate) fn greatest_frame_after(alloc: Global, front: &[u8]) -> Result<Vec<u8>, AllocError> {
    let zeros = vec![in alloc; b'0'; 2 * 65_537]?;
    let mut text = Vec::from_slice(alloc, front)?;
    text.extend_from_slice(b"0101ffff")?;
    text.extend_from_slice(&zeros)?;
    Ok(text)
}
