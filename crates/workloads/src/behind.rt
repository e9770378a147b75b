//! Channels that are behind.
use std::alloc::{AllocError, Global};
use std::collections::VecDeque;

/// Of each channel what was made and isn't sent.
#[derive(Drop)]
pub struct Behind<T> {
    channels: Vec<VecDeque<T>>,
}

impl<T: Drop> Behind<T> {
    /// So many channels, of which nothing was made.
    pub fn new(alloc: Global, count: u32) -> Result<Behind<T>, AllocError> {
        let mut channels = Vec::new(alloc);
        for _ in 0..count {
            channels.push(VecDeque::new(alloc))?;
        }
        Ok(Behind { channels })
    }

    /// Adds what was made last of a channel.
    pub fn push(&mut self, channel: usize, newest: T) -> Result<(), AllocError> {
        if let Some(queue) = self.channels.get_mut(channel) {
            queue.push_back(newest)?;
        }
        Ok(())
    }

    /// Takes what was made first of a channel, once more than so many are there.
    pub fn pop(&mut self, channel: usize, behind: usize) -> Option<T> {
        let queue = self.channels.get_mut(channel)?;
        if queue.len() <= behind {
            return None;
        }
        queue.pop_front()
    }
}
