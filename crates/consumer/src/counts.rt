//! A consumer that counts.
use crate::consumer::Consumer;
use docsis_wire::Bytes;
use lane::Request;

/// Counts what it is given. Each count stays at its greatest value, 2^64 - 1.
#[derive(Clone, Copy, Debug, PartialEq, Eq, Default)]
pub struct Counts {
    /// How many frames there were.
    pub frames: u64,
    /// How many bytes the frames had.
    pub bytes: u64,
    /// How many requests there were.
    pub requests: u64,
}

impl Consumer for Counts {
    ghost use Rattle.consumer.specs.Counting.{HasCounted};

    ghost after = { HasCounted };

    fn frame(&mut self, _flow: usize, frame: Bytes) {
        self.frames = self.frames.saturating_add(1);
        self.bytes = self.bytes.saturating_add(frame.len() as u64);
    }

    fn request(&mut self, _request: Request) {
        self.requests = self.requests.saturating_add(1);
    }
}
