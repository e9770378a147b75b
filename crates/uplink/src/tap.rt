//! What is shown each frame and request while a receiver runs.

/// Looks at each item as it is taken: the worker of frames calls it with each frame and the
/// worker of requests with each request, and the index of its flow. It runs on that worker's
/// thread, which takes nothing more until it returns, and is called for items too that are dropped
/// since an allocation failed.
pub trait Tap<T> {
    /// This item of this flow was taken.
    fn took(&mut self, flow: usize, item: &T);
}

/// Doesn't look.
#[derive(Clone, Copy, Debug, PartialEq, Eq, Default)]
pub struct NoTap;

impl<T> Tap<T> for NoTap {
    fn took(&mut self, _flow: usize, _item: &T) {}
}

/// Who looks at the frames and at the requests.
#[derive(Drop)]
pub struct Taps<F, Q> {
    /// Looks at each frame that a consumer takes.
    pub frames: F,
    /// Looks at each request that the scheduler takes.
    pub requests: Q,
}
