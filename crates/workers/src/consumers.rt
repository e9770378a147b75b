//! Who takes what a running receiver gives.

/// Who takes the frames, on the worker of frames, and who takes the requests, on the worker of
/// requests.
#[derive(Drop)]
pub struct Consumers<F, Q> {
    pub consumer: F,
    pub scheduler: Q,
}
