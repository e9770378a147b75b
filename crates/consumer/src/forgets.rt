//! A consumer that keeps nothing.
use crate::consumer::Consumer;
use docsis_wire::Bytes;
use lane::Request;

/// Keeps nothing of what it is given.
#[derive(Clone, Copy, Debug, PartialEq, Eq, Default)]
pub struct Forgets;

impl Consumer for Forgets {
    ghost after = { λ _ _ _. Unit {0} };

    fn frame(&mut self, _flow: usize, _frame: Bytes) {}

    fn request(&mut self, _request: Request) {}
}
