//! What is handed on, as tests look at it.
use capture_rules::HandedOn;

/// When a burst is handed on, and which.
pub type Handed = (u64, u64);

/// When a burst is handed on, and which, if one is.
pub fn told(next: Option<HandedOn<u64>>) -> Option<Handed> {
    let next = next?;
    Some((next.time, next.arrival.item))
}
