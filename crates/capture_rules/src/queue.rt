//! Queues from which something is taken at a place.
ghost use Rattle.std.specs.Prelude.{◌≡◌, ◌<◌, ◌↔◌, length, remove, slice_index_or, IsSome, IfSome};
ghost use Rattle.std.specs.Prelude.{IfNone, OnSome};

use std::collections::VecDeque;

/// Takes out what stands at this place, if the queue has it: as a rule it is the first.
pub(crate) fn take_at<T>(queue: &mut VecDeque<T>, at: usize) -> Option<T>
    ensures some { IsSome result ↔ (at < length queue.old.items) }
    ensures value { IfSome result (λ one. one ≡ slice_index_or queue.old.items at one) }
    ensures items { OnSome result (queue.new.items ≡ remove queue.old.items at) }
    ensures unchanged { IfNone result (queue.new.items ≡ queue.old.items) }
{
    if at == 0 {
        queue.pop_front()
    } else {
        queue.remove(at)
    }
}
