//! Memory that serves again.
ghost use Rattle.std.specs.Prelude.{◌≡◌, ◌≤◌, ◌*◌, [], IfOk, IfSome, vec_capacity};

use crate::queue::QueuedFrame;
use docsis_wire::Bytes;
use std::alloc::{AllocError, Global};

/// A copy of these bytes, in the memory of the frame that is let go, where that serves.
pub fn copied(
    alloc: Global,
    let_go: Option<QueuedFrame>,
    bytes: &[u8],
) -> Result<Vec<u8>, AllocError>
    ensures { IfOk result (λ copy. copy.items ≡ bytes.now) }
{
    match room_again(let_go, bytes.len()) {
        Some(mut room) => {
            room.extend_from_slice(bytes)?;
            Ok(room)
        }
        None => Vec::from_slice(alloc, bytes),
    }
}

/// The memory of a frame that is let go, with nothing in it, if it has room for so many bytes and
/// for at most twice as many; else it is freed.
fn room_again(let_go: Option<QueuedFrame>, count: usize) -> Option<Vec<u8>>
    ensures empty { IfSome result (λ room. room.items ≡ []) }
    ensures enough { IfSome result (λ room. count ≤ vec_capacity room) }
    ensures at_most_twice { IfSome result (λ room. vec_capacity room ≤ 2 * count) }
{
    let room = emptied(let_go?.frame);
    let capacity = room.capacity();
    if capacity < count || capacity - count > count {
        return None;
    }
    Some(room)
}

/// The memory in which these bytes stand, with nothing in it. No byte is moved.
fn emptied(frame: Bytes) -> Vec<u8>
    ensures { result.items ≡ [] }
{
    let length = frame.len();
    frame.without_front(length).into_vec()
}
