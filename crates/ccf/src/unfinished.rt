//! The bytes that are unfinished, and the room for them.
ghost use Rattle.std.specs.Prelude.{◌≡◌, ◌≢◌, ◌+◌, ◌≤◌, ◌*◌, ℕ, [], length, min, max, vec_len};
ghost use Rattle.std.specs.Prelude.{vec_capacity, IfOk, OnOk, OnErr};
ghost use Rattle.docsis_wire.specs.Head.{head_of};
ghost use Rattle.ccf.specs.Inside.Rooms.{announced_by, Appends, EndsFrame, FreesAll};

use docsis_wire::{HeadRead, read_head};
use std::alloc::{AllocError, Global};
use std::mem;

/// With how many bytes a head is read.
const HEAD: usize = 4;

/// These bytes, as unfinished ones. Memory is asked for once, and not at all where there are none.
pub fn with_room(alloc: Global, bytes: &[u8]) -> Result<Vec<u8>, AllocError>
    ensures items { IfOk result (λ unfinished. unfinished.items ≡ bytes.now) }
    ensures frees { IfOk result FreesAll }
{
    let mut unfinished = Vec::new(alloc);
    if !bytes.is_empty() {
        make_room(&mut unfinished, bytes.len(), announced(bytes))?;
        unfinished.extend_from_slice(bytes)?;
    }
    Ok(unfinished)
}

/// Drops all bytes that are unfinished, and the room for them. The answer is how many there were.
pub fn drop_all(unfinished: &mut Vec<u8>) -> usize
    ensures count { result ≡ vec_len unfinished.old }
    ensures items { unfinished.new.items ≡ [] }
    ensures frees { FreesAll unfinished.new }
{
    let alloc = *unfinished.allocator();
    mem::replace(unfinished, Vec::new(alloc)).len()
}

/// Appends what the unfinished frame lacks of the bytes that come next, and answers those that are
/// left, behind its end. Where the head turns out to be no frame's, only the head's four bytes are
/// appended.
#[inline(always)]
pub fn append_lacking<'a>(unfinished: &mut Vec<u8>, next: &'a [u8]) -> Result<&'a [u8], AllocError>
    ensures appends { IfOk result
        (λ left. Appends unfinished.old.items next.now unfinished.new.items left.now) }
    ensures ends { IfOk result
        (λ left. left.now ≢ [] → EndsFrame unfinished.new.items) }
    ensures refused { OnErr result (unfinished.new.items ≡ unfinished.old.items) }
{
    let kept = unfinished.len();
    let (front, rest) = next.split_at(next.len().min(HEAD.saturating_sub(kept)));
    unfinished.extend_from_slice(front)?;
    match append_rest(unfinished, rest) {
        Ok(left) => Ok(left),
        Err(AllocError) => {
            unfinished.truncate(kept);
            Err(AllocError)
        }
    }
}

/// The same for bytes of which the head is there already, or for no more bytes.
fn append_rest<'a>(unfinished: &mut Vec<u8>, next: &'a [u8]) -> Result<&'a [u8], AllocError>
    ensures appends { IfOk result
        (λ left. Appends unfinished.old.items next.now unfinished.new.items left.now) }
    ensures ends { IfOk result (λ left. left.now ≢ [] → 4 ≤ length unfinished.old.items
        → EndsFrame unfinished.new.items) }
    ensures frame_only { IfOk result (λ _. vec_len unfinished.new
        ≤ max (vec_len unfinished.old) (announced_by (head_of unfinished.old.items))) }
    ensures refused { OnErr result (unfinished.new.items ≡ unfinished.old.items) }
{
    let total = announced(unfinished);
    let lacking = total.saturating_sub(unfinished.len()).min(next.len());
    let (within, left) = next.split_at(lacking);
    make_room(unfinished, lacking, total)?;
    unfinished.extend_from_slice(within)?;
    Ok(left)
}

/// How many bytes the frame at the front has, as its head announces; 0 where there is no head.
fn announced(bytes: &[u8]) -> usize
    ensures { result ≡ announced_by (head_of bytes.now) }
{
    match read_head(bytes) {
        HeadRead::Head { total, .. } => total as usize,
        _ => 0,
    }
}

/// Makes room for so many bytes more of a frame of `total` bytes, if there is none. The new room is
/// for the whole frame, but for at most four times as many bytes as there are then.
fn make_room(unfinished: &mut Vec<u8>, more: usize, total: usize) -> Result<(), AllocError>
    ensures items { unfinished.new.items ≡ unfinished.old.items }
    ensures four_times { OnOk result (vec_capacity unfinished.new
        ≤ max (vec_capacity unfinished.old) (4 * (vec_len unfinished.old + more))) }
    ensures whole { OnOk result (vec_capacity unfinished.new
        ≤ max (vec_capacity unfinished.old) (max (vec_len unfinished.old + more) total)) }
    ensures refused { OnErr result
        (vec_capacity unfinished.new ≡ vec_capacity unfinished.old) }
{
    let there = unfinished.len().saturating_add(more);
    if there <= unfinished.capacity() {
        return Ok(());
    }
    let room = total.min(there.saturating_mul(4)).max(there);
    unfinished.reserve_exact(room - unfinished.len())
}
