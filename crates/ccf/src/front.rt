//! What is at the front of some bytes, and the frames that follow one another from there.
ghost use Rattle.std.specs.Prelude.{◌≡◌, ◌+◌, ◌≤◌, ◌↔◌, ℕ, Bool, true, false, List, [], length};
ghost use Rattle.std.specs.Prelude.{take, IfOk, IsTrue};
ghost use Rattle.std.specs.List.{concat};
ghost use Rattle.docsis_wire.specs.Frame.{IsFrame};
ghost use Rattle.ccf.specs.Inside.Front.{IsFrontOf};
ghost use Rattle.ccf.specs.Walk.{Ends, Walks};

use docsis_wire::{Bytes, HeadRead, HeaderCheck, read_head};
use std::alloc::{AllocError, Global};

/// What is at the front of some bytes.
#[derive(Clone, Copy, Debug)]
pub enum Front {
    /// A whole frame of this many bytes.
    Whole(usize),
    /// Less than a frame, as far as can be seen: the bytes wait for more.
    Waits,
    /// Fill, or no frame at all, or a header that the check says no of: the bytes are dropped.
    Dropped,
}

/// Looks at the front of the bytes. A header is checked as soon as all of it is there, and the
/// check is called once at most.
pub fn front_of<C: HeaderCheck>(bytes: &[u8], check: &C) -> Front
    ensures { IsFrontOf (C.accepts check.now) bytes.now result }
{
    match read_head(bytes) {
        HeadRead::Short => Front::Waits,
        HeadRead::Fill | HeadRead::Bad(_) => Front::Dropped,
        HeadRead::Head { ehdr, total } => {
            if fails(bytes, 6 + usize::from(ehdr), check) {
                return Front::Dropped;
            }
            let total = total as usize;
            if total > bytes.len() {
                Front::Waits
            } else {
                Front::Whole(total)
            }
        }
    }
}

/// Whether the bytes announce one frame of just their length. They are that frame, unless the
/// check, which is not called, says no of its header.
pub fn announces_itself(bytes: &[u8]) -> bool
    ensures frame { (check : List ℕ → Bool) → IsFrame check bytes.now → IsTrue result }
    ensures dropped { IsTrue result → (check : List ℕ → Bool) → ¬ (IsFrame check bytes.now)
        → Ends check bytes.now [] }
{
    match read_head(bytes) {
        HeadRead::Head { total, .. } => total as usize == bytes.len(),
        _ => false,
    }
}

/// Whether so many bytes of header are all there and the check says no of them.
fn fails<C: HeaderCheck>(bytes: &[u8], header: usize, check: &C) -> bool
    ensures failed { IsTrue result
        ↔ ((header ≤ length bytes.now) × (C.accepts check.now (take header bytes.now) ≡ false)) }
    ensures passed { result ≡ false → header ≤ length bytes.now
        → C.accepts check.now (take header bytes.now) ≡ true }
{
    header <= bytes.len() && !check.passes(&bytes[..header])
}

/// What a walk gave: the frames, and what of the bytes is unfinished.
#[derive(Drop)]
pub struct Walked<'a> {
    pub frames: Vec<Bytes>,
    pub unfinished: &'a [u8],
    pub skipped: usize,
}

/// Takes the frames off the front of the bytes, one after another.
pub fn walk<'a, C: HeaderCheck>(
    alloc: Global,
    bytes: &'a [u8],
    check: &C,
) -> Result<Walked<'a>, AllocError>
    ensures walks { IfOk result
        (λ walked. Walks (C.accepts check.now) bytes.now walked.frames.items
        walked.unfinished.now) }
    ensures skipped { IfOk result
        (λ walked. walked.skipped + length (concat walked.frames.items)
        + length walked.unfinished.now ≡ length bytes.now) }
{
    let mut frames = Vec::new(alloc);
    let mut rest = bytes;
    loop {
        match front_of(rest, check) {
            Front::Whole(length) => {
                let (frame, after) = rest.split_at(length);
                frames.push(Bytes::from(Vec::from_slice(alloc, frame)?))?;
                rest = after;
            }
            Front::Waits => {
                return Ok(Walked {
                    frames,
                    unfinished: rest,
                    skipped: 0,
                });
            }
            Front::Dropped => {
                return Ok(Walked {
                    frames,
                    unfinished: &[],
                    skipped: rest.len(),
                });
            }
        }
    }
}
