//! A place in the byte stream that frames make end to end.
ghost use Rattle.std.specs.Prelude.{◌≡◌, ◌+◌, ◌<◌, ◌≤◌, length, min, is_some, unwrap_or};
ghost use Rattle.std.specs.List.{concat, AllByRecursion};
ghost use Rattle.docsis_wire.specs.Frame.{IsGenericFrame};
ghost use Rattle.docsis_wire.specs.Cut.{Points};
ghost use Rattle.docsis_wire.specs.Inside.Cursor.{place_at, IsPlaced, chunk_at};

use crate::buffer::Bytes;

/// A place in the stream that some frames make end to end: so many bytes after the start of a
/// frame, or after the last frame.
#[derive(Clone, Copy)]
pub struct Cursor {
    pub frame: usize,
    pub offset: usize,
}

/// The place before the first frame.
pub const START: Cursor = Cursor {
    frame: 0,
    offset: 0,
};

/// The bytes that come next, at most `most` of them and all in one frame. The cursor moves past
/// them.
pub fn next_part<'a>(frames: &'a [Bytes], at: &mut Cursor, most: usize) -> &'a [u8]
    requires placed { IsPlaced frames.now at.old }
    requires each { AllByRecursion IsGenericFrame frames.now }
    ensures placed { IsPlaced frames.now at.new }
    ensures part { result.now ≡ chunk_at frames.now at.old (length result.now) }
    ensures moved { place_at frames.now at.new ≡ place_at frames.now at.old + length result.now }
    ensures within { length result.now ≤ most }
    ensures some { 0 < most → at.old.frame < length frames.now → 0 < length result.now }
{
    let Some(frame) = frames.get(at.frame) else {
        return &[];
    };
    let rest = &frame.as_slice()[at.offset..];
    if most < rest.len() {
        at.offset += most;
        return &rest[..most];
    }
    *at = Cursor {
        frame: at.frame + 1,
        offset: 0,
    };
    rest
}

/// Moves the cursor on by so many bytes, or to the end of the last frame if that is nearer.
pub fn advance(frames: &[Bytes], at: &mut Cursor, bytes: usize)
    requires placed { IsPlaced frames.now at.old }
    requires each { AllByRecursion IsGenericFrame frames.now }
    ensures placed { IsPlaced frames.now at.new }
    ensures moved { place_at frames.now at.new
        ≡ min (place_at frames.now at.old + bytes) (length (concat frames.now)) }
{
    let mut left = bytes;
    while left > 0 {
        let part = next_part(frames, at, left);
        if part.is_empty() {
            break;
        }
        left -= part.len();
    }
}

/// How many of the next `bytes` bytes come before the first frame that starts in them, if one does.
pub fn first_start(frames: &[Bytes], at: Cursor, bytes: usize) -> Option<usize>
    requires placed { IsPlaced frames.now at }
    requires each { AllByRecursion IsGenericFrame frames.now }
    ensures { Points (is_some result) (unwrap_or result 0) frames.now
        (place_at frames.now at) (chunk_at frames.now at bytes) }
{
    let frame = frames.get(at.frame)?;
    let mut starting = at.frame;
    let mut before = 0;
    if at.offset > 0 {
        starting += 1;
        before = frame.len() - at.offset;
    }
    (starting < frames.len() && before < bytes).then_some(before)
}
