//! Joining segments into frames, one segment at a time.
ghost use Rattle.std.specs.Prelude.{◌≡◌, ◌≢◌, ◌+◌, ◌≤◌, ◌↔◌, ℕ, Bool, true, false, List, []};
ghost use Rattle.std.specs.Prelude.{length, vec_len, IsTrue, IfOk, OnErr};
ghost use Rattle.std.specs.List.{concat};
ghost use Rattle.docsis_wire.specs.Frame.{IsFrame};
ghost use Rattle.docsis_wire.specs.Ready.{IsReady};
ghost use Rattle.ccf.specs.Walk.{Ends};
ghost use Rattle.ccf.specs.Feed.{Feeds, FeedsAs, IsOneFrame};
ghost use Rattle.ccf.specs.Whole.{FeedsUnlessWhole};
ghost use Rattle.ccf.specs.Inside.Rooms.{FreesAll};

use crate::front::{Front, announces_itself, front_of, walk};
use crate::unfinished::{append_lacking, drop_all, with_room};
use docsis_wire::{Bytes, HeaderCheck, Segment, well_formed};
use std::alloc::{AllocError, Global};
use std::marker::Model;
use std::mem;

/// What one segment completed.
#[derive(Debug, Drop)]
pub struct Fed {
    /// The frames whose last byte came with the segment, whole, in order.
    pub frames: Vec<Bytes>,
    /// How many bytes were dropped: fill, malformed bytes, and what could not be joined.
    pub skipped: usize,
}

/// What became of a segment that was to be fed unless it is one whole frame by itself.
#[derive(Debug, Drop)]
pub enum FedUnlessWhole {
    /// It is one, which is its payload, and it was not fed.
    Whole,
    /// It was fed.
    Fed(Fed),
}

/// Joins the segments of one service flow, fed in order, into frames. Contracts see the bytes that
/// are unfinished: those that wait for more, as the front of a frame whose other bytes have not
/// come.
///
/// While nothing is unfinished it holds no memory. Room for a frame's front is for the whole frame
/// that it announces, but for at most four times as many bytes as there are; it never grows beyond
/// the frame, save for a few bytes where a segment ends within a head's first four.
#[derive(Debug, Drop)]
pub struct Joiner {
    unfinished: Vec<u8>,
}

impl Model for Joiner {
    ghost Value = { List ℕ };

    ghost view = { λ joiner. joiner.unfinished.items };

    ghost invariant = { λ joiner. FreesAll joiner.unfinished };
}

impl Joiner {
    /// A joiner with nothing unfinished. It takes no memory.
    pub fn new(alloc: Global) -> Joiner
        ensures { result ≡ [] }
    {
        Joiner {
            unfinished: Vec::new(alloc),
        }
    }

    /// Takes the next segment of the flow (CM-SP-MULPIv3.0, continuous concatenation and
    /// fragmentation). Where an allocation fails nothing changes, and the same segment may be fed
    /// again.
    ///
    /// Bytes whose header is all there and doesn't pass the check are dropped as malformed ones
    /// are, though their frame isn't whole yet. The check is called at most once for each head that
    /// is looked at, on a slice of bytes that are there. While a frame is unfinished each segment
    /// looks at its head anew, so that joining costs a segment at most one check of 246 bytes
    /// beside those of the heads that begin in it.
    ///
    /// The answer is the only one: `laws::feed_has_one_answer`. Over a modem's segments it is
    /// exactly the frames that end in each:
    /// `laws::each_segment_completes_the_frames_that_end_in_it`, and with losses before it
    /// `laws::each_segment_completes_the_kept_frames_that_end_in_it`.
    #[inline(always)]
    pub fn feed<C: HeaderCheck>(
        &mut self,
        alloc: Global,
        segment: &Segment,
        check: &C,
    ) -> Result<Fed, AllocError>
        requires { IsReady segment.now }
        ensures fed { IfOk result
            (λ fed. Feeds (C.accepts check.now) self.old segment.now fed.frames.items self.new) }
        ensures skipped { IfOk result
            (λ fed. fed.skipped + length (concat fed.frames.items) + length self.new
            ≡ length self.old + length segment.now.payload) }
        ensures refused { OnErr result (self.new ≡ self.old) }
    {
        let payload = segment.payload.as_slice();
        if !segment.head.pfi {
            return go_on(&mut self.unfinished, alloc, payload, check);
        }
        let pointer = usize::from(segment.head.pointer);
        complete(&mut self.unfinished, alloc, payload, pointer, check)
    }

    /// Takes the next segment as [`Joiner::feed`] does, unless nothing is unfinished and the
    /// segment is one whole frame by itself: its header, which passes the check, begins at the
    /// first byte of the payload, and the frame ends with the last. Fed, such a segment would
    /// give its payload, and leave nothing unfinished: `laws::one_frame_is_given_as_it_is`. So
    /// the caller can keep the payload, and no memory is asked for. The check is called no more
    /// often than by `feed`.
    #[inline(always)]
    pub fn feed_unless_whole<C: HeaderCheck>(
        &mut self,
        alloc: Global,
        segment: &Segment,
        check: &C,
    ) -> Result<FedUnlessWhole, AllocError>
        requires { IsReady segment.now }
        ensures fed { IfOk result (λ answer. FeedsUnlessWhole
            (C.accepts check.now) self.old segment.now answer self.new) }
        ensures refused { OnErr result ((self.new ≡ self.old)
            × ¬ (IsOneFrame (C.accepts check.now) self.old segment.now)) }
    {
        let payload = segment.payload.as_slice();
        if !self.announces_one_frame(segment) {
            return Ok(FedUnlessWhole::Fed(self.feed(alloc, segment, check)?));
        }
        if well_formed(payload, check) {
            return Ok(FedUnlessWhole::Whole);
        }
        Ok(FedUnlessWhole::Fed(Fed {
            frames: Vec::new(alloc),
            skipped: payload.len(),
        }))
    }

    /// Whether nothing is unfinished and the segment announces one whole frame by itself.
    fn announces_one_frame(&self, segment: &Segment) -> bool
        ensures frame { (check : List ℕ → Bool) → IsOneFrame check self.now segment.now
            → IsTrue result }
        ensures begins { IsTrue result → (self.now ≡ []) × (segment.now.head.pfi ≡ true)
            × (segment.now.head.pointer ≡ 0) }
        ensures dropped { IsTrue result → (check : List ℕ → Bool)
            → ¬ (IsFrame check segment.now.payload) → Ends check segment.now.payload [] }
    {
        let head = &segment.head;
        if !self.is_idle() || !head.pfi || head.pointer != 0 {
            return false;
        }
        announces_itself(segment.payload.as_slice())
    }

    /// Drops what is unfinished, since a segment was lost, and answers how many bytes that was. It
    /// takes no memory. It is what a lost segment does in a settled list: `laws::gap_is_a_loss`.
    pub fn gap(&mut self) -> usize
        ensures dropped { result ≡ length self.old }
        ensures nothing_left { self.new ≡ [] }
    {
        drop_all(&mut self.unfinished)
    }

    /// Whether nothing is unfinished.
    pub fn is_idle(&self) -> bool
        ensures { IsTrue result ↔ (self.now ≡ []) }
    {
        self.unfinished.is_empty()
    }
}

/// Takes the payload of a segment in which no MAC header begins.
#[inline(always)]
fn go_on<C: HeaderCheck>(
    unfinished: &mut Vec<u8>,
    alloc: Global,
    payload: &[u8],
    check: &C,
) -> Result<Fed, AllocError>
    ensures fed { IfOk result
        (λ fed. FeedsAs (C.accepts check.now) false unfinished.old.items 0 payload.now
        fed.frames.items unfinished.new.items) }
    ensures skipped { IfOk result
        (λ fed. fed.skipped + length (concat fed.frames.items) + vec_len unfinished.new
        ≡ vec_len unfinished.old + length payload.now) }
    ensures refused { OnErr result (unfinished.new.items ≡ unfinished.old.items) }
    ensures frees { FreesAll unfinished.old → FreesAll unfinished.new }
{
    let mut frames = Vec::new(alloc);
    if unfinished.is_empty() {
        return Ok(Fed {
            frames,
            skipped: payload.len(),
        });
    }
    let kept = unfinished.len();
    let left = append_lacking(unfinished, payload)?;
    let mut skipped = left.len();
    match front_of(unfinished, check) {
        Front::Waits => {}
        Front::Dropped => skipped += drop_all(unfinished),
        Front::Whole(length) => {
            if frames.reserve(1).is_err() {
                unfinished.truncate(kept);
                return Err(AllocError);
            }
            skipped += unfinished.len() - length;
            unfinished.truncate(length);
            frames.push_reserved(Bytes::from(mem::replace(unfinished, Vec::new(alloc))));
        }
    }
    Ok(Fed { frames, skipped })
}

/// Takes the payload of a segment in which a MAC header begins at `pointer`.
fn complete<C: HeaderCheck>(
    unfinished: &mut Vec<u8>,
    alloc: Global,
    payload: &[u8],
    pointer: usize,
    check: &C,
) -> Result<Fed, AllocError>
    requires { pointer ≤ length payload.now }
    ensures fed { IfOk result
        (λ fed. FeedsAs (C.accepts check.now) true unfinished.old.items pointer payload.now
        fed.frames.items unfinished.new.items) }
    ensures skipped { IfOk result
        (λ fed. fed.skipped + length (concat fed.frames.items) + vec_len unfinished.new
        ≡ vec_len unfinished.old + length payload.now) }
    ensures refused { OnErr result (unfinished.new.items ≡ unfinished.old.items) }
    ensures frees { FreesAll unfinished.old → FreesAll unfinished.new }
{
    let (front, after) = payload.split_at(pointer);
    // All allocations come first, so that one that fails leaves everything as it was.
    let walked = walk(alloc, after, check)?;
    let next = with_room(alloc, walked.unfinished)?;
    let mut frames = walked.frames;
    if unfinished.is_empty() {
        *unfinished = next;
        return Ok(Fed {
            frames,
            skipped: walked.skipped + pointer,
        });
    }
    frames.reserve(1)?;
    unfinished.reserve_exact(front.len())?;
    unfinished.extend_from_slice(front)?;
    let mut skipped = walked.skipped;
    let done = mem::replace(unfinished, next);
    if well_formed(&done, check) {
        frames.insert(0, Bytes::from(done)).unwrap();
    } else {
        skipped += done.len();
    }
    Ok(Fed { frames, skipped })
}
