//! Flows of a few segments, with what each completes, and the greatest sizes.
mod calls;
mod failed_allocations;
mod room;

use crate::expect::{expect_bytes, expect_same, expect_true};
use crate::samples::{EXTENDED, FIRST, NotEndingIn12, PLAIN, SECOND, SPOILED, THIRD, same_bytes};
use ccf::{Fed, FedUnlessWhole, Joiner};
use docsis_wire::{HeaderCheck, NoCheck, Segment, ready};
use std::alloc::{AllocError, Global};
use std::process::Abort;
use std::test::Fail;

#[derive(Clone, Copy)]
struct Joining {
    name: &'static str,
    /// The segments in order, header and payload.
    segments: &'static [&'static [u8]],
    /// For each segment the frames that it completes.
    frames: &'static [&'static [&'static [u8]]],
    /// For each segment how many bytes were skipped.
    skipped: &'static [usize],
    /// Whether nothing is unfinished in the end.
    idle: bool,
}

const TWO_FRAMES: Joining = Joining {
    name: "two frames cut inside both headers",
    segments: &[FIRST, SECOND, THIRD],
    frames: &[&[], &[PLAIN], &[EXTENDED]],
    skipped: &[0, 0, 0],
    idle: true,
};

const JOININGS: [Joining; 9] = [
    Joining {
        name: "the first of the three segments is lost",
        segments: &[SECOND, THIRD],
        frames: &[&[], &[EXTENDED]],
        skipped: &[3, 0],
        idle: true,
    },
    TWO_FRAMES,
    Joining {
        name: "two bytes of zero fill",
        segments: &[
            &[
                0x80, 0, 0, 0, 0, 0, 0, 0, 0, 0, 0, 2, 0x11, 0x11, 0xaa, 0xbb, 0, 0,
            ],
            &[
                0x80, 0, 0, 8, 0, 0, 0, 0, 1, 1, 0, 3, 0xe0, 0x22, 0x22, 0xcc, 0xdd,
            ],
        ],
        frames: &[&[PLAIN], &[EXTENDED]],
        skipped: &[0, 2],
        idle: true,
    },
    Joining {
        name: "fill of ones, and a segment of fill alone",
        segments: &[
            &[
                0x80, 0, 0, 0, 0, 0, 0, 0, 0, 0, 0, 2, 0x11, 0x11, 0xaa, 0xbb, 0xff, 0xff,
            ],
            &[0, 0, 0, 8, 0, 0, 0, 0, 0xff, 0xff, 0xff, 0xff],
            &[
                0x80, 0, 0, 0x10, 0, 0, 0, 0, 1, 1, 0, 3, 0xe0, 0x22, 0x22, 0xcc, 0xdd,
            ],
        ],
        frames: &[&[PLAIN], &[], &[EXTENDED]],
        skipped: &[2, 4, 0],
        idle: true,
    },
    Joining {
        name: "a segment without payload is no gap",
        segments: &[
            FIRST,
            &[0, 0, 0, 8, 0, 0, 0, 0],
            &[0, 0, 0, 0x10, 0, 0, 0, 0, 0x11, 0xaa, 0xbb],
        ],
        frames: &[&[], &[], &[PLAIN]],
        skipped: &[0, 0, 0],
        idle: true,
    },
    Joining {
        name: "a request frame inside a stream hides what follows",
        segments: &[&[
            0x80, 0, 0, 0, 0, 0, 0, 0, 0, 0, 0, 2, 0x11, 0x11, 0xaa, 0xbb, 0xc8, 0, 0, 0, 0, 0, 0,
            1, 1, 0, 3, 0xe0, 0x22, 0x22, 0xcc, 0xdd,
        ]],
        frames: &[&[PLAIN]],
        skipped: &[16],
        idle: true,
    },
    Joining {
        name: "a pointer one byte too low",
        segments: &[
            FIRST,
            &[0x80, 2, 0, 8, 0, 0, 0, 0, 0x11, 0xaa, 0xbb, 1, 1, 0, 3],
        ],
        frames: &[&[], &[]],
        skipped: &[0, 7],
        idle: false,
    },
    Joining {
        name: "a pointer one byte too high",
        segments: &[
            FIRST,
            &[
                0x80, 4, 0, 8, 0, 0, 0, 0, 0x11, 0xaa, 0xbb, 0, 1, 1, 0, 3, 0xe0, 0x22, 0x22, 0xcc,
                0xdd,
            ],
        ],
        frames: &[&[], &[EXTENDED]],
        skipped: &[0, 9],
        idle: true,
    },
    Joining {
        name: "a header that the second segment shows to be malformed",
        segments: &[
            &[0x80, 0, 0, 0, 0, 0, 0, 0, 1],
            &[0, 0, 0, 8, 0, 0, 0, 0, 0xf1, 0xff, 0xff],
        ],
        frames: &[&[], &[]],
        skipped: &[0, 4],
        idle: true,
    },
];

impl Joining {
    /// Whether the segment in this place completes what it should.
    fn is_answered(&self, place: usize, fed: &Fed) -> bool {
        match (self.frames.get(place), self.skipped.get(place)) {
            (Some(frames), Some(skipped)) => {
                same_bytes(&fed.frames, frames) && fed.skipped == *skipped
            }
            _ => false,
        }
    }

    /// Ends the test if the segment in this place completes something else.
    fn expect_answered(&self, rt: &impl Abort, place: usize, fed: &Fed) {
        let right = self.is_answered(place, fed);
        assert!(rt; right, "{}, segment {place}: {fed:?}", self.name);
    }
}

/// Feeds a segment of these bytes.
fn feed_bytes<C: HeaderCheck>(
    rt: &impl Abort,
    alloc: Global,
    joiner: &mut Joiner,
    bytes: &[u8],
    check: &C,
) -> Result<Fed, Fail> {
    let next = Segment::read(alloc, bytes)?;
    expect_true(rt, "a segment that was read", ready(&next));
    Ok(joiner.feed(alloc, &next, check)?)
}

/// How many frames a segment of these bytes completes, and how many bytes are skipped.
fn feed_and_count(
    rt: &impl Abort,
    alloc: Global,
    joiner: &mut Joiner,
    bytes: &[u8],
) -> Result<(usize, usize), Fail> {
    let fed = feed_bytes(rt, alloc, joiner, bytes, &NoCheck)?;
    Ok((fed.frames.len(), fed.skipped))
}

/// Feeds the segments of a flow and compares what each completes.
fn joins_as<C: HeaderCheck>(
    rt: &impl Abort,
    alloc: Global,
    joining: &Joining,
    check: &C,
) -> Result<(), Fail> {
    let mut joiner = Joiner::new(alloc);
    expect_true(rt, joining.name, joiner.is_idle());
    for (place, bytes) in joining.segments.iter().enumerate() {
        let fed = feed_bytes(rt, alloc, &mut joiner, bytes, check)?;
        joining.expect_answered(rt, place, &fed);
    }
    expect_same(rt, joining.name, joiner.is_idle(), joining.idle);
    Ok(())
}

#[test]
fn joins(rt: HostRuntime) -> Result<(), Fail> {
    for joining in &JOININGS {
        joins_as(&rt, rt.alloc(), joining, &NoCheck)?;
    }
    Ok(())
}

/// A segment behind another one, if there is one, and how many bytes are skipped if it isn't one
/// whole frame by itself.
#[derive(Clone, Copy)]
struct Whole {
    name: &'static str,
    before: Option<&'static [u8]>,
    segment: &'static [u8],
    skipped: Option<usize>,
}

const PLAIN_ALONE: &[u8] = &[
    0x80, 0, 0, 0, 0, 0, 0, 0, 0, 0, 0, 2, 0x11, 0x11, 0xaa, 0xbb,
];

const WHOLE: [Whole; 7] = [
    Whole {
        name: "a frame alone",
        before: None,
        segment: PLAIN_ALONE,
        skipped: None,
    },
    Whole {
        name: "a frame behind unfinished bytes",
        before: Some(FIRST),
        segment: PLAIN_ALONE,
        skipped: Some(5),
    },
    Whole {
        name: "no header begins",
        before: None,
        segment: &[0, 0, 0, 0, 0, 0, 0, 0, 0, 0, 0, 2, 0x11, 0x11, 0xaa, 0xbb],
        skipped: Some(8),
    },
    Whole {
        name: "the header begins behind a byte",
        before: None,
        segment: &[
            0x80, 1, 0, 0, 0, 0, 0, 0, 0, 0, 0, 0, 2, 0x11, 0x11, 0xaa, 0xbb,
        ],
        skipped: Some(1),
    },
    Whole {
        name: "a byte behind the frame",
        before: None,
        segment: &[
            0x80, 0, 0, 0, 0, 0, 0, 0, 0, 0, 0, 2, 0x11, 0x11, 0xaa, 0xbb, 0,
        ],
        skipped: Some(0),
    },
    Whole {
        name: "the frame's last byte is missing",
        before: None,
        segment: &[0x80, 0, 0, 0, 0, 0, 0, 0, 0, 0, 0, 2, 0x11, 0x11, 0xaa],
        skipped: Some(0),
    },
    Whole {
        name: "a spoiled header",
        before: None,
        segment: &[
            0x80, 0, 0, 0, 0, 0, 0, 0, 0, 0, 0, 2, 0x11, 0x12, 0xaa, 0xbb,
        ],
        skipped: Some(8),
    },
];

#[test]
fn tells_one_whole_frame(rt: HostRuntime) -> Result<(), Fail> {
    for whole in &WHOLE {
        let mut joiner = Joiner::new(rt.alloc());
        if let Some(before) = whole.before {
            feed_bytes(&rt, rt.alloc(), &mut joiner, before, &NotEndingIn12)?;
        }
        let next = Segment::read(rt.alloc(), whole.segment)?;
        expect_true(&rt, whole.name, ready(&next));
        let fed = joiner.feed_unless_whole(rt.alloc(), &next, &NotEndingIn12)?;
        let skipped = match fed {
            FedUnlessWhole::Whole => None,
            FedUnlessWhole::Fed(fed) => Some(fed.skipped),
        };
        expect_same(&rt, whole.name, skipped, whole.skipped);
    }
    Ok(())
}

/// The second of three segments is lost: five bytes are dropped, and those after it belong to no
/// frame.
fn gap_before(
    rt: &impl Abort,
    alloc: Global,
    name: &str,
    after: &[u8],
    skipped: usize,
) -> Result<(), Fail> {
    let mut joiner = Joiner::new(alloc);
    let before = feed_and_count(rt, alloc, &mut joiner, FIRST)?;
    expect_same(rt, name, before, (0, 0));
    expect_true(rt, name, !joiner.is_idle());
    expect_same(rt, name, joiner.gap(), 5);
    expect_true(rt, name, joiner.is_idle());
    let counted = feed_and_count(rt, alloc, &mut joiner, after)?;
    expect_same(rt, name, counted, (0, skipped));
    Ok(())
}

/// The end of a frame in a segment of its own.
const LAST: &[u8] = &[0, 0, 0, 0x10, 0, 0, 0, 0, 0x11, 0xaa, 0xbb];

/// What a flow gives of which a segment was lost: the gap is made where the segment would have
/// come.
#[test]
fn goes_on_after_a_gap(rt: HostRuntime) -> Result<(), Fail> {
    expect_same(
        &rt,
        "nothing is unfinished",
        Joiner::new(rt.alloc()).gap(),
        0,
    );
    let name = "the frame's end and the next frame's front";
    gap_before(&rt, rt.alloc(), name, THIRD, 5)?;
    gap_before(&rt, rt.alloc(), "a segment without payload", LAST, 3)
}

/// The two frames and the spoiled one between them, in one segment.
const BETWEEN: &[u8] = &[
    0x80, 0, 0, 0, 0, 0, 0, 0, 0, 0, 0, 2, 0x11, 0x11, 0xaa, 0xbb, 0, 0, 0, 2, 0x11, 0x12, 0xaa,
    0xbb, 1, 1, 0, 3, 0xe0, 0x22, 0x22, 0xcc, 0xdd,
];

const UNCHECKED: Joining = Joining {
    name: "without the check the spoiled header is a header",
    segments: &[BETWEEN],
    frames: &[&[PLAIN, SPOILED, EXTENDED]],
    skipped: &[0],
    idle: true,
};

const CHECKED: [Joining; 3] = [
    Joining {
        name: "a spoiled header hides what follows",
        segments: &[BETWEEN],
        frames: &[&[PLAIN]],
        skipped: &[17],
        idle: true,
    },
    Joining {
        name: "a spoiled header that the second segment completes",
        segments: &[FIRST, &[0, 0, 0, 8, 0, 0, 0, 0, 0x12, 0xaa, 0xbb]],
        frames: &[&[], &[]],
        skipped: &[0, 8],
        idle: true,
    },
    Joining {
        name: "a spoiled header whose frame is not whole yet",
        segments: &[
            &[0x80, 0, 0, 0, 0, 0, 0, 0, 0, 0, 0, 2, 0x11, 0x12],
            &[0, 0, 0, 8, 0, 0, 0, 0, 0xaa, 0xbb],
        ],
        frames: &[&[], &[]],
        skipped: &[6, 2],
        idle: true,
    },
];

#[test]
fn drops_what_fails_the_check(rt: HostRuntime) -> Result<(), Fail> {
    for joining in &CHECKED {
        joins_as(&rt, rt.alloc(), joining, &NotEndingIn12)?;
    }
    joins_as(&rt, rt.alloc(), &UNCHECKED, &NoCheck)
}

/// These bytes, and so many more.
fn extended(alloc: Global, front: &[u8], more: usize, byte: u8) -> Result<Vec<u8>, AllocError> {
    let mut bytes = Vec::from_slice(alloc, front)?;
    for _ in 0..more {
        bytes.push(byte)?;
    }
    Ok(bytes)
}

/// The header of a segment in which a frame of 65,541 bytes begins, with an extended header of 240,
/// and the front of that frame.
const LONGEST: &[u8] = &[0x80, 0, 0, 0, 0, 0, 0, 0, 1, 240, 0xff, 0xff];

/// The header of a segment in which another frame begins 5,537 bytes further on.
const END_OF_LONGEST: &[u8] = &[0x80 | 0x15, 0xa1, 0, 0x10, 0, 0, 0, 0];

/// The longest frame, and then the plain one.
fn expect_longest_and_plain(rt: &impl Abort, fed: &Fed) {
    expect_same(
        rt,
        "frames, skipped",
        (fed.frames.len(), fed.skipped),
        (2, 0),
    );
    if let [longest, plain] = fed.frames.as_slice() {
        expect_same(rt, "the longest frame's bytes", longest.len(), 65_541);
        let end = longest.as_slice().last().copied();
        expect_same(rt, "the longest frame's end", end, Some(0x22));
        expect_bytes(rt, "the plain frame", plain.as_slice(), PLAIN);
    }
}

/// Three segments, and in the third one a short frame too.
#[test]
fn joins_the_longest_frame(rt: HostRuntime) -> Result<(), Fail> {
    let mut joiner = Joiner::new(rt.alloc());
    let first = extended(rt.alloc(), LONGEST, 30_000, 0x11)?;
    let counted = feed_and_count(&rt, rt.alloc(), &mut joiner, &first)?;
    expect_same(&rt, "the first segment", counted, (0, 0));
    let second = extended(rt.alloc(), &[0, 0, 0, 8, 0, 0, 0, 0], 30_000, 0x11)?;
    let counted = feed_and_count(&rt, rt.alloc(), &mut joiner, &second)?;
    expect_same(&rt, "the second segment", counted, (0, 0));
    let mut third = extended(rt.alloc(), END_OF_LONGEST, 5537, 0x22)?;
    third.extend_from_slice(PLAIN)?;
    let fed = feed_bytes(&rt, rt.alloc(), &mut joiner, &third, &NoCheck)?;
    expect_longest_and_plain(&rt, &fed);
    expect_true(&rt, "idle in the end", joiner.is_idle());
    Ok(())
}

/// A frame with this length in its header, whole in one segment of so many bytes.
fn joins_whole(rt: &impl Abort, alloc: Global, length: u16, size: usize) -> Result<(), Fail> {
    let [high, low] = length.to_be_bytes();
    let head = [0x80, 0, 0, 0, 0, 0, 0, 0, 0, 0, high, low];
    let bytes = extended(alloc, &head, usize::from(length) + 2, 0x11)?;
    let payload = bytes.get(8..).ok_or("a header alone")?;
    expect_same(rt, "the payload's bytes", payload.len(), size);
    let mut joiner = Joiner::new(alloc);
    let fed = feed_bytes(rt, alloc, &mut joiner, &bytes, &NoCheck)?;
    expect_true(
        rt,
        "the payload is the frame",
        same_bytes(&fed.frames, &[payload]),
    );
    expect_same(rt, "skipped", fed.skipped, 0);
    expect_true(rt, "idle in the end", joiner.is_idle());
    Ok(())
}

/// The longest frame whole in one segment, and the longest payload that a grant has room for.
#[test]
fn joins_a_long_frame_of_one_segment(rt: HostRuntime) -> Result<(), Fail> {
    joins_whole(&rt, rt.alloc(), 0xffff, 65_541)?;
    joins_whole(&rt, rt.alloc(), 0xfff1, 65_527)
}

/// A segment of a thousand plain frames.
fn thousand_frames(alloc: Global) -> Result<Vec<u8>, AllocError> {
    let mut bytes = Vec::from_slice(alloc, &[0x80, 0, 0, 0, 0, 0, 0, 0])?;
    for _ in 0..1000 {
        bytes.extend_from_slice(PLAIN)?;
    }
    Ok(bytes)
}

#[test]
fn joins_many_frames_of_one_segment(rt: HostRuntime) -> Result<(), Fail> {
    let bytes = thousand_frames(rt.alloc())?;
    let mut joiner = Joiner::new(rt.alloc());
    let fed = feed_bytes(&rt, rt.alloc(), &mut joiner, &bytes, &NoCheck)?;
    expect_same(
        &rt,
        "frames, skipped",
        (fed.frames.len(), fed.skipped),
        (1000, 0),
    );
    let plain = fed.frames.iter().all(|frame| frame.as_slice() == PLAIN);
    expect_true(&rt, "plain frames", plain);
    Ok(())
}

/// The segment whose pointer is one byte too low.
const LOW: &[u8] = &[0x80, 2, 0, 8, 0, 0, 0, 0, 0x11, 0xaa, 0xbb, 1, 1, 0, 3];

/// The five bytes that stay, bb01010003, announce a frame of 262 bytes.
#[test]
fn keeps_what_a_low_pointer_begins(rt: HostRuntime) -> Result<(), Fail> {
    let mut joiner = Joiner::new(rt.alloc());
    let first = feed_and_count(&rt, rt.alloc(), &mut joiner, FIRST)?;
    expect_same(&rt, "frames of the first segment", first.0, 0);
    let low = feed_and_count(&rt, rt.alloc(), &mut joiner, LOW)?;
    expect_same(&rt, "frames of the second segment", low.0, 0);
    let rest = extended(rt.alloc(), &[0, 0, 0, 0x10, 0, 0, 0, 0], 257, 0x11)?;
    let fed = feed_bytes(&rt, rt.alloc(), &mut joiner, &rest, &NoCheck)?;
    expect_same(&rt, "frames of the third segment", fed.frames.len(), 1);
    if let [frame] = fed.frames.as_slice() {
        expect_same(&rt, "the frame's bytes", frame.len(), 262);
        let begins = frame.as_slice().starts_with(&[0xbb, 1, 1, 0, 3]);
        expect_true(&rt, "the frame begins with what stayed", begins);
    }
    Ok(())
}
