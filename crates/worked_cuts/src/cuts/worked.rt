//! Worked examples, at once and a segment at a time.
use super::{expect_segment, expect_segments, named, owned};
use docsis_wire::{Bytes, CutFault, Cutter, FillByte, NoCheck, Segment, cut};
use std::alloc::Global;
use std::process::Abort;
use std::test::Fail;
use worked_frames::samples::{EXTENDED, FIRST, PLAIN, SECOND, THIRD};

pub struct Cutting {
    pub name: &'static str,
    pub frames: &'static [&'static [u8]],
    /// For each piece its bytes and its fill.
    pub pieces: &'static [(u16, u16)],
    pub first: u16,
    pub fill: FillByte,
    /// The segments, header and payload.
    pub segments: &'static [&'static [u8]],
}

/// The pieces and the segments of the two frames cut inside both of their headers.
pub const INSIDE_PIECES: &[(u16, u16)] = &[(5, 0), (7, 0), (5, 0)];

pub const INSIDE_SEGMENTS: &[&[u8]] = &[FIRST, SECOND, THIRD];

pub const CUTTINGS: [Cutting; 10] = [
    Cutting {
        name: "two frames cut inside both headers",
        frames: &[PLAIN, EXTENDED],
        pieces: INSIDE_PIECES,
        first: 0,
        fill: FillByte::Zero,
        segments: INSIDE_SEGMENTS,
    },
    Cutting {
        name: "a piece without bytes inside a frame",
        frames: &[PLAIN],
        pieces: &[(5, 0), (0, 0), (3, 0)],
        first: 0,
        fill: FillByte::Zero,
        segments: &[
            &[0x80, 0, 0, 0, 0, 0, 0, 0, 0, 0, 0, 2, 0x11],
            &[0, 0, 0, 8, 0, 0, 0, 0],
            &[0, 0, 0, 0x10, 0, 0, 0, 0, 0x11, 0xaa, 0xbb],
        ],
    },
    Cutting {
        name: "two bytes of zero fill",
        frames: &[PLAIN, EXTENDED],
        pieces: &[(8, 2), (9, 0)],
        first: 0,
        fill: FillByte::Zero,
        segments: &[
            &[
                0x80, 0, 0, 0, 0, 0, 0, 0, 0, 0, 0, 2, 0x11, 0x11, 0xaa, 0xbb, 0, 0,
            ],
            &[
                0x80, 0, 0, 8, 0, 0, 0, 0, 1, 1, 0, 3, 0xe0, 0x22, 0x22, 0xcc, 0xdd,
            ],
        ],
    },
    Cutting {
        name: "fill of ones, and a segment of fill alone",
        frames: &[PLAIN, EXTENDED],
        pieces: &[(8, 2), (0, 4), (9, 0)],
        first: 0,
        fill: FillByte::Ones,
        segments: &[
            &[
                0x80, 0, 0, 0, 0, 0, 0, 0, 0, 0, 0, 2, 0x11, 0x11, 0xaa, 0xbb, 0xff, 0xff,
            ],
            &[0, 0, 0, 8, 0, 0, 0, 0, 0xff, 0xff, 0xff, 0xff],
            &[
                0x80, 0, 0, 0x10, 0, 0, 0, 0, 1, 1, 0, 3, 0xe0, 0x22, 0x22, 0xcc, 0xdd,
            ],
        ],
    },
    Cutting {
        name: "numbers that go round",
        frames: &[PLAIN],
        pieces: &[(5, 0), (3, 0)],
        first: 8191,
        fill: FillByte::Zero,
        segments: &[
            &[0x80, 0, 0xff, 0xf8, 0, 0, 0, 0, 0, 0, 0, 2, 0x11],
            &[0, 0, 0, 0, 0, 0, 0, 0, 0x11, 0xaa, 0xbb],
        ],
    },
    Cutting {
        name: "fill before the first frame",
        frames: &[PLAIN],
        pieces: &[(0, 2), (8, 0)],
        first: 0,
        fill: FillByte::Zero,
        segments: &[
            &[0, 0, 0, 0, 0, 0, 0, 0, 0, 0],
            &[
                0x80, 0, 0, 8, 0, 0, 0, 0, 0, 0, 0, 2, 0x11, 0x11, 0xaa, 0xbb,
            ],
        ],
    },
    Cutting {
        name: "more bytes than remain, and fill after the last frame",
        frames: &[PLAIN],
        pieces: &[(5, 0), (9, 1), (4, 1)],
        first: 0,
        fill: FillByte::Ones,
        segments: &[
            &[0x80, 0, 0, 0, 0, 0, 0, 0, 0, 0, 0, 2, 0x11],
            &[0, 0, 0, 8, 0, 0, 0, 0, 0x11, 0xaa, 0xbb, 0xff],
            &[0, 0, 0, 0x10, 0, 0, 0, 0, 0xff],
        ],
    },
    Cutting {
        name: "fill and no frames",
        frames: &[],
        pieces: &[(3, 2)],
        first: 1,
        fill: FillByte::Zero,
        segments: &[&[0, 0, 0, 8, 0, 0, 0, 0, 0, 0]],
    },
    Cutting {
        name: "no pieces",
        frames: &[PLAIN],
        pieces: &[],
        first: 0,
        fill: FillByte::Zero,
        segments: &[],
    },
    Cutting {
        name: "two frames in one piece",
        frames: &[PLAIN, EXTENDED],
        pieces: &[(3, 0), (14, 0)],
        first: 0,
        fill: FillByte::Zero,
        segments: &[
            &[0x80, 0, 0, 0, 0, 0, 0, 0, 0, 0, 0],
            &[
                0x80, 5, 0, 8, 0, 0, 0, 0, 2, 0x11, 0x11, 0xaa, 0xbb, 1, 1, 0, 3, 0xe0, 0x22, 0x22,
                0xcc, 0xdd,
            ],
        ],
    },
];

impl Cutting {
    /// The frames that are cut, and the segments that they are cut into.
    pub fn cut(&self, rt: &impl Abort, alloc: Global) -> Result<(Vec<Bytes>, Vec<Segment>), Fail> {
        let frames = owned(alloc, self.frames)?;
        let pieces = named(alloc, self.pieces)?;
        assert!(rt; self.first < 8192, "{}", self.name);
        let segments = cut(alloc, &frames, &pieces, self.first, self.fill, &NoCheck)?;
        Ok((frames, segments))
    }
}

#[test]
fn cuts(rt: HostRuntime) -> Result<(), Fail> {
    for cutting in &CUTTINGS {
        let (_, segments) = cutting.cut(&rt, rt.alloc())?;
        expect_segments(&rt, cutting.name, &segments, cutting.segments);
    }
    Ok(())
}

/// One segment at a time, and then no more, however often it is asked.
#[test]
fn cuts_one_by_one(rt: HostRuntime) -> Result<(), Fail> {
    let frames = owned(rt.alloc(), &[PLAIN, EXTENDED])?;
    let pieces = named(rt.alloc(), INSIDE_PIECES)?;
    let mut cutter = Cutter::new(&frames, &pieces, 0, FillByte::Zero, &NoCheck)?;
    for wanted in INSIDE_SEGMENTS {
        let parts = cutter.next().ok_or("too few")?;
        let segment = parts.to_segment(rt.alloc())?;
        expect_segment(&rt, &segment, wanted);
    }
    assert!(rt; cutter.next().is_none());
    assert!(rt; cutter.next().is_none());
    Ok(())
}

#[test]
fn makes_no_cutter_for_fill_inside_a_frame(rt: HostRuntime) -> Result<(), Fail> {
    let frames = owned(rt.alloc(), &[PLAIN, EXTENDED])?;
    let inside = named(rt.alloc(), &[(5, 1)])?;
    let fault = Cutter::new(&frames, &inside, 0, FillByte::Zero, &NoCheck).err();
    assert!(rt; fault == Some(CutFault::FillInsideFrame(0)));
    Ok(())
}
