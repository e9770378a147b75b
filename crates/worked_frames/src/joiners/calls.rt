//! How often the check of headers is called: once at most for each head that is looked at.
use crate::expect::expect_same;
use crate::samples::{FIRST, SECOND};
use ccf::Joiner;
use docsis_wire::{HeaderCheck, Segment, ready};
use std::alloc::Global;
use std::cell::Cell;
use std::process::Abort;
use std::test::Fail;

/// A check that counts its calls, and says no of each header or yes.
#[derive(Drop)]
pub struct CountingCheck {
    pub calls: Cell<usize>,
    pub passes: bool,
}

impl HeaderCheck for CountingCheck {
    ghost accepts = { λ check _. check.passes };

    fn passes(&self, _header: &[u8]) -> bool {
        self.calls.set(self.calls.get().wrapping_add(1));
        self.passes
    }
}

/// Segments, and how often the check is called for the last of them where it says yes and no.
#[derive(Clone, Copy)]
struct Calls {
    name: &'static str,
    before: Option<&'static [u8]>,
    segment: &'static [u8],
    yes: usize,
    no: usize,
}

const CALLS: [Calls; 6] = [
    Calls {
        name: "one whole frame",
        before: None,
        segment: &[0x80, 0, 0, 0, 0, 0, 0, 0, 0, 0, 0, 1, 0x11, 0x11, 0xaa],
        yes: 1,
        no: 1,
    },
    Calls {
        name: "a byte of fill behind a frame",
        before: None,
        segment: &[
            0x80, 0, 0, 0, 0, 0, 0, 0, 0, 0, 0, 1, 0x11, 0x11, 0xaa, 0xff,
        ],
        yes: 1,
        no: 1,
    },
    Calls {
        name: "a frame's last byte is missing",
        before: None,
        segment: &[0x80, 0, 0, 0, 0, 0, 0, 0, 0, 0, 0, 1, 0x11, 0x11],
        yes: 1,
        no: 1,
    },
    Calls {
        name: "a header's last byte is missing",
        before: None,
        segment: FIRST,
        yes: 0,
        no: 0,
    },
    Calls {
        name: "two frames",
        before: None,
        segment: &[
            0x80, 0, 0, 0, 0, 0, 0, 0, 0, 0, 0, 1, 0x11, 0x11, 0xaa, 0, 0, 0, 1, 0x11, 0x11, 0xaa,
        ],
        yes: 2,
        no: 1,
    },
    Calls {
        name: "a frame's end and another one's front",
        before: Some(FIRST),
        segment: SECOND,
        yes: 1,
        no: 1,
    },
];

/// How often the check is called that says this, of the last segment.
fn calls_of(rt: &impl Abort, alloc: Global, calls: Calls, passes: bool) -> Result<usize, Fail> {
    let check = CountingCheck {
        calls: Cell::new(0),
        passes,
    };
    let mut joiner = Joiner::new(alloc);
    if let Some(before) = calls.before {
        let before = Segment::read(alloc, before)?;
        assert!(rt; ready(&before));
        joiner.feed(alloc, &before, &check)?;
    }
    let before = check.calls.get();
    let next = Segment::read(alloc, calls.segment)?;
    assert!(rt; ready(&next));
    joiner.feed_unless_whole(alloc, &next, &check)?;
    Ok(check.calls.get().wrapping_sub(before))
}

#[test]
fn are_one_for_each_head(rt: HostRuntime) -> Result<(), Fail> {
    for calls in &CALLS {
        let yes = calls_of(&rt, rt.alloc(), *calls, true)?;
        expect_same(&rt, calls.name, yes, calls.yes);
        let no = calls_of(&rt, rt.alloc(), *calls, false)?;
        expect_same(&rt, calls.name, no, calls.no);
    }
    Ok(())
}
