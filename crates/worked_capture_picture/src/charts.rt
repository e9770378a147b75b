//! What stands in pictures of four channels.
use crate::drawing::Step::{self, Burst, Mark};
use crate::drawing::{picture_of, text_of};
use capture_picture::Mark::{BadCheck, Late, Lost, Restart};
use std::process::Abort;
use std::test::Fail;

#[derive(Clone, Copy)]
struct Drawing {
    name: &'static str,
    steps: &'static [Step],
    /// What stands in its text.
    has: &'static [&'static str],
}

/// Indexes of segments by their numbers.
const INDEXES: [Drawing; 6] = [
    Drawing {
        name: "a first segment has the index 8192 + number",
        steps: &[Burst(0, 0, 0, 8191)],
        has: &["'>16383</text><text x='-8' y='132'", ": 1 bursts"],
    },
    Drawing {
        name: "numbers go on at 0 behind 8191",
        steps: &[
            Burst(0, 0, 0, 8190),
            Burst(0, 1, 1, 8191),
            Burst(0, 2, 0, 0),
            Burst(0, 3, 1, 1),
        ],
        has: &[
            "'>16385</text>",
            "'>16382</text>",
            "y='330' text-anchor='end'>0<",
        ],
    },
    Drawing {
        name: "8191 lies before 0",
        steps: &[Burst(0, 0, 0, 0), Burst(0, 1, 1, 8191)],
        has: &[
            "'>8192</text>",
            "'>8191</text>",
            "y='330' text-anchor='end'>1<",
        ],
    },
    Drawing {
        name: "4,095 lie ahead",
        steps: &[Burst(0, 0, 0, 0), Burst(0, 1, 1, 4095)],
        has: &[
            "'>12287</text>",
            "'>8192</text>",
            "y='330' text-anchor='end'>0<",
        ],
    },
    Drawing {
        name: "4,096 lie behind",
        steps: &[Burst(0, 0, 0, 0), Burst(0, 1, 1, 4096)],
        has: &[
            "'>8192</text>",
            "'>4096</text>",
            "y='330' text-anchor='end'>4096<",
        ],
    },
    Drawing {
        name: "numbers are taken modulo 8192",
        steps: &[Burst(0, 0, 0, 65_535), Burst(0, 1, 1, 8192)],
        has: &[
            "'>16384</text>",
            "'>16383</text>",
            "y='330' text-anchor='end'>0<",
        ],
    },
];

/// Columns and their times. The strokes of four channels stand side by side in a column.
const COLUMNS: [Drawing; 8] = [
    Drawing {
        name: "256 columns of a microsecond",
        steps: &[Burst(0, 7_000, 0, 0), Burst(0, 262_999, 3, 1)],
        has: &[
            "<path stroke='#1f77b4' d='M0 197v3'/>",
            "<path stroke='#d62728' d='M1023 0v3'/>",
            "<rect width='1024' height='200'",
        ],
    },
    Drawing {
        name: "each two neighbours become one",
        steps: &[
            Burst(0, 0, 0, 0),
            Mark(0, 0, Lost, 1),
            Burst(0, 1_000, 0, 1),
            Mark(0, 1_000, Lost, 2),
            Burst(0, 1_000, 1, 2),
            Mark(0, 2_000, Late, 1),
            Burst(0, 256_000, 2, 3),
        ],
        has: &[
            "<path stroke='#1f77b4' d='M0 132v68'/>",
            "<path stroke='#ff7f0e' d='M1 66v3'/>",
            "<path stroke='#2ca02c' d='M899 0v3'/>",
            "stroke='red' d='M3 0v10'/>",
            "stroke='orange' d='M10 0v10'/>",
            ": 4 bursts, lost 3, late 1, bad checks 0, restarts 0<",
            "<rect width='903' height='200'",
        ],
    },
    Drawing {
        name: "how far a channel lay behind is the most of both",
        steps: &[
            Burst(0, 0, 0, 0),
            Burst(0, 0, 1, 10),
            Burst(0, 0, 0, 9),
            Burst(0, 1_000, 0, 5),
            Burst(0, 1_000, 1, 11),
            Burst(0, 300_000, 1, 12),
        ],
        has: &[
            "y='330' text-anchor='end'>5<",
            "<path stroke='#1f77b4' d='M0 0v3'/>",
            "<path stroke='#ff7f0e' d='M1 57v3M901 57v3'/>",
        ],
    },
    Drawing {
        name: "times before the first are in the first column",
        steps: &[
            Burst(0, 1_000_000, 0, 0),
            Burst(0, 0, 1, 1),
            Mark(0, 999_999, BadCheck, 1),
            Mark(0, 1_001_000, Restart, 1),
        ],
        has: &[
            "<path stroke='#1f77b4' d='M64 197v3'/>",
            "<path stroke='#ff7f0e' d='M192 0v3'/>",
            "stroke='purple' d='M256 0v10'/>",
            "stroke='black' d='M768 0v10'/>",
        ],
    },
    Drawing {
        name: "a second and a half",
        steps: &[Burst(0, 0, 0, 0), Burst(0, 1_500_000_000, 0, 1)],
        has: &["<rect width='920' height='200'", "x='920'>1.507 s<"],
    },
    Drawing {
        name: "milliseconds have three digits",
        steps: &[Burst(0, 0, 0, 0), Burst(0, 2_000_000_000, 0, 1)],
        has: &["x='980'>2.007 s<"],
    },
    Drawing {
        name: "a year",
        steps: &[Burst(0, 5, 0, 0), Burst(0, 31_557_600_000_000_005, 0, 1)],
        has: &[
            "x='920'>31610959.298 s<",
            "<path stroke='#1f77b4' d='M0 197v3M916 0v3'/>",
        ],
    },
    Drawing {
        name: "the longest time",
        steps: &[Burst(0, 0, 0, 0), Burst(0, u64::MAX, 0, 1)],
        has: &[
            "x='924'>18446744073.709 s<",
            "<path stroke='#1f77b4' d='M0 197v3M917 0v3'/>",
        ],
    },
];

/// Flows, and what isn't drawn.
const FLOWS: [Drawing; 4] = [
    Drawing {
        name: "a flow has a panel of its own, in the order in which they came",
        steps: &[Burst(5, 0, 0, 0), Burst(2, 0, 0, 0)],
        has: &[
            "<g transform='translate(150,84)'>\n<text x='-130' y='16' font-size='14'>flow 5, SFID 82: ",
            "<g transform='translate(150,514)'>\n<text x='-130' y='16' font-size='14'>flow 2, SFID 79: ",
            "height='974'",
        ],
    },
    Drawing {
        name: "flows past the eighth are counted once each",
        steps: &[
            Burst(0, 0, 0, 0),
            Burst(1, 0, 0, 0),
            Burst(2, 0, 0, 0),
            Burst(3, 0, 0, 0),
            Burst(4, 0, 0, 0),
            Burst(5, 0, 0, 0),
            Burst(6, 0, 0, 0),
            Burst(7, 0, 0, 0),
            Burst(8, 900_000, 0, 0),
            Burst(9, 0, 0, 0),
            Burst(8, 0, 0, 0),
            Mark(8, 900_000, Lost, 1),
            Burst(7, 0, 0, 1),
        ],
        has: &[
            "flow 7, SFID 84: 2 bursts, lost 0,",
            "<text x='20' y='3540'>flows that are not shown: 2</text>\n</svg>\n",
            "x='1024'>0.000 s<",
            "<g transform='translate(150,3094)'>",
        ],
    },
    Drawing {
        name: "a channel above 15 is counted and not drawn",
        steps: &[Burst(0, 0, 16, 9)],
        has: &[
            ": 1 bursts",
            "<path stroke='#1f77b4' d=''/>\n<path stroke='#ff7f0e' d=''/>",
            "y='38' text-anchor='end'>0<",
        ],
    },
    Drawing {
        name: "counts stay at their greatest value",
        steps: &[
            Burst(0, 0, 0, 0),
            Mark(0, 0, Lost, u64::MAX),
            Mark(0, 0, Lost, 2),
            Mark(0, 9_000, Lost, 3),
        ],
        has: &["lost 18446744073709551615, late 0,"],
    },
];

/// What is to stand in a text stands there.
fn expect_drawn(rt: &impl Abort, drawing: &Drawing, text: &str) {
    for part in drawing.has {
        assert!(rt; text.contains(*part), "{}: {part} in {text}", drawing.name);
    }
}

#[test]
fn indexes_are_nearest_to_the_newest(rt: HostRuntime) -> Result<(), Fail> {
    for drawing in &INDEXES {
        let picture = picture_of(rt.alloc(), 4, drawing.steps)?;
        let text = text_of(rt.alloc(), &picture)?;
        expect_drawn(&rt, drawing, str::from_utf8(text.as_slice())?);
    }
    Ok(())
}

#[test]
fn columns_are_as_wide_as_the_capture_needs(rt: HostRuntime) -> Result<(), Fail> {
    for drawing in &COLUMNS {
        let picture = picture_of(rt.alloc(), 4, drawing.steps)?;
        let text = text_of(rt.alloc(), &picture)?;
        expect_drawn(&rt, drawing, str::from_utf8(text.as_slice())?);
    }
    Ok(())
}

#[test]
fn the_first_eight_flows_are_shown(rt: HostRuntime) -> Result<(), Fail> {
    for drawing in &FLOWS {
        let picture = picture_of(rt.alloc(), 4, drawing.steps)?;
        let text = text_of(rt.alloc(), &picture)?;
        expect_drawn(&rt, drawing, str::from_utf8(text.as_slice())?);
    }
    Ok(())
}
