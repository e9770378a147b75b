//! The jobs, and the inputs that each gives.
use crate::dice::Dice;
use crate::digest::{Digest, Digested};
use crate::feed::Feed;
use crate::pool::Mix;
use crate::receiving::{ReceivingKind, receive};
use crate::recording::{Recording, RecordingKind};
use crate::trace::{Trace, TraceKind};
use capture_command::capture_program;
use commands::program;
use loss_rule::LossRule;
use std::alloc::Global;
use std::io::{Error, ErrorKind, Result};
use std::rt::{Clock, Files};
use std::sync::Wait;
use std::thread::Threads;

const MIB: u64 = 1 << 20;

/// What a user waits for.
#[derive(Clone, Copy, Debug)]
pub enum Job {
    /// Frames of a recording.
    Capture,
    /// Frames of recordings whose bursts wait: small ones for half a second, and ones whose times
    /// were lost.
    Waiting,
    /// Replays of long traces, by each of two loss rules.
    Replay,
    /// Runs of long traces on threads, with little room between them and with much.
    Run,
    /// Traces of many small segments, followed with events and without.
    Follow,
    /// A receiver in a program of one's own: many flows, numbers that jump, windows that are filled
    /// backwards.
    Receiver,
    /// Replays and receivers of channels that are several of a flow's own segments behind one
    /// another, by each loss rule.
    Disorder,
}

pub const JOBS: [Job; 7] = [
    Job::Capture,
    Job::Waiting,
    Job::Replay,
    Job::Run,
    Job::Follow,
    Job::Receiver,
    Job::Disorder,
];

impl Job {
    pub fn name(self) -> &'static str {
        match self {
            Job::Capture => "capture",
            Job::Waiting => "waiting",
            Job::Replay => "replay",
            Job::Run => "run",
            Job::Follow => "follow",
            Job::Receiver => "receiver",
            Job::Disorder => "disorder",
        }
    }
}

/// How much is given to a job, in 256th parts.
#[derive(Clone, Copy, Debug)]
pub struct Scale(pub u64);

impl Scale {
    pub const WHOLE: Scale = Scale(256);

    pub const TRIAL: Scale = Scale(1);

    fn of(self, size: u64) -> u64 {
        size.saturating_mul(self.0) / 256
    }

    /// The same of what comes before all else, of which there is never more than at whole scale.
    fn before(self, count: u32) -> u32 {
        u32::try_from(self.of(u64::from(count))).map_or(count, |part| part.min(count))
    }
}

/// An ordinary recording.
const ORDINARY: RecordingKind = RecordingKind {
    mix: Mix::Ordinary,
    flows: 48,
    least: 112,
    most: 1992,
    lost: 200,
    apart: 60_000,
    size: 480 * MIB,
};

/// One of small frames and few flows.
const SMALL: RecordingKind = RecordingKind {
    mix: Mix::Small,
    flows: 6,
    least: 112,
    most: 292,
    lost: 200,
    apart: 60_000,
    size: 64 * MIB,
};

/// One whose times were lost.
const STILL: RecordingKind = RecordingKind {
    mix: Mix::Ordinary,
    flows: 6,
    least: 112,
    most: 1992,
    lost: 200,
    apart: 0,
    size: 64 * MIB,
};

/// A long trace.
const LONG: TraceKind = TraceKind {
    mix: Mix::Ordinary,
    channels: 4,
    flows: 64,
    window: 256,
    least: 1300,
    most: 1700,
    skew: 2,
    lost: 100,
    decided: 0,
    first_ahead: 8,
    ahead: 8,
    size: 240 * MIB,
};

/// One in which nothing is lost, so that its report is the same in every run.
const LOSSLESS: TraceKind = TraceKind {
    window: 4096,
    lost: 0,
    ..LONG
};

/// A trace of small segments of many flows.
const SHORT: TraceKind = TraceKind {
    mix: Mix::Tiny,
    channels: 8,
    flows: 4000,
    window: 64,
    least: 8,
    most: 200,
    skew: 2,
    lost: 100,
    decided: 0,
    first_ahead: 60_000,
    ahead: 64,
    size: 128 * MIB,
};

/// A trace of few flows, whose turns come round before the other channels have sent: the last one
/// is 12 of a flow's own segments behind the first.
const SKEWED: TraceKind = TraceKind {
    flows: 8,
    least: 200,
    most: 600,
    skew: 8,
    lost: 200,
    size: 128 * MIB,
    ..LONG
};

/// One in which the last channel is 48 behind, as many as a window is wide.
const FAR_SKEWED: TraceKind = TraceKind {
    window: 48,
    skew: 32,
    ..SKEWED
};

/// Segments of many flows.
const MANY: ReceivingKind = ReceivingKind {
    rule: LossRule::Passed,
    channels: 10,
    flows: 5000,
    window: 256,
    skew: 0,
    behind: 512,
    lost: 100,
    jumps: 0,
    decided: 0,
    backwards: 1,
    segments: 1_200_000,
};

/// Segments of modems whose numbers jump.
const JUMPING: ReceivingKind = ReceivingKind {
    rule: LossRule::PassedOrSlid,
    behind: 0,
    jumps: 4,
    segments: 800_000,
    ..MANY
};

/// Segments that fill windows backwards.
const BACKWARDS: ReceivingKind = ReceivingKind {
    rule: LossRule::Decided,
    channels: 4,
    flows: 64,
    window: 4096,
    skew: 0,
    behind: 0,
    lost: 0,
    jumps: 0,
    decided: 0,
    backwards: 1024,
    segments: 600_000,
};

/// Segments of few flows, whose turns come round before the other channels have sent: the last one
/// is 28 of a flow's own segments behind the first.
const DISORDERED: ReceivingKind = ReceivingKind {
    channels: 8,
    flows: 8,
    skew: 4,
    behind: 0,
    lost: 200,
    segments: 800_000,
    ..MANY
};

/// Segments of which the last channel is 196 behind, nearly as many as a window is wide.
const FAR_DISORDERED: ReceivingKind = ReceivingKind {
    window: 200,
    skew: 28,
    ..DISORDERED
};

/// A job isn't done where the program ends with another status than 0.
fn done(status: u8) -> Result<()> {
    match status {
        0 => Ok(()),
        _ => Err(Error::from(ErrorKind::Other)),
    }
}

/// Gives a recording to `segrx capture` with these words, and answers how many segments it has.
fn capture<T: Files + Clock>(
    alloc: Global,
    rt: &T,
    words: &[&str],
    kind: RecordingKind,
    scale: Scale,
    dice: &mut Dice,
    digest: &mut Digest,
) -> Result<u64> {
    let kind = RecordingKind {
        size: scale.of(kind.size),
        ..kind
    };
    let recording = Recording::new(alloc, kind, Dice::new(dice.next()))?;
    let mut reader = Feed::new(Vec::new(alloc), recording);
    let mut told = Digest::new();
    let (out, err) = (Digested { digest }, Digested { digest: &mut told });
    let status = capture_program(alloc, rt, words, &mut reader, out, err);
    digest.take_number(told.value());
    done(status)?;
    Ok(reader.segments())
}

/// Gives a trace to `segrx` with these words, and answers how many segments it has.
fn trace<T: Threads + Wait + Copy + Send + 'static>(
    alloc: Global,
    rt: T,
    words: &[&str],
    kind: TraceKind,
    scale: Scale,
    dice: &mut Dice,
    digest: &mut Digest,
) -> Result<u64> {
    let kind = TraceKind {
        size: scale.of(kind.size),
        ..kind
    };
    let trace = Trace::new(alloc, kind, Dice::new(dice.next()))?;
    let mut reader = Feed::new(Vec::new(alloc), trace);
    let mut told = Digest::new();
    let (out, err) = (Digested { digest }, Digested { digest: &mut told });
    let status = program(alloc, rt, words, &mut reader, out, err);
    digest.take_number(told.value());
    done(status)?;
    Ok(reader.segments())
}

/// Hands segments in to a receiver, and answers how many.
fn hand_in(
    alloc: Global,
    kind: ReceivingKind,
    scale: Scale,
    dice: &mut Dice,
    digest: &mut Digest,
) -> Result<u64> {
    let kind = ReceivingKind {
        segments: scale.of(kind.segments),
        ..kind
    };
    Ok(receive(alloc, kind, Dice::new(dice.next()), digest)?)
}

/// Gives what comes out of its order to `segrx replay` and to a receiver, by each loss rule, and
/// answers how many segments that are.
fn put_in_order<T: Threads + Wait + Copy + Send + 'static>(
    alloc: Global,
    rt: T,
    scale: Scale,
    dice: &mut Dice,
    digest: &mut Digest,
) -> Result<u64> {
    let mut segments = 0_u64;
    let decided = TraceKind {
        decided: 4,
        ..SKEWED
    };
    for (rule, kind) in [
        ("decided", decided),
        ("passed", SKEWED),
        ("slid", FAR_SKEWED),
    ] {
        let words = ["segrx", "replay", "--losses", rule];
        let count = trace(alloc, rt, &words, kind, scale, dice, digest)?;
        segments = segments.wrapping_add(count);
    }
    let decided = ReceivingKind {
        rule: LossRule::Decided,
        decided: 4,
        ..DISORDERED
    };
    let slid = ReceivingKind {
        rule: LossRule::PassedOrSlid,
        ..FAR_DISORDERED
    };
    for kind in [decided, DISORDERED, slid] {
        let count = hand_in(alloc, kind, scale, dice, digest)?;
        segments = segments.wrapping_add(count);
    }
    Ok(segments)
}

/// Does a job, and answers how many segments were made for it.
pub fn do_job<T: Files + Clock + Threads + Wait + Copy + Send + 'static>(
    alloc: Global,
    rt: T,
    job: Job,
    scale: Scale,
    dice: Dice,
    map: &str,
    digest: &mut Digest,
) -> Result<u64> {
    let mut dice = dice;
    let dice = &mut dice;
    match job {
        Job::Capture => {
            let words = ["segrx", "capture", map];
            capture(alloc, &rt, &words, ORDINARY, scale, dice, digest)
        }
        Job::Waiting => {
            let words = ["segrx", "capture", map, "--reorder", "500"];
            let small = capture(alloc, &rt, &words, SMALL, scale, dice, digest)?;
            let words = ["segrx", "capture", map];
            let still = capture(alloc, &rt, &words, STILL, scale, dice, digest)?;
            Ok(small.wrapping_add(still))
        }
        Job::Replay => {
            let words = ["segrx", "replay", "--losses", "passed"];
            let passed = trace(alloc, rt, &words, LONG, scale, dice, digest)?;
            let words = ["segrx", "replay", "--losses", "slid"];
            let slid = trace(alloc, rt, &words, LONG, scale, dice, digest)?;
            Ok(passed.wrapping_add(slid))
        }
        Job::Run => {
            let words = ["segrx", "run", "--mailbox", "16", "--ring", "16"];
            let narrow = trace(alloc, rt, &words, LOSSLESS, scale, dice, digest)?;
            let words = ["segrx", "run", "--mailbox", "1024", "--ring", "1024"];
            let wide = trace(alloc, rt, &words, LOSSLESS, scale, dice, digest)?;
            Ok(narrow.wrapping_add(wide))
        }
        Job::Follow => {
            let short = TraceKind {
                flows: scale.before(SHORT.flows),
                first_ahead: scale.before(SHORT.first_ahead),
                ..SHORT
            };
            let words = ["segrx", "follow", "--channels", "8", "--losses", "passed"];
            let quiet = trace(alloc, rt, &words, short, scale, dice, digest)?;
            let words = ["segrx", "follow", "--channels", "8", "--events"];
            let told = trace(alloc, rt, &words, short, scale, dice, digest)?;
            Ok(quiet.wrapping_add(told))
        }
        Job::Receiver => {
            let many = hand_in(alloc, MANY, scale, dice, digest)?;
            let jumping = hand_in(alloc, JUMPING, scale, dice, digest)?;
            let backwards = hand_in(alloc, BACKWARDS, scale, dice, digest)?;
            Ok(many.wrapping_add(jumping).wrapping_add(backwards))
        }
        Job::Disorder => put_in_order(alloc, rt, scale, dice, digest),
    }
}
