//! Engines and the program on devices that fail or are interrupted.
use crate::fitful::{FAILURES, FitfulReader, FitfulWriter, Full};
use commands::{program, run_text, run_text_by};
use docsis_wire::FillByte;
use engines::{Device, EngineFault, cut_text, join_text, replay_text, replay_text_by};
use loss_rule::LossRule;
use std::alloc::Global;
use std::io::{ErrorKind, Read, Write};
use std::sync::Wait;
use std::test::Fail;
use std::thread::Threads;
use uplink::{NoTap, Taps};
use worked_texts::text_samples::{
    FRAMES, FRAMES_AND_PIECES, LOST_REPORT, LOST_TRACE, REPORT, RULED_TRACE, SEGMENTS, SLID_REPORT,
    TRACE,
};

/// An engine, which is run on an input of its own.
#[derive(Clone, Copy, Debug)]
pub(crate) enum Engine {
    Join,
    Cut,
    Replay,
    /// By the rule with the most to do.
    ReplayBy,
    Run,
    /// By a rule, which has nothing to add to what the close loses.
    RunBy,
}

/// Those that decide nothing by a rule.
const ENGINES: [Engine; 4] = [Engine::Join, Engine::Cut, Engine::Replay, Engine::Run];

impl Engine {
    pub(crate) fn input(self) -> &'static str {
        match self {
            Engine::Join => SEGMENTS,
            Engine::Cut => FRAMES_AND_PIECES,
            Engine::Replay => TRACE,
            Engine::ReplayBy => RULED_TRACE,
            Engine::Run | Engine::RunBy => LOST_TRACE,
        }
    }

    /// The text that stands for the input, in every schedule.
    pub(crate) fn text(self) -> &'static str {
        match self {
            Engine::Join => FRAMES,
            Engine::Cut => SEGMENTS,
            Engine::Replay => REPORT,
            Engine::ReplayBy => SLID_REPORT,
            Engine::Run | Engine::RunBy => LOST_REPORT,
        }
    }
}

/// What came of running an engine on a reader and a writer, and which of them failed.
#[derive(Drop)]
pub(crate) struct Ran {
    pub(crate) done: Result<(), EngineFault>,
    reader_failed: bool,
    writer_failed: bool,
    writer_flushed: bool,
    given: u64,
}

fn no_taps() -> Taps<NoTap, NoTap> {
    Taps {
        frames: NoTap,
        requests: NoTap,
    }
}

/// Runs an engine between a reader and a writer.
pub(crate) fn run_between<T, R, W>(
    alloc: Global,
    rt: T,
    engine: Engine,
    reader: R,
    writer: W,
) -> Ran
where
    T: Threads + Wait + Copy + Send + 'static,
    R: Read + Drop,
    W: Write + Drop,
{
    let mut reader = Device::new(reader);
    let mut writer = Device::new(writer);
    let rule = LossRule::PassedOrSlid;
    let done = match engine {
        Engine::Join => join_text(alloc, &mut reader, &mut writer),
        Engine::Cut => cut_text(alloc, 0, FillByte::Zero, &mut reader, &mut writer),
        Engine::Replay => replay_text(alloc, &mut reader, &mut writer),
        Engine::ReplayBy => replay_text_by(rule, alloc, &mut reader, &mut writer),
        Engine::Run => run_text(alloc, rt, 1, 1, no_taps(), &mut reader, &mut writer),
        Engine::RunBy => run_text_by(rule, alloc, rt, 1, 1, no_taps(), &mut reader, &mut writer),
    };
    let ran = Ran {
        done,
        reader_failed: reader.failed(),
        writer_failed: writer.failed(),
        writer_flushed: writer.flushed(),
        given: reader.given(),
    };
    reader.into_inner();
    writer.into_inner();
    ran
}

#[test]
fn goes_on_after_interruptions(rt: HostRuntime) {
    for engine in ENGINES {
        let mut written = Vec::new(rt.alloc());
        let reader = FitfulReader::new(engine.input().as_bytes(), None);
        let writer = FitfulWriter::new(&mut written, 1000, Full::TakesNothing);
        let ran = run_between(rt.alloc(), rt, engine, reader, writer);
        assert!(rt; ran.done == Ok(()), "{engine:?}");
        assert!(rt; ran.given == engine.input().len() as u64, "{engine:?}");
        assert!(rt;
            !ran.reader_failed && !ran.writer_failed && ran.writer_flushed,
            "{engine:?}"
        );
        assert!(rt;
            written.as_slice() == engine.text().as_bytes(),
            "{engine:?}"
        );
    }
}

/// Whether an engine reported that the reader failed, and the writer had not.
fn is_read_fault(ran: &Ran) -> bool {
    ran.done == Err(EngineFault::Read) && ran.reader_failed && !ran.writer_failed
}

#[test]
fn reports_each_kind_of_failed_read(rt: HostRuntime) {
    // What came before the failure may have a fault of its own, which isn't reported.
    for text in ["", "xx\n", SEGMENTS] {
        for kind in FAILURES {
            let mut written = Vec::new(rt.alloc());
            let reader = FitfulReader::new(text.as_bytes(), Some(kind));
            let ran = run_between(rt.alloc(), rt, Engine::Join, reader, &mut written);
            assert!(rt; is_read_fault(&ran), "{kind} after {text}");
            assert!(rt; ran.given == text.len() as u64, "{kind} after {text}");
            assert!(rt; written.len() == 0, "{kind} after {text}");
        }
    }
}

#[test]
fn reports_a_read_that_fails_at_any_call(rt: HostRuntime) {
    for engine in ENGINES {
        let input = engine.input().as_bytes();
        for calls in 0..input.len() {
            let mut written = Vec::new(rt.alloc());
            let reader = FitfulReader::new(&input[..calls], Some(ErrorKind::Other));
            let ran = run_between(rt.alloc(), rt, engine, reader, &mut written);
            assert!(rt; is_read_fault(&ran), "{engine:?} after {calls}");
            assert!(rt; written.len() == 0, "{engine:?} after {calls}");
        }
    }
}

/// Whether an engine reported that the writer failed, and the reader had not.
fn is_write_fault(ran: &Ran) -> bool {
    ran.done == Err(EngineFault::Write) && ran.writer_failed && !ran.reader_failed
}

#[test]
fn reports_each_kind_of_failed_write(rt: HostRuntime) {
    for room in [0usize, 7] {
        for kind in FAILURES {
            let mut written = Vec::new(rt.alloc());
            let writer = FitfulWriter::new(&mut written, room, Full::Fails(kind));
            let ran = run_between(rt.alloc(), rt, Engine::Join, SEGMENTS.as_bytes(), writer);
            assert!(rt; is_write_fault(&ran), "{kind} after {room}");
            assert!(rt; room <= FRAMES.len());
            assert!(rt;
                written.as_slice() == &FRAMES.as_bytes()[..room],
                "{kind} after {room}"
            );
        }
    }
}

#[test]
fn reports_a_write_that_fails_at_any_call(rt: HostRuntime) {
    for engine in ENGINES {
        let text = engine.text().as_bytes();
        for calls in 0..text.len() {
            let mut written = Vec::new(rt.alloc());
            let writer = FitfulWriter::new(&mut written, calls, Full::TakesNothing);
            let ran = run_between(rt.alloc(), rt, engine, engine.input().as_bytes(), writer);
            assert!(rt; is_write_fault(&ran), "{engine:?} after {calls}");
            assert!(rt;
                written.as_slice() == &text[..calls],
                "{engine:?} after {calls}"
            );
        }
    }
}

#[test]
fn reports_each_kind_of_failed_flush(rt: HostRuntime) {
    for engine in ENGINES {
        for kind in FAILURES {
            let mut written = Vec::new(rt.alloc());
            let writer = FitfulWriter::fails_to_flush(&mut written, kind);
            let ran = run_between(rt.alloc(), rt, engine, engine.input().as_bytes(), writer);
            assert!(rt;
                is_write_fault(&ran) && !ran.writer_flushed,
                "{engine:?}: {kind}"
            );
            assert!(rt;
                written.as_slice() == engine.text().as_bytes(),
                "{engine:?}: {kind}"
            );
        }
    }
}

#[test]
fn does_not_write_an_empty_text(rt: HostRuntime) {
    let mut written = Vec::new(rt.alloc());
    let writer = FitfulWriter::fails_to_flush(&mut written, ErrorKind::BrokenPipe);
    let input = "# nothing to join\n".as_bytes();
    let ran = run_between(rt.alloc(), rt, Engine::Join, input, writer);
    assert!(rt; ran.done == Ok(()));
    assert!(rt; !ran.writer_failed);
}

/// Whether an engine wrote what may stand for a front of its input, or reported a fault of the
/// lines or of the cut and wrote nothing.
fn is_answer_to_front(engine: Engine, done: Result<(), EngineFault>, written: &[u8]) -> bool {
    match done {
        Ok(()) => match engine {
            Engine::Join | Engine::Cut => engine.text().as_bytes().starts_with(written),
            _ => written.ends_with(b" refused -\n"),
        },
        Err(EngineFault::Trace(_) | EngineFault::Cut(_)) => written.is_empty(),
        Err(_) => false,
    }
}

#[test]
fn takes_each_front_of_an_input_or_reports_its_fault(rt: HostRuntime) -> Result<(), Fail> {
    for engine in ENGINES {
        // Some fronts end inside a comment, before all other lines or after them.
        let input = format!(in rt.alloc(); "# from here\n{}# to here", engine.input())?;
        let bytes = input.as_bytes();
        for end in 0..bytes.len() {
            let mut written = Vec::new(rt.alloc());
            let ran = run_between(rt.alloc(), rt, engine, &bytes[..end], &mut written);
            assert!(rt;
                is_answer_to_front(engine, ran.done, &written),
                "{engine:?} of {end}"
            );
        }
    }
    Ok(())
}

#[test]
fn exits_with_4_on_failing_devices(rt: HostRuntime) {
    let mut out = Vec::new(rt.alloc());
    let mut err = Vec::new(rt.alloc());
    let reader = FitfulReader::new(SEGMENTS.as_bytes(), Some(ErrorKind::WouldBlock));
    let words = ["segrx"];
    assert!(rt; program(rt.alloc(), rt, &words, reader, &mut out, &mut err) == 4);
    assert!(rt; err.as_slice() == b"segrx: read failed\n".as_slice());
    assert!(rt; out.len() == 0);

    err.clear();
    let closed = FitfulWriter::new(&mut out, 0, Full::Fails(ErrorKind::TimedOut));
    let input = SEGMENTS.as_bytes();
    assert!(rt; program(rt.alloc(), rt, &words, input, closed, &mut err) == 4);
    assert!(rt; err.as_slice() == b"segrx: write failed\n".as_slice());

    // Help that can't be written is a write fault, and a fault that can't be reported changes
    // nothing.
    let help = ["segrx", "--help"];
    let closed = FitfulWriter::new(&mut out, 0, Full::Fails(ErrorKind::BrokenPipe));
    let mut nothing = Vec::new(rt.alloc());
    let mute = FitfulWriter::new(&mut nothing, 0, Full::Fails(ErrorKind::BrokenPipe));
    assert!(rt; program(rt.alloc(), rt, &help, b"".as_slice(), closed, mute) == 4);
}
