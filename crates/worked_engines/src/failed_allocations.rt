//! The engines, the words and the program where an allocation fails, or a thread can't be started,
//! at one place of each call. Each test takes out of memory as lawful there, says so by the word
//! `refused`, and calls again; where nothing failed it says nothing. Where the name of a test ends
//! in `without_memory` all later allocations fail, too.
use crate::devices::{Engine, run_between};
use crate::followed::{FOLLOWED, all_flows};
use commands::program;
use docsis_wire::FillByte;
use engines::{
    Command, Device, EngineFault, UsageFault, WriteFault, follow_text, read_words, status,
    write_fault,
};
use loss_rule::LossRule;
use receiver::Width;
use std::alloc::Global;
use std::io::Read;
use std::process::Abort;
use std::sync::Wait;
use std::test::Fail;
use std::thread::Threads;
use texts::{TraceFault, TraceKind};
use worked_texts::text_samples::{
    FRAMES, LOST_REPORT, LOST_TRACE, REPORT, RULED_TRACE, SEGMENTS, SLID_REPORT, TRACE,
};

/// Runs an engine, again where an allocation fails, and looks at what it writes into an array of
/// zeros that is just large enough for the text.
fn expect_text_or_refused<T>(rt: T, engine: Engine, text: &mut [u8]) -> Result<(), Fail>
where
    T: Abort + AllocGlobal + Print + Threads + Wait + Copy + Send + 'static,
{
    let input = engine.input().as_bytes();
    let mut done = run_between(rt.alloc(), rt, engine, input, &mut *text).done;
    if done == Err(EngineFault::OutOfMemory) {
        println!(rt; "refused")?;
        assert!(rt; text.iter().all(|byte| *byte == 0));
        done = run_between(rt.alloc(), rt, engine, input, &mut *text).done;
    }
    assert!(rt; done == Ok(()));
    assert!(rt; &*text == engine.text().as_bytes());
    Ok(())
}

#[test]
fn join_text_is_refused(rt: HostRuntime) -> Result<(), Fail> {
    expect_text_or_refused(rt, Engine::Join, &mut [0u8; 36])
}

#[test]
fn cut_text_is_refused(rt: HostRuntime) -> Result<(), Fail> {
    expect_text_or_refused(rt, Engine::Cut, &mut [0u8; 85])
}

#[test]
fn replay_text_is_refused(rt: HostRuntime) -> Result<(), Fail> {
    expect_text_or_refused(rt, Engine::Replay, &mut [0u8; 233])
}

#[test]
fn replay_text_by_is_refused(rt: HostRuntime) -> Result<(), Fail> {
    expect_text_or_refused(rt, Engine::ReplayBy, &mut [0u8; 317])
}

#[test]
fn run_text_is_refused(rt: HostRuntime) -> Result<(), Fail> {
    expect_text_or_refused(rt, Engine::Run, &mut [0u8; 208])
}

#[test]
fn run_text_by_is_refused(rt: HostRuntime) -> Result<(), Fail> {
    expect_text_or_refused(rt, Engine::RunBy, &mut [0u8; 208])
}

#[test]
fn replaying_program_for_some_flows_is_refused(rt: HostRuntime) -> Result<(), Fail> {
    let words = ["segrx", "replay", "--flows", "0,3,8-15"];
    run_program(rt, &words, TRACE.as_bytes(), REPORT, &mut [0u8; 233])
}

/// What all shards but the first have of the trace.
const LANES: &str = "\
lane 0 admitted 2 refused -
lane 1 admitted 1 refused -
lane 2 admitted 0 refused -
lane 3 admitted 0 refused -
";

#[test]
fn replaying_program_for_a_shard_is_refused(rt: HostRuntime) -> Result<(), Fail> {
    let words = ["segrx", "replay", "--shard=1/2"];
    run_program(rt, &words, TRACE.as_bytes(), LANES, &mut [0u8; 112])
}

/// The same where the trace is followed.
const FOLLOWED_LANES: &str = "\
lane 0 admitted 2 refusals 0
lane 1 admitted 1 refusals 0
lane 2 admitted 0 refusals 0
lane 3 admitted 0 refusals 0
";

/// All bursts are of another flow, and each is stood in for.
#[test]
fn following_program_for_a_shard_is_refused(rt: HostRuntime) -> Result<(), Fail> {
    let words = ["segrx", "follow", "--channels=4", "--shard=1/2"];
    let mut text = [0u8; 116];
    run_program(rt, &words, TRACE.as_bytes(), FOLLOWED_LANES, &mut text)
}

/// Follows the trace into an array that is just large enough for what is printed of it.
fn follow_into(alloc: Global, text: &mut [u8]) -> Result<(), EngineFault> {
    let mut reader = Device::new(TRACE.as_bytes());
    let mut writer = Device::new(text);
    let rule = LossRule::Decided;
    let settings = all_flows(false);
    let done = follow_text(
        rule,
        Width::PROFILE,
        settings,
        alloc,
        &mut reader,
        &mut writer,
    );
    reader.into_inner();
    writer.into_inner();
    done
}

/// What was printed before the allocation failed stands.
#[test]
fn follow_text_is_refused(rt: HostRuntime) -> Result<(), Fail> {
    let mut text = [0u8; 237];
    let mut done = follow_into(rt.alloc(), &mut text);
    if done == Err(EngineFault::OutOfMemory) {
        println!(rt; "refused")?;
        let printed = text.iter().filter(|byte| **byte > 0).count();
        assert!(rt; FOLLOWED.as_bytes().starts_with(&text[..printed]));
        done = follow_into(rt.alloc(), &mut text);
    }
    assert!(rt; done == Ok(()));
    assert!(rt; text.as_slice() == FOLLOWED.as_bytes());
    Ok(())
}

/// Reads some words, again where an allocation fails.
fn read_again(rt: &(impl AllocGlobal + Print), words: &[&str]) -> Result<Command, Fail> {
    match read_words(rt.alloc(), words) {
        Ok(command) => Ok(command),
        Err(UsageFault::OutOfMemory) => {
            println!(rt; "refused")?;
            Ok(read_words(rt.alloc(), words)?)
        }
        Err(_) => Err("the words are not understood".into()),
    }
}

#[test]
fn read_words_is_refused(rt: HostRuntime) -> Result<(), Fail> {
    match read_again(&rt, &["segrx", "--help"])? {
        Command::Help(text) => assert!(rt; text.contains("Usage: segrx")),
        _ => return Err("no help".into()),
    }
    Ok(())
}

#[test]
fn words_of_cut_are_refused(rt: HostRuntime) -> Result<(), Fail> {
    match read_again(&rt, &["segrx", "cut", "--first=5", "--fill=ones"])? {
        Command::Cut { first, fill } => assert!(rt; first == 5 && fill == FillByte::Ones),
        _ => return Err("no cut".into()),
    }
    Ok(())
}

#[test]
fn words_of_run_are_refused(rt: HostRuntime) -> Result<(), Fail> {
    let words = ["segrx", "run", "--losses=slid", "--ring", "2"];
    match read_again(&rt, &words)? {
        Command::Run {
            rule,
            mailbox,
            ring,
        } => assert!(rt; rule == LossRule::PassedOrSlid && mailbox == 1024 && ring == 2),
        _ => return Err("no run".into()),
    }
    Ok(())
}

/// Runs the program on an input, again where an allocation fails, and looks at what it writes into
/// an array that is just large enough for the text.
fn run_program<T: Abort + AllocGlobal + Print + Threads + Wait + Copy + Send + 'static>(
    rt: T,
    words: &[&str],
    input: &[u8],
    text: &str,
    out: &mut [u8],
) -> Result<(), Fail> {
    let mut err = [0u8; 21];
    let mut status = program(rt.alloc(), rt, words, input, &mut *out, &mut err[..]);
    if status == 3 {
        println!(rt; "refused")?;
        assert!(rt; err.as_slice() == b"segrx: out of memory\n".as_slice());
        assert!(rt; out.iter().all(|byte| *byte == 0));
        err = [0; 21];
        status = program(rt.alloc(), rt, words, input, &mut *out, &mut err[..]);
    }
    assert!(rt; status == 0);
    assert!(rt; &*out == text.as_bytes());
    assert!(rt; err.as_slice() == [0u8; 21].as_slice());
    Ok(())
}

#[test]
fn program_is_refused(rt: HostRuntime) -> Result<(), Fail> {
    let words = ["segrx", "join"];
    run_program(rt, &words, SEGMENTS.as_bytes(), FRAMES, &mut [0u8; 36])
}

#[test]
fn replaying_program_is_refused(rt: HostRuntime) -> Result<(), Fail> {
    let words = ["segrx", "replay"];
    run_program(rt, &words, TRACE.as_bytes(), REPORT, &mut [0u8; 233])
}

#[test]
fn running_program_is_refused(rt: HostRuntime) -> Result<(), Fail> {
    let words = ["segrx", "run"];
    run_program(rt, &words, TRACE.as_bytes(), REPORT, &mut [0u8; 233])
}

/// A pcap file of one burst on channel 3 for SID 291: segment 1234.
const CAPTURE: [u8; 62] = [
    0xa1, 0xb2, 0x3c, 0x4d, 0, 2, 0, 4, 0, 0, 0, 0, 0, 0, 0, 0, 0, 4, 0, 0, 0, 0, 1, 0x11, 0, 0, 0,
    0, 0, 0, 0, 1, 0, 0, 0, 22, 0, 0, 0, 22, 1, 0x41, 0, 10, 10, 1, 3, 11, 2, 1, 0x23, 18, 1, 1,
    0x80, 0, 0x26, 0x92, 0, 9, 0xe4, 0x97,
];
/// What is seen of it.
const SEEN: &str = "\
# No registration tells the SID of a flow. What was seen of segments, by upstream channel and SID:
# channel 3, SID 291: segments 1, bad checks 0, numbers 1234 to 1234
";

#[test]
fn mapping_program_is_refused(rt: HostRuntime) -> Result<(), Fail> {
    let words = ["segrx", "map"];
    run_program(rt, &words, &CAPTURE, SEEN, &mut [0u8; 168])
}

/// Whether a trace of two channels is followed by the last rule, with events, for flows 0, 2 and 3.
fn asks_to_follow(command: &Command) -> bool {
    match command {
        Command::Follow {
            rule,
            channels,
            events,
            flows,
        } => {
            let is_asked = *rule == LossRule::PassedOrSlid && *channels == 2 && *events;
            is_asked && flows.has(0) && !flows.has(1) && flows.has(3)
        }
        _ => false,
    }
}

#[test]
fn words_of_follow_are_refused(rt: HostRuntime) -> Result<(), Fail> {
    let words = [
        "segrx",
        "follow",
        "--losses=slid",
        "--channels",
        "2",
        "--events",
        "--flows=0,2-3",
    ];
    let command = read_again(&rt, &words)?;
    assert!(rt; asks_to_follow(&command), "no follow");
    Ok(())
}

/// The first of three segments is lost, which both channels pass.
#[test]
fn replaying_program_by_what_all_have_passed_is_refused(rt: HostRuntime) -> Result<(), Fail> {
    let words = ["segrx", "replay", "--losses", "passed"];
    run_program(
        rt,
        &words,
        LOST_TRACE.as_bytes(),
        LOST_REPORT,
        &mut [0u8; 208],
    )
}

#[test]
fn replaying_program_with_a_window_that_slides_is_refused(rt: HostRuntime) -> Result<(), Fail> {
    let words = ["segrx", "replay", "--losses=slid"];
    run_program(
        rt,
        &words,
        RULED_TRACE.as_bytes(),
        SLID_REPORT,
        &mut [0u8; 317],
    )
}

/// The second and the third segment on one of two channels, with a window of two: the third slides
/// it, which loses the first.
const SILENT_TRACE: &str = "\
flow 100 0 2 2
sid 0 1 0
sid 1 2 0
grant 1 1 2 15
grant 1 2 2 13
burst 1 1 ok 800300080000000011aabb01010003
burst 1 2 ok 0000001000000000e02222ccdd
";
/// The report of that.
const SILENT_REPORT: &str = "\
flow 0 100 kept 2 late 0 repeat 0 beyond 0 lost 1 frames 1 skipped 3
frame 0 01010003e02222ccdd
lane 0 admitted 0 refused -
lane 1 admitted 2 refused -
lane 2 admitted 0 refused -
lane 3 admitted 0 refused -
";

#[test]
fn running_program_with_a_window_that_slides_is_refused(rt: HostRuntime) -> Result<(), Fail> {
    let words = ["segrx", "run", "--losses", "slid", "--ring=1"];
    run_program(
        rt,
        &words,
        SILENT_TRACE.as_bytes(),
        SILENT_REPORT,
        &mut [0u8; 208],
    )
}

/// Reads two of three bytes from a device.
#[test]
fn devices_without_memory(rt: HostRuntime) -> Result<(), Fail> {
    let mut reader = Device::new("abc".as_bytes());
    assert!(rt; !reader.failed());
    assert!(rt; reader.given() == 0);
    let mut room = [0u8; 2];
    assert!(rt; matches!(reader.read(&mut room), Ok(2)));
    assert!(rt; room.as_slice() == b"ab".as_slice());
    assert!(rt; !reader.failed());
    assert!(rt; reader.given() == 2);
    assert!(rt; reader.into_inner() == b"c".as_slice());
    match Vec::<u8>::with_capacity(rt.alloc(), 1) {
        Ok(_) => println!(rt; "memory after all calls")?,
        Err(_) => println!(rt; "all calls were made without memory")?,
    }
    Ok(())
}

/// Writes the longest line of a fault into an array that is just large enough, and then into one
/// that is too small.
#[test]
fn faults_without_memory(rt: HostRuntime) -> Result<(), Fail> {
    let fault = EngineFault::Trace(TraceFault {
        line: u64::MAX,
        kind: TraceKind::FieldCount,
    });
    let mut line = [0u8; 57];
    let mut writer = Device::new(&mut line[..]);
    assert!(rt; write_fault(&fault, &mut writer) == Ok(()));
    assert!(rt; !writer.failed());
    writer.into_inner();
    let text = "segrx: line 18446744073709551615: wrong number of fields\n";
    assert!(rt; line.as_slice() == text.as_bytes());

    let mut front = [0u8; 3];
    let mut writer = Device::new(&mut front[..]);
    assert!(rt; write_fault(&fault, &mut writer) == Err(WriteFault));
    assert!(rt; writer.failed());
    writer.into_inner();
    assert!(rt; front.as_slice() == b"seg".as_slice());

    let faults = [
        (fault, 1),
        (EngineFault::Usage, 2),
        (EngineFault::OutOfMemory, 3),
        (EngineFault::Read, 4),
        (EngineFault::Write, 4),
    ];
    for (fault, code) in faults {
        assert!(rt; status(&fault) == code);
    }
    match Vec::<u8>::with_capacity(rt.alloc(), 1) {
        Ok(_) => println!(rt; "memory after all calls")?,
        Err(_) => println!(rt; "all calls were made without memory")?,
    }
    Ok(())
}
