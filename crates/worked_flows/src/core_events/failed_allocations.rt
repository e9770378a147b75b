//! Tests to be run with the Nth request for memory refused, and those whose names end in
//! `without_memory` with all later ones refused too. Each says `refused` when a call was.
ghost use Rattle.std.specs.Prelude.{◌≡◌, IfOk, length};
ghost use Rattle.docsis_wire.specs.Ready.{IsReady};

mod drains_refused;

use super::expect_drained;
use docsis_wire::{NoCheck, Segment};
use flow_core::{Applied, Core, Event, FlowCounts, FlowRecord, SetupFault, Step, check_records};
use reorder::{Declared, Verdict};
use std::alloc::Global;
use std::process::Abort;
use std::test::Fail;
use worked_frames::refused::{expect_refused, say_refused, say_whether_refused, segment_again};
use worked_frames::samples::{EXTENDED, PLAIN};

/// The segments with the numbers 1 to 3 of two frames that are cut inside both of their headers.
const CUT: [&[u8]; 3] = [
    &[0x80, 0, 0, 8, 0, 0, 0, 0, 0, 0, 0, 2, 0x11],
    &[0x80, 3, 0, 0x10, 0, 0, 0, 0, 0x11, 0xaa, 0xbb, 1, 1, 0, 3],
    &[0, 0, 0, 0x18, 0, 0, 0, 0, 0xe0, 0x22, 0x22, 0xcc, 0xdd],
];

/// For each segment the frames that it completes.
const FRAMES: [&[&[u8]]; 3] = [&[], &[PLAIN], &[EXTENDED]];

/// The segment with the number 5, in which a frame lies whole.
const LAST: &[u8] = &[
    0x80, 0, 0, 0x28, 0, 0, 0, 0, 0, 0, 0, 2, 0x11, 0x11, 0xaa, 0xbb,
];

const fn record(sfid: u32, window: u16) -> FlowRecord {
    FlowRecord {
        sfid,
        first: 0,
        window,
        clusters: 1,
        ring: 1,
    }
}

const NO_COUNTS: FlowCounts = FlowCounts {
    kept: 0,
    late: 0,
    repeat: 0,
    beyond: 0,
    lost: 0,
    frames: 0,
    skipped: 0,
};

/// Makes a core, and once more where the first call was refused memory.
fn core_again(
    rt: &(impl Abort + Print),
    alloc: Global,
    records: &[FlowRecord],
) -> Result<Core<NoCheck>, Fail> {
    match Core::new(alloc, records, NoCheck) {
        Ok(core) => Ok(core),
        Err(fault) => {
            expect_refused(rt, fault, SetupFault::OutOfMemory)?;
            Ok(Core::new(alloc, records, NoCheck)?)
        }
    }
}

#[test]
fn new_refused(rt: HostRuntime) -> Result<(), Fail> {
    let records = [record(0, 16), record(1, 1), record(2, 4096), record(3, 2)];
    let core = core_again(&rt, rt.alloc(), &records)?;
    assert!(rt; core.flow_count() == 4);
    for flow in 0..core.flow_count() {
        assert!(rt; core.is_drained(flow));
        assert!(rt; core.counts(flow) == NO_COUNTS);
    }
    Ok(())
}

/// Two flows, the second of which waits for number 0 and holds these segments.
fn holding(
    rt: &(impl Abort + Print),
    alloc: Global,
    segments: &[&[u8]],
) -> Result<Core<NoCheck>, Fail>
    ensures { IfOk result (λ core. length core.flows.items ≡ 2) }
{
    let mut core = core_again(rt, alloc, &[record(0, 16), record(1, 16)])?;
    for bytes in segments {
        let segment = segment_again(rt, alloc, bytes)?;
        expect_drained(rt, &core, 1);
        let applied = core.apply(Event::Arrive { flow: 1, segment });
        assert!(rt; matches!(applied, Applied::Arrival(Verdict::Kept)));
    }
    assert!(rt; core.flow_count() == 2);
    Ok(core)
}

/// Advances the second flow, of which a segment is next. Where the first call was refused memory,
/// nothing that other calls show has changed, and it is made again.
fn advance_again(
    rt: &(impl Abort + Print),
    alloc: Global,
    core: &mut Core<NoCheck>,
) -> Result<Step, Fail> {
    assert!(rt; core.flow_count() == 2);
    let before = core.counts(1);
    if let Ok(step) = core.advance(alloc, 1) {
        return Ok(step);
    }
    say_refused(rt)?;
    assert!(rt; core.flow_count() == 2);
    assert!(rt; core.counts(1) == before);
    assert!(rt; !core.is_drained(1));
    Ok(core.advance(alloc, 1)?)
}

/// Advances the second flow, and compares the frames.
fn gives(
    rt: &(impl Abort + Print),
    alloc: Global,
    core: &mut Core<NoCheck>,
    wanted: &[&[u8]],
) -> Result<(), Fail> {
    let Step::Frames(frames) = advance_again(rt, alloc, core)? else {
        return Err("a segment is next".into());
    };
    assert!(rt; frames.len() == wanted.len());
    for (frame, want) in frames.iter().zip(wanted) {
        assert!(rt; frame.as_slice() == *want);
    }
    Ok(())
}

/// A segment is lost, and three that came backwards are joined one after another.
#[test]
fn advance_refused(rt: HostRuntime) -> Result<(), Fail> {
    let [first, second, third] = CUT;
    let mut core = holding(&rt, rt.alloc(), &[third, second, first])?;
    expect_drained(&rt, &core, 1);
    assert!(rt; core.close_gap(1));
    for wanted in FRAMES {
        gives(&rt, rt.alloc(), &mut core, wanted)?;
    }
    expect_drained(&rt, &core, 1);
    let counts = FlowCounts {
        kept: 3,
        lost: 1,
        frames: 2,
        ..NO_COUNTS
    };
    assert!(rt; core.counts(1) == counts);
    assert!(rt; core.counts(0) == NO_COUNTS);
    Ok(())
}

/// A step behind whose segment others are lost, since losses were declared up to a number.
#[test]
fn advance_before_losses_refused(rt: HostRuntime) -> Result<(), Fail> {
    let mut core = holding(&rt, rt.alloc(), &[CUT[0], LAST])?;
    expect_drained(&rt, &core, 1);
    let applied = core.apply(Event::GapTo { flow: 1, number: 5 });
    assert!(rt; matches!(applied, Applied::DecisionTo(true)));
    gives(&rt, rt.alloc(), &mut core, &[])?;
    gives(&rt, rt.alloc(), &mut core, FRAMES[1])?;
    expect_drained(&rt, &core, 1);
    let counts = FlowCounts {
        kept: 2,
        lost: 4,
        frames: 1,
        skipped: 5,
        ..NO_COUNTS
    };
    assert!(rt; core.counts(1) == counts);
    Ok(())
}

/// A segment without payload with this number. It takes no memory.
fn empty_segment(alloc: Global, number: u16) -> Result<Segment, Fail>
    ensures { IfOk result IsReady }
{
    let [high, low] = (number << 3).to_be_bytes();
    Ok(Segment::read(alloc, &[0, 0, high, low, 0, 0, 0, 0])?)
}

/// Offers a segment of this number to a drained flow, and says what became of it.
fn verdict(
    rt: &impl Abort,
    alloc: Global,
    core: &mut Core<NoCheck>,
    number: u16,
) -> Result<&'static str, Fail> {
    let segment = empty_segment(alloc, number)?;
    expect_drained(rt, core, 0);
    Ok(match core.apply(Event::Arrive { flow: 0, segment }) {
        Applied::Arrival(Verdict::Kept) => "kept",
        Applied::Arrival(Verdict::Late(_)) => "late",
        Applied::Arrival(Verdict::Repeat(_)) => "repeat",
        Applied::Arrival(Verdict::Beyond(_)) => "beyond",
        _ => "not a verdict",
    })
}

/// Fills a window of 4,096 that waits for 0, backwards but for the numbers 0 and 1, and makes each
/// other call that takes no memory.
fn fill_and_lose(rt: &impl Abort, alloc: Global, core: &mut Core<NoCheck>) -> Result<(), Fail> {
    for number in (2_u16..4096).rev() {
        assert!(rt; verdict(rt, alloc, core, number)? == "kept", "{number}");
    }
    assert!(rt; verdict(rt, alloc, core, 2)? == "repeat");
    assert!(rt; verdict(rt, alloc, core, 4096)? == "late");
    expect_drained(rt, core, 0);
    let gap = core.apply(Event::Gap { flow: 0 });
    assert!(rt; matches!(gap, Applied::Decision(Declared::Lost(0))));
    assert!(rt; verdict(rt, alloc, core, 0)? == "late");
    expect_drained(rt, core, 0);
    assert!(rt; core.close_gap(0));
    assert!(rt; core.flow_count() == 1);
    assert!(rt; !core.is_drained(0));
    let counts = FlowCounts {
        kept: 4094,
        late: 2,
        repeat: 1,
        lost: 2,
        ..NO_COUNTS
    };
    assert!(rt; core.counts(0) == counts);
    Ok(())
}

/// The verdict on a number beyond the window, and losses up to a number.
fn lose_up_to(rt: &impl Abort, alloc: Global, core: &mut Core<NoCheck>) -> Result<(), Fail> {
    assert!(rt; verdict(rt, alloc, core, 4)? == "beyond");
    assert!(rt; verdict(rt, alloc, core, 3)? == "kept");
    expect_drained(rt, core, 0);
    let gap = core.apply(Event::GapTo { flow: 0, number: 3 });
    assert!(rt; matches!(gap, Applied::DecisionTo(true)));
    assert!(rt; core.flow_count() == 1);
    assert!(rt; !core.is_drained(0));
    Ok(())
}

/// Two cores of one flow, with the widest window and with a narrow one.
fn wide_and_narrow(alloc: Global) -> Result<(Core<NoCheck>, Core<NoCheck>), SetupFault> {
    let wide = Core::new(alloc, &[record(0, 4096)], NoCheck)?;
    let narrow = Core::new(alloc, &[record(0, 4)], NoCheck)?;
    Ok((wide, narrow))
}

/// In the end it asks for memory itself, so that a run is known in which nothing else did.
#[test]
fn events_without_memory(rt: HostRuntime) -> Result<(), Fail> {
    let (mut wide, mut narrow) = match wide_and_narrow(rt.alloc()) {
        Ok(both) => both,
        Err(fault) => return expect_refused(&rt, fault, SetupFault::OutOfMemory),
    };
    fill_and_lose(&rt, rt.alloc(), &mut wide)?;
    lose_up_to(&rt, rt.alloc(), &mut narrow)?;
    say_whether_refused(&rt, rt.alloc())
}

/// Faults of the records are reported before any memory is taken.
#[test]
fn faults_without_memory(rt: HostRuntime) -> Result<(), Fail> {
    let good = record(0, 1);
    for (records, wanted) in [
        ([good, record(1, 0)], SetupFault::BadFlow(1)),
        ([good, good], SetupFault::SameSfid(1)),
    ] {
        assert!(rt; check_records(&records).err() == Some(wanted));
        assert!(rt; Core::new(rt.alloc(), &records, NoCheck).err() == Some(wanted));
    }
    let many = Core::new(rt.alloc(), &[good; 65], NoCheck);
    assert!(rt; many.err() == Some(SetupFault::TooManyFlows));
    say_whether_refused(&rt, rt.alloc())
}
