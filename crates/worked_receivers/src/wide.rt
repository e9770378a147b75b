//! Receivers of one channel, of five and of sixteen, and of many flows.
ghost use Rattle.std.specs.Prelude.{IfOk};
ghost use Rattle.receiver.specs.Receiving.{IsReceiving};

use crate::setups::{row, setup};
use consumer::Counts;
use docsis_wire::{Bytes, HeaderCheck, NoCheck};
use flow_core::SetupFault;
use lane::{Input, SidRow};
use loss_rule::LossRule;
use receiver::{Receiver, Reply, SetupError, TakeError, Width};
use std::alloc::{AllocError, Global};
use std::process::Abort;
use std::test::Fail;
use worked_frames::samples::PLAIN;

/// The header of a segment with number 0, in which a frame begins at once and nothing is asked for.
const HEADER: [u8; 8] = [0x80, 0, 0, 0, 0, 0, 0x2d, 0xf2];

/// A receiver of this width for so many flows.
fn receiver(
    alloc: Global,
    width: Width,
    flow_count: u32,
    rows: &[SidRow],
) -> Result<Receiver<NoCheck>, SetupError>
    ensures { IfOk result (IsReceiving ⟦<NoCheck as HeaderCheck>⟧.accepts) }
{
    let setup = setup(alloc, flow_count, rows)?;
    Receiver::new(alloc, width, &setup, LossRule::Passed, NoCheck)
}

/// A grant to this identifier.
fn grant(sid: u16) -> Input {
    Input::Grant {
        number: 1,
        sid,
        bytes: 100,
    }
}

/// A burst with one frame.
fn burst(alloc: Global) -> Result<Input, AllocError> {
    let mut bytes = Vec::from_slice(alloc, &HEADER)?;
    bytes.extend_from_slice(PLAIN)?;
    Ok(Input::Burst {
        grant: 1,
        hcs_ok: true,
        bytes: Bytes::from(bytes),
    })
}

/// Grants a burst on this channel, takes it, and answers the flow that it was of.
fn send<C: HeaderCheck + Drop>(
    alloc: Global,
    receiver: &mut Receiver<C>,
    channel: usize,
    sid: u16,
    out: &mut Counts,
) -> Result<Option<usize>, Fail>
    requires { IsReceiving C.accepts receiver.old }
    ensures { IsReceiving C.accepts receiver.new }
{
    receiver.take(alloc, channel, grant(sid), out)?;
    match receiver.take(alloc, channel, burst(alloc)?, out)? {
        Reply::Admitted { flow, .. } => Ok(Some(flow)),
        _ => Ok(None),
    }
}

/// How many segments of a flow were kept and how many frames it gave, or nothing if there is no
/// such flow.
fn kept_and_given<C: HeaderCheck + Drop>(receiver: &Receiver<C>, flow: usize) -> Option<(u64, u64)>
    requires { IsReceiving C.accepts receiver.now }
{
    let counts = receiver.counts(flow)?;
    Some((counts.kept, counts.frames))
}

/// Ends the test if the last channel of so many isn't one like any other, or if there is one more.
fn expect_last_channel(rt: &impl Abort, alloc: Global, channels: u8) -> Result<(), Fail> {
    let width = Width::new(channels, 1)?;
    let mut receiver = receiver(alloc, width, 1, &[row(channels - 1, 7, 0)])?;
    let mut out = Counts::default();
    let last = usize::from(channels) - 1;
    let flow = send(alloc, &mut receiver, last, 7, &mut out)?;
    assert!(rt; flow == Some(0), "{channels} channels");
    let beyond = receiver.take(alloc, last + 1, grant(7), &mut out);
    let no_channel = matches!(beyond, Err(TakeError::NoChannel(_)));
    assert!(rt; no_channel, "{channels} channels");
    let inputs = receiver.tally(last).map(|tally| tally.admitted);
    assert!(rt; inputs == Some(1), "{channels} channels");
    assert!(rt;
        receiver.outstanding(last) == Some(0),
        "{channels} channels"
    );
    assert!(rt;
        receiver.outstanding(last + 1) == None,
        "{channels} channels"
    );
    assert!(rt; out.frames == 1, "{channels} channels");
    Ok(())
}

#[test]
fn last_channel_is_one_like_any_other(rt: HostRuntime) -> Result<(), Fail> {
    for channels in [1, 5, 16] {
        expect_last_channel(&rt, rt.alloc(), channels)?;
    }
    Ok(())
}

/// Ends the test if the last flow of so many isn't one like any other, or if there is one more.
fn expect_last_flow(rt: &impl Abort, alloc: Global, flows: u16) -> Result<(), Fail> {
    let width = Width::new(16, flows)?;
    let last = usize::from(flows) - 1;
    let mut receiver = receiver(alloc, width, u32::from(flows), &[row(15, 7, last)])?;
    let mut out = Counts::default();
    let flow = send(alloc, &mut receiver, 15, 7, &mut out)?;
    assert!(rt; flow == Some(last), "{flows} flows");
    assert!(rt;
        kept_and_given(&receiver, last) == Some((1, 1)),
        "{flows} flows"
    );
    assert!(rt;
        kept_and_given(&receiver, 0) == Some((0, 0)),
        "{flows} flows"
    );
    assert!(rt;
        kept_and_given(&receiver, last + 1) == None,
        "{flows} flows"
    );
    assert!(rt; receiver.expected(last) == Some(1), "{flows} flows");
    assert!(rt; out.frames == 1, "{flows} flows");
    Ok(())
}

#[test]
fn last_flow_is_one_like_any_other(rt: HostRuntime) -> Result<(), Fail> {
    for flows in [65, 16384] {
        expect_last_flow(&rt, rt.alloc(), flows)?;
    }
    Ok(())
}

#[test]
fn one_flow_more_is_refused(rt: HostRuntime) -> Result<(), Fail> {
    for flows in [1, 64, 65, 16384] {
        let width = Width::new(16, flows)?;
        let refused = receiver(rt.alloc(), width, u32::from(flows) + 1, &[]).err();
        let fault = SetupError::Flows(SetupFault::TooManyFlows);
        assert!(rt; refused == Some(fault), "{flows} flows");
    }
    Ok(())
}

/// How many of the flows send, and how far apart these are.
const SENDING: u16 = 100;

const APART: u16 = 163;

/// A row of each flow that sends, in turn over the sixteen channels.
fn rows_of_some(alloc: Global) -> Result<Vec<SidRow>, AllocError> {
    let mut rows = Vec::new(alloc);
    for sender in 0..SENDING {
        let channel = (sender % 16) as u8;
        rows.push(row(channel, sender, usize::from(sender) * usize::from(APART)))?;
    }
    Ok(rows)
}

/// Has each flow that sends send a frame, and answers of how many it came to the flow.
fn send_some<C: HeaderCheck + Drop>(
    alloc: Global,
    receiver: &mut Receiver<C>,
    out: &mut Counts,
) -> Result<u16, Fail>
    requires { IsReceiving C.accepts receiver.old }
    ensures { IsReceiving C.accepts receiver.new }
{
    let mut came = 0_u16;
    for sender in 0..SENDING {
        let flow = send(alloc, receiver, usize::from(sender % 16), sender, out)?;
        if flow == Some(usize::from(sender) * usize::from(APART)) {
            came = came.saturating_add(1);
        }
    }
    Ok(came)
}

#[test]
fn few_of_the_most_flows_send(rt: HostRuntime) -> Result<(), Fail> {
    let width = Width::new(16, 16384)?;
    let rows = rows_of_some(rt.alloc())?;
    let mut receiver = receiver(rt.alloc(), width, 16384, &rows)?;
    let mut out = Counts::default();
    let came = send_some(rt.alloc(), &mut receiver, &mut out)?;
    assert!(rt; came == SENDING);
    assert!(rt; out.frames == 100);
    assert!(rt; kept_and_given(&receiver, 163) == Some((1, 1)));
    assert!(rt; kept_and_given(&receiver, 164) == Some((0, 0)));
    let Ok(closed) = receiver.close(rt.alloc(), &mut out) else {
        return Err(Fail::new(format_args!("the close was refused memory")));
    };
    let gave_one = closed.flows.iter().filter(|counts| counts.frames == 1);
    assert!(rt; gave_one.count() == 100);
    assert!(rt; closed.flows.len() == 16384);
    assert!(rt; out.frames == 100);
    Ok(())
}
