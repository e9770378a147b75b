//! A receiver that tests hand lines of traces in to, and how it then stands.
ghost use Rattle.std.specs.Prelude.{IfOk};
ghost use Rattle.receiver.specs.Receiving.{IsReceiving};

use consumer::Collected;
use docsis_wire::{Bytes, HeaderCheck, NoCheck};
use flow_core::FlowCounts;
use lane::Input;
use loss_rule::LossRule;
use receiver::{Closed, FlowDecision, Receiver, Setup, SetupError, Width};
use std::alloc::{AllocError, Global};
use std::test::Fail;
use worked_traces::traces::{FLOW, Line, ROWS, setup_of};

/// A receiver of the profile's width that decides nothing by itself, and a consumer of one flow and
/// of four channels.
pub fn receiver_of(
    alloc: Global,
    setup: &Setup,
) -> Result<(Receiver<NoCheck>, Collected), SetupError>
    ensures { IfOk result (λ made. IsReceiving ⟦<NoCheck as HeaderCheck>⟧.accepts made.0) }
{
    let rule = LossRule::Decided;
    let receiver = Receiver::new(alloc, Width::PROFILE, setup, rule, NoCheck)?;
    Ok((receiver, Collected::new(alloc, 1, 4)?))
}

/// The same for the flow of all traces.
pub fn made(alloc: Global) -> Result<(Receiver<NoCheck>, Collected), SetupError>
    ensures { IfOk result (λ made. IsReceiving ⟦<NoCheck as HeaderCheck>⟧.accepts made.0) }
{
    receiver_of(alloc, &setup_of(alloc, &[FLOW], &ROWS)?)
}

/// The decision of a line.
fn decision(upto: Option<u16>) -> FlowDecision {
    match upto {
        None => FlowDecision::Gap,
        Some(number) => FlowDecision::GapTo(number),
    }
}

/// The input of a line with its channel, if it has one.
pub fn input(alloc: Global, line: &Line) -> Result<Option<(usize, Input)>, AllocError> {
    Ok(match *line {
        Line::Grant(channel, number, sid, bytes) => {
            Some((usize::from(channel), Input::Grant { number, sid, bytes }))
        }
        Line::Burst(channel, grant, bytes) => {
            let bytes = Bytes::from(Vec::from_slice(alloc, bytes)?);
            let hcs_ok = true;
            Some((
                usize::from(channel),
                Input::Burst {
                    grant,
                    hcs_ok,
                    bytes,
                },
            ))
        }
        Line::Gap(..) => None,
    })
}

/// Hands in a line.
pub fn hand_in<C: HeaderCheck + Drop>(
    alloc: Global,
    receiver: &mut Receiver<C>,
    line: &Line,
    out: &mut Collected,
) -> Result<(), Fail>
    requires { IsReceiving C.accepts receiver.old }
    ensures { IsReceiving C.accepts receiver.new }
{
    if let Line::Gap(flow, upto) = *line {
        receiver.decide(alloc, flow, decision(upto), out)?;
        return Ok(());
    }
    if let Some((channel, input)) = input(alloc, line)? {
        receiver.take(alloc, channel, input, out)?;
    }
    Ok(())
}

/// Hands in these lines, one after another.
pub fn hand_in_all<C: HeaderCheck + Drop>(
    alloc: Global,
    receiver: &mut Receiver<C>,
    lines: &[Line],
    out: &mut Collected,
) -> Result<(), Fail>
    requires { IsReceiving C.accepts receiver.old }
    ensures { IsReceiving C.accepts receiver.new }
{
    for line in lines {
        hand_in(alloc, receiver, line, out)?;
    }
    Ok(())
}

/// Closes a receiver.
pub fn close<C: HeaderCheck + Drop>(
    alloc: Global,
    receiver: Receiver<C>,
    out: &mut Collected,
) -> Result<Closed, Fail>
    requires { IsReceiving C.accepts receiver }
{
    match receiver.close(alloc, out) {
        Ok(closed) => Ok(closed),
        Err(_) => Err(Fail::new(format_args!("the close was refused memory"))),
    }
}

/// How the one flow and the first two channels stand: the number that is expected, how many
/// segments are held, kept, and frames given, and how many grants are outstanding.
pub type State = (Option<u16>, Option<usize>, (u64, u64), (usize, usize));

pub fn state<C: HeaderCheck + Drop>(receiver: &Receiver<C>) -> State
    requires { IsReceiving C.accepts receiver.now }
{
    let counts = receiver.counts(0).unwrap_or(FlowCounts::none());
    (
        receiver.expected(0),
        receiver.held(0),
        (counts.kept, counts.frames),
        (
            receiver.outstanding(0).unwrap_or(9),
            receiver.outstanding(1).unwrap_or(9),
        ),
    )
}
