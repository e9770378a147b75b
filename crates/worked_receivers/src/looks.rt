//! What a receiver of one flow says at any time, beside a plain count.
mod failed_allocations;

ghost use Rattle.std.specs.Prelude.{IfOk};
ghost use Rattle.receiver.specs.Receiving.{IsReceiving};

use crate::plain_count::{FIRST, FlowLook, LaneLook, PlainCount, Step, number_at};
use crate::setups::row;
use consumer::Counts;
use docsis_wire::{Bytes, HeaderCheck, NoCheck};
use flow_core::FlowRecord;
use lane::Input;
use loss_rule::LossRule;
use receiver::{FlowDecision, Receiver, Setup, SetupError, Width};
use std::alloc::{AllocError, Global};
use std::process::Abort;
use std::test::Fail;

/// A receiver of one flow on its first channel, which decides nothing by itself.
pub fn one_flow_receiver(alloc: Global) -> Result<Receiver<NoCheck>, SetupError>
    ensures { IfOk result (IsReceiving ⟦<NoCheck as HeaderCheck>⟧.accepts) }
{
    let flow_record = FlowRecord {
        sfid: 1,
        first: FIRST,
        window: 16,
        clusters: 1,
        ring: 1,
    };
    let setup = Setup {
        flows: Vec::from_slice(alloc, &[flow_record])?,
        sids: Vec::from_slice(alloc, &[row(0, 7, 0)])?,
        mailbox: 1,
    };
    Receiver::new(alloc, Width::PROFILE, &setup, LossRule::Decided, NoCheck)
}

/// The segment at this place of the flow. At even places the first half of a frame begins, and its
/// other half is the segment after it.
fn segment_at(place: usize) -> [u8; 12] {
    let [high, low] = (number_at(place) * 8).to_be_bytes();
    if place % 2 == 0 {
        [0x80, 0, high, low, 0, 0, 0, 0, 0, 0, 0, 2]
    } else {
        [0, 0, high, low, 0, 0, 0, 0, 0x22, 0x22, 0xaa, 0xbb]
    }
}

/// What is handed in by a step.
#[derive(Drop)]
pub enum HandedIn {
    Input(Input),
    Decision(FlowDecision),
}

/// The input of a step with its buffer, or its decision.
pub fn made_of(alloc: Global, step: Step) -> Result<HandedIn, AllocError> {
    Ok(match step {
        Step::Grant(number) => HandedIn::Input(Input::Grant {
            number,
            sid: 7,
            bytes: 100,
        }),
        Step::Burst(grant, place) => HandedIn::Input(Input::Burst {
            grant,
            hcs_ok: true,
            bytes: Bytes::from(Vec::from_slice(alloc, &segment_at(place))?),
        }),
        Step::Gap => HandedIn::Decision(FlowDecision::Gap),
        Step::SkipTo(place) => HandedIn::Decision(FlowDecision::SkipTo(number_at(place))),
    })
}

/// What is said of the flow.
fn flow_look<C: HeaderCheck + Drop>(receiver: &Receiver<C>) -> Option<FlowLook>
    requires { IsReceiving C.accepts receiver.now }
{
    let counts = receiver.counts(0)?;
    Some(FlowLook {
        expected: receiver.expected(0)?,
        held: receiver.held(0)?,
        kept: counts.kept,
        lost: counts.lost,
    })
}

/// What is said of its channel.
fn lane_look<C: HeaderCheck + Drop>(receiver: &Receiver<C>) -> Option<LaneLook> {
    let tally = receiver.tally(0)?;
    Some(LaneLook {
        outstanding: receiver.outstanding(0)?,
        admitted: tally.admitted,
        refused: tally.refused,
    })
}

/// Ends the test if what is said of the flow and of its channel isn't what was counted.
pub fn expect_counted<C: HeaderCheck + Drop>(
    rt: &impl Abort,
    receiver: &Receiver<C>,
    plain: &PlainCount,
)
    requires { IsReceiving C.accepts receiver.now }
{
    assert!(rt; flow_look(receiver) == Some(plain.flow()));
    expect_lane_counted(rt, receiver, plain);
}

/// Ends the test if what is said of the channel isn't what was counted.
pub fn expect_lane_counted<C: HeaderCheck + Drop>(
    rt: &impl Abort,
    receiver: &Receiver<C>,
    plain: &PlainCount,
) {
    assert!(rt; lane_look(receiver) == Some(plain.lane()));
}

/// What comes in order; out of order; with losses by gaps and by skips; twice, and late; and what
/// is refused, as it has no grant or its grant is known.
pub const CASES: [&[Step]; 5] = [
    &[
        Step::Grant(0),
        Step::Burst(0, 0),
        Step::Grant(1),
        Step::Grant(2),
        Step::Burst(1, 1),
        Step::Burst(2, 2),
    ],
    &[
        Step::Grant(3),
        Step::Grant(4),
        Step::Grant(5),
        Step::Burst(3, 2),
        Step::Burst(5, 1),
        Step::Grant(5),
        Step::Burst(5, 5),
        Step::Burst(4, 0),
        Step::Grant(6),
        Step::Burst(6, 3),
    ],
    &[
        Step::Gap,
        Step::Grant(0),
        Step::Burst(0, 2),
        Step::Gap,
        Step::Grant(1),
        Step::Burst(1, 3),
        Step::Gap,
        Step::Gap,
        Step::Grant(2),
        Step::Burst(2, 6),
    ],
    &[
        Step::SkipTo(1),
        Step::Grant(0),
        Step::Burst(0, 4),
        Step::Grant(1),
        Step::Burst(1, 6),
        Step::SkipTo(3),
        Step::SkipTo(6),
        Step::SkipTo(9),
    ],
    &[
        Step::Burst(0, 0),
        Step::Grant(0),
        Step::Grant(0),
        Step::Burst(0, 2),
        Step::Grant(1),
        Step::Burst(1, 2),
        Step::Grant(2),
        Step::Burst(2, 0),
        Step::Grant(3),
        Step::Burst(3, 0),
        Step::Burst(3, 1),
    ],
];

/// Takes what is handed in.
fn take<C: HeaderCheck + Drop>(
    alloc: Global,
    receiver: &mut Receiver<C>,
    one: HandedIn,
    out: &mut Counts,
) -> Result<(), Fail>
    requires { IsReceiving C.accepts receiver.old }
    ensures { IsReceiving C.accepts receiver.new }
{
    match one {
        HandedIn::Input(input) => {
            receiver.take(alloc, 0, input, out)?;
        }
        HandedIn::Decision(decision) => {
            receiver.decide(alloc, 0, decision, out)?;
        }
    }
    Ok(())
}

/// Hands in these steps, and looks after each.
fn expect_steps_counted<C: HeaderCheck + Drop>(
    rt: &impl Abort,
    alloc: Global,
    receiver: &mut Receiver<C>,
    steps: &[Step],
) -> Result<(), Fail>
    requires { IsReceiving C.accepts receiver.old }
{
    let mut plain = PlainCount::none();
    let mut out = Counts::default();
    expect_counted(rt, receiver, &plain);
    for step in steps {
        take(alloc, receiver, made_of(alloc, *step)?, &mut out)?;
        plain.count(*step);
        expect_counted(rt, receiver, &plain);
    }
    Ok(())
}

#[test]
fn looks_say_what_was_counted(rt: HostRuntime) -> Result<(), Fail> {
    for steps in &CASES {
        let mut receiver = one_flow_receiver(rt.alloc())?;
        expect_steps_counted(&rt, rt.alloc(), &mut receiver, steps)?;
    }
    Ok(())
}

#[test]
fn nothing_is_said_of_what_is_not_there(rt: HostRuntime) -> Result<(), Fail> {
    let receiver = one_flow_receiver(rt.alloc())?;
    assert!(rt; receiver.expected(1).is_none());
    assert!(rt; receiver.held(1).is_none());
    assert!(rt; receiver.counts(1).is_none());
    assert!(rt; receiver.outstanding(4).is_none());
    assert!(rt; receiver.tally(4).is_none());
    Ok(())
}
