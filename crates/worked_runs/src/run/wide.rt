//! Receivers of more than four channels and of many flows.
use super::numbered::segment_of;
use docsis_wire::{Bytes, NoCheck};
use flow_core::FlowRecord;
use std::alloc::{AllocError, Global};
use std::process::Abort;
use std::sync::Wait;
use std::test::Fail;
use std::thread::Threads;
use std::vec::IntoIter;
use uplink::{
    ChannelInput, Collected, Foreknown, Forgets, FrameList, Input, LaneTally, ListDecisions,
    LiveSource, LossRule, ReceiveError, Received, RunFault, Setup, SidRow, Sources, Strays, Width,
    receive,
};
use worked_traces::traces::{FLOW, setup_of};

/// Gives a list.
#[derive(Drop)]
struct Listed {
    rest: IntoIter<ChannelInput>,
}

impl LiveSource for Listed {
    ghost gave = { λ _ _ _. Unit {0} };

    ghost is_over = { λ _. Unit {0} };

    fn next(&mut self) -> Option<ChannelInput> {
        self.rest.next()
    }
}

/// What four sources give.
#[derive(Drop)]
struct Lists {
    of_sources: [Vec<ChannelInput>; 4],
}

impl Lists {
    fn nothing(alloc: Global) -> Lists {
        Lists {
            of_sources: [
                Vec::new(alloc),
                Vec::new(alloc),
                Vec::new(alloc),
                Vec::new(alloc),
            ],
        }
    }

    /// The source gives a segment on this channel besides, in a grant of its size to an identifier
    /// that is one more than the flow's index.
    fn push(
        &mut self,
        alloc: Global,
        source: usize,
        channel: u8,
        flow: u16,
        number: u16,
    ) -> Result<(), AllocError> {
        let Some(list) = self.of_sources.get_mut(source) else {
            return Ok(());
        };
        let grant = Input::Grant {
            number: u32::from(flow) * 8192 + u32::from(number),
            sid: flow.saturating_add(1),
            bytes: 15,
        };
        let burst = Input::Burst {
            grant: u32::from(flow) * 8192 + u32::from(number),
            hcs_ok: true,
            bytes: Bytes::from(Vec::from_slice(alloc, &segment_of(number, 0))?),
        };
        list.push(ChannelInput {
            channel,
            input: grant,
        })?;
        list.push(ChannelInput {
            channel,
            input: burst,
        })?;
        Ok(())
    }

    /// The same, given by the source to which the channel belongs.
    fn push_own(
        &mut self,
        alloc: Global,
        channel: u8,
        flow: u16,
        number: u16,
    ) -> Result<(), AllocError> {
        self.push(alloc, usize::from(channel % 4), channel, flow, number)
    }
}

type Answer = Result<Received<Collected, Forgets>, ReceiveError<Collected, Forgets>>;

/// Receives what four lists have, and collects the frames.
fn receive_lists<R>(
    alloc: Global,
    rt: R,
    width: Width,
    setup: Setup,
    lists: Lists,
) -> Result<Answer, AllocError>
where
    R: Threads + Wait + Copy + Send + 'static,
{
    let [s0, s1, s2, s3] = lists.of_sources;
    let listed = |list: Vec<ChannelInput>| Listed {
        rest: list.into_iter(),
    };
    let collected = Collected::new(alloc, setup.flows.len(), 0)?;
    Ok(receive(
        alloc,
        rt,
        width,
        setup,
        LossRule::Decided,
        Sources {
            s0: listed(s0),
            s1: listed(s1),
            s2: listed(s2),
            s3: listed(s3),
        },
        Foreknown(ListDecisions::new(Vec::new(alloc))),
        collected,
        Forgets,
        NoCheck,
    ))
}

/// How many channels there are.
const CHANNELS: u8 = 10;

/// How many segments come on each.
const EACH: u16 = 100;

/// A flow on ten channels, with little room.
fn ten_channels(alloc: Global) -> Result<Setup, AllocError> {
    let flow = FlowRecord {
        window: 4096,
        ..FLOW
    };
    let mut rows = Vec::new(alloc);
    for channel in 0..CHANNELS {
        rows.push(SidRow {
            channel,
            sid: 1,
            flow: 0,
        })?;
    }
    let mut setup = setup_of(alloc, &[flow], &rows)?;
    setup.mailbox = 1;
    Ok(setup)
}

/// Segments that are dealt in turn over ten channels.
fn dealt(alloc: Global) -> Result<Lists, AllocError> {
    let mut lists = Lists::nothing(alloc);
    for number in 0..EACH * u16::from(CHANNELS) {
        let [channel, ..] = (number % u16::from(CHANNELS)).to_le_bytes();
        lists.push_own(alloc, channel, 0, number)?;
    }
    Ok(lists)
}

/// Whether the frames of a flow are so many, and each ends as its number does.
fn are_in_order(frames: &FrameList, all: u16) -> bool {
    let ends = |number: u16| match frames.get(usize::from(number)) {
        Some(frame) => frame.last() == number.to_le_bytes().first(),
        None => false,
    };
    frames.len() == usize::from(all) && (0..all).all(ends)
}

/// All frames came in order, each channel admitted its share, and these were strays.
fn expect_ten(rt: &impl Abort, answer: Answer, strays: [Strays; 4]) {
    let Ok(received) = answer else {
        assert!(rt; false, "not received");
        return;
    };
    let lane = LaneTally {
        admitted: u64::from(EACH),
        refused: 0,
    };
    assert!(rt; received.lanes.len() == usize::from(CHANNELS), "lanes");
    assert!(rt; received.lanes.iter().all(|tally| *tally == lane), "lanes");
    assert!(rt; received.strays == strays, "strays");
    let frames = received.consumer.frames.first();
    let all = EACH * u16::from(CHANNELS);
    assert!(rt;
        frames.is_some_and(|frames| are_in_order(frames, all)),
        "frames"
    );
}

const NONE: Strays = Strays {
    foreign: 0,
    absent: 0,
};

fn width(channels: u8, flows: u16) -> Result<Width, Fail> {
    Ok(Width::new(channels, flows).ok().ok_or("a width")?)
}

#[test]
fn receives_on_ten_channels(rt: HostRuntime) -> Result<(), Fail> {
    let alloc = rt.alloc();
    let lists = dealt(alloc)?;
    let answer = receive_lists(alloc, rt, width(CHANNELS, 1)?, ten_channels(alloc)?, lists)?;
    expect_ten(&rt, answer, [NONE; 4]);
    Ok(())
}

/// Each source gives inputs besides of a channel that belongs to the next one, and of one that
/// there isn't. Were one of them admitted, its number would come twice.
#[test]
fn strays_are_counted_and_change_nothing(rt: HostRuntime) -> Result<(), Fail> {
    let alloc = rt.alloc();
    let mut lists = dealt(alloc)?;
    for (source, stray) in [(0, 1), (1, 2), (2, 3), (3, 0)] {
        lists.push(alloc, source, stray, 0, 8000)?;
        lists.push(alloc, source, stray | 12, 0, 8001)?;
    }
    let answer = receive_lists(alloc, rt, width(CHANNELS, 1)?, ten_channels(alloc)?, lists)?;
    let two = Strays {
        foreign: 2,
        absent: 2,
    };
    expect_ten(&rt, answer, [two; 4]);
    Ok(())
}

/// How many flows there are.
const FLOWS: u16 = 5_000;

/// Many flows, each on one of ten channels.
fn many_flows(alloc: Global) -> Result<Setup, AllocError> {
    let mut flows = Vec::new(alloc);
    let mut rows = Vec::new(alloc);
    for flow in 0..FLOWS {
        flows.push(FlowRecord {
            sfid: u32::from(flow),
            ..FLOW
        })?;
        let [channel, ..] = (flow % u16::from(CHANNELS)).to_le_bytes();
        rows.push(SidRow {
            channel,
            sid: flow.saturating_add(1),
            flow: usize::from(flow),
        })?;
    }
    setup_of(alloc, &flows, &rows)
}

#[test]
fn receives_many_flows(rt: HostRuntime) -> Result<(), Fail> {
    let alloc = rt.alloc();
    let mut lists = Lists::nothing(alloc);
    for flow in 0..FLOWS {
        let [channel, ..] = (flow % u16::from(CHANNELS)).to_le_bytes();
        lists.push_own(alloc, channel, flow, 0)?;
        lists.push_own(alloc, channel, flow, 1)?;
    }
    let answer = receive_lists(
        alloc,
        rt,
        width(CHANNELS, FLOWS)?,
        many_flows(alloc)?,
        lists,
    )?;
    let received = answer.ok().ok_or("received")?;
    assert!(rt; received.flows.len() == usize::from(FLOWS), "flows");
    let are_two = |frames: &FrameList| are_in_order(frames, 2);
    assert!(rt; received.consumer.frames.iter().all(are_two), "frames");
    Ok(())
}

/// A setup that is wider than the receiver is refused, and nothing is asked.
#[test]
fn wider_setup_is_refused(rt: HostRuntime) -> Result<(), Fail> {
    let alloc = rt.alloc();
    for narrow in [width(9, FLOWS)?, width(CHANNELS, FLOWS - 1)?] {
        let lists = Lists::nothing(alloc);
        let answer = receive_lists(alloc, rt, narrow, many_flows(alloc)?, lists)?;
        let error = answer.err().ok_or("a fault")?;
        assert!(rt;
            matches!(error.fault, RunFault::Setup(_) | RunFault::Lane(_)),
            "fault"
        );
        assert!(rt; !error.began, "began");
    }
    Ok(())
}
