//! Inputs that are handed in to a receiver one at a time.
ghost use Rattle.receiver.specs.Receiving.{IsReceiving};

use crate::behind::Behind;
use crate::dice::Dice;
use crate::digest::Digest;
use crate::pool::{Mix, Pool, Stream};
use consumer::Consumer;
use docsis_wire::{Bytes, HeaderCheck, HeaderSequence};
use flow_core::FlowRecord;
use lane::{Input, Request, SidRow};
use loss_rule::LossRule;
use receiver::{DecisionReply, FlowDecision, Receiver, Reply, Setup, Width};
use std::alloc::{AllocError, Global};

/// How many inputs are made at once, about, so that they still stand in the processor's caches when
/// they are taken.
const ROUND: usize = 2048;

/// What is handed in.
#[derive(Clone, Copy, Debug)]
pub struct ReceivingKind {
    pub rule: LossRule,
    pub channels: u8,
    pub flows: u16,
    pub window: u16,
    /// How many turns each channel is behind the one before it.
    pub skew: usize,
    /// How many of its turns the last channel is behind besides.
    pub behind: usize,
    /// One of so many segments is lost.
    pub lost: u32,
    /// In one of so many turns a modem's numbers jump; in none where it is 0.
    pub jumps: u32,
    /// Behind one of so many bursts of the last channel, if that is behind, it is decided what is
    /// lost of that which it has passed of its flow; behind none where it is 0.
    pub decided: u32,
    /// How many segments of a flow come the other way round: 1 where they come in order.
    pub backwards: usize,
    /// How many segments are sent, about.
    pub segments: u64,
}

/// An input, or the decision that segments of a flow are lost.
#[derive(Drop)]
enum Handed {
    Input(Input),
    Decision { flow: usize, decision: FlowDecision },
}

/// What is handed in, and the channel with which it comes.
#[derive(Drop)]
struct Sent {
    channel: usize,
    handed: Handed,
}

/// What is digested of a receiver; its number stands before each.
#[derive(Clone, Copy)]
enum Kind {
    Frame,
    Request,
    Granted,
    Admitted,
    Refused,
    Decided,
}

/// Digests what it is given.
#[derive(Drop)]
struct Taken<'a> {
    digest: &'a mut Digest,
}

impl Taken<'_> {
    /// Takes something of this kind, which these numbers tell.
    fn take(&mut self, kind: Kind, numbers: &[u64]) {
        self.digest.take_number(kind as u64);
        for number in numbers {
            self.digest.take_number(*number);
        }
    }

    /// Takes what a receiver answered to an input.
    fn reply(&mut self, reply: Reply) {
        match reply {
            Reply::Granted => self.take(Kind::Granted, &[]),
            Reply::Admitted {
                flow,
                sequence,
                told,
            } => {
                let skipped_to = told.skipped_to.map_or(0, |number| u64::from(number) + 1);
                let numbers = [
                    flow as u64,
                    u64::from(sequence),
                    skipped_to,
                    told.verdict as u64,
                ];
                self.take(Kind::Admitted, &numbers);
            }
            Reply::Refused(refusal) => self.take(Kind::Refused, &[u64::from(refusal.number())]),
        }
    }

    /// Takes what a receiver answered to a decision.
    fn decision_reply(&mut self, reply: DecisionReply) {
        let number = match reply {
            DecisionReply::PassedOver => 0,
            DecisionReply::Taken { lost: false } => 1,
            DecisionReply::Taken { lost: true } => 2,
        };
        self.take(Kind::Decided, &[number]);
    }
}

impl Consumer for Taken<'_> {
    ghost after = { λ _ _ _. Unit {0} };

    fn frame(&mut self, flow: usize, frame: Bytes) {
        self.take(Kind::Frame, &[flow as u64, frame.len() as u64]);
        self.digest.take(frame.as_slice());
    }

    fn request(&mut self, request: Request) {
        let numbers = [
            u64::from(request.channel),
            request.flow as u64,
            u64::from(request.cluster),
            u64::from(request.units),
            u64::from(request.sequence),
        ];
        self.take(Kind::Request, &numbers);
    }
}

/// The modems.
#[derive(Drop)]
struct Modems {
    kind: ReceivingKind,
    dice: Dice,
    pool: Pool,
    streams: Vec<Stream>,
    turn: u32,
    /// Of each channel what comes later.
    behind: Behind<Sent>,
}

impl Modems {
    fn new(alloc: Global, kind: ReceivingKind, dice: Dice) -> Result<Modems, AllocError> {
        let mut dice = dice;
        let pool = Pool::new(alloc, Mix::Ordinary, &mut dice)?;
        let mut streams = Vec::new(alloc);
        for _ in 0..kind.flows {
            streams.push(pool.stream(&mut dice))?;
        }
        let behind = Behind::new(alloc, u32::from(kind.channels))?;
        Ok(Modems {
            kind,
            dice,
            pool,
            streams,
            turn: 0,
            behind,
        })
    }

    /// The flows, each with the identifier of its index on all channels.
    fn setup(&self, alloc: Global) -> Result<Setup, AllocError> {
        let (mut flows, mut sids) = (Vec::new(alloc), Vec::new(alloc));
        for flow in 0..self.kind.flows {
            flows.push(FlowRecord {
                sfid: u32::from(flow),
                first: 0,
                window: self.kind.window,
                clusters: 1,
                ring: 1,
            })?;
            for channel in 0..self.kind.channels {
                sids.push(SidRow {
                    channel,
                    sid: flow,
                    flow: usize::from(flow),
                })?;
            }
        }
        Ok(Setup {
            flows,
            sids,
            mailbox: 1,
        })
    }

    /// The burst of the next segment of a flow, and its size.
    fn burst(&mut self, alloc: Global, flow: usize) -> Result<Option<(Bytes, u32)>, AllocError> {
        let length = self.dice.between(56, 1492);
        let units = self.dice.units();
        let is_lost = self.dice.one_in(self.kind.lost);
        let Some(stream) = self.streams.get_mut(flow) else {
            return Ok(None);
        };
        let cut = stream.cut(&self.pool, length, units);
        if is_lost {
            return Ok(None);
        }
        let mut bytes = Vec::with_capacity(alloc, cut.size() as usize)?;
        bytes.extend_from_slice(&cut.head)?;
        bytes.extend_from_slice(self.pool.payload(&cut))?;
        Ok(Some((Bytes::from(bytes), cut.size())))
    }

    /// What a modem sends in a turn: a segment on each channel.
    fn push_turn(&mut self, alloc: Global, sent: &mut Vec<Sent>) -> Result<(), AllocError> {
        let turn = self.turn;
        self.turn = turn.wrapping_add(1);
        let flow = self.flow_in(turn);
        if self.dice.one_in(self.kind.jumps) {
            let by = self.dice.between(3000, 4000);
            if let Some(stream) = self.streams.get_mut(flow as usize) {
                stream.number = stream.number.wrapping_add(u16::try_from(by).unwrap_or(0)) % 8192;
            }
        }
        for channel in 0..self.kind.channels {
            let Some((bytes, size)) = self.burst(alloc, flow as usize)? else {
                continue;
            };
            let sid = u16::try_from(flow).unwrap_or(0);
            push_segment(sent, channel, sid, turn, bytes, size)?;
        }
        Ok(())
    }

    /// Now and then, behind a burst of the last channel, the decision that of its flow all is lost
    /// that was sent before and didn't come.
    fn decision_behind(&mut self, sent: &Sent) -> Option<Sent> {
        let Handed::Input(Input::Burst { grant, bytes, .. }) = &sent.handed else {
            return None;
        };
        let [_, _, high, low, ..] = bytes.as_slice() else {
            return None;
        };
        if sent.channel != self.last_channel() || !self.dice.one_in(self.kind.decided) {
            return None;
        }
        let decision = FlowDecision::GapTo(u16::from_be_bytes([*high, *low]) >> 3);
        let flow = self.flow_in(*grant) as usize;
        Some(Sent {
            channel: sent.channel,
            handed: Handed::Decision { flow, decision },
        })
    }

    /// Which flow sends in a turn.
    fn flow_in(&self, turn: u32) -> u32 {
        let block = u32::try_from(self.kind.backwards).unwrap_or(1).max(1);
        turn / block % u32::from(self.kind.flows.max(1))
    }

    fn last_channel(&self) -> usize {
        usize::from(self.kind.channels).saturating_sub(1)
    }

    /// Some inputs more: where segments come the other way round, all of one flow's block.
    fn make(&mut self, alloc: Global) -> Result<Vec<Sent>, AllocError> {
        let mut sent = Vec::new(alloc);
        let turns = if self.kind.backwards > 1 {
            self.kind.backwards
        } else {
            ROUND / (2 * usize::from(self.kind.channels.max(1)))
        };
        for _ in 0..turns {
            self.push_turn(alloc, &mut sent)?;
        }
        if self.kind.backwards > 1 {
            sent.reverse();
            swap_pairs(&mut sent);
        }
        self.delay(alloc, sent)
    }

    /// How many inputs a channel is behind: a grant and a burst for each turn.
    fn late(&self, channel: usize) -> usize {
        let besides = if channel == self.last_channel() {
            self.kind.behind
        } else {
            0
        };
        channel
            .saturating_mul(self.kind.skew)
            .saturating_add(besides)
            .saturating_mul(2)
    }

    /// Holds back what comes on channels that are behind.
    fn delay(&mut self, alloc: Global, sent: Vec<Sent>) -> Result<Vec<Sent>, AllocError> {
        if self.kind.skew == 0 && self.kind.behind == 0 {
            return Ok(sent);
        }
        let mut now = Vec::new(alloc);
        for one in sent {
            let channel = one.channel;
            let late = self.late(channel);
            if late == 0 {
                now.push(one)?;
                continue;
            }
            self.behind.push(channel, one)?;
            let Some(oldest) = self.behind.pop(channel, late) else {
                continue;
            };
            let decision = self.decision_behind(&oldest);
            now.push(oldest)?;
            if let Some(decision) = decision {
                now.push(decision)?;
            }
        }
        Ok(now)
    }
}

/// Puts each grant, which stands behind its burst, before it.
fn swap_pairs(sent: &mut Vec<Sent>) {
    for pair in sent.chunks_exact_mut(2) {
        pair.reverse();
    }
}

/// Appends a grant and its burst.
fn push_segment(
    sent: &mut Vec<Sent>,
    channel: u8,
    sid: u16,
    number: u32,
    bytes: Bytes,
    size: u32,
) -> Result<(), AllocError> {
    let channel = usize::from(channel);
    sent.push(Sent {
        channel,
        handed: Handed::Input(Input::Grant {
            number,
            sid,
            bytes: size,
        }),
    })?;
    sent.push(Sent {
        channel,
        handed: Handed::Input(Input::Burst {
            grant: number,
            hcs_ok: true,
            bytes,
        }),
    })?;
    Ok(())
}

/// Hands in an input or a decision, and digests the answer.
fn hand_in_one<C: HeaderCheck + Drop>(
    alloc: Global,
    receiver: &mut Receiver<C>,
    one: Sent,
    taken: &mut Taken<'_>,
) -> Result<(), AllocError>
    requires { IsReceiving C.accepts receiver.old }
    ensures { IsReceiving C.accepts receiver.new }
{
    let Sent { channel, handed } = one;
    match handed {
        Handed::Input(input) => {
            let Ok(reply) = receiver.take(alloc, channel, input, taken) else {
                return Err(AllocError);
            };
            taken.reply(reply);
        }
        Handed::Decision { flow, decision } => {
            let Ok(reply) = receiver.decide(alloc, flow, decision, taken) else {
                return Err(AllocError);
            };
            taken.decision_reply(reply);
        }
    }
    Ok(())
}

/// Hands in what is sent.
fn hand_in<C: HeaderCheck + Drop>(
    alloc: Global,
    receiver: &mut Receiver<C>,
    sent: Vec<Sent>,
    taken: &mut Taken<'_>,
) -> Result<(), AllocError>
    requires { IsReceiving C.accepts receiver.old }
    ensures { IsReceiving C.accepts receiver.new }
{
    for one in sent {
        hand_in_one(alloc, receiver, one, taken)?;
    }
    Ok(())
}

/// Hands in all that is sent.
fn hand_in_all<C: HeaderCheck + Drop>(
    alloc: Global,
    receiver: &mut Receiver<C>,
    modems: &mut Modems,
    taken: &mut Taken<'_>,
) -> Result<(), AllocError>
    requires { IsReceiving C.accepts receiver.old }
    ensures { IsReceiving C.accepts receiver.new }
{
    let mut segments = 0_u64;
    for _ in 0..modems.kind.segments {
        if segments >= modems.kind.segments {
            break;
        }
        let sent = modems.make(alloc)?;
        segments = segments.wrapping_add((sent.len() as u64 / 2).max(1));
        hand_in(alloc, receiver, sent, taken)?;
    }
    Ok(())
}

/// Has a receiver take what is sent, and digests what it gives and what it counted. It answers how
/// many segments were sent.
pub fn receive(
    alloc: Global,
    kind: ReceivingKind,
    dice: Dice,
    digest: &mut Digest,
) -> Result<u64, AllocError> {
    let mut modems = Modems::new(alloc, kind, dice)?;
    let setup = modems.setup(alloc)?;
    let Ok(width) = Width::new(kind.channels, kind.flows) else {
        return Err(AllocError);
    };
    let Ok(mut receiver) = Receiver::new(alloc, width, &setup, kind.rule, HeaderSequence) else {
        return Err(AllocError);
    };
    let mut taken = Taken { digest };
    hand_in_all(alloc, &mut receiver, &mut modems, &mut taken)?;
    let Ok(closed) = receiver.close(alloc, &mut taken) else {
        return Err(AllocError);
    };
    for counts in &closed.flows {
        for number in [
            counts.kept,
            counts.late,
            counts.repeat,
            counts.beyond,
            counts.lost,
            counts.frames,
            counts.skipped,
        ] {
            taken.digest.take_number(number);
        }
    }
    for lane in &closed.lanes {
        taken.digest.take_number(lane.admitted);
        taken.digest.take_number(lane.refused);
    }
    Ok(u64::from(modems.turn).wrapping_mul(u64::from(kind.channels)))
}

#[cfg(test)]
mod tests {
    use super::*;
    use lane::Refusal;
    use receiver::{SegmentVerdict, Told};
    use std::test::Fail;

    /// The answer to a burst that is admitted.
    fn admitted(
        flow: usize,
        sequence: u16,
        skipped_to: Option<u16>,
        verdict: SegmentVerdict,
    ) -> Reply {
        let told = Told {
            skipped_to,
            verdict,
        };
        Reply::Admitted {
            flow,
            sequence,
            told,
        }
    }

    #[test]
    fn each_answer_has_a_digest_of_its_own(rt: HostRuntime) -> Result<(), Fail> {
        let mut digests = Vec::new(rt.alloc());
        for reply in [
            Reply::Granted,
            Reply::Refused(Refusal::NoGrant),
            Reply::Refused(Refusal::TooLong),
            admitted(0, 0, None, SegmentVerdict::Kept),
            admitted(1, 0, None, SegmentVerdict::Kept),
            admitted(0, 1, None, SegmentVerdict::Kept),
            admitted(0, 0, Some(0), SegmentVerdict::Kept),
            admitted(0, 0, None, SegmentVerdict::Late),
            admitted(0, 0, None, SegmentVerdict::Repeat),
            admitted(0, 0, None, SegmentVerdict::Beyond),
        ] {
            let mut digest = Digest::new();
            Taken {
                digest: &mut digest,
            }
            .reply(reply);
            assert!(rt; !digests.contains(&digest.value()), "{reply:?}");
            digests.push(digest.value())?;
        }
        Ok(())
    }
}
