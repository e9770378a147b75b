//! Traces that are made as they are read.
use crate::behind::Behind;
use crate::dice::Dice;
use crate::feed::Make;
use crate::pool::{Cut, Mix, Pool, Stream, push_hex};
use itoa::Buffer;
use std::alloc::{AllocError, Global};
use std::io;

/// How much is made at once.
const PART: usize = 32_768;

/// What a trace has.
#[derive(Clone, Copy, Debug)]
pub struct TraceKind {
    pub mix: Mix,
    pub channels: u32,
    pub flows: u32,
    pub window: u32,
    /// The least payload of a segment, and the greatest.
    pub least: u32,
    pub most: u32,
    /// How many turns each channel is behind the one before it.
    pub skew: u32,
    /// In nothing of one of so many grants; none where it is 0.
    pub lost: u32,
    /// Behind one of so many bursts of the last channel it is decided what is lost of that which it
    /// has passed of its flow; behind none where it is 0.
    pub decided: u32,
    /// How many turns before its burst a grant stands, of the first channel and of the others.
    pub first_ahead: u32,
    pub ahead: u32,
    /// How many bytes the trace has, about.
    pub size: u64,
}

/// A trace: in each turn a modem sends a segment on each channel.
#[derive(Drop)]
pub struct Trace {
    kind: TraceKind,
    dice: Dice,
    pool: Pool,
    streams: Vec<Stream>,
    /// Of each channel what was cut and isn't sent.
    behind: Behind<Cut>,
    turn: u32,
    left: u64,
    is_begun: bool,
}

impl Trace {
    pub fn new(alloc: Global, kind: TraceKind, dice: Dice) -> Result<Trace, AllocError> {
        let mut dice = dice;
        let pool = Pool::new(alloc, kind.mix, &mut dice)?;
        let mut streams = Vec::new(alloc);
        for _ in 0..kind.flows {
            streams.push(pool.stream(&mut dice))?;
        }
        let behind = Behind::new(alloc, kind.channels)?;
        Ok(Trace {
            kind,
            dice,
            pool,
            streams,
            behind,
            turn: 0,
            left: kind.size,
            is_begun: false,
        })
    }

    /// Which flow sends in a turn.
    fn flow_in(&self, turn: u32) -> u32 {
        turn.wrapping_mul(2_654_435_761) % self.kind.flows.max(1)
    }

    /// How many turns before its burst a grant of a channel stands.
    fn ahead(&self, channel: u32) -> u32 {
        if channel == 0 {
            self.kind.first_ahead
        } else {
            self.kind.ahead
        }
    }

    /// Appends the lines that set the flows up, and the first grants.
    fn push_setup(&mut self, out: &mut Vec<u8>) -> Result<(), AllocError> {
        for flow in 0..self.kind.flows {
            push_line(out, b"flow", &[flow, 0, self.kind.window, 1])?;
        }
        for channel in 0..self.kind.channels {
            for flow in 0..self.kind.flows {
                push_line(out, b"sid", &[channel, flow, flow])?;
            }
        }
        for channel in 0..self.kind.channels {
            for turn in 0..self.ahead(channel) {
                self.push_grant(out, channel, turn)?;
            }
        }
        Ok(())
    }

    /// Appends the grant of a channel for a turn.
    fn push_grant(&self, out: &mut Vec<u8>, channel: u32, turn: u32) -> Result<(), AllocError> {
        let bytes = self.kind.most.saturating_add(8);
        push_line(out, b"grant", &[channel, turn, self.flow_in(turn), bytes])
    }

    /// Appends the lines of a turn.
    fn push_turn(&mut self, out: &mut Vec<u8>) -> Result<(), AllocError> {
        let turn = self.turn;
        self.turn = turn.wrapping_add(1);
        for channel in 0..self.kind.channels {
            self.push_grant(out, channel, turn.wrapping_add(self.ahead(channel)))?;
        }
        let flow = self.flow_in(turn);
        for channel in 0..self.kind.channels {
            let length = self.dice.between(self.kind.least, self.kind.most);
            let units = self.dice.units();
            let Some(stream) = self.streams.get_mut(flow as usize) else {
                return Ok(());
            };
            let cut = stream.cut(&self.pool, length, units);
            self.behind.push(channel as usize, cut)?;
        }
        for channel in 0..self.kind.channels {
            self.push_oldest(out, channel, turn)?;
        }
        Ok(())
    }

    /// Appends the burst of a channel that was cut so many turns before as the channel is behind;
    /// and behind that of the last channel a decision, now and then.
    fn push_oldest(
        &mut self,
        out: &mut Vec<u8>,
        channel: u32,
        turn: u32,
    ) -> Result<(), AllocError> {
        let skew = self.kind.skew.wrapping_mul(channel);
        let Some(cut) = self.behind.pop(channel as usize, skew as usize) else {
            return Ok(());
        };
        let turn = turn.wrapping_sub(skew);
        self.push_burst(out, channel, turn, &cut)?;
        let is_last = channel.wrapping_add(1) == self.kind.channels;
        if is_last && self.dice.one_in(self.kind.decided) {
            push_line(out, b"gap", &[self.flow_in(turn), u32::from(cut.number())])?;
        }
        Ok(())
    }

    /// Appends a burst, or what is heard where it is lost.
    fn push_burst(
        &mut self,
        out: &mut Vec<u8>,
        channel: u32,
        turn: u32,
        cut: &Cut,
    ) -> Result<(), AllocError> {
        push_words(out, b"burst", &[channel, turn])?;
        if self.dice.one_in(self.kind.lost) {
            return out.extend_from_slice(b" bad -\n");
        }
        out.extend_from_slice(b" ok ")?;
        push_hex(out, &cut.head)?;
        out.extend_from_slice(self.pool.payload_digits(cut))?;
        out.extend_from_slice(b"\n")
    }
}

impl Make for Trace {
    fn make(&mut self, out: &mut Vec<u8>) -> io::Result<()> {
        if self.left == 0 {
            return Ok(());
        }
        if !self.is_begun {
            self.is_begun = true;
            self.push_setup(out)?;
        }
        for _ in 0..PART {
            if out.len() >= PART {
                break;
            }
            self.push_turn(out)?;
        }
        self.left = self.left.saturating_sub(out.len() as u64);
        Ok(())
    }

    fn segments(&self) -> u64 {
        u64::from(self.turn).wrapping_mul(u64::from(self.kind.channels))
    }
}

/// Appends a word, and numbers.
fn push_words(out: &mut Vec<u8>, word: &[u8], numbers: &[u32]) -> Result<(), AllocError> {
    out.extend_from_slice(word)?;
    for number in numbers {
        out.extend_from_slice(b" ")?;
        out.extend_from_slice(Buffer::new().format(*number).as_bytes())?;
    }
    Ok(())
}

/// Appends a line of a word and numbers.
fn push_line(out: &mut Vec<u8>, word: &[u8], numbers: &[u32]) -> Result<(), AllocError> {
    push_words(out, word, numbers)?;
    out.extend_from_slice(b"\n")
}
