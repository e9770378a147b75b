//! Recordings of an analyser that are made as they are read.
use crate::dice::Dice;
use crate::feed::Make;
use crate::pool::{Cut, Mix, Pool, Stream};
use std::alloc::{AllocError, Global};
use std::io;

/// How many upstream channels there are: the last two are OFDMA channels.
const CHANNELS: usize = 6;
/// How many segments a modem sends at once, two on each channel.
const TRAIN: usize = 2 * CHANNELS;
/// How much is made at once.
const PART: usize = 32_768;
/// The service identifier of the first flow, on each channel.
const FIRST_SID: u16 = 100;

/// What a recording has.
#[derive(Clone, Copy, Debug)]
pub struct RecordingKind {
    pub mix: Mix,
    /// How many of the map's flows send.
    pub flows: u32,
    /// The least payload of a segment, and the greatest.
    pub least: u32,
    pub most: u32,
    /// One of so many bursts is lost.
    pub lost: u32,
    /// The greatest number of nanoseconds between two bursts; 0 where the times were lost.
    pub apart: u32,
    /// How many bytes the recording has, about.
    pub size: u64,
}

/// A recording: a pcap file of link type 273.
#[derive(Drop)]
pub struct Recording {
    kind: RecordingKind,
    dice: Dice,
    pool: Pool,
    streams: Vec<Stream>,
    /// In nanoseconds.
    clock: u64,
    /// How many bytes are still to be made.
    left: u64,
    is_begun: bool,
    bursts: u64,
}

impl Recording {
    pub fn new(alloc: Global, kind: RecordingKind, dice: Dice) -> Result<Recording, AllocError> {
        let mut dice = dice;
        let pool = Pool::new(alloc, kind.mix, &mut dice)?;
        let mut streams = Vec::new(alloc);
        for _ in 0..kind.flows {
            streams.push(pool.stream(&mut dice))?;
        }
        Ok(Recording {
            kind,
            dice,
            pool,
            streams,
            clock: 1_700_000_000_000_000_000,
            left: kind.size,
            is_begun: false,
            bursts: 0,
        })
    }

    /// The time of the next packet.
    fn tick(&mut self) -> u64 {
        if self.kind.apart > 0 {
            let by = self.dice.between(self.kind.apart / 8, self.kind.apart);
            self.clock = self.clock.wrapping_add(u64::from(by));
        }
        self.clock
    }

    /// Appends the segments that a modem sends at once, but those that are lost. Of the two on an
    /// OFDMA channel the second one sometimes stands first.
    fn push_train(&mut self, out: &mut Vec<u8>) -> Result<(), AllocError> {
        let flow = self.dice.below(self.kind.flows);
        let mut places = [0, 1, 2, 3, 4, 5, 6, 7, 8, 9, 10, 11];
        let mut cuts = [None; TRAIN];
        let Some(stream) = self.streams.get_mut(flow as usize) else {
            return Ok(());
        };
        for cut in cuts.iter_mut() {
            let length = self.dice.between(self.kind.least, self.kind.most);
            let units = self.dice.units();
            *cut = Some(stream.cut(&self.pool, length, units));
        }
        if self.dice.one_in(8) {
            places.swap(4, 10);
        }
        for place in places {
            let lost = self.dice.one_in(self.kind.lost);
            let time = self.tick();
            if let Some(Some(cut)) = cuts.get(place)
                && !lost
            {
                self.bursts = self.bursts.wrapping_add(1);
                push_burst(
                    out,
                    &self.pool,
                    time,
                    place % CHANNELS,
                    flow,
                    self.bursts,
                    cut,
                )?;
            }
        }
        Ok(())
    }
}

impl Make for Recording {
    fn make(&mut self, out: &mut Vec<u8>) -> io::Result<()> {
        if self.left == 0 {
            return Ok(());
        }
        if !self.is_begun {
            self.is_begun = true;
            push_file_header(out)?;
        }
        for _ in 0..PART {
            if out.len() >= PART {
                break;
            }
            self.push_train(out)?;
            if self.dice.one_in(256) {
                let time = self.tick();
                push_downstream(out, time)?;
            }
        }
        self.left = self.left.saturating_sub(out.len() as u64);
        Ok(())
    }

    fn segments(&self) -> u64 {
        self.bursts
    }
}

/// Appends the header of a pcap file of nanoseconds.
fn push_file_header(out: &mut Vec<u8>) -> Result<(), AllocError> {
    for number in [0xA1B2_3C4D_u32, 0x0004_0002, 0, 0, 262_144, 273] {
        out.extend_from_slice(&number.to_le_bytes())?;
    }
    Ok(())
}

/// Appends the header of a record of so many bytes.
fn push_record_header(out: &mut Vec<u8>, time: u64, size: u32) -> Result<(), AllocError> {
    let seconds = u32::try_from(time / 1_000_000_000).unwrap_or(u32::MAX);
    let fraction = u32::try_from(time % 1_000_000_000).unwrap_or(0);
    for number in [seconds, fraction, size, size] {
        out.extend_from_slice(&number.to_le_bytes())?;
    }
    Ok(())
}

/// Appends a message of the downstream, which is none of a burst's.
fn push_downstream(out: &mut Vec<u8>, time: u64) -> Result<(), AllocError> {
    push_record_header(out, time, 164)?;
    out.extend_from_slice(&[1, 8, 0, 0])?;
    out.extend_from_slice(&[0xC2; 160])
}

/// Appends the packet of a burst: the TLVs say that it has a segment header, channel, SID, IUC,
/// the bits of its grant and its number.
fn push_burst(
    out: &mut Vec<u8>,
    pool: &Pool,
    time: u64,
    channel: usize,
    flow: u32,
    burst: u64,
    cut: &Cut,
) -> Result<(), AllocError> {
    let kind = if channel < 4 { 65 } else { 72 };
    let channel = u8::try_from(channel.wrapping_add(1)).unwrap_or(0);
    let [s0, s1] = FIRST_SID
        .wrapping_add(u16::try_from(flow).unwrap_or(0))
        .to_be_bytes();
    let [g0, g1, g2, g3] = cut.size().saturating_mul(8).to_be_bytes();
    let front = [
        1, kind, 0, 29, 18, 1, 1, 10, 1, channel, 11, 2, s0, s1, 12, 1, 9, 17, 4, g0, g1, g2, g3,
        13, 8,
    ];
    push_record_header(out, time, cut.size().saturating_add(33))?;
    out.extend_from_slice(&front)?;
    out.extend_from_slice(&burst.to_be_bytes())?;
    out.extend_from_slice(&cut.head)?;
    out.extend_from_slice(pool.payload(cut))
}
