//! The lines of a map, one after another.
ghost use Rattle.std.specs.Prelude.{IfOk, IfErr};
ghost use Rattle.capture_map.specs.Reading.{IsMap, IsMapFault};

use crate::map::{CaptureMap, MOST_FLOWS, MapChannel, MapFlow, MapSid};
use crate::map_fault::{LineFault, MapFault, MapKind};
use crate::map_line::{MapLine, read_map_line};
use std::alloc::Global;
use std::collections::HashSet;
use text_lines::{split_field, split_line};

/// What the lines so far say, and the identifiers in them.
#[derive(Drop)]
struct Reading {
    map: CaptureMap,
    sfids: HashSet<u32>,
    /// Channels and service identifiers.
    sids: HashSet<(u8, u16)>,
}

impl Reading {
    ghost use Rattle.std.specs.Prelude.{◌≡◌, ◌||◌, ◌==◌, ◌∷◌, IsTrue, OnOk};
    ghost use Rattle.std.specs.List.{list_any};
    ghost use Rattle.text_lines.specs.Lines.{fields_of};
    ghost use Rattle.capture_map.specs.Reading.{Said, nothing_said};
    ghost use Rattle.capture_map.specs.Inside.MapSoFar.{HasRead, ReadsLine, TakesLine};

    /// What no lines say.
    fn new(alloc: Global) -> Reading
        ensures { HasRead nothing_said result }
    {
        Reading {
            map: CaptureMap {
                flows: Vec::new(alloc),
                channels: Vec::new(alloc),
                sids: Vec::new(alloc),
            },
            sfids: HashSet::new(alloc),
            sids: HashSet::new(alloc),
        }
    }

    /// Takes a line, or skips it where it has no fields.
    fn take_line(&mut self, line: &[u8]) -> Result<(), LineFault>
        ensures { TakesLine self.old line.now result self.new }
    {
        let Some((field, rest)) = split_field(line) else {
            return Ok(());
        };
        let line = read_map_line(field, rest)?;
        self.add(line)
    }

    /// Adds what a line says.
    fn add(&mut self, line: MapLine) -> Result<(), LineFault>
        ensures { ReadsLine self.old line result self.new }
    {
        match line {
            MapLine::Flow(flow) => self.add_flow(flow),
            MapLine::Channel(channel) => self.add_channel(channel),
            MapLine::Sid(row) => self.add_sid(row),
        }
    }

    /// Adds a flow.
    fn add_flow(&mut self, flow: MapFlow) -> Result<(), LineFault>
        ensures { ReadsLine self.old (MapLine.Flow flow) result self.new }
    {
        if self.map.flows.len() >= MOST_FLOWS {
            return Err(LineFault::Kind(MapKind::TooManyFlows));
        }
        if !self.sfids.insert(flow.sfid)? {
            return Err(LineFault::Kind(MapKind::SameFlow));
        }
        Ok(self.map.flows.push(flow)?)
    }

    /// Adds a channel.
    fn add_channel(&mut self, channel: MapChannel) -> Result<(), LineFault>
        ensures { ReadsLine self.old (MapLine.Channel channel) result self.new }
    {
        if self.has_either(channel) {
            return Err(LineFault::Kind(MapKind::SameChannel));
        }
        Ok(self.map.channels.push(channel)?)
    }

    /// Adds a service identifier.
    fn add_sid(&mut self, row: MapSid) -> Result<(), LineFault>
        ensures { ReadsLine self.old (MapLine.Sid row) result self.new }
    {
        if !self.has_channel(row.channel) {
            return Err(LineFault::Kind(MapKind::UnknownChannel));
        }
        if usize::from(row.flow) >= self.map.flows.len() {
            return Err(LineFault::Kind(MapKind::UnknownFlow));
        }
        if !self.sids.insert((row.channel, row.sid))? {
            return Err(LineFault::Kind(MapKind::SameSid));
        }
        Ok(self.map.sids.push(row)?)
    }

    /// Whether a line above gives this channel or this upstream channel id.
    fn has_either(&self, channel: MapChannel) -> bool
        ensures { result
            ≡ list_any (λ other. other.channel == channel.channel || other.id == channel.id)
            self.now.map.channels.items }
    {
        self.map.channels.iter().any(|other| other.channel == channel.channel
            || other.id == channel.id)
    }

    /// Whether a line above gives this channel.
    fn has_channel(&self, channel: u8) -> bool
        ensures { result
            ≡ list_any (λ other. other.channel == channel) self.now.map.channels.items }
    {
        self.map
            .channels
            .iter()
            .any(|other| other.channel == channel)
    }
}

/// The map that a text is. Otherwise it reports the first faulty line with the first kind of its
/// faults, or that an allocation failed.
pub fn read_map(alloc: Global, text: &[u8]) -> Result<CaptureMap, MapFault>
    ensures map { IfOk result (IsMap text.now) }
    ensures fault { IfErr result (IsMapFault text.now) }
{
    let mut reading = Reading::new(alloc);
    let mut rest = text;
    let mut number = 1u64;
    while !rest.is_empty() {
        let (line, below) = split_line(rest);
        if let Err(fault) = reading.take_line(line) {
            return Err(fault.at(number));
        }
        rest = below;
        number += 1;
    }
    Ok(reading.map)
}
