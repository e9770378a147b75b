//! The map that messages give, one after another.
ghost use Rattle.std.specs.Prelude.{◌≡◌, ◌==◌, ◌+◌, ◌<◌, ◌≤◌, ℕ, None, OnOk, OnErr, length, fold};
ghost use Rattle.std.specs.Prelude.{position, vec_len, vec_capacity, IsTrue};
ghost use Rattle.registered_map.specs.Places.{most_channels, place_of_flow, place_of_channel};
ghost use Rattle.registered_map.specs.Places.{owner_of};
ghost use Rattle.registered_map.specs.Registered.{nothing_registered, remarked, can_say};
ghost use Rattle.registered_map.specs.Registered.{with_channel, with_row, given_to, added_at};
ghost use Rattle.registered_map.specs.Registered.{with_action, with_told, with_message};
ghost use Rattle.registered_map.specs.Holding.{registered_in, captured};
ghost use Rattle.registered_map.specs.Inside.Room.{HasRoom};

use crate::named_flows::Flows;
use crate::remarks::Remarks;
use crate::sid_owners::Sids;
use crate::telling::{RegisteredChannel, RegisteredSid, Remark, RemarkKind, Telling};
use crate::told_message::told_in;
use capture_map::{MOST_CHANNELS, MOST_FLOWS, SID_MAX};
use flow_records::CLUSTERS_MAX;
use registrations::{Action, ChannelSid, Told, WholeMessage};
use std::alloc::{AllocError, Global};

/// The map that messages give. Contracts see by `registered_in` what was registered.
#[derive(Debug, Drop)]
pub struct RegisteredMap {
    pub(crate) flows: Flows,
    pub(crate) channels: Vec<RegisteredChannel>,
    pub(crate) sids: Sids,
    pub(crate) remarks: Remarks,
}

/// Whether a map can say what was told, by the places of its channel and its flow.
fn can_say(told: ChannelSid, channel: usize, flow: usize) -> bool
    ensures { result ≡ can_say told channel flow }
{
    told.cluster < CLUSTERS_MAX
        && told.sid <= SID_MAX
        && channel < MOST_CHANNELS
        && flow < MOST_FLOWS
}

/// Names the channel of a SID at its place, if it isn't one of those that were named.
fn name_channel(
    channels: &mut Vec<RegisteredChannel>,
    telling: Telling,
    told: ChannelSid,
    place: usize,
)
    requires few { place < most_channels }
    requires room { vec_len channels.old < vec_capacity channels.old }
    ensures named { channels.new.items ≡ with_channel telling told place channels.old.items }
    ensures room { (k : ℕ) → vec_len channels.old + (k + 1) ≤ vec_capacity channels.old
        → vec_len channels.new + k ≤ vec_capacity channels.new }
{
    if place == channels.len() {
        channels.push_reserved(RegisteredChannel {
            channel: place as u8,
            id: told.channel,
            telling,
        });
    }
}

impl RegisteredMap {
    /// Nothing was registered.
    pub fn new(alloc: Global) -> RegisteredMap
        ensures { registered_in result ≡ nothing_registered }
    {
        RegisteredMap {
            flows: Flows::new(alloc),
            channels: Vec::new(alloc),
            sids: Sids::new(alloc),
            remarks: Remarks::new(alloc),
        }
    }

    /// Takes a whole message whose last part was captured at this time, in nanoseconds since the
    /// beginning of 1970, as the record of this number, counted from 1. Where an allocation fails
    /// the map stays as it was.
    pub fn take(
        &mut self,
        alloc: Global,
        message: &WholeMessage,
        nanoseconds: u64,
        place: u64,
    ) -> Result<(), AllocError>
        ensures taken { OnOk result (registered_in self.new
            ≡ with_message (registered_in self.old) (captured message.now nanoseconds place)) }
        ensures refused { OnErr result (registered_in self.new ≡ registered_in self.old) }
    {
        let told = told_in(alloc, message)?;
        self.reserve(told.len())?;
        let telling = Telling {
            modem: message.modem,
            message: message.message,
            nanoseconds,
            place,
        };
        self.take_all(telling, &told);
        Ok(())
    }

    /// Whether no SID was added.
    pub fn is_empty(&self) -> bool
        ensures { result ≡ (length (registered_in self.now).sids == 0) }
    {
        self.sids.rows.is_empty()
    }

    /// Makes room for so many things that are told.
    fn reserve(&mut self, count: usize) -> Result<(), AllocError>
        ensures same { registered_in self.new ≡ registered_in self.old }
        ensures room { OnOk result (HasRoom count self.new) }
    {
        self.flows.reserve(count)?;
        self.channels.reserve(count)?;
        self.sids.reserve(count)?;
        self.remarks.reserve(count)
    }

    /// Takes what a message tells. There is room for all.
    fn take_all(&mut self, telling: Telling, told: &[Told])
        requires { HasRoom (length told.now) self.old }
        ensures { registered_in self.new
            ≡ fold (with_told telling) (registered_in self.old) told.now }
    {
        for one in told {
            self.take_told(telling, *one);
        }
    }

    /// Takes one thing that a message tells.
    fn take_told(&mut self, telling: Telling, told: Told)
        requires room { HasRoom 1 self.old }
        ensures told { registered_in self.new ≡ with_told telling (registered_in self.old) told }
        ensures room { (k : ℕ) → HasRoom (k + 1) self.old → HasRoom k self.new }
    {
        match told {
            Told::Flow(_) => {}
            Told::Sid(told) => self.take_sid(telling, told),
        }
    }

    /// Takes what a message tells of a SID.
    fn take_sid(&mut self, telling: Telling, told: ChannelSid)
        requires room { HasRoom 1 self.old }
        ensures told { registered_in self.new
            ≡ with_action (registered_in self.old) telling told told.action }
        ensures room { (k : ℕ) → HasRoom (k + 1) self.old → HasRoom k self.new }
    {
        match told.action {
            Action::Add => self.add(telling, told),
            Action::Delete => self.remark(telling, RemarkKind::Deleted, told),
        }
    }

    /// Remarks what was told.
    fn remark(&mut self, telling: Telling, kind: RemarkKind, told: ChannelSid)
        requires room { HasRoom 1 self.old }
        ensures told { registered_in self.new
            ≡ remarked (registered_in self.old) telling kind told }
        ensures room { (k : ℕ) → HasRoom (k + 1) self.old → HasRoom k self.new }
    {
        self.remarks.note(Remark {
            kind,
            told,
            telling,
        });
    }

    /// The place of the channel with this upstream channel id, if it is one that was named.
    fn channel_if_named(&self, id: u8) -> Option<usize>
        ensures { result ≡ position (λ one. one.id == id) (registered_in self.now).channels }
    {
        self.channels.iter().position(|one| one.id == id)
    }

    /// The place of the channel with this upstream channel id, or how many channels there are where
    /// it isn't one of them.
    fn place_of_channel(&self, id: u8) -> usize
        ensures { result ≡ place_of_channel id (registered_in self.now).channels }
    {
        self.channel_if_named(id).unwrap_or(self.channels.len())
    }

    /// Takes a SID that a modem was told to add.
    fn add(&mut self, telling: Telling, told: ChannelSid)
        requires room { HasRoom 1 self.old }
        ensures told { registered_in self.new ≡ added_at (registered_in self.old) telling told
            (place_of_channel told.channel (registered_in self.old).channels)
            (place_of_flow told.sfid (registered_in self.old).flows) }
        ensures room { (k : ℕ) → HasRoom (k + 1) self.old → HasRoom k self.new }
    {
        let channel = self.place_of_channel(told.channel);
        let flow = self.flows.place_of(told.sfid);
        if can_say(told, channel, flow) {
            self.give(telling, told, channel, flow);
        } else {
            self.remark(telling, RemarkKind::LeftOut, told);
        }
    }

    /// Gives a SID that a map can say to its flow, by the places of its channel and its flow.
    fn give(&mut self, telling: Telling, told: ChannelSid, channel: usize, flow: usize)
        requires sayable { IsTrue (can_say told channel flow) }
        requires channel { channel
            ≡ place_of_channel told.channel (registered_in self.old).channels }
        requires flow { flow ≡ place_of_flow told.sfid (registered_in self.old).flows }
        requires room { HasRoom 1 self.old }
        ensures told { registered_in self.new ≡ given_to (registered_in self.old) telling told
            channel flow (owner_of channel told.sid (registered_in self.old).sids) }
        ensures room { (k : ℕ) → HasRoom (k + 1) self.old → HasRoom k self.new }
    {
        match self.sids.owner_of(channel as u8, told.sid) {
            None => self.give_first(telling, told, channel, flow),
            Some(owner) if usize::from(owner) == flow => self.flows.raise(flow, told.cluster + 1),
            Some(_) => self.remark(telling, RemarkKind::OfAnotherFlow, told),
        }
    }

    /// Gives a SID that was given to no flow.
    fn give_first(&mut self, telling: Telling, told: ChannelSid, channel: usize, flow: usize)
        requires sayable { IsTrue (can_say told channel flow) }
        requires none { owner_of channel told.sid (registered_in self.old).sids ≡ None }
        requires flow { flow ≡ place_of_flow told.sfid (registered_in self.old).flows }
        requires room { HasRoom 1 self.old }
        ensures told { registered_in self.new
            ≡ with_row (registered_in self.old) telling told channel flow }
        ensures room { (k : ℕ) → HasRoom (k + 1) self.old → HasRoom k self.new }
    {
        name_channel(&mut self.channels, telling, told, channel);
        self.flows.have(telling, told, flow);
        self.sids.give(RegisteredSid {
            channel: channel as u8,
            sid: told.sid,
            flow: flow as u16,
            telling,
        });
    }
}
