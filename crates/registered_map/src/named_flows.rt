//! The flows of which modems were told.
ghost use Rattle.std.specs.Prelude.{◌≡◌, ℕ, nat_eq};
ghost use Rattle.std.specs.HashMap.{get};
ghost use Rattle.registered_map.specs.Places.{flow_if_named};

use crate::telling::{RegisteredFlow, Telling};
use registrations::ChannelSid;
use std::alloc::{AllocError, Global};
use std::collections::HashMap;

/// Flows, each with its place by its service flow identifier. Contracts see the flows.
#[derive(Debug, Drop)]
pub(crate) struct Flows {
    pub(crate) named: Vec<RegisteredFlow>,
    places: HashMap<u32, u16>,
    ghost indexed: { (sfid : ℕ) → get nat_eq places sfid ≡ flow_if_named sfid named.items },
}

impl Flows {
    ghost use Rattle.std.specs.Prelude.{◌+◌, ◌∷◌, ◌++◌, ◌<◌, length, [], OnOk};
    ghost use Rattle.registered_map.specs.Places.{most_flows, place_of_flow, raise_clusters};
    ghost use Rattle.registered_map.specs.Registered.{with_flow};
    ghost use Rattle.registered_map.specs.Inside.Room.{FlowsHaveRoom};

    /// No flows.
    pub fn new(alloc: Global) -> Flows
        ensures { result.named.items ≡ [] }
    {
        Flows {
            named: Vec::new(alloc),
            places: HashMap::new(alloc),
        }
    }

    /// The place of a flow, or how many flows there are where it isn't one of them.
    pub fn place_of(&self, sfid: u32) -> usize
        ensures { result ≡ place_of_flow sfid self.now.named.items }
    {
        match self.places.get(&sfid) {
            Some(place) => usize::from(*place),
            None => self.named.len(),
        }
    }

    /// Makes room for so many flows more.
    pub fn reserve(&mut self, count: usize) -> Result<(), AllocError>
        ensures same { self.new.named.items ≡ self.old.named.items }
        ensures room { OnOk result (FlowsHaveRoom count self.new) }
    {
        self.named.reserve(count)?;
        self.places.reserve(count)
    }

    /// Appends a flow that isn't one of them.
    pub fn name(&mut self, flow: RegisteredFlow)
        requires few { length self.old.named.items < most_flows }
        requires new { place_of_flow flow.sfid self.old.named.items ≡ length self.old.named.items }
        requires room { FlowsHaveRoom 1 self.old }
        ensures named { self.new.named.items ≡ self.old.named.items ++ flow ∷ [] }
        ensures room { (k : ℕ) → FlowsHaveRoom (k + 1) self.old → FlowsHaveRoom k self.new }
    {
        let place = self.named.len() as u16;
        self.named.push_reserved(flow);
        let _ = self.places.insert(flow.sfid, place);
    }

    /// Appends the flow of a SID, which has this place, if it isn't one of them; otherwise it has
    /// the SID's cluster too.
    pub fn have(&mut self, telling: Telling, told: ChannelSid, place: usize)
        requires few { place < most_flows }
        requires cluster { told.cluster < 8 }
        requires place { place ≡ place_of_flow told.sfid self.old.named.items }
        requires room { FlowsHaveRoom 1 self.old }
        ensures had { self.new.named.items ≡ with_flow telling told place self.old.named.items }
        ensures room { (k : ℕ) → FlowsHaveRoom (k + 1) self.old → FlowsHaveRoom k self.new }
    {
        let clusters = told.cluster + 1;
        if place == self.named.len() {
            self.name(RegisteredFlow {
                sfid: told.sfid,
                clusters,
                telling,
            });
        } else {
            self.raise(place, clusters);
        }
    }

    /// The flow at this place has so many clusters or more.
    pub fn raise(&mut self, place: usize, clusters: u8)
        ensures raised { self.new.named.items ≡ raise_clusters place clusters self.old.named.items }
        ensures room { (k : ℕ) → FlowsHaveRoom k self.old → FlowsHaveRoom k self.new }
    {
        let Some(flow) = self.named.get(place).copied() else {
            return;
        };
        self.named[place] = RegisteredFlow {
            clusters: flow.clusters.max(clusters),
            ..flow
        };
    }
}
