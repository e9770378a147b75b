//! Setups of many flows.
use flow_core::FlowRecord;
use lane::SidRow;
use receiver::Setup;
use std::alloc::{AllocError, Global};

const fn record(sfid: u32) -> FlowRecord {
    FlowRecord {
        sfid,
        first: 0,
        window: 1,
        clusters: 1,
        ring: 1,
    }
}

pub const fn row(channel: u8, sid: u16, flow: usize) -> SidRow {
    SidRow { channel, sid, flow }
}

/// A setup of so many flows with the identifiers 0 and on, and of these rows.
pub fn setup(alloc: Global, flow_count: u32, rows: &[SidRow]) -> Result<Setup, AllocError> {
    let mut flows = Vec::new(alloc);
    for sfid in 0..flow_count {
        flows.push(record(sfid))?;
    }
    let sids = Vec::from_slice(alloc, rows)?;
    Ok(Setup {
        flows,
        sids,
        mailbox: 1,
    })
}
