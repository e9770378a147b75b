//! The setup of a receiver, from values as C has them.
ghost use Rattle.std.specs.Prelude.{◌≡◌, ◌<◌, IfOk, IfErr, IfSome, IfNone, map, length};
ghost use Rattle.c_receiver.specs.Made.{IsRule, record_of, row_of, IsWidthRefused};

use crate::plain::{PlainFlow, PlainRow};
use crate::status::MakeFault;
use flow_core::FlowRecord;
use lane::SidRow;
use loss_rule::LossRule;
use receiver::{MOST_FLOWS, Setup, Width, WidthFault};
use std::alloc::{AllocError, Global};

/// The loss rule of this number, 0 to 2.
pub fn rule_of(number: u32) -> Option<LossRule>
    ensures rule { IfSome result (IsRule number) }
    ensures none { IfNone result (2 < number) }
{
    match number {
        0 => Some(LossRule::Decided),
        1 => Some(LossRule::Passed),
        2 => Some(LossRule::PassedOrSlid),
        _ => None,
    }
}

/// The width of so many channels and flows.
pub fn width_of(channels: u32, flows: usize) -> Result<Width, MakeFault>
    ensures channels { IfOk result (λ width. width.channels ≡ channels) }
    ensures flows { IfOk result (λ width. width.flows ≡ flows) }
    ensures fault { IfErr result (IsWidthRefused channels flows) }
{
    let Ok(channels) = u8::try_from(channels) else {
        return Err(MakeFault::Width(WidthFault::TooManyChannels));
    };
    let counted = if flows > usize::from(MOST_FLOWS) {
        MOST_FLOWS + 1
    } else {
        flows as u16
    };
    Width::new(channels, counted).map_err(MakeFault::Width)
}

/// The setup of these flows and rows.
pub fn setup_of(alloc: Global, flows: &[PlainFlow], rows: &[PlainRow]) -> Result<Setup, AllocError>
    ensures flows { IfOk result (λ setup. setup.flows.items ≡ map record_of flows.now) }
    ensures rows { IfOk result (λ setup. setup.sids.items ≡ map row_of rows.now) }
{
    Ok(Setup {
        flows: records_of(alloc, flows)?,
        sids: sids_of(alloc, rows)?,
        mailbox: 1,
    })
}

/// The records of these flows.
fn records_of(alloc: Global, flows: &[PlainFlow]) -> Result<Vec<FlowRecord>, AllocError>
    ensures { IfOk result (λ records. records.items ≡ map record_of flows.now) }
{
    let mut records = Vec::with_capacity(alloc, flows.len())?;
    for flow in flows {
        records.push(flow.record())?;
    }
    Ok(records)
}

/// The rows of these service identifiers.
fn sids_of(alloc: Global, rows: &[PlainRow]) -> Result<Vec<SidRow>, AllocError>
    ensures { IfOk result (λ sids. sids.items ≡ map row_of rows.now) }
{
    let mut sids = Vec::with_capacity(alloc, rows.len())?;
    for row in rows {
        sids.push(row.row())?;
    }
    Ok(sids)
}
