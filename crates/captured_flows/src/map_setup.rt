//! What a receiver is set up with, of a map.
ghost use Rattle.std.specs.Prelude.{◌≡◌, [], IfOk, IfErr, map};
ghost use Rattle.receiver.specs.HandedIn.{made_of};
ghost use Rattle.receiver.specs.Widths.{IsSetupErrorWithin};
ghost use Rattle.selected_receiver.specs.Whole.{StandsForWhole, IsAtHand};
ghost use Rattle.captured_flows.specs.Captures.{record_of, row_of};
ghost use Rattle.captured_flows.specs.Together.{HaveWaits, views_of, view_begun};

use crate::flow_bursts::CapturedFlow;
use crate::waits::Waits;
use capture_map::{CaptureMap, MapFlow, MapSid};
use docsis_wire::HeaderCheck;
use flow_core::FlowRecord;
use flow_selection::Selection;
use lane::{MOST_CHANNELS, SidRow};
use loss_rule::LossRule;
use receiver::{MOST_FLOWS, Receiver, Setup, SetupError, Width};
use selected_receiver::SelectedReceiver;
use std::alloc::{AllocError, Global};

/// How many channels a receiver has: as many as there may be.
const CHANNELS: u8 = MOST_CHANNELS as u8;

/// The record of a flow. Where its first number isn't known it is 0: nothing is handed in before
/// the flow begins, at another one.
fn record_of(flow: &MapFlow) -> FlowRecord
    ensures { result ≡ record_of flow.now }
{
    FlowRecord {
        sfid: flow.sfid,
        first: flow.first.unwrap_or(0),
        window: flow.window,
        clusters: flow.clusters,
        ring: 1,
    }
}

/// The row of a service identifier.
fn row_of(row: &MapSid) -> SidRow
    ensures { result ≡ row_of row.now }
{
    SidRow {
        channel: row.channel,
        sid: row.sid,
        flow: usize::from(row.flow),
    }
}

/// The records of flows.
fn records_of(alloc: Global, flows: &[MapFlow]) -> Result<Vec<FlowRecord>, AllocError>
    ensures { IfOk result (λ records. records.items ≡ map record_of flows.now) }
{
    let mut records = Vec::with_capacity(alloc, flows.len())?;
    for flow in flows {
        records.push(record_of(flow))?;
    }
    Ok(records)
}

/// The rows of service identifiers.
fn rows_of(alloc: Global, sids: &[MapSid]) -> Result<Vec<SidRow>, AllocError>
    ensures { IfOk result (λ rows. rows.items ≡ map row_of sids.now) }
{
    let mut rows = Vec::with_capacity(alloc, sids.len())?;
    for sid in sids {
        rows.push(row_of(sid))?;
    }
    Ok(rows)
}

/// What a receiver is set up with.
pub(crate) fn setup_of(alloc: Global, capture_map: &CaptureMap) -> Result<Setup, AllocError>
    ensures flows { IfOk result (λ setup. setup.flows.items ≡ map record_of capture_map.now.flows.items) }
    ensures sids { IfOk result (λ setup. setup.sids.items ≡ map row_of capture_map.now.sids.items) }
{
    let flows = records_of(alloc, &capture_map.flows)?;
    let sids = rows_of(alloc, &capture_map.sids)?;
    Ok(Setup {
        flows,
        sids,
        mailbox: 1,
    })
}

/// The flows, of which nothing came yet.
pub(crate) fn flows_of(
    alloc: Global,
    flows: &[MapFlow],
    waits: Waits,
) -> Result<Vec<CapturedFlow>, AllocError>
    ensures views { IfOk result (λ begun. views_of begun.items ≡ map (view_begun waits) flows.now) }
    ensures waits { IfOk result (λ begun. HaveWaits waits begun.items) }
{
    let mut begun = Vec::with_capacity(alloc, flows.len())?;
    for flow in flows {
        begun.push(CapturedFlow::new(alloc, flow.window, flow.first.is_some(), waits))?;
    }
    Ok(begun)
}

/// A receiver for a setup, of as many channels and flows as there may be, of which these are
/// joined.
pub(crate) fn receiver_of<C: HeaderCheck + Drop>(
    alloc: Global,
    setup: &Setup,
    rule: LossRule,
    selected: Selection,
    check: C,
) -> Result<SelectedReceiver<C>, SetupError>
    ensures stands { IfOk result (λ receiver. StandsForWhole C.accepts receiver
        (C.accepts check) (made_of rule 16 setup.now) [] []) }
    ensures at_hand { IfOk result (λ receiver. IsAtHand C.accepts receiver) }
    ensures selected { IfOk result (λ receiver. receiver.selected ≡ selected) }
    ensures fault { IfErr result (IsSetupErrorWithin 16 16384 setup.now) }
{
    match Width::new(CHANNELS, MOST_FLOWS) {
        Ok(width) => match Receiver::new(alloc, width, setup, rule, check) {
            Ok(receiver) => Ok(SelectedReceiver::new(receiver, selected)),
            Err(error) => Err(error),
        },
        Err(_) => unreachable!(),
    }
}
