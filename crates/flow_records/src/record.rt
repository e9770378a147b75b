//! What is known of each service flow before it runs.
ghost use Rattle.std.specs.Prelude.{◌≡◌, ◌≢◌, ◌<◌, ◌≤◌, ◌↔◌, ℕ, IsTrue, MatchOption, Ok, Err, IfOk};
ghost use Rattle.std.specs.Prelude.{length};
ghost use Rattle.flow_records.specs.Setup.{IsInRange, IsBad, IsRepeated, IsLeast};
ghost use Rattle.flow_records.specs.Setup.{IsSetupFault, IsSetupFaultWithin};
ghost use Rattle.flow_records.specs.Setup.{CanBeSetUp, CanBeSetUpWithin};
ghost use Rattle.flow_records.specs.declared.record.SetupFault.{SetupFault};

use docsis_wire::SEQUENCE_MODULUS;
use reorder::WIDTH_MAX;
use std::alloc::{AllocError, Global};
use std::collections::BTreeSet;
use thiserror::Error;

/// How many flows there may be, by the profile of `replay` and `run`.
pub const FLOWS_MAX: usize = 64;

/// The greatest number of flows for which a receiver can be made.
pub const MOST_FLOWS: u16 = 16_384;

/// The greatest width of a flow's window.
pub const WINDOW_MAX: u16 = WIDTH_MAX;

/// How many SID clusters a flow may have.
pub const CLUSTERS_MAX: u8 = 8;

/// What is known of a service flow before it runs. A flow's index is the place of its record.
#[derive(Clone, Copy, Debug, PartialEq, Eq)]
pub struct FlowRecord {
    /// The service flow identifier.
    pub sfid: u32,
    /// The number of the flow's first segment, 0 to 8191.
    pub first: u16,
    /// How many numbers, from the expected one on, may be held: 1 to 4096.
    pub window: u16,
    /// How many SID clusters the flow has, 1 to 8.
    pub clusters: u8,
    /// How many frames and end marks the ring to the flow's consumer has room for, at least 1.
    pub ring: u16,
}

/// Why flows can't be set up. Records are counted from 0. The first of these is reported.
#[derive(Clone, Copy, Debug, PartialEq, Eq, Error)]
pub enum SetupFault {
    /// There are more records than there may be: 64, where no other limit is named.
    #[error("too many flows")]
    TooManyFlows,
    /// A field of this record is out of its range. It is the first such record.
    #[error("flow {0} is out of range")]
    BadFlow(usize),
    /// This record's service flow identifier stands in an earlier record. It is the first such
    /// record.
    #[error("flow {0} has an identifier given before")]
    SameSfid(usize),
    /// An allocation failed.
    #[error("out of memory")]
    OutOfMemory,
}

impl From<AllocError> for SetupFault {
    ghost use Rattle.std.specs.Prelude.{◌≡◌};
    ghost use Rattle.flow_records.specs.declared.record.SetupFault.TheVariants.{OutOfMemory};

    ghost from_gives = { λ _ fault. fault ≡ OutOfMemory };

    fn from(_: AllocError) -> SetupFault {
        SetupFault::OutOfMemory
    }
}

impl FlowRecord {
    fn is_in_range(&self) -> bool
        ensures { IsTrue result ↔ IsInRange self.now }
    {
        self.first < SEQUENCE_MODULUS
            && (1..=WINDOW_MAX).contains(&self.window)
            && (1..=CLUSTERS_MAX).contains(&self.clusters)
            && self.ring > 0
    }
}

/// Looks for the first fault of the records, of which there may be 64. It never answers
/// `OutOfMemory`.
pub fn check_records(records: &[FlowRecord]) -> Result<(), SetupFault>
    ensures ok { (result ≡ Ok tt) ↔ CanBeSetUp records.now }
    ensures fault { (fault : SetupFault) → (result ≡ Err fault) ↔ IsSetupFault records.now fault }
{
    check_records_within(FLOWS_MAX, records)
}

/// Looks for the first fault of records of which there may be so many. It never answers
/// `OutOfMemory`, and takes a step for each two records.
pub fn check_records_within(limit: usize, records: &[FlowRecord]) -> Result<(), SetupFault>
    ensures ok { (result ≡ Ok tt) ↔ CanBeSetUpWithin limit records.now }
    ensures fault { (fault : SetupFault)
        → (result ≡ Err fault) ↔ IsSetupFaultWithin limit records.now fault }
{
    if records.len() > limit {
        return Err(SetupFault::TooManyFlows);
    }
    if let Some(k) = first_bad(records) {
        return Err(SetupFault::BadFlow(k));
    }
    if let Some(k) = first_repeated(records) {
        return Err(SetupFault::SameSfid(k));
    }
    Ok(())
}

/// The same in little more than a step for each record, for many of them. It keeps the identifiers
/// that it has seen in a set: where an allocation for it fails, it answers `OutOfMemory` of records
/// that aren't too many and are in range.
pub fn check_many_records(
    alloc: Global,
    limit: usize,
    records: &[FlowRecord],
) -> Result<(), SetupFault>
    ensures ok { result ≡ Ok tt → CanBeSetUpWithin limit records.now }
    ensures fault { (fault : SetupFault) → fault ≢ SetupFault.OutOfMemory → result ≡ Err fault
        → IsSetupFaultWithin limit records.now fault }
    ensures memory { result ≡ Err SetupFault.OutOfMemory
        → (length records.now ≤ limit) × ((k : ℕ) → ¬ (IsBad records.now k)) }
{
    if limit < records.len() {
        return Err(SetupFault::TooManyFlows);
    }
    if let Some(k) = first_bad(records) {
        return Err(SetupFault::BadFlow(k));
    }
    if let Some(k) = first_repeated_of_many(alloc, records)? {
        return Err(SetupFault::SameSfid(k));
    }
    Ok(())
}

/// The first record that is out of range.
fn first_bad(records: &[FlowRecord]) -> Option<usize>
    ensures { MatchOption result ((k : ℕ) → ¬ (IsBad records.now k))
        (λ k. IsLeast (IsBad records.now) k) }
{
    for (k, record) in records.iter().enumerate() {
        if !record.is_in_range() {
            return Some(k);
        }
    }
    None
}

/// The first record whose service flow identifier stands in an earlier one.
fn first_repeated(records: &[FlowRecord]) -> Option<usize>
    ensures { MatchOption result ((k : ℕ) → ¬ (IsRepeated records.now k))
        (λ k. IsLeast (IsRepeated records.now) k) }
{
    for k in 0..records.len() {
        if is_repeated(records, k) {
            return Some(k);
        }
    }
    None
}

/// Whether this record's service flow identifier stands in an earlier one.
fn is_repeated(records: &[FlowRecord], k: usize) -> bool
    requires { k < length records.now }
    ensures { IsTrue result ↔ IsRepeated records.now k }
{
    for j in 0..k {
        if records[j].sfid == records[k].sfid {
            return true;
        }
    }
    false
}

/// The first record whose service flow identifier stands in an earlier one, by a set of those that
/// were seen.
fn first_repeated_of_many(
    alloc: Global,
    records: &[FlowRecord],
) -> Result<Option<usize>, AllocError>
    ensures { IfOk result (λ found. MatchOption found ((k : ℕ) → ¬ (IsRepeated records.now k))
        (λ k. IsLeast (IsRepeated records.now) k)) }
{
    let mut seen = BTreeSet::new(alloc);
    for (k, record) in records.iter().enumerate() {
        if !seen.insert(record.sfid)? {
            return Ok(Some(k));
        }
    }
    Ok(None)
}
