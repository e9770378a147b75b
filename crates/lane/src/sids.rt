//! Which flow each service identifier of a channel belongs to, and the faults of such rows.
ghost use Rattle.std.specs.Prelude.{◌≡◌, ◌≢◌, ◌≤◌, ◌↔◌, ℕ, MatchOption, Ok, Err, IfOk};
ghost use Rattle.flow_records.specs.Setup.{IsLeast};
ghost use Rattle.lane.specs.Limits.{most_channels};
ghost use Rattle.lane.specs.Rows.{IsOutOfRange, IsOutOfRangeWithin, IsSidRepeated, NamesNoFlow};
ghost use Rattle.lane.specs.Rows.{IsLaneFault, IsLaneFaultWithin};
ghost use Rattle.lane.specs.Rows.{CanBeOpened, CanBeOpenedWithin};
ghost use Rattle.lane.specs.declared.sids.LaneFault.{LaneFault};

mod seen;
mod table;

use seen::SeenSids;
pub use seen::{CHANNELS, MOST_CHANNELS, SIDS};
use std::alloc::{AllocError, Global};
pub use table::SidTable;
use thiserror::Error;

/// How many channels there are where no number is named.
pub const PROFILE_CHANNELS: u8 = 4;

/// A service identifier of a channel, and the flow to which it belongs.
#[derive(Clone, Copy, Debug, PartialEq, Eq)]
pub struct SidRow {
    /// The channel: 0 to 3, or below the number of channels that is named.
    pub channel: u8,
    /// The service identifier, 0 to 16,383.
    pub sid: u16,
    /// The index of the flow's record.
    pub flow: usize,
}

/// Why a lane can't be opened. Rows are counted from 0. The first of these is reported.
#[derive(Clone, Copy, Debug, PartialEq, Eq, Error)]
pub enum LaneFault {
    /// The channel of this row is above 3, or not below the number of channels where one is named,
    /// or its service identifier is above 16,383. It is the first such row.
    #[error("row {0} is out of range")]
    SidRange(usize),
    /// The channel and the service identifier of this row stand in an earlier row. It is the first
    /// such row.
    #[error("row {0} has an identifier given before")]
    SameSid(usize),
    /// The flow of this row has no record. It is the first such row.
    #[error("row {0} names no flow")]
    UnknownFlow(usize),
    /// An allocation failed.
    #[error("out of memory")]
    OutOfMemory,
}

impl From<AllocError> for LaneFault {
    ghost use Rattle.std.specs.Prelude.{◌≡◌};
    ghost use Rattle.lane.specs.declared.sids.LaneFault.TheVariants.{OutOfMemory};

    ghost from_gives = { λ _ fault. fault ≡ OutOfMemory };

    fn from(_: AllocError) -> LaneFault {
        LaneFault::OutOfMemory
    }
}

/// Looks for the first fault of the rows of four channels, where there are so many flows. It takes
/// no memory and never answers `OutOfMemory`.
pub fn check_rows(rows: &[SidRow], flow_count: usize) -> Result<(), LaneFault>
    ensures ok { (result ≡ Ok tt) ↔ CanBeOpened rows.now flow_count }
    ensures fault { (fault : LaneFault)
        → (result ≡ Err fault) ↔ IsLaneFault rows.now flow_count fault }
{
    if let Some(k) = first_out_of_range(PROFILE_CHANNELS, rows) {
        return Err(LaneFault::SidRange(k));
    }
    if let Some(k) = first_repeated(rows) {
        return Err(LaneFault::SameSid(k));
    }
    if let Some(k) = first_without_flow(rows, flow_count) {
        return Err(LaneFault::UnknownFlow(k));
    }
    Ok(())
}

/// Looks for the first fault of the rows of so many channels, at most 16, where there are so many
/// flows. It keeps which identifiers it has seen in memory, 16 KiB a channel: where an allocation
/// for them fails, it answers `OutOfMemory` of rows that are all in range.
pub fn check_rows_within(
    alloc: Global,
    channels: u8,
    rows: &[SidRow],
    flow_count: usize,
) -> Result<(), LaneFault>
    requires { channels ≤ most_channels }
    ensures ok { result ≡ Ok tt → CanBeOpenedWithin channels rows.now flow_count }
    ensures fault { (fault : LaneFault) → fault ≢ LaneFault.OutOfMemory → result ≡ Err fault
        → IsLaneFaultWithin channels rows.now flow_count fault }
    ensures memory { result ≡ Err LaneFault.OutOfMemory
        → (k : ℕ) → ¬ (IsOutOfRangeWithin channels rows.now k) }
{
    if let Some(k) = first_out_of_range(channels, rows) {
        return Err(LaneFault::SidRange(k));
    }
    if let Some(k) = first_repeated_of_many(alloc, channels, rows)? {
        return Err(LaneFault::SameSid(k));
    }
    if let Some(k) = first_without_flow(rows, flow_count) {
        return Err(LaneFault::UnknownFlow(k));
    }
    Ok(())
}

/// The first row that is out of range, where there are so many channels.
fn first_out_of_range(channels: u8, rows: &[SidRow]) -> Option<usize>
    ensures { MatchOption result ((k : ℕ) → ¬ (IsOutOfRangeWithin channels rows.now k))
        (λ k. IsLeast (IsOutOfRangeWithin channels rows.now) k) }
{
    for (k, row) in rows.iter().enumerate() {
        if row.channel >= channels || usize::from(row.sid) >= SIDS {
            return Some(k);
        }
    }
    None
}

/// The first row whose channel and service identifier stand in an earlier one.
fn first_repeated(rows: &[SidRow]) -> Option<usize>
    requires in_range { (k : ℕ) → ¬ (IsOutOfRange rows.now k) }
    ensures { MatchOption result ((k : ℕ) → ¬ (IsSidRepeated rows.now k))
        (λ k. IsLeast (IsSidRepeated rows.now) k) }
{
    let mut seen = SeenSids::new();
    for (k, row) in rows.iter().enumerate() {
        if seen.contains(row.channel, row.sid) {
            return Some(k);
        }
        seen.insert(row.channel, row.sid);
    }
    None
}

/// The first row whose channel and service identifier stand in an earlier one, by a table in memory
/// of those of so many channels.
fn first_repeated_of_many(
    alloc: Global,
    channels: u8,
    rows: &[SidRow],
) -> Result<Option<usize>, AllocError>
    requires in_range { (k : ℕ) → ¬ (IsOutOfRangeWithin channels rows.now k) }
    ensures { IfOk result (λ found. MatchOption found ((k : ℕ) → ¬ (IsSidRepeated rows.now k))
        (λ k. IsLeast (IsSidRepeated rows.now) k)) }
{
    let mut table = SidTable::new(alloc, channels)?;
    for (k, row) in rows.iter().enumerate() {
        if table.contains(row.channel, row.sid) {
            return Ok(Some(k));
        }
        table.insert(row.channel, row.sid);
    }
    Ok(None)
}

/// The first row whose flow has no record.
fn first_without_flow(rows: &[SidRow], flow_count: usize) -> Option<usize>
    ensures { MatchOption result ((k : ℕ) → ¬ (NamesNoFlow rows.now flow_count k))
        (λ k. IsLeast (NamesNoFlow rows.now flow_count) k) }
{
    for (k, row) in rows.iter().enumerate() {
        if row.flow >= flow_count {
            return Some(k);
        }
    }
    None
}
