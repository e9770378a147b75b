//! A lane: the grants and bursts of one channel.
ghost use Rattle.std.specs.Prelude.{◌≡◌, ◌↔◌, ℕ, [], List, IsTrue, IsOk, IfOk, IfErr, OnErr, Ok};
ghost use Rattle.std.specs.Prelude.{Err, length};
ghost use Rattle.std.specs.Prelude.{◌<◌, Some, slice_get};
ghost use Rattle.lane.specs.declared.sids.SidRow.{SidRow};
ghost use Rattle.lane.specs.declared.sids.LaneFault.{LaneFault};
ghost use Rattle.lane.specs.Rows.{IsLaneFault, CanBeOpened, CanBeOpenedWithin, NamesNoFlow};
ghost use Rattle.lane.specs.Inputs.{LaneSetup, AnsweredInput, IsGrantSize, is_burst};
ghost use Rattle.lane.specs.Inputs.{outstanding_count};
ghost use Rattle.lane.specs.Stands.{flow_at, HasFlows, StandsFor, TakesInput, StandsForTheSame};
ghost use Rattle.lane.specs.Stands.{IsOutOfMemory, CouldTake};
ghost use Rattle.lane.specs.Stands.{WouldAdmit, NamesAFlow};

use crate::admitted::Admitted;
use crate::grant::{OutstandingGrant, SidFlow};
use crate::input::Input;
use crate::refusal::Refusal;
use crate::report::Answer;
use crate::sids::{LaneFault, PROFILE_CHANNELS, SidRow, check_rows};
use docsis_wire::{Bytes, HEADER_BYTES};
use flow_records::FlowRecord;
use std::alloc::{AllocError, Global};
use std::collections::HashMap;

/// The fewest bytes of a grant: those of a segment header.
pub const GRANT_MIN: u32 = HEADER_BYTES as u32;
/// The most bytes of a grant.
pub const GRANT_MAX: u32 = 65_535;
/// How many grants of a channel may be outstanding.
const OUTSTANDING_MAX: usize = 65_536;

/// One channel's receiver: it knows which grants are outstanding, and admits the bursts that fit
/// them.
#[derive(Drop)]
pub struct Lane {
    channel: u8,
    /// The flow of each service identifier, up to the greatest that a row of the channel has.
    flows: Vec<Option<SidFlow>>,
    grants: HashMap<u32, OutstandingGrant>,
}

impl Lane {
    /// A lane of this channel, 0 to 3, with nothing outstanding, or the first fault of the rows.
    /// It looks at the rows of all channels and uses those of its own. On a channel above 3 no row
    /// is used, so that every grant is refused.
    pub fn new(
        alloc: Global,
        channel: u8,
        rows: &[SidRow],
        records: &[FlowRecord],
    ) -> Result<Lane, LaneFault>
        ensures new { IfOk result (λ lane. let setup : LaneSetup = record {
          channel = channel;
          rows = rows.now;
          records = records.now;
        } in
            StandsFor setup lane []) }
        ensures can_be_opened { IsOk result → CanBeOpened rows.now (length records.now) }
        ensures memory { result ≡ Err LaneFault.OutOfMemory
            → CanBeOpened rows.now (length records.now) }
        ensures range { (k : ℕ) → result ≡ Err (LaneFault.SidRange k)
            ↔ IsLaneFault rows.now (length records.now) (LaneFault.SidRange k) }
        ensures same { (k : ℕ) → result ≡ Err (LaneFault.SameSid k)
            ↔ IsLaneFault rows.now (length records.now) (LaneFault.SameSid k) }
        ensures unknown { (k : ℕ) → result ≡ Err (LaneFault.UnknownFlow k)
            ↔ IsLaneFault rows.now (length records.now) (LaneFault.UnknownFlow k) }
    {
        check_rows(rows, records.len())?;
        Ok(Lane::open(alloc, channel, rows, records)?)
    }

    /// A lane of this channel, 0 to 3, with nothing outstanding, for rows that have no fault.
    pub fn open(
        alloc: Global,
        channel: u8,
        rows: &[SidRow],
        records: &[FlowRecord],
    ) -> Result<Lane, AllocError>
        requires can_be_opened { CanBeOpened rows.now (length records.now) }
        ensures { IfOk result (λ lane. let setup : LaneSetup = record {
          channel = channel;
          rows = rows.now;
          records = records.now;
        } in
            StandsFor setup lane []) }
    {
        Lane::open_within(alloc, PROFILE_CHANNELS, channel, rows, records)
    }

    /// A lane of this channel, one of so many, with nothing outstanding, for rows of so many
    /// channels that have no fault.
    pub fn open_within(
        alloc: Global,
        channels: u8,
        channel: u8,
        rows: &[SidRow],
        records: &[FlowRecord],
    ) -> Result<Lane, AllocError>
        requires can_be_opened { CanBeOpenedWithin channels rows.now (length records.now) }
        ensures { IfOk result (λ lane. let setup : LaneSetup = record {
          channel = channel;
          rows = rows.now;
          records = records.now;
        } in
            StandsFor setup lane []) }
    {
        let flows = flows_of(alloc, channel, rows, records)?;
        Ok(Lane {
            channel,
            flows,
            grants: HashMap::new(alloc),
        })
    }

    /// Takes a grant or a burst, as [`Lane::answer`] does; that an allocation failed is one of the
    /// refusals. `None`: a grant was accepted and is outstanding. Otherwise the answer is what is
    /// admitted of a burst, whose grant is then spent, or the first refusal that applies. That an
    /// allocation failed is reported only if no other refusal applies, and then nothing changes.
    pub fn take(&mut self, alloc: Global, input: &Input) -> Result<Option<Admitted>, Refusal>
        ensures taken { ¬ (IsOutOfMemory input.now result)
            → TakesInput self.old input.now result self.new }
        ensures refused { IsOutOfMemory input.now result
            → StandsForTheSame self.old self.new }
        ensures memory { IsOutOfMemory input.now result
            → CouldTake self.old input.now }
    {
        match self.answer(alloc, input) {
            Ok(answer) => answer,
            Err(_) => Err(out_of_memory(input)),
        }
    }

    /// What a grant or a burst is answered: nothing to a grant that is accepted, what is admitted
    /// of a burst, or the first refusal that applies. It is an error that an allocation failed:
    /// then no refusal applies, nothing changes, and the input can be taken again.
    pub fn answer(&mut self, alloc: Global, input: &Input) -> Result<Answer, AllocError>
        ensures answered { IfOk result (λ answer. TakesInput self.old input.now answer self.new) }
        ensures not_memory { IfOk result (λ answer. ¬ (IsOutOfMemory input.now answer)) }
        ensures unchanged { OnErr result (StandsForTheSame self.old self.new) }
        ensures memory { OnErr result (CouldTake self.old input.now) }
    {
        match input {
            Input::Grant { number, sid, bytes } => self.answer_grant(*number, *sid, *bytes),
            Input::Burst {
                grant,
                hcs_ok,
                bytes,
            } => { self.answer_burst(alloc, *grant, *hcs_ok, bytes) }
        }
    }

    /// Takes a grant or a burst, as [`Lane::answer`] does, and the burst's own buffer becomes the
    /// payload of its segment: a burst takes no memory. Where an allocation for a grant fails no
    /// refusal applies, nothing changes, and the input is given back, to be taken again.
    #[inline(always)]
    pub fn take_owned(&mut self, input: Input) -> Result<Answer, Input>
        ensures answered { IfOk result (λ answer. TakesInput self.old input answer self.new) }
        ensures not_memory { IfOk result (λ answer. ¬ (IsOutOfMemory input answer)) }
        ensures given_back { IfErr result (λ back. back ≡ input) }
        ensures unchanged { OnErr result (StandsForTheSame self.old self.new) }
        ensures memory { OnErr result (CouldTake self.old input) }
        ensures bursts { IsTrue (is_burst input) → IsOk result }
    {
        match input {
            Input::Grant { number, sid, bytes } => match self.answer_grant(number, sid, bytes) {
                Ok(answer) => Ok(answer),
                Err(_) => Err(Input::Grant { number, sid, bytes }),
            },
            Input::Burst {
                grant,
                hcs_ok,
                bytes,
            } => Ok(self.take_burst(grant, hcs_ok, bytes)),
        }
    }

    /// The flow of which a burst would be admitted, if one would be: of whatever is answered to
    /// this input, the segment that is admitted is of this flow. It takes no memory.
    pub fn look(&self, input: &Input) -> Option<usize>
        ensures flow { WouldAdmit self.now input.now result }
        ensures exists { NamesAFlow self.now result }
    {
        match input {
            Input::Grant { .. } => None,
            Input::Burst {
                grant,
                hcs_ok,
                bytes,
            } => self.look_at_burst(*grant, *hcs_ok, bytes),
        }
    }

    /// How many grants are outstanding, at most 65,536. It takes no memory.
    pub fn outstanding(&self) -> usize
        ensures { (setup : LaneSetup) (taken : List AnsweredInput)
            → StandsFor setup self.now taken → result ≡ outstanding_count taken }
    {
        self.grants.len()
    }

    /// The flow of which this burst would be admitted, if it would be.
    fn look_at_burst(&self, number: u32, hcs_ok: bool, bytes: &Bytes) -> Option<usize>
        ensures flow { WouldAdmit self.now (Input.Burst number hcs_ok bytes.now) result }
        ensures exists { NamesAFlow self.now result }
    {
        let granted = self.grants.get(&number).copied()?;
        if granted.fits(hcs_ok, bytes) {
            Some(granted.flow.index)
        } else {
            None
        }
    }

    /// The flow of a service identifier, if a row of the channel has it.
    fn flow_of(&self, sid: u16) -> Option<SidFlow>
        ensures { result ≡ flow_at self.now.flows.items sid }
    {
        self.flows.get(usize::from(sid)).copied().unwrap_or(None)
    }

    /// Keeps a grant as outstanding.
    #[inline(always)]
    fn answer_grant(&mut self, number: u32, sid: u16, bytes: u32) -> Result<Answer, AllocError>
        ensures answered { IfOk result
            (λ answer. TakesInput self.old (Input.Grant number sid bytes) answer self.new) }
        ensures not_memory { IfOk result
            (λ answer. ¬ (IsOutOfMemory (Input.Grant number sid bytes) answer)) }
        ensures unchanged { OnErr result (StandsForTheSame self.old self.new) }
        ensures memory { OnErr result (CouldTake self.old (Input.Grant number sid bytes)) }
    {
        if !is_grant_size(bytes) {
            return Ok(Err(Refusal::GrantRange));
        }
        if self.grants.contains_key(&number) {
            return Ok(Err(Refusal::GrantKnown));
        }
        let Some(flow) = self.flow_of(sid) else {
            return Ok(Err(Refusal::UnknownSid));
        };
        if self.grants.len() >= OUTSTANDING_MAX {
            return Ok(Err(Refusal::TooManyGrants));
        }
        self.grants
            .insert(number, OutstandingGrant { flow, bytes })?;
        Ok(Ok(None))
    }

    /// Admits or refuses a burst.
    fn answer_burst(
        &mut self,
        alloc: Global,
        number: u32,
        hcs_ok: bool,
        bytes: &Bytes,
    ) -> Result<Answer, AllocError>
        ensures answered { IfOk result
            (λ answer. TakesInput self.old (Input.Burst number hcs_ok bytes.now) answer self.new) }
        ensures not_memory { IfOk result
            (λ answer. ¬ (IsOutOfMemory (Input.Burst number hcs_ok bytes.now) answer)) }
        ensures unchanged { OnErr result (StandsForTheSame self.old self.new) }
        ensures memory { OnErr result (CouldTake self.old (Input.Burst number hcs_ok bytes.now)) }
    {
        let Some(grant) = self.grants.get(&number).copied() else {
            return Ok(Err(Refusal::NoGrant));
        };
        let made = grant.admit(alloc, self.channel, hcs_ok, bytes)?;
        self.grants.remove(&number);
        match made {
            Ok(admitted) => Ok(Ok(Some(admitted))),
            Err(refusal) => Ok(Err(refusal)),
        }
    }

    /// Admits or refuses a burst whose own buffer becomes the payload.
    #[inline(always)]
    fn take_burst(&mut self, number: u32, hcs_ok: bool, bytes: Bytes) -> Answer
        ensures answered { TakesInput self.old (Input.Burst number hcs_ok bytes) result self.new }
        ensures not_memory { ¬ (IsOutOfMemory (Input.Burst number hcs_ok bytes) result) }
    {
        let Some(grant) = self.grants.remove(&number) else {
            return Err(Refusal::NoGrant);
        };
        match grant.admit_owned(self.channel, hcs_ok, bytes) {
            Ok(admitted) => Ok(Some(admitted)),
            Err(refusal) => Err(refusal),
        }
    }
}

/// The refusal of an input which can't be kept, since an allocation failed.
fn out_of_memory(input: &Input) -> Refusal
    ensures { IsOutOfMemory input.now (Err result) }
{
    match input {
        Input::Grant { .. } => Refusal::GrantOutOfMemory,
        Input::Burst { .. } => Refusal::BurstOutOfMemory,
    }
}

/// Whether a grant may have so many bytes.
fn is_grant_size(bytes: u32) -> bool
    ensures { IsTrue result ↔ IsGrantSize bytes }
{
    (GRANT_MIN..=GRANT_MAX).contains(&bytes)
}

/// The flow of each service identifier of this channel, up to the greatest that has a row.
fn flows_of(
    alloc: Global,
    channel: u8,
    rows: &[SidRow],
    records: &[FlowRecord],
) -> Result<Vec<Option<SidFlow>>, AllocError>
    requires known { (k : ℕ) → ¬ (NamesNoFlow rows.now (length records.now) k) }
    ensures { IfOk result (λ flows. let setup : LaneSetup = record {
      channel = channel;
      rows = rows.now;
      records = records.now;
    } in HasFlows setup flows.items) }
{
    let mut flows = vec![in alloc; None; sid_count(channel, rows)]?;
    for row in rows {
        if row.channel == channel {
            flows[usize::from(row.sid)] = Some(SidFlow::of(records, row.flow));
        }
    }
    Ok(flows)
}

/// How many service identifiers there are up to the greatest that a row of this channel has.
fn sid_count(channel: u8, rows: &[SidRow]) -> usize
    ensures { (k : ℕ) (row : SidRow) → slice_get rows.now k ≡ Some row → row.channel ≡ channel
        → row.sid < result }
{
    let mut count = 0;
    for row in rows {
        if channel == row.channel {
            count = count.max(usize::from(row.sid) + 1);
        }
    }
    count
}
