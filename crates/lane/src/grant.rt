//! An outstanding grant, and what is made of the burst that is received in it.
ghost use Rattle.std.specs.Prelude.{◌≡◌, ◌<◌, ◌≤◌, ◌↔◌, ℕ, IsTrue, MatchOption, IfOk, OnErr};
ghost use Rattle.std.specs.Prelude.{Err, length, slice_get};
ghost use Rattle.flow_records.specs.declared.record.FlowRecord.{FlowRecord};
ghost use Rattle.docsis_wire.specs.Ready.{IsReady};
ghost use Rattle.docsis_wire.specs.SegmentBytes.{segment_bytes};
ghost use Rattle.lane.specs.Admission.{IsMadeOf, IsAdmitted, IsRequestIn, Fits};

use crate::admitted::{Admitted, Request};
use crate::refusal::Refusal;
use docsis_wire::{Bytes, Segment, SegmentFault, SegmentHeader};
use flow_records::FlowRecord;
use std::alloc::{AllocError, Global};

/// The flow of a service identifier, and how many SID clusters the flow has.
#[derive(Clone, Copy, Debug)]
pub struct SidFlow {
    /// The index of the flow's record.
    pub index: usize,
    /// How many SID clusters the flow has.
    pub clusters: u8,
}

impl SidFlow {
    /// The flow of this index, which has a record.
    pub fn of(records: &[FlowRecord], index: usize) -> SidFlow
        requires exists { index < length records.now }
        ensures index { result.index ≡ index }
        ensures clusters { (flow_record : FlowRecord)
            × (slice_get records.now index ≡ Some flow_record)
            × (result.clusters ≡ flow_record.clusters) }
    {
        let clusters = records[index].clusters;
        SidFlow { index, clusters }
    }

    /// What is admitted of a segment of the flow that came on this channel.
    fn admitted(self, channel: u8, segment: Segment) -> Admitted
        requires { IsReady segment }
        ensures { IsAdmitted channel self (segment_bytes segment) result }
    {
        let request = self.request_in(channel, &segment.head);
        Admitted {
            flow: self.index,
            segment,
            request,
        }
    }

    /// The request in the header of a segment that came on this channel.
    fn request_in(self, channel: u8, head: &SegmentHeader) -> Option<Request>
        ensures { IsRequestIn channel self head.now result }
    {
        if head.request == 0 || head.cluster >= self.clusters {
            return None;
        }
        Some(Request {
            channel,
            flow: self.index,
            cluster: head.cluster,
            units: head.request,
            sequence: head.sequence,
        })
    }
}

/// A grant that was accepted and isn't spent.
#[derive(Clone, Copy, Debug)]
pub struct OutstandingGrant {
    pub flow: SidFlow,
    /// How many bytes were granted.
    pub bytes: u32,
}

impl OutstandingGrant {
    /// What is made of a burst on this channel that was received in the grant: what it admits, or
    /// why it is refused. Memory is taken only for a burst that fits the grant.
    pub fn admit(
        self,
        alloc: Global,
        channel: u8,
        hcs_ok: bool,
        bytes: &Bytes,
    ) -> Result<Result<Admitted, Refusal>, AllocError>
        ensures made { IfOk result (λ made. IsMadeOf channel self hcs_ok bytes.now made) }
        ensures memory { OnErr result (Fits self hcs_ok bytes.now) }
    {
        if let Some(refusal) = self.refusal_unread(hcs_ok, bytes) {
            return Ok(Err(refusal));
        }
        match Segment::read(alloc, bytes.as_slice()) {
            Ok(segment) => Ok(Ok(self.flow.admitted(channel, segment))),
            Err(SegmentFault::TooShort) => Ok(Err(Refusal::TooShort)),
            Err(SegmentFault::PointerPast) => Ok(Err(Refusal::PointerPast)),
            Err(SegmentFault::OutOfMemory) => Err(AllocError),
        }
    }

    /// The same of a burst whose own buffer becomes the payload: it takes no memory.
    #[inline(always)]
    pub fn admit_owned(self, channel: u8, hcs_ok: bool, bytes: Bytes) -> Result<Admitted, Refusal>
        ensures { IsMadeOf channel self hcs_ok bytes result }
    {
        if let Some(refusal) = self.refusal_unread(hcs_ok, &bytes) {
            return Err(refusal);
        }
        match Segment::from_burst(bytes) {
            Ok(segment) => Ok(self.flow.admitted(channel, segment)),
            Err(refused) => match refused.fault {
                SegmentFault::TooShort => Err(Refusal::TooShort),
                SegmentFault::PointerPast => Err(Refusal::PointerPast),
                SegmentFault::OutOfMemory => unreachable!(),
            },
        }
    }

    /// Whether a burst that was received in the grant fits it, and so would be admitted.
    pub fn fits(self, hcs_ok: bool, bytes: &Bytes) -> bool
        ensures { IsTrue result ↔ Fits self hcs_ok bytes.now }
    {
        match self.refusal_unread(hcs_ok, bytes) {
            Some(_) => false,
            None => Segment::head_of(bytes.as_slice()).is_ok(),
        }
    }

    /// The refusal of a burst that needs no look at its bytes, if there is one: that they are too
    /// many, or that the check is bad.
    fn refusal_unread(self, hcs_ok: bool, bytes: &Bytes) -> Option<Refusal>
        ensures { MatchOption result ((length bytes.now ≤ self.bytes) × IsTrue hcs_ok)
            (λ refusal. (channel : ℕ) → IsMadeOf channel self hcs_ok bytes.now (Err refusal)) }
    {
        if bytes.len() > self.bytes as usize {
            return Some(Refusal::TooLong);
        }
        if !hcs_ok {
            return Some(Refusal::BadCheck);
        }
        None
    }
}
