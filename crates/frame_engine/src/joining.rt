//! What came of the bursts of a capture so far.
ghost use Rattle.std.specs.Prelude.{◌≡◌, [], IfOk, IfErr, OnOk, OnErr};
ghost use Rattle.selected_receiver.specs.Whole.{IsReceivingWhole};
ghost use Rattle.capture.specs.SeenCapture.{capture_parts};
ghost use Rattle.captured_flows.specs.Capturing.{IsCapturing};
ghost use Rattle.captured_flows.specs.Captures.{IsFaultOf};
ghost use Rattle.engines.specs.declared.fault.EngineFault.TheVariants.{OutOfMemory};
ghost use Rattle.frame_engine.specs.Settings.{inner_accepts};
ghost use Rattle.frame_engine.specs.Inside.Joins.{KeepsFile, PutsCame, HasJoined};
ghost use Rattle.frame_engine.specs.Inside.Joins.{TakesBurst, TakesRecord, EndsJoining};
ghost use Rattle.frame_engine.specs.Inside.Joins.{ClosesJoining};
ghost use Rattle.frame_engine.specs.Inside.Joins.{ClosesWritten, FinishesBursts};
ghost use Rattle.frame_engine.specs.Compared.{arrivals_of_steps};
ghost use Rattle.frame_engine.specs.Comparing.{Takes};
ghost use Rattle.frame_engine.specs.Explaining.{ExplainsAfter};
ghost use Rattle.frame_reasons.specs.Told.{told_in_steps};
ghost use Rattle.frame_engine.specs.Inside.Beside.{TakesBurstBeside, TakesRecordBeside};
ghost use Rattle.frame_engine.specs.Begun.{ComparesNothing};
ghost use Rattle.frame_engine.specs.declared.comparing.Comparing.{Comparing};
ghost use Rattle.frame_engine.specs.Inside.Beside.{HasJoinedBeside, EndsBeside, ClosesBeside};
ghost use Rattle.frame_engine.specs.Inside.Beside.{ClosesWrittenBeside, FinishesBurstsBeside};

use crate::comparing::Comparing;
use crate::frame_file::FrameFile;
use crate::inner_check::InnerCheck;
use crate::record_burst::captured;
use crate::settings::CaptureSettings;
use crate::tally::CaptureTally;
use capture::CaptureRecord;
use capture_map::CaptureMap;
use captured_flows::{BurstTaken, CapturedBurst, CapturedFlows};
use engines::{Device, EngineFault};
use flow_selection::Selection;
use lane::Refusal;
use receiver::{Reply, SetupError};
use std::alloc::Global;
use std::io::Write;
use timed_frames::TimedFrames;

/// What came of the bursts of a capture so far.
#[derive(Drop)]
pub(crate) struct Joining {
    pub(crate) flows: CapturedFlows<InnerCheck>,
    pub(crate) timed: TimedFrames,
    pub(crate) file: FrameFile,
    /// How many records came. It stays at its greatest value.
    pub(crate) records: u64,
}

/// Puts all that waits into the file, tells what it says of bursts, and compares its frames. Where
/// an allocation failed, here or before, the file stays as it was.
fn put_came(
    alloc: Global,
    selected: &Selection,
    timed: &mut TimedFrames,
    file: &mut FrameFile,
    tally: &mut CaptureTally,
    comparing: &mut Comparing,
) -> Result<(), EngineFault>
    ensures put { OnOk result (PutsCame timed.old file.old timed.new file.new) }
    ensures compared { OnOk result (Takes
        (arrivals_of_steps selected.now timed.old.waiting.items)
        comparing.old comparing.new) }
    ensures explained { OnOk result (ExplainsAfter (told_in_steps timed.old.waiting.items)
        comparing.new.comparison comparing.old.reasons comparing.new.reasons) }
    ensures file { OnErr result (KeepsFile file.old file.new) }
    ensures only { IfErr result (λ fault. fault ≡ OutOfMemory) }
{
    if !timed.is_whole() {
        return Err(EngineFault::OutOfMemory);
    }
    file.put_all(alloc, timed.waiting())?;
    tally.count_steps(alloc, timed.waiting());
    comparing.take_steps(alloc, selected, timed.waiting());
    timed.let_go(alloc);
    Ok(())
}

impl Joining {
    /// Nothing came, and the file has its header.
    pub fn new(
        alloc: Global,
        settings: CaptureSettings,
        capture_map: CaptureMap,
    ) -> Result<Joining, SetupError>
        ensures begun { IfOk result (HasJoined settings capture_map [] []) }
        ensures begun_beside { IfOk result (λ joining. (comparing : Comparing)
            → ComparesNothing capture_map comparing
            → HasJoinedBeside settings capture_map [] [] joining comparing) }
        ensures capturing { IfOk result (λ joining. IsCapturing inner_accepts joining.flows) }
        ensures fault { IfErr result (IsFaultOf capture_map) }
    {
        let CaptureSettings {
            rule,
            waits,
            check,
            link,
            selected,
        } = settings;
        let timed = TimedFrames::new(alloc, capture_map.flows.len())?;
        let file = FrameFile::new(alloc, link, &capture_map.channels)?;
        let flows = CapturedFlows::new(alloc, capture_map, rule, waits, selected, check)?;
        Ok(Joining {
            flows,
            timed,
            file,
            records: 0,
        })
    }

    /// Takes a burst, and puts what comes of it into the file.
    fn take_burst(
        &mut self,
        alloc: Global,
        burst: CapturedBurst,
        is_above: bool,
        tally: &mut CaptureTally,
        comparing: &mut Comparing,
    ) -> Result<(), EngineFault>
        requires capturing { IsCapturing inner_accepts self.old.flows }
        ensures taken { OnOk result (TakesBurst self.old burst self.new) }
        ensures compared { OnOk result
            (TakesBurstBeside self.old comparing.old burst self.new comparing.new) }
        ensures capturing { OnOk result (IsCapturing inner_accepts self.new.flows) }
        ensures file { OnErr result (KeepsFile self.old.file self.new.file) }
        ensures records { self.new.records ≡ self.old.records }
        ensures only { IfErr result (λ fault. fault ≡ OutOfMemory) }
    {
        let (id, sid, time) = (burst.channel, burst.sid, burst.time);
        let burst_id = burst.burst_id;
        match self.flows.take(alloc, burst, &mut self.timed) {
            Ok(told) => {
                tally.count_burst(id, is_above, told);
                comparing.tell_taken(burst_id, told);
                let put = put_came(
                    alloc,
                    self.flows.selected(),
                    &mut self.timed,
                    &mut self.file,
                    tally,
                    comparing,
                );
                self.mark(id, sid, time, told, tally);
                put
            }
            Err(_) => Err(EngineFault::OutOfMemory),
        }
    }

    /// Marks in the picture what became of a burst, where one is drawn.
    fn mark(&self, id: u32, sid: u16, time: u64, told: BurstTaken, tally: &mut CaptureTally) {
        if !tally.draws() {
            return;
        }
        match told {
            BurstTaken::Waits(flow) => {
                if let Some(counts) = self.flows.counts(flow) {
                    tally.mark_counts(flow, counts);
                }
            }
            BurstTaken::Refused(Reply::Refused(Refusal::BadCheck)) => {
                if let Some(flow) = self.flows.flow_of(id, sid) {
                    tally.mark_bad_check(flow, time);
                }
            }
            _ => {}
        }
    }

    /// Takes a record of the capture.
    pub fn take_record(
        &mut self,
        alloc: Global,
        given: CaptureRecord,
        tally: &mut CaptureTally,
        comparing: &mut Comparing,
    ) -> Result<(), EngineFault>
        requires capturing { IsCapturing inner_accepts self.old.flows }
        ensures taken { OnOk result (TakesRecord self.old (capture_parts given) self.new) }
        ensures compared { OnOk result (TakesRecordBeside self.old comparing.old
            (capture_parts given) self.new comparing.new) }
        ensures capturing { OnOk result (IsCapturing inner_accepts self.new.flows) }
        ensures file { OnErr result (KeepsFile self.old.file self.new.file) }
        ensures only { IfErr result (λ fault. fault ≡ OutOfMemory) }
    {
        self.records = self.records.saturating_add(1);
        tally.count_record(given.nanoseconds);
        comparing.take_record(alloc, &self.flows, self.flows.selected(), &given);
        match captured(given) {
            Ok((burst, is_above)) => self.take_burst(alloc, burst, is_above, tally, comparing),
            Err(reason) => {
                tally.count_passed(reason);
                Ok(())
            }
        }
    }

    /// Nothing more comes: what waits is handed in, and what comes of it is put into the file.
    pub fn end_waiting(
        &mut self,
        alloc: Global,
        tally: &mut CaptureTally,
        comparing: &mut Comparing,
    ) -> Result<(), EngineFault>
        requires capturing { IsCapturing inner_accepts self.old.flows }
        ensures ended { OnOk result (EndsJoining self.old self.new) }
        ensures compared { OnOk result
            (EndsBeside self.old comparing.old self.new comparing.new) }
        ensures receiving { OnOk result (IsReceivingWhole inner_accepts self.new.flows.receiver) }
        ensures file { OnErr result (KeepsFile self.old.file self.new.file) }
        ensures only { IfErr result (λ fault. fault ≡ OutOfMemory) }
    {
        match self.flows.end_waiting(alloc, &mut self.timed) {
            Ok(_) => put_came(
                alloc,
                self.flows.selected(),
                &mut self.timed,
                &mut self.file,
                tally,
                comparing,
            ),
            Err(_) => Err(EngineFault::OutOfMemory),
        }
    }

    /// Counts what came of each flow since it was begun or began anew, where a fault ends the
    /// capture before the receiver is closed.
    pub fn count_open(&self, tally: &mut CaptureTally) {
        for flow in 0..tally.summary.flows.len() {
            if let Some(counts) = self.flows.counts(flow) {
                tally.count_last(flow, counts);
            }
        }
    }

    /// Closes the receiver, and answers the file with what that gave.
    pub fn close(
        self,
        alloc: Global,
        tally: &mut CaptureTally,
        comparing: &mut Comparing,
    ) -> (FrameFile, Result<(), EngineFault>)
        requires receiving { IsReceivingWhole inner_accepts self.flows.receiver }
        ensures closed { OnOk result.1 (ClosesJoining self result.0) }
        ensures compared { OnOk result.1
            (ClosesBeside self comparing.old result.0 comparing.new) }
        ensures file { OnErr result.1 (KeepsFile self.file result.0) }
        ensures only { IfErr result.1 (λ fault. fault ≡ OutOfMemory) }
    {
        let Joining {
            flows,
            mut timed,
            mut file,
            records: _,
        } = self;
        let (selected, closed) = flows.into_receiver().close(alloc, &mut timed);
        match closed {
            Ok(closed) => {
                tally.count_all_closed(&closed.flows);
                let put = put_came(alloc, &selected, &mut timed, &mut file, tally, comparing);
                (file, put)
            }
            Err(_) => (file, Err(EngineFault::OutOfMemory)),
        }
    }

    /// Closes the receiver, and writes what that gave.
    fn write_closed<W: Write>(
        self,
        alloc: Global,
        tally: &mut CaptureTally,
        comparing: &mut Comparing,
        writer: &mut Device<W>,
    ) -> Result<(), EngineFault>
        requires receiving { IsReceivingWhole inner_accepts self.flows.receiver }
        ensures written { ClosesWritten W.contents self writer.old writer.new result }
        ensures compared { OnOk result (ClosesWrittenBeside W.contents self comparing.old
            writer.old comparing.new writer.new) }
    {
        let (mut file, closed) = self.close(alloc, tally, comparing);
        file.write(writer)?;
        closed
    }

    /// Nothing more comes: what waits is handed in and the receiver is closed, and what each gave
    /// is written.
    pub fn finish<W: Write>(
        mut self,
        alloc: Global,
        tally: &mut CaptureTally,
        comparing: &mut Comparing,
        writer: &mut Device<W>,
    ) -> Result<(), EngineFault>
        requires capturing { IsCapturing inner_accepts self.flows }
        requires empty { self.file.bytes.items ≡ [] }
        ensures written { FinishesBursts W.contents self writer.old writer.new result }
        ensures compared { OnOk result (FinishesBurstsBeside W.contents self
            comparing.old writer.old comparing.new writer.new) }
    {
        match self.end_waiting(alloc, tally, comparing) {
            Ok(()) => {}
            Err(fault) => {
                self.count_open(tally);
                return Err(fault);
            }
        }
        match self.file.write(writer) {
            Ok(()) => {}
            Err(_) => {
                self.count_open(tally);
                return Err(EngineFault::Write);
            }
        }
        self.write_closed(alloc, tally, comparing, writer)
    }
}
