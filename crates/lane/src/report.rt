//! What a lane answers, and what became of all inputs of a channel.
ghost use Rattle.std.specs.Prelude.{◌≡◌, [], IfOk, OnErr};
ghost use Rattle.lane.specs.Report.{admitted_by, AddsAnswer, IsReportOf, Reports};

use crate::admitted::Admitted;
use crate::refusal::Refusal;
use std::alloc::{AllocError, Global};

/// What a lane answers: nothing to a grant that is accepted, what is admitted of a burst, or a
/// refusal.
pub type Answer = Result<Option<Admitted>, Refusal>;

/// What an answer admits.
pub fn admitted_segment(answer: Answer) -> Option<Admitted>
    ensures { result ≡ admitted_by answer }
{
    match answer {
        Ok(admitted) => admitted,
        Err(_) => None,
    }
}

/// What became of the inputs of a channel.
#[derive(Debug, Drop)]
pub struct LaneReport {
    /// How many bursts were admitted. It stays at its greatest value, 2^64 - 1.
    pub admitted: u64,
    /// The numbers of the refusals, in the order of the inputs:
    /// [`Refusal::number`](crate::Refusal::number).
    pub refused: Vec<u8>,
}

impl LaneReport {
    /// No input came yet.
    pub fn none(alloc: Global) -> LaneReport
        ensures { IsReportOf [] result }
    {
        LaneReport {
            admitted: 0,
            refused: Vec::new(alloc),
        }
    }

    /// Notes what was answered to one input more. Where an allocation failed the report is as it
    /// was.
    pub fn note(&mut self, answer: &Answer) -> Result<(), AllocError>
        ensures added { IfOk result (λ _. AddsAnswer self.old answer.now self.new) }
        ensures noted { IfOk result (λ _. Reports self.old answer.now self.new) }
        ensures unchanged { OnErr result ((self.new.admitted ≡ self.old.admitted)
            × (self.new.refused.items ≡ self.old.refused.items)) }
    {
        match answer {
            Ok(admitted) => {
                if admitted.is_some() {
                    self.admitted = self.admitted.saturating_add(1);
                }
            }
            Err(refusal) => self.refused.push(refusal.number())?,
        }
        Ok(())
    }
}
