//! What was told and stands in no line.
ghost use Rattle.std.specs.Prelude.{◌≡◌, ◌+◌, ℕ, OnOk};
ghost use Rattle.registered_map.specs.Registered.{no_remarks, with_remark, remarks_in};
ghost use Rattle.registered_map.specs.Inside.Room.{RemarksHaveRoom};

use crate::telling::Remark;
use std::alloc::{AllocError, Global};

/// So many remarks are kept; those that follow are counted.
pub const MOST_REMARKS: usize = 1024;

/// Remarks, up to the most, and how many more there were. Contracts see both.
#[derive(Debug, Drop)]
pub(crate) struct Remarks {
    pub(crate) noted: Vec<Remark>,
    /// It stays at its greatest value.
    pub(crate) more: u64,
}

impl Remarks {
    /// No remarks.
    pub fn new(alloc: Global) -> Remarks
        ensures { remarks_in result ≡ no_remarks }
    {
        Remarks {
            noted: Vec::new(alloc),
            more: 0,
        }
    }

    /// Makes room for so many remarks more.
    pub fn reserve(&mut self, count: usize) -> Result<(), AllocError>
        ensures same { remarks_in self.new ≡ remarks_in self.old }
        ensures room { OnOk result (RemarksHaveRoom count self.new) }
    {
        self.noted.reserve(count)
    }

    /// Keeps a remark, or counts it where there are as many as are kept.
    pub fn note(&mut self, remark: Remark)
        requires room { RemarksHaveRoom 1 self.old }
        ensures noted { remarks_in self.new ≡ with_remark (remarks_in self.old) remark }
        ensures room { (k : ℕ) → RemarksHaveRoom (k + 1) self.old → RemarksHaveRoom k self.new }
    {
        if self.noted.len() >= MOST_REMARKS {
            self.more = self.more.saturating_add(1);
        } else {
            self.noted.push_reserved(remark);
        }
    }
}
