//! What went wrong with a flow.
ghost use Rattle.std.specs.Prelude.{◌≡◌};
ghost use Rattle.capture_picture.specs.Marking.{no_marks, count_of_mark, with_marks, both_marks};

/// What is marked in a picture.
#[derive(Clone, Copy, Debug, PartialEq, Eq)]
pub enum Mark {
    /// A segment was given up.
    Lost,
    /// A segment came when it had been given up.
    Late,
    /// The check sequence of a burst's header was wrong.
    BadCheck,
    /// The flow began anew.
    Restart,
}

/// All kinds of marks, in the order in which they are drawn.
pub(crate) const ALL_MARKS: [Mark; 4] = [Mark::Lost, Mark::Late, Mark::BadCheck, Mark::Restart];

/// How many marks there were. Each count stays at its greatest value, 2^64 − 1.
#[derive(Clone, Copy, Debug, PartialEq, Eq)]
pub struct Marks {
    pub lost: u64,
    pub late: u64,
    pub bad_checks: u64,
    pub restarts: u64,
}

impl Marks {
    /// There were none.
    pub fn none() -> Marks
        ensures { result ≡ no_marks }
    {
        Marks {
            lost: 0,
            late: 0,
            bad_checks: 0,
            restarts: 0,
        }
    }

    /// How many there were of this kind.
    pub fn of(&self, mark: Mark) -> u64
        ensures { result ≡ count_of_mark self.now mark }
    {
        match mark {
            Mark::Lost => self.lost,
            Mark::Late => self.late,
            Mark::BadCheck => self.bad_checks,
            Mark::Restart => self.restarts,
        }
    }

    /// Counts so many more.
    pub(crate) fn add(&mut self, mark: Mark, count: u64)
        ensures { self.new ≡ with_marks mark count self.old }
    {
        match mark {
            Mark::Lost => self.lost = self.lost.saturating_add(count),
            Mark::Late => self.late = self.late.saturating_add(count),
            Mark::BadCheck => self.bad_checks = self.bad_checks.saturating_add(count),
            Mark::Restart => self.restarts = self.restarts.saturating_add(count),
        }
    }

    /// Those of both.
    pub(crate) fn joined(self, other: Marks) -> Marks
        ensures { result ≡ both_marks self other }
    {
        Marks {
            lost: self.lost.saturating_add(other.lost),
            late: self.late.saturating_add(other.late),
            bad_checks: self.bad_checks.saturating_add(other.bad_checks),
            restarts: self.restarts.saturating_add(other.restarts),
        }
    }
}
