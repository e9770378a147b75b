//! What is handed in of a flow, counted plainly: of each segment what became of it, and of each
//! grant whether it is outstanding.
ghost use Rattle.std.specs.Prelude.{◌<◌};

/// How many segments the flow may have, and how many grants its channel.
pub const MOST: usize = 16;

/// The number of the flow's first segment: that of its third one is 0.
pub const FIRST: u16 = 8190;

/// One thing that is handed in.
#[derive(Clone, Copy)]
pub enum Step {
    /// A grant of this number.
    Grant(u32),
    /// A burst in the grant of this number, with the segment at this place of the flow.
    Burst(u32, usize),
    /// The expected segment is lost if a later one was kept.
    Gap,
    /// All that didn't come is lost up to the segment at this place.
    SkipTo(usize),
}

/// The number of the segment at this place of the flow.
pub fn number_at(place: usize) -> u16
    ensures { result < 8192 }
{
    ((place % 8192 + usize::from(FIRST)) % 8192) as u16
}

/// What became of a segment.
#[derive(Clone, Copy, PartialEq, Eq)]
enum Fate {
    Open,
    Kept,
    Lost,
}

/// What is said of the flow.
#[derive(Clone, Copy, PartialEq, Eq)]
pub struct FlowLook {
    pub expected: u16,
    pub held: usize,
    pub kept: u64,
    pub lost: u64,
}

/// What is said of its channel.
#[derive(Clone, Copy, PartialEq, Eq)]
pub struct LaneLook {
    pub outstanding: usize,
    pub admitted: u64,
    pub refused: u64,
}

/// A plain count.
#[derive(Clone, Copy)]
pub struct PlainCount {
    fates: [Fate; MOST],
    granted: [bool; MOST],
    admitted: u64,
    refused: u64,
}

impl PlainCount {
    /// Nothing was handed in.
    pub fn none() -> PlainCount {
        PlainCount {
            fates: [Fate::Open; MOST],
            granted: [false; MOST],
            admitted: 0,
            refused: 0,
        }
    }

    /// Counts one step more.
    pub fn count(&mut self, step: Step) {
        match step {
            Step::Grant(number) => self.grant(number as usize),
            Step::Burst(number, place) => self.burst(number as usize, place),
            Step::Gap => self.lose_expected(),
            Step::SkipTo(place) => self.lose_before(place),
        }
    }

    fn grant(&mut self, number: usize) {
        match self.granted.get_mut(number) {
            Some(granted) if !*granted => *granted = true,
            _ => self.refused = self.refused.saturating_add(1),
        }
    }

    fn burst(&mut self, number: usize, place: usize) {
        match self.granted.get_mut(number) {
            Some(granted) if *granted => *granted = false,
            _ => {
                self.refused = self.refused.saturating_add(1);
                return;
            }
        }
        self.admitted = self.admitted.saturating_add(1);
        if let Some(fate) = self.fates.get_mut(place) {
            if *fate == Fate::Open {
                *fate = Fate::Kept;
            }
        }
    }

    fn lose_expected(&mut self) {
        let expected = self.expected();
        if self.count_from(expected, Fate::Kept) == 0 {
            return;
        }
        if let Some(fate) = self.fates.get_mut(expected) {
            *fate = Fate::Lost;
        }
    }

    fn lose_before(&mut self, end: usize) {
        for fate in self.fates.iter_mut().take(end) {
            if *fate == Fate::Open {
                *fate = Fate::Lost;
            }
        }
    }

    /// The place of the expected segment: the first of which nothing became yet.
    fn expected(&self) -> usize {
        let mut open = self.fates.iter();
        open.position(|fate| *fate == Fate::Open).unwrap_or(MOST)
    }

    /// Of how many segments this became, from a place on.
    fn count_from(&self, place: usize, wanted: Fate) -> usize {
        let behind = self.fates.iter().skip(place);
        behind.filter(|fate| **fate == wanted).count()
    }

    /// What is to be said of the flow: held are those that were kept from the expected one on.
    pub fn flow(&self) -> FlowLook {
        let expected = self.expected();
        FlowLook {
            expected: number_at(expected),
            held: self.count_from(expected, Fate::Kept),
            kept: self.count_from(0, Fate::Kept) as u64,
            lost: self.count_from(0, Fate::Lost) as u64,
        }
    }

    /// What is to be said of its channel.
    pub fn lane(&self) -> LaneLook {
        LaneLook {
            outstanding: self.granted.iter().filter(|granted| **granted).count(),
            admitted: self.admitted,
            refused: self.refused,
        }
    }
}
