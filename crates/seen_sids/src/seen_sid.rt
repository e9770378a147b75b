//! What was seen of one SID of a channel.
ghost use Rattle.std.specs.Prelude.{◌≡◌};
ghost use Rattle.seen_sids.specs.Rows.{new_row, with_segment, numbers_of};

/// So many numbers of each SID are kept.
pub const KEPT_NUMBERS: usize = 32;

/// What was seen of a SID of an upstream channel.
#[derive(Clone, Copy, Debug)]
pub struct SeenSid {
    /// The upstream channel id.
    pub channel: u32,
    pub sid: u32,
    /// How many segments there were. It stays at its greatest value.
    pub segments: u64,
    /// How many of them had a wrong header check. It stays at its greatest value.
    pub bad: u64,
    /// The number of the last one with a right check.
    pub last: Option<u16>,
    /// The numbers of the first ones with a right check, at the front.
    pub(crate) kept: [u16; 32],
    /// How many these are.
    pub(crate) count: u8,
}

impl SeenSid {
    /// A SID of which nothing was seen.
    pub(crate) fn new(channel: u32, sid: u32) -> SeenSid
        ensures { result ≡ new_row channel sid }
    {
        SeenSid {
            channel,
            sid,
            segments: 0,
            bad: 0,
            last: None,
            kept: [0; 32],
            count: 0,
        }
    }

    /// The same with one segment more.
    pub(crate) fn with(self, is_right: bool, number: u16) -> SeenSid
        ensures { result ≡ with_segment self is_right number }
    {
        let mut with = self;
        with.segments = with.segments.saturating_add(1);
        if !is_right {
            with.bad = with.bad.saturating_add(1);
            return with;
        }
        with.last = Some(number);
        let place = usize::from(with.count);
        if place < KEPT_NUMBERS {
            with.kept[place] = number;
            with.count += 1;
        }
        with
    }

    /// The numbers of the first segments with a right check, at most 32.
    pub fn numbers(&self) -> &[u16]
        ensures { result.now ≡ numbers_of self.now }
    {
        let count = usize::from(self.count).min(KEPT_NUMBERS);
        &self.kept[..count]
    }
}
