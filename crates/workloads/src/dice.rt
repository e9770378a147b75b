//! Numbers by chance.

/// Numbers by chance, the same for the same seed (SplitMix64 of Steele, Lea and Flood).
#[derive(Clone, Copy, Debug)]
pub struct Dice {
    state: u64,
}

impl Dice {
    pub fn new(seed: u64) -> Dice {
        Dice { state: seed }
    }

    /// A number of 64 bits.
    pub fn next(&mut self) -> u64 {
        self.state = self.state.wrapping_add(0x9E37_79B9_7F4A_7C15);
        let one = (self.state ^ (self.state >> 30)).wrapping_mul(0xBF58_476D_1CE4_E5B9);
        let other = (one ^ (one >> 27)).wrapping_mul(0x94D0_49BB_1331_11EB);
        other ^ (other >> 31)
    }

    /// A number below this one, or 0 where it is 0.
    pub fn below(&mut self, count: u32) -> u32 {
        let one = self.next() % u64::from(count.max(1));
        u32::try_from(one).unwrap_or(0)
    }

    /// A number from the first to the second.
    pub fn between(&mut self, least: u32, most: u32) -> u32 {
        let count = most.wrapping_sub(least).wrapping_add(1);
        least.wrapping_add(self.below(count))
    }

    /// Whether one of so many falls; none does where it is 0.
    pub fn one_in(&mut self, count: u32) -> bool {
        count > 0 && self.below(count) == 0
    }

    /// What a segment asks for: one of four asks for 1 to 40 units, the others for none.
    pub fn units(&mut self) -> u16 {
        if self.one_in(4) {
            u16::try_from(self.between(1, 40)).unwrap_or(0)
        } else {
            0
        }
    }
}
