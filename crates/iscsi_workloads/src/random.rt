//! Numbers of a seed that look like random ones.

ghost use Rattle.std.specs.Prelude.{◌<◌, ◌≤◌, length};

/// Numbers that a seed determines, by the method SplitMix64.
pub(crate) struct Random {
    state: u64,
}

impl Drop for Random {
    fn drop(self) {
        let Random { state: _state } = self;
    }
}

impl Random {
    pub(crate) fn new(seed: u64) -> Random {
        Random { state: seed }
    }

    /// The next number.
    pub(crate) fn number(&mut self) -> u64 {
        self.state = self.state.wrapping_add(0x9e37_79b9_7f4a_7c15);
        let mixed = (self.state ^ (self.state >> 30)).wrapping_mul(0xbf58_476d_1ce4_e5b9);
        let mixed = (mixed ^ (mixed >> 27)).wrapping_mul(0x94d0_49bb_1331_11eb);
        mixed ^ (mixed >> 31)
    }

    /// The next number, of 32 bits.
    pub(crate) fn word(&mut self) -> u32 {
        (self.number() >> 32) as u32
    }

    /// A number below this one.
    pub(crate) fn below(&mut self, bound: u32) -> u32
        requires { 0 < bound }
        ensures { result < bound }
    {
        self.word() % bound
    }

    /// Puts the numbers into another order.
    pub(crate) fn shuffle(&mut self, numbers: &mut [u32])
        requires { length numbers.old ≤ 1024 }
    {
        for place in 1..numbers.len() {
            let other = self.below(place as u32 + 1) as usize;
            numbers.swap(place, other);
        }
    }
}
