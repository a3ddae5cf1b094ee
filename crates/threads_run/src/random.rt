// Numbers that a seed chooses.
ghost use Rattle.std.specs.Prelude.{◌<◌};

/// A sequence of numbers that looks random, and is the same for the same seed (splitmix64).
#[derive(Clone, Copy)]
pub(crate) struct Random {
    state: u64,
}

impl Random {
    /// Another sequence for each number of a thread.
    pub(crate) fn of(seed: u64, number: u64) -> Random {
        let mut random = Random {
            state: seed.wrapping_mul(0x2545_f491_4f6c_dd1d) ^ number,
        };
        let _first = random.next();
        random
    }

    fn next(&mut self) -> u64 {
        self.state = self.state.wrapping_add(0x9e37_79b9_7f4a_7c15);
        let mixed = (self.state ^ (self.state >> 30)).wrapping_mul(0xbf58_476d_1ce4_e5b9);
        let mixed = (mixed ^ (mixed >> 27)).wrapping_mul(0x94d0_49bb_1331_11eb);
        mixed ^ (mixed >> 31)
    }

    /// A number below this one.
    pub(crate) fn below(&mut self, most: u64) -> u64
        requires { 0 < most }
        ensures { result < most }
    {
        self.next() % most
    }

    /// Whether it happens, this many times in a hundred.
    pub(crate) fn happens(&mut self, percent: u64) -> bool {
        self.below(100) < percent
    }
}
