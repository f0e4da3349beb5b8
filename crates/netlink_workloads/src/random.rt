//! Numbers that depend on a seed alone.

/// A linear congruential generator of 64 bits, with the multiplier and the increment of Knuth's
/// MMIX.
#[derive(Clone, Copy)]
pub(crate) struct Random {
    state: u64,
}

impl Random {
    /// Returns the generator with a seed.
    pub(crate) fn new(seed: u32) -> Random {
        let mut random = Random {
            state: (seed as u64).wrapping_mul(0x9e37_79b9_7f4a_7c15),
        };
        let _first = random.next();
        random
    }

    /// Returns the next number. Its upper half is that of the state.
    pub(crate) fn next(&mut self) -> u32 {
        self.state = self
            .state
            .wrapping_mul(6_364_136_223_846_793_005)
            .wrapping_add(1_442_695_040_888_963_407);
        (self.state >> 32) as u32
    }

    /// Returns a number below a bound; 0 if the bound is 0.
    pub(crate) fn below(&mut self, bound: u32) -> u32 {
        let product = (self.next() as u64).wrapping_mul(bound as u64);
        (product >> 32) as u32
    }
}
