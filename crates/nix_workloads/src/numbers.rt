//! Random numbers.

/// A sequence of random numbers, which a seed determines.
#[derive(Clone, Copy)]
pub struct Numbers {
    state: u64,
}

impl Numbers {
    /// The sequence of a seed.
    pub fn new(seed: u64) -> Numbers {
        Numbers {
            state: mixed(seed.wrapping_add(1)),
        }
    }

    /// The next number.
    pub fn next(&mut self) -> u64 {
        self.state = self
            .state
            .wrapping_mul(6_364_136_223_846_793_005)
            .wrapping_add(1_442_695_040_888_963_407);
        self.state >> 16
    }

    /// The next number below a limit, or 0 if the limit is 0.
    pub fn below(&mut self, limit: usize) -> usize {
        (self.next() as usize) % limit.max(1)
    }
}

/// A number whose bits depend on all bits of another one.
pub fn mixed(number: u64) -> u64 {
    let high = (number ^ (number >> 31)).wrapping_mul(0x9e37_79b9_7f4a_7c15);
    high ^ (high >> 29)
}
