//! Pseudo-random numbers for tests.

/// Pseudo-random numbers of a linear congruential generator: the same first `state` leads to the same numbers each
/// time.
#[derive(Drop)]
pub struct Numbers {
    pub state: u64,
}

impl Numbers {
    /// Returns the next number, which is less than `limit`, or 0 if `limit` is 0.
    pub fn below(&mut self, limit: u64) -> u64 {
        self.state = self
            .state
            .wrapping_mul(6364136223846793005)
            .wrapping_add(1442695040888963407);
        (self.state >> 33) % limit.max(1)
    }
}
