//! The numbers and bytes that the kernels run over.

/// A linear congruential generator, `x' = 1664525 x + 1013904223` modulo 2^32.
#[derive(Drop)]
pub struct Generator {
    state: u32,
}

impl Generator {
    pub fn new(seed: u32) -> Self {
        Generator { state: seed }
    }

    /// Takes a step, and answers the new state.
    pub fn next_state(&mut self) -> u32 {
        self.state = self
            .state
            .wrapping_mul(1_664_525)
            .wrapping_add(1_013_904_223);
        self.state
    }

    /// Takes a step, and answers the highest eight bits of the new state.
    pub fn next_byte(&mut self) -> u8 {
        (self.next_state() >> 24) as u8
    }
}
