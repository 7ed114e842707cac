/// Pseudorandom numbers.
#[derive(Drop)]
pub struct Draws {
    number: u64,
}

impl Draws {
    /// Those of a seed.
    pub fn new(seed: u64) -> Draws {
        Draws { number: seed }
    }

    /// The next one.
    pub fn next(&mut self) -> u32 {
        self.number = self
            .number
            .wrapping_mul(6_364_136_223_846_793_005)
            .wrapping_add(1_442_695_040_888_963_407);
        (self.number >> 32) as u32
    }
}
