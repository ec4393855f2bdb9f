//! Numbers that look random.

/// Numbers that look random, from a seed on.
#[derive(Drop)]
pub struct Dice(pub u64);

impl Dice {
    /// A number below another, which is above 0.
    pub fn below(&mut self, bound: usize) -> usize {
        self.0 = self
            .0
            .wrapping_mul(6_364_136_223_846_793_005)
            .wrapping_add(1_442_695_040_888_963_407);
        (self.0 >> 33) as usize % bound.max(1)
    }
}
