//! Numbers that look random.

/// A row of numbers, which a seed decides. It is the linear congruential generator of Knuth's MMIX.
#[derive(Drop)]
pub(crate) struct Dice(u64);

impl Dice {
    /// The row of a seed.
    pub(crate) fn new(seed: u64) -> Dice {
        Dice(seed.wrapping_mul(0x9e37_79b9_7f4a_7c15))
    }

    /// A number below another, which is above 0.
    pub(crate) fn below(&mut self, bound: usize) -> usize {
        self.0 = self
            .0
            .wrapping_mul(6_364_136_223_846_793_005)
            .wrapping_add(1_442_695_040_888_963_407);
        (self.0 >> 33) as usize % bound.max(1)
    }

    /// A number from one up to another, without that one.
    pub(crate) fn between(&mut self, least: usize, bound: usize) -> usize {
        least.saturating_add(self.below(bound.saturating_sub(least)))
    }

    /// One of some texts.
    pub(crate) fn one_of(&mut self, texts: &[&'static [u8]]) -> &'static [u8] {
        texts.get(self.below(texts.len())).copied().unwrap_or(b"")
    }
}
