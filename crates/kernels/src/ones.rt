//! The set bits of a word.
ghost use Rattle.std.specs.Iterator.{YieldsFirst, item_count};
ghost use Rattle.kernels.specs.Masks.{set_bits};

/// The places of the set bits of a word, the lowest first.
#[derive(Drop)]
pub(crate) struct Ones(pub(crate) u64);

impl Iterator for Ones {
    type Item = u32;

    ghost next_gives = { YieldsFirst (λ s. set_bits 64 s.0 0) };

    ghost remaining = { item_count (λ s. set_bits 64 s.0 0) };

    fn next(&mut self) -> Option<u32> {
        if self.0 == 0 {
            return None;
        }
        let place = self.0.trailing_zeros();
        self.0 &= self.0 - 1;
        Some(place)
    }
}
