//! Readings that lie in the caller's memory.
ghost use Rattle.std.specs.Prelude.{◌≡◌, IfOk, IfErr, Some, None};
ghost use Rattle.source.specs.Fetched.{Whole, table_fault, whole_part};
ghost use Rattle.source.specs.Parts.{part_whole};

use super::decoder::{CHUNK, ChunkDecoder, MAX_CHUNKS};
use super::metered::Metered;
use super::readings::Readings;
use kernels::Element;
use selection::Refusal;
use std::alloc::AllocError;

/// A source of the elements of a lent slice.
pub type Table<'a, T> = Metered<Lent<'a, T>>;

/// The elements of a lent slice.
#[derive(Copy)]
pub struct Lent<'a, T> {
    lent: &'a [T],
    ghost whole: { Whole lent.now },
}

impl<'a, T: Copy> Clone for Lent<'a, T> {
    ghost is_clone = { λ x y. y ≡ x };

    ghost is_infallible = { λ _. Unit {0} };

    fn clone(&self) -> Result<Self, AllocError> {
        Ok(*self)
    }
}

impl<'a, T: Element> Table<'a, T> {
    /// A source of the slice's elements, with an allowance.
    pub fn new(lent: &'a [T], allowance: u64) -> Result<Self, Refusal>
        ensures made { IfOk result (λ t. (table_fault lent.now ≡ None) × (t.readings.lent.now ≡ lent.now) × (whole_part t.readings.lent.now ≡ lent.now) × (t.left ≡ allowance)) }
        ensures source { IfOk result (λ t. (⟦<Self as ChunkDecoder>⟧.readings t ≡ lent.now) × (⟦<Self as ChunkDecoder>⟧.allowance t ≡ allowance)) }
        ensures refused { IfErr result (λ e. table_fault lent.now ≡ Some e) }
    {
        let len = lent.len() as u64;
        if len % CHUNK != 0 || len / CHUNK > MAX_CHUNKS {
            return Err(Refusal::Shape);
        }
        Ok(Metered {
            readings: Lent { lent },
            left: allowance,
        })
    }
}

impl<'a, T: Element> Readings for Lent<'a, T> {
    type Item = T;

    ghost all = { λ s. whole_part s.lent.now };

    ghost whole = { λ s. part_whole s.lent.now };

    fn chunks(self) -> u64 {
        self.lent.len() as u64 / CHUNK
    }

    fn reading(self, place: u64) -> T {
        self.lent[place as usize]
    }

    fn write_chunk(self, chunk: u64, output: &mut [T]) {
        let from = (chunk * CHUNK) as usize;
        output.copy_from_slice(&self.lent[from..from + CHUNK as usize]);
    }
}
