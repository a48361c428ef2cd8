//! Readings that are computed.
ghost use Rattle.std.specs.Prelude.{◌≡◌, ℕ, ◌*◌, ◌<◌, ◌≤◌, List, All, map, IfOk, IfErr, Some, None};
ghost use Rattle.kernels.specs.Moved.{gather};
ghost use Rattle.source.specs.Fetched.{place_in, ramp_fault, ramp_place, ramped};
ghost use Rattle.source.specs.Parts.{ramp_whole};

use super::decoder::{CHUNK, ChunkDecoder, MAX_CHUNKS};
use super::metered::Metered;
use super::readings::Readings;
use selection::Refusal;

/// A source of readings that are computed.
pub type Ramp = Metered<Steps>;

/// Reading `i` is `start + step * i`, modulo 2^64.
#[derive(Clone, Copy)]
pub struct Steps {
    start: u64,
    step: u64,
    chunks: u64,
    ghost few: { chunks ≤ 16384 },
}

impl Ramp {
    /// A source of so many chunks, with an allowance.
    pub fn new(start: u64, step: u64, chunks: u64, allowance: u64) -> Result<Self, Refusal>
        ensures made { IfOk result (λ t. (ramp_fault chunks ≡ None) × (t.readings.start ≡ start) × (t.readings.step ≡ step) × (t.readings.chunks ≡ chunks) × (t.left ≡ allowance)) }
        ensures source { IfOk result (λ t. (⟦<Self as ChunkDecoder>⟧.readings t ≡ ramped start step (1024 * chunks)) × (⟦<Self as ChunkDecoder>⟧.allowance t ≡ allowance)) }
        ensures places { IfOk result (λ t. (c : ℕ) (is : List ℕ) → c < chunks → All (λ i. i < 1024) is → gather (⟦<Self as ChunkDecoder>⟧.readings t) (map (place_in c) is) ≡ map (ramp_place start step c) is) }
        ensures refused { IfErr result (λ e. ramp_fault chunks ≡ Some e) }
    {
        if chunks > MAX_CHUNKS {
            return Err(Refusal::Shape);
        }
        Ok(Metered {
            readings: Steps {
                start,
                step,
                chunks,
            },
            left: allowance,
        })
    }
}

impl Readings for Steps {
    type Item = u64;

    ghost all = { λ r. ramped r.start r.step (1024 * r.chunks) };

    ghost whole = { λ r. ramp_whole r.start r.step r.chunks r.few };

    fn chunks(self) -> u64 {
        self.chunks
    }

    fn reading(self, place: u64) -> u64 {
        self.start.wrapping_add(self.step.wrapping_mul(place))
    }

    /// Each reading is the one before it and a step.
    fn write_chunk(self, chunk: u64, output: &mut [u64]) {
        let mut next = self.reading(chunk * CHUNK);
        for slot in output.iter_mut() {
            *slot = next;
            next = next.wrapping_add(self.step);
        }
    }
}
