//! Readings in chunks, and how some of them are written.
ghost use Rattle.std.specs.Prelude.{◌≡◌, ◌<◌, List, All, map, length, slice_get};
ghost use Rattle.kernels.specs.Moved.{gather};
ghost use Rattle.source.specs.Fetched.{Whole, chunks_of, place_in, whole_chunk};

use super::decoder::CHUNK;
use kernels::Element;

/// Readings in whole chunks.
pub trait Readings: Copy {
    type Item: Element;

    ghost all: { Self → List Self.Item };

    ghost whole: { (s : Self) → Whole (all s) };

    /// How many chunks there are.
    fn chunks(self) -> u64
        ensures { result ≡ chunks_of (all self) };

    /// The reading at a place.
    fn reading(self, place: u64) -> Self::Item
        requires { place < length (all self) }
        ensures { slice_get (all self) place ≡ Some result };

    /// Writes the readings of a chunk, in their order, over `output`.
    fn write_chunk(self, chunk: u64, output: &mut [Self::Item])
        requires there { chunk < chunks_of (all self) }
        requires size { length output.old ≡ 1024 }
        ensures { output.new ≡ gather (all self) (map (place_in chunk) whole_chunk) }
    {
        for (k, slot) in output.iter_mut().enumerate() {
            *slot = self.reading(chunk * CHUNK + k as u64);
        }
    }

    /// Writes the readings at some indices of a chunk, in their order, over `output`.
    fn write_indices(self, chunk: u64, indices: &[u64], output: &mut [Self::Item])
        requires there { chunk < chunks_of (all self) }
        requires inside { All (λ i. i < 1024) indices.now }
        requires size { length output.old ≡ length indices.now }
        ensures { output.new ≡ gather (all self) (map (place_in chunk) indices.now) }
    {
        for (k, slot) in output.iter_mut().enumerate() {
            *slot = self.reading(chunk * CHUNK + indices[k]);
        }
    }
}
