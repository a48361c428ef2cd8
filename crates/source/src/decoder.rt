//! Sources of readings, which are fetched in chunks.
ghost use Rattle.std.specs.Prelude.{◌≡◌, ℕ, List};
ghost use Rattle.selection.specs.Refusals.{answered};
ghost use Rattle.source.specs.Fetched.{Whole, chunks_of, fetch_fault, fetched, holding, whole_chunk};

use kernels::Element;
use selection::Refusal;

/// How many readings a chunk has.
pub const CHUNK: u64 = 1024;

/// The most chunks of a source.
pub const MAX_CHUNKS: u64 = 16384;

/// A source of readings, and an allowance that fetches use up.
///
/// It has 1,024 readings in each of at most 16,384 chunks. A fetch is carried out whole, or is
/// refused and leaves everything as it was.
pub trait ChunkDecoder {
    type Item: Element;

    ghost readings: { Self → List Self.Item };

    ghost allowance: { Self → ℕ };

    ghost whole: { (s : Self) → Whole (readings s) };

    /// How many chunks there are.
    fn chunks(&self) -> u64
        ensures { result ≡ chunks_of (readings self.now) };

    /// How many readings may still be fetched.
    fn left(&self) -> u64
        ensures { result ≡ allowance self.now };

    /// Writes the readings of a chunk to the first places of `output`, at a price of 1,024.
    fn decode_chunk(&mut self, chunk: u64, output: &mut [Self::Item]) -> Result<(), Refusal>
        ensures value { result ≡ answered (fetch_fault (holding (readings self.old) (allowance self.old) output.old) chunk whole_chunk) tt }
        ensures after { holding (readings self.new) (allowance self.new) output.new ≡ fetched (holding (readings self.old) (allowance self.old) output.old) chunk whole_chunk };

    /// Writes the readings at some indices of a chunk, in their order, to the first places of
    /// `output`, at a price of one for each.
    fn decode_indices(
        &mut self,
        chunk: u64,
        indices: &[u64],
        output: &mut [Self::Item],
    ) -> Result<(), Refusal>
        ensures value { result ≡ answered (fetch_fault (holding (readings self.old) (allowance self.old) output.old) chunk indices.now) tt }
        ensures after { holding (readings self.new) (allowance self.new) output.new ≡ fetched (holding (readings self.old) (allowance self.old) output.old) chunk indices.now };
}
