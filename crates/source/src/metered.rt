//! Sources that take their allowance down.
ghost use Rattle.std.specs.Prelude.{◌≡◌, ◌∷◌, [], nat_le, nat_lt, position};
ghost use Rattle.selection.specs.declared.refusals.Refusal.TheVariants.{Beyond, Output, Spent};
ghost use Rattle.selection.specs.Refusals.{answered, first_of, when};
ghost use Rattle.source.specs.Fetched.{chunks_of, fetch_fault, holding, whole_chunk};

use super::decoder::{CHUNK, ChunkDecoder};
use super::readings::Readings;
use selection::Refusal;

/// Readings, and how many of them may still be fetched.
#[derive(Drop)]
pub struct Metered<R> {
    pub(crate) readings: R,
    pub(crate) left: u64,
}

impl<R: Readings> Metered<R> {
    /// Refuses a fetch of a whole chunk.
    fn admit_chunk(&self, chunk: u64, output: &[R::Item]) -> Result<(), Refusal>
        ensures { result ≡ answered (fetch_fault (holding (R.all self.now.readings) self.now.left output.now) chunk whole_chunk) tt }
    {
        self.admit_place(chunk)?;
        self.admit_count(CHUNK as usize, output.len())
    }

    /// Refuses a fetch of some indices of a chunk.
    fn admit_indices(&self, chunk: u64, indices: &[u64], output: &[R::Item]) -> Result<(), Refusal>
        ensures { result ≡ answered (fetch_fault (holding (R.all self.now.readings) self.now.left output.now) chunk indices.now) tt }
    {
        self.admit_place(chunk)?;
        if let Some(place) = index_past(indices) {
            return Err(Refusal::Index {
                place: place as u64,
            });
        }
        self.admit_count(indices.len(), output.len())
    }

    /// Refuses a chunk that is not there.
    fn admit_place(&self, chunk: u64) -> Result<(), Refusal>
        ensures { result ≡ answered (when (nat_le (chunks_of (R.all self.now.readings)) chunk) (Beyond chunk)) tt }
    {
        if chunk >= self.readings.chunks() {
            return Err(Refusal::Beyond { place: chunk });
        }
        Ok(())
    }

    /// Refuses so many readings where there is too little room or too little left.
    fn admit_count(&self, n: usize, room: usize) -> Result<(), Refusal>
        ensures { result ≡ answered (first_of (when (nat_lt room n) Output ∷ when (nat_lt self.now.left n) (Spent n) ∷ [])) tt }
    {
        if room < n {
            return Err(Refusal::Output);
        }
        if self.left < n as u64 {
            return Err(Refusal::Spent { place: n as u64 });
        }
        Ok(())
    }
}

impl<R: Readings> ChunkDecoder for Metered<R> {
    type Item = R::Item;

    ghost readings = { λ m. R.all m.readings };

    ghost allowance = { λ m. m.left };

    ghost whole = { λ m. R.whole m.readings };

    fn chunks(&self) -> u64 {
        self.readings.chunks()
    }

    fn left(&self) -> u64 {
        self.left
    }

    fn decode_chunk(&mut self, chunk: u64, output: &mut [R::Item]) -> Result<(), Refusal> {
        self.admit_chunk(chunk, output)?;
        self.readings
            .write_chunk(chunk, &mut output[..CHUNK as usize]);
        self.left -= CHUNK;
        Ok(())
    }

    fn decode_indices(
        &mut self,
        chunk: u64,
        indices: &[u64],
        output: &mut [R::Item],
    ) -> Result<(), Refusal> {
        self.admit_indices(chunk, indices, output)?;
        self.readings
            .write_indices(chunk, indices, &mut output[..indices.len()]);
        self.left -= indices.len() as u64;
        Ok(())
    }
}

/// The place of the first index that no chunk has.
fn index_past(indices: &[u64]) -> Option<usize>
    ensures { result ≡ position (λ i. nat_le 1024 i) indices.now }
{
    indices.iter().position(|index| *index >= CHUNK)
}
