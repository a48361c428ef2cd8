//! Readings of a few bits each, packed in borrowed bytes.
ghost use Rattle.std.specs.Prelude.{◌≡◌, ◌≤◌, IfOk, IfErr, Some, None};
ghost use Rattle.source.specs.Packing.{packed_fault, packed_readings, packed_whole, unpacked};

use super::decoder::{ChunkDecoder, MAX_CHUNKS};
use super::metered::Metered;
use super::readings::Readings;
use selection::{Refusal, field_at};

/// The most bits of a packed reading.
const MAX_WIDTH: u32 = 32;

/// A source of the readings that lie in borrowed bytes.
pub type Packed<'a> = Metered<Bits<'a>>;

/// The readings are numbers of `width` bits, one after another, the lowest bit first.
#[derive(Clone, Copy)]
pub struct Bits<'a> {
    bytes: &'a [u8],
    width: u32,
    chunks: u64,
    ghost narrow: { width ≤ 32 },
    ghost few: { chunks ≤ 16384 },
}

impl<'a> Packed<'a> {
    /// A source of the readings that lie in the bytes, with an allowance.
    pub fn new(bytes: &'a [u8], width: u32, chunks: u64, allowance: u64) -> Result<Self, Refusal>
        ensures made { IfOk result (λ p. (packed_fault bytes.now width chunks ≡ None) × (p.readings.bytes.now ≡ bytes.now) × (p.readings.width ≡ width) × (p.readings.chunks ≡ chunks) × (p.left ≡ allowance) × (packed_readings p.readings.bytes.now p.readings.width p.readings.chunks ≡ unpacked bytes.now width chunks)) }
        ensures source { IfOk result (λ p. (⟦<Self as ChunkDecoder>⟧.readings p ≡ unpacked bytes.now width chunks) × (⟦<Self as ChunkDecoder>⟧.allowance p ≡ allowance)) }
        ensures refused { IfErr result (λ e. packed_fault bytes.now width chunks ≡ Some e) }
    {
        if width == 0 || width > MAX_WIDTH || chunks > MAX_CHUNKS {
            return Err(Refusal::Shape);
        }
        let size = 128 * u64::from(width) * chunks;
        if bytes.len() as u64 != size {
            return Err(Refusal::Shape);
        }
        Ok(Metered {
            readings: Bits {
                bytes,
                width,
                chunks,
            },
            left: allowance,
        })
    }
}

impl<'a> Readings for Bits<'a> {
    type Item = u32;

    ghost all = { λ p. packed_readings p.bytes.now p.width p.chunks };

    ghost whole = { λ p. packed_whole p.bytes.now p.width p.chunks };

    fn chunks(self) -> u64 {
        self.chunks
    }

    fn reading(self, place: u64) -> u32 {
        let bits = u64::from(self.width);
        let first = place * bits;
        field_at(self.bytes, first / 8, first % 8, bits) as u32
    }
}
