//! Bits of a word, taken out by a mask.
ghost use Rattle.std.specs.Prelude.{◌≡◌, map};
ghost use Rattle.selection.specs.Selected.{bit_of};
ghost use Rattle.kernels.specs.Masks.{set_bits};
ghost use Rattle.slices.specs.Bits.{Extracted, packed, pext};

use kernels::table_entry;

/// The bits of `src` at the set bits of a byte, in the low bits. The row of the byte says which to take.
fn pext_byte(src: u64, mask: u8) -> u64
    ensures { result ≡ packed (map (bit_of src) (set_bits 8 mask 0)) }
{
    let mut all = 0;
    // the places of the row, the last of them first
    for j in (0..8usize).rev() {
        all = 2 * all + (src >> table_entry(mask, j)) % 2;
    }
    all & ((1 << table_entry(mask, 8)) - 1)
}

/// The bits of `src` at the set bits of `mask`, in the low bits, byte by byte.
pub fn pext_fallback(src: u64, mask: u64) -> u64
    ensures value { result ≡ pext src mask }
    ensures bits { Extracted src mask result }
{
    let mut all = 0;
    let mut done = 0;
    for (b, byte) in mask.to_le_bytes().iter().enumerate() {
        all |= pext_byte(src >> (8 * b), *byte) << done;
        done += u32::from(table_entry(*byte, 8));
    }
    all
}
