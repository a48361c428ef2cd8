//! Lists of the positions that a mask selects.
ghost use Rattle.std.specs.Prelude.{◌≡◌, ◌+◌, ◌^◌, ◌<◌, ◌≤◌, map, length};
ghost use Rattle.kernels.specs.Moved.{shifted, splice};
ghost use Rattle.kernels.specs.Masks.{Masks, mask_len, selected_by};

use super::compaction::{BitByBit, put_selected};
use super::slice::MaskBits;
use super::targets::Listing;

/// Writes the positions that a mask selects, each moved up by `base`, to the first places of `out`, and says how many there are.
pub fn list_words(bits: MaskBits<'_>, base: u64, out: &mut [u64]) -> usize
    requires mask { Masks bits (mask_len bits) }
    requires fits { base + mask_len bits < 2 ^ 63 }
    requires room { length (selected_by bits) ≤ length out.old }
    ensures count { result ≡ length (selected_by bits.entry) }
    ensures written { out.new ≡ splice out.old 0 (map (shifted base 0) (selected_by bits.entry)) }
{
    let mut target = Listing {
        base,
        places: out,
        at: 0,
    };
    put_selected::<BitByBit, Listing<'_>>(bits, &mut target);
    target.at
}
