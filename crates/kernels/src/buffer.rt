//! The choice of a compaction.
ghost use Rattle.std.specs.Prelude.{◌≡◌, ◌^◌, ◌<◌, ◌≤◌, length};
ghost use Rattle.kernels.specs.Masks.{Masks, compacted, selected_by};

use super::byte_compress::compress_bits;
use super::compaction::{compact_by_bitmap, compact_runs_by_bitmap};
use super::elements::Element;
use super::slice::MaskBits;

/// The bytes that a run has on average, at the least, where runs are copied one by one.
const MIN_RUN_BYTES: u128 = 96;

/// Copies the selected elements of `src`, of which there are `selected`, to the first places of `dst`, and says how many there are.
/// Long runs are copied one by one, dense bits go by the table, and the others bit by bit.
pub fn compact_words<T: Element>(
    src: &[T],
    bits: MaskBits<'_>,
    selected: usize,
    dst: &mut [T],
) -> usize
    requires mask { Masks bits (length src.now) }
    requires room { length (selected_by bits) ≤ length dst.old }
    ensures count { result ≡ length (selected_by bits.entry) }
    ensures written { dst.new ≡ compacted src.now (selected_by bits.entry) dst.old }
{
    let width = T::WIDTH;
    if width > 1 && few_runs(bits, selected as u128 * width as u128) {
        return compact_runs_by_bitmap(src, bits, dst);
    }
    compact_bits(src, bits, selected, dst)
}

/// Copies the selected elements of `src`, of which there are `selected`, to the first places of `dst`, and says how many there are.
/// Dense bits go by the table, and the others bit by bit.
pub fn compact_bits<T: Element>(
    src: &[T],
    bits: MaskBits<'_>,
    selected: usize,
    dst: &mut [T],
) -> usize
    requires mask { Masks bits (length src.now) }
    requires room { length (selected_by bits) ≤ length dst.old }
    ensures count { result ≡ length (selected_by bits.entry) }
    ensures written { dst.new ≡ compacted src.now (selected_by bits.entry) dst.old }
{
    if is_dense(T::WIDTH, selected as u128, src.len() as u128) {
        return compress_bits(src, bits, dst);
    }
    compact_by_bitmap(src, bits, dst)
}

/// Whether the runs of the words, each counted in each word that it reaches, have enough bytes on average.
/// The count ends at the first word that brings too many.
fn few_runs(bits: MaskBits<'_>, bytes: u128) -> bool {
    let mut runs = 0;
    let mut words = bits.iter();
    loop {
        let Some((_, word)) = words.next() else {
            break true;
        };
        runs += u128::from((word & !(word << 1)).count_ones());
        if MIN_RUN_BYTES * runs > bytes {
            break false;
        }
    }
}

/// Whether so many of `len` elements of a width are selected that the table is faster.
fn is_dense(width: usize, selected: u128, len: u128) -> bool
    requires few { selected < 2 ^ 64 }
    requires short { len < 2 ^ 64 }
{
    // the rule is a table by width
    match width {
        1 => true,
        2 | 4 => 2 * selected >= len,
        8 => 4 * selected >= 3 * len,
        _ => 8 * selected >= 7 * len,
    }
}
