//! Compactions: the selected elements of a slice, copied to the first places of another, or moved to its own.
ghost use Rattle.std.specs.Prelude.{◌≡◌, ◌+◌, ◌^◌, ◌<◌, ◌≤◌, length};
ghost use Rattle.kernels.specs.Masks.{Masks, compacted, mask_len, selected_by, set_bits};
ghost use Rattle.kernels.specs.Ordered.{InOrder};

use super::ones::Ones;
use super::slice::MaskBits;
use super::targets::{Copying, Moving, Target};

/// How the elements are put that a word of a mask selects.
pub(crate) trait WordStep {
    /// Puts the elements at the set bits of a word, whose lowest bit stands for `base`.
    fn put_word<P: Target>(word: u64, base: usize, target: &mut P)
        requires laws { InOrder P.can P.took }
        requires above { base + 64 ≤ 2 ^ 64 }
        requires able { P.can target.old (set_bits 64 word base) }
        ensures { P.took target.old (set_bits 64 word base) target.new };
}

/// Each set bit by itself, and a full word at once.
pub(crate) struct BitByBit;

/// Each run of set bits at once.
pub(crate) struct RunByRun;

impl WordStep for BitByBit {
    fn put_word<P: Target>(word: u64, base: usize, target: &mut P) {
        if word == u64::MAX {
            target.put_run(base, 64);
        } else {
            for place in Ones(word) {
                target.put(base + place as usize);
            }
        }
    }
}

impl WordStep for RunByRun {
    fn put_word<P: Target>(word: u64, base: usize, target: &mut P) {
        let mut w = word;
        let mut from = base;
        // from run to run, however long they are
        while w != 0 {
            let z = w.trailing_zeros();
            w >>= z;
            from += z as usize;
            let n = w.trailing_ones() as usize;
            target.put_run(from, n);
            from += n;
            w = (w >> 1) >> (n - 1);
        }
    }
}

/// Puts the selected elements, a word of the mask at a time.
pub(crate) fn put_selected<S: WordStep, P: Target>(bits: MaskBits<'_>, target: &mut P)
    requires laws { InOrder P.can P.took }
    requires mask { Masks bits (mask_len bits) }
    requires short { mask_len bits < 2 ^ 64 }
    requires able { P.can target.old (selected_by bits) }
    ensures { P.took target.old (selected_by bits.entry) target.new }
{
    for (k, word) in bits.iter() {
        S::put_word(word, 64 * k, target);
    }
}

/// Copies the selected elements of `src` to the first places of `dst`, and says how many there are.
pub(crate) fn compact<S: WordStep, T: Copy>(src: &[T], bits: MaskBits<'_>, dst: &mut [T]) -> usize
    requires mask { Masks bits (length src.now) }
    requires room { length (selected_by bits) ≤ length dst.old }
    ensures count { result ≡ length (selected_by bits.entry) }
    ensures written { dst.new ≡ compacted src.now (selected_by bits.entry) dst.old }
{
    let mut target = Copying {
        src,
        places: dst,
        at: 0,
    };
    put_selected::<S, Copying<'_, T>>(bits, &mut target);
    target.at
}

/// Moves the selected elements to the first places.
pub fn move_by_bitmap<T: Copy>(values: &mut [T], bits: MaskBits<'_>)
    requires { Masks bits (length values.old) }
    ensures { values.new ≡ compacted values.old (selected_by bits.entry) values.old }
{
    let mut target = Moving { values, at: 0 };
    put_selected::<BitByBit, Moving<'_, T>>(bits, &mut target);
}

/// Copies the selected elements of `src` to the first places of `dst`, and says how many there are.
/// Each set bit is one copy, and a full word is one copy.
pub fn compact_by_bitmap<T: Copy>(src: &[T], bits: MaskBits<'_>, dst: &mut [T]) -> usize
    requires mask { Masks bits (length src.now) }
    requires room { length (selected_by bits) ≤ length dst.old }
    ensures count { result ≡ length (selected_by bits.entry) }
    ensures written { dst.new ≡ compacted src.now (selected_by bits.entry) dst.old }
{
    compact::<BitByBit, T>(src, bits, dst)
}

/// Copies the selected elements of `src` to the first places of `dst`, and says how many there are.
/// Each run of set bits in a word is one copy.
pub fn compact_runs_by_bitmap<T: Copy>(src: &[T], bits: MaskBits<'_>, dst: &mut [T]) -> usize
    requires mask { Masks bits (length src.now) }
    requires room { length (selected_by bits) ≤ length dst.old }
    ensures count { result ≡ length (selected_by bits.entry) }
    ensures written { dst.new ≡ compacted src.now (selected_by bits.entry) dst.old }
{
    compact::<RunByRun, T>(src, bits, dst)
}
