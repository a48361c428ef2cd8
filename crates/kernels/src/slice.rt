//! Masks, and copies of the elements at some places of a slice.
ghost use Rattle.std.specs.Prelude.{◌≡◌, ◌+◌, ◌-◌, ◌<◌, ◌≤◌, map, length, take, drop};
ghost use Rattle.std.specs.Iterator.{at_most};
ghost use Rattle.std.specs.List.{AllByRecursion};
ghost use Rattle.kernels.specs.Moved.{Within, gather, shifted, splice};
ghost use Rattle.kernels.specs.Masks.{WordAt, count_of_words};
ghost use Rattle.kernels.specs.Words.{TakesWord};

use selection::Window;

/// A mask that is borrowed, read word by word: bit `j` of word `k`, lowest first, is position `64 * k + j`.
#[derive(Clone, Copy)]
pub enum MaskBits<'a> {
    Words { words: &'a [u64], len: usize },
    Window(Window<'a>),
}

impl<'a> MaskBits<'a> {
    /// The number of words.
    pub fn words(self) -> usize
        ensures { result ≡ count_of_words self.entry }
    {
        match self {
            MaskBits::Words { words, len: _ } => words.len(),
            MaskBits::Window(window) => window.len.div_ceil(64) as usize,
        }
    }

    /// The word at a place.
    pub fn word(self, k: usize) -> u64
        requires { k < count_of_words self }
        ensures { WordAt self.entry k result }
    {
        match self {
            MaskBits::Words { words, len: _ } => words[k],
            MaskBits::Window(window) => window.word(k as u64),
        }
    }

    /// All words, each after its place.
    pub fn iter(self) -> MaskWords<'a>
        ensures bits { result.bits ≡ self.entry }
        ensures next { result.next ≡ 0 }
    {
        MaskWords {
            bits: self,
            next: 0,
        }
    }
}

/// The words of a mask from a place on, each after its place.
#[derive(Drop)]
pub struct MaskWords<'a> {
    bits: MaskBits<'a>,
    next: usize,
}

impl Iterator for MaskWords<'_> {
    type Item = (usize, u64);

    ghost next_gives = { TakesWord };

    ghost remaining = { λ s. at_most (count_of_words s.bits - s.next) };

    fn next(&mut self) -> Option<(usize, u64)> {
        let place = self.next;
        if place >= self.bits.words() {
            return None;
        }
        self.next += 1;
        Some((place, self.bits.word(place)))
    }
}

/// Copies to the first places of `dst` what stands in `src` at `index + up - down`, for each index.
pub fn copy_at<T: Copy>(src: &[T], indices: &[u64], up: u64, down: u64, dst: &mut [T])
    requires room { length indices.now ≤ length dst.old }
    requires inside { AllByRecursion (Within up down (length src.now)) indices.now }
    ensures { dst.new ≡ splice dst.old 0 (gather src.now (map (shifted up down) indices.now)) }
{
    // a zip over `iter_mut` was slower at one byte
    for (place, index) in indices.iter().enumerate() {
        dst[place] = src[(index + up - down) as usize];
    }
}

/// Copies `n` elements of `src`, from a place on, to the first places of `dst`.
pub fn copy_part<T: Copy>(src: &[T], from: usize, n: usize, dst: &mut [T])
    requires room { n ≤ length dst.old }
    requires inside { from + n ≤ length src.now }
    ensures { dst.new ≡ splice dst.old 0 (take n (drop from src.now)) }
{
    copy_to(src, from, n, dst, 0);
}

/// Copies `n` elements of `src`, from a place on, to `dst` from `pos` on.
pub fn copy_to<T: Copy>(src: &[T], from: usize, n: usize, dst: &mut [T], pos: usize)
    requires room { pos + n ≤ length dst.old }
    requires inside { from + n ≤ length src.now }
    ensures { dst.new ≡ splice dst.old pos (take n (drop from src.now)) }
{
    dst[pos..pos + n].copy_from_slice(&src[from..from + n]);
}

/// Moves `n` elements down to a place, where they do not stand there already.
pub(crate) fn move_block<T: Copy>(values: &mut [T], from: usize, n: usize, to: usize)
    requires down { to ≤ from }
    requires inside { from + n ≤ length values.old }
    ensures { values.new ≡ splice values.old to (take n (drop from values.old)) }
{
    if to != from {
        values.copy_within(from..from + n, to);
    }
}
