//! The part of a selection that lies in one chunk.
ghost use Rattle.std.specs.Prelude.{◌≡◌, ℕ, ◌+◌, ◌-◌, ◌*◌, ◌^◌, ◌<◌, ◌≤◌, List, map, length};
ghost use Rattle.std.specs.Coded.{le_prop};
ghost use Rattle.std.specs.List.{range_with_len, AllByRecursion, AllByRecursion-prop};
ghost use Rattle.kernels.specs.Masks.{Masks, selected_by};
ghost use Rattle.kernels.specs.Moved.{Within, gather, shifted, splice};
ghost use Rattle.chunked.specs.Spans.{Spans, in_span, span_end, span_start};

use kernels::{Element, MaskBits, compact_words, copy_at, copy_part, list_words};
use selection::Run;

/// The part of a selection that lies in one chunk.
pub(crate) trait Piece {
    ghost picks: { Self → List ℕ };

    /// How many indices of the chunk it picks.
    fn count(&self) -> u64
        ensures { result ≡ length (picks self.now) };

    /// Writes them to the first places of `out`.
    fn list(&self, out: &mut [u64])
        requires { length (picks self.now) ≤ length out.old }
        ensures { out.new ≡ splice out.old 0 (picks self.now) };

    /// Copies what stands at them in `chunk` to the first places of `dst`.
    fn copy<T: Element>(&self, chunk: &[T], dst: &mut [T])
        requires whole { 1024 ≤ length chunk.now }
        requires room { length (picks self.now) ≤ length dst.old }
        ensures { dst.new ≡ splice dst.old 0 (gather chunk.now (picks self.now)) };
}

/// Indices at an offset, in the chunk that begins at place `base`.
#[derive(Drop)]
pub(crate) struct IndexPiece<'a> {
    pub(crate) indices: &'a [u64],
    pub(crate) offset: u64,
    pub(crate) base: u64,
    ghost within: { AllByRecursion (Within offset base 1024) indices.now } by { AllByRecursion-prop (Within offset base 1024) (λ i. Prim.hlevel le_prop) indices.now },
}

impl<'a> Piece for IndexPiece<'a> {
    ghost picks = { λ p. map (shifted p.offset p.base) p.indices.now };

    fn count(&self) -> u64 {
        self.indices.len() as u64
    }

    fn list(&self, out: &mut [u64]) {
        shift_all(self.indices, self.offset, self.base, out);
    }

    fn copy<T: Element>(&self, chunk: &[T], dst: &mut [T]) {
        copy_at(chunk, self.indices, self.offset, self.base, dst);
    }
}

/// Writes each index moved by `up` and then `down` to the first places of `out`.
fn shift_all(indices: &[u64], up: u64, down: u64, out: &mut [u64])
    requires room { length indices.now ≤ length out.old }
    requires inside { AllByRecursion (Within up down 1024) indices.now }
    ensures { out.new ≡ splice out.old 0 (map (shifted up down) indices.now) }
{
    for (k, index) in indices.iter().enumerate() {
        out[k] = index + up - down;
    }
}

/// The places of runs at an offset, from `lo` on, in the chunk from place `base` to `hi`.
#[derive(Drop)]
pub(crate) struct RunPiece<'a> {
    pub(crate) runs: &'a [Run],
    pub(crate) offset: u64,
    pub(crate) lo: u64,
    pub(crate) hi: u64,
    pub(crate) base: u64,
    pub(crate) count: u64,
    ghost spans: { AllByRecursion (Spans offset lo hi base) runs.now } by { AllByRecursion-prop (Spans offset lo hi base) (λ r. Prim.hlevel le_prop) runs.now },
    ghost bound: { hi < 2 ^ 63 },
    ghost chunk: { hi ≤ base + 1024 },
    ghost counted: { count ≡ length (in_span offset lo hi runs.now) },
}

// `list` and `copy` differ in what they do with a cut run.
impl<'a> Piece for RunPiece<'a> {
    ghost picks = { λ p. map (shifted 0 p.base) (in_span p.offset p.lo p.hi p.runs.now) };

    fn count(&self) -> u64 {
        self.count
    }

    #[tactic(auto, using(crate::proofs::Spanning::span_ok, crate::proofs::Spanning::span_room))]
    fn list(&self, out: &mut [u64]) {
        let runs = self.runs;
        let mut at = 0;
        for run in runs {
            let piece = cut_run(*run, self.offset, self.lo, self.hi);
            let n = (piece.end - piece.start) as usize;
            fill_counting(&mut out[at..at + n], piece.start - self.base);
            at += n;
        }
    }

    #[tactic(auto, using(crate::proofs::Spanning::span_ok, crate::proofs::Spanning::span_room))]
    fn copy<T: Element>(&self, chunk: &[T], dst: &mut [T]) {
        let runs = self.runs;
        let mut at = 0;
        for run in runs {
            let piece = cut_run(*run, self.offset, self.lo, self.hi);
            let n = (piece.end - piece.start) as usize;
            copy_part(chunk, (piece.start - self.base) as usize, n, &mut dst[at..]);
            at += n;
        }
    }
}

/// A run at an offset, cut to its places from `lo` on and below `hi`.
pub(crate) fn cut_run(run: Run, offset: u64, lo: u64, hi: u64) -> Run
    requires start { run.start + offset < 2 ^ 64 }
    requires end { run.«end» + offset < 2 ^ 64 }
    ensures { result ≡ record { start = span_start offset lo hi run; «end» = span_end offset hi run } }
{
    Run {
        start: (run.start + offset).max(lo).min(hi),
        end: (run.end + offset).min(hi),
    }
}

/// Writes ascending numbers, one after another.
fn fill_counting(out: &mut [u64], from: u64)
    requires { from + length out.old < 2 ^ 64 }
    ensures { out.new ≡ range_with_len from (length out.old) }
{
    for (k, slot) in out.iter_mut().enumerate() {
        *slot = from + k as u64;
    }
}

/// What a mask of `len` indices selects, from index `up` of the chunk on.
#[derive(Drop)]
pub(crate) struct MaskPiece<'a> {
    pub(crate) bits: MaskBits<'a>,
    pub(crate) len: usize,
    pub(crate) up: u64,
    pub(crate) count: u64,
    ghost mask: { Masks bits len },
    ghost chunk: { up + len ≤ 1024 },
    ghost counted: { count ≡ length (selected_by bits) },
}

impl<'a> Piece for MaskPiece<'a> {
    ghost picks = { λ p. map (shifted p.up 0) (selected_by p.bits) };

    fn count(&self) -> u64 {
        self.count
    }

    fn list(&self, out: &mut [u64]) {
        let _ = list_words(self.bits, self.up, out);
    }

    fn copy<T: Element>(&self, chunk: &[T], dst: &mut [T]) {
        let first = self.up as usize;
        let n = self.count as usize;
        let _ = compact_words(&chunk[first..first + self.len], self.bits, n, dst);
    }
}
