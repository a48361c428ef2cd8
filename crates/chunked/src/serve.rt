//! Serving the places of a push that nothing stands against any more.
ghost use Rattle.std.specs.Prelude.{◌≡◌, ℕ, ◌+◌, ◌-◌, ◌*◌, ◌^◌, ◌<◌, ◌≤◌, map, length, take, drop, None, filter, slice_index, slice_index_or};
ghost use Rattle.std.specs.List.{range_with_len, flat_map, AllByRecursion};
ghost use Rattle.selection.specs.Selected.{Rising, RunsRise, no_run, range, selection_fault, window_bit, window_from, window_positions};
ghost use Rattle.kernels.specs.Masks.{Covers, mask_positions};
ghost use Rattle.kernels.specs.Moved.{gather, limit_at_width, splice};
ghost use Rattle.settle.specs.Pushes.{moved, places};
ghost use Rattle.settle.specs.Bounds.{kept_between_places};
ghost use Rattle.chunked.specs.Deliveries.{Delivered, Granted, offers};
ghost use Rattle.chunked.specs.Served.{Servable};
ghost use Rattle.chunked.specs.Spans.{EndsBy, in_span};
ghost use Rattle.source.specs.Fetched.{fetch_fault, holding, place_in, whole_chunk};

use super::pieces::{IndexPiece, MaskPiece, Piece, RunPiece, cut_run};
use kernels::{MaskBits, sparse_limit};
use selection::{Run, Selection, Window};
use settle::{Push, chunk_boundary};
use source::{CHUNK, ChunkDecoder};

// A source has two calls, and these are one call each.

/// Fetches a chunk to the places of `output` from `at` on.
fn fetch_chunk<D: ChunkDecoder>(source: &mut D, chunk: u64, output: &mut [D::Item], at: usize)
    requires within { at ≤ length output.old }
    requires clear { fetch_fault (holding (D.ChunkDecoder.readings source.old) (D.ChunkDecoder.allowance source.old) (drop at output.old)) chunk whole_chunk ≡ None }
    ensures kept { D.ChunkDecoder.readings source.new ≡ D.ChunkDecoder.readings source.old }
    ensures paid { D.ChunkDecoder.allowance source.new ≡ D.ChunkDecoder.allowance source.old - length whole_chunk }
    ensures wrote { output.new ≡ splice output.old at (gather (D.ChunkDecoder.readings source.old) (map (place_in chunk) whole_chunk)) }
{
    // nothing stands against it, so it is accepted
    let _ = source.decode_chunk(chunk, &mut output[at..]);
}

/// Fetches some readings of a chunk to the places of `output` from `at` on.
fn fetch_indices<D: ChunkDecoder>(
    source: &mut D,
    chunk: u64,
    indices: &[u64],
    output: &mut [D::Item],
    at: usize,
)
    requires within { at ≤ length output.old }
    requires clear { fetch_fault (holding (D.ChunkDecoder.readings source.old) (D.ChunkDecoder.allowance source.old) (drop at output.old)) chunk indices.now ≡ None }
    ensures kept { D.ChunkDecoder.readings source.new ≡ D.ChunkDecoder.readings source.old }
    ensures paid { D.ChunkDecoder.allowance source.new ≡ D.ChunkDecoder.allowance source.old - length indices.now }
    ensures wrote { output.new ≡ splice output.old at (gather (D.ChunkDecoder.readings source.old) (map (place_in chunk) indices.now)) }
{
    // nothing stands against it, so it is accepted
    let _ = source.decode_indices(chunk, indices, &mut output[at..]);
}

/// How many indices stand before the first that is not below `bound`.
fn count_below(indices: &[u64], bound: u64) -> usize
    ensures within { result ≤ length indices.now }
    ensures below { (k : ℕ) → k < result → slice_index indices.now k < bound }
    ensures past { result < length indices.now → bound ≤ slice_index indices.now result }
{
    indices
        .iter()
        .position(|index| *index >= bound)
        .unwrap_or(indices.len())
}

/// What is added to each position: no more than a chunk.
#[derive(Clone, Copy)]
struct Offset {
    by: u64,
    ghost small: { by ≤ 1024 },
}

/// The part of some runs that lies below a bound: how many places, and the first run past it.
#[derive(Clone, Copy)]
struct Part {
    count: u64,
    next: usize,
}

/// The places of ascending runs, from place `lo` on, that lie below `hi`.
#[tactic(auto, using(crate::proofs::Spanning::count_few, crate::proofs::Spanning::count_more, crate::proofs::Spanning::ends_ahead, crate::proofs::Spanning::runs_at))]
fn runs_below(runs: &[Run], offset: Offset, lo: u64, hi: u64) -> Part
    requires rising { RunsRise 0 16777216 runs.now }
    requires ahead { 0 < length runs.now → lo < (slice_index_or runs.now 0 no_run).«end» + offset.by }
    requires order { lo ≤ hi }
    ensures count { result.count ≡ length (in_span offset.by lo hi runs.now) }
    ensures next { result.next ≤ length runs.now }
    ensures done { AllByRecursion (EndsBy offset.by hi) (take result.next runs.now) }
    ensures past { result.next < length runs.now → hi < (slice_index_or runs.now result.next no_run).«end» + offset.by }
{
    let mut count = 0;
    for (next, run) in runs.iter().enumerate() {
        let piece = cut_run(*run, offset.by, lo, hi);
        count += piece.end - piece.start;
        if run.end + offset.by > hi {
            return Part { count, next };
        }
    }
    Part {
        count,
        next: runs.len(),
    }
}

/// Loads `n` bits of a window, from a position on, as words, and says how many are set.
fn load_words(window: Window<'_>, from: u64, n: u64, words: &mut [u64]) -> u64
    requires enough { n ≤ 64 * length words.old }
    requires close { 64 * length words.old < n + 64 }
    requires inside { from + n ≤ window.len }
    ensures covers { Covers words.new n }
    ensures picks { mask_positions words.new n ≡ filter (window_from window.entry from) (range_with_len 0 n) }
    ensures count { result ≡ length (mask_positions words.new n) }
{
    let mut ones = 0;
    for (k, slot) in words.iter_mut().enumerate() {
        let at = 64 * k as u64;
        let word = window.bits(from + at, n - at);
        ones += u64::from(word.count_ones());
        *slot = word;
    }
    ones
}

/// A source, an output that is written from a place on, and the scratch between them.
#[derive(Drop)]
pub(crate) struct Delivery<'a, D: ChunkDecoder> {
    pub(crate) source: &'a mut D,
    pub(crate) output: &'a mut [D::Item],
    /// The next place of the output.
    pub(crate) at: usize,
    pub(crate) scratch: &'a mut [D::Item],
}

impl<'a, D: ChunkDecoder> Delivery<'a, D> {
    /// Serves the part of a selection that lies in one chunk: one by one, straight to the output, or
    /// through scratch.
    fn serve_chunk<P: Piece>(&mut self, chunk: u64, piece: &P)
        requires { Servable (offers (limit_at_width D.Item.Element.WIDTH) D.ChunkDecoder.readings D.ChunkDecoder.allowance self.old) chunk (map (place_in chunk) (P.picks piece.now)) }
        ensures { Delivered (limit_at_width D.Item.Element.WIDTH) D.ChunkDecoder.readings D.ChunkDecoder.allowance self.old self.new (map (place_in chunk) (P.picks piece.now)) }
    {
        let n = piece.count();
        let at = self.at;
        self.at += n as usize;
        if n <= sparse_limit::<D::Item>() {
            let mut buffer = [0u64; 160];
            let picked = &mut buffer[..];
            piece.list(picked);
            fetch_indices(self.source, chunk, &picked[0..n as usize], self.output, at);
        } else if n == CHUNK {
            fetch_chunk(self.source, chunk, self.output, at);
        } else {
            let scratch = &mut *self.scratch;
            fetch_chunk(self.source, chunk, scratch, 0);
            piece.copy(scratch, &mut self.output[at..]);
        }
    }

    /// Serves ascending indices chunk by chunk.
    fn serve_indices(&mut self, offset: Offset, indices: &[u64])
        requires rising { Rising 0 16777216 indices.now }
        requires granted { Granted (limit_at_width D.Item.Element.WIDTH) D.ChunkDecoder.readings D.ChunkDecoder.allowance self.old (map (moved offset.by) indices.now) }
        ensures { Delivered (limit_at_width D.Item.Element.WIDTH) D.ChunkDecoder.readings D.ChunkDecoder.allowance self.old self.new (map (moved offset.by) indices.now) }
    {
        let mut rest = indices;
        while let Some(first) = rest.first() {
            let chunk = (*first + offset.by) / CHUNK;
            let n = count_below(rest, (chunk + 1) * CHUNK - offset.by);
            let (here, later) = rest.split_at(n);
            let piece = IndexPiece {
                indices: here,
                offset: offset.by,
                base: chunk * CHUNK,
            };
            self.serve_chunk(chunk, &piece);
            rest = later;
        }
    }

    /// Serves ascending runs chunk by chunk.
    #[tactic(auto, using(crate::proofs::RunWalks::rest_bound))]
    fn serve_runs(&mut self, offset: Offset, runs: &[Run])
        requires rising { RunsRise 0 16777216 runs.now }
        requires granted { Granted (limit_at_width D.Item.Element.WIDTH) D.ChunkDecoder.readings D.ChunkDecoder.allowance self.old (map (moved offset.by) (flat_map range runs.now)) }
        ensures { Delivered (limit_at_width D.Item.Element.WIDTH) D.ChunkDecoder.readings D.ChunkDecoder.allowance self.old self.new (map (moved offset.by) (flat_map range runs.now)) }
    {
        let mut rest = runs;
        let mut resume = 0;
        while let Some(first) = rest.first() {
            let chunk = (first.start + offset.by).max(resume) / CHUNK;
            let end = (chunk + 1) * CHUNK;
            let part = runs_below(rest, offset, resume, end);
            let last = rest.len().min(part.next + 1);
            let piece = RunPiece {
                runs: &rest[..last],
                offset: offset.by,
                lo: resume,
                hi: end,
                base: chunk * CHUNK,
                count: part.count,
            };
            self.serve_chunk(chunk, &piece);
            rest = rest.split_at(part.next).1;
            resume = end;
        }
    }

    /// Serves the positions of a bitmap from `from` up to `to`, which lie in one chunk.
    fn serve_chunk_bitmap(
        &mut self,
        chunk: u64,
        offset: Offset,
        window: Window<'_>,
        from: u64,
        to: u64,
    )
        requires servable { 0 < length (kept_between_places (window_bit window) from to) → Servable (offers (limit_at_width D.Item.Element.WIDTH) D.ChunkDecoder.readings D.ChunkDecoder.allowance self.old) chunk (map (moved offset.by) (kept_between_places (window_bit window) from to)) }
        requires low { chunk * 1024 ≤ from + offset.by }
        requires high { to + offset.by ≤ chunk * 1024 + 1024 }
        requires order { from ≤ to }
        requires inside { to ≤ window.len }
        requires fits { from + offset.by < 2 ^ 64 }
        ensures { Delivered (limit_at_width D.Item.Element.WIDTH) D.ChunkDecoder.readings D.ChunkDecoder.allowance self.old self.new (map (moved offset.by) (kept_between_places (window_bit window.entry) from to)) }
    {
        let len = (to - from) as usize;
        let mut buffer = [0u64; 16];
        let words = &mut buffer[0..len.div_ceil(64)];
        let count = load_words(window, from, to - from, words);
        if count > 0 {
            let piece = MaskPiece {
                bits: MaskBits::Words { words, len },
                len,
                up: from + offset.by - chunk * CHUNK,
                count,
            };
            self.serve_chunk(chunk, &piece);
        }
    }

    /// Serves a bitmap chunk by chunk.
    fn serve_bitmap(&mut self, offset: Offset, window: Window<'_>)
        requires short { window.len ≤ 16777216 }
        requires granted { Granted (limit_at_width D.Item.Element.WIDTH) D.ChunkDecoder.readings D.ChunkDecoder.allowance self.old (map (moved offset.by) (window_positions window)) }
        ensures { Delivered (limit_at_width D.Item.Element.WIDTH) D.ChunkDecoder.readings D.ChunkDecoder.allowance self.old self.new (map (moved offset.by) (window_positions window.entry)) }
    {
        // chunks are numbers here, no items of a list
        for chunk in 0..(offset.by + window.len).div_ceil(CHUNK) {
            let from = chunk_boundary(chunk, offset.by, window.len);
            let to = chunk_boundary(chunk + 1, offset.by, window.len);
            self.serve_chunk_bitmap(chunk, offset, window, from, to);
        }
    }

    /// Serves a push, in whichever form it comes.
    pub(crate) fn serve(&mut self, push: Push<'_>)
        requires formed { selection_fault push.selection ≡ None }
        requires small { push.offset ≤ 1024 }
        requires granted { Granted (limit_at_width D.Item.Element.WIDTH) D.ChunkDecoder.readings D.ChunkDecoder.allowance self.old (places push) }
        ensures { Delivered (limit_at_width D.Item.Element.WIDTH) D.ChunkDecoder.readings D.ChunkDecoder.allowance self.old self.new (places push.entry) }
    {
        let offset = Offset { by: push.offset };
        match push.selection {
            Selection::Bitmap(window) => self.serve_bitmap(offset, window),
            Selection::Indices { indices, len: _ } => self.serve_indices(offset, indices),
            Selection::Runs { runs, len: _ } => self.serve_runs(offset, runs),
        }
    }
}
