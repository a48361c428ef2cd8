//! Bits at the selected positions.
ghost use Rattle.std.specs.Prelude.{◌≡◌, ◌-◌, ◌<◌, ◌≤◌, map, length, None};
ghost use Rattle.std.specs.List.{flat_map};
ghost use Rattle.selection.specs.Refusals.{answered, settled};
ghost use Rattle.selection.specs.Selected.{RunsRise, bit_of, count_of, extent, range, selection_fault, window_bit, window_positions};
ghost use Rattle.kernels.specs.Masks.{Inside, set_bits};
ghost use Rattle.kernels.specs.Moved.{splice};
ghost use Rattle.slices.specs.Bits.{BitsPicked, bit_bytes, bits_fault, bytes_for, picked_bits};
ghost use Rattle.slices.specs.Accumulated.{Adds, Room};

use super::accumulator::Accumulator;
use super::pext::pext_fallback;
use selection::{Refusal, Run, Selection, Window};

/// Writes the bits of `source` at the selected positions to the low bits of `out`, and answers how
/// many there are. The unused high bits of the last byte become 0, and all other bytes stay. Or
/// refuses, and leaves `out` as it was.
pub fn filter_bitbuffer_by_mask(
    source: Window<'_>,
    selection: Selection<'_>,
    out: &mut [u8],
) -> Result<u64, Refusal>
    ensures value { result ≡ answered (bits_fault source.entry selection.entry (length out.old)) (count_of selection.entry) }
    ensures after { out.new ≡ settled (bits_fault source.entry selection.entry (length out.old)) out.old (splice out.old 0 (bit_bytes (picked_bits source.entry selection.entry))) }
    ensures bits { bits_fault source.entry selection.entry (length out.old) ≡ None → BitsPicked source.entry selection.entry out.old out.new }
{
    let count = selection.count()?;
    source.check()?;
    if selection.len() != source.len {
        return Err(Refusal::Mismatch);
    }
    if (out.len() as u64) < count.div_ceil(8) {
        return Err(Refusal::Output);
    }
    write_selected(source, selection, out);
    Ok(count)
}

/// Writes the selected bits to the low bits of `out`.
fn write_selected(source: Window<'_>, selection: Selection<'_>, out: &mut [u8])
    requires formed { selection_fault selection ≡ None }
    requires same { extent selection ≡ source.len }
    requires room { bytes_for (count_of selection) ≤ length out.old }
    ensures { out.new ≡ splice out.old 0 (bit_bytes (picked_bits source.entry selection.entry)) }
{
    let mut acc = Accumulator::new(out);
    append_selected(source, selection, &mut acc);
    acc.finish();
}

/// Appends the selected bits.
fn append_selected(source: Window<'_>, selection: Selection<'_>, acc: &mut Accumulator<'_>)
    requires formed { selection_fault selection ≡ None }
    requires same { extent selection ≡ source.len }
    requires room { Room acc.old (count_of selection) }
    ensures { Adds (picked_bits source.entry selection.entry) acc.old acc.new }
{
    match selection {
        Selection::Bitmap(window) => append_window(source, window, acc),
        Selection::Indices { indices, len: _ } => append_indices(source, indices, acc),
        Selection::Runs { runs, len: _ } => append_runs(source, runs, acc),
    }
}

/// Appends the bits at the set bits of a window, word by word.
fn append_window(source: Window<'_>, window: Window<'_>, acc: &mut Accumulator<'_>)
    requires same { window.len ≡ source.len }
    requires room { Room acc.old (length (window_positions window)) }
    ensures { Adds (map (window_bit source.entry) (window_positions window.entry)) acc.old acc.new }
{
    // two windows, read at the same number
    for k in 0..window.len.div_ceil(64) {
        append_word(source.word(k), window.word(k), acc);
    }
}

/// Appends the bits of a word at the set bits of a mask.
fn append_word(word: u64, mask: u64, acc: &mut Accumulator<'_>)
    requires { Room acc.old (length (set_bits 64 mask 0)) }
    ensures { Adds (map (bit_of word) (set_bits 64 mask 0)) acc.old acc.new }
{
    if mask == u64::MAX {
        acc.append(word, 64);
    } else if mask != 0 {
        acc.append(pext_fallback(word, mask), mask.count_ones());
    }
}

/// Appends the bits at some positions, one by one.
fn append_indices(source: Window<'_>, indices: &[u64], acc: &mut Accumulator<'_>)
    requires inside { Inside source.len indices.now }
    requires room { Room acc.old (length indices.now) }
    ensures { Adds (map (window_bit source.entry) indices.now) acc.old acc.new }
{
    for index in indices {
        acc.append(source.bits(*index, 1), 1);
    }
}

/// Appends the bits of some runs.
fn append_runs(source: Window<'_>, runs: &[Run], acc: &mut Accumulator<'_>)
    requires rise { RunsRise 0 source.len runs.now }
    requires room { Room acc.old (length (flat_map range runs.now)) }
    ensures { Adds (map (window_bit source.entry) (flat_map range runs.now)) acc.old acc.new }
{
    for run in runs {
        append_run(source, *run, acc);
    }
}

/// Appends the bits of a run, up to 64 at a time.
fn append_run(source: Window<'_>, run: Run, acc: &mut Accumulator<'_>)
    requires some { run.start < run.«end» }
    requires inside { run.«end» ≤ source.len }
    requires room { Room acc.old (length (range run)) }
    ensures { Adds (map (window_bit source.entry) (range run)) acc.old acc.new }
{
    let len = run.end - run.start;
    // parts of a run, which are no items of a list
    for k in 0..len.div_ceil(64) {
        let n = (len - 64 * k).min(64);
        acc.append(source.bits(run.start + 64 * k, n), n as u32);
    }
}
