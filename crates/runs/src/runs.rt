//! Whole runs: a list of pushes on a new filter, and what holds of every such run.
ghost use Rattle.std.specs.Prelude.{◌≡◌, length, take, None};
ghost use Rattle.std.specs.List.{AllZip};
ghost use Rattle.kernels.specs.Moved.{limit_at_width};
ghost use Rattle.chunked.specs.Served.{state_of};
ghost use Rattle.runs.specs.Runs.{SamePlaces, after, answers as answers_to, end_of, notes_fault, start_of};
ghost use Rattle.runs.specs.Laws.{Agree, Alike, Balanced, Fresh, Ran, SamePick, formed_ones};

use chunked::{ChunkedFilter, Push, Receipt};
use kernels::Element;
use selection::Refusal;
use source::ChunkDecoder;

/// Some pushes, and the places that they write to.
#[derive(Drop)]
pub struct Batch<'a, T> {
    pub pushes: &'a [Push<'a>],
    pub output: &'a mut [T],
    pub scratch: &'a mut [T],
    /// What each push answers.
    pub notes: &'a mut [Result<Receipt, Refusal>],
}

/// How a run ended: the source, the totals, the allowance at first, and whether it was made at all.
#[derive(Drop)]
pub struct Ended<D> {
    pub source: D,
    pub first: u64,
    pub written: u64,
    pub fees: u64,
    pub made: Result<(), Refusal>,
}

/// Makes each push in turn, and notes what it answers.
fn push_all<D: ChunkDecoder>(
    filter: &mut ChunkedFilter<D>,
    pushes: &[Push<'_>],
    output: &mut [D::Item],
    scratch: &mut [D::Item],
    notes: &mut [Result<Receipt, Refusal>],
)
    requires { length notes.old ≡ length pushes.now }
    ensures noted { notes.new ≡ answers_to (limit_at_width D.Item.Element.WIDTH) (state_of D.ChunkDecoder.readings D.ChunkDecoder.allowance filter.old output.old scratch.old) pushes.now }
    ensures last { state_of D.ChunkDecoder.readings D.ChunkDecoder.allowance filter.new output.new scratch.new ≡ after (limit_at_width D.Item.Element.WIDTH) (state_of D.ChunkDecoder.readings D.ChunkDecoder.allowance filter.old output.old scratch.old) pushes.now }
{
    for (k, push) in pushes.iter().enumerate() {
        notes[k] = filter.push(*push, output, scratch);
    }
}

/// Makes a filter over a source, makes each push in turn, notes every answer, and hands the source
/// back. With too few notes nothing is done.
pub fn run_pushes<D: ChunkDecoder>(source: D, batch: &mut Batch<'_, D::Item>) -> Ended<D>
    ensures ran { Ran (limit_at_width D.Item.Element.WIDTH) batch.old.pushes.now (start_of (D.ChunkDecoder.readings source) (D.ChunkDecoder.allowance source) batch.old) (end_of D.ChunkDecoder.readings D.ChunkDecoder.allowance result batch.new) batch.old.notes.now batch.new.notes.now result.made }
    ensures first { result.first ≡ D.ChunkDecoder.allowance source }
    ensures fresh { Fresh (start_of (D.ChunkDecoder.readings source) (D.ChunkDecoder.allowance source) batch.old) }
    ensures balanced { notes_fault (length batch.old.notes.now) (length batch.old.pushes.now) ≡ None → Balanced (limit_at_width D.Item.Element.WIDTH) (start_of (D.ChunkDecoder.readings source) (D.ChunkDecoder.allowance source) batch.old) (end_of D.ChunkDecoder.readings D.ChunkDecoder.allowance result batch.new) (take (length batch.old.pushes.now) batch.new.notes.now) }
    ensures kept { SamePlaces batch.old batch.new }
{
    let first = source.left();
    let mut filter = ChunkedFilter::new(source);
    let n = batch.pushes.len();
    let made = if batch.notes.len() < n {
        Err(Refusal::Output)
    } else {
        push_all(
            &mut filter,
            batch.pushes,
            batch.output,
            batch.scratch,
            &mut batch.notes[0..n],
        );
        Ok(())
    };
    let written = filter.written();
    let fees = filter.fees();
    Ended {
        source: filter.finish(),
        first,
        written,
        fees,
        made,
    }
}

/// Makes two batches of pushes, each on a new filter over a source of its own. Batches that pick the
/// same positions of the same readings are answered alike, whatever forms they have.
pub fn run_both<T: Element, D: ChunkDecoder<Item = T>, E: ChunkDecoder<Item = T>>(
    source: D,
    batch: &mut Batch<'_, T>,
    source2: E,
    batch2: &mut Batch<'_, T>,
) -> (Ended<D>, Ended<E>)
    ensures one { Ran (limit_at_width T.Element.WIDTH) batch.old.pushes.now (start_of (D.ChunkDecoder.readings source) (D.ChunkDecoder.allowance source) batch.old) (end_of D.ChunkDecoder.readings D.ChunkDecoder.allowance result.0 batch.new) batch.old.notes.now batch.new.notes.now result.0.made }
    ensures other { Ran (limit_at_width T.Element.WIDTH) batch2.old.pushes.now (start_of (E.ChunkDecoder.readings source2) (E.ChunkDecoder.allowance source2) batch2.old) (end_of E.ChunkDecoder.readings E.ChunkDecoder.allowance result.1 batch2.new) batch2.old.notes.now batch2.new.notes.now result.1.made }
    ensures firsts { (result.0.first ≡ D.ChunkDecoder.allowance source) × (result.1.first ≡ E.ChunkDecoder.allowance source2) }
    ensures agreed { notes_fault (length batch.old.notes.now) (length batch.old.pushes.now) ≡ None → notes_fault (length batch2.old.notes.now) (length batch2.old.pushes.now) ≡ None → Alike (start_of (D.ChunkDecoder.readings source) (D.ChunkDecoder.allowance source) batch.old) (start_of (E.ChunkDecoder.readings source2) (E.ChunkDecoder.allowance source2) batch2.old) → AllZip SamePick (formed_ones (start_of (D.ChunkDecoder.readings source) (D.ChunkDecoder.allowance source) batch.old) batch.old.pushes.now) (formed_ones (start_of (E.ChunkDecoder.readings source2) (E.ChunkDecoder.allowance source2) batch2.old) batch2.old.pushes.now) → Agree (end_of D.ChunkDecoder.readings D.ChunkDecoder.allowance result.0 batch.new) (end_of E.ChunkDecoder.readings E.ChunkDecoder.allowance result.1 batch2.new) batch.old.pushes.now batch2.old.pushes.now (take (length batch.old.pushes.now) batch.new.notes.now) (take (length batch2.old.pushes.now) batch2.new.notes.now) }
    ensures kept { SamePlaces batch.old batch.new × SamePlaces batch2.old batch2.new }
{
    let one = run_pushes(source, batch);
    let other = run_pushes(source2, batch2);
    (one, other)
}
