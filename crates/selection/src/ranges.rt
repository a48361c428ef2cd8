//! The one run that a selection makes up.
ghost use Rattle.std.specs.Prelude.{◌≡◌, ◌+◌, ◌-◌, ◌^◌, ◌<◌, ◌≤◌, ◌&&◌, eqb, map, if◌then◌else◌, None, ◌==◌, count_ones, nat_lt};
ghost use Rattle.std.specs.Int.Count.{count_leading_zeros, count_trailing_zeros};
ghost use Rattle.selection.specs.declared.selections.Selection.TheVariants.{Bitmap};
ghost use Rattle.selection.specs.Refusals.{answered, when};
ghost use Rattle.selection.specs.Selected.{positions, selection_fault, window_bit, window_fault};
ghost use Rattle.selection.specs.Items.{listed_fault, listed_positions};
ghost use Rattle.selection.specs.Ranges.{Ended, OneRun, run_of};

use super::items::{Item, count_items};
use super::refusals::Refusal;
use super::selections::{Run, Selection};
use super::windows::Window;

/// How many positions there are, the first of them, and the one after the last. The count is needed in any case, and
/// says whether there are any.
#[derive(Clone, Copy)]
struct Ends {
    count: u64,
    start: u64,
    end: u64,
}

impl Ends {
    /// These positions, and after them those of the set bits of a word whose lowest bit stands for `base`.
    fn with_word(self, base: u64, word: u64) -> Ends
        requires few { self.count + 64 < 2 ^ 64 }
        requires near { base + 64 < 2 ^ 64 }
        ensures { result ≡ (if eqb word 0 then self else (record { count = self.count + count_ones word; start = (if eqb self.count 0 then base + count_trailing_zeros 64 word else self.start); «end» = base + (64 - count_leading_zeros 64 word) })) }
    {
        if word == 0 {
            return self;
        }
        let start = if self.count == 0 {
            base + u64::from(word.trailing_zeros())
        } else {
            self.start
        };
        Ends {
            count: self.count + u64::from(word.count_ones()),
            start,
            end: base + (64 - u64::from(word.leading_zeros())),
        }
    }

    /// The run between the ends, if every position of it is there.
    fn run(self) -> Option<Run>
        requires { self.start ≤ self.«end» }
        ensures { result ≡ when (nat_lt 0 self.count && self.«end» - self.start == self.count) (record { start = self.start; «end» = self.«end» }) }
    {
        if self.count > 0 && self.end - self.start == self.count {
            return Some(Run {
                start: self.start,
                end: self.end,
            });
        }
        None
    }
}

/// The ends of the set bits of a window.
fn window_ends(window: Window<'_>) -> Ends
    requires { window_fault window ≡ None }
    ensures { Ended (window_bit window.entry) window.entry.len result.count result.start result.«end» }
{
    let mut ends = Ends {
        count: 0,
        start: 0,
        end: 0,
    };
    // by its number, since a position is 64 times that
    for k in 0..window.len.div_ceil(64) {
        ends = ends.with_word(64 * k, window.word(k));
    }
    ends
}

/// The run that the set bits of a window make up.
#[tactic(auto, unfolding(crate::specs::Selected::selection_fault))]
fn bitmap_range(window: Window<'_>) -> Result<Option<Run>, Refusal>
    ensures { result ≡ answered (selection_fault (Bitmap window.entry)) (run_of (positions (Bitmap window.entry))) }
{
    window.check()?;
    Ok(window_ends(window).run())
}

/// The run that listed items make up; runs may touch.
fn items_range<I: Item>(items: &[I], len: u64) -> Result<Option<Run>, Refusal>
    ensures { let runs = map I.as_run items.now in result ≡ answered (listed_fault len runs) (run_of (listed_positions len runs)) }
{
    let count = count_items(items, len)?;
    let Some(last) = items.last() else {
        return Ok(None);
    };
    let ends = Ends {
        count,
        start: items[0].first(),
        end: last.past(),
    };
    Ok(ends.run())
}

/// The run that the selected positions make up: there is one exactly if they are consecutive, and
/// not none.
#[tactic(auto, using(crate::proofs::Ranged::one_run))]
pub fn contiguous_filter_range(selection: Selection<'_>) -> Result<Option<Run>, Refusal>
    ensures value { result ≡ answered (selection_fault selection.entry) (run_of (positions selection.entry)) }
    ensures exact { OneRun (positions selection.entry) (run_of (positions selection.entry)) }
{
    match selection {
        Selection::Bitmap(window) => bitmap_range(window),
        Selection::Indices { indices, len } => items_range(indices, len),
        Selection::Runs { runs, len } => items_range(runs, len),
    }
}
