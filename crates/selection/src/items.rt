//! The items of a list, indices or runs, checked one by one.
ghost use Rattle.std.specs.Prelude.{◌≡◌, ◌+◌, ◌^◌, ◌<◌, ◌||◌, leb, [], ◌∷◌, length, map, nat_le, nat_lt};
ghost use Rattle.selection.specs.declared.selections.Run.{Run};
ghost use Rattle.selection.specs.declared.refusals.Refusal.TheVariants.{Order as Unordered, Past as Reaching};
ghost use Rattle.selection.specs.Refusals.{answered, first_of, when};
ghost use Rattle.selection.specs.Selected.{long};
ghost use Rattle.selection.specs.Items.{item_fault, listed_fault, listed_positions, single};

use super::refusals::Refusal;
use super::selections::Run;
use super::windows::MAX_LEN;

/// An item of a list: an index is a run of one.
pub trait Item: Copy {
    ghost as_run: { Self → Run };

    /// Where the item starts.
    fn first(self) -> u64
        ensures { result ≡ (as_run self).start };

    /// Where the item ends.
    fn past(self) -> u64
        requires { (as_run self).«end» < 2 ^ 64 }
        ensures { result ≡ (as_run self).«end» };

    /// Refuses the item at a place if it is empty, starts below the least that may stand there or passes the
    /// length, and answers the least that may come next.
    fn check(self, place: usize, least: u64, len: u64) -> Result<u64, Refusal>
        ensures { result ≡ answered (item_fault (as_run self) place least len) (as_run self).«end» };
}

impl Item for u64 {
    ghost as_run = { single };

    fn first(self) -> u64 {
        self
    }

    fn past(self) -> u64 {
        self + 1
    }

    fn check(self, place: usize, least: u64, len: u64) -> Result<u64, Refusal> {
        if self < least {
            return Err(Refusal::Order {
                place: place as u64,
            });
        }
        if self >= len {
            return Err(Refusal::Past {
                place: place as u64,
            });
        }
        Ok(self + 1)
    }
}

impl Item for Run {
    ghost as_run = { λ run. run };

    fn first(self) -> u64 {
        self.start
    }

    fn past(self) -> u64 {
        self.end
    }

    fn check(self, place: usize, least: u64, len: u64) -> Result<u64, Refusal> {
        if self.start < least || self.end <= self.start {
            return Err(Refusal::Order {
                place: place as u64,
            });
        }
        if self.end > len {
            return Err(Refusal::Past {
                place: place as u64,
            });
        }
        Ok(self.end)
    }
}

/// Refuses a length that no selection has.
pub fn check_len(len: u64) -> Result<(), Refusal>
    ensures { result ≡ answered (long len) tt }
{
    if len > MAX_LEN {
        return Err(Refusal::Long);
    }
    Ok(())
}

/// Refuses the index at a place if it is below the least that may stand there or reaches the length, and
/// answers the least that may come next.
pub fn check_index(index: u64, place: usize, least: u64, len: u64) -> Result<u64, Refusal>
    ensures { result ≡ answered (first_of (when (nat_lt index least) (Unordered place) ∷ when (nat_le len index) (Reaching place) ∷ [])) (index + 1) }
{
    index.check(place, least, len)
}

/// Refuses the run at a place if it is empty, starts below the least that may stand there or passes the length,
/// and answers the least start that may come next.
pub fn check_run(run: Run, place: usize, least: u64, len: u64) -> Result<u64, Refusal>
    ensures { result ≡ answered (first_of (when (nat_lt run.start least || leb run.«end» run.start) (Unordered place) ∷ when (nat_lt len run.«end») (Reaching place) ∷ [])) run.«end» }
{
    run.check(place, least, len)
}

/// The number of positions in the items, or the first item that does not ascend or passes the length.
pub(crate) fn count_items<I: Item>(items: &[I], len: u64) -> Result<u64, Refusal>
    ensures { let runs = map I.as_run items.now in result ≡ answered (listed_fault len runs) (length (listed_positions len runs)) }
{
    check_len(len)?;
    let mut least = 0;
    let mut total = 0;
    for (place, item) in items.iter().enumerate() {
        least = item.check(place, least, len)?;
        total += least - item.first();
    }
    Ok(total)
}
