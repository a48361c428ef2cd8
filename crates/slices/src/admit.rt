//! What keeps a slice from being filtered.
ghost use Rattle.std.specs.Prelude.{◌≡◌};
ghost use Rattle.selection.specs.Refusals.{answered};
ghost use Rattle.selection.specs.Selected.{count_of};
ghost use Rattle.slices.specs.Slices.{copy_fault, place_fault};

use selection::{Refusal, Selection};

/// How many of `n` elements are selected, or why they cannot be filtered where they stand.
pub(crate) fn admit_in_place(selection: Selection<'_>, n: usize) -> Result<u64, Refusal>
    ensures { result ≡ answered (place_fault selection.entry n) (count_of selection.entry) }
{
    let count = selection.count()?;
    if selection.len() != n as u64 {
        return Err(Refusal::Mismatch);
    }
    Ok(count)
}

/// How many of `n` elements are selected, or why they cannot be filtered into so many places.
pub(crate) fn admit_copy(selection: Selection<'_>, n: usize, places: usize) -> Result<u64, Refusal>
    ensures { result ≡ answered (copy_fault selection.entry n places) (count_of selection.entry) }
{
    let count = admit_in_place(selection, n)?;
    if (places as u64) < count {
        return Err(Refusal::Output);
    }
    Ok(count)
}
