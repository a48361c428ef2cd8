//! Selected elements of a slice, moved to its first places.
ghost use Rattle.std.specs.Prelude.{◌≡◌, length, None};
ghost use Rattle.selection.specs.Refusals.{answered, settled};
ghost use Rattle.selection.specs.Selected.{count_of, positions};
ghost use Rattle.kernels.specs.Masks.{compacted};
ghost use Rattle.slices.specs.Slices.{place_fault};

use super::admit::admit_in_place;
use kernels::{Element, MaskBits, move_at, move_by_bitmap, move_runs};
use selection::{Refusal, Selection};

/// Moves the selected elements of `values` to its first places, in order, and answers how many there are;
/// all other places keep theirs. Or refuses, and leaves all as it was.
pub fn filter_slice_in_place<T: Element>(
    values: &mut [T],
    selection: Selection<'_>,
) -> Result<u64, Refusal>
    ensures value { result ≡ answered (place_fault selection.entry (length values.old)) (count_of selection.entry) }
    ensures after { values.new ≡ settled (place_fault selection.entry (length values.old)) values.old (compacted values.old (positions selection.entry) values.old) }
{
    let count = admit_in_place(selection, values.len())?;
    move_selected(values, selection);
    Ok(count)
}

/// Moves the selected elements to the first places.
fn move_selected<T: Element>(values: &mut [T], selection: Selection<'_>)
    requires { place_fault selection (length values.old) ≡ None }
    ensures { values.new ≡ compacted values.old (positions selection.entry) values.old }
{
    match selection {
        Selection::Bitmap(window) => {
            move_by_bitmap(values, MaskBits::Window(window));
        }
        Selection::Indices { indices, len: _ } => {
            move_at(values, indices);
        }
        Selection::Runs { runs, len: _ } => {
            move_runs(values, runs);
        }
    }
}
