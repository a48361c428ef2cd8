//! Selected elements of a slice, copied to another.
ghost use Rattle.std.specs.Prelude.{◌≡◌, length, None};
ghost use Rattle.selection.specs.Refusals.{answered, settled};
ghost use Rattle.selection.specs.Selected.{count_of, positions};
ghost use Rattle.kernels.specs.Masks.{compacted};
ghost use Rattle.slices.specs.Slices.{copy_fault};

use super::admit::admit_copy;
use kernels::{Element, MaskBits, compact_bits, copy_at, copy_runs};
use selection::{Refusal, Selection};

/// Copies the selected elements of `values` to the first places of `out`, and answers how many there are;
/// or refuses, and leaves `out` as it was.
pub fn filter_slice<T: Element>(
    values: &[T],
    selection: Selection<'_>,
    out: &mut [T],
) -> Result<u64, Refusal>
    ensures value { result ≡ answered (copy_fault selection.entry (length values.now) (length out.old)) (count_of selection.entry) }
    ensures after { out.new ≡ settled (copy_fault selection.entry (length values.now) (length out.old)) out.old (compacted values.now (positions selection.entry) out.old) }
{
    let count = admit_copy(selection, values.len(), out.len())?;
    copy_selected(values, selection, count, out);
    Ok(count)
}

/// Copies the selected elements, of which there are `count`, to the first places of `out`.
fn copy_selected<T: Element>(values: &[T], selection: Selection<'_>, count: u64, out: &mut [T])
    requires { copy_fault selection (length values.now) (length out.old) ≡ None }
    ensures { out.new ≡ compacted values.now (positions selection.entry) out.old }
{
    match selection {
        Selection::Bitmap(window) => {
            compact_bits(values, MaskBits::Window(window), count as usize, out);
        }
        Selection::Indices { indices, len: _ } => {
            copy_at(values, indices, 0, 0, out);
        }
        Selection::Runs { runs, len: _ } => {
            copy_runs(values, runs, out);
        }
    }
}
