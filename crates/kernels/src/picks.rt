//! Elements at listed places and in runs, copied to the first places of another slice, or moved to those of their own.
ghost use Rattle.std.specs.Prelude.{◌≡◌, ◌<◌, ◌≤◌, length};
ghost use Rattle.std.specs.List.{AllByRecursion, flat_map};
ghost use Rattle.selection.specs.Selected.{Rising, RunsRise, range};
ghost use Rattle.kernels.specs.Masks.{compacted};
ghost use Rattle.kernels.specs.Ordered.{InOrder};

use super::targets::{Copying, Moving, Target};
use selection::Run;

/// Puts the elements at some places, one by one.
fn put_indices<P: Target>(indices: &[u64], target: &mut P)
    requires laws { InOrder P.can P.took }
    requires able { P.can target.old indices.now }
    ensures { P.took target.old indices.now target.new }
{
    for index in indices {
        target.put(*index as usize);
    }
}

/// Puts the elements of some runs, run by run.
fn put_runs<P: Target>(runs: &[Run], target: &mut P)
    requires laws { InOrder P.can P.took }
    requires some { AllByRecursion (λ r. r.start < r.«end») runs.now }
    requires able { P.can target.old (flat_map range runs.now) }
    ensures { P.took target.old (flat_map range runs.now) target.new }
{
    for run in runs {
        target.put_run(run.start as usize, (run.end - run.start) as usize);
    }
}

/// Moves the elements at ascending indices to the first places.
pub fn move_at<T: Copy>(values: &mut [T], indices: &[u64])
    requires { Rising 0 (length values.old) indices.now }
    ensures { values.new ≡ compacted values.old indices.now values.old }
{
    let mut target = Moving { values, at: 0 };
    put_indices(indices, &mut target);
}

/// Moves the elements of ascending runs to the first places.
pub fn move_runs<T: Copy>(values: &mut [T], runs: &[Run])
    requires { RunsRise 0 (length values.old) runs.now }
    ensures { values.new ≡ compacted values.old (flat_map range runs.now) values.old }
{
    let mut target = Moving { values, at: 0 };
    put_runs(runs, &mut target);
}

/// Copies the elements of ascending runs to the first places of `dst`.
pub fn copy_runs<T: Copy>(src: &[T], runs: &[Run], dst: &mut [T])
    requires rising { RunsRise 0 (length src.now) runs.now }
    requires room { length (flat_map range runs.now) ≤ length dst.old }
    ensures { dst.new ≡ compacted src.now (flat_map range runs.now) dst.old }
{
    let mut target = Copying {
        src,
        places: dst,
        at: 0,
    };
    put_runs(runs, &mut target);
}
