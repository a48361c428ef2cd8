//! The three forms of a selection.
ghost use Rattle.std.specs.Prelude.{◌≡◌};
ghost use Rattle.selection.specs.Refusals.{answered};
ghost use Rattle.selection.specs.Selected.{count_of, extent, selection_fault};

use super::items::count_items;
use super::refusals::Refusal;
use super::windows::Window;

/// The positions from `start` up to and without `end`.
#[derive(Clone, Copy, PartialEq, Eq, Debug)]
pub struct Run {
    pub start: u64,
    pub end: u64,
}

/// The selected positions, in one of three forms, over the caller's memory.
#[derive(Clone, Copy)]
pub enum Selection<'a> {
    Bitmap(Window<'a>),
    Indices { indices: &'a [u64], len: u64 },
    Runs { runs: &'a [Run], len: u64 },
}

impl Selection<'_> {
    /// The length that the selection is made for.
    pub fn len(self) -> u64
        ensures { result ≡ extent self.entry }
    {
        match self {
            Selection::Bitmap(window) => window.len,
            Selection::Indices { indices: _, len } => len,
            Selection::Runs { runs: _, len } => len,
        }
    }

    /// Refuses a selection that is not well formed.
    #[tactic(auto, unfolding(crate::specs::Selected::selection_fault))]
    pub fn check(self) -> Result<(), Refusal>
        ensures { result ≡ answered (selection_fault self.entry) tt }
    {
        match self {
            Selection::Bitmap(window) => window.check(),
            Selection::Indices { indices, len } => {
                count_items(indices, len)?;
                Ok(())
            }
            Selection::Runs { runs, len } => {
                count_items(runs, len)?;
                Ok(())
            }
        }
    }

    /// How many positions are selected.
    #[tactic(auto, unfolding(crate::specs::Selected::selection_fault))]
    pub fn count(self) -> Result<u64, Refusal>
        ensures { result ≡ answered (selection_fault self.entry) (count_of self.entry) }
    {
        match self {
            Selection::Bitmap(window) => {
                window.check()?;
                Ok(window.ones())
            }
            Selection::Indices { indices, len } => count_items(indices, len),
            Selection::Runs { runs, len } => count_items(runs, len),
        }
    }
}
