//! Why a call was refused: a number, and a place.
ghost use Rattle.std.specs.Prelude.{◌≡◌, Some};
ghost use Rattle.selection.specs.Refusals.{number_of, place_of, text_of};

use std::fmt;

/// Why a call was refused. `place` says where, and is 0 where a case has none.
#[derive(Clone, Copy, PartialEq, Eq, Debug)]
pub enum Refusal {
    /// The selection is longer than 16,777,216.
    Long,
    /// The bitmap ends before the window does.
    Short,
    /// The item does not ascend.
    Order { place: u64 },
    /// The item reaches past the length.
    Past { place: u64 },
    /// The offset is above 1,024.
    Offset,
    /// Scratch has fewer than 1,024 places.
    Scratch,
    /// The output has too few free places.
    Output,
    /// Two lengths differ that must not.
    Mismatch,
    /// The rank is negative, or at least the count.
    Rank { place: u64 },
    /// A source cannot have this shape.
    Shape,
    /// The chunk is past the source.
    Beyond { place: u64 },
    /// The in-chunk index is 1,024 or more.
    Index { place: u64 },
    /// The allowance is below this price.
    Spent { place: u64 },
}

impl Refusal {
    /// The number of the refusal, from 1 to 13.
    pub fn number(self) -> u8
        ensures { result ≡ number_of self }
    {
        match self {
            Refusal::Long => 1,
            Refusal::Short => 2,
            Refusal::Order { place: _ } => 3,
            Refusal::Past { place: _ } => 4,
            Refusal::Offset => 5,
            Refusal::Scratch => 6,
            Refusal::Output => 7,
            Refusal::Mismatch => 8,
            Refusal::Rank { place: _ } => 9,
            Refusal::Shape => 10,
            Refusal::Beyond { place: _ } => 11,
            Refusal::Index { place: _ } => 12,
            Refusal::Spent { place: _ } => 13,
        }
    }

    /// The place that the refusal speaks of.
    pub fn place(self) -> u64
        ensures { result ≡ place_of self }
    {
        match self {
            Refusal::Order { place }
            | Refusal::Past { place }
            | Refusal::Rank { place }
            | Refusal::Beyond { place }
            | Refusal::Index { place }
            | Refusal::Spent { place } => place,
            _ => 0,
        }
    }
}

impl fmt::Display for Refusal {
    ghost output = { λ refusal. Some (text_of refusal) };

    fn fmt<W: fmt::Write>(&self, f: &mut fmt::Formatter<W>) -> fmt::Result {
        write!(f, "number {}, place {}", self.number(), self.place())
    }
}
