//! A part of a log, in one line.
ghost use Rattle.std.specs.Prelude.{◌≡◌, Some};
ghost use Rattle.doors.specs.Doors.{silent_among as silent_readings, summary_text, summed};

use super::door::Door;
use kernels::Event;
use std::fmt;

/// The seconds of the first and the last reading, and how many readings are silent.
#[derive(Clone, Copy, PartialEq, Eq, Debug)]
pub struct Summary {
    pub from: u64,
    pub to: u64,
    pub silent: usize,
}

/// How many of some readings are silent.
fn silent_among(part: &[Event]) -> usize
    ensures { result ≡ silent_readings part.now }
{
    let silent = u32::from(Door::Silent);
    part.iter().filter(|event| event.code == silent).count()
}

impl Summary {
    /// The summary of some readings, unless there are none.
    pub fn of(part: &[Event]) -> Option<Self>
        ensures { result ≡ summed part.now }
    {
        let (first, rest) = part.split_first()?;
        Some(Summary {
            from: first.time,
            to: rest.last().unwrap_or(first).time,
            silent: silent_among(part),
        })
    }
}

impl fmt::Display for Summary {
    ghost output = { λ summary. Some (summary_text summary) };

    fn fmt<W: fmt::Write>(&self, f: &mut fmt::Formatter<W>) -> fmt::Result {
        write!(
            f,
            "second {} to second {}, {} without a signal",
            self.from, self.to, self.silent
        )
    }
}
