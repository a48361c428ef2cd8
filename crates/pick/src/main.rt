//! Picks the readings around a gap in a door log, shows what a push refuses, and makes one pick in
//! three forms over two kinds of source.
#![tactic(auto)]

use anyhow::anyhow;
use chunked::{ChunkedFilter, Push, Receipt};
use doors::{AROUND, Door, SECONDS, STRETCHES, Summary, door_log, reading};
use kernels::Event;
use runs::{Batch, run_both};
use selection::{Refusal, Selection, Window};
use source::{ChunkDecoder, Ramp, Table};
use std::alloc::{AllocError, Global};

fn show_reading(rt: &HostRuntime, event: &Event) -> anyhow::Result<()> {
    match Door::try_from(event.code) {
        Ok(door) => println!(rt; "  second {}, lift {}: {door}", event.time, event.lift)?,
        Err(code) => println!(rt; "  second {}, lift {}: {code}", event.time, event.lift)?,
    }
    Ok(())
}

fn show_answer(
    rt: &HostRuntime,
    what: &str,
    answer: Result<Receipt, Refusal>,
    left: u64,
) -> anyhow::Result<()> {
    match answer {
        Ok(Receipt { count, fee }) => {
            println!(rt; "{what}: ok, {count} readings for {fee}, {left} left")?;
        }
        Err(refusal) => println!(rt; "{what}: no, {refusal}, {left} left")?,
    }
    Ok(())
}

/// Picks from the log by index lists.
#[derive(Drop)]
struct Picks<'a, D> {
    rt: &'a HostRuntime,
    filter: ChunkedFilter<D>,
    output: Vec<Event>,
    scratch: Vec<Event>,
}

impl<D: ChunkDecoder<Item = Event>> Picks<'_, D> {
    /// Pushes an index list, and shows the answer.
    fn push(&mut self, what: &str, offset: u64, indices: &[u64], len: u64) -> anyhow::Result<()> {
        let answer = self
            .filter
            .push_mask_indices(offset, indices, len, &mut self.output, &mut self.scratch);
        show_answer(self.rt, what, answer, self.filter.left())
    }

    /// The pick around the gap, reading by reading.
    fn show_gap(&mut self) -> anyhow::Result<()> {
        self.push("around the gap", 0, &AROUND, SECONDS)?;
        for event in self.output.iter().take(AROUND.len()) {
            show_reading(self.rt, event)?;
        }
        Ok(())
    }

    /// A pick of a whole stretch, which is fetched by whole chunks.
    fn show_stretch(&mut self, what: &str, seconds: &[u64]) -> anyhow::Result<()> {
        let before = self.filter.written() as usize;
        self.push(what, 0, seconds, SECONDS)?;
        let after = self.filter.written() as usize;
        if let Some(summary) = self.output.get(before..after).and_then(Summary::of) {
            println!(self.rt; "  {summary}")?;
        }
        Ok(())
    }

    /// One pick for each refusal that a push of an index list can give.
    fn show_refusals(&mut self) -> anyhow::Result<()> {
        self.push("too long", 0, &[], 16_777_217)?;
        self.push("not ascending", 0, &[5, 9, 9], 10)?;
        self.push("past the length", 0, &[5, 10], 10)?;
        self.push("too far off", 1025, &[5], 10)?;
        let answer = self
            .filter
            .push_mask_indices(0, &[5], 10, &mut self.output, &mut []);
        show_answer(self.rt, "no scratch", answer, self.filter.left())?;
        self.push("beyond the log", 1, &[5, 3071], 3072)?;
        let answer = self
            .filter
            .push_mask_indices(0, &[5, 6], 10, &mut [], &mut self.scratch);
        show_answer(self.rt, "no room", answer, self.filter.left())?;
        self.push("the allowance is spent", 0, &AROUND, SECONDS)
    }

    /// What was picked, and for how much.
    fn show_totals(&self) -> anyhow::Result<()> {
        println!(self.rt;
            "in all: {} readings for {}",
            self.filter.written(),
            self.filter.fees()
        )?;
        Ok(())
    }
}

/// The seconds from `start` up to and without `end`.
fn stretch(heap: Global, start: u64, end: u64) -> Result<Vec<u64>, AllocError> {
    (start..end).collect(heap)
}

/// Where the bitmap starts in its first byte.
const FIRST_BIT: u64 = 3;

/// What both sources may still give.
const ALLOWANCE: u64 = 4000;

fn is_picked(second: u64) -> bool {
    STRETCHES
        .iter()
        .any(|run| run.start <= second && second < run.end)
}

/// The picked seconds, as an index list.
fn picked_seconds(heap: Global) -> Result<Vec<u64>, AllocError> {
    (0..SECONDS)
        .filter(|second| is_picked(*second))
        .collect(heap)
}

/// Eight bits of the bitmap, from one of them on.
fn picked_byte(bit: u64) -> u8 {
    (0..8u8).fold(0, |byte, j| {
        let second = bit.wrapping_add(u64::from(j)).wrapping_sub(FIRST_BIT);
        byte | (u8::from(is_picked(second)) << j)
    })
}

/// The picked seconds, as a bitmap.
fn picked_bytes(heap: Global) -> Result<Vec<u8>, AllocError> {
    (0..385u64).map(|k| picked_byte(8 * k)).collect(heap)
}

fn show_notes(
    rt: &HostRuntime,
    what: &str,
    notes: &[Result<Receipt, Refusal>],
) -> anyhow::Result<()> {
    for note in notes {
        match note {
            Ok(Receipt { count, fee }) => println!(rt; "{what}: ok, {count} readings for {fee}")?,
            Err(refusal) => println!(rt; "{what}: no, {refusal}")?,
        }
    }
    Ok(())
}

fn at_once(selection: Selection<'_>) -> Push<'_> {
    Push {
        offset: 0,
        selection,
    }
}

/// Makes some pushes over a table and some over a ramp, and says whether they agree.
fn show_both(
    rt: &HostRuntime,
    list: &[u64],
    pushes: &[Push<'_>],
    others: &[Push<'_>],
) -> anyhow::Result<()> {
    let heap = rt.alloc();
    let mut output = vec![in heap; 0u64; 1024]?;
    let mut scratch = vec![in heap; 0u64; 1024]?;
    let mut output2 = vec![in heap; 0u64; 1024]?;
    let mut scratch2 = vec![in heap; 0u64; 1024]?;
    let mut notes = [Err(Refusal::Output); 4];
    let mut notes2 = [Err(Refusal::Output); 3];
    let Ok(table) = Table::new(list, ALLOWANCE) else {
        return Err(anyhow!("the times are not in whole chunks"));
    };
    let Ok(ramp) = Ramp::new(0, 1, 3, ALLOWANCE) else {
        return Err(anyhow!("too many chunks"));
    };
    let mut batch = Batch {
        pushes,
        output: &mut output,
        scratch: &mut scratch,
        notes: &mut notes,
    };
    let mut batch2 = Batch {
        pushes: others,
        output: &mut output2,
        scratch: &mut scratch2,
        notes: &mut notes2,
    };
    let (one, other) = run_both(table, &mut batch, ramp, &mut batch2);
    show_notes(rt, "  table", &notes)?;
    show_notes(rt, "  ramp", &notes2)?;
    let left = one.source.left();
    let left2 = other.source.left();
    let same = if left == left2 && output.as_slice() == output2.as_slice() {
        "they agree"
    } else {
        "they differ"
    };
    println!(rt; "  {left} and {left2} left: {same}")?;
    Ok(())
}

/// The same pick in three forms, over a list of times and over a count of seconds. One push over
/// the list is not well formed.
fn show_forms(rt: &HostRuntime) -> anyhow::Result<()> {
    let heap = rt.alloc();
    let list = stretch(heap, 0, SECONDS)?;
    let indices = picked_seconds(heap)?;
    let bytes = picked_bytes(heap)?;
    let bitmap = at_once(Selection::Bitmap(Window {
        bytes: &bytes,
        start: FIRST_BIT,
        len: SECONDS,
    }));
    let seconds = at_once(Selection::Indices {
        indices: &indices,
        len: SECONDS,
    });
    let runs = at_once(Selection::Runs {
        runs: &STRETCHES,
        len: SECONDS,
    });
    let short = at_once(Selection::Runs {
        runs: &STRETCHES,
        len: 1500,
    });
    println!(rt; "one pick in three forms, over two kinds of source")?;
    show_both(
        rt,
        &list,
        &[bitmap, short, seconds, runs],
        &[runs, bitmap, seconds],
    )
}

fn run(rt: &HostRuntime) -> anyhow::Result<()> {
    let heap = rt.alloc();
    let log = door_log(heap)?;
    let Ok(table) = Table::new(&log, 2063) else {
        return Err(anyhow!("the log is not in whole chunks"));
    };
    let filter = ChunkedFilter::new(table);
    let mut picks = Picks {
        rt,
        filter,
        output: vec![in heap; reading(0); 2048]?,
        scratch: vec![in heap; reading(0); 1024]?,
    };
    let minutes = stretch(heap, 1440, 1620)?;
    let chunk = stretch(heap, 1024, 2048)?;
    picks.show_gap()?;
    picks.show_stretch("three minutes", &minutes)?;
    picks.show_stretch("a whole chunk", &chunk)?;
    picks.show_refusals()?;
    picks.show_totals()?;
    show_forms(rt)
}

fn main(rt: HostRuntime) -> anyhow::Result<()> {
    run(&rt)
}
