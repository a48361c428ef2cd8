//! Filters readings and bits that lie in memory: three minutes around a gap in a door log.
#![tactic(auto)]

use doors::{AROUND, Door, SECONDS, STRETCHES, Summary, door_at, door_log, reading};
use kernels::Event;
use selection::{Refusal, Run, Selection, Window, contiguous_filter_range};
use slices::{filter_bitbuffer_by_mask, filter_slice, filter_slice_in_place};
use std::alloc::{AllocError, Global};

/// Three minutes of the log, and in them the seconds without a signal.
const MINUTES: [Run; 1] = [Run {
    start: 1440,
    end: 1620,
}];

const SILENT: [Run; 1] = [Run {
    start: 60,
    end: 100,
}];

/// What was picked, in one line.
fn show_part(rt: &HostRuntime, part: &[Event]) -> anyhow::Result<()> {
    if let Some(summary) = Summary::of(part) {
        println!(rt; "  {summary}")?;
    }
    Ok(())
}

fn show_filtered(rt: &HostRuntime, what: &str, answer: Result<u64, Refusal>) -> anyhow::Result<()> {
    match answer {
        Ok(count) => println!(rt; "  {what}: ok, {count}")?,
        Err(refusal) => println!(rt; "  {what}: no, {refusal}")?,
    }
    Ok(())
}

/// Three minutes are copied from the log, and in their place the seconds without a signal are kept.
fn show_slices(rt: &HostRuntime, log: &[Event]) -> anyhow::Result<()> {
    let heap = rt.alloc();
    let mut part = vec![in heap; reading(0); 180]?;
    let minutes = Selection::Runs {
        runs: &MINUTES,
        len: SECONDS,
    };
    let silent = Selection::Runs {
        runs: &SILENT,
        len: 180,
    };
    println!(rt; "readings in memory")?;
    let copied = filter_slice(log, minutes, &mut part);
    show_filtered(rt, "three minutes copied", copied)?;
    show_part(rt, &part)?;
    let wrong = filter_slice_in_place(&mut part, minutes);
    show_filtered(rt, "filtered by another length", wrong)?;
    let kept = filter_slice_in_place(&mut part, silent);
    show_filtered(rt, "filtered in place", kept)?;
    show_part(rt, &part[0..40])
}

/// Eight bits of the door signal, from one second on.
fn signal_byte(second: u64) -> u8 {
    (0..8u8).fold(0, |byte, j| {
        byte | (u8::from(door_at(second.saturating_add(u64::from(j))) == Door::Signal) << j)
    })
}

/// The door signal in bits, one for each second.
fn signal_bytes(heap: Global) -> Result<Vec<u8>, AllocError> {
    (0..384u64).map(|k| signal_byte(8 * k)).collect(heap)
}

/// The bits of the door signal at the seconds around the gap.
fn show_bits(rt: &HostRuntime) -> anyhow::Result<()> {
    let bytes = signal_bytes(rt.alloc())?;
    let signal = Window {
        bytes: &bytes,
        start: 0,
        len: SECONDS,
    };
    let around = Selection::Indices {
        indices: &AROUND,
        len: SECONDS,
    };
    let mut bits = [0u8; 2];
    let answer = filter_bitbuffer_by_mask(signal, around, &mut bits);
    show_filtered(rt, "signal bits around the gap", answer)?;
    let all = u16::from_le_bytes(bits);
    for (j, second) in AROUND.iter().enumerate() {
        println!(rt; "    second {second}: {}", (all >> j) % 2)?;
    }
    Ok(())
}

/// The one run that a selection makes up, if it does.
fn show_range(rt: &HostRuntime, what: &str, runs: &[Run]) -> anyhow::Result<()> {
    let answer = contiguous_filter_range(Selection::Runs { runs, len: SECONDS });
    if let Ok(Some(Run { start, end })) = answer {
        println!(rt; "  {what}: seconds {start} to {end}")?;
    } else {
        println!(rt; "  {what}: not one run")?;
    }
    Ok(())
}

fn run(rt: &HostRuntime) -> anyhow::Result<()> {
    let log = door_log(rt.alloc())?;
    show_slices(rt, &log)?;
    show_bits(rt)?;
    show_range(rt, "both stretches", &STRETCHES)?;
    show_range(rt, "the second stretch", &STRETCHES[1..2])
}

fn main(rt: HostRuntime) -> anyhow::Result<()> {
    run(&rt)
}
