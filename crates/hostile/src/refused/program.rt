//! What the program does and prints of calls of which growths are refused.

use crate::refused::tallies::Tallies;
use crate::refused::verdict::{Counts, Need};
use std::alloc::{AllocError, Global};
use std::hash::RandomState;
use std::io;
use std::io::Read;
use std::random::RandomSource;
use worked_traces::ALL;

/// Gives the same bytes each time, so that each run of the program is the same.
struct Sevens;

impl RandomSource for Sevens {
    fn fill_bytes(&self, buf: &mut [u8]) -> io::Result<()> {
        buf.fill(7);
        Ok(())
    }
}

/// Tries the calls of the worked traces and of those on standard input, and tells what came of it.
pub fn run_refused(rt: &(impl AllocGlobal + Input + Print), refuses: bool) -> anyhow::Result<bool> {
    let mut tallies = Tallies::new(RandomState::new(&Sevens)?);
    try_worked(rt.alloc(), &mut tallies)?;
    let traces = try_lines(rt, &mut tallies)?;
    let heap = if refuses {
        "growths are refused"
    } else {
        "no growth is refused"
    };
    println!(rt; "{heap}; {} worked traces, {traces} others", ALL.len())?;
    tell(rt, refuses, &tallies)
}

fn try_worked(alloc: Global, tallies: &mut Tallies) -> Result<(), AllocError> {
    tallies.try_samples(alloc)?;
    for worked in ALL {
        tallies.try_worked(alloc, worked)?;
    }
    Ok(())
}

/// Tries the traces on standard input, one a line, two hexadecimal digits a byte, and answers how many they are.
fn try_lines(rt: &(impl AllocGlobal + Input), tallies: &mut Tallies) -> anyhow::Result<u64> {
    let mut input = Vec::new(rt.alloc());
    rt.reader().read_to_end(&mut input)?;
    let mut traces: u64 = 0;
    for line in str::from_utf8(&input)?.lines() {
        tallies.try_trace(rt.alloc(), &hex::decode(rt.alloc(), line)?)?;
        traces = traces.saturating_add(1);
    }
    Ok(traces)
}

/// Prints a line for each kind of calls, and answers whether all is right.
fn tell(rt: &impl Print, refuses: bool, tallies: &Tallies) -> anyhow::Result<bool> {
    let mut good = true;
    for (name, counts) in [
        ("one event over an array", &tallies.row),
        ("calls over an array", &tallies.array),
        ("calls over a list", &tallies.list),
        ("calls by a hasher of the caller's", &tallies.seeded),
        ("events of what is known", &tallies.known),
        ("lists of calls", &tallies.lists),
        ("readers", &tallies.readers),
        ("fed decoders", &tallies.fed),
        ("causes", &tallies.causes),
        ("dumps", &tallies.dumps),
        ("resolved events", &tallies.resolved),
        ("encoders after a trace", &tallies.resumed),
        ("copies", &tallies.copies),
        ("values", &tallies.values),
        ("schemas and registries", &tallies.schemas),
    ] {
        tell_one(rt, name, counts)?;
        good &= counts.is_right(refuses, Need::Memory);
    }
    tell_one(rt, "lists of all frames", &tallies.all_frames)?;
    tell_one(rt, "calls that take no memory", &tallies.free)?;
    let spared = tallies.all_frames.is_right(refuses, Need::Spare);
    Ok(tallies.free.is_right(refuses, Need::Nothing) & spared & good)
}

fn tell_one(rt: &impl Print, name: &str, counts: &Counts) -> anyhow::Result<()> {
    println!(rt; "{name}: {counts}")?;
    Ok(())
}
