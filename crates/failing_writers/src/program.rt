//! What the program prints.

ghost use Rattle.std.specs.Prelude.{◌≡◌, if◌then◌else◌};
ghost use Rattle.failing_writers.specs.Wanted.{one_more};

use crate::afterwards::{
    begins_again, counts_raw_bytes, fails_by_flush, keeps_old_writer, stays_failed_raw,
};
use crate::apart::{Apart, TRIED, Tried, is_accepted_twice, is_right_apart, places_of};
use crate::breaking::{Fault, Manner};
use crate::written::{SOUND, Way, fails_to_flush, is_right};
use std::alloc::{AllocError, Global};
use std::io::ErrorKind;
use std::process::ExitCode;
use worked_traces::{ALL, Worked, bytes_of, name_of};

/// What writers answer that take no more.
const FAULTS: [Fault; 3] = [
    Fault::Error(ErrorKind::BrokenPipe),
    Fault::Error(ErrorKind::Interrupted),
    Fault::Zero,
];

/// How many bytes writers take at most at a time.
const STEPS: [usize; 3] = [1, 7, 1_000_000];

/// What is tried over writers that fail.
#[derive(Clone, Copy, PartialEq, Eq, Debug)]
enum Trial {
    /// A worked trace, by such calls.
    Worked(Worked, Way),
    /// What no worked trace has.
    Apart(Tried),
}

impl Trial {
    /// At how many places a writer fails, from the first on.
    fn places(self) -> usize {
        match self {
            Trial::Worked(worked, _) => bytes_of(worked).len().saturating_add(1),
            Trial::Apart(tried) => places_of(tried),
        }
    }

    /// Whether all is as it should be over a writer of this manner.
    fn is_right(self, alloc: Global, manner: Manner) -> Result<bool, AllocError> {
        match self {
            Trial::Worked(worked, way) => is_right(alloc, worked, manner, way),
            Trial::Apart(tried) => Ok(is_right_apart(alloc, tried, manner)),
        }
    }
}

/// How many were tried, and how many were not right.
#[derive(Clone, Copy)]
pub struct Counts {
    tried: u64,
    differ: u64,
}

impl Counts {
    /// Nothing was tried.
    pub fn new() -> Counts {
        Counts {
            tried: 0,
            differ: 0,
        }
    }

    /// Counts one more, up to the greatest number of 64 bits.
    pub fn add(&mut self, right: bool)
        ensures tried { self.new.tried ≡ one_more self.old.tried }
        ensures differ { self.new.differ
            ≡ (if right then self.old.differ else one_more self.old.differ) }
    {
        self.tried = self.tried.saturating_add(1);
        if !right {
            self.differ = self.differ.saturating_add(1);
        }
    }
}

/// Runs the program.
pub fn run(rt: &(impl AllocGlobal + Print + Eprint)) -> ExitCode {
    match run_all(rt) {
        Ok(true) => ExitCode::SUCCESS,
        Ok(false) => ExitCode::FAILURE,
        Err(error) => {
            let _ = eprintln!(rt; "failing_writers: {error:#}");
            ExitCode::FAILURE
        }
    }
}

fn run_all(rt: &(impl AllocGlobal + Print)) -> anyhow::Result<bool> {
    let mut good = true;
    for worked in ALL {
        good = run_worked(rt, worked)? && good;
    }
    good = run_afterwards(rt)? && good;
    Ok(run_apart(rt)? && good)
}

/// Writes one trace over all writers, and prints the counts.
fn run_worked(rt: &(impl AllocGlobal + Print), worked: Worked) -> anyhow::Result<bool> {
    let length = bytes_of(worked).len();
    let (mut single, mut listed) = (Counts::new(), Counts::new());
    count_each(rt.alloc(), Trial::Worked(worked, Way::Single), &mut single)?;
    count_each(rt.alloc(), Trial::Worked(worked, Way::Listed), &mut listed)?;
    let name = name_of(worked);
    let (calls, lists) = (single.tried, listed.tried);
    let differ = single.differ.saturating_add(listed.differ);
    println!(rt; "{name}: {length} bytes; {calls} by calls, {lists} by lists; {differ} differ")?;
    Ok(differ == 0)
}

/// Tries it over all writers that fail.
fn count_each(alloc: Global, trial: Trial, counts: &mut Counts) -> Result<(), AllocError> {
    for place in 0..trial.places() {
        for most in STEPS {
            for fault in FAULTS {
                for once in [false, true] {
                    let manner = Manner {
                        most,
                        place,
                        fault,
                        once,
                        flushing: None,
                    };
                    counts.add(trial.is_right(alloc, manner)?);
                }
            }
        }
    }
    Ok(())
}

/// Tries what comes after a failure, and prints the counts.
fn run_afterwards(rt: &(impl AllocGlobal + Print)) -> anyhow::Result<bool> {
    let mut counts = Counts::new();
    for fault in FAULTS {
        counts.add(keeps_old_writer(rt.alloc(), fault)?);
        counts.add(begins_again(rt.alloc(), fault)?);
        counts.add(stays_failed_raw(rt.alloc(), fault)?);
        counts.add(counts_raw_bytes(rt.alloc(), fault)?);
    }
    for kind in [
        ErrorKind::BrokenPipe,
        ErrorKind::Interrupted,
        ErrorKind::StorageFull,
    ] {
        counts.add(fails_by_flush(rt.alloc(), kind)?);
        for worked in ALL {
            counts.add(fails_to_flush(rt.alloc(), worked, kind)?);
        }
    }
    let (tried, differ) = (counts.tried, counts.differ);
    println!(rt; "after a failure: {tried} tried; {differ} differ")?;
    Ok(differ == 0)
}

/// Tries what no worked trace has, and prints the counts.
fn run_apart(rt: &(impl AllocGlobal + Print)) -> anyhow::Result<bool> {
    let mut counts = Counts::new();
    for tried in TRIED {
        count_each(rt.alloc(), Trial::Apart(tried), &mut counts)?;
    }
    for most in STEPS {
        count_twice(rt.alloc(), most, &mut counts);
    }
    let (tried, differ) = (counts.tried, counts.differ);
    println!(rt; "beside the traces: {tried} tried; {differ} differ")?;
    Ok(differ == 0)
}

/// Makes each call twice over a writer that takes so many bytes at a time, and would fail to flush.
fn count_twice(alloc: Global, most: usize, counts: &mut Counts) {
    let manner = Manner {
        most,
        flushing: Some(ErrorKind::StorageFull),
        ..SOUND
    };
    for apart in [Apart::Schema, Apart::Stacks] {
        counts.add(is_accepted_twice(alloc, apart, manner));
    }
}
