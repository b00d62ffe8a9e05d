//! How far the reading of an input is, as it is told meanwhile.

ghost use Rattle.std.specs.Prelude.{◌≡◌, ◌↔◌, ◌++◌, ◌<◌, ◌*◌, ◌/◌, IsTrue, OnOk, codes, string_bytes};
ghost use Rattle.std.specs.Fmt.{decimal};
ghost use Rattle.gotymbe_plan.specs.Endings.{start_text};
ghost use Rattle.gotymbe_plan.specs.Progress.{IsProgress, IsToldOf, IsTimeLeft, left_text, progress_text};

use crate::ending::push_start;
use std::alloc::AllocError;

// Of inputs of at most so many bytes nothing is told.
const SMALL: u64 = 67_108_864;

/// How far the reading of an input is.
#[derive(Clone, Copy, Debug, PartialEq, Eq)]
pub struct Progress {
    /// How many hundredths of it were read, rounded down: 0 to 100.
    pub percent: u64,
    /// How many seconds the rest takes at the same pace, rounded down, where that is known.
    pub left_s: Option<u64>,
}

/// Whether it is told how far the reading of an input of so many bytes is: to a terminal, of more than 64 MiB, and
/// unless quiet is asked for.
pub fn is_told_of(bytes: u64, terminal: bool, quiet: bool) -> bool
    ensures { IsTrue result ↔ IsToldOf bytes terminal quiet }
{
    bytes > SMALL && terminal && !quiet
}

/// How far the reading of an input is, where so many of its bytes were read in so many milliseconds. Below 100
/// hundredths before all were read, and not above where more were read than it had.
pub fn how_far(done: u64, of: u64, elapsed_ms: u64) -> Progress
    ensures { IsProgress done of elapsed_ms result }
{
    if of <= done {
        return Progress {
            percent: 100,
            left_s: Some(0),
        };
    }
    Progress {
        percent: percent_of(done, of),
        left_s: time_left(done, of - done, elapsed_ms),
    }
}

// A part of a whole, in hundredths.
#[tactic(auto, using(crate::proofs::PercentOfWhole::percent_small))]
fn percent_of(done: u64, of: u64) -> u64
    requires { done < of }
    ensures percent { result ≡ done * 100 / of }
    ensures small { result < 100 }
{
    (u128::from(done) * 100 / u128::from(of)) as u64
}

// How many seconds the rest takes, where that can be counted.
fn time_left(done: u64, rest: u64, elapsed_ms: u64) -> Option<u64>
    ensures { IsTimeLeft done rest elapsed_ms result }
{
    if done == 0 {
        return None;
    }
    match elapsed_ms.checked_mul(rest) {
        Some(product) => Some(product / done / 1000),
        None => None,
    }
}

/// Appends what is told of a file that is read. It is written over by what is told next. `AllocError` where a growth
/// was refused.
pub fn push_progress(out: &mut String, name: &str, progress: Progress) -> Result<(), AllocError>
    ensures { OnOk result (string_bytes out.new
        ≡ string_bytes out.old ++ progress_text name.now progress.percent progress.left_s) }
{
    push_percent(out, name, progress.percent)?;
    push_left(out, progress.left_s)?;
    out.push_str("\x1b[K\r")
}

// Appends the program, the file, and how many hundredths were read.
fn push_percent(out: &mut String, name: &str, percent: u64) -> Result<(), AllocError>
    ensures { OnOk result (string_bytes out.new
        ≡ string_bytes out.old ++ (start_text name.now ++ (decimal percent ++ codes " %"))) }
{
    push_start(out, name)?;
    write!(out, "{percent} %")
}

// Appends the time that is left.
fn push_left(out: &mut String, left_s: Option<u64>) -> Result<(), AllocError>
    ensures { OnOk result (string_bytes out.new ≡ string_bytes out.old ++ left_text left_s) }
{
    match left_s {
        Some(left) => write!(out, ", {left} s left"),
        None => Ok(()),
    }
}
