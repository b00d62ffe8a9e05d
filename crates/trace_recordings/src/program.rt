//! The program `trace_replay` (docs/RECORDINGS.md). Programs call `run`, which decides nothing by itself.

ghost use Rattle.std.specs.Prelude.{◌≡◌, ◌≤◌, IfOk, string_bytes};
ghost use Rattle.std.specs.Process.{exit_status};
ghost use Rattle.trace_recordings.specs.Program.{AsksToReplay, Answers, status_with};

use crate::findings::{Findings, PartFinding, findings_of};
use crate::player::{PlayError, Played, play};
use crate::recording::recordings_of;
use crate::tally::SetTally;
use anyhow::Context;
use std::alloc::{AllocError, Global};
use std::io::{ErrorKind, Read, Write};
use std::process::ExitCode;
use std::rt::{Env, Files};
use std::{env, fs, io};

/// All that was compared is as it was recorded, or the script was played.
pub const GOOD: u8 = 0;
/// Something differs, or the program failed.
pub const BAD: u8 = 1;
/// The arguments or the script cannot be read.
pub const UNREADABLE: u8 = 2;

// The sets of recordings. Each is a file of that name, with `.txt` after it.
const SETS: [&str; 4] = ["public", "malformed", "model", "types"];

/// What a program is asked for.
#[derive(Clone, Copy, PartialEq, Eq)]
pub enum ReplayTask {
    /// To compare the sets of recordings.
    ReplaySets,
    /// To play the script on standard input.
    PlayInput,
    /// How to call the program.
    Usage,
}

/// What playing a script comes to: the status, and what goes to standard output and to standard error.
#[derive(Drop)]
pub struct Answer {
    pub status: u8,
    pub output: Vec<u8>,
    pub error_output: String,
}

/// Runs the program, and answers the status with which it ends: `GOOD`, `BAD` or `UNREADABLE`.
pub fn run(rt: &(impl AllocGlobal + Env + Files + Input + Print + Eprint)) -> ExitCode
    ensures { exit_status result ≤ UNREADABLE }
{
    match status_of_run(rt) {
        Ok(status) => ExitCode::from(status),
        Err(error) => {
            let _ = eprintln!(rt; "trace_replay: {error:#}");
            ExitCode::from(BAD)
        }
    }
}

fn status_of_run(
    rt: &(impl AllocGlobal + Env + Files + Input + Print + Eprint),
) -> anyhow::Result<u8>
    ensures { IfOk result (λ status. status ≤ UNREADABLE) }
{
    match task_of_arguments(rt)? {
        ReplayTask::ReplaySets => replay_sets(rt),
        ReplayTask::PlayInput => play_input(rt),
        ReplayTask::Usage => {
            eprintln!(rt; "usage: trace_replay [-]")?;
            Ok(UNREADABLE)
        }
    }
}

fn task_of_arguments(rt: &(impl AllocGlobal + Env)) -> io::Result<ReplayTask> {
    let arguments = match env::args(rt) {
        Ok(arguments) => arguments,
        Err(error) if error.kind() == ErrorKind::InvalidData => return Ok(ReplayTask::Usage),
        Err(error) => return Err(error),
    };
    let words: Vec<String> = arguments.skip(1).collect(rt.alloc())?;
    Ok(task_of(&words))
}

/// What the words after the program's name ask for.
pub fn task_of(words: &[String]) -> ReplayTask
    ensures { AsksToReplay words.now result }
{
    match words {
        [] => ReplayTask::ReplaySets,
        [word] if word.as_str() == "-" => ReplayTask::PlayInput,
        _ => ReplayTask::Usage,
    }
}

// Compares each set of recordings with what the library makes of it.
fn replay_sets(rt: &(impl AllocGlobal + Files + Print)) -> anyhow::Result<u8>
    ensures { IfOk result (λ status. status ≤ BAD) }
{
    let mut status = GOOD;
    for set in SETS {
        status = with_set(status, replay_set(rt, set)?);
    }
    Ok(status)
}

/// The status of some sets and one more, which may differ: once one differs, it is `BAD`.
pub fn with_set(status: u8, differs: bool) -> u8
    ensures { result ≡ status_with status differs }
{
    if differs { BAD } else { status }
}

// Compares a set of recordings, prints each difference and then the counts, and answers whether something differs.
fn replay_set(rt: &(impl AllocGlobal + Files + Print), set: &str) -> anyhow::Result<bool> {
    let alloc = rt.alloc();
    let name = format!(in alloc; "{set}.txt")?;
    let file = fs::read_to_string(rt, name.as_str()).context(format_args!("reading {name}"))?;
    let recordings = recordings_of(alloc, file.as_str()).context(format_args!("reading {name}"))?;
    let mut tally = SetTally::new(alloc);
    for recording in &recordings {
        let findings = findings_of(alloc, *recording)?;
        print_findings(rt, set, recording.name, &findings)?;
        tally.add(&findings)?;
    }
    println!(rt; "{set}: {tally}")?;
    Ok(tally.differs())
}

// Prints each difference in a recording.
fn print_findings(rt: &impl Print, set: &str, name: &str, findings: &Findings) -> io::Result<()> {
    print_differences(rt, set, name, &findings.script)?;
    print_differences(rt, set, name, &findings.dump)?;
    print_differences(rt, set, name, &findings.borrowed)?;
    print_differences(rt, set, name, &findings.resolved)?;
    print_differences(rt, set, name, &findings.sink)?;
    print_differences(rt, set, name, &findings.pieces)
}

// Prints each difference in a part of a recording.
fn print_differences(
    rt: &impl Print,
    set: &str,
    name: &str,
    outcome: &PartFinding,
) -> io::Result<()> {
    if let PartFinding::Compared(differences) = outcome {
        for difference in differences {
            println!(rt; "{set} {name}: {difference}")?;
        }
    }
    Ok(())
}

// Plays the script on standard input, writes the trace to standard output and the replies to standard error.
fn play_input(rt: &(impl AllocGlobal + Input + Print + Eprint)) -> anyhow::Result<u8>
    ensures { IfOk result (λ status. status ≤ UNREADABLE) }
{
    let alloc = rt.alloc();
    let mut text = Vec::new(alloc);
    rt.reader().read_to_end(&mut text)?;
    let answer = answer_of(alloc, play(alloc, &text))?;
    io::writer(rt).write_all(&answer.output)?;
    eprint!(rt; "{}", answer.error_output)?;
    Ok(answer.status)
}

/// What is answered where a script was played, or was not: the trace and the replies with `GOOD`; or nothing and the
/// reason, with `UNREADABLE` where the error is the script's and `BAD` where it is not. `AllocError` where there is
/// no memory for the reason.
pub fn answer_of(alloc: Global, played: Result<Played, PlayError>) -> Result<Answer, AllocError>
    ensures { IfOk result (Answers played) }
{
    match played {
        Ok(played) => Ok(Answer {
            status: GOOD,
            output: played.bytes,
            error_output: played.replies,
        }),
        Err(error) => Ok(Answer {
            status: if error.is_of_script() {
                UNREADABLE
            } else {
                BAD
            },
            output: Vec::new(alloc),
            error_output: format!(in alloc; "{error}\n")?,
        }),
    }
}
