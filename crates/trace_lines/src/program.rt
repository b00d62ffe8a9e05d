//! The program `tracedump` (docs/FORMAT.md, "Dumps"): reads a trace from standard input, and writes the lines of what
//! it holds to standard output. Programs call `run`, which decides nothing by itself.

ghost use Rattle.std.specs.Prelude.{◌≡◌, ◌≢◌, ◌≤◌, true};
ghost use Rattle.std.specs.Process.{exit_status};
ghost use Rattle.trace_values.specs.Sending.{IsSettled};
ghost use Rattle.trace_lines.specs.Dumps.{failed_status};
ghost use Rattle.trace_lines.specs.PieceDumps.{DumpsFrontOfBytes};
ghost use Rattle.trace_lines.specs.parts.Program.{AsksFor, WordsAskFor, resolves, DumpsFront, message_for};
ghost use Rattle.trace_lines.specs.Program.{DumpsAll};

use crate::dump::{FAILED, dump};
use crate::pieces::dump_pieces;
use std::alloc::Global;
use std::io::{ErrorKind, Read};
use std::process::ExitCode;
use std::rt::Env;
use std::{env, io};
use trace_values::leb128::{Plain, TraceWrite};

/// What a program is asked for.
#[derive(Clone, Copy, PartialEq, Eq)]
pub enum Task {
    /// The dump of standard input.
    Dump,
    /// The dump of the events of standard input, resolved.
    Resolve,
    /// How to call the program.
    Usage,
    /// Nothing: the arguments could not be read.
    Fail,
}

/// Runs the program, and answers the status with which it ends: that of the dump, or `FAILED`.
pub fn run(rt: &(impl AllocGlobal + Env + Input + Print + Eprint)) -> ExitCode
    ensures { exit_status result ≤ failed_status }
{
    let task = task_of(words_of(rt));
    let mut input = rt.reader();
    let mut output = Plain(io::writer(rt));
    let status = carry_out(rt.alloc(), task, &mut input, &mut output);
    let _ = eprint!(rt; "{}", message_of(task, status));
    ExitCode::from(status)
}

// The words after the program's name.
fn words_of(rt: &(impl AllocGlobal + Env)) -> io::Result<Vec<String>> {
    let arguments = env::args(rt)?;
    Ok(arguments.skip(1).collect(rt.alloc())?)
}

/// What the words after the program's name ask for, or why they could not be read. No word asks for the dump, the one
/// word `--resolve` for the events; all else, also a word that is not UTF-8, for the usage.
pub fn task_of(words: io::Result<Vec<String>>) -> Task
    ensures { AsksFor words result }
{
    match words {
        Ok(words) => task_of_words(&words),
        Err(error) if error.kind() == ErrorKind::InvalidData => Task::Usage,
        Err(_) => Task::Fail,
    }
}

fn task_of_words(words: &[String]) -> Task
    ensures { WordsAskFor words.now result }
{
    match words {
        [] => Task::Dump,
        [word] if word.as_str() == "--resolve" => Task::Resolve,
        _ => Task::Usage,
    }
}

/// Does what is asked for, and answers the status: that of the dump of all that the input has left. The dump of
/// frames is written as the input is read, that of events once all was read. `FAILED` where no dump is asked for,
/// where the input could not be read to its end, where a growth was refused, and where the writer failed: then
/// nothing was written, or a front of the dump.
pub fn carry_out<R: Read, W: TraceWrite>(
    alloc: Global,
    task: Task,
    input: &mut R,
    out: &mut W,
) -> u8
    ensures asked { task ≢ Task.Dump → task ≢ Task.Resolve → result ≡ failed_status }
    ensures same_reader { task ≢ Task.Dump → task ≢ Task.Resolve → input.new ≡ input.old }
    ensures same_writer { task ≢ Task.Dump → task ≢ Task.Resolve → out.new ≡ out.old }
    ensures front { task ≢ Task.Dump → result ≡ failed_status
        → DumpsFront (resolves task) (R.remaining input.old) (W.told out.old) (W.told out.new) }
    ensures front_of_bytes { task ≡ Task.Dump → result ≡ failed_status
        → DumpsFrontOfBytes (R.remaining input.old) (W.told out.old) (W.told out.new) }
    ensures lines { result ≢ failed_status
        → DumpsAll (resolves task) (R.remaining input.old) (W.told out.old) (W.told out.new)
        result }
    ensures settled { result ≢ failed_status → IsSettled (W.told out.new) }
    ensures known { result ≤ failed_status }
{
    match task {
        Task::Dump => dump_pieces(alloc, input, out),
        Task::Resolve => dump_events(alloc, input, out),
        Task::Usage | Task::Fail => FAILED,
    }
}

// Writes the lines of the events of all that the input has left, resolved, once all was read.
fn dump_events<R: Read, W: TraceWrite>(alloc: Global, input: &mut R, out: &mut W) -> u8
    ensures front { result ≡ failed_status
        → DumpsFront true (R.remaining input.old) (W.told out.old) (W.told out.new) }
    ensures lines { result ≢ failed_status
        → DumpsAll true (R.remaining input.old) (W.told out.old) (W.told out.new) result }
    ensures settled { result ≢ failed_status → IsSettled (W.told out.new) }
    ensures known { result ≤ failed_status }
{
    let mut bytes = Vec::new(alloc);
    match input.read_to_end(&mut bytes) {
        Ok(_) => dump(alloc, &bytes, out, true),
        Err(_) => FAILED,
    }
}

/// What to tell on standard error, with its line feed, and nothing where a dump was written.
pub fn message_of(task: Task, status: u8) -> &'static str
    ensures { result.now ≡ message_for task status }
{
    match (task, status) {
        (Task::Usage, _) => "usage: tracedump [--resolve]\n",
        (_, FAILED) => "tracedump: failed\n",
        _ => "",
    }
}
