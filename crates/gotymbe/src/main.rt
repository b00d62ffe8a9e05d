//! The program `gotymbe` (docs/TOOLS.md): checks, shows, counts, saves, joins, cuts and follows traces, and writes
//! their events as JSON, as tables and for viewers. What it decides stands in the crates `gotymbe_words` and
//! `gotymbe_plan`; here that is joined.
#![tactic(auto)]

ghost use Rattle.std.specs.Prelude.{◌≡◌, ◌≢◌, IfOk, IfErr, None, option_map};
ghost use Rattle.std.specs.declared.io.ErrorKind.TheVariants.{InvalidData};
ghost use Rattle.gotymbe_plan.specs.Moments.{IsMomentGiven, SaysMoment};
ghost use Rattle.gotymbe.specs.Calls.{IsGivenFor};

mod clocks;
mod events;
mod follow;
mod input;
mod merge;
mod output;
mod pieces;
mod tables;
mod tasks;

use crate::output::STANDARD;
use crate::tasks::{Call, tell};
use clap::ArgMatches;
use clap::error::ErrorKind;
use gotymbe_plan::ending::Ending;
use gotymbe_plan::moments::{moment_given, push_no_moment};
use gotymbe_words::asked::{Asked, status_by, task_of, what_is_asked};
use gotymbe_words::command::command;
use std::alloc::AllocError;
use std::fs::File;
use std::io::IsTerminal;
use std::process::ExitCode;
use std::rt::{Clock, Env, Files};
use std::{env, io};
use trace_lines::dump::{FAILED, WHOLE};

fn main(rt: HostRuntime) -> ExitCode {
    let terminal = rt.stderr().is_terminal();
    // (a file takes the least number that is free. Where standard error is closed that would be its own, and what is
    // told would go into the file: so a folder takes it, which is neither read nor written)
    let _taken = [
        File::open(&rt, "/"),
        File::open(&rt, "/"),
        File::open(&rt, "/"),
    ];
    match run(&rt, terminal) {
        Ok(status) => ExitCode::from(status),
        Err(_) => ExitCode::from(tell_no_memory(&rt)),
    }
}

/// Does what the words of the call ask for, and answers the status.
fn run(
    rt: &(impl AllocGlobal + Env + Files<File = File> + Input + Print + Eprint + Clock),
    terminal: bool,
) -> Result<u8, AllocError> {
    let alloc = rt.alloc();
    let words = match env::args(rt) {
        Ok(words) => words,
        Err(error) => return Ok(tell_no_words(rt, error.kind())),
    };
    let words: Vec<String> = words.collect(alloc)?;
    run_words(rt, words.as_slice(), terminal)
}

// Does what these words ask for, and answers the status.
fn run_words(
    rt: &(impl AllocGlobal + Files<File = File> + Input + Print + Eprint + Clock),
    words: &[String],
    terminal: bool,
) -> Result<u8, AllocError> {
    let command = command(rt.alloc())?;
    match command.try_get_matches_from(words) {
        Ok(matches) => run_matches(rt, &matches, terminal),
        Err(error) => {
            let status = status_by(error.kind());
            match error.print(rt) {
                Err(fault) if status == WHOLE => {
                    tell(rt, STANDARD, Ending::Unwritten(fault.kind()))
                }
                _ => Ok(status),
            }
        }
    }
}

// Does what words that could be read ask for, and answers the status.
fn run_matches(
    rt: &(impl AllocGlobal + Files<File = File> + Input + Print + Eprint + Clock),
    matches: &ArgMatches<'_>,
    terminal: bool,
) -> Result<u8, AllocError> {
    match matches.subcommand() {
        Some((name, given)) => match task_of(name) {
            Some(task) => {
                let asked = what_is_asked(rt.alloc(), task, given)?;
                carry_out(rt, &asked, terminal)
            }
            None => Ok(FAILED),
        },
        None => Ok(FAILED),
    }
}

// Tells why the words of the call can't be had, and answers the status.
fn tell_no_words(rt: &impl Eprint, kind: io::ErrorKind) -> u8
    ensures no_text { kind ≡ InvalidData → result ≡ 64 }
    ensures memory { kind ≢ InvalidData → result ≡ 4 }
{
    match kind {
        io::ErrorKind::InvalidData => {
            let _ = eprintln!(rt; "error: a word of the call is no text in UTF-8");
            status_by(ErrorKind::InvalidValue)
        }
        _ => tell_no_memory(rt),
    }
}

// Tells that a growth was refused where no file can be told, and answers the status.
fn tell_no_memory(rt: &impl Eprint) -> u8
    ensures { result ≡ 4 }
{
    let _ = eprintln!(rt; "gotymbe: out of memory");
    FAILED
}

// Does what is asked for, and answers the status; where a name is empty, or a text that is given for a time says none,
// it tells that alone.
fn carry_out(
    rt: &(impl AllocGlobal + Files<File = File> + Input + Print + Eprint + Clock),
    asked: &Asked<'_>,
    terminal: bool,
) -> Result<u8, AllocError> {
    if asked.has_empty_name() {
        return Ok(tell_empty_name(rt));
    }
    match call_of(asked, terminal) {
        Ok(call) => tasks::carry_out(rt, &call),
        Err((option, text)) => tell_no_moment(rt, option, text),
    }
}

// Tells that a name is empty, and answers the status.
fn tell_empty_name(rt: &impl Eprint) -> u8
    ensures { result ≡ 64 }
{
    let _ = eprintln!(rt; "error: the name of a file is empty");
    status_by(ErrorKind::ValueValidation)
}

// The call that asks for this; or the option with a text that says no time.
fn call_of<'a>(asked: &'a Asked<'a>, terminal: bool) -> Result<Call<'a>, (&'static str, &'a str)>
    ensures asked { IfOk result (λ call. call.asked.now ≡ asked.now) }
    ensures from { IfOk result (λ call.
        IsMomentGiven (option_map (λ s. s.now) asked.now.from) call.from) }
    ensures to { IfOk result (λ call.
        IsMomentGiven (option_map (λ s. s.now) asked.now.to) call.to) }
    ensures terminal { IfOk result (λ call. call.terminal ≡ terminal) }
    ensures option { IfErr result (λ told. IsGivenFor asked.now told.0.now told.1.now) }
    ensures no_moment { IfErr result (λ told. SaysMoment told.1.now None) }
{
    let from = match moment_given(asked.from) {
        Ok(from) => from,
        Err(text) => return Err(("from", text)),
    };
    let to = match moment_given(asked.to) {
        Ok(to) => to,
        Err(text) => return Err(("to", text)),
    };
    Ok(Call {
        asked,
        from,
        to,
        terminal,
    })
}

// Tells that a text says no time, and answers the status.
fn tell_no_moment(
    rt: &(impl AllocGlobal + Eprint),
    option: &str,
    text: &str,
) -> Result<u8, AllocError>
    ensures { IfOk result (λ status. status ≡ 64) }
{
    let mut line = String::new(rt.alloc());
    push_no_moment(&mut line, option, text)?;
    let _ = eprint!(rt; "{line}");
    Ok(status_by(ErrorKind::ValueValidation))
}
