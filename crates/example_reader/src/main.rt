//! Reads a trace of requests from standard input, and prints a line for each event and one for the end
//! (docs/USING.md, "A reader").
#![tactic(auto)]

mod report;

use crate::report::{Failed, report};
use std::io::Read;
use std::process::ExitCode;

fn main(rt: HostRuntime) -> ExitCode {
    match run(&rt) {
        Ok(()) => ExitCode::SUCCESS,
        Err(Failed) => {
            let _ = eprintln!(rt; "example_reader: failed");
            ExitCode::FAILURE
        }
    }
}

/// Prints the lines of what standard input holds.
fn run(rt: &(impl AllocGlobal + Input + Print)) -> Result<(), Failed> {
    let mut input = Vec::new(rt.alloc());
    rt.reader().read_to_end(&mut input)?;
    let mut lines = String::new(rt.alloc());
    report(rt.alloc(), &input, &mut lines)?;
    print!(rt; "{lines}")?;
    Ok(())
}
