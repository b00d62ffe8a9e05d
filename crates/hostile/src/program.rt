//! What the program does and prints.

use crate::changed::program::run_changed;
use crate::refused::heap::is_there;
use crate::refused::program::run_refused;
use std::process::ExitCode;
use std::rt::Env;

/// Runs the program.
pub fn run(rt: &(impl AllocGlobal + Env + Input + Print + Eprint)) -> ExitCode {
    match run_all(rt) {
        Ok(true) => ExitCode::SUCCESS,
        Ok(false) => ExitCode::FAILURE,
        Err(error) => {
            let _ = eprintln!(rt; "hostile: {error:#}");
            ExitCode::FAILURE
        }
    }
}

/// Changes traces, unless growths are refused, and then tries calls.
fn run_all(rt: &(impl AllocGlobal + Env + Input + Print)) -> anyhow::Result<bool> {
    let refuses = is_there(rt.alloc());
    let good = refuses || run_changed(rt)?;
    Ok(run_refused(rt, refuses)? & good)
}
