//! The program `tracedump` (docs/FORMAT.md, "Dumps"): reads a trace from standard input, and writes the lines of what
//! it holds to standard output. Its stored run is a whole trace; `runs/` has others.
#![tactic(auto)]

use std::process::ExitCode;
use trace_lines::program::run;

fn main(rt: HostRuntime) -> ExitCode {
    run(&rt)
}
