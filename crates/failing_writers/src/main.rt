//! Writes each worked trace over writers that fail after each count of bytes, in each way, by single calls and by lists
//! of calls, and compares what is answered, counted and sent. It prints a line for each worked trace, one for what
//! comes after a failure, and one for what no worked trace has.
#![tactic(auto)]

mod afterwards;
mod apart;
mod breaking;
mod program;
mod wanted;
mod written;

use std::process::ExitCode;

fn main(rt: HostRuntime) -> ExitCode {
    program::run(&rt)
}
