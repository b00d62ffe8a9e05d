//! The program `trace_replay` (docs/RECORDINGS.md). Its stored run compares all recordings of its folder `data`;
//! `runs/` has others.
#![tactic(auto)]

use std::process::ExitCode;
use trace_recordings::program::run;

fn main(rt: HostRuntime) -> ExitCode {
    run(&rt)
}
