//! Hostile use. It cuts each worked trace at every place and puts every value in the place of every byte, also of the
//! first frame where that stands after the trace once more; has all readers read what comes of it, and compares what
//! they give. Then it makes each call with the first of its growths refused, with the second, and so on, until it meets
//! no refusal, and looks at what it answers, at what it leaves, and at what it answers when it is made again. Growths
//! are refused by the heap of `tools/refused`, over which traces are not changed; without it each call is made once. It
//! prints two lines for each worked trace, and one for each kind of calls.
#![tactic(auto)]

mod calls;
mod changed;
mod program;
mod refused;

use std::process::ExitCode;

fn main(rt: HostRuntime) -> ExitCode {
    program::run(&rt)
}
