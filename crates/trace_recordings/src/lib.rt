//! Recorded scripts of encoder calls, and recorded traces, compared with the library (docs/RECORDINGS.md).
#![tactic(auto)]

mod compare;
mod findings;
mod pieces;
pub mod player;
pub mod program;
mod recording;
mod script;
mod sink;
mod tally;
mod typed;
