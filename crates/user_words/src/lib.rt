//! What a program may state over `dial9_trace_format` when it lists that library alone: writers of its own, clauses
//! in the words of `Rattle.dial9_trace_format.specs.Words`, and the laws. The gate checks it, so that no word of a
//! contract is out of a caller's reach.
#![tactic(auto)]

pub mod beats;
pub mod laws;
pub mod pieces;
pub mod registries;
pub mod silent;
pub mod tally;
pub mod ticks;
pub mod torn;
