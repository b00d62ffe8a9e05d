//! Cuts of traces: the events of a range of times, with all that they stand on.
#![tactic(auto)]

mod copying;
pub mod cut;
pub mod range;
