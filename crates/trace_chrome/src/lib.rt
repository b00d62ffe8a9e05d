//! Events of a trace as what viewers of Chrome's trace format open (docs/FORMAT.md, "Chrome's format").
#![tactic(auto)]

mod counters;
mod entries;
mod frames;
mod labels;
pub mod laws;
pub mod sending;
mod times;
pub mod trace;
mod tracks;
