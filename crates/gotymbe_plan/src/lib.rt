//! What the program `gotymbe` decides: which status, which words, which events and in which order, how a file is
//! written, when a file that grows is read again, and what is told meanwhile (docs/TOOLS.md).
#![tactic(auto)]

pub mod ending;
pub mod filter;
pub mod following;
pub mod gaps;
pub mod last_line;
pub mod merging;
pub mod moments;
pub mod names;
pub mod numbers;
pub mod output;
pub mod page;
pub mod picking;
pub mod progress;
pub mod statistics;
pub mod tables;
