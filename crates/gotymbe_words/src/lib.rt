//! The command line of `gotymbe`: the words that it takes, and what they ask for (docs/TOOLS.md).
#![tactic(auto)]

pub mod asked;
pub mod command;
