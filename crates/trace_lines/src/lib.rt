//! The lines that tell what a trace holds (docs/FORMAT.md, "Dumps").
#![tactic(auto)]

mod borrowed;
pub mod dump;
mod entries;
mod growing;
pub mod lines;
mod listed;
pub mod pieces;
mod plain;
mod pooled;
pub mod program;
pub mod resolved;
pub mod sending;
pub mod sent_lines;
mod spelled;
pub mod text;
mod text_maps;
pub mod value;
