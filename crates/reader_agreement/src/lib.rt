//! Whether readers of one trace agree: each comparison answers `true` exactly where what it compares is the same.
#![tactic(auto)]

pub mod any_event;
pub mod beside;
pub mod causes;
pub mod ends;
pub mod events;
pub mod frames;
pub mod readings;
pub mod resolved;
pub mod runs;
pub mod signs;
pub mod steps;
pub mod tables;
pub mod values;
