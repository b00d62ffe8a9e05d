//! Traces that were worked out by hand: their bytes, and the calls of encoders that write them.
#![tactic(auto)]

pub mod bytes;
pub mod steps;
pub mod worked;

pub use steps::{Step, calls_of, make, write_parts};
pub use worked::{ALL, Worked, bytes_of, ends_of, name_of, parts_of};
