//! Traces that are changed, and what all readers give of them.

pub mod beside;
pub mod fed;
pub mod program;
pub mod reading;
pub mod tally;
