//! What the events of a trace add up to (docs/MODEL.md, "Statistics").
#![tactic(auto)]

pub mod field;
pub mod float;
pub mod full;
mod measure;
mod same;
pub mod schema;
pub mod summary;
pub mod trace;
