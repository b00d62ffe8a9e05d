//! Events of a trace as lines of JSON (docs/FORMAT.md, "Lines of JSON").
#![tactic(auto)]

mod fields;
pub mod growing;
pub mod laws;
pub mod leaves;
pub mod line;
mod parts;
pub mod sending;
mod texts;
pub mod value;
mod weights;
