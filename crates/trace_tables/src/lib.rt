//! Tables by id: dense ones, ordered ones, and hashed ones from texts and stacks to their ids.
#![tactic(auto)]

pub mod by_id;
pub mod by_wire_id;
pub mod interning;
