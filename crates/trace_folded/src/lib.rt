//! What the stacks of events add up to, as lines for flame graphs (docs/FORMAT.md, "Folded stacks").
#![tactic(auto)]

pub mod event;
pub mod stack;
pub mod tally;
pub mod text;
