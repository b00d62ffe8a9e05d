//! What the fields of an event stand for in a viewer (docs/ROLES.md).
#![tactic(auto)]

pub mod clock;
pub mod roles;
pub mod units;
