//! Samples of what the library's traits ask of a user: a writer that tells all and fails as it is told, and event
//! types.
#![tactic(auto)]

pub mod events;
pub mod manner;
pub mod told;

pub use manner::{Failing, Fault, Manner};
pub use told::Told;
