//! Events of a trace as decoders give them that own what they give (docs/MODEL.md, "Events that own their values").
#![tactic(auto)]

pub mod event;
pub mod schema;
pub mod value;
