//! A converter of traces: the events of chosen schemas with chosen fields, under new names (docs/USING.md).
#![tactic(auto)]

pub mod converter;
mod fields;
pub mod laws;
pub mod rules;
mod values;
