//! The data of a page that shows a trace (viewer/DATA.md).
#![tactic(auto)]

mod clocks;
mod columns;
pub mod data;
pub mod escaping;
pub mod laws;
mod names;
mod numbers;
mod schemas;
pub mod sending;
mod values;
