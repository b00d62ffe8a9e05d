//! Events of a trace as rows of tables, one table a schema (docs/FORMAT.md, "Tables").
#![tactic(auto)]

pub mod cells;
pub mod columns;
pub mod files;
pub mod kinds;
pub mod laws;
pub mod manifest;
pub mod tables;
