//! Worked examples of the crates over the library.

mod batches;
mod conversions;
mod cuts;
mod definitions;
mod folded;
mod fronts;
mod json_lines;
mod made;
mod roles;
mod segments;
mod statistics;
mod tables;
mod texts;
mod wide;
