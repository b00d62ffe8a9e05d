//! The calls of the library for C, and for languages that call C (docs/DOORS.md): over slices and flat structs, with
//! nothing kept between two calls.
#![tactic(auto)]

mod checking;
mod codes;
mod counting;
mod dumping;
mod filling;
mod reading;
mod recording;
