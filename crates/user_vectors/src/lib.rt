//! Tests of the crates over the library: worked examples, and calls of each size.
#![tactic(auto)]

#[cfg(test)]
mod tests;
