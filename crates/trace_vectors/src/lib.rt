//! Tests of the whole library: worked examples of the format, with their bytes written out.
#![tactic(auto)]

#[cfg(test)]
mod tests;
