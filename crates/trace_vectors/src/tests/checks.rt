//! What several tests compare. Each function holds one comparison or two, so that proofs of those that make many stay
//! small.

use crate::tests::calls::{all, decoder_of};
use dial9_trace_format::decoder::Decoder;
use std::alloc::Global;
use std::process::Abort;

/// The bytes are these.
pub fn check_bytes(rt: &impl Abort, found: &[u8], wanted: &[u8]) {
    assert!(rt; found == wanted);
}

/// How many frames `decode_all` gives.
pub fn count_all(rt: &impl Abort, decoder: &mut Decoder<'_>) -> usize {
    all(rt, decoder).len()
}

/// `decode_all` gives so many frames, and the place is then this one.
pub fn reads_all(rt: &impl Abort, alloc: Global, bytes: &[u8], count: usize, place: usize) -> bool {
    let mut decoder = decoder_of(rt, alloc, bytes);
    count_all(rt, &mut decoder) == count && decoder.position() == place
}
