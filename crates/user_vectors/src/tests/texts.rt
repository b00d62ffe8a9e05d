//! The texts of errors of the crates beside the library.

use std::alloc::Global;
use std::fmt::Display;
use std::io::ErrorKind;
use std::process::Abort;
use trace_cuts::cut::CutError;
use trace_folded::tally::FoldError;
use trace_fronts::salvaging::SalvageError;
use trace_stats::full::Full;
use trace_stats::trace::StatsError;

/// The error is printed so.
fn has_text(rt: &impl Abort, alloc: Global, error: &impl Display, text: &str) -> bool {
    format!(in alloc; "{error}").expect(rt, "memory").as_str() == text
}

const SAVING: [(SalvageError, &str); 2] = [
    (SalvageError::OutOfMemory, "out of memory"),
    (SalvageError::Writer(ErrorKind::BrokenPipe), "writer failed"),
];

#[test]
fn errors_of_saving(rt: HostRuntime) {
    for (error, text) in SAVING {
        assert!(rt; has_text(&rt, rt.alloc(), &error, text));
    }
}

const CUTTING: [(CutError, &str); 2] = [
    (CutError::OutOfMemory, "out of memory"),
    (CutError::Writer(ErrorKind::BrokenPipe), "writer failed"),
];

#[test]
fn errors_of_cutting(rt: HostRuntime) {
    for (error, text) in CUTTING {
        assert!(rt; has_text(&rt, rt.alloc(), &error, text));
    }
}

const COUNTING: [(StatsError, &str); 2] = [
    (StatsError::OutOfMemory, "out of memory"),
    (StatsError::Full, "too many to count"),
];

#[test]
fn errors_of_counting(rt: HostRuntime) {
    for (error, text) in COUNTING {
        assert!(rt; has_text(&rt, rt.alloc(), &error, text));
    }
    assert!(rt; has_text(&rt, rt.alloc(), &Full, "too many to count"));
}

const FOLDING: [(FoldError, &str); 2] = [
    (FoldError::OutOfMemory, "out of memory"),
    (FoldError::Full, "too many to count"),
];

#[test]
fn errors_of_folding(rt: HostRuntime) {
    for (error, text) in FOLDING {
        assert!(rt; has_text(&rt, rt.alloc(), &error, text));
    }
}
