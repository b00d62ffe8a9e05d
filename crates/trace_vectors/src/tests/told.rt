//! Scripts of writers that fail, and what such a writer tells.

use std::io::ErrorKind;
use std::process::Abort;
use trace_samples::{Failing, Fault, Manner, Told};
use trace_values::leb128::Faults;

/// Ways to fail: an error, an interrupted write, and the answer 0.
pub const KINDS: [Fault; 3] = [
    Fault::Error(ErrorKind::BrokenPipe),
    Fault::Error(ErrorKind::Interrupted),
    Fault::Zero,
];

/// Takes so many bytes at most at a time, and never fails.
pub fn stepping(most: usize) -> Manner {
    Manner {
        most,
        ..Manner::SOUND
    }
}

/// Takes so many bytes at most at a time, and fails so at this place.
pub fn breaking(most: usize, place: usize, fault: Fault) -> Manner {
    Manner {
        most,
        place,
        failing: Failing::Always(fault),
        settling: None,
    }
}

/// The same, but failing once.
pub fn once(manner: Manner) -> Manner {
    Manner {
        failing: Failing::Once(manner.failing.next_fault()),
        ..manner
    }
}

/// Fails to settle alone, by this kind of error.
pub fn unsettling(kind: ErrorKind) -> Manner {
    Manner {
        settling: Some(kind),
        ..Manner::SOUND
    }
}

/// The kind of the fault by which `send` fails.
pub fn kind_of(manner: Manner) -> ErrorKind {
    match manner.failing.next_fault() {
        Fault::Zero => ErrorKind::WriteZero,
        Fault::Error(kind) => kind,
    }
}

/// The writer tells these bytes, these faults, and whether it is settled.
pub fn tells(told: &Told, bytes: &[u8], faults: Faults, settled: bool) -> bool {
    told.bytes() == bytes && told.faults() == faults && told.is_settled() == settled
}

/// The writer tells so.
pub fn check_told(rt: &impl Abort, told: &Told, bytes: &[u8], faults: Faults, settled: bool) {
    assert!(rt; tells(told, bytes, faults, settled));
}
