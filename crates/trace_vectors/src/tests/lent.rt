//! A writer that is lent to an encoder that is not made. `crates/failing_writers` lends writers that fail.

ghost use Rattle.trace_samples.specs.Telling.{all_told};

use crate::tests::calls::decoder_of;
use crate::tests::told::{stepping, tells};
use dial9_trace_format::leb128::{EncodeError, TraceWrite};
use std::alloc::Global;
use std::io;
use std::process::Abort;
use trace_samples::Told;
use trace_values::leb128::Faults;

/// A writer that its owner sees again.
#[derive(Drop)]
struct Lent<'a>(&'a mut Told);

impl<'a> TraceWrite for Lent<'a> {
    ghost told = { λ l. all_told l.0.now };

    fn send(&mut self, piece: &[u8]) -> io::Result<usize> {
        self.0.send(piece)
    }

    fn settle(&mut self) -> io::Result<()> {
        self.0.settle()
    }
}

/// A schema under wire id 1, and then another.
const CONFLICT: [u8; 23] = [
    0x54, 0x52, 0x43, 0x00, 0x01, 0x01, 0x01, 0x00, 0x01, 0x00, 0x41, 0x01, 0x00, 0x00, 0x01, 0x01,
    0x00, 0x01, 0x00, 0x42, 0x01, 0x00, 0x00,
];

/// A decoder that failed by a conflict gives no encoder.
fn is_not_resumed(rt: &impl Abort, alloc: Global, told: &mut Told) -> bool {
    let mut decoder = decoder_of(rt, alloc, &CONFLICT);
    let count = decoder.decode_all().expect(rt, "frames").len();
    let refused = decoder.into_encoder(Lent(told)).err();
    count == 1 && refused == Some(EncodeError::Failed)
}

#[test]
fn a_refused_resumption_leaves_its_writer(rt: HostRuntime) {
    let mut told = Told::new(stepping(1));
    assert!(rt; is_not_resumed(&rt, rt.alloc(), &mut told));
    assert!(rt; tells(&told, &[], Faults::NoFault, true));
}
