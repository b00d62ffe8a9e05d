//! Bytes, numbers and values sent to a writer that fails: what was answered, and what the writer tells of it.

use crate::tests::told::{KINDS, breaking, check_told, kind_of, once, stepping, unsettling};
use dial9_trace_format::leb128::{EncodeError, encode_unsigned};
use dial9_trace_format::types::FieldValue;
use std::alloc::Global;
use std::io::ErrorKind;
use std::process::Abort;
use trace_samples::{Manner, Told};
use trace_values::leb128::{Faults, send_all, send_bytes};

/// A call that sends to a writer.
#[derive(Clone, Copy)]
enum Work {
    All,
    Bytes,
    Number,
    Value,
}

const EACH: [Work; 4] = [Work::All, Work::Bytes, Work::Number, Work::Value];

/// The bytes that are sent: the number 2^63 and the text `hello`, as docs/FORMAT.md spells them.
fn bytes_of(work: Work) -> &'static [u8] {
    match work {
        Work::All => b"all of it",
        Work::Bytes => b"bytes",
        Work::Number => &[0x80, 0x80, 0x80, 0x80, 0x80, 0x80, 0x80, 0x80, 0x80, 0x01],
        Work::Value => &[0x05, 0x00, 0x00, 0x00, 0x68, 0x65, 0x6C, 0x6C, 0x6F],
    }
}

/// `send_all`, with its kind of fault as an error; what it says to have been accepted is what the writer took.
fn all(rt: &impl Abort, told: &mut Told, bytes: &[u8]) -> Result<(), EncodeError> {
    let before = told.bytes().len();
    match send_all(told, bytes) {
        Ok(()) => Ok(()),
        Err(stop) => {
            assert!(rt; before.checked_add(stop.accepted) == Some(told.bytes().len()));
            Err(EncodeError::Writer(stop.kind))
        }
    }
}

/// The text `hello`, by its own kind.
fn value(alloc: Global, told: &mut Told) -> Result<(), EncodeError> {
    FieldValue::string(alloc, "hello")?.encode(alloc, told)
}

/// Makes the call.
fn make(rt: &impl Abort, alloc: Global, told: &mut Told, work: Work) -> Result<(), EncodeError> {
    match work {
        Work::All => all(rt, told, bytes_of(Work::All)),
        Work::Bytes => send_bytes(told, bytes_of(Work::Bytes)),
        Work::Number => encode_unsigned(1 << 63, told),
        Work::Value => value(alloc, told),
    }
}

/// The call stops where the writer fails, and answers its fault. It is not tried again.
fn check_stopped(rt: &impl Abort, alloc: Global, work: Work, manner: Manner) -> Told {
    let mut told = Told::new(manner);
    let kind = kind_of(manner);
    let answer = make(rt, alloc, &mut told, work);
    assert!(rt; answer == Err(EncodeError::Writer(kind)));
    let sent = bytes_of(work).get(..manner.place).unwrap_or(&[]);
    check_told(rt, &told, sent, Faults::OneFault(kind), sent.is_empty());
    told
}

/// The same call made again stops at the same place: the writer then tells more faults.
fn check_stopped_again(rt: &impl Abort, alloc: Global, work: Work, manner: Manner) {
    let mut told = check_stopped(rt, alloc, work, manner);
    let answer = make(rt, alloc, &mut told, work);
    assert!(rt; answer == Err(EncodeError::Writer(kind_of(manner))));
    let sent = bytes_of(work).get(..manner.place).unwrap_or(&[]);
    check_told(rt, &told, sent, Faults::MoreFaults, sent.is_empty());
}

/// The same call made again sends all, where the writer failed once.
fn check_sent_again(rt: &impl Abort, alloc: Global, work: Work, manner: Manner) {
    let mut told = check_stopped(rt, alloc, work, once(manner));
    let answer = make(rt, alloc, &mut told, work);
    assert!(rt; answer == Ok(()));
    let (front, again) = told
        .bytes()
        .split_at_checked(manner.place)
        .unwrap_or((&[], &[]));
    assert!(rt; Some(front) == bytes_of(work).get(..manner.place));
    assert!(rt; again == bytes_of(work));
    assert!(rt; told.faults() == Faults::OneFault(kind_of(manner)));
    assert!(rt; !told.is_settled());
}

/// The call over writers that fail at each place of what it sends, each way, always and once, in steps of this size.
fn check_each_place(rt: &impl Abort, alloc: Global, work: Work, step: usize) {
    for place in 0..bytes_of(work).len() {
        for refusal in KINDS {
            check_stopped_again(rt, alloc, work, breaking(step, place, refusal));
            check_sent_again(rt, alloc, work, breaking(step, place, refusal));
        }
    }
}

#[test]
fn sending_stops_where_the_writer_fails(rt: HostRuntime) {
    for work in EACH {
        check_each_place(&rt, rt.alloc(), work, 1);
        check_each_place(&rt, rt.alloc(), work, 4);
        check_each_place(&rt, rt.alloc(), work, 1_024);
    }
}

/// The call over a writer that does not fail, or would fail to settle: all is sent, and nothing settled.
fn check_whole(rt: &impl Abort, alloc: Global, work: Work, manner: Manner) {
    let mut told = Told::new(manner);
    assert!(rt; make(rt, alloc, &mut told, work) == Ok(()));
    check_told(rt, &told, bytes_of(work), Faults::NoFault, false);
}

#[test]
fn all_is_sent_in_any_steps(rt: HostRuntime) {
    for work in EACH {
        for step in [1, 2, 3, 1_024usize] {
            check_whole(&rt, rt.alloc(), work, stepping(step));
        }
        check_whole(&rt, rt.alloc(), work, unsettling(ErrorKind::StorageFull));
    }
}

#[test]
fn nothing_is_sent_of_no_bytes(rt: HostRuntime) {
    for refusal in KINDS {
        let mut told = Told::new(breaking(1, 0, refusal));
        send_bytes(&mut told, &[]).expect(&rt, "no refusal");
        check_told(&rt, &told, &[], Faults::NoFault, true);
    }
}
