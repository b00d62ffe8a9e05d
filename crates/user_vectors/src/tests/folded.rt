//! Stacks and their lines, worked out by hand after docs/FORMAT.md. `gotymbe` has those of events (`runs/fold_counts`).

use dial9_trace_format::decoder::Decoder;
use dial9_trace_format::types::{FieldValue, InternedStackFrames};
use trace_folded::stack::first_stack;
use trace_folded::tally::{FoldError, FoldedStacks};
use trace_wire::pools::StackPool;

/// A stack pool: under 7 the addresses 0x10 and 0x20.
const POOL: [u8; 34] = [
    0x54, 0x52, 0x43, 0x00, 0x01, // header
    0x04, 0x01, 0x00, 0x00, 0x00, // a stack pool of one stack
    0x07, 0x00, 0x00, 0x00, 0x02, 0x00, 0x00, 0x00, // 7, of two addresses
    0x10, 0x00, 0x00, 0x00, 0x00, 0x00, 0x00, 0x00, // 0x10
    0x20, 0x00, 0x00, 0x00, 0x00, 0x00, 0x00, 0x00, // 0x20
];

/// The value of the id of a stack.
fn of(id: u32) -> FieldValue {
    FieldValue::PooledStackFrames(InternedStackFrames::from_raw(id))
}

/// The first of these values whose id has a stack of the pool is that of 7.
fn has_stack(pool: &StackPool) -> bool {
    let values = [FieldValue::Varint(1), of(8), of(7)];
    first_stack(&values, pool) == Some(&[0x10, 0x20][..])
        && first_stack(&values[..2], pool).is_none()
}

#[test]
fn stacks_of_events(rt: HostRuntime) {
    let mut decoder = Decoder::new(rt.alloc(), &POOL).expect(&rt, "a header");
    let mut values = Vec::new(rt.alloc());
    assert!(rt;
        decoder
            .next_event_into(&mut values)
            .expect(&rt, "frames")
            .is_none()
    );
    assert!(rt; has_stack(decoder.stack_pool()));
}

/// Stacks, and a number of each, one after the other.
const MORE: [(&[u64], u64); 4] = [
    (&[0x10, 0x20], 2),
    (&[0xff, 0x20], 1),
    (&[0x10, 0x20], 3),
    (&[], 7),
];

#[test]
fn lines_of_stacks(rt: HostRuntime) {
    let mut stacks = FoldedStacks::new(rt.alloc());
    assert!(rt; are_lines(&stacks, ""));
    for (stack, more) in MORE {
        stacks.add(stack, more).expect(&rt, "no refusal");
    }
    assert!(rt; are_lines(&stacks, "0x20;0x10 5\n0x20;0xff 1\nnone 7\n"));
}

/// Stacks of one address, with a number of each, and what the call answers, one after the other.
const GREAT: [(u64, u64, Result<(), FoldError>); 4] = [
    (1, u64::MAX, Ok(())),
    (1, 0, Ok(())),
    (1, 1, Err(FoldError::Full)),
    (2, 1, Ok(())),
];

#[test]
fn numbers_that_pass_64_bits(rt: HostRuntime) {
    let mut stacks = FoldedStacks::new(rt.alloc());
    for (address, more, answer) in GREAT {
        assert!(rt; stacks.add(&[address], more) == answer);
    }
    assert!(rt; are_lines(&stacks, "0x1 18446744073709551615\n0x2 1\n"));
}

/// The lines are these.
fn are_lines(stacks: &FoldedStacks, wanted: &str) -> bool {
    match stacks.lines() {
        Ok(lines) => lines.as_str() == wanted,
        Err(_) => false,
    }
}
