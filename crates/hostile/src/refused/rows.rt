//! The trace of one event over an array: what stands there at each refusal.

use crate::refused::asks::asks_of;
use crate::refused::encoding::{Hashing, InArray, turn_of};
use crate::refused::plan::{Plan, plan_of};
use crate::refused::sweep::sweep;
use crate::refused::verdict::{Counts, Verdict};
use std::alloc::{AllocError, Global};
use worked_traces::{Worked, bytes_of, parts_of};

/// How many bytes of the trace stand in the array before each call: the header before the registration, the schema too
/// before the event.
const STARTS: [usize; 2] = [5, 19];

/// The calls of the trace of one event.
fn plan_of_one_event(alloc: Global) -> Result<Plan, AllocError> {
    match parts_of(alloc, Worked::OneEvent)?.pop() {
        Some(steps) => plan_of(alloc, asks_of(alloc, steps)?),
        None => Err(AllocError),
    }
}

/// Whether the calls are those, and write the bytes of that trace.
fn is_row(plan: &Plan) -> bool {
    let mut right = plan.bytes.as_slice() == bytes_of(Worked::OneEvent);
    for (call, start) in plan.calls.iter().zip(STARTS) {
        right &= call.start == start;
    }
    right & (plan.calls.len() == STARTS.len())
}

/// Each growth of the registration, and of the event.
pub fn sweep_row(alloc: Global, counts: &mut Counts) -> Result<(), AllocError> {
    let plan = plan_of_one_event(alloc)?;
    if !is_row(&plan) {
        counts.add(Verdict::Wrong);
    }
    for index in 0..STARTS.len() {
        if let Some(turn) = turn_of(&plan, index, Hashing::Fixed) {
            sweep(alloc, &InArray(turn), counts);
        }
    }
    Ok(())
}
