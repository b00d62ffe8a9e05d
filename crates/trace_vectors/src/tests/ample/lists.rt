//! Lists of calls of each length.

use crate::tests::ample::SIZES;
use crate::tests::calls::{fresh, run};
use dial9_trace_format::encoder::{Call, Reply};
use std::alloc::Global;
use std::process::Abort;

/// So many calls that intern the empty text.
fn empty_texts(rt: &impl Abort, alloc: Global, count: usize) -> Vec<Call> {
    let mut calls = Vec::new(alloc);
    for _ in 0..count {
        let call = Call::InternString(String::new(alloc));
        calls.push(call).expect(rt, "memory");
    }
    calls
}

/// How many of the replies are no refusals.
fn count_answered(replies: &[Reply]) -> usize {
    let mut count: usize = 0;
    for reply in replies {
        if !matches!(reply, Reply::Refused(_)) {
            count = count.saturating_add(1);
        }
    }
    count
}

/// The replies of a new encoder to these calls.
fn replies_to(rt: &impl Abort, alloc: Global, calls: &[Call]) -> Vec<Reply> {
    let mut encoder = fresh(rt, alloc);
    run(rt, alloc, &mut encoder, calls)
}

/// So many calls are all answered.
fn are_answered(rt: &impl Abort, alloc: Global, count: usize) -> bool {
    let calls = empty_texts(rt, alloc, count);
    let replies = replies_to(rt, alloc, &calls);
    replies.len() == count && count_answered(&replies) == count
}

#[test]
fn lists_of_calls_of_each_count(rt: HostRuntime) {
    for count in SIZES {
        assert!(rt; are_answered(&rt, rt.alloc(), count));
    }
}
