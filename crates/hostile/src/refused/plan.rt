//! What a list of calls answers and writes where no growth is refused.

use crate::refused::asks::{Ask, make};
use dial9_trace_format::encoder::{Encoder, Reply};
use dial9_trace_format::leb128::{EncodeError, TraceWrite};
use std::alloc::{AllocError, Global};

/// How many bytes a header has.
pub const HEADER: usize = 5;

/// A call, its reply, and how many bytes the encoder has written before and after it.
#[derive(Drop)]
pub struct Planned {
    pub ask: Ask,
    pub reply: Reply,
    pub start: usize,
    pub end: usize,
}

/// The calls of an encoder, and its bytes.
#[derive(Drop)]
pub struct Plan {
    pub calls: Vec<Planned>,
    pub bytes: Vec<u8>,
}

/// The plan of these calls. `AllocError` where a growth was refused.
pub fn plan_of(alloc: Global, asks: Vec<Ask>) -> Result<Plan, AllocError> {
    let mut encoder = new_encoder(alloc)?;
    match plan_calls(alloc, &mut encoder, asks) {
        Ok(calls) => Ok(Plan {
            calls,
            bytes: encoder.finish(),
        }),
        Err(error) => Err(error),
    }
}

fn plan_calls(
    alloc: Global,
    encoder: &mut Encoder,
    asks: Vec<Ask>,
) -> Result<Vec<Planned>, AllocError> {
    let mut calls = Vec::new(alloc);
    for ask in asks {
        calls.push(make_planned(encoder, ask))?;
    }
    Ok(calls)
}

fn make_planned(encoder: &mut Encoder, ask: Ask) -> Planned {
    let start = encoder.as_inner().len();
    let reply = make(encoder, &ask);
    let end = encoder.as_inner().len();
    Planned {
        ask,
        reply,
        start,
        end,
    }
}

/// `Encoder::new`. `AllocError` where a growth was refused.
pub fn new_encoder(alloc: Global) -> Result<Encoder, AllocError> {
    match Encoder::new(alloc) {
        Ok(encoder) => Ok(encoder),
        Err(_) => Err(AllocError),
    }
}

/// Makes the call, and answers whether it has the reply that it is to have.
pub fn replies<W: TraceWrite + Drop>(encoder: &mut Encoder<W>, call: &Planned) -> bool {
    make(encoder, &call.ask) == call.reply
}

/// Makes the call, and answers whether it is told that the encoder has failed.
pub fn fails<W: TraceWrite + Drop>(encoder: &mut Encoder<W>, call: &Planned) -> bool {
    make(encoder, &call.ask) == Reply::Refused(EncodeError::Failed)
}

/// Makes the calls, and answers whether each has the reply that it is to have.
pub fn plays<W: TraceWrite + Drop>(encoder: &mut Encoder<W>, calls: &[Planned]) -> bool {
    let mut right = true;
    for call in calls {
        right &= replies(encoder, call);
    }
    right
}

/// Makes the calls, and answers whether each is told that the encoder has failed.
pub fn all_fail<W: TraceWrite + Drop>(encoder: &mut Encoder<W>, calls: &[Planned]) -> bool {
    let mut right = true;
    for call in calls {
        right &= fails(encoder, call);
    }
    right
}
