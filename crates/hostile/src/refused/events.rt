//! Events of types, as calls.

use crate::refused::asks::Ask;
use crate::refused::samples::nested;
use dial9_trace_format::types::{
    F64Bits, FieldValue, InternedStackFrames, InternedString, StackFrames,
};
use std::alloc::{AllocError, Global};
use trace_samples::events::{
    Annotated, ByName, Dynamic, FastSlot, LastSlot, Numbers, OptionalNumbers, OptionalTexts,
    Options, Poll, Stacks, Texts, Wide,
};

/// An event of a type.
#[derive(Clone, Copy)]
enum Plain {
    LastSlot,
    Annotated,
    ByName,
    PollThere,
    PollElsewhere,
    Numbers,
    Wide,
}

const PLAIN: &[Plain] = &[
    Plain::LastSlot,
    Plain::Annotated,
    Plain::ByName,
    Plain::PollThere,
    Plain::PollElsewhere,
    Plain::Numbers,
    Plain::Wide,
];

/// Events of types, each with what it takes to be written the first time and once more.
pub fn push_types(asks: &mut Vec<Ask>) -> Result<(), AllocError> {
    asks.push(Ask::FastSlot(FastSlot { time: 1_000_000 }))?;
    push_types_at(1_000_001, asks)?;
    push_types_at(1_000_002, asks)?;
    asks.push(Ask::Flush)?;
    Ok(())
}

fn push_types_at(time: u64, asks: &mut Vec<Ask>) -> Result<(), AllocError> {
    asks.push(Ask::FastSlot(FastSlot { time }))?;
    for plain in PLAIN {
        asks.push(plain_at(*plain, time))?;
    }
    Ok(())
}

fn plain_at(plain: Plain, time: u64) -> Ask {
    match plain {
        Plain::LastSlot => Ask::LastSlot(LastSlot { time, number: 9 }),
        Plain::Annotated => Ask::Annotated(Annotated { time, load: 9 }),
        Plain::ByName => Ask::ByName(ByName { time }),
        Plain::PollThere => Ask::Poll(poll(time, Some(7))),
        Plain::PollElsewhere => Ask::Poll(poll(time, None)),
        Plain::Numbers => Ask::Numbers(numbers(time)),
        Plain::Wide => Ask::Wide(wide_event(time)),
    }
}

/// An event of a type whose values own memory.
#[derive(Clone, Copy)]
enum Owning {
    Texts(u64),
    Stacks(u64),
    Dynamic(u64),
    Options(u64),
    /// Whose values do not fit.
    Misfit(u64),
}

const OWNING: &[Owning] = &[
    Owning::Texts(3),
    Owning::Stacks(3),
    Owning::Dynamic(3),
    Owning::Options(3),
    Owning::Texts(20_000_000),
    Owning::Stacks(20_000_000),
    Owning::Dynamic(20_000_000),
    Owning::Options(20_000_000),
    Owning::Misfit(4),
];

/// The same of types whose values own memory.
pub fn push_types_that_own(alloc: Global, asks: &mut Vec<Ask>) -> Result<(), AllocError> {
    for owning in OWNING {
        asks.push(owning_of(alloc, *owning)?)?;
    }
    asks.push(Ask::Flush)?;
    Ok(())
}

fn owning_of(alloc: Global, owning: Owning) -> Result<Ask, AllocError> {
    match owning {
        Owning::Texts(time) => texts(alloc, time),
        Owning::Stacks(time) => stacks(alloc, time),
        Owning::Dynamic(time) => dynamic(alloc, time, FieldValue::Map(Vec::new(alloc))),
        Owning::Options(time) => options(alloc, time),
        Owning::Misfit(time) => dynamic(alloc, time, FieldValue::None),
    }
}

fn dynamic(alloc: Global, time: u64, table: FieldValue) -> Result<Ask, AllocError> {
    Ok(Ask::Dynamic(Dynamic {
        time,
        items: nested(alloc)?,
        table,
    }))
}

fn poll(time: u64, cpu: Option<u32>) -> Poll {
    Poll {
        time,
        worker: 3,
        cpu,
        label: InternedString::from_raw(0),
    }
}

fn numbers(time: u64) -> Numbers {
    Numbers {
        time,
        byte: 1,
        short: 2,
        word: 3,
        long: 4,
        signed: -5,
        real: F64Bits(6),
        flag: true,
    }
}

/// An event of twenty numbers.
pub fn wide_event(time: u64) -> Wide {
    Wide {
        time,
        v0: 0,
        v1: 1,
        v2: 2,
        v3: 3,
        v4: 4,
        v5: 5,
        v6: 6,
        v7: 7,
        v8: 8,
        v9: 9,
        v10: 10,
        v11: 11,
        v12: 12,
        v13: 13,
        v14: 14,
        v15: 15,
        v16: 16,
        v17: 17,
        v18: 18,
        v19: 19,
    }
}

fn texts(alloc: Global, time: u64) -> Result<Ask, AllocError> {
    Ok(Ask::Texts(Texts {
        time,
        text: String::from_str(alloc, "some text of some length")?,
        blob: Vec::from_slice(alloc, b"\xff\xfe")?,
        pairs: pairs(alloc)?,
    }))
}

/// A list of one pair of texts.
fn pairs(alloc: Global) -> Result<Vec<(String, String)>, AllocError> {
    let key = String::from_str(alloc, "key")?;
    let value = String::from_str(alloc, "value")?;
    Ok(vec![in alloc; (key, value)]?)
}

fn stacks(alloc: Global, time: u64) -> Result<Ask, AllocError> {
    Ok(Ask::Stacks(Stacks {
        time,
        frames: StackFrames::from_slice(alloc, &[7, 8])?,
        stack: InternedStackFrames::from_raw(0),
    }))
}

fn options(alloc: Global, time: u64) -> Result<Ask, AllocError> {
    Ok(Ask::Options(Options {
        time,
        numbers: optional_numbers(),
        texts: optional_texts(alloc)?,
    }))
}

fn optional_numbers() -> OptionalNumbers {
    OptionalNumbers {
        byte: Some(1),
        short: None,
        word: Some(3),
        long: Some(4),
        signed: None,
        real: Some(F64Bits(6)),
        flag: Some(true),
    }
}

fn optional_texts(alloc: Global) -> Result<OptionalTexts, AllocError> {
    let text = String::from_str(alloc, "a text")?;
    let frames = StackFrames::from_slice(alloc, &[1])?;
    let pairs = pairs(alloc)?;
    Ok(OptionalTexts {
        text: Some(text),
        blob: None,
        frames: Some(frames),
        label: Some(InternedString::from_raw(0)),
        stack: None,
        pairs: Some(pairs),
    })
}
