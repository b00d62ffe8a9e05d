//! Events of the sample types, from values.

ghost use Rattle.std.specs.Prelude.{◌≡◌, IfOk, IfSome, map};
ghost use Rattle.trace_values.specs.Values.{number};
ghost use Rattle.trace_values.specs.ValueViews.{views};
ghost use Rattle.trace_samples.specs.OptionalFields.{optional_numbers, optional_texts};
ghost use Rattle.trace_recordings.specs.Events.{wide_numbers};

use crate::typed::Unheld;
use crate::typed::fields::HoldsValue;
use std::alloc::Global;
use trace_samples::events::{
    AlsoByName, Annotated, Borrowed, ByName, Dynamic, FastSlot, LastSlot, Nameless, Numbers,
    OptionalNumbers, OptionalTexts, Options, Poll, PollAgain, PollAnnotated, SlotClash, Stacks,
    Texts, Wide,
};
use trace_values::types::{
    BytesField, F64Bits, FieldValue, InternedStackFrames, InternedString, StackFrames, StrField,
};
use trace_writer::event::TraceEvent;

/// An event that can be made from a time and values.
pub trait HoldsValues<'a>: TraceEvent {
    /// The event of this time with these values. `Unfit` where there are not as many as fields, or one does not fit
    /// its field; `Memory` where a growth was refused.
    fn of_values(alloc: Global, time: u64, values: &'a [FieldValue]) -> Result<Self, Unheld>
        ensures time { IfOk result (λ e. Self.time e ≡ time) }
        ensures values { IfOk result (λ e. Self.values e ≡ views values.now) };
}

impl<'a> HoldsValues<'a> for FastSlot {
    fn of_values(_: Global, time: u64, values: &'a [FieldValue]) -> Result<FastSlot, Unheld> {
        match values {
            [] => Ok(FastSlot { time }),
            _ => Err(Unheld::Unfit),
        }
    }
}

impl<'a> HoldsValues<'a> for Poll {
    fn of_values(alloc: Global, time: u64, values: &'a [FieldValue]) -> Result<Poll, Unheld> {
        let [worker, cpu, label] = values else {
            return Err(Unheld::Unfit);
        };
        Ok(Poll {
            time,
            worker: u64::of_value(alloc, worker)?,
            cpu: Option::<u32>::of_value(alloc, cpu)?,
            label: InternedString::of_value(alloc, label)?,
        })
    }
}

impl<'a> HoldsValues<'a> for Texts {
    fn of_values(alloc: Global, time: u64, values: &'a [FieldValue]) -> Result<Texts, Unheld> {
        let [text, blob, pairs] = values else {
            return Err(Unheld::Unfit);
        };
        Ok(Texts {
            time,
            text: String::of_value(alloc, text)?,
            blob: Vec::<u8>::of_value(alloc, blob)?,
            pairs: Vec::<(String, String)>::of_value(alloc, pairs)?,
        })
    }
}

impl<'a> HoldsValues<'a> for Stacks {
    fn of_values(alloc: Global, time: u64, values: &'a [FieldValue]) -> Result<Stacks, Unheld> {
        let [frames, stack] = values else {
            return Err(Unheld::Unfit);
        };
        Ok(Stacks {
            time,
            frames: StackFrames::of_value(alloc, frames)?,
            stack: InternedStackFrames::of_value(alloc, stack)?,
        })
    }
}

impl<'a> HoldsValues<'a> for Annotated {
    fn of_values(alloc: Global, time: u64, values: &'a [FieldValue]) -> Result<Annotated, Unheld> {
        let [load] = values else {
            return Err(Unheld::Unfit);
        };
        Ok(Annotated {
            time,
            load: u8::of_value(alloc, load)?,
        })
    }
}

impl<'a> HoldsValues<'a> for LastSlot {
    fn of_values(alloc: Global, time: u64, values: &'a [FieldValue]) -> Result<LastSlot, Unheld> {
        let [number] = values else {
            return Err(Unheld::Unfit);
        };
        Ok(LastSlot {
            time,
            number: u16::of_value(alloc, number)?,
        })
    }
}

impl<'a> HoldsValues<'a> for ByName {
    fn of_values(_: Global, time: u64, values: &'a [FieldValue]) -> Result<ByName, Unheld> {
        match values {
            [] => Ok(ByName { time }),
            _ => Err(Unheld::Unfit),
        }
    }
}

impl<'a> HoldsValues<'a> for Dynamic {
    fn of_values(alloc: Global, time: u64, values: &'a [FieldValue]) -> Result<Dynamic, Unheld> {
        let [items, table] = values else {
            return Err(Unheld::Unfit);
        };
        Ok(Dynamic {
            time,
            items: items.clone(alloc)?,
            table: table.clone(alloc)?,
        })
    }
}

impl<'a> HoldsValues<'a> for PollAgain {
    fn of_values(alloc: Global, time: u64, values: &'a [FieldValue]) -> Result<PollAgain, Unheld> {
        let [worker, core] = values else {
            return Err(Unheld::Unfit);
        };
        Ok(PollAgain {
            time,
            worker: u64::of_value(alloc, worker)?,
            core: u8::of_value(alloc, core)?,
        })
    }
}

impl<'a> HoldsValues<'a> for PollAnnotated {
    fn of_values(
        alloc: Global,
        time: u64,
        values: &'a [FieldValue],
    ) -> Result<PollAnnotated, Unheld> {
        Ok(PollAnnotated(Poll::of_values(alloc, time, values)?))
    }
}

impl<'a> HoldsValues<'a> for SlotClash {
    fn of_values(_: Global, time: u64, values: &'a [FieldValue]) -> Result<SlotClash, Unheld> {
        match values {
            [] => Ok(SlotClash { time }),
            _ => Err(Unheld::Unfit),
        }
    }
}

impl<'a> HoldsValues<'a> for AlsoByName {
    fn of_values(alloc: Global, time: u64, values: &'a [FieldValue]) -> Result<AlsoByName, Unheld> {
        let [amount] = values else {
            return Err(Unheld::Unfit);
        };
        Ok(AlsoByName {
            time,
            amount: i64::of_value(alloc, amount)?,
        })
    }
}

impl<'a> HoldsValues<'a> for Nameless {
    fn of_values(alloc: Global, time: u64, values: &'a [FieldValue]) -> Result<Nameless, Unheld> {
        let [flag] = values else {
            return Err(Unheld::Unfit);
        };
        Ok(Nameless {
            time,
            flag: bool::of_value(alloc, flag)?,
        })
    }
}

impl<'a> HoldsValues<'a> for Numbers {
    fn of_values(alloc: Global, time: u64, values: &'a [FieldValue]) -> Result<Numbers, Unheld> {
        let [byte, short, word, long, signed, real, flag] = values else {
            return Err(Unheld::Unfit);
        };
        Ok(Numbers {
            time,
            byte: u8::of_value(alloc, byte)?,
            short: u16::of_value(alloc, short)?,
            word: u32::of_value(alloc, word)?,
            long: u64::of_value(alloc, long)?,
            signed: i64::of_value(alloc, signed)?,
            real: F64Bits::of_value(alloc, real)?,
            flag: bool::of_value(alloc, flag)?,
        })
    }
}

impl<'a> HoldsValues<'a> for Borrowed<'a> {
    fn of_values(
        alloc: Global,
        time: u64,
        values: &'a [FieldValue],
    ) -> Result<Borrowed<'a>, Unheld> {
        let [path, body, note, rest] = values else {
            return Err(Unheld::Unfit);
        };
        Ok(Borrowed {
            time,
            path: StrField::of_value(alloc, path)?,
            body: BytesField::of_value(alloc, body)?,
            note: Option::<StrField>::of_value(alloc, note)?,
            rest: Option::<BytesField>::of_value(alloc, rest)?,
        })
    }
}

impl<'a> HoldsValues<'a> for Options {
    fn of_values(alloc: Global, time: u64, values: &'a [FieldValue]) -> Result<Options, Unheld> {
        let (first, last) = values.split_at_checked(7).ok_or(Unheld::Unfit)?;
        let numbers = optional_numbers_of(alloc, first)?;
        let texts = optional_texts_of(alloc, last)?;
        Ok(Options {
            time,
            numbers,
            texts,
        })
    }
}

// Numbers and a truth value that may be absent, from their values.
fn optional_numbers_of(alloc: Global, values: &[FieldValue]) -> Result<OptionalNumbers, Unheld>
    ensures { IfOk result (λ fields. optional_numbers fields ≡ views values.now) }
{
    let [byte, short, word, long, signed, real, flag] = values else {
        return Err(Unheld::Unfit);
    };
    Ok(OptionalNumbers {
        byte: Option::<u8>::of_value(alloc, byte)?,
        short: Option::<u16>::of_value(alloc, short)?,
        word: Option::<u32>::of_value(alloc, word)?,
        long: Option::<u64>::of_value(alloc, long)?,
        signed: Option::<i64>::of_value(alloc, signed)?,
        real: Option::<F64Bits>::of_value(alloc, real)?,
        flag: Option::<bool>::of_value(alloc, flag)?,
    })
}

// Texts, bytes, stacks and ids that may be absent, from their values.
fn optional_texts_of(alloc: Global, values: &[FieldValue]) -> Result<OptionalTexts, Unheld>
    ensures { IfOk result (λ fields. optional_texts fields ≡ views values.now) }
{
    let [text, blob, frames, label, stack, pairs] = values else {
        return Err(Unheld::Unfit);
    };
    Ok(OptionalTexts {
        text: Option::<String>::of_value(alloc, text)?,
        blob: Option::<Vec<u8>>::of_value(alloc, blob)?,
        frames: Option::<StackFrames>::of_value(alloc, frames)?,
        label: Option::<InternedString>::of_value(alloc, label)?,
        stack: Option::<InternedStackFrames>::of_value(alloc, stack)?,
        pairs: Option::<Vec<(String, String)>>::of_value(alloc, pairs)?,
    })
}

impl<'a> HoldsValues<'a> for Wide {
    fn of_values(alloc: Global, time: u64, values: &'a [FieldValue]) -> Result<Wide, Unheld> {
        let numbers = numbers_of(alloc, values)?;
        wide_of(time, &numbers).ok_or(Unheld::Unfit)
    }
}

// The event of twenty numbers.
fn wide_of(time: u64, numbers: &[u64]) -> Option<Wide>
    ensures time { IfSome result (λ e. e.time ≡ time) }
    ensures numbers { IfSome result (λ e. wide_numbers e ≡ numbers.now) }
{
    if numbers.len() != 20 {
        return None;
    }
    Some(Wide {
        time,
        v0: numbers[0],
        v1: numbers[1],
        v2: numbers[2],
        v3: numbers[3],
        v4: numbers[4],
        v5: numbers[5],
        v6: numbers[6],
        v7: numbers[7],
        v8: numbers[8],
        v9: numbers[9],
        v10: numbers[10],
        v11: numbers[11],
        v12: numbers[12],
        v13: numbers[13],
        v14: numbers[14],
        v15: numbers[15],
        v16: numbers[16],
        v17: numbers[17],
        v18: numbers[18],
        v19: numbers[19],
    })
}

// The numbers that these values are.
fn numbers_of(alloc: Global, values: &[FieldValue]) -> Result<Vec<u64>, Unheld>
    ensures { IfOk result (λ numbers. map number numbers.items ≡ views values.now) }
{
    let mut numbers = Vec::new(alloc);
    for value in values {
        let number = u64::of_value(alloc, value)?;
        numbers.push(number)?;
    }
    Ok(numbers)
}
