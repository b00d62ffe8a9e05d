//! The calls that are tried, by kinds.

use crate::calls::{all_owned, decoder_of};
use crate::refused::all_frames::sweep_all_frames;
use crate::refused::asks::{Ask, asks_of};
use crate::refused::causes::sweep_causes;
use crate::refused::copies::{sweep_frame, sweep_ref};
use crate::refused::dumping::{DUMPS, Dump, dump_of};
use crate::refused::encoding::{Hashing, InArray, InList, Turn, turn_of};
use crate::refused::events::{push_types, push_types_that_own};
use crate::refused::feeding::{FORMS, Feeding, Form};
use crate::refused::free::{
    OfEncoders, OfRegistries, sweep_decoders, sweep_events, sweep_free_values,
};
use crate::refused::known::{Again, events_again};
use crate::refused::lists::list_of;
use crate::refused::parts::{NewEncoder, sweep_registry, sweep_type};
use crate::refused::plan::{Plan, plan_of};
use crate::refused::raw::sweep_raw;
use crate::refused::reading::Reading;
use crate::refused::resolving::{sweep_fed, sweep_shown};
use crate::refused::resuming::after_trace;
use crate::refused::reusing::sweep_reusing;
use crate::refused::rows::sweep_row;
use crate::refused::runs::{READERS, Reader, Reference, reference_of};
use crate::refused::samples::{SAMPLES, calls_of, nested, with_pools};
use crate::refused::sweep::{sweep, sweep_made};
use crate::refused::values::{sweep_value, sweep_values};
use crate::refused::verdict::{Counts, Verdict};
use crate::refused::written::calls_of_trace;
use dial9_trace_format::encoder::Call;
use reader_agreement::runs::Run;
use std::alloc::{AllocError, Global};
use std::hash::RandomState;
use trace_samples::manner::ROOM;
use worked_traces::{Worked, bytes_of, ends_of, parts_of};

/// What was counted of each kind of calls.
#[derive(Drop)]
pub struct Tallies {
    /// What encoders hash by that hash by a state of the caller's.
    state: RandomState,
    /// The trace of one event over an array.
    pub row: Counts,
    /// Calls of an encoder over an array.
    pub array: Counts,
    /// The same over a list that grows.
    pub list: Counts,
    /// Calls of encoders, over arrays and lists, that hash by a state of the caller's.
    pub seeded: Counts,
    /// Events of schemas and of types that are known.
    pub known: Counts,
    /// Lists of calls.
    pub lists: Counts,
    /// Readers.
    pub readers: Counts,
    /// Decoders that are fed.
    pub fed: Counts,
    /// Why they give no more.
    pub causes: Counts,
    /// Dumps.
    pub dumps: Counts,
    /// Resolved events.
    pub resolved: Counts,
    /// Encoders that go on after a trace.
    pub resumed: Counts,
    /// Copies of frames and values.
    pub copies: Counts,
    /// Values by themselves.
    pub values: Counts,
    /// Schemas, their parts, and registries.
    pub schemas: Counts,
    /// Lists of all frames, which ask for room to spare.
    pub all_frames: Counts,
    /// Calls that take no memory.
    pub free: Counts,
}

impl Tallies {
    /// Nothing was tried. By the state hash those encoders that hash by one of the caller's.
    pub fn new(state: RandomState) -> Tallies {
        let none = Counts::new();
        Tallies {
            state,
            row: none,
            array: none,
            list: none,
            seeded: none,
            known: none,
            lists: none,
            readers: none,
            fed: none,
            causes: none,
            dumps: none,
            resolved: none,
            resumed: none,
            copies: none,
            values: none,
            schemas: none,
            all_frames: none,
            free: none,
        }
    }

    /// Tries calls of each kind that no trace is needed for.
    pub fn try_samples(&mut self, alloc: Global) -> Result<(), AllocError> {
        sweep_row(alloc, &mut self.row)?;
        self.try_events(alloc)?;
        self.try_known(alloc)?;
        for sample in SAMPLES {
            self.try_calls(alloc, calls_of(alloc, *sample)?)?;
        }
        self.try_new(alloc);
        sweep_raw(alloc, &mut self.list);
        sweep_all_frames(alloc, &mut self.all_frames)?;
        sweep_free_values(alloc, &mut self.free);
        sweep_reusing(alloc, &mut self.free)?;
        self.try_nested(alloc)
    }

    /// Tries events of types.
    fn try_events(&mut self, alloc: Global) -> Result<(), AllocError> {
        let mut types = Vec::new(alloc);
        push_types(&mut types)?;
        self.try_asks(alloc, types)?;
        let mut types = Vec::new(alloc);
        push_types_that_own(alloc, &mut types)?;
        self.try_asks(alloc, types)
    }

    /// Tries events of what is known. Their bytes are those of the calls that look whether it is.
    fn try_known(&mut self, alloc: Global) -> Result<(), AllocError> {
        let looking = plan_of(alloc, events_again(alloc, Again::Looking)?)?;
        let known = plan_of(alloc, events_again(alloc, Again::Known)?)?;
        if known.bytes != looking.bytes {
            self.known.add(Verdict::Wrong);
        }
        for index in 0..known.calls.len() {
            if let Some(turn) = turn_of(&known, index, Hashing::Fixed) {
                try_both(alloc, turn, &mut self.known);
            }
        }
        Ok(())
    }

    /// Tries a value that holds others.
    fn try_nested(&mut self, alloc: Global) -> Result<(), AllocError> {
        sweep_value(alloc, &nested(alloc)?, &mut self.values);
        Ok(())
    }

    /// Tries what makes encoders, and the fields of a type.
    fn try_new(&mut self, alloc: Global) {
        sweep_made(alloc, &NewEncoder::OverList, &mut self.list);
        sweep_made(alloc, &NewEncoder::To, &mut self.list);
        sweep_made(alloc, &NewEncoder::Reset, &mut self.list);
        sweep_made(alloc, &NewEncoder::WithHasher(self.state), &mut self.seeded);
        sweep_made(
            alloc,
            &NewEncoder::ToWithHasher(self.state),
            &mut self.seeded,
        );
        sweep_type(alloc, &mut self.schemas);
    }

    /// Tries the calls that write a worked trace, whose bytes and ends are known, and its bytes.
    pub fn try_worked(&mut self, alloc: Global, worked: Worked) -> Result<(), AllocError> {
        let bytes = bytes_of(worked);
        let mut start: usize = 0;
        for (steps, ends) in parts_of(alloc, worked)?.into_iter().zip(ends_of(worked)) {
            let plan = plan_of(alloc, asks_of(alloc, steps)?)?;
            if !is_part(&plan, bytes, start, ends) {
                self.array.add(Verdict::Wrong);
            }
            start = start.saturating_add(plan.bytes.len());
            self.try_plan(alloc, &plan);
        }
        self.try_bytes(alloc, bytes)
    }

    /// Tries the bytes of a trace, and the calls that would write its frames again.
    pub fn try_trace(&mut self, alloc: Global, bytes: &[u8]) -> Result<(), AllocError> {
        self.try_calls(alloc, calls_of_trace(alloc, bytes)?)?;
        self.try_bytes(alloc, bytes)
    }

    /// Tries each of these calls, alone and as a list.
    fn try_calls(&mut self, alloc: Global, calls: Vec<Call>) -> Result<(), AllocError> {
        let listed = list_of(alloc, calls)?;
        sweep(alloc, &listed, &mut self.lists);
        sweep(alloc, &OfEncoders(&listed.calls), &mut self.free);
        self.try_asks(alloc, asks_of_calls(alloc, listed.calls)?)
    }

    /// Tries each of these calls.
    fn try_asks(&mut self, alloc: Global, asks: Vec<Ask>) -> Result<(), AllocError> {
        self.try_plan(alloc, &plan_of(alloc, asks)?);
        Ok(())
    }

    /// Tries each call of a plan, by hashes of both kinds.
    fn try_plan(&mut self, alloc: Global, plan: &Plan) {
        for index in 0..plan.calls.len() {
            if let Some(turn) = turn_of(plan, index, Hashing::Fixed) {
                try_turn(alloc, turn, &mut self.list, &mut self.array);
            }
            if let Some(turn) = turn_of(plan, index, Hashing::Seeded(self.state)) {
                try_both(alloc, turn, &mut self.seeded);
            }
        }
    }

    /// Tries all that reads bytes.
    fn try_bytes(&mut self, alloc: Global, bytes: &[u8]) -> Result<(), AllocError> {
        for dump in DUMPS {
            self.try_dump(alloc, bytes, *dump)?;
        }
        match reference_of(alloc, bytes)? {
            Some(reference) => self.try_read(alloc, &reference),
            None => Ok(()),
        }
    }

    fn try_dump(&mut self, alloc: Global, bytes: &[u8], dump: Dump) -> Result<(), AllocError> {
        sweep(alloc, &dump_of(alloc, bytes, dump)?, &mut self.dumps);
        Ok(())
    }

    /// Tries all that reads the bytes of a trace, and copies what it gives.
    fn try_read(&mut self, alloc: Global, reference: &Reference<'_>) -> Result<(), AllocError> {
        let bytes = reference.bytes;
        self.try_readers(alloc, reference)?;
        self.try_feeders(alloc, reference);
        self.try_frames(alloc, reference);
        sweep_causes(alloc, bytes, &mut self.causes)?;
        sweep_shown(alloc, bytes, &mut self.resolved)?;
        sweep_fed(alloc, bytes, &mut self.resolved);
        sweep_decoders(alloc, bytes, &mut self.free)?;
        sweep_events(alloc, bytes, &mut self.free)?;
        self.try_resumed(alloc, bytes)?;
        self.try_registry(alloc, bytes)
    }

    /// Copies each frame of a trace, and tries its values by themselves.
    fn try_frames(&mut self, alloc: Global, reference: &Reference<'_>) {
        for frame in &reference.owned.frames {
            sweep_frame(alloc, frame, &mut self.copies);
            sweep_values(alloc, frame, &mut self.values);
        }
        for frame in &reference.borrowed.frames {
            sweep_ref(alloc, frame, &mut self.copies);
        }
    }

    /// Has an encoder go on after a trace.
    fn try_resumed(&mut self, alloc: Global, bytes: &[u8]) -> Result<(), AllocError> {
        self.try_resumed_by(alloc, bytes, Hashing::Fixed)?;
        self.try_resumed_by(alloc, bytes, Hashing::Seeded(self.state))
    }

    fn try_resumed_by(
        &mut self,
        alloc: Global,
        bytes: &[u8],
        hashing: Hashing,
    ) -> Result<(), AllocError> {
        match after_trace(alloc, bytes, with_pools(alloc)?, hashing)? {
            Some(trial) => sweep(alloc, &trial, &mut self.resumed),
            None => {}
        }
        Ok(())
    }

    /// Has each reader read a trace.
    fn try_readers(&mut self, alloc: Global, reference: &Reference<'_>) -> Result<(), AllocError> {
        for reader in READERS {
            let whole = run_of(alloc, reference, *reader)?;
            let trial = Reading {
                reference,
                reader: *reader,
                whole,
            };
            sweep(alloc, &trial, &mut self.readers);
        }
        Ok(())
    }

    /// Has a decoder be fed a trace in two pieces.
    fn try_feeders(&mut self, alloc: Global, reference: &Reference<'_>) {
        for form in FORMS {
            self.try_feeder(alloc, reference, *form);
        }
    }

    fn try_feeder(&mut self, alloc: Global, reference: &Reference<'_>, form: Form) {
        let place = reference.bytes.len() / 2;
        let trial = Feeding {
            reference,
            form,
            place,
        };
        sweep(alloc, &trial, &mut self.fed);
    }

    /// Tries the registry that a trace leaves.
    fn try_registry(&mut self, alloc: Global, bytes: &[u8]) -> Result<(), AllocError> {
        let mut decoder = decoder_of(alloc, bytes)?;
        let _ = all_owned(&mut decoder);
        sweep(alloc, &OfRegistries(decoder.registry()), &mut self.free);
        sweep_registry(alloc, decoder.registry(), &mut self.schemas);
        Ok(())
    }
}

/// What a reader gives of a trace.
fn run_of(alloc: Global, reference: &Reference<'_>, reader: Reader) -> Result<Run, AllocError> {
    let mut decoder = decoder_of(alloc, reference.bytes)?;
    Ok(reference.run(reader, &mut decoder))
}

/// Whether the bytes of the plan stand at this place, and end at the last of these.
fn is_part(plan: &Plan, bytes: &[u8], start: usize, ends: &[usize]) -> bool {
    let end = start.saturating_add(plan.bytes.len());
    let same = bytes.get(start..end) == Some(plan.bytes.as_slice());
    same & (ends.last() == Some(&end))
}

fn asks_of_calls(alloc: Global, calls: Vec<Call>) -> Result<Vec<Ask>, AllocError> {
    let mut asks = Vec::new(alloc);
    for call in calls {
        asks.push(Ask::Call(call))?;
    }
    Ok(asks)
}

/// Tries a call of a plan over a list, and over an array where that has room for all.
fn try_turn(alloc: Global, turn: Turn<'_>, list: &mut Counts, array: &mut Counts) {
    sweep(alloc, &InList(turn), list);
    if turn.fits(ROOM) {
        sweep(alloc, &InArray(turn), array);
    }
}

/// The same of both in one count.
fn try_both(alloc: Global, turn: Turn<'_>, counts: &mut Counts) {
    sweep(alloc, &InList(turn), counts);
    if turn.fits(ROOM) {
        sweep(alloc, &InArray(turn), counts);
    }
}
