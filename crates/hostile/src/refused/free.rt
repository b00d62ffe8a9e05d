//! Calls that take no memory: none of their growths can be refused, since they have none.

use crate::calls::{all_owned, decoder_of, show};
use crate::refused::asks::make_call;
use crate::refused::encoding::over_array;
use crate::refused::heap::{refuse, was_refused};
use crate::refused::sweep::{LACKING, Making, Trial, sweep_made};
use crate::refused::verdict::{Answer, Counts, Seen};
use dial9_trace_format::codec::WireTypeId;
use dial9_trace_format::decoder::{
    Decoder, EventSink, FeedDecoder, RawEvent, StackPool, StringPool,
};
use dial9_trace_format::encoder::{Call, Encoder, RawEncoder};
use dial9_trace_format::leb128::{decode_unsigned, encode_unsigned};
use dial9_trace_format::schema::SchemaRegistry;
use dial9_trace_format::types::{
    DynamicListRef, DynamicMapRef, FieldType, FieldValueRef, StackFrameIter, StackFramesRef,
    StringMapIter, StringMapRef,
};
use std::alloc::{AllocError, Global};
use trace_samples::{Manner, Told};

/// What was seen of calls that take no memory.
fn seen(refused: bool, right: bool) -> Seen {
    Seen {
        refused,
        answer: Answer::Same,
        right,
    }
}

/// An encoder after these calls: known schemas, texts and stacks; `flush`, `reset_to`, and raw bytes.
#[derive(Drop)]
pub struct OfEncoders<'c>(pub &'c [Call]);

impl Trial for OfEncoders<'_> {
    fn seen(&self, alloc: Global, number: u32) -> Seen {
        let Ok(mut encoder) = over_array(alloc) else {
            return LACKING;
        };
        make_all(&mut encoder, self.0);
        refuse(alloc, number);
        let right = goes_on(&mut encoder, self.0);
        let sent = sends_raw(encoder.into_raw_encoder());
        let refused = was_refused(alloc);
        seen(refused, right & sent)
    }
}

fn make_all(encoder: &mut Encoder<Told>, calls: &[Call]) {
    for call in calls {
        let _ = make_call(encoder, call);
    }
}

/// Whether what is known sends nothing, `flush` settles, and `reset_to` begins a trace.
fn goes_on(encoder: &mut Encoder<Told>, calls: &[Call]) -> bool {
    let written = encoder.bytes_written();
    let known = makes_known(encoder, calls) & (encoder.bytes_written() == written);
    let flushed = encoder.flush().is_ok() & encoder.as_inner().is_settled();
    let reset = encoder.reset_to(Told::new(Manner::SOUND)).is_ok();
    known & flushed & reset & (encoder.bytes_written() == 5)
}

/// Whether three bytes are sent after a header.
fn sends_raw(mut raw: RawEncoder<Told>) -> bool {
    let sent = raw.write_raw(&[1, 2, 3]).is_ok() & raw.flush().is_ok();
    let counted = raw.bytes_written() == 8;
    sent & counted & (raw.into_inner().bytes().len() == 8)
}

/// Makes again what registers or interns; whether each is accepted, or refused as before.
fn makes_known(encoder: &mut Encoder<Told>, calls: &[Call]) -> bool {
    for call in calls {
        if !makes_one_known(encoder, call) {
            return false;
        }
    }
    true
}

fn makes_one_known(encoder: &mut Encoder<Told>, call: &Call) -> bool {
    match call {
        Call::Register(schema) => {
            let _ = encoder.register_existing(schema);
            true
        }
        Call::RegisterAt(slot, schema) => {
            let _ = encoder.register_at(*slot, schema);
            true
        }
        Call::InternString(text) => encoder.intern_string(text).is_ok(),
        Call::InternStack(addresses) => encoder.intern_stack_frames(addresses).is_ok(),
        _ => true,
    }
}

/// What takes no memory.
#[derive(Drop)]
enum Free<'f, 'b> {
    /// New decoders of these bytes, and what a decoder tells that has read them.
    Decoders(&'f Decoder<'b>, &'b [u8]),
    /// Numbers, types, and the iterators over the parts of values.
    Values,
    /// The names of an event's fields, and the parts of its values.
    Event(&'f RawEvent<'b, 'f>),
}

impl Making for Free<'_, '_> {
    fn is_made(&self, alloc: Global) -> Result<bool, AllocError> {
        match self {
            Free::Decoders(decoder, bytes) => {
                let made = Decoder::new(alloc, bytes).is_some();
                Ok(made & is_empty(FeedDecoder::new(alloc)) & tells(decoder))
            }
            Free::Values => Ok(gives_values()),
            Free::Event(event) => Ok(gives_names(event) & give_their_parts(event.fields)),
        }
    }
}

/// Numbers, types, and the iterators over the parts of values.
pub fn sweep_free_values(alloc: Global, counts: &mut Counts) {
    sweep_made(alloc, &Free::Values, counts);
}

/// New decoders of these bytes, and what a decoder tells that has read them.
pub fn sweep_decoders(alloc: Global, bytes: &[u8], counts: &mut Counts) -> Result<(), AllocError> {
    let mut decoder = decoder_of(alloc, bytes)?;
    let _ = all_owned(&mut decoder);
    sweep_made(alloc, &Free::Decoders(&decoder, bytes), counts);
    Ok(())
}

fn is_empty(fed: FeedDecoder) -> bool {
    (fed.position() == 0) & (fed.fed_len() == 0) & (fed.version() == None)
}

fn tells(decoder: &Decoder<'_>) -> bool {
    let told = (decoder.position() <= decoder.data_len()) & (decoder.headers() > 0);
    told & shows_tables(decoder)
}

/// Walks the tables of the decoder, and looks each entry up.
fn shows_tables(decoder: &Decoder<'_>) -> bool {
    let schemas = shows_schemas(decoder.registry());
    let texts = shows_texts(decoder.string_pool());
    schemas & texts & shows_stacks(decoder.stack_pool())
}

fn shows_schemas(registry: &SchemaRegistry) -> bool {
    for (id, entry) in registry.entries() {
        if registry.get(id) != Some(entry) {
            return false;
        }
    }
    true
}

fn shows_texts(pool: &StringPool) -> bool {
    for (id, text) in pool.iter() {
        if pool.get(id) != Some(text) {
            return false;
        }
    }
    true
}

fn shows_stacks(pool: &StackPool) -> bool {
    for (id, stack) in pool.iter() {
        if pool.get(id) != Some(stack) {
            return false;
        }
    }
    true
}

/// A registry's ids, and `clear`.
#[derive(Drop)]
pub struct OfRegistries<'r>(pub &'r SchemaRegistry);

impl Trial for OfRegistries<'_> {
    fn seen(&self, alloc: Global, number: u32) -> Seen {
        let Ok(mut registry) = self.0.clone() else {
            return LACKING;
        };
        refuse(alloc, number);
        let right = begins_again(alloc, &mut registry);
        let refused = was_refused(alloc);
        seen(refused, right)
    }
}

/// Whether a new registry is empty, and this one once it is cleared.
fn begins_again(alloc: Global, registry: &mut SchemaRegistry) -> bool {
    let first = begins(&mut SchemaRegistry::new(alloc));
    registry.sync_next_id();
    let _ = registry.next_type_id();
    registry.clear();
    first & begins(registry)
}

/// Whether the registry is empty, and its next id is the first.
fn begins(registry: &mut SchemaRegistry) -> bool {
    let first = registry.next_type_id() == Some(WireTypeId(256));
    first & registry.entries().next().is_none()
}

fn gives_values() -> bool {
    let mut out = Told::new(Manner::SOUND);
    let written = encode_unsigned(300, &mut out).is_ok();
    let read = decode_unsigned(out.bytes()) == Some((300, 2));
    let tagged = FieldType::from_tag(9) == Some(FieldType::Varint);
    let inner = FieldType::Varint.optional().inner() == FieldType::Varint;
    written & read & tagged & inner & gives_address() & gives_pair()
}

fn gives_address() -> bool {
    let mut frames = StackFrameIter::new(&[7, 0, 0, 0, 0, 0, 0, 0], 1);
    let one = frames.len() == 1;
    let first = frames.next() == Some(7);
    one & first & (frames.next() == None)
}

fn gives_pair() -> bool {
    let mut pairs = StringMapIter::new(&[1, 0, 0, 0, 0x6B, 1, 0, 0, 0, 0x76], 1);
    let one = pairs.len() == 1;
    let first = pairs.next() == Some(("k", "v"));
    one & first & (pairs.next() == None)
}

/// Whether the event has as many names as its schema has fields.
fn gives_names(event: &RawEvent<'_, '_>) -> bool {
    let mut names: usize = 0;
    for _name in event.field_names() {
        names = names.saturating_add(1);
    }
    names == event.schema.fields().len()
}

fn give_their_parts(values: &[FieldValueRef<'_>]) -> bool {
    let mut right = true;
    for value in values {
        right &= gives_its_parts(value);
    }
    right
}

/// Whether the iterator over the value's parts gives as many as it says.
fn gives_its_parts(value: &FieldValueRef<'_>) -> bool {
    match value {
        FieldValueRef::List(items) => gives_items(items),
        FieldValueRef::Map(pairs) => gives_pairs(pairs),
        FieldValueRef::StackFrames(frames) => gives_addresses(frames),
        FieldValueRef::StringMap(texts) => gives_texts(texts),
        _ => true,
    }
}

fn gives_items(items: &DynamicListRef<'_>) -> bool {
    let mut count: usize = 0;
    for _item in items.iter() {
        count = count.saturating_add(1);
    }
    count == items.len()
}

fn gives_pairs(pairs: &DynamicMapRef<'_>) -> bool {
    let mut count: usize = 0;
    for _pair in pairs.iter() {
        count = count.saturating_add(1);
    }
    count == pairs.len()
}

fn gives_addresses(frames: &StackFramesRef<'_>) -> bool {
    let mut count: usize = 0;
    for _address in frames.iter() {
        count = count.saturating_add(1);
    }
    count == frames.count() as usize
}

fn gives_texts(texts: &StringMapRef<'_>) -> bool {
    let mut count: usize = 0;
    for _text in texts.iter() {
        count = count.saturating_add(1);
    }
    count == texts.iter().len()
}

/// Walks each event that it is shown.
#[derive(Drop)]
struct Walking {
    alloc: Global,
    counts: Counts,
}

impl<'b> EventSink<'b, ()> for Walking {
    ghost step = { λ _ _ _ _. Unit {0} };

    fn event(&mut self, event: &RawEvent<'b, '_>) -> Result<(), ()> {
        sweep_made(self.alloc, &Free::Event(event), &mut self.counts);
        Ok(())
    }
}

/// Walks each event of a trace.
pub fn sweep_events(alloc: Global, bytes: &[u8], counts: &mut Counts) -> Result<(), AllocError> {
    let mut sink = Walking {
        alloc,
        counts: *counts,
    };
    let mut decoder = decoder_of(alloc, bytes)?;
    let _ = show(&mut decoder, &mut sink);
    *counts = sink.counts;
    Ok(())
}
