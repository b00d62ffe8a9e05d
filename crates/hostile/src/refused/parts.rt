//! Parts of schemas and registries, each growth of which is refused.

use crate::refused::encoding::over_array;
use crate::refused::heap::{refuse, was_refused};
use crate::refused::plan::{HEADER, new_encoder};
use crate::refused::sweep::{LACKING, Making, Trial, is_equal, sweep, sweep_made};
use crate::refused::verdict::{Answer, Counts, Seen, Verdict};
use dial9_trace_format::TraceEvent;
use dial9_trace_format::codec::{Layout, WireTypeId, compile};
use dial9_trace_format::encoder::{Encoder, Schema};
use dial9_trace_format::leb128::EncodeError;
use dial9_trace_format::schema::{
    FieldAnnotation, FieldDef, RegisterError, SchemaEntry, SchemaRegistry,
};
use reader_agreement::tables::same_schemas;
use std::alloc::{AllocError, Global};
use std::hash::RandomState;
use std::io::ErrorKind;
use trace_samples::Told;
use trace_samples::events::{Annotated, Poll};

/// A call that makes an entry of another.
#[derive(Clone, Copy)]
enum Part {
    /// `SchemaEntry::with_annotations`.
    Entry,
    /// `SchemaEntry::new`.
    Plain,
    /// `SchemaEntry::clone`.
    Copy,
    /// `SchemaEntry::from_parts`, of copies.
    Parts,
    /// `SchemaEntry::new` and `push_annotation_copies`.
    Pushed,
    /// `TraceEvent::schema_entry`.
    OfType,
}

const PARTS: &[Part] = &[
    Part::Entry,
    Part::Plain,
    Part::Copy,
    Part::Parts,
    Part::Pushed,
    Part::OfType,
];

fn make_part(alloc: Global, part: Part, entry: &SchemaEntry) -> Result<SchemaEntry, AllocError> {
    match part {
        Part::Entry => {
            SchemaEntry::with_annotations(alloc, entry.name(), entry.fields(), entry.annotations())
        }
        Part::Plain => SchemaEntry::new(alloc, entry.name(), entry.fields()),
        Part::Copy => entry.clone(alloc),
        Part::Parts => from_parts(alloc, entry),
        Part::Pushed => pushed(alloc, entry),
        Part::OfType => Annotated::schema_entry(alloc),
    }
}

fn from_parts(alloc: Global, entry: &SchemaEntry) -> Result<SchemaEntry, AllocError> {
    let fields = copies(alloc, entry.fields())?;
    let annotations = copies_of_annotations(alloc, entry.annotations())?;
    SchemaEntry::from_parts(alloc, entry.name(), fields, annotations)
}

fn pushed(alloc: Global, entry: &SchemaEntry) -> Result<SchemaEntry, AllocError> {
    let mut made = SchemaEntry::new(alloc, entry.name(), entry.fields())?;
    match made.push_annotation_copies(alloc, entry.annotations()) {
        Ok(()) => Ok(made),
        Err(error) => Err(error),
    }
}

/// Copies of the fields.
fn copies(alloc: Global, fields: &[FieldDef]) -> Result<Vec<FieldDef>, AllocError> {
    let mut copies = Vec::new(alloc);
    for field in fields {
        copies.push(field.clone(alloc)?)?;
    }
    Ok(copies)
}

fn copies_of_annotations(
    alloc: Global,
    annotations: &[FieldAnnotation],
) -> Result<Vec<FieldAnnotation>, AllocError> {
    let mut copies = Vec::new(alloc);
    for annotation in annotations {
        copies.push(annotation.clone(alloc)?)?;
    }
    Ok(copies)
}

/// What is made anew.
#[derive(Drop)]
enum Made<'e> {
    /// An entry by one of those calls, which gives this one.
    Part(Part, &'e SchemaEntry, &'e SchemaEntry),
    /// `FieldDef::new`.
    Field(&'e FieldDef),
    /// `FieldAnnotation::new`.
    Annotation(&'e FieldAnnotation),
    /// `SchemaEntry::clone` and `Schema::from_entry`.
    Shared(&'e SchemaEntry),
    /// `FieldDef::clone` and `Schema::new`.
    New(&'e SchemaEntry),
    /// `compile`, whose layout has the same steps each time.
    Compiled(&'e SchemaEntry, &'e Layout),
    /// `SchemaRegistry::clone`.
    Registry(&'e SchemaRegistry),
    /// The fields of an event type, which are these.
    OfType(&'e Vec<FieldDef>),
}

impl Making for Made<'_> {
    fn is_made(&self, alloc: Global) -> Result<bool, AllocError> {
        match self {
            Made::Part(part, entry, wanted) => is_equal(make_part(alloc, *part, entry), wanted),
            Made::Field(field) => {
                is_equal(
                    FieldDef::new(alloc, field.name(), field.field_type()),
                    field,
                )
            }
            Made::Annotation(annotation) => is_annotated(alloc, annotation),
            Made::Shared(entry) => is_shared(alloc, entry),
            Made::New(entry) => is_new(alloc, entry),
            Made::Compiled(entry, layout) => is_compiled(alloc, entry, layout),
            Made::Registry(registry) => is_copied(registry),
            Made::OfType(fields) => is_equal(Poll::field_defs(alloc), fields),
        }
    }
}

fn is_annotated(alloc: Global, wanted: &FieldAnnotation) -> Result<bool, AllocError> {
    let (index, key, value) = (wanted.field_index(), wanted.key(), wanted.value());
    is_equal(FieldAnnotation::new(alloc, index, key, value), wanted)
}

/// Whether a copy of the entry is shared as it is.
fn is_shared(alloc: Global, entry: &SchemaEntry) -> Result<bool, AllocError> {
    let schema = Schema::from_entry(alloc, entry.clone(alloc)?)?;
    Ok(*schema.entry() == *entry)
}

/// Whether a schema of the entry's name and fields has them.
fn is_new(alloc: Global, entry: &SchemaEntry) -> Result<bool, AllocError> {
    let schema = new_schema(alloc, entry)?;
    Ok((schema.name() == entry.name()) & (schema.fields() == entry.fields()))
}

fn is_compiled(alloc: Global, entry: &SchemaEntry, wanted: &Layout) -> Result<bool, AllocError> {
    let layout = compile(alloc, entry.fields())?;
    Ok(layout.steps() == wanted.steps())
}

fn is_copied(registry: &SchemaRegistry) -> Result<bool, AllocError> {
    let copy = registry.clone()?;
    Ok(same_schemas(&copy, registry))
}

/// `SchemaRegistry::register`. After a refusal the registry is as before, and takes the entry then.
#[derive(Drop)]
struct Registered<'r> {
    registry: &'r SchemaRegistry,
    id: WireTypeId,
    entry: &'r SchemaEntry,
}

impl Trial for Registered<'_> {
    fn seen(&self, alloc: Global, number: u32) -> Seen {
        match self.registry.clone() {
            Ok(mut registry) => self.seen_in(alloc, number, &mut registry),
            Err(_) => LACKING,
        }
    }
}

impl Registered<'_> {
    fn seen_in(&self, alloc: Global, number: u32, registry: &mut SchemaRegistry) -> Seen {
        let Ok(entry) = self.entry.clone(alloc) else {
            return LACKING;
        };
        refuse(alloc, number);
        let told = registry.register(self.id, entry);
        let refused = was_refused(alloc);
        let answer = answer_of(told);
        let right = self.is_registered(alloc, answer, registry);
        Seen {
            refused,
            answer,
            right,
        }
    }

    /// Whether the registry has the entry; after a refusal it is as before, and takes the entry now.
    fn is_registered(&self, alloc: Global, answer: Answer, registry: &mut SchemaRegistry) -> bool {
        if answer == Answer::Memory {
            let kept = same_schemas(registry, self.registry);
            if !(self.is_taken(alloc, registry) & kept) {
                return false;
            }
        }
        registry.get(self.id) == Some(self.entry)
    }

    fn is_taken(&self, alloc: Global, registry: &mut SchemaRegistry) -> bool {
        match self.entry.clone(alloc) {
            Ok(entry) => registry.register(self.id, entry).is_ok(),
            Err(_) => false,
        }
    }
}

fn answer_of(told: Result<(), RegisterError>) -> Answer {
    match told {
        Ok(()) => Answer::Same,
        Err(RegisterError::OutOfMemory) => Answer::Memory,
        Err(RegisterError::Conflict(_)) => Answer::Other,
    }
}

/// Copies a registry and makes its parts anew.
pub fn sweep_registry(alloc: Global, registry: &SchemaRegistry, counts: &mut Counts) {
    sweep_made(alloc, &Made::Registry(registry), counts);
    for (_, entry) in registry.entries() {
        for id in [WireTypeId(3), WireTypeId(65_535)] {
            if registry.get(id).is_none() {
                let trial = Registered {
                    registry,
                    id,
                    entry,
                };
                sweep(alloc, &trial, counts);
            }
        }
        sweep_entry(alloc, entry, counts);
    }
}

/// Makes an entry and its parts anew.
fn sweep_entry(alloc: Global, entry: &SchemaEntry, counts: &mut Counts) {
    for part in PARTS {
        sweep_part(alloc, *part, entry, counts);
    }
    sweep_fields(alloc, entry, counts);
    sweep_made(alloc, &Made::Shared(entry), counts);
    sweep_made(alloc, &Made::New(entry), counts);
    sweep_layout(alloc, entry, counts);
    sweep(alloc, &Registering(entry), counts);
}

fn sweep_fields(alloc: Global, entry: &SchemaEntry, counts: &mut Counts) {
    for field in entry.fields() {
        sweep_made(alloc, &Made::Field(field), counts);
    }
    for annotation in entry.annotations() {
        sweep_made(alloc, &Made::Annotation(annotation), counts);
    }
}

fn sweep_part(alloc: Global, part: Part, entry: &SchemaEntry, counts: &mut Counts) {
    match make_part(alloc, part, entry) {
        Ok(wanted) => sweep_made(alloc, &Made::Part(part, entry, &wanted), counts),
        Err(_) => counts.add(Verdict::Wrong),
    }
}

fn sweep_layout(alloc: Global, entry: &SchemaEntry, counts: &mut Counts) {
    match compile(alloc, entry.fields()) {
        Ok(wanted) => sweep_made(alloc, &Made::Compiled(entry, &wanted), counts),
        Err(_) => counts.add(Verdict::Wrong),
    }
}

/// The fields of an event type.
pub fn sweep_type(alloc: Global, counts: &mut Counts) {
    match Poll::field_defs(alloc) {
        Ok(wanted) => sweep_made(alloc, &Made::OfType(&wanted), counts),
        Err(_) => counts.add(Verdict::Wrong),
    }
}

/// `Encoder::register_schema` by a new encoder over an array. After a refusal nothing was sent, and the schema is
/// registered then.
#[derive(Drop)]
struct Registering<'e>(&'e SchemaEntry);

impl Trial for Registering<'_> {
    fn seen(&self, alloc: Global, number: u32) -> Seen {
        match over_array(alloc) {
            Ok(mut encoder) => self.seen_by(alloc, number, &mut encoder),
            Err(_) => LACKING,
        }
    }
}

impl Registering<'_> {
    fn seen_by(&self, alloc: Global, number: u32, encoder: &mut Encoder<Told>) -> Seen {
        let Ok(fields) = copies(alloc, self.0.fields()) else {
            return LACKING;
        };
        refuse(alloc, number);
        let told = encoder.register_schema(self.0.name(), fields);
        let refused = was_refused(alloc);
        let answer = registered_as(&told, self.0);
        let kept = answer_keeps(answer, encoder);
        let right = self.is_registered(alloc, encoder, told) & kept;
        Seen {
            refused,
            answer,
            right,
        }
    }

    /// Whether the schema that was made, or one that is made now, is registered now.
    fn is_registered(
        &self,
        alloc: Global,
        encoder: &mut Encoder<Told>,
        told: Result<Schema, EncodeError>,
    ) -> bool {
        match told {
            Ok(schema) => is_registered(alloc, encoder, &schema),
            Err(_) => self.is_made_again(alloc, encoder),
        }
    }

    fn is_made_again(&self, alloc: Global, encoder: &mut Encoder<Told>) -> bool {
        match new_schema(alloc, self.0) {
            Ok(schema) => is_registered(alloc, encoder, &schema),
            Err(_) => false,
        }
    }
}

/// Whether nothing was sent where memory was wanting.
fn answer_keeps(answer: Answer, encoder: &Encoder<Told>) -> bool {
    answer != Answer::Memory || encoder.as_inner().bytes().len() == HEADER
}

/// A schema of the entry's name and fields.
fn new_schema(alloc: Global, entry: &SchemaEntry) -> Result<Schema, AllocError> {
    Schema::new(alloc, entry.name(), copies(alloc, entry.fields())?)
}

/// What an answer is beside a schema of the entry's fields.
fn registered_as(told: &Result<Schema, EncodeError>, entry: &SchemaEntry) -> Answer {
    match told {
        Ok(schema) if schema.fields() == entry.fields() => Answer::Same,
        Err(EncodeError::OutOfMemory) => Answer::Memory,
        _ => Answer::Other,
    }
}

/// Whether the schema is registered now, as by a new encoder.
fn is_registered(alloc: Global, encoder: &mut Encoder<Told>, schema: &Schema) -> bool {
    match new_encoder(alloc) {
        Ok(mut other) => registers_as(encoder, &mut other, schema),
        Err(_) => false,
    }
}

fn registers_as(encoder: &mut Encoder<Told>, other: &mut Encoder, schema: &Schema) -> bool {
    let same = encoder.register_existing(schema) == other.register_existing(schema);
    (encoder.as_inner().bytes() == other.as_inner().as_slice()) & same
}

/// A call that makes an encoder over a list; its refusal is that of the list.
#[derive(Drop)]
pub enum NewEncoder {
    /// `Encoder::new`.
    OverList,
    /// `Encoder::new_to`.
    To,
    /// `Encoder::new_with_hasher`.
    WithHasher(RandomState),
    /// `Encoder::new_to_with_hasher`.
    ToWithHasher(RandomState),
    /// `Encoder::new` and `reset_to`.
    Reset,
}

impl NewEncoder {
    fn make(&self, alloc: Global) -> Result<Encoder, EncodeError> {
        match self {
            NewEncoder::OverList => Encoder::new(alloc),
            NewEncoder::To => Encoder::new_to(alloc, Vec::new(alloc)),
            NewEncoder::WithHasher(state) => Encoder::new_with_hasher(alloc, *state),
            NewEncoder::ToWithHasher(state) => {
                Encoder::new_to_with_hasher(alloc, Vec::new(alloc), *state)
            }
            NewEncoder::Reset => reset(alloc),
        }
    }
}

/// An encoder that writes to its second list.
fn reset(alloc: Global) -> Result<Encoder, EncodeError> {
    let mut encoder = Encoder::new(alloc)?;
    match encoder.reset_to(Vec::new(alloc)) {
        Ok(_) => Ok(encoder),
        Err(error) => Err(error),
    }
}

impl Making for NewEncoder {
    fn is_made(&self, alloc: Global) -> Result<bool, AllocError> {
        match self.make(alloc) {
            Ok(encoder) => Ok(encoder.bytes_written() == HEADER as u64),
            Err(EncodeError::Writer(ErrorKind::OutOfMemory)) => Err(AllocError),
            Err(_) => Ok(false),
        }
    }
}
