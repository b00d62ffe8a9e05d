//! The converter.

ghost use Rattle.std.specs.Prelude.{◌≡◌, IfOk, IfErr, OnOk};
ghost use Rattle.trace_values.specs.ValueViews.{views};
ghost use Rattle.dial9_trace_format.specs.ShownEvents.{shown_event};
ghost use Rattle.trace_converter.specs.Conversions.{ConvertsEvent, RefusesEvent};
ghost use Rattle.trace_converter.specs.Steps.{Converts};
ghost use Rattle.trace_converter.specs.parts.Kept.{HasConverted};

use crate::fields::field_of;
use crate::rules::{Rule, rule_of};
use crate::values::converted;
use dial9_trace_format::decoder::{EventSink, RawEvent};
use dial9_trace_format::encoder::{Encoder, Schema};
use dial9_trace_format::leb128::{EncodeError, TraceWrite};
use dial9_trace_format::schema::FieldDef;
use std::alloc::{AllocError, Global};
use thiserror::Error;
use trace_values::types::FieldValue;

/// Why an event was not converted.
#[derive(Clone, Copy, Debug, PartialEq, Eq, Error)]
pub enum ConvertError {
    /// Its schema has no field of a name that a rule keeps.
    #[error("no field of that name")]
    NoField,
    /// The id of a text or a stack stands for nothing.
    #[error("an id stands for nothing")]
    UnknownId,
    /// The encoder refused so; or a growth was refused.
    #[error("{0}")]
    Refused(EncodeError),
}

impl From<AllocError> for ConvertError {
    ghost use Rattle.std.specs.Prelude.{◌≡◌};
    ghost use Rattle.trace_converter.specs.declared.converter.ConvertError.TheVariants.{Refused};
    ghost use Rattle.trace_values.specs.declared.leb128.error.EncodeError.TheVariants.{OutOfMemory};

    ghost from_gives = { λ _ e. e ≡ Refused OutOfMemory };

    fn from(_: AllocError) -> ConvertError {
        ConvertError::Refused(EncodeError::OutOfMemory)
    }
}

/// Writes events that it is shown, by rules: of each event the fields that the first rule for its schema keeps, under
/// the new names, at the same time; and nothing of an event for which there is no rule.
#[derive(Drop)]
pub struct Converter<'r, W: TraceWrite + Drop> {
    alloc: Global,
    rules: &'r [Rule<'r>],
    encoder: Encoder<W>,
}

impl<'r, W: TraceWrite + Drop> Converter<'r, W> {
    /// One that writes by an encoder.
    pub fn new(alloc: Global, rules: &'r [Rule<'r>], encoder: Encoder<W>) -> Converter<'r, W>
        ensures rules { result.rules.now ≡ rules.now }
        ensures encoder { result.encoder ≡ encoder }
    {
        Converter {
            alloc,
            rules,
            encoder,
        }
    }

    /// The encoder, as the last event left it.
    pub fn into_encoder(self) -> Encoder<W>
        ensures { result ≡ self.entry.encoder }
    {
        let Converter {
            alloc: _,
            rules: _,
            encoder,
        } = self;
        encoder
    }
}

/// Converts the event. `NoField` where its schema has no field of a name that the rule keeps; `UnknownId` where the id
/// of a text or a stack stands for nothing; and `Refused` with what `Encoder::intern_string`,
/// `Encoder::intern_stack_frames` and `Encoder::write_event_at` refuse, and `OutOfMemory` where a growth was refused.
/// The texts and stacks of the values before stay interned.
impl<'a, 'r, W: TraceWrite + Drop> EventSink<'a, ConvertError> for Converter<'r, W> {
    ghost step = { Converts W.told };

    fn event(&mut self, event: &RawEvent<'a, '_>) -> Result<(), ConvertError> {
        match rule_of(self.rules, event.name) {
            Some(rule) => convert(self.alloc, rule, &mut self.encoder, event),
            None => Ok(()),
        }
    }
}

// Converts an event by a rule.
fn convert<W: TraceWrite + Drop>(
    alloc: Global,
    rule: &Rule<'_>,
    encoder: &mut Encoder<W>,
    event: &RawEvent<'_, '_>,
) -> Result<(), ConvertError>
    ensures converted { OnOk result
        (ConvertsEvent W.told rule.now (shown_event event.now) encoder.old encoder.new) }
    ensures refused { IfErr result (λ e.
        RefusesEvent W.told rule.now (shown_event event.now) encoder.old e encoder.new) }
{
    let Kept { fields, values } = keep(alloc, rule, encoder, event)?;
    let schema = Schema::new(alloc, rule.to, fields)?;
    match encoder.write_event_at(rule.slot, &schema, event.timestamp_ns, values.as_slice()) {
        Ok(()) => Ok(()),
        Err(error) => Err(ConvertError::Refused(error)),
    }
}

// The fields of a new schema, and their values.
struct Kept {
    fields: Vec<FieldDef>,
    values: Vec<FieldValue>,
}

// Converts the fields that a rule keeps.
fn keep<W: TraceWrite + Drop>(
    alloc: Global,
    rule: &Rule<'_>,
    encoder: &mut Encoder<W>,
    event: &RawEvent<'_, '_>,
) -> Result<Kept, ConvertError>
    ensures kept { IfOk result (λ k. HasConverted W.told (shown_event event.now) rule.now.fields.now
        encoder.old k.fields.items (views k.values.items) encoder.new) }
    ensures refused { IfErr result (λ e.
        RefusesEvent W.told rule.now (shown_event event.now) encoder.old e encoder.new) }
{
    let mut fields = Vec::new(alloc);
    let mut values = Vec::new(alloc);
    for names in rule.fields {
        let (from, to) = *names;
        let Some((field_type, value)) = field_of(event.schema.fields(), event.fields, from) else {
            return Err(ConvertError::NoField);
        };
        fields.reserve(1)?;
        values.reserve(1)?;
        fields.push_reserved(FieldDef::new(alloc, to, field_type)?);
        values.push_reserved(converted(alloc, encoder, event, value)?);
    }
    Ok(Kept { fields, values })
}
