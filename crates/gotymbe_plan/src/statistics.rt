//! Lines that tell what events add up to (docs/TOOLS.md, "Statistics").

ghost use Rattle.std.specs.Prelude.{◌≡◌, ◌++◌, ◌+◌, ◌<◌, ◌^◌, codes, length};
ghost use Rattle.std.specs.List.{flat_map, enumerate_from, zip};
ghost use Rattle.trace_lines.specs.Appending.{AppendsText};
ghost use Rattle.gotymbe_plan.specs.Statistics.{stats_lines, schema_lines, schema_line, counts_text, pair_lines};
ghost use Rattle.gotymbe_plan.specs.Statistics.{field_lines, summary_lines, summary_line, head_text, numbers_text};
ghost use Rattle.gotymbe_plan.specs.Statistics.{digit_text, least_of, greatest_of, float_lines, float_line};
ghost use Rattle.gotymbe_plan.specs.Statistics.{bounds_text, float_text, floats_text, named_number};

use std::alloc::AllocError;
use trace_lines::text::{push_quoted, push_sixteen_digits};
use trace_stats::field::FieldStats;
use trace_stats::float::FloatSummary;
use trace_stats::schema::SchemaStats;
use trace_stats::summary::Summary;
use trace_stats::trace::TraceStats;
use trace_wire::schema::FieldDef;

/// Appends the lines of what the events of a trace add up to: those of each schema, in the order of their first
/// events. `AllocError` where a growth was refused.
pub fn push_stats(out: &mut String, stats: &TraceStats) -> Result<(), AllocError>
    ensures { AppendsText (stats_lines stats.now) out.old out.new result }
{
    push_schemas(out, stats.schemas())
}

// Appends the lines of each schema.
fn push_schemas(out: &mut String, schemas: &[SchemaStats]) -> Result<(), AllocError>
    ensures { AppendsText (flat_map schema_lines schemas.now) out.old out.new result }
{
    for schema in schemas {
        push_schema(out, schema)?;
    }
    Ok(())
}

// Appends the line of a schema, and those of its fields.
#[tactic(auto, unfolding(crate::specs::Statistics::schema_lines))]
fn push_schema(out: &mut String, schema: &SchemaStats) -> Result<(), AllocError>
    ensures { AppendsText (schema_lines schema.now) out.old out.new result }
{
    push_schema_line(out, schema)?;
    push_fields(out, schema.schema().fields(), schema.fields())
}

// Appends the lines of fields.
fn push_fields(
    out: &mut String,
    fields: &[FieldDef],
    stats: &[FieldStats],
) -> Result<(), AllocError>
    ensures { AppendsText (flat_map pair_lines (zip fields.now stats.now)) out.old out.new result }
{
    let count = fields.len().min(stats.len());
    'pairs: for index in 0..count {
        push_field(out, fields[index].name(), &stats[index])?;
    }
    Ok(())
}

// Appends the name of a schema, and how many events there are, their bytes and times.
#[tactic(auto, unfolding(crate::specs::Statistics::schema_line))]
fn push_schema_line(out: &mut String, schema: &SchemaStats) -> Result<(), AllocError>
    ensures { AppendsText (schema_line schema.now) out.old out.new result }
{
    out.push_str("schema ")?;
    push_quoted(out, schema.schema().name().as_bytes())?;
    push_counts(out, schema)?;
    out.push('\n')
}

#[tactic(auto, unfolding(crate::specs::Statistics::counts_text))]
fn push_counts(out: &mut String, schema: &SchemaStats) -> Result<(), AllocError>
    ensures { AppendsText (counts_text schema.now) out.old out.new result }
{
    let (events, bytes) = (schema.bytes().count(), schema.bytes().sum());
    let (first, last) = (least_of(schema.times()), greatest_of(schema.times()));
    write!(
        out,
        " events={events} bytes={bytes} first={first} last={last}"
    )
}

// Appends the lines of a field: of its numbers, of those below 0, of its floats, and of its lengths, where there are
// any.
#[tactic(auto, unfolding(crate::specs::Statistics::field_lines))]
fn push_field(out: &mut String, name: &str, stats: &FieldStats) -> Result<(), AllocError>
    ensures { AppendsText (field_lines name.now stats.now) out.old out.new result }
{
    push_summary(out, "numbers", name, stats.naturals())?;
    push_summary(out, "negatives", name, stats.negatives())?;
    push_floats(out, name, stats.floats())?;
    push_summary(out, "lengths", name, stats.lengths())
}

// Appends the line of floats, where any were counted.
#[tactic(auto, unfolding(crate::specs::Statistics::float_lines))]
fn push_floats(out: &mut String, name: &str, floats: &FloatSummary) -> Result<(), AllocError>
    ensures { AppendsText (float_lines name.now floats.now) out.old out.new result }
{
    if floats.count() == 0 && floats.not_numbers() == 0 {
        return Ok(());
    }
    push_float_line(out, name, floats)
}

#[tactic(auto, unfolding(crate::specs::Statistics::float_line))]
fn push_float_line(out: &mut String, name: &str, floats: &FloatSummary) -> Result<(), AllocError>
    ensures { AppendsText (float_line name.now floats.now) out.old out.new result }
{
    push_head(out, "floats", name)?;
    push_float_counts(out, floats)?;
    out.push('\n')
}

// Appends how many floats are numbers, their bounds, and how many are no numbers.
#[tactic(auto, unfolding(crate::specs::Statistics::floats_text))]
fn push_float_counts(out: &mut String, floats: &FloatSummary) -> Result<(), AllocError>
    ensures { AppendsText (floats_text floats.now) out.old out.new result }
{
    push_named(out, " count=", floats.count())?;
    push_bounds(out, floats)?;
    push_named(out, " not_numbers=", floats.not_numbers())
}

// Appends a number after what it is.
#[tactic(auto, unfolding(crate::specs::Statistics::named_number))]
fn push_named(out: &mut String, name: &str, number: u64) -> Result<(), AllocError>
    ensures { AppendsText (named_number name.now number) out.old out.new result }
{
    out.push_str(name)?;
    write!(out, "{number}")
}

// Appends the least and the greatest of floats, where there are any that are numbers.
#[tactic(auto, unfolding(crate::specs::Statistics::bounds_text))]
fn push_bounds(out: &mut String, floats: &FloatSummary) -> Result<(), AllocError>
    ensures { AppendsText (bounds_text floats.now) out.old out.new result }
{
    let (Some(least), Some(greatest)) = (floats.least(), floats.greatest()) else {
        return Ok(());
    };
    out.push_str(" least=")?;
    push_float(out, least)?;
    out.push_str(" greatest=")?;
    push_float(out, greatest)
}

// Appends a float, by its bits.
#[tactic(auto, unfolding(crate::specs::Statistics::float_text))]
fn push_float(out: &mut String, bits: u64) -> Result<(), AllocError>
    ensures { AppendsText (float_text bits) out.old out.new result }
{
    out.push_str("0x")?;
    push_sixteen_digits(out, bits)
}

// Appends the line of a summary, where anything was counted.
#[tactic(auto, unfolding(crate::specs::Statistics::summary_lines))]
fn push_summary(
    out: &mut String,
    kind: &str,
    name: &str,
    summary: &Summary,
) -> Result<(), AllocError>
    ensures { AppendsText (summary_lines kind.now name.now summary.now) out.old out.new result }
{
    if summary.count() == 0 {
        return Ok(());
    }
    push_summary_line(out, kind, name, summary)
}

#[tactic(auto, unfolding(crate::specs::Statistics::summary_line, crate::specs::Statistics::digits_text))]
fn push_summary_line(
    out: &mut String,
    kind: &str,
    name: &str,
    summary: &Summary,
) -> Result<(), AllocError>
    ensures { AppendsText (summary_line kind.now name.now summary.now) out.old out.new result }
{
    push_head(out, kind, name)?;
    push_numbers(out, summary)?;
    push_digits(out, summary.by_digits())?;
    out.push('\n')
}

// Appends what was counted, and of which field.
#[tactic(auto, unfolding(crate::specs::Statistics::head_text))]
fn push_head(out: &mut String, kind: &str, name: &str) -> Result<(), AllocError>
    ensures { AppendsText (head_text kind.now name.now) out.old out.new result }
{
    out.push_str(kind)?;
    out.push(' ')?;
    push_quoted(out, name.as_bytes())
}

#[tactic(auto, unfolding(crate::specs::Statistics::numbers_text))]
fn push_numbers(out: &mut String, summary: &Summary) -> Result<(), AllocError>
    ensures { AppendsText (numbers_text summary.now) out.old out.new result }
{
    let (count, sum) = (summary.count(), summary.sum());
    let (least, greatest) = (least_of(summary), greatest_of(summary));
    write!(
        out,
        " count={count} least={least} greatest={greatest} sum={sum}"
    )
}

// Appends how many there are of each number of binary digits, where there are any.
fn push_digits(out: &mut String, by_digits: &[u64; 65]) -> Result<(), AllocError>
    ensures { AppendsText (codes " digits"
        ++ flat_map digit_text (enumerate_from 0 by_digits.now)) out.old out.new result }
{
    out.push_str(" digits")?;
    push_digits_from(out, 0, by_digits)
}

// The same from a number of binary digits on.
fn push_digits_from(out: &mut String, digits: u64, counts: &[u64]) -> Result<(), AllocError>
    requires { digits + length counts.now < 2 ^ 64 }
    ensures { AppendsText (flat_map digit_text (enumerate_from digits counts.now)) out.old out.new
        result }
{
    match counts {
        [] => Ok(()),
        [count, rest @ ..] => {
            push_digit_count(out, digits, *count)?;
            push_digits_from(out, digits + 1, rest)
        }
    }
}

fn push_digit_count(out: &mut String, digits: u64, count: u64) -> Result<(), AllocError>
    ensures { AppendsText (digit_text (digits, count)) out.old out.new result }
{
    if count == 0 {
        return Ok(());
    }
    write!(out, " {digits}:{count}")
}

// The least number, or 0 of none.
fn least_of(summary: &Summary) -> u64
    ensures { result ≡ least_of summary.now }
{
    summary.least().unwrap_or(0)
}

// The greatest number, or 0 of none.
fn greatest_of(summary: &Summary) -> u64
    ensures { result ≡ greatest_of summary.now }
{
    summary.greatest().unwrap_or(0)
}
