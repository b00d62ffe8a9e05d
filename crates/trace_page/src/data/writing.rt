//! What is written of a page around the values of its events. Each function answers `AllocError` where a growth was
//! refused.

ghost use Rattle.std.specs.Prelude.{◌≡◌, OnOk, codes, map as list_map, option_map};
ghost use Rattle.trace_json.specs.EventJson.{list_json};
ghost use Rattle.trace_json.specs.parts.Put.{PutsTokens};
ghost use Rattle.trace_page.specs.Files.{clock_json};
ghost use Rattle.trace_page.specs.Holding.{head_tokens, tables_of};
ghost use Rattle.trace_page.specs.PageSchemas.{schema_json};
ghost use Rattle.trace_page.specs.PageValues.{index_json, time_json};
ghost use Rattle.trace_page.specs.Pages.{start_of};
ghost use Rattle.trace_page.specs.parts.Assembling.{columns_end, PutsLists, last_tokens};
ghost use Rattle.trace_page.specs.parts.Writing.{Grows, PutsMember};

use crate::clocks::{FileClock, put_each_clock};
use crate::columns::{put_indexes, put_stacks, put_strings, put_times, start_of};
use crate::names::Names;
use crate::schemas::{PageSchema, put_each_schema, put_text_member};
use json::Writer;
use std::alloc::{AllocError, Global};
use trace_values::tri;

/// Writes what comes before the values of the events.
pub(crate) fn put_head(out: &mut Writer) -> Result<(), AllocError>
    ensures tokens { PutsTokens head_tokens out.old out.new result }
    ensures before { out.new.before ≡ out.old.before }
{
    tri!(out.begin_object());
    tri!(out.key("format"));
    tri!(out.u64(1));
    tri!(out.key("events"));
    tri!(out.begin_object());
    tri!(out.key("values"));
    out.begin_array()
}

/// Writes the end of the values, and the other columns.
pub(crate) fn put_columns(
    alloc: Global,
    out: &mut Writer,
    times: &[u64],
    places: &[usize],
) -> Result<(), AllocError>
    ensures tokens { PutsTokens (columns_end times.now places.now) out.old out.new result }
    ensures before { out.new.before ≡ out.old.before }
{
    tri!(out.end_array());
    tri!(put_time_member(alloc, out, times));
    tri!(put_schema_member(out, places));
    out.end_object()
}

// Writes the member that has the times of events, less that of the first.
fn put_time_member(alloc: Global, out: &mut Writer, times: &[u64]) -> Result<(), AllocError>
    ensures tokens { PutsMember (codes "time")
        (list_json (list_map (time_json (start_of times.now)) times.now)) out.old out.new result }
    ensures before { out.new.before ≡ out.old.before }
{
    out.key("time")?;
    put_times(alloc, out, start_of(times), times)
}

// Writes the member that has the places of their schemas.
fn put_schema_member(out: &mut Writer, places: &[usize]) -> Result<(), AllocError>
    ensures tokens { PutsMember (codes "schema") (list_json (list_map index_json places.now))
        out.old out.new result }
    ensures before { out.new.before ≡ out.old.before }
{
    out.key("schema")?;
    put_indexes(out, places)
}

/// Writes the lists that values name.
pub(crate) fn put_lists(
    alloc: Global,
    out: &mut Writer,
    names: &mut Names,
) -> Result<(), AllocError>
    ensures tokens { PutsLists (tables_of names.new) out.old out.new result }
    ensures grown { OnOk result (Grows (tables_of names.old) (tables_of names.new)) }
    ensures before { out.new.before ≡ out.old.before }
{
    tri!(out.key("stacks"));
    tri!(put_stacks(alloc, out, &mut names.strings, names.stacks.as_slice()));
    tri!(out.key("strings"));
    put_strings(out, names.strings.as_slice())
}

/// Writes the schemas.
pub(crate) fn put_schemas(out: &mut Writer, schemas: &[PageSchema]) -> Result<(), AllocError>
    ensures tokens { PutsMember (codes "schemas") (list_json (list_map schema_json schemas.now))
        out.old out.new result }
    ensures before { out.new.before ≡ out.old.before }
{
    tri!(out.key("schemas"));
    tri!(out.begin_array());
    tri!(put_each_schema(out, schemas));
    out.end_array()
}

/// Writes the clocks of the files.
pub(crate) fn put_clocks(out: &mut Writer, clocks: &[FileClock]) -> Result<(), AllocError>
    ensures tokens { PutsMember (codes "clocks") (list_json (list_map clock_json clocks.now))
        out.old out.new result }
    ensures before { out.new.before ≡ out.old.before }
{
    tri!(out.key("clocks"));
    tri!(out.begin_array());
    tri!(put_each_clock(out, clocks));
    out.end_array()
}

/// Writes the start, why reading ended, the name of the page, and the end of the data.
pub(crate) fn put_last(
    out: &mut Writer,
    start: u64,
    name: &str,
    end: Option<&str>,
) -> Result<(), AllocError>
    ensures tokens { PutsTokens (last_tokens start name.now (option_map (λ t. t.now) end.entry))
        out.old out.new result }
    ensures before { out.new.before ≡ out.old.before }
{
    tri!(out.key("start"));
    tri!(out.quoted_u64(start));
    tri!(put_text_member(out, "end", end));
    tri!(put_text_member(out, "name", Some(name)));
    out.end_object()
}
