//! Definitions of each number of fields, of each number of annotations, and with names of each length, with ample
//! memory: their fields, their schemas, and the frames of these.

use dial9_trace_format::definition::{Definition, entry_of, fields_of};
use dial9_trace_format::encoder::{Encoder, Schema};
use dial9_trace_format::types::FieldType;
use std::alloc::Global;
use std::process::Abort;

/// Counts and lengths up to here, without a gap.
const EACH: usize = 301;

const MORE: [usize; 2] = [4_096, 65_535];

/// So many fields, annotations, and bytes of a name.
#[derive(Clone, Copy)]
pub struct Sizes {
    fields: usize,
    notes: usize,
    name: usize,
}

/// What definitions have fronts of. It is never freed, as what constants lend.
#[derive(Clone, Copy)]
pub struct Longest {
    fields: &'static [(&'static str, FieldType)],
    notes: &'static [(u16, &'static str, &'static str)],
    name: &'static str,
}

fn made_longest(rt: &impl Abort, alloc: Global) -> Longest {
    let fields = vec![in alloc; ("f", FieldType::U8); 65_535].expect(rt, "memory");
    let notes = vec![in alloc; (0u16, "k", "v"); 65_535].expect(rt, "memory");
    let letters = vec![in alloc; b'x'; 65_535].expect(rt, "memory");
    Longest {
        fields: fields.leak(),
        notes: notes.leak(),
        name: str::from_utf8(letters.leak()).expect(rt, "a text"),
    }
}

impl Longest {
    /// A definition of these sizes.
    fn front(self, sizes: Sizes) -> Definition {
        (
            self.name.get(..sizes.name).unwrap_or(""),
            self.fields.get(..sizes.fields).unwrap_or(&[]),
            self.notes.get(..sizes.notes).unwrap_or(&[]),
        )
    }
}

/// The sizes of the schema of a definition, and how many bytes a trace has in which it is registered.
fn entry_sizes(rt: &impl Abort, alloc: Global, definition: Definition) -> (Sizes, usize) {
    let entry = entry_of(alloc, definition).expect(rt, "memory");
    let sizes = Sizes {
        fields: entry.fields().len(),
        notes: entry.annotations().len(),
        name: entry.name().len(),
    };
    let schema = Schema::from_entry(alloc, entry).expect(rt, "memory");
    let mut encoder = Encoder::new(alloc).expect(rt, "no refusal");
    encoder.register_existing(&schema).expect(rt, "no refusal");
    (sizes, encoder.finish().len())
}

/// How many bytes the header, the schema and its annotations have after docs/FORMAT.md.
fn count_bytes(sizes: Sizes) -> usize {
    let schema = sizes.fields.saturating_mul(4).saturating_add(sizes.name);
    let notes = if sizes.notes == 0 {
        0
    } else {
        sizes.notes.saturating_mul(10).saturating_add(5)
    };
    schema.saturating_add(notes).saturating_add(13)
}

/// Whether all of a definition of these sizes is made.
fn is_made(rt: &impl Abort, alloc: Global, longest: Longest, sizes: Sizes) -> bool {
    let (found, bytes) = entry_sizes(rt, alloc, longest.front(sizes));
    (found.fields, found.notes, found.name) == (sizes.fields, sizes.notes, sizes.name)
        && bytes == count_bytes(sizes)
}

/// Whether so many fields are made.
fn are_fields(rt: &impl Abort, alloc: Global, longest: Longest, count: usize) -> bool {
    let sizes = Sizes {
        fields: count,
        notes: 0,
        name: 1,
    };
    let fields = fields_of(alloc, longest.front(sizes)).expect(rt, "memory");
    fields.len() == count && is_made(rt, alloc, longest, sizes)
}

#[test]
fn definitions_of_each_count_of_fields(rt: HostRuntime) {
    let longest = made_longest(&rt, rt.alloc());
    for count in 0..EACH {
        assert!(rt; are_fields(&rt, rt.alloc(), longest, count));
    }
    for count in MORE {
        assert!(rt; are_fields(&rt, rt.alloc(), longest, count));
    }
}

/// Whether so many annotations of a field are made.
fn are_notes(rt: &impl Abort, alloc: Global, longest: Longest, count: usize) -> bool {
    let sizes = Sizes {
        fields: 1,
        notes: count,
        name: 1,
    };
    is_made(rt, alloc, longest, sizes)
}

#[test]
fn definitions_of_each_count_of_annotations(rt: HostRuntime) {
    let longest = made_longest(&rt, rt.alloc());
    for count in 0..EACH {
        assert!(rt; are_notes(&rt, rt.alloc(), longest, count));
    }
    for count in MORE {
        assert!(rt; are_notes(&rt, rt.alloc(), longest, count));
    }
}

/// Whether a name of so many bytes is taken, and as few of the others as that.
fn is_named(rt: &impl Abort, alloc: Global, longest: Longest, name: usize) -> bool {
    let few = name.min(64);
    let sizes = Sizes {
        fields: few,
        notes: few,
        name,
    };
    is_made(rt, alloc, longest, sizes)
}

#[test]
fn definitions_of_each_length_of_name(rt: HostRuntime) {
    let longest = made_longest(&rt, rt.alloc());
    for size in 0..EACH {
        assert!(rt; is_named(&rt, rt.alloc(), longest, size));
    }
    for size in MORE {
        assert!(rt; is_named(&rt, rt.alloc(), longest, size));
    }
}
