//! Which field of an event does what.

ghost use Rattle.std.specs.Prelude.{◌≡◌, codes, option_map, option_copied, find, position};
ghost use Rattle.trace_roles.specs.Roles.{of_schema, is_note, note_of, is_role, field_with_role};
ghost use Rattle.trace_roles.specs.Roles.{is_usual_track, track_of, IsShape};

use trace_wire::schema::{FieldAnnotation, FieldDef, SchemaEntry};

/// The field index of annotations that stand for the schema itself.
pub const OF_SCHEMA: u16 = 65_535;

/// What the fields of a schema's events stand for (docs/ROLES.md, "Roles").
#[derive(Clone, Copy, Debug)]
pub struct Roles<'e> {
    /// The index of the field that says the track.
    pub track: Option<usize>,
    /// The index of the field that says how long an event took.
    pub duration: Option<usize>,
    /// The index of the field that names an event.
    pub name: Option<usize>,
    /// The group of which an event begins a slice.
    pub begin: Option<&'e str>,
    /// The group of which an event ends a slice.
    pub end: Option<&'e str>,
}

/// What an event of a schema is in a viewer (docs/ROLES.md, "Shapes").
#[derive(Clone, Copy, Debug)]
pub enum Shape<'e> {
    /// It begins a slice of a group.
    Begins(&'e str),
    /// It ends the slice of a group that began last.
    Ends(&'e str),
    /// It is a slice, and the field with this index says how long it took.
    Slice(usize),
    /// It happened at its time.
    Instant,
}

/// The roles of a schema, by its annotations and by usual names of fields.
pub fn roles_of(entry: &SchemaEntry) -> Roles<'_>
    ensures track { result.track ≡ track_of entry.now }
    ensures duration { result.duration ≡ field_with_role entry.now (codes "duration") }
    ensures name { result.name ≡ field_with_role entry.now (codes "name") }
    ensures begin { option_map (λ t. t.now) result.begin
        ≡ note_of entry.now of_schema (codes "begin") }
    ensures end { option_map (λ t. t.now) result.end
        ≡ note_of entry.now of_schema (codes "end") }
{
    Roles {
        track: track_of(entry),
        duration: field_with_role(entry, "duration"),
        name: field_with_role(entry, "name"),
        begin: note_of(entry, OF_SCHEMA, "begin"),
        end: note_of(entry, OF_SCHEMA, "end"),
    }
}

impl<'e> Roles<'e> {
    /// What an event with these roles is: it begins a slice, else ends one, else is one, else is an instant.
    pub fn shape(&self) -> Shape<'e>
        ensures { IsShape self.now result }
    {
        if let Some(group) = self.begin {
            return Shape::Begins(group);
        }
        if let Some(group) = self.end {
            return Shape::Ends(group);
        }
        match self.duration {
            Some(index) => Shape::Slice(index),
            None => Shape::Instant,
        }
    }
}

/// What the first annotation of a field with this key says.
pub fn note_of<'e>(entry: &'e SchemaEntry, index: u16, key: &str) -> Option<&'e str>
    ensures { option_map (λ t. t.now) result ≡ note_of entry.now index key.now }
{
    match find_note(entry.annotations(), index, key) {
        Some(note) => Some(note.value()),
        None => None,
    }
}

// The first annotation of a field with this key.
fn find_note<'e>(notes: &'e [FieldAnnotation], index: u16, key: &str) -> Option<&'e FieldAnnotation>
    ensures { option_copied result ≡ find (is_note index key.now) notes.now }
{
    notes.iter().find(|note| is_note(note, index, key))
}

// Whether an annotation is of a field and has a key.
fn is_note(note: &FieldAnnotation, index: u16, key: &str) -> bool
    ensures { result ≡ is_note index key.now note.now }
{
    note.field_index() == index && note.key() == key
}

/// The field at which the first annotation with this role stands, of those that stand at a field.
pub fn field_with_role(entry: &SchemaEntry, role: &str) -> Option<usize>
    ensures { result ≡ field_with_role entry.now role.now }
{
    match find_role(entry.annotations(), entry.fields().len(), role) {
        Some(note) => Some(usize::from(note.field_index())),
        None => None,
    }
}

// The first annotation with a role at a field, by how many fields there are.
fn find_role<'e>(
    notes: &'e [FieldAnnotation],
    count: usize,
    role: &str,
) -> Option<&'e FieldAnnotation>
    ensures { option_copied result ≡ find (is_role count role.now) notes.now }
{
    notes.iter().find(|note| is_role(note, count, role))
}

// Whether an annotation says that its field has a role, by how many fields there are.
fn is_role(note: &FieldAnnotation, count: usize, role: &str) -> bool
    ensures { result ≡ is_role count role.now note.now }
{
    usize::from(note.field_index()) < count && (note.key() == "role" && note.value() == role)
}

// The field that says the track: that with the role, and else the first that has a usual name.
fn track_of(entry: &SchemaEntry) -> Option<usize>
    ensures { result ≡ track_of entry.now }
{
    match field_with_role(entry, "tid") {
        Some(index) => Some(index),
        None => usual_track(entry.fields()),
    }
}

// The first field that has a usual name of one that says the track.
fn usual_track(fields: &[FieldDef]) -> Option<usize>
    ensures { result ≡ position (λ f. is_usual_track f.name) fields.now }
{
    fields.iter().position(|field| is_usual_track(field.name()))
}

// Whether fields of this name usually say the track.
fn is_usual_track(name: &str) -> bool
    ensures { result ≡ is_usual_track name.now }
{
    name == "tid" || (name == "worker_id" || (name == "worker" || name == "thread"))
}
