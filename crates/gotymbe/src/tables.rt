//! Events as rows of tables, in files of a folder (docs/TOOLS.md, "Tables").

ghost use Rattle.std.specs.Prelude.{IsTrue, IfSome, IfNone, IsSomeAnd, All, slice_get};
ghost use Rattle.trace_events.specs.Schemas.{is_same_schema};

use crate::output::{Place, begin_place};
use crate::pieces::{FrameSink, Picked};
use csv::{ByteRecord, Writer};
use dial9_trace_format::decoder::{DecodedFrame, FeedDecoder};
use gotymbe_plan::ending::Ending;
use gotymbe_plan::tables::{Due, rows_due};
use std::alloc::{AllocError, Global};
use std::fs::File;
use std::mem;
use std::rt::Files;
use trace_csv::cells::put_owned_event;
use trace_csv::columns::put_columns;
use trace_csv::files::table_name;
use trace_csv::manifest::manifest_text;
use trace_csv::tables::push_table;
use trace_events::event::OwnedEvent;
use trace_events::schema::is_same_schema;
use trace_wire::schema::SchemaEntry;

// How many places of tables are looked at first, by wire id.
const GUESSES: usize = 256;

// The events of a schema.
#[derive(Drop)]
struct Table {
    schema: SchemaEntry,
    name: String,
    place: Place,
    rows: u64,
    // Rows that are not written yet, and how many bytes their cells have.
    text: Writer<Vec<u8>>,
    held: u64,
}

/// Writes the events that are asked for as rows of tables. At most one file is open at a time.
#[derive(Drop)]
pub(crate) struct Tables<'c, 'r, R: AllocGlobal + Files<File = File>> {
    rt: &'r R,
    folder: &'c str,
    force: bool,
    pub(crate) picked: Picked<'c>,
    tables: Vec<Table>,
    guesses: [usize; 256],
    row: ByteRecord,
    held: u64,
    /// The file that can't be written, once there is one.
    pub(crate) failed: Option<String>,
}

impl<'c, 'r, R: AllocGlobal + Files<File = File>> Tables<'c, 'r, R> {
    /// Tables of no events.
    pub(crate) fn new(
        rt: &'r R,
        folder: &'c str,
        force: bool,
        picked: Picked<'c>,
    ) -> Tables<'c, 'r, R> {
        Tables {
            rt,
            folder,
            force,
            picked,
            tables: Vec::new(rt.alloc()),
            guesses: [0; GUESSES],
            row: ByteRecord::new(rt.alloc()),
            held: 0,
            failed: None,
        }
    }

    // Where the table of an event's schema stands: at the end, of no events, where it is new.
    fn place_for(&mut self, event: &OwnedEvent<'_>) -> Result<usize, Ending> {
        let guess = event.type_id.0 as usize % GUESSES;
        let place = match place_of(&self.tables, self.guesses[guess], event.schema) {
            Some(place) => place,
            None => self.put_last(event.schema)?,
        };
        self.guesses[guess] = place;
        Ok(place)
    }

    // Begins the table of a schema. Its file is removed where the table can't be kept.
    fn put_last(&mut self, schema: &SchemaEntry) -> Result<usize, Ending> {
        let place = self.tables.len();
        let table = self.begin_table(place as u64 + 1, schema)?;
        match self.tables.push(table) {
            Ok(()) => Ok(place),
            Err(refused) => {
                refused.value.place.give_up(self.rt);
                Err(Ending::OutOfMemory)
            }
        }
    }

    // Begins the table of this number. Its file is begun last: what needs memory comes before.
    fn begin_table(&mut self, number: u64, schema: &SchemaEntry) -> Result<Table, Ending> {
        let alloc = self.rt.alloc();
        let name = table_name(alloc, number, schema.name())?;
        let path = path_of(alloc, self.folder, &name, "csv")?;
        let text = self.first_row(schema)?;
        Ok(Table {
            schema: SchemaEntry::new(alloc, schema.name(), schema.fields())?,
            name,
            place: self.begin(path)?,
            rows: 0,
            text,
            held: 0,
        })
    }

    // The first row of the table of a schema: the names of its columns.
    fn first_row(&mut self, schema: &SchemaEntry) -> Result<Writer<Vec<u8>>, Ending> {
        let alloc = self.rt.alloc();
        let mut text = Writer::from_writer(Vec::new(alloc));
        put_columns(alloc, &mut self.row, schema.fields())?;
        match text.write_byte_record(&self.row) {
            Ok(()) => Ok(text),
            Err(_) => Err(Ending::OutOfMemory),
        }
    }

    // Begins a file.
    fn begin(&mut self, path: String) -> Result<Place, Ending> {
        match begin_place(self.rt, path.as_str(), self.force) {
            Ok(place) => Ok(place),
            Err(ending) => {
                self.failed = Some(path);
                Err(ending)
            }
        }
    }

    // Appends the row of an event to those of a table that are not written yet.
    fn push_row(&mut self, place: usize, event: &OwnedEvent<'_>) -> Result<(), Ending> {
        put_owned_event(self.rt.alloc(), &mut self.row, event)?;
        let Some(table) = self.tables.get_mut(place) else {
            return Ok(());
        };
        if table.text.write_byte_record(&self.row).is_err() {
            return Err(Ending::OutOfMemory);
        }
        let bytes = self.row.as_slice().len() as u64;
        table.rows = table.rows.saturating_add(1);
        table.held = table.held.saturating_add(bytes);
        self.held = self.held.saturating_add(bytes);
        match rows_due(table.held, self.held) {
            Due::Nothing => Ok(()),
            Due::Table => self.write_rows(place),
            Due::All => self.write_all_rows(),
        }
    }

    // Writes the rows of all tables.
    fn write_all_rows(&mut self) -> Result<(), Ending> {
        for place in 0..self.tables.len() {
            self.write_rows(place)?;
        }
        Ok(())
    }

    // Writes the rows of a table that are not written yet.
    fn write_rows(&mut self, place: usize) -> Result<(), Ending> {
        let alloc = self.rt.alloc();
        let Some(table) = self.tables.get_mut(place) else {
            return Ok(());
        };
        let rows = take_rows(alloc, &mut table.text)?;
        self.held = self.held.saturating_sub(table.held);
        table.held = 0;
        match table.place.append(self.rt, &rows) {
            Ok(()) => Ok(()),
            Err(ending) => {
                self.failed = Some(path_of(alloc, self.folder, &table.name, "csv")?);
                Err(ending)
            }
        }
    }

    /// Writes what is not written yet, the texts that create the tables and the manifest, and puts all files under
    /// their names.
    pub(crate) fn finish(&mut self) -> Result<(), Ending> {
        self.write_all_rows()?;
        let (sql, manifest) = self.texts()?;
        let sql = self.write_text("tables.sql", sql.as_bytes())?;
        let manifest = match self.write_text("tables.jsonl", manifest.as_slice()) {
            Ok(manifest) => manifest,
            Err(ending) => {
                sql.give_up(self.rt);
                return Err(ending);
            }
        };
        self.put_under_names(sql, manifest)
    }

    // The texts that create the tables, and the lines of the manifest.
    fn texts(&self) -> Result<(String, Vec<u8>), AllocError> {
        let alloc = self.rt.alloc();
        let (mut sql, mut manifest) = (String::new(alloc), Vec::new(alloc));
        for table in self.tables.as_slice() {
            push_table(alloc, &mut sql, &table.name, table.schema.fields())?;
            let told = manifest_text(alloc, &table.name, &table.schema, table.rows)?;
            manifest.extend_from_slice(told.as_slice())?;
            manifest.push(b'\n')?;
        }
        Ok((sql, manifest))
    }

    // Writes a file of the folder beside its name.
    fn write_text(&mut self, name: &str, text: &[u8]) -> Result<Place, Ending> {
        let path = format!(in self.rt.alloc(); "{}/{name}", self.folder)?;
        let place = self.begin(path)?;
        match place.append(self.rt, text) {
            Ok(()) => Ok(place),
            Err(ending) => {
                place.give_up(self.rt);
                self.failed = Some(format!(in self.rt.alloc(); "{}/{name}", self.folder)?);
                Err(ending)
            }
        }
    }

    // Puts all files under their names, the manifest last.
    fn put_under_names(&mut self, sql: Place, manifest: Place) -> Result<(), Ending> {
        let mut put = Ok(());
        for table in mem::replace(&mut self.tables, Vec::new(self.rt.alloc())) {
            put = self.put_after(put, table.place);
        }
        put = self.put_after(put, sql);
        self.put_after(put, manifest)
    }

    // Puts a file under its name, and removes it where one before it could not be put there.
    fn put_after(&mut self, before: Result<(), Ending>, place: Place) -> Result<(), Ending> {
        match before {
            Ok(()) => self.put_under_name(place),
            Err(ending) => {
                place.give_up(self.rt);
                Err(ending)
            }
        }
    }

    fn put_under_name(&mut self, place: Place) -> Result<(), Ending> {
        match place.finish(self.rt) {
            Ok(()) => Ok(()),
            Err((path, ending)) => {
                self.failed = Some(path);
                Err(ending)
            }
        }
    }

    /// Removes what was written.
    pub(crate) fn give_up(&mut self) {
        for table in mem::replace(&mut self.tables, Vec::new(self.rt.alloc())) {
            table.place.give_up(self.rt);
        }
    }
}

impl<R: AllocGlobal + Files<File = File>> FrameSink for Tables<'_, '_, R> {
    fn frame<'f>(
        &mut self,
        frame: &'f DecodedFrame,
        decoder: &'f FeedDecoder,
        _: u64,
    ) -> Result<(), Ending> {
        let Some(event) = self.picked.pick(frame, decoder)? else {
            return Ok(());
        };
        let place = self.place_for(&event)?;
        self.push_row(place, &event)?;
        self.picked.go_on()
    }
}

// Where the table of a schema stands, if it does: at the guessed place, or elsewhere.
fn place_of(tables: &[Table], guess: usize, schema: &SchemaEntry) -> Option<usize>
    ensures same { IfSome result (λ place. IsSomeAnd (slice_get tables.now place)
        (λ table. IsTrue (is_same_schema table.schema schema.now))) }
    ensures other { IfNone result
        (All (λ table. ¬ IsTrue (is_same_schema table.schema schema.now)) tables.now) }
{
    if let Some(table) = tables.get(guess) {
        if is_same_schema(&table.schema, schema) {
            return Some(guess);
        }
    }
    tables
        .iter()
        .position(|table| is_same_schema(&table.schema, schema))
}

// Takes the rows that are not written yet.
fn take_rows(alloc: Global, text: &mut Writer<Vec<u8>>) -> Result<Vec<u8>, Ending> {
    match mem::replace(text, Writer::from_writer(Vec::new(alloc))).into_inner() {
        Ok(rows) => Ok(rows),
        Err(_) => Err(Ending::OutOfMemory),
    }
}

// The name of a file of a folder.
fn path_of(alloc: Global, folder: &str, name: &str, ending: &str) -> Result<String, AllocError> {
    format!(in alloc; "{folder}/{name}.{ending}")
}
