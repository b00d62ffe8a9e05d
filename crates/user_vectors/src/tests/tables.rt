//! Traces written by hand after docs/FORMAT.md, and their tables as Python's `csv` and `json` write them, by a sink.
//! `gotymbe` writes the same tables by frames (`runs/csv_rows`).

mod ample;

use csv::{ByteRecord, Writer, WriterBuilder};
use dial9_trace_format::decoder::{Decoder, EventSink, RawEvent};
use std::alloc::Global;
use std::process::Abort;
use trace_csv::cells::put_event;
use trace_csv::columns::put_columns;
use trace_csv::files::table_name;
use trace_csv::manifest::manifest_text;
use trace_csv::tables::push_table;
use trace_values::types::FieldType;
use trace_wire::schema::{FieldDef, SchemaEntry};

/// Traces in hexadecimal digits, each with the rows of its events.
pub const ROWS: [(&str, &str); 10] = [
    // one number
    (
        "54524300010100010200457601010001007609020001e803002a",
        "1000,42\n",
    ),
    // no field, and none
    (
        "54524300010100010000010000020001000000020001010000",
        "0\n1\n",
    ),
    // numbers
    (
        "545243000101000101004e01090001006101010061090100620b0100630c0100640d0100650301006503010061\
         8100008105ffffffffffffffff0200010000000000000000000080ffffffffffffffffff01ffffffffffffff01\
         000001ffffffffffffffff",
        "18446744073709551615,-9223372036854775808,18446744073709551615,255,65535,4294967295,true,f\
         alse,,-1\n",
    ),
    // floats
    (
        "545243000101000101004601080001006602010066020100660201006602010066020100660201006602010066\
         0202000100000000000000000000000000000000000080000000000000f83f9a9999999999b9bf010000000000\
         0000000000000000100000008054346f9d4104003426f56b0c43",
        "0,0.0,-0.0,1.5,-0.1,5e-324,2.2250738585072014e-308,123456789.125,1000000000000000.5\n",
    ),
    // special floats
    (
        "545243000101000101004601050001006602010066020100660201006602010066020200010000000000000000\
         00f07f000000000000f0ff000000000000f87fffffffffffffffff010000000000f07f",
        "0,Infinity,-Infinity,NaN:0x7ff8000000000000,NaN:0xffffffffffffffff,NaN:0x7ff0000000000001\
         \n",
    ),
    // texts and bytes
    (
        "5452430001010001150061225c2f080c0a0d09001f7fc3a9e282acf09f9880010300150061225c2f080c0a0d09\
         001f7fc3a9e282acf09f98800401006205010062050200010000001500000061225c2f080c0a0d09001f7fc3a9\
         e282acf09f98800300000000ff9a00000000",
        "0,\"a\"\"\\/\x08\x0c\n\r\t\x00\x1f\x7f\u{e9}\u{20ac}\u{1f600}\",\"{\"\"hex\"\":\"\"00ff9a\
         \"\"}\",\"{\"\"hex\"\":\"\"\"\"}\"\n",
    ),
    // maps of texts
    (
        "545243000101000101004d01020001006d0a01006d0a02000100000003000000010000006b0100000076010000\
         00ff0100000077010000006b02000000807800000000",
        "0,\"[[\"\"k\"\",\"\"v\"\"],[{\"\"hex\"\":\"\"ff\"\"},\"\"w\"\"],[\"\"k\"\",{\"\"hex\"\":\"\
         \"8078\"\"}]]\",[]\n",
    ),
    // pools
    (
        "545243000103020000000700000005000000736576656e0800000001000000ff04020000000300000002000000\
         0000000000000000ffffffffffffffff0400000000000000010001010050010700010074070100740701007407\
         010073060100730601007306010073080200010000000700000008000000ffffffff0300000004000000070000\
         00020000000a00000000000000ff00000000000000",
        "0,seven,\"{\"\"unresolved_text\"\":8}\",\"{\"\"unresolved_text\"\":4294967295}\",\"[\"\"0x\
         0\"\",\"\"0xffffffffffffffff\"\"]\",[],\"{\"\"unresolved_stack\"\":7}\",\"[\"\"0xa\"\",\"\
         \"0xff\"\"]\"\n",
    ),
    // lists and maps
    (
        "5452430001030100000001000000030000006f6e6501000101004401020001006c0e01006d0f02000105000004\
         00000009010e000000000f0100000004010000006b0e0200000007010000000702000000020000000000000440\
         02000000090103010801000000100000000000000005010000007a",
        "5,\"[1,[],[[\"\"k\"\",[\"\"one\"\",{\"\"unresolved_text\"\":2}]]],2.5]\",\"[[1,true],[[\"\
         \"0x10\"\"],{\"\"hex\"\":\"\"7a\"\"}]]\"\n",
    ),
    // a header after
    (
        "5452430001030100000001000000030000006f6e65010001010041010100010074070200010900000100000054\
         524300010100010100420101000100750702000101000001000000",
        "9,one\n1,\"{\"\"unresolved_text\"\":1}\"\n",
    ),
];

/// The rows of events.
#[derive(Drop)]
struct Rows {
    alloc: Global,
    row: ByteRecord,
    text: Writer<Vec<u8>>,
}

impl<'a> EventSink<'a, csv::Error> for Rows {
    ghost step = { λ _ _ _ _. Unit {0} };

    fn event(&mut self, event: &RawEvent<'a, '_>) -> Result<(), csv::Error> {
        if put_event(self.alloc, &mut self.row, event).is_err() {
            return Err(csv::Error::out_of_memory());
        }
        self.text.write_byte_record(&self.row)?;
        self.text.flush()
    }
}

/// No rows yet, each of any length.
fn no_rows(alloc: Global) -> Rows {
    let text = WriterBuilder::new()
        .flexible(true)
        .from_writer(Vec::new(alloc));
    Rows {
        alloc,
        row: ByteRecord::new(alloc),
        text,
    }
}

/// The rows are these.
fn are_rows(rows: &Rows, wanted: &str) -> bool {
    rows.text.get_ref().as_slice() == wanted.as_bytes()
}

/// Whether a trace has exactly these rows.
fn has_rows(alloc: Global, trace: &[u8], wanted: &str) -> bool {
    let mut rows = no_rows(alloc);
    let Some(mut decoder) = Decoder::new(alloc, trace) else {
        return false;
    };
    decoder.try_for_each_event(&mut rows).is_ok() && are_rows(&rows, wanted)
}

#[test]
fn events(rt: HostRuntime) {
    let alloc = rt.alloc();
    for (trace, wanted) in ROWS {
        let trace = hex::decode(alloc, trace).expect(&rt, "memory");
        assert!(rt; has_rows(alloc, &trace, wanted));
    }
}

/// Fields of these names and these types.
fn fields_of(rt: &impl Abort, alloc: Global, named: &[(&str, FieldType)]) -> Vec<FieldDef> {
    let mut fields = Vec::new(alloc);
    for (name, field_type) in named {
        let field = FieldDef::new(alloc, name, *field_type).expect(rt, "memory");
        fields.push(field).expect(rt, "memory");
    }
    fields
}

/// The row of the columns of fields with these names.
fn column_row(rt: &impl Abort, alloc: Global, names: &[&str]) -> ByteRecord {
    let mut fields = Vec::new(alloc);
    for name in names {
        let field = FieldDef::new(alloc, name, FieldType::Varint).expect(rt, "memory");
        fields.push(field).expect(rt, "memory");
    }
    let mut row = ByteRecord::new(alloc);
    put_columns(alloc, &mut row, fields.as_slice()).expect(rt, "memory");
    row
}

/// The names of those columns, a `|` after each.
fn columns(rt: &impl Abort, alloc: Global, names: &[&str]) -> String {
    let row = column_row(rt, alloc, names);
    let mut text = String::new(alloc);
    for place in 0..row.len() {
        let cell = row.get(place).unwrap_or(b"");
        text.push_str(str::from_utf8(cell).unwrap_or("?"))
            .expect(rt, "memory");
        text.push('|').expect(rt, "memory");
    }
    text
}

/// Names of fields, and of the columns of a table of them.
const COLUMNS: [(&[&str], &str); 7] = [
    (&[], "timestamp_ns|"),
    (&["a", "b"], "timestamp_ns|a|b|"),
    (&["a", "A", "a"], "timestamp_ns|a|A#2|a#3|"),
    (&["", ""], "timestamp_ns|#1|#2|"),
    (&["Timestamp_NS"], "timestamp_ns|Timestamp_NS#1|"),
    (&["x#2", "x", "x"], "timestamp_ns|#1|x|x#3|"),
    (&["a\nb", "a\"b", "a\0"], "timestamp_ns|#1|#2|#3|"),
];

#[test]
fn names_of_columns(rt: HostRuntime) {
    for (names, wanted) in COLUMNS {
        assert!(rt; columns(&rt, rt.alloc(), names).as_str() == wanted);
    }
}

/// A number and the name of a schema, and the name of its table.
const TABLES: [(u64, &str, &str); 5] = [
    (1, "Poll_2-x", "1-Poll_2-x"),
    (12, "../etc/passwd", "12-etcpasswd"),
    (0, "a\0b\n\u{e9}c", "0-abc"),
    (18446744073709551615, "", "18446744073709551615-"),
    (
        7,
        "0123456789012345678901234567890123456789012345678901234567890123456789",
        "7-0123456789012345678901234567890123456789012345678901234567890123",
    ),
];

#[test]
fn names_of_tables(rt: HostRuntime) {
    for (number, name, wanted) in TABLES {
        let found = table_name(rt.alloc(), number, name).expect(&rt, "memory");
        assert!(rt; found.as_str() == wanted);
    }
}

/// The manifest of a table of so many rows, of a schema of these fields, is this one.
fn is_manifest(
    rt: &impl Abort,
    alloc: Global,
    names: (&str, &str),
    fields: &[FieldDef],
    rows: u64,
    wanted: &str,
) -> bool {
    let (table, schema) = names;
    let schema = SchemaEntry::new(alloc, schema, fields).expect(rt, "memory");
    let text = manifest_text(alloc, table, &schema, rows).expect(rt, "memory");
    text.as_slice() == wanted.as_bytes()
}

#[test]
fn texts_of_manifests(rt: HostRuntime) {
    let alloc = rt.alloc();
    let fields = fields_of(
        &rt,
        alloc,
        &[("worker", FieldType::Varint), ("a\nb\0\"", FieldType::Bool)],
    );
    let names = ("1-P", "../P");
    assert!(rt; is_manifest(&rt, alloc, names, &fields, 18446744073709551615, MANIFEST));
    assert!(rt; is_manifest(&rt, alloc, ("2-", ""), &[], 0, EMPTY));
}

const EMPTY: &str = "{\"table\":\"2-\",\"schema\":\"\",\"rows\":0,\"fields\":[]}";

const MANIFEST: &str = "{\"table\":\"1-P\",\"schema\":\"../P\",\"rows\":18446744073709551615,\
                        \"fields\":[\"worker\",\"a\\nb\\u0000\\\"\"]}";

/// The fields of a table.
const FIELDS: [(&str, FieldType); 5] = [
    ("n", FieldType::U16),
    ("i", FieldType::OptionalI64),
    ("f", FieldType::F64),
    ("b", FieldType::Bool),
    ("t", FieldType::PooledString),
];

#[test]
fn texts_of_tables(rt: HostRuntime) {
    let fields = fields_of(&rt, rt.alloc(), &FIELDS);
    let mut text = String::new(rt.alloc());
    push_table(rt.alloc(), &mut text, "1-Ev", fields.as_slice()).expect(&rt, "memory");
    assert!(rt; text.as_str() == TABLE);
}

const TABLE: &str =
    "CREATE TABLE \"1-Ev\" (\n  \"timestamp_ns\" UBIGINT,\n  \"n\" UBIGINT,\n  \"i\" BIGINT,\n\
     \x20 \"f\" DOUBLE,\n  \"b\" BOOLEAN,\n  \"t\" VARCHAR\n);\n";
