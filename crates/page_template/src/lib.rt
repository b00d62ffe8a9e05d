//! A page without its data (viewer/DATA.md), as `tools/page --constant` prints it of viewer/.
#![tactic(auto)]

/// What stands before the data.
pub const HEAD: &str = "<!doctype html>
<html lang=\"en\">
<head>
<meta charset=\"utf-8\">
<meta http-equiv=\"Content-Security-Policy\" content=\"default-src 'none';
  script-src 'sha256-MOjiQ+eAWmx/k4LT4GrQWb28I/v3DAKAOr4wUP7HVSQ=';
  style-src 'sha256-7Ce6TegYy3iLcNdVChw1ebDIc3OwkziIPAnwY40L0Lc=';
  img-src data:;
  base-uri 'none';
  form-action 'none';
  require-trusted-types-for 'script';
  trusted-types 'none'\">
<meta name=\"viewport\" content=\"width=device-width, initial-scale=1\">
<meta name=\"color-scheme\" content=\"light dark\">
<meta name=\"referrer\" content=\"no-referrer\">
<link rel=\"icon\" href=\"data:,\">
<title>Trace</title>
<style>
/* The look of the page. Colours are named once for light and once for dark; page.js reads them for what it draws.
   `--mark` and `--slice` are a lightness and a chroma, to which it adds the hue of a name. */

:root {
  color-scheme: light;
  --ground: #ffffff;
  --raised: #f6f7f8;
  --line: #e2e4e8;
  --faint: #eef0f2;
  --text: #1d2127;
  --muted: #626a75;
  --accent: #1f5fd0;
  --accent-ground: #e6eefb;
  --warning: #8a4b00;
  --warning-ground: #fff3df;
  --counter: #2f7d6b;
  --mark: 0.58 0.12;
  --slice: 0.86 0.07;
  --slice-text: #16191d;
  --font: system-ui, -apple-system, \"Segoe UI\", Roboto, \"Noto Sans\", \"DejaVu Sans\", sans-serif;
  --gap: 8px;
}

:root[data-theme=\"dark\"] {
  color-scheme: dark;
  --ground: #15181c;
  --raised: #1c2025;
  --line: #2d333b;
  --faint: #22272d;
  --text: #e4e7eb;
  --muted: #9aa3ae;
  --accent: #7fabf5;
  --accent-ground: #22314a;
  --warning: #f0b866;
  --warning-ground: #3a2c14;
  --counter: #5fbfa8;
  --mark: 0.72 0.1;
  --slice: 0.46 0.07;
  --slice-text: #f4f5f7;
}

* { box-sizing: border-box; }
[hidden] { display: none !important; }

html, body { height: 100%; margin: 0; }

body {
  display: flex;
  flex-direction: column;
  overflow: hidden;
  color: var(--text);
  background: var(--ground);
  font: 13px/1.4 var(--font);
  font-variant-numeric: tabular-nums;
}

p, h1, h2 { margin: 0; }
h1, h2 { font-size: 14px; font-weight: 600; }
table { border-collapse: collapse; }
bdi, [dir=\"auto\"] { unicode-bidi: isolate; }

.unseen { position: absolute; width: 1px; height: 1px; overflow: hidden; clip-path: inset(50%); }
.muted { color: var(--muted); }

:focus { outline: none; }
:focus-visible { outline: 2px solid var(--accent); outline-offset: -2px; }

/* Controls */

button, input, select {
  height: 26px;
  padding: 0 10px;
  color: inherit;
  background: var(--ground);
  border: 1px solid var(--line);
  border-radius: 5px;
  font: inherit;
}

button { cursor: pointer; white-space: nowrap; }
button:hover { background: var(--faint); }
button:disabled { color: var(--muted); cursor: default; }
select { padding: 0 4px; }
input[type=\"checkbox\"] { height: auto; margin: 0 4px 0 0; vertical-align: -2px; accent-color: var(--accent); }

kbd {
  display: inline-block;
  min-width: 20px;
  padding: 0 5px;
  border: 1px solid var(--line);
  border-radius: 4px;
  background: var(--raised);
  font: 12px/18px var(--font);
  text-align: center;
}

code { padding: 1px 4px; border-radius: 4px; background: var(--raised); font: 12px ui-monospace, monospace; }

/* The head of the page */

header {
  display: flex;
  flex: none;
  flex-wrap: wrap;
  align-items: center;
  gap: var(--gap);
  padding: var(--gap) 12px;
  background: var(--raised);
  border-bottom: 1px solid var(--line);
}

#name { max-width: 40%; overflow: hidden; text-overflow: ellipsis; white-space: nowrap; }
#facts { flex: 1 1 200px; overflow: hidden; color: var(--muted); text-overflow: ellipsis; white-space: nowrap; }
#search { position: relative; display: flex; gap: 4px; }
#query { width: 300px; padding-right: 84px; }
#found { position: absolute; right: 68px; line-height: 26px; color: var(--muted); pointer-events: none; }
#search button, #theme, #help { width: 28px; padding: 0; }
#range { color: var(--accent); background: var(--accent-ground); border-color: transparent; }
#range::after { content: \" \\00d7\"; }

#notice {
  flex: none;
  padding: 6px 12px;
  color: var(--warning);
  background: var(--warning-ground);
  border-bottom: 1px solid var(--line);
  overflow: auto;
  max-height: 25%;
  overflow-wrap: anywhere;
}

/* The four parts: the timeline above, a divider, the lists and the details beside each other below */

main {
  display: grid;
  flex: 1;
  min-height: 0;
  grid-template: var(--timeline, 45%) 7px minmax(0, 1fr) / minmax(0, 1fr) 320px;
  grid-template-areas: \"timeline timeline\" \"divider divider\" \"lists details\";
}

#timeline { grid-area: timeline; }
#divider { grid-area: divider; cursor: row-resize; background: var(--raised); border-block: 1px solid var(--line); }
#divider:hover { background: var(--line); }
#lists { grid-area: lists; display: flex; flex-direction: column; min-width: 0; min-height: 0; }
#details { grid-area: details; overflow: auto; padding: 12px; border-left: 1px solid var(--line); }

@media (max-width: 859px) {
  main {
    grid-template: var(--timeline, 38%) 7px minmax(0, 1fr) minmax(0, 0.62fr) / minmax(0, 1fr);
    grid-template-areas: \"timeline\" \"divider\" \"lists\" \"details\";
  }
  #details { border-left: none; border-top: 1px solid var(--line); }
  main.bare { grid-template-rows: var(--timeline, 38%) 7px minmax(0, 1fr) 0; }
  .bare #details { display: none; }
  #facts { flex-basis: 60%; }
  #search { flex: 1; }
  #query { flex: 1; width: 160px; }
}

/* A canvas as large as the part that is seen, over a sheet as high as what it draws of */

.drawn { position: relative; min-height: 0; overflow: hidden auto; }
.drawn canvas { position: sticky; top: 0; display: block; }
#tracks { cursor: default; touch-action: none; }

#tip {
  position: fixed;
  z-index: 2;
  max-width: min(360px, calc(100vw - 8px));
  padding: 6px 9px;
  background: var(--ground);
  border: 1px solid var(--line);
  border-radius: 5px;
  box-shadow: 0 2px 8px rgb(0 0 0 / 18%);
  pointer-events: none;
  overflow-wrap: anywhere;
}

#tip p:first-child { font-weight: 600; }

/* The lists */

nav {
  display: flex;
  flex: none;
  align-items: center;
  gap: 12px;
  padding: 0 12px;
  border-bottom: 1px solid var(--line);
}

[role=\"tablist\"] { flex: none; }
nav p { overflow: hidden; color: var(--muted); text-overflow: ellipsis; white-space: nowrap; }

[role=\"tab\"] {
  height: 34px;
  padding: 0 10px;
  background: none;
  border: none;
  border-bottom: 2px solid transparent;
  border-radius: 0;
  color: var(--muted);
}

[role=\"tab\"][aria-selected=\"true\"] { color: var(--text); border-bottom-color: var(--accent); }

.panel { flex: 1; min-height: 0; }
#summary { overflow: auto; }
#flame { display: flex; flex-direction: column; }
#stacks { flex: 1; }
#flame-bar { display: flex; flex: none; flex-wrap: wrap; align-items: center; gap: 4px 16px; padding: 6px 12px; }
#flame-bar select { max-width: 220px; }
#frame { flex: 1 1 260px; overflow: hidden; color: var(--muted); text-overflow: ellipsis; white-space: nowrap; }

#rows { height: 100%; overflow: auto; }
#rows .sheet { position: relative; min-width: 100%; }
#rows table { position: sticky; top: 0; table-layout: fixed; width: 100%; }

th, td { padding: 0 12px; text-align: left; font-weight: 400; white-space: nowrap; }
#rows th, #rows td { height: 24px; overflow: hidden; text-overflow: ellipsis; }
#rows th, #summary th { height: 26px; background: var(--raised); color: var(--muted); }
#rows th, #summary th { padding: 0; }
#summary th { position: sticky; top: 0; }
#rows tbody tr { cursor: default; }
#rows tbody tr:hover, #summary tbody tr:hover { background: var(--faint); }
#rows tbody tr[aria-selected=\"true\"] { background: var(--accent-ground); }
.number { text-align: right; }

th button { width: 100%; height: 26px; padding: 0 12px; background: none; border: none; border-radius: 0; }
th button { overflow: hidden; color: inherit; text-align: inherit; text-overflow: ellipsis; }
th[aria-sort] button { color: var(--text); }
th[aria-sort=\"ascending\"] button::after { content: \" \\2191\"; }
th[aria-sort=\"descending\"] button::after { content: \" \\2193\"; }

.key { margin-right: 4px; color: var(--muted); }
td .key ~ .key { margin-left: 14px; }
.swatch { display: inline-block; width: 9px; height: 9px; margin-right: 7px; border-radius: 2px; }

#summary table { width: 100%; }
#summary td { height: 26px; border-bottom: 1px solid var(--faint); }
#summary td:last-child { width: 100%; max-width: 0; overflow: hidden; color: var(--muted); text-overflow: ellipsis; }
#summary td button { height: 22px; padding: 0; color: var(--accent); background: none; border: none; }
#summary td button:hover { text-decoration: underline; }

.empty { padding: 24px 12px; color: var(--muted); }

/* The details of the selected event */

#details h2, #details p { overflow-wrap: anywhere; }
#details h2 { margin-bottom: 2px; }
#details h3 { margin: 14px 0 4px; color: var(--muted); font-size: 12px; font-weight: 400; }
#details table { width: 100%; margin-top: 6px; table-layout: fixed; }
#details td { padding: 3px 0; vertical-align: top; white-space: pre-wrap; overflow-wrap: anywhere; }
#details td:first-child { width: 108px; padding-right: 12px; color: var(--muted); }
#details tr + tr td { border-top: 1px solid var(--faint); }
#details ol { margin: 0; padding: 0 0 0 28px; color: var(--muted); }
#details li { padding: 1px 0; overflow-wrap: anywhere; }
#details li bdi { color: var(--text); }
#details .exact { display: block; color: var(--muted); }
#details p.warning { margin-top: 6px; color: var(--warning); }
#details nav { gap: 6px; margin: 10px 0 0; padding: 0; border: none; }

/* The keys */

dialog {
  width: min(820px, calc(100vw - 32px));
  padding: 20px;
  color: var(--text);
  background: var(--ground);
  border: 1px solid var(--line);
  border-radius: 8px;
}

dialog::backdrop { background: rgb(0 0 0 / 35%); }
dialog h2 { margin-bottom: 8px; }
dialog td { padding: 3px 16px 3px 0; white-space: normal; }
dialog p { margin: 6px 0; max-width: 70ch; }
dialog caption { padding-bottom: 4px; color: var(--muted); text-align: left; }
dialog .columns { display: grid; gap: 8px 24px; margin-bottom: 16px; }
dialog .columns { grid-template-columns: repeat(auto-fit, minmax(min(330px, 100%), 1fr)); }
dialog table { margin-bottom: 8px; }
dialog form { margin-top: 12px; text-align: right; }
</style>
</head>
<body>
<header>
  <h1 id=\"name\" dir=\"auto\">Trace</h1>
  <p id=\"facts\">Reading the trace.</p>
  <form id=\"search\" role=\"search\">
    <input id=\"query\" type=\"text\" aria-label=\"Search\" placeholder=\"Search: text, or field&gt;10us\"
      spellcheck=\"false\" autocomplete=\"off\" autocapitalize=\"off\">
    <output id=\"found\" for=\"query\"></output>
    <button type=\"button\" id=\"previous\" title=\"Shift+N\" aria-label=\"Previous match\">&#x2039;</button>
    <button type=\"button\" id=\"next\" title=\"N\" aria-label=\"Next match\">&#x203a;</button>
  </form>
  <button type=\"button\" id=\"range\" title=\"Esc\" hidden></button>
  <button type=\"button\" id=\"whole\" title=\"0\">Whole trace</button>
  <button type=\"button\" id=\"theme\" title=\"T\" aria-label=\"Light or dark\">&#x25d0;</button>
  <button type=\"button\" id=\"help\" title=\"?\" aria-label=\"Keys and search\">?</button>
</header>
<div id=\"notice\" role=\"alert\" hidden></div>
<main>
  <section id=\"timeline\" class=\"drawn\" aria-label=\"Timeline\">
    <div class=\"sheet\">
      <canvas id=\"tracks\" tabindex=\"0\" role=\"application\" aria-label=\"Timeline\"></canvas>
    </div>
  </section>
  <div id=\"divider\" role=\"separator\" tabindex=\"0\" aria-label=\"Height of the timeline\"
    aria-orientation=\"horizontal\"></div>
  <section id=\"lists\" aria-label=\"Lists\">
    <nav>
      <div role=\"tablist\" aria-label=\"Lists\">
        <button type=\"button\" role=\"tab\" id=\"tab-table\" aria-controls=\"table\">Events</button>
        <button type=\"button\" role=\"tab\" id=\"tab-flame\" aria-controls=\"flame\">Flame graph</button>
        <button type=\"button\" role=\"tab\" id=\"tab-summary\" aria-controls=\"summary\">Summary</button>
      </div>
      <p id=\"listed\"></p>
    </nav>
    <div id=\"table\" class=\"panel\" role=\"tabpanel\" aria-labelledby=\"tab-table\">
      <div id=\"rows\" tabindex=\"0\" aria-label=\"Events\">
        <div class=\"sheet\"><table><thead><tr></tr></thead><tbody></tbody></table></div>
      </div>
    </div>
    <div id=\"flame\" class=\"panel\" role=\"tabpanel\" aria-labelledby=\"tab-flame\" hidden>
      <div id=\"flame-bar\">
        <label>Width <select id=\"weight\"></select></label>
        <label><input type=\"checkbox\" id=\"inverted\"> Innermost first</label>
        <button type=\"button\" id=\"unzoom\" hidden>All stacks</button>
        <p id=\"frame\" dir=\"ltr\"></p>
      </div>
      <div id=\"stacks\" class=\"drawn\">
        <div class=\"sheet\">
          <canvas id=\"frames\" tabindex=\"0\" role=\"application\" aria-label=\"Flame graph\"
            aria-describedby=\"frame\"></canvas>
        </div>
      </div>
    </div>
    <div id=\"summary\" class=\"panel\" role=\"tabpanel\" aria-labelledby=\"tab-summary\" tabindex=\"0\" hidden>
      <table><thead><tr></tr></thead><tbody></tbody></table>
    </div>
  </section>
  <aside id=\"details\" tabindex=\"0\" aria-label=\"The selected event\"></aside>
</main>
<div id=\"tip\" hidden></div>
<p id=\"said\" class=\"unseen\" aria-live=\"polite\"></p>
<dialog id=\"keys\" aria-labelledby=\"keys-title\" autofocus>
  <h2 id=\"keys-title\">Keys</h2>
  <div class=\"columns\">
    <div>
      <table>
        <tbody>
          <tr><td><kbd>/</kbd></td><td>search</td></tr>
          <tr><td><kbd>N</kbd> <kbd>Shift+N</kbd></td><td>next, previous match</td></tr>
          <tr><td><kbd>F</kbd></td><td>fit the selection, or the range</td></tr>
          <tr><td><kbd>0</kbd></td><td>the whole trace</td></tr>
          <tr><td><kbd>R</kbd></td><td>a range: the selection, or what is seen</td></tr>
          <tr><td><kbd>Esc</kbd></td><td>drop the search, the range, the selection</td></tr>
          <tr><td><kbd>1</kbd> <kbd>2</kbd> <kbd>3</kbd></td><td>events, flame graph, summary</td></tr>
          <tr><td><kbd>T</kbd></td><td>light or dark</td></tr>
        </tbody>
      </table>
    </div>
    <div>
      <table>
        <caption>In the timeline</caption>
        <tbody>
          <tr><td><kbd>W</kbd> <kbd>S</kbd> or <kbd>+</kbd> <kbd>-</kbd></td><td>zoom; wheel and pinch too</td></tr>
          <tr><td><kbd>A</kbd> <kbd>D</kbd></td><td>move left, right; dragging too</td></tr>
          <tr><td><kbd>&#x2190;</kbd> <kbd>&#x2192;</kbd></td><td>previous, next event of the row</td></tr>
          <tr><td><kbd>&#x2191;</kbd> <kbd>&#x2193;</kbd></td><td>the row above, below</td></tr>
          <tr><td><kbd>Home</kbd> <kbd>End</kbd></td><td>first, last event of the row</td></tr>
          <tr><td>drag on the ruler</td><td>a range; elsewhere with <kbd>Shift</kbd></td></tr>
          <tr><td><kbd>Shift</kbd> and wheel</td><td>move left, right</td></tr>
          <tr><td>wheel on the names</td><td>move up, down</td></tr>
        </tbody>
      </table>
      <table>
        <caption>In the lists</caption>
        <tbody>
          <tr><td>arrows</td><td>the row or frame beside</td></tr>
          <tr><td><kbd>Enter</kbd></td><td>fit the event, zoom to the frame</td></tr>
          <tr><td><kbd>Backspace</kbd></td><td>all stacks</td></tr>
        </tbody>
      </table>
    </div>
  </div>
  <h2>Search</h2>
  <p>Words that all have to be found, without regard to case. A word is found in names of events and in texts of their
    values and frames; a number is found among their numbers too. A word between quotes may have spaces, and two quotes
    there are one of the word.</p>
  <p><code>busy&gt;50us</code> <code>status=500</code> <code>path!=\"/a b\"</code> compare a field;
    <code>event</code>, <code>track</code>, <code>time</code> and <code>length</code> are there for all events.</p>
  <form method=\"dialog\"><button>Close</button></form>
</dialog>
<noscript><p>This page needs JavaScript. It asks for nothing from the network.</p></noscript>
<script type=\"application/json\" id=\"data\">";

/// What stands after it.
pub const TAIL: &str = "</script>
<script>
\"use strict\";
// Shows the trace whose data stands in this page. DATA.md says how the data is spelled and what is made of it.
// Nothing is asked for from a network. Texts of a trace become text nodes or are drawn, and are never read as markup.

const NONE = -1;
const [INSTANT, SLICE, BEGIN, END] = [0, 1, 2, 3];
// what units are worth (a unit of a trace may be any text, so these have no other members)
const TIMES = { __proto__: null, ns: 1, us: 1e3, ms: 1e6, s: 1e9 };
const SIZES = { __proto__: null, B: 1, KiB: 1024, MiB: 1024 ** 2, GiB: 1024 ** 3 };
const MOST_ROWS = 64; // of slices on a track
const MOST_ITEMS = 200; // of a list, a map or a stack that are shown as text
const MOST_TITLE = 300; // letters of an event's name above its fields
const MOST_LINES = 1000; // of fields, frames and schemas that are listed
const MOST_LENGTH = 2 ** 64; // of a slice, in nanoseconds (the double beside 2^64 - 1)
const [LEAST_SUM, MOST_SUM] = [-(2n ** 63n), 2n ** 63n - 1n]; // of a counter's steps
const ELLIPSIS = \"\\u2026\";

let trace = null; // what the data says, and what is worked out of it once (readTrace)
// what the user has chosen; `found` has a byte an event where there is a search, `listed` the events that are left
const chosen = { event: NONE, query: \"\", range: null, found: null, listed: new Uint32Array(0), list: \"table\" };

const byId = (id) => document.getElementById(id);

// An element with these properties and children, of which strings become text nodes.
function make(name, properties, ...children) {
  const element = Object.assign(document.createElement(name), properties);
  element.append(...children);
  return element;
}

// ---- The trace ----------------------------------------------------------------------------------------------------

// The names of the field types, by tag. An optional type has this bit too.
const TYPES = (\"None I64 F64 Bool String Bytes PooledStackFrames PooledString StackFrames Varint StringMap \" +
  \"U8 U16 U32 DynamicList DynamicMap\").split(\" \");
const OPTIONAL = 0x80;

const typeName = (tag) => `${tag & OPTIONAL ? \"Optional\" : \"\"}${TYPES[tag & ~OPTIONAL]}`;

// The kind of the values of a field type.
function kindOf(tag) {
  const plain = TYPES[tag & ~OPTIONAL].replace(/^Pooled/, \"\").replace(/^Dynamic/, \"\");
  return /^U\\d+$/.test(plain) ? \"Varint\" : plain;
}

const isWhole = (kind) => kind === \"Varint\" || kind === \"I64\";
const isNumber = (kind) => isWhole(kind) || kind === \"F64\";

function makeSchema(schema, index) {
  const fields = schema.fields.map((field, at) => (
    { ...field, at, type: typeName(field.type), kind: kindOf(field.type) }));
  const { begin, end, duration } = schema.roles;
  return {
    ...schema,
    index,
    fields,
    shape: begin !== null ? BEGIN : end !== null ? END : duration !== null ? SLICE : INSTANT,
    group: begin ?? end,
    // (steps are whole numbers)
    counters: fields.filter((it) => (it.counter === \"gauge\" ? isNumber(it.kind) : it.counter && isWhole(it.kind))),
    stacks: fields.filter((it) => it.kind === \"StackFrames\"),
    count: 0,
    listed: 0,
    first: NONE, // the events of the least and of the greatest time
    last: NONE,
  };
}

function readTrace() {
  const element = byId(\"data\");
  const data = JSON.parse(element.textContent);
  element.remove();
  if (data.format !== 1) throw new Error(`its data is of format ${data.format}, and this page reads format 1`);
  const { schema, time, values } = data.events;
  const count = schema.length;
  trace = {
    name: data.name,
    end: data.end,
    start: BigInt(data.start),
    clocks: data.clocks.map(([first, zero]) => ({ first, zero: zero === null ? null : BigInt(zero) })),
    schemas: data.schemas.map(makeSchema),
    strings: data.strings,
    stacks: data.stacks,
    count,
    schemaOf: new Uint32Array(schema),
    exactTime: time,
    time: new Float64Array(count),
    values,
    valuesAt: new Uint32Array(count + 1),
    ordered: true, // whether the times never go back
    least: 0,
    most: 0,
  };
  for (let event = 0; event < count; event++) readEvent(event);
  forgetZeros(data.schemas);
  if (values.length !== trace.valuesAt[count]) throw new Error(\"values are missing in its data\");
  findTracks();
  pairEvents();
  makeLanes();
}

// Where two schemas of a file are alike in all that the data tells of them, annotations differ of which it tells
// nothing, as clocks are. So each may be of a clock of its own, and the events of the file have no dates.
function forgetZeros(schemas) {
  const told = schemas.map(({ name, roles, fields }) => JSON.stringify([name, roles, fields]));
  trace.clocks.forEach((clock, file) => {
    const own = new Set(trace.schemaOf.subarray(clock.first, trace.clocks[file + 1]?.first));
    clock.isMixed = clock.zero !== null && new Set(Array.from(own, (it) => told[it])).size < own.size;
    if (clock.isMixed) clock.zero = null;
  });
}

function readEvent(event) {
  const time = Number(trace.exactTime[event]);
  const schema = trace.schemas[trace.schemaOf[event]];
  trace.time[event] = time;
  trace.valuesAt[event + 1] = trace.valuesAt[event] + schema.fields.length;
  if (event > 0 && time < trace.time[event - 1]) trace.ordered = false;
  if (time < trace.least) trace.least = time;
  if (time > trace.most) trace.most = time;
  schema.count++;
  if (schema.first === NONE || time < trace.time[schema.first]) schema.first = event;
  if (schema.last === NONE || time >= trace.time[schema.last]) schema.last = event;
}

const schemaOf = (event) => trace.schemas[trace.schemaOf[event]];
const valueOf = (event, field) => trace.values[trace.valuesAt[event] + field.at];

// What an event is: by its schema, but an instant where its track or its name is an id that the trace does not hold.
const shapeOf = (event) => (trace.isLost[event] ? INSTANT : schemaOf(event).shape);

// The name of an event: the text or the whole number of its field of that role, else its group, else its schema's name.
function labelOf(event) {
  const schema = schemaOf(event);
  const field = schema.fields[schema.roles.name];
  const value = field ? valueOf(event, field) : null;
  if (value === null || typeof value === \"object\") return schema.group ?? schema.name;
  if (isWhole(field.kind)) return String(value);
  return field.kind === \"String\" ? trace.strings[value] : schema.group ?? schema.name;
}

// Whether a field of an event is an id of a text that the trace does not hold.
function isUnknown(event, field) {
  const value = field?.kind === \"String\" ? valueOf(event, field) : null;
  return value !== null && typeof value === \"object\";
}

// The number that a value is, as near as a double comes; NaN where it is none.
function numberOf(value) {
  return typeof value === \"object\" ? NaN : Number(value);
}

// ---- Tracks, pairs and lanes --------------------------------------------------------------------------------------

const SORTS = [\"number\", \"text\", \"name\"]; // of tracks, as they stand

// Gives each event its track. Tracks of one name are one, whatever says it. By what the first of its events says a
// track stands among the numbers, after these among the texts, or last with groups and schemas.
function findTracks() {
  const tracks = new Map();
  const known = { number: new Map(), text: new Map(), name: new Map() };
  const add = (sort, key, name) => {
    const track = { name, sort: SORTS.indexOf(sort), key, at: tracks.size, open: [], groups: new Map() };
    if (sort === \"text\") track.order = key.replace(/[0-9]+/g, (digits) => digits.padStart(20, \"0\"));
    tracks.set(key, track);
    return track;
  };
  const find = (sort, said, key, field) => {
    let track = known[sort].get(said);
    if (track === undefined) {
      track = tracks.get(key()) ?? add(sort, key(), field ? `${field.name} ${said}` : key());
      known[sort].set(said, track);
    }
    return track;
  };
  const found = [];
  trace.isLost = new Uint8Array(trace.count);
  for (let event = 0; event < trace.count; event++) {
    const schema = schemaOf(event);
    const field = schema.fields[schema.roles.tid];
    const value = field ? valueOf(event, field) : null;
    if (isUnknown(event, field) || isUnknown(event, schema.fields[schema.roles.name])) trace.isLost[event] = 1;
    const isId = value !== null && typeof value !== \"object\";
    if (isId && isWhole(field.kind)) found.push(find(\"number\", value, () => String(value), field));
    else if (isId && field.kind === \"String\") found.push(find(\"text\", value, () => trace.strings[value]));
    else found.push(find(\"name\", schema.group ?? schema.name, () => schema.group ?? schema.name));
  }
  const order = (a, b) =>
    a.sort - b.sort || (a.sort === 0 ? sizeOrder(a.key, b.key) : 0) || (a.sort === 1 ? textOrder(a, b) : 0);
  trace.tracks = [...tracks.values()].sort((a, b) => order(a, b) || a.at - b.at);
  trace.tracks.forEach((track, at) => { track.at = at; });
  trace.trackOf = new Uint32Array(trace.count);
  for (let event = 0; event < trace.count; event++) trace.trackOf[event] = found[event].at;
}

// (doubles do not tell all numbers apart)
const sizeOrder = (a, b) => numberOf(a) - numberOf(b) || Number(BigInt(a) - BigInt(b));

// (numbers in texts stand by their size)
const textOrder = (a, b) => (a.order < b.order ? -1 : a.order > b.order ? 1 : 0);

// How long a slice is by the value of its field, in whole nanoseconds.
function lengthBy(field, value) {
  const number = isNumber(field.kind) ? numberOf(value) : NaN;
  if (!(number > 0 && number < Infinity)) return 0;
  return Math.min(Math.round(number * (TIMES[field.unit] ?? 1)), MOST_LENGTH);
}

// Gives each slice its length in nanoseconds (NONE where an event is no slice), and begins and ends each other. `open`
// are the slices of a track that are open, and `groups` how many of each group. An end also ends those inside its own.
function pairEvents() {
  trace.length = new Float64Array(trace.count).fill(NONE);
  trace.partner = new Int32Array(trace.count).fill(NONE);
  for (let event = 0; event < trace.count; event++) {
    const schema = schemaOf(event);
    const shape = shapeOf(event);
    const time = trace.time[event];
    const { open, groups } = trace.tracks[trace.trackOf[event]];
    if (shape === SLICE) {
      const field = schema.fields[schema.roles.duration];
      trace.length[event] = lengthBy(field, valueOf(event, field));
    } else if (shape === BEGIN) {
      open.push(event);
      groups.set(schema.group, (groups.get(schema.group) ?? 0) + 1);
    } else if (shape === END && groups.get(schema.group) > 0) {
      let begin = NONE;
      do {
        begin = open.pop();
        const { group } = schemaOf(begin);
        groups.set(group, groups.get(group) - 1);
        trace.length[begin] = Math.max(0, time - trace.time[begin]);
      } while (schemaOf(begin).group !== schema.group);
      trace.partner[event] = begin;
      trace.partner[begin] = event;
    }
    trace.most = Math.max(trace.most, time + Math.max(0, trace.length[event]));
  }
  // (no time is greater than 2^64 - 1)
  const last = Math.min(trace.most, MOST_LENGTH - Number(trace.start));
  for (const { open } of trace.tracks)
    for (const begin of open) trace.length[begin] = Math.max(0, last - trace.time[begin]);
}

const isOpen = (event) => shapeOf(event) === BEGIN && trace.partner[event] === NONE;
const endTime = (event) => trace.time[event] + Math.max(0, trace.length[event]);

// A lane is a row of the timeline: the instants of a track, a row of its slices, or the line of a counter. Its events
// stand by their begin. `reach` is how far those up to a place go: where they lie over each other, an earlier one may
// end later.
function makeLane(sort, track, height, events, values) {
  const lane = { sort, track, height, y: 0, found: null, events: new Uint32Array(events) };
  lane.start = new Float64Array(events.length);
  lane.end = sort === \"slices\" ? new Float64Array(events.length) : lane.start;
  lane.reach = sort === \"slices\" ? new Float64Array(events.length) : lane.start;
  for (let at = 0; at < events.length; at++) {
    lane.start[at] = trace.time[events[at]];
    if (sort !== \"slices\") continue;
    lane.end[at] = endTime(events[at]);
    lane.reach[at] = at > 0 ? Math.max(lane.reach[at - 1], lane.end[at]) : lane.end[at];
  }
  if (values) lane.values = new Float64Array(values);
  return lane;
}

function makeLanes() {
  const parts = trace.tracks.map(() => ({ marks: [], slices: [] }));
  for (let event = 0; event < trace.count; event++) {
    const part = parts[trace.trackOf[event]];
    if (trace.length[event] >= 0) part.slices.push(event);
    else if (shapeOf(event) === END ? trace.partner[event] === NONE : !isCounted(event)) part.marks.push(event);
  }
  trace.lanes = [];
  trace.tracks.forEach((track, at) => {
    const { marks, slices } = parts[at];
    if (marks.length) trace.lanes.push(makeLane(\"marks\", track, 16, inOrder(marks)));
    for (const row of makeRows(inOrder(slices))) trace.lanes.push(makeLane(\"slices\", track, 19, row));
  });
  for (const lane of makeCounters()) trace.lanes.push(lane);
  trace.laneOf = new Int32Array(trace.count).fill(NONE);
  let y = 0;
  trace.lanes.forEach((lane, at) => {
    lane.begins = at === 0 || lane.sort === \"counter\" || trace.lanes[at - 1].track !== lane.track;
    lane.y = y + (lane.begins ? 5 : 0);
    const closes = trace.lanes[at + 1]?.track !== lane.track || lane.sort === \"counter\";
    y = lane.y + lane.height + (closes ? 5 : 0);
    for (const event of lane.events) if (trace.laneOf[event] === NONE) trace.laneOf[event] = at;
  });
  trace.height = y;
  for (let event = 0; event < trace.count; event++) {
    const begin = shapeOf(event) === END ? trace.partner[event] : NONE;
    if (begin !== NONE) trace.laneOf[event] = trace.laneOf[begin];
  }
}

// Which of two events comes first: the one that begins first, and of those that begin together the first of the trace.
const timeOrder = (a, b) => trace.time[a] - trace.time[b] || a - b;

// Which of two events comes first in a lane: of those that begin together the longest.
function laneOrder(a, b) {
  return trace.time[a] - trace.time[b] || trace.length[b] - trace.length[a] || a - b;
}

function inOrder(events) {
  for (let at = 1; at < events.length; at++)
    if (laneOrder(events[at - 1], events[at]) > 0) return events.sort(laneOrder);
  return events;
}

// The rows of slices: each slice in the first row that is free when it begins.
function makeRows(slices) {
  const rows = [];
  const ends = [];
  for (const event of slices) {
    let row = 0;
    while (row < rows.length && row < MOST_ROWS - 1 && ends[row] > trace.time[event]) row++;
    if (row === rows.length) rows.push([]);
    rows[row].push(event);
    ends[row] = endTime(event);
  }
  return rows;
}

// The number that a counter's value shows: that of a gauge, and a step of any other; NaN where it shows none.
function shownBy(field, value) {
  if (value === null || typeof value === \"object\") return NaN;
  const number = Number(value);
  if (field.counter === \"gauge\") return Number.isFinite(number) ? number : NaN;
  return field.counter === \"counter\" && number < 0 ? 0 : number;
}

// Whether a counter shows an event, which then needs no mark of its own.
const isCounted = (event) =>
  schemaOf(event).counters.some((field) => !Number.isNaN(shownBy(field, valueOf(event, field))));

// A sum after a step, which is a value of a trace. A sum is a number where that is exact, else a BigInt, and stays
// between the least and the greatest number of 64 bits.
function stepped(sum, value, step) {
  const quick = typeof sum === \"number\" && typeof value === \"number\" ? sum + step : NaN;
  if (Number.isSafeInteger(quick)) return quick;
  const exact = BigInt(sum) + atMost(step === 0 ? 0n : BigInt(value));
  const kept = exact < LEAST_SUM ? LEAST_SUM : atMost(exact);
  return Number.isSafeInteger(Number(kept)) ? Number(kept) : kept;
}

const atMost = (whole) => (whole > MOST_SUM ? MOST_SUM : whole);

// The lines of all counters: one for each name of a schema, name of a field, and track of their events.
function makeCounters() {
  const names = new Map();
  const numberOfName = (name) => names.get(name) ?? names.set(name, names.size).get(name);
  const fields = trace.schemas.map((schema) => schema.counters.map((field) =>
    ({ field, schema, number: numberOfName(JSON.stringify([schema.name, field.name])) })));
  const lines = new Map();
  for (let event = 0; event < trace.count; event++) {
    for (const { field, schema, number } of fields[trace.schemaOf[event]]) {
      const value = valueOf(event, field);
      const shown = shownBy(field, value);
      if (Number.isNaN(shown)) continue;
      const track = trace.trackOf[event];
      const key = number * trace.tracks.length + track;
      let line = lines.get(key);
      if (!line) lines.set(key, (line = { key, field, schema, track, events: [], values: [], sum: 0 }));
      if (field.counter !== \"gauge\") line.sum = stepped(line.sum, value, shown);
      // (of two fields with one name the last counts)
      const at = line.events.at(-1) === event ? line.events.length - 1 : line.events.length;
      line.events[at] = event;
      line.values[at] = field.counter === \"gauge\" ? shown : Number(line.sum);
    }
  }
  return [...lines.values()].sort((a, b) => a.key - b.key).map(({ field, schema, track, events, values }) => {
    const byEvent = new Map(trace.ordered ? [] : events.map((event, at) => [event, values[at]]));
    const ordered = trace.ordered ? events : events.sort(timeOrder);
    const lane = makeLane(\"counter\", trace.tracks[track], 42, ordered,
      trace.ordered ? values : ordered.map((event) => byEvent.get(event)));
    const least = lane.values.reduce((a, b) => Math.min(a, b), 0);
    const most = lane.values.reduce((a, b) => Math.max(a, b), 0);
    return Object.assign(lane, { field, schema, least, most: most === least ? 1 : most });
  });
}

// ---- Texts and numbers --------------------------------------------------------------------------------------------

// Digits with a comma before each three.
function grouped(digits) {
  return String(digits).replace(/\\B(?=(\\d{3})+$)/g, \",\");
}

// A number of at most this many digits after the point.
function decimal(number, places) {
  const [whole, rest] = Math.abs(number).toFixed(places).split(\".\");
  return (number < 0 ? \"-\" : \"\") + grouped(whole) + (rest ? `.${rest}` : \"\");
}

// A time in nanoseconds in the unit that suits it.
function timeText(time) {
  const size = Math.abs(time);
  if (size < 1e3) return `${decimal(time, Number.isInteger(time) ? 0 : 3)} ns`;
  if (size < 1e6) return `${decimal(time / 1e3, 3)} us`;
  if (size < 1e9) return `${decimal(time / 1e6, 3)} ms`;
  return `${decimal(time / 1e9, 3)} s`;
}

function bytesText(size) {
  const units = Object.entries(SIZES).reverse();
  const [unit, scale] = units.find(([, scale]) => Math.abs(size) >= scale) ?? [\"B\", 1];
  return scale === 1 ? `${decimal(size, Number.isInteger(size) ? 0 : 3)} B` : `${decimal(size / scale, 2)} ${unit}`;
}

// A whole number of nanoseconds with this many digits after the point, none of them rounded.
function exactly(number, places) {
  const digits = String(number).replace(\"-\", \"\").padStart(places + 1, \"0\");
  const whole = grouped(digits.slice(0, digits.length - places));
  return (String(number).startsWith(\"-\") ? \"-\" : \"\") + whole + (places ? `.${digits.slice(-places)}` : \"\");
}

// The date of an event, where the zero of its file's clock is known.
function dateText(event) {
  const zero = trace.clocks.findLast(({ first }) => first <= event)?.zero ?? null;
  if (zero === null) return null;
  const since = zero + trace.start + BigInt(trace.exactTime[event]);
  const second = since / 1000000000n - (since % 1000000000n < 0n ? 1n : 0n);
  const date = new Date(Number(second) * 1000);
  if (Number.isNaN(date.getTime())) return null;
  const rest = String(since - second * 1000000000n).padStart(9, \"0\");
  return `${date.toISOString().slice(0, -5).replace(\"T\", \" \")}.${rest} UTC`;
}

function floatText(value) {
  return Object.is(value, -0) ? \"-0\" : String(value);
}

// A value as text, without its unit.
function plainText(kind, value) {
  if (value === null) return \"none\";
  if (typeof value === \"object\" && !Array.isArray(value)) return `unknown id ${value.unknown}`;
  switch (kind) {
    case \"String\": return trace.strings[value];
    case \"Bytes\": return trace.strings[value] || \"no bytes\";
    case \"StackFrames\": return `[${listText(trace.stacks[value], (frame) => trace.strings[frame])}]`;
    case \"StringMap\": return `{${listText(inPairs(value), (pair) => pair.map(quoted).join(\": \"))}}`;
    case \"List\": return `[${listText(inPairs(value), innerText)}]`;
    case \"Map\": return `{${listText(inPairs(inPairs(value)), (pair) => pair.map(innerText).join(\": \"))}}`;
    case \"F64\": return floatText(value);
    default: return String(value);
  }
}

const quoted = (string) => JSON.stringify(trace.strings[string]);
const innerText = ([tag, value]) =>
  (kindOf(tag) === \"String\" && typeof value === \"number\" ? quoted(value) : plainText(kindOf(tag), value));

function listText(items, text) {
  const rest = items.length > MOST_ITEMS ? [`and ${grouped(items.length - MOST_ITEMS)} more`] : [];
  return [...items.slice(0, MOST_ITEMS).map(text), ...rest].join(\", \");
}

function inPairs(list) {
  const pairs = [];
  for (let at = 0; at < list.length; at += 2) pairs.push([list[at], list[at + 1]]);
  return pairs;
}

// The value of a field as a reader wants it: in its unit, and short.
function valueText(field, value) {
  const number = isNumber(field.kind) && value !== null ? numberOf(value) : NaN;
  if (Number.isNaN(number) || field.unit === null) return plainText(field.kind, value);
  if (field.unit in TIMES) return timeText(number * TIMES[field.unit]);
  if (field.unit === \"bytes\") return bytesText(number);
  return `${plainText(field.kind, value)} ${field.unit}`;
}

// A text as it may be shown: at most this long, and with an escape in place of each character that is a control or
// turns the direction of what stands around it.
function shown(text, most = 4000) {
  const cut = text.length > most ? Array.from(text.slice(0, most)).slice(0, -1).join(\"\") + ELLIPSIS : text;
  return cut.replace(/[\\u0000-\\u001f\\u007f-\\u009f\\u2028\\u2029\\u202a-\\u202e\\u2066-\\u2069\\ufeff]/g, (it) =>
    `\\\\u${it.charCodeAt(0).toString(16).padStart(4, \"0\")}`);
}

// What stands between two other texts, however it is written. A number goes from left to right, whatever its unit.
const isolated = (text, most, isNumber = false) => make(\"bdi\", isNumber ? { dir: \"ltr\" } : {}, shown(text, most));

function counted(count, one, many) {
  return `${grouped(count)} ${count === 1 ? one : many}`;
}

// ---- Search -------------------------------------------------------------------------------------------------------

const OPERATORS = {
  \"=\": (a, b) => a === b,
  \"!=\": (a, b) => a !== b,
  \"<\": (a, b) => a < b,
  \"<=\": (a, b) => a <= b,
  \">\": (a, b) => a > b,
  \">=\": (a, b) => a >= b,
};

// The number that a word is, with the unit that it may have.
function numberWord(text) {
  const parts = /^(-?\\d+(?:\\.\\d+)?(?:[eE][-+]?\\d+)?)(ns|us|ms|s|B|KiB|MiB|GiB)?$/.exec(text);
  if (!parts) return null;
  return { digits: parts[1], number: Number(parts[1]), scale: TIMES[parts[2]] ?? SIZES[parts[2]] ?? null };
}

// A word without its quotes; two quotes inside of quotes are one of the word.
const unquoted = (text) =>
  text.replace(/\"((?:[^\"]|\"\")*)\"?/g, (_, inner) => inner.replaceAll('\"\"', '\"'));
const inQuotes = (text) => `\"${text.replaceAll('\"', '\"\"')}\"`;

function makeWord(token) {
  const text = unquoted(token);
  const parts = /^([^\"=<>!]+|\"(?:[^\"]|\"\")+\")(!=|<=|>=|=|<|>)(.*)$/s.exec(token);
  if (parts) {
    const name = unquoted(parts[1]).toLowerCase();
    const value = unquoted(parts[3]);
    const known = [\"event\", \"track\", \"time\", \"length\"].includes(name);
    if (known || trace.schemas.some((schema) => schema.fields.some((field) => field.name.toLowerCase() === name)))
      return { name, operator: parts[2], text: value.toLowerCase(), number: numberWord(value) };
  }
  return { name: null, text: text.toLowerCase(), number: token.startsWith('\"') ? null : numberWord(text) };
}

// The words of a search; those between quotes may have spaces.
function wordsOf(query) {
  const tokens = query.match(/(?:[^\\s\"]|\"(?:[^\"]|\"\")*\"?)+/g) ?? [];
  return tokens.map(makeWord).filter((word) => word.name || word.text);
}

// Which events all words find: a byte an event; nothing where there is no word.
function findEvents(query) {
  const words = wordsOf(query);
  if (words.length === 0) return null;
  trace.lower ??= trace.strings.map((text) => text.toLowerCase());
  for (const word of words.filter((it) => it.name === null)) {
    word.strings = Uint8Array.from(trace.lower, (text) => text.includes(word.text));
    word.stacks = Uint8Array.from(trace.stacks, (frames) => frames.some((frame) => word.strings[frame]));
  }
  const tests = trace.schemas.map((schema) =>
    words.map((word) => (word.name === null ? plainTest(word, schema) : fieldTest(word, schema))));
  const found = new Uint8Array(trace.count);
  for (let event = 0; event < trace.count; event++)
    found[event] = tests[trace.schemaOf[event]].every((test) => test(event));
  return found;
}

// Whether a plain word finds an event of this schema.
function plainTest(word, schema) {
  if ([schema.name, schema.group ?? \"\"].some((text) => text.toLowerCase().includes(word.text))) return () => true;
  const isPlain = word.number !== null && word.number.scale === null;
  const fields = schema.fields.filter((field) => isPlain || (!isNumber(field.kind) && field.kind !== \"Bool\"));
  return (event) => fields.some((field) => holds(word, field.kind, valueOf(event, field)));
}

function holds(word, kind, value) {
  if (value === null || (typeof value === \"object\" && !Array.isArray(value))) return false;
  switch (kind) {
    case \"String\":
    case \"Bytes\": return word.strings[value] === 1;
    case \"StackFrames\": return word.stacks[value] === 1;
    case \"StringMap\": return value.some((string) => word.strings[string]);
    case \"List\":
    case \"Map\": return inPairs(value).some(([tag, inner]) => holds(word, kindOf(tag), inner));
    case \"Bool\": return false;
    default: return word.number !== null && word.number.scale === null && sameNumber(value, word.number);
  }
}

const sameNumber = (value, word) => (typeof value === \"string\" ? value === word.digits : value === word.number);

// Whether a word as NAME=VALUE finds an event of this schema.
function fieldTest(word, schema) {
  const fields = schema.fields.filter((field) => field.name.toLowerCase() === word.name);
  const nanoseconds = { kind: \"I64\", unit: \"ns\" };
  if (fields.length) return (event) => fields.some((field) => compares(word, field, valueOf(event, field)));
  switch (word.name) {
    case \"event\": return () => comparesText(word, schema.name);
    case \"track\": return (event) => comparesText(word, trace.tracks[trace.trackOf[event]].name);
    case \"time\": return (event) => compares(word, nanoseconds, trace.exactTime[event]);
    case \"length\": return (event) => trace.length[event] >= 0 && compares(word, nanoseconds, trace.length[event]);
    default: return () => false;
  }
}

function comparesText(word, text) {
  return [\"=\", \"!=\"].includes(word.operator) && OPERATORS[word.operator](text.toLowerCase(), word.text);
}

function compares(word, field, value) {
  if (value === null || typeof value === \"object\") return false;
  if (field.kind === \"String\" || field.kind === \"Bytes\") return comparesText(word, trace.strings[value]);
  if (field.kind === \"Bool\") return comparesText(word, String(value));
  if (!isNumber(field.kind) || word.number === null) return false;
  const { digits, number, scale } = word.number;
  if (scale !== null) return OPERATORS[word.operator](Number(value) * (TIMES[field.unit] ?? 1), number * scale);
  const isExact = typeof value === \"string\" && [\"=\", \"!=\"].includes(word.operator);
  return isExact ? OPERATORS[word.operator](value, digits) : OPERATORS[word.operator](Number(value), number);
}

// ---- What is chosen -----------------------------------------------------------------------------------------------

// Searches, and shows everywhere what is left.
function search(query) {
  chosen.query = query;
  chosen.found = findEvents(query);
  const found = chosen.found && foundOrEnd(chosen.found);
  for (const lane of trace.lanes)
    lane.found = found && counts(lane.events, lane.sort === \"slices\" ? found : chosen.found);
  timeline.density = null;
  listEvents();
}

// The same with each slice whose end is found.
function foundOrEnd(found) {
  const both = found.slice();
  for (let event = 0; event < trace.count; event++)
    if (found[event] && trace.partner[event] !== NONE) both[trace.partner[event]] = 1;
  return both;
}

// For each place in a list how many of the events before it are found.
function counts(events, found) {
  const sums = new Uint32Array(events.length + 1);
  for (let at = 0; at < events.length; at++) sums[at + 1] = sums[at] + found[events[at]];
  return sums;
}

const inRange = (event, range) => trace.time[event] < range.to && endTime(event) >= range.from;

// Lists the events that the search finds and that lie in the range, by time.
function listEvents() {
  const { found, range } = chosen;
  const left = new Uint32Array(trace.count);
  let count = 0;
  for (const schema of trace.schemas) schema.listed = 0;
  for (let event = 0; event < trace.count; event++) {
    if ((found && !found[event]) || (range && !inRange(event, range))) continue;
    left[count++] = event;
    trace.schemas[trace.schemaOf[event]].listed++;
  }
  chosen.listed = left.slice(0, count);
  if (!trace.ordered) chosen.listed.sort(timeOrder);
  table.stale = flame.stale = summary.stale = true;
  showChosen();
  drawSoon();
}

function showChosen() {
  const { found, range, listed, query } = chosen;
  byId(\"found\").textContent = query.trim() ? counted(listed.length, \"found\", \"found\") : \"\";
  byId(\"found\").classList.toggle(\"none\", listed.length === 0);
  for (const id of [\"previous\", \"next\"]) byId(id).disabled = listed.length === 0;
  byId(\"range\").hidden = range === null;
  if (range) byId(\"range\").textContent = `Range of ${timeText(range.to - range.from)}`;
  const all = counted(trace.count, \"event\", \"events\");
  byId(\"listed\").textContent = found || range ? `${grouped(listed.length)} of ${all}` : all;
}

function setRange(range) {
  chosen.range = range;
  listEvents();
}

// Selects an event; NONE selects nothing.
function select(event, { isShown = true } = {}) {
  chosen.event = event;
  showDetails();
  if (event !== NONE && isShown) reveal(event);
  if (event !== NONE) table.reveal = event;
  byId(\"said\").textContent = event === NONE ? \"\" : spoken(event);
  drawSoon();
}

function spoken(event) {
  const length = trace.length[event] >= 0 ? `, ${timeText(trace.length[event])} long` : \"\";
  return `${shown(labelOf(event))} at ${timeText(trace.time[event])}${length}`;
}

// Selects the next listed event, or the one before.
function step(by) {
  const { listed, event } = chosen;
  if (listed.length === 0) return;
  const order = (other) => trace.time[other] - trace.time[event] || other - event;
  let at = event === NONE ? 0 : firstAt(listed.length, (at) => order(listed[at]) >= 0);
  if (event !== NONE && by > 0 && listed[at] === event) at++;
  if (by < 0) at--;
  select(listed[(at + listed.length) % listed.length]);
}

// The first place of a list of this size from which on this holds; the size where it never does.
function firstAt(size, holds) {
  let low = 0;
  let high = size;
  while (low < high) {
    const middle = (low + high) >>> 1;
    if (holds(middle)) high = middle;
    else low = middle + 1;
  }
  return low;
}

// ---- Drawing ------------------------------------------------------------------------------------------------------

let isDrawing = false;
let colours = {};
const widths = new Map(); // of texts that were drawn

// Draws all that is seen, once, before the next frame.
function drawSoon() {
  if (isDrawing) return;
  isDrawing = true;
  requestAnimationFrame(() => {
    isDrawing = false;
    draw();
  });
}

function draw() {
  drawTimeline();
  if (chosen.list === \"table\") drawTable();
  if (chosen.list === \"flame\") drawFlame();
  if (chosen.list === \"summary\") drawSummary();
}

function readColours() {
  const style = getComputedStyle(document.documentElement);
  const names = \"ground raised line faint text muted accent warning counter mark font slice slice-text\";
  colours = Object.fromEntries(names.split(\" \").map((name) => [name, style.getPropertyValue(`--${name}`).trim()]));
  colours.hues = new Map();
}

// The hue of what has this name: the same in each trace.
function hueOf(name) {
  let hue = colours.hues.get(name);
  if (hue === undefined) {
    let sum = 7;
    for (let at = 0; at < Math.min(name.length, 200); at++) sum = (Math.imul(sum, 31) + name.charCodeAt(at)) >>> 0;
    hue = (Math.imul(sum, 2654435761) >>> 8) % 24 * 15;
    if (colours.hues.size > 10000) colours.hues.clear();
    colours.hues.set(name, hue);
  }
  return hue;
}

const colourOf = (name) => `oklch(${colours.slice} ${hueOf(name)})`;
const markColourOf = (name) => `oklch(${colours.mark} ${hueOf(name)})`;

// The pen of a canvas that fills its box, over a sheet of this height.
function penOf(canvas, box, height) {
  const ratio = window.devicePixelRatio || 1;
  const [wide, high] = [box.clientWidth, box.clientHeight];
  canvas.parentElement.style.height = `${Math.max(height, high)}px`;
  if (canvas.width !== Math.round(wide * ratio) || canvas.height !== Math.round(high * ratio)) {
    canvas.width = Math.round(wide * ratio);
    canvas.height = Math.round(high * ratio);
    canvas.style.width = `${wide}px`;
    canvas.style.height = `${high}px`;
  }
  const pen = canvas.getContext(\"2d\");
  pen.setTransform(ratio, 0, 0, ratio, 0, 0);
  pen.fillStyle = colours.ground;
  pen.fillRect(0, 0, wide, high);
  pen.font = `11px ${colours.font}`;
  pen.textBaseline = \"middle\";
  pen.direction = \"ltr\";
  return pen;
}

function widthOf(pen, text) {
  let width = widths.get(text);
  if (width === undefined) {
    if (widths.size > 20000) widths.clear();
    width = pen.measureText(text).width;
    widths.set(text, width);
  }
  return width;
}

// As much of a text as there is room for.
function fitted(pen, name, room) {
  const text = shown(name, 300);
  const width = widthOf(pen, text);
  if (width <= room) return text;
  const letters = Array.from(text);
  let keep = Math.floor(letters.length * room / width);
  let cut = \"\";
  do cut = letters.slice(0, keep).join(\"\") + ELLIPSIS;
  while (pen.measureText(cut).width > room && --keep > 0);
  return keep > 0 ? cut : \"\";
}

// Writes as much of a text as fits between these places, in the middle of a row.
function write(pen, text, left, right, middle) {
  if (right - left < 16) return;
  pen.fillText(fitted(pen, text, right - left), left, middle);
}

// ---- The timeline -------------------------------------------------------------------------------------------------

const HEAD = 54; // of the timeline: what is seen of the whole, and a ruler
const OVERVIEW = 30;
const LEAST_SPAN = 20; // nanoseconds from edge to edge, at the least

const timeline = {
  box: byId(\"timeline\"),
  canvas: byId(\"tracks\"),
  from: 0, // the times at the edges of what is seen
  to: 1,
  gutter: 160, // the width of the names
  width: 0,
  stride: 1, // between the times of the ruler
  hover: NONE,
  lane: NONE, // the index of the lane that was clicked or gone to
  drag: null,
  fingers: new Map(), // what touches it: the last event of each pointer
  density: null, // how many events each column of the overview has
};

const timeAt = (x) =>
  timeline.from + (x - timeline.gutter) * (timeline.to - timeline.from) / (timeline.width - timeline.gutter);
const placeOf = (time) =>
  timeline.gutter + (time - timeline.from) * (timeline.width - timeline.gutter) / (timeline.to - timeline.from);
// the place of a time, at an edge where it is not seen
const placeSeen = (time) => Math.max(timeline.gutter, Math.min(timeline.width, placeOf(time)));

// Shows the time between these, as far as that can be drawn.
function look(from, to) {
  const whole = wholeSpan();
  const most = (whole.to - whole.from) * 1.5;
  // (below that, doubles would not tell places beside each other apart)
  const least = Math.max(LEAST_SPAN, Math.abs(from) * 1e-13, Math.abs(to) * 1e-13);
  const span = Math.max(least, Math.min(to - from, most));
  const start = (from + to - span) / 2;
  timeline.from = span >= whole.to - whole.from ? (whole.from + whole.to - span) / 2
    : Math.max(whole.from, Math.min(start, whole.to - span));
  timeline.to = timeline.from + span;
  drawSoon();
}

function wholeSpan() {
  const long = trace.most - trace.least;
  const pad = long ? Math.max(long * 0.01, (LEAST_SPAN - long) / 2) : 500;
  return { from: trace.least - pad, to: trace.most + pad };
}

function lookAtAll() {
  const { from, to } = wholeSpan();
  look(from, to);
}

function zoom(time, factor) {
  look(time - (time - timeline.from) * factor, time + (timeline.to - time) * factor);
}

// Moves by a part of what is seen.
function pan(part) {
  const by = (timeline.to - timeline.from) * part;
  look(timeline.from + by, timeline.to + by);
}

// Brings an event to where it is seen.
function reveal(event) {
  const { from, to, box } = timeline;
  const [start, end] = [trace.time[event], endTime(event)];
  const span = to - from;
  if (start > to || end < from || (start < from && end < from + span * 0.05)) {
    const middle = Math.min((start + end) / 2, start + span * 0.4);
    look(middle - span / 2, middle + span / 2);
  }
  const lane = trace.lanes[event === chosen.event ? laneOfKeys() : trace.laneOf[event]];
  const room = box.clientHeight - HEAD;
  if (!lane || room <= 0) return;
  if (lane.y < box.scrollTop) box.scrollTop = lane.y - 8;
  else if (lane.y + lane.height > box.scrollTop + room) box.scrollTop = lane.y + lane.height + 8 - room;
}

// Fits the selected event, or the slice that it ends, or the range, or all.
function fit() {
  const { range } = chosen;
  const event = drawnFor(chosen.event);
  if (event !== NONE) {
    const length = Math.max(0, trace.length[event]);
    const pad = length * 0.25 || (timeline.to - timeline.from) * 0.05;
    look(trace.time[event] - pad, trace.time[event] + length + pad);
    reveal(chosen.event);
  } else if (range) look(range.from, range.to);
  else lookAtAll();
}

function drawTimeline() {
  const { box, canvas } = timeline;
  timeline.width = box.clientWidth;
  timeline.gutter = box.clientWidth < 860 ? 116 : 168;
  const pen = penOf(canvas, box, HEAD + trace.height);
  timeline.stride = strideOf(pen);
  drawGrid(pen);
  pen.save();
  pen.beginPath();
  pen.rect(timeline.gutter, HEAD, timeline.width, box.clientHeight);
  pen.clip();
  for (const [lane, y] of seenLanes()) {
    if (lane.sort === \"slices\") drawSlices(pen, lane, y);
    else if (lane.sort === \"marks\") drawMarks(pen, lane, y);
    else drawCounter(pen, lane, y);
  }
  pen.restore();
  drawNames(pen);
  drawRange(pen);
  drawOverview(pen);
  drawRuler(pen);
  if (trace.count === 0) {
    pen.fillStyle = colours.muted;
    pen.fillText(\"No events\", timeline.gutter + 12, HEAD + 20);
  }
}

// The lanes that are seen, each with its place on the canvas.
function* seenLanes() {
  const { scrollTop, clientHeight } = timeline.box;
  for (const lane of trace.lanes) {
    const y = HEAD + lane.y - scrollTop;
    if (y + lane.height >= HEAD - 24 && y <= clientHeight + 24) yield [lane, y];
  }
}

// The steps of the ruler: of one, two or five, with room for their texts.
function strideOf(pen) {
  const { from, to, gutter, width } = timeline;
  const each = Math.max(104, width - gutter) / (to - from); // pixels
  const room = (stride) =>
    Math.max(80, ...[from, to].map((time) => pen.measureText(tickText(time, stride)).width)) + 24;
  for (let power = 10 ** Math.max(0, Math.floor(Math.log10(104 / each))); ; power *= 10)
    for (const stride of [power, 2 * power, 5 * power]) if (stride * each >= room(stride)) return stride;
}

// The times of the ruler.
function* ticks() {
  const { from, to, stride } = timeline;
  for (let at = Math.ceil(from / stride); at * stride <= to; at++) yield at * stride;
}

// The text of a time of the ruler, in the unit of the steps.
function tickText(time, stride) {
  if (stride >= 1e9) return `${decimal(time / 1e9, 0)} s`;
  if (stride >= 1e6) return `${decimal(time / 1e6, 0)} ms`;
  if (stride >= 1e3) return `${decimal(time / 1e3, 0)} us`;
  return `${decimal(time, 0)} ns`;
}

function drawGrid(pen) {
  pen.fillStyle = colours.faint;
  for (const time of ticks()) pen.fillRect(Math.round(placeOf(time)), HEAD, 1, timeline.box.clientHeight);
}

function drawRuler(pen) {
  const { gutter, width, stride } = timeline;
  pen.fillStyle = colours.ground;
  pen.fillRect(gutter, OVERVIEW, width, HEAD - OVERVIEW);
  pen.fillStyle = colours.muted;
  let free = gutter;
  for (const time of ticks()) {
    const x = Math.round(placeOf(time));
    if (x < gutter) continue;
    pen.fillRect(x, HEAD - 6, 1, 6);
    const text = tickText(time, stride);
    const size = widthOf(pen, text);
    // (the last one ends where the ruler does)
    const left = Math.min(x + 4, width - size - 4);
    if (left >= free) pen.fillText(text, left, OVERVIEW + 11);
    free = left + size + 8;
  }
  pen.fillStyle = colours.raised;
  pen.fillRect(0, 0, gutter, HEAD);
  pen.fillStyle = colours.muted;
  write(pen, `${timeText(timeline.to - timeline.from)} seen`, 12, gutter - 8, OVERVIEW + 11);
  write(pen, \"All\", 12, gutter - 8, OVERVIEW / 2);
  pen.fillStyle = colours.line;
  pen.fillRect(0, HEAD - 1, width, 1);
  pen.fillRect(gutter - 1, 0, 1, timeline.box.clientHeight);
}

// Whether a lane's events from one place to another are to stand back, since the search finds none of them.
const isFaint = (lane, from, to) => lane.found !== null && lane.found[from] === lane.found[to];

function drawSlices(pen, lane, y) {
  const { events, start, end, reach } = lane;
  const { from, to } = timeline;
  const size = events.length;
  let at = firstAt(size, (at) => reach[at] >= from);
  while (at < size && start[at] <= to) {
    const left = placeSeen(start[at]);
    const right = placeSeen(end[at]);
    let next = at + 1;
    if (end[at] < from) {
      at = next;
      continue;
    }
    // slices that are thinner than a column are drawn as one
    if (right - left < 1) {
      const edge = timeAt(Math.floor(left) + 1);
      while (next < size && start[next] < edge && end[next] < edge) next = leap(lane, next, edge);
    }
    drawSlice(pen, lane, at, next, left, Math.max(1, right - left), y);
    at = next;
  }
  drawOutlines(pen, lane, y);
}

// A place in a lane after this one, before which all events end before this time.
function leap(lane, at, edge) {
  let by = 1;
  while (at + by < lane.reach.length && lane.reach[at + by] < edge) by *= 2;
  return at + (by >> 1 || 1);
}

function drawSlice(pen, lane, at, next, left, width, y) {
  const event = lane.events[at];
  const label = labelOf(event);
  const room = lane.height - 1;
  pen.globalAlpha = isFaint(lane, at, next) ? 0.22 : 1;
  pen.fillStyle = colourOf(label);
  pen.fillRect(left, y, width > 4 ? width - 0.5 : width, room);
  if (isOpen(event) && lane.end[at] <= timeline.to) {
    pen.fillStyle = colours.warning;
    pen.fillRect(Math.max(left, left + width - 3), y, 3, room);
  }
  if (width > 30) {
    pen.fillStyle = colours[\"slice-text\"];
    write(pen, label, left + 4, left + width - 4, y + room / 2 + 0.5);
  }
  pen.globalAlpha = 1;
}

// What tells that an event of a lane is selected, or under the pointer, also where it is drawn as one with others.
function drawOutlines(pen, lane, y) {
  const its = drawnFor(chosen.event);
  for (const event of new Set([timeline.hover, its])) {
    const at = event === NONE ? NONE : placeIn(lane, event);
    if (at === NONE || lane.end[at] < timeline.from || lane.start[at] > timeline.to) continue;
    const isMark = lane.sort === \"marks\";
    const left = isMark ? Math.floor(placeOf(lane.start[at])) - 4 : placeSeen(lane.start[at]);
    const width = isMark ? 10 : Math.max(2, placeSeen(lane.end[at]) - left);
    pen.strokeStyle = event === its ? colours.accent : colours.muted;
    pen.lineWidth = event === its ? 2 : 1;
    pen.strokeRect(left, y, width, lane.height - 1);
  }
}

// Instants: a tick each, with a head where there is room for one.
function drawMarks(pen, lane, y) {
  const { events, start } = lane;
  let at = firstAt(events.length, (at) => start[at] >= timeline.from);
  let last = -Infinity;
  while (at < events.length && start[at] <= timeline.to) {
    const x = Math.floor(placeOf(start[at]));
    let next = at + 1;
    while (next < events.length && start[next] < timeAt(x + 1)) next = leap(lane, next, timeAt(x + 1));
    const ahead = next < events.length ? placeOf(start[next]) : Infinity;
    pen.globalAlpha = isFaint(lane, at, next) ? 0.22 : 1;
    pen.fillStyle = markColourOf(labelOf(events[at]));
    pen.fillRect(x, y + 2, 2, lane.height - 5);
    if (x - last > 7 && ahead - x > 7) pen.fillRect(x - 2, y + 2, 6, 5);
    pen.globalAlpha = 1;
    last = x;
    at = next;
  }
  drawOutlines(pen, lane, y);
}

// The line of a counter: it keeps a value up to the next one. Where many lie in a column it goes from the least of
// them to the greatest.
function drawCounter(pen, lane, y) {
  const { start, values, least, most } = lane;
  const levelOf = (value) => y + lane.height - 3 - (value - least) / (most - least) * (lane.height - 8);
  let at = Math.max(0, firstAt(start.length, (at) => start[at] > timeline.from) - 1);
  const path = new Path2D();
  const first = placeSeen(start[at]);
  let level = levelOf(values[at]);
  path.moveTo(first, level);
  while (at < start.length && start[at] <= timeline.to) {
    const x = placeSeen(start[at]);
    const edge = timeAt(Math.floor(x) + 1);
    let [low, high] = [values[at], values[at]];
    while (at + 1 < start.length && start[at + 1] < edge) {
      at++;
      low = Math.min(low, values[at]);
      high = Math.max(high, values[at]);
    }
    path.lineTo(x, level);
    if (high > low) {
      path.lineTo(x, levelOf(high));
      path.lineTo(x, levelOf(low));
    }
    level = levelOf(values[at]);
    path.lineTo(x, level);
    at++;
  }
  const last = placeSeen(trace.most);
  path.lineTo(last, level);
  pen.strokeStyle = colours.counter;
  pen.lineWidth = 1.25;
  pen.globalAlpha = lane.found !== null && lane.found.at(-1) === 0 ? 0.3 : 1;
  pen.stroke(path);
  path.lineTo(last, levelOf(0));
  path.lineTo(first, levelOf(0));
  pen.fillStyle = colours.counter;
  pen.globalAlpha *= 0.13;
  pen.fill(path);
  pen.globalAlpha = 1;
  drawPoints(pen, lane, levelOf);
}

// The points of a counter that are selected or under the pointer.
function drawPoints(pen, lane, levelOf) {
  for (const event of new Set([timeline.hover, chosen.event])) {
    const at = event === NONE ? NONE : placeIn(lane, event);
    if (at === NONE) continue;
    pen.fillStyle = event === chosen.event ? colours.accent : colours.muted;
    pen.beginPath();
    pen.arc(placeOf(lane.start[at]), levelOf(lane.values[at]), 3.5, 0, 7);
    pen.fill();
  }
}

// The place of an event in a lane, or NONE.
function placeIn(lane, event) {
  let at = firstAt(lane.start.length, (at) => lane.start[at] >= trace.time[event]);
  while (at < lane.start.length && lane.start[at] === trace.time[event] && lane.events[at] !== event) at++;
  return lane.events[at] === event ? at : NONE;
}

function drawNames(pen) {
  const { gutter, box } = timeline;
  pen.fillStyle = colours.raised;
  pen.fillRect(0, HEAD, gutter, box.clientHeight);
  for (const [lane, y] of seenLanes()) {
    if (!lane.begins) continue;
    pen.fillStyle = colours.line;
    pen.fillRect(0, y - 5, timeline.width, 1);
    pen.fillStyle = colours.text;
    if (lane.sort !== \"counter\") write(pen, lane.track.name, 12, gutter - 8, y + lane.height / 2);
    else {
      const track = lane.schema.roles.tid === null ? \"\" : ` ${lane.track.name}`;
      write(pen, `${lane.schema.name}.${lane.field.name}${track}`, 12, gutter - 8, y + 11);
      pen.fillStyle = colours.muted;
      const low = lane.least < 0 ? `${numberText(lane.field, lane.least)} to ` : \"to \";
      write(pen, low + numberText(lane.field, lane.most), 12, gutter - 8, y + 27);
    }
  }
}

// A number of a counter, in the unit of its field.
function numberText(field, number) {
  const isShort = field.unit === \"bytes\" || (field.unit ?? \"\") in TIMES;
  if (isShort) return valueText({ ...field, kind: \"F64\" }, number);
  const isTiny = number !== 0 && Math.abs(number) < 0.01;
  const digits = isTiny ? String(Number(number.toPrecision(3))) : decimal(number, Number.isInteger(number) ? 0 : 3);
  return digits + (field.unit ? ` ${field.unit}` : \"\");
}

function drawRange(pen) {
  if (!chosen.range) return;
  const left = placeSeen(chosen.range.from);
  const right = placeSeen(chosen.range.to);
  pen.fillStyle = colours.accent;
  pen.globalAlpha = 0.1;
  pen.fillRect(left, HEAD, right - left, timeline.box.clientHeight);
  pen.globalAlpha = 0.7;
  for (const x of [left, right]) if (x > timeline.gutter && x < timeline.width) pen.fillRect(x, HEAD, 1, 1e4);
  pen.globalAlpha = 1;
}

// How the events lie in the whole trace, what of it is seen, and the range.
function drawOverview(pen) {
  const { gutter, width } = timeline;
  const size = Math.max(1, width - gutter);
  pen.fillStyle = colours.raised;
  pen.fillRect(gutter, 0, size, OVERVIEW);
  if (timeline.density?.all.length !== size) timeline.density = densityOf(size);
  const { all, found, most } = timeline.density;
  for (const [columns, colour] of [[all, chosen.found ? colours.line : colours.muted], [found, colours.accent]]) {
    pen.fillStyle = colour;
    for (let x = 0; columns && x < size; x++) {
      const height = Math.sqrt(columns[x] / most) * (OVERVIEW - 6);
      if (height > 0) pen.fillRect(gutter + x, OVERVIEW - 1 - height, 1, height);
    }
  }
  const whole = wholeSpan();
  const place = (time) => gutter + Math.max(0, Math.min(1, (time - whole.from) / (whole.to - whole.from))) * size;
  const bar = (from, to, colour) => {
    pen.fillStyle = colour;
    pen.fillRect(place(from), 0, Math.max(1, place(to) - place(from)), OVERVIEW);
  };
  pen.globalAlpha = 0.75;
  bar(whole.from, timeline.from, colours.ground);
  bar(timeline.to, whole.to, colours.ground);
  pen.globalAlpha = 0.25;
  if (chosen.range) bar(chosen.range.from, chosen.range.to, colours.accent);
  pen.globalAlpha = 1;
  pen.strokeStyle = colours.accent;
  pen.lineWidth = 1;
  const left = place(timeline.from);
  pen.strokeRect(left + 0.5, 0.5, Math.max(2, place(timeline.to) - left) - 1, OVERVIEW - 1);
}

// How many events, and how many that the search finds, begin in each of so many columns.
function densityOf(size) {
  const whole = wholeSpan();
  const all = new Uint32Array(size);
  const found = chosen.found && new Uint32Array(size);
  for (let event = 0; event < trace.count; event++) {
    const column = Math.floor((trace.time[event] - whole.from) / (whole.to - whole.from) * size);
    all[column]++;
    if (found && chosen.found[event]) found[column]++;
  }
  return { all, found, most: all.reduce((a, b) => Math.max(a, b), 1) };
}

// The lane that is drawn at this height of the canvas.
function laneAt(y) {
  for (const [lane, top] of seenLanes()) if (y >= top && y < top + lane.height) return lane;
  return null;
}

// The event that is drawn at this place of the canvas, or NONE.
function eventAt(x, y) {
  const lane = x > timeline.gutter && y > HEAD ? laneAt(y) : null;
  if (lane === null) return NONE;
  const { events, start, end, reach } = lane;
  const time = timeAt(x);
  const most = timeAt(x + 4) - time;
  const after = firstAt(start.length, (at) => start[at] > time);
  if (lane.sort === \"counter\") return after > 0 ? events[after - 1] : NONE;
  for (let at = after - 1; at >= 0 && reach[at] >= time; at--) if (end[at] >= time) return events[at];
  const before = after > 0 ? time - end[after - 1] : Infinity;
  const ahead = after < start.length ? start[after] - time : Infinity;
  if (Math.min(before, ahead) > most) return NONE;
  return events[before <= ahead ? after - 1 : after];
}

// What a pointer that goes down on the timeline does until it goes up.
function dragAt({ offsetX, offsetY, shiftKey, clientY }) {
  const drag = { x: offsetX, y: clientY, from: timeline.from, to: timeline.to, scroll: timeline.box.scrollTop };
  if (offsetX <= timeline.gutter) return null;
  if (offsetY < OVERVIEW) return { ...drag, does: \"overview\" };
  if (offsetY < HEAD || shiftKey) return { ...drag, does: \"range\", time: timeAt(offsetX) };
  return { ...drag, does: \"pan\", isClick: true };
}

// The same of a pointer that touches it: the second finger begins to pinch.
function touchAt(pointer) {
  timeline.fingers.set(pointer.pointerId, pointer);
  if (timeline.fingers.size !== 2) return dragAt(pointer);
  if (timeline.drag?.does === \"range\") setRange(chosen.range);
  return { does: \"pinch\", times: [...timeline.fingers.values()].map(({ offsetX }) => timeAt(offsetX)) };
}

// Keeps the times that two fingers took hold of where the fingers are.
function pinch(pointer) {
  const { drag, fingers, gutter, width } = timeline;
  if (!fingers.has(pointer.pointerId)) return;
  fingers.set(pointer.pointerId, pointer);
  const [a, b] = [...fingers.values()].map(({ offsetX }) => offsetX);
  if (Math.abs(a - b) < 8 || Math.sign(b - a) !== Math.sign(drag.times[1] - drag.times[0])) return;
  const each = (drag.times[1] - drag.times[0]) / (b - a);
  const from = drag.times[0] - (a - gutter) * each;
  look(from, from + (width - gutter) * each);
}

// A finger that is left goes on by dragging.
function endPinch(pointer) {
  timeline.fingers.delete(pointer.pointerId);
  const [left] = timeline.fingers.values();
  const drag = left ? dragAt(left) : null;
  timeline.drag = drag && { ...drag, does: \"pan\", isClick: false };
}

function moveDrag(pointer) {
  const { offsetX, clientY } = pointer;
  const { drag } = timeline;
  const room = timeline.width - timeline.gutter;
  if (drag.does === \"pinch\") pinch(pointer);
  else if (drag.does === \"overview\") {
    const whole = wholeSpan();
    const middle = whole.from + (offsetX - timeline.gutter) / room * (whole.to - whole.from);
    look(middle - (drag.to - drag.from) / 2, middle + (drag.to - drag.from) / 2);
  } else if (drag.does === \"range\") {
    const time = timeAt(Math.max(timeline.gutter, offsetX));
    if (Math.abs(offsetX - drag.x) < 3 && !chosen.range) return;
    chosen.range = { from: Math.min(time, drag.time), to: Math.max(time, drag.time) };
    drawSoon();
  } else {
    if (drag.isClick && Math.hypot(offsetX - drag.x, clientY - drag.y) < 4) return;
    drag.isClick = false;
    const by = (offsetX - drag.x) / room * (drag.to - drag.from);
    look(drag.from - by, drag.to - by);
    timeline.box.scrollTop = drag.scroll - (clientY - drag.y);
  }
}

function endDrag(pointer) {
  const { drag } = timeline;
  if (drag?.does === \"pinch\") return endPinch(pointer);
  timeline.fingers.delete(pointer.pointerId);
  timeline.drag = null;
  if (drag?.does === \"pan\" && drag.isClick) {
    timeline.lane = trace.lanes.indexOf(laneAt(pointer.offsetY));
    select(eventAt(pointer.offsetX, pointer.offsetY), { isShown: false });
  }
  if (drag?.does === \"range\") setRange(Math.abs(pointer.offsetX - drag.x) < 3 ? null : chosen.range);
}

function hover(pointer) {
  const event = pointer ? eventAt(pointer.offsetX, pointer.offsetY) : NONE;
  timeline.canvas.style.cursor = event === NONE ? \"default\" : \"pointer\";
  if (event !== timeline.hover) drawSoon();
  timeline.hover = event;
  if (event === NONE) return hideTip();
  const length = trace.length[event] >= 0 ? `${timeText(trace.length[event])} long, ` : \"\";
  const lines = [labelOf(event), `${length}at ${timeText(trace.time[event])}`];
  const lane = laneAt(pointer.offsetY);
  if (lane?.sort === \"counter\") lines.push(counterText(lane, event));
  showTip(pointer, lines);
}

// What a counter shows at an event: the number of a gauge, or the sum and the step.
function counterText(lane, event) {
  const field = schemaOf(event).counters.findLast((it) => it.name === lane.field.name);
  const value = valueText(field, valueOf(event, field));
  if (field.counter === \"gauge\") return `${field.name} ${value}`;
  return `${field.name} ${numberText(lane.field, lane.values[placeIn(lane, event)])}, by a step of ${value}`;
}

function showTip({ clientX, clientY }, lines) {
  const tip = byId(\"tip\");
  tip.replaceChildren(...lines.map((line) => make(\"p\", { dir: \"auto\" }, shown(line, 300))));
  tip.hidden = false;
  const { width, height } = tip.getBoundingClientRect();
  tip.style.left = `${Math.max(4, Math.min(clientX + 14, innerWidth - width - 4))}px`;
  tip.style.top = `${clientY + 18 + height < innerHeight ? clientY + 18 : clientY - height - 10}px`;
}

function hideTip() {
  byId(\"tip\").hidden = true;
}

function wheelTimeline(wheel) {
  if (wheel.ctrlKey) return wheelPinch(wheel);
  if (wheel.offsetX <= timeline.gutter && !wheel.shiftKey) return; // the box scrolls
  wheel.preventDefault();
  const lines = wheel.deltaMode === 1 ? 16 : 1;
  const across = wheel.shiftKey ? wheel.deltaX || wheel.deltaY : wheel.deltaX;
  if (wheel.shiftKey || Math.abs(wheel.deltaX) > Math.abs(wheel.deltaY)) return pan(across * lines / timeline.width);
  zoom(timeAt(wheel.offsetX), Math.exp(Math.max(-240, Math.min(240, wheel.deltaY * lines)) / 400));
}

// Pinching a touchpad is told as a wheel with Ctrl, whose steps are small.
function wheelPinch(wheel) {
  wheel.preventDefault();
  const time = timeAt(Math.max(timeline.gutter, wheel.offsetX));
  zoom(time, Math.exp(Math.max(-60, Math.min(60, wheel.deltaY)) / 100));
}

// The index of the lane that the keys are in: the one that was clicked or gone to, where it has the selected event.
function laneOfKeys() {
  const lane = trace.lanes[timeline.lane];
  return lane && placeIn(lane, drawnFor(chosen.event)) !== NONE ? timeline.lane : trace.laneOf[chosen.event];
}

// The event that is drawn for one: the begin for its end.
function drawnFor(event) {
  const begin = event !== NONE && shapeOf(event) === END ? trace.partner[event] : NONE;
  return begin === NONE ? event : begin;
}

// Selects the event that stands so many places further in the lane of the selected one.
function stepInLane(by) {
  const lane = trace.lanes[laneOfKeys()];
  if (!lane) return false;
  const at = placeIn(lane, drawnFor(chosen.event)) + by;
  select(lane.events[Math.max(0, Math.min(lane.events.length - 1, at))]);
  return true;
}

// Selects the event of the lane above or below that begins nearest to the selected one.
function stepToLane(by) {
  const lane = trace.lanes[laneOfKeys() + by];
  if (!lane) return;
  timeline.lane = laneOfKeys() + by;
  const time = trace.time[chosen.event];
  const { events, start } = lane;
  const after = firstAt(start.length, (at) => start[at] >= time);
  const isBefore = after === start.length || (after > 0 && time - start[after - 1] < start[after] - time);
  select(events[isBefore ? after - 1 : after]);
}

const timelineKeys = {
  w: () => zoom((timeline.from + timeline.to) / 2, 0.7),
  s: () => zoom((timeline.from + timeline.to) / 2, 1 / 0.7),
  \"+\": () => timelineKeys.w(),
  \"=\": () => timelineKeys.w(),
  \"-\": () => timelineKeys.s(),
  a: () => pan(-0.2),
  d: () => pan(0.2),
  ArrowLeft: () => chosen.event !== NONE && stepInLane(-1) || pan(-0.1),
  ArrowRight: () => chosen.event !== NONE && stepInLane(1) || pan(0.1),
  ArrowUp: () => (chosen.event === NONE ? timeline.box.scrollBy(0, -40) : stepToLane(-1)),
  ArrowDown: () => (chosen.event === NONE ? timeline.box.scrollBy(0, 40) : stepToLane(1)),
  Home: () => chosen.event !== NONE && stepInLane(-Infinity),
  End: () => chosen.event !== NONE && stepInLane(Infinity),
  Enter: () => (chosen.event === NONE ? step(1) : fit()),
};

function startTimeline() {
  const { canvas, box } = timeline;
  canvas.addEventListener(\"pointerdown\", (pointer) => {
    if (pointer.button !== 0) return;
    timeline.drag = pointer.pointerType === \"touch\" ? touchAt(pointer) : dragAt(pointer);
    if (timeline.drag) canvas.setPointerCapture(pointer.pointerId);
    if (timeline.drag?.does === \"overview\") moveDrag(pointer);
    hideTip();
  });
  canvas.addEventListener(\"pointermove\", (pointer) => (timeline.drag ? moveDrag(pointer) : hover(pointer)));
  canvas.addEventListener(\"pointerup\", endDrag);
  canvas.addEventListener(\"pointercancel\", (pointer) => {
    timeline.fingers.delete(pointer.pointerId);
    timeline.drag = null;
  });
  canvas.addEventListener(\"pointerleave\", () => hover(null));
  canvas.addEventListener(\"dblclick\", ({ offsetX, offsetY }) => {
    if (eventAt(offsetX, offsetY) !== NONE) fit();
  });
  canvas.addEventListener(\"wheel\", wheelTimeline, { passive: false });
  box.addEventListener(\"scroll\", drawSoon);
  onKeys(canvas, timelineKeys);
}

// Does what the keys of an element do, where no other key is held.
function onKeys(element, keys) {
  element.addEventListener(\"keydown\", (press) => {
    if (press.ctrlKey || press.metaKey || press.altKey) return;
    const key = press.key.length === 1 ? press.key.toLowerCase() : press.key;
    if (!Object.hasOwn(keys, key)) return;
    press.preventDefault();
    press.stopPropagation();
    keys[key](press);
  });
}

// ---- The table ----------------------------------------------------------------------------------------------------

const ROW = 24;
const TABLE_HEAD = 26;
const HIGHEST = 15e6; // pixels that every browser can scroll
const MOST_COLUMNS = 40;

const table = {
  box: byId(\"rows\"),
  rows: new Uint32Array(0), // the listed events in the order of the table
  columns: [],
  order: { id: \"time\", isDown: false },
  stale: true,
  first: 0, // the row that is seen first
  reveal: NONE, // an event whose row is to be seen
};

// How the table shows and orders events: by time, name, track and length, and by fields where all are of one schema.
function columnsOf(only) {
  const wide = table.box.clientWidth < 760 ? 0.84 : 1;
  const columns = [
    { id: \"time\", title: \"Time\", width: 150 * wide, isNumber: true, text: timeCell, key: (it) => trace.time[it] },
    { id: \"event\", title: \"Event\", width: 180 * wide, text: labelOf, ranks: labelOf },
    { id: \"track\", title: \"Track\", width: 130 * wide, text: trackName, key: (it) => trace.trackOf[it] },
    { id: \"length\", title: \"Length\", width: 116 * wide, isNumber: true, text: lengthCell, key: lengthOf },
  ];
  if (only === null) return [...columns, { id: \"fields\", title: \"Fields\", width: 0, nodes: fieldNodes }];
  return columns.concat(only.fields.slice(0, MOST_COLUMNS).map((field) => ({
    id: `field ${field.at}`,
    title: field.name,
    width: isNumber(field.kind) ? 120 : 220,
    isNumber: isNumber(field.kind),
    text: (event) => fieldCell(field, valueOf(event, field)),
    ...(isNumber(field.kind) || field.kind === \"Bool\"
      ? { key: (event) => numberKey(valueOf(event, field)) }
      : { ranks: (event) => fieldCell(field, valueOf(event, field)) }),
  })));
}

const lengthOf = (event) => trace.length[event];
const numberKey = (value) => (value === null || Number.isNaN(numberOf(value)) ? -Infinity : numberOf(value));
const fieldCell = (field, value) => (value === null ? \"\" : valueText(field, value));
const trackName = (event) => trace.tracks[trace.trackOf[event]].name;
const lengthCell = (event) => (trace.length[event] >= 0 ? timeText(trace.length[event]) : \"\");

// The time of an event in the unit that suits the whole trace, with all its digits.
function timeCell(event) {
  const most = Math.max(trace.most, -trace.least);
  const [unit, places] = most < 1e6 ? [\"us\", 3] : most < 1e9 ? [\"ms\", 6] : [\"s\", 9];
  return `${exactly(trace.exactTime[event], places)} ${unit}`;
}

function fieldNodes(event) {
  return schemaOf(event).fields.slice(0, MOST_COLUMNS).filter((field) => valueOf(event, field) !== null)
    .flatMap((field) => [make(\"bdi\", { className: \"key\" }, shown(field.name, 60)),
      isolated(valueText(field, valueOf(event, field)), 120, isNumber(field.kind))]);
}

// Orders the listed events as the table's head says.
function orderRows() {
  const listed = trace.schemas.filter((schema) => schema.listed > 0);
  table.columns = columnsOf(listed.length === 1 ? listed[0] : null);
  const column = table.columns.find((it) => it.id === table.order.id && (it.key || it.ranks)) ?? table.columns[0];
  table.order.id = column.id;
  table.rows = chosen.listed.slice();
  if (column.id !== \"time\") {
    const key = column.key ?? ranksOf(column.ranks);
    const keys = new Float64Array(trace.count);
    for (const event of table.rows) keys[event] = key(event);
    table.rows.sort((a, b) => keys[a] - keys[b] || trace.time[a] - trace.time[b] || a - b);
  }
  if (table.order.isDown) table.rows.reverse();
  table.stale = false;
}

// The place of each event's text among all of these texts.
function ranksOf(text) {
  const texts = new Map();
  for (const event of chosen.listed) texts.set(text(event), 0);
  [...texts.keys()].sort().forEach((it, at) => texts.set(it, at));
  return (event) => texts.get(text(event));
}

function drawTable() {
  if (table.stale) {
    orderRows();
    drawTableHead();
  }
  const { box, rows } = table;
  const height = TABLE_HEAD + Math.min(HIGHEST, rows.length * ROW);
  const [sheet] = box.children;
  sheet.style.height = `${height}px`;
  sheet.style.minWidth = `${table.columns.reduce((sum, it) => sum + (it.width || 300), 0)}px`;
  const seen = Math.max(1, Math.floor((box.clientHeight - TABLE_HEAD) / ROW));
  const last = Math.max(0, rows.length - seen);
  if (table.reveal !== NONE) revealRow(seen, last);
  const room = height - box.clientHeight;
  const first = room > 0 ? Math.min(last, Math.ceil(box.scrollTop * last / room - 0.01)) : 0;
  const body = sheet.querySelector(\"tbody\");
  fillRows(body, rows.subarray(first, first + seen + 1), first);
  const grid = sheet.firstElementChild;
  grid.setAttribute(\"aria-rowcount\", rows.length + 1);
  table.first = first;
}

// Scrolls to the row of the event that was just selected, where it is not seen.
function revealRow(seen, last) {
  const at = table.rows.indexOf(table.reveal);
  table.reveal = NONE;
  if (at < 0 || (at >= table.first && at < table.first + seen)) return;
  scrollToRow(Math.max(0, Math.min(last, at - (seen >> 1))), last);
}

function scrollToRow(first, last) {
  const room = table.box.scrollHeight - table.box.clientHeight;
  table.box.scrollTop = last > 0 ? first * room / last : 0;
}

function drawTableHead() {
  fillHead(table.box.querySelector(\"thead tr\"), table.columns, table.order, sortBy);
}

// Shows columns in the head of a list, whose titles order it. The title that has the keys keeps them.
function fillHead(head, columns, order, sort) {
  const at = [...head.children].indexOf(document.activeElement.parentElement);
  head.replaceChildren(...columns.map((column) => {
    const cell = make(\"th\", { className: column.isNumber ? \"number\" : \"\", scope: \"col\" });
    const isSorted = column.id === order.id;
    if (isSorted) cell.setAttribute(\"aria-sort\", order.isDown ? \"descending\" : \"ascending\");
    if (column.width) cell.style.width = `${column.width}px`;
    const title = make(\"bdi\", {}, shown(column.title, 60));
    const button = make(\"button\", { type: \"button\", disabled: !column.key && !column.ranks }, title);
    button.addEventListener(\"click\", () => sort(column.id));
    cell.append(button);
    return cell;
  }));
  head.children[at]?.firstElementChild.focus();
}

function sortBy(id) {
  table.order = { id, isDown: table.order.id === id && !table.order.isDown };
  table.stale = true;
  table.box.scrollTop = 0;
  drawSoon();
}

// Shows these events in the rows that there are.
function fillRows(body, events, first) {
  while (body.rows.length > events.length) body.lastElementChild.remove();
  while (body.rows.length < events.length) body.append(make(\"tr\", {}));
  events.forEach((event, at) => {
    const row = body.rows[at];
    row.event = event;
    row.setAttribute(\"aria-rowindex\", first + at + 2);
    row.setAttribute(\"aria-selected\", event === chosen.event);
    row.replaceChildren(...table.columns.map((column) => {
      const cell = make(\"td\", { className: column.isNumber ? \"number\" : \"\" });
      if (column.nodes) cell.append(...column.nodes(event));
      else cell.append(isolated(column.text(event), 300, column.isNumber));
      return cell;
    }));
  });
  if (events.length === 0) {
    const text = trace.count === 0 ? \"This trace has no events.\" : \"No event is found.\";
    const cell = make(\"td\", { className: \"empty\", colSpan: table.columns.length }, text);
    body.append(make(\"tr\", {}, cell));
  }
}

// Selects the row that stands so many further than the selected one.
function stepInTable(by) {
  if (table.stale) drawTable();
  if (table.rows.length === 0) return;
  const at = table.rows.indexOf(chosen.event);
  const to = at < 0 && Number.isFinite(by) ? table.first : Math.max(0, at) + by;
  select(table.rows[Math.max(0, Math.min(table.rows.length - 1, to))]);
}

function startTable() {
  const { box } = table;
  const page = () => Math.max(1, Math.floor((box.clientHeight - TABLE_HEAD) / ROW) - 1);
  box.querySelector(\"table\").setAttribute(\"role\", \"grid\");
  box.addEventListener(\"scroll\", drawSoon);
  box.querySelector(\"tbody\").addEventListener(\"click\", ({ target }) => {
    const { event } = target.closest(\"tr\");
    if (event !== undefined) select(event);
  });
  box.querySelector(\"tbody\").addEventListener(\"dblclick\", fit);
  box.addEventListener(\"wheel\", (wheel) => {
    const scale = table.rows.length * ROW / HIGHEST;
    if (scale <= 1 || wheel.shiftKey) return;
    wheel.preventDefault();
    box.scrollTop += wheel.deltaY / scale;
  }, { passive: false });
  onKeys(box, {
    ArrowUp: () => stepInTable(-1),
    ArrowDown: () => stepInTable(1),
    PageUp: () => stepInTable(-page()),
    PageDown: () => stepInTable(page()),
    Home: () => stepInTable(-Infinity),
    End: () => stepInTable(Infinity),
    Enter: fit,
  });
}

// ---- The flame graph ----------------------------------------------------------------------------------------------

const FRAME = 19; // the height of a row

const flame = {
  box: byId(\"stacks\"),
  canvas: byId(\"frames\"),
  root: null,
  top: null, // the frame that is as wide as the canvas
  frame: null, // the frame that the keys are at
  hover: null,
  boxes: [], // what was drawn: a frame and its place each
  weights: [], // what the width of a frame can mean
  stale: true,
};

// The number of events, and each number of an event with a stack.
function findWeights() {
  const schemas = trace.schemas.filter((schema) => schema.stacks.length);
  flame.weights = [{ name: \"Number of stacks\", schema: null, field: { kind: \"Varint\", unit: null } }];
  for (const schema of schemas)
    for (const field of schema.fields.filter((it) => isNumber(it.kind) && it.at !== schema.roles.tid))
      flame.weights.push({ name: `${schema.name}.${field.name}`, schema, field });
  byId(\"weight\").replaceChildren(...flame.weights.map(({ name }, at) =>
    make(\"option\", { value: at, dir: \"auto\" }, shown(name, 80))));
}

const weight = () => flame.weights[byId(\"weight\").value] ?? flame.weights[0];

// How much each stack of the listed events weighs, by its index; an unknown one has the index NONE.
function weighStacks() {
  const { schema, field } = weight();
  const sums = new Map();
  for (const event of chosen.listed) {
    const its = schemaOf(event);
    if (its.stacks.length === 0 || (schema && its !== schema)) continue;
    const size = schema ? numberOf(valueOf(event, field) ?? 0) : 1;
    for (const stack of its.stacks) {
      const value = valueOf(event, stack);
      if (value === null || !(size > 0 && size < Infinity)) continue;
      const key = typeof value === \"number\" ? value : NONE;
      sums.set(key, (sums.get(key) ?? 0) + size);
    }
  }
  return sums;
}

const makeFrame = (name, above) => ({
  name, above, depth: above ? above.depth + 1 : 0, total: 0, own: 0, inner: new Map(), below: null,
});

// The tree of the frames: below each the frames that it called, or that called it where the innermost comes first.
function makeTree() {
  const isInverted = byId(\"inverted\").checked;
  const root = makeFrame(NONE, null);
  root.deepest = 0;
  for (const [stack, size] of weighStacks()) {
    const frames = stack === NONE ? [NONE] : trace.stacks[stack];
    let frame = root;
    frame.total += size;
    for (let at = 0; at < frames.length; at++) {
      const name = frames[isInverted ? at : frames.length - 1 - at];
      let next = frame.inner.get(name);
      if (next === undefined) frame.inner.set(name, (next = makeFrame(name, frame)));
      frame = next;
      frame.total += size;
    }
    frame.own += size;
    root.deepest = Math.max(root.deepest, frames.length);
  }
  flame.root = flame.top = root;
  flame.frame = flame.hover = null;
  flame.stale = false;
}

// The frames below one, the greatest first.
function framesBelow(frame) {
  frame.below ??= [...frame.inner.values()].sort((a, b) => b.total - a.total || a.name - b.name);
  return frame.below;
}

const frameName = (frame) =>
  frame === flame.root ? \"All stacks\" : frame.name === NONE ? \"unknown stack\" : trace.strings[frame.name];

function drawFlame() {
  if (flame.stale) makeTree();
  const { box, canvas, root, top } = flame;
  const pen = penOf(canvas, box, (root.deepest + 1) * FRAME + 8);
  const width = box.clientWidth - 16;
  flame.boxes = [];
  byId(\"unzoom\").hidden = top === root;
  if (root.total === 0) {
    pen.fillStyle = colours.muted;
    pen.fillText(\"No stacks among these events\", 12, 20);
  } else {
    for (let frame = top.above; frame; frame = frame.above) drawFrame(pen, frame, 8, width);
    const left = [[top, 8, width]];
    while (left.length) {
      const [frame, x, wide] = left.pop();
      drawFrame(pen, frame, x, wide);
      let at = x;
      for (const inner of framesBelow(frame)) {
        const part = wide * inner.total / frame.total;
        if (part < 0.4) break;
        left.push([inner, at, part]);
        at += part;
      }
    }
  }
  showFrame();
}

function drawFrame(pen, frame, x, wide) {
  const y = 4 + frame.depth * FRAME - flame.box.scrollTop;
  if (y < -FRAME || y > flame.box.clientHeight) return;
  flame.boxes.push({ frame, x, y, wide });
  const isAbove = frame.depth < flame.top.depth;
  const name = frameName(frame);
  pen.globalAlpha = isAbove ? 0.55 : 1;
  pen.fillStyle = frame === flame.root ? colours.line : colourOf(name);
  pen.fillRect(x, y, Math.max(0.5, wide - 0.75), FRAME - 1);
  if (wide > 22) {
    pen.fillStyle = frame === flame.root ? colours.text : colours[\"slice-text\"];
    write(pen, name, x + 4, x + wide - 4, y + FRAME / 2);
  }
  pen.globalAlpha = 1;
  if (frame !== flame.frame && frame !== flame.hover) return;
  pen.strokeStyle = frame === flame.frame ? colours.accent : colours.muted;
  pen.lineWidth = frame === flame.frame ? 2 : 1;
  pen.strokeRect(x, y, Math.max(1, wide - 0.75), FRAME - 1);
}

// Tells of the frame under the pointer, or of the one that the keys are at.
function showFrame() {
  const { root, hover, frame } = flame;
  const told = hover ?? frame ?? flame.top;
  const { field } = weight();
  const text = (size) => (field.unit === null ? grouped(Number.isInteger(size) ? size : size.toFixed(3))
    : valueText({ ...field, kind: \"F64\" }, size));
  const part = root.total ? ` (${decimal(100 * told.total / root.total, 1)} %)` : \"\";
  const own = told === root ? \"\" : `, ${text(told.own)} its own`;
  byId(\"frame\").replaceChildren(isolated(frameName(told), 300), ` ${text(told.total)}${part}${own}`);
}

const frameAt = (x, y) =>
  flame.boxes.find((it) => x >= it.x && x < it.x + it.wide && y >= it.y && y < it.y + FRAME)?.frame ?? null;

function zoomToFrame(frame) {
  flame.top = frame ?? flame.root;
  flame.frame = frame;
  drawSoon();
}

// Goes to another frame by a key, and to where it is seen.
function goToFrame(frame) {
  if (!frame) return;
  flame.frame = frame;
  flame.hover = null;
  let above = frame;
  while (above && above !== flame.top) above = above.above;
  if (!above) flame.top = frame;
  const y = frame.depth * FRAME;
  const { box } = flame;
  if (y < box.scrollTop) box.scrollTop = y;
  else if (y + FRAME + 8 > box.scrollTop + box.clientHeight) box.scrollTop = y + FRAME + 8 - box.clientHeight;
  drawSoon();
}

function beside(by) {
  const { frame } = flame;
  const row = frame?.above ? framesBelow(frame.above) : [];
  return row[row.indexOf(frame) + by];
}

function startFlame() {
  const { canvas, box } = flame;
  const choose = () => {
    flame.stale = true;
    drawSoon();
  };
  findWeights();
  byId(\"weight\").addEventListener(\"change\", choose);
  byId(\"inverted\").addEventListener(\"change\", choose);
  byId(\"unzoom\").addEventListener(\"click\", () => zoomToFrame(null));
  box.addEventListener(\"scroll\", drawSoon);
  canvas.addEventListener(\"click\", ({ offsetX, offsetY }) => {
    const frame = frameAt(offsetX, offsetY);
    if (frame) zoomToFrame(frame);
  });
  canvas.addEventListener(\"pointermove\", ({ offsetX, offsetY }) => {
    flame.hover = frameAt(offsetX, offsetY);
    drawSoon();
  });
  canvas.addEventListener(\"pointerleave\", () => {
    flame.hover = null;
    drawSoon();
  });
  onKeys(canvas, {
    ArrowUp: () => goToFrame(flame.frame?.above ?? flame.root),
    ArrowDown: () => goToFrame(flame.frame ? framesBelow(flame.frame)[0] : flame.root),
    ArrowLeft: () => goToFrame(beside(-1)),
    ArrowRight: () => goToFrame(beside(1)),
    Enter: () => flame.frame && zoomToFrame(flame.frame),
    Backspace: () => zoomToFrame(null),
  });
}

// ---- The summary --------------------------------------------------------------------------------------------------

const summary = {
  stale: true,
  order: { id: null, isDown: false }, // without a column schemas stand by their first events
};

// How the summary shows and orders schemas.
function summaryColumns() {
  const isPart = chosen.found !== null || chosen.range !== null;
  const hasBytes = trace.schemas.some((schema) => schema.bytes !== null);
  const number = (id, title, key, text) => ({ id, title, isNumber: true, key, nodes: (it) => [text(it)] });
  return [
    { id: \"schema\", title: \"Schema\", key: (it) => it.name, nodes: schemaNodes },
    number(\"events\", \"Events\", (it) => it.count, (it) => grouped(it.count)),
    ...(isPart ? [number(\"listed\", \"Listed\", (it) => it.listed, (it) => grouped(it.listed))] : []),
    number(\"first\", \"First\", (it) => trace.time[it.first], (it) => timeCell(it.first)),
    number(\"last\", \"Last\", (it) => trace.time[it.last], (it) => timeCell(it.last)),
    ...(hasBytes ? [number(\"bytes\", \"Bytes\", (it) => Number(it.bytes ?? -1), bytesCell)] : []),
    { id: \"fields\", title: \"Fields\", nodes: fieldNames },
  ];
}

const bytesCell = (schema) => (schema.bytes === null ? \"\" : bytesText(Number(schema.bytes)));

// The schema's name, which searches for its events.
function schemaNodes(schema) {
  const swatch = make(\"span\", { className: \"swatch\" });
  swatch.style.background = colourOf(schema.group ?? schema.name);
  const button = make(\"button\", { type: \"button\", title: \"Search for its events\" }, isolated(schema.name, 120));
  button.addEventListener(\"click\", () => {
    ask(`event=${inQuotes(schema.name)}`);
    show(\"table\");
  });
  return [swatch, button];
}

function fieldNames(schema) {
  return schema.fields.slice(0, MOST_COLUMNS).flatMap((field, at) => [at ? \", \" : \"\", make(\"span\", {},
    isolated(field.name, 60), ` ${field.type}${field.unit ? ` in ${shown(field.unit, 30)}` : \"\"}`)]);
}

// The schemas as the summary's head orders them.
function orderedSchemas(columns) {
  const { id, isDown } = summary.order;
  const key = columns.find((it) => it.id === id)?.key;
  const way = isDown ? -1 : 1;
  const order = (a, b) => (key(a) < key(b) ? -way : key(a) > key(b) ? way : a.index - b.index);
  return key ? [...trace.schemas].sort(order) : trace.schemas;
}

function drawSummary() {
  if (!summary.stale) return;
  summary.stale = false;
  const columns = summaryColumns();
  const [head, body] = byId(\"summary\").querySelectorAll(\"thead tr, tbody\");
  fillHead(head, columns, summary.order, sortSummary);
  const row = (schema) => make(\"tr\", {}, ...columns.map((column) =>
    make(\"td\", { className: column.isNumber ? \"number\" : \"\" }, ...column.nodes(schema))));
  body.replaceChildren(...orderedSchemas(columns).slice(0, MOST_LINES).map(row));
  const rest = trace.schemas.length - MOST_LINES;
  const text = rest > 0 ? `and ${grouped(rest)} more` : trace.count === 0 ? \"This trace has no events.\" : \"\";
  if (text) body.append(make(\"tr\", {}, make(\"td\", { className: \"empty\", colSpan: columns.length }, text)));
}

// Orders the summary by a column: up, then down, and then by first events again.
function sortSummary(id) {
  const { order } = summary;
  const isAgain = order.id === id;
  summary.order = isAgain && order.isDown ? { id: null, isDown: false } : { id, isDown: isAgain };
  summary.stale = true;
  drawSoon();
}

// ---- The details of an event --------------------------------------------------------------------------------------

function showDetails() {
  const { event } = chosen;
  const box = byId(\"details\");
  box.parentElement.classList.toggle(\"bare\", event === NONE);
  if (event === NONE) {
    const hint = trace.count ? \"Select an event to see its fields.\" : \"\";
    box.replaceChildren(make(\"p\", { className: \"muted\" }, hint));
    return;
  }
  const schema = schemaOf(event);
  const label = labelOf(event);
  const title = (text) => shown(text, MOST_TITLE);
  const parts = [make(\"h2\", { dir: \"auto\" }, title(label))];
  if (label !== schema.name) parts.push(make(\"p\", { className: \"muted\", dir: \"auto\" }, title(schema.name)));
  parts.push(...warnings(event), placeTable(event), make(\"h3\", {}, \"Fields\"), fieldTable(event));
  const { partner } = trace;
  if (partner[event] !== NONE) {
    const isEnd = shapeOf(event) === END;
    parts.push(make(\"h3\", {}, isEnd ? \"Fields of its begin\" : \"Fields of its end\"), fieldTable(partner[event]));
  }
  for (const field of schema.stacks) parts.push(...stackList(field, valueOf(event, field)));
  box.replaceChildren(...parts);
  box.scrollTop = 0;
}

function warnings(event) {
  const warning = (text) => [make(\"p\", { className: \"warning\" }, text)];
  const isEnd = shapeOf(event) === END;
  if (isOpen(event)) return warning(\"It has no end in this trace.\");
  if (isEnd && trace.partner[event] === NONE) return warning(\"It has no begin in this trace.\");
  const isUnknown = (field) => !Array.isArray(valueOf(event, field)) && typeof valueOf(event, field) === \"object\";
  const unknown = schemaOf(event).fields.filter((field) => valueOf(event, field) !== null && isUnknown(field));
  return unknown.length ? warning(\"The trace has nothing under an id of this event.\") : [];
}

const rowOf = (name, ...value) =>
  make(\"tr\", {}, make(\"td\", { dir: \"auto\" }, shown(name, 200)), make(\"td\", {}, ...value));
const exact = (text) => make(\"span\", { className: \"exact\" }, text);

function placeTable(event) {
  const time = trace.exactTime[event];
  const table = make(\"table\", {});
  table.append(rowOf(\"Time\", timeText(trace.time[event]), exact(`${exactly(time, 0)} ns`)));
  table.append(rowOf(\"Clock\", `${grouped(trace.start + BigInt(time))} ns`));
  const date = dateText(event);
  if (date) table.append(rowOf(\"Date\", date));
  const length = trace.length[event];
  if (length >= 0) {
    const digits = Number.isInteger(length) && length < 2 ** 53 ? [exact(`${exactly(length, 0)} ns`)] : [];
    table.append(rowOf(\"Length\", timeText(length), ...digits));
  }
  table.append(rowOf(\"Track\", isolated(trackName(event))));
  table.append(rowOf(\"Event\", `${grouped(event + 1)} of ${grouped(trace.count)}`));
  return table;
}

function fieldTable(event) {
  const { fields } = schemaOf(event);
  if (fields.length === 0) return make(\"p\", { className: \"muted\" }, \"none\");
  const rest = fields.length - MOST_LINES;
  const last = rest > 0 ? [rowOf(\"\", make(\"span\", { className: \"muted\" }, `and ${grouped(rest)} more`))] : [];
  return make(\"table\", {}, ...fields.slice(0, MOST_LINES).map((field) => {
    const value = valueOf(event, field);
    if (field.kind === \"StackFrames\" && typeof value === \"number\")
      return rowOf(field.name, counted(trace.stacks[value].length, \"frame\", \"frames\"));
    const text = valueText(field, value);
    const plain = plainText(field.kind, value);
    const isShort = isNumber(field.kind) && field.unit !== null && value !== null;
    const [number, unit] = text.split(\" \");
    const isAll = unit === field.unit && Number(number.replaceAll(\",\", \"\")) === numberOf(value);
    const digits = isWhole(field.kind) ? exactly(plain, 0) : plain;
    const detail = isShort && !isAll ? [exact(`${digits} ${field.unit}`)] : [];
    const cell = isolated(text, 4000, isNumber(field.kind));
    cell.className = value === null ? \"muted\" : \"\";
    return rowOf(field.name, cell, ...detail);
  }), ...last);
}

function stackList(field, value) {
  if (typeof value !== \"number\") return [];
  const frames = trace.stacks[value];
  const items = frames.slice(0, MOST_LINES).map((frame) => make(\"li\", {}, isolated(trace.strings[frame], 500)));
  const rest = frames.length - MOST_LINES;
  const last = rest > 0 ? [make(\"p\", { className: \"muted\" }, `and ${grouped(rest)} more`)] : [];
  return [make(\"h3\", { dir: \"auto\" }, shown(field.name, 200)), make(\"ol\", {}, ...items), ...last];
}

// ---- The page -----------------------------------------------------------------------------------------------------

const lists = [\"table\", \"flame\", \"summary\"];

function show(list) {
  chosen.list = list;
  for (const name of lists) {
    const tab = byId(`tab-${name}`);
    tab.setAttribute(\"aria-selected\", name === list);
    tab.tabIndex = name === list ? 0 : -1;
    byId(name).hidden = name !== list;
  }
  drawSoon();
}

// Searches for this, as if it had been typed.
function ask(query) {
  byId(\"query\").value = query;
  search(query);
}

function setTheme(theme) {
  document.documentElement.dataset.theme = theme;
  readColours();
  summary.stale = true;
  drawSoon();
}

function dropSomething() {
  if (chosen.query) ask(\"\");
  else if (chosen.range) setRange(null);
  else select(NONE);
}

// A range of the time of the selected slice, or of what is seen.
function rangeHere() {
  const event = drawnFor(chosen.event);
  if (event !== NONE && trace.length[event] > 0) setRange({ from: trace.time[event], to: endTime(event) });
  else setRange({ from: timeline.from, to: timeline.to });
}

const pageKeys = {
  \"/\": () => byId(\"query\").focus(),
  n: ({ shiftKey }) => step(shiftKey ? -1 : 1),
  f: fit,
  0: lookAtAll,
  r: rangeHere,
  t: () => setTheme(document.documentElement.dataset.theme === \"dark\" ? \"light\" : \"dark\"),
  1: () => show(\"table\"),
  2: () => show(\"flame\"),
  3: () => show(\"summary\"),
  \"?\": () => byId(\"keys\").showModal(),
  Escape: dropSomething,
};

function startSearch() {
  const query = byId(\"query\");
  let waits = 0;
  const now = () => {
    clearTimeout(waits);
    if (query.value !== chosen.query) search(query.value);
  };
  query.addEventListener(\"input\", () => {
    clearTimeout(waits);
    waits = setTimeout(now, trace.count > 50000 ? 200 : 40);
  });
  query.addEventListener(\"keydown\", (press) => {
    press.stopPropagation();
    if (press.key === \"Enter\") {
      now();
      step(press.shiftKey ? -1 : 1);
    } else if (press.key === \"Escape\") {
      ask(\"\");
      timeline.canvas.focus();
    } else return;
    press.preventDefault();
  });
  byId(\"search\").addEventListener(\"submit\", (it) => it.preventDefault());
  byId(\"previous\").addEventListener(\"click\", () => step(-1));
  byId(\"next\").addEventListener(\"click\", () => step(1));
}

function startControls() {
  byId(\"range\").addEventListener(\"click\", () => setRange(null));
  byId(\"whole\").addEventListener(\"click\", lookAtAll);
  byId(\"theme\").addEventListener(\"click\", pageKeys.t);
  byId(\"help\").addEventListener(\"click\", pageKeys[\"?\"]);
  for (const list of lists) byId(`tab-${list}`).addEventListener(\"click\", () => show(list));
  const turn = (by) => {
    show(lists[(lists.indexOf(chosen.list) + by + lists.length) % lists.length]);
    byId(`tab-${chosen.list}`).focus();
  };
  onKeys(document.querySelector(\"[role=tablist]\"), { ArrowLeft: () => turn(-1), ArrowRight: () => turn(1) });
  const keys = byId(\"keys\");
  keys.addEventListener(\"keydown\", (press) => press.stopPropagation());
  keys.addEventListener(\"click\", ({ target }) => target === keys && keys.close());
  onKeys(document, pageKeys);
  const dark = matchMedia(\"(prefers-color-scheme: dark)\");
  dark.addEventListener(\"change\", () => setTheme(dark.matches ? \"dark\" : \"light\"));
}

// The divider between the timeline and the lists.
function startDivider() {
  const divider = byId(\"divider\");
  const main = divider.parentElement;
  let wish = 0;
  const set = (height) => {
    wish = height;
    const most = main.clientHeight - 160;
    main.style.setProperty(\"--timeline\", `${Math.round(Math.max(HEAD + 40, Math.min(most, height)))}px`);
    drawSoon();
  };
  const height = () => timeline.box.clientHeight;
  divider.addEventListener(\"pointerdown\", (pointer) => divider.setPointerCapture(pointer.pointerId));
  divider.addEventListener(\"pointermove\", (pointer) => {
    if (divider.hasPointerCapture(pointer.pointerId)) set(pointer.clientY - main.getBoundingClientRect().top);
  });
  onKeys(divider, { ArrowUp: () => set(height() - 24), ArrowDown: () => set(height() + 24) });
  set(Math.min(HEAD + trace.height + 12, main.clientHeight * 0.52));
  new ResizeObserver(() => set(wish)).observe(main);
}

// What the head of the page says of the trace.
function showFacts() {
  const name = trace.name || \"Trace\";
  document.title = shown(name, 100);
  byId(\"name\").textContent = shown(name, 200);
  const parts = [counted(trace.count, \"event\", \"events\"), counted(trace.schemas.length, \"schema\", \"schemas\"),
    counted(trace.tracks.length, \"track\", \"tracks\")];
  if (trace.count) {
    parts.push(`${timeText(trace.most - trace.least)} long`);
    const date = dateText(0);
    parts.push(date ? `from ${date.replace(/\\.\\d+/, \"\")}` : `from ${grouped(trace.start)} ns`);
  }
  byId(\"facts\").textContent = byId(\"facts\").title = parts.join(\" \\u00b7 \");
  if (trace.end !== null) notice(`This trace was not read to its end: ${trace.end}`);
  const zeros = trace.clocks.map(({ zero }) => zero).filter((it) => it !== null);
  if (new Set(zeros).size > 1) notice(\"The files are of several clocks. Their dates are to be compared, \" +
    \"and not their times.\");
  if (trace.clocks.some(({ isMixed }) => isMixed)) notice(\"There are no dates where the events of one file \" +
    \"may be of several clocks. Then their times are not to be compared.\");
}

// Says something above all else, below what was said there before.
function notice(text) {
  byId(\"notice\").append(make(\"p\", {}, shown(text)));
  byId(\"notice\").hidden = false;
}

function start() {
  const isDark = matchMedia(\"(prefers-color-scheme: dark)\").matches;
  document.documentElement.dataset.theme = isDark ? \"dark\" : \"light\";
  readColours();
  readTrace();
  performance.mark(\"read\");
  showFacts();
  startSearch();
  startControls();
  startTimeline();
  startTable();
  startFlame();
  startDivider();
  new ResizeObserver(drawSoon).observe(timeline.box);
  new ResizeObserver(drawSoon).observe(byId(\"lists\"));
  lookAtAll();
  show(\"table\");
  search(\"\");
  select(NONE);
  draw();
  performance.mark(\"drawn\");
  document.body.dataset.ready = trace.count;
}

try {
  start();
} catch (error) {
  document.body.dataset.failed = error.message;
  byId(\"facts\").textContent = \"\";
  notice(`The page can't show this trace: ${error.message}`);
}
</script>
</body>
</html>
";
