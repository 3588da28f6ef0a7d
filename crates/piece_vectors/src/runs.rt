//! Whole runs over sources that give their bytes in pieces, and over sources that fail at a call.
ghost use Rattle.std.specs.Prelude.{◌<◌};

use crate::check::NO_MEMORY;
use crate::rows::{TABLES, Worked};
use crate::texts::parted;
use row_tables::{Row, rows, unescaped};
use span_cli::run;
use span_io::{Blob, Items, MemDoor, MemSink, MemSource, Text};
use std::alloc::Global;
use std::process::Abort;
use std::test::Fail;

// The lines of each unit stand as it ends, and that of their number behind all.
const LOSSES: &str = r#"
losses of two groups
forms otlp-proto zipkin-json
frame 110 @SDK_REQUEST
frame 130 @ONE_SPAN
output unit 1 span 1: value "http.response.status_code"\n
output unit 1 span 1: start\n
output unit 1 span 1: end\n
output unit 1 span 1: flags\n
output unit 2 span 1: kind\n
output losses 5\n
whole 2 2
status 0
"#;

const INPUT_FAILED: &str = "input failed\n";

// A group of one span up to its name, which has 70,000 letters: 44 bytes of 70,044.
const LONG_GROUP: &str =
    "0a98a3041294a3041290a3040a1000000000000000000000000000000001120800000000000000022af0a204";

// What a run is to answer: its status, how many bytes of the output stand, and its note.
#[derive(Clone, Copy)]
struct Wanted<'a> {
    status: u8,
    output: Option<&'a [u8]>,
    note: &'a [u8],
}

// Words, and an input.
#[derive(Drop)]
struct Given {
    words: Vec<String>,
    input: Blob,
}

fn say(rt: &impl Abort, alloc: Global, words: &mut Vec<String>, word: &str) {
    let word = String::from_str(alloc, word).expect(rt, NO_MEMORY);
    words.push(word).expect(rt, NO_MEMORY);
}

// The words of a command between two forms.
fn spoken(rt: &impl Abort, alloc: Global, command: &str, from: &str, to: &str) -> Vec<String> {
    let mut words = Vec::new(alloc);
    say(rt, alloc, &mut words, command);
    say(rt, alloc, &mut words, "--from");
    say(rt, alloc, &mut words, from);
    say(rt, alloc, &mut words, "--to");
    say(rt, alloc, &mut words, to);
    words
}

// The call that fails, if one does.
fn calls(rt: &impl Abort, alloc: Global, call: Option<u64>) -> Items<u64> {
    let mut calls = Items::new(alloc);
    if let Some(call) = call {
        calls.push(call).expect(rt, NO_MEMORY);
    }
    calls
}

// A source that gives so many bytes a call, and fails at the one call, if one is given.
fn source(
    rt: &impl Abort,
    alloc: Global,
    bytes: &[u8],
    cut: usize,
    fails: Option<u64>,
) -> MemSource {
    let bytes = Vec::from_slice(alloc, bytes).expect(rt, NO_MEMORY);
    MemSource::new(Blob::from_vec(bytes), cut, calls(rt, alloc, fails))
}

fn sink(rt: &impl Abort, alloc: Global, room: usize) -> MemSink {
    MemSink::new(alloc, room, Items::new(alloc)).expect(rt, NO_MEMORY)
}

// A door at which no connection waits.
fn empty_door(rt: &impl Abort, alloc: Global) -> MemDoor {
    MemDoor::new(
        alloc,
        Text::new(alloc),
        Items::new(alloc),
        Items::new(alloc),
    )
    .expect(rt, NO_MEMORY)
}

// Looks at the status, the output and the note of an answer.
fn expect_answer(rt: &impl Abort, name: &str, wanted: Wanted, given: Wanted) {
    assert_eq!(rt; given.status, wanted.status, "status of {name}");
    assert_eq!(rt; given.output, wanted.output, "output of {name}");
    assert_eq!(rt; given.note, wanted.note, "note of {name}");
}

// Runs the words on the input, of which so many bytes come a call, and looks at the answer.
fn expect_run(
    rt: &impl Abort,
    alloc: Global,
    name: &str,
    given: &Given,
    (cut, fails): (usize, Option<u64>),
    wanted: Wanted,
) {
    let mut input = source(rt, alloc, given.input.as_slice(), cut, fails);
    let mut output = sink(rt, alloc, 200_000);
    let mut notes = sink(rt, alloc, 100);
    let mut door = empty_door(rt, alloc);
    let words = given.words.as_slice();
    let status = run(alloc, words, &mut input, &mut output, &mut notes, &mut door);
    let answer = Wanted {
        status,
        output: Some(output.bytes()),
        note: notes.bytes(),
    };
    expect_answer(rt, name, wanted, answer);
}

/// A run on a row: what it is given, and the status and the note that come of it.
#[derive(Drop)]
struct Run {
    worked: Worked,
    given: Given,
    status: u8,
    note: Vec<u8>,
}

impl Run {
    fn read(
        rt: &impl Abort,
        alloc: Global,
        row: &Row,
        command: &str,
        status: u8,
    ) -> Result<Run, Fail> {
        let (from, to) = parted(row, row.text("forms")?)?;
        let note = row.text_if_any("note")?.unwrap_or("");
        let mut worked = Worked::read(alloc, row)?;
        let note = unescaped(alloc, note)?;
        let given = Given {
            words: spoken(rt, alloc, command, from, to),
            input: Blob::from_vec(worked.input.take()),
        };
        Ok(Run {
            worked,
            given,
            status,
            note,
        })
    }

    // What a run answers that reads all.
    fn whole(&self) -> Wanted<'_> {
        Wanted {
            status: self.status,
            output: Some(self.worked.output.as_slice()),
            note: self.note.as_slice(),
        }
    }

    // What a run answers that could read so many bytes. What stopped before stays as it was.
    fn broken(&self, read: usize) -> Wanted<'_> {
        if self.worked.found(read).is_some() {
            return self.whole();
        }
        let output = self.worked.output.as_slice();
        Wanted {
            status: 5,
            output: output.get(..self.worked.written(read)),
            note: INPUT_FAILED.as_bytes(),
        }
    }
}

// Runs a row on a source that fails at a call, behind so many bytes that it gave.
fn expect_failing(
    rt: &impl Abort,
    alloc: Global,
    run: &Run,
    (cut, call): (usize, u64),
    read: usize,
) {
    let source = (cut, Some(call));
    let wanted = run.broken(read);
    expect_run(rt, alloc, run.worked.name, &run.given, source, wanted);
}

// Runs a row on sources of which each fails at another call, the last one where the end would be told. The units in the
// bytes that were read stand.
fn expect_each_failing(rt: &impl Abort, alloc: Global, run: &Run, cut: usize)
    requires { 0 < cut }
{
    let mut call = 1_u64;
    let mut read = 0_usize;
    'pieces: for piece in run.given.input.as_slice().chunks(cut) {
        expect_failing(rt, alloc, run, (cut, call), read);
        call = call.saturating_add(1);
        read = read.saturating_add(piece.len());
    }
    expect_failing(rt, alloc, run, (cut, call), read);
}

// Runs a row in pieces of so many bytes, from a source that fails nowhere and from one that fails at each call.
fn expect_size(rt: &impl Abort, alloc: Global, run: &Run, cut: usize)
    requires { 0 < cut }
{
    let name = run.worked.name;
    expect_run(rt, alloc, name, &run.given, (cut, None), run.whole());
    expect_each_failing(rt, alloc, run, cut);
}

// The status that a row has, if it has one.
fn status_of(row: &Row) -> Result<Option<u8>, Fail> {
    match row.number_if_any("status")? {
        None => Ok(None),
        Some(status) if status < 256 => Ok(Some(status as u8)),
        Some(_) => Err(row.fail("no status", "status")),
    }
}

// Runs a row of a status.
fn expect_row(
    rt: &impl Abort,
    alloc: Global,
    row: &Row,
    command: &str,
    status: u8,
) -> Result<(), Fail> {
    let run = Run::read(rt, alloc, row, command, status)?;
    expect_size(rt, alloc, &run, 1);
    expect_size(rt, alloc, &run, 2);
    expect_size(rt, alloc, &run, 7);
    expect_size(rt, alloc, &run, 37);
    expect_size(rt, alloc, &run, 65_536);
    Ok(())
}

// Runs the rows of a table that have a status.
fn expect_runs(
    rt: &impl Abort,
    alloc: Global,
    table: &'static str,
    command: &str,
) -> Result<(), Fail> {
    for row in &rows(alloc, table)? {
        if let Some(status) = status_of(row)? {
            expect_row(rt, alloc, row, command, status)?;
        }
    }
    Ok(())
}

#[test]
fn runs_rows(rt: HostRuntime) -> Result<(), Fail> {
    for table in &TABLES {
        expect_runs(&rt, rt.alloc(), table, "convert")?;
    }
    expect_runs(&rt, rt.alloc(), LOSSES, "losses")
}

// Appends a group of 70,044 bytes.
fn append_long(rt: &impl Abort, alloc: Global, input: &mut Blob) {
    let front = hex::decode(alloc, LONG_GROUP).expect(rt, "front");
    input.append(front.as_slice()).expect(rt, NO_MEMORY);
    for _ in 0..7_000 {
        input.append(b"aaaaaaaaaa").expect(rt, NO_MEMORY);
    }
}

// The call that fails, if one does, and the status, the number of bytes that are written, and the note.
const LONG_RUNS: [(Option<u64>, u8, usize, &str); 4] = [
    (None, 0, 140_088, ""),
    (Some(2), 5, 0, INPUT_FAILED),
    (Some(3), 5, 70_044, INPUT_FAILED),
    (Some(4), 5, 140_088, INPUT_FAILED),
];

// Two groups, each longer than what a call gives. They are written again as they are.
#[test]
fn reads_long_units(rt: HostRuntime) {
    let mut given = Given {
        words: spoken(&rt, rt.alloc(), "convert", "otlp-proto", "otlp-proto"),
        input: Blob::new(rt.alloc()),
    };
    append_long(&rt, rt.alloc(), &mut given.input);
    append_long(&rt, rt.alloc(), &mut given.input);
    for (fails, status, written, note) in &LONG_RUNS {
        let wanted = Wanted {
            status: *status,
            output: given.input.as_slice().get(..*written),
            note: note.as_bytes(),
        };
        let source = (65_536, *fails);
        expect_run(&rt, rt.alloc(), "long units", &given, source, wanted);
    }
}
