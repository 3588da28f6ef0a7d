//! What a run is given, what is wanted of it and what it answered, in lists that are made once and filled anew for each run.
ghost use Rattle.std.specs.Prelude.{◌≡◌};

use crate::told::append_bytes;
use row_tables::{Row, unescaped};
use span_cli::run;
use span_io::{Blob, Items, MemDoor, MemSink, MemSource, Text};
use std::alloc::Global;
use std::process::Abort;
use std::test::Fail;

/// More than most inputs have.
pub const WHOLE: usize = 65_536;

// What a test ends with that finds no memory.
const NO_MEMORY: &str = "no memory";

/// The call that fails, of the input, the output and the notes.
#[derive(Clone, Copy)]
pub struct Fails {
    pub input: Option<u64>,
    pub output: Option<u64>,
    pub notes: Option<u64>,
}

/// No call fails.
pub const NO_FAILS: Fails = Fails {
    input: None,
    output: None,
    notes: None,
};

/// What a run answers: its status, output and note.
#[derive(Drop)]
pub struct Answer {
    pub status: u64,
    pub output: Blob,
    pub note: Blob,
}

impl Answer {
    fn new(alloc: Global) -> Answer {
        Answer {
            status: 0,
            output: Blob::new(alloc),
            note: Blob::new(alloc),
        }
    }

    /// Holds this answer in place of the one before.
    pub fn hold(&mut self, rt: &impl Abort, status: u64, output: &[u8], note: &[u8]) {
        self.status = status;
        self.output.clear();
        self.output.append(output).expect(rt, NO_MEMORY);
        self.note.clear();
        self.note.append(note).expect(rt, NO_MEMORY);
    }
}

/// Words, an input and a door, the answer that is wanted of a run, and the one that was given.
#[derive(Drop)]
pub struct Bench {
    pub words: Vec<String>,
    pub input: Blob,
    pub door: MemDoor,
    pub wanted: Answer,
    pub given: Answer,
}

/// A list of the call that fails, if one does.
fn calls(rt: &impl Abort, alloc: Global, call: Option<u64>) -> Items<u64> {
    let mut items = Items::new(alloc);
    if let Some(call) = call {
        items.push(call).expect(rt, NO_MEMORY);
    }
    items
}

/// A source of bytes that gives at most `cut` bytes a call.
pub fn source(
    rt: &impl Abort,
    alloc: Global,
    bytes: &[u8],
    cut: usize,
    fails: Option<u64>,
) -> MemSource
    ensures { result.faults ≡ 0 }
{
    let bytes = Vec::from_slice(alloc, bytes).expect(rt, NO_MEMORY);
    MemSource::new(Blob::from_vec(bytes), cut, calls(rt, alloc, fails))
}

pub fn sink(rt: &impl Abort, alloc: Global, room: usize, fails: Option<u64>) -> MemSink
    ensures { result.faults ≡ 0 }
{
    let Ok(sink) = MemSink::new(alloc, room, calls(rt, alloc, fails)) else {
        panic!(rt; "no memory");
    };
    sink
}

/// A sink that takes 3 bytes a call.
pub fn slow_sink(rt: &impl Abort, alloc: Global, room: usize, fails: Option<u64>) -> MemSink
    ensures { result.faults ≡ 0 }
{
    let Ok(sink) = MemSink::slow(alloc, room, 3, calls(rt, alloc, fails)) else {
        panic!(rt; "no memory");
    };
    sink
}

// A door at which no connection waits.
fn empty_door(rt: &impl Abort, alloc: Global) -> MemDoor {
    MemDoor::new(
        alloc,
        Text::new(alloc),
        Items::new(alloc),
        Items::new(alloc),
    )
    .expect(rt, NO_MEMORY)
}

impl Bench {
    pub fn new(rt: &impl Abort, alloc: Global) -> Bench {
        Bench {
            words: Vec::new(alloc),
            input: Blob::new(alloc),
            door: empty_door(rt, alloc),
            wanted: Answer::new(alloc),
            given: Answer::new(alloc),
        }
    }

    fn add(&mut self, rt: &impl Abort, word: String) {
        self.words.push(word).expect(rt, NO_MEMORY);
    }

    // Adds the words of a text, which blanks part.
    fn say(&mut self, rt: &impl Abort, alloc: Global, text: &str) {
        for word in text.split_ascii_whitespace() {
            self.add(rt, String::from_str(alloc, word).expect(rt, NO_MEMORY));
        }
    }

    // Adds one word, which is told with escapes.
    fn say_escaped(&mut self, rt: &impl Abort, alloc: Global, text: &str) -> Result<(), Fail> {
        let word = unescaped(alloc, text)?;
        self.add(rt, String::from_utf8(word).expect(rt, "no UTF-8"));
        Ok(())
    }

    /// The words of a text, which blanks part.
    pub fn command(&mut self, rt: &impl Abort, alloc: Global, text: &str) {
        self.words.clear();
        self.say(rt, alloc, text);
    }

    /// An input of these bytes, twice.
    pub fn hold_twice(&mut self, rt: &impl Abort, bytes: &[u8]) {
        self.input.clear();
        self.input.append(bytes).expect(rt, NO_MEMORY);
        self.input.append(bytes).expect(rt, NO_MEMORY);
    }

    /// The words of a report on a form.
    pub fn report(&mut self, rt: &impl Abort, alloc: Global, mode: &str, form: &str) {
        self.words.clear();
        self.say(rt, alloc, mode);
        self.say(rt, alloc, "--from");
        self.say(rt, alloc, form);
    }

    /// The words of a conversion.
    pub fn convert(&mut self, rt: &impl Abort, alloc: Global, from: &str, to: &str) {
        self.report(rt, alloc, "convert", from);
        self.say(rt, alloc, "--to");
        self.say(rt, alloc, to);
    }

    /// The words of a row. A word that is empty or has blanks is told by itself.
    pub fn read_words(&mut self, rt: &impl Abort, alloc: Global, row: &Row) -> Result<(), Fail> {
        self.words.clear();
        self.say(rt, alloc, row.text("run")?);
        match row.text_if_any("last-word")? {
            Some(text) => self.say_escaped(rt, alloc, text),
            None => Ok(()),
        }
    }

    /// The input that a row tells by a key.
    pub fn read_input(&mut self, alloc: Global, row: &Row, key: &str) -> Result<(), Fail> {
        self.input.clear();
        append_bytes(alloc, row, key, &mut self.input)
    }

    /// The output that a row tells by a key.
    pub fn read_output(&mut self, alloc: Global, row: &Row, key: &str) -> Result<(), Fail> {
        self.wanted.output.clear();
        append_bytes(alloc, row, key, &mut self.wanted.output)
    }

    /// The status and the note of a row. Where it tells none, the status is 0 and the note empty.
    pub fn read_ending(&mut self, alloc: Global, row: &Row) -> Result<(), Fail> {
        self.wanted.note.clear();
        append_bytes(alloc, row, "note", &mut self.wanted.note)?;
        self.wanted.status = status_told(row, &mut self.wanted.note)?;
        Ok(())
    }

    /// Runs the words on the input, which comes in pieces of at most `cut` bytes.
    pub fn run(&mut self, rt: &impl Abort, alloc: Global, cut: usize, fails: Fails) {
        let mut input = source(rt, alloc, self.input.as_slice(), cut, fails.input);
        let mut output = sink(rt, alloc, 200_000, fails.output);
        let mut notes = sink(rt, alloc, 4096, fails.notes);
        let status = run(
            alloc,
            self.words.as_slice(),
            &mut input,
            &mut output,
            &mut notes,
            &mut self.door,
        );
        self.given
            .hold(rt, u64::from(status), output.bytes(), notes.bytes());
    }

    /// Looks at the status and the note that were given.
    pub fn expect_ending(&self, rt: &impl Abort, name: &str) {
        let note = self.given.note.as_slice();
        self.expect_status(rt, name, self.wanted.status);
        self.expect_bytes(rt, name, note, self.wanted.note.as_slice());
    }

    /// Looks at all that was given.
    pub fn expect_answer(&self, rt: &impl Abort, name: &str) {
        let output = self.given.output.as_slice();
        self.expect_ending(rt, name);
        self.expect_bytes(rt, name, output, self.wanted.output.as_slice());
    }

    pub fn expect_status(&self, rt: &impl Abort, name: &str, status: u64) {
        let words = &self.words;
        assert_eq!(rt; self.given.status, status, "status of {name}: {words:?}");
    }

    fn expect_bytes(&self, rt: &impl Abort, name: &str, given: &[u8], wanted: &[u8]) {
        let words = &self.words;
        assert_eq!(rt; given, wanted, "bytes of {name}: {words:?}");
    }

    /// Runs the words on pieces of each size, and looks at each answer.
    pub fn expect_cuts(
        &mut self,
        rt: &impl Abort,
        alloc: Global,
        name: &str,
        cuts: &[usize],
        fails: Fails,
    ) {
        for cut in cuts {
            self.run(rt, alloc, *cut, fails);
            self.expect_answer(rt, name);
        }
    }
}

// Where `stops` stands, it tells the status and, behind it, the last line that is noted.
fn append_stop(row: &Row, stop: &str, note: &mut Blob) -> Result<u64, Fail> {
    let Some((status, line)) = stop.split_once(' ') else {
        return Err(row.fail("no line", stop));
    };
    note.append(line.as_bytes())?;
    note.append(b"\n")?;
    row.number_in(status)
}

// The status of a row, which is 0 where it tells none.
fn status_told(row: &Row, note: &mut Blob) -> Result<u64, Fail> {
    let status = row.number_if_any("status")?;
    match row.text_if_any("stops")? {
        None => Ok(status.unwrap_or(0)),
        Some(stop) if status.is_none() => append_stop(row, stop, note),
        Some(stop) => Err(row.fail("two statuses", stop)),
    }
}
