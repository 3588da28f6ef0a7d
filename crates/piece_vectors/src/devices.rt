//! A row of the tables as one whole run: the fronts of its input, and what is written of them, over devices that may fail at
//! a call.
use crate::rows::Worked;
use crate::texts::parted;
use row_tables::Row;
use span_cli::run;
use span_io::{Blob, Items, MemDoor, MemSink, MemSource, OutOfMemory, Text};
use std::alloc::Global;
use std::process::Abort;
use std::test::Fail;

/// What a run is to end with: its status, how many bytes of the text are written, and its note.
#[derive(Clone, Copy)]
pub struct Wanted {
    pub status: u8,
    pub written: usize,
    pub note: &'static str,
}

/// A row that is run by its words, at a door to which nobody comes.
#[derive(Drop)]
pub struct Case {
    pub worked: Worked,
    words: Vec<String>,
    door: MemDoor,
}

/// A list of the one call that fails, counted from 1. Call 0 never comes.
fn failing(alloc: Global, call: u64) -> Result<Items<u64>, OutOfMemory> {
    let mut calls = Items::new(alloc);
    calls.push(call)?;
    Ok(calls)
}

/// A source of these bytes that gives at most `cut` bytes a call, and fails at one call.
pub fn source(
    alloc: Global,
    bytes: &[u8],
    cut: usize,
    call: u64,
) -> Result<MemSource, OutOfMemory> {
    let mut input = Blob::new(alloc);
    input.append(bytes)?;
    Ok(MemSource::new(input, cut, failing(alloc, call)?))
}

/// A sink with so much room that takes at most `cut` bytes a call, and fails at one call.
pub fn sink(alloc: Global, room: usize, cut: usize, call: u64) -> Result<MemSink, OutOfMemory> {
    MemSink::slow(alloc, room, cut, failing(alloc, call)?)
}

// The words that convert between the forms of a row.
fn words_of(alloc: Global, row: &Row) -> Result<Vec<String>, Fail> {
    let (from, to) = parted(row, row.text("forms")?)?;
    let mut words = Vec::new(alloc);
    for word in &["convert", "--from", from, "--to", to] {
        words.push(String::from_str(alloc, word)?)?;
    }
    Ok(words)
}

impl Case {
    pub fn read(alloc: Global, row: &Row) -> Result<Case, Fail> {
        let address = Text::new(alloc);
        let door = MemDoor::new(alloc, address, Items::new(alloc), Items::new(alloc))?;
        Ok(Case {
            worked: Worked::read(alloc, row)?,
            words: words_of(alloc, row)?,
            door,
        })
    }

    /// A source of the first bytes of the input.
    pub fn front(&self, alloc: Global, size: usize) -> Result<MemSource, OutOfMemory> {
        match self.worked.input.as_slice().get(..size) {
            Some(front) => source(alloc, front, 65_536, 0),
            None => source(alloc, b"", 65_536, 0),
        }
    }

    /// Runs the words over these devices, and looks at the answer.
    pub fn expect(
        &mut self,
        rt: &impl Abort,
        alloc: Global,
        mut input: MemSource,
        mut output: MemSink,
        mut notes: MemSink,
        wanted: Wanted,
    ) {
        let status = run(
            alloc,
            self.words.as_slice(),
            &mut input,
            &mut output,
            &mut notes,
            &mut self.door,
        );
        let name = self.worked.name;
        assert!(rt; status == wanted.status, "status of {name}");
        let text = self.worked.output.as_slice().get(..wanted.written);
        assert!(rt; Some(output.bytes()) == text, "text of {name}");
        assert!(rt; notes.bytes() == wanted.note.as_bytes(), "note of {name}");
    }
}
