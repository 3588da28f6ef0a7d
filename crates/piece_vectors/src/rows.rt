//! Inputs by their frames, and what is written of each as its bytes come.
ghost use Rattle.std.specs.Prelude.{IfOk};
ghost use Rattle.span_io.specs.Limits.{AreLimits};

pub mod batches;
pub mod documents;
pub mod limits;
pub mod requests;
pub mod stops;

use crate::texts::{append_told, form_of, parted};
use row_tables::Row;
use span_convert::Stop;
use span_io::{Blob, Cause, Form, Items, Limits};
use std::alloc::Global;
use std::test::Fail;

/// All tables of inputs that are converted.
pub const TABLES: [&str; 9] = [
    requests::REQUESTS,
    batches::BATCHES,
    batches::SDK,
    documents::DOCUMENTS,
    stops::REQUESTS,
    stops::BATCHES,
    limits::REQUESTS,
    limits::BATCHES,
    limits::INPUTS,
];

/// Why a conversion stops: what is answered, the unit, and the number of its cause or fault.
#[derive(Clone, Copy, PartialEq, Eq)]
pub struct Found {
    pub stop: Stop,
    pub unit: u64,
    pub number: u8,
}

/// How an input ends.
#[derive(Clone, Copy)]
pub enum End {
    /// `finish` closes the text, and tells how many units and spans there were.
    Whole(u64, u64),
    /// The feed stops that brings this byte, which are counted from 1.
    AtByte(usize, Found),
    /// `finish` stops.
    AtEnd(Found),
}

/// Where a frame of an input ends, and how many bytes of the output stand once its last byte has come.
#[derive(Clone, Copy)]
struct Frame {
    end: usize,
    written: usize,
}

/// A row, read: an input by its frames, what is written of it, how it ends, and the limits that it is converted under.
#[derive(Drop)]
pub struct Worked {
    /// What the row shows.
    pub name: &'static str,
    pub from: Form,
    pub to: Form,
    pub input: Blob,
    frames: Items<Frame>,
    /// All that is written in the end.
    pub output: Blob,
    pub end: End,
    pub limits: Limits,
    ghost valid: { AreLimits limits },
}

const KEYS: [&str; 11] = [
    "forms", "frame", "output", "whole", "stop", "unit", "binary", "json", "cuts", "status", "note",
];

const CAUSES: [Cause; 17] = [
    Cause::Truncated,
    Cause::BadVarint,
    Cause::BadWire,
    Cause::BadSize,
    Cause::TooDeep,
    Cause::UnitTooLong,
    Cause::FieldTwice,
    Cause::Missing,
    Cause::NotText,
    Cause::BadJson,
    Cause::BadShape,
    Cause::BadId,
    Cause::BadEnum,
    Cause::BadElement,
    Cause::DoubleInJson,
    Cause::BadTime,
    Cause::InputTooLong,
];

fn cause_number(row: &Row, name: &str) -> Result<u8, Fail> {
    for cause in &CAUSES {
        if cause.name() == name {
            return Ok(cause.number());
        }
    }
    Err(row.fail("no cause", name))
}

fn small_number(row: &Row, text: &str) -> Result<u8, Fail> {
    match text.parse::<u8>() {
        Ok(number) => Ok(number),
        Err(_) => Err(row.fail("no small number", text)),
    }
}

// A refusal or a fault, its unit, and the name of its cause or the number of the fault.
fn found_of(row: &Row, text: &str) -> Result<Found, Fail> {
    let (kind, rest) = parted(row, text)?;
    let (unit, what) = parted(row, rest)?;
    let unit = row.number_in(unit)?;
    match kind {
        "refused" => Ok(Found {
            stop: Stop::Refused,
            unit,
            number: cause_number(row, what)?,
        }),
        "fault" => Ok(Found {
            stop: Stop::Faulted,
            unit,
            number: small_number(row, what)?,
        }),
        _ => Err(row.fail("no stop", text)),
    }
}

// The numbers of units and of spans, or where the conversion stops and why.
fn end_of(row: &Row) -> Result<End, Fail> {
    match (row.text_if_any("whole")?, row.text_if_any("stop")?) {
        (Some(text), None) => {
            let (units, spans) = parted(row, text)?;
            Ok(End::Whole(row.number_in(units)?, row.number_in(spans)?))
        }
        (None, Some(text)) => {
            let (place, rest) = parted(row, text)?;
            let found = found_of(row, rest)?;
            match place {
                "end" => Ok(End::AtEnd(found)),
                _ => Ok(End::AtByte(row.count_in(place)?, found)),
            }
        }
        _ => Err(row.fail("no end, or two", "whole, stop")),
    }
}

// A limit of the row, if it has one of this key.
fn lowered(row: &Row, key: &str) -> Result<Option<u8>, Fail> {
    match row.text_if_any(key)? {
        Some(text) => Ok(Some(small_number(row, text)?.max(1))),
        None => Ok(None),
    }
}

// The shipped limits, but for that which the row lowers.
fn limits_of(row: &Row) -> Result<Limits, Fail>
    ensures { IfOk result (λ limits. AreLimits limits) }
{
    let mut limits = Limits::shipped();
    if let Some(most) = lowered(row, "unit")? {
        limits.unit = usize::from(most.max(1));
    }
    if let Some(most) = lowered(row, "binary")? {
        limits.binary = u64::from(most.max(1));
    }
    if let Some(most) = lowered(row, "json")? {
        limits.json = usize::from(most.max(1));
    }
    Ok(limits)
}

// The form of an input and that of its output.
fn forms_of(row: &Row) -> Result<(Form, Form), Fail> {
    let (from, to) = parted(row, row.text("forms")?)?;
    Ok((form_of(row, from)?, form_of(row, to)?))
}

impl Worked {
    pub fn read(alloc: Global, row: &Row) -> Result<Worked, Fail> {
        row.expect_keys(&KEYS)?;
        let (from, to) = forms_of(row)?;
        let end = end_of(row)?;
        let limits = limits_of(row)?;
        let mut worked = Worked {
            name: row.name(),
            from,
            to,
            input: Blob::new(alloc),
            frames: Items::new(alloc),
            output: Blob::new(alloc),
            end,
            limits,
        };
        worked.take_fields(alloc, row)?;
        Ok(worked)
    }

    fn take_fields(&mut self, alloc: Global, row: &Row) -> Result<(), Fail> {
        for field in row.fields() {
            match field.key() {
                "frame" => self.take_frame(alloc, row, field.text())?,
                "output" => append_told(alloc, row, &mut self.output, self.to, field.text())?,
                _ => {}
            }
        }
        Ok(())
    }

    // Takes a frame: how much is written behind it, and its bytes.
    fn take_frame(&mut self, alloc: Global, row: &Row, text: &str) -> Result<(), Fail> {
        let (written, told) = parted(row, text)?;
        let written = row.count_in(written)?;
        append_told(alloc, row, &mut self.input, self.from, told)?;
        let end = self.input.len();
        Ok(self.frames.push(Frame { end, written })?)
    }

    /// How many units and spans `finish` tells, or none where the conversion stops.
    pub fn tally(&self) -> (u64, u64) {
        match self.end {
            End::Whole(units, spans) => (units, spans),
            End::AtByte(..) | End::AtEnd(_) => (0, 0),
        }
    }

    /// Why the conversion stops, if it does.
    pub fn stop(&self) -> Option<Found> {
        match self.end {
            End::Whole(..) => None,
            End::AtByte(_, found) | End::AtEnd(found) => Some(found),
        }
    }

    /// How many bytes of the output stand behind so many bytes of the input.
    pub fn written(&self, fed: usize) -> usize {
        let mut written = 0;
        for frame in self.frames.as_slice() {
            if frame.end <= fed {
                written = frame.written;
            }
        }
        written
    }

    /// Why the conversion stops within so many bytes of the input, if it does.
    pub fn found(&self, fed: usize) -> Option<Found> {
        match self.end {
            End::AtByte(at, found) if at <= fed => Some(found),
            _ => None,
        }
    }
}
