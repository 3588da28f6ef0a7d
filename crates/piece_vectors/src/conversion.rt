//! A conversion under way, which is held against its row behind each call.
use crate::check::{NO_MEMORY, check, fed, finished};
use crate::rows::{Found, Worked};
use span_convert::{Converter, Stop, Tally, Why, Written};
use span_io::{Items, MemSink};
use std::alloc::Global;
use std::process::Abort;

// More than any output of a row has.
const ROOM: usize = 4_096;

/// A conversion of a row, of which so many bytes were fed.
#[derive(Drop)]
pub struct Conversion<'a> {
    worked: &'a Worked,
    converter: Converter,
    out: MemSink,
    fed: usize,
}

// How many units and spans there were, or none where the conversion stopped.
fn numbers_of(answer: Result<Tally, Stop>) -> (u64, u64) {
    match answer {
        Ok(tally) => (tally.units, tally.spans),
        Err(_) => (0, 0),
    }
}

fn stop_of(found: Option<Found>) -> Option<Stop> {
    match found {
        Some(found) => Some(found.stop),
        None => None,
    }
}

// Why the converter stopped, if it did.
fn found_by(converter: &Converter) -> Option<Found> {
    match converter.why() {
        Why::Refusal(refusal) => Some(Found {
            stop: Stop::Refused,
            unit: refusal.unit,
            number: refusal.cause.number(),
        }),
        Why::Fault(found) => Some(Found {
            stop: Stop::Faulted,
            unit: found.unit,
            number: found.fault.number(),
        }),
        Why::Nothing => None,
    }
}

impl<'a> Conversion<'a> {
    pub fn new(rt: &impl Abort, alloc: Global, worked: &'a Worked) -> Conversion<'a> {
        let what = Written::Form(worked.to);
        Conversion {
            worked,
            converter: Converter::new(alloc, worked.from, what, &worked.limits),
            out: MemSink::new(alloc, ROOM, Items::new(alloc)).expect(rt, NO_MEMORY),
            fed: 0,
        }
    }

    /// Feeds a piece. All that was written since the beginning is the text of the whole units that were fed.
    pub fn feed(&mut self, rt: &impl Abort, piece: &[u8]) {
        let worked = self.worked;
        self.fed = self.fed.saturating_add(piece.len());
        let stop = self.fed_stop(rt, piece);
        self.expect(rt, stop, worked.found(self.fed), worked.written(self.fed));
    }

    /// Ends the input.
    pub fn finish(&mut self, rt: &impl Abort) {
        let worked = self.worked;
        let answer = finished(rt, worked.name, &mut self.converter, &mut self.out);
        let holds = numbers_of(answer) == worked.tally();
        check(rt, holds, "end", worked.name, self.fed);
        let found = worked.stop();
        let ended = self.converter.ended();
        check(
            rt,
            ended == found.is_none(),
            "ending",
            worked.name,
            self.fed,
        );
        self.expect(rt, answer.err(), found, worked.output.len());
        if found.is_some() {
            self.expect_stopped(rt, found);
        }
    }

    // The stop that is answered to a piece.
    fn fed_stop(&mut self, rt: &impl Abort, piece: &[u8]) -> Option<Stop> {
        let name = self.worked.name;
        fed(rt, name, &mut self.converter, piece, &mut self.out)
    }

    // Behind a stop each call answers the same, and writes nothing.
    fn expect_stopped(&mut self, rt: &impl Abort, found: Option<Found>) {
        let whole = self.worked.output.len();
        for piece in &[b"".as_slice(), b"\x0a\0".as_slice()] {
            let stop = self.fed_stop(rt, piece);
            self.expect(rt, stop, found, whole);
        }
        let name = self.worked.name;
        let answer = finished(rt, name, &mut self.converter, &mut self.out);
        self.expect(rt, answer.err(), found, whole);
    }

    // Looks at what was answered, at what is told of it, and at all that was written.
    fn expect(&self, rt: &impl Abort, stop: Option<Stop>, found: Option<Found>, written: usize) {
        let worked = self.worked;
        let answers = stop == stop_of(found);
        check(rt, answers, "answer", worked.name, self.fed);
        let tells = found_by(&self.converter) == found;
        check(rt, tells, "stop", worked.name, self.fed);
        let writes = Some(self.out.bytes()) == worked.output.as_slice().get(..written);
        check(rt, writes, "text", worked.name, self.fed);
    }
}
