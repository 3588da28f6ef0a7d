//! Sinks that fail while pieces come: what a converter answers, and what was written.
use crate::check::{NO_MEMORY, check, fed, finished};
use crate::texts::{append_told, form_of, parted};
use row_tables::{Row, rows};
use span_convert::{Converter, Stop, Tally, Why, Written};
use span_io::{Blob, Form, Items, Limits, MemSink};
use std::alloc::Global;
use std::process::Abort;
use std::test::Fail;

// Pieces of a request for a sink with so much room, which fails at these calls, too: beside each how many bytes were written
// so far, and the stop that is answered, if one is. Then what `finish` answers, all that would be written, and how much of it
// was.
const ROWS: &str = r"
the first call fails
to otlp-proto
room 100
fails 1
feed 0 write @ONE_SPAN
feed 0 write @ONE_SPAN
end write
text @ONE_SPAN
written 0

the call of the second feed fails
to otlp-proto
room 100
fails 2
feed 37 goes @ONE_SPAN
feed 37 write @ONE_SPAN
feed 37 write 0a00
feed 37 write
end write
text @ONE_SPAN
written 37

no room for the second unit
to otlp-proto
room 40
feed 37 goes @ONE_SPAN
feed 37 write @ONE_SPAN
feed 37 write 0a00
end write
text @ONE_SPAN
written 37

no call before a unit is whole
to otlp-proto
room 100
fails 1
feed 0 goes 0a231221121f0a10
feed 0 goes 000000000000000000000000000000011208
feed 0 write 00000000000000022a0161
end write
text @ONE_SPAN
written 0

no call for a piece of no bytes, nor for what is no unit
to otlp-proto
room 100
fails 1
feed 0 goes
feed 0 goes 12000801
whole 0 0
written 0

no call at the end where nothing closes the text
to otlp-proto
room 100
fails 2
feed 37 goes @ONE_SPAN
whole 1 1
text @ONE_SPAN
written 37

the call at the end fails
to zipkin-json
room 400
fails 2
feed 345 goes @SDK_REQUEST
end write
text @SDK_SPANS
written 345

no room for the bracket at the end
to zipkin-json
room 345
feed 345 goes @SDK_REQUEST
end write
text @SDK_SPANS
written 345

the text before a unit that is refused isn't taken
to otlp-proto
room 100
fails 1
feed 0 write @ONE_SPAN 0b
feed 0 write 0a00
end write
text @ONE_SPAN
written 0

no call where a unit is refused whose units before are written
to otlp-proto
room 100
fails 2
feed 37 goes @ONE_SPAN
feed 37 refused 0b
feed 37 refused 0a00
end refused
text @ONE_SPAN
written 37
";

const KEYS: [&str; 8] = [
    "to", "room", "fails", "feed", "whole", "end", "text", "written",
];

fn stop_of(row: &Row, word: &str) -> Result<Option<Stop>, Fail> {
    match word {
        "goes" => Ok(None),
        "write" => Ok(Some(Stop::Write)),
        "refused" => Ok(Some(Stop::Refused)),
        _ => Err(row.fail("no stop", word)),
    }
}

// What `finish` tells where it ends the text.
fn tally_of(row: &Row) -> Result<Option<(u64, u64)>, Fail> {
    match row.text_if_any("whole")? {
        None => Ok(None),
        Some(text) => {
            let (units, spans) = parted(row, text)?;
            Ok(Some((row.number_in(units)?, row.number_in(spans)?)))
        }
    }
}

// The stop that `finish` answers, if it doesn't end the text.
fn end_of(row: &Row, tally: Option<(u64, u64)>) -> Result<Option<Stop>, Fail> {
    match (tally, row.text_if_any("end")?) {
        (Some(_), None) => Ok(None),
        (None, Some(word)) => match stop_of(row, word)? {
            None => Err(row.fail("no end", word)),
            stop => Ok(stop),
        },
        _ => Err(row.fail("no end, or two", "whole, end")),
    }
}

fn tally_in(answer: Result<Tally, Stop>) -> Option<(u64, u64)> {
    match answer {
        Ok(tally) => Some((tally.units, tally.spans)),
        Err(_) => None,
    }
}

/// A conversion into a sink that fails, what is fed, and all that would be written.
#[derive(Drop)]
struct Trial {
    converter: Converter,
    out: MemSink,
    piece: Blob,
    text: Blob,
}

// The calls that fail.
fn append_calls(row: &Row, calls: &mut Items<u64>) -> Result<(), Fail> {
    for field in row.fields() {
        if field.key() == "fails" {
            calls.push(row.number_in(field.text())?)?;
        }
    }
    Ok(())
}

fn sink_of(rt: &impl Abort, alloc: Global, row: &Row) -> Result<MemSink, Fail> {
    let room = row.count("room")?;
    let mut calls = Items::new(alloc);
    append_calls(row, &mut calls)?;
    Ok(MemSink::new(alloc, room, calls).expect(rt, NO_MEMORY))
}

impl Trial {
    fn new(rt: &impl Abort, alloc: Global, row: &Row) -> Result<Trial, Fail> {
        let to = form_of(row, row.text("to")?)?;
        let told = row.text_if_any("text")?;
        let mut trial = Trial {
            out: sink_of(rt, alloc, row)?,
            converter: Converter::new(
                alloc,
                Form::OtlpProto,
                Written::Form(to),
                &Limits::shipped(),
            ),
            piece: Blob::new(alloc),
            text: Blob::new(alloc),
        };
        append_told(alloc, row, &mut trial.text, to, told.unwrap_or(""))?;
        Ok(trial)
    }

    // Feeds a piece, and looks at the answer.
    fn feed(&mut self, rt: &impl Abort, alloc: Global, row: &Row, told: &str) -> Result<(), Fail> {
        let (written, rest) = parted(row, told)?;
        let (word, bytes) = rest.split_once(' ').unwrap_or((rest, ""));
        let wanted = stop_of(row, word)?;
        let written = row.count_in(written)?;
        self.piece.clear();
        append_told(alloc, row, &mut self.piece, Form::OtlpProto, bytes)?;
        let name = row.name();
        let piece = self.piece.as_slice();
        let stop = fed(rt, name, &mut self.converter, piece, &mut self.out);
        self.expect(rt, name, (stop, wanted), written);
        Ok(())
    }

    fn finish(&mut self, rt: &impl Abort, row: &Row) -> Result<(), Fail> {
        let tally = tally_of(row)?;
        let wanted = end_of(row, tally)?;
        let written = row.count("written")?;
        let name = row.name();
        let answer = finished(rt, name, &mut self.converter, &mut self.out);
        check(rt, tally_in(answer) == tally, "tally", name, written);
        self.expect(rt, name, (answer.err(), wanted), written);
        Ok(())
    }

    // What was answered and written, and what is told of a stop: a refusal has its reason, and a failed write none.
    fn expect(
        &self,
        rt: &impl Abort,
        name: &str,
        stops: (Option<Stop>, Option<Stop>),
        written: usize,
    ) {
        let (stop, wanted) = stops;
        check(rt, stop == wanted, "answer", name, written);
        let text = self.text.as_slice().get(..written);
        check(rt, Some(self.out.bytes()) == text, "text", name, written);
        let refused = matches!(self.converter.why(), Why::Refusal(_));
        let told = stop == Some(Stop::Refused);
        check(rt, refused == told, "reason", name, written);
    }
}

// Feeds the pieces of a row, and looks at each answer.
fn feed_row(rt: &impl Abort, alloc: Global, row: &Row, trial: &mut Trial) -> Result<(), Fail> {
    row.expect_keys(&KEYS)?;
    for field in row.fields() {
        if field.key() == "feed" {
            trial.feed(rt, alloc, row, field.text())?;
        }
    }
    trial.finish(rt, row)
}

fn expect_row(rt: &impl Abort, alloc: Global, row: &Row) -> Result<(), Fail> {
    let mut trial = Trial::new(rt, alloc, row)?;
    feed_row(rt, alloc, row, &mut trial)
}

#[test]
fn fails_with_its_sink(rt: HostRuntime) -> Result<(), Fail> {
    for row in &rows(rt.alloc(), ROWS)? {
        expect_row(&rt, rt.alloc(), row)?;
    }
    Ok(())
}
