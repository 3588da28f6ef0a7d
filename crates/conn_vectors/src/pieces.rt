//! The first request of bytes that come in pieces, and of bytes that stand behind a request.
ghost use Rattle.std.specs.Prelude.{◌<◌};

use crate::requests::Told;
use crate::texts::{after_word, append_often, joined};
use http_conn::laws::known_stays;
use http_conn::{Known, Next, next_request, next_request_from};
use row_tables::texts::POSTED;
use row_tables::{Field, Row, rows};
use span_io::{Blob, Form, Limits, OutOfMemory};
use std::alloc::Global;
use std::test::Fail;

// Streams, and behind what is told how many of their bytes have come by an answer other than the want of more. Of a whole
// request the place of the body and whether the connection ends are told, too.
const STREAMS: &str = r"
a post of no spans
stream @POSTED
form zipkin-json 93 91 open

a post without its last byte
stream @CUT_POST
need 92

two posts
stream @POSTED @POSTED
form zipkin-json 93 91 open

a post that asks first
stream @ASKED
form zipkin-json 115 113 open

an empty line, HTTP/1.0 and a body without a length
stream \r\nGET / HTTP/1.0\r\n\r\n[]
verdict 404 20 20 close

an LF alone
stream GET / HTTP/1.1\nHost: x\r\n\r\n[]
refused 400 26

two empty lines
stream \r\n\r\nGET /
refused 400 4

three empty lines, the second by an LF alone
stream \r\n\n\r\n\r\nGET /
refused 400 7

a long body
stream POST / HTTP/1.1\r\nContent-Length: 67108865\r\n\r\n[]
refused 413 45

no length
stream POST / HTTP/1.1\r\nHost: x\r\n\r\n[]
refused 411 28

nothing
need 0

a body of a method that isn't taken
stream GET /v1/traces HTTP/1.1\r\nContent-Length: 2\r\n\r\n[]GET
verdict 405 48 46 open

the same without its last byte
stream GET /v1/traces HTTP/1.1\r\nContent-Length: 2\r\n\r\n[
need 47

a long body of a method that isn't taken
stream GET /v1/traces HTTP/1.1\r\nContent-Length: 67108865\r\n\r\n
refused 413 53
";

// How many bytes came by an answer other than the want of more, where they come in pieces of this size, and the
// answer.
fn in_pieces(alloc: Global, bytes: &[u8], size: usize) -> Result<(usize, Next), OutOfMemory>
    requires { 0 < size }
{
    known_stays();
    let limits = Limits::shipped();
    let mut known = Known::Searched(0);
    let mut came = Blob::new(alloc);
    'pieces: for piece in bytes.chunks(size) {
        came.append(piece)?;
        match next_request_from(&mut known, came.as_slice(), &limits) {
            Next::Need => {}
            next => return Ok((came.len(), next)),
        }
    }
    Ok((came.len(), Next::Need))
}

// Whether what is told stands in one line behind the streams.
fn ends_streams(row: &Row) -> bool {
    let mut streams = 0_usize;
    for field in row.fields() {
        if field.key() == "stream" {
            streams = streams.saturating_add(1);
        }
    }
    row.fields().len() == streams.saturating_add(1)
}

// How many bytes have come, and the answer.
fn told_of(row: &Row, field: &Field) -> Result<(usize, Next), Fail> {
    let (told, text) = Told::of(row, field.key(), field.text())?;
    let (came, rest) = after_word(text);
    let came = row.count_in(came)?;
    if matches!(told, Told::Need | Told::Refused(_)) {
        return Ok((came, told.next(0, 0, false)));
    }
    let (place, close) = after_word(rest);
    let place = row.count_in(place)?;
    match close {
        "open" => Ok((came, told.next(place, came, false))),
        "close" => Ok((came, told.next(place, came, true))),
        _ => Err(row.fail("no end", close)),
    }
}

// Whether a stream is answered so, whole and byte by byte.
fn is_answered(alloc: Global, stream: &[u8], came: usize, next: Next) -> Result<bool, OutOfMemory> {
    Ok(
        next_request(stream, &Limits::shipped()) == next
            && in_pieces(alloc, stream, 1)? == (came, next),
    )
}

fn expect_stream(alloc: Global, row: &Row) -> Result<(), Fail> {
    let Some(field) = row.fields().last() else {
        return Err(row.fail("no line", "behind the name"));
    };
    if !ends_streams(row) {
        return Err(row.fail("one line is told", "behind the streams"));
    }
    let (came, next) = told_of(row, field)?;
    let stream = joined(alloc, row, "stream")?;
    if is_answered(alloc, stream.as_slice(), came, next)? {
        return Ok(());
    }
    Err(row.fail("not so", field.text()))
}

#[test]
fn reads_bytes_one_by_one(rt: HostRuntime) -> Result<(), Fail> {
    for row in &rows(rt.alloc(), STREAMS)? {
        expect_stream(rt.alloc(), row)?;
    }
    Ok(())
}

fn long_line(alloc: Global) -> Result<Blob, OutOfMemory> {
    let mut line = Blob::new(alloc);
    line.append(b"GET /")?;
    append_often(&mut line, b"a", 20_000)?;
    Ok(line)
}

#[test]
fn refuses_a_long_line_in_pieces(rt: HostRuntime) -> Result<(), Fail> {
    let line = long_line(rt.alloc())?;
    let refused = (16_384, Next::Refuse(431));
    assert!(rt; in_pieces(rt.alloc(), line.as_slice(), 1)? == refused);
    Ok(())
}

// Among them are pieces that end between any two bytes of the end of the head.
#[test]
fn reads_bytes_in_pieces(rt: HostRuntime) -> Result<(), Fail> {
    let next = Told::Body(Form::ZipkinJson).next(91, 93, false);
    for size in 1..94 {
        let told = in_pieces(rt.alloc(), POSTED.as_bytes(), size)?;
        assert!(rt; told == (93, next), "pieces of {size}");
    }
    Ok(())
}
