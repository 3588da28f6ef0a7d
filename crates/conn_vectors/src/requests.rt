//! The first request of the bytes of a connection (RFC 9110 and RFC 9112): rows that a step refuses beside
//! neighbours that it lets pass.
use crate::texts::{after_word, append_often, append_unescaped, form_of};
use http_conn::{Next, Request, Service, next_request};
use row_tables::{Field, Row, rows, unescaped};
use span_io::{Blob, Form, Limits};
use std::alloc::Global;
use std::test::Fail;

/// What is told of a head and of the body behind it.
#[derive(Clone, Copy)]
pub(crate) enum Told {
    /// More bytes are wanted.
    Need,
    /// Refused by this status.
    Refused(u16),
    /// A whole request that is answered by this status, whatever its body holds.
    Verdict(u16),
    /// A whole request with a body of this form.
    Body(Form),
}

impl Told {
    /// What a key and the first word of its text tell, and what stands behind that.
    pub(crate) fn of<'a>(row: &Row, key: &str, text: &'a str) -> Result<(Told, &'a str), Fail> {
        if key == "need" {
            return Ok((Told::Need, text));
        }
        let (word, rest) = after_word(text);
        match key {
            "refused" => Ok((Told::Refused(status_of(row, word)?), rest)),
            "verdict" => Ok((Told::Verdict(status_of(row, word)?), rest)),
            "form" => Ok((Told::Body(form_of(row, word)?), rest)),
            _ => Err(row.fail("unknown key", key)),
        }
    }

    /// The first request, where it has so many bytes.
    pub(crate) fn next(self, body_at: usize, length: usize, close: bool) -> Next {
        let (verdict, form) = match self {
            Told::Need => return Next::Need,
            Told::Refused(status) => return Next::Refuse(status),
            Told::Verdict(status) => (status, None),
            Told::Body(form) => (0, Some(form)),
        };
        Next::Whole(Request {
            verdict,
            form,
            body_at,
            length,
            close,
        })
    }
}

fn status_of(row: &Row, word: &str) -> Result<u16, Fail> {
    match word.parse::<u16>() {
        Ok(status) => Ok(status),
        Err(_) => Err(row.fail("no status", word)),
    }
}

// Heads, each between the front and the back of its row and before the body of its row, or behind ` | ` its own: how lines
// end, and what is no head; the lengths of bodies; targets and methods; content codings; media types; and where connections
// end, with the length of the head.
const HEADS: &str = r"
what ends a head, and what stands before one
need
need \r\n
need \r\n\r
refused 400 \r\n\r\n
verdict 404 GET / HTTP/1.1\r\nHost: x\r\n\r\n
verdict 404 \r\nGET / HTTP/1.1\r\nHost: x\r\n\r\n

how lines end
verdict 404 GET / HTTP/1.1\r\n\r\n
need GET / HTTP/1.1\r\nHost: x\r\n\r
need GET / HTTP/1.1\r\nHost: x\r\n
refused 400 GET / HTTP/1.1\nHost: x\r\n\r\n
need GET / HTTP/1.1\nHost: x\r\n
refused 400 \nGET / HTTP/1.1\r\nHost: x\r\n\r\n

names of fields
refused 400 GET / HTTP/1.1\r\nHo st: x\r\n\r\n
refused 400 GET / HTTP/1.1\r\nHost : x\r\n\r\n
refused 400 GET / HTTP/1.1\r\n: x\r\n\r\n
refused 400 GET / HTTP/1.1\r\nHost\r\n\r\n
verdict 404 GET / HTTP/1.1\r\nHost:\r\n\r\n
refused 400 GET / HTTP/1.1\r\nHost: x\r\n y\r\n\r\n
refused 400 GET / HTTP/1.1\r\nHost: x\r\n a: b\r\n\r\n
verdict 404 GET / HTTP/1.1\r\nHost: x\r\na: b\r\n\r\n

request lines
refused 400 GET  / HTTP/1.1\r\nHost: x\r\n\r\n
refused 400 GET /  HTTP/1.1\r\nHost: x\r\n\r\n
refused 400 GET / HTTP/2.0\r\nHost: x\r\n\r\n
refused 400 GET / HTTP/1.2\r\nHost: x\r\n\r\n
refused 400 GET /\r\nHost: x\r\n\r\n

values
refused 400 GET / HTTP/1.1\r\nHost: x\ry\r\n\r\n
verdict 404 GET / HTTP/1.1\r\nHost: x\ty\r\n\r\n

methods and lengths
refused 411 POST /v1/traces HTTP/1.1\r\nHost: x\r\n\r\n
refused 411 POST /nowhere HTTP/1.1\r\nHost: x\r\n\r\n
verdict 405 GET /v1/traces HTTP/1.1\r\nHost: x\r\n\r\n

lengths of bodies
front POST /v1/traces HTTP/1.1\r\nHost: x\r\nContent-Type: application/json\r\n
back \r\n
refused 501 Transfer-Encoding: chunked\r\nContent-Length: x\r\n
refused 400 Content-Length: x\r\n
refused 501 Content-Length: 2\r\ntransfer-encoding: identity\r\n | []
refused 400 Content-Length: 2\r\nContent-Length: 2\r\n | []
form otlp-json Content-Length: 2\r\n | []
form otlp-json content-length:2\r\n | []
form otlp-json Content-Length: \t2 \r\n | []
form otlp-json Content-Length: 000000000000000002\r\n | []
refused 400 Content-Length: 0000000000000000002\r\n | []
refused 400 Content-Length: \r\n
refused 400 Content-Length: +5\r\n | [7,8]
refused 400 Content-Length: 5, 5\r\n | [7,8]
refused 400 Content-Length: 0x1\r\n | 7
form otlp-json Content-Length: 5\r\n | [7,8]
form otlp-json Content-Length: 0\r\n
refused 411
need Content-Length: 67108864\r\n
need Content-Length: 67108864\r\n | []
refused 413 Content-Length: 67108865\r\n
refused 413 Content-Length: 999999999999999999\r\n
need Content-Length: 2\r\n
need Content-Length: 2\r\n | [

targets and methods
back \x20HTTP/1.1\r\nHost: x\r\nContent-Type: application/json\r\nContent-Length: 0\r\n\r\n
verdict 404 POST /v1/trace
verdict 404 POST /v1/traces/
verdict 404 POST /V1/traces
verdict 404 POST http://h/v1/traces
verdict 404 POST *
verdict 404 POST ?x=1
verdict 404 POST /
form otlp-json POST /v1/traces?x=1
form otlp-json POST /v1/traces?
form otlp-json POST /v1/traces?/?
form otlp-json POST /v1/traces
verdict 415 POST /api/traces
form zipkin-json POST /api/v2/spans
verdict 405 GET /v1/traces
verdict 405 GET /api/traces
verdict 405 GET /api/v2/spans
verdict 405 PUT /v1/traces
verdict 405 PUT /api/traces
verdict 405 PUT /api/v2/spans
verdict 405 post /v1/traces
verdict 405 post /api/traces
verdict 405 post /api/v2/spans
verdict 405 HEAD /v1/traces
verdict 405 HEAD /api/traces
verdict 405 HEAD /api/v2/spans
verdict 404 GET /nowhere
verdict 405 GET /v1/traces?x=1

content codings
front POST /v1/traces HTTP/1.1\r\nHost: x\r\n
back Content-Type: application/json\r\nContent-Length: 2\r\n\r\n
body []
verdict 415 Content-Encoding: gzip\r\n
verdict 415 Content-Encoding: \r\n
verdict 415 Content-Encoding: identity\r\nContent-Encoding: gzip\r\n
verdict 415 Content-Encoding: gzip\r\ncontent-encoding: identity\r\n
verdict 415 Content-Encoding: identity, identity\r\n
form otlp-json Content-Encoding: Identity\r\n
form otlp-json Content-Encoding: identity\r\nContent-Encoding: identity\r\n
form otlp-json

media types at /v1/traces
front POST /v1/traces HTTP/1.1\r\nHost: x\r\n
back Content-Length: 2\r\n\r\n
body []
form otlp-proto Content-Type: application/x-protobuf\r\n
form otlp-json Content-Type: application/json\r\n
verdict 415 Content-Type: application/x-thrift\r\n
verdict 415 Content-Type: application/vnd.apache.thrift.binary\r\n

media types at /api/traces
front POST /api/traces HTTP/1.1\r\nHost: x\r\n
back Content-Length: 2\r\n\r\n
body []
verdict 415 Content-Type: application/x-protobuf\r\n
verdict 415 Content-Type: application/json\r\n
form jaeger-binary Content-Type: application/x-thrift\r\n
form jaeger-binary Content-Type: application/vnd.apache.thrift.binary\r\n

media types at /api/v2/spans
front POST /api/v2/spans HTTP/1.1\r\nHost: x\r\n
back Content-Length: 2\r\n\r\n
body []
verdict 415 Content-Type: application/x-protobuf\r\n
form zipkin-json Content-Type: application/json\r\n
verdict 415 Content-Type: application/x-thrift\r\n
verdict 415 Content-Type: application/vnd.apache.thrift.binary\r\n

spellings of media types
front POST /v1/traces HTTP/1.1\r\nHost: x\r\n
back Content-Length: 2\r\n\r\n
body []
form otlp-json Content-Type: Application/JSON ; charset=utf-8\r\n
form otlp-json Content-Type: application/json;\r\n
form otlp-json content-type:\tapplication/json\t\r\n
form otlp-proto Content-Type: APPLICATION/X-PROTOBUF\r\n
verdict 415 Content-Type: application/jsonx\r\n
verdict 415 Content-Type: application/jso\r\n
verdict 415 Content-Type: ;application/json\r\n
verdict 415 Content-Type: application/json, x\r\n
verdict 415 Content-Type: \r\n
verdict 415
verdict 415 Content-Type: application/json\r\nContent-Type: application/json\r\n

media types at /v1/traces?x=1
front POST /v1/traces?x=1 HTTP/1.1\r\nHost: x\r\n
back Content-Length: 2\r\n\r\n
body []
form otlp-json Content-Type: application/json\r\n

the end of connections in HTTP/1.0
front GET /v1/traces HTTP/1.0\r\nHost: x\r\n
back \r\n
close 36
close 60 Connection: keep-alive\r\n

the end of connections in HTTP/1.1
front GET /v1/traces HTTP/1.1\r\nHost: x\r\n
back \r\n
open 36
open 60 Connection: keep-alive\r\n
close 55 Connection: CLOSE\r\n
close 79 connection: close\r\nConnection: keep-alive\r\n
close 78 Connection: keep-alive\r\nCONNECTION:close\r\n
open 58 Connection: close, x\r\n
open 56 Connection: closed\r\n
open 55 Close: Connection\r\n
";

// What a head is put together of.
#[derive(Clone, Copy)]
struct Around<'a> {
    front: &'a str,
    back: &'a str,
    body: &'a str,
}

fn text_or_none<'a>(row: &'a Row, key: &str) -> Result<&'a str, Fail> {
    Ok(row.text_if_any(key)?.unwrap_or(""))
}

impl<'a> Around<'a> {
    fn of(row: &'a Row) -> Result<Around<'a>, Fail> {
        Ok(Around {
            front: text_or_none(row, "front")?,
            back: text_or_none(row, "back")?,
            body: text_or_none(row, "body")?,
        })
    }

    // Appends the head around some lines.
    fn append(&self, alloc: Global, head: &mut Blob, lines: &str) -> Result<(), Fail> {
        append_unescaped(alloc, head, self.front)?;
        append_unescaped(alloc, head, lines)?;
        append_unescaped(alloc, head, self.back)
    }

    // Whether this is told of the head around some lines, and a body.
    fn is_told(&self, alloc: Global, told: Told, lines: &str, body: &str) -> Result<bool, Fail> {
        let mut bytes = Blob::new(alloc);
        self.append(alloc, &mut bytes, lines)?;
        let body_at = bytes.len();
        bytes.append(body.as_bytes())?;
        let next = next_request(bytes.as_slice(), &Limits::shipped());
        Ok(next == told.next(body_at, bytes.len(), false))
    }

    // The same of a head that is a request whose method isn't taken.
    fn is_closed(
        &self,
        alloc: Global,
        lines: &str,
        length: usize,
        close: bool,
    ) -> Result<bool, Fail> {
        let mut head = Blob::new(alloc);
        self.append(alloc, &mut head, lines)?;
        let next = next_request(head.as_slice(), &Limits::shipped());
        Ok(next == Told::Verdict(405).next(length, length, close))
    }
}

fn is_head(alloc: Global, row: &Row, around: &Around, field: &Field) -> Result<bool, Fail> {
    let (told, text) = Told::of(row, field.key(), field.text())?;
    let (lines, body) = text.split_once(" | ").unwrap_or((text, around.body));
    around.is_told(alloc, told, lines, body)
}

// The same of a method that isn't taken, where the length of the head and whether the connection ends are told.
fn is_end(alloc: Global, row: &Row, around: &Around, field: &Field) -> Result<bool, Fail> {
    let (length, lines) = after_word(field.text());
    let length = row.count_in(length)?;
    around.is_closed(alloc, lines, length, field.key() == "close")
}

fn expect_heads(alloc: Global, row: &Row) -> Result<(), Fail> {
    let around = Around::of(row)?;
    for field in row.fields() {
        let same = match field.key() {
            "front" | "back" | "body" => true,
            "open" | "close" => is_end(alloc, row, &around, field)?,
            _ => is_head(alloc, row, &around, field)?,
        };
        if !same {
            return Err(row.fail(field.key(), field.text()));
        }
    }
    Ok(())
}

#[test]
fn reads_heads(rt: HostRuntime) -> Result<(), Fail> {
    for row in &rows(rt.alloc(), HEADS)? {
        expect_heads(rt.alloc(), row)?;
    }
    Ok(())
}

// Heads of 16,384 bytes, and of 64 lines: what is told of them, how often the piece follows the front, and the number of
// all bytes.
const LONG: &str = r"
a target that fills a head
front GET /
piece a
need 16375 16380
need 16378 16383
refused 431 16379 16384
refused 431 16380 16385

a head that a target fills
front POST /
piece a
back \x20HTTP/1.1\r\nHost: x\r\nContent-Length: 0\r\n\r\n
verdict 404 16337 16384
refused 431 16338 16385

the same without its last two bytes
front POST /
piece a
back \x20HTTP/1.1\r\nHost: x\r\nContent-Length: 0\r\n
need 16338 16383

the same without its last byte
front POST /
piece a
back \x20HTTP/1.1\r\nHost: x\r\nContent-Length: 0\r\n\r
refused 431 16338 16384

64 lines and more
front GET /v1/traces HTTP/1.1\r\nHost: x\r\n
piece a: b\r\n
back \r\n
verdict 405 63 414
refused 431 64 420

the same behind an empty line
front \r\nGET /v1/traces HTTP/1.1\r\nHost: x\r\n
piece a: b\r\n
back \r\n
verdict 405 63 416
refused 431 64 422

an LF alone in the first of too many lines
front GET /v1/traces HTTP/1.1\r\nHost: x\n
piece a: b\r\n
back \r\n
refused 400 64 419

as many lines without their end
front GET /v1/traces HTTP/1.1\r\nHost: x\r\n
piece a: b\r\n
need 64 418
";

fn append_long(
    alloc: Global,
    head: &mut Blob,
    around: &Around,
    piece: &str,
    times: usize,
) -> Result<(), Fail> {
    append_unescaped(alloc, head, around.front)?;
    let piece = unescaped(alloc, piece)?;
    append_often(head, piece.as_slice(), times)?;
    append_unescaped(alloc, head, around.back)
}

fn is_long(alloc: Global, row: &Row, around: &Around, field: &Field) -> Result<bool, Fail> {
    let piece = row.text("piece")?;
    let (told, text) = Told::of(row, field.key(), field.text())?;
    let (times, count) = after_word(text);
    let times = row.count_in(times)?;
    let count = row.count_in(count)?;
    let mut head = Blob::new(alloc);
    append_long(alloc, &mut head, around, piece, times)?;
    let next = next_request(head.as_slice(), &Limits::shipped());
    Ok(head.len() == count && next == told.next(count, count, false))
}

fn expect_each_long(alloc: Global, row: &Row) -> Result<(), Fail> {
    let around = Around::of(row)?;
    for field in row.fields() {
        let same = match field.key() {
            "front" | "back" | "piece" => true,
            _ => is_long(alloc, row, &around, field)?,
        };
        if !same {
            return Err(row.fail(field.key(), field.text()));
        }
    }
    Ok(())
}

#[test]
fn ends_heads_within_their_limits(rt: HostRuntime) -> Result<(), Fail> {
    for row in &rows(rt.alloc(), LONG)? {
        expect_each_long(rt.alloc(), row)?;
    }
    Ok(())
}

// What is served at a path, the form of a body of a media type, the path and the media type.
const SERVICES: &str = r"
services
otlp otlp-proto /v1/traces application/x-protobuf
otlp otlp-json /v1/traces application/json ;
otlp none /v1/traces text/plain
jaeger jaeger-binary /api/traces application/x-thrift
zipkin zipkin-json /api/v2/spans application/JSON
none none /v1/traces? application/json
none none /api/v1/spans application/json
none none  application/json
";

fn word_of_service(service: Option<Service>) -> &'static str {
    match service {
        Some(Service::Otlp) => "otlp",
        Some(Service::Jaeger) => "jaeger",
        Some(Service::Zipkin) => "zipkin",
        None => "none",
    }
}

fn is_form(word: &str, form: Option<Form>) -> bool {
    match form {
        Some(_) => Form::of_word(word.as_bytes()) == form,
        None => word == "none",
    }
}

fn is_service(field: &Field) -> bool {
    let (form, rest) = after_word(field.text());
    let (path, media) = after_word(rest);
    let service = Service::at(path.as_bytes());
    let taken = match service {
        Some(service) => service.form_of(media.as_bytes()),
        None => None,
    };
    field.key() == word_of_service(service) && is_form(form, taken)
}

fn expect_services(row: &Row) -> Result<(), Fail> {
    for field in row.fields() {
        if !is_service(field) {
            return Err(row.fail(field.key(), field.text()));
        }
    }
    Ok(())
}

#[test]
fn serves_paths(rt: HostRuntime) -> Result<(), Fail> {
    for row in &rows(rt.alloc(), SERVICES)? {
        expect_services(row)?;
    }
    Ok(())
}
