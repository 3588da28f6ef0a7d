//! Connections that are served whole: their streams, the bytes that are written to them, and how each ends.
ghost use Rattle.std.specs.Prelude.{◌≤◌};

mod failing;

use crate::doors::{Course, connection};
use crate::texts::{append_often, form_of, joined};
use row_tables::texts::{ANSWERED, POSTED};
use row_tables::{Row, rows};
use span_gateway::{Ended, ServeFault, serve_connection};
use span_io::{Blob, Form, Limits, OutOfMemory};
use std::alloc::Global;
use std::test::Fail;

// Streams, the form that their bodies are converted to, what is written, and how the connection ends.
const SERVED: &str = r#"
two requests and one that isn't read
to zipkin-json
stream @POSTED @POSTED
stream POST /api/v2/spans HTTP/1.1\r\nHost: x\r\nContent-Type: application/json\r\nContent-Length: 2\r\nContent-Encoding: gzip\r\n
 \r\n[]
written @ANSWERED @ANSWERED
written HTTP/1.1 415 Unsupported Media Type\r\nContent-Length: 0\r\n\r\n
ended closed

two requests without the last byte
to zipkin-json
stream @POSTED @CUT_POST
written @ANSWERED
ended cut

two requests
to zipkin-json
stream @POSTED @POSTED
written @ANSWERED @ANSWERED
ended closed

nothing
to zipkin-json
ended closed

a part of a head
to zipkin-json
stream POST /api/v2/spans HTTP/1.1\r\nHost: x\r\n
ended cut

a head alone
to zipkin-json
stream POST /api/v2/spans HTTP/1.1\r\nHost: x\r\nContent-Type: application/json\r\nContent-Length: 2\r\n\r\n
ended cut

a request and a part of a head
to zipkin-json
stream @FETCHED GET
written @NOT_ALLOWED
ended cut

a request and an empty line
to zipkin-json
stream @POSTED \r\n
written @ANSWERED
ended cut

an empty line before a request
to zipkin-json
stream @POSTED \r\n @POSTED
written @ANSWERED @ANSWERED
ended closed

a method that isn't taken
to zipkin-json
stream @FETCHED
written @NOT_ALLOWED
ended closed

the body of a method that isn't taken
to zipkin-json
stream GET /v1/traces HTTP/1.1\r\nHost: x\r\nContent-Length: 2\r\n\r\n[]
stream @POSTED
written @NOT_ALLOWED @ANSWERED
ended closed

a path that isn't served
to zipkin-json
stream POST /nowhere HTTP/1.1\r\nHost: x\r\nContent-Length: 2\r\n\r\n[]
stream @POSTED
written HTTP/1.1 404 Not Found\r\nContent-Length: 0\r\n\r\n
written @ANSWERED
ended closed

a body that is asked about
to zipkin-json
stream @ASKED
written @ANSWERED
ended closed

an empty body
to zipkin-json
stream POST /api/v2/spans HTTP/1.1\r\nHost: x\r\nContent-Type: application/json\r\nContent-Length: 0\r\n\r\n
stream @POSTED
written HTTP/1.1 400 Bad Request\r\nContent-Type: text/plain\r\nContent-Length: 25\r\n\r\nunit 0: cause 10 BadJson\n
written @ANSWERED
ended closed

a body with a cause
to zipkin-json
stream @POSTED_OBJECT @POSTED
written @REFUSED_OBJECT @ANSWERED
ended closed

a span with a cause
to zipkin-json
stream POST /api/v2/spans HTTP/1.1\r\nHost: x\r\nContent-Type: application/json\r\nContent-Length: 26\r\n\r\n[{"traceId":"0",
 "id":"1"}]
written HTTP/1.1 400 Bad Request\r\nContent-Type: text/plain\r\nContent-Length: 23\r\n\r\nunit 1: cause 12 BadId\n
ended closed

a span with a fault
to jaeger-binary
stream POST /v1/traces HTTP/1.1\r\nHost: x\r\nContent-Type: application/json\r\nContent-Length: 199\r\n\r\n
 {"resourceSpans":[{"scopeSpans":[{"spans":[{"traceId":"00000000000000000000000000000001","spanId":"0000000000000002","name":"a",
 "attributes":[{"key":"jaeger.flags","value":{"boolValue":true}}]}]}]}]}
written HTTP/1.1 422 Unprocessable Content\r\nContent-Type: text/plain\r\nContent-Length: 39\r\n\r\n
 unit 1: fault 22 OwnKey "jaeger.flags"\n
ended closed

an attribute of a key that the target has for something else
to zipkin-json
stream POST /v1/traces HTTP/1.1\r\nHost: x\r\nContent-Type: application/json\r\nContent-Length: 192\r\n\r\n
 {"resourceSpans":[{"scopeSpans":[{"spans":[{"traceId":"00000000000000000000000000000001","spanId":"0000000000000002","name":"a",
 "attributes":[{"key":"error","value":{"boolValue":true}}]}]}]}]}
written HTTP/1.1 200 OK\r\nContent-Type: application/json\r\nContent-Length: 117\r\n\r\n
 [{"id":"0000000000000002","name":"a","tags":{"otel.attr.error":"true"},"traceId":"00000000000000000000000000000001"}]
ended closed

HTTP/1.0
to zipkin-json
stream POST /api/v2/spans HTTP/1.0\r\nContent-Type: application/json\r\nContent-Length: 2\r\n\r\n[]
stream @POSTED
written @LAST
ended closed

a request that ends the connection
to zipkin-json
stream @POSTED
stream POST /api/v2/spans HTTP/1.1\r\nHost: x\r\nContent-Type: application/json\r\nContent-Length: 2\r\nConnection: CLOSE\r\n\r\n
 []
stream @POSTED
written @ANSWERED @LAST
ended closed

a method that ends the connection
to zipkin-json
stream GET /v1/traces HTTP/1.1\r\nHost: x\r\nConnection: close\r\n\r\n
stream @POSTED
written HTTP/1.1 405 Method Not Allowed\r\nContent-Length: 0\r\nConnection: close\r\n\r\n
ended closed

an LF alone
to zipkin-json
stream @POSTED
stream GET / HTTP/1.1\nHost: x\r\n\r\n
stream @POSTED
written @ANSWERED @BROKEN
ended refused 400

two empty lines
to zipkin-json
stream \r\n\r\n
stream @POSTED
written @BROKEN
ended refused 400

no length
to zipkin-json
stream @POSTED
stream POST /api/v2/spans HTTP/1.1\r\nHost: x\r\nContent-Type: application/json\r\n\r\n[]
written @ANSWERED
written HTTP/1.1 411 Length Required\r\nContent-Length: 0\r\nConnection: close\r\n\r\n
ended refused 411

a long body
to zipkin-json
stream @POSTED
stream POST /api/v2/spans HTTP/1.1\r\nHost: x\r\nContent-Type: application/json\r\nContent-Length: 67108865\r\n\r\n
stream @POSTED
written @ANSWERED
written HTTP/1.1 413 Content Too Large\r\nContent-Length: 0\r\nConnection: close\r\n\r\n
ended refused 413

chunks
to zipkin-json
stream @POSTED
stream POST /api/v2/spans HTTP/1.1\r\nHost: x\r\nContent-Type: application/json\r\nTransfer-Encoding: chunked\r\n\r\n2\r\n[]\r\n
 0\r\n\r\n
written @ANSWERED
written HTTP/1.1 501 Not Implemented\r\nContent-Length: 0\r\nConnection: close\r\n\r\n
ended refused 501

no spans as OTLP protobuf
to otlp-proto
stream @POSTED
written HTTP/1.1 200 OK\r\nContent-Type: application/x-protobuf\r\nContent-Length: 0\r\n\r\n
ended closed

no spans as OTLP/JSON
to otlp-json
stream @POSTED
written HTTP/1.1 200 OK\r\nContent-Type: application/json\r\nContent-Length: 20\r\n\r\n{"resourceSpans":[]}
ended closed

no spans as Jaeger binary
to jaeger-binary
stream @POSTED
written HTTP/1.1 200 OK\r\nContent-Type: application/vnd.apache.thrift.binary\r\nContent-Length: 0\r\n\r\n
ended closed

no spans as Jaeger compact
to jaeger-compact
stream @POSTED
written HTTP/1.1 200 OK\r\nContent-Type: application/vnd.apache.thrift.compact\r\nContent-Length: 0\r\n\r\n
ended closed

one span of OTLP protobuf
to zipkin-json
stream POST /v1/traces HTTP/1.1\r\nHost: x\r\nContent-Type: application/x-protobuf\r\nContent-Length: 37\r\n\r\n
stream #ONE_SPAN
written HTTP/1.1 200 OK\r\nContent-Type: application/json\r\nContent-Length: 83\r\n\r\n
written @ONE_ZIPKIN_SPAN
ended closed

OTLP protobuf as OTLP protobuf
to otlp-proto
stream @REQUEST_HEAD #SDK_REQUEST
written @REQUEST_ANSWER #SDK_REQUEST
ended closed

OTLP protobuf as OTLP/JSON
to otlp-json
stream @REQUEST_HEAD #SDK_REQUEST
written HTTP/1.1 200 OK\r\nContent-Type: application/json\r\nContent-Length: 553\r\n\r\n
written @SDK_GROUPS
ended closed

OTLP protobuf as Jaeger binary
to jaeger-binary
stream @REQUEST_HEAD #SDK_REQUEST
written HTTP/1.1 200 OK\r\nContent-Type: application/vnd.apache.thrift.binary\r\nContent-Length: 378\r\n\r\n
written #SDK_BATCH
ended closed

OTLP protobuf as Jaeger compact
to jaeger-compact
stream @REQUEST_HEAD #SDK_REQUEST
written HTTP/1.1 200 OK\r\nContent-Type: application/vnd.apache.thrift.compact\r\nContent-Length: 231\r\n\r\n
written #SDK_COMPACT
ended closed

OTLP protobuf as Zipkin
to zipkin-json
stream @REQUEST_HEAD #SDK_REQUEST
written @SPANS_ANSWER @SDK_SPANS
ended closed

Jaeger binary as Zipkin
to zipkin-json
stream POST /api/traces HTTP/1.1\r\nHost: x\r\nContent-Type: application/x-thrift\r\nContent-Length: 378\r\n\r\n
stream #SDK_BATCH
written @SPANS_ANSWER @SDK_SPANS
ended closed

Jaeger binary as OTLP protobuf
to otlp-proto
stream POST /api/traces HTTP/1.1\r\nHost: x\r\nContent-Type: application/vnd.apache.thrift.binary\r\nContent-Length: 378\r\n\r\n
stream #SDK_BATCH
written @REQUEST_ANSWER #MICROS_REQUEST
ended closed

one span of Zipkin
to otlp-proto
stream POST /api/v2/spans HTTP/1.1\r\nHost: x\r\nContent-Type: application/json\r\nContent-Length: 37\r\n\r\n
stream [{"traceId":"1","id":"2","name":"a"}]
written HTTP/1.1 200 OK\r\nContent-Type: application/x-protobuf\r\nContent-Length: 39\r\n\r\n
written #ZIPKIN_REQUEST
ended closed

OTLP protobuf without its end
to zipkin-json
stream POST /v1/traces HTTP/1.1\r\nHost: x\r\nContent-Type: application/x-protobuf\r\nContent-Length: 36\r\n\r\n
stream #CUT_SPAN
written HTTP/1.1 400 Bad Request\r\nContent-Type: text/plain\r\nContent-Length: 26\r\n\r\nunit 1: cause 1 Truncated\n
ended closed
"#;

const KEYS: [&str; 4] = ["to", "stream", "written", "ended"];

// The most bytes that a read gives.
const CUTS: [usize; 3] = [1, 2, 4_096];

// More bytes than are written to any of these connections.
const ROOM: usize = 4_096;

const WHOLE: Course = Course {
    cut: 4_096,
    room: ROOM,
    reads: &[],
    writes: &[],
};

// Whether serving a stream ends so, with these bytes written.
fn is_served(
    alloc: Global,
    to: Form,
    stream: &[u8],
    course: Course,
    ended: Result<Ended, ServeFault>,
    written: &[u8],
) -> Result<bool, OutOfMemory> {
    let mut conn = connection(alloc, stream, course)?;
    let found = serve_connection(alloc, &mut conn, to, &Limits::shipped());
    Ok(found == ended && conn.written() == written)
}

fn ended_of(row: &Row) -> Result<Ended, Fail> {
    match row.text("ended")? {
        "closed" => Ok(Ended::Closed),
        "cut" => Ok(Ended::Cut),
        "refused 400" => Ok(Ended::Refused(400)),
        "refused 411" => Ok(Ended::Refused(411)),
        "refused 413" => Ok(Ended::Refused(413)),
        "refused 501" => Ok(Ended::Refused(501)),
        text => Err(row.fail("no end", text)),
    }
}

// The size of the pieces in which a stream isn't served so, if there is one.
fn other_cut(
    alloc: Global,
    to: Form,
    stream: &[u8],
    ended: Ended,
    written: &[u8],
) -> Result<Option<usize>, OutOfMemory> {
    for cut in &CUTS {
        let course = Course { cut: *cut, ..WHOLE };
        if !is_served(alloc, to, stream, course, Ok(ended), written)? {
            return Ok(Some(*cut));
        }
    }
    Ok(None)
}

fn expect_row(alloc: Global, row: &Row) -> Result<(), Fail> {
    row.expect_keys(&KEYS)?;
    let to = form_of(row, row.text("to")?)?;
    let ended = ended_of(row)?;
    let stream = joined(alloc, row, "stream")?;
    let written = joined(alloc, row, "written")?;
    match other_cut(alloc, to, stream.as_slice(), ended, written.as_slice())? {
        None => Ok(()),
        Some(cut) => Err(Fail::new(format_args!("{} in pieces of {cut}", row.name()))),
    }
}

#[test]
fn serves_connections(rt: HostRuntime) -> Result<(), Fail> {
    for row in &rows(rt.alloc(), SERVED)? {
        expect_row(rt.alloc(), row)?;
    }
    Ok(())
}

// The most bytes that a read gives of a stream of two requests, of 93 bytes each, how many bytes are taken, the reads and the
// writes that fail, the fault by which the connection ends, and how many answers were written.
const FAILING: [(usize, usize, &[u64], &[u64], ServeFault, usize); 9] = [
    (93, ROOM, &[1], &[], ServeFault::Read, 0),
    (93, ROOM, &[2], &[], ServeFault::Read, 1),
    (93, ROOM, &[3], &[], ServeFault::Read, 2),
    (1, ROOM, &[93], &[], ServeFault::Read, 0),
    (1, ROOM, &[94], &[], ServeFault::Read, 1),
    (4_096, ROOM, &[2], &[], ServeFault::Read, 2),
    (4_096, ROOM, &[], &[1], ServeFault::Write, 0),
    (1, ROOM, &[], &[2], ServeFault::Write, 1),
    (4_096, 100, &[], &[], ServeFault::Write, 1),
];

// Whether serving the stream ends by a fault, with so many answers.
fn is_fault(
    alloc: Global,
    course: Course,
    fault: ServeFault,
    count: usize,
) -> Result<bool, OutOfMemory> {
    let mut stream = Blob::new(alloc);
    append_often(&mut stream, POSTED.as_bytes(), 2)?;
    let mut written = Blob::new(alloc);
    append_often(&mut written, ANSWERED.as_bytes(), count)?;
    let (stream, written) = (stream.as_slice(), written.as_slice());
    is_served(alloc, Form::ZipkinJson, stream, course, Err(fault), written)
}

#[test]
fn fails_with_its_connection(rt: HostRuntime) -> Result<(), Fail> {
    for (cut, room, reads, writes, fault, count) in &FAILING {
        let course = Course {
            cut: *cut,
            room: *room,
            reads,
            writes,
        };
        assert!(rt;
            is_fault(rt.alloc(), course, *fault, *count)?,
            "in pieces of {cut}, room for {room}, {count} answers"
        );
    }
    Ok(())
}

const TOO_LARGE: &str = "HTTP/1.1 413 Content Too Large\r\nContent-Length: 0\r\n\r\n";

// Whether one post, whose text has two bytes, is served so where an answer may have so many.
fn is_replied(alloc: Global, reply: usize, written: &str) -> Result<bool, OutOfMemory>
    requires { (1 ≤ reply) × (reply ≤ 2) }
{
    let mut limits = Limits::shipped();
    limits.reply = reply;
    let mut conn = connection(alloc, POSTED.as_bytes(), WHOLE)?;
    let ended = serve_connection(alloc, &mut conn, Form::ZipkinJson, &limits);
    Ok(ended == Ok(Ended::Closed) && conn.written() == written.as_bytes())
}

#[test]
fn answers_within_their_limit(rt: HostRuntime) -> Result<(), Fail> {
    assert!(rt; is_replied(rt.alloc(), 2, ANSWERED)?);
    assert!(rt; is_replied(rt.alloc(), 1, TOO_LARGE)?);
    Ok(())
}
