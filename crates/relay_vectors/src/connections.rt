//! Connections that are served: what they give, what is kept of it, what is written to them, and how each ends.
use crate::devices::{connection_of, keeper_of};
use crate::spent::SpentKeeper;
use crate::texts::form_of;
use crate::told::{are_left, are_outcomes, expect, took};
use row_tables::{Field, Row, row_named, rows};
use span_io::{Duplex, Form, Limits, MemDuplex};
use span_relay::{RelayEnd, RelayFault, RelayWhy, Served, relay_connection};
use span_spool::Keeper;
use std::alloc::Global;
use std::process::Abort;
use std::test::Fail;

// What a connection gives, or behind `broken` the read and the write that fails and what it gives; the form that bodies are
// kept in, the room of the keeper, its calls that fail and the rows that it holds before. Then what the connection took, how
// serving it ends, the outcomes, and the rows of the keeper.
const SERVED: &str = r#"
two posts
to zipkin-json
stream @POSTED*2
took @KEPT*2
ended closed
outcomes true*2
left 1..2 zipkin-json []

room for one
to zipkin-json
room 1
stream @POSTED*2
took @KEPT @NOT_KEPT
ended closed
outcomes true false
left 1 zipkin-json []

a write that fails at the first answer
to zipkin-json
broken 0 1 @POSTED
took
ended write
outcomes true
left 1 zipkin-json []

a keeper that is full before
to zipkin-json
room 2
kept 1..2 otlp-json {}
stream @POSTED*2
took @NOT_KEPT*2
ended closed
outcomes false*2
left 1..2 otlp-json {}

a keeper that fails at its first call
to zipkin-json
keeper-fails 1
stream @POSTED*3
took @NOT_KEPT @KEPT*2
ended closed
outcomes false true*2
left 1..2 zipkin-json []

a keeper that fails at its second call
to zipkin-json
keeper-fails 2
stream @POSTED*3
took @KEPT @NOT_KEPT @KEPT
ended closed
outcomes true false true
left 1..2 zipkin-json []

a keeper that fails at its last call
to zipkin-json
keeper-fails 3
stream @POSTED*3
took @KEPT*2 @NOT_KEPT
ended closed
outcomes true*2 false
left 1..2 zipkin-json []

a keeper that fails at each call
to zipkin-json
keeper-fails 1 2 3
stream @POSTED*3
took @NOT_KEPT*3
ended closed
outcomes false*3

a request in protobuf
to zipkin-json
stream @PROTO_HEAD @OPEN #ONE_SPAN @POSTED
took HTTP/1.1 200 OK\r\nContent-Type: application/x-protobuf\r\nContent-Length: 0\r\n\r\nHTTP/1.1 202 Accepted\r\n
 Content-Length: 0\r\n\r\n
ended closed
outcomes true*2
left 1 zipkin-json @ONE_ZIPKIN_SPAN
left 2 zipkin-json []

a request in protobuf behind which the connection ends
to zipkin-json
stream @PROTO_HEAD @CLOSE #ONE_SPAN @POSTED
took HTTP/1.1 200 OK\r\nContent-Type: application/x-protobuf\r\nContent-Length: 0\r\nConnection: close\r\n\r\n
ended closed
outcomes true
left 1 zipkin-json @ONE_ZIPKIN_SPAN

a request in JSON
to zipkin-json
stream @JSON_HEAD @OPEN @ONE_GROUP @POSTED
took HTTP/1.1 200 OK\r\nContent-Type: application/json\r\nContent-Length: 2\r\n\r\n{}HTTP/1.1 202 Accepted\r\n
 Content-Length: 0\r\n\r\n
ended closed
outcomes true*2
left 1 zipkin-json @ONE_ZIPKIN_SPAN
left 2 zipkin-json []

a request in JSON behind which the connection ends
to zipkin-json
stream @JSON_HEAD @CLOSE @ONE_GROUP @POSTED
took HTTP/1.1 200 OK\r\nContent-Type: application/json\r\nContent-Length: 2\r\nConnection: close\r\n\r\n{}
ended closed
outcomes true
left 1 zipkin-json @ONE_ZIPKIN_SPAN

a batch
to zipkin-json
stream @BATCH_HEAD @OPEN #SDK_BATCH @POSTED
took @KEPT*2
ended closed
outcomes true*2
left 1 zipkin-json @SDK_SPANS
left 2 zipkin-json []

a batch behind which the connection ends
to zipkin-json
stream @BATCH_HEAD @CLOSE #SDK_BATCH @POSTED
took @LAST_KEPT
ended closed
outcomes true
left 1 zipkin-json @SDK_SPANS

a batch by the other name of its kind
to jaeger-binary
stream @BINARY_HEAD @OPEN #SDK_BATCH
took @KEPT
ended closed
outcomes true
left 1 jaeger-binary #SDK_BATCH

the same behind which the connection ends
to jaeger-binary
stream @BINARY_HEAD @CLOSE #SDK_BATCH @POSTED
took @LAST_KEPT
ended closed
outcomes true
left 1 jaeger-binary #SDK_BATCH

a batch in the compact protocol
to jaeger-binary
stream @COMPACT_HEAD @OPEN #SDK_COMPACT
took HTTP/1.1 415 Unsupported Media Type\r\nContent-Length: 0\r\n\r\n
ended closed
outcomes

a span
to otlp-proto
stream @SPAN_HEAD @OPEN @ONE_ZIPKIN_SPAN
took @KEPT
ended closed
outcomes true
left 1 otlp-proto #ZIPKIN_REQUEST

a span behind which the connection ends
to otlp-proto
stream @SPAN_HEAD @CLOSE @ONE_ZIPKIN_SPAN @POSTED
took @LAST_KEPT
ended closed
outcomes true
left 1 otlp-proto #ZIPKIN_REQUEST

no spans behind which the connection ends
to zipkin-json
stream @POSTED @LAST_POSTED @POSTED
took @KEPT @LAST_KEPT
ended closed
outcomes true*2
left 1..2 zipkin-json []

a post that isn't kept behind which the connection ends
to zipkin-json
keeper-fails 1
stream @LAST_POSTED
took HTTP/1.1 503 Service Unavailable\r\nContent-Length: 0\r\nConnection: close\r\n\r\n
ended closed
outcomes false

protobuf that isn't kept
to zipkin-json
keeper-fails 1
stream @PROTO_HEAD @OPEN #ONE_SPAN
took @NOT_KEPT
ended closed
outcomes false

64 posts in one piece of which three are bad
to zipkin-json
stream @POSTED*2 @POSTED_OBJECT @POSTED @POSTED_OBJECT @POSTED*58 @POSTED_OBJECT
took @KEPT*2 @REFUSED_OBJECT @KEPT @REFUSED_OBJECT @KEPT*58 @REFUSED_OBJECT
ended closed
outcomes true*61
left 1..61 zipkin-json []

the same in pieces of three bytes to a connection that takes five
to zipkin-json
gives 3
takes 5
stream @POSTED*2 @POSTED_OBJECT @POSTED @POSTED_OBJECT @POSTED*58 @POSTED_OBJECT
took @KEPT*2 @REFUSED_OBJECT @KEPT @REFUSED_OBJECT @KEPT*58 @REFUSED_OBJECT
ended closed
outcomes true*61
left 1..61 zipkin-json []

64 posts of which three are bad, with room for 60
to zipkin-json
room 60
stream @POSTED*2 @POSTED_OBJECT @POSTED @POSTED_OBJECT @POSTED*58 @POSTED_OBJECT
took @KEPT*2 @REFUSED_OBJECT @KEPT @REFUSED_OBJECT @KEPT*57 @NOT_KEPT @REFUSED_OBJECT
ended closed
outcomes true*60 false
left 1..60 zipkin-json []

a span with a fault before a post
to jaeger-binary
stream POST /v1/traces HTTP/1.1\r\nHost: x\r\nContent-Type: application/json\r\nContent-Length: 199\r\n\r\n
 {"resourceSpans":[{"scopeSpans":[{"spans":[{"traceId":"00000000000000000000000000000001","spanId":"0000000000000002","name":"a",
 "attributes":[{"key":"jaeger.flags","value":{"boolValue":true}}]}]}]}]}POST /api/v2/spans HTTP/1.1\r\nHost: x\r\n
 Content-Type: application/json\r\nContent-Length: 2\r\n\r\n[]
took HTTP/1.1 422 Unprocessable Content\r\nContent-Type: text/plain\r\nContent-Length: 39\r\n\r\n
 unit 1: fault 22 OwnKey "jaeger.flags"\nHTTP/1.1 202 Accepted\r\nContent-Length: 0\r\n\r\n
ended closed
outcomes true
left 1 jaeger-binary

nothing but bad ones
to zipkin-json
stream @POSTED_OBJECT*2
took @REFUSED_OBJECT*2
ended closed
outcomes

a path that isn't served
to otlp-json
stream POST /nowhere HTTP/1.1\r\nHost: x\r\nContent-Length: 2\r\n\r\n[]
took HTTP/1.1 404 Not Found\r\nContent-Length: 0\r\n\r\n
ended closed
outcomes

nothing
to zipkin-json
stream
took
ended closed
outcomes

a post and a part of a head
to zipkin-json
stream @POSTED @SPAN_HEAD
took @KEPT
ended cut
outcomes true
left 1 zipkin-json []

no request behind a post
to zipkin-json
stream @POSTED @SPAN_HEAD*2 @OPEN
took HTTP/1.1 202 Accepted\r\nContent-Length: 0\r\n\r\n
 HTTP/1.1 400 Bad Request\r\nContent-Length: 0\r\nConnection: close\r\n\r\n
ended refused 400
outcomes true
left 1 zipkin-json []

a read that fails behind a post
to zipkin-json
gives 93
broken 2 0 @POSTED*2
took @KEPT
ended read
outcomes true
left 1 zipkin-json []

a read that fails at once
to zipkin-json
broken 1 0 @POSTED
took
ended read
outcomes

a write that fails at the second answer
to zipkin-json
broken 0 2 @POSTED*3
took @KEPT
ended write
outcomes true*2
left 1..2 zipkin-json []

a write that fails where nothing was kept
to zipkin-json
room 1
broken 0 2 @POSTED*3
took @KEPT
ended write
outcomes true false
left 1 zipkin-json []

a write that fails at the answer to a bad one
to zipkin-json
broken 0 2 @POSTED @POSTED_OBJECT @POSTED
took @KEPT
ended write
outcomes true
left 1 zipkin-json []
"#;

// The same over a keeper whose numbers are spent.
const SPENT: &str = r"
two posts
to zipkin-json
stream @POSTED @POSTED_OBJECT @LAST_POSTED
took HTTP/1.1 503 Service Unavailable\r\nContent-Length: 0\r\n\r\nHTTP/1.1 400 Bad Request\r\nContent-Type: text/plain\r\n
 Content-Length: 26\r\n\r\nunit 0: cause 11 BadShape\nHTTP/1.1 503 Service Unavailable\r\nContent-Length: 0\r\n
 Connection: close\r\n\r\n
ended closed
outcomes false*2
";

const KEYS: [&str; 12] = [
    "to",
    "room",
    "kept",
    "keeper-fails",
    "gives",
    "takes",
    "stream",
    "broken",
    "took",
    "ended",
    "outcomes",
    "left",
];

/// Serves a connection by the shipped limits.
pub(crate) fn served<C: Duplex, K: Keeper>(
    alloc: Global,
    conn: &mut C,
    keeper: &mut K,
    to: Form,
) -> Result<Served, RelayFault> {
    relay_connection(alloc, conn, keeper, to, &Limits::shipped())
}

fn is_end(row: &Row, end: RelayEnd, text: &str) -> Result<bool, Fail> {
    match (end, text) {
        (RelayEnd::Closed, "closed") | (RelayEnd::Cut, "cut") => Ok(true),
        (RelayEnd::Refused(status), text) => match text.strip_prefix("refused ") {
            Some(number) => Ok(u64::from(status) == row.number_in(number)?),
            None => Ok(false),
        },
        _ => Ok(false),
    }
}

fn is_fault(why: RelayWhy, text: &str) -> bool {
    matches!(
        (why, text),
        (RelayWhy::Read, "read") | (RelayWhy::Write, "write")
    )
}

// Whether serving a connection ended as a row tells, with its outcomes.
fn is_served(row: &Row, served: &Result<Served, RelayFault>) -> Result<bool, Fail> {
    let text = row.text("ended")?;
    let outcomes = row.text("outcomes")?;
    match served {
        Ok(served) => Ok(
            is_end(row, served.end, text)?
                && are_outcomes(row, served.outcomes.as_slice(), outcomes)?,
        ),
        Err(fault) => Ok(
            is_fault(fault.why, text) && are_outcomes(row, fault.outcomes.as_slice(), outcomes)?,
        ),
    }
}

// The field that tells the connection.
fn stream_of(row: &Row) -> Result<&Field, Fail> {
    for field in row.fields() {
        if field.key() == "stream" || field.key() == "broken" {
            return Ok(field);
        }
    }
    Err(row.fail("missing", "stream"))
}

// Serves a connection in a form, and looks at how that ends.
fn expect_end<K: Keeper>(
    rt: &impl Abort,
    alloc: Global,
    row: &Row,
    conn: &mut MemDuplex,
    keeper: &mut K,
) -> Result<(), Fail> {
    let to = form_of(row, row.text("to")?)?;
    let holds = is_served(row, &served(alloc, conn, keeper, to))?;
    expect(rt, row, "end", holds);
    Ok(())
}

// Serves the connection of a row, and looks at how that ends and at what it took.
fn expect_served<K: Keeper>(
    rt: &impl Abort,
    alloc: Global,
    row: &Row,
    keeper: &mut K,
) -> Result<(), Fail> {
    row.expect_keys(&KEYS)?;
    let mut conn = connection_of(rt, alloc, row, stream_of(row)?)?;
    expect_end(rt, alloc, row, &mut conn, keeper)?;
    let holds = took(alloc, row, &conn, row.text("took")?)?;
    expect(rt, row, "answers", holds);
    Ok(())
}

fn expect_kept(rt: &impl Abort, alloc: Global, row: &Row) -> Result<(), Fail> {
    let mut keeper = keeper_of(alloc, row)?;
    expect_served(rt, alloc, row, &mut keeper)?;
    let holds = are_left(alloc, row, keeper.rows())?;
    expect(rt, row, "rows", holds);
    Ok(())
}

#[test]
fn serves_each_connection(rt: HostRuntime) -> Result<(), Fail> {
    for row in &rows(rt.alloc(), SERVED)? {
        expect_kept(&rt, rt.alloc(), row)?;
    }
    Ok(())
}

#[test]
fn keeps_nothing_without_a_number(rt: HostRuntime) -> Result<(), Fail> {
    let row = row_named(rt.alloc(), SPENT, "two posts")?;
    expect_served(&rt, rt.alloc(), &row, &mut SpentKeeper {})
}
