//! The piece of a datagram in each form, or why it has none.
ghost use Rattle.std.specs.Prelude.{◌≤◌, length};
ghost use Rattle.span_agent.specs.Posts.{most_bytes};

use crate::datagrams::datagram_of;
use row_tables::{Row, rows, unescaped};
use span_agent::{AgentBad, convert_datagram};
use span_io::{Form, Halt, Limits};
use std::alloc::Global;
use std::process::Abort;
use std::test::Fail;

// The datagram, the form, and the piece: as it stands with what ends a line, or in words that spell its bytes; or the number and
// the name of what speaks against it.
const PIECES: &str = r#"
a batch in its own form
datagram C 1c FLAGS 00
to jaeger-compact
bytes FLAGS

the other protocol
datagram C 1c PLAIN 00
to jaeger-binary
bytes BATCH

a batch in the binary protocol to its own form
datagram B 0c0001 BATCH 00
to jaeger-binary
bytes BATCH

the same to the compact one
datagram B 0c0001 BATCH 00
to jaeger-compact
bytes PLAIN

a batch in JSON
datagram C 1c FLAGS 00
to otlp-json
line {"resourceSpans":[{"resource":{"attributes":[{"key":"service.name","value":{"stringValue":"s"}}]},"scopeSpans":[{"spans":[{
 "attributes":[{"key":"jaeger.flags","value":{"stringValue":"2"}}],"flags":1,"kind":1,"name":"a","spanId":"0000000000000002",
 "traceId":"00000000000000000000000000000001"}]}]}]}

the binary protocol in JSON
datagram B 0c0001 BATCH 00
to otlp-json
line {"resourceSpans":[{"resource":{"attributes":[{"key":"service.name","value":{"stringValue":"s"}}]},"scopeSpans":[{"spans":[{
 "kind":1,"name":"a","spanId":"0000000000000002","traceId":"00000000000000000000000000000001"}]}]}]}

spans of Zipkin
datagram C 1c PLAIN 00
to zipkin-json
line [{"id":"0000000000000002","localEndpoint":{"serviceName":"s"},"name":"a","traceId":"00000000000000000000000000000001"}]

the binary protocol as spans of Zipkin
datagram B 0c0001 BATCH 00
to zipkin-json
line [{"id":"0000000000000002","localEndpoint":{"serviceName":"s"},"name":"a","traceId":"00000000000000000000000000000001"}]

in protobuf
datagram C 1c PLAIN 00
to otlp-proto
bytes 0a3c 0a15 0a13 0a0c 'service.name' 1203 0a01 's' 1223 1221 0a10 00*15 01 1208 00*7 02 2a01 'a' 3001

a cause of the message
datagram C 1c PLAIN 00 00
to otlp-json
bad 43 Tail

the same in the binary protocol
datagram B 0c0001 BATCH 00
to otlp-proto
bytes 0a3c 0a15 0a13 0a0c 'service.name' 1203 0a01 's' 1223 1221 0a10 00*15 01 1208 00*7 02 2a01 'a' 3001

a double in a tag
datagram C 1c DOUBLES 00
to otlp-json
bad 25 DoubleInText

a key that the form has itself
datagram C 1c OWN 00
to zipkin-json
bad 22 OwnKey

a batch that lacks its process
datagram C 1c 00 00
to otlp-json
bad 8 Missing
"#;

const KEYS: [&str; 5] = ["datagram", "to", "bytes", "line", "bad"];

// What a row wants of the piece.
fn wanted(alloc: Global, row: &Row) -> Result<Vec<u8>, Fail> {
    match row.text_if_any("line")? {
        Some(text) => {
            let mut line = unescaped(alloc, text)?;
            line.push(b'\n')?;
            Ok(line)
        }
        None => {
            let words = row.text_if_any("bytes")?.unwrap_or("");
            crate::datagrams::bytes_of(alloc, words)
        }
    }
}

// Looks at the piece.
fn expect_piece(rt: &impl Abort, alloc: Global, row: &Row, piece: &[u8]) -> Result<(), Fail> {
    let wanted = wanted(alloc, row)?;
    assert_eq!(rt; piece, wanted.as_slice(), "{}", row.name());
    Ok(())
}

// The number and the name of what speaks against a datagram.
fn told_of(bad: &AgentBad) -> (u8, &'static str) {
    match bad {
        AgentBad::Message(cause) => (cause.number(), cause.name()),
        AgentBad::Faulted(fault) => (fault.number(), fault.name()),
    }
}

// Looks at what speaks against a datagram.
fn expect_bad(rt: &impl Abort, alloc: Global, row: &Row, bad: &AgentBad) -> Result<(), Fail> {
    let (number, name) = told_of(bad);
    let told = format!(in alloc; "{number} {name}")?;
    let wanted = row.text_if_any("bad")?.unwrap_or("none");
    assert_eq!(rt; told.as_str(), wanted, "{}", row.name());
    Ok(())
}

fn form_of(row: &Row) -> Result<Form, Fail> {
    let word = row.text("to")?;
    match Form::of_word(word.as_bytes()) {
        Some(form) => Ok(form),
        None => Err(row.fail("no form", word)),
    }
}

// Holds the piece of a datagram in a form against a row.
fn converts_to(
    rt: &impl Abort,
    alloc: Global,
    row: &Row,
    datagram: &[u8],
    to: Form,
) -> Result<(), Fail>
    requires { length datagram.now ≤ most_bytes }
{
    match convert_datagram(alloc, datagram, to, &Limits::shipped()) {
        Ok(piece) => expect_piece(rt, alloc, row, piece.as_slice()),
        Err(Halt::Why(bad)) => expect_bad(rt, alloc, row, &bad),
        Err(Halt::OutOfMemory) => Err(row.fail("no memory", "")),
    }
}

// The same of a row's own datagram and form.
fn converts(rt: &impl Abort, alloc: Global, row: &Row) -> Result<(), Fail> {
    row.expect_keys(&KEYS)?;
    let to = form_of(row)?;
    let datagram = datagram_of(alloc, row.text("datagram")?)?;
    converts_to(rt, alloc, row, datagram.as_slice(), to)
}

#[test]
fn converts_each_datagram(rt: HostRuntime) -> Result<(), Fail> {
    for row in &rows(rt.alloc(), PIECES)? {
        converts(&rt, rt.alloc(), row)?;
    }
    Ok(())
}
