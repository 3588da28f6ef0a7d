//! Runs of the agent over a post in memory, which is at `m`.
ghost use Rattle.std.specs.Prelude.{IfOk, OnOk};
ghost use Rattle.span_agent.specs.Datagrams.{AreDatagrams};

use crate::datagrams::{bytes_of, datagram_of};
use row_tables::{Field, Row, rows, unescaped};
use span_agent::{MemPost, agent_run};
use span_io::{Blob, Items, MemSink, Text};
use std::alloc::Global;
use std::process::Abort;
use std::test::Fail;

// The words, the datagrams that come, the calls of the post that fail, and that of the output and of the notes; how many bytes a
// call of the output takes. Then what the output gained, in words that spell bytes or as lines, the lines of the notes, the status
// and how many datagrams are left.
const RUNS: &str = r#"
a batch in its own form
run --listen m --to jaeger-compact --count 1
datagram C 1c FLAGS 00
bytes FLAGS

a batch in JSON
run --listen m --to otlp-json --count 1
datagram C 1c FLAGS 00
line {"resourceSpans":[{"resource":{"attributes":[{"key":"service.name","value":{"stringValue":"s"}}]},"scopeSpans":[{"spans":[{
 "attributes":[{"key":"jaeger.flags","value":{"stringValue":"2"}}],"flags":1,"kind":1,"name":"a","spanId":"0000000000000002",
 "traceId":"00000000000000000000000000000001"}]}]}]}

good ones and bad ones
run --listen m --to jaeger-binary --count 4
datagram B 0c0001 BATCH 00
datagram
datagram C 1c FLAGS 00 00
datagram 82 41 00 00
bytes BATCH
note datagram 2: cause 40 BadMessage
note datagram 3: cause 43 Tail
note datagram 4: cause 40 BadMessage

good ones behind bad ones
run --listen m --to zipkin-json --count 3
datagram 82 41 00 00
datagram C 1c PLAIN 00
datagram B 0c0001 BATCH 00
line [{"id":"0000000000000002","localEndpoint":{"serviceName":"s"},"name":"a","traceId":"00000000000000000000000000000001"}]
line [{"id":"0000000000000002","localEndpoint":{"serviceName":"s"},"name":"a","traceId":"00000000000000000000000000000001"}]
note datagram 1: cause 40 BadMessage

batches that the target can't hold
run --listen m --to zipkin-json --count 2
datagram C 1c OWN 00
datagram C 1c PLAIN 00
line [{"id":"0000000000000002","localEndpoint":{"serviceName":"s"},"name":"a","traceId":"00000000000000000000000000000001"}]
note datagram 1: fault 22 OwnKey "zipkin.debug"

a double in a tag
run --listen m --to otlp-json --count 1
datagram C 1c DOUBLES 00
note datagram 1: fault 25 DoubleInText

a batch that lacks its process
run --listen m --to otlp-json --count 1
datagram C 1c 00 00
note datagram 1: cause 8 Missing

no more than are asked for
run --listen m --to jaeger-compact --count 2
datagram C 1c PLAIN 00
datagram C 1c FLAGS 00
datagram C 1c PLAIN 00
bytes PLAIN FLAGS
left 1

fewer than are asked for
run --listen m --to jaeger-compact --count 3
datagram C 1c PLAIN 00
datagram C 1c FLAGS 00
bytes PLAIN FLAGS
note post failed
status 5

a post that doesn't listen
run --listen m --to jaeger-compact --count 1
datagram C 1c PLAIN 00
post-fails 1
note post failed
status 5
left 1

a post that gives nothing
run --listen m --to jaeger-compact --count 2
datagram C 1c PLAIN 00
datagram C 1c FLAGS 00
post-fails 2
note post failed
status 5
left 2

a post that fails behind the first datagram
run --listen m --to jaeger-compact --count 2
datagram C 1c PLAIN 00
datagram C 1c FLAGS 00
post-fails 3
bytes PLAIN
note post failed
status 5
left 1

a post whose failing call never comes
run --listen m --to jaeger-compact --count 2
datagram C 1c PLAIN 00
datagram C 1c FLAGS 00
post-fails 4
bytes PLAIN FLAGS

another address
run --listen n --to jaeger-compact --count 1
datagram C 1c PLAIN 00
note post failed
status 5
left 1

an output that takes three bytes a call
run --listen m --to jaeger-compact --count 2
datagram C 1c PLAIN 00
datagram C 1c FLAGS 00
cut 3
bytes PLAIN FLAGS

an output that fails at once
run --listen m --to jaeger-compact --count 2
datagram C 1c PLAIN 00
datagram C 1c FLAGS 00
output-fails 1
note output failed
status 6
left 1

an output that fails in the first piece
run --listen m --to jaeger-compact --count 2
datagram C 1c PLAIN 00
datagram C 1c FLAGS 00
cut 3
output-fails 2
bytes 1c1801
note output failed
status 6
left 1

an output that fails in the second piece
run --listen m --to jaeger-compact --count 2
datagram C 1c PLAIN 00
datagram C 1c FLAGS 00
output-fails 2
bytes PLAIN
note output failed
status 6

an output that isn't called for a bad datagram
run --listen m --to jaeger-compact --count 1
datagram
output-fails 1
note datagram 1: cause 40 BadMessage

notes that fail
run --listen m --to jaeger-compact --count 2
datagram
datagram C 1c FLAGS 00
notes-fail 1
bytes FLAGS

notes that fail at a second line
run --listen m --to jaeger-compact --count 3
datagram
datagram
datagram C 1c FLAGS 00
notes-fail 2
bytes FLAGS
note datagram 1: cause 40 BadMessage

the largest datagram that a loopback carries
run --listen m --to jaeger-compact --count 1
datagram C 1c PLAIN 18 b6ff03 00*65462 00
bytes PLAIN

the count first
run --count 1 --listen m --to jaeger-compact
datagram C 1c PLAIN 00
bytes PLAIN

the form first
run --to jaeger-compact --count 1 --listen m
datagram C 1c PLAIN 00
bytes PLAIN

the form first and the count last
run --to jaeger-compact --listen m --count 1
datagram C 1c PLAIN 00
bytes PLAIN

the count first and the address last
run --count 1 --to jaeger-compact --listen m
datagram C 1c PLAIN 00
bytes PLAIN

the count between
run --listen m --count 1 --to jaeger-compact
datagram C 1c PLAIN 00
bytes PLAIN

no words
run
datagram C 1c PLAIN 00
usage

no datagram
run --listen m --to jaeger-compact --count 0
datagram C 1c PLAIN 00
usage

more than 32 bits
run --listen m --to jaeger-compact --count 4294967296
datagram C 1c PLAIN 00
usage

as many as 32 bits hold
run --listen m --to jaeger-compact --count 4294967295
datagram C 1c PLAIN 00
bytes PLAIN
note post failed
status 5

a zero in front
run --listen m --to jaeger-compact --count 01
datagram C 1c PLAIN 00
usage

a sign
run --listen m --to jaeger-compact --count +1
datagram C 1c PLAIN 00
usage

an empty count
run --listen m --to jaeger-compact --count
last-word
datagram C 1c PLAIN 00
usage

no form
run --listen m --to jaeger --count 1
datagram C 1c PLAIN 00
usage

an option twice
run --listen m --to jaeger-compact --listen m
datagram C 1c PLAIN 00
usage

no count
run --listen m --to jaeger-compact
datagram C 1c PLAIN 00
usage

another option
run --listen m --from jaeger-compact --count 1
datagram C 1c PLAIN 00
usage

a word more
run --listen m --to jaeger-compact --count 1 m
datagram C 1c PLAIN 00
usage
"#;

const KEYS: [&str; 13] = [
    "run",
    "last-word",
    "datagram",
    "post-fails",
    "output-fails",
    "notes-fail",
    "cut",
    "bytes",
    "line",
    "note",
    "status",
    "left",
    "usage",
];

// The words of a row. A word that is empty is told by itself.
fn words_of(alloc: Global, row: &Row) -> Result<Vec<String>, Fail> {
    let mut words = Vec::new(alloc);
    for word in row.text("run")?.split_ascii_whitespace() {
        words.push(String::from_str(alloc, word)?)?;
    }
    if let Some(text) = row.text_if_any("last-word")? {
        words.push(String::from_str(alloc, text)?)?;
    }
    Ok(words)
}

// Adds the datagram that a field tells, if it is one.
#[tactic(auto, using(crate::proofs::MoreDatagrams::one_more))]
fn add_datagram(alloc: Global, datagrams: &mut Items<Blob>, field: &Field) -> Result<(), Fail>
    requires { AreDatagrams datagrams.old }
    ensures { OnOk result (AreDatagrams datagrams.new) }
{
    if field.key() != "datagram" {
        return Ok(());
    }
    datagrams.push(datagram_of(alloc, field.text())?)?;
    Ok(())
}

// The datagrams of a row.
fn datagrams_of(alloc: Global, row: &Row) -> Result<Items<Blob>, Fail>
    ensures { IfOk result (λ datagrams. AreDatagrams datagrams) }
{
    let mut datagrams = Items::new(alloc);
    'fields: for field in row.fields() {
        add_datagram(alloc, &mut datagrams, field)?;
    }
    Ok(datagrams)
}

// The calls that a row tells by a key.
fn calls(alloc: Global, row: &Row, key: &str) -> Result<Items<u64>, Fail> {
    let mut calls = Items::new(alloc);
    for field in row.fields() {
        if field.key() == key {
            calls.push(row.number_in(field.text())?)?;
        }
    }
    Ok(calls)
}

// What a row wants of the output.
fn output_of(alloc: Global, row: &Row) -> Result<Vec<u8>, Fail> {
    let mut bytes = Vec::new(alloc);
    for field in row.fields() {
        match field.key() {
            "bytes" => bytes.extend_from_slice(bytes_of(alloc, field.text())?.as_slice())?,
            "line" => {
                bytes.extend_from_slice(unescaped(alloc, field.text())?.as_slice())?;
                bytes.push(b'\n')?;
            }
            _ => {}
        }
    }
    Ok(bytes)
}

// And of the notes.
fn notes_of(alloc: Global, row: &Row) -> Result<Vec<u8>, Fail> {
    let mut bytes = Vec::new(alloc);
    for field in row.fields() {
        if field.key() == "note" {
            bytes.extend_from_slice(field.text().as_bytes())?;
            bytes.push(b'\n')?;
        }
    }
    if row.text_if_any("usage")?.is_some() {
        bytes.extend_from_slice(b"usage: spanx_agent OPTIONS\n")?;
    }
    Ok(bytes)
}

fn post_of(rt: &impl Abort, alloc: Global, row: &Row) -> Result<MemPost, Fail> {
    let address = Text::of(alloc, "m").expect(rt, "address");
    let datagrams = datagrams_of(alloc, row)?;
    Ok(MemPost::new(address, datagrams, calls(alloc, row, "post-fails")?))
}

fn sink_of(
    rt: &impl Abort,
    alloc: Global,
    row: &Row,
    key: &str,
    cut: usize,
) -> Result<MemSink, Fail> {
    let fails = calls(alloc, row, key)?;
    Ok(MemSink::slow(alloc, 4096, cut, fails).expect(rt, "sink"))
}

// How many datagrams a row tells.
fn datagrams_told(row: &Row) -> u64 {
    let mut told: u64 = 0;
    for field in row.fields() {
        if field.key() == "datagram" {
            told = told.saturating_add(1);
        }
    }
    told
}

// The status that a row wants, and how many datagrams are then left.
#[derive(Clone, Copy, Debug, PartialEq, Eq)]
struct Ending {
    status: u64,
    left: u64,
}

fn ending_of(row: &Row) -> Result<Ending, Fail> {
    if row.text_if_any("usage")?.is_some() {
        return Ok(Ending {
            status: 2,
            left: datagrams_told(row),
        });
    }
    let status = row.number_if_any("status")?.unwrap_or(0);
    let left = row.number_if_any("left")?.unwrap_or(0);
    Ok(Ending { status, left })
}

fn expect_ending(rt: &impl Abort, row: &Row, found: Ending) -> Result<(), Fail> {
    let wanted = ending_of(row)?;
    assert_eq!(rt; found, wanted, "ending of {}", row.name());
    Ok(())
}

fn expect_bytes(rt: &impl Abort, row: &Row, found: &[u8], wanted: &[u8]) {
    assert_eq!(rt; found, wanted, "{}", row.name());
}

fn expect_output(rt: &impl Abort, alloc: Global, row: &Row, found: &[u8]) -> Result<(), Fail> {
    let wanted = output_of(alloc, row)?;
    expect_bytes(rt, row, found, wanted.as_slice());
    Ok(())
}

fn expect_notes(rt: &impl Abort, alloc: Global, row: &Row, found: &[u8]) -> Result<(), Fail> {
    let wanted = notes_of(alloc, row)?;
    expect_bytes(rt, row, found, wanted.as_slice());
    Ok(())
}

// Runs the agent of these words as a row says, and looks at all that it did.
fn runs_as_told(
    rt: &impl Abort,
    alloc: Global,
    row: &Row,
    words: &[String],
    cut: usize,
) -> Result<(), Fail> {
    let mut post = post_of(rt, alloc, row)?;
    let mut output = sink_of(rt, alloc, row, "output-fails", cut)?;
    let mut notes = sink_of(rt, alloc, row, "notes-fail", 4096)?;
    let status = agent_run(alloc, words, &mut post, &mut output, &mut notes);
    let ending = Ending {
        status: u64::from(status),
        left: post.left() as u64,
    };
    expect_ending(rt, row, ending)?;
    expect_output(rt, alloc, row, output.bytes())?;
    expect_notes(rt, alloc, row, notes.bytes())
}

fn expect_run(rt: &impl Abort, alloc: Global, row: &Row) -> Result<(), Fail> {
    row.expect_keys(&KEYS)?;
    let cut = row.number_if_any("cut")?.unwrap_or(4096) as usize;
    let words = words_of(alloc, row)?;
    runs_as_told(rt, alloc, row, words.as_slice(), cut)
}

#[test]
fn runs_the_agent(rt: HostRuntime) -> Result<(), Fail> {
    for row in &rows(rt.alloc(), RUNS)? {
        expect_run(&rt, rt.alloc(), row)?;
    }
    Ok(())
}
