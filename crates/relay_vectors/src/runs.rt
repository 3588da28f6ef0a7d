//! Runs of the relay over a keeper, a peer and notes in memory, at a door in memory, which is at `m`.
mod failing;
mod words;

use crate::devices::{door_of, keeper_of, notes_of, peer_of};
use crate::spent::SpentKeeper;
use crate::texts::spelled;
use crate::told::{are_left, are_notes, are_rounds, are_sent, are_taken, expect};
use row_tables::{Row, row_named, rows, unescaped};
use span_io::{DoorCourse, Items, MemDoor, MemSink};
use span_relay::{MemPeer, Round, relay_run};
use span_spool::Keeper;
use std::alloc::Global;
use std::process::Abort;
use std::test::Fail;

// The words; of each connection what it gives, or behind `broken` the read and the write that fails and what it gives; the room
// of the keeper and the rows that it holds before; the statuses that the peer answers with; the calls of the keeper, the peer,
// the door and the notes that fail. Then what each connection took that was given back; of each how many bodies left after it and
// its outcomes; what the peer got, each body with its status and its address; the rows of the keeper, the lines of the notes, the
// status, and how many connections still wait.
const RUNS: &str = r#"
a peer that takes the body
run --listen m --to zipkin-json --peer p:1 --count 1
stream @POSTED
answers 202
took @KEPT
round 1 true
sent 202 p:1 zipkin-json []

a peer that doesn't
run --listen m --to zipkin-json --peer p:1 --count 1
stream @POSTED
answers 500
took @KEPT
round 0 true
sent 500 p:1 zipkin-json []
left 1 zipkin-json []
note connection 1: peer answered 500
note left 1
status 8

a status below those that take it
run --listen m --to zipkin-json --peer p:1 --count 1
stream @POSTED
answers 199
took @KEPT
round 0 true
sent 199 p:1 zipkin-json []
left 1 zipkin-json []
note connection 1: peer answered 199
note left 1
status 8

a status above
run --listen m --to zipkin-json --peer p:1 --count 1
stream @POSTED
answers 300
took @KEPT
round 0 true
sent 300 p:1 zipkin-json []
left 1 zipkin-json []
note connection 1: peer answered 300
note left 1
status 8

a status before the answer
run --listen m --to zipkin-json --peer p:1 --count 1
stream @POSTED
answers 100
took @KEPT
round 0 true
sent 100 p:1 zipkin-json []
left 1 zipkin-json []
note connection 1: peer answered 100
note left 1
status 8

a peer that asks to come again
run --listen m --to zipkin-json --peer p:1 --count 1
stream @POSTED
answers 503
took @KEPT
round 0 true
sent 503 p:1 zipkin-json []
left 1 zipkin-json []
note connection 1: peer answered 503
note left 1
status 8

the least status
run --listen m --to zipkin-json --peer p:1 --count 1
stream @POSTED
answers 0
took @KEPT
round 0 true
sent 0 p:1 zipkin-json []
left 1 zipkin-json []
note connection 1: peer answered 0
note left 1
status 8

the largest status
run --listen m --to zipkin-json --peer p:1 --count 1
stream @POSTED
answers 65535
took @KEPT
round 0 true
sent 65535 p:1 zipkin-json []
left 1 zipkin-json []
note connection 1: peer answered 65535
note left 1
status 8

the lowest status that takes it
run --listen m --to zipkin-json --peer p:1 --count 1
stream @POSTED
answers 200
took @KEPT
round 1 true
sent 200 p:1 zipkin-json []

the highest
run --listen m --to zipkin-json --peer p:1 --count 1
stream @POSTED
answers 299
took @KEPT
round 1 true
sent 299 p:1 zipkin-json []

two bodies of which the second stays
run --listen m --to zipkin-json --peer p:1 --count 1
stream @POSTED*2
answers 202 503
took @KEPT*2
round 1 true*2
sent 202 p:1 zipkin-json []
sent 503 p:1 zipkin-json []
left 2 zipkin-json []
note connection 1: peer answered 503
note left 1
status 8

two connections
run --listen m --to zipkin-json --peer p:1 --count 2
stream @POSTED
stream @POSTED*2
answers 202*3
took @KEPT
took @KEPT*2
round 1 true
round 2 true*2
sent 202*3 p:1 zipkin-json []

a body that is sent again after the next connection
run --listen m --to zipkin-json --peer p:1 --count 2
stream @SPAN_HEAD @OPEN @ONE_ZIPKIN_SPAN
stream @POSTED
answers 503 202 202
took @KEPT
took @KEPT
round 0 true
round 2 true
sent 503 p:1 zipkin-json @ONE_ZIPKIN_SPAN
sent 202 p:1 zipkin-json @ONE_ZIPKIN_SPAN
sent 202 p:1 zipkin-json []
note connection 1: peer answered 503

a body that is sent again after a connection of nothing
run --listen m --to zipkin-json --peer p:1 --count 2
stream @POSTED
stream
answers 503 202
took @KEPT
took
round 0 true
round 1
sent 503 p:1 zipkin-json []
sent 202 p:1 zipkin-json []
note connection 1: peer answered 503

three connections whose bodies stay
run --listen m --to zipkin-json --peer p:1 --count 3
stream @SPAN_HEAD @OPEN @ONE_ZIPKIN_SPAN
stream @POSTED
stream @POSTED*2
answers 503 300 199
took @KEPT
took @KEPT
took @KEPT*2
round 0 true
round 0 true
round 0 true*2
sent 503 p:1 zipkin-json @ONE_ZIPKIN_SPAN
sent 300 p:1 zipkin-json @ONE_ZIPKIN_SPAN
sent 199 p:1 zipkin-json @ONE_ZIPKIN_SPAN
left 1 zipkin-json @ONE_ZIPKIN_SPAN
left 2..4 zipkin-json []
note connection 1: peer answered 503
note connection 2: peer answered 300
note connection 3: peer answered 199
note left 4
status 8

three connections between which bodies stay
run --listen m --to zipkin-json --peer p:1 --count 3
stream @SPAN_HEAD @OPEN @ONE_ZIPKIN_SPAN @POSTED
stream @POSTED
stream @POSTED
answers 202 503 202 500 202*2
took @KEPT*2
took @KEPT
took @KEPT
round 1 true*2
round 1 true
round 2 true
sent 202 p:1 zipkin-json @ONE_ZIPKIN_SPAN
sent 503 p:1 zipkin-json []
sent 202 p:1 zipkin-json []
sent 500 p:1 zipkin-json []
sent 202*2 p:1 zipkin-json []
note connection 1: peer answered 503
note connection 2: peer answered 500

bodies that were kept before leave first
run --listen m --to zipkin-json --peer p:1 --count 1
kept 1..2 otlp-json {}
stream @POSTED
answers 200*2 202
took @KEPT
round 3 true
sent 200*2 p:1 otlp-json {}
sent 202 p:1 zipkin-json []

no more than 1,000 bodies leave in a round
run --listen m --to zipkin-json --peer p:1 --count 1
kept 1..1000 zipkin-json []
stream @POSTED
answers 202*1001
took @KEPT
round 1000 true
sent 202*1000 p:1 zipkin-json []
left 1001 zipkin-json []
note left 1
status 8

as many as leave in a round
run --listen m --to zipkin-json --peer p:1 --count 1
kept 1..999 zipkin-json []
stream @POSTED
answers 202*1001
took @KEPT
round 1000 true
sent 202*1000 p:1 zipkin-json []

bodies between which others are bad
run --listen m --to zipkin-json --peer p:1 --count 1
stream @POSTED_OBJECT @POSTED @POSTED_OBJECT @POSTED @POSTED_OBJECT
answers 202*2
took @REFUSED_OBJECT @KEPT @REFUSED_OBJECT @KEPT @REFUSED_OBJECT
round 2 true*2
sent 202*2 p:1 zipkin-json []

64 posts in one piece of which three are bad
run --listen m --to zipkin-json --peer p:1 --count 1
stream @POSTED*2 @POSTED_OBJECT @POSTED @POSTED_OBJECT @POSTED*58 @POSTED_OBJECT
answers 202*61
took @KEPT*2 @REFUSED_OBJECT @KEPT @REFUSED_OBJECT @KEPT*58 @REFUSED_OBJECT
round 61 true*61
sent 202*61 p:1 zipkin-json []

nothing that is good
run --listen m --to zipkin-json --peer p:1 --count 2
stream @POSTED_OBJECT
stream
took @REFUSED_OBJECT
took
round 0
round 0

a request in protobuf
run --listen m --to otlp-proto --peer p:1 --count 1
stream @SPAN_HEAD @OPEN @ONE_ZIPKIN_SPAN
answers 200
took @KEPT
round 1 true
sent 200 p:1 otlp-proto #ZIPKIN_REQUEST

a request in JSON
run --listen m --to otlp-json --peer p:1 --count 1
stream @SPAN_HEAD @OPEN @ONE_ZIPKIN_SPAN
answers 200
took @KEPT
round 1 true
sent 200 p:1 otlp-json {"resourceSpans":[{"scopeSpans":[{"spans":[{"kind":1,"name":"a","spanId":"0000000000000002",
 "traceId":"00000000000000000000000000000001"}]}]}]}

a batch of Jaeger
run --listen m --to jaeger-binary --peer p:1 --count 1
stream @BATCH_HEAD @OPEN #SDK_BATCH
answers 202
took @KEPT
round 1 true
sent 202 p:1 jaeger-binary #SDK_BATCH
"#;

// A run over a keeper whose numbers are spent.
const SPENT: &str = r"
two connections
run --listen m --to zipkin-json --peer p:1 --count 2
stream @POSTED @POSTED_OBJECT
stream @POSTED
answers 202
took @NOT_KEPT @REFUSED_OBJECT
took @NOT_KEPT
round 0 false
round 0 false
";

const KEYS: [&str; 22] = [
    "run",
    "last-word",
    "stream",
    "broken",
    "gives",
    "takes",
    "room",
    "kept",
    "keeper-fails",
    "answers",
    "peer-fails",
    "door-fails",
    "notes-fail",
    "took",
    "round",
    "sent",
    "left",
    "note",
    "note-front",
    "status",
    "waiting",
    "usage",
];

// Adds the words of a text, which blanks part.
fn add_words(alloc: Global, row: &Row, words: &mut Vec<String>, text: &str) -> Result<(), Fail> {
    for word in text.split_ascii_whitespace() {
        words.push(spelled(alloc, row, word)?)?;
    }
    Ok(())
}

// One word, which is told with escapes.
fn escaped(alloc: Global, row: &Row, text: &str) -> Result<String, Fail> {
    match String::from_utf8(unescaped(alloc, text)?) {
        Ok(word) => Ok(word),
        Err(_) => Err(row.fail("no UTF-8", text)),
    }
}

// The words of a row. A word that is empty, or has other characters, is told by itself.
fn words_of(alloc: Global, row: &Row) -> Result<Vec<String>, Fail> {
    let mut words = Vec::new(alloc);
    add_words(alloc, row, &mut words, row.text("run")?)?;
    if let Some(text) = row.text_if_any("last-word")? {
        words.push(escaped(alloc, row, text)?)?;
    }
    Ok(words)
}

fn is_told(row: &Row, key: &str) -> bool {
    for field in row.fields() {
        if field.key() == key {
            return true;
        }
    }
    false
}

// How the calls of a door went that a run of this status left: none came behind a failed one.
fn course_behind(status: u64) -> DoorCourse {
    match status {
        0 | 8 => DoorCourse::Listening,
        5 => DoorCourse::Stopped,
        _ => DoorCourse::Fresh,
    }
}

// Whether a run ended with the status of a row, and left the door as it says.
fn is_ended(row: &Row, status: u8, door: &MemDoor) -> Result<bool, Fail> {
    let status = u64::from(status);
    let wanted = row
        .number_if_any("status")?
        .unwrap_or(if is_told(row, "usage") { 2 } else { 0 });
    let waiting = row
        .number_if_any("waiting")?
        .unwrap_or(if is_told(row, "usage") { 1 } else { 0 });
    Ok(
        status == wanted
            && door.waiting() as u64 == waiting
            && door.course() == course_behind(status),
    )
}

// Looks at what a run did, but for the rows of the keeper.
fn expect_ended(
    rt: &impl Abort,
    alloc: Global,
    row: &Row,
    status: u8,
    door: &MemDoor,
    peer: &MemPeer,
    notes: &MemSink,
    rounds: &[Round],
) -> Result<(), Fail> {
    expect(rt, row, "end", is_ended(row, status, door)?);
    expect(rt, row, "notes", are_notes(row, notes.bytes()));
    expect(rt, row, "rounds", are_rounds(row, rounds)?);
    expect(rt, row, "sent", are_sent(alloc, row, peer.sent())?);
    expect(rt, row, "answers", are_taken(alloc, row, door.closed())?);
    Ok(())
}

// Runs the relay.
fn relayed<K: Keeper>(
    alloc: Global,
    words: &[String],
    keeper: &mut K,
    peer: &mut MemPeer,
    notes: &mut MemSink,
    door: &mut MemDoor,
    rounds: &mut Items<Round>,
) -> u8 {
    relay_run(alloc, words, keeper, peer, notes, door, rounds)
}

// Runs the relay of these words as a row says, and looks at what it did.
fn runs_as_told<K: Keeper>(
    rt: &impl Abort,
    alloc: Global,
    row: &Row,
    words: &[String],
    keeper: &mut K,
) -> Result<(), Fail> {
    let mut peer = peer_of(alloc, row)?;
    let mut notes = notes_of(rt, alloc, row)?;
    let mut door = door_of(rt, alloc, row)?;
    let mut rounds = Items::new(alloc);
    let status = relayed(
        alloc,
        words,
        keeper,
        &mut peer,
        &mut notes,
        &mut door,
        &mut rounds,
    );
    expect_ended(
        rt,
        alloc,
        row,
        status,
        &door,
        &peer,
        &notes,
        rounds.as_slice(),
    )
}

// The same of a row's own words.
fn expect_over<K: Keeper>(
    rt: &impl Abort,
    alloc: Global,
    row: &Row,
    keeper: &mut K,
) -> Result<(), Fail> {
    row.expect_keys(&KEYS)?;
    let words = words_of(alloc, row)?;
    runs_as_told(rt, alloc, row, words.as_slice(), keeper)
}

// The same over the keeper of the row, with the rows that are left in it.
fn expect_run(rt: &impl Abort, alloc: Global, row: &Row) -> Result<(), Fail> {
    let mut keeper = keeper_of(alloc, row)?;
    expect_over(rt, alloc, row, &mut keeper)?;
    expect(rt, row, "rows", are_left(alloc, row, keeper.rows())?);
    Ok(())
}

#[test]
fn runs_the_relay(rt: HostRuntime) -> Result<(), Fail> {
    for row in &rows(rt.alloc(), RUNS)? {
        expect_run(&rt, rt.alloc(), row)?;
    }
    Ok(())
}

#[test]
fn keeps_nothing_without_a_number(rt: HostRuntime) -> Result<(), Fail> {
    let row = row_named(rt.alloc(), SPENT, "two connections")?;
    expect_over(&rt, rt.alloc(), &row, &mut SpentKeeper {})
}
