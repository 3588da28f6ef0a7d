//! Runs of `serve` at a door in memory, at which two equal connections wait.
ghost use Rattle.span_io.specs.Connections.{HasNoFault, HaveNoFault};

use crate::bench::{Bench, Fails, WHOLE, sink, source};
use crate::told::append_line;
use row_tables::{Row, rows};
use span_io::{DoorCourse, Items, MemDoor, MemDuplex, Text};
use std::alloc::Global;
use std::process::Abort;
use std::test::Fail;

// The door is at `m`. Told are the words, what each connection gives, the read and the write of each and the calls of the
// door that fail, and what each connection took that was given back.
const SERVINGS: &str = r#"
one connection
run serve --listen m --to zipkin-json --count 1
stream @POSTED
answer @ANSWERED

two connections
run serve --listen m --to zipkin-json --count 2
stream @POSTED
answer @ANSWERED
answer @ANSWERED

one more than wait
run serve --listen m --to zipkin-json --count 3
stream @POSTED
answer @ANSWERED
answer @ANSWERED
stops 5 door failed

a door that doesn't listen
run serve --listen m --to zipkin-json --count 1
stream @POSTED
door-fails 1
stops 5 door failed

another address
run serve --listen n --to zipkin-json --count 1
stream @POSTED
stops 5 door failed

a door that gives no connection
run serve --listen m --to zipkin-json --count 2
stream @POSTED
door-fails 2
stops 5 door failed

a door that isn't asked again when it didn't listen
run serve --listen m --to zipkin-json --count 2
stream @POSTED
door-fails 1
door-fails 2
stops 5 door failed

a door that isn't asked again when it gave no connection
run serve --listen m --to zipkin-json --count 2
stream @POSTED
door-fails 2
door-fails 3
stops 5 door failed

a door whose failing call never comes
run serve --listen m --to zipkin-json --count 2
stream @POSTED
door-fails 4
answer @ANSWERED
answer @ANSWERED

a door that gives one connection
run serve --listen m --to zipkin-json --count 2
stream @POSTED
door-fails 3
answer @ANSWERED
stops 5 door failed

connections that fail to give
run serve --listen m --to zipkin-json --count 2
stream @POSTED
reads-fail 1
answer
answer
note-lines connection 1: read failed\nconnection 2: read failed\n

connections that fail to take
run serve --listen m --to zipkin-json --count 2
stream @POSTED
writes-fail 1
answer
answer
note-lines connection 1: write failed\nconnection 2: write failed\n

a connection that fails, and then the door
run serve --listen m --to zipkin-json --count 2
stream @POSTED
reads-fail 2
door-fails 3
status 5
answer @ANSWERED
note-lines connection 1: read failed\ndoor failed\n

a body with a cause
run serve --listen m --to zipkin-json --count 1
stream @POSTED_OBJECT
answer @REFUSED_OBJECT

no post
run serve --listen m --to zipkin-json --count 1
stream GET /v1/traces HTTP/1.1\r\nHost: x\r\n\r\n
answer HTTP/1.1 405 Method Not Allowed\r\nContent-Length: 0\r\n\r\n

a stream of nothing
run serve --listen m --to zipkin-json --count 1
stream
answer

the count first
run serve --count 1 --listen m --to zipkin-json
stream @POSTED
answer @ANSWERED

the form first
run serve --to zipkin-json --count 1 --listen m
stream @POSTED
answer @ANSWERED

the form first and the count last
run serve --to zipkin-json --listen m --count 1
stream @POSTED
answer @ANSWERED

no connection
run serve --listen m --to zipkin-json --count 0
stream @POSTED
stops 2 usage: spanx convert|losses|show|check|headers|gauge|serve OPTIONS

a zero in front
run serve --listen m --to zipkin-json --count 01
stream @POSTED
stops 2 usage: spanx convert|losses|show|check|headers|gauge|serve OPTIONS

a sign
run serve --listen m --to zipkin-json --count +1
stream @POSTED
stops 2 usage: spanx convert|losses|show|check|headers|gauge|serve OPTIONS

more than 32 bits
run serve --listen m --to zipkin-json --count 4294967296
stream @POSTED
stops 2 usage: spanx convert|losses|show|check|headers|gauge|serve OPTIONS

an empty count
run serve --listen m --to zipkin-json --count
last-word
stream @POSTED
stops 2 usage: spanx convert|losses|show|check|headers|gauge|serve OPTIONS

no form
run serve --listen m --to zipkin --count 1
stream @POSTED
stops 2 usage: spanx convert|losses|show|check|headers|gauge|serve OPTIONS

an option twice
run serve --listen m --to zipkin-json --listen m
stream @POSTED
stops 2 usage: spanx convert|losses|show|check|headers|gauge|serve OPTIONS

no count
run serve --listen m --to zipkin-json
stream @POSTED
stops 2 usage: spanx convert|losses|show|check|headers|gauge|serve OPTIONS
"#;

// The first read fails, so that an answer shows that nothing was read.
pub(super) const UNREADABLE: Fails = Fails {
    input: Some(1),
    output: None,
    notes: None,
};

const KEYS: [&str; 11] = [
    "run",
    "last-word",
    "stream",
    "reads-fail",
    "writes-fail",
    "door-fails",
    "stops",
    "status",
    "answer",
    "note",
    "note-lines",
];

// A connection that gives these bytes, of which a read and a write fail.
fn connection(
    rt: &impl Abort,
    alloc: Global,
    bytes: &[u8],
    read: Option<u64>,
    write: Option<u64>,
) -> MemDuplex
    ensures { HasNoFault result }
{
    let source = source(rt, alloc, bytes, WHOLE, read);
    MemDuplex::new(source, sink(rt, alloc, 4096, write))
}

// Two equal connections.
fn connections(
    rt: &impl Abort,
    alloc: Global,
    bytes: &[u8],
    read: Option<u64>,
    write: Option<u64>,
) -> Items<MemDuplex>
    ensures { HaveNoFault result }
{
    let mut conns = Items::new(alloc);
    let Ok(()) = conns.push(connection(rt, alloc, bytes, read, write)) else {
        panic!(rt; "no memory");
    };
    let Ok(()) = conns.push(connection(rt, alloc, bytes, read, write)) else {
        panic!(rt; "no memory");
    };
    conns
}

// The calls of a door that fail.
fn door_fails(alloc: Global, row: &Row) -> Result<Items<u64>, Fail> {
    let mut calls = Items::new(alloc);
    for field in row.fields() {
        if field.key() == "door-fails" {
            calls.push(row.number_in(field.text())?)?;
        }
    }
    Ok(calls)
}

pub(super) fn door_at(
    rt: &impl Abort,
    alloc: Global,
    conns: Items<MemDuplex>,
    calls: Items<u64>,
) -> MemDoor
    requires { HaveNoFault conns }
{
    let address = Text::of(alloc, "m").expect(rt, "address");
    MemDoor::new(alloc, address, conns, calls).expect(rt, "door")
}

// Puts the door of a row into the bench, whose input is what each of its connections gives.
fn read_door(rt: &impl Abort, alloc: Global, bench: &mut Bench, row: &Row) -> Result<(), Fail> {
    bench.input.clear();
    append_line(alloc, row.text("stream")?, &mut bench.input)?;
    let read = row.number_if_any("reads-fail")?;
    let write = row.number_if_any("writes-fail")?;
    let calls = door_fails(alloc, row)?;
    let conns = connections(rt, alloc, bench.input.as_slice(), read, write);
    bench.door = door_at(rt, alloc, conns, calls);
    Ok(())
}

// How the calls of a door went that a run of this status left: none came behind a failed one.
fn course_behind(status: u64) -> DoorCourse {
    match status {
        0 => DoorCourse::Listening,
        5 => DoorCourse::Stopped,
        _ => DoorCourse::Fresh,
    }
}

// Looks at how the calls of the door went, and at where its two connections are. As many were given back as are told.
fn expect_door(rt: &impl Abort, name: &str, door: &MemDoor, status: u64, told: usize) {
    let closed = door.closed().len();
    let left = door.waiting();
    assert!(rt; door.course() == course_behind(status), "course of {name}");
    assert!(rt; left.saturating_add(closed) == 2, "left at {name}");
    assert!(rt; closed == told, "connections of {name}");
}

// What a connection took that was given back, or nothing where no more were.
pub(super) fn taken_by(door: &MemDoor, place: usize) -> &[u8] {
    match door.closed().get(place) {
        Some(conn) => conn.written(),
        None => &[],
    }
}

// Looks at what the connections took that were given back, and answers how many are told.
fn expect_taken(
    rt: &impl Abort,
    alloc: Global,
    bench: &mut Bench,
    row: &Row,
) -> Result<usize, Fail> {
    let mut count = 0_usize;
    for field in row.fields() {
        if field.key() != "answer" {
            continue;
        }
        bench.input.clear();
        append_line(alloc, field.text(), &mut bench.input)?;
        let taken = taken_by(&bench.door, count);
        assert!(rt;
            taken == bench.input.as_slice(),
            "answers of {}",
            row.name()
        );
        count = count.saturating_add(1);
    }
    Ok(count)
}

// Serves at the door of a row, and looks at the answer and at the connections.
fn expect_serving(
    rt: &impl Abort,
    alloc: Global,
    bench: &mut Bench,
    row: &Row,
) -> Result<(), Fail> {
    row.expect_keys(&KEYS)?;
    bench.read_words(rt, alloc, row)?;
    bench.read_ending(alloc, row)?;
    read_door(rt, alloc, bench, row)?;
    bench.run(rt, alloc, 1, UNREADABLE);
    bench.expect_answer(rt, row.name());
    let told = expect_taken(rt, alloc, bench, row)?;
    expect_door(rt, row.name(), &bench.door, bench.wanted.status, told);
    Ok(())
}

#[test]
fn serves(rt: HostRuntime) -> Result<(), Fail> {
    let mut bench = Bench::new(&rt, rt.alloc());
    for row in &rows(rt.alloc(), SERVINGS)? {
        expect_serving(&rt, rt.alloc(), &mut bench, row)?;
    }
    Ok(())
}
