//! Runs of `serve` at two connections, of which each call of the first fails in turn: its answers so far stand, its line is
//! noted, and the second is served.
ghost use Rattle.span_io.specs.Connections.{HasNoFault, HaveNoFault};

use super::servings::{UNREADABLE, door_at, taken_by};
use crate::bench::{Bench, slow_sink, source};
use row_tables::texts::{ANSWERED, POSTED};
use span_io::{Items, MemDuplex};
use std::alloc::Global;
use std::process::Abort;

// The call of each kind that fails, counted from 1. Call 0 never comes.
#[derive(Clone, Copy)]
struct FailingCalls {
    read: u64,
    write: u64,
}

const NONE: FailingCalls = FailingCalls { read: 0, write: 0 };

// A connection that gives these bytes, 50 bytes a call, and takes 3 bytes a call.
fn connection(rt: &impl Abort, alloc: Global, bytes: &[u8], fails: FailingCalls) -> MemDuplex
    ensures { HasNoFault result }
{
    let source = source(rt, alloc, bytes, 50, Some(fails.read));
    MemDuplex::new(source, slow_sink(rt, alloc, 144, Some(fails.write)))
}

// One with calls that fail, and one without.
fn connections(
    rt: &impl Abort,
    alloc: Global,
    bytes: &[u8],
    fails: FailingCalls,
) -> Items<MemDuplex>
    ensures { HaveNoFault result }
{
    let mut conns = Items::new(alloc);
    let Ok(()) = conns.push(connection(rt, alloc, bytes, fails)) else {
        panic!(rt; "no memory");
    };
    let Ok(()) = conns.push(connection(rt, alloc, bytes, NONE)) else {
        panic!(rt; "no memory");
    };
    conns
}

// Serves both, each of which gives two posts.
fn serve_both(rt: &impl Abort, alloc: Global, bench: &mut Bench, fails: FailingCalls) {
    bench.command(rt, alloc, "serve --listen m --to zipkin-json --count 2");
    bench.hold_twice(rt, POSTED.as_bytes());
    let conns = connections(rt, alloc, bench.input.as_slice(), fails);
    bench.door = door_at(rt, alloc, conns, Items::new(alloc));
    bench.run(rt, alloc, 1, UNREADABLE);
}

// Looks at the note, and at how many bytes the first connection took. The second took both answers.
fn expect_served(
    rt: &impl Abort,
    alloc: Global,
    bench: &mut Bench,
    fails: FailingCalls,
    (written, note): (usize, &str),
) {
    bench.wanted.hold(rt, 0, b"", note.as_bytes());
    serve_both(rt, alloc, bench, fails);
    bench.expect_answer(rt, note);
    bench.hold_twice(rt, ANSWERED.as_bytes());
    let FailingCalls { read, write } = fails;
    let answers = bench.input.as_slice();
    let taken = taken_by(&bench.door, 0);
    assert!(rt;
        Some(taken) == answers.get(..written),
        "read {read} and write {write}"
    );
    assert!(rt; taken_by(&bench.door, 1) == answers, "the second");
}

const READ_FAILED: &str = "connection 1: read failed\n";

// The reads that fail, and how many bytes of the answers are taken. The fifth read tells the end, and there is no sixth.
const READS: [(u64, usize, &str); 6] = [
    (1, 0, READ_FAILED),
    (2, 0, READ_FAILED),
    (3, 72, READ_FAILED),
    (4, 72, READ_FAILED),
    (5, 144, READ_FAILED),
    (6, 144, ""),
];

#[test]
fn serves_behind_each_read_that_fails(rt: HostRuntime) {
    let mut bench = Bench::new(&rt, rt.alloc());
    for (read, written, note) in &READS {
        let fails = FailingCalls {
            read: *read,
            write: 0,
        };
        expect_served(&rt, rt.alloc(), &mut bench, fails, (*written, note));
    }
}

// Each answer is taken by 24 writes.
#[test]
fn serves_behind_each_write_that_fails(rt: HostRuntime) {
    let mut bench = Bench::new(&rt, rt.alloc());
    for taken in 0..48_u64 {
        let fails = FailingCalls {
            read: 0,
            write: taken.saturating_add(1),
        };
        let written = taken.saturating_mul(3) as usize;
        let told = (written, "connection 1: write failed\n");
        expect_served(&rt, rt.alloc(), &mut bench, fails, told);
    }
    let behind = FailingCalls { read: 0, write: 49 };
    expect_served(&rt, rt.alloc(), &mut bench, behind, (144, ""));
}
