//! Connections of which each read and each write fails in turn: how serving ends, and which answers stand then.
use super::SERVED;
use crate::texts::joined;
use row_tables::row_named;
use span_gateway::{Ended, ServeFault, serve_connection};
use span_io::{Blob, Form, Items, Limits, MemDuplex, MemSink, MemSource, OutOfMemory};
use std::alloc::Global;
use std::process::Abort;
use std::test::Fail;

/// Three requests of 93, 93 and 117 bytes, and their answers, of 72, 72 and 58.
#[derive(Drop)]
struct Exchange {
    bytes: Blob,
    answers: Blob,
}

fn three_requests(alloc: Global) -> Result<Exchange, Fail> {
    let row = row_named(alloc, SERVED, "two requests and one that isn't read")?;
    let bytes = joined(alloc, &row, "stream")?;
    let answers = joined(alloc, &row, "written")?;
    Ok(Exchange { bytes, answers })
}

/// The most bytes that a read gives and a write takes, and the read and the write that fails. They are counted from 1, and
/// call 0 never comes.
#[derive(Clone, Copy)]
struct Devices {
    gives: usize,
    takes: usize,
    read: u64,
    write: u64,
}

// A list of one call.
fn failing(alloc: Global, call: u64) -> Result<Items<u64>, OutOfMemory> {
    let mut calls = Items::new(alloc);
    calls.push(call)?;
    Ok(calls)
}

fn connection(alloc: Global, bytes: &[u8], devices: Devices) -> Result<MemDuplex, OutOfMemory> {
    let mut left = Blob::new(alloc);
    left.append(bytes)?;
    let source = MemSource::new(left, devices.gives, failing(alloc, devices.read)?);
    let fails = failing(alloc, devices.write)?;
    let sink = MemSink::slow(alloc, 202, devices.takes, fails)?;
    Ok(MemDuplex::new(source, sink))
}

// Serves the stream, and looks at how that ends and at how many bytes of the answers were taken.
fn expect_served(
    rt: &impl Abort,
    alloc: Global,
    exchange: &Exchange,
    devices: Devices,
    (ended, written): Told,
) -> Result<(), Fail> {
    let mut conn = connection(alloc, exchange.bytes.as_slice(), devices)?;
    let answer = serve_connection(alloc, &mut conn, Form::ZipkinJson, &Limits::shipped());
    let Devices {
        gives,
        takes,
        read,
        write,
    } = devices;
    assert!(rt;
        answer == ended,
        "pieces of {gives} and {takes}, calls {read} and {write}"
    );
    let answers = exchange.answers.as_slice().get(..written);
    assert!(rt;
        Some(conn.written()) == answers,
        "answers of pieces of {gives} and {takes}, calls {read} and {write}"
    );
    Ok(())
}

/// How serving ends, and how many bytes of the answers were taken.
type Told = (Result<Ended, ServeFault>, usize);

const SERVED_WHOLE: Told = (Ok(Ended::Closed), 202);

// The most bytes that a read gives, and how many reads there are. The last one tells the end.
const READS: [(usize, u64); 5] = [(1, 304), (2, 153), (50, 8), (93, 5), (4_096, 2)];

// What is told where a read fails: the requests that ended in the bytes before it have their answers.
fn behind_read(gives: usize, read: u64) -> Told {
    let answered = match gives.saturating_mul(read.saturating_sub(1) as usize) {
        0..93 => 0,
        93..186 => 72,
        186..303 => 144,
        _ => 202,
    };
    (Err(ServeFault::Read), answered)
}

fn expect_read(
    rt: &impl Abort,
    alloc: Global,
    exchange: &Exchange,
    (gives, read, told): (usize, u64, Told),
) -> Result<(), Fail> {
    let devices = Devices {
        gives,
        takes: 4_096,
        read,
        write: 0,
    };
    expect_served(rt, alloc, exchange, devices, told)
}

// Serves with each read failing in turn, and with one behind the last.
fn expect_reads(
    rt: &impl Abort,
    alloc: Global,
    exchange: &Exchange,
    gives: usize,
    reads: u64,
) -> Result<(), Fail> {
    for read in 0..reads {
        let read = read.saturating_add(1);
        expect_read(rt, alloc, exchange, (gives, read, behind_read(gives, read)))?;
    }
    let read = reads.saturating_add(1);
    expect_read(rt, alloc, exchange, (gives, read, SERVED_WHOLE))
}

#[test]
fn fails_with_each_read(rt: HostRuntime) -> Result<(), Fail> {
    let exchange = three_requests(rt.alloc())?;
    for (gives, reads) in &READS {
        expect_reads(&rt, rt.alloc(), &exchange, *gives, *reads)?;
    }
    Ok(())
}

// The most bytes that a write takes, and how many writes there are.
const WRITES: [(usize, u64); 4] = [(1, 202), (3, 68), (72, 3), (4_096, 3)];

// How many bytes are taken behind a write, where so many were before it. Each answer is written by itself.
fn behind_write(takes: usize, taken: usize) -> usize {
    let end = match taken {
        0..72 => 72,
        72..144 => 144,
        _ => 202,
    };
    taken.saturating_add(takes).min(end)
}

fn expect_write(
    rt: &impl Abort,
    alloc: Global,
    exchange: &Exchange,
    (takes, write, told): (usize, u64, Told),
) -> Result<(), Fail> {
    let devices = Devices {
        gives: 50,
        takes,
        read: 0,
        write,
    };
    expect_served(rt, alloc, exchange, devices, told)
}

// Serves with each write failing in turn, and with one behind the last. What was taken before stays.
fn expect_writes(
    rt: &impl Abort,
    alloc: Global,
    exchange: &Exchange,
    takes: usize,
    writes: u64,
) -> Result<(), Fail> {
    let mut taken = 0;
    for write in 0..writes {
        let told = (Err(ServeFault::Write), taken);
        expect_write(rt, alloc, exchange, (takes, write.saturating_add(1), told))?;
        taken = behind_write(takes, taken);
    }
    let write = writes.saturating_add(1);
    expect_write(rt, alloc, exchange, (takes, write, SERVED_WHOLE))
}

#[test]
fn fails_with_each_write(rt: HostRuntime) -> Result<(), Fail> {
    let exchange = three_requests(rt.alloc())?;
    for (takes, writes) in &WRITES {
        expect_writes(&rt, rt.alloc(), &exchange, *takes, *writes)?;
    }
    Ok(())
}
