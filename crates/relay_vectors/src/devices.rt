//! The connections, the door, the keeper and the peer that a row tells.
ghost use Rattle.std.specs.Prelude.{◌≡◌, ◌≤◌, IfOk, OnOk};
ghost use Rattle.span_io.specs.Connections.{HasNoFault, HaveNoFault};
ghost use Rattle.span_spool.specs.Spools.{most_room};

use crate::texts::{bytes_of, form_of, numbers_of, often};
use row_tables::{Field, Row, Words};
use span_io::{Blob, Items, MemDoor, MemDuplex, MemSink, MemSource, Text};
use span_relay::MemPeer;
use span_spool::{Keeper, MemKeeper};
use std::alloc::Global;
use std::process::Abort;
use std::test::Fail;

/// More than most connections give and take.
pub(crate) const WHOLE: usize = 65_536;

/// The numbers that a row tells by a key, in words.
pub(crate) fn calls_of(alloc: Global, row: &Row, key: &str) -> Result<Items<u64>, Fail> {
    let mut calls = Items::new(alloc);
    for word in row.text_if_any(key)?.unwrap_or("").split_ascii_whitespace() {
        calls.push(row.number_in(word)?)?;
    }
    Ok(calls)
}

/// A list of one call, which never comes where it is 0.
pub(crate) fn one_call(rt: &impl Abort, alloc: Global, call: u64) -> Items<u64> {
    let mut calls = Items::new(alloc);
    calls.push(call).expect(rt, "call");
    calls
}

/// The most bytes that a read gives and a write takes, and the read and the write that fails.
#[derive(Clone, Copy)]
pub(crate) struct Course {
    pub(crate) gives: usize,
    pub(crate) takes: usize,
    pub(crate) read: u64,
    pub(crate) write: u64,
}

fn sink_over(rt: &impl Abort, alloc: Global, takes: usize, calls: Items<u64>) -> MemSink
    ensures { result.faults ≡ 0 }
{
    let Ok(sink) = MemSink::slow(alloc, WHOLE, takes, calls) else {
        panic!(rt; "no memory");
    };
    sink
}

/// A connection that gives these bytes.
pub(crate) fn connection(
    rt: &impl Abort,
    alloc: Global,
    bytes: Vec<u8>,
    course: Course,
) -> MemDuplex
    ensures { HasNoFault result }
{
    let read = one_call(rt, alloc, course.read);
    let source = MemSource::new(Blob::from_vec(bytes), course.gives, read);
    let write = one_call(rt, alloc, course.write);
    MemDuplex::new(source, sink_over(rt, alloc, course.takes, write))
}

// The course of a connection of a row whose read and write fail.
fn course_of(row: &Row, read: u64, write: u64) -> Result<Course, Fail> {
    let gives = row.number_if_any("gives")?.unwrap_or(WHOLE as u64);
    let takes = row.number_if_any("takes")?.unwrap_or(WHOLE as u64);
    Ok(Course {
        gives: gives as usize,
        takes: takes as usize,
        read,
        write,
    })
}

/// The connection that a field tells: what it gives, and in front of that the read and the write that fails, where its key
/// is `broken`.
pub(crate) fn connection_of(
    rt: &impl Abort,
    alloc: Global,
    row: &Row,
    field: &Field,
) -> Result<MemDuplex, Fail>
    ensures { IfOk result (λ conn. HasNoFault conn) }
{
    let mut words = Words::of(field.text());
    let mut read = 0;
    let mut write = 0;
    if field.key() == "broken" {
        read = row.number_in(words.word())?;
        write = row.number_in(words.word())?;
    }
    let course = course_of(row, read, write)?;
    let bytes = bytes_of(alloc, row, words.rest())?;
    Ok(connection(rt, alloc, bytes, course))
}

// Adds the connection that a field tells, if it tells one.
#[tactic(auto, using(crate::proofs::MoreConnections::one_more))]
fn add_connection(
    rt: &impl Abort,
    alloc: Global,
    row: &Row,
    conns: &mut Items<MemDuplex>,
    field: &Field,
) -> Result<(), Fail>
    requires { HaveNoFault conns.old }
    ensures { OnOk result (HaveNoFault conns.new) }
{
    if field.key() != "stream" && field.key() != "broken" {
        return Ok(());
    }
    conns.push(connection_of(rt, alloc, row, field)?)?;
    Ok(())
}

// The connections of a row.
fn connections_of(rt: &impl Abort, alloc: Global, row: &Row) -> Result<Items<MemDuplex>, Fail>
    ensures { IfOk result (λ conns. HaveNoFault conns) }
{
    let mut conns = Items::new(alloc);
    'fields: for field in row.fields() {
        add_connection(rt, alloc, row, &mut conns, field)?;
    }
    Ok(conns)
}

/// A door at `m`, at which the connections of a row wait.
pub(crate) fn door_of(rt: &impl Abort, alloc: Global, row: &Row) -> Result<MemDoor, Fail> {
    let fails = calls_of(alloc, row, "door-fails")?;
    let conns = connections_of(rt, alloc, row)?;
    let address = Text::of(alloc, "m").expect(rt, "address");
    Ok(MemDoor::new(alloc, address, conns, fails).expect(rt, "door"))
}

/// The notes.
pub(crate) fn notes_of(rt: &impl Abort, alloc: Global, row: &Row) -> Result<MemSink, Fail> {
    let fails = calls_of(alloc, row, "notes-fail")?;
    Ok(MemSink::slow(alloc, 4096, 4096, fails).expect(rt, "notes"))
}

// Adds a status as often as a word says.
fn add_statuses(row: &Row, statuses: &mut Items<u16>, word: &str) -> Result<(), Fail> {
    let (status, times) = often(row, word)?;
    let Ok(status) = u16::try_from(row.number_in(status)?) else {
        return Err(row.fail("no status", word));
    };
    for _time in 0..times {
        statuses.push(status)?;
    }
    Ok(())
}

fn statuses_of(alloc: Global, row: &Row) -> Result<Items<u16>, Fail> {
    let mut statuses = Items::new(alloc);
    for word in row
        .text_if_any("answers")?
        .unwrap_or("")
        .split_ascii_whitespace()
    {
        add_statuses(row, &mut statuses, word)?;
    }
    Ok(statuses)
}

/// A peer that answers as a row says.
pub(crate) fn peer_of(alloc: Global, row: &Row) -> Result<MemPeer, Fail> {
    let statuses = statuses_of(alloc, row)?;
    let fails = calls_of(alloc, row, "peer-fails")?;
    Ok(MemPeer::new(alloc, statuses, fails))
}

// The room that a row tells, which is room for a keeper.
fn room_of(row: &Row) -> Result<u64, Fail>
    ensures { IfOk result (λ room. (1 ≤ room) × (room ≤ most_room)) }
{
    let room = row.number_if_any("room")?.unwrap_or(1_024);
    if room < 1 || room > 1_000_000 {
        return Err(row.fail("no room", "room"));
    }
    Ok(room)
}

// Has a body kept under these numbers.
fn keep_told<K: Keeper>(
    row: &Row,
    keeper: &mut K,
    word: &str,
    form: &str,
    body: &[u8],
) -> Result<(), Fail> {
    let (first, last) = numbers_of(row, word)?;
    let form = form_of(row, form)?;
    for number in first..last.saturating_add(1) {
        if keeper.keep(form, body) != Ok(number) {
            return Err(row.fail("not kept", word));
        }
    }
    Ok(())
}

/// Has the bodies kept that a row tells as kept before.
pub(crate) fn fill<K: Keeper>(alloc: Global, row: &Row, keeper: &mut K) -> Result<(), Fail> {
    for field in row.fields() {
        if field.key() == "kept" {
            let mut words = Words::of(field.text());
            let numbers = words.word();
            let form = words.word();
            let body = bytes_of(alloc, row, words.rest())?;
            keep_told(row, keeper, numbers, form, body.as_slice())?;
        }
    }
    Ok(())
}

/// A keeper in memory with the room of a row, which holds what was kept before.
pub(crate) fn keeper_of(alloc: Global, row: &Row) -> Result<MemKeeper, Fail> {
    let room = room_of(row)?;
    let mut keeper = MemKeeper::new(alloc, room, calls_of(alloc, row, "keeper-fails")?);
    fill(alloc, row, &mut keeper)?;
    Ok(keeper)
}
