//! A sink in memory, for tests and rows.
ghost use Rattle.std.specs.Prelude.{◌≡◌, ◌<◌, ◌≤◌, ◌↔◌, [], length, min, take, IfOk, OnErr, IsOk, IsErr, Ok, Err};
ghost use Rattle.span_io.specs.Courses.{course_of_writes, write_next};
ghost use Rattle.span_io.specs.Outside.{Rose, Takes, Gains, counted};
ghost use Rattle.span_io.specs.Memory.{fresh_sink, outlet_of, Refuses, CountsFault};

use crate::course::WriteCourse;
use crate::halt::OutOfMemory;
use crate::items::Items;
use crate::sink::Sink;
use crate::source::Failed;
use std::alloc::Global;
use std::marker::Model;

/// A sink in memory with room for so many bytes, which it takes when it is made. A write takes at
/// most `cut` bytes a call, and at least one. It fails exactly where its call is listed, numbered
/// from 1, or what it would take doesn't fit in the room left. The counts of its calls and faults
/// stay at the end of 64 bits.
#[derive(Drop)]
pub struct MemSink {
    bytes: Vec<u8>,
    room: usize,
    cut: usize,
    fail: Items<u64>,
    calls: u64,
    faults: u64,
    course: WriteCourse,
}

impl Model for MemSink {
    ghost use Rattle.std.specs.Prelude.{◌<◌, ◌≤◌, vec_len, vec_capacity};
    ghost use Rattle.span_io.specs.Memory.{SinkState};

    ghost Value = { SinkState };

    ghost view = { λ s. record { held = s.bytes.items; room = s.room; cut = s.cut; fail = s.fail; calls = s.calls; faults = s.faults; course = s.course } };

    ghost invariant = { λ s. (vec_len s.bytes ≤ s.room) × (s.room ≤ vec_capacity s.bytes) × (0 < s.cut) };
}

impl MemSink {
    /// A sink that takes a whole piece a call.
    pub fn new(alloc: Global, room: usize, fail: Items<u64>) -> Result<MemSink, OutOfMemory>
        ensures { IfOk result (λ s. s ≡ fresh_sink room usize.MAX fail) }
    {
        MemSink::slow(alloc, room, usize::MAX, fail)
    }

    /// A sink that takes at most `cut` bytes a call.
    pub fn slow(
        alloc: Global,
        room: usize,
        cut: usize,
        fail: Items<u64>,
    ) -> Result<MemSink, OutOfMemory>
        ensures { IfOk result (λ s. s ≡ fresh_sink room cut fail) }
    {
        Ok(MemSink {
            bytes: Vec::with_capacity(alloc, room)?,
            room,
            cut: cut.max(1),
            fail,
            calls: 0,
            faults: 0,
            course: WriteCourse::Going,
        })
    }

    /// Lends what was taken.
    pub fn bytes(&self) -> &[u8]
        ensures { result.now ≡ self.now.held }
    {
        self.bytes.as_slice()
    }
}

// How the writes went, with one of this piece that failed.
fn behind_failure(course: WriteCourse, piece: &[u8]) -> WriteCourse
    ensures { result ≡ write_next {E = Unit} course piece.now (Err tt) }
{
    match (course, piece) {
        (WriteCourse::Going, [byte, ..]) => WriteCourse::Stopped(*byte),
        _ => WriteCourse::InVain,
    }
}

// The same with one that took some bytes of the piece.
fn behind_write(course: WriteCourse, piece: &[u8]) -> WriteCourse
    ensures { result ≡ write_next {E = Unit} course piece.now (Ok 0) }
{
    match (course, piece) {
        (WriteCourse::Going, [_, ..]) => WriteCourse::Going,
        _ => WriteCourse::InVain,
    }
}

impl Sink for MemSink {
    ghost outlet = { outlet_of };

    fn write(&mut self, piece: &[u8]) -> Result<usize, Failed>
        ensures bound { IfOk result (λ n. n ≤ length piece.now) }
        ensures some { IfOk result (λ n. 0 < length piece.now → 0 < n) }
        ensures ok { IfOk result
            (λ n. Gains (outlet_of self.old) (outlet_of self.new) (take n piece.now)) }
        ensures err { OnErr result (Gains (outlet_of self.old) (outlet_of self.new) []) }
        ensures failed { OnErr result
            (Rose (outlet_of self.old).faults (outlet_of self.new).faults) }
        ensures quiet { IfOk result
            (λ _. (outlet_of self.new).faults ≡ (outlet_of self.old).faults) }
        ensures answers { 0 < length piece.now → Takes (outlet_of self.old).sure (length piece.now)
            → IsOk result }
        ensures course { (outlet_of self.new).course
            ≡ course_of_writes (outlet_of self.old).course piece.now result }

        // It fails exactly on the listed calls and where what it would take doesn't fit, and else
        // takes as many bytes as its cut allows.
        ensures fails { IsErr result ↔ Refuses self.old piece.now }
        ensures takes { IfOk result (λ n. n ≡ min self.old.cut (length piece.now)) }
        ensures calls { self.new.calls ≡ counted self.old.calls }
        ensures faults { CountsFault result self.old.faults self.new.faults }
        ensures stays { (self.new.fail ≡ self.old.fail) × (self.new.room ≡ self.old.room)
            × (self.new.cut ≡ self.old.cut) }
    {
        self.calls = self.calls.saturating_add(1);
        let listed = self.fail.as_slice().contains(&self.calls);
        let taken = piece.len().min(self.cut);
        if listed || self.room - self.bytes.len() < taken {
            self.faults = self.faults.saturating_add(1);
            self.course = behind_failure(self.course, piece);
            return Err(Failed);
        }
        self.course = behind_write(self.course, piece);
        match self.bytes.extend_from_slice(&piece[..taken]) {
            Ok(()) => Ok(taken),
            Err(_) => unreachable!(),
        }
    }
}
