//! A source in memory, for tests and rows.
ghost use Rattle.std.specs.Prelude.{◌≡◌, ◌-◌, ◌≤◌, ◌↔◌, length, min, max, Contains, IfOk, OnErr, IsOk, IsErr, IsTrue, Some};
ghost use Rattle.std.specs.Io.{ReadsAtMost};
ghost use Rattle.std.specs.Io.KnownBytes.{ReadConsumes};
ghost use Rattle.span_io.specs.Courses.{course_of_reads};
ghost use Rattle.span_io.specs.Outside.{InputFails, counted};
ghost use Rattle.span_io.specs.Memory.{inlet_of, CountsFault};
ghost use Rattle.span_io.specs.declared.course.ReadCourse.TheVariants as reads;

use crate::blob::Blob;
use crate::course::ReadCourse;
use crate::items::Items;
use crate::source::{Failed, Source};
use std::marker::Model;

/// A source over bytes in memory. It gives at most `cut` bytes a call, and at least one, and fails
/// on the listed calls, which are numbered from 1. The counts of its calls and faults stay at the end
/// of 64 bits.
#[derive(Drop)]
pub struct MemSource {
    bytes: Blob,
    place: usize,
    cut: usize,
    fail: Items<u64>,
    calls: u64,
    faults: u64,
    course: ReadCourse,
}

impl Model for MemSource {
    ghost use Rattle.std.specs.Prelude.{◌≤◌, length};
    ghost use Rattle.span_io.specs.Memory.{SourceState, source_state};

    ghost Value = { SourceState };

    ghost view = { λ s. source_state s.bytes s.place s.cut s.fail s.calls s.faults s.course };

    ghost invariant = { λ s. s.place ≤ length s.bytes };
}

impl MemSource {
    pub fn new(bytes: Blob, cut: usize, fail: Items<u64>) -> MemSource
        ensures { result
            ≡ record { left = bytes; cut = max cut 1; fail = fail; calls = 0; faults = 0; course = reads.Going } }
    {
        MemSource {
            bytes,
            place: 0,
            cut,
            fail,
            calls: 0,
            faults: 0,
            course: ReadCourse::Going,
        }
    }

    // The number of bytes still to come.
    pub(crate) fn left(&self) -> usize
        ensures { result ≡ length self.now.left }
    {
        self.bytes.len() - self.place
    }
}

impl Source for MemSource {
    ghost inlet = { inlet_of };

    fn read(&mut self, buf: &mut [u8]) -> Result<usize, Failed>
        ensures bound { ReadsAtMost result buf.new }
        ensures bytes { ReadConsumes (inlet_of self.old).left
            (inlet_of self.new).left result buf.new }
        ensures counted { (inlet_of self.old).faults ≤ (inlet_of self.new).faults }
        ensures failed { OnErr result (InputFails (inlet_of self.old) (inlet_of self.new)) }
        ensures quiet { IfOk result (λ _. (inlet_of self.new).faults ≡ (inlet_of self.old).faults) }
        ensures answers { IsTrue (inlet_of self.old).steady → IsOk result }
        ensures steady { (inlet_of self.new).steady ≡ (inlet_of self.old).steady }
        ensures course { (inlet_of self.new).course
            ≡ course_of_reads (inlet_of self.old).course result }

        // It fails exactly on the listed calls, and else gives as many bytes as its cut, the room and
        // its rest allow.
        ensures fails { IsErr result ↔ Contains self.old.fail (counted self.old.calls) }
        ensures gives { IfOk result
            (λ n. n ≡ min (min self.old.cut (length buf.old)) (length self.old.left)) }
        ensures calls { self.new.calls ≡ counted self.old.calls }
        ensures faults { CountsFault result self.old.faults self.new.faults }
        ensures stays { (self.new.fail ≡ self.old.fail) × (self.new.cut ≡ self.old.cut) }
    {
        self.calls = self.calls.saturating_add(1);
        if self.fail.as_slice().contains(&self.calls) {
            self.faults = self.faults.saturating_add(1);
            self.course = self.course.next(true);
            return Err(Failed);
        }
        let rest = &self.bytes.as_slice()[self.place..];
        let given = self.cut.max(1).min(buf.len()).min(rest.len());
        buf[..given].copy_from_slice(&rest[..given]);
        self.place += given;
        self.course = self.course.next(given == 0);
        Ok(given)
    }
}
