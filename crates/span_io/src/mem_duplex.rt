//! A connection in memory, for tests and rows.
ghost use Rattle.std.specs.Prelude.{◌≡◌, ◌<◌, ◌≤◌, ◌↔◌, [], length, min, take, Contains, IfOk, OnErr, IsErr, IsOk, IsTrue, refl};
ghost use Rattle.std.specs.Io.{ReadsAtMost};
ghost use Rattle.std.specs.Io.KnownBytes.{ReadConsumes};
ghost use Rattle.span_io.specs.Connections.{link_of};
ghost use Rattle.span_io.specs.Courses.{course_of_reads, course_of_writes};
ghost use Rattle.span_io.specs.Links.{mark_of_reads};
ghost use Rattle.span_io.specs.Memory.{CountsFault, Refuses};
ghost use Rattle.span_io.specs.Outside.{InputFails, Rose, Takes, Gains, counted};

use crate::duplex::{Duplex, Mark};
use crate::mem_sink::MemSink;
use crate::mem_source::MemSource;
use crate::sink::Sink;
use crate::source::{Failed, Source};
use std::marker::Model;

/// A connection in memory: it gives what its source gives, and takes what its sink takes.
#[derive(Drop)]
pub struct MemDuplex {
    source: MemSource,
    sink: MemSink,
    mark: Mark,
}

impl Model for MemDuplex {
    ghost use Rattle.span_io.specs.Connections.{DuplexState};

    ghost Value = { DuplexState };

    ghost view = { λ d. record { source = d.source; sink = d.sink; mark = d.mark } };
}

// How far a source and a sink are.
fn mark_of(source: &MemSource, sink: &MemSink) -> Mark
    ensures { result ≡ record { left = length source.now.left; held = length sink.now.held } }
{
    Mark {
        left: source.left(),
        held: sink.bytes().len(),
    }
}

impl MemDuplex {
    /// Joins a source and a sink.
    pub fn new(source: MemSource, sink: MemSink) -> MemDuplex
        ensures { result
            ≡ record { source = source; sink = sink; mark = record { left = length source.left; held = length sink.held } } }
    {
        let mark = mark_of(&source, &sink);
        MemDuplex { source, sink, mark }
    }

    /// Lends what was taken.
    pub fn written(&self) -> &[u8]
        ensures { result.now ≡ self.now.sink.held }
    {
        self.sink.bytes()
    }
}

impl Duplex for MemDuplex {
    ghost link = { link_of };

    ghost tells = { λ c. refl };

    fn read(&mut self, buf: &mut [u8]) -> Result<usize, Failed>
        ensures bound { ReadsAtMost result buf.new }
        ensures bytes { ReadConsumes (link_of self.old).inlet.left
            (link_of self.new).inlet.left result buf.new }
        ensures counted { (link_of self.old).inlet.faults ≤ (link_of self.new).inlet.faults }
        ensures failed { OnErr result
            (InputFails (link_of self.old).inlet (link_of self.new).inlet) }
        ensures quiet { IfOk result
            (λ _. (link_of self.new).inlet.faults ≡ (link_of self.old).inlet.faults) }
        ensures answers { IsTrue (link_of self.old).inlet.steady → IsOk result }
        ensures steady { (link_of self.new).inlet.steady ≡ (link_of self.old).inlet.steady }
        ensures course { (link_of self.new).inlet.course
            ≡ course_of_reads (link_of self.old).inlet.course result }
        ensures outlet { (link_of self.new).outlet ≡ (link_of self.old).outlet }
        ensures mark { (link_of self.new).mark ≡ mark_of_reads (link_of self.old) result }

        // It answers as its source does, and its sink stays.
        ensures fails { IsErr result
            ↔ Contains self.old.source.fail (counted self.old.source.calls) }
        ensures gives { IfOk result
            (λ n. n
            ≡ min (min self.old.source.cut (length buf.old)) (length self.old.source.left)) }
        ensures calls { self.new.source.calls ≡ counted self.old.source.calls }
        ensures faults { CountsFault result self.old.source.faults self.new.source.faults }
        ensures stays { (self.new.source.fail ≡ self.old.source.fail)
            × (self.new.source.cut ≡ self.old.source.cut) }
        ensures sink { self.new.sink ≡ self.old.sink }
    {
        let mark = mark_of(&self.source, &self.sink);
        let given = self.source.read(buf)?;
        if given > 0 {
            self.mark = mark;
        }
        Ok(given)
    }

    fn write(&mut self, piece: &[u8]) -> Result<usize, Failed>
        ensures bound { IfOk result (λ n. n ≤ length piece.now) }
        ensures some { IfOk result (λ n. 0 < length piece.now → 0 < n) }
        ensures ok { IfOk result
            (λ n. Gains (link_of self.old).outlet (link_of self.new).outlet (take n piece.now)) }
        ensures err { OnErr result (Gains (link_of self.old).outlet (link_of self.new).outlet []) }
        ensures failed { OnErr result
            (Rose (link_of self.old).outlet.faults (link_of self.new).outlet.faults) }
        ensures quiet { IfOk result
            (λ _. (link_of self.new).outlet.faults ≡ (link_of self.old).outlet.faults) }
        ensures answers { 0 < length piece.now
            → Takes (link_of self.old).outlet.sure (length piece.now) → IsOk result }
        ensures course { (link_of self.new).outlet.course
            ≡ course_of_writes (link_of self.old).outlet.course piece.now result }
        ensures inlet { (link_of self.new).inlet ≡ (link_of self.old).inlet }
        ensures mark { (link_of self.new).mark ≡ (link_of self.old).mark }

        // It answers as its sink does, and its source stays.
        ensures fails { IsErr result ↔ Refuses self.old.sink piece.now }
        ensures takes { IfOk result (λ n. n ≡ min self.old.sink.cut (length piece.now)) }
        ensures calls { self.new.sink.calls ≡ counted self.old.sink.calls }
        ensures faults { CountsFault result self.old.sink.faults self.new.sink.faults }
        ensures stays { (self.new.sink.fail ≡ self.old.sink.fail)
            × (self.new.sink.room ≡ self.old.sink.room)
            × (self.new.sink.cut ≡ self.old.sink.cut) }
        ensures source { self.new.source ≡ self.old.source }
    {
        self.sink.write(piece)
    }
}
