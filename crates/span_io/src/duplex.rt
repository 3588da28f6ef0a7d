//! A connection: bytes that come and bytes that go.
ghost use Rattle.std.specs.Prelude.{◌≡◌, ◌<◌, ◌≤◌, [], length, take, IfOk, OnOk, OnErr, IsOk, IsTrue};
ghost use Rattle.std.specs.Io.{ReadsAtMost};
ghost use Rattle.std.specs.Io.KnownBytes.{ReadConsumes};
ghost use Rattle.span_io.specs.Courses.{course_of_reads, course_of_writes};
ghost use Rattle.span_io.specs.Links.{Link, TellsMark, mark_of_reads};
ghost use Rattle.span_io.specs.Outside.{InputFails, Rose, Takes, Gains, OutputFails, OutputHolds, FailsWithin, FailsAt};

use crate::source::Failed;

/// How far a connection was: the number of bytes still to come, and of those that it took.
#[derive(Clone, Copy, PartialEq, Eq)]
pub struct Mark {
    pub left: usize,
    pub held: usize,
}

/// A connection, a source and a sink in one. Contracts see it as its `link`: the source's `inlet`, the
/// sink's `outlet`, and the mark, how far both were as the last read that gave bytes began.
pub trait Duplex {
    ghost link: { Self → Link };

    /// Gives the next bytes, as `Source::read` does. The sink stays.
    fn read(&mut self, buf: &mut [u8]) -> Result<usize, Failed>
        ensures bound { ReadsAtMost result buf.new }
        ensures bytes { ReadConsumes (link self.old).inlet.left
            (link self.new).inlet.left result buf.new }
        ensures counted { (link self.old).inlet.faults ≤ (link self.new).inlet.faults }
        ensures failed { OnErr result (InputFails (link self.old).inlet (link self.new).inlet) }
        ensures quiet { IfOk result
            (λ _. (link self.new).inlet.faults ≡ (link self.old).inlet.faults) }
        ensures answers { IsTrue (link self.old).inlet.steady → IsOk result }
        ensures steady { (link self.new).inlet.steady ≡ (link self.old).inlet.steady }
        ensures course { (link self.new).inlet.course
            ≡ course_of_reads (link self.old).inlet.course result }
        ensures outlet { (link self.new).outlet ≡ (link self.old).outlet }
        ensures mark { (link self.new).mark ≡ mark_of_reads (link self.old) result };

    /// Takes bytes from the front of the piece, as `Sink::write` does. The source stays, and so does the mark.
    fn write(&mut self, piece: &[u8]) -> Result<usize, Failed>
        ensures bound { IfOk result (λ n. n ≤ length piece.now) }
        ensures some { IfOk result (λ n. 0 < length piece.now → 0 < n) }
        ensures ok { IfOk result
            (λ n. Gains (link self.old).outlet (link self.new).outlet (take n piece.now)) }
        ensures err { OnErr result (Gains (link self.old).outlet (link self.new).outlet []) }
        ensures failed { OnErr result
            (Rose (link self.old).outlet.faults (link self.new).outlet.faults) }
        ensures quiet { IfOk result
            (λ _. (link self.new).outlet.faults ≡ (link self.old).outlet.faults) }
        ensures answers { 0 < length piece.now
            → Takes (link self.old).outlet.sure (length piece.now) → IsOk result }
        ensures course { (link self.new).outlet.course
            ≡ course_of_writes (link self.old).outlet.course piece.now result }
        ensures inlet { (link self.new).inlet ≡ (link self.old).inlet }
        ensures mark { (link self.new).mark ≡ (link self.old).mark };

    // Where both ends tell their bytes, the mark is told.
    ghost tells: { (c : Self) → TellsMark (link c) };
}

/// Writes a whole piece to a connection, in as many writes as it takes.
pub fn send_all<C: Duplex>(conn: &mut C, piece: &[u8]) -> Result<(), Failed>
    ensures ok { OnOk result (Gains (C.link conn.old).outlet (C.link conn.new).outlet piece.now) }
    ensures holds { OnOk result (OutputHolds (C.link conn.old).outlet (C.link conn.new).outlet) }

    // Behind a failed write comes no other.
    ensures failed { OnErr result (OutputFails (C.link conn.old).outlet (C.link conn.new).outlet) }
    ensures within { OnErr result
        (FailsWithin (C.link conn.old).outlet (C.link conn.new).outlet piece.now) }
    ensures at { OnErr result
        (FailsAt (C.link conn.old).outlet (C.link conn.new).outlet piece.now) }

    // The source stays, and so does the mark.
    ensures inlet { (C.link conn.new).inlet ≡ (C.link conn.old).inlet }
    ensures mark { (C.link conn.new).mark ≡ (C.link conn.old).mark }

    // An empty piece calls no connection.
    ensures empty { piece.now ≡ [] → IsOk result × (conn.new ≡ conn.old) }
{
    let mut done = 0;
    'writes: while done < piece.len() {
        done += conn.write(&piece[done..])?;
    }
    Ok(())
}
