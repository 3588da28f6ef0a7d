//! A sink that counts what it takes.
ghost use Rattle.std.specs.Prelude.{◌≡◌, ◌+◌, ◌<◌, ◌≤◌, [], length, take, min, IfOk, OnErr, IsOk, Ok};
ghost use Rattle.span_io.specs.Courses.{course_of_writes};
ghost use Rattle.span_io.specs.Outside.{Rose, Takes, Gains, last_count};
ghost use Rattle.span_io.specs.Counting.{counting_outlet};

use crate::sink::Sink;
use crate::source::Failed;
use std::marker::Model;

/// A sink that keeps only the number of bytes that it took, and never fails. The number stays at the
/// end of its type. Contracts see the number.
#[derive(Clone, Copy, PartialEq, Eq)]
pub struct CountSink {
    taken: u64,
}

impl Model for CountSink {
    ghost use Rattle.std.specs.Prelude.{ℕ};

    ghost Value = { ℕ };

    ghost view = { λ s. s.taken };

    ghost inverse = { λ n. record { taken = n } };
}

impl CountSink {
    pub fn new() -> CountSink
        ensures { result ≡ 0 }
    {
        CountSink { taken: 0 }
    }

    pub fn count(&self) -> u64
        ensures { result ≡ self.now }
    {
        self.taken
    }
}

impl Sink for CountSink {
    ghost outlet = { counting_outlet };

    fn write(&mut self, piece: &[u8]) -> Result<usize, Failed>
        ensures bound { IfOk result (λ n. n ≤ length piece.now) }
        ensures some { IfOk result (λ n. 0 < length piece.now → 0 < n) }
        ensures ok { IfOk result
            (λ n. Gains (counting_outlet self.old) (counting_outlet self.new) (take n piece.now)) }
        ensures err { OnErr result
            (Gains (counting_outlet self.old) (counting_outlet self.new) []) }
        ensures failed { OnErr result
            (Rose (counting_outlet self.old).faults (counting_outlet self.new).faults) }
        ensures quiet { IfOk result
            (λ _. (counting_outlet self.new).faults ≡ (counting_outlet self.old).faults) }
        ensures answers { 0 < length piece.now
            → Takes (counting_outlet self.old).sure (length piece.now) → IsOk result }
        ensures course { (counting_outlet self.new).course
            ≡ course_of_writes (counting_outlet self.old).course piece.now result }

        // It takes all, and counts it.
        ensures takes { result ≡ Ok (length piece.now) }
        ensures counts { self.new ≡ min (self.old + length piece.now) last_count }
    {
        self.taken = self.taken.saturating_add(piece.len() as u64);
        Ok(piece.len())
    }
}
