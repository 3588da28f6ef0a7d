//! What takes bytes, and what its calls promise.
ghost use Rattle.std.specs.Prelude.{◌≡◌, ◌<◌, ◌≤◌, [], length, take, IfOk, OnOk, OnErr, IsOk};
ghost use Rattle.span_io.specs.Courses.{course_of_writes};
ghost use Rattle.span_io.specs.Outside.{Outlet, Rose, Takes, Gains, OutputFails, OutputHolds, FailsWithin, FailsAt};

use crate::source::Failed;

/// Where bytes go. Contracts see a sink as its `outlet`: the bytes that it took and their number,
/// each where it is told, a count of its faults, which stays at the end of 64 bits, how many bytes it
/// takes without a failure, and how its writes went, where it is told.
pub trait Sink {
    ghost outlet: { Self → Outlet };

    /// Takes bytes from the front of the piece, and answers their number. It takes at least one of a
    /// piece that isn't empty.
    fn write(&mut self, piece: &[u8]) -> Result<usize, Failed>
        ensures bound { IfOk result (λ n. n ≤ length piece.now) }
        ensures some { IfOk result (λ n. 0 < length piece.now → 0 < n) }
        ensures ok { IfOk result
            (λ n. Gains (outlet self.old) (outlet self.new) (take n piece.now)) }
        ensures err { OnErr result (Gains (outlet self.old) (outlet self.new) []) }
        ensures failed { OnErr result (Rose (outlet self.old).faults (outlet self.new).faults) }
        ensures quiet { IfOk result (λ _. (outlet self.new).faults ≡ (outlet self.old).faults) }

        // A piece that it is sure to take doesn't fail.
        ensures answers { 0 < length piece.now → Takes (outlet self.old).sure (length piece.now)
            → IsOk result }
        ensures course { (outlet self.new).course
            ≡ course_of_writes (outlet self.old).course piece.now result };
}

/// Writes a whole piece, in as many writes as it takes.
pub fn write_all<K: Sink>(sink: &mut K, piece: &[u8]) -> Result<(), Failed>
    ensures ok { OnOk result (Gains (K.outlet sink.old) (K.outlet sink.new) piece.now) }
    ensures holds { OnOk result (OutputHolds (K.outlet sink.old) (K.outlet sink.new)) }

    // Behind a failed write comes no other.
    ensures failed { OnErr result (OutputFails (K.outlet sink.old) (K.outlet sink.new)) }
    ensures within { OnErr result (FailsWithin (K.outlet sink.old) (K.outlet sink.new) piece.now) }
    ensures at { OnErr result (FailsAt (K.outlet sink.old) (K.outlet sink.new) piece.now) }

    // An empty piece calls no sink.
    ensures empty { piece.now ≡ [] → IsOk result × (sink.new ≡ sink.old) }
{
    let mut done = 0;
    'writes: while done < piece.len() {
        done += sink.write(&piece[done..])?;
    }
    Ok(())
}
