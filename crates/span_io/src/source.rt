//! What gives bytes, and what its calls promise.
ghost use Rattle.std.specs.Prelude.{◌≡◌, ◌≤◌, IfOk, OnErr, IsOk, IsTrue};
ghost use Rattle.std.specs.Io.{ReadsAtMost};
ghost use Rattle.std.specs.Io.KnownBytes.{ReadConsumes};
ghost use Rattle.span_io.specs.Courses.{course_of_reads};
ghost use Rattle.span_io.specs.Outside.{Inlet, InputFails};

/// The outside refused a call.
#[derive(Clone, Copy, Debug, PartialEq, Eq)]
pub struct Failed;

/// Where bytes come from. Contracts see a source as its `inlet`: the bytes still to come, where they
/// are told, a count of its faults, which stays at the end of 64 bits, whether it is steady, and how
/// its reads went, where it is told.
pub trait Source {
    ghost inlet: { Self → Inlet };

    /// Gives the next bytes, at most as many as the buffer has room for, and their number. The answer
    /// 0 to a buffer that isn't empty comes at the end alone.
    fn read(&mut self, buf: &mut [u8]) -> Result<usize, Failed>
        ensures bound { ReadsAtMost result buf.new }
        ensures bytes { ReadConsumes (inlet self.old).left (inlet self.new).left result buf.new }
        ensures counted { (inlet self.old).faults ≤ (inlet self.new).faults }
        ensures failed { OnErr result (InputFails (inlet self.old) (inlet self.new)) }
        ensures quiet { IfOk result (λ _. (inlet self.new).faults ≡ (inlet self.old).faults) }

        // A steady source never fails, and one that isn't never becomes so.
        ensures answers { IsTrue (inlet self.old).steady → IsOk result }
        ensures steady { (inlet self.new).steady ≡ (inlet self.old).steady }
        ensures course { (inlet self.new).course ≡ course_of_reads (inlet self.old).course result };
}
