//! A scanner of frames, and what its calls promise.
ghost use Rattle.std.specs.Prelude.{◌≡◌, ℕ, List, Some};
ghost use Rattle.span_io.specs.Frames.{Framing};
ghost use Rattle.span_io.specs.Scans.{Scanning, IsNew, PushIs, FrameIs, StandsBehind, EndsWithin};
ghost use Rattle.span_io.specs.Steps.{IfUnit};
ghost use Rattle.span_io.specs.declared.cause.Cause.{Cause};
ghost use Rattle.span_io.specs.declared.step.Step.{Step};

use crate::step::Step;

/// Finds where frames end whose bytes come in pieces, cut anywhere. It keeps no more of them than it
/// needs for that. Contracts see a scanner as its `scanning`: its limit, the bytes of a frame that
/// it has seen, and its refusal.
pub trait Scan {
    ghost framing: { Framing };

    ghost refuses: { Cause → List ℕ → Type 0 };

    ghost scanning: { Self → Scanning };

    /// A scanner of frames of at most `limit` bytes each.
    fn new(limit: usize) -> Self
        ensures { IsNew limit (scanning result) };

    /// Takes a piece up to the end of a frame: all of it where more bytes are needed, the first n
    /// where a frame ends with them.
    fn push(&mut self, piece: &[u8]) -> Step
        ensures exact { PushIs framing refuses (scanning self.old) piece.now result }
        ensures frame { FrameIs framing (scanning self.old) piece.now result }
        ensures stands { StandsBehind (scanning self.old) (scanning self.new) piece.now result }
        ensures within { IfUnit result (EndsWithin (scanning self.old) piece.now) }
        ensures limit { (scanning self.new).limit ≡ (scanning self.old).limit }
        // A scanner that refused answers the same from then on.
        ensures refused { (cause : Cause) → (scanning self.old).refused ≡ Some cause
            → (result ≡ Step.Refused cause) × (self.new ≡ self.old) };
}
