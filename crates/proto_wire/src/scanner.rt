//! Finds where the records of bytes end that come in pieces, cut anywhere. How a frame goes on hangs on its first twenty
//! bytes and its size alone: a key and a length have no more.
ghost use Rattle.std.specs.Prelude.{◌≡◌, ◌≤◌, ◌++◌, ℕ, List, Some, length, take};
ghost use Rattle.span_io.specs.Scans.{IsNew, PushIs, FrameIs, StandsBehind, EndsWithin};
ghost use Rattle.span_io.specs.Steps.{IfUnit};
ghost use Rattle.span_io.specs.declared.cause.Cause.{Cause};
ghost use Rattle.span_io.specs.declared.step.Step.{Step};
ghost use Rattle.proto_wire.specs.Scanners.{longest_head, IsHead, scanning_of};
ghost use Rattle.proto_wire.specs.private.HeldLengths.{HoldsLength, HoldsLengthWithin, Counts};
ghost use Rattle.proto_wire.specs.Wire.{records, RefusedBy, FirstIs, NeedsMoreBytes};

use crate::frame::first_frame;
use crate::reading::number;
use arrayvec::ArrayVec;
use span_io::{Cause, Cursor, Scan, Step};

/// The most bytes of a key and a length.
const LONGEST_HEAD: usize = 20;

/// A scanner of records, of which it keeps at most twenty bytes. A frame is one record, of any number.
#[derive(Drop)]
pub struct UnitScanner {
    limit: usize,
    head: ArrayVec<u8, LONGEST_HEAD>,
    size: usize,
    refused: Option<Cause>,
}

// The number of bytes of a record whose key and length are there.
fn full_size(head: &[u8], limit: usize) -> usize
    requires { HoldsLengthWithin limit head.now }
    ensures holds { HoldsLength result head.now }
    ensures within { result ≤ limit }
{
    span_io::laws::varint_readings();
    let mut c = Cursor::new(head);
    match number(&mut c) {
        Ok(_) => {}
        Err(_) => unreachable!(),
    }
    match number(&mut c) {
        Ok(held) => c.place().saturating_add(held as usize),
        Err(_) => unreachable!(),
    }
}

// The first step of bytes whose head needs more.
fn behind_head(head: &[u8], there: usize, limit: usize) -> Step
    requires { NeedsMoreBytes limit head.now }
    ensures { (bytes : List ℕ) → IsHead head.now bytes → Counts limit there bytes
        → FirstIs limit bytes result }
{
    span_io::laws::varint_readings();
    if head.len() < LONGEST_HEAD {
        return Step::Need;
    }
    let size = full_size(head, limit);
    if there < size {
        return Step::Need;
    }
    Step::Unit(size)
}

// The first step of bytes, by their head and their number.
fn first_step(head: &[u8], there: usize, limit: usize) -> Step
    ensures { (bytes : List ℕ) → IsHead head.now bytes → Counts limit there bytes
        → FirstIs limit bytes result }
{
    span_io::laws::varint_readings();
    match first_frame(head, limit) {
        Step::Need => behind_head(head, there, limit),
        Step::Unit(n) => Step::Unit(n),
        Step::Refused(cause) => Step::Refused(cause),
    }
}

// Keeps what belongs to the head.
fn keep(head: &mut ArrayVec<u8, LONGEST_HEAD>, piece: &[u8])
    ensures { head.new.items ≡ take longest_head (head.old.items ++ piece.now) }
{
    let kept = head.remaining_capacity().min(piece.len());
    let _kept = head.try_extend_from_slice(&piece[..kept]);
}

impl Scan for UnitScanner {
    ghost framing = { records };

    ghost refuses = { RefusedBy };

    ghost scanning = { scanning_of };

    fn new(limit: usize) -> Self {
        UnitScanner {
            limit,
            head: ArrayVec::new(),
            size: 0,
            refused: None,
        }
    }

    fn push(&mut self, piece: &[u8]) -> Step {
        span_io::laws::varint_readings();
        if let Some(cause) = self.refused {
            return Step::Refused(cause);
        }
        keep(&mut self.head, piece);
        let there = self.size + piece.len().min(self.limit.saturating_sub(self.size));
        match first_step(self.head.as_slice(), there, self.limit) {
            Step::Need => {
                self.size = there;
                Step::Need
            }
            Step::Unit(n) => {
                let ends = n.saturating_sub(self.size);
                self.head.clear();
                self.size = 0;
                Step::Unit(ends)
            }
            Step::Refused(cause) => {
                self.refused = Some(cause);
                Step::Refused(cause)
            }
        }
    }
}
