//! A scanner that finds where a struct ends.
ghost use Rattle.span_io.specs.Scans.{IsNew, PushIs, FrameIs, StandsBehind, EndsWithin};
ghost use Rattle.thrift_core.specs.Positions.{scanning_of};
ghost use Rattle.thrift_core.specs.Values.{struct_frames, RefusedStruct};

use crate::frame::refusal;
use crate::parts::Parts;
use crate::position::{Position, resume};
use span_io::{Cause, Scan, Step};
use std::marker::PhantomData;

/// A scanner of structs in a protocol. Of their bytes it keeps twenty at most, whatever a length in
/// them claims: those of a part that isn't whole yet.
#[derive(Drop)]
pub struct StructScanner<P> {
    // the most bytes of a struct
    limit: usize,
    // so many of its bytes came
    size: usize,
    at: Position,
    refused: Option<Cause>,
    protocol: PhantomData<P>,
}

impl<P: Parts> Scan for StructScanner<P> {
    ghost framing = { struct_frames P.spells P.then_varint };

    ghost refuses = { RefusedStruct P.spells P.refuses };

    ghost scanning = { λ s. scanning_of P.spells P.then_varint s.limit s.size s.refused s.at };

    fn new(limit: usize) -> Self {
        StructScanner {
            limit,
            size: 0,
            at: Position::new(),
            refused: None,
            protocol: PhantomData,
        }
    }

    fn push(&mut self, piece: &[u8]) -> Step {
        if let Some(cause) = self.refused {
            return Step::Refused(cause);
        }
        let taken = piece.len().min(self.limit.saturating_sub(self.size));
        let there = self.size + taken;
        match resume::<P>(&mut self.at, &piece[..taken]) {
            Ok(n) => {
                self.at.restart();
                self.size = 0;
                Step::Unit(n)
            }
            Err(halted) => match refusal::<P>(halted, there, self.limit) {
                None => {
                    self.size = there;
                    Step::Need
                }
                Some(cause) => {
                    self.refused = Some(cause);
                    Step::Refused(cause)
                }
            },
        }
    }
}
