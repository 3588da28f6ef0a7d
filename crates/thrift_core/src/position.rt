//! Where a scan over a struct stands whose bytes come in pieces, and how it goes on with the next piece.
ghost use Rattle.std.specs.Prelude.{◌≡◌, ◌≤◌, ◌++◌, ℕ, List, [], length, take, IfOk};
ghost use Rattle.thrift_core.specs.Positions.{PlaceOf};
ghost use Rattle.thrift_core.specs.private.Halting.{IsAtStart, IsAtPart, StandsBefore, HaltsOver, Resumed, Joined};
ghost use Rattle.thrift_core.specs.private.Halting.{unfinished_part, IsEnough, KeepsOf};
ghost use Rattle.thrift_core.specs.Protocols.{most_unfinished};

use crate::parts::Parts;
use crate::passing::Halted;
use crate::stack::Stack;
use crate::stepping::walk;
use arrayvec::ArrayVec;
use span_io::{Cause, Cursor};
use std::mem;

// The room for the bytes of a part that isn't whole yet, and for as many behind them.
const CARRY_ROOM: usize = 20;

// What a scan keeps of the bytes of a struct: those of a part that isn't whole yet alone.
#[derive(Drop)]
pub(crate) struct Position {
    stack: Stack,
    // the bytes of a part that isn't whole yet
    carry: ArrayVec<u8, CARRY_ROOM>,
    // so many bytes of a binary are to come before that
    missing: usize,
}

impl Position {
    // Before a struct's first byte.
    pub(crate) fn new() -> Position
        ensures { IsAtStart result }
    {
        Position {
            stack: Stack::new(),
            carry: ArrayVec::new(),
            missing: 0,
        }
    }

    // Goes back there.
    pub(crate) fn restart(&mut self)
        ensures { IsAtStart self.new }
    {
        self.stack.restart();
        self.carry.clear();
        self.missing = 0;
    }

    // Keeps what is wanted where the walk halts: the bytes from there on, if a part isn't whole yet, or how many are missing.
    fn keep(&mut self, halted: Halted, rest: &[u8])
        ensures stack { self.new.stack ≡ self.old.stack }
        ensures kept { KeepsOf halted rest.now self.old self.new }
    {
        match halted {
            Halted::Lacking(many) => self.missing = many,
            Halted::For(cause) => match cause {
                Cause::Truncated => {
                    let _kept = self.carry.try_extend_from_slice(rest);
                }
                _ => {}
            },
        }
    }
}

// Walks on over these bytes from in front of a part. It counts from where they begin.
fn walk_on<P: Parts>(at: &mut Position, piece: &[u8]) -> Result<usize, Halted>
    ensures within { IfOk result (λ n. n ≤ length piece.now) }
    ensures resumed { (whole : List ℕ) → IsAtPart at.old
        → StandsBefore P.spells whole at.old.stack piece.now
        → Resumed P.spells P.reads whole (length piece.now) result at.new }
{
    let mut c = Cursor::new(piece);
    match walk::<P>(&mut at.stack, &mut c) {
        Ok(()) => Ok(c.place()),
        Err(halted) => {
            at.keep(halted, c.rest());
            Err(halted)
        }
    }
}

// Passes over the bytes of a binary that are still to come, and walks on.
fn skip<P: Parts>(at: &mut Position, piece: &[u8]) -> Result<usize, Halted>
    ensures within { IfOk result (λ n. n ≤ length piece.now) }
    ensures resumed { (bytes : List ℕ) → at.old.carry.items ≡ [] → PlaceOf P.spells bytes at.old
        → Resumed P.spells P.reads (bytes ++ piece.now) (length piece.now) result at.new }
{
    if piece.len() < at.missing {
        at.missing -= piece.len();
        return Err(Halted::Lacking(at.missing));
    }
    let begun = at.missing;
    at.missing = 0;
    match walk_on::<P>(at, &piece[begun..]) {
        Ok(ends) => Ok(begun + ends),
        Err(halted) => Err(halted),
    }
}

// Goes on where the carry and the first bytes of the piece end in a part that isn't whole. Of it no more are in the carry than
// the piece has, or there are no others.
fn unfinished<P: Parts>(
    at: &mut Position,
    rest: &[u8],
    piece: &[u8],
    taken: usize,
) -> Result<usize, Halted>
    requires taken { taken ≤ length piece.now }
    ensures { (bytes : List ℕ) → IsAtPart at.old → IsEnough taken piece.now
        → HaltsOver P.spells P.reads
        (bytes ++ take taken piece.now) unfinished_part at.old.stack rest.now
        → Resumed P.spells P.reads (bytes ++ piece.now) (length piece.now) result at.new }
{
    if rest.len() > taken {
        at.keep(Halted::For(Cause::Truncated), rest);
        return Err(Halted::For(Cause::Truncated));
    }
    let begun = taken - rest.len();
    match walk_on::<P>(at, &piece[begun..]) {
        Ok(ends) => Ok(begun + ends),
        Err(halted) => Err(halted),
    }
}

// Goes on behind the first bytes of the piece, which were read with the carry.
fn behind_joined<P: Parts>(
    at: &mut Position,
    halted: Halted,
    rest: &[u8],
    piece: &[u8],
    taken: usize,
) -> Result<usize, Halted>
    requires taken { taken ≤ length piece.now }
    ensures { (bytes : List ℕ) → IsAtPart at.old → IsEnough taken piece.now
        → HaltsOver P.spells P.reads (bytes ++ take taken piece.now) halted at.old.stack rest.now
        → Resumed P.spells P.reads (bytes ++ piece.now) (length piece.now) result at.new }
{
    match halted {
        Halted::Lacking(many) => {
            at.missing = many;
            match skip::<P>(at, &piece[taken..]) {
                Ok(ends) => Ok(taken + ends),
                Err(halted) => Err(halted),
            }
        }
        Halted::For(cause) => match cause {
            Cause::Truncated => unfinished::<P>(at, rest, piece, taken),
            _ => Err(Halted::For(cause)),
        },
    }
}

// Goes on in a part, whose bytes in the carry are read with the next ones.
fn join<P: Parts>(at: &mut Position, piece: &[u8]) -> Result<usize, Halted>
    ensures { (bytes : List ℕ) → at.old.missing ≡ 0 → length at.old.carry.items ≤ most_unfinished
        → StandsBefore P.spells bytes at.old.stack at.old.carry.items
        → Joined P.spells P.reads (bytes ++ piece.now) (length piece.now) result at.new }
{
    let mut joined = mem::replace(&mut at.carry, ArrayVec::new());
    let carried = joined.len();
    let taken = joined.remaining_capacity().min(piece.len());
    let _joined = joined.try_extend_from_slice(&piece[..taken]);
    let mut c = Cursor::new(joined.as_slice());
    match walk::<P>(&mut at.stack, &mut c) {
        Ok(()) => Ok(c.place().saturating_sub(carried)),
        Err(halted) => behind_joined::<P>(at, halted, c.rest(), piece, taken),
    }
}

// Goes on with the next piece, up to the end of the struct. It counts from where the piece begins.
pub(crate) fn resume<P: Parts>(at: &mut Position, piece: &[u8]) -> Result<usize, Halted>
    ensures { (bytes : List ℕ) → PlaceOf P.spells bytes at.old
        → Joined P.spells P.reads (bytes ++ piece.now) (length piece.now) result at.new }
{
    if at.carry.is_empty() {
        return skip::<P>(at, piece);
    }
    join::<P>(at, piece)
}
