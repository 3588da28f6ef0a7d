//! One part of a struct, passed over.
ghost use Rattle.std.specs.Prelude.{◌≡◌, ◌+◌, ℕ, pos, Bool, Option, IfOk, IfErr, OnErr};
ghost use Rattle.thrift_core.specs.Parts.{list_head, map_head};
ghost use Rattle.thrift_core.specs.Reading.{Stays};
ghost use Rattle.thrift_core.specs.Walks.{Open, in_struct, in_value, in_elements, in_pairs, first_of, first_of_binary, first_of_list, first_of_map};
ghost use Rattle.thrift_core.specs.private.StackWalks.{IsLeaf};
ghost use Rattle.thrift_core.specs.private.Halting.{Passed, PassedAs, cause_of};
ghost use Rattle.thrift_core.specs.declared.passing.Halted.TheVariants as halts;
ghost use Rattle.thrift_core.specs.declared.type_code.TypeCode.TheVariants as kinds;

use crate::parts::Parts;
use crate::type_code::TypeCode;
use span_io::{Cause, Cursor, Short};

/// Why a walk over a value goes no further: a cause, or so many bytes of a binary aren't there.
#[derive(Clone, Copy, Debug, PartialEq, Eq)]
pub(crate) enum Halted {
    For(Cause),
    Lacking(usize),
}

impl Halted {
    // The cause that callers are told.
    pub(crate) fn cause(self) -> Cause
        ensures { result ≡ cause_of self }
    {
        match self {
            Halted::For(cause) => cause,
            Halted::Lacking(_) => Cause::Truncated,
        }
    }
}

impl From<Cause> for Halted {
    ghost from_gives = { λ cause halted. halted ≡ halts.For cause };

    fn from(cause: Cause) -> Halted {
        Halted::For(cause)
    }
}

// Passes over the length of a binary, and over its bytes.
fn pass_bytes<P: Parts>(c: &mut Cursor<'_>) -> Result<(), Halted>
    ensures passed { PassedAs P.spells P.reads first_of_binary result c.old.rest c.new.rest }
    ensures place { Stays c.old c.new }
{
    let size = P::length(c)? as usize;
    match c.take(size) {
        Ok(_) => Ok(()),
        Err(Short) => Err(Halted::Lacking(size - c.remaining())),
    }
}

// Passes over a value that is one part. A refusal leaves the place.
#[inline(always)]
pub(crate) fn pass_leaf<P: Parts>(
    c: &mut Cursor<'_>,
    kind: TypeCode,
    held: Option<bool>,
) -> Result<(), Halted>
    requires leaf { IsLeaf kind }
    ensures passed { (left : ℕ)
        → Passed P.spells P.reads (in_value left kind held) result c.old.rest c.new.rest }
    ensures place { Stays c.old c.new }
    ensures err { OnErr result (c.new ≡ c.old) }
{
    match kind {
        TypeCode::Truth => {
            P::truth(c, held)?;
            Ok(())
        }
        TypeCode::I8 => {
            P::byte(c)?;
            Ok(())
        }
        TypeCode::I16 => {
            P::short(c)?;
            Ok(())
        }
        TypeCode::I32 => {
            P::int(c)?;
            Ok(())
        }
        TypeCode::I64 => {
            P::long(c)?;
            Ok(())
        }
        TypeCode::Eight => {
            P::eight(c)?;
            Ok(())
        }
        _ => unreachable!(),
    }
}

// Passes over a value for which so many levels are left.
#[cycle(passing)]
pub(crate) fn pass_value<P: Parts>(
    c: &mut Cursor<'_>,
    kind: TypeCode,
    held: Option<bool>,
    left: u8,
) -> Result<(), Halted>
    ensures passed { Passed P.spells P.reads
        (in_value left kind held) result c.old.rest c.new.rest }
    ensures place { Stays c.old c.new }
{
    match kind {
        TypeCode::Binary => pass_bytes::<P>(c),
        TypeCode::Struct => pass_struct::<P>(c, level_below(left)?),
        TypeCode::Map => pass_map::<P>(c, level_below(left)?),
        TypeCode::Set | TypeCode::List => pass_list::<P>(c, level_below(left)?),
        _ => pass_leaf::<P>(c, kind, held),
    }
}

// The levels that are left in a container.
pub(crate) fn level_below(left: u8) -> Result<u8, Cause>
    ensures value { IfOk result (λ below. left ≡ below + 1) }
    ensures deep { IfErr result (λ cause. (cause ≡ Cause.TooDeep) × (left ≡ 0)) }
{
    left.checked_sub(1).ok_or(Cause::TooDeep)
}

// Passes over the fields of a struct, and its stop byte.
#[cycle(passing)]
pub(crate) fn pass_struct<P: Parts>(c: &mut Cursor<'_>, left: u8) -> Result<(), Halted>
    ensures passed { Passed P.spells P.reads (in_struct left (pos 0)) result c.old.rest c.new.rest }
    ensures place { Stays c.old c.new }
{
    let mut last: i16 = 0;
    'fields: loop {
        match P::field(c, last, left)? {
            None => return Ok(()),
            Some(field) => {
                pass_value::<P>(c, field.kind, field.held, left)?;
                last = field.id;
            }
        }
    }
}

// Passes over a list or set in which so many levels are left.
#[cycle(passing)]
fn pass_list<P: Parts>(c: &mut Cursor<'_>, left: u8) -> Result<(), Halted>
    ensures passed { PassedAs P.spells P.reads (first_of_list left) result c.old.rest c.new.rest }
    ensures place { Stays c.old c.new }
{
    let head = P::list(c, left)?;
    match head.element {
        Some(kind) => pass_elements::<P>(c, kind, head.size, left),
        None => Ok(()),
    }
}

// Passes over so many elements.
#[cycle(passing)]
fn pass_elements<P: Parts>(
    c: &mut Cursor<'_>,
    kind: TypeCode,
    many: u32,
    left: u8,
) -> Result<(), Halted>
    ensures passed { Passed P.spells P.reads
        (in_elements left kind many) result c.old.rest c.new.rest }
    ensures place { Stays c.old c.new }
{
    'elements: for _element in 0..many {
        pass_value::<P>(c, kind, None, left)?;
    }
    Ok(())
}

// Passes over a map in which so many levels are left.
#[cycle(passing)]
fn pass_map<P: Parts>(c: &mut Cursor<'_>, left: u8) -> Result<(), Halted>
    ensures passed { PassedAs P.spells P.reads (first_of_map left) result c.old.rest c.new.rest }
    ensures place { Stays c.old c.new }
{
    let head = P::map(c, left)?;
    match (head.key, head.value) {
        (Some(key), Some(value)) => pass_pairs::<P>(c, key, value, head.size, left),
        _ => Ok(()),
    }
}

// Passes over so many pairs.
#[cycle(passing)]
fn pass_pairs<P: Parts>(
    c: &mut Cursor<'_>,
    key: TypeCode,
    value: TypeCode,
    many: u32,
    left: u8,
) -> Result<(), Halted>
    ensures passed { Passed P.spells P.reads
        (in_pairs left key value many) result c.old.rest c.new.rest }
    ensures place { Stays c.old c.new }
{
    'pairs: for _pair in 0..many {
        pass_value::<P>(c, key, None, left)?;
        pass_value::<P>(c, value, None, left)?;
    }
    Ok(())
}
