//! A walk over a struct, part by part, that stops where its bytes end and can go on from there.
ghost use Rattle.std.specs.Prelude.{◌≡◌, ◌⊎◌, ℕ, None, IfOk};
ghost use Rattle.thrift_core.specs.Reading.{Stays};
ghost use Rattle.thrift_core.specs.private.StackWalks.{levels_in, open_of_level, list_first, map_first, weight};
ghost use Rattle.thrift_core.specs.private.StackWalks.{AsFirst, IsLeaf, IsNearer, ComesFirst, IsHeldBefore};
ghost use Rattle.thrift_core.specs.private.StackWalks.{ValueStepped, Stepped, Walked};
ghost use Rattle.thrift_core.specs.Walks.{in_value, first_of_binary, opened_pairs};
ghost use Rattle.thrift_core.specs.declared.stack.Level.{Level};

use crate::field::MapHead;
use crate::parts::Parts;
use crate::passing::{Halted, level_below, pass_leaf};
use crate::stack::{Level, Stack};
use crate::type_code::TypeCode;
use span_io::{Cursor, Short};

// What comes first of what is open.
#[derive(Clone, Copy, PartialEq, Eq)]
enum Coming {
    // the head of the field behind the one of this id
    Header(i16),
    // a value, and what is to come behind it of its container
    Value(TypeCode, Option<bool>, Level),
    // nothing: the container is over
    End,
}

// What comes first of a container.
fn first_of_level(level: Level) -> Coming
    ensures first { ComesFirst level result }
    ensures held { IsHeldBefore result }
{
    match level {
        Level::Fields(last) => Coming::Header(last),
        Level::Field(id, kind, held) => Coming::Value(kind, held, Level::Fields(id)),
        Level::Elements(kind, many) => match many.checked_sub(1) {
            None => Coming::End,
            Some(more) => Coming::Value(kind, None, Level::Elements(kind, more)),
        },
        Level::Pairs(key, value, many) => match many.checked_sub(1) {
            None => Coming::End,
            Some(more) => Coming::Value(key, None, Level::PairValue(key, value, more)),
        },
        Level::PairValue(key, value, many) => {
            Coming::Value(value, None, Level::Pairs(key, value, many))
        }
    }
}

// Passes over a binary, behind which this is to come of its container.
fn binary_step<P: Parts>(stack: &mut Stack, c: &mut Cursor<'_>, behind: Level) -> Result<(), Halted>
    ensures stepped { AsFirst first_of_binary
        (ValueStepped P.spells P.reads behind stack.old c.old.rest result stack.new c.new.rest) }
    ensures nearer { IfOk result (λ _. IsNearer stack.old c.old.rest stack.new c.new.rest) }
    ensures place { Stays c.old c.new }
{
    let size = P::length(c)? as usize;
    stack.top = behind;
    match c.take(size) {
        Ok(_) => Ok(()),
        Err(Short) => Err(Halted::Lacking(size - c.remaining())),
    }
}

// Reads the head of a list or set, and enters it.
fn list_step<P: Parts>(stack: &mut Stack, c: &mut Cursor<'_>, behind: Level) -> Result<(), Halted>
    ensures stepped { AsFirst (list_first (levels_in stack.old))
        (ValueStepped P.spells P.reads behind stack.old c.old.rest result stack.new c.new.rest) }
    ensures nearer { IfOk result (λ _. IsNearer stack.old c.old.rest stack.new c.new.rest) }
    ensures place { Stays c.old c.new }
{
    let left = level_below(stack.left())?;
    let head = P::list(c, left)?;
    match head.element {
        Some(kind) => stack.enter(behind, Level::Elements(kind, head.size)),
        None => stack.top = behind,
    }
    Ok(())
}

// What is to come of a map behind its head: nothing where it has no types.
fn pairs_of(head: MapHead) -> Option<Level>
    ensures { (left : ℕ)
        → opened_pairs left head.key head.value head.size ≡ open_of_level left result }
{
    match (head.key, head.value) {
        (Some(key), Some(value)) => Some(Level::Pairs(key, value, head.size)),
        _ => None,
    }
}

// Reads the head of a map, and enters it.
fn map_step<P: Parts>(stack: &mut Stack, c: &mut Cursor<'_>, behind: Level) -> Result<(), Halted>
    ensures stepped { AsFirst (map_first (levels_in stack.old))
        (ValueStepped P.spells P.reads behind stack.old c.old.rest result stack.new c.new.rest) }
    ensures nearer { IfOk result (λ _. IsNearer stack.old c.old.rest stack.new c.new.rest) }
    ensures place { Stays c.old c.new }
{
    let left = level_below(stack.left())?;
    let head = P::map(c, left)?;
    match pairs_of(head) {
        Some(pairs) => stack.enter(behind, pairs),
        None => stack.top = behind,
    }
    Ok(())
}

// Passes over a value that is one part.
fn leaf_step<P: Parts>(
    stack: &mut Stack,
    c: &mut Cursor<'_>,
    kind: TypeCode,
    held: Option<bool>,
    behind: Level,
) -> Result<(), Halted>
    requires leaf { IsLeaf kind }
    ensures stepped { ValueStepped P.spells P.reads behind stack.old c.old.rest result stack.new c.new.rest
        (in_value (levels_in stack.old) kind held) }
    ensures nearer { (held ≡ None) ⊎ (weight behind ≡ 0)
        → IfOk result (λ _. IsNearer stack.old c.old.rest stack.new c.new.rest) }
    ensures place { Stays c.old c.new }
{
    match pass_leaf::<P>(c, kind, held) {
        Ok(()) => {
            stack.top = behind;
            Ok(())
        }
        Err(halted) => Err(halted),
    }
}

// Passes over a value, or enters it.
fn value_step<P: Parts>(
    stack: &mut Stack,
    c: &mut Cursor<'_>,
    kind: TypeCode,
    held: Option<bool>,
    behind: Level,
) -> Result<(), Halted>
    ensures stepped { ValueStepped P.spells P.reads behind stack.old c.old.rest result stack.new c.new.rest
        (in_value (levels_in stack.old) kind held) }
    ensures nearer { (held ≡ None) ⊎ (weight behind ≡ 0)
        → IfOk result (λ _. IsNearer stack.old c.old.rest stack.new c.new.rest) }
    ensures place { Stays c.old c.new }
{
    match kind {
        TypeCode::Binary => binary_step::<P>(stack, c, behind),
        TypeCode::Set | TypeCode::List => list_step::<P>(stack, c, behind),
        TypeCode::Map => map_step::<P>(stack, c, behind),
        TypeCode::Struct => {
            level_below(stack.left())?;
            stack.enter(behind, Level::Fields(0));
            Ok(())
        }
        _ => leaf_step::<P>(stack, c, kind, held, behind),
    }
}

// Reads the head of the field behind the one of this id, or leaves the struct at its stop byte.
fn header_step<P: Parts>(stack: &mut Stack, c: &mut Cursor<'_>, last: i16) -> Result<bool, Halted>
    ensures stepped { stack.old.top ≡ Level.Fields last
        → Stepped P.spells P.reads stack.old c.old.rest result stack.new c.new.rest }
    ensures place { Stays c.old c.new }
{
    match P::field(c, last, stack.left())? {
        None => Ok(stack.leave()),
        Some(field) => {
            stack.top = Level::Field(field.id, field.kind, field.held);
            Ok(true)
        }
    }
}

// Passes over what comes first. The answer says whether anything is still open.
fn step<P: Parts>(stack: &mut Stack, c: &mut Cursor<'_>) -> Result<bool, Halted>
    ensures stepped { Stepped P.spells P.reads stack.old c.old.rest result stack.new c.new.rest }
    ensures place { Stays c.old c.new }
{
    match first_of_level(stack.top) {
        Coming::Header(last) => header_step::<P>(stack, c, last),
        Coming::End => Ok(stack.leave()),
        Coming::Value(kind, held, behind) => {
            value_step::<P>(stack, c, kind, held, behind)?;
            Ok(true)
        }
    }
}

// Walks on until the struct ends or the walk halts.
pub(crate) fn walk<P: Parts>(stack: &mut Stack, c: &mut Cursor<'_>) -> Result<(), Halted>
    ensures walked { Walked P.spells P.reads stack.old c.old.rest result stack.new c.new.rest }
    ensures place { Stays c.old c.new }
{
    'steps: loop {
        if !step::<P>(stack, c)? {
            return Ok(());
        }
    }
}
