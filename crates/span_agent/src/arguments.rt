//! The arguments of a message, and the batch among them.
ghost use Rattle.std.specs.Prelude.{◌≡◌, ◌≤◌, ◌∷◌, ◌++◌, ◌↔◌, ℕ, pos, [], List, Result, length, IfOk, IsTrue};
ghost use Rattle.thrift_core.specs.Trees.{all_levels};
ghost use Rattle.thrift_core.specs.Values.{BeginsValue, RefusesValue};
ghost use Rattle.span_agent.specs.Messages.{TellsBatch, told_by};
ghost use Rattle.span_agent.specs.private.Arguments.{Adds, AnswersArguments, Gathers, GivesBatches, Held, SaysBatch};
ghost use Rattle.span_agent.specs.declared.message.AgentCause.{AgentCause};
ghost use Rattle.thrift_core.specs.declared.type_code.TypeCode.TheVariants as kinds;

use crate::message::AgentCause;
use span_io::{Cause, Cursor};
use thrift_core::{Field, Parts, TypeCode, skip};

/// So many levels of containers are left in the arguments: all.
const ALL_LEVELS: u8 = 32;

/// The batches among the arguments so far.
#[derive(Clone, Copy)]
pub(crate) enum Batches<'a> {
    Absent,
    One(&'a [u8]),
    More,
}

impl<'a> Batches<'a> {
    // They, and one behind them.
    fn and(self, batch: &'a [u8]) -> Batches<'a>
        ensures { (held : List (List ℕ)) → Held self.entry held
            → Held result (held ++ batch.now ∷ []) }
    {
        match self {
            Batches::Absent => Batches::One(batch),
            Batches::One(_) | Batches::More => Batches::More,
        }
    }

    // What they say, with the bytes behind the arguments.
    fn told(self, behind: &[u8]) -> Result<&'a [u8], AgentCause>
        ensures { (held : List (List ℕ)) → Held self.entry held
            → SaysBatch result (told_by held behind.now) }
    {
        match self {
            Batches::More => Err(AgentCause::Reading(Cause::FieldTwice)),
            Batches::Absent if behind.is_empty() => Err(AgentCause::NoBatch),
            Batches::One(batch) if behind.is_empty() => Ok(batch),
            Batches::Absent | Batches::One(_) => Err(AgentCause::Tail),
        }
    }
}

/// The batch among the arguments that are all of these bytes.
pub(crate) fn batch_in<P: Parts>(bytes: &[u8]) -> Result<&[u8], AgentCause>
    ensures { (told : Result (List ℕ) AgentCause)
        → TellsBatch P.spells P.then_varint P.refuses bytes.now told
        ↔ SaysBatch result told }
{
    let mut c = Cursor::new(bytes);
    match batches_in::<P>(&mut c) {
        Ok(batches) => batches.told(c.rest()),
        Err(cause) => Err(AgentCause::Reading(cause)),
    }
}

// The batches among the arguments that stand here, which are passed over.
fn batches_in<'a, P: Parts>(c: &mut Cursor<'a>) -> Result<Batches<'a>, Cause>
    ensures stand { IfOk result (λ batches. GivesBatches P.spells batches c.old.rest c.new.rest) }
    ensures refused { AnswersArguments P.spells P.then_varint P.refuses result c.old.rest }
{
    let mut batches = Batches::Absent;
    let mut last: i16 = 0;
    'fields: loop {
        match P::field(c, last, ALL_LEVELS) {
            Ok(Some(found)) => {
                batches = gather::<P>(c, batches, found)?;
                last = found.id;
            }
            Ok(None) => return Ok(batches),
            Err(cause) => return Err(cause),
        }
    }
}

// The batches with the field of this head, whose value stands here and is passed over.
fn gather<'a, P: Parts>(
    c: &mut Cursor<'a>,
    batches: Batches<'a>,
    found: Field,
) -> Result<Batches<'a>, Cause>
    ensures ok { IfOk result
        (λ more. Gathers P.spells batches.entry more found c.old.rest c.new.rest) }
    ensures refused { RefusesValue P.spells P.then_varint P.refuses all_levels found.kind found.held result c.old.rest }
    ensures onward { length c.new.rest ≤ length c.old.rest }
{
    match value_of::<P>(c, found) {
        Ok(value) => Ok(with_field(batches, found, value)),
        Err(cause) => Err(cause),
    }
}

// The batches with the value of a field, if it is one.
fn with_field<'a>(batches: Batches<'a>, found: Field, value: &'a [u8]) -> Batches<'a>
    ensures { Adds batches.entry result found value.now }
{
    if is_batch(found) {
        return batches.and(value);
    }
    batches
}

// Whether the field of this head is a batch.
fn is_batch(found: Field) -> bool
    ensures { IsTrue result ↔ (found.id ≡ pos 1) × (found.kind ≡ kinds.Struct) }
{
    match found.kind {
        TypeCode::Struct => found.id == 1,
        _ => false,
    }
}

// The bytes of the value of a field, which stands here and is passed over.
fn value_of<'a, P: Parts>(c: &mut Cursor<'a>, found: Field) -> Result<&'a [u8], Cause>
    ensures value { IfOk result
        (λ lent. BeginsValue P.spells all_levels found.kind found.held lent.now []
        × (c.old.rest ≡ lent.now ++ c.new.rest)) }
    ensures refused { RefusesValue P.spells P.then_varint P.refuses all_levels found.kind found.held result c.old.rest }
    ensures onward { length c.new.rest ≤ length c.old.rest }
{
    let whole = c.rest();
    match skip::<P>(c, found.kind, found.held, ALL_LEVELS) {
        Ok(()) => {
            let size = whole.len() - c.remaining();
            Ok(&whole[..size])
        }
        Err(cause) => Err(cause),
    }
}
