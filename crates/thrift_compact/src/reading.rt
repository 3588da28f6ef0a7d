//! The parts of a text in the compact protocol, read.
ghost use Rattle.std.specs.Prelude.{◌≡◌, ◌+◌, ◌<◌, length, OnErr};
ghost use Rattle.std.specs.Int.{w8, cast_signed};
ghost use Rattle.span_io.specs.Zigzag.{zigzag_at};
ghost use Rattle.span_io.specs.declared.cause.Cause.TheVariants as causes;
ghost use Rattle.thrift_core.specs.Reading.{GivesWord, Stays, unless};
ghost use Rattle.thrift_spellings.specs.CompactSpelling.{compact_is_true};
ghost use Rattle.thrift_spellings.specs.CompactReading as parts;

use crate::type_codes::{held_of, type_of};
use span_io::{Cause, Cursor, Lack, Short};
use thrift_core::{Field, ListHead, MapHead, why_not, why_not_both};

#[inline(always)]
fn cause_of(lack: Lack) -> Cause
    ensures { result ≡ parts.lack_cause lack }
{
    match lack {
        Lack::Short => Cause::Truncated,
        Lack::BadVarint => Cause::BadVarint,
    }
}

#[inline(always)]
#[tactic(auto, using(crate::proofs::Numbers::of_byte))]
pub(crate) fn byte_of(c: &mut Cursor<'_>) -> Result<i8, Cause>
    ensures exact { GivesWord result c.new.rest (parts.byte_at (cast_signed w8) c.old.rest) }
    ensures place { Stays c.old c.new }
    ensures err { OnErr result (c.new ≡ c.old) }
{
    match c.byte() {
        Ok(b) => Ok(b.cast_signed()),
        Err(Short) => Err(Cause::Truncated),
    }
}

#[inline(always)]
#[tactic(auto, using(crate::proofs::Numbers::of_byte))]
pub(crate) fn truth_of(c: &mut Cursor<'_>) -> Result<bool, Cause>
    ensures exact { GivesWord result c.new.rest (parts.byte_at compact_is_true c.old.rest) }
    ensures place { Stays c.old c.new }
    ensures err { OnErr result (c.new ≡ c.old) }
{
    match c.byte() {
        Ok(b) => Ok(b == 1),
        Err(Short) => Err(Cause::Truncated),
    }
}

#[inline(always)]
#[tactic(auto, using(crate::proofs::Numbers::of_long))]
pub(crate) fn long_of(c: &mut Cursor<'_>) -> Result<i64, Cause>
    ensures exact { GivesWord result c.new.rest (parts.told (zigzag_at c.old.rest)) }
    ensures place { Stays c.old c.new }
    ensures err { OnErr result (c.new ≡ c.old) }
{
    match c.zigzag() {
        Ok(number) => Ok(number),
        Err(lack) => Err(cause_of(lack)),
    }
}

// A number of 16 bits, or for this cause none.
#[inline(always)]
#[tactic(auto, using(crate::proofs::Numbers::of_signed))]
pub(crate) fn short_of(c: &mut Cursor<'_>, outside: Cause) -> Result<i16, Cause>
    ensures exact { GivesWord result c.new.rest (parts.signed_at 15 outside c.old.rest) }
    ensures place { Stays c.old c.new }
{
    match long_of(c) {
        Ok(number) if number < -32_768 => Err(outside),
        Ok(number) if number > 32_767 => Err(outside),
        Ok(number) => Ok(number as i16),
        Err(cause) => Err(cause),
    }
}

#[inline(always)]
#[tactic(auto, using(crate::proofs::Numbers::of_signed))]
pub(crate) fn int_of(c: &mut Cursor<'_>) -> Result<i32, Cause>
    ensures exact { GivesWord result c.new.rest (parts.signed_at 31 causes.BadVarint c.old.rest) }
    ensures place { Stays c.old c.new }
{
    match long_of(c) {
        Ok(number) if number < -2_147_483_648 => Err(Cause::BadVarint),
        Ok(number) if number > 2_147_483_647 => Err(Cause::BadVarint),
        Ok(number) => Ok(number as i32),
        Err(cause) => Err(cause),
    }
}

// A double's least significant byte stands first.
#[inline(always)]
#[tactic(auto, using(crate::proofs::Numbers::of_eight))]
pub(crate) fn eight_of(c: &mut Cursor<'_>) -> Result<[u8; 8], Cause>
    ensures exact { GivesWord result c.new.rest (parts.eight_at c.old.rest) }
    ensures place { Stays c.old c.new }
    ensures err { OnErr result (c.new ≡ c.old) }
{
    let mut at = c.again();
    let Ok(taken) = at.take(8) else {
        return Err(Cause::Truncated);
    };
    let Ok(mut bytes) = <[u8; 8]>::try_from(taken) else {
        return Err(Cause::Truncated);
    };
    bytes.reverse();
    *c = at;
    Ok(bytes)
}

// ---- sizes

// This size, unless, behind what may have no elements, for this cause, it isn't 0, or it is too large.
#[inline(always)]
fn sized(why: Option<Cause>, size: u64) -> Result<u32, Cause>
    ensures { result ≡ unless (parts.why_size why size) size }
{
    if size == 0 {
        return Ok(0);
    }
    if let Some(cause) = why {
        return Err(cause);
    }
    if size > 2_147_483_647 {
        return Err(Cause::BadSize);
    }
    Ok(size as u32)
}

#[inline(always)]
#[tactic(auto, using(crate::proofs::Numbers::of_size))]
pub(crate) fn size_of(c: &mut Cursor<'_>, why: Option<Cause>) -> Result<u32, Cause>
    ensures exact { GivesWord result c.new.rest (parts.compact_size_at why c.old.rest) }
    ensures place { Stays c.old c.new }
{
    match c.varint() {
        Ok(size) => sized(why, size),
        Err(lack) => Err(cause_of(lack)),
    }
}

// ---- heads

// The id that stands so much behind the last, or, where that isn't told, its own number.
#[inline(always)]
#[tactic(auto, using(crate::proofs::Heads::of_id))]
fn id_of(c: &mut Cursor<'_>, last: i16, difference: u8) -> Result<i16, Cause>
    ensures exact { GivesWord result c.new.rest (parts.id_at last difference c.old.rest) }
    ensures place { Stays c.old c.new }
{
    if difference == 0 {
        return short_of(c, Cause::BadWire);
    }
    let id = i32::from(last) + i32::from(difference);
    if id > 32_767 {
        return Err(Cause::BadWire);
    }
    Ok(id as i16)
}

// The head of a field, or the stop.
#[inline(always)]
#[tactic(auto, using(crate::proofs::Heads::of_header))]
pub(crate) fn header_of(c: &mut Cursor<'_>, last: i16, left: u8) -> Result<Option<Field>, Cause>
    ensures exact { GivesWord result c.new.rest (parts.compact_header_at left last c.old.rest) }
    ensures place { Stays c.old c.new }
{
    let byte = match c.byte() {
        Ok(byte) => byte,
        Err(Short) => return Err(Cause::Truncated),
    };
    if byte == 0 {
        return Ok(None);
    }
    let code = byte % 16;
    let Some(kind) = type_of(code) else {
        return Err(Cause::BadWire);
    };
    if let Some(cause) = why_not(left, Some(kind)) {
        return Err(cause);
    }
    match id_of(c, last, byte / 16) {
        Ok(id) => Ok(Some(Field {
            id,
            kind,
            held: held_of(code),
        })),
        Err(cause) => Err(cause),
    }
}

// The size that stands beside the type, or behind it.
#[inline(always)]
#[tactic(auto, using(crate::proofs::Heads::of_list_size))]
fn list_size_of(c: &mut Cursor<'_>, why: Option<Cause>, beside: u8) -> Result<u32, Cause>
    ensures exact { GivesWord result c.new.rest (parts.list_size_at why beside c.old.rest) }
    ensures place { Stays c.old c.new }
{
    if beside < 15 {
        return sized(why, u64::from(beside));
    }
    size_of(c, why)
}

#[inline(always)]
#[tactic(auto, using(crate::proofs::Heads::of_list))]
pub(crate) fn list_of(c: &mut Cursor<'_>, left: u8) -> Result<ListHead, Cause>
    ensures exact { GivesWord result c.new.rest (parts.compact_list_at left c.old.rest) }
    ensures place { Stays c.old c.new }
{
    let byte = match c.byte() {
        Ok(byte) => byte,
        Err(Short) => return Err(Cause::Truncated),
    };
    let element = type_of(byte % 16);
    match list_size_of(c, why_not(left, element), byte / 16) {
        Ok(size) => Ok(ListHead { element, size }),
        Err(cause) => Err(cause),
    }
}

#[inline(always)]
#[tactic(auto, using(crate::proofs::Heads::of_map))]
pub(crate) fn map_of(c: &mut Cursor<'_>, left: u8) -> Result<MapHead, Cause>
    ensures exact { GivesWord result c.new.rest (parts.compact_map_at left c.old.rest) }
    ensures place { Stays c.old c.new }
{
    let size = match size_of(c, None) {
        Ok(size) => size,
        Err(cause) => return Err(cause),
    };
    if size == 0 {
        return Ok(MapHead {
            key: None,
            value: None,
            size,
        });
    }
    let types = match c.byte() {
        Ok(types) => types,
        Err(Short) => return Err(Cause::Truncated),
    };
    let key = type_of(types / 16);
    let value = type_of(types % 16);
    match why_not_both(left, key, value) {
        Some(cause) => Err(cause),
        None => Ok(MapHead { key, value, size }),
    }
}
