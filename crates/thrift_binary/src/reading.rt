//! The parts of a text in the binary protocol, read.
ghost use Rattle.std.specs.Prelude.{◌≡◌, ◌+◌, ◌<◌, ◌≤◌, ℕ, ℤ, Bool, Option, Some, None, List, length, OnErr, Err, Any, true, ◌↔◌, ◌≢◌};
ghost use Rattle.std.specs.Int.{w8, w16, w32, w64};
ghost use Rattle.thrift_core.specs.Reading.{GivesWord, Stays};
ghost use Rattle.thrift_spellings.specs.BinarySpelling.{signed, binary_is_true, as_they_are};
ghost use Rattle.thrift_spellings.specs.BinaryReading.{fixed_at, binary_size_at, binary_header_at, binary_list_at, binary_map_at};

use crate::type_codes::type_of;
use span_io::{Cause, Cursor, Short};
use thrift_core::{Field, ListHead, MapHead, why_not, why_not_both};

// A byte.
#[inline(always)]
#[tactic(auto, using(crate::proofs::Fixed::of_byte))]
pub(crate) fn byte_of(c: &mut Cursor<'_>) -> Result<i8, Cause>
    ensures exact { GivesWord result c.new.rest (fixed_at ℤ 1 (signed w8) c.old.rest) }
    ensures place { Stays c.old c.new }
    ensures err { OnErr result (c.new ≡ c.old) }
{
    match c.byte() {
        Ok(b) => Ok(b.cast_signed()),
        Err(Short) => Err(Cause::Truncated),
    }
}

#[inline(always)]
#[tactic(auto, using(crate::proofs::Fixed::of_byte))]
pub(crate) fn truth_of(c: &mut Cursor<'_>) -> Result<bool, Cause>
    ensures exact { GivesWord result c.new.rest (fixed_at Bool 1 binary_is_true c.old.rest) }
    ensures place { Stays c.old c.new }
    ensures err { OnErr result (c.new ≡ c.old) }
{
    match c.byte() {
        Ok(b) => Ok(b != 0),
        Err(Short) => Err(Cause::Truncated),
    }
}

#[inline(always)]
#[tactic(auto, using(crate::proofs::Fixed::of_bytes))]
pub(crate) fn short_of(c: &mut Cursor<'_>) -> Result<i16, Cause>
    ensures exact { GivesWord result c.new.rest (fixed_at ℤ 2 (signed w16) c.old.rest) }
    ensures place { Stays c.old c.new }
    ensures err { OnErr result (c.new ≡ c.old) }
{
    match c.be16() {
        Ok(n) => Ok(n.cast_signed()),
        Err(Short) => Err(Cause::Truncated),
    }
}

#[inline(always)]
#[tactic(auto, using(crate::proofs::Fixed::of_bytes))]
pub(crate) fn int_of(c: &mut Cursor<'_>) -> Result<i32, Cause>
    ensures exact { GivesWord result c.new.rest (fixed_at ℤ 4 (signed w32) c.old.rest) }
    ensures place { Stays c.old c.new }
    ensures err { OnErr result (c.new ≡ c.old) }
{
    match c.be32() {
        Ok(n) => Ok(n.cast_signed()),
        Err(Short) => Err(Cause::Truncated),
    }
}

#[inline(always)]
#[tactic(auto, using(crate::proofs::Fixed::of_bytes))]
pub(crate) fn long_of(c: &mut Cursor<'_>) -> Result<i64, Cause>
    ensures exact { GivesWord result c.new.rest (fixed_at ℤ 8 (signed w64) c.old.rest) }
    ensures place { Stays c.old c.new }
    ensures err { OnErr result (c.new ≡ c.old) }
{
    match c.be64() {
        Ok(n) => Ok(n.cast_signed()),
        Err(Short) => Err(Cause::Truncated),
    }
}

#[inline(always)]
#[tactic(auto, using(crate::proofs::Fixed::of_bytes))]
pub(crate) fn eight_of(c: &mut Cursor<'_>) -> Result<[u8; 8], Cause>
    ensures exact { GivesWord result c.new.rest (fixed_at (List ℕ) 8 as_they_are c.old.rest) }
    ensures place { Stays c.old c.new }
    ensures err { OnErr result (c.new ≡ c.old) }
{
    let mut at = c.again();
    let Ok(taken) = at.take(8) else {
        return Err(Cause::Truncated);
    };
    let Ok(bytes) = <[u8; 8]>::try_from(taken) else {
        return Err(Cause::Truncated);
    };
    *c = at;
    Ok(bytes)
}

// Why a size of which bytes are missing isn't read: its shortest front that is refused decides.
#[tactic(auto, using(crate::proofs::Sizes::where_short))]
#[inline(never)]
fn why_short(bytes: &[u8], why: Option<Cause>) -> Cause
    requires { length bytes.now < 4 }
    ensures exact { binary_size_at why bytes.now ≡ Err result }
{
    let Some(first) = bytes.first() else {
        return Cause::Truncated;
    };
    match why {
        None if *first < 128 => Cause::Truncated,
        None => Cause::BadSize,
        Some(cause) if has_some(bytes) => cause,
        Some(_) => Cause::Truncated,
    }
}

// One of the bytes isn't 0.
fn has_some(bytes: &[u8]) -> bool
    ensures { result ≡ true ↔ Any (λ b. b ≢ 0) bytes.now }
{
    bytes.iter().any(|b| *b != 0)
}

// The size that stands behind what may have no elements, for this cause.
#[tactic(auto, using(crate::proofs::Sizes::where_whole))]
#[inline(always)]
pub(crate) fn size_of(c: &mut Cursor<'_>, why: Option<Cause>) -> Result<u32, Cause>
    ensures exact { GivesWord result c.new.rest (binary_size_at why c.old.rest) }
    ensures place { Stays c.old c.new }
{
    let whole = c.rest();
    let Some(first) = whole.first() else {
        return Err(Cause::Truncated);
    };
    let Ok(number) = c.be32() else {
        return Err(why_short(whole, why));
    };
    if number == 0 {
        return Ok(0);
    }
    if let Some(cause) = why {
        return Err(cause);
    }
    if *first > 127 {
        return Err(Cause::BadSize);
    }
    Ok(number)
}

// The head of a field, or the stop.
#[tactic(auto, using(crate::proofs::Heads::of_header))]
#[inline(always)]
pub(crate) fn header_of(c: &mut Cursor<'_>, left: u8) -> Result<Option<Field>, Cause>
    ensures exact { GivesWord result c.new.rest (binary_header_at left c.old.rest) }
    ensures place { Stays c.old c.new }
{
    let code = match c.byte() {
        Ok(code) => code,
        Err(Short) => return Err(Cause::Truncated),
    };
    if code == 0 {
        return Ok(None);
    }
    let Some(kind) = type_of(code) else {
        return Err(Cause::BadWire);
    };
    if let Some(cause) = why_not(left, Some(kind)) {
        return Err(cause);
    }
    match short_of(c) {
        Ok(id) => Ok(Some(Field {
            id,
            kind,
            held: None,
        })),
        Err(cause) => Err(cause),
    }
}

#[tactic(auto, using(crate::proofs::Heads::of_list))]
#[inline(always)]
pub(crate) fn list_of(c: &mut Cursor<'_>, left: u8) -> Result<ListHead, Cause>
    ensures exact { GivesWord result c.new.rest (binary_list_at left c.old.rest) }
    ensures place { Stays c.old c.new }
{
    let element = match c.byte() {
        Ok(code) => type_of(code),
        Err(Short) => return Err(Cause::Truncated),
    };
    match size_of(c, why_not(left, element)) {
        Ok(size) => Ok(ListHead { element, size }),
        Err(cause) => Err(cause),
    }
}

#[tactic(auto, using(crate::proofs::Heads::of_map))]
#[inline(always)]
pub(crate) fn map_of(c: &mut Cursor<'_>, left: u8) -> Result<MapHead, Cause>
    ensures exact { GivesWord result c.new.rest (binary_map_at left c.old.rest) }
    ensures place { Stays c.old c.new }
{
    let key = match c.byte() {
        Ok(code) => type_of(code),
        Err(Short) => return Err(Cause::Truncated),
    };
    let value = match c.byte() {
        Ok(code) => type_of(code),
        Err(Short) => return Err(Cause::Truncated),
    };
    match size_of(c, why_not_both(left, key, value)) {
        Ok(size) => Ok(MapHead { key, value, size }),
        Err(cause) => Err(cause),
    }
}
