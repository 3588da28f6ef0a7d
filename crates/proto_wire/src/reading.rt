//! Records of a protobuf message, one after the other.
ghost use Rattle.std.specs.Prelude.{◌≡◌, ◌≢◌, ◌+◌, ◌*◌, ◌/◌, ◌%◌, ◌<◌, ◌≤◌, ◌↔◌, ℕ, List, [], length, None, Some, Ok, IfOk, IfSome, IfErr, OnErr, IsErrOf};
ghost use Rattle.span_io.specs.Causes.{cause_number};
ghost use Rattle.proto_wire.specs.Messages.{NoRecord};
ghost use Rattle.proto_wire.specs.Records.{Record, plain_record};
ghost use Rattle.proto_wire.specs.Wire.{BeginsRecord, IsOpenRecord, HasOverlong, HasBadKey};
ghost use Rattle.proto_wire.specs.Reading.{number_at, held_bytes_at, field_number, held_at, record_at, GivesNext, IsNext, IsEnd};
ghost use Rattle.proto_wire.specs.private.Given.{GivesNumber, GivesBytes, GivesHeld, GivesRecord};

use crate::record::{Payload, WireRecord};
use span_io::{Cause, Cursor, Lack, Short};

// The number of the varint that stands here.
#[inline(always)]
pub(crate) fn number(c: &mut Cursor<'_>) -> Result<u64, Cause>
    ensures exact { GivesNumber result c.new.rest (number_at c.old.rest) }
    ensures place { c.new.place + length c.new.rest ≡ c.old.place + length c.old.rest }
{
    match c.varint() {
        Ok(n) => Ok(n),
        Err(Lack::Short) => Err(Cause::Truncated),
        Err(Lack::BadVarint) => Err(Cause::BadVarint),
    }
}

// The next bytes.
#[inline(always)]
fn held_bytes<'a>(c: &mut Cursor<'a>, size: u64) -> Result<&'a [u8], Cause>
    ensures exact { GivesBytes result c.new.rest (held_bytes_at size c.old.rest) }
    ensures place { c.new.place + length c.new.rest ≡ c.old.place + length c.old.rest }
{
    match c.take(size as usize) {
        Ok(held) => Ok(held),
        Err(Short) => Err(Cause::Truncated),
    }
}

// What a record of this wire type holds.
#[inline(always)]
#[tactic(auto, unfolding(crate::specs::Reading::held_at))]
fn held<'a>(c: &mut Cursor<'a>, wire_type: u64) -> Result<Payload<'a>, Cause>
    ensures exact { GivesHeld result c.new.rest (held_at wire_type c.old.rest) }
    ensures place { c.new.place + length c.new.rest ≡ c.old.place + length c.old.rest }
{
    if wire_type == 0 {
        return match number(c) {
            Ok(n) => Ok(Payload::Varint(n)),
            Err(cause) => Err(cause),
        };
    }
    if wire_type == 1 {
        return match c.le64() {
            Ok(n) => Ok(Payload::Fixed64(n)),
            Err(Short) => Err(Cause::Truncated),
        };
    }
    if wire_type == 2 {
        return sized(c);
    }
    if wire_type == 5 {
        return match c.le32() {
            Ok(n) => Ok(Payload::Fixed32(n)),
            Err(Short) => Err(Cause::Truncated),
        };
    }
    Err(Cause::BadWire)
}

// Bytes behind their number.
#[inline(always)]
#[tactic(auto, unfolding(crate::specs::Reading::held_at))]
fn sized<'a>(c: &mut Cursor<'a>) -> Result<Payload<'a>, Cause>
    ensures exact { GivesHeld result c.new.rest (held_at 2 c.old.rest) }
    ensures place { c.new.place + length c.new.rest ≡ c.old.place + length c.old.rest }
{
    match number(c) {
        Ok(size) => match held_bytes(c, size) {
            Ok(held) => Ok(Payload::Bytes(held)),
            Err(cause) => Err(cause),
        },
        Err(cause) => Err(cause),
    }
}

// The field number in a key.
#[inline(always)]
#[tactic(auto, unfolding(crate::specs::Reading::field_number))]
pub(crate) fn field_of(key: u64) -> Result<u32, Cause>
    ensures exact { result ≡ field_number key }
{
    let number = key / 8;
    if number < 1 || number > 536_870_911 {
        return Err(Cause::BadWire);
    }
    Ok(number as u32)
}

// The record at the front of bytes that aren't empty.
#[inline(always)]
#[tactic(auto, unfolding(crate::specs::Reading::record_at))]
fn record<'a>(c: &mut Cursor<'a>) -> Result<WireRecord<'a>, Cause>
    requires { 0 < length c.old.rest }
    ensures exact { GivesRecord result c.new.rest (record_at c.old.rest) }
    ensures place { c.new.place + length c.new.rest ≡ c.old.place + length c.old.rest }
{
    let key = match number(c) {
        Ok(key) => key,
        Err(cause) => return Err(cause),
    };
    let number = match field_of(key) {
        Ok(number) => number,
        Err(cause) => return Err(cause),
    };
    match held(c, key % 8) {
        Ok(payload) => Ok(WireRecord { number, payload }),
        Err(cause) => Err(cause),
    }
}

// The record of bytes that stands here, if its key and its number take a byte each, as most do.
#[inline(always)]
fn short_record<'a>(c: &mut Cursor<'a>) -> Option<WireRecord<'a>>
    ensures some { IfSome result
        (λ r. record_at c.old.rest ≡ Ok (Some (plain_record r), c.new.rest)) }
    ensures none { result ≡ None → c.new ≡ c.old }
    ensures place { c.new.place + length c.new.rest ≡ c.old.place + length c.old.rest }
{
    let [key, size, ..] = c.rest() else {
        return None;
    };
    if *key < 8 || *key >= 128 || *key % 8 != 2 || *size >= 128 {
        return None;
    }
    let Ok(taken) = c.take(2 + usize::from(*size)) else {
        return None;
    };
    Some(WireRecord {
        number: u32::from(*key / 8),
        payload: Payload::Bytes(&taken[2..]),
    })
}

// The next record, or None at the end. A refusal leaves the place.
#[inline(always)]
pub(crate) fn next<'a>(c: &mut Cursor<'a>) -> Result<Option<WireRecord<'a>>, Cause>
    ensures exact { GivesNext result c.new.rest (record_at c.old.rest) }
    ensures place { c.new.place + length c.new.rest ≡ c.old.place + length c.old.rest }
    ensures err { OnErr result (c.new ≡ c.old) }
{
    match short_record(c) {
        Some(found) => Ok(Some(found)),
        None => next_of_any(c),
    }
}

// The same, by the steps that read each record.
#[inline(never)]
#[tactic(auto, unfolding(crate::specs::Reading::record_at))]
fn next_of_any<'a>(c: &mut Cursor<'a>) -> Result<Option<WireRecord<'a>>, Cause>
    ensures exact { GivesNext result c.new.rest (record_at c.old.rest) }
    ensures place { c.new.place + length c.new.rest ≡ c.old.place + length c.old.rest }
    ensures err { OnErr result (c.new ≡ c.old) }
{
    if c.remaining() == 0 {
        return Ok(None);
    }
    let mut at = c.again();
    match record(&mut at) {
        Ok(found) => {
            *c = at;
            Ok(Some(found))
        }
        Err(cause) => Err(cause),
    }
}

/// Reads the next record of a message, None at its end. Groups (wire types 3 and 4), the unused wire
/// types 6 and 7, and field numbers outside 1 to 536,870,911 are BadWire (proto3 wire format).
pub fn next_record<'a>(c: &mut Cursor<'a>) -> Result<Option<WireRecord<'a>>, Cause>
    // What is read begins the bytes, and what begins the bytes is read, whatever follows.
    ensures found { IfOk result
        (λ next. IfSome next (λ r. BeginsRecord (plain_record r) c.old.rest c.new.rest)) }
    ensures only { (r : Record) (rest : List ℕ) → BeginsRecord r c.old.rest rest
        → IsNext result r × (c.new.rest ≡ rest) }
    ensures exact { GivesNext result c.new.rest (record_at c.old.rest) }

    // When each refusal comes.
    ensures end { IsEnd result ↔ (c.old.rest ≡ []) }
    ensures truncated { IsErrOf result Cause.Truncated
        ↔ ((c.old.rest ≢ []) × IsOpenRecord c.old.rest) }
    ensures overlong { IsErrOf result Cause.BadVarint ↔ HasOverlong c.old.rest }
    ensures bad_key { IsErrOf result Cause.BadWire ↔ HasBadKey c.old.rest }
    ensures unread { IfErr result (λ cause. NoRecord c.old.rest (cause_number cause)) }
    ensures causes { IfErr result (λ cause. cause_number cause ≤ 3) }

    // A record takes bytes, and a refusal leaves the place.
    ensures nearer { IfOk result
        (λ next. IfSome next (λ _. length c.new.rest < length c.old.rest)) }
    ensures place { c.new.place + length c.new.rest ≡ c.old.place + length c.old.rest }
    ensures err { OnErr result (c.new ≡ c.old) }
{
    span_io::laws::varint_readings();
    next(c)
}
