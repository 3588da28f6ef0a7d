//! Plain pairs, as nearly all attributes are: known by their shape, before any walk over records.
ghost use Rattle.std.specs.Prelude.{◌≡◌, ◌<◌, ℕ, length, IfOk, IfSome};
ghost use Rattle.std.specs.Int.{w64, cast_signed};
ghost use Rattle.span_io.specs.Varint.{SpellsVarint};
ghost use Rattle.otlp_proto.specs.private.PlainPairs.{short_field, value_of, IsPlainValue, IsPlainPair};

use span_io::{Cursor, OutOfMemory, Text};
use std::alloc::Global;
use trace_model::Value;

/// The value of a plain pair, where it lies in the message.
#[derive(Clone, Copy)]
pub enum PlainValue<'a> {
    Text(&'a str),
    Number(i64),
    Truth(bool),
}

/// A `KeyValue` whose key and value have lengths of a byte each, and whose value is a text, a number
/// or a truth and nothing else.
#[derive(Clone, Copy)]
pub struct PlainPair<'a> {
    pub key: &'a str,
    pub value: PlainValue<'a>,
}

impl PlainPair<'_> {
    /// The key and the value, in memory of their own.
    #[inline(always)]
    pub fn owned(&self, alloc: Global) -> Result<(Text, Value), OutOfMemory>
        ensures key { IfOk result (λ pair. pair.0 ≡ self.now.key.now) }
        ensures value { IfOk result (λ pair. pair.1 ≡ value_of self.now.value) }
    {
        let key = Text::of(alloc, self.key)?;
        let value = match self.value {
            PlainValue::Text(text) => Value::Text(Text::of(alloc, text)?),
            PlainValue::Number(n) => Value::Number(n),
            PlainValue::Truth(truth) => Value::Truth(truth),
        };
        Ok((key, value))
    }
}

// What the field at the front holds that begins with this byte and has a length of a byte, and what
// stands behind it.
#[inline(always)]
fn front_field(begins: u8, bytes: &[u8]) -> Option<(&[u8], &[u8])>
    ensures length { IfSome result (λ parts. length parts.0.now < 128) }
    ensures parts { IfSome result
        (λ parts. bytes.now ≡ short_field begins parts.0.now parts.1.now) }
{
    let [first, size, rest @ ..] = bytes else {
        return None;
    };
    if *first != begins || *size >= 128 {
        return None;
    }
    rest.split_at_checked(usize::from(*size))
}

// A value that is a text, if these bytes are one.
#[inline(always)]
fn plain_text(held: &[u8]) -> Option<PlainValue<'_>>
    ensures { IfSome result (λ value. IsPlainValue value held.now) }
{
    let (text, behind) = front_field(10, held)?;
    if !behind.is_empty() {
        return None;
    }
    let text = str::from_utf8(text).ok()?;
    Some(PlainValue::Text(text))
}

// A value that is a number, if these bytes are one behind the byte that begins it.
#[inline(always)]
fn plain_number(digits: &[u8]) -> Option<i64>
    ensures { IfSome result
        (λ n. (bits : ℕ) × SpellsVarint digits.now bits × (n ≡ cast_signed w64 bits)) }
{
    let mut cursor = Cursor::new(digits);
    let n = cursor.varint().ok()?;
    if cursor.remaining() > 0 {
        return None;
    }
    Some(n.cast_signed())
}

// The plain value that these bytes are, if they are one.
#[inline(always)]
fn plain_value(held: &[u8]) -> Option<PlainValue<'_>>
    ensures { IfSome result (λ value. IsPlainValue value held.now) }
{
    match held {
        [16, 0] => Some(PlainValue::Truth(false)),
        [16, 1] => Some(PlainValue::Truth(true)),
        [24, digits @ ..] => Some(PlainValue::Number(plain_number(digits)?)),
        _ => plain_text(held),
    }
}

/// The plain pair that these bytes are, if they are one.
#[inline(always)]
pub fn plain_pair(bytes: &[u8]) -> Option<PlainPair<'_>>
    ensures { IfSome result (λ pair. IsPlainPair pair bytes.now) }
{
    let (key, behind) = front_field(10, bytes)?;
    let (held, rest) = front_field(18, behind)?;
    if !rest.is_empty() {
        return None;
    }
    let value = plain_value(held)?;
    let key = str::from_utf8(key).ok()?;
    Some(PlainPair { key, value })
}
