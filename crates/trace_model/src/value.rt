//! The values of attributes.
ghost use Rattle.std.specs.Prelude.{◌≡◌, IfOk};
ghost use Rattle.std.specs.List.{list_any};
ghost use Rattle.trace_model.specs.EventTexts.{has_bytes};
ghost use Rattle.trace_model.specs.ValueTexts.{has_double};

use span_io::{Bytes, Items, OutOfMemory, Text};
use std::alloc::Global;

/// The value of an attribute (OTLP `AnyValue`).
#[derive(Debug, Drop)]
pub enum Value {
    Text(Text),
    Truth(bool),
    Number(i64),
    /// The eight bytes of a double, the most significant one first.
    Eight([u8; 8]),
    Bytes(Bytes),
    List(Items<Value>),
    Map(Attrs),
    Nothing,
}

/// How many levels a value has at most: an attribute's own value stands at level 1, what a list or map
/// holds one below it, so that a list or map at the last level is empty.
pub const MOST_LEVELS: u8 = 24;

/// Attributes: pairs of a key and its value.
pub type Attrs = Items<(Text, Value)>;

impl Value {
    /// Another value, which equals this one.
    #[cycle(copies)]
    pub fn copy(&self, alloc: Global) -> Result<Value, OutOfMemory>
        ensures { IfOk result (λ copy. copy ≡ self.now) }
    {
        let copy = match self {
            Value::Text(text) => Value::Text(text.copy()?),
            Value::Truth(truth) => Value::Truth(*truth),
            Value::Number(number) => Value::Number(*number),
            Value::Eight(bytes) => Value::Eight(*bytes),
            Value::Bytes(bytes) => Value::Bytes(bytes.copy()?),
            Value::List(members) => Value::List(members_copy(alloc, members)?),
            Value::Map(pairs) => Value::Map(attrs_copy(alloc, pairs)?),
            Value::Nothing => Value::Nothing,
        };
        Ok(copy)
    }

    /// Whether a double stands in the value, at any depth.
    #[cycle(doubles)]
    pub fn holds_double(&self) -> bool
        ensures { result ≡ has_double self.now }
    {
        match self {
            Value::Eight(_) => true,
            Value::List(members) => holds_double_in(members.as_slice()),
            Value::Map(pairs) => holds_double_under(pairs.as_slice()),
            _ => false,
        }
    }

    /// Whether bytes stand in the value, at any depth.
    #[cycle(bytes)]
    pub fn holds_bytes(&self) -> bool
        ensures { result ≡ has_bytes self.now }
    {
        match self {
            Value::Bytes(_) => true,
            Value::List(members) => holds_bytes_in(members.as_slice()),
            Value::Map(pairs) => holds_bytes_under(pairs.as_slice()),
            _ => false,
        }
    }
}

#[cycle(doubles)]
fn holds_double_in(members: &[Value]) -> bool
    ensures { result ≡ list_any has_double members.now }
{
    'members: for member in members {
        if member.holds_double() {
            return true;
        }
    }
    false
}

#[cycle(doubles)]
pub fn holds_double_under(pairs: &[(Text, Value)]) -> bool
    ensures { result ≡ list_any (λ pair. has_double pair.1) pairs.now }
{
    'pairs: for pair in pairs {
        if pair.1.holds_double() {
            return true;
        }
    }
    false
}

#[cycle(bytes)]
fn holds_bytes_in(members: &[Value]) -> bool
    ensures { result ≡ list_any has_bytes members.now }
{
    'members: for member in members {
        if member.holds_bytes() {
            return true;
        }
    }
    false
}

#[cycle(bytes)]
fn holds_bytes_under(pairs: &[(Text, Value)]) -> bool
    ensures { result ≡ list_any (λ pair. has_bytes pair.1) pairs.now }
{
    'pairs: for pair in pairs {
        if pair.1.holds_bytes() {
            return true;
        }
    }
    false
}

#[cycle(copies)]
fn members_copy(alloc: Global, members: &Items<Value>) -> Result<Items<Value>, OutOfMemory>
    ensures { IfOk result (λ copy. copy ≡ members.now) }
{
    let mut copies = Items::new(alloc);
    'members: for member in members.as_slice() {
        copies.push(member.copy(alloc)?)?;
    }
    Ok(copies)
}

/// Other attributes, which equal these.
#[cycle(copies)]
pub fn attrs_copy(alloc: Global, attributes: &Attrs) -> Result<Attrs, OutOfMemory>
    ensures { IfOk result (λ copy. copy ≡ attributes.now) }
{
    let mut copies = Items::new(alloc);
    'pairs: for pair in attributes.as_slice() {
        copies.push((pair.0.copy()?, pair.1.copy(alloc)?))?;
    }
    Ok(copies)
}
