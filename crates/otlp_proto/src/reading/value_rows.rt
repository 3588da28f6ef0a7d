//! What was gathered of the messages that values are made of, and what it gives.
ghost use Rattle.std.specs.Prelude.{◌≡◌, ◌++◌, ◌∷◌, [], ℕ, List, IfOk, OnOk};
ghost use Rattle.span_io.specs.Tables.{Twice};
ghost use Rattle.span_io.specs.private.RowSteps.{Adds, JudgesCause};
ghost use Rattle.otlp_proto.specs.Values.{Member, string_value, bytes_value, IsListText, IsMapText, value_in, key_value_in, value_at, key_value_at};
ghost use Rattle.trace_model.specs.OtlpParts.{leaf, entry};
ghost use Rattle.otlp_proto.specs.private.ValuesSoFar.{GatheredList, GatheredMap, GatheredMembers, GatheredValue, GatheredKeyValue, JudgesMember, SetsLeaf, GivesRead, GivesField};

use span_io::{Bytes, Cause, Halt, Items, OutOfMemory, Text, once, text_of};
use std::alloc::Global;
use trace_model::{KeyValue, Noted, Value, attrs_of};

/// A value, and the keys that stand more than once in a map inside it.
pub type NotedValue = Noted<Value, Items<Text>>;

/// What was gathered of a list so far.
#[derive(Drop)]
pub struct ListRows {
    values: Items<Value>,
    noted: Items<Text>,
}

/// What was gathered of a map so far.
#[derive(Drop)]
pub struct MapRows {
    pairs: Items<(Text, Value)>,
    noted: Items<Text>,
}

/// What was gathered of a `KeyValue` so far.
#[derive(Drop)]
pub struct KeyValueRows {
    pub key: Option<Text>,
    pub value: Option<NotedValue>,
}

impl ListRows {
    /// Nothing was gathered.
    pub fn none(alloc: Global) -> ListRows
        ensures { (left : ℕ) → GatheredList left [] result }
    {
        ListRows {
            values: Items::new(alloc),
            noted: Items::new(alloc),
        }
    }

    /// Adds a value.
    pub fn push(&mut self, read: NotedValue) -> Result<(), OutOfMemory>
        ensures values { OnOk result (self.new.values ≡ self.old.values ++ read.means ∷ []) }
        ensures noted { OnOk result (self.new.noted ≡ self.old.noted ++ read.notes) }
    {
        self.values.push(read.means)?;
        note_all(&mut self.noted, read.notes)
    }

    /// The list.
    pub fn finish(self) -> NotedValue
        ensures { GivesRead GatheredList (λ left. IsListText (value_in left)) self result }
    {
        Noted {
            means: Value::List(self.values),
            notes: self.noted,
        }
    }
}

impl MapRows {
    /// Nothing was gathered.
    pub fn none(alloc: Global) -> MapRows
        ensures { (left : ℕ) → GatheredMap left [] result }
    {
        MapRows {
            pairs: Items::new(alloc),
            noted: Items::new(alloc),
        }
    }

    /// Adds a `KeyValue`.
    pub fn push(&mut self, read: KeyValue) -> Result<(), OutOfMemory>
        ensures pairs { OnOk result (self.new.pairs ≡ self.old.pairs ++ entry read ∷ []) }
        ensures noted { OnOk result (self.new.noted ≡ self.old.noted ++ read.value.notes) }
    {
        push_key_value(&mut self.pairs, &mut self.noted, read)
    }

    /// The map.
    pub fn finish(self, alloc: Global) -> Result<NotedValue, OutOfMemory>
        ensures { IfOk result
            (λ r. GivesRead GatheredMap (λ left. IsMapText (key_value_in left)) self r) }
    {
        let (attributes, repeated) = attrs_of(alloc, self.pairs)?;
        let mut keys = self.noted;
        note_all(&mut keys, repeated)?;
        Ok(Noted {
            means: Value::Map(attributes),
            notes: keys,
        })
    }
}

/// A value in which no key is noted.
pub fn leaf_of(alloc: Global, value: Value) -> NotedValue
    ensures { result ≡ leaf value }
{
    Noted {
        means: value,
        notes: Items::new(alloc),
    }
}

/// Sets the row of a value by a member that needs no more memory.
pub fn leaf_member(alloc: Global, row: &mut Option<NotedValue>, value: Value) -> Result<(), Cause>
    ensures ok { OnOk result (SetsLeaf value row.old row.new) }
    ensures judged { (left : ℕ) (ms : List Member) → GatheredMembers left ms row.old
        → JudgesCause result (Twice ms) }
{
    once(row)?;
    *row = Some(leaf_of(alloc, value));
    Ok(())
}

/// Sets the row of a value by a text.
pub fn text_member(
    alloc: Global,
    row: &mut Option<NotedValue>,
    held: &[u8],
) -> Result<(), Halt<Cause>>
    ensures ok { OnOk result
        ((left : ℕ) → Adds (GatheredMembers left) (string_value held.now) row.old row.new) }
    ensures judged { (left : ℕ) → JudgesMember left row.old (string_value held.now) result }
{
    once(row)?;
    *row = Some(leaf_of(alloc, Value::Text(text_of(alloc, held)?)));
    Ok(())
}

/// Sets the row of a value by bytes.
pub fn bytes_member(
    alloc: Global,
    row: &mut Option<NotedValue>,
    held: &[u8],
) -> Result<(), Halt<Cause>>
    ensures ok { OnOk result
        ((left : ℕ) → Adds (GatheredMembers left) (bytes_value held.now) row.old row.new) }
    ensures judged { (left : ℕ) → JudgesMember left row.old (bytes_value held.now) result }
{
    once(row)?;
    *row = Some(leaf_of(alloc, Value::Bytes(Bytes::of(alloc, held)?)));
    Ok(())
}

/// The value of its row.
pub fn value_of(alloc: Global, row: Option<NotedValue>) -> NotedValue
    ensures message { GivesRead GatheredValue value_at row result }
    ensures field { GivesField row result }
{
    match row {
        Some(read) => read,
        None => leaf_of(alloc, Value::Nothing),
    }
}

/// The `KeyValue` of its rows.
pub fn key_value_of(alloc: Global, rows: KeyValueRows) -> KeyValue
    ensures { GivesRead GatheredKeyValue key_value_at rows result }
{
    KeyValue {
        key: rows.key.unwrap_or(Text::new(alloc)),
        value: value_of(alloc, rows.value),
    }
}

/// Adds keys at the end.
pub fn note_all(noted: &mut Items<Text>, more: Items<Text>) -> Result<(), OutOfMemory>
    ensures { OnOk result (noted.new ≡ noted.old ++ more) }
{
    'keys: for key in more.into_vec() {
        noted.push(key)?;
    }
    Ok(())
}

/// Adds a pair to what was gathered of others.
pub fn push_key_value(
    pairs: &mut Items<(Text, Value)>,
    noted: &mut Items<Text>,
    pair: KeyValue,
) -> Result<(), OutOfMemory>
    ensures pairs { OnOk result (pairs.new ≡ pairs.old ++ entry pair ∷ []) }
    ensures noted { OnOk result (noted.new ≡ noted.old ++ pair.value.notes) }
{
    let value = pair.value;
    pairs.push((pair.key, value.means))?;
    note_all(noted, value.notes)
}
