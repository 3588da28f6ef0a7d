//! Reading values: `AnyValue`, `ArrayValue`, `KeyValueList` and `KeyValue` (OTLP common.proto).
ghost use Rattle.std.specs.Prelude.{◌≡◌, ◌≤◌, ◌++◌, ℕ, List, [], Err, IfOk, OnOk, OnErr, Some, Bool, ℤ};
ghost use Rattle.json_nodes.specs.Lents.{lent_view as view, elements_left};
ghost use Rattle.span_io.specs.declared.halt.Halt.TheVariants as halts;
ghost use Rattle.span_io.specs.Causes.{cause_number};
ghost use Rattle.span_io.specs.Paths.{here, optional, Counts, Given, JudgesValue};
ghost use Rattle.trace_model.specs.OtlpParts.{leaf, IsNotedMap};
ghost use Rattle.json_members.specs.Members.{member, IsText, text_offends, IsTruth, truth_offends, Spelled};
ghost use Rattle.otlp_json.specs.private.Found.{part_member, AreFound, AreGiven, ValuesTold, PairsTold};
ghost use Rattle.otlp_json.specs.Numbers.{IsJsonSigned, signed_offends, SpellsBytes, base64_offends};
ghost use Rattle.otlp_json.specs.Values.{MeansJsonMember, IsJsonList, IsJsonMap, json_value_in, json_key_value_in, json_value_at, json_key_value_at, values_offend, held_offends, inner_value_offends, inner_pair_offends, json_member_offends, json_list_offends, json_map_offends, json_value_offends, json_key_value_offends};
ghost use Rattle.trace_model.specs.declared.value.Value.TheVariants as values;

use crate::reading::identifiers::bytes_in;
use crate::reading::lists::room_for;
use crate::reading::numbers::signed_of;
use crate::reading::standing::{Part, only_member};
use json_members::{member_of, text, text_of, truth_of};
use json_nodes::{Elements, Lent};
use span_io::{Cause, Halt, Items, OutOfMemory, Text};
use std::alloc::Global;
use trace_model::{Attrs, KeyValue, Noted, Value, attrs_of};

/// A value, and the keys that stand more than once in a map inside it.
type NotedValue = Noted<Value, Items<Text>>;

/// Values of a list, and the keys that are noted inside them.
type NotedValues = Noted<Items<Value>, Items<Text>>;

/// Pairs, and the keys that are noted inside their values.
pub type NotedPairs = Noted<Attrs, Items<Text>>;

// A value in which no key is noted.
fn leaf_of(alloc: Global, value: Value) -> NotedValue
    ensures { result ≡ leaf value }
{
    Noted {
        means: value,
        notes: Items::new(alloc),
    }
}

fn text_value(alloc: Global, v: &Lent<'_, '_>) -> Result<NotedValue, Halt<Cause>>
    ensures value { IfOk result
        (λ r. (text : List ℕ) × IsText text (view v.now) × (r ≡ leaf (values.Text text))) }
    ensures judged { JudgesValue result (text_offends (view v.now)) }
{
    let text = text_of(alloc, v)?;
    Ok(leaf_of(alloc, Value::Text(text)))
}

fn truth_value(alloc: Global, v: &Lent<'_, '_>) -> Result<NotedValue, Halt<Cause>>
    ensures value { IfOk result
        (λ r. (truth : Bool) × IsTruth truth (view v.now) × (r ≡ leaf (values.Truth truth))) }
    ensures judged { JudgesValue result (truth_offends (view v.now)) }
{
    let truth = truth_of(v)?;
    Ok(leaf_of(alloc, Value::Truth(truth)))
}

fn number_value(alloc: Global, v: &Lent<'_, '_>) -> Result<NotedValue, Halt<Cause>>
    ensures value { IfOk result
        (λ r. (z : ℤ) × IsJsonSigned z (view v.now) × (r ≡ leaf (values.Number z))) }
    ensures judged { JudgesValue result (signed_offends (view v.now)) }
{
    let number = signed_of(v)?;
    Ok(leaf_of(alloc, Value::Number(number)))
}

fn bytes_value(alloc: Global, v: &Lent<'_, '_>) -> Result<NotedValue, Halt<Cause>>
    ensures value { IfOk result
        (λ r. (held : List ℕ) × Spelled SpellsBytes held (view v.now)
        × (r ≡ leaf (values.Bytes held))) }
    ensures judged { JudgesValue result (base64_offends (view v.now)) }
{
    let bytes = bytes_in(alloc, v)?;
    Ok(leaf_of(alloc, Value::Bytes(bytes)))
}

// What is answered of a double.
fn double_value() -> Cause
    ensures { Counts (here (λ number. number ≡ 15)) (cause_number result) }
{
    Cause::DoubleInJson
}

/// Adds keys at the end.
pub fn note_keys(noted: &mut Items<Text>, more: Items<Text>) -> Result<(), OutOfMemory>
    ensures { OnOk result (noted.new ≡ noted.old ++ more) }
{
    if more.len() == 0 {
        return Ok(());
    }
    'keys: for key in more.into_vec() {
        noted.push(key)?;
    }
    Ok(())
}

/// Reads a value below which so many levels are left.
#[cycle(values)]
pub fn read_value(alloc: Global, left: u8, v: &Lent<'_, '_>) -> Result<NotedValue, Halt<Cause>>
    ensures value { IfOk result (λ r. json_value_at left r (view v.now)) }
    ensures judged { JudgesValue result (json_value_offends left (view v.now)) }
{
    if !v.is_object() {
        return Err(Halt::Why(Cause::BadShape));
    }
    let Ok(only) = only_member(v) else {
        return Err(Halt::Why(Cause::BadShape));
    };
    let Some((part, held)) = only else {
        return Ok(leaf_of(alloc, Value::Nothing));
    };
    read_part(alloc, left, part, &held)
}

// Reads the member of this part.
#[cycle(values)]
#[tactic(auto, using(crate::proofs::ValueLemmas::judged_behind))]
fn read_part(
    alloc: Global,
    left: u8,
    part: Part,
    v: &Lent<'_, '_>,
) -> Result<NotedValue, Halt<Cause>>
    ensures value { IfOk result (λ r. MeansJsonMember (json_value_in left) (json_key_value_in left)
        (part_member part (view v.now)) r) }
    ensures judged { JudgesValue result
        (json_member_offends (json_list_offends left) (json_map_offends left)
        (part_member part (view v.now))) }
{
    match part {
        Part::Text => text_value(alloc, v),
        Part::Truth => truth_value(alloc, v),
        Part::Number => number_value(alloc, v),
        Part::Double => Err(Halt::Why(double_value())),
        Part::List => read_list(alloc, left, v),
        Part::Map => read_map(alloc, left, v),
        Part::Bytes => bytes_value(alloc, v),
    }
}

// Reads a list below which so many levels are left.
#[cycle(values)]
fn read_list(alloc: Global, left: u8, v: &Lent<'_, '_>) -> Result<NotedValue, Halt<Cause>>
    ensures value { IfOk result (λ r. IsJsonList (json_value_in left) r (view v.now)) }
    ensures judged { JudgesValue result (json_list_offends left (view v.now)) }
{
    if !v.is_object() {
        return Err(Halt::Why(Cause::BadShape));
    }
    let values = values_of(alloc, left, v, "values")?;
    Ok(Noted {
        means: Value::List(values.means),
        notes: values.notes,
    })
}

// Values that may be absent, which are none then.
#[cycle(values)]
fn values_of(
    alloc: Global,
    left: u8,
    v: &Lent<'_, '_>,
    name: &str,
) -> Result<NotedValues, Halt<Cause>>
    ensures value { IfOk result
        (λ r. AreGiven (json_value_in left) ValuesTold (member name.now (view v.now)) r) }
    ensures judged { JudgesValue result
        (optional (held_offends left (inner_value_offends left)) (member name.now (view v.now))) }
{
    match member_of(v, name) {
        None => Ok(Noted {
            means: Items::new(alloc),
            notes: Items::new(alloc),
        }),
        Some(found) => values_in(alloc, left, &found),
    }
}

#[cycle(values)]
fn values_in(alloc: Global, left: u8, v: &Lent<'_, '_>) -> Result<NotedValues, Halt<Cause>>
    ensures value { IfOk result
        (λ r. AreGiven (json_value_in left) ValuesTold (Some (view v.now)) r) }
    ensures judged { JudgesValue result
        (held_offends left (inner_value_offends left) (view v.now)) }
{
    let Some(elements) = v.elements() else {
        return Err(Halt::Why(Cause::BadShape));
    };
    let read = read_elements(alloc, left, elements)?;
    Ok(read)
}

// An empty list with room for the elements, where a level is left for them. Else it takes no memory.
fn room_below<T>(
    alloc: Global,
    left: u8,
    elements: Elements<'_, '_>,
) -> Result<Items<T>, OutOfMemory>
    ensures empty { IfOk result (λ items. items ≡ []) }
    ensures wants { OnErr result (1 ≤ left) }
{
    if left == 0 {
        return Ok(Items::new(alloc));
    }
    Items::with_room(alloc, room_for(elements))
}

#[cycle(values)]
fn read_elements(
    alloc: Global,
    left: u8,
    elements: Elements<'_, '_>,
) -> Result<NotedValues, Halt<Cause>>
    ensures value { IfOk result
        (λ r. AreFound (json_value_in left) ValuesTold (elements_left elements.entry) r) }
    ensures judged { JudgesValue result
        (values_offend left (inner_value_offends left) (elements_left elements.entry)) }
    ensures wants { result ≡ Err halts.OutOfMemory → 1 ≤ left }
{
    let mut means = room_below(alloc, left, elements)?;
    let mut notes = Items::new(alloc);
    let mut rest = elements;
    'elements: while let Some(element) = rest.next() {
        let Some(below) = left.checked_sub(1) else {
            return Err(Halt::Why(Cause::TooDeep));
        };
        let read = read_value(alloc, below, &element)?;
        means.push(read.means)?;
        note_keys(&mut notes, read.notes)?;
    }
    Ok(Noted { means, notes })
}

// Reads a map below which so many levels are left.
#[cycle(values)]
fn read_map(alloc: Global, left: u8, v: &Lent<'_, '_>) -> Result<NotedValue, Halt<Cause>>
    ensures value { IfOk result (λ r. IsJsonMap (json_key_value_in left) r (view v.now)) }
    ensures judged { JudgesValue result (json_map_offends left (view v.now)) }
{
    if !v.is_object() {
        return Err(Halt::Why(Cause::BadShape));
    }
    let rows = pairs_of(alloc, left, v, "values")?;
    let map = map_of(alloc, rows)?;
    Ok(map)
}

/// `KeyValue`s that may be absent, which are none then.
#[cycle(values)]
pub fn pairs_of(
    alloc: Global,
    left: u8,
    v: &Lent<'_, '_>,
    name: &str,
) -> Result<NotedPairs, Halt<Cause>>
    ensures value { IfOk result
        (λ r. AreGiven (json_key_value_in left) PairsTold (member name.now (view v.now)) r) }
    ensures judged { JudgesValue result
        (optional (held_offends left (inner_pair_offends left)) (member name.now (view v.now))) }
{
    match member_of(v, name) {
        None => Ok(Noted {
            means: Items::new(alloc),
            notes: Items::new(alloc),
        }),
        Some(found) => pairs_in(alloc, left, &found),
    }
}

#[cycle(values)]
fn pairs_in(alloc: Global, left: u8, v: &Lent<'_, '_>) -> Result<NotedPairs, Halt<Cause>>
    ensures value { IfOk result
        (λ r. AreGiven (json_key_value_in left) PairsTold (Some (view v.now)) r) }
    ensures judged { JudgesValue result (held_offends left (inner_pair_offends left) (view v.now)) }
{
    let Some(elements) = v.elements() else {
        return Err(Halt::Why(Cause::BadShape));
    };
    let read = read_pairs(alloc, left, elements)?;
    Ok(read)
}

#[cycle(values)]
fn read_pairs(
    alloc: Global,
    left: u8,
    elements: Elements<'_, '_>,
) -> Result<NotedPairs, Halt<Cause>>
    ensures value { IfOk result
        (λ r. AreFound (json_key_value_in left) PairsTold (elements_left elements.entry) r) }
    ensures judged { JudgesValue result
        (values_offend left (inner_pair_offends left) (elements_left elements.entry)) }
    ensures wants { result ≡ Err halts.OutOfMemory → 1 ≤ left }
{
    let mut means = room_below(alloc, left, elements)?;
    let mut notes = Items::new(alloc);
    let mut rest = elements;
    'elements: while let Some(element) = rest.next() {
        let Some(below) = left.checked_sub(1) else {
            return Err(Halt::Why(Cause::TooDeep));
        };
        let read = read_key_value(alloc, below, &element)?;
        let value = read.value;
        means.push((read.key, value.means))?;
        note_keys(&mut notes, value.notes)?;
    }
    Ok(Noted { means, notes })
}

// Reads a `KeyValue` below whose value so many levels are left.
#[cycle(values)]
fn read_key_value(alloc: Global, left: u8, v: &Lent<'_, '_>) -> Result<KeyValue, Halt<Cause>>
    ensures value { IfOk result (λ p. json_key_value_at left p (view v.now)) }
    ensures judged { JudgesValue result (json_key_value_offends left (view v.now)) }
{
    if !v.is_object() {
        return Err(Halt::Why(Cause::BadShape));
    }
    let key = text(alloc, v, "key")?;
    let value = value_of(alloc, left, v, "value")?;
    Ok(KeyValue { key, value })
}

// A value that may be absent, which is nothing then.
#[cycle(values)]
fn value_of(
    alloc: Global,
    left: u8,
    v: &Lent<'_, '_>,
    name: &str,
) -> Result<NotedValue, Halt<Cause>>
    ensures value { IfOk result (λ r. Given (json_value_at left) (λ x. x ≡ leaf values.Nothing)
        r (member name.now (view v.now))) }
    ensures judged { JudgesValue result
        (optional (json_value_offends left) (member name.now (view v.now))) }
{
    match member_of(v, name) {
        None => Ok(leaf_of(alloc, Value::Nothing)),
        Some(found) => read_value(alloc, left, &found),
    }
}

// The map of its pairs.
fn map_of(alloc: Global, rows: NotedPairs) -> Result<NotedValue, OutOfMemory>
    ensures { IfOk result (λ r. IsNotedMap rows.means rows.notes r) }
{
    let (attributes, repeated) = attrs_of(alloc, rows.means)?;
    let mut notes = rows.notes;
    note_keys(&mut notes, repeated)?;
    Ok(Noted {
        means: Value::Map(attributes),
        notes,
    })
}
