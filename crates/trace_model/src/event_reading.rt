//! Reading event text.
ghost use Rattle.std.specs.Prelude.{◌≡◌, ◌<◌, ℕ, List, None, IfOk, IfSome, IfNone, IsUtf8, option_map};
ghost use Rattle.serde_json.specs.Data.{no_members};
ghost use Rattle.serde_json.specs.Find.{as_bool, as_number, as_str, as_i64};
ghost use Rattle.serde_json.specs.View.{items_of};
ghost use Rattle.json_nodes.specs.Lents.{lent_view as view, elements_left, members_left, named_members};
ghost use Rattle.json_nodes.specs.Nodes.{num_of, put_all};
ghost use Rattle.trace_model.specs.EventReading.{IsRead, AreRead, value_within, values_within, pairs_within};
ghost use Rattle.trace_model.specs.EventTexts.{IsEventJson, IsEventText, in_braces};
ghost use Rattle.trace_model.specs.private.EventBegins.{begins_as_member};
ghost use Rattle.trace_model.specs.Proper.{AreProper};
ghost use Rattle.trace_model.specs.declared.value.Value.{Value as Val};
ghost use Rattle.trace_model.specs.declared.value.Value.TheVariants as values;

use crate::value::{Attrs, MOST_LEVELS, Value};
use json::Scratch;
use json_nodes::{Elements, Lent, Members, Number, Unread, text_nodes};
use span_io::{Items, OutOfMemory, Text};
use std::alloc::Global;
use std::collections::BTreeMap;

/// Reads event texts, one after the other, in the same room.
#[derive(Drop)]
pub struct EventReader {
    /// None before the first text that may be an event's, since making it takes time.
    scratch: Option<Scratch>,
}

impl EventReader {
    pub fn new() -> EventReader {
        EventReader { scratch: None }
    }

    /// Reads an event's name and attributes from its text, which is one member of a JSON object: the
    /// name, a colon, and an object that isn't empty. `None` where the text is no such member, as a
    /// name alone.
    pub fn read(&mut self, alloc: Global, text: &Text) -> Result<Option<(Text, Attrs)>, OutOfMemory>
        ensures found { IfOk result
            (λ o. IfSome o (λ parts. IsEventText text.now parts.0 parts.1)) }
        ensures none { IfOk result
            (λ o. IfNone o ((name : List ℕ) (attributes : List (List ℕ × Val))
            → ¬ IsEventText text.now name attributes)) }
        ensures proper { IfOk result (λ o. IfSome o (λ parts. IsUtf8 parts.0 × AreProper parts.1)) }
    {
        if !begins_as_member(text.as_str()) {
            return Ok(None);
        }
        let braced = braced(alloc, text.as_str())?;
        let scratch = self.scratch.get_or_insert_with(|| Scratch::new(alloc));
        match text_nodes(alloc, braced.as_str(), scratch) {
            Ok(nodes) => event_in(alloc, &Lent::of(nodes.as_slice())),
            Err(Unread::OutOfMemory) => Err(OutOfMemory),
            Err(Unread::BadJson) => Ok(None),
        }
    }
}

/// Reads one event text as `EventReader` does.
pub fn read_event_text(alloc: Global, text: &Text) -> Result<Option<(Text, Attrs)>, OutOfMemory>
    ensures found { IfOk result (λ o. IfSome o (λ parts. IsEventText text.now parts.0 parts.1)) }
    ensures none { IfOk result (λ o. IfNone o ((name : List ℕ) (attributes : List (List ℕ × Val))
        → ¬ IsEventText text.now name attributes)) }
    ensures proper { IfOk result (λ o. IfSome o (λ parts. IsUtf8 parts.0 × AreProper parts.1)) }
{
    let mut reader = EventReader::new();
    let read = reader.read(alloc, text)?;
    Ok(read)
}

/// Whether the text can be a member of a JSON object, by its first byte, so that a name alone isn't read.
fn begins_as_member(text: &str) -> bool
    ensures { result ≡ begins_as_member text.now }
{
    match text.as_bytes() {
        [first, ..] => matches!(first, b'"' | b' ' | b'\t' | b'\n' | b'\r'),
        [] => false,
    }
}

/// The text between braces.
fn braced(alloc: Global, text: &str) -> Result<Text, OutOfMemory>
    ensures { IfOk result (λ braced. braced ≡ in_braces text.now) }
{
    let mut braced = Text::of(alloc, "{")?;
    braced.append(text)?;
    braced.append("}")?;
    Ok(braced)
}

/// The event that a JSON value holds.
fn event_in(alloc: Global, json: &Lent<'_, '_>) -> Result<Option<(Text, Attrs)>, OutOfMemory>
    ensures found { IfOk result
        (λ o. IfSome o (λ parts. IsEventJson (view json.now) parts.0 parts.1)) }
    ensures none { IfOk result (λ o. IfNone o ((name : List ℕ) (attributes : List (List ℕ × Val))
        → ¬ IsEventJson (view json.now) name attributes)) }
    ensures proper { IfOk result (λ o. IfSome o (λ parts. IsUtf8 parts.0 × AreProper parts.1)) }
{
    let Some(members) = json.members() else {
        return Ok(None);
    };
    let named = members.by_name(alloc)?;
    if named.len() != 1 {
        return Ok(None);
    }
    let Some((name, held)) = named.iter().next() else {
        return Ok(None);
    };
    let Some(inner) = held.members() else {
        return Ok(None);
    };
    let Some(attributes) = pairs_of(alloc, inner, MOST_LEVELS)? else {
        return Ok(None);
    };
    if attributes.len() == 0 {
        return Ok(None);
    }
    Ok(Some((Text::of(alloc, name)?, attributes)))
}

/// The value that a JSON value stands for, if it is at most so many levels deep.
#[cycle(reads)]
fn value_of(alloc: Global, json: &Lent<'_, '_>, left: u8) -> Result<Option<Value>, OutOfMemory>
    ensures value { IfOk result (λ o. o ≡ value_within left (view json.now)) }
    ensures read { IfOk result (λ o. IfSome o IsRead) }
{
    if left == 0 {
        return Ok(None);
    }
    if let Some(text) = json.as_str() {
        return Ok(Some(Value::Text(Text::of(alloc, text)?)));
    }
    if let Some(number) = json.as_number() {
        return Ok(number_of(number));
    }
    if let Some(truth) = json.as_bool() {
        return Ok(Some(Value::Truth(truth)));
    }
    held_of(alloc, json, left)
}

fn number_of(number: Number) -> Option<Value>
    ensures value { result ≡ option_map values.Number (as_i64 (num_of number)) }
    ensures read { IfSome result IsRead }
{
    match number.as_i64() {
        Some(n) => Some(Value::Number(n)),
        None => None,
    }
}

/// The value of one that is null, an array or an object.
#[cycle(reads)]
fn held_of(alloc: Global, json: &Lent<'_, '_>, left: u8) -> Result<Option<Value>, OutOfMemory>
    requires some { 0 < left }
    requires no_text { as_str (view json.now) ≡ None }
    requires no_number { as_number (view json.now) ≡ None }
    requires no_truth { as_bool (view json.now) ≡ None }
    ensures value { IfOk result (λ o. o ≡ value_within left (view json.now)) }
    ensures read { IfOk result (λ o. IfSome o IsRead) }
{
    if let Some(elements) = json.elements() {
        return list_of(alloc, elements, left - 1);
    }
    if let Some(members) = json.members() {
        return map_of(alloc, members, left - 1);
    }
    Ok(Some(Value::Nothing))
}

#[cycle(reads)]
fn list_of(
    alloc: Global,
    elements: Elements<'_, '_>,
    left: u8,
) -> Result<Option<Value>, OutOfMemory>
    ensures value { IfOk result (λ o. o
        ≡ option_map values.List (values_within left (items_of (elements_left elements.entry)))) }
    ensures read { IfOk result (λ o. IfSome o IsRead) }
{
    let mut list = Items::new(alloc);
    let mut rest = elements;
    'elements: while let Some(element) = rest.next() {
        let Some(value) = value_of(alloc, &element, left)? else {
            return Ok(None);
        };
        list.push(value)?;
    }
    Ok(Some(Value::List(list)))
}

#[cycle(reads)]
fn map_of(alloc: Global, members: Members<'_, '_>, left: u8) -> Result<Option<Value>, OutOfMemory>
    ensures value { IfOk result (λ o. o
        ≡ option_map values.Map
        (pairs_within left (put_all (members_left members.entry) no_members))) }
    ensures read { IfOk result (λ o. IfSome o IsRead) }
{
    let Some(pairs) = pairs_of(alloc, members, left)? else {
        return Ok(None);
    };
    Ok(Some(Value::Map(pairs)))
}

#[cycle(reads)]
fn pairs_of(alloc: Global, members: Members<'_, '_>, left: u8) -> Result<Option<Attrs>, OutOfMemory>
    ensures value { IfOk result
        (λ o. o ≡ pairs_within left (put_all (members_left members.entry) no_members)) }
    ensures read { IfOk result (λ o. IfSome o AreRead) }
{
    let named = members.by_name(alloc)?;
    let pairs = pairs_by_name(alloc, &named, left)?;
    Ok(pairs)
}

#[cycle(reads)]
fn pairs_by_name(
    alloc: Global,
    named: &BTreeMap<&str, Lent<'_, '_>>,
    left: u8,
) -> Result<Option<Attrs>, OutOfMemory>
    ensures value { IfOk result (λ o. o ≡ pairs_within left (named_members named.now.entries)) }
    ensures read { IfOk result (λ o. IfSome o AreRead) }
{
    let mut pairs = Items::new(alloc);
    'members: for (key, member) in named.iter() {
        let Some(value) = value_of(alloc, member, left)? else {
            return Ok(None);
        };
        pairs.push((Text::of(alloc, key)?, value))?;
    }
    Ok(Some(pairs))
}
