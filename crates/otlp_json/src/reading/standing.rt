//! The members of a value, of which one at most may stand.
ghost use Rattle.std.specs.Prelude.{◌≡◌, ◌++◌, [], ◌∷◌, List, Option, Some, None, IfOk, IfSome, OnErr, option_map};
ghost use Rattle.serde_json.specs.Data.{Data, object, no_members, member as has};
ghost use Rattle.serde_json.specs.Find.{as_null};
ghost use Rattle.json_nodes.specs.Lents.{lent_view as view};
ghost use Rattle.json_members.specs.Members.{member};
ghost use Rattle.otlp_json.specs.private.Found.{part_member, told_members, AreSeveral};
ghost use Rattle.otlp_json.specs.Values.{standing, standing_members, array_member, string_member, bool_member, int_member, double_member, kvlist_member, bytes_member};

use json_members::member_of;
use json_nodes::Lent;

/// What a member of a value holds.
#[derive(Clone, Copy, PartialEq, Eq)]
pub enum Part {
    Text,
    Truth,
    Number,
    Double,
    List,
    Map,
    Bytes,
}

/// More than one member stands.
#[derive(Clone, Copy, PartialEq, Eq)]
pub struct Several;

/// The only one of the members that stand in a value, if there is one.
pub fn only_member<'v, 'a>(v: &Lent<'v, 'a>) -> Result<Option<(Part, Lent<'v, 'a>)>, Several>
    ensures only { IfOk result (λ o. standing_members (view v.now)
        ≡ told_members (option_map (λ m. (m.0, view m.1)) o)) }
    ensures several { OnErr result (AreSeveral (standing_members (view v.now))) }
{
    match single_member(v) {
        Some((name, held)) => Ok(named_member(name, held)),
        None => only_of_all(v),
    }
}

// The member of an object that has no other.
fn single_member<'v, 'a>(v: &Lent<'v, 'a>) -> Option<(&'a str, Lent<'v, 'a>)>
    ensures { IfSome result (λ m. view v.now ≡ object (has m.0.now (view m.1) no_members)) }
{
    let Some(mut members) = v.members() else {
        return None;
    };
    let Some((name, held)) = members.next() else {
        return None;
    };
    if members.next().is_some() {
        return None;
    }
    Some((name, held))
}

// What a member of this name tells of an object that has no other.
fn named_member<'v, 'a>(name: &str, held: Lent<'v, 'a>) -> Option<(Part, Lent<'v, 'a>)>
    ensures { standing_members (object (has name.now (view held.entry) no_members))
        ≡ told_members (option_map (λ m. (m.0, view m.1)) result) }
{
    if held.is_null() {
        return None;
    }
    match part_named(name) {
        None => None,
        Some(part) => Some((part, held)),
    }
}

// Which part of a value has this name.
fn part_named(name: &str) -> Option<Part>
    ensures { (d : Data) → as_null d ≡ None → standing_members (object (has name.now d no_members))
        ≡ told_members (option_map (λ part. (part, d)) result) }
{
    match name {
        "stringValue" => Some(Part::Text),
        "intValue" => Some(Part::Number),
        "boolValue" => Some(Part::Truth),
        "arrayValue" => Some(Part::List),
        "kvlistValue" => Some(Part::Map),
        "bytesValue" => Some(Part::Bytes),
        "doubleValue" => Some(Part::Double),
        _ => None,
    }
}

// The only one of the members that stand, each looked up.
fn only_of_all<'v, 'a>(v: &Lent<'v, 'a>) -> Result<Option<(Part, Lent<'v, 'a>)>, Several>
    ensures only { IfOk result (λ o. standing_members (view v.now)
        ≡ told_members (option_map (λ m. (m.0, view m.1)) o)) }
    ensures several { OnErr result (AreSeveral (standing_members (view v.now))) }
{
    let text = part_of(v, "stringValue", Part::Text);
    let truth = part_of(v, "boolValue", Part::Truth);
    let number = part_of(v, "intValue", Part::Number);
    let double = part_of(v, "doubleValue", Part::Double);
    let list = part_of(v, "arrayValue", Part::List);
    let map = part_of(v, "kvlistValue", Part::Map);
    let bytes = part_of(v, "bytesValue", Part::Bytes);
    let only = either(text, truth)?;
    let only = either(only, number)?;
    let only = either(only, double)?;
    let only = either(only, list)?;
    let only = either(only, map)?;
    either(only, bytes)
}

// A member, if it stands.
fn part_of<'v, 'a>(v: &Lent<'v, 'a>, name: &str, part: Part) -> Option<(Part, Lent<'v, 'a>)>
    ensures { told_members (option_map (λ m. (m.0, view m.1)) result)
        ≡ standing (part_member part) (member name.now (view v.now)) }
{
    match member_of(v, name) {
        None => None,
        Some(held) => Some((part, held)),
    }
}

// Which of the two stands, unless both do.
fn either<'v, 'a>(
    first: Option<(Part, Lent<'v, 'a>)>,
    second: Option<(Part, Lent<'v, 'a>)>,
) -> Result<Option<(Part, Lent<'v, 'a>)>, Several>
    ensures only { IfOk result (λ o. told_members (option_map (λ m. (m.0, view m.1)) first.entry)
        ++ told_members (option_map (λ m. (m.0, view m.1)) second.entry)
        ≡ told_members (option_map (λ m. (m.0, view m.1)) o)) }
    ensures several { OnErr result
        (AreSeveral (told_members (option_map (λ m. (m.0, view m.1)) first.entry)
        ++ told_members (option_map (λ m. (m.0, view m.1)) second.entry))) }
{
    if first.is_none() {
        return Ok(second);
    }
    if second.is_none() {
        return Ok(first);
    }
    Err(Several)
}
