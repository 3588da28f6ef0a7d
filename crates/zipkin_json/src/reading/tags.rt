//! The tags of a span.
ghost use Rattle.std.specs.Prelude.{◌≡◌, [], true, Some, Err, IfOk, OnOk, is_some, option_map};
ghost use Rattle.json_nodes.specs.Lents.{lent_view as view, members_left};
ghost use Rattle.serde_json.specs.Find.{as_object};
ghost use Rattle.span_io.specs.Paths.{optional, each, JudgesValue, Given};
ghost use Rattle.span_io.specs.declared.halt.Halt.TheVariants as halts;
ghost use Rattle.json_members.specs.Members.{member_values};
ghost use Rattle.zipkin_json.specs.Span.{texts_in, AreTags, TagsRise, tag_offends, tags_offend};
ghost use Rattle.zipkin_json.specs.private.Tags.{listed, pairs_in, NamesRise, AddsTag};

use json_members::text_of;
use json_nodes::{Lent, Members};
use span_io::{Cause, Halt, Items, Text};
use std::alloc::Global;
use std::collections::BTreeMap;

// Whether names rise by their bytes, so that each comes once.
fn names_rise(members: Members<'_, '_>) -> bool
    ensures { result ≡ true → NamesRise (members_left members.entry) }
{
    let mut left = members;
    let Some((first, _)) = left.next() else {
        return true;
    };
    let mut last = first;
    'names: while let Some((name, _)) = left.next() {
        if last >= name {
            return false;
        }
        last = name;
    }
    true
}

// Adds a tag at the end, unless it is null.
fn add_tag(
    alloc: Global,
    tags: &mut Items<(Text, Text)>,
    key: &str,
    value: &Lent<'_, '_>,
) -> Result<(), Halt<Cause>>
    ensures adds { OnOk result (AddsTag tags.old key.now (view value.now) tags.new) }
    ensures judged { JudgesValue result (tag_offends (view value.now)) }
{
    if value.is_null() {
        return Ok(());
    }
    let text = text_of(alloc, value)?;
    let key = Text::of(alloc, key)?;
    tags.push((key, text))?;
    Ok(())
}

// Tags whose names rise in the text.
fn tags_in_order(
    alloc: Global,
    members: Members<'_, '_>,
) -> Result<Items<(Text, Text)>, Halt<Cause>>
    requires rise { NamesRise (members_left members) }
    ensures value { IfOk result
        (λ tags. texts_in (listed (members_left members.entry)) ≡ Some tags) }
    ensures rising { IfOk result TagsRise }
    ensures judged { JudgesValue result
        (each tag_offends (member_values (listed (members_left members.entry)))) }
{
    let mut left = members;
    let mut tags = Items::new(alloc);
    'tags: while let Some((key, value)) = left.next() {
        add_tag(alloc, &mut tags, key, &value)?;
    }
    Ok(tags)
}

// Tags by their names.
fn tags_by_name(
    alloc: Global,
    named: &BTreeMap<&str, Lent<'_, '_>>,
) -> Result<Items<(Text, Text)>, Halt<Cause>>
    ensures value { IfOk result
        (λ tags. texts_in (listed (pairs_in named.now.entries)) ≡ Some tags) }
    ensures rising { IfOk result TagsRise }
    ensures judged { JudgesValue result
        (each tag_offends (member_values (listed (pairs_in named.now.entries)))) }
{
    let mut tags = Items::new(alloc);
    'tags: for (key, value) in named.iter() {
        add_tag(alloc, &mut tags, key, value)?;
    }
    Ok(tags)
}

// Of equal names the last counts.
fn tags_in(alloc: Global, v: &Lent<'_, '_>) -> Result<Items<(Text, Text)>, Halt<Cause>>
    ensures value { IfOk result (λ tags. AreTags tags (view v.now)) }
    ensures rising { IfOk result TagsRise }
    ensures judged { JudgesValue result (tags_offend (view v.now)) }
    ensures wants { result ≡ Err halts.OutOfMemory → is_some (as_object (view v.now)) ≡ true }
{
    let Some(members) = v.members() else {
        return Err(Halt::Why(Cause::BadShape));
    };
    if names_rise(members) {
        let rising = tags_in_order(alloc, members)?;
        return Ok(rising);
    }
    let named = members.by_name(alloc)?;
    let tags = tags_by_name(alloc, &named)?;
    Ok(tags)
}

// Tags that may be absent.
#[tactic(auto, using(crate::proofs::TagLemmas::none_rise))]
pub fn tags_of(
    alloc: Global,
    found: Option<Lent<'_, '_>>,
) -> Result<Items<(Text, Text)>, Halt<Cause>>
    ensures value { IfOk result (λ tags. Given AreTags (λ t. t ≡ []) tags
        (option_map view found.entry)) }
    ensures rising { IfOk result TagsRise }
    ensures judged { JudgesValue result (optional tags_offend (option_map view found.entry)) }
{
    match found {
        None => Ok(Items::new(alloc)),
        Some(found) => tags_in(alloc, &found),
    }
}
