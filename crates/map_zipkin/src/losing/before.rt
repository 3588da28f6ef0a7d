//! The span before a group: whether it has the resource of the group, in normal form.
ghost use Rattle.std.specs.Prelude.{◌≡◌, ◌≤◌, ◌&&◌, ◌++◌, length, false, option_map, IfOk, OnOk};
ghost use Rattle.std.specs.Str.{bytes_eq};
ghost use Rattle.span_tags.specs.Losses as meant;
ghost use Rattle.span_tags.specs.TagKeys.{service_key};
ghost use Rattle.span_tags.specs.TagWords as words;
ghost use Rattle.trace_model.specs.Attributes.{Rise, keys};
ghost use Rattle.trace_model.specs.EventTexts.{holds_double};
ghost use Rattle.trace_model.specs.ValueTexts as texts;
ghost use Rattle.trace_model.specs.declared.value.Value.TheVariants as values;
ghost use Rattle.map_zipkin.specs.Losses as told;
ghost use Rattle.map_zipkin.specs.private.LossWalks as walks;
ghost use Rattle.map_zipkin.specs.Normal.{normal_pairs};
ghost use Rattle.map_zipkin.specs.Regrouped as groups;

use crate::losing::attributes::goes;
use crate::run::Run;
use span_io::{Items, OutOfMemory, Text};
use span_tags::text_told;
use std::alloc::Global;
use trace_model::{Attrs, Value};

/// Whether there is a span before, and it has this resource, in normal form.
pub(crate) fn follows(
    alloc: Global,
    before: Option<&Run>,
    resource: &Attrs,
) -> Result<bool, OutOfMemory>
    requires rising { Rise (keys resource.now) }
    requires plain { holds_double resource.now ≡ false }
    ensures { IfOk result
        (λ joined. joined ≡ told.follows (option_map (λ run. run.now) before.entry) resource.now) }
{
    let Some(run) = before else {
        return Ok(false);
    };
    is_normal(alloc, &run.resource, resource)
}

/// The name and version of the scope of the span before, if it has the resource.
pub(crate) fn names_before(joined: bool, before: Option<&Run>) -> Option<(&str, &str)>
    ensures { option_map (λ last. meant.named last.0.now last.1.now) result
        ≡ walks.names_where joined (option_map (λ run. run.now) before.entry) }
{
    if !joined {
        return None;
    }
    let run = before?;
    Some((run.name.as_str(), run.version.as_str()))
}

// Whether these pairs are the normal form of the resource.
fn is_normal(alloc: Global, normal: &Attrs, resource: &Attrs) -> Result<bool, OutOfMemory>
    requires rising { Rise (keys resource.now) }
    requires plain { holds_double resource.now ≡ false }
    ensures { IfOk result
        (λ is. is ≡ groups.same_resource normal.now (normal_pairs service_key resource.now)) }
{
    let mut place = 0;
    'pairs: for pair in resource.as_slice() {
        let Some(next) = advanced(alloc, normal, place, pair)? else {
            return Ok(false);
        };
        place = next;
    }
    Ok(place == normal.len())
}

// The place in the normal form behind the pair of the resource, unless another stands there.
fn advanced(
    alloc: Global,
    normal: &Attrs,
    place: usize,
    pair: &(Text, Value),
) -> Result<Option<usize>, OutOfMemory>
    requires within { place ≤ length normal.now }
    requires plain { texts.has_double pair.now.1 ≡ false }
    ensures next { IfOk result
        (λ next. (left : words.Pairs) → walks.Advances normal.now place pair.now left next) }
    ensures within { IfOk result (λ next. walks.IsWithin normal.now next) }
{
    if goes("service.name", pair) {
        return Ok(Some(place));
    }
    let Some(held) = normal.as_slice().get(place) else {
        return Ok(None);
    };
    if !is_text_of(alloc, held, pair)? {
        return Ok(None);
    }
    Ok(Some(place + 1))
}

// Whether the pair held is this one, with a text for its value.
fn is_text_of(
    alloc: Global,
    held: &(Text, Value),
    pair: &(Text, Value),
) -> Result<bool, OutOfMemory>
    requires { texts.has_double pair.now.1 ≡ false }
    ensures { IfOk result (λ is. is ≡ (bytes_eq held.now.0 pair.now.0
        && groups.same_text held.now.1 (values.Text (texts.value_text pair.now.1)))) }
{
    if held.0.as_str() != pair.0.as_str() {
        return Ok(false);
    }
    is_told_by(alloc, &held.1, &pair.1)
}

// Whether the one value is the text of the other.
fn is_told_by(alloc: Global, held: &Value, value: &Value) -> Result<bool, OutOfMemory>
    requires { texts.has_double value.now ≡ false }
    ensures { IfOk result
        (λ is. is ≡ groups.same_text held.now (values.Text (texts.value_text value.now))) }
{
    let Value::Text(held) = held else {
        return Ok(false);
    };
    is_text_told(alloc, held.as_str(), value)
}

// Whether it is the text of the value; of a value that is a text nothing is made.
fn is_text_told(alloc: Global, held: &str, value: &Value) -> Result<bool, OutOfMemory>
    requires { texts.has_double value.now ≡ false }
    ensures { IfOk result (λ is. is ≡ bytes_eq held.now (texts.value_text value.now)) }
{
    if let Value::Text(text) = value {
        return Ok(held == text.as_str());
    }
    let text = text_told(alloc, value)?;
    Ok(held == text.as_str())
}

// ---- the normal form of a resource

// Adds the attribute, unless it goes.
fn add_kept(alloc: Global, pairs: &mut Attrs, pair: &(Text, Value)) -> Result<(), OutOfMemory>
    requires { texts.has_double pair.now.1 ≡ false }
    ensures { OnOk result (pairs.new ≡ pairs.old ++ walks.kept_text service_key pair.now) }
{
    if goes("service.name", pair) {
        return Ok(());
    }
    let key = pair.0.copy()?;
    pairs.push((key, Value::Text(text_told(alloc, &pair.1)?)))
}

/// The resource in normal form.
pub(crate) fn normal_resource(alloc: Global, resource: &Attrs) -> Result<Attrs, OutOfMemory>
    requires rising { Rise (keys resource.now) }
    requires plain { holds_double resource.now ≡ false }
    ensures { IfOk result (λ normal. normal ≡ normal_pairs service_key resource.now) }
{
    let mut normal = Items::with_room(alloc, resource.len())?;
    'attributes: for pair in resource.as_slice() {
        add_kept(alloc, &mut normal, pair)?;
    }
    Ok(normal)
}
