//! The batch of a group in which nothing is a fault.
ghost use Rattle.std.specs.Prelude.{◌≡◌, ◌++◌, map, option_map, false, All, IfOk, OnOk};
ghost use Rattle.std.specs.List.{list_any};
ghost use Rattle.trace_model.specs.Attributes.{Rise, keys as keys_of};
ghost use Rattle.trace_model.specs.Soundness.{IsSoundEvent, IsSoundGroup, IsSoundScope, IsSoundSpan};
ghost use Rattle.span_tags.specs.Escapes as escapes;
ghost use Rattle.span_tags.specs.PlacedFaults.{JudgesFault};
ghost use Rattle.span_tags.specs.Runs.{scoped, spans_of, under};
ghost use Rattle.span_tags.specs.TagKeys.{service_key};
ghost use Rattle.span_tags.specs.TagWords.{without};
ghost use Rattle.map_jaeger.specs.Columns.{is_reserved};
ghost use Rattle.map_jaeger.specs.Keys.{flags_key};
ghost use Rattle.map_jaeger.specs.private.Doubles.{event_has_double, group_has_double, scope_has_double};
ghost use Rattle.map_jaeger.specs.Faults.{IsResourceFault, IsSpanFault};
ghost use Rattle.map_jaeger.specs.StatedLaws.{IsTimely};
ghost use Rattle.map_jaeger.specs.LeastFault as least;
ghost use Rattle.map_jaeger.specs.TagValues as values;
ghost use Rattle.map_jaeger.specs.Writing as told;
ghost use Rattle.map_jaeger.specs.private.WritingSoFar.{fields_held, tags_with};

mod columns;
pub(crate) mod flags;

use crate::columns::{COLUMNS, Events, Spans};
use crate::faults::fault_of_group;
use columns::put_columns;
use flags::flags_of;
use jaeger_model::{Batch, JSpan, Log, SpanRef, Tag, TagValue};
use span_io::{Halt, Items, OutOfMemory, Text};
use span_tags::{escaped, others, put_row, text_kept, text_or_none, text_told};
use std::alloc::Global;
use std::mem;
use trace_model::{Attrs, Event, Fault, Group, Link, Scope, Span, Value, find};

// ---- tags

fn tag_value(alloc: Global, value: Value) -> Result<TagValue, OutOfMemory>
    requires { least.double_inside value ≡ false }
    ensures { IfOk result (λ written. written ≡ values.tag_value value) }
{
    let told = match value {
        Value::Text(text) => TagValue::Text(text),
        Value::Truth(truth) => TagValue::Truth(truth),
        Value::Number(number) => TagValue::Number(number),
        Value::Eight(double) => TagValue::Eight(double),
        Value::Bytes(bytes) => TagValue::Bytes(bytes),
        Value::List(members) => TagValue::Text(text_told(alloc, &Value::List(members))?),
        Value::Map(pairs) => TagValue::Text(text_told(alloc, &Value::Map(pairs))?),
        Value::Nothing => TagValue::Text(Text::new(alloc)),
    };
    Ok(told)
}

// The tags of pairs, in their order.
fn tags_in_order(alloc: Global, pairs: Vec<(Text, Value)>) -> Result<Items<Tag>, OutOfMemory>
    requires { least.doubles_inside pairs.items ≡ false }
    ensures { IfOk result (λ tags. tags ≡ map values.tag_of pairs.items) }
{
    let mut tags = Items::with_room(alloc, pairs.len())?;
    'pairs: for pair in pairs {
        let (key, value) = pair;
        let value = tag_value(alloc, value)?;
        tags.push(Tag { key, value })?;
    }
    Ok(tags)
}

// The attributes under other keys than this one.
#[tactic(auto, using(crate::proofs::GroupResource::without_absent))]
pub(crate) fn attributes_but(key: &str, attributes: Attrs) -> Attrs
    requires { Rise (keys_of attributes) }
    ensures { result ≡ without key.now attributes }
{
    match find(&attributes, key) {
        None => attributes,
        Some(_) => others(key, attributes),
    }
}

// The attributes of a span but its flags, under the keys that they have among its tags.
#[tactic(auto, using(crate::proofs::GroupResource::without_rise))]
fn others_of_span(alloc: Global, attributes: Attrs) -> Result<Attrs, OutOfMemory>
    requires { Rise (keys_of attributes) }
    ensures { IfOk result
        (λ others. others ≡ escapes.escaped is_reserved (without flags_key attributes)) }
{
    escaped::<Spans>(alloc, attributes_but("jaeger.flags", attributes))
}

// The tags of a span that has these attributes, under the name and version of its scope.
fn tags_of_span(
    alloc: Global,
    name: &Text,
    version: &Text,
    span: &Span,
    attributes: Attrs,
) -> Result<Items<Tag>, OutOfMemory>
    requires plain { least.doubles_inside attributes ≡ false }
    requires rising { Rise (keys_of attributes) }
    ensures { IfOk result
        (λ tags. tags ≡ tags_with (under name.now version.now span.now) attributes) }
{
    let others = others_of_span(alloc, attributes)?;
    let mut pairs = others.into_vec();
    put_columns(alloc, &mut pairs, name, version, span, &COLUMNS)?;
    tags_in_order(alloc, pairs)
}

// ---- logs

// The fields of the log of an event of this name that has these attributes.
fn fields_of(alloc: Global, name: Text, attributes: Attrs) -> Result<Items<Tag>, OutOfMemory>
    requires plain { least.doubles_inside attributes ≡ false }
    requires rising { Rise (keys_of attributes) }
    ensures { IfOk result (λ fields. fields ≡ fields_held name attributes) }
{
    let others = escaped::<Events>(alloc, attributes)?;
    let mut pairs = others.into_vec();
    put_row(alloc, &mut pairs, "event", text_kept(name))?;
    tags_in_order(alloc, pairs)
}

fn log_of(alloc: Global, event: Event) -> Result<Log, OutOfMemory>
    requires plain { event_has_double event ≡ false }
    requires sound { IsSoundEvent event }
    ensures { IfOk result (λ log. log ≡ told.log_of event) }
{
    Ok(Log {
        time: event.time.floor(),
        fields: fields_of(alloc, event.name, event.attributes)?,
    })
}

fn logs_of(alloc: Global, events: Items<Event>) -> Result<Items<Log>, OutOfMemory>
    requires plain { list_any event_has_double events ≡ false }
    requires sound { All IsSoundEvent events }
    ensures { IfOk result (λ logs. logs ≡ map told.log_of events) }
{
    let mut logs = Items::with_room(alloc, events.len())?;
    'events: for event in events.into_vec() {
        logs.push(log_of(alloc, event)?)?;
    }
    Ok(logs)
}

// ---- references

// Whether it is the mark of a link that is CHILD_OF.
pub(crate) fn is_child_of(mark: Option<&Value>) -> bool
    ensures { result ≡ told.is_child_of (option_map (λ value. value.now) mark.entry) }
{
    match mark {
        Some(Value::Text(text)) => text.as_str() == "child_of",
        _ => false,
    }
}

fn reference_of(link: &Link) -> SpanRef
    ensures { result ≡ told.reference_of link.now }
{
    SpanRef {
        child_of: is_child_of(find(&link.attributes, "opentracing.ref_type")),
        trace: link.trace,
        span: link.span,
    }
}

fn references_of(alloc: Global, links: &Items<Link>) -> Result<Items<SpanRef>, OutOfMemory>
    ensures { IfOk result (λ references. references ≡ map told.reference_of links.now) }
{
    let mut references = Items::with_room(alloc, links.len())?;
    'links: for link in links.as_slice() {
        references.push(reference_of(link))?;
    }
    Ok(references)
}

// ---- spans

fn span_of(alloc: Global, name: &Text, version: &Text, span: Span) -> Result<JSpan, OutOfMemory>
    requires plain { least.span_has_double span ≡ false }
    requires sound { IsSoundSpan span }
    ensures { IfOk result
        (λ written. written ≡ told.jaeger_span (under name.now version.now span)) }
{
    let flags = flags_of(&span);
    let references = references_of(alloc, &span.links)?;
    let mut span = span;
    let attributes = mem::replace(&mut span.attributes, Items::new(alloc));
    let tags = tags_of_span(alloc, name, version, &span, attributes)?;
    Ok(JSpan {
        trace: span.trace,
        id: span.id,
        parent: span.parent,
        name: span.name,
        references,
        invalid_refs: 0,
        flags,
        start: span.start.floor(),
        end: span.end.floor(),
        tags,
        logs: logs_of(alloc, span.events)?,
    })
}

// Adds spans of a scope of this name and version.
fn push_spans(
    alloc: Global,
    spans: &mut Items<JSpan>,
    name: &Text,
    version: &Text,
    own: Items<Span>,
) -> Result<(), OutOfMemory>
    requires plain { list_any least.span_has_double own ≡ false }
    requires sound { All IsSoundSpan own }
    ensures { OnOk result
        (spans.new ≡ spans.old ++ map told.jaeger_span (map (under name.now version.now) own)) }
{
    'spans: for span in own.into_vec() {
        spans.push(span_of(alloc, name, version, span)?)?;
    }
    Ok(())
}

// Adds the spans of a scope.
fn push_scope(alloc: Global, spans: &mut Items<JSpan>, scope: Scope) -> Result<(), OutOfMemory>
    requires plain { scope_has_double scope ≡ false }
    requires sound { IsSoundScope scope }
    ensures { OnOk result (spans.new ≡ spans.old ++ map told.jaeger_span (spans_of scope)) }
{
    let (name, version) = (scope.name, scope.version);
    push_spans(alloc, spans, &name, &version, scope.spans)
}

fn spans_of(alloc: Global, scopes: Items<Scope>) -> Result<Items<JSpan>, OutOfMemory>
    requires plain { list_any scope_has_double scopes ≡ false }
    requires sound { All IsSoundScope scopes }
    ensures { IfOk result (λ spans. spans ≡ map told.jaeger_span (scoped scopes)) }
{
    let mut spans = Items::new(alloc);
    'scopes: for scope in scopes.into_vec() {
        push_scope(alloc, &mut spans, scope)?;
    }
    Ok(spans)
}

// ---- the batch

// The tags of a process.
fn process_tags(alloc: Global, resource: Attrs) -> Result<Items<Tag>, OutOfMemory>
    requires plain { least.doubles_inside resource ≡ false }
    requires rising { Rise (keys_of resource) }
    ensures { IfOk result (λ tags. tags ≡ map values.tag_of (without service_key resource)) }
{
    let others = attributes_but("service.name", resource);
    tags_in_order(alloc, others.into_vec())
}

fn batch_of(alloc: Global, group: Group) -> Result<Batch, OutOfMemory>
    requires plain { group_has_double group ≡ false }
    requires sound { IsSoundGroup group }
    ensures { IfOk result (λ batch. batch ≡ told.batch_of group) }
{
    Ok(Batch {
        service: text_or_none(alloc, find(&group.resource, "service.name"))?,
        tags: process_tags(alloc, group.resource)?,
        spans: spans_of(alloc, group.scopes)?,
    })
}

/// The batch of a group, or the fault of the group that counts (OpenTelemetry exporter page for
/// Jaeger). The faults of the whole group are looked for before anything is built.
pub fn batch_of_group(alloc: Global, group: Group) -> Result<Batch, Halt<Fault>>
    requires sound { IsSoundGroup group }
    ensures value { IfOk result (λ batch. batch ≡ told.batch_of group) }
    ensures judged { JudgesFault IsResourceFault IsSpanFault result group }
    ensures timely { IfOk result (λ batch. All IsTimely batch.spans) }
{
    match fault_of_group(alloc, &group)? {
        Some(fault) => Err(Halt::Why(fault)),
        None => Ok(batch_of(alloc, group)?),
    }
}
