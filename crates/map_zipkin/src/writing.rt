//! The spans of a group in which nothing is a fault.
ghost use Rattle.std.specs.Prelude.{◌≡◌, ◌++◌, ℕ, List, map, false, All, IfOk, OnOk};
ghost use Rattle.std.specs.List.{list_any};
ghost use Rattle.trace_model.specs.Attributes.{Rise, keys};
ghost use Rattle.trace_model.specs.EventTexts.{holds_double};
ghost use Rattle.trace_model.specs.Soundness.{IsSoundGroup};
ghost use Rattle.trace_model.specs.EventTexts as texts;
ghost use Rattle.span_tags.specs.PlacedFaults.{JudgesFault};
ghost use Rattle.span_tags.specs.Runs.{scoped, spans_of as scoped_spans, under};
ghost use Rattle.zipkin_json.specs.Proper.{IsTimelyZSpan};
ghost use Rattle.map_zipkin.specs.Faults.{IsZipkinResourceFault, IsZipkinSpanFault};
ghost use Rattle.map_zipkin.specs.private.Unfit.{event_unfit, group_unfit, scope_unfit, span_unfit};
ghost use Rattle.map_zipkin.specs.Writing as told;
ghost use Rattle.map_zipkin.specs.private.WritingSoFar.{shared_rows};

mod columns;
mod endpoints;
mod shared;
mod tags;

use crate::faults::fault_of_group;
use crate::own::{Own, has_own, own_part};
use columns::rows_of_span;
use endpoints::endpoints_of;
use shared::rows_of_scope;
use span_ids::Nanos;
use span_io::{Halt, Items, OutOfMemory, Text};
use std::alloc::Global;
use tags::tags_of;
use trace_model::{Attrs, Event, Fault, Group, Kind, Scope, Span, event_text};
use zipkin_json::{ZKind, ZSpan};

fn zipkin_kind(kind: Kind) -> ZKind
    ensures { result ≡ told.zipkin_kind kind }
{
    match kind {
        Kind::Unspecified | Kind::Internal => ZKind::Absent,
        Kind::Server => ZKind::Server,
        Kind::Client => ZKind::Client,
        Kind::Producer => ZKind::Producer,
        Kind::Consumer => ZKind::Consumer,
    }
}

// ---- annotations

// The text of an event in which no double stands.
fn event_told(alloc: Global, event: &Event) -> Result<Text, OutOfMemory>
    requires { event_unfit event.now ≡ false }
    ensures { IfOk result (λ text. text ≡ texts.event_text event.now.name event.now.attributes) }
{
    match event_text(alloc, &event.name, &event.attributes) {
        Ok(text) => Ok(text),
        Err(Halt::OutOfMemory) => Err(OutOfMemory),
        Err(Halt::Why(())) => unreachable!(),
    }
}

fn annotation_of(alloc: Global, event: &Event) -> Result<(Nanos, Text), OutOfMemory>
    requires { event_unfit event.now ≡ false }
    ensures { IfOk result (λ annotation. annotation ≡ told.annotation_of event.now) }
{
    let text = event_told(alloc, event)?;
    Ok((event.time.floor(), text))
}

fn annotations_of(alloc: Global, events: &Items<Event>) -> Result<Items<(Nanos, Text)>, OutOfMemory>
    requires { list_any event_unfit events.now ≡ false }
    ensures { IfOk result (λ annotations. annotations ≡ map told.annotation_of events.now) }
{
    let mut annotations = Items::with_room(alloc, events.len())?;
    'events: for event in events.as_slice() {
        annotations.push(annotation_of(alloc, event)?)?;
    }
    Ok(annotations)
}

// ---- spans

// The span under the name and version of its scope, with these rows in common with it.
fn span_of(
    alloc: Global,
    resource: &Attrs,
    shared: &Attrs,
    span: Span,
) -> Result<ZSpan, OutOfMemory>
    requires resource { holds_double resource.now ≡ false }
    requires span { span_unfit span ≡ false }
    requires rising { Rise (keys shared.now) }
    requires shared { holds_double shared.now ≡ false }
    ensures { (name version : List ℕ) → shared.now ≡ shared_rows resource.now name version
        → IfOk result
        (λ written. written ≡ told.zipkin_span resource.now (under name version span)) }
{
    let part = own_part(&span.attributes);
    let (local, remote) = endpoints_of(alloc, resource, &span.attributes, part)?;
    let debug = has_own(part, Own::Debug);
    let shared_with = has_own(part, Own::Shared);
    let annotations = annotations_of(alloc, &span.events)?;
    let own = rows_of_span(alloc, &span)?;
    let tags = tags_of(alloc, own, shared.as_slice(), span.attributes)?;
    Ok(ZSpan {
        trace: span.trace,
        id: span.id,
        parent: span.parent,
        name: span.name,
        kind: zipkin_kind(span.kind),
        start: span.start.floor(),
        end: span.end.floor(),
        debug,
        shared: shared_with,
        local,
        remote,
        annotations,
        tags,
    })
}

// Adds spans that have these rows in common with their scope, which has this name and version.
fn push_spans(
    alloc: Global,
    spans: &mut Items<ZSpan>,
    resource: &Attrs,
    shared: &Attrs,
    own: Items<Span>,
) -> Result<(), OutOfMemory>
    requires resource { holds_double resource.now ≡ false }
    requires own { list_any span_unfit own ≡ false }
    requires rising { Rise (keys shared.now) }
    requires shared { holds_double shared.now ≡ false }
    ensures { (name version : List ℕ) → shared.now ≡ shared_rows resource.now name version
        → OnOk result
        (spans.new
        ≡ spans.old ++ map (told.zipkin_span resource.now) (map (under name version) own)) }
{
    'spans: for span in own.into_vec() {
        spans.push(span_of(alloc, resource, shared, span)?)?;
    }
    Ok(())
}

// Adds the spans of a scope.
fn push_scope(
    alloc: Global,
    spans: &mut Items<ZSpan>,
    resource: &Attrs,
    scope: Scope,
) -> Result<(), OutOfMemory>
    requires resource { holds_double resource.now ≡ false }
    requires scope { scope_unfit scope ≡ false }
    ensures { OnOk result
        (spans.new ≡ spans.old ++ map (told.zipkin_span resource.now) (scoped_spans scope)) }
{
    if scope.spans.len() == 0 {
        return Ok(());
    }
    let shared = rows_of_scope(alloc, resource, &scope.name, &scope.version)?;
    push_spans(alloc, spans, resource, &shared, scope.spans)
}

// How many spans there are, for their room.
fn span_count(scopes: &Items<Scope>) -> usize {
    let mut count: usize = 0;
    'scopes: for scope in scopes.as_slice() {
        count = count.saturating_add(scope.spans.len());
    }
    count
}

fn spans_of(
    alloc: Global,
    resource: &Attrs,
    scopes: Items<Scope>,
) -> Result<Items<ZSpan>, OutOfMemory>
    requires resource { holds_double resource.now ≡ false }
    requires scopes { list_any scope_unfit scopes ≡ false }
    ensures { IfOk result (λ spans. spans ≡ map (told.zipkin_span resource.now) (scoped scopes)) }
{
    let mut spans = Items::with_room(alloc, span_count(&scopes))?;
    'scopes: for scope in scopes.into_vec() {
        push_scope(alloc, &mut spans, resource, scope)?;
    }
    Ok(spans)
}

// The spans of a group in which nothing is a fault.
fn spans_in(alloc: Global, group: Group) -> Result<Items<ZSpan>, OutOfMemory>
    requires { group_unfit group ≡ false }
    ensures { IfOk result (λ spans. spans ≡ told.spans_of_group group) }
{
    let (resource, scopes) = (group.resource, group.scopes);
    spans_of(alloc, &resource, scopes)
}

/// The spans of a group, or the fault of the group that counts (OpenTelemetry exporter page for
/// Zipkin). The faults of the whole group are looked for before anything is built.
pub fn spans_of_group(alloc: Global, group: Group) -> Result<Items<ZSpan>, Halt<Fault>>
    requires sound { IsSoundGroup group }
    ensures value { IfOk result (λ spans. spans ≡ told.spans_of_group group) }
    ensures judged { JudgesFault IsZipkinResourceFault IsZipkinSpanFault result group }
    ensures timely { IfOk result (All IsTimelyZSpan) }
{
    match fault_of_group(alloc, &group)? {
        Some(fault) => Err(Halt::Why(fault)),
        None => Ok(spans_in(alloc, group)?),
    }
}
