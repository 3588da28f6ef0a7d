//! The fault of a group that counts. The spans are gone over once, and nothing is copied but the key
//! of the fault.
ghost use Rattle.std.specs.Prelude.{◌≡◌, ◌↔◌, false, None, option_map, IfOk, OnErr};
ghost use Rattle.std.specs.List.{list_any};
ghost use Rattle.trace_model.specs.Soundness.{IsSoundGroup};
ghost use Rattle.trace_model.specs.declared.fault.Fault.{Fault};
ghost use Rattle.trace_model.specs.declared.span.Span.{Span};
ghost use Rattle.span_tags.specs.FaultTables as told;
ghost use Rattle.span_tags.specs.FaultTables.{FaultTable, IsTimely, BeginsWith};
ghost use Rattle.span_tags.specs.FoundFaults.{FindsFaults};
ghost use Rattle.span_tags.specs.PlacedFaults.{CountsBy, MayWantMemory};
ghost use Rattle.span_tags.specs.Runs.{scoped};
ghost use Rattle.span_tags.specs.TagWords.{Pairs};

use span_io::{Items, OutOfMemory, Text};
use std::alloc::Global;
use trace_model::{Attrs, Event, Fault, Group, Scope, Span, Value};

/// How a target finds what it can't hold of a resource and of a span.
pub trait Faults {
    // What is a fault of each, and how it is found.
    ghost of_resource: { Pairs → Fault → Type 0 };

    ghost of_span: { Span → Fault → Type 0 };

    ghost table: { FaultTable };

    /// The first of the target's own keys under which an attribute isn't of its form.
    fn own_key(attributes: &Attrs) -> Option<&'static str>
        ensures { option_map (λ key. key.now) result ≡ table.own_key attributes.now };

    /// Whether an event would be read as another.
    fn has_event_fault(alloc: Global, events: &Items<Event>) -> Result<bool, OutOfMemory>
        ensures { IfOk result (λ has. has ≡ table.has_event_fault events.now) };

    /// Whether a link would be read as the parent.
    fn has_link_fault(span: &Span) -> bool
        ensures { result ≡ table.has_link_fault span.now };

    /// Whether a double stands where the text of the value is wanted.
    fn has_double(value: &Value) -> bool
        ensures { result ≡ table.has_double value.now };

    /// Whether one does elsewhere in a resource.
    fn has_double_besides(resource: &Attrs) -> bool
        ensures { result ≡ table.has_double_besides resource.now };
}

// ---- doubles

fn doubles_in<F: Faults>(attributes: &Attrs) -> bool
    ensures { result ≡ told.doubles_in F.table attributes.now }
{
    'attributes: for pair in attributes.as_slice() {
        if F::has_double(&pair.1) {
            return true;
        }
    }
    false
}

fn doubles_in_events<F: Faults>(events: &Items<Event>) -> bool
    ensures { result ≡ list_any (λ event. told.doubles_in F.table event.attributes) events.now }
{
    'events: for event in events.as_slice() {
        if doubles_in::<F>(&event.attributes) {
            return true;
        }
    }
    false
}

fn doubles_in_span<F: Faults>(span: &Span) -> bool
    ensures { result ≡ told.doubles_in_span F.table span.now }
{
    doubles_in::<F>(&span.attributes) || doubles_in_events::<F>(&span.events)
}

fn doubles_in_resource<F: Faults>(resource: &Attrs) -> bool
    ensures { result ≡ told.doubles_in_resource F.table resource.now }
{
    F::has_double_besides(resource) || doubles_in::<F>(resource)
}

// ---- the first fault

fn fault_of_span<F: Faults>(alloc: Global, span: &Span) -> Result<Option<Fault>, OutOfMemory>
    ensures value { IfOk result (λ fault. fault ≡ told.fault_of_span F.table span.now) }
    ensures wants { OnErr result (IsTimely span.now) }
{
    if span.end.0 < span.start.0 {
        return Ok(Some(Fault::EndBeforeStart));
    }
    if let Some(key) = F::own_key(&span.attributes) {
        return Ok(Some(Fault::OwnKey(Text::of(alloc, key)?)));
    }
    if F::has_event_fault(alloc, &span.events)? {
        return Ok(Some(Fault::EventText));
    }
    if F::has_link_fault(span) {
        return Ok(Some(Fault::ChildOfLink));
    }
    if doubles_in_span::<F>(span) {
        return Ok(Some(Fault::DoubleInText));
    }
    Ok(None)
}

fn fault_of_spans<F: Faults>(
    alloc: Global,
    spans: &Items<Span>,
) -> Result<Option<Fault>, OutOfMemory>
    ensures value { IfOk result (λ fault. fault ≡ told.fault_of_spans F.table spans.now) }
    ensures wants { OnErr result (BeginsWith IsTimely spans.now) }
{
    'spans: for span in spans.as_slice() {
        if let Some(fault) = fault_of_span::<F>(alloc, span)? {
            return Ok(Some(fault));
        }
    }
    Ok(None)
}

fn fault_of_scopes<F: Faults>(
    alloc: Global,
    scopes: &Items<Scope>,
) -> Result<Option<Fault>, OutOfMemory>
    ensures value { IfOk result (λ fault. fault ≡ told.fault_of_scopes F.table scopes.now) }
    ensures wants { OnErr result (BeginsWith (λ one. IsTimely one.span) (scoped scopes.now)) }
{
    'scopes: for scope in scopes.as_slice() {
        if let Some(fault) = fault_of_spans::<F>(alloc, &scope.spans)? {
            return Ok(Some(fault));
        }
    }
    Ok(None)
}

fn found_fault<F: Faults>(alloc: Global, group: &Group) -> Result<Option<Fault>, OutOfMemory>
    ensures value { IfOk result (λ fault. fault ≡ told.found_fault F.table group.now) }
    ensures resource { OnErr result (told.doubles_in_resource F.table group.now.resource ≡ false) }
    ensures wants { OnErr result (BeginsWith (λ one. IsTimely one.span) (scoped group.now.scopes)) }
{
    if doubles_in_resource::<F>(&group.resource) {
        return Ok(Some(Fault::DoubleInText));
    }
    fault_of_scopes::<F>(alloc, &group.scopes)
}

/// The fault of a group that counts, or none where the target can hold the group. Only the key of a
/// fault takes memory.
pub fn fault_in_group<F: Faults>(alloc: Global, group: &Group) -> Result<Option<Fault>, OutOfMemory>
    requires lawful { FindsFaults F.table F.of_resource F.of_span }
    requires sound { IsSoundGroup group.now }
    ensures judged { IfOk result (λ fault. CountsBy F.of_resource F.of_span group.now fault) }
    ensures none { IfOk result
        (λ fault. (fault ≡ None) ↔ CountsBy F.of_resource F.of_span group.now None) }
    // A double in the resource, or a first span that ends before its start, takes no memory.
    ensures wants { OnErr result (MayWantMemory F.of_resource F.of_span group.now) }
{
    found_fault::<F>(alloc, group)
}
