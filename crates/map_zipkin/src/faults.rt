//! What Zipkin can't hold of a group.
ghost use Rattle.std.specs.Prelude.{◌≡◌, is_some, option_map, IfOk, OnErr};
ghost use Rattle.trace_model.specs.EventReading.{event_text_read};
ghost use Rattle.trace_model.specs.Soundness.{IsSoundGroup};
ghost use Rattle.span_tags.specs.PlacedFaults.{MayWantMemory};
ghost use Rattle.span_tags.specs.TagWords as tags;
ghost use Rattle.map_zipkin.specs.Faults.{IsZipkinFaultOf, IsZipkinResourceFault, IsZipkinSpanFault};
ghost use Rattle.map_zipkin.specs.LeastZipkinFault as least;
ghost use Rattle.map_zipkin.specs.OwnColumns as columns;

use crate::own::{OWN_KEYS, Own, own_held, own_part};
use span_io::{Items, OutOfMemory, Text};
use span_tags::{Faults, decimal_in, fault_in_group};
use std::alloc::Global;
use trace_model::{Attrs, Event, Fault, Group, Span, Value, read_event_text};

// ---- keys of Zipkin's own

fn is_true_text(value: &Value) -> bool
    ensures { result ≡ columns.is_true_text value.now }
{
    match value {
        Value::Text(text) => text.as_str() == "true",
        _ => false,
    }
}

fn is_address(value: &Value) -> bool
    ensures { result ≡ columns.is_address value.now }
{
    match value {
        Value::Text(text) => text.len() > 0,
        _ => false,
    }
}

fn is_port(text: &str) -> bool
    ensures { result ≡ columns.has_port (tags.decimal_in text.now) }
{
    match decimal_in(text) {
        Some(number) => 1 <= number && number <= 65535,
        None => false,
    }
}

fn is_port_text(value: &Value) -> bool
    ensures { result ≡ columns.is_port_text value.now }
{
    match value {
        Value::Text(text) => is_port(text.as_str()),
        _ => false,
    }
}

// Whether a value is of the form of a key of Zipkin's own.
fn is_of_form(own: Own, value: &Value) -> bool
    ensures { result ≡ columns.own_form own value.now }
{
    match own {
        Own::Debug | Own::Shared => is_true_text(value),
        Own::LocalPort | Own::RemotePort => is_port_text(value),
        Own::LocalIpv4 | Own::LocalIpv6 | Own::RemoteIpv4 | Own::RemoteIpv6 => is_address(value),
    }
}

// Whether the attribute of the key, if there is one, isn't of its form.
fn is_out_of_form(pairs: &[(Text, Value)], own: Own) -> bool
    ensures { result ≡ least.is_out_of_form (columns.own_form own) (columns.own_in pairs.now own) }
{
    match own_held(pairs, own) {
        Some(value) => !is_of_form(own, value),
        None => false,
    }
}

// The first of these keys of which the attribute isn't of its form.
fn out_of_form(pairs: &[(Text, Value)], keys: &[Own]) -> Option<&'static str>
    ensures { option_map (λ key. key.now) result
        ≡ least.out_of_form pairs.now (columns.forms_of keys.now) }
{
    'keys: for own in keys {
        if is_out_of_form(pairs, *own) {
            return Some(own.key());
        }
    }
    None
}

// ---- names of events

// Whether the name alone is read as the text of an event with attributes.
fn reads_as_event(alloc: Global, name: &Text) -> Result<bool, OutOfMemory>
    ensures { IfOk result (λ reads. reads ≡ is_some (event_text_read name.now)) }
{
    trace_model::laws::event_texts_exact();
    let read = read_event_text(alloc, name)?;
    Ok(read.is_some())
}

// Whether the event has no attributes, and would be read as another that has some.
fn is_told_wrong(alloc: Global, event: &Event) -> Result<bool, OutOfMemory>
    ensures { IfOk result (λ wrong. wrong ≡ least.is_told_wrong event.now) }
{
    if event.attributes.len() > 0 {
        return Ok(false);
    }
    reads_as_event(alloc, &event.name)
}

// ---- the table of Zipkin

pub(crate) struct Zipkin;

impl Faults for Zipkin {
    ghost of_resource = { IsZipkinResourceFault };

    ghost of_span = { IsZipkinSpanFault };

    ghost table = { least.zipkin_faults };

    fn own_key(attributes: &Attrs) -> Option<&'static str> {
        let part = own_part(attributes);
        if part.len() == 0 {
            return None;
        }
        out_of_form(part, &OWN_KEYS)
    }

    fn has_event_fault(alloc: Global, events: &Items<Event>) -> Result<bool, OutOfMemory> {
        'events: for event in events.as_slice() {
            if is_told_wrong(alloc, event)? {
                return Ok(true);
            }
        }
        Ok(false)
    }

    fn has_link_fault(_: &Span) -> bool {
        false
    }

    fn has_double(value: &Value) -> bool {
        value.holds_double()
    }

    fn has_double_besides(_: &Attrs) -> bool {
        false
    }
}

/// The fault of a group that counts, or none where Zipkin can hold the group (OpenTelemetry exporter page
/// for Zipkin).
pub fn fault_of_group(alloc: Global, group: &Group) -> Result<Option<Fault>, OutOfMemory>
    requires sound { IsSoundGroup group.now }
    ensures judged { IfOk result (λ fault. IsZipkinFaultOf group.now fault) }
    // A double in the resource, or a first span that ends before its start, takes no memory.
    ensures wants { OnErr result (MayWantMemory IsZipkinResourceFault IsZipkinSpanFault group.now) }
{
    trace_model::laws::event_texts_exact();
    fault_in_group::<Zipkin>(alloc, group)
}
