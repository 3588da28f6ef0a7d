//! Each part of a trace in hand is proper, as its type keeps it. The functions read their argument,
//! and do nothing else.
ghost use Rattle.std.specs.Prelude.{◌≡◌, ◌<◌, ◌^◌, length, All};
ghost use Rattle.trace_model.specs.Proper.{IsProperValue, AreProper, IsProperEvent, IsProperLink, IsProperSpan, IsProperScope, IsProperGroup};

use crate::group::{Group, Scope};
use crate::span::{Event, Link, Span};
use crate::value::{Attrs, Value};
use span_ids::{Nanos, proper_parent};
use span_io::Items;
use span_io::laws::proper_bytes;

fn proper_double(double: [u8; 8])
    ensures size { length double ≡ 8 }
    ensures bytes { All (λ b. b < 256) double }
{
    // The type keeps it.
}

#[cycle(proper)]
fn proper_value(value: &Value)
    ensures { IsProperValue value.now }
{
    match value {
        Value::Text(text) => {
            text.as_str();
        }
        Value::Number(number) => {
            let _number = *number;
        }
        Value::Eight(double) => proper_double(*double),
        Value::Bytes(bytes) => proper_bytes(bytes.as_slice()),
        Value::List(members) => proper_members(members),
        Value::Map(pairs) => proper_attributes(pairs),
        Value::Truth(_) | Value::Nothing => {}
    }
}

#[cycle(proper)]
fn proper_members(members: &Items<Value>)
    ensures { All IsProperValue members.now }
{
    'members: for member in members.as_slice() {
        proper_value(member);
    }
}

#[cycle(proper)]
fn proper_attributes(attributes: &Attrs)
    ensures { AreProper attributes.now }
{
    'pairs: for pair in attributes.as_slice() {
        pair.0.as_str();
        proper_value(&pair.1);
    }
}

fn proper_time(time: Nanos)
    ensures { time < 2 ^ 64 }
{
    let _nanos = time.0;
}

fn proper_event(event: &Event)
    ensures { IsProperEvent event.now }
{
    proper_time(event.time);
    event.name.as_str();
    proper_attributes(&event.attributes);
    let _dropped = event.dropped;
}

fn proper_events(events: &Items<Event>)
    ensures { All IsProperEvent events.now }
{
    'events: for event in events.as_slice() {
        proper_event(event);
    }
}

fn proper_link(link: &Link)
    ensures { IsProperLink link.now }
{
    link.trace.known();
    link.span.known();
    link.state.as_str();
    proper_attributes(&link.attributes);
    let _dropped = link.dropped;
    let _flags = link.flags;
}

fn proper_links(links: &Items<Link>)
    ensures { All IsProperLink links.now }
{
    'links: for link in links.as_slice() {
        proper_link(link);
    }
}

fn proper_span(span: &Span)
    ensures { IsProperSpan span.now }
{
    span.trace.known();
    span.id.known();
    span.state.as_str();
    proper_parent(span.parent);
    span.name.as_str();
    proper_time(span.start);
    proper_time(span.end);
    proper_attributes(&span.attributes);
    let _dropped_attributes = span.dropped_attributes;
    proper_events(&span.events);
    let _dropped_events = span.dropped_events;
    proper_links(&span.links);
    let _dropped_links = span.dropped_links;
    span.status.message.as_str();
    let _flags = span.flags;
}

fn proper_spans(spans: &Items<Span>)
    ensures { All IsProperSpan spans.now }
{
    'spans: for span in spans.as_slice() {
        proper_span(span);
    }
}

fn proper_scope(scope: &Scope)
    ensures { IsProperScope scope.now }
{
    scope.name.as_str();
    scope.version.as_str();
    proper_attributes(&scope.attributes);
    let _dropped = scope.dropped;
    scope.schema_url.as_str();
    proper_spans(&scope.spans);
}

fn proper_scopes(scopes: &Items<Scope>)
    ensures { All IsProperScope scopes.now }
{
    'scopes: for scope in scopes.as_slice() {
        proper_scope(scope);
    }
}

/// A group in hand is proper. It is read as a whole, and nothing else is done.
pub fn proper_group(group: &Group)
    ensures { IsProperGroup group.now }
{
    proper_attributes(&group.resource);
    let _dropped = group.dropped;
    group.schema_url.as_str();
    proper_scopes(&group.scopes);
}
