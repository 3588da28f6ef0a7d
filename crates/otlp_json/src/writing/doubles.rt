//! Whether a double stands in a group, which is the one fault of a group.
ghost use Rattle.std.specs.Prelude.{◌≡◌};
ghost use Rattle.std.specs.List.{list_any};
ghost use Rattle.trace_model.specs.EventTexts.{holds_double};
ghost use Rattle.otlp_json.specs.Doubles.{double_in_event, double_in_link, double_in_span, double_in_scope, double_in_group};
ghost use Rattle.otlp_json.specs.Held.{IsJsonFaultOf};

use trace_model::{Attrs, Event, Fault, Group, Link, Scope, Span};

fn in_attributes(attributes: &Attrs) -> bool
    ensures { result ≡ holds_double attributes.now }
{
    'attributes: for pair in attributes.as_slice() {
        if pair.1.holds_double() {
            return true;
        }
    }
    false
}

fn in_events(events: &[Event]) -> bool
    ensures { result ≡ list_any double_in_event events.now }
{
    'events: for event in events {
        if in_attributes(&event.attributes) {
            return true;
        }
    }
    false
}

fn in_links(links: &[Link]) -> bool
    ensures { result ≡ list_any double_in_link links.now }
{
    'links: for link in links {
        if in_attributes(&link.attributes) {
            return true;
        }
    }
    false
}

fn in_span(span: &Span) -> bool
    ensures { result ≡ double_in_span span.now }
{
    in_attributes(&span.attributes)
        || in_events(span.events.as_slice())
        || in_links(span.links.as_slice())
}

fn in_spans(spans: &[Span]) -> bool
    ensures { result ≡ list_any double_in_span spans.now }
{
    'spans: for span in spans {
        if in_span(span) {
            return true;
        }
    }
    false
}

fn in_scope(scope: &Scope) -> bool
    ensures { result ≡ double_in_scope scope.now }
{
    in_attributes(&scope.attributes) || in_spans(scope.spans.as_slice())
}

fn in_scopes(scopes: &[Scope]) -> bool
    ensures { result ≡ list_any double_in_scope scopes.now }
{
    'scopes: for scope in scopes {
        if in_scope(scope) {
            return true;
        }
    }
    false
}

// Whether a double stands in the attributes of a group, or of what it has.
fn has_double(group: &Group) -> bool
    ensures { result ≡ double_in_group group.now }
{
    in_attributes(&group.resource) || in_scopes(group.scopes.as_slice())
}

/// The fault of a group that OTLP/JSON as it is written here can't hold: a double stands in it.
pub fn fault_of_group(group: &Group) -> Option<Fault>
    ensures { IsJsonFaultOf group.now result }
{
    if has_double(group) {
        return Some(Fault::DoubleInText);
    }
    None
}
