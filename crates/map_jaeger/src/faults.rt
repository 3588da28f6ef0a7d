//! What Jaeger can't hold of a group.
ghost use Rattle.std.specs.Prelude.{◌≡◌, ◌↔◌, None, IfOk, OnErr};
ghost use Rattle.trace_model.specs.Soundness.{IsSoundGroup};
ghost use Rattle.span_tags.specs.PlacedFaults.{MayWantMemory};
ghost use Rattle.map_jaeger.specs.Faults.{HasNoFault, IsFaultOf, IsResourceFault, IsSpanFault};
ghost use Rattle.map_jaeger.specs.LeastFault as least;

use crate::writing::flags::flags_in;
use crate::writing::is_child_of;
use span_ids::SpanId;
use span_io::{Items, OutOfMemory};
use span_tags::{Faults, fault_in_group};
use std::alloc::Global;
use trace_model::{Attrs, Event, Fault, Group, Link, Span, Value, find};

fn names_parent(parent: Option<SpanId>, id: SpanId) -> bool
    ensures { result ≡ least.names_parent parent id }
{
    match parent {
        Some(parent) => parent == id,
        None => true,
    }
}

// Whether the link is a child_of link of the span's own trace, and the span is a root or the link
// names its parent.
fn is_own_link(span: &Span, link: &Link) -> bool
    ensures { result ≡ least.is_own_link span.now link.now }
{
    is_child_of(find(&link.attributes, "opentracing.ref_type"))
        && link.trace == span.trace
        && names_parent(span.parent, link.span)
}

// The table of Jaeger.
pub(crate) struct Jaeger;

impl Faults for Jaeger {
    ghost of_resource = { IsResourceFault };

    ghost of_span = { IsSpanFault };

    ghost table = { least.jaeger_faults };

    fn own_key(attributes: &Attrs) -> Option<&'static str> {
        let value = find(attributes, "jaeger.flags")?;
        match flags_in(Some(value)) {
            Some(_) => None,
            None => Some("jaeger.flags"),
        }
    }

    fn has_event_fault(_: Global, _: &Items<Event>) -> Result<bool, OutOfMemory> {
        Ok(false)
    }

    fn has_link_fault(span: &Span) -> bool {
        'links: for link in span.links.as_slice() {
            if is_own_link(span, link) {
                return true;
            }
        }
        false
    }

    fn has_double(value: &Value) -> bool {
        match value {
            Value::List(_) | Value::Map(_) => value.holds_double(),
            _ => false,
        }
    }

    fn has_double_besides(resource: &Attrs) -> bool {
        match find(resource, "service.name") {
            Some(value) => value.holds_double(),
            None => false,
        }
    }
}

/// The fault of a group for which Jaeger can't hold it, if there is any. Only the key of a fault
/// takes memory.
pub fn fault_of_group(alloc: Global, group: &Group) -> Result<Option<Fault>, OutOfMemory>
    requires sound { IsSoundGroup group.now }
    ensures judged { IfOk result (λ fault. IsFaultOf group.now fault) }
    ensures none { IfOk result (λ fault. (fault ≡ None) ↔ HasNoFault group.now) }
    // A double in the resource, or a first span that ends before its start, takes no memory.
    ensures wants { OnErr result (MayWantMemory IsResourceFault IsSpanFault group.now) }
{
    fault_in_group::<Jaeger>(alloc, group)
}
