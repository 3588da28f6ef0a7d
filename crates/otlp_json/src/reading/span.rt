//! `Span` (OTLP trace.proto).
ghost use Rattle.std.specs.Prelude.{◌≡◌, ◌++◌, IfOk};
ghost use Rattle.json_nodes.specs.Lents.{lent_view as view};
ghost use Rattle.span_io.specs.Paths.{JudgesValue};
ghost use Rattle.json_members.specs.Counted.{IsCountedValue};
ghost use Rattle.trace_model.specs.Remarks.{equal_keys, link_dropped};
ghost use Rattle.trace_model.specs.declared.place.Place.TheVariants as places;
ghost use Rattle.otlp_json.specs.private.Found.{IsSpanFound};
ghost use Rattle.otlp_json.specs.Span.{json_span_members, otlp_span_offends};

use crate::reading::attributes::attributes_of;
use crate::reading::events::FoundEvents;
use crate::reading::identifiers::{identified_span, identified_trace, optional_span};
use crate::reading::links::{FoundLinks, LinkRemarks};
use crate::reading::lists::rows_of;
use crate::reading::numbers::{count, kind, time};
use crate::reading::status::status_of;
use json_members::{Table, bare_member, member, object, text};
use json_nodes::Lent;
use span_io::{Cause, Halt, Items, OutOfMemory, Text};
use std::alloc::Global;
use trace_model::{Noted, Place, Remark, Span, remark_all, remark_dropped, remark_keys};

// The members of a span.
struct SpanTable;

impl Table for SpanTable {
    ghost parts = { json_span_members };
}

// The remarks on the span of this number, in the order of their places.
fn remarks_of(
    alloc: Global,
    number: u32,
    keys: Items<Text>,
    events: Items<Remark>,
    links: LinkRemarks,
) -> Result<Items<Remark>, OutOfMemory>
    ensures { IfOk result (λ remarks. remarks ≡ equal_keys (places.Span number) keys
        ++ (link_dropped (places.Span number) links.dropped ++ (events ++ links.remarks))) }
{
    let mut remarks = Items::new(alloc);
    remark_keys(&mut remarks, Place::Span(number), keys)?;
    remark_dropped(alloc, &mut remarks, Place::Span(number), links.dropped)?;
    remark_all(&mut remarks, events)?;
    remark_all(&mut remarks, links.remarks)?;
    Ok(remarks)
}

/// Reads the span of this number in its group.
#[tactic(auto, using(json_members::proofs::PartLaws::reading), unfolding(crate::specs::Span::json_span_members))]
pub fn read_span(
    alloc: Global,
    number: u32,
    v: &Lent<'_, '_>,
) -> Result<Noted<Span, Items<Remark>>, Halt<Cause>>
    requires counted { IsCountedValue (view v.now) }
    ensures value { IfOk result (λ r. IsSpanFound number r (view v.now)) }
    ensures judged { JudgesValue result (otlp_span_offends (view v.now)) }
{
    object::<SpanTable>(v)?;
    let trace = bare_member::<SpanTable, _>(v, 0, identified_trace(v, "traceId"))?;
    let id = bare_member::<SpanTable, _>(v, 1, identified_span(v, "spanId"))?;
    let state = member::<SpanTable, _>(v, 2, text(alloc, v, "traceState"))?;
    let parent = bare_member::<SpanTable, _>(v, 3, optional_span(v, "parentSpanId"))?;
    let name = member::<SpanTable, _>(v, 4, text(alloc, v, "name"))?;
    let kind = bare_member::<SpanTable, _>(v, 5, kind(v, "kind"))?;
    let start = bare_member::<SpanTable, _>(v, 6, time(v, "startTimeUnixNano"))?;
    let end = bare_member::<SpanTable, _>(v, 7, time(v, "endTimeUnixNano"))?;
    let (attributes, keys) = member::<SpanTable, _>(v, 8, attributes_of(alloc, v, "attributes"))?;
    let dropped_attributes = bare_member::<SpanTable, _>(v, 9, count(v, "droppedAttributesCount"))?;
    let events = member::<SpanTable, _>(v, 10, rows_of::<FoundEvents>(alloc, number, v, "events"))?;
    let dropped_events = bare_member::<SpanTable, _>(v, 11, count(v, "droppedEventsCount"))?;
    let links = member::<SpanTable, _>(v, 12, rows_of::<FoundLinks>(alloc, number, v, "links"))?;
    let dropped_links = bare_member::<SpanTable, _>(v, 13, count(v, "droppedLinksCount"))?;
    let status = member::<SpanTable, _>(v, 14, status_of(alloc, v, "status"))?;
    let flags = bare_member::<SpanTable, _>(v, 15, count(v, "flags"))?;
    let notes = remarks_of(alloc, number, keys, events.notes, links.notes)?;
    let means = Span {
        trace,
        id,
        state,
        parent,
        name,
        kind,
        start,
        end,
        attributes,
        dropped_attributes,
        events: events.means,
        dropped_events,
        links: links.means,
        dropped_links,
        status,
        flags,
    };
    Ok(Noted { means, notes })
}
