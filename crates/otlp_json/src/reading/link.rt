//! `Span.Link` (OTLP trace.proto).
ghost use Rattle.std.specs.Prelude.{◌≡◌, IfOk};
ghost use Rattle.json_nodes.specs.Lents.{lent_view as view};
ghost use Rattle.span_io.specs.Paths.{JudgesValue};
ghost use Rattle.otlp_json.specs.Span.{IsJsonLink, link_members, link_offends};
ghost use Rattle.trace_model.specs.OtlpParts.{link_of};

use crate::reading::attributes::attributes_of;
use crate::reading::identifiers::{optional_span, optional_trace};
use crate::reading::numbers::count;
use json_members::{Table, bare_member, member, object, text};
use json_nodes::Lent;
use span_ids::{SpanId, TraceId};
use span_io::{Cause, Halt, Items, Text};
use std::alloc::Global;
use trace_model::{Link, LinkParts, Noted};

// The members of a link.
struct LinkTable;

impl Table for LinkTable {
    ghost parts = { link_members };
}

// A link without one of its identifiers is none.
#[tactic(auto, using(json_members::proofs::PartLaws::reading), unfolding(crate::specs::Span::link_members))]
pub fn read_link(
    alloc: Global,
    v: &Lent<'_, '_>,
) -> Result<Option<Noted<Link, Items<Text>>>, Halt<Cause>>
    ensures value { IfOk result (λ l. IsJsonLink l (view v.now)) }
    ensures judged { JudgesValue result (link_offends (view v.now)) }
{
    object::<LinkTable>(v)?;
    let trace = bare_member::<LinkTable, _>(v, 0, optional_trace(v, "traceId"))?;
    let span = bare_member::<LinkTable, _>(v, 1, optional_span(v, "spanId"))?;
    let state = member::<LinkTable, _>(v, 2, text(alloc, v, "traceState"))?;
    let (attributes, keys) = member::<LinkTable, _>(v, 3, attributes_of(alloc, v, "attributes"))?;
    let dropped = bare_member::<LinkTable, _>(v, 4, count(v, "droppedAttributesCount"))?;
    let flags = bare_member::<LinkTable, _>(v, 5, count(v, "flags"))?;
    let parts = LinkParts {
        state,
        attributes,
        keys,
        dropped,
        flags,
    };
    Ok(linked(trace, span, parts))
}

// The link of these identifiers, if both are there.
fn linked(
    trace: Option<TraceId>,
    span: Option<SpanId>,
    parts: LinkParts,
) -> Option<Noted<Link, Items<Text>>>
    ensures { result ≡ link_of trace span parts }
{
    let means = Link {
        trace: trace?,
        span: span?,
        state: parts.state,
        attributes: parts.attributes,
        dropped: parts.dropped,
        flags: parts.flags,
    };
    Some(Noted {
        means,
        notes: parts.keys,
    })
}
