//! Reading spans of a value whose nodes are lent.
ghost use Rattle.std.specs.Prelude.{◌≡◌, true, All, Err, IfOk, is_some, option_map, codes};
ghost use Rattle.serde_json.specs.Find.{as_array};
ghost use Rattle.json_nodes.specs.Lents.{lent_view as view, elements_left};
ghost use Rattle.span_io.specs.Paths.{each, JudgesValue, JudgesInput};
ghost use Rattle.span_io.specs.declared.halt.Halt.TheVariants as halts;
ghost use Rattle.std.specs.List.{AllZip};
ghost use Rattle.json_members.specs.Members.{member};
ghost use Rattle.zipkin_json.specs.Proper.{IsWritableZSpan};
ghost use Rattle.zipkin_json.specs.Span.{IsZSpan, HasRisingTags, span_members, span_offends, AreSpans, spans_offend};

use crate::proper::proper_span;
use crate::reading::annotation::annotations;
use crate::reading::endpoint::endpoint_of;
use crate::reading::identifiers::{kind, parent, required_span, required_trace};
use crate::reading::members::{micros, truth};
use crate::reading::tags::tags_of;
use crate::span::ZSpan;
use json_members::{Table, bare_member, member, members_of, object, text_found};
use json_nodes::{Elements, Lent};
use span_ids::Nanos;
use span_io::{Cause, Halt, Items, Refusal};
use std::alloc::Global;

// The members of a span.
struct SpanTable;

impl Table for SpanTable {
    ghost parts = { span_members };
}

// The members of a span that are there.
#[derive(Clone, Copy)]
struct SpanMembers<'v, 'a> {
    trace: Option<Lent<'v, 'a>>,
    id: Option<Lent<'v, 'a>>,
    parent: Option<Lent<'v, 'a>>,
    name: Option<Lent<'v, 'a>>,
    kind: Option<Lent<'v, 'a>>,
    timestamp: Option<Lent<'v, 'a>>,
    duration: Option<Lent<'v, 'a>>,
    debug: Option<Lent<'v, 'a>>,
    shared: Option<Lent<'v, 'a>>,
    local: Option<Lent<'v, 'a>>,
    remote: Option<Lent<'v, 'a>>,
    annotations: Option<Lent<'v, 'a>>,
    tags: Option<Lent<'v, 'a>>,
}

impl<'v, 'a> SpanMembers<'v, 'a> {
    fn of(v: &Lent<'v, 'a>) -> SpanMembers<'v, 'a>
        ensures trace { option_map view result.trace ≡ member (codes "traceId") (view v.now) }
        ensures id { option_map view result.id ≡ member (codes "id") (view v.now) }
        ensures parent { option_map view result.parent ≡ member (codes "parentId") (view v.now) }
        ensures name { option_map view result.name ≡ member (codes "name") (view v.now) }
        ensures kind { option_map view result.kind ≡ member (codes "kind") (view v.now) }
        ensures timestamp { option_map view result.timestamp
            ≡ member (codes "timestamp") (view v.now) }
        ensures duration { option_map view result.duration
            ≡ member (codes "duration") (view v.now) }
        ensures debug { option_map view result.debug ≡ member (codes "debug") (view v.now) }
        ensures shared { option_map view result.shared ≡ member (codes "shared") (view v.now) }
        ensures local { option_map view result.local ≡ member (codes "localEndpoint") (view v.now) }
        ensures remote { option_map view result.remote
            ≡ member (codes "remoteEndpoint") (view v.now) }
        ensures annotations { option_map view result.annotations
            ≡ member (codes "annotations") (view v.now) }
        ensures tags { option_map view result.tags ≡ member (codes "tags") (view v.now) }
    {
        let mut found = [None; 13];
        let names = [
            "traceId",
            "id",
            "parentId",
            "name",
            "kind",
            "timestamp",
            "duration",
            "debug",
            "shared",
            "localEndpoint",
            "remoteEndpoint",
            "annotations",
            "tags",
        ];
        members_of(v, &names, &mut found);
        SpanMembers {
            trace: found[0],
            id: found[1],
            parent: found[2],
            name: found[3],
            kind: found[4],
            timestamp: found[5],
            duration: found[6],
            debug: found[7],
            shared: found[8],
            local: found[9],
            remote: found[10],
            annotations: found[11],
            tags: found[12],
        }
    }
}

#[tactic(auto, using(json_members::proofs::PartLaws::reading), unfolding(crate::specs::Span::span_members))]
fn read_span(alloc: Global, v: &Lent<'_, '_>) -> Result<ZSpan, Halt<Cause>>
    ensures value { IfOk result (λ s. IsZSpan s (view v.now)) }
    ensures rising { IfOk result HasRisingTags }
    ensures judged { JudgesValue result (span_offends (view v.now)) }
{
    object::<SpanTable>(v)?;
    let found = SpanMembers::of(v);
    let trace = bare_member::<SpanTable, _>(v, 0, required_trace(found.trace))?;
    let id = bare_member::<SpanTable, _>(v, 1, required_span(found.id))?;
    let parent = bare_member::<SpanTable, _>(v, 2, parent(found.parent))?;
    let name = member::<SpanTable, _>(v, 3, text_found(alloc, found.name))?;
    let kind = bare_member::<SpanTable, _>(v, 4, kind(found.kind))?;
    let timestamp = bare_member::<SpanTable, _>(v, 5, micros(found.timestamp, 0))?;
    let duration = bare_member::<SpanTable, _>(v, 6, micros(found.duration, timestamp))?;
    let debug = bare_member::<SpanTable, _>(v, 7, truth(found.debug))?;
    let shared = bare_member::<SpanTable, _>(v, 8, truth(found.shared))?;
    let local = member::<SpanTable, _>(v, 9, endpoint_of(alloc, found.local))?;
    let remote = member::<SpanTable, _>(v, 10, endpoint_of(alloc, found.remote))?;
    let annotations = member::<SpanTable, _>(v, 11, annotations(alloc, found.annotations))?;
    let tags = member::<SpanTable, _>(v, 12, tags_of(alloc, found.tags))?;
    Ok(ZSpan {
        trace,
        id,
        parent,
        name,
        kind,
        start: Nanos(timestamp * 1000),
        end: Nanos((timestamp + duration) * 1000),
        debug,
        shared,
        local,
        remote,
        annotations,
        tags,
    })
}

fn read_each(alloc: Global, elements: Elements<'_, '_>) -> Result<Items<ZSpan>, Halt<Refusal>>
    ensures value { IfOk result
        (λ spans. AllZip (λ d x. IsZSpan x d) (elements_left elements.entry) spans) }
    ensures rising { IfOk result (All HasRisingTags) }
    ensures writable { IfOk result (All IsWritableZSpan) }
    ensures judged { JudgesInput result (each span_offends (elements_left elements.entry)) }
{
    let mut left = elements;
    let mut spans = Items::new(alloc);
    'elements: while let Some(element) = left.next() {
        match read_span(alloc, &element) {
            Ok(span) => {
                proper_span(&span);
                spans.push(span)?;
            }
            Err(halt) => return Err(halt.in_unit(spans.len() as u64 + 1)),
        }
    }
    Ok(spans)
}

// Reads spans of a value, which is an array of them.
pub(crate) fn read_array(alloc: Global, v: &Lent<'_, '_>) -> Result<Items<ZSpan>, Halt<Refusal>>
    ensures value { IfOk result (λ spans. AreSpans spans (view v.now)) }
    ensures rising { IfOk result (All HasRisingTags) }
    ensures writable { IfOk result (All IsWritableZSpan) }
    ensures judged { JudgesInput result (spans_offend (view v.now)) }
    ensures wants { result ≡ Err halts.OutOfMemory → is_some (as_array (view v.now)) ≡ true }
{
    let Some(elements) = v.elements() else {
        return Err(Halt::Why(Refusal {
            unit: 0,
            cause: Cause::BadShape,
        }));
    };
    let spans = read_each(alloc, elements)?;
    Ok(spans)
}
