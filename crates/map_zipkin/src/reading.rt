//! Spans of Zipkin as spans of runs.
ghost use Rattle.std.specs.Prelude.{◌≡◌, IfOk};
ghost use Rattle.trace_model.specs.Soundness.{IsSoundSpan};
ghost use Rattle.trace_model.specs.Values.{AreSound};
ghost use Rattle.map_zipkin.specs.Reading as meant;
ghost use Rattle.map_zipkin.specs.Remarks.{zipkin_remarks};

mod attributes;
mod columns;
mod events;
mod remarks;
mod tags;

use crate::run::Run;
use attributes::{ends_of, parted_by};
use columns::told_by;
use events::events_of;
use remarks::remarks_of;
use span_io::{Items, OutOfMemory, Text};
use std::alloc::Global;
use std::mem;
use tags::pairs_of;
use trace_model::{EventReader, Kind, Remark, Span, find};
use zipkin_json::{ZKind, ZSpan};

fn kind_of(kind: ZKind) -> Kind
    ensures { result ≡ meant.zipkin_kind_read kind }
{
    match kind {
        ZKind::Absent => Kind::Internal,
        ZKind::Client => Kind::Client,
        ZKind::Server => Kind::Server,
        ZKind::Producer => Kind::Producer,
        ZKind::Consumer => Kind::Consumer,
    }
}

/// The run and the span that a span of Zipkin means (OpenTelemetry exporter page for Zipkin, read
/// backwards), and the remarks on it.
pub fn triple_of_span(alloc: Global, span: ZSpan) -> Result<(Run, Span, Items<Remark>), OutOfMemory>
    ensures value { IfOk result (λ parts. (parts.0, parts.1) ≡ meant.run_span_of span) }
    ensures remarks { IfOk result (λ parts. parts.2 ≡ zipkin_remarks span) }
    ensures sound { IfOk result (λ parts. AreSound parts.0.resource × IsSoundSpan parts.1) }
{
    let mut reader = EventReader::new();
    triple_by(alloc, &mut reader, span)
}

/// The same, where the reader of its annotations is lent.
pub(crate) fn triple_by(
    alloc: Global,
    reader: &mut EventReader,
    span: ZSpan,
) -> Result<(Run, Span, Items<Remark>), OutOfMemory>
    ensures value { IfOk result (λ parts. (parts.0, parts.1) ≡ meant.run_span_of span) }
    ensures remarks { IfOk result (λ parts. parts.2 ≡ zipkin_remarks span) }
    ensures sound { IfOk result (λ parts. AreSound parts.0.resource × IsSoundSpan parts.1) }
{
    trace_model::laws::event_texts_exact();
    trace_model::laws::event_texts_once();
    let mut span = span;
    let own_tags = mem::replace(&mut span.tags, Items::new(alloc));
    let annotations = mem::replace(&mut span.annotations, Items::new(alloc));
    let tags = pairs_of(alloc, own_tags)?;
    let remarks = remarks_of(alloc, &span.remote.service, &tags)?;
    let told = told_by(alloc, &tags)?;
    let events = events_of(alloc, reader, annotations)?;
    let tag = find(&tags, "peer.service");
    let peer = mem::replace(&mut span.remote.service, Text::new(alloc));
    let service = mem::replace(&mut span.local.service, Text::new(alloc));
    let marks = (span.debug, span.shared);
    let own = ends_of(alloc, marks, span.local, span.remote, peer, tag)?;
    let parted = parted_by(alloc, service, own, tags)?;
    let run = Run {
        resource: parted.resource,
        name: told.name,
        version: told.version,
    };
    let read = Span {
        trace: span.trace,
        id: span.id,
        state: told.state,
        parent: span.parent,
        name: span.name,
        kind: kind_of(span.kind),
        start: span.start,
        end: span.end,
        attributes: parted.attributes,
        dropped_attributes: told.dropped_attributes,
        events,
        dropped_events: told.dropped_events,
        links: Items::new(alloc),
        dropped_links: told.dropped_links,
        status: told.status,
        flags: 0,
    };
    Ok((run, read, remarks))
}
