//! Spans, and the scopes that they are of.
ghost use Rattle.std.specs.Prelude.{◌≡◌, map, All, IfOk, OnOk};
ghost use Rattle.jaeger_model.specs.Counted.{IsCounted, IsCountedSpan};
ghost use Rattle.span_tags.specs.ReadRuns.{one_of};
ghost use Rattle.span_tags.specs.Runs.{runs};
ghost use Rattle.map_jaeger.specs.private.Noted.{AddsNoted, AreNumbered};
ghost use Rattle.map_jaeger.specs.Reading as meant;
ghost use Rattle.map_jaeger.specs.private.ReadColumns.{scoped_by_parts};
ghost use Rattle.map_jaeger.specs.Remarks.{RepeatsOfSpan, jspan_remarks};

use crate::columns::{COLUMNS, Column};
use crate::reading::attributes::{part_tags, span_attributes};
use crate::reading::columns::{count_held, held, name_held, status_of, text_held};
use crate::reading::events::events_of;
use crate::reading::links::{links_but, parent_of};
use crate::reading::remarks::remark_columns;
use crate::reading::tags::attributes_of;
use crate::reading::values::kind_in;
use jaeger_model::JSpan;
use span_io::{Items, OutOfMemory};
use span_tags::{ReadSpan, Runs};
use std::alloc::Global;
use std::mem;
use trace_model::{
    Attrs, Event, Kind, Noted, Place, Remark, Scope, Span, remark_all, remark_dropped, remark_keys,
};

/// The scopes of these spans, and the remarks on them.
pub(crate) fn scopes_of(
    alloc: Global,
    spans: Items<JSpan>,
) -> Result<Noted<Items<Scope>, Items<Remark>>, OutOfMemory>
    requires counted { IsCounted spans }
    requires each { All IsCountedSpan spans }
    ensures scopes { IfOk result (λ read. read.means ≡ runs (map meant.scoped_of spans)) }
    ensures remarks { IfOk result
        (λ read. AreNumbered RepeatsOfSpan jspan_remarks 1 spans read.notes) }
{
    let mut so_far = Runs::none(alloc);
    let mut notes = Items::new(alloc);
    let mut number: u32 = 0;
    'spans: for span in spans.into_vec() {
        number += 1;
        let one = read_span(alloc, &mut notes, number, span)?;
        so_far = so_far.add(alloc, one)?;
    }
    let means = so_far.finish(alloc)?;
    Ok(Noted { means, notes })
}

// The span of this number; the remarks on it are added.
fn read_span(
    alloc: Global,
    remarks: &mut Items<Remark>,
    number: u32,
    span: JSpan,
) -> Result<ReadSpan, OutOfMemory>
    requires counted { IsCountedSpan span }
    ensures value { IfOk result (λ read. one_of read ≡ meant.scoped_of span) }
    ensures remarks { OnOk result
        (AddsNoted RepeatsOfSpan jspan_remarks number span remarks.old remarks.new) }
{
    let mut span = span;
    let own_tags = mem::replace(&mut span.tags, Items::new(alloc));
    let own_logs = mem::replace(&mut span.logs, Items::new(alloc));
    let (tags, keys) = attributes_of(alloc, own_tags)?;
    remark_keys(remarks, Place::Span(number), keys)?;
    let dropped = 0 < span.invalid_refs;
    remark_dropped(alloc, remarks, Place::Span(number), dropped)?;
    let parts = part_tags(alloc, tags)?;
    remark_columns(alloc, remarks, Place::Span(number), &parts.own, &COLUMNS)?;
    let attributes = span_attributes(alloc, &span, parts.free)?;
    let read = events_of(alloc, number, own_logs)?;
    remark_all(remarks, read.notes)?;
    span_by(alloc, span, &parts.own, attributes, read.means)
}

// The span that has these tags of the table, attributes and events.
fn span_by(
    alloc: Global,
    span: JSpan,
    own: &Attrs,
    attributes: Attrs,
    events: Items<Event>,
) -> Result<ReadSpan, OutOfMemory>
    ensures { IfOk result (λ read. one_of read ≡ scoped_by_parts span own.now attributes events) }
{
    let parent = parent_of(&span);
    let links = links_but(alloc, span.trace, parent, &span.references)?;
    let span = Span {
        trace: span.trace,
        id: span.id,
        state: text_held(alloc, own, Column::State)?,
        parent,
        name: span.name,
        kind: kind_in(held(own, Column::Kind)).unwrap_or(Kind::Internal),
        start: span.start,
        end: span.end,
        attributes,
        dropped_attributes: count_held(own, Column::DroppedAttributes),
        events,
        dropped_events: count_held(own, Column::DroppedEvents),
        links,
        dropped_links: count_held(own, Column::DroppedLinks),
        status: status_of(alloc, own)?,
        flags: span.flags.cast_unsigned() % 2,
    };
    Ok(ReadSpan {
        name: name_held(alloc, own, Column::ScopeName, Column::LibraryName)?,
        version: name_held(alloc, own, Column::ScopeVersion, Column::LibraryVersion)?,
        span,
    })
}
