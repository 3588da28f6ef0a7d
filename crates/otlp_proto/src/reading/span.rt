//! `Span` (OTLP trace.proto).
ghost use Rattle.std.specs.Prelude.{◌≡◌, ◌<◌, ◌^◌, ℕ, List, [], length, IfOk, OnOk};
ghost use Rattle.span_io.specs.Offences.{Offence, Judges, JudgesHere};
ghost use Rattle.span_io.specs.Tables.{givens};
ghost use Rattle.proto_wire.specs.Messages.{messages};
ghost use Rattle.proto_wire.specs.Records.{Record};
ghost use Rattle.otlp_proto.specs.private.ReadParts.{IsReadSpan};
ghost use Rattle.otlp_proto.specs.Rows.{MeansMessage};
ghost use Rattle.span_io.specs.RowsSoFar.{Sets};
ghost use Rattle.span_io.specs.private.RowSteps.{JudgesCause, JudgesEnum, JudgesMessage};
ghost use Rattle.otlp_proto.specs.Span.{MeansKind, span_ends, span_rules, span_table};
ghost use Rattle.otlp_proto.specs.private.SpanSoFar.{GatheredSpan, GaveSpan, MakesSpan, TakesSpanId, TakesTraceId};
ghost use Rattle.otlp_proto.specs.Status.{IsStatus, status_rules};
ghost use Rattle.trace_model.specs.OtlpParts.{no_status};

mod events;
mod links;
mod remarks;

use crate::laws::message_rules;
use crate::reading::attributes::AttributeRows;
use crate::reading::message::{Rows, read_rows};
use crate::reading::rows::{count_row, flags_row, span_id_row, time_row, trace_id_row};
use crate::reading::status::read_status;
use events::EventList;
use links::LinkList;
use proto_wire::{Payload, WireRecord};
use remarks::remarks_of;
use span_ids::{Nanos, SpanId, TraceId};
use span_io::{Cause, Halt, Items, Text, once, text_row};
use std::alloc::Global;
use trace_model::{Code, Kind, Noted, Remark, Span, Status};

/// What was gathered so far of the span of a number.
#[derive(Drop)]
struct SpanRows {
    number: u32,
    trace: Option<Option<TraceId>>,
    id: Option<Option<SpanId>>,
    state: Option<Text>,
    parent: Option<Option<SpanId>>,
    name: Option<Text>,
    kind: Option<Kind>,
    start: Option<u64>,
    end: Option<u64>,
    attributes: AttributeRows,
    dropped_attributes: Option<u32>,
    events: EventList,
    dropped_events: Option<u32>,
    links: LinkList,
    dropped_links: Option<u32>,
    status: Option<Status>,
    flags: Option<u32>,
}

// Sets the row of the kind.
fn kind_row(row: &mut Option<Kind>, n: u64) -> Result<(), Cause>
    ensures ok { OnOk result (Sets MeansKind n row.old row.new) }
    ensures judged { JudgesEnum MeansKind 5 row.old n result }
{
    once(row)?;
    let Some(kind) = Kind::of_number(n) else {
        return Err(Cause::BadEnum);
    };
    *row = Some(kind);
    Ok(())
}

// Sets the row of the status.
fn status_row(alloc: Global, row: &mut Option<Status>, held: &[u8]) -> Result<(), Halt<Cause>>
    ensures ok { OnOk result (Sets (MeansMessage IsStatus) held.now row.old row.new) }
    ensures judged { JudgesMessage messages
        (MeansMessage IsStatus) status_rules row.old held.now result }
{
    once(row)?;
    *row = Some(read_status(alloc, held)?);
    Ok(())
}

impl SpanRows {
    // Nothing was read of the span of this number.
    fn none(alloc: Global, number: u32) -> SpanRows
        ensures nothing { GatheredSpan number result (givens span_table []) }
        ensures no_events { result.events.events ≡ [] }
        ensures no_links { result.links.links ≡ [] }
    {
        SpanRows {
            number,
            trace: None,
            id: None,
            state: None,
            parent: None,
            name: None,
            kind: None,
            start: None,
            end: None,
            attributes: AttributeRows::none(alloc),
            dropped_attributes: None,
            events: EventList::none(alloc),
            dropped_events: None,
            links: LinkList::none(alloc),
            dropped_links: None,
            status: None,
            flags: None,
        }
    }

    // The identifiers of the trace and the span.
    fn identifiers(&self) -> Result<(TraceId, SpanId), Cause>
        ensures trace { TakesTraceId self.now.trace result }
        ensures id { TakesSpanId self.now.id result }
        ensures judged { (span : ℕ) (seen : List Record) → GaveSpan span self.now seen
            → JudgesCause result (span_ends seen) }
    {
        let Some(trace) = self.trace.flatten() else {
            return Err(Cause::BadId);
        };
        let Some(id) = self.id.flatten() else {
            return Err(Cause::BadId);
        };
        Ok((trace, id))
    }
}

impl Rows for SpanRows {
    ghost use Rattle.std.specs.Prelude.{[], ◌∷◌, length};
    ghost use Rattle.span_io.specs.Tables.{givens};
    ghost use Rattle.otlp_proto.specs.Span.{span_ends, span_table};
    ghost use Rattle.otlp_proto.specs.private.SpanSoFar.{GatheredSpan};

    ghost table = { span_table };

    ghost ends = { span_ends };

    ghost gathered = { λ first rows seen. GatheredSpan first.number rows (givens span_table seen) };

    ghost counts = { λ rows. length rows.events.events ∷ length rows.links.links ∷ [] };

    fn gather(&mut self, alloc: Global, found: &WireRecord<'_>) -> Result<(), Halt<Cause>> {
        match found.payload {
            Payload::Bytes(held) => match found.number {
                1 => Ok(trace_id_row(&mut self.trace, held)?),
                2 => Ok(span_id_row(&mut self.id, held)?),
                3 => text_row(alloc, &mut self.state, held),
                4 => Ok(span_id_row(&mut self.parent, held)?),
                5 => text_row(alloc, &mut self.name, held),
                9 => self.attributes.add(alloc, held),
                11 => self.events.add(alloc, self.number, held),
                13 => self.links.add(alloc, self.number, held),
                15 => status_row(alloc, &mut self.status, held),
                _ => Ok(()),
            },
            Payload::Varint(n) => match found.number {
                6 => Ok(kind_row(&mut self.kind, n)?),
                10 => Ok(count_row(&mut self.dropped_attributes, n)?),
                12 => Ok(count_row(&mut self.dropped_events, n)?),
                14 => Ok(count_row(&mut self.dropped_links, n)?),
                _ => Ok(()),
            },
            Payload::Fixed64(n) => match found.number {
                7 => Ok(time_row(&mut self.start, n)?),
                8 => Ok(time_row(&mut self.end, n)?),
                _ => Ok(()),
            },
            Payload::Fixed32(n) => match found.number {
                16 => Ok(flags_row(&mut self.flags, n)?),
                _ => Ok(()),
            },
        }
    }
}

// The status of a span without one.
fn status_unset(alloc: Global) -> Status
    ensures { result ≡ no_status }
{
    Status {
        code: Code::Unset,
        message: Text::new(alloc),
    }
}

// The span of the rows.
fn span_of(alloc: Global, rows: SpanRows) -> Result<Noted<Span, Items<Remark>>, Halt<Cause>>
    ensures value { MakesSpan rows result }
    ensures ended { (span : ℕ) (records : List Record) → GaveSpan span rows records
        → JudgesHere result (span_ends records) }
{
    let (trace, id) = rows.identifiers()?;
    let (attributes, keys) = rows.attributes.finish(alloc)?;
    let (events, links) = (rows.events, rows.links);
    let notes = remarks_of(
        alloc,
        rows.number,
        keys,
        links.dropped,
        events.remarks,
        links.remarks,
    )?;
    let means = Span {
        trace,
        id,
        state: rows.state.unwrap_or(Text::new(alloc)),
        parent: rows.parent.unwrap_or(None),
        name: rows.name.unwrap_or(Text::new(alloc)),
        kind: rows.kind.unwrap_or(Kind::Unspecified),
        start: Nanos(rows.start.unwrap_or(0)),
        end: Nanos(rows.end.unwrap_or(0)),
        attributes,
        dropped_attributes: rows.dropped_attributes.unwrap_or(0),
        events: events.events,
        dropped_events: rows.dropped_events.unwrap_or(0),
        links: links.links,
        dropped_links: rows.dropped_links.unwrap_or(0),
        status: rows.status.unwrap_or(status_unset(alloc)),
        flags: rows.flags.unwrap_or(0),
    };
    Ok(Noted { means, notes })
}

/// Reads the span of this number in its group from its message.
pub fn read_span(
    alloc: Global,
    number: u32,
    bytes: &[u8],
) -> Result<Noted<Span, Items<Remark>>, Halt<Cause>>
    requires counted { length bytes.now < 2 ^ 32 }
    ensures value { IfOk result (λ read. IsReadSpan number read bytes.now) }
    ensures judged { Judges result (Offence messages span_rules bytes.now) }
{
    message_rules();
    let rows = read_rows(alloc, SpanRows::none(alloc, number), bytes)?;
    span_of(alloc, rows)
}
