//! `Span.Link` (OTLP trace.proto).
ghost use Rattle.std.specs.Prelude.{[], IfOk};
ghost use Rattle.span_io.specs.Offences.{Offence, Judges};
ghost use Rattle.span_io.specs.Tables.{givens};
ghost use Rattle.proto_wire.specs.Messages.{messages};
ghost use Rattle.otlp_proto.specs.Link.{IsLink, link_table, link_rules};
ghost use Rattle.otlp_proto.specs.private.LinkSoFar.{GatheredLink, MakesLink};
ghost use Rattle.otlp_proto.specs.Rows.{MeansMessage};

use crate::laws::message_rules;
use crate::reading::attributes::AttributeRows;
use crate::reading::message::{Rows, read_rows};
use crate::reading::rows::{count_row, flags_row, span_id_row, trace_id_row};
use proto_wire::{Payload, WireRecord};
use span_ids::{SpanId, TraceId};
use span_io::{Cause, Halt, Items, OutOfMemory, Text, text_row};
use std::alloc::Global;
use trace_model::{Link, Noted};

/// What was gathered of a link so far.
#[derive(Drop)]
struct LinkRows {
    trace: Option<Option<TraceId>>,
    span: Option<Option<SpanId>>,
    state: Option<Text>,
    attributes: AttributeRows,
    dropped: Option<u32>,
    flags: Option<u32>,
}

impl LinkRows {
    // Nothing was read.
    fn none(alloc: Global) -> LinkRows
        ensures { GatheredLink result (givens link_table []) }
    {
        LinkRows {
            trace: None,
            span: None,
            state: None,
            attributes: AttributeRows::none(alloc),
            dropped: None,
            flags: None,
        }
    }
}

impl Rows for LinkRows {
    ghost use Rattle.std.specs.Prelude.{[]};
    ghost use Rattle.span_io.specs.Tables.{givens, no_ends};
    ghost use Rattle.otlp_proto.specs.Link.{link_table};
    ghost use Rattle.otlp_proto.specs.private.LinkSoFar.{GatheredLink};

    ghost table = { link_table };

    ghost ends = { no_ends };

    ghost gathered = { λ first rows seen. GatheredLink rows (givens link_table seen) };

    ghost counts = { λ rows. [] };

    fn gather(&mut self, alloc: Global, found: &WireRecord<'_>) -> Result<(), Halt<Cause>> {
        match found.payload {
            Payload::Bytes(held) => match found.number {
                1 => Ok(trace_id_row(&mut self.trace, held)?),
                2 => Ok(span_id_row(&mut self.span, held)?),
                3 => text_row(alloc, &mut self.state, held),
                4 => self.attributes.add(alloc, held),
                _ => Ok(()),
            },
            Payload::Varint(n) => match found.number {
                5 => Ok(count_row(&mut self.dropped, n)?),
                _ => Ok(()),
            },
            Payload::Fixed32(n) => match found.number {
                6 => Ok(flags_row(&mut self.flags, n)?),
                _ => Ok(()),
            },
            Payload::Fixed64(_) => Ok(()),
        }
    }
}

// The link of the rows, if they have both identifiers.
fn link_of(alloc: Global, rows: LinkRows) -> Result<Option<Noted<Link, Items<Text>>>, OutOfMemory>
    ensures { MakesLink rows result }
{
    let (attributes, notes) = rows.attributes.finish(alloc)?;
    let state = rows.state.unwrap_or(Text::new(alloc));
    let Some(trace) = rows.trace.unwrap_or(None) else {
        return Ok(None);
    };
    let Some(span) = rows.span.unwrap_or(None) else {
        return Ok(None);
    };
    let means = Link {
        trace,
        span,
        state,
        attributes,
        dropped: rows.dropped.unwrap_or(0),
        flags: rows.flags.unwrap_or(0),
    };
    Ok(Some(Noted { means, notes }))
}

/// Reads a link from its message; a link without one of its identifiers is none.
pub fn read_link(
    alloc: Global,
    bytes: &[u8],
) -> Result<Option<Noted<Link, Items<Text>>>, Halt<Cause>>
    ensures value { IfOk result (λ read. MeansMessage IsLink bytes.now read) }
    ensures judged { Judges result (Offence messages link_rules bytes.now) }
{
    message_rules();
    let rows = read_rows(alloc, LinkRows::none(alloc), bytes)?;
    let read = link_of(alloc, rows)?;
    Ok(read)
}
