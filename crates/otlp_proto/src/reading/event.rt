//! `Span.Event` (OTLP trace.proto).
ghost use Rattle.std.specs.Prelude.{[], IfOk};
ghost use Rattle.span_io.specs.Offences.{Offence, Judges};
ghost use Rattle.span_io.specs.Tables.{givens};
ghost use Rattle.proto_wire.specs.Messages.{messages};
ghost use Rattle.otlp_proto.specs.Event.{IsEvent, event_table, event_rules};
ghost use Rattle.otlp_proto.specs.private.EventSoFar.{GatheredEvent, MakesEvent};
ghost use Rattle.otlp_proto.specs.Rows.{MeansMessage};

use crate::laws::message_rules;
use crate::reading::attributes::AttributeRows;
use crate::reading::message::{Rows, read_rows};
use crate::reading::rows::{count_row, time_row};
use proto_wire::{Payload, WireRecord};
use span_ids::Nanos;
use span_io::{Cause, Halt, Items, OutOfMemory, Text, text_row};
use std::alloc::Global;
use trace_model::{Event, Noted};

/// What was gathered of an event so far.
#[derive(Drop)]
struct EventRows {
    time: Option<u64>,
    name: Option<Text>,
    attributes: AttributeRows,
    dropped: Option<u32>,
}

impl EventRows {
    // Nothing was read.
    fn none(alloc: Global) -> EventRows
        ensures { GatheredEvent result (givens event_table []) }
    {
        EventRows {
            time: None,
            name: None,
            attributes: AttributeRows::none(alloc),
            dropped: None,
        }
    }
}

impl Rows for EventRows {
    ghost use Rattle.std.specs.Prelude.{[]};
    ghost use Rattle.span_io.specs.Tables.{givens, no_ends};
    ghost use Rattle.otlp_proto.specs.Event.{event_table};
    ghost use Rattle.otlp_proto.specs.private.EventSoFar.{GatheredEvent};

    ghost table = { event_table };

    ghost ends = { no_ends };

    ghost gathered = { λ first rows seen. GatheredEvent rows (givens event_table seen) };

    ghost counts = { λ rows. [] };

    fn gather(&mut self, alloc: Global, found: &WireRecord<'_>) -> Result<(), Halt<Cause>> {
        match found.payload {
            Payload::Fixed64(n) => match found.number {
                1 => Ok(time_row(&mut self.time, n)?),
                _ => Ok(()),
            },
            Payload::Bytes(held) => match found.number {
                2 => text_row(alloc, &mut self.name, held),
                3 => self.attributes.add(alloc, held),
                _ => Ok(()),
            },
            Payload::Varint(n) => match found.number {
                4 => Ok(count_row(&mut self.dropped, n)?),
                _ => Ok(()),
            },
            Payload::Fixed32(_) => Ok(()),
        }
    }
}

// The event of the rows.
fn event_of(alloc: Global, rows: EventRows) -> Result<Noted<Event, Items<Text>>, OutOfMemory>
    ensures { MakesEvent rows result }
{
    let (attributes, notes) = rows.attributes.finish(alloc)?;
    let means = Event {
        time: Nanos(rows.time.unwrap_or(0)),
        name: rows.name.unwrap_or(Text::new(alloc)),
        attributes,
        dropped: rows.dropped.unwrap_or(0),
    };
    Ok(Noted { means, notes })
}

/// Reads an event from its message.
pub fn read_event(alloc: Global, bytes: &[u8]) -> Result<Noted<Event, Items<Text>>, Halt<Cause>>
    ensures value { IfOk result (λ read. MeansMessage IsEvent bytes.now read) }
    ensures judged { Judges result (Offence messages event_rules bytes.now) }
{
    message_rules();
    let rows = read_rows(alloc, EventRows::none(alloc), bytes)?;
    let read = event_of(alloc, rows)?;
    Ok(read)
}
