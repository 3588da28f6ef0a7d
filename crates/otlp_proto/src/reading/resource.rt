//! `Resource` (OTLP resource.proto).
ghost use Rattle.std.specs.Prelude.{[], IfOk};
ghost use Rattle.span_io.specs.Offences.{Offence, Judges};
ghost use Rattle.span_io.specs.Tables.{givens};
ghost use Rattle.proto_wire.specs.Messages.{messages};
ghost use Rattle.otlp_proto.specs.Group.{IsResource, resource_table, resource_rules};
ghost use Rattle.otlp_proto.specs.private.GroupSoFar.{GatheredResource, MakesResource};
ghost use Rattle.otlp_proto.specs.Rows.{MeansMessage};

use crate::laws::message_rules;
use crate::reading::attributes::AttributeRows;
use crate::reading::message::{Rows, read_rows};
use crate::reading::rows::count_row;
use proto_wire::{Payload, WireRecord};
use span_io::{Cause, Halt, Items, OutOfMemory, Text};
use std::alloc::Global;
use trace_model::{Noted, Resource};

/// What was gathered of a resource so far.
#[derive(Drop)]
struct ResourceRows {
    attributes: AttributeRows,
    dropped: Option<u32>,
}

impl ResourceRows {
    // Nothing was read.
    fn none(alloc: Global) -> ResourceRows
        ensures { GatheredResource result (givens resource_table []) }
    {
        ResourceRows {
            attributes: AttributeRows::none(alloc),
            dropped: None,
        }
    }
}

impl Rows for ResourceRows {
    ghost use Rattle.std.specs.Prelude.{[]};
    ghost use Rattle.span_io.specs.Tables.{givens, no_ends};
    ghost use Rattle.otlp_proto.specs.Group.{resource_table};
    ghost use Rattle.otlp_proto.specs.private.GroupSoFar.{GatheredResource};

    ghost table = { resource_table };

    ghost ends = { no_ends };

    ghost gathered = { λ first rows seen. GatheredResource rows (givens resource_table seen) };

    ghost counts = { λ rows. [] };

    fn gather(&mut self, alloc: Global, found: &WireRecord<'_>) -> Result<(), Halt<Cause>> {
        match found.payload {
            Payload::Bytes(held) => match found.number {
                1 => self.attributes.add(alloc, held),
                _ => Ok(()),
            },
            Payload::Varint(n) => match found.number {
                2 => Ok(count_row(&mut self.dropped, n)?),
                _ => Ok(()),
            },
            Payload::Fixed64(_) | Payload::Fixed32(_) => Ok(()),
        }
    }
}

// The resource of the rows.
fn resource_of(
    alloc: Global,
    rows: ResourceRows,
) -> Result<Noted<Resource, Items<Text>>, OutOfMemory>
    ensures { IfOk result (λ read. MakesResource rows read) }
{
    let (attributes, notes) = rows.attributes.finish(alloc)?;
    let means = Resource {
        attributes,
        dropped: rows.dropped.unwrap_or(0),
    };
    Ok(Noted { means, notes })
}

/// Reads a resource from its message.
pub fn read_resource(
    alloc: Global,
    bytes: &[u8],
) -> Result<Noted<Resource, Items<Text>>, Halt<Cause>>
    ensures value { IfOk result (λ read. MeansMessage IsResource bytes.now read) }
    ensures judged { Judges result (Offence messages resource_rules bytes.now) }
{
    message_rules();
    let rows = read_rows(alloc, ResourceRows::none(alloc), bytes)?;
    let read = resource_of(alloc, rows)?;
    Ok(read)
}
