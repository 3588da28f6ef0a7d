//! `InstrumentationScope` (OTLP common.proto).
ghost use Rattle.std.specs.Prelude.{[], IfOk};
ghost use Rattle.span_io.specs.Offences.{Offence, Judges};
ghost use Rattle.span_io.specs.Tables.{givens};
ghost use Rattle.proto_wire.specs.Messages.{messages};
ghost use Rattle.otlp_proto.specs.Scope.{IsInstrumentationScope, instrumentation_scope_table, instrumentation_scope_rules};
ghost use Rattle.otlp_proto.specs.private.ScopeSoFar.{GatheredInstrumentationScope, MakesInstrumentationScope};
ghost use Rattle.otlp_proto.specs.Rows.{MeansMessage};

use crate::laws::message_rules;
use crate::reading::attributes::AttributeRows;
use crate::reading::message::{Rows, read_rows};
use crate::reading::rows::count_row;
use proto_wire::{Payload, WireRecord};
use span_io::{Cause, Halt, Items, OutOfMemory, Text, text_row};
use std::alloc::Global;
use trace_model::{InstrumentationScope, Noted};

/// What was gathered of an instrumentation scope so far.
#[derive(Drop)]
struct InstrumentationScopeRows {
    name: Option<Text>,
    version: Option<Text>,
    attributes: AttributeRows,
    dropped: Option<u32>,
}

impl InstrumentationScopeRows {
    // Nothing was read.
    fn none(alloc: Global) -> InstrumentationScopeRows
        ensures { GatheredInstrumentationScope result (givens instrumentation_scope_table []) }
    {
        InstrumentationScopeRows {
            name: None,
            version: None,
            attributes: AttributeRows::none(alloc),
            dropped: None,
        }
    }
}

impl Rows for InstrumentationScopeRows {
    ghost use Rattle.std.specs.Prelude.{[]};
    ghost use Rattle.span_io.specs.Tables.{givens, no_ends};
    ghost use Rattle.otlp_proto.specs.Scope.{instrumentation_scope_table};
    ghost use Rattle.otlp_proto.specs.private.ScopeSoFar.{GatheredInstrumentationScope};

    ghost table = { instrumentation_scope_table };

    ghost ends = { no_ends };

    ghost gathered = { λ first rows seen. GatheredInstrumentationScope rows (givens instrumentation_scope_table seen) };

    ghost counts = { λ rows. [] };

    fn gather(&mut self, alloc: Global, found: &WireRecord<'_>) -> Result<(), Halt<Cause>> {
        match found.payload {
            Payload::Bytes(held) => match found.number {
                1 => text_row(alloc, &mut self.name, held),
                2 => text_row(alloc, &mut self.version, held),
                3 => self.attributes.add(alloc, held),
                _ => Ok(()),
            },
            Payload::Varint(n) => match found.number {
                4 => Ok(count_row(&mut self.dropped, n)?),
                _ => Ok(()),
            },
            Payload::Fixed64(_) | Payload::Fixed32(_) => Ok(()),
        }
    }
}

// The instrumentation scope of the rows.
fn instrumentation_scope_of(
    alloc: Global,
    rows: InstrumentationScopeRows,
) -> Result<Noted<InstrumentationScope, Items<Text>>, OutOfMemory>
    ensures { IfOk result (λ read. MakesInstrumentationScope rows read) }
{
    let (attributes, notes) = rows.attributes.finish(alloc)?;
    let means = InstrumentationScope {
        name: rows.name.unwrap_or(Text::new(alloc)),
        version: rows.version.unwrap_or(Text::new(alloc)),
        attributes,
        dropped: rows.dropped.unwrap_or(0),
    };
    Ok(Noted { means, notes })
}

/// Reads an instrumentation scope from its message.
pub fn read_instrumentation_scope(
    alloc: Global,
    bytes: &[u8],
) -> Result<Noted<InstrumentationScope, Items<Text>>, Halt<Cause>>
    ensures value { IfOk result (λ read. MeansMessage IsInstrumentationScope bytes.now read) }
    ensures judged { Judges result (Offence messages instrumentation_scope_rules bytes.now) }
{
    message_rules();
    let rows = read_rows(alloc, InstrumentationScopeRows::none(alloc), bytes)?;
    let read = instrumentation_scope_of(alloc, rows)?;
    Ok(read)
}
