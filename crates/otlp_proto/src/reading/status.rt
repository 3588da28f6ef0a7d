//! `Status` (OTLP trace.proto).
ghost use Rattle.std.specs.Prelude.{[], List, IfOk, OnOk};
ghost use Rattle.span_io.specs.Offences.{Offence, Judges};
ghost use Rattle.span_io.specs.Tables.{givens};
ghost use Rattle.proto_wire.specs.Records.{Record};
ghost use Rattle.proto_wire.specs.Messages.{messages};
ghost use Rattle.span_io.specs.RowsSoFar.{Sets};
ghost use Rattle.span_io.specs.private.RowSteps.{JudgesEnum};
ghost use Rattle.otlp_proto.specs.Status.{MeansCode, IsStatus, status_table, status_rules};
ghost use Rattle.otlp_proto.specs.private.StatusSoFar.{GatheredStatus};
ghost use Rattle.otlp_proto.specs.Rows.{MeansMessage};

use crate::laws::message_rules;
use crate::reading::message::{Rows, read_rows};
use proto_wire::{Payload, WireRecord};
use span_io::{Cause, Halt, Text, once, text_row};
use std::alloc::Global;
use trace_model::{Code, Status};

/// What was gathered of a status so far.
#[derive(Drop)]
struct StatusRows {
    message: Option<Text>,
    code: Option<Code>,
}

// Sets the row of the code.
fn code_row(row: &mut Option<Code>, n: u64) -> Result<(), Cause>
    ensures ok { OnOk result (Sets MeansCode n row.old row.new) }
    ensures judged { JudgesEnum MeansCode 2 row.old n result }
{
    once(row)?;
    let Some(code) = Code::of_number(n) else {
        return Err(Cause::BadEnum);
    };
    *row = Some(code);
    Ok(())
}

impl StatusRows {
    // Nothing was read.
    fn none() -> StatusRows
        ensures { GatheredStatus result (givens status_table []) }
    {
        StatusRows {
            message: None,
            code: None,
        }
    }
}

impl Rows for StatusRows {
    ghost use Rattle.std.specs.Prelude.{[], List};
    ghost use Rattle.span_io.specs.Tables.{givens, no_ends};
    ghost use Rattle.proto_wire.specs.Records.{Record};
    ghost use Rattle.otlp_proto.specs.Status.{status_table};
    ghost use Rattle.otlp_proto.specs.private.StatusSoFar.{GatheredStatus};

    ghost table = { status_table };

    ghost ends = { no_ends };

    ghost gathered = { λ first rows seen. GatheredStatus rows (givens status_table seen) };

    ghost counts = { λ rows. [] };

    fn gather(&mut self, alloc: Global, found: &WireRecord<'_>) -> Result<(), Halt<Cause>> {
        match found.payload {
            Payload::Bytes(held) => match found.number {
                2 => text_row(alloc, &mut self.message, held),
                _ => Ok(()),
            },
            Payload::Varint(n) => match found.number {
                3 => Ok(code_row(&mut self.code, n)?),
                _ => Ok(()),
            },
            Payload::Fixed64(_) | Payload::Fixed32(_) => Ok(()),
        }
    }
}

// The status of the rows.
fn status_of(alloc: Global, rows: StatusRows) -> Status
    ensures { (records : List Record) → GatheredStatus rows (givens status_table records)
        → IsStatus result records }
{
    Status {
        code: rows.code.unwrap_or(Code::Unset),
        message: rows.message.unwrap_or(Text::new(alloc)),
    }
}

/// Reads a status from its message.
pub fn read_status(alloc: Global, bytes: &[u8]) -> Result<Status, Halt<Cause>>
    ensures value { IfOk result (λ status. MeansMessage IsStatus bytes.now status) }
    ensures judged { Judges result (Offence messages status_rules bytes.now) }
{
    message_rules();
    let rows = read_rows(alloc, StatusRows::none(), bytes)?;
    Ok(status_of(alloc, rows))
}
