//! `Batch` (jaeger.thrift).
ghost use Rattle.std.specs.Prelude.{◌≡◌, ℕ, [], List, IfOk, OnOk};
ghost use Rattle.span_io.specs.Offences.{Judges, OnlyReads};
ghost use Rattle.span_io.specs.private.RowSteps.{JudgesCause};
ghost use Rattle.span_io.specs.RowsSoFar.{Sets};
ghost use Rattle.thrift_core.specs.Messages.{FieldItem, fields_of};
ghost use Rattle.thrift_core.specs.Trees.{Fields, StructText, outer_levels};
ghost use Rattle.jaeger_model.specs.Batch.{IsBatch, IsBatchText, MeansNothing, batch_ends};
ghost use Rattle.jaeger_model.specs.private.BatchSoFar.{GaveBatch};
ghost use Rattle.jaeger_model.specs.Counted.{IsCountedBatch};
ghost use Rattle.jaeger_model.specs.declared.batch.Batch.{Batch};
ghost use Rattle.jaeger_model.specs.StatedLaws.{BatchOffends};
ghost use Rattle.jaeger_model.specs.Rows.{nothing_wrong};
ghost use Rattle.jaeger_model.specs.private.RowsSoFar.{JudgesField};

use crate::batch::Batch;
use crate::laws::one_batch;
use crate::process::Process;
use crate::reading::leaves::{pass_over, sure_long};
use crate::reading::lists::{structure_row, structures_row};
use crate::reading::message::{Rows, read_rows};
use crate::reading::rows::number_row;
use crate::span::JSpan;
use span_io::{Cause, Cursor, Halt, Items, once};
use std::alloc::Global;
use thrift_core::{Field, Parts, TypeCode};

/// How many levels of containers are left in a struct that no other holds.
const OUTER_LEVELS: u8 = 31;

/// What was gathered of a batch so far.
#[derive(Drop)]
pub(crate) struct BatchRows {
    process: Option<Process>,
    spans: Option<Items<JSpan>>,
    sequence: Option<i64>,
    stats: Option<()>,
}

impl BatchRows {
    // Nothing was read.
    fn none<P: Parts>() -> BatchRows
        ensures { (left : ℕ) → GaveBatch P.spells left result [] }
    {
        BatchRows {
            process: None,
            spans: None,
            sequence: None,
            stats: None,
        }
    }
}

// Sets a row whose value means nothing.
fn passed_row(row: &mut Option<()>) -> Result<(), Cause>
    ensures ok { (held : Fields) → OnOk result (Sets MeansNothing held row.old row.new) }
    ensures judged { (held : Fields) → JudgesField MeansNothing nothing_wrong row.old held result }
{
    once(row)?;
    *row = Some(());
    Ok(())
}

impl<P: Parts> Rows<P> for BatchRows {
    ghost use Rattle.jaeger_model.specs.Batch.{batch_table, batch_ends};
    ghost use Rattle.jaeger_model.specs.private.BatchSoFar.{GaveBatch};

    ghost table = { λ left. batch_table P.spells left };

    ghost ends = { batch_ends };

    ghost gathered = { λ left first rows seen. GaveBatch P.spells left rows seen };

    fn gather(
        &mut self,
        alloc: Global,
        c: &mut Cursor<'_>,
        found: Field,
        left: u8,
    ) -> Result<(), Halt<Cause>> {
        match (found.id, found.kind) {
            (1, TypeCode::Struct) => structure_row::<P, Process>(alloc, &mut self.process, c, left),
            (2, TypeCode::List) => structures_row::<P, JSpan>(alloc, &mut self.spans, c, left),
            (3, TypeCode::I64) => Ok(number_row(&mut self.sequence, sure_long::<P>(c))?),
            (4, TypeCode::Struct) => {
                pass_over::<P>(c, found, left);
                Ok(passed_row(&mut self.stats)?)
            }
            _ => {
                pass_over::<P>(c, found, left);
                Ok(())
            }
        }
    }
}

// The batch of the rows.
fn batch_of<P: Parts>(rows: BatchRows) -> Result<Batch, Cause>
    ensures value { (left : ℕ) (items : List FieldItem) → GaveBatch P.spells left rows items
        → IfOk result (λ batch. IsBatch batch (fields_of items)) }
    ensures counted { (left : ℕ) (items : List FieldItem) → GaveBatch P.spells left rows items
        → IfOk result IsCountedBatch }
    ensures ended { (left : ℕ) (items : List FieldItem) → GaveBatch P.spells left rows items
        → JudgesCause result (batch_ends items) }
{
    let BatchRows { process, spans, .. } = rows;
    let Some(process) = process else {
        return Err(Cause::Missing);
    };
    let Some(spans) = spans else {
        return Err(Cause::Missing);
    };
    Ok(Batch {
        service: process.service,
        tags: process.tags,
        spans,
    })
}

// Reads the rows of a batch, and makes it of them.
fn read_rows_of<P: Parts>(alloc: Global, unit: &[u8]) -> Result<Batch, Halt<Cause>>
    requires stands { (fields : Fields) × StructText P.spells outer_levels fields unit.now }
    ensures value { IfOk result (λ batch. IsBatchText P.spells batch unit.now) }
    ensures counted { IfOk result IsCountedBatch }
    ensures judged { Judges result (BatchOffends P.spells unit.now) }
{
    let mut c = Cursor::new(unit);
    let rows = read_rows::<P, BatchRows>(alloc, BatchRows::none::<P>(), &mut c, OUTER_LEVELS)?;
    Ok(batch_of::<P>(rows)?)
}

/// Reads a batch from the text of one struct, as a scanner of structs finds it.
pub fn read_batch<P: Parts>(alloc: Global, unit: &[u8]) -> Result<Batch, Halt<Cause>>
    requires stands { (fields : Fields) × StructText P.spells outer_levels fields unit.now }
    ensures value { IfOk result (λ batch. IsBatchText P.spells batch unit.now) }
    ensures judged { Judges result (BatchOffends P.spells unit.now) }

    // Each list of a text has a size of 32 bits.
    ensures counted { IfOk result IsCountedBatch }

    // A text of a batch is read as that batch; only memory may be wanted.
    ensures only { (batch : Batch) → IsBatchText P.spells batch unit.now → OnlyReads result batch }
{
    one_batch::<P>();
    read_rows_of::<P>(alloc, unit)
}
