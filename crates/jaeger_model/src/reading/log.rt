//! `Log` (jaeger.thrift).
ghost use Rattle.std.specs.Prelude.{◌≡◌, ◌≤◌, ◌++◌, ℕ, [], List, length, IfOk};
ghost use Rattle.span_io.specs.Offences.{Offence, Judges};
ghost use Rattle.span_io.specs.private.RowSteps.{JudgesCause};
ghost use Rattle.jaeger_model.specs.private.LogSoFar.{GaveLog};
ghost use Rattle.jaeger_model.specs.Log.{IsLog, log_ends, log_rules};
ghost use Rattle.thrift_core.specs.Messages.{FieldItem, fields_of, structs, whole_struct};
ghost use Rattle.thrift_core.specs.Trees.{Fields, StructText, outer_levels};

use crate::reading::leaves::{pass_over, sure_long};
use crate::reading::lists::{Element, structures_row};
use crate::reading::message::{Rows, read_rows};
use crate::reading::rows::time_row;
use crate::span::Log;
use crate::tag::Tag;
use span_ids::Nanos;
use span_io::{Cause, Cursor, Halt, Items};
use std::alloc::Global;
use thrift_core::{Field, Parts, TypeCode};

/// What was gathered of a log so far.
#[derive(Drop)]
pub(crate) struct LogRows {
    time: Option<Nanos>,
    fields: Option<Items<Tag>>,
}

impl LogRows {
    // Nothing was read.
    fn none<P: Parts>() -> LogRows
        ensures { (left : ℕ) → GaveLog P.spells left result [] }
    {
        LogRows {
            time: None,
            fields: None,
        }
    }
}

impl<P: Parts> Rows<P> for LogRows {
    ghost use Rattle.jaeger_model.specs.Log.{log_table, log_ends};
    ghost use Rattle.jaeger_model.specs.private.LogSoFar.{GaveLog};

    ghost table = { λ left. log_table P.spells left };

    ghost ends = { log_ends };

    ghost gathered = { λ left first rows seen. GaveLog P.spells left rows seen };

    fn gather(
        &mut self,
        alloc: Global,
        c: &mut Cursor<'_>,
        found: Field,
        left: u8,
    ) -> Result<(), Halt<Cause>> {
        match (found.id, found.kind) {
            (1, TypeCode::I64) => Ok(time_row(&mut self.time, sure_long::<P>(c))?),
            (2, TypeCode::List) => structures_row::<P, Tag>(alloc, &mut self.fields, c, left),
            _ => {
                pass_over::<P>(c, found, left);
                Ok(())
            }
        }
    }
}

// The log of the rows.
fn log_of<P: Parts>(rows: LogRows) -> Result<Log, Cause>
    ensures value { (left : ℕ) (items : List FieldItem) → GaveLog P.spells left rows items
        → IfOk result (λ log. IsLog log (fields_of items)) }
    ensures ended { (left : ℕ) (items : List FieldItem) → GaveLog P.spells left rows items
        → JudgesCause result (log_ends items) }
{
    let LogRows { time, fields } = rows;
    let Some(time) = time else {
        return Err(Cause::Missing);
    };
    let Some(fields) = fields else {
        return Err(Cause::Missing);
    };
    Ok(Log { time, fields })
}

/// Reads the log whose struct is known to stand at the cursor.
pub(crate) fn read_log<P: Parts>(
    alloc: Global,
    c: &mut Cursor<'_>,
    left: u8,
) -> Result<Log, Halt<Cause>>
    requires levels { left ≤ outer_levels }
    ensures value { (text tail : List ℕ) (fields : Fields) → c.old.rest ≡ text ++ tail
        → StructText P.spells left fields text
        → IfOk result (λ log. (c.new.rest ≡ tail) × IsLog log fields) }
    ensures judged { (text tail : List ℕ) (fields : Fields) → c.old.rest ≡ text ++ tail
        → StructText P.spells left fields text
        → Judges result
        (Offence (structs P.spells left) (log_rules P.spells left) (whole_struct text)) }
    ensures shorter { length c.new.rest ≤ length c.old.rest }
{
    let rows = read_rows::<P, LogRows>(alloc, LogRows::none::<P>(), c, left)?;
    Ok(log_of::<P>(rows)?)
}

impl<P: Parts> Element<P> for Log {
    ghost use Rattle.jaeger_model.specs.Log.{IsLog, log_rules};

    ghost means = { IsLog };

    ghost rules = { λ left. log_rules P.spells left };

    fn read(alloc: Global, c: &mut Cursor<'_>, left: u8) -> Result<Log, Halt<Cause>> {
        read_log::<P>(alloc, c, left)
    }
}
