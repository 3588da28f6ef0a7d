//! `Process` (jaeger.thrift).
ghost use Rattle.std.specs.Prelude.{◌≡◌, ◌≤◌, ◌++◌, ℕ, [], List, length, IfOk};
ghost use Rattle.span_io.specs.Offences.{Offence, Judges};
ghost use Rattle.span_io.specs.private.RowSteps.{JudgesCause};
ghost use Rattle.jaeger_model.specs.private.ProcessSoFar.{GaveProcess};
ghost use Rattle.jaeger_model.specs.Process.{IsProcess, process_ends, process_rules};
ghost use Rattle.thrift_core.specs.Messages.{FieldItem, fields_of, structs, whole_struct};
ghost use Rattle.thrift_core.specs.Trees.{Fields, StructText, outer_levels};

use crate::process::Process;
use crate::reading::leaves::{pass_over, sure_bytes};
use crate::reading::lists::{Element, structures_row};
use crate::reading::message::{Rows, read_rows};
use crate::tag::Tag;
use span_io::{Cause, Cursor, Halt, Items, Text, text_row};
use std::alloc::Global;
use thrift_core::{Field, Parts, TypeCode};

/// What was gathered of a process so far.
#[derive(Drop)]
pub(crate) struct ProcessRows {
    service: Option<Text>,
    tags: Option<Items<Tag>>,
}

impl ProcessRows {
    // Nothing was read.
    fn none<P: Parts>() -> ProcessRows
        ensures { (left : ℕ) → GaveProcess P.spells left result [] }
    {
        ProcessRows {
            service: None,
            tags: None,
        }
    }
}

impl<P: Parts> Rows<P> for ProcessRows {
    ghost use Rattle.jaeger_model.specs.Process.{process_table, process_ends};
    ghost use Rattle.jaeger_model.specs.private.ProcessSoFar.{GaveProcess};

    ghost table = { λ left. process_table P.spells left };

    ghost ends = { process_ends };

    ghost gathered = { λ left first rows seen. GaveProcess P.spells left rows seen };

    fn gather(
        &mut self,
        alloc: Global,
        c: &mut Cursor<'_>,
        found: Field,
        left: u8,
    ) -> Result<(), Halt<Cause>> {
        match (found.id, found.kind) {
            (1, TypeCode::Binary) => text_row(alloc, &mut self.service, sure_bytes::<P>(c)),
            (2, TypeCode::List) => structures_row::<P, Tag>(alloc, &mut self.tags, c, left),
            _ => {
                pass_over::<P>(c, found, left);
                Ok(())
            }
        }
    }
}

// The process of the rows.
fn process_of<P: Parts>(alloc: Global, rows: ProcessRows) -> Result<Process, Cause>
    ensures value { (left : ℕ) (items : List FieldItem) → GaveProcess P.spells left rows items
        → IfOk result (λ process. IsProcess process (fields_of items)) }
    ensures ended { (left : ℕ) (items : List FieldItem) → GaveProcess P.spells left rows items
        → JudgesCause result (process_ends items) }
{
    let ProcessRows { service, tags } = rows;
    let Some(service) = service else {
        return Err(Cause::Missing);
    };
    Ok(Process {
        service,
        tags: tags.unwrap_or(Items::new(alloc)),
    })
}

/// Reads the process whose struct is known to stand at the cursor.
pub(crate) fn read_process<P: Parts>(
    alloc: Global,
    c: &mut Cursor<'_>,
    left: u8,
) -> Result<Process, Halt<Cause>>
    requires levels { left ≤ outer_levels }
    ensures value { (text tail : List ℕ) (fields : Fields) → c.old.rest ≡ text ++ tail
        → StructText P.spells left fields text
        → IfOk result (λ process. (c.new.rest ≡ tail) × IsProcess process fields) }
    ensures judged { (text tail : List ℕ) (fields : Fields) → c.old.rest ≡ text ++ tail
        → StructText P.spells left fields text
        → Judges result
        (Offence (structs P.spells left) (process_rules P.spells left) (whole_struct text)) }
    ensures shorter { length c.new.rest ≤ length c.old.rest }
{
    let rows = read_rows::<P, ProcessRows>(alloc, ProcessRows::none::<P>(), c, left)?;
    Ok(process_of::<P>(alloc, rows)?)
}

impl<P: Parts> Element<P> for Process {
    ghost use Rattle.jaeger_model.specs.Process.{IsProcess, process_rules};

    ghost means = { IsProcess };

    ghost rules = { λ left. process_rules P.spells left };

    fn read(alloc: Global, c: &mut Cursor<'_>, left: u8) -> Result<Process, Halt<Cause>> {
        read_process::<P>(alloc, c, left)
    }
}
