//! `Span` (jaeger.thrift).
ghost use Rattle.std.specs.Prelude.{◌≡◌, ◌≤◌, ◌↔◌, ◌+◌, ◌++◌, ◌^◌, ℕ, [], length, Err, None, List, IfOk, IfSome, OnErr};
ghost use Rattle.span_io.specs.Offences.{Judges, Offence};
ghost use Rattle.span_io.specs.private.RowSteps.{JudgesCause};
ghost use Rattle.span_io.specs.declared.cause.Cause.TheVariants as causes;
ghost use Rattle.thrift_core.specs.Messages.{FieldItem, fields_of, structs, whole_struct};
ghost use Rattle.thrift_core.specs.Trees.{Fields, StructText, outer_levels};
ghost use Rattle.jaeger_model.specs.Counted.{IsCountedSpan};
ghost use Rattle.jaeger_model.specs.Rows.{SomeMissing};
ghost use Rattle.jaeger_model.specs.Span.{IsJSpan, jspan_ends, span_required, jspan_rules};
ghost use Rattle.jaeger_model.specs.private.SpanSoFar.{GaveJSpan, HasCountedParts, HasParts, IsReadJSpan};

use crate::reading::identifiers::{span_of, trace_of};
use crate::reading::leaves::{pass_over, sure_bytes, sure_int, sure_long};
use crate::reading::lists::{Element, structures_row};
use crate::reading::message::{Rows, read_rows};
use crate::reading::references::{References, references_row};
use crate::reading::rows::{int_row, number_row, time_row};
use crate::span::{JSpan, Log};
use crate::tag::Tag;
use span_ids::Nanos;
use span_io::{Cause, Cursor, Halt, Items, Text, text_row};
use std::alloc::Global;
use thrift_core::{Field, Parts, TypeCode};

/// What was gathered of a span so far.
#[derive(Drop)]
pub(crate) struct SpanRows {
    low: Option<i64>,
    high: Option<i64>,
    id: Option<i64>,
    parent: Option<i64>,
    name: Option<Text>,
    references: Option<References>,
    flags: Option<i32>,
    start: Option<Nanos>,
    duration: Option<Nanos>,
    tags: Option<Items<Tag>>,
    logs: Option<Items<Log>>,
}

/// The parts of a span of which nothing is missing.
#[derive(Drop)]
pub(crate) struct SpanParts {
    low: i64,
    high: i64,
    id: i64,
    parent: i64,
    name: Text,
    references: References,
    flags: i32,
    start: Nanos,
    duration: Nanos,
    tags: Items<Tag>,
    logs: Items<Log>,
}

impl SpanRows {
    // Nothing was read.
    fn none<P: Parts>() -> SpanRows
        ensures { (left : ℕ) → GaveJSpan P.spells left result [] }
    {
        SpanRows {
            low: None,
            high: None,
            id: None,
            parent: None,
            name: None,
            references: None,
            flags: None,
            start: None,
            duration: None,
            tags: None,
            logs: None,
        }
    }
}

impl<P: Parts> Rows<P> for SpanRows {
    ghost use Rattle.jaeger_model.specs.Span.{jspan_table, jspan_ends};
    ghost use Rattle.jaeger_model.specs.private.SpanSoFar.{GaveJSpan};

    ghost table = { λ left. jspan_table P.spells left };

    ghost ends = { jspan_ends };

    ghost gathered = { λ left first rows seen. GaveJSpan P.spells left rows seen };

    fn gather(
        &mut self,
        alloc: Global,
        c: &mut Cursor<'_>,
        found: Field,
        left: u8,
    ) -> Result<(), Halt<Cause>> {
        match (found.id, found.kind) {
            (1, TypeCode::I64) => Ok(number_row(&mut self.low, sure_long::<P>(c))?),
            (2, TypeCode::I64) => Ok(number_row(&mut self.high, sure_long::<P>(c))?),
            (3, TypeCode::I64) => Ok(number_row(&mut self.id, sure_long::<P>(c))?),
            (4, TypeCode::I64) => Ok(number_row(&mut self.parent, sure_long::<P>(c))?),
            (5, TypeCode::Binary) => text_row(alloc, &mut self.name, sure_bytes::<P>(c)),
            (6, TypeCode::List) => references_row::<P>(alloc, &mut self.references, c, left),
            (7, TypeCode::I32) => Ok(int_row(&mut self.flags, sure_int::<P>(c))?),
            (8, TypeCode::I64) => Ok(time_row(&mut self.start, sure_long::<P>(c))?),
            (9, TypeCode::I64) => Ok(time_row(&mut self.duration, sure_long::<P>(c))?),
            (10, TypeCode::List) => structures_row::<P, Tag>(alloc, &mut self.tags, c, left),
            (11, TypeCode::List) => structures_row::<P, Log>(alloc, &mut self.logs, c, left),
            _ => {
                pass_over::<P>(c, found, left);
                Ok(())
            }
        }
    }
}

// The parts of the rows.
fn parts_of<P: Parts>(alloc: Global, rows: SpanRows) -> Result<SpanParts, Cause>
    ensures value { (left : ℕ) (items : List FieldItem) → GaveJSpan P.spells left rows items
        → IfOk result (λ parts. HasParts parts (fields_of items)) }
    ensures counted { (left : ℕ) (items : List FieldItem) → GaveJSpan P.spells left rows items
        → IfOk result HasCountedParts }
    ensures missing { (left : ℕ) (items : List FieldItem) → GaveJSpan P.spells left rows items
        → OnErr result ((result ≡ Err causes.Missing) × SomeMissing span_required items) }
{
    let SpanRows {
        low,
        high,
        id,
        parent,
        name,
        references,
        flags,
        start,
        duration,
        tags,
        logs,
    } = rows;
    Ok(SpanParts {
        low: low.ok_or(Cause::Missing)?,
        high: high.ok_or(Cause::Missing)?,
        id: id.ok_or(Cause::Missing)?,
        parent: parent.ok_or(Cause::Missing)?,
        name: name.ok_or(Cause::Missing)?,
        references: references.unwrap_or(References::none(alloc)),
        flags: flags.ok_or(Cause::Missing)?,
        start: start.ok_or(Cause::Missing)?,
        duration: duration.ok_or(Cause::Missing)?,
        tags: tags.unwrap_or(Items::new(alloc)),
        logs: logs.unwrap_or(Items::new(alloc)),
    })
}

// The end, where its number has 64 bits.
fn end_of(start: Nanos, duration: Nanos) -> Option<Nanos>
    ensures none { (result ≡ None) ↔ (2 ^ 64 ≤ start + duration) }
    ensures value { IfSome result (λ end. end ≡ start + duration) }
{
    let end = start.0.checked_add(duration.0)?;
    Some(Nanos(end))
}

// The span of the parts.
fn span_of_parts(parts: SpanParts) -> Result<JSpan, Cause>
    ensures value { (fields : Fields) → HasParts parts fields
        → IfOk result (λ span. IsJSpan span fields) }
    ensures counted { HasCountedParts parts → IfOk result IsCountedSpan }
    ensures ended { (items : List FieldItem) → HasParts parts (fields_of items)
        → JudgesCause result (jspan_ends items) }
{
    let Some(trace) = trace_of(parts.high, parts.low) else {
        return Err(Cause::BadId);
    };
    let Some(id) = span_of(parts.id) else {
        return Err(Cause::BadId);
    };
    let Some(end) = end_of(parts.start, parts.duration) else {
        return Err(Cause::BadTime);
    };
    let References { kept, others } = parts.references;
    Ok(JSpan {
        trace,
        id,
        parent: span_of(parts.parent),
        name: parts.name,
        references: kept,
        invalid_refs: others,
        flags: parts.flags,
        start: parts.start,
        end,
        tags: parts.tags,
        logs: parts.logs,
    })
}

// The span of the rows.
fn span_of_rows<P: Parts>(alloc: Global, rows: SpanRows) -> Result<JSpan, Cause>
    ensures value { (left : ℕ) (items : List FieldItem) → GaveJSpan P.spells left rows items
        → IfOk result (λ span. IsReadJSpan span (fields_of items)) }
    ensures ended { (left : ℕ) (items : List FieldItem) → GaveJSpan P.spells left rows items
        → JudgesCause result (jspan_ends items) }
{
    match parts_of::<P>(alloc, rows) {
        Ok(parts) => span_of_parts(parts),
        Err(cause) => Err(cause),
    }
}

/// Reads the span whose struct is known to stand at the cursor.
pub(crate) fn read_span<P: Parts>(
    alloc: Global,
    c: &mut Cursor<'_>,
    left: u8,
) -> Result<JSpan, Halt<Cause>>
    requires levels { left ≤ outer_levels }
    ensures value { (text tail : List ℕ) (fields : Fields) → c.old.rest ≡ text ++ tail
        → StructText P.spells left fields text
        → IfOk result (λ span. (c.new.rest ≡ tail) × IsReadJSpan span fields) }
    ensures judged { (text tail : List ℕ) (fields : Fields) → c.old.rest ≡ text ++ tail
        → StructText P.spells left fields text
        → Judges result
        (Offence (structs P.spells left) (jspan_rules P.spells left) (whole_struct text)) }
    ensures shorter { length c.new.rest ≤ length c.old.rest }
{
    let rows = read_rows::<P, SpanRows>(alloc, SpanRows::none::<P>(), c, left)?;
    Ok(span_of_rows::<P>(alloc, rows)?)
}

impl<P: Parts> Element<P> for JSpan {
    ghost use Rattle.jaeger_model.specs.Span.{jspan_rules};
    ghost use Rattle.jaeger_model.specs.private.SpanSoFar.{IsReadJSpan};

    ghost means = { IsReadJSpan };

    ghost rules = { λ left. jspan_rules P.spells left };

    fn read(alloc: Global, c: &mut Cursor<'_>, left: u8) -> Result<JSpan, Halt<Cause>> {
        read_span::<P>(alloc, c, left)
    }
}
