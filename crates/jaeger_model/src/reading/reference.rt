//! `SpanRef` (jaeger.thrift).
ghost use Rattle.std.specs.Prelude.{◌≡◌, ◌≤◌, ◌++◌, ℕ, [], Bool, List, length, IfOk, OnOk};
ghost use Rattle.span_io.specs.Offences.{Offence, Judges};
ghost use Rattle.span_io.specs.RowsSoFar.{Sets};
ghost use Rattle.span_io.specs.private.RowSteps.{JudgesCause};
ghost use Rattle.jaeger_model.specs.Meanings.{MeansEnum};
ghost use Rattle.jaeger_model.specs.private.ReferenceSoFar.{GaveReference};
ghost use Rattle.jaeger_model.specs.Reference.{IsPointed, IsSpanRef, reference_ends, reference_number, reference_rules};
ghost use Rattle.jaeger_model.specs.Identifiers.{span_id_of, trace_id_of};
ghost use Rattle.thrift_core.specs.Messages.{FieldItem, fields_of, structs, whole_struct};
ghost use Rattle.thrift_core.specs.Trees.{Fields, StructText, outer_levels};
ghost use Rattle.jaeger_model.specs.Rows.{BadEnum};
ghost use Rattle.jaeger_model.specs.private.RowsSoFar.{JudgesField};

use crate::reading::identifiers::{span_of, trace_of};
use crate::reading::leaves::{pass_over, sure_int, sure_long};
use crate::reading::lists::Element;
use crate::reading::message::{Rows, read_rows};
use crate::reading::rows::number_row;
use crate::span::SpanRef;
use span_io::{Cause, Cursor, Halt, once};
use std::alloc::Global;
use thrift_core::{Field, Parts, TypeCode};

/// What was gathered of a reference so far.
#[derive(Drop)]
pub(crate) struct ReferenceRows {
    child_of: Option<bool>,
    low: Option<i64>,
    high: Option<i64>,
    span: Option<i64>,
}

impl ReferenceRows {
    // Nothing was read.
    fn none() -> ReferenceRows
        ensures { GaveReference result [] }
    {
        ReferenceRows {
            child_of: None,
            low: None,
            high: None,
            span: None,
        }
    }
}

// Whether a reference of this number's type is to a parent.
fn child_of(held: i32) -> Result<bool, Cause>
    ensures value { IfOk result (λ is. MeansEnum reference_number held is) }
    ensures judged { JudgesCause result (BadEnum 1 held) }
{
    match held {
        0 => Ok(true),
        1 => Ok(false),
        _ => Err(Cause::BadEnum),
    }
}

// Sets the row of the type.
fn reference_type_row(row: &mut Option<bool>, held: i32) -> Result<(), Cause>
    ensures ok { OnOk result (Sets (MeansEnum reference_number) held row.old row.new) }
    ensures judged { JudgesField (MeansEnum reference_number) (BadEnum 1) row.old held result }
{
    once(row)?;
    *row = Some(child_of(held)?);
    Ok(())
}

impl<P: Parts> Rows<P> for ReferenceRows {
    ghost use Rattle.jaeger_model.specs.Reference.{reference_table, reference_ends};
    ghost use Rattle.jaeger_model.specs.private.ReferenceSoFar.{GaveReference};

    ghost table = { λ left. reference_table };

    ghost ends = { reference_ends };

    ghost gathered = { λ left first rows seen. GaveReference rows seen };

    fn gather(
        &mut self,
        alloc: Global,
        c: &mut Cursor<'_>,
        found: Field,
        left: u8,
    ) -> Result<(), Halt<Cause>> {
        match (found.id, found.kind) {
            (1, TypeCode::I32) => Ok(reference_type_row(&mut self.child_of, sure_int::<P>(c))?),
            (2, TypeCode::I64) => Ok(number_row(&mut self.low, sure_long::<P>(c))?),
            (3, TypeCode::I64) => Ok(number_row(&mut self.high, sure_long::<P>(c))?),
            (4, TypeCode::I64) => Ok(number_row(&mut self.span, sure_long::<P>(c))?),
            _ => {
                pass_over::<P>(c, found, left);
                Ok(())
            }
        }
    }
}

// The span to which a reference points, where its identifiers aren't zero.
fn pointed(child_of: bool, high: i64, low: i64, span: i64) -> Option<SpanRef>
    ensures { IsPointed result child_of (trace_id_of high low) (span_id_of span) }
{
    let trace = trace_of(high, low)?;
    let span = span_of(span)?;
    Some(SpanRef {
        child_of,
        trace,
        span,
    })
}

// The reference of the rows, or None where it points to no span.
fn reference_of(rows: &ReferenceRows) -> Result<Option<SpanRef>, Cause>
    ensures value { (items : List FieldItem) → GaveReference rows.now items
        → IfOk result (λ reference. IsSpanRef reference (fields_of items)) }
    ensures ended { (items : List FieldItem) → GaveReference rows.now items
        → JudgesCause result (reference_ends items) }
{
    let Some(child_of) = rows.child_of else {
        return Err(Cause::Missing);
    };
    let Some(low) = rows.low else {
        return Err(Cause::Missing);
    };
    let Some(high) = rows.high else {
        return Err(Cause::Missing);
    };
    let Some(span) = rows.span else {
        return Err(Cause::Missing);
    };
    Ok(pointed(child_of, high, low, span))
}

/// Reads the reference whose struct is known to stand at the cursor, or None where it points to no span.
pub(crate) fn read_reference<P: Parts>(
    alloc: Global,
    c: &mut Cursor<'_>,
    left: u8,
) -> Result<Option<SpanRef>, Halt<Cause>>
    requires levels { left ≤ outer_levels }
    ensures value { (text tail : List ℕ) (fields : Fields) → c.old.rest ≡ text ++ tail
        → StructText P.spells left fields text
        → IfOk result (λ reference. (c.new.rest ≡ tail) × IsSpanRef reference fields) }
    ensures judged { (text tail : List ℕ) (fields : Fields) → c.old.rest ≡ text ++ tail
        → StructText P.spells left fields text
        → Judges result (Offence (structs P.spells left) reference_rules (whole_struct text)) }
    ensures shorter { length c.new.rest ≤ length c.old.rest }
{
    let rows = read_rows::<P, ReferenceRows>(alloc, ReferenceRows::none(), c, left)?;
    Ok(reference_of(&rows)?)
}

impl<P: Parts> Element<P> for Option<SpanRef> {
    ghost use Rattle.jaeger_model.specs.Reference.{IsSpanRef, reference_rules};

    ghost means = { IsSpanRef };

    ghost rules = { λ left. reference_rules };

    fn read(alloc: Global, c: &mut Cursor<'_>, left: u8) -> Result<Option<SpanRef>, Halt<Cause>> {
        read_reference::<P>(alloc, c, left)
    }
}
