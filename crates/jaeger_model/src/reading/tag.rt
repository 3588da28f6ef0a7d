//! `Tag` (jaeger.thrift).
ghost use Rattle.std.specs.Prelude.{◌≡◌, ◌≤◌, ◌++◌, ℕ, [], List, length, IfOk, OnOk};
ghost use Rattle.span_io.specs.Offences.{Offence, Judges};
ghost use Rattle.span_io.specs.RowsSoFar.{Sets};
ghost use Rattle.span_io.specs.private.RowSteps.{JudgesCause};
ghost use Rattle.jaeger_model.specs.Meanings.{MeansEnum};
ghost use Rattle.jaeger_model.specs.Rows.{BadEnum};
ghost use Rattle.jaeger_model.specs.private.RowsSoFar.{JudgesField};
ghost use Rattle.jaeger_model.specs.Tag.{IsTag, IsNamed, type_of, tag_type_number, tag_ends, tag_rules};
ghost use Rattle.thrift_core.specs.Messages.{FieldItem, fields_of, structs, whole_struct};
ghost use Rattle.thrift_core.specs.Trees.{Fields, StructText, outer_levels};
ghost use Rattle.jaeger_model.specs.private.TagSoFar.{GaveTag};

use crate::reading::leaves::{pass_over, sure_bytes, sure_eight, sure_int, sure_long, sure_truth};
use crate::reading::lists::Element;
use crate::reading::message::{Rows, read_rows};
use crate::reading::rows::{bytes_row, double_row, number_row, truth_row};
use crate::tag::{Tag, TagValue};
use span_io::{Bytes, Cause, Cursor, Halt, Text, once, text_row};
use std::alloc::Global;
use thrift_core::{Field, Parts, TypeCode};

/// What a tag holds (jaeger.thrift `TagType`).
#[derive(Clone, Copy, PartialEq, Eq)]
pub(crate) enum TagType {
    Text,
    Double,
    Truth,
    Long,
    Bytes,
}

/// What was gathered of a tag so far.
#[derive(Drop)]
pub(crate) struct TagRows {
    key: Option<Text>,
    kind: Option<TagType>,
    text: Option<Text>,
    double: Option<[u8; 8]>,
    truth: Option<bool>,
    number: Option<i64>,
    bytes: Option<Bytes>,
}

impl TagRows {
    // Nothing was read.
    fn none() -> TagRows
        ensures { GaveTag result [] }
    {
        TagRows {
            key: None,
            kind: None,
            text: None,
            double: None,
            truth: None,
            number: None,
            bytes: None,
        }
    }
}

// The type of this number.
fn tag_type_of(held: i32) -> Result<TagType, Cause>
    ensures value { IfOk result (λ kind. MeansEnum tag_type_number held kind) }
    ensures judged { JudgesCause result (BadEnum 4 held) }
{
    match held {
        0 => Ok(TagType::Text),
        1 => Ok(TagType::Double),
        2 => Ok(TagType::Truth),
        3 => Ok(TagType::Long),
        4 => Ok(TagType::Bytes),
        _ => Err(Cause::BadEnum),
    }
}

// Sets the row of the type.
fn tag_type_row(row: &mut Option<TagType>, held: i32) -> Result<(), Cause>
    ensures ok { OnOk result (Sets (MeansEnum tag_type_number) held row.old row.new) }
    ensures judged { JudgesField (MeansEnum tag_type_number) (BadEnum 4) row.old held result }
{
    once(row)?;
    *row = Some(tag_type_of(held)?);
    Ok(())
}

impl<P: Parts> Rows<P> for TagRows {
    ghost use Rattle.jaeger_model.specs.Tag.{tag_table, tag_ends};
    ghost use Rattle.jaeger_model.specs.private.TagSoFar.{GaveTag};

    ghost table = { λ left. tag_table };

    ghost ends = { tag_ends };

    ghost gathered = { λ left first rows seen. GaveTag rows seen };

    fn gather(
        &mut self,
        alloc: Global,
        c: &mut Cursor<'_>,
        found: Field,
        left: u8,
    ) -> Result<(), Halt<Cause>> {
        match (found.id, found.kind) {
            (1, TypeCode::Binary) => text_row(alloc, &mut self.key, sure_bytes::<P>(c)),
            (2, TypeCode::I32) => Ok(tag_type_row(&mut self.kind, sure_int::<P>(c))?),
            (3, TypeCode::Binary) => text_row(alloc, &mut self.text, sure_bytes::<P>(c)),
            (4, TypeCode::Eight) => Ok(double_row(&mut self.double, sure_eight::<P>(c))?),
            (5, TypeCode::Truth) => {
                Ok(truth_row(&mut self.truth, sure_truth::<P>(c, found.held))?)
            }
            (6, TypeCode::I64) => Ok(number_row(&mut self.number, sure_long::<P>(c))?),
            (7, TypeCode::Binary) => bytes_row(alloc, &mut self.bytes, sure_bytes::<P>(c)),
            _ => {
                pass_over::<P>(c, found, left);
                Ok(())
            }
        }
    }
}

// The value that the type names.
fn named_value(
    kind: TagType,
    text: Text,
    double: [u8; 8],
    truth: bool,
    number: i64,
    bytes: Bytes,
) -> TagValue
    ensures kind { type_of result ≡ tag_type_number kind }
    ensures named { IsNamed result
        (record { text = text; double = double; truth = truth; number = number; bytes = bytes }) }
{
    match kind {
        TagType::Text => TagValue::Text(text),
        TagType::Double => TagValue::Eight(double),
        TagType::Truth => TagValue::Truth(truth),
        TagType::Long => TagValue::Number(number),
        TagType::Bytes => TagValue::Bytes(bytes),
    }
}

// The tag of the rows.
fn tag_of(alloc: Global, rows: TagRows) -> Result<Tag, Cause>
    ensures value { (items : List FieldItem) → GaveTag rows items
        → IfOk result (λ tag. IsTag tag (fields_of items)) }
    ensures ended { (items : List FieldItem) → GaveTag rows items
        → JudgesCause result (tag_ends items) }
{
    let TagRows {
        key,
        kind,
        text,
        double,
        truth,
        number,
        bytes,
    } = rows;
    let Some(kind) = kind else {
        return Err(Cause::Missing);
    };
    let Some(key) = key else {
        return Err(Cause::Missing);
    };
    let value = named_value(
        kind,
        text.unwrap_or(Text::new(alloc)),
        double.unwrap_or([0; 8]),
        truth.unwrap_or(false),
        number.unwrap_or(0),
        bytes.unwrap_or(Bytes::new(alloc)),
    );
    Ok(Tag { key, value })
}

/// Reads the tag whose struct is known to stand at the cursor.
pub(crate) fn read_tag<P: Parts>(
    alloc: Global,
    c: &mut Cursor<'_>,
    left: u8,
) -> Result<Tag, Halt<Cause>>
    requires levels { left ≤ outer_levels }
    ensures value { (text tail : List ℕ) (fields : Fields) → c.old.rest ≡ text ++ tail
        → StructText P.spells left fields text
        → IfOk result (λ tag. (c.new.rest ≡ tail) × IsTag tag fields) }
    ensures judged { (text tail : List ℕ) (fields : Fields) → c.old.rest ≡ text ++ tail
        → StructText P.spells left fields text
        → Judges result (Offence (structs P.spells left) tag_rules (whole_struct text)) }
    ensures shorter { length c.new.rest ≤ length c.old.rest }
{
    let rows = read_rows::<P, TagRows>(alloc, TagRows::none(), c, left)?;
    Ok(tag_of(alloc, rows)?)
}

impl<P: Parts> Element<P> for Tag {
    ghost use Rattle.jaeger_model.specs.Tag.{IsTag, tag_rules};

    ghost means = { IsTag };

    ghost rules = { λ left. tag_rules };

    fn read(alloc: Global, c: &mut Cursor<'_>, left: u8) -> Result<Tag, Halt<Cause>> {
        read_tag::<P>(alloc, c, left)
    }
}
