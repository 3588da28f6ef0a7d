//! What the tags of the table say of a span.
ghost use Rattle.std.specs.Prelude.{◌≡◌, [], unwrap_or, if◌then◌else◌, option_map, false, IfOk};
ghost use Rattle.span_tags.specs.TagWords as words;
ghost use Rattle.trace_model.specs.declared.span.Code.TheVariants as statuses;
ghost use Rattle.map_jaeger.specs.ColumnWords as meant;
ghost use Rattle.map_jaeger.specs.Columns.{looked, status_of_columns};

use crate::columns::Column;
use crate::reading::values::error_in;
use span_io::{OutOfMemory, Text};
use span_tags::{code_in, count_in, name_in, text_or_empty};
use std::alloc::Global;
use trace_model::{Attrs, Code, Status, Value, find};

/// What the tags hold in a column.
pub(crate) fn held(tags: &Attrs, column: Column) -> Option<&Value>
    ensures { option_map (λ value. value.now) result ≡ looked tags.now column }
{
    find(tags, column.key())
}

/// The text in a column.
pub(crate) fn text_held(alloc: Global, tags: &Attrs, column: Column) -> Result<Text, OutOfMemory>
    ensures { IfOk result (λ text. text ≡ unwrap_or (words.text_in (looked tags.now column)) []) }
{
    text_or_empty(alloc, held(tags, column))
}

/// The count in a column.
pub(crate) fn count_held(tags: &Attrs, column: Column) -> u32
    ensures { result ≡ unwrap_or (words.count_in (looked tags.now column)) 0 }
{
    count_in(held(tags, column)).unwrap_or(0)
}

/// The name in a column, or where that is absent in an older one.
pub(crate) fn name_held(
    alloc: Global,
    tags: &Attrs,
    newer: Column,
    older: Column,
) -> Result<Text, OutOfMemory>
    ensures { IfOk result
        (λ name. name ≡ words.name_in (looked tags.now newer) (looked tags.now older)) }
{
    name_in(alloc, held(tags, newer), held(tags, older))
}

pub(crate) fn status_of(alloc: Global, tags: &Attrs) -> Result<Status, OutOfMemory>
    ensures code { IfOk result (λ status. status.code ≡ status_of_columns (looked tags.now)) }
    ensures message { IfOk result (λ status. status.message
        ≡ meant.message_by (status_of_columns (looked tags.now))
        (looked tags.now Column.Description)) }
{
    let code = code_of(tags);
    let message = message_by(alloc, code, held(tags, Column::Description))?;
    Ok(Status { code, message })
}

/// The code that `otel.status_code` names, else that of `error`.
pub(crate) fn code_of(tags: &Attrs) -> Code
    ensures { result ≡ status_of_columns (looked tags.now) }
{
    match code_in(held(tags, Column::Code)) {
        Some(code) => code,
        None => code_by_error(error_in(held(tags, Column::Error))),
    }
}

fn code_by_error(error: Option<bool>) -> Code
    ensures { result ≡ (if unwrap_or error false then statuses.Fail else statuses.Unset) }
{
    match error {
        Some(true) => Code::Fail,
        _ => Code::Unset,
    }
}

fn message_by(alloc: Global, code: Code, description: Option<&Value>) -> Result<Text, OutOfMemory>
    ensures { IfOk result
        (λ text. text ≡ meant.message_by code (option_map (λ v. v.now) description.entry)) }
{
    match code {
        Code::Unset => Ok(Text::new(alloc)),
        Code::Okay | Code::Fail => text_or_empty(alloc, description),
    }
}
