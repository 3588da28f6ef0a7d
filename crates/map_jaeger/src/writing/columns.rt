//! The columns of a span, as tags hold them.
ghost use Rattle.std.specs.Prelude.{◌≡◌, ◌++◌, IfOk, OnOk};
ghost use Rattle.trace_model.specs.Attributes.{attrs};
ghost use Rattle.span_tags.specs.Columns.{rows_by};
ghost use Rattle.span_tags.specs.Runs.{under};
ghost use Rattle.span_tags.specs.TagWords.{Pairs, row};
ghost use Rattle.map_jaeger.specs.ColumnWords as told;
ghost use Rattle.map_jaeger.specs.Columns.{columns_of, row_of};

use crate::columns::Column;
use span_io::{OutOfMemory, Text};
use span_tags::{code_given, put_row, text_given, word_given};
use std::alloc::Global;
use trace_model::{Code, Kind, Span, Status, Value};

fn count_given(count: u32) -> Option<Value>
    ensures { result ≡ told.count_given count }
{
    if count == 0 {
        return None;
    }
    Some(Value::Number(i64::from(count)))
}

fn error_given(code: Code) -> Option<Value>
    ensures { result ≡ told.error_given code }
{
    match code {
        Code::Fail => Some(Value::Truth(true)),
        Code::Unset | Code::Okay => None,
    }
}

fn description_given(status: &Status) -> Result<Option<Value>, OutOfMemory>
    ensures { IfOk result
        (λ value. value ≡ told.description_given status.now.code status.now.message) }
{
    match status.code {
        Code::Unset => Ok(None),
        Code::Okay | Code::Fail => text_given(&status.message),
    }
}

fn kind_given(alloc: Global, kind: Kind) -> Result<Option<Value>, OutOfMemory>
    ensures { IfOk result (λ value. value ≡ told.kind_given kind) }
{
    match kind {
        Kind::Unspecified | Kind::Internal => Ok(None),
        Kind::Server => word_given(alloc, "server"),
        Kind::Client => word_given(alloc, "client"),
        Kind::Producer => word_given(alloc, "producer"),
        Kind::Consumer => word_given(alloc, "consumer"),
    }
}

// What a span holds in a column, under the name and version of its scope.
fn given(
    alloc: Global,
    name: &Text,
    version: &Text,
    span: &Span,
    column: Column,
) -> Result<Option<Value>, OutOfMemory>
    ensures { IfOk result
        (λ value. value ≡ columns_of (under name.now version.now span.now) column) }
{
    match column {
        Column::Error => Ok(error_given(span.status.code)),
        Column::Flags | Column::LibraryName | Column::LibraryVersion => Ok(None),
        Column::DroppedAttributes => Ok(count_given(span.dropped_attributes)),
        Column::DroppedEvents => Ok(count_given(span.dropped_events)),
        Column::DroppedLinks => Ok(count_given(span.dropped_links)),
        Column::ScopeName => text_given(name),
        Column::ScopeVersion => text_given(version),
        Column::Code => code_given(alloc, span.status.code),
        Column::Description => description_given(&span.status),
        Column::Kind => kind_given(alloc, span.kind),
        Column::State => text_given(&span.state),
    }
}

// Puts the tag of a column in its place among attributes.
fn put_column(
    alloc: Global,
    pairs: &mut Vec<(Text, Value)>,
    name: &Text,
    version: &Text,
    span: &Span,
    column: Column,
) -> Result<(), OutOfMemory>
    ensures { (rest : Pairs) → pairs.old.items ≡ attrs rest
        → OnOk result (pairs.new.items
        ≡ attrs
        (row (row_of column).key (columns_of (under name.now version.now span.now) column)
        ++ rest)) }
{
    let value = given(alloc, name, version, span, column)?;
    put_row(alloc, pairs, column.key(), value)
}

/// Puts the tags of these columns in their places among attributes, the last first.
pub(crate) fn put_columns(
    alloc: Global,
    pairs: &mut Vec<(Text, Value)>,
    name: &Text,
    version: &Text,
    span: &Span,
    columns: &[Column],
) -> Result<(), OutOfMemory>
    ensures { (rest : Pairs) → pairs.old.items ≡ attrs rest
        → OnOk result (pairs.new.items
        ≡ attrs
        (rows_by row_of columns.now (columns_of (under name.now version.now span.now)) ++ rest)) }
{
    let mut left = columns;
    'columns: while let Some((column, before)) = left.split_last() {
        put_column(alloc, pairs, name, version, span, *column)?;
        left = before;
    }
    Ok(())
}
