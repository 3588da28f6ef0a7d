//! The columns of a span that it doesn't share with its scope, as tags hold them under the reserved keys.
ghost use Rattle.std.specs.Prelude.{◌≡◌, ◌++◌, IfOk, OnOk};
ghost use Rattle.span_tags.specs.Columns.{rows_by};
ghost use Rattle.span_tags.specs.TagWords.{row};
ghost use Rattle.map_zipkin.specs.TagColumns as told;
ghost use Rattle.map_zipkin.specs.TagColumns.{row_of};
ghost use Rattle.map_zipkin.specs.private.WritingSoFar.{span_columns, unshared_rows};

use crate::columns::Column;
use crate::count_texts::count_text;
use span_io::{Items, OutOfMemory, Text};
use span_tags::{add_row, code_given, text_given};
use std::alloc::Global;
use trace_model::{Attrs, Code, Span, Value};

/// The columns that a span doesn't share with its scope, by rising keys.
const UNSHARED: [Column; 6] = [
    Column::Error,
    Column::DroppedAttributes,
    Column::DroppedEvents,
    Column::DroppedLinks,
    Column::Code,
    Column::State,
];

fn error_message(code: Code, message: &Text) -> Result<Option<Value>, OutOfMemory>
    ensures { IfOk result (λ value. value ≡ told.error_message code message.now) }
{
    match code {
        Code::Fail => Ok(Some(Value::Text(message.copy()?))),
        Code::Unset | Code::Okay => Ok(None),
    }
}

// What a span holds in a column, without its scope.
fn given(alloc: Global, span: &Span, column: Column) -> Result<Option<Value>, OutOfMemory>
    ensures { IfOk result (λ value. value ≡ span_columns span.now column) }
{
    match column {
        Column::Error => error_message(span.status.code, &span.status.message),
        Column::DroppedAttributes => count_text(alloc, span.dropped_attributes),
        Column::DroppedEvents => count_text(alloc, span.dropped_events),
        Column::DroppedLinks => count_text(alloc, span.dropped_links),
        Column::LibraryName | Column::LibraryVersion => Ok(None),
        Column::ScopeName | Column::ScopeVersion => Ok(None),
        Column::Code => code_given(alloc, span.status.code),
        Column::State => text_given(&span.state),
    }
}

fn add_column(
    alloc: Global,
    pairs: &mut Attrs,
    span: &Span,
    column: Column,
) -> Result<(), OutOfMemory>
    ensures { OnOk result
        (pairs.new ≡ pairs.old ++ row (row_of column).key (span_columns span.now column)) }
{
    let value = given(alloc, span, column)?;
    add_row(alloc, pairs, column.key(), value)
}

// Adds the tags of these columns.
fn add_columns(
    alloc: Global,
    pairs: &mut Attrs,
    span: &Span,
    columns: &[Column],
) -> Result<(), OutOfMemory>
    ensures { OnOk result
        (pairs.new ≡ pairs.old ++ rows_by row_of columns.now (span_columns span.now)) }
{
    'columns: for column in columns {
        add_column(alloc, pairs, span, *column)?;
    }
    Ok(())
}

/// The tags of the columns that a span doesn't share with its scope, in the order of their keys.
/// Most spans have none.
pub(crate) fn rows_of_span(alloc: Global, span: &Span) -> Result<Attrs, OutOfMemory>
    ensures { IfOk result (λ pairs. pairs ≡ unshared_rows span.now) }
{
    let mut pairs = Items::new(alloc);
    add_columns(alloc, &mut pairs, span, &UNSHARED)?;
    Ok(pairs)
}
