//! Remarks on tags of the table that say nothing, and so are left out.
ghost use Rattle.std.specs.Prelude.{◌≡◌, ◌++◌, OnOk};
ghost use Rattle.trace_model.specs.Remarks.{tags_dropped};
ghost use Rattle.span_tags.specs.Columns.{left_out_by};
ghost use Rattle.span_tags.specs.TagWords.{if_left};
ghost use Rattle.map_jaeger.specs.ColumnWords as told;
ghost use Rattle.map_jaeger.specs.Columns.{is_idle_in, looked, row_of};

use crate::columns::Column;
use crate::reading::columns::{code_of, held};
use crate::reading::values::{error_in, kind_in};
use span_io::{Items, OutOfMemory};
use span_tags::{
    code_in, is_idle_code, is_idle_count, is_idle_library, is_idle_text, is_there, remark_if,
};
use std::alloc::Global;
use trace_model::{Attrs, Code, Place, Remark};

fn is_idle_description(tags: &Attrs) -> bool
    ensures { result ≡ is_idle_in (looked tags.now) Column.Description }
{
    let key = Column::Description.key();
    match code_of(tags) {
        Code::Unset => is_there(tags, key),
        Code::Okay | Code::Fail => is_idle_text(tags, key),
    }
}

fn is_idle_kind(tags: &Attrs) -> bool
    ensures { result ≡ is_idle_in (looked tags.now) Column.Kind }
{
    let value = held(tags, Column::Kind);
    value.is_some() && kind_in(value).is_none()
}

fn is_idle_error(tags: &Attrs) -> bool
    ensures { result ≡ is_idle_in (looked tags.now) Column.Error }
{
    let value = held(tags, Column::Error);
    match error_in(value) {
        Some(truth) => !agrees(code_in(held(tags, Column::Code)), truth),
        None => value.is_some(),
    }
}

// Whether `error` says of the span what its code does.
fn agrees(code: Option<Code>, truth: bool) -> bool
    ensures { result ≡ told.agrees code truth }
{
    match code {
        None => true,
        Some(Code::Unset) => false,
        Some(Code::Okay) => !truth,
        Some(Code::Fail) => truth,
    }
}

// Whether the tag of a column is there and says nothing.
fn is_idle(tags: &Attrs, column: Column) -> bool
    ensures { result ≡ is_idle_in (looked tags.now) column }
{
    let key = column.key();
    match column {
        Column::Error => is_idle_error(tags),
        Column::Flags => is_there(tags, key),
        Column::DroppedAttributes | Column::DroppedEvents | Column::DroppedLinks => {
            is_idle_count(tags, key)
        }
        Column::LibraryName => is_idle_library(tags, key, Column::ScopeName.key()),
        Column::LibraryVersion => is_idle_library(tags, key, Column::ScopeVersion.key()),
        Column::ScopeName | Column::ScopeVersion | Column::State => is_idle_text(tags, key),
        Column::Code => is_idle_code(tags),
        Column::Description => is_idle_description(tags),
        Column::Kind => is_idle_kind(tags),
    }
}

fn remark_column(
    alloc: Global,
    remarks: &mut Items<Remark>,
    place: Place,
    tags: &Attrs,
    column: Column,
) -> Result<(), OutOfMemory>
    ensures { OnOk result (remarks.new ≡ remarks.old
        ++ tags_dropped place (if_left (row_of column).key (is_idle_in (looked tags.now) column))) }
{
    remark_if(alloc, remarks, place, column.key(), is_idle(tags, column))
}

/// Adds which of the tags of these columns were left out.
pub(crate) fn remark_columns(
    alloc: Global,
    remarks: &mut Items<Remark>,
    place: Place,
    tags: &Attrs,
    columns: &[Column],
) -> Result<(), OutOfMemory>
    ensures { OnOk result (remarks.new ≡ remarks.old
        ++ tags_dropped place (left_out_by row_of columns.now (looked tags.now))) }
{
    'columns: for column in columns {
        remark_column(alloc, remarks, place, tags, *column)?;
    }
    Ok(())
}
