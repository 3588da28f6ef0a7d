//! What the tags under the reserved keys say of a span and its scope.
ghost use Rattle.std.specs.Prelude.{◌≡◌, if◌then◌else◌, None, option_map, IfOk};
ghost use Rattle.trace_model.specs.declared.span.Code.TheVariants as statuses;
ghost use Rattle.map_zipkin.specs.private.ReadColumns.{IsZipkinTold, IsZipkinToldBy};
ghost use Rattle.map_zipkin.specs.Reading as meant;
ghost use Rattle.map_zipkin.specs.TagColumns.{columns_in};

use crate::columns::Column;
use crate::keys::may_hold_reserved;
use span_io::{OutOfMemory, Text};
use span_tags::{code_in, count_in, name_in, text_or_empty};
use std::alloc::Global;
use trace_model::{Attrs, Code, Status, Value, find};

/// What the columns of a span and its scope hold.
#[derive(Drop)]
pub(crate) struct Told {
    pub name: Text,
    pub version: Text,
    pub state: Text,
    pub dropped_attributes: u32,
    pub dropped_events: u32,
    pub dropped_links: u32,
    pub status: Status,
}

impl Told {
    // What is told where no column holds anything.
    fn nothing(alloc: Global) -> Told
        ensures { IsZipkinTold (λ column. None) result }
    {
        Told {
            name: Text::new(alloc),
            version: Text::new(alloc),
            state: Text::new(alloc),
            dropped_attributes: 0,
            dropped_events: 0,
            dropped_links: 0,
            status: Status {
                code: Code::Unset,
                message: Text::new(alloc),
            },
        }
    }
}

/// What the tags hold in a column.
pub(crate) fn held(tags: &Attrs, column: Column) -> Option<&Value>
    ensures { option_map (λ value. value.now) result ≡ columns_in tags.now column }
{
    find(tags, column.key())
}

/// What these tags tell.
pub(crate) fn told_by(alloc: Global, tags: &Attrs) -> Result<Told, OutOfMemory>
    ensures { IfOk result (λ told. IsZipkinToldBy tags.now told) }
{
    if !may_hold_reserved(tags) {
        return Ok(Told::nothing(alloc));
    }
    let name = name_in(
        alloc,
        held(tags, Column::ScopeName),
        held(tags, Column::LibraryName),
    )?;
    let version = name_in(
        alloc,
        held(tags, Column::ScopeVersion),
        held(tags, Column::LibraryVersion),
    )?;
    let state = text_or_empty(alloc, held(tags, Column::State))?;
    let status = status_of(alloc, tags)?;
    Ok(Told {
        name,
        version,
        state,
        dropped_attributes: count_in(held(tags, Column::DroppedAttributes)).unwrap_or(0),
        dropped_events: count_in(held(tags, Column::DroppedEvents)).unwrap_or(0),
        dropped_links: count_in(held(tags, Column::DroppedLinks)).unwrap_or(0),
        status,
    })
}

fn status_of(alloc: Global, tags: &Attrs) -> Result<Status, OutOfMemory>
    ensures code { IfOk result (λ status. status.code ≡ meant.status_code (columns_in tags.now)) }
    ensures message { IfOk result (λ status. status.message
        ≡ meant.message_of (meant.status_code (columns_in tags.now))
        (columns_in tags.now Column.Error)) }
{
    let code = code_of(tags);
    let message = message_of(alloc, code, held(tags, Column::Error))?;
    Ok(Status { code, message })
}

fn code_of(tags: &Attrs) -> Code
    ensures { result ≡ meant.status_code (columns_in tags.now) }
{
    match code_in(held(tags, Column::Code)) {
        Some(code) => code,
        None => code_by_error(held(tags, Column::Error).is_some()),
    }
}

fn code_by_error(error: bool) -> Code
    ensures { result ≡ (if error then statuses.Fail else statuses.Unset) }
{
    if error { Code::Fail } else { Code::Unset }
}

fn message_of(alloc: Global, code: Code, error: Option<&Value>) -> Result<Text, OutOfMemory>
    ensures { IfOk result
        (λ text. text ≡ meant.message_of code (option_map (λ v. v.now) error.entry)) }
{
    match code {
        Code::Fail => text_or_empty(alloc, error),
        Code::Unset | Code::Okay => Ok(Text::new(alloc)),
    }
}
