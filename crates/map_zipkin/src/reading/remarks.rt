//! Remarks on tags of a span that say nothing, or other than what stands in a place of its own.
ghost use Rattle.std.specs.Prelude.{◌≡◌, ◌++◌, is_some, Some, IfOk, OnOk};
ghost use Rattle.span_tags.specs.Columns.{left_out_by};
ghost use Rattle.span_tags.specs.TagWords as words;
ghost use Rattle.trace_model.specs.Attributes.{at};
ghost use Rattle.trace_model.specs.Remarks.{tags_dropped};
ghost use Rattle.trace_model.specs.declared.place.Place.TheVariants as places;
ghost use Rattle.map_zipkin.specs.Keys.{peer_key};
ghost use Rattle.map_zipkin.specs.OwnColumns.{own_in, own_row};
ghost use Rattle.map_zipkin.specs.Remarks as told;
ghost use Rattle.map_zipkin.specs.TagColumns.{columns_in, is_idle_in, row_of};

use crate::columns::Column;
use crate::keys::may_hold_reserved;
use crate::own::{OWN_KEYS, Own, has_own, own_part};
use crate::reading::columns::held;
use span_io::{Items, OutOfMemory, Text};
use span_tags::{
    code_in, is_idle_code, is_idle_count, is_idle_library, is_there, remark_if, text_in,
};
use std::alloc::Global;
use trace_model::{Attrs, Code, Place, Remark, Value, find};

/// The columns in front of the service of the resource, by rising keys.
const FIRST: [Column; 6] = [
    Column::Error,
    Column::DroppedAttributes,
    Column::DroppedEvents,
    Column::DroppedLinks,
    Column::LibraryName,
    Column::LibraryVersion,
];

fn is_idle_message(tags: &Attrs) -> bool
    ensures { result ≡ is_idle_in (columns_in tags.now) Column.Error }
{
    match code_in(held(tags, Column::Code)) {
        Some(Code::Okay) => held(tags, Column::Error).is_some(),
        _ => false,
    }
}

// Whether the tag of a column is there and says nothing.
fn is_idle(tags: &Attrs, column: Column) -> bool
    ensures { result ≡ is_idle_in (columns_in tags.now) column }
{
    let key = column.key();
    match column {
        Column::Error => is_idle_message(tags),
        Column::DroppedAttributes | Column::DroppedEvents | Column::DroppedLinks => {
            is_idle_count(tags, key)
        }
        Column::LibraryName => is_idle_library(tags, key, Column::ScopeName.key()),
        Column::LibraryVersion => is_idle_library(tags, key, Column::ScopeVersion.key()),
        Column::ScopeName | Column::ScopeVersion | Column::State => false,
        Column::Code => is_idle_code(tags),
    }
}

// Whether the tag of the service at the other end is empty, or differs from this service.
fn is_idle_peer(service: &Text, tags: &Attrs) -> bool
    ensures { result ≡ told.is_idle_peer service.now (words.text_in (at peer_key tags.now)) }
{
    match text_in(find(tags, "peer.service")) {
        None => false,
        Some(text) => is_idle_text(service, text),
    }
}

fn is_idle_text(service: &Text, text: &str) -> bool
    ensures { result ≡ told.is_idle_peer service.now (Some text.now) }
{
    if text.len() == 0 {
        return true;
    }
    service.len() != 0 && service.as_str() != text
}

/// The remarks on the tags of a span whose service at the other end is this.
pub(crate) fn remarks_of(
    alloc: Global,
    service: &Text,
    tags: &Attrs,
) -> Result<Items<Remark>, OutOfMemory>
    ensures { IfOk result (λ remarks. remarks
        ≡ tags_dropped (places.Span 1)
        (told.left_out_by service.now (columns_in tags.now) tags.now)) }
{
    let mut remarks = Items::new(alloc);
    let place = Place::Span(1);
    remark_reserved(alloc, &mut remarks, place, tags)?;
    let idle = is_idle_peer(service, tags);
    remark_if(alloc, &mut remarks, place, "peer.service", idle)?;
    remark_own(alloc, &mut remarks, place, own_part(tags), &OWN_KEYS)?;
    Ok(remarks)
}

// Adds which of the tags under reserved keys were left out.
fn remark_reserved(
    alloc: Global,
    remarks: &mut Items<Remark>,
    place: Place,
    tags: &Attrs,
) -> Result<(), OutOfMemory>
    ensures { OnOk result
        (remarks.new
        ≡ remarks.old ++ tags_dropped place (told.reserved_left (columns_in tags.now) tags.now)) }
{
    if !may_hold_reserved(tags) {
        return Ok(());
    }
    remark_columns(alloc, remarks, place, tags, &FIRST)?;
    let key = "otel.resource.service.name";
    remark_if(alloc, remarks, place, key, is_there(tags, key))?;
    remark_column(alloc, remarks, place, tags, Column::Code)?;
    Ok(())
}

fn remark_column(
    alloc: Global,
    remarks: &mut Items<Remark>,
    place: Place,
    tags: &Attrs,
    column: Column,
) -> Result<(), OutOfMemory>
    ensures { OnOk result (remarks.new ≡ remarks.old
        ++ tags_dropped place
        (words.if_left (row_of column).key (is_idle_in (columns_in tags.now) column))) }
{
    remark_if(alloc, remarks, place, column.key(), is_idle(tags, column))
}

// Adds which of the tags of these columns were left out.
fn remark_columns(
    alloc: Global,
    remarks: &mut Items<Remark>,
    place: Place,
    tags: &Attrs,
    columns: &[Column],
) -> Result<(), OutOfMemory>
    ensures { OnOk result (remarks.new ≡ remarks.old
        ++ tags_dropped place (left_out_by row_of columns.now (columns_in tags.now))) }
{
    'columns: for column in columns {
        remark_column(alloc, remarks, place, tags, *column)?;
    }
    Ok(())
}

// Adds that a tag of this key was left out, if there is one.
fn remark_one(
    alloc: Global,
    remarks: &mut Items<Remark>,
    place: Place,
    pairs: &[(Text, Value)],
    own: Own,
) -> Result<(), OutOfMemory>
    ensures { OnOk result (remarks.new ≡ remarks.old
        ++ tags_dropped place (words.if_left (own_row own).key (is_some (own_in pairs.now own)))) }
{
    remark_if(alloc, remarks, place, own.key(), has_own(pairs, own))
}

// Adds which of the tags of these keys of Zipkin's own were left out: all that are there.
fn remark_own(
    alloc: Global,
    remarks: &mut Items<Remark>,
    place: Place,
    pairs: &[(Text, Value)],
    keys: &[Own],
) -> Result<(), OutOfMemory>
    ensures { OnOk result (remarks.new ≡ remarks.old
        ++ tags_dropped place (left_out_by own_row keys.now (own_in pairs.now))) }
{
    'keys: for own in keys {
        remark_one(alloc, remarks, place, pairs, *own)?;
    }
    Ok(())
}
