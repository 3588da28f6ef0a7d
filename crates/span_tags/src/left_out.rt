//! Tags that say nothing, and so are left out, and the remarks on them.
ghost use Rattle.std.specs.Prelude.{◌≡◌, ◌++◌, is_some, OnOk};
ghost use Rattle.trace_model.specs.Attributes.{at};
ghost use Rattle.trace_model.specs.Remarks.{tags_dropped};
ghost use Rattle.span_tags.specs.TagKeys.{code_key};
ghost use Rattle.span_tags.specs.TagWords as told;

use crate::words::{code_in, count_in, text_in};
use span_io::{Items, OutOfMemory};
use std::alloc::Global;
use trace_model::{Attrs, Place, Remark, find, remark_tag};

/// Adds that a tag of this key was left out, if it was.
pub fn remark_if(
    alloc: Global,
    remarks: &mut Items<Remark>,
    place: Place,
    key: &str,
    left: bool,
) -> Result<(), OutOfMemory>
    ensures { OnOk result
        (remarks.new ≡ remarks.old ++ tags_dropped place (told.if_left key.now left)) }
{
    if !left {
        return Ok(());
    }
    remark_tag(alloc, remarks, place, key)
}

/// Whether there is a tag of this key.
pub fn is_there(tags: &Attrs, key: &str) -> bool
    ensures { result ≡ is_some (at key.now tags.now) }
{
    find(tags, key).is_some()
}

/// Whether there is a tag of this key that isn't a text.
pub fn is_idle_text(tags: &Attrs, key: &str) -> bool
    ensures { result ≡ told.is_idle (at key.now tags.now) (told.text_in (at key.now tags.now)) }
{
    let value = find(tags, key);
    value.is_some() && text_in(value).is_none()
}

/// Whether there is a tag of this key that isn't a count.
pub fn is_idle_count(tags: &Attrs, key: &str) -> bool
    ensures { result ≡ told.is_idle (at key.now tags.now) (told.count_in (at key.now tags.now)) }
{
    let value = find(tags, key);
    value.is_some() && count_in(value).is_none()
}

/// Whether the older key isn't a text, or differs from the newer.
pub fn is_idle_library(tags: &Attrs, older: &str, newer: &str) -> bool
    ensures { result ≡ told.is_idle_library (at older.now tags.now)
        (told.text_in (at older.now tags.now)) (told.text_in (at newer.now tags.now)) }
{
    let value = find(tags, older);
    let Some(text) = text_in(value) else {
        return value.is_some();
    };
    match text_in(find(tags, newer)) {
        Some(newer) => text != newer,
        None => false,
    }
}

/// Whether there is an `otel.status_code` that names no code.
pub fn is_idle_code(tags: &Attrs) -> bool
    ensures { result ≡ told.is_idle (at code_key tags.now) (told.code_in (at code_key tags.now)) }
{
    let value = find(tags, "otel.status_code");
    value.is_some() && code_in(value).is_none()
}
