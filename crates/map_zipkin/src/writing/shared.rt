//! The tags that all spans of a scope have in common: those of the resource and of the scope.
ghost use Rattle.std.specs.Prelude.{◌≡◌, ◌∷◌, [], ◌++◌, false, IfOk, OnOk};
ghost use Rattle.trace_model.specs.EventTexts.{holds_double};
ghost use Rattle.trace_model.specs.ValueTexts as texts;
ghost use Rattle.map_zipkin.specs.Keys.{resource_prefix};
ghost use Rattle.map_zipkin.specs.Writing as told;
ghost use Rattle.map_zipkin.specs.private.WritingSoFar.{shared_rows};

use crate::columns::Column;
use span_io::{Items, OutOfMemory, Text};
use span_tags::{add_row, text_given, text_told};
use std::alloc::Global;
use trace_model::{Attrs, Value, attrs_of};

/// A scope has so many tags at most.
const COLUMNS: usize = 2;

/// The tags of the resource, and of a scope of this name and version, by rising keys.
pub(crate) fn rows_of_scope(
    alloc: Global,
    resource: &Attrs,
    name: &Text,
    version: &Text,
) -> Result<Attrs, OutOfMemory>
    requires { holds_double resource.now ≡ false }
    ensures { IfOk result (λ rows. rows ≡ shared_rows resource.now name.now version.now) }
{
    let name = text_given(name)?;
    let version = text_given(version)?;
    let mut rows = Items::with_room(alloc, resource.len().saturating_add(COLUMNS))?;
    add_row(alloc, &mut rows, Column::ScopeName.key(), name)?;
    add_row(alloc, &mut rows, Column::ScopeVersion.key(), version)?;
    add_resource(alloc, &mut rows, resource)?;
    let (rows, _) = attrs_of(alloc, rows)?;
    Ok(rows)
}

// The key behind the prefix.
fn prefixed(alloc: Global, key: &str) -> Result<Text, OutOfMemory>
    ensures { IfOk result (λ text. text ≡ resource_prefix ++ key.now) }
{
    let mut text = Text::of(alloc, "otel.resource.")?;
    text.append(key)?;
    Ok(text)
}

// Adds the tag of an attribute of the resource, unless it is the service.
fn add_prefixed(alloc: Global, pairs: &mut Attrs, pair: &(Text, Value)) -> Result<(), OutOfMemory>
    requires { texts.has_double pair.now.1 ≡ false }
    ensures { OnOk result (pairs.new ≡ pairs.old ++ told.resource_pairs (pair.now ∷ [])) }
{
    if "service.name" == pair.0.as_str() {
        return Ok(());
    }
    let key = prefixed(alloc, pair.0.as_str())?;
    pairs.push((key, Value::Text(text_told(alloc, &pair.1)?)))
}

fn add_resource(alloc: Global, pairs: &mut Attrs, resource: &Attrs) -> Result<(), OutOfMemory>
    requires { holds_double resource.now ≡ false }
    ensures { OnOk result (pairs.new ≡ pairs.old ++ told.resource_pairs resource.now) }
{
    'attributes: for pair in resource.as_slice() {
        add_prefixed(alloc, pairs, pair)?;
    }
    Ok(())
}
