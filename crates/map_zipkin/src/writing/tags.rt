//! The tags of a span. Those in common with its scope and its attributes, under the keys of their tags,
//! are two rising lists, which become the tags by going over each once.
ghost use Rattle.std.specs.Prelude.{◌≡◌, ◌∷◌, ◌++◌, map, false, IfOk, OnOk};
ghost use Rattle.trace_model.specs.Attributes.{Rise, attrs, keys};
ghost use Rattle.trace_model.specs.EventTexts.{holds_double};
ghost use Rattle.trace_model.specs.ValueTexts as texts;
ghost use Rattle.span_tags.specs.TagWords.{Pairs};
ghost use Rattle.map_zipkin.specs.Writing as told;
ghost use Rattle.map_zipkin.specs.private.WritingSoFar.{rows_above, rows_below, tags_by};

use crate::keys::{Spans, is_told};
use span_io::{Items, OutOfMemory, Text};
use span_tags::{escaped, put_rows, text_told};
use std::alloc::Global;
use std::cmp::Ordering;
use trace_model::{Attrs, Value, attrs_of};

/// The tags of a span that has these rows, these in common with its scope, and these attributes, by
/// rising keys.
pub(crate) fn tags_of(
    alloc: Global,
    own: Attrs,
    shared: &[(Text, Value)],
    attributes: Attrs,
) -> Result<Items<(Text, Text)>, OutOfMemory>
    requires rising { Rise (keys shared.now) }
    requires attributes { holds_double attributes ≡ false }
    requires shared { holds_double shared.now ≡ false }
    requires own { holds_double own ≡ false }
    ensures { IfOk result (λ tags. tags ≡ tags_by own shared.now attributes) }
{
    let (attributes, _) = attrs_of(alloc, attributes)?;
    let written = escaped::<Spans>(alloc, attributes)?;
    if own.len() == 0 {
        return merged(alloc, shared, written);
    }
    let rows = rows_with(alloc, own, shared)?;
    merged(alloc, rows.as_slice(), written)
}

// ---- the rows of a span among those in common

// Copies of the rows in common, into which a span's own are put.
fn rows_with(
    alloc: Global,
    own: Attrs,
    shared: &[(Text, Value)],
) -> Result<Vec<(Text, Value)>, OutOfMemory>
    requires { Rise (keys shared.now) }
    ensures { IfOk result (λ rows. rows.items ≡ attrs (own ++ shared.now)) }
{
    let room = own.len().saturating_add(shared.len());
    let mut rows = Vec::with_capacity(alloc, room)?;
    add_copies(alloc, &mut rows, shared)?;
    put_rows(&mut rows, own.into_vec())?;
    Ok(rows)
}

fn add_copies(
    alloc: Global,
    pairs: &mut Vec<(Text, Value)>,
    rows: &[(Text, Value)],
) -> Result<(), OutOfMemory>
    ensures { OnOk result (pairs.new.items ≡ pairs.old.items ++ rows.now) }
{
    'rows: for row in rows {
        pairs.push((row.0.copy()?, row.1.copy(alloc)?))?;
    }
    Ok(())
}

// ---- tags of rows and attributes

// The tags of these rows and of attributes.
fn merged(
    alloc: Global,
    rows: &[(Text, Value)],
    attributes: Attrs,
) -> Result<Items<(Text, Text)>, OutOfMemory>
    requires rising { Rise (keys rows.now) }
    requires rows { holds_double rows.now ≡ false }
    requires in_order { Rise (keys attributes) }
    requires plain { holds_double attributes ≡ false }
    ensures { IfOk result (λ tags.
        tags ≡ map told.zipkin_tag_of (attrs (rows.now ++ told.told_pairs attributes))) }
{
    let room = rows.len().saturating_add(attributes.len());
    let mut tags = Items::with_room(alloc, room)?;
    let mut rows = rows;
    'attributes: for pair in attributes.into_vec() {
        rows = add_between(alloc, &mut tags, rows, pair)?;
    }
    add_tags(alloc, &mut tags, rows)?;
    Ok(tags)
}

// Adds the tags of the rows below an attribute, and then the attribute's, unless it has a place of
// its own. The rows above it are left.
fn add_between<'a>(
    alloc: Global,
    tags: &mut Items<(Text, Text)>,
    rows: &'a [(Text, Value)],
    pair: (Text, Value),
) -> Result<&'a [(Text, Value)], OutOfMemory>
    requires rows { holds_double rows.now ≡ false }
    requires plain { texts.has_double pair.1 ≡ false }
    ensures added { (more : Pairs) → Rise (keys rows.now)
        → Rise (keys (told.told_pairs (pair ∷ more)))
        → IfOk result (λ left.
        tags.new ++ map told.zipkin_tag_of (attrs (left.now ++ told.told_pairs more))
        ≡ tags.old ++ map told.zipkin_tag_of (attrs (rows.now ++ told.told_pairs (pair ∷ more)))) }
    ensures rising { Rise (keys rows.now) → IfOk result (λ left. Rise (keys left.now)) }
    ensures plain { IfOk result (λ left. holds_double left.now ≡ false) }
{
    if !is_told(pair.0.as_str()) {
        return Ok(rows);
    }
    let (below, above) = around(rows, pair.0.as_str());
    add_tags(alloc, tags, below)?;
    let (key, value) = pair;
    tags.push((key, text_of(alloc, value)?))?;
    Ok(above)
}

// The rows below a key, and those above it.
fn around<'a>(rows: &'a [(Text, Value)], key: &str) -> (&'a [(Text, Value)], &'a [(Text, Value)])
    ensures below { result.0.now ≡ rows_below key.now rows.now }
    ensures above { result.1.now ≡ rows_above key.now rows.now }
{
    'rows: for (i, row) in rows.iter().enumerate() {
        match row.0.as_str().cmp(key) {
            Ordering::Less => (),
            Ordering::Equal => return (&rows[..i], &rows[i + 1..]),
            Ordering::Greater => return (&rows[..i], &rows[i..]),
        }
    }
    (rows, &[])
}

fn add_tags(
    alloc: Global,
    tags: &mut Items<(Text, Text)>,
    rows: &[(Text, Value)],
) -> Result<(), OutOfMemory>
    requires { holds_double rows.now ≡ false }
    ensures { OnOk result (tags.new ≡ tags.old ++ map told.zipkin_tag_of rows.now) }
{
    'rows: for row in rows {
        tags.push((row.0.copy()?, text_told(alloc, &row.1)?))?;
    }
    Ok(())
}

// ---- values as texts

fn text_of(alloc: Global, value: Value) -> Result<Text, OutOfMemory>
    requires { texts.has_double value ≡ false }
    ensures { IfOk result (λ text. text ≡ texts.value_text value) }
{
    match value {
        Value::Text(text) => Ok(text),
        other => text_told(alloc, &other),
    }
}
