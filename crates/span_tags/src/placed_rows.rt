//! Pairs in their places among attributes.
ghost use Rattle.std.specs.Prelude.{◌≡◌, ◌∷◌, ◌++◌, ℕ, List, OnOk};
ghost use Rattle.trace_model.specs.Attributes.{attrs};
ghost use Rattle.span_tags.specs.private.Places.{IsPlaceOf};
ghost use Rattle.span_tags.specs.TagWords as told;

use span_io::{OutOfMemory, Text};
use std::alloc::Global;
use std::cmp::Ordering;
use trace_model::Value;

// Where a pair of this key is put in among rising ones. None where one has the key.
fn place_of(pairs: &[(Text, Value)], key: &str) -> Option<usize>
    ensures { IsPlaceOf key.now pairs.now result }
{
    'pairs: for (i, pair) in pairs.iter().enumerate() {
        match key.cmp(pair.0.as_str()) {
            Ordering::Less => return Some(i),
            Ordering::Equal => return None,
            Ordering::Greater => (),
        }
    }
    Some(pairs.len())
}

// Puts a pair in its place among attributes. One that has its key already stays.
fn put_pair(pairs: &mut Vec<(Text, Value)>, key: Text, value: Value) -> Result<(), OutOfMemory>
    ensures { (rest : List (List ℕ × Value)) → pairs.old.items ≡ attrs rest
        → OnOk result (pairs.new.items ≡ attrs ((key, value) ∷ rest)) }
{
    let Some(place) = place_of(pairs, key.as_str()) else {
        return Ok(());
    };
    match pairs.insert(place, (key, value)) {
        Ok(()) => Ok(()),
        Err(_) => Err(OutOfMemory),
    }
}

/// Puts a pair of this key in its place among attributes, if there is a value. One that has the key
/// already stays.
pub fn put_row(
    alloc: Global,
    pairs: &mut Vec<(Text, Value)>,
    key: &str,
    value: Option<Value>,
) -> Result<(), OutOfMemory>
    ensures { (rest : List (List ℕ × Value)) → pairs.old.items ≡ attrs rest
        → OnOk result (pairs.new.items ≡ attrs (told.row key.now value ++ rest)) }
{
    let Some(value) = value else {
        return Ok(());
    };
    put_pair(pairs, Text::of(alloc, key)?, value)
}

/// Puts a few pairs in their places among attributes, the last first. Each is looked for from the
/// front, and moves those behind its place.
pub fn put_rows(pairs: &mut Vec<(Text, Value)>, rows: Vec<(Text, Value)>) -> Result<(), OutOfMemory>
    ensures { (rest : List (List ℕ × Value)) → pairs.old.items ≡ attrs rest
        → OnOk result (pairs.new.items ≡ attrs (rows.items ++ rest)) }
{
    let mut rows = rows;
    'rows: while let Some((key, value)) = rows.pop() {
        put_pair(pairs, key, value)?;
    }
    Ok(())
}
