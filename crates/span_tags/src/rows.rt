//! Pairs of attributes, row by row.
ghost use Rattle.std.specs.Prelude.{◌≡◌, ◌++◌, Some, IfOk, OnOk};
ghost use Rattle.trace_model.specs.declared.value.Value.TheVariants as values;
ghost use Rattle.span_tags.specs.TagWords as told;

use span_io::{Items, OutOfMemory, Text};
use std::alloc::Global;
use trace_model::{Attrs, Code, Value};

/// Adds a pair of this key, if there is a value.
pub fn add_row(
    alloc: Global,
    pairs: &mut Attrs,
    key: &str,
    value: Option<Value>,
) -> Result<(), OutOfMemory>
    ensures { OnOk result (pairs.new ≡ pairs.old ++ told.row key.now value) }
{
    let Some(value) = value else {
        return Ok(());
    };
    pairs.push((Text::of(alloc, key)?, value))
}

/// The pairs of other keys than this one.
pub fn others(key: &str, tags: Attrs) -> Attrs
    ensures { result ≡ told.without key.now tags }
{
    let mut pairs = tags.into_vec();
    pairs.retain(|pair| key != pair.0.as_str());
    Items::from_vec(pairs)
}

/// A copy of a text, unless it is empty.
pub fn text_given(text: &Text) -> Result<Option<Value>, OutOfMemory>
    ensures { IfOk result (λ value. value ≡ told.text_given text.now) }
{
    if text.len() == 0 {
        return Ok(None);
    }
    Ok(Some(Value::Text(text.copy()?)))
}

/// The text itself, unless it is empty.
pub fn text_kept(text: Text) -> Option<Value>
    ensures { result ≡ told.text_given text }
{
    if text.len() == 0 {
        return None;
    }
    Some(Value::Text(text))
}

/// A word as a value.
pub fn word_given(alloc: Global, word: &str) -> Result<Option<Value>, OutOfMemory>
    ensures { IfOk result (λ value. value ≡ Some (values.Text word.now)) }
{
    Ok(Some(Value::Text(Text::of(alloc, word)?)))
}

/// `otel.status_code`, unless the code is unset.
pub fn code_given(alloc: Global, code: Code) -> Result<Option<Value>, OutOfMemory>
    ensures { IfOk result (λ value. value ≡ told.code_given code) }
{
    match code {
        Code::Unset => Ok(None),
        Code::Okay => word_given(alloc, "OK"),
        Code::Fail => word_given(alloc, "ERROR"),
    }
}
