//! What the values of tags say.
ghost use Rattle.std.specs.Prelude.{◌≡◌, [], option_map, unwrap_or, false, IfOk};
ghost use Rattle.trace_model.specs.ValueTexts as texts;
ghost use Rattle.trace_model.specs.declared.value.Value.TheVariants as values;
ghost use Rattle.span_tags.specs.Doubles.{double_at};
ghost use Rattle.span_tags.specs.TagWords as told;

use crate::decimal_texts::decimal_in;
use span_io::{Halt, OutOfMemory, Text};
use std::alloc::Global;
use trace_model::{Code, Value, value_text};

/// The text that a value is.
pub fn text_in<'a>(value: Option<&'a Value>) -> Option<&'a str>
    ensures { option_map (λ text. text.now) result
        ≡ told.text_in (option_map (λ v. v.now) value.entry) }
{
    let value = value?;
    text_of(value)
}

fn text_of(value: &Value) -> Option<&str>
    ensures { option_map (λ text. text.now) result ≡ told.text_in (Some value.now) }
{
    match value {
        Value::Text(text) => Some(text.as_str()),
        _ => None,
    }
}

/// The text that a value is, else an empty one.
pub fn text_or_empty(alloc: Global, value: Option<&Value>) -> Result<Text, OutOfMemory>
    ensures { IfOk result
        (λ text. text ≡ unwrap_or (told.text_in (option_map (λ v. v.now) value.entry)) []) }
{
    match text_in(value) {
        Some(text) => Text::of(alloc, text),
        None => Ok(Text::new(alloc)),
    }
}

/// A name or version, by the newer key and the older.
pub fn name_in(
    alloc: Global,
    newer: Option<&Value>,
    older: Option<&Value>,
) -> Result<Text, OutOfMemory>
    ensures { IfOk result (λ text.
        text ≡ told.name_in (option_map (λ v. v.now) newer.entry)
        (option_map (λ v. v.now) older.entry)) }
{
    match text_in(newer) {
        Some(text) => Text::of(alloc, text),
        None => text_or_empty(alloc, older),
    }
}

/// `otel.status_code`.
pub fn code_in(value: Option<&Value>) -> Option<Code>
    ensures { result ≡ told.code_in (option_map (λ v. v.now) value.entry) }
{
    let text = text_in(value)?;
    code_named(text)
}

fn code_named(text: &str) -> Option<Code>
    ensures { result ≡ told.code_named text.now }
{
    if text == "OK" {
        return Some(Code::Okay);
    }
    if text == "ERROR" {
        return Some(Code::Fail);
    }
    None
}

/// A count of 32 bits.
pub fn count_in(value: Option<&Value>) -> Option<u32>
    ensures { result ≡ told.count_in (option_map (λ v. v.now) value.entry) }
{
    let value = value?;
    count_of(value)
}

fn count_of(value: &Value) -> Option<u32>
    ensures { result ≡ told.count_in (Some value.now) }
{
    match value {
        Value::Number(number) => number_of(*number),
        Value::Text(text) => decimal_in(text.as_str()),
        _ => None,
    }
}

fn number_of(number: i64) -> Option<u32>
    ensures { result ≡ told.count_in (Some (values.Number number)) }
{
    let Ok(count) = u32::try_from(number) else {
        return None;
    };
    Some(count)
}

// ---- values as texts

/// The text of a value in which no double stands.
pub fn text_told(alloc: Global, value: &Value) -> Result<Text, OutOfMemory>
    requires { texts.has_double value.now ≡ false }
    ensures { IfOk result (λ text. text ≡ texts.value_text value.now) }
{
    match value_text(alloc, value) {
        Ok(text) => Ok(text),
        Err(Halt::OutOfMemory) => Err(OutOfMemory),
        Err(Halt::Why(())) => unreachable!(),
    }
}

/// The text of a value, or no text where it is absent.
pub fn text_or_none(alloc: Global, value: Option<&Value>) -> Result<Text, OutOfMemory>
    requires { double_at (option_map (λ value. value.now) value) ≡ false }
    ensures { IfOk result
        (λ text. text ≡ told.text_or_none (option_map (λ value. value.now) value.entry)) }
{
    match value {
        Some(value) => text_told(alloc, value),
        None => Ok(Text::new(alloc)),
    }
}
