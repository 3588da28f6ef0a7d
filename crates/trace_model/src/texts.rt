//! Values as texts.
ghost use Rattle.std.specs.Prelude.{◌≡◌, ◌==◌, ◌↔◌, length, true, Err, IfOk};
ghost use Rattle.std.specs.Fmt.{signed_decimal};
ghost use Rattle.base64.specs.GeneralPurpose.{encode_of};
ghost use Rattle.base64.specs.Engines.{standard};
ghost use Rattle.span_io.specs.declared.halt.Halt.TheVariants as halts;
ghost use Rattle.trace_model.specs.ValueTexts.{has_double, truth_text};
ghost use Rattle.trace_model.specs.ValueTexts as told;

use crate::tokens::json_of_value;
use crate::value::Value;
use base64::engine::general_purpose::STANDARD;
use span_io::{Halt, OutOfMemory, Text};
use std::alloc::Global;

/// The text of a value, or `Why` where a double stands in it.
pub fn value_text(alloc: Global, value: &Value) -> Result<Text, Halt<()>>
    ensures text { IfOk result (λ text. text ≡ told.value_text value.now) }
    ensures double { (result ≡ Err (halts.Why tt)) ↔ (has_double value.now ≡ true) }
{
    if value.holds_double() {
        return Err(Halt::Why(()));
    }
    Ok(text_of(alloc, value)?)
}

/// Whether the text of a value is empty. That of a double is.
pub fn has_no_text(value: &Value) -> bool
    ensures { result ≡ (length (told.value_text value.now) == 0) }
{
    match value {
        Value::Text(text) => text.len() == 0,
        Value::Bytes(bytes) => bytes.len() == 0,
        Value::Truth(_) => false,
        Value::Number(_number) => false,
        Value::List(_members) => false,
        Value::Map(_pairs) => false,
        Value::Eight(_) | Value::Nothing => true,
    }
}

fn text_of(alloc: Global, value: &Value) -> Result<Text, OutOfMemory>
    ensures { IfOk result (λ text. text ≡ told.value_text value.now) }
{
    match value {
        Value::Text(text) => text.copy(),
        Value::Truth(truth) => truth_text(alloc, *truth),
        Value::Number(number) => number_text(alloc, number),
        Value::Bytes(bytes) => bytes_text(alloc, bytes.as_slice()),
        Value::List(_) | Value::Map(_) => json_of_value(alloc, value),
        Value::Eight(_) | Value::Nothing => Ok(Text::new(alloc)),
    }
}

fn truth_text(alloc: Global, truth: bool) -> Result<Text, OutOfMemory>
    ensures { IfOk result (λ text. text ≡ truth_text truth) }
{
    let word = if truth { "true" } else { "false" };
    Text::of(alloc, word)
}

fn number_text(alloc: Global, number: &i64) -> Result<Text, OutOfMemory>
    ensures { IfOk result (λ text. text ≡ signed_decimal number.now) }
{
    let mut buffer = itoa::Buffer::new();
    Text::of(alloc, buffer.format(*number))
}

fn bytes_text(alloc: Global, bytes: &[u8]) -> Result<Text, OutOfMemory>
    ensures { IfOk result (λ text. text ≡ encode_of standard bytes.now) }
{
    Text::from_string(STANDARD.encode(alloc, bytes)?)
}
