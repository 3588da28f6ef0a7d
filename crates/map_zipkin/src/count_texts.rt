//! Counts as texts.
ghost use Rattle.std.specs.Prelude.{◌≡◌, decimal, IfOk};
ghost use Rattle.map_zipkin.specs.TagColumns as columns;

use span_io::{OutOfMemory, Text};
use std::alloc::Global;
use trace_model::Value;

fn decimal_text(alloc: Global, number: u32) -> Result<Text, OutOfMemory>
    ensures { IfOk result (λ text. text ≡ decimal number) }
{
    let mut buffer = itoa::Buffer::new();
    Text::of(alloc, buffer.format(number))
}

/// A count, unless it is 0.
pub(crate) fn count_text(alloc: Global, count: u32) -> Result<Option<Value>, OutOfMemory>
    ensures { IfOk result (λ value. value ≡ columns.count_text count) }
{
    if count == 0 {
        return Ok(None);
    }
    Ok(Some(Value::Text(decimal_text(alloc, count)?)))
}
