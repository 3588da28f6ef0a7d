//! The flags of a span: the first bit is its own, and an attribute of their own key tells the others.
ghost use Rattle.std.specs.Prelude.{◌≡◌, ◌%◌, option_map, unwrap_or, IfSome};
ghost use Rattle.map_jaeger.specs.ColumnWords as columns;
ghost use Rattle.map_jaeger.specs.Writing as told;

use span_tags::decimal_in;
use trace_model::{Span, Value, find};

// Flags but the first bit, where the value tells some.
pub(crate) fn flags_in(value: Option<&Value>) -> Option<u32>
    ensures flags { result ≡ columns.flags_in (option_map (λ value. value.now) value.entry) }
    ensures even { IfSome result (λ flags. flags % 2 ≡ 0) }
{
    let Some(Value::Text(text)) = value else {
        return None;
    };
    let flags = decimal_in(text.as_str())?;
    if flags % 2 != 0 || flags < 2 {
        return None;
    }
    Some(flags)
}

fn high_flags(value: Option<&Value>) -> u32
    ensures flags { result
        ≡ unwrap_or (columns.flags_in (option_map (λ value. value.now) value.entry)) 0 }
    ensures even { result % 2 ≡ 0 }
{
    match flags_in(value) {
        Some(flags) => flags,
        None => 0,
    }
}

pub(crate) fn flags_of(span: &Span) -> i32
    ensures { result ≡ told.flags_of span.now }
{
    let high = high_flags(find(&span.attributes, "jaeger.flags"));
    let flags = span.flags % 2 + high;
    flags.cast_signed()
}
