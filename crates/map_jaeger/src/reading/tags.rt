//! Tags as attributes.
ghost use Rattle.std.specs.Prelude.{◌≡◌, map, IfOk};
ghost use Rattle.trace_model.specs.Attributes.{AreRepeated};
ghost use Rattle.map_jaeger.specs.TagValues as told;
ghost use Rattle.map_jaeger.specs.Reading as meant;

use jaeger_model::{Tag, TagValue};
use span_io::{Items, OutOfMemory, Text};
use std::alloc::Global;
use trace_model::{Attrs, Value, attrs_of};

/// The attributes of tags, and the keys that stand more than once among them.
pub(crate) fn attributes_of(
    alloc: Global,
    tags: Items<Tag>,
) -> Result<(Attrs, Items<Text>), OutOfMemory>
    ensures value { IfOk result (λ parts. parts.0 ≡ meant.attributes_of tags) }
    ensures repeated { IfOk result (λ parts. AreRepeated parts.1 (map told.attribute_of tags)) }
{
    let pairs = pairs_of(alloc, tags)?;
    attrs_of(alloc, pairs)
}

// The pairs of keys and values that tags are.
fn pairs_of(alloc: Global, tags: Items<Tag>) -> Result<Attrs, OutOfMemory>
    ensures { IfOk result (λ pairs. pairs ≡ map told.attribute_of tags) }
{
    let mut pairs = Vec::with_capacity(alloc, tags.len())?;
    'tags: for tag in tags.into_vec() {
        pairs.push((tag.key, value_of(tag.value)))?;
    }
    Ok(Items::from_vec(pairs))
}

fn value_of(value: TagValue) -> Value
    ensures { result ≡ told.value_of value }
{
    match value {
        TagValue::Text(text) => Value::Text(text),
        TagValue::Eight(double) => Value::Eight(double),
        TagValue::Truth(truth) => Value::Truth(truth),
        TagValue::Number(number) => Value::Number(number),
        TagValue::Bytes(bytes) => Value::Bytes(bytes),
    }
}
