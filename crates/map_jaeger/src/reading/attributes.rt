//! The attributes that tags leave, and the flags among them.
ghost use Rattle.std.specs.Prelude.{◌≡◌, ◌++◌, IfOk};
ghost use Rattle.trace_model.specs.Attributes.{Rise, attrs, keys};
ghost use Rattle.span_tags.specs.Escapes as escapes;
ghost use Rattle.span_tags.specs.TagWords as told;
ghost use Rattle.map_jaeger.specs.Columns.{is_reserved};
ghost use Rattle.map_jaeger.specs.Keys.{flags_key};
ghost use Rattle.map_jaeger.specs.Reading as meant;
ghost use Rattle.map_jaeger.specs.private.ReadColumns.{ArePartsOf};

use crate::columns::{Spans, is_free};
use crate::writing::attributes_but;
use jaeger_model::JSpan;
use span_io::{Items, LONGEST, OutOfMemory, Text};
use span_tags::{put_row, text_kept, unescaped};
use std::alloc::Global;
use trace_model::{Attrs, Value};

/// The attributes of a span, of whose tags these are free.
pub(crate) fn span_attributes(
    alloc: Global,
    span: &JSpan,
    free: Attrs,
) -> Result<Attrs, OutOfMemory>
    requires { Rise (keys free) }
    ensures { IfOk result (λ attributes.
        attributes
        ≡ attrs
        (told.row flags_key (meant.high_flags_of span.now.flags)
        ++ escapes.unescaped is_reserved free)) }
{
    let attributes = unescaped::<Spans>(alloc, free)?;
    let high = high_flags_of(alloc, span.flags)?;
    with_row(alloc, "jaeger.flags", high, attributes)
}

/// The attributes of a process of this service that has these tags.
#[tactic(auto, using(crate::proofs::GroupResource::without_rise))]
pub(crate) fn process_attributes(
    alloc: Global,
    service: Text,
    tags: Attrs,
) -> Result<Attrs, OutOfMemory>
    requires { Rise (keys tags) }
    ensures { IfOk result (λ attributes. attributes ≡ meant.process_attributes service tags) }
{
    let others = attributes_but("service.name", tags);
    with_row(alloc, "service.name", text_kept(service), others)
}

// Attributes, and the pair of this key in its place among them, if there is a value.
#[tactic(auto, using(crate::proofs::ReadParts::no_row))]
fn with_row(
    alloc: Global,
    key: &str,
    value: Option<Value>,
    attributes: Attrs,
) -> Result<Attrs, OutOfMemory>
    requires { Rise (keys attributes) }
    ensures { IfOk result (λ more. more ≡ attrs (told.row key.now value ++ attributes)) }
{
    if value.is_none() {
        return Ok(attributes);
    }
    let mut pairs = attributes.into_vec();
    put_row(alloc, &mut pairs, key, value)?;
    if pairs.len() > LONGEST {
        return Err(OutOfMemory);
    }
    Ok(Items::from_vec(pairs))
}

/// Tags of a span, by their keys.
#[derive(Drop)]
pub(crate) struct Parted {
    /// Those of the table.
    pub own: Attrs,
    pub free: Attrs,
}

/// Parts the tags of a span. Those of the table are taken out of their list, at most thirteen.
pub(crate) fn part_tags(alloc: Global, tags: Attrs) -> Result<Parted, OutOfMemory>
    ensures { IfOk result (λ parts. ArePartsOf tags parts) }
{
    let mut own = Items::new(alloc);
    let mut left = tags.into_vec();
    let mut i = 0;
    'tags: while i < left.len() {
        if is_free(left[i].0.as_str()) {
            i += 1;
        } else {
            own.push(left.remove(i))?;
        }
    }
    let free = Items::from_vec(left);
    Ok(Parted { own, free })
}

// The flags but the first bit, where there are any.
fn high_flags_of(alloc: Global, flags: i32) -> Result<Option<Value>, OutOfMemory>
    ensures { IfOk result (λ value. value ≡ meant.high_flags_of flags) }
{
    let bits = flags.cast_unsigned();
    high_flags(alloc, bits - bits % 2)
}

fn high_flags(alloc: Global, high: u32) -> Result<Option<Value>, OutOfMemory>
    ensures { IfOk result (λ value. value ≡ meant.high_flags high) }
{
    if high == 0 {
        return Ok(None);
    }
    let mut buffer = itoa::Buffer::new();
    let text = Text::of(alloc, buffer.format(high))?;
    Ok(Some(Value::Text(text)))
}
