//! Tags as pairs with values.
ghost use Rattle.std.specs.Prelude.{◌≡◌, map, IfOk};
ghost use Rattle.map_zipkin.specs.Reading as meant;

use span_io::{Items, OutOfMemory, Text};
use std::alloc::Global;
use trace_model::{Attrs, Value};

/// The pairs that tags are.
pub(crate) fn pairs_of(alloc: Global, tags: Items<(Text, Text)>) -> Result<Attrs, OutOfMemory>
    ensures { IfOk result (λ pairs. pairs ≡ map meant.pair_of tags) }
{
    let mut pairs = Items::with_room(alloc, tags.len())?;
    'tags: for tag in tags.into_vec() {
        let (key, text) = tag;
        pairs.push((key, Value::Text(text)))?;
    }
    Ok(pairs)
}
