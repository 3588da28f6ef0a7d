//! Attributes.
ghost use Rattle.std.specs.Prelude.{IfOk};
ghost use Rattle.json_nodes.specs.Lents.{lent_view as view};
ghost use Rattle.span_io.specs.Paths.{optional, JudgesValue};
ghost use Rattle.trace_model.specs.OtlpParts.{AreNotedAttributes};
ghost use Rattle.json_members.specs.Members.{member};
ghost use Rattle.otlp_json.specs.Attributes.{AreJsonAttributes, pairs_offend};

use crate::reading::values::{NotedPairs, note_keys, pairs_of};
use json_nodes::Lent;
use span_io::{Cause, Halt, Items, OutOfMemory, Text};
use std::alloc::Global;
use trace_model::{Attrs, MOST_LEVELS, attrs_of, keys_in_order};

// Attributes that may be absent, which are none then, and the keys of which there is a remark.
pub fn attributes_of(
    alloc: Global,
    v: &Lent<'_, '_>,
    name: &str,
) -> Result<(Attrs, Items<Text>), Halt<Cause>>
    ensures value { IfOk result (λ r. AreJsonAttributes r.0 r.1 (member name.now (view v.now))) }
    ensures judged { JudgesValue result (optional pairs_offend (member name.now (view v.now))) }
{
    let rows = pairs_of(alloc, MOST_LEVELS, v, name)?;
    let read = finish(alloc, rows)?;
    Ok(read)
}

// The attributes of pairs, and the keys of which there is a remark, each once.
fn finish(alloc: Global, rows: NotedPairs) -> Result<(Attrs, Items<Text>), OutOfMemory>
    ensures { IfOk result (λ r. AreNotedAttributes rows.means rows.notes r.0 r.1) }
{
    let (attributes, repeated) = attrs_of(alloc, rows.means)?;
    let mut noted = rows.notes;
    note_keys(&mut noted, repeated)?;
    let keys = keys_in_order(noted)?;
    Ok((attributes, keys))
}
