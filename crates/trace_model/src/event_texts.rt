//! The name and the attributes of an event as one text, for forms that have a text alone.
ghost use Rattle.std.specs.Prelude.{◌≡◌, ◌↔◌, ◌∷◌, ◌++◌, true, Err, IfOk};
ghost use Rattle.json.specs.Print.{quoted};
ghost use Rattle.span_io.specs.declared.halt.Halt.TheVariants as halts;
ghost use Rattle.trace_model.specs.EventTexts.{holds_double};
ghost use Rattle.trace_model.specs.EventTexts as told;
ghost use Rattle.trace_model.specs.ValueTexts.{json_text};
ghost use Rattle.trace_model.specs.declared.value.Value.TheVariants as values;

use crate::tokens::write_map;
use crate::value::{Attrs, holds_double_under};
use json::Writer;
use span_io::{Halt, OutOfMemory, Text};
use std::alloc::Global;

/// The text of an event: its name alone where it has no attributes, else the name as a JSON string,
/// a colon, and the attributes as a JSON object. `Why` where a double stands in the attributes.
pub fn event_text(alloc: Global, name: &Text, attributes: &Attrs) -> Result<Text, Halt<()>>
    ensures text { IfOk result (λ text. text ≡ told.event_text name.now attributes.now) }
    ensures double { (result ≡ Err (halts.Why tt)) ↔ (holds_double attributes.now ≡ true) }
{
    if holds_double_under(attributes.as_slice()) {
        return Err(Halt::Why(()));
    }
    Ok(joined(alloc, name, attributes)?)
}

fn joined(alloc: Global, name: &Text, attributes: &Attrs) -> Result<Text, OutOfMemory>
    ensures { IfOk result (λ text. text ≡ told.event_text name.now attributes.now) }
{
    if attributes.len() == 0 {
        return name.copy();
    }
    member_text(alloc, name, attributes)
}

/// The bytes for which room is made at first for each attribute of an event.
const EACH: usize = 48;

fn member_text(alloc: Global, name: &Text, attributes: &Attrs) -> Result<Text, OutOfMemory>
    ensures { IfOk result
        (λ text. text ≡ quoted name.now ++ 58 ∷ json_text (values.Map attributes.now)) }
{
    let room = name
        .len()
        .saturating_add(attributes.len().saturating_mul(EACH));
    let mut out = Writer::new(Vec::with_capacity(alloc, room)?);
    out.key(name.as_str())?;
    write_map(alloc, &mut out, attributes.as_slice())?;
    match String::from_utf8(out.into_inner()) {
        Ok(text) => Text::from_string(text),
        Err(_) => unreachable!(),
    }
}
