//! Attributes whose values become texts.
ghost use Rattle.std.specs.Prelude.{◌≡◌, ◌++◌, OnOk};
ghost use Rattle.trace_model.specs.declared.loss.LossRow.TheVariants as rows;
ghost use Rattle.span_tags.specs.Losses.{lost_keys};
ghost use Rattle.map_jaeger.specs.Losses as told;

use span_io::{Items, OutOfMemory};
use span_tags::lose_key;
use std::alloc::Global;
use trace_model::{Attrs, Loss, LossRow, Place, Value};

/// Whether the value becomes a text.
pub(crate) fn is_told_as_text(value: &Value) -> bool
    ensures { result ≡ told.is_told_as_text value.now }
{
    matches!(value, Value::List(_) | Value::Map(_) | Value::Nothing)
}

/// Adds the attributes whose values become texts.
pub(crate) fn lose_values(
    alloc: Global,
    losses: &mut Items<Loss>,
    place: Place,
    attributes: &Attrs,
) -> Result<(), OutOfMemory>
    ensures { OnOk result
        (losses.new ≡ losses.old ++ lost_keys place rows.Value told.becomes_text attributes.now) }
{
    'attributes: for pair in attributes.as_slice() {
        let key = pair.0.as_str();
        let changes = is_told_as_text(&pair.1);
        lose_key(alloc, losses, place, LossRow::Value, key, changes)?;
    }
    Ok(())
}
