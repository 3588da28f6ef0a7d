//! Attributes that go, or whose values become texts.
ghost use Rattle.std.specs.Prelude.{◌≡◌, ◌++◌, OnOk};
ghost use Rattle.trace_model.specs.declared.loss.LossRow.TheVariants as rows;
ghost use Rattle.span_tags.specs.Losses.{lost_keys};
ghost use Rattle.map_zipkin.specs.Losses as told;

use span_io::{Items, OutOfMemory, Text};
use span_tags::lose_key;
use std::alloc::Global;
use trace_model::{Attrs, Loss, LossRow, Place, Value, has_no_text};

/// Whether it is the attribute of the one key, and goes.
pub(crate) fn goes(one: &str, pair: &(Text, Value)) -> bool
    ensures { result ≡ told.goes one.now pair.now }
{
    one == pair.0.as_str() && has_no_text(&pair.1)
}

// Whether the attribute stays, with a text in the place of its value.
fn changes(one: &str, pair: &(Text, Value)) -> bool
    ensures { result ≡ told.changes one.now pair.now }
{
    !goes(one, pair) && !matches!(pair.1, Value::Text(_))
}

/// Adds the attributes that stay with other values; that of the one key may go.
pub(crate) fn lose_values(
    alloc: Global,
    losses: &mut Items<Loss>,
    place: Place,
    one: &str,
    attributes: &Attrs,
) -> Result<(), OutOfMemory>
    ensures { OnOk result
        (losses.new
        ≡ losses.old ++ lost_keys place rows.Value (told.changes one.now) attributes.now) }
{
    'attributes: for pair in attributes.as_slice() {
        let key = pair.0.as_str();
        let other = changes(one, pair);
        lose_key(alloc, losses, place, LossRow::Value, key, other)?;
    }
    Ok(())
}

/// Adds the attribute of the one key, if it goes.
pub(crate) fn lose_empty(
    alloc: Global,
    losses: &mut Items<Loss>,
    place: Place,
    one: &str,
    attributes: &Attrs,
) -> Result<(), OutOfMemory>
    ensures { OnOk result
        (losses.new ≡ losses.old ++ lost_keys place rows.Empty (told.goes one.now) attributes.now) }
{
    'attributes: for pair in attributes.as_slice() {
        let key = pair.0.as_str();
        lose_key(alloc, losses, place, LossRow::Empty, key, goes(one, pair))?;
    }
    Ok(())
}

/// Adds the attributes in which bytes become texts.
pub(crate) fn lose_bytes(
    alloc: Global,
    losses: &mut Items<Loss>,
    place: Place,
    attributes: &Attrs,
) -> Result<(), OutOfMemory>
    ensures { OnOk result
        (losses.new ≡ losses.old ++ lost_keys place rows.Value told.bytes_change attributes.now) }
{
    'attributes: for pair in attributes.as_slice() {
        let key = pair.0.as_str();
        let other = pair.1.holds_bytes();
        lose_key(alloc, losses, place, LossRow::Value, key, other)?;
    }
    Ok(())
}
