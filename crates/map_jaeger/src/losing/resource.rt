//! The resource of a group.
ghost use Rattle.std.specs.Prelude.{◌≡◌, ◌++◌, Bool, false, option_map, IfOk, OnOk};
ghost use Rattle.trace_model.specs.Attributes.{at};
ghost use Rattle.trace_model.specs.declared.loss.LossRow.TheVariants as rows;
ghost use Rattle.trace_model.specs.declared.place.Place.TheVariants as places;
ghost use Rattle.span_tags.specs.Doubles.{double_at};
ghost use Rattle.span_tags.specs.Losses.{lost_keys};
ghost use Rattle.span_tags.specs.TagKeys.{service_key};
ghost use Rattle.map_jaeger.specs.Faults.{HasNoFault};
ghost use Rattle.map_jaeger.specs.Losses as told;

use crate::losing::attributes::is_told_as_text;
use span_io::{Items, OutOfMemory, Text};
use span_tags::{has_text, lose, lose_key, text_told};
use std::alloc::Global;
use trace_model::{Attrs, Group, Loss, LossRow, Place, Value, find};

/// Adds the losses of the resource of a group.
pub(crate) fn lose_resource(
    alloc: Global,
    losses: &mut Items<Loss>,
    group: &Group,
) -> Result<(), OutOfMemory>
    requires no_fault { HasNoFault group.now }
    ensures { OnOk result (losses.new ≡ losses.old ++ told.resource_losses group.now) }
{
    let key = "service.name";
    let goes = service_goes(alloc, find(&group.resource, key))?;
    lose_changes(alloc, losses, goes, &group.resource)?;
    let place = Place::Resource;
    let dropped = group.dropped != 0;
    lose(alloc, losses, place, LossRow::DroppedCount, dropped)?;
    let named = has_text(&group.schema_url);
    lose(alloc, losses, place, LossRow::SchemaUrl, named)?;
    lose_key(alloc, losses, place, LossRow::Empty, key, goes)
}

// Whether `service.name` has an empty text.
fn service_goes(alloc: Global, service: Option<&Value>) -> Result<bool, OutOfMemory>
    requires { double_at (option_map (λ value. value.now) service) ≡ false }
    ensures { IfOk result
        (λ goes. goes ≡ told.service_goes (option_map (λ value. value.now) service.entry)) }
{
    let Some(value) = service else {
        return Ok(false);
    };
    let text = text_told(alloc, value)?;
    Ok(!has_text(&text))
}

// Whether the attribute stays with another value, where `service.name` goes or doesn't.
fn changes(goes: bool, pair: &(Text, Value)) -> bool
    ensures { result ≡ told.changes goes pair.now }
{
    if pair.0.as_str() == "service.name" {
        return !goes && !matches!(pair.1, Value::Text(_));
    }
    is_told_as_text(&pair.1)
}

// Adds the attributes that stay with other values.
fn lose_changes(
    alloc: Global,
    losses: &mut Items<Loss>,
    goes: bool,
    resource: &Attrs,
) -> Result<(), OutOfMemory>
    ensures { OnOk result
        (losses.new
        ≡ losses.old ++ lost_keys places.Resource rows.Value (told.changes goes) resource.now) }
{
    let place = Place::Resource;
    'attributes: for pair in resource.as_slice() {
        let key = pair.0.as_str();
        lose_key(
            alloc,
            losses,
            place,
            LossRow::Value,
            key,
            changes(goes, pair),
        )?;
    }
    Ok(())
}
