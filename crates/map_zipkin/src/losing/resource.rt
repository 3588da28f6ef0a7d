//! The resource of a group.
ghost use Rattle.std.specs.Prelude.{◌≡◌, ◌++◌, OnOk};
ghost use Rattle.map_zipkin.specs.Losses as told;

use crate::losing::attributes::{lose_empty, lose_values};
use span_io::{Items, OutOfMemory};
use span_tags::{has_text, lose};
use std::alloc::Global;
use trace_model::{Group, Loss, LossRow, Place};

/// Adds the losses of the resource of a group.
pub(crate) fn lose_resource(
    alloc: Global,
    losses: &mut Items<Loss>,
    group: &Group,
) -> Result<(), OutOfMemory>
    ensures { OnOk result (losses.new ≡ losses.old ++ told.resource_losses group.now) }
{
    let place = Place::Resource;
    lose_values(alloc, losses, place, "service.name", &group.resource)?;
    let dropped = group.dropped != 0;
    lose(alloc, losses, place, LossRow::DroppedCount, dropped)?;
    let named = has_text(&group.schema_url);
    lose(alloc, losses, place, LossRow::SchemaUrl, named)?;
    lose_empty(alloc, losses, place, "service.name", &group.resource)
}
