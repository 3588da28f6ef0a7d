//! Events, each with its number in its span.
ghost use Rattle.std.specs.Prelude.{◌≡◌, ◌++◌, OnOk};
ghost use Rattle.span_tags.specs.Losses.{losses_of};
ghost use Rattle.map_jaeger.specs.Losses as told;

use crate::losing::attributes::lose_values;
use span_io::{Items, OutOfMemory};
use span_tags::lose;
use std::alloc::Global;
use trace_model::{Event, Loss, LossRow, Place};

/// Adds the losses of the events of the span of this number.
pub(crate) fn lose_events(
    alloc: Global,
    losses: &mut Items<Loss>,
    span: u32,
    events: &Items<Event>,
) -> Result<(), OutOfMemory>
    ensures { OnOk result
        (losses.new ≡ losses.old ++ losses_of (told.event_losses span) 1 events.now) }
{
    // The length of a list fits 32 bits.
    'events: for i in 0..events.len() {
        let event = &events.as_slice()[i];
        lose_event(alloc, losses, span, i as u32 + 1, event)?;
    }
    Ok(())
}

fn lose_event(
    alloc: Global,
    losses: &mut Items<Loss>,
    span: u32,
    number: u32,
    event: &Event,
) -> Result<(), OutOfMemory>
    ensures { OnOk result (losses.new ≡ losses.old ++ told.event_losses span number event.now) }
{
    let place = Place::Event(span, number);
    lose_values(alloc, losses, place, &event.attributes)?;
    let dropped = event.dropped != 0;
    lose(alloc, losses, place, LossRow::DroppedCount, dropped)?;
    let between = event.time.0 != event.time.floor().0;
    lose(alloc, losses, place, LossRow::Time, between)
}
