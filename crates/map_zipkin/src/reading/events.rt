//! Annotations as events.
ghost use Rattle.std.specs.Prelude.{◌≡◌, map, IfOk};
ghost use Rattle.trace_model.specs.EventReading.{event_text_read};
ghost use Rattle.map_zipkin.specs.Reading as meant;

use span_ids::Nanos;
use span_io::{Items, OutOfMemory, Text};
use std::alloc::Global;
use trace_model::{Attrs, Event, EventReader};

// The name and the attributes of the event that the text is.
fn event_in(
    alloc: Global,
    reader: &mut EventReader,
    text: &Text,
) -> Result<Option<(Text, Attrs)>, OutOfMemory>
    ensures { IfOk result (λ read. read ≡ event_text_read text.now) }
{
    trace_model::laws::event_texts_exact();
    let read = reader.read(alloc, text)?;
    Ok(read)
}

// An event text is that event, another text the name of one.
fn event_of(
    alloc: Global,
    reader: &mut EventReader,
    annotation: (Nanos, Text),
) -> Result<Event, OutOfMemory>
    ensures { IfOk result (λ event. event ≡ meant.zipkin_event_of annotation) }
{
    let (time, text) = annotation;
    match event_in(alloc, reader, &text)? {
        None => Ok(Event {
            time,
            name: text,
            attributes: Items::new(alloc),
            dropped: 0,
        }),
        Some((name, attributes)) => Ok(Event {
            time,
            name,
            attributes,
            dropped: 0,
        }),
    }
}

/// The events of annotations.
pub(crate) fn events_of(
    alloc: Global,
    reader: &mut EventReader,
    annotations: Items<(Nanos, Text)>,
) -> Result<Items<Event>, OutOfMemory>
    ensures { IfOk result (λ events. events ≡ map meant.zipkin_event_of annotations) }
{
    let mut events = Items::with_room(alloc, annotations.len())?;
    'annotations: for annotation in annotations.into_vec() {
        events.push(event_of(alloc, reader, annotation)?)?;
    }
    Ok(events)
}
