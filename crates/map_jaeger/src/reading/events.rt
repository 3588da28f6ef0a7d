//! Logs as events.
ghost use Rattle.std.specs.Prelude.{◌≡◌, [], ◌∷◌, ◌++◌, map, IfOk, OnOk};
ghost use Rattle.jaeger_model.specs.Counted.{IsCounted};
ghost use Rattle.trace_model.specs.Attributes.{Rise, keys};
ghost use Rattle.span_tags.specs.Escapes as escapes;
ghost use Rattle.span_tags.specs.TagWords.{without};
ghost use Rattle.map_jaeger.specs.Keys.{event_key, is_event_reserved};
ghost use Rattle.map_jaeger.specs.private.Noted.{AddsNoted, AreNumbered};
ghost use Rattle.map_jaeger.specs.Reading as meant;
ghost use Rattle.map_jaeger.specs.Remarks.{RepeatsOf, is_idle_event, log_remarks};

use crate::columns::Events;
use crate::reading::tags::attributes_of;
use jaeger_model::Log;
use span_io::{Items, OutOfMemory, Text};
use span_tags::{is_idle_text, others, remark_if, text_or_empty, unescaped};
use std::alloc::Global;
use trace_model::{Attrs, Event, Noted, Place, Remark, find, remark_keys};

// Adds the event of the log of this number, of the span of that number, and the remarks on it.
fn add_event(
    alloc: Global,
    read: &mut Noted<Items<Event>, Items<Remark>>,
    span: u32,
    number: u32,
    log: Log,
) -> Result<(), OutOfMemory>
    ensures event { OnOk result (read.new.means ≡ read.old.means ++ meant.event_of log ∷ []) }
    ensures remarks { OnOk result
        (AddsNoted RepeatsOf (log_remarks span) number log read.old.notes read.new.notes) }
{
    let one = event_of(alloc, log)?;
    let place = Place::Event(span, number);
    remark_keys(&mut read.notes, place, one.keys)?;
    remark_if(alloc, &mut read.notes, place, "event", one.idle)?;
    read.means.push(one.event)
}

/// The events of the logs of the span of this number, and the remarks on them.
pub(crate) fn events_of(
    alloc: Global,
    span: u32,
    logs: Items<Log>,
) -> Result<Noted<Items<Event>, Items<Remark>>, OutOfMemory>
    requires counted { IsCounted logs }
    ensures events { IfOk result (λ read. read.means ≡ map meant.event_of logs) }
    ensures remarks { IfOk result
        (λ read. AreNumbered RepeatsOf (log_remarks span) 1 logs read.notes) }
{
    let means = Items::with_room(alloc, logs.len())?;
    let notes = Items::new(alloc);
    let mut read = Noted { means, notes };
    let mut number: u32 = 0;
    'logs: for log in logs.into_vec() {
        number += 1;
        add_event(alloc, &mut read, span, number, log)?;
    }
    Ok(read)
}

// An event, the keys that stand more than once in its log, and whether `event` says nothing there.
#[derive(Drop)]
struct ReadEvent {
    event: Event,
    keys: Items<Text>,
    idle: bool,
}

// The attributes of an event that the fields of its log are.
#[tactic(auto, using(crate::proofs::GroupResource::without_rise))]
fn event_attributes(alloc: Global, fields: Attrs) -> Result<Attrs, OutOfMemory>
    requires { Rise (keys fields) }
    ensures { IfOk result
        (λ attributes. attributes
        ≡ escapes.unescaped is_event_reserved (without event_key fields)) }
{
    unescaped::<Events>(alloc, others("event", fields))
}

fn event_of(alloc: Global, log: Log) -> Result<ReadEvent, OutOfMemory>
    ensures event { IfOk result (λ read. read.event ≡ meant.event_of log) }
    ensures repeated { IfOk result (λ read. RepeatsOf log read.keys) }
    ensures idle { IfOk result (λ read. read.idle ≡ is_idle_event log) }
{
    let (tags, keys) = attributes_of(alloc, log.fields)?;
    let name = text_or_empty(alloc, find(&tags, "event"))?;
    let idle = is_idle_text(&tags, "event");
    let event = Event {
        time: log.time,
        name,
        attributes: event_attributes(alloc, tags)?,
        dropped: 0,
    };
    Ok(ReadEvent { event, keys, idle })
}
