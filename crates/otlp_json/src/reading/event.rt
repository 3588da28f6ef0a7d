//! `Span.Event` (OTLP trace.proto).
ghost use Rattle.std.specs.Prelude.{IfOk};
ghost use Rattle.json_nodes.specs.Lents.{lent_view as view};
ghost use Rattle.span_io.specs.Paths.{JudgesValue};
ghost use Rattle.otlp_json.specs.Span.{IsJsonEvent, event_members, event_offends};

use crate::reading::attributes::attributes_of;
use crate::reading::numbers::{count, time};
use json_members::{Table, bare_member, member, object, text};
use json_nodes::Lent;
use span_io::{Cause, Halt, Items, Text};
use std::alloc::Global;
use trace_model::{Event, Noted};

// The members of an event.
struct EventTable;

impl Table for EventTable {
    ghost parts = { event_members };
}

#[tactic(auto, using(json_members::proofs::PartLaws::reading), unfolding(crate::specs::Span::event_members))]
pub fn read_event(alloc: Global, v: &Lent<'_, '_>) -> Result<Noted<Event, Items<Text>>, Halt<Cause>>
    ensures value { IfOk result (λ e. IsJsonEvent e (view v.now)) }
    ensures judged { JudgesValue result (event_offends (view v.now)) }
{
    object::<EventTable>(v)?;
    let time = bare_member::<EventTable, _>(v, 0, time(v, "timeUnixNano"))?;
    let name = member::<EventTable, _>(v, 1, text(alloc, v, "name"))?;
    let (attributes, notes) = member::<EventTable, _>(v, 2, attributes_of(alloc, v, "attributes"))?;
    let dropped = bare_member::<EventTable, _>(v, 3, count(v, "droppedAttributesCount"))?;
    let means = Event {
        time,
        name,
        attributes,
        dropped,
    };
    Ok(Noted { means, notes })
}
