//! The events of a span.
ghost use Rattle.std.specs.Prelude.{◌+◌, length};
ghost use Rattle.trace_model.specs.declared.noted.Noted.{Noted};
ghost use Rattle.trace_model.specs.Remarks.{Keys};
ghost use Rattle.trace_model.specs.declared.span.Event.{Event};
ghost use Rattle.otlp_json.specs.private.Found.{EventsTold};
ghost use Rattle.otlp_json.specs.Span.{IsJsonEvent, event_offends};

use crate::reading::event::read_event;
use crate::reading::lists::Rows;
use json_nodes::Lent;
use span_io::{Cause, Halt, Items, OutOfMemory};
use std::alloc::Global;
use trace_model::{Event, Noted, Place, Remark, remark_keys};

/// The events that were read, and the remarks on them.
pub type FoundEvents = Noted<Items<Event>, Items<Remark>>;

// In the span of this number.
impl Rows for FoundEvents {
    ghost Found = { Noted Event Keys };

    ghost means = { IsJsonEvent };

    ghost offends = { event_offends };

    ghost told = { EventsTold };

    ghost first = { λ span. 1 };

    ghost next = { λ span rows. 1 + length rows.means };

    fn with_room(alloc: Global, room: usize) -> Result<FoundEvents, OutOfMemory> {
        Ok(Noted {
            means: Items::with_room(alloc, room)?,
            notes: Items::new(alloc),
        })
    }

    fn add(&mut self, alloc: Global, span: u32, v: &Lent<'_, '_>) -> Result<(), Halt<Cause>> {
        let read = read_event(alloc, v)?;
        let number = 1 + self.means.len() as u32;
        self.means.push(read.means)?;
        remark_keys(&mut self.notes, Place::Event(span, number), read.notes)?;
        Ok(())
    }
}
