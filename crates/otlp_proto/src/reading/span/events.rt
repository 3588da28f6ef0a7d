//! The events of a span.
ghost use Rattle.std.specs.Prelude.{◌≡◌, ◌+◌, ◌<◌, ◌^◌, [], ℕ, length, OnOk};
ghost use Rattle.span_io.specs.Offences.{Offence, Judges};
ghost use Rattle.proto_wire.specs.Messages.{messages};
ghost use Rattle.otlp_proto.specs.Event.{event_rules};
ghost use Rattle.span_io.specs.private.RowSteps.{Adds};
ghost use Rattle.otlp_proto.specs.private.SpanSoFar.{GatheredEvents};

use crate::reading::event::read_event;
use span_io::{Cause, Halt, Items};
use std::alloc::Global;
use trace_model::{Event, Place, Remark, remark_keys};

/// The events that were read, and the remarks on them.
#[derive(Drop)]
pub struct EventList {
    pub events: Items<Event>,
    pub remarks: Items<Remark>,
}

impl EventList {
    /// Nothing was read.
    #[tactic(auto, unfolding(trace_model::specs::Remarks::numbered))]
    pub fn none(alloc: Global) -> EventList
        ensures nothing { (span : ℕ) → GatheredEvents span [] result }
        ensures empty { result.events ≡ [] }
    {
        EventList {
            events: Items::new(alloc),
            remarks: Items::new(alloc),
        }
    }

    /// Reads one more event of the span of this number.
    pub fn add(&mut self, alloc: Global, span: u32, held: &[u8]) -> Result<(), Halt<Cause>>
        requires counted { 1 + length self.old.events < 2 ^ 32 }
        ensures ok { OnOk result (Adds (GatheredEvents span) held.now self.old self.new) }
        ensures judged { Judges result (Offence messages event_rules held.now) }
        ensures one_more { OnOk result (length self.new.events ≡ length self.old.events + 1) }
    {
        let read = read_event(alloc, held)?;
        let number = 1 + self.events.len() as u32;
        self.events.push(read.means)?;
        remark_keys(&mut self.remarks, Place::Event(span, number), read.notes)?;
        Ok(())
    }
}
