//! Statuses, events and links.
use crate::writing::elements::Message;
use crate::writing::fields::{
    write_count, write_flags, write_span_id, write_text, write_time, write_trace,
};
use crate::writing::values::write_attributes;
use span_io::{Blob, OutOfMemory};
use trace_model::{Event, Link, Status};

impl Message for Status {
    ghost use Rattle.otlp_proto.specs.Canonical.{status_text};

    ghost text = { status_text };

    #[tactic(auto, using(crate::proofs::Growth::in_pieces))]
    fn write(&self, out: &mut Blob) -> Result<(), OutOfMemory> {
        write_text(out, 2, &self.message)?;
        write_count(out, 3, self.code.number())
    }
}

impl Message for Event {
    ghost use Rattle.otlp_proto.specs.Canonical.{otlp_event_text};

    ghost text = { otlp_event_text };

    #[tactic(auto, using(crate::proofs::Growth::in_pieces), unfolding(crate::specs::Canonical::otlp_event_text))]
    fn write(&self, out: &mut Blob) -> Result<(), OutOfMemory> {
        write_time(out, 1, self.time)?;
        write_text(out, 2, &self.name)?;
        write_attributes(out, 3, self.attributes.as_slice())?;
        write_count(out, 4, self.dropped)
    }
}

impl Message for Link {
    ghost use Rattle.otlp_proto.specs.Canonical.{link_text};

    ghost text = { link_text };

    #[tactic(auto, using(crate::proofs::Growth::in_pieces), unfolding(crate::specs::Canonical::link_text))]
    fn write(&self, out: &mut Blob) -> Result<(), OutOfMemory> {
        write_trace(out, 1, self.trace)?;
        write_span_id(out, 2, self.span)?;
        write_text(out, 3, &self.state)?;
        write_attributes(out, 4, self.attributes.as_slice())?;
        write_count(out, 5, self.dropped)?;
        write_flags(out, 6, self.flags)
    }
}
