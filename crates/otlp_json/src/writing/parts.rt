//! Statuses, events and links.
ghost use Rattle.std.specs.Prelude.{◌≡◌, ◌↔◌, ◌∷◌, [], IsTrue, codes};
ghost use Rattle.json.specs.Token.{begin_object, key};
ghost use Rattle.trace_model.specs.OtlpParts.{code_number};
ghost use Rattle.json_members.specs.Canonical.{members_given, unless_empty};
ghost use Rattle.json_members.specs.Writing.{Appends, given_tokens};
ghost use Rattle.json_members.specs.private.Pieces.{rows_tokens};
ghost use Rattle.otlp_json.specs.Canonical.{status_rows};

use crate::writing::elements::Element;
use crate::writing::members::{number_member, time_member};
use crate::writing::values::attributes_member;
use json::Writer;
use json_members::{
    close_object, given_text_member, id_member, name_of, open_object, trace_member,
};
use span_io::OutOfMemory;
use std::alloc::Global;
use trace_model::{Event, Link, Status};

fn is_unset(status: &Status) -> bool
    ensures { IsTrue result ↔ ((code_number status.now.code ≡ 0) × (status.now.message ≡ [])) }
{
    status.code.number() == 0 && status.message.as_str().is_empty()
}

fn named_status(out: &mut Writer, status: &Status) -> Result<(), OutOfMemory>
    ensures { Appends result out.old out.new
        (key (codes "status") ∷ begin_object ∷ rows_tokens (status_rows status.now)) }
{
    name_of(out, "status")?;
    open_object(out)?;
    number_member(out, "code", status.code.number())?;
    given_text_member(out, "message", &status.message)?;
    close_object(out)
}

/// A status, unless all of it is left out.
pub fn status_member(out: &mut Writer, status: &Status) -> Result<(), OutOfMemory>
    ensures { Appends result out.old out.new (given_tokens (codes "status")
        (unless_empty (members_given (status_rows status.now)))) }
{
    if is_unset(status) {
        return Ok(());
    }
    named_status(out, status)
}

impl Element for Event {
    ghost use Rattle.otlp_json.specs.Canonical.{event_rows};

    ghost rows = { event_rows };

    fn write(&self, alloc: Global, out: &mut Writer) -> Result<(), OutOfMemory> {
        open_object(out)?;
        attributes_member(alloc, out, "attributes", &self.attributes)?;
        number_member(out, "droppedAttributesCount", self.dropped)?;
        given_text_member(out, "name", &self.name)?;
        time_member(out, "timeUnixNano", self.time)?;
        close_object(out)
    }
}

impl Element for Link {
    ghost use Rattle.otlp_json.specs.Canonical.{link_rows};

    ghost rows = { link_rows };

    fn write(&self, alloc: Global, out: &mut Writer) -> Result<(), OutOfMemory> {
        open_object(out)?;
        attributes_member(alloc, out, "attributes", &self.attributes)?;
        number_member(out, "droppedAttributesCount", self.dropped)?;
        number_member(out, "flags", self.flags)?;
        id_member(out, "spanId", self.span)?;
        trace_member(out, "traceId", self.trace)?;
        given_text_member(out, "traceState", &self.state)?;
        close_object(out)
    }
}
