//! The links of a span.
ghost use Rattle.std.specs.Prelude.{◌+◌, length, Option};
ghost use Rattle.trace_model.specs.declared.noted.Noted.{Noted};
ghost use Rattle.trace_model.specs.Remarks.{Keys};
ghost use Rattle.trace_model.specs.declared.span.Link.{Link};
ghost use Rattle.otlp_json.specs.private.Found.{LinksTold};
ghost use Rattle.otlp_json.specs.Span.{IsJsonLink, link_offends};

use crate::reading::link::read_link;
use crate::reading::lists::Rows;
use json_nodes::Lent;
use span_io::{Cause, Halt, Items, OutOfMemory};
use std::alloc::Global;
use trace_model::{Link, Noted, Place, Remark, remark_keys};

/// Whether a link was dropped, and the remarks on the others.
#[derive(Drop)]
pub struct LinkRemarks {
    pub dropped: bool,
    pub remarks: Items<Remark>,
}

/// The links that were read, with what is remarked.
pub type FoundLinks = Noted<Items<Link>, LinkRemarks>;

// In the span of this number. A link without one of its identifiers is dropped.
impl Rows for FoundLinks {
    ghost Found = { Option (Noted Link Keys) };

    ghost means = { IsJsonLink };

    ghost offends = { link_offends };

    ghost told = { LinksTold };

    ghost first = { λ span. 1 };

    ghost next = { λ span rows. 1 + length rows.means };

    fn with_room(alloc: Global, room: usize) -> Result<FoundLinks, OutOfMemory> {
        let notes = LinkRemarks {
            dropped: false,
            remarks: Items::new(alloc),
        };
        Ok(Noted {
            means: Items::with_room(alloc, room)?,
            notes,
        })
    }

    fn add(&mut self, alloc: Global, span: u32, v: &Lent<'_, '_>) -> Result<(), Halt<Cause>> {
        let found = read_link(alloc, v)?;
        let Some(read) = found else {
            self.notes.dropped = true;
            return Ok(());
        };
        let number = 1 + self.means.len() as u32;
        self.means.push(read.means)?;
        remark_keys(
            &mut self.notes.remarks,
            Place::Link(span, number),
            read.notes,
        )?;
        Ok(())
    }
}
