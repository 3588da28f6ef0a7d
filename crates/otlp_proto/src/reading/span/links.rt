//! The links of a span.
ghost use Rattle.std.specs.Prelude.{◌≡◌, ◌+◌, ◌<◌, ◌≤◌, ◌^◌, [], ℕ, length, OnOk};
ghost use Rattle.span_io.specs.Offences.{Offence, Judges};
ghost use Rattle.proto_wire.specs.Messages.{messages};
ghost use Rattle.otlp_proto.specs.Link.{link_rules};
ghost use Rattle.span_io.specs.private.RowSteps.{Adds};
ghost use Rattle.otlp_proto.specs.private.SpanSoFar.{GatheredLinks};

use crate::reading::link::read_link;
use span_io::{Cause, Halt, Items};
use std::alloc::Global;
use trace_model::{Link, Place, Remark, remark_keys};

/// The links that were read, whether one was dropped, and the remarks on the others.
#[derive(Drop)]
pub struct LinkList {
    pub links: Items<Link>,
    pub dropped: bool,
    pub remarks: Items<Remark>,
}

impl LinkList {
    /// Nothing was read.
    #[tactic(auto, unfolding(trace_model::specs::Remarks::numbered))]
    pub fn none(alloc: Global) -> LinkList
        ensures nothing { (span : ℕ) → GatheredLinks span [] result }
        ensures empty { result.links ≡ [] }
    {
        LinkList {
            links: Items::new(alloc),
            dropped: false,
            remarks: Items::new(alloc),
        }
    }

    /// Reads one more link of the span of this number.
    pub fn add(&mut self, alloc: Global, span: u32, held: &[u8]) -> Result<(), Halt<Cause>>
        requires counted { 1 + length self.old.links < 2 ^ 32 }
        ensures ok { OnOk result (Adds (GatheredLinks span) held.now self.old self.new) }
        ensures judged { Judges result (Offence messages link_rules held.now) }
        ensures one_more { OnOk result (length self.new.links ≤ length self.old.links + 1) }
    {
        let Some(read) = read_link(alloc, held)? else {
            self.dropped = true;
            return Ok(());
        };
        let number = 1 + self.links.len() as u32;
        self.links.push(read.means)?;
        remark_keys(&mut self.remarks, Place::Link(span, number), read.notes)?;
        Ok(())
    }
}
