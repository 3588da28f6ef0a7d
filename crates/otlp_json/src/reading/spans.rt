//! The spans of a scope.
ghost use Rattle.std.specs.Prelude.{◌+◌, length};
ghost use Rattle.trace_model.specs.declared.noted.Noted.{Noted};
ghost use Rattle.trace_model.specs.Notes.{SpanNotes};
ghost use Rattle.trace_model.specs.declared.span.Span.{Span};
ghost use Rattle.otlp_json.specs.private.Found.{SpansTold};
ghost use Rattle.otlp_json.specs.Span.{IsJsonSpan, otlp_span_offends};

use crate::reading::lists::Rows;
use crate::reading::span::read_span;
use json_nodes::Lent;
use span_io::{Cause, Halt, Items, OutOfMemory};
use std::alloc::Global;
use trace_model::{Noted, Remark, Span, remark_all};

/// The spans that were read, and the remarks on them.
pub type FoundSpans = Noted<Items<Span>, Items<Remark>>;

// The first has this number in its group.
impl Rows for FoundSpans {
    ghost Found = { Noted Span SpanNotes };

    ghost means = { IsJsonSpan };

    ghost offends = { otlp_span_offends };

    ghost told = { SpansTold };

    ghost first = { λ first. first };

    ghost next = { λ first rows. first + length rows.means };

    fn with_room(alloc: Global, room: usize) -> Result<FoundSpans, OutOfMemory> {
        Ok(Noted {
            means: Items::with_room(alloc, room)?,
            notes: Items::new(alloc),
        })
    }

    fn add(&mut self, alloc: Global, first: u32, v: &Lent<'_, '_>) -> Result<(), Halt<Cause>> {
        let number = first + self.means.len() as u32;
        let read = read_span(alloc, number, v)?;
        remark_all(&mut self.notes, read.notes)?;
        self.means.push(read.means)?;
        Ok(())
    }
}
