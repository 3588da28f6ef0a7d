//! The scopes of a group.
ghost use Rattle.std.specs.Prelude.{◌+◌, length};
ghost use Rattle.trace_model.specs.declared.noted.Noted.{Noted};
ghost use Rattle.trace_model.specs.Notes.{ScopeNotes};
ghost use Rattle.trace_model.specs.declared.group.Scope.{Scope};
ghost use Rattle.otlp_json.specs.private.Found.{ScopesTold};
ghost use Rattle.otlp_json.specs.Group.{IsJsonScope, scope_offends};

use crate::reading::lists::Rows;
use crate::reading::scope::read_scope;
use json_nodes::Lent;
use span_io::{Cause, Halt, Items, OutOfMemory};
use std::alloc::Global;
use trace_model::{Remark, Scope, remark_all};

/// The scopes that were read, and the remarks on them.
#[derive(Drop)]
pub struct FoundScopes {
    pub scopes: Items<Scope>,
    pub remarks: Items<Remark>,
    /// The number of the span that comes next.
    pub next_span: u32,
}

// A group has no number of its own. No number of a scope or of a span is beyond the two together.
impl Rows for FoundScopes {
    ghost Found = { Noted Scope ScopeNotes };

    ghost means = { IsJsonScope };

    ghost offends = { scope_offends };

    ghost told = { λ number. ScopesTold };

    ghost first = { λ number. 1 };

    ghost next = { λ number rows. length rows.scopes + rows.next_span };

    fn with_room(alloc: Global, room: usize) -> Result<FoundScopes, OutOfMemory> {
        Ok(FoundScopes {
            scopes: Items::with_room(alloc, room)?,
            remarks: Items::new(alloc),
            next_span: 1,
        })
    }

    fn add(&mut self, alloc: Global, _number: u32, v: &Lent<'_, '_>) -> Result<(), Halt<Cause>> {
        let number = 1 + self.scopes.len() as u32;
        let read = read_scope(alloc, number, self.next_span, v)?;
        self.next_span += read.means.spans.len() as u32;
        remark_all(&mut self.remarks, read.notes)?;
        self.scopes.push(read.means)?;
        Ok(())
    }
}
