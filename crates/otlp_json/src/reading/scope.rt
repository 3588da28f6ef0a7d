//! `ScopeSpans` (OTLP trace.proto).
ghost use Rattle.std.specs.Prelude.{◌+◌, ◌<◌, ◌^◌, IfOk};
ghost use Rattle.json_nodes.specs.Lents.{lent_view as view};
ghost use Rattle.span_io.specs.Paths.{JudgesValue};
ghost use Rattle.json_members.specs.Counted.{values_in};
ghost use Rattle.otlp_json.specs.private.Found.{IsScopeFound};
ghost use Rattle.otlp_json.specs.Group.{scope_members, scope_offends};

use crate::reading::instrumentation_scope::instrumentation_of;
use crate::reading::lists::rows_of;
use crate::reading::spans::FoundSpans;
use json_members::{Table, member, object, text};
use json_nodes::Lent;
use span_io::{Cause, Halt, Items};
use std::alloc::Global;
use trace_model::{Noted, Place, Remark, Scope, remark_all, remark_keys};

// The members of a scope.
struct ScopeTable;

impl Table for ScopeTable {
    ghost parts = { scope_members };
}

/// Reads the scope of this number in its group, in which its first span has the number `first`.
#[tactic(auto, using(json_members::proofs::PartLaws::reading), unfolding(crate::specs::Group::scope_members))]
pub fn read_scope(
    alloc: Global,
    number: u32,
    first: u32,
    v: &Lent<'_, '_>,
) -> Result<Noted<Scope, Items<Remark>>, Halt<Cause>>
    requires counted { first + values_in (view v.now) < 2 ^ 32 }
    ensures value { IfOk result (λ r. IsScopeFound number first r (view v.now)) }
    ensures judged { JudgesValue result (scope_offends (view v.now)) }
{
    object::<ScopeTable>(v)?;
    let instrumentation = member::<ScopeTable, _>(v, 0, instrumentation_of(alloc, v, "scope"))?;
    let spans = member::<ScopeTable, _>(v, 1, rows_of::<FoundSpans>(alloc, first, v, "spans"))?;
    let schema_url = member::<ScopeTable, _>(v, 2, text(alloc, v, "schemaUrl"))?;
    let mut notes = Items::new(alloc);
    remark_keys(&mut notes, Place::Scope(number), instrumentation.notes)?;
    remark_all(&mut notes, spans.notes)?;
    let instrumentation = instrumentation.means;
    let means = Scope {
        name: instrumentation.name,
        version: instrumentation.version,
        attributes: instrumentation.attributes,
        dropped: instrumentation.dropped,
        schema_url,
        spans: spans.means,
    };
    Ok(Noted { means, notes })
}
