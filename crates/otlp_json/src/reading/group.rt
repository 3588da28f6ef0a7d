//! `ResourceSpans` (OTLP trace.proto).
ghost use Rattle.std.specs.Prelude.{IfOk};
ghost use Rattle.json_nodes.specs.Lents.{lent_view as view};
ghost use Rattle.span_io.specs.Paths.{JudgesValue};
ghost use Rattle.json_members.specs.Counted.{IsCountedValue};
ghost use Rattle.otlp_json.specs.Group.{IsRemarkedGroup, group_members, group_offends};

use crate::reading::lists::rows_of;
use crate::reading::resource::resource_of;
use crate::reading::scopes::FoundScopes;
use json_members::{Table, member, object, text};
use json_nodes::Lent;
use span_io::{Cause, Halt, Items};
use std::alloc::Global;
use trace_model::{Group, Place, Remark, remark_all, remark_keys};

// The members of a group.
struct GroupTable;

impl Table for GroupTable {
    ghost parts = { group_members };
}

/// Reads a group, and the remarks on it.
#[tactic(auto, using(json_members::proofs::PartLaws::reading), unfolding(crate::specs::Group::group_members))]
pub fn read_group(alloc: Global, v: &Lent<'_, '_>) -> Result<(Group, Items<Remark>), Halt<Cause>>
    requires counted { IsCountedValue (view v.now) }
    ensures value { IfOk result (λ g. IsRemarkedGroup g (view v.now)) }
    ensures judged { JudgesValue result (group_offends (view v.now)) }
{
    object::<GroupTable>(v)?;
    let resource = member::<GroupTable, _>(v, 0, resource_of(alloc, v, "resource"))?;
    let scopes = member::<GroupTable, _>(v, 1, rows_of::<FoundScopes>(alloc, 0, v, "scopeSpans"))?;
    let schema_url = member::<GroupTable, _>(v, 2, text(alloc, v, "schemaUrl"))?;
    let mut remarks = Items::new(alloc);
    remark_keys(&mut remarks, Place::Resource, resource.notes)?;
    remark_all(&mut remarks, scopes.remarks)?;
    let resource = resource.means;
    let group = Group {
        resource: resource.attributes,
        dropped: resource.dropped,
        schema_url,
        scopes: scopes.scopes,
    };
    Ok((group, remarks))
}
