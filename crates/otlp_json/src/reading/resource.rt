//! `Resource` (OTLP resource.proto).
ghost use Rattle.std.specs.Prelude.{◌≡◌, IfOk};
ghost use Rattle.json_nodes.specs.Lents.{lent_view as view};
ghost use Rattle.span_io.specs.Paths.{optional, Given, JudgesValue};
ghost use Rattle.json_members.specs.Members.{member};
ghost use Rattle.otlp_json.specs.Group.{IsJsonResource, resource_members, resource_offends};
ghost use Rattle.trace_model.specs.OtlpParts.{no_resource};

use crate::reading::attributes::attributes_of;
use crate::reading::numbers::count;
use json_members::{Table, bare_member, member, member_of, object};
use json_nodes::Lent;
use span_io::{Cause, Halt, Items, Text};
use std::alloc::Global;
use trace_model::{Attrs, Noted, Resource};

// The members of a resource.
struct ResourceTable;

impl Table for ResourceTable {
    ghost parts = { resource_members };
}

#[tactic(auto, using(json_members::proofs::PartLaws::reading), unfolding(crate::specs::Group::resource_members))]
fn read_resource(
    alloc: Global,
    v: &Lent<'_, '_>,
) -> Result<Noted<Resource, Items<Text>>, Halt<Cause>>
    ensures value { IfOk result (λ r. IsJsonResource r (view v.now)) }
    ensures judged { JudgesValue result (resource_offends (view v.now)) }
{
    object::<ResourceTable>(v)?;
    let (attributes, notes) = member::<ResourceTable, _>(
        v,
        0,
        attributes_of(alloc, v, "attributes"),
    )?;
    let dropped = bare_member::<ResourceTable, _>(v, 1, count(v, "droppedAttributesCount"))?;
    let means = Resource {
        attributes,
        dropped,
    };
    Ok(Noted { means, notes })
}

// What stands for a resource that is absent.
fn empty_resource(alloc: Global) -> Noted<Resource, Items<Text>>
    ensures { result ≡ no_resource }
{
    let means = Resource {
        attributes: Attrs::new(alloc),
        dropped: 0,
    };
    Noted {
        means,
        notes: Items::new(alloc),
    }
}

// A resource that may be absent.
pub fn resource_of(
    alloc: Global,
    v: &Lent<'_, '_>,
    name: &str,
) -> Result<Noted<Resource, Items<Text>>, Halt<Cause>>
    ensures value { IfOk result (λ r. Given IsJsonResource (λ x. x ≡ no_resource) r
        (member name.now (view v.now))) }
    ensures judged { JudgesValue result (optional resource_offends (member name.now (view v.now))) }
{
    match member_of(v, name) {
        None => Ok(empty_resource(alloc)),
        Some(found) => read_resource(alloc, &found),
    }
}
