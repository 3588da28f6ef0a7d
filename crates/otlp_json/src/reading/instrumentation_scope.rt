//! `InstrumentationScope` (OTLP common.proto).
ghost use Rattle.std.specs.Prelude.{◌≡◌, IfOk};
ghost use Rattle.json_nodes.specs.Lents.{lent_view as view};
ghost use Rattle.span_io.specs.Paths.{optional, Given, JudgesValue};
ghost use Rattle.json_members.specs.Members.{member};
ghost use Rattle.otlp_json.specs.Group.{IsJsonInstrumentationScope, instrumentation_scope_members, instrumentation_scope_offends};
ghost use Rattle.trace_model.specs.OtlpParts.{no_instrumentation_scope};

use crate::reading::attributes::attributes_of;
use crate::reading::numbers::count;
use json_members::{Table, bare_member, member, member_of, object, text};
use json_nodes::Lent;
use span_io::{Cause, Halt, Items, Text};
use std::alloc::Global;
use trace_model::{Attrs, InstrumentationScope, Noted};

// The members of an instrumentation scope.
struct InstrumentationTable;

impl Table for InstrumentationTable {
    ghost parts = { instrumentation_scope_members };
}

#[tactic(auto, using(json_members::proofs::PartLaws::reading), unfolding(crate::specs::Group::instrumentation_scope_members))]
fn read_instrumentation_scope(
    alloc: Global,
    v: &Lent<'_, '_>,
) -> Result<Noted<InstrumentationScope, Items<Text>>, Halt<Cause>>
    ensures value { IfOk result (λ s. IsJsonInstrumentationScope s (view v.now)) }
    ensures judged { JudgesValue result (instrumentation_scope_offends (view v.now)) }
{
    object::<InstrumentationTable>(v)?;
    let name = member::<InstrumentationTable, _>(v, 0, text(alloc, v, "name"))?;
    let version = member::<InstrumentationTable, _>(v, 1, text(alloc, v, "version"))?;
    let (attributes, notes) = member::<InstrumentationTable, _>(
        v,
        2,
        attributes_of(alloc, v, "attributes"),
    )?;
    let dropped = bare_member::<InstrumentationTable, _>(v, 3, count(v, "droppedAttributesCount"))?;
    let means = InstrumentationScope {
        name,
        version,
        attributes,
        dropped,
    };
    Ok(Noted { means, notes })
}

// What stands for one that is absent.
fn empty_instrumentation(alloc: Global) -> Noted<InstrumentationScope, Items<Text>>
    ensures { result ≡ no_instrumentation_scope }
{
    let means = InstrumentationScope {
        name: Text::new(alloc),
        version: Text::new(alloc),
        attributes: Attrs::new(alloc),
        dropped: 0,
    };
    Noted {
        means,
        notes: Items::new(alloc),
    }
}

// One that may be absent.
pub fn instrumentation_of(
    alloc: Global,
    v: &Lent<'_, '_>,
    name: &str,
) -> Result<Noted<InstrumentationScope, Items<Text>>, Halt<Cause>>
    ensures value { IfOk result
        (λ s. Given IsJsonInstrumentationScope (λ x. x ≡ no_instrumentation_scope)
        s (member name.now (view v.now))) }
    ensures judged { JudgesValue result
        (optional instrumentation_scope_offends (member name.now (view v.now))) }
{
    match member_of(v, name) {
        None => Ok(empty_instrumentation(alloc)),
        Some(found) => read_instrumentation_scope(alloc, &found),
    }
}
