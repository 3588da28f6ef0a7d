//! Scopes and groups.
ghost use Rattle.std.specs.Prelude.{◌≡◌, ◌↔◌, ◌∷◌, ◌++◌, [], None, Some, Err, IsTrue, OnOk, OnErr, codes};
ghost use Rattle.json.specs.Token.{begin_object, key};
ghost use Rattle.span_io.specs.declared.halt.Halt.TheVariants as halts;
ghost use Rattle.trace_model.specs.declared.fault.Fault.{Fault};
ghost use Rattle.json_members.specs.Canonical.{members_given, unless_empty};
ghost use Rattle.json_members.specs.Writing.{Appends, GrewFront, given_tokens};
ghost use Rattle.json_members.specs.private.Pieces.{rows_tokens};
ghost use Rattle.otlp_json.specs.Canonical.{instrumentation_scope_rows, resource_rows, json_group_text};
ghost use Rattle.otlp_json.specs.Held.{IsJsonFaultOf};

use crate::writing::doubles::fault_of_group;
use crate::writing::elements::{Element, list_member};
use crate::writing::members::number_member;
use crate::writing::values::attributes_member;
use json::Writer;
use json_members::{close_object, given_text_member, name_of, open_object};
use span_io::{Blob, Halt, OutOfMemory};
use std::alloc::Global;
use trace_model::{Fault, Group, Scope};

// ---- the instrumentation scope

fn is_unnamed(scope: &Scope) -> bool
    ensures { IsTrue result ↔ ((scope.now.attributes ≡ []) × (scope.now.dropped ≡ 0)
        × (scope.now.name ≡ []) × (scope.now.version ≡ [])) }
{
    scope.attributes.as_slice().is_empty()
        && scope.dropped == 0
        && scope.name.as_str().is_empty()
        && scope.version.as_str().is_empty()
}

fn named_scope(alloc: Global, out: &mut Writer, scope: &Scope) -> Result<(), OutOfMemory>
    ensures { Appends result out.old out.new (key (codes "scope") ∷ begin_object
        ∷ rows_tokens (instrumentation_scope_rows scope.now)) }
{
    name_of(out, "scope")?;
    open_object(out)?;
    attributes_member(alloc, out, "attributes", &scope.attributes)?;
    number_member(out, "droppedAttributesCount", scope.dropped)?;
    given_text_member(out, "name", &scope.name)?;
    given_text_member(out, "version", &scope.version)?;
    close_object(out)
}

// The instrumentation scope, unless all of it is left out.
fn scope_member(alloc: Global, out: &mut Writer, scope: &Scope) -> Result<(), OutOfMemory>
    ensures { Appends result out.old out.new (given_tokens (codes "scope")
        (unless_empty (members_given (instrumentation_scope_rows scope.now)))) }
{
    if is_unnamed(scope) {
        return Ok(());
    }
    named_scope(alloc, out, scope)
}

impl Element for Scope {
    ghost use Rattle.otlp_json.specs.Canonical.{scope_rows};

    ghost rows = { scope_rows };

    fn write(&self, alloc: Global, out: &mut Writer) -> Result<(), OutOfMemory> {
        open_object(out)?;
        given_text_member(out, "schemaUrl", &self.schema_url)?;
        scope_member(alloc, out, self)?;
        list_member(alloc, out, "spans", &self.spans)?;
        close_object(out)
    }
}

// ---- the resource

fn has_no_resource(group: &Group) -> bool
    ensures { IsTrue result ↔ ((group.now.resource ≡ []) × (group.now.dropped ≡ 0)) }
{
    group.resource.as_slice().is_empty() && group.dropped == 0
}

fn named_resource(alloc: Global, out: &mut Writer, group: &Group) -> Result<(), OutOfMemory>
    ensures { Appends result out.old out.new
        (key (codes "resource") ∷ begin_object ∷ rows_tokens (resource_rows group.now)) }
{
    name_of(out, "resource")?;
    open_object(out)?;
    attributes_member(alloc, out, "attributes", &group.resource)?;
    number_member(out, "droppedAttributesCount", group.dropped)?;
    close_object(out)
}

// The resource, unless all of it is left out.
fn resource_member(alloc: Global, out: &mut Writer, group: &Group) -> Result<(), OutOfMemory>
    ensures { Appends result out.old out.new (given_tokens (codes "resource")
        (unless_empty (members_given (resource_rows group.now)))) }
{
    if has_no_resource(group) {
        return Ok(());
    }
    named_resource(alloc, out, group)
}

impl Element for Group {
    ghost use Rattle.otlp_json.specs.Canonical.{group_rows};

    ghost rows = { group_rows };

    fn write(&self, alloc: Global, out: &mut Writer) -> Result<(), OutOfMemory> {
        open_object(out)?;
        resource_member(alloc, out, self)?;
        given_text_member(out, "schemaUrl", &self.schema_url)?;
        list_member(alloc, out, "scopeSpans", &self.scopes)?;
        close_object(out)
    }
}

// ---- the text of a group

// Whether nothing stands in a group.
fn is_bare(group: &Group) -> bool
    ensures { IsTrue result ↔ ((group.now.resource ≡ []) × (group.now.dropped ≡ 0)
        × (group.now.schema_url ≡ []) × (group.now.scopes ≡ [])) }
{
    group.resource.as_slice().is_empty()
        && group.dropped == 0
        && group.schema_url.as_str().is_empty()
        && group.scopes.as_slice().is_empty()
}

// Appends the text of a group, or a front of it. A writer makes some kB of its buffer ready, which a
// group in which nothing stands isn't worth.
#[tactic(auto, using(crate::proofs::BareGroups::bare_text))]
fn write_text(out: &mut Blob, group: &Group) -> Result<(), OutOfMemory>
    ensures ok { OnOk result (out.new ≡ out.old ++ json_group_text group.now) }
    ensures front { OnErr result (GrewFront out.old out.new (json_group_text group.now)) }
{
    if is_bare(group) {
        return out.append(b"{}");
    }
    write_object(out, group)
}

// The same by a writer of JSON.
fn write_object(out: &mut Blob, group: &Group) -> Result<(), OutOfMemory>
    ensures ok { OnOk result (out.new ≡ out.old ++ json_group_text group.now) }
    ensures front { OnErr result (GrewFront out.old out.new (json_group_text group.now)) }
{
    let bytes = out.take();
    let alloc = *bytes.allocator();
    let mut writer = Writer::new(bytes);
    let written = group.write(alloc, &mut writer);
    *out = Blob::from_vec(writer.into_inner());
    written
}

/// Appends the canonical text of a group in OTLP/JSON, or answers the fault in it and leaves `out` as it was.
pub fn write_group(out: &mut Blob, group: &Group) -> Result<(), Halt<Fault>>
    ensures ok { OnOk result (out.new ≡ out.old ++ json_group_text group.now) }
    // Nothing in what is written is a fault.
    ensures held { OnOk result (IsJsonFaultOf group.now None) }
    ensures why { (fault : Fault) → result ≡ Err (halts.Why fault)
        → IsJsonFaultOf group.now (Some fault) × (out.new ≡ out.old) }
    // After want of memory a front of it was appended.
    ensures front { result ≡ Err halts.OutOfMemory
        → GrewFront out.old out.new (json_group_text group.now) }
{
    if let Some(fault) = fault_of_group(group) {
        return Err(Halt::Why(fault));
    }
    Ok(write_text(out, group)?)
}
