//! Scopes and groups.
ghost use Rattle.std.specs.Prelude.{◌≡◌, ◌++◌, OnOk, OnErr};
ghost use Rattle.span_io.specs.Outside.{GrowsFront};
ghost use Rattle.otlp_proto.specs.Canonical.{filled_field, instrumentation_scope_text, resource_text, group_record};

use crate::writing::elements::{Message, write_element, write_elements};
use crate::writing::enclosed::close_filled;
use crate::writing::fields::{write_count, write_text};
use crate::writing::values::write_attributes;
use proto_wire::open_record;
use span_io::{Blob, OutOfMemory};
use trace_model::{Group, Scope};

// Appends the instrumentation scope.
#[tactic(auto, using(crate::proofs::Growth::in_pieces), unfolding(crate::specs::Canonical::instrumentation_scope_text))]
fn write_instrumentation_scope(out: &mut Blob, scope: &Scope) -> Result<(), OutOfMemory>
    ensures ok { OnOk result (out.new ≡ out.old ++ instrumentation_scope_text scope.now) }
    ensures err { OnErr result (GrowsFront out.old out.new (instrumentation_scope_text scope.now)) }
{
    write_text(out, 1, &scope.name)?;
    write_text(out, 2, &scope.version)?;
    write_attributes(out, 3, scope.attributes.as_slice())?;
    write_count(out, 4, scope.dropped)
}

// Appends the instrumentation scope as a field, unless all of it is left out.
#[tactic(auto, using(crate::proofs::Growth::in_field))]
fn write_scope_field(out: &mut Blob, scope: &Scope) -> Result<(), OutOfMemory>
    ensures ok { OnOk result
        (out.new ≡ out.old ++ filled_field 1 (instrumentation_scope_text scope.now)) }
    ensures err { OnErr result
        (GrowsFront out.old out.new (filled_field 1 (instrumentation_scope_text scope.now))) }
{
    let begins = out.len();
    open_record(out, 1)?;
    let written = write_instrumentation_scope(out, scope);
    close_filled(out, 1, begins, written)
}

// Appends the resource.
#[tactic(auto, using(crate::proofs::Growth::in_pieces), unfolding(crate::specs::Canonical::resource_text))]
fn write_resource(out: &mut Blob, group: &Group) -> Result<(), OutOfMemory>
    ensures ok { OnOk result (out.new ≡ out.old ++ resource_text group.now) }
    ensures err { OnErr result (GrowsFront out.old out.new (resource_text group.now)) }
{
    write_attributes(out, 1, group.resource.as_slice())?;
    write_count(out, 2, group.dropped)
}

// Appends the resource as a field, unless all of it is left out.
#[tactic(auto, using(crate::proofs::Growth::in_field))]
fn write_resource_field(out: &mut Blob, group: &Group) -> Result<(), OutOfMemory>
    ensures ok { OnOk result (out.new ≡ out.old ++ filled_field 1 (resource_text group.now)) }
    ensures err { OnErr result
        (GrowsFront out.old out.new (filled_field 1 (resource_text group.now))) }
{
    let begins = out.len();
    open_record(out, 1)?;
    let written = write_resource(out, group);
    close_filled(out, 1, begins, written)
}

impl Message for Scope {
    ghost use Rattle.otlp_proto.specs.Canonical.{scope_text};

    ghost text = { scope_text };

    #[tactic(auto, using(crate::proofs::Growth::in_pieces), unfolding(crate::specs::Canonical::scope_text))]
    fn write(&self, out: &mut Blob) -> Result<(), OutOfMemory> {
        write_scope_field(out, self)?;
        write_elements(out, 2, self.spans.as_slice())?;
        write_text(out, 3, &self.schema_url)
    }
}

impl Message for Group {
    ghost use Rattle.otlp_proto.specs.Canonical.{group_text};

    ghost text = { group_text };

    #[tactic(auto, using(crate::proofs::Growth::in_pieces), unfolding(crate::specs::Canonical::group_text))]
    fn write(&self, out: &mut Blob) -> Result<(), OutOfMemory> {
        write_resource_field(out, self)?;
        write_elements(out, 2, self.scopes.as_slice())?;
        write_text(out, 3, &self.schema_url)
    }
}

/// Appends a group as one record of a request: field 1, its length, and its canonical text. Where
/// memory is wanted, a front of the record was appended.
pub fn write_group(out: &mut Blob, group: &Group) -> Result<(), OutOfMemory>
    ensures ok { OnOk result (out.new ≡ out.old ++ group_record group.now) }
    ensures err { OnErr result (GrowsFront out.old out.new (group_record group.now)) }
{
    write_element(out, 1, group)
}
