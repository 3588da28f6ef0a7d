//! Groups of spans: OTLP `ResourceSpans`.
ghost use Rattle.std.specs.Prelude.{◌≡◌, ◌+◌, ◌<◌, ◌≤◌, ◌^◌, [], List, length, IfOk, OnOk};
ghost use Rattle.span_io.specs.Offences.{Offence, Judges, OnlyReads};
ghost use Rattle.span_io.specs.Tables.{givens};
ghost use Rattle.proto_wire.specs.Messages.{messages};
ghost use Rattle.trace_model.specs.Soundness.{IsSoundGroup};
ghost use Rattle.otlp_proto.specs.Group.{IsResource, IsGroupText, resource_rules, group_table, group_rules};
ghost use Rattle.trace_model.specs.OtlpParts.{no_resource};
ghost use Rattle.otlp_proto.specs.private.GroupSoFar.{GatheredScopes, GatheredGroup, MakesGroup};
ghost use Rattle.otlp_proto.specs.Rows.{MeansMessage};
ghost use Rattle.span_io.specs.RowsSoFar.{Sets};
ghost use Rattle.span_io.specs.private.RowSteps.{Adds, JudgesMessage};
ghost use Rattle.otlp_proto.specs.Scope.{scope_rules};

use crate::laws::{message_rules, one_group};
use crate::reading::message::{Rows, read_rows};
use crate::reading::resource::read_resource;
use crate::reading::scope::read_scope;
use proto_wire::{Payload, WireRecord};
use span_io::{Cause, Halt, Items, OutOfMemory, Text, once, text_row};
use std::alloc::Global;
use trace_model::{Attrs, Group, Noted, Place, Remark, Resource, Scope, remark_all, remark_keys};

/// The scopes that were read of a group, and the remarks on them.
#[derive(Drop)]
struct ScopeList {
    scopes: Items<Scope>,
    remarks: Items<Remark>,
    /// The number of the span that comes next.
    next_span: u32,
}

/// What was gathered of a group so far.
#[derive(Drop)]
struct GroupRows {
    resource: Option<Noted<Resource, Items<Text>>>,
    scopes: ScopeList,
    schema_url: Option<Text>,
}

// Sets the row of the resource.
fn resource_row(
    alloc: Global,
    row: &mut Option<Noted<Resource, Items<Text>>>,
    held: &[u8],
) -> Result<(), Halt<Cause>>
    ensures ok { OnOk result (Sets (MeansMessage IsResource) held.now row.old row.new) }
    ensures judged { JudgesMessage messages
        (MeansMessage IsResource) resource_rules row.old held.now result }
{
    once(row)?;
    *row = Some(read_resource(alloc, held)?);
    Ok(())
}

impl ScopeList {
    // Nothing was read.
    #[tactic(auto, unfolding(trace_model::specs::GroupRemarks::scopes_remarks))]
    fn none(alloc: Global) -> ScopeList
        ensures nothing { GatheredScopes [] result }
        ensures no_scopes { result.scopes ≡ [] }
        ensures next_span { result.next_span ≡ 1 }
    {
        ScopeList {
            scopes: Items::new(alloc),
            remarks: Items::new(alloc),
            next_span: 1,
        }
    }

    // Reads one more scope.
    fn add(&mut self, alloc: Global, held: &[u8]) -> Result<(), Halt<Cause>>
        requires scopes { 1 + length self.old.scopes < 2 ^ 32 }
        requires spans { self.old.next_span + length held.now < 2 ^ 32 }
        ensures ok { OnOk result (Adds GatheredScopes held.now self.old self.new) }
        ensures judged { Judges result (Offence messages scope_rules held.now) }
        ensures scopes { OnOk result (length self.new.scopes ≡ length self.old.scopes + 1) }
        ensures spans { OnOk result (self.new.next_span ≤ self.old.next_span + length held.now) }
    {
        let number = 1 + self.scopes.len() as u32;
        let read = read_scope(alloc, number, self.next_span, held)?;
        self.next_span += read.means.spans.len() as u32;
        remark_all(&mut self.remarks, read.notes)?;
        self.scopes.push(read.means)?;
        Ok(())
    }
}

impl GroupRows {
    // Nothing was read.
    fn none(alloc: Global) -> GroupRows
        ensures nothing { GatheredGroup result (givens group_table []) }
        ensures no_scopes { result.scopes.scopes ≡ [] }
        ensures next_span { result.scopes.next_span ≡ 1 }
    {
        GroupRows {
            resource: None,
            scopes: ScopeList::none(alloc),
            schema_url: None,
        }
    }
}

impl Rows for GroupRows {
    ghost use Rattle.std.specs.Prelude.{[], ◌∷◌, length};
    ghost use Rattle.span_io.specs.Tables.{givens, no_ends};
    ghost use Rattle.otlp_proto.specs.Group.{group_table};
    ghost use Rattle.otlp_proto.specs.private.GroupSoFar.{GatheredGroup};

    ghost table = { group_table };

    ghost ends = { no_ends };

    ghost gathered = { λ first rows seen. GatheredGroup rows (givens group_table seen) };

    ghost counts = { λ rows. length rows.scopes.scopes ∷ rows.scopes.next_span ∷ [] };

    fn gather(&mut self, alloc: Global, found: &WireRecord<'_>) -> Result<(), Halt<Cause>> {
        match found.payload {
            Payload::Bytes(held) => match found.number {
                1 => resource_row(alloc, &mut self.resource, held),
                2 => self.scopes.add(alloc, held),
                3 => text_row(alloc, &mut self.schema_url, held),
                _ => Ok(()),
            },
            Payload::Varint(_) | Payload::Fixed64(_) | Payload::Fixed32(_) => Ok(()),
        }
    }
}

// What stands for a resource that is absent.
fn empty_resource(alloc: Global) -> Noted<Resource, Items<Text>>
    ensures { result ≡ no_resource }
{
    Noted {
        means: Resource {
            attributes: Attrs::new(alloc),
            dropped: 0,
        },
        notes: Items::new(alloc),
    }
}

// The group of the rows, and the remarks on it.
fn group_of(alloc: Global, rows: GroupRows) -> Result<(Group, Items<Remark>), OutOfMemory>
    ensures { IfOk result (λ parts. MakesGroup rows parts.0 parts.1) }
{
    let empty = empty_resource(alloc);
    let resource = rows.resource.unwrap_or(empty);
    let list = rows.scopes;
    let mut remarks = Items::new(alloc);
    remark_keys(&mut remarks, Place::Resource, resource.notes)?;
    remark_all(&mut remarks, list.remarks)?;
    let resource = resource.means;
    let group = Group {
        resource: resource.attributes,
        dropped: resource.dropped,
        schema_url: rows.schema_url.unwrap_or(Text::new(alloc)),
        scopes: list.scopes,
    };
    Ok((group, remarks))
}

// Reads the rows of a group, and makes it of them.
fn read_rows_of(alloc: Global, unit: &[u8]) -> Result<(Group, Items<Remark>), Halt<Cause>>
    requires counted { length unit.now < 2 ^ 32 }
    ensures value { IfOk result (λ parts. IsGroupText parts.0 parts.1 unit.now) }
    ensures judged { Judges result (Offence messages group_rules unit.now) }
{
    message_rules();
    let rows = read_rows(alloc, GroupRows::none(alloc), unit)?;
    let read = group_of(alloc, rows)?;
    Ok(read)
}

/// Reads a group from the payload of one `resource_spans`, with the remarks on it in the order of
/// their places.
pub fn read_group(alloc: Global, unit: &[u8]) -> Result<(Group, Items<Remark>), Halt<Cause>>
    requires counted { length unit.now < 2 ^ 32 }
    ensures value { IfOk result (λ parts. IsGroupText parts.0 parts.1 unit.now) }
    ensures judged { Judges result (Offence messages group_rules unit.now) }

    // Bytes that are a text of a group are read as that group; only memory may be wanted.
    ensures only { (group : Group) (notes : List Remark) → IsGroupText group notes unit.now
        → OnlyReads result (group, notes) }
    ensures sound { IfOk result (λ parts. IsSoundGroup parts.0) }
{
    one_group();
    read_rows_of(alloc, unit)
}
