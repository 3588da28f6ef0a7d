//! Reading the groups of a value.
ghost use Rattle.std.specs.Prelude.{◌≡◌, true, codes, Err, IfOk, is_some, option_and_then};
ghost use Rattle.std.specs.List.{AllZip};
ghost use Rattle.serde_json.specs.Data.{array};
ghost use Rattle.serde_json.specs.View.{items_of};
ghost use Rattle.json_nodes.specs.Lents.{lent_view as view, elements_left};
ghost use Rattle.serde_json.specs.Find.{as_array};
ghost use Rattle.span_io.specs.Paths.{each, JudgesInput};
ghost use Rattle.span_io.specs.declared.halt.Halt.TheVariants as halts;
ghost use Rattle.json_members.specs.Counted.{IsCountedValue};
ghost use Rattle.json_members.specs.Members.{member};
ghost use Rattle.otlp_json.specs.Group.{IsRemarkedGroup, AreRemarkedGroups, AreJsonGroups, group_offends, groups_offend, json_groups_offend};

use crate::reading::group::read_group;
use crate::reading::lists::room_for;
use json_members::member_of;
use json_nodes::{Elements, Lent};
use span_io::{Cause, Halt, Items, Refusal};
use std::alloc::Global;
use trace_model::{Group, Remark};

fn read_each(
    alloc: Global,
    elements: Elements<'_, '_>,
) -> Result<Items<(Group, Items<Remark>)>, Halt<Refusal>>
    requires counted { IsCountedValue (array (items_of (elements_left elements))) }
    ensures value { IfOk result
        (λ groups. AllZip (λ d x. IsRemarkedGroup x d) (elements_left elements.entry) groups) }
    ensures judged { JudgesInput result (each group_offends (elements_left elements.entry)) }
{
    let mut groups = Items::with_room(alloc, room_for(elements))?;
    let mut rest = elements;
    let mut unit = 0;
    'elements: while let Some(element) = rest.next() {
        unit += 1;
        match read_group(alloc, &element) {
            Ok(group) => groups.push(group)?,
            Err(halt) => return Err(halt.in_unit(unit)),
        }
    }
    Ok(groups)
}

fn read_array(
    alloc: Global,
    v: &Lent<'_, '_>,
) -> Result<Items<(Group, Items<Remark>)>, Halt<Refusal>>
    requires counted { IsCountedValue (view v.now) }
    ensures value { IfOk result (λ groups. AreRemarkedGroups groups (view v.now)) }
    ensures judged { JudgesInput result (groups_offend (view v.now)) }
    ensures wants { result ≡ Err halts.OutOfMemory → is_some (as_array (view v.now)) ≡ true }
{
    let Some(elements) = v.elements() else {
        return Err(Halt::Why(Refusal {
            unit: 0,
            cause: Cause::BadShape,
        }));
    };
    let groups = read_each(alloc, elements)?;
    Ok(groups)
}

/// Reads the groups of a value, an object that has them in a member.
pub fn read_root(
    alloc: Global,
    v: &Lent<'_, '_>,
) -> Result<Items<(Group, Items<Remark>)>, Halt<Refusal>>
    requires counted { IsCountedValue (view v.now) }
    ensures value { IfOk result (λ groups. AreJsonGroups groups (view v.now)) }
    ensures judged { JudgesInput result (json_groups_offend (view v.now)) }
    // Memory is wanted only for the elements of an array in that member.
    ensures wants { result ≡ Err halts.OutOfMemory
        → is_some (option_and_then as_array (member (codes "resourceSpans") (view v.now))) ≡ true }
{
    if !v.is_object() {
        return Err(Halt::Why(Refusal {
            unit: 0,
            cause: Cause::BadShape,
        }));
    }
    match member_of(v, "resourceSpans") {
        None => Ok(Items::new(alloc)),
        Some(found) => read_array(alloc, &found),
    }
}
