//! What a move to Zipkin loses of a group. The group is gone over once and stays as it is; of it only
//! the keys of attributes that are lost are copied.
ghost use Rattle.std.specs.Prelude.{◌≡◌, option_map, IfOk};
ghost use Rattle.trace_model.specs.Soundness.{IsSoundGroup};
ghost use Rattle.map_zipkin.specs.Faults.{HasNoZipkinFault};
ghost use Rattle.map_zipkin.specs.Losses as told;

mod attributes;
mod before;
mod events;
mod links;
mod resource;
mod scopes;
mod spans;
mod units;

use crate::run::Run;
use before::{follows, names_before, normal_resource};
use resource::lose_resource;
use scopes::{last_names, lose_scopes};
use span_io::{Items, OutOfMemory, Text};
use std::alloc::Global;
use trace_model::{Group, Loss};
use units::lose_unit;

/// What a move to Zipkin loses of a group that it can hold, in the order of places, rows and keys. The
/// run is that of the last span of the groups before it.
pub fn losses(
    alloc: Global,
    group: &Group,
    before: Option<&Run>,
) -> Result<Items<Loss>, OutOfMemory>
    requires sound { IsSoundGroup group.now }
    requires no_fault { HasNoZipkinFault group.now }
    ensures value { IfOk result (λ losses. losses
        ≡ told.group_losses (option_map (λ run. run.now) before.entry) group.now) }
{
    let mut found = Items::new(alloc);
    let joined = follows(alloc, before, &group.resource)?;
    lose_unit(alloc, &mut found, joined, &group.scopes)?;
    lose_resource(alloc, &mut found, group)?;
    let names = names_before(joined, before);
    lose_scopes(alloc, &mut found, names, &group.scopes)?;
    Ok(found)
}

/// The run of the last span of a group that Zipkin can hold, in normal form, if the group has a span.
pub fn last_run(alloc: Global, group: &Group) -> Result<Option<Run>, OutOfMemory>
    requires sound { IsSoundGroup group.now }
    requires no_fault { HasNoZipkinFault group.now }
    ensures value { IfOk result (λ run. run ≡ told.last_run group.now) }
{
    let Some((name, version)) = last_names(&group.scopes) else {
        return Ok(None);
    };
    Ok(Some(Run {
        resource: normal_resource(alloc, &group.resource)?,
        name: Text::of(alloc, name)?,
        version: Text::of(alloc, version)?,
    }))
}
