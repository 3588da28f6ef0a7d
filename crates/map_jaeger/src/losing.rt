//! What a move to Jaeger loses of a group. The group is gone over once and stays as it is; of it only
//! the keys of attributes that are lost are copied.
ghost use Rattle.std.specs.Prelude.{◌≡◌, IfOk};
ghost use Rattle.map_jaeger.specs.Faults.{HasNoFault};
ghost use Rattle.map_jaeger.specs.Losses.{group_losses};

mod attributes;
mod events;
mod links;
mod resource;
mod scopes;
mod spans;

use resource::lose_resource;
use scopes::lose_scopes;
use span_io::{Items, OutOfMemory};
use std::alloc::Global;
use trace_model::{Group, Loss};

/// What a move to Jaeger loses of a group that it can hold, in the order of places, rows and keys.
pub fn losses(alloc: Global, group: &Group) -> Result<Items<Loss>, OutOfMemory>
    requires no_fault { HasNoFault group.now }
    ensures value { IfOk result (λ losses. losses ≡ group_losses group.now) }
{
    let mut found = Items::new(alloc);
    lose_resource(alloc, &mut found, group)?;
    lose_scopes(alloc, &mut found, &group.scopes)?;
    Ok(found)
}
