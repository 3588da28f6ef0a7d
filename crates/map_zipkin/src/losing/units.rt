//! Groups without spans, and groups that join the one before.
ghost use Rattle.std.specs.Prelude.{◌≡◌, ◌++◌, OnOk};
ghost use Rattle.span_tags.specs.Losses.{is_empty};
ghost use Rattle.span_tags.specs.Runs.{scoped};
ghost use Rattle.map_zipkin.specs.private.LossWalks.{joined_losses};

use span_io::{Items, OutOfMemory};
use span_tags::{has_items, lose};
use std::alloc::Global;
use trace_model::{Loss, LossRow, Place, Scope};

/// Adds the losses of a group of these scopes as a whole; the span before has its resource, or doesn't.
pub(crate) fn lose_unit(
    alloc: Global,
    losses: &mut Items<Loss>,
    joined: bool,
    scopes: &Items<Scope>,
) -> Result<(), OutOfMemory>
    ensures { OnOk result (losses.new ≡ losses.old ++ joined_losses joined scopes.now) }
{
    let empty = have_no_span(scopes);
    lose(alloc, losses, Place::Whole, LossRow::UnitEmpty, empty)?;
    let told = !empty && joined;
    lose(alloc, losses, Place::Whole, LossRow::UnitJoined, told)
}

// Whether none of the scopes has a span.
fn have_no_span(scopes: &Items<Scope>) -> bool
    ensures { result ≡ is_empty (scoped scopes.now) }
{
    'scopes: for scope in scopes.as_slice() {
        if has_items(&scope.spans) {
            return false;
        }
    }
    true
}
