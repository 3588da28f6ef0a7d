//! Scopes, each with its number in the group.
ghost use Rattle.std.specs.Prelude.{◌≡◌, ◌++◌, None, OnOk};
ghost use Rattle.span_tags.specs.Losses as meant;
ghost use Rattle.map_jaeger.specs.Losses as told;

use crate::losing::spans::lose_spans;
use span_io::{Items, OutOfMemory};
use span_tags::{joins, lose_scope, names_behind, spans_behind};
use std::alloc::Global;
use trace_model::{Loss, Place, Scope};

/// Adds the losses of the scopes of a group and of their spans.
pub(crate) fn lose_scopes(
    alloc: Global,
    losses: &mut Items<Loss>,
    scopes: &Items<Scope>,
) -> Result<(), OutOfMemory>
    ensures { OnOk result
        (losses.new ≡ losses.old ++ meant.scopes_losses told.span_losses 1 1 None scopes.now) }
{
    let mut spans: u32 = 0;
    let mut before: Option<(&str, &str)> = None;
    'scopes: for i in 0..scopes.len() {
        let scope = &scopes.as_slice()[i];
        let place = Place::Scope(i as u32 + 1);
        lose_scope(alloc, losses, place, joins(before, scope), scope)?;
        let behind = spans_behind(spans, scope)?;
        lose_spans(alloc, losses, spans, &scope.spans)?;
        spans = behind;
        before = names_behind(before, scope);
    }
    Ok(())
}
