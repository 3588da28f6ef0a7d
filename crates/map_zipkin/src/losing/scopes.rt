//! Scopes, each with its number in the group.
ghost use Rattle.std.specs.Prelude.{◌≡◌, ◌++◌, None, option_map, OnOk};
ghost use Rattle.span_tags.specs.Losses as meant;
ghost use Rattle.map_zipkin.specs.Losses as told;
ghost use Rattle.map_zipkin.specs.private.LossWalks.{names_at_end};

use crate::losing::spans::lose_spans;
use span_io::{Items, OutOfMemory};
use span_tags::{joins, lose_scope, names_behind, spans_behind};
use std::alloc::Global;
use trace_model::{Loss, Place, Scope};

/// Adds the losses of the scopes of a group and of their spans. The names are those of the scope of the
/// span before, where it has the resource of the group.
pub(crate) fn lose_scopes(
    alloc: Global,
    losses: &mut Items<Loss>,
    names: Option<(&str, &str)>,
    scopes: &Items<Scope>,
) -> Result<(), OutOfMemory>
    ensures { OnOk result (losses.new ≡ losses.old
        ++ meant.scopes_losses told.span_losses 1 1
        (option_map (λ last. meant.named last.0.now last.1.now) names.entry) scopes.now) }
{
    let mut spans: u32 = 0;
    let mut before = names;
    'scopes: for i in 0..scopes.len() {
        let scope = &scopes.as_slice()[i];
        let place = Place::Scope(i as u32 + 1);
        lose_scope(alloc, losses, place, joins(before, scope), scope)?;
        let behind = spans_behind(spans, scope)?;
        lose_spans(alloc, losses, spans, &scope.spans)?;
        spans = behind;
        before = names_behind(before, scope);
    }
    Ok(())
}

/// The name and version of the scope of the last span, if there is a span.
pub(crate) fn last_names(scopes: &Items<Scope>) -> Option<(&str, &str)>
    ensures { option_map (λ last. meant.named last.0.now last.1.now) result
        ≡ names_at_end None scopes.now }
{
    let mut last = None;
    'scopes: for scope in scopes.as_slice() {
        last = names_behind(last, scope);
    }
    last
}
