//! Losses of a move to another form, added at the end of those before.
ghost use Rattle.std.specs.Prelude.{◌≡◌, ◌+◌, ◌^◌, ◌≤◌, ◌++◌, length, not, option_map, MatchResult, OnOk};
ghost use Rattle.span_tags.specs.Losses as meant;

use span_io::{Items, OutOfMemory, Text};
use std::alloc::Global;
use trace_model::{Kind, Loss, LossRow, Place, Scope};

/// Adds a loss of the row at the place, if it is told.
pub fn lose(
    alloc: Global,
    losses: &mut Items<Loss>,
    place: Place,
    row: LossRow,
    told: bool,
) -> Result<(), OutOfMemory>
    ensures { OnOk result (losses.new ≡ losses.old ++ meant.lost place row told) }
{
    if !told {
        return Ok(());
    }
    losses.push(Loss {
        place,
        row,
        key: Text::new(alloc),
    })
}

/// Adds a loss of the row at the place, of the attribute of this key, if it is told.
pub fn lose_key(
    alloc: Global,
    losses: &mut Items<Loss>,
    place: Place,
    row: LossRow,
    key: &str,
    told: bool,
) -> Result<(), OutOfMemory>
    ensures { OnOk result (losses.new ≡ losses.old ++ meant.lost_key place row key.now told) }
{
    if !told {
        return Ok(());
    }
    losses.push(Loss {
        place,
        row,
        key: Text::of(alloc, key)?,
    })
}

/// Whether the text isn't empty.
pub fn has_text(text: &Text) -> bool
    ensures { result ≡ not (meant.is_empty text.now) }
{
    text.len() != 0
}

/// Whether the list isn't empty.
pub fn has_items<T>(items: &Items<T>) -> bool
    ensures { result ≡ not (meant.is_empty items.now) }
{
    items.len() != 0
}

/// Adds the losses of a scope itself; those of its spans come behind them.
pub fn lose_scope(
    alloc: Global,
    losses: &mut Items<Loss>,
    place: Place,
    joined: bool,
    scope: &Scope,
) -> Result<(), OutOfMemory>
    ensures { OnOk result (losses.new ≡ losses.old ++ meant.scope_losses place joined scope.now) }
{
    let dropped = scope.dropped != 0;
    lose(alloc, losses, place, LossRow::DroppedCount, dropped)?;
    let named = has_text(&scope.schema_url);
    lose(alloc, losses, place, LossRow::SchemaUrl, named)?;
    let attributes = has_items(&scope.attributes);
    lose(alloc, losses, place, LossRow::Attributes, attributes)?;
    let empty = !has_items(&scope.spans);
    lose(alloc, losses, place, LossRow::ScopeEmpty, empty)?;
    lose(alloc, losses, place, LossRow::ScopeJoined, joined)
}

pub fn is_unspecified(kind: Kind) -> bool
    ensures { result ≡ meant.is_unspecified kind }
{
    matches!(kind, Kind::Unspecified)
}

// ---- from scope to scope

/// The number of spans, behind this scope. More than 32 bits count want memory.
pub fn spans_behind(spans: u32, scope: &Scope) -> Result<u32, OutOfMemory>
    ensures { MatchResult result (λ behind. behind ≡ spans + length scope.now.spans)
        (λ _. 2 ^ 32 ≤ spans + length scope.now.spans) }
{
    match spans.checked_add(scope.spans.len() as u32) {
        Some(behind) => Ok(behind),
        None => Err(OutOfMemory),
    }
}

/// Whether the scope has spans, and the name and version of that of the span before.
pub fn joins(before: Option<(&str, &str)>, scope: &Scope) -> bool
    ensures { result
        ≡ meant.joins
        (option_map (λ last. meant.named last.0.now last.1.now) before.entry) scope.now }
{
    let Some((name, version)) = before else {
        return false;
    };
    has_items(&scope.spans) && name == scope.name.as_str() && version == scope.version.as_str()
}

/// The name and version of the scope of the last span, behind this scope.
pub fn names_behind<'a>(
    before: Option<(&'a str, &'a str)>,
    scope: &'a Scope,
) -> Option<(&'a str, &'a str)>
    ensures { option_map (λ last. meant.named last.0.now last.1.now) result
        ≡ meant.names_behind
        (option_map (λ last. meant.named last.0.now last.1.now) before.entry) scope.now }
{
    if has_items(&scope.spans) {
        return Some((scope.name.as_str(), scope.version.as_str()));
    }
    before
}
