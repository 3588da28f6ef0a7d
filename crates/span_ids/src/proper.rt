//! Which identifiers a span may have.
ghost use Rattle.span_ids.specs.Proper.{IsProperParent};

use crate::span_id::SpanId;

/// The identifier of a parent, if there is one, is in its range.
pub fn proper_parent(parent: Option<SpanId>)
    ensures { IsProperParent parent }
{
    if let Some(id) = parent {
        id.known();
    }
}
