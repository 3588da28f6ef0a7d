//! References as a parent and links.
ghost use Rattle.std.specs.Prelude.{◌≡◌, [], ◌∷◌, ◌&&◌, if◌then◌else◌, find, option_map, IfOk};
ghost use Rattle.trace_model.specs.declared.value.Value.TheVariants as values;
ghost use Rattle.map_jaeger.specs.Keys.{reference_key, child_of_word};
ghost use Rattle.map_jaeger.specs.Reading as meant;

use jaeger_model::{JSpan, SpanRef};
use span_ids::{SpanId, TraceId};
use span_io::{Items, OutOfMemory, Text};
use std::alloc::Global;
use trace_model::{Attrs, Link, Value};

/// The parent, or where there is none the span of the first reference that can be one.
pub(crate) fn parent_of(span: &JSpan) -> Option<SpanId>
    ensures { result ≡ meant.parent_of span.now }
{
    match span.parent {
        Some(parent) => Some(parent),
        None => first_parent(span.trace, &span.references),
    }
}

fn first_parent(trace: TraceId, references: &Items<SpanRef>) -> Option<SpanId>
    ensures { result
        ≡ option_map (λ reference. reference.span)
        (find (meant.is_own_parent trace) references.now) }
{
    'references: for reference in references.as_slice() {
        if is_own_parent(trace, reference) {
            return Some(reference.span);
        }
    }
    None
}

// A CHILD_OF reference of the span's own trace.
fn is_own_parent(trace: TraceId, reference: &SpanRef) -> bool
    ensures { result ≡ meant.is_own_parent trace reference.now }
{
    reference.child_of && reference.trace == trace
}

fn names(parent: Option<SpanId>, id: SpanId) -> bool
    ensures { result ≡ meant.names parent id }
{
    match parent {
        Some(parent) => parent == id,
        None => false,
    }
}

/// The links of the references but those that name the parent.
pub(crate) fn links_but(
    alloc: Global,
    trace: TraceId,
    parent: Option<SpanId>,
    references: &Items<SpanRef>,
) -> Result<Items<Link>, OutOfMemory>
    ensures { IfOk result (λ links. links ≡ meant.links_but trace parent references.now) }
{
    let mut links = Items::new(alloc);
    'references: for reference in references.as_slice() {
        if !names_parent(trace, parent, reference) {
            links.push(link_of(alloc, reference)?)?;
        }
    }
    Ok(links)
}

fn names_parent(trace: TraceId, parent: Option<SpanId>, reference: &SpanRef) -> bool
    ensures { result
        ≡ (meant.is_own_parent trace reference.now && meant.names parent reference.now.span) }
{
    is_own_parent(trace, reference) && names(parent, reference.span)
}

fn link_of(alloc: Global, reference: &SpanRef) -> Result<Link, OutOfMemory>
    ensures { IfOk result (λ link. link ≡ meant.link_of_reference reference.now) }
{
    let attributes = mark_of(alloc, reference.child_of)?;
    Ok(Link {
        trace: reference.trace,
        span: reference.span,
        state: Text::new(alloc),
        attributes,
        dropped: 0,
        flags: 0,
    })
}

// The mark of a link that is CHILD_OF.
fn mark_of(alloc: Global, child_of: bool) -> Result<Attrs, OutOfMemory>
    ensures { IfOk result
        (λ marks. marks
        ≡ (if child_of then (reference_key, values.Text child_of_word) ∷ [] else [])) }
{
    let mut marks = Items::new(alloc);
    if child_of {
        let key = Text::of(alloc, "opentracing.ref_type")?;
        let word = Text::of(alloc, "child_of")?;
        marks.push((key, Value::Text(word)))?;
    }
    Ok(marks)
}
