//! `Annotation` of Zipkin v2.
ghost use Rattle.std.specs.Prelude.{◌≡◌, [], true, Err, IfOk, is_some, option_map};
ghost use Rattle.serde_json.specs.Find.{as_array};
ghost use Rattle.json_nodes.specs.Lents.{lent_view as view, elements_left};
ghost use Rattle.span_io.specs.Paths.{optional, each, JudgesValue, Given};
ghost use Rattle.span_io.specs.declared.halt.Halt.TheVariants as halts;
ghost use Rattle.std.specs.List.{AllZip};
ghost use Rattle.zipkin_json.specs.Span.{IsAnnotation, annotation_members, annotation_offends, AreAnnotations, annotations_offend};

use crate::reading::members::{required_micros, required_text};
use json_members::{Table, bare_member, member, member_of, object};
use json_nodes::{Elements, Lent};
use span_ids::Nanos;
use span_io::{Cause, Halt, Items, Text};
use std::alloc::Global;

// The members of an annotation.
struct AnnotationTable;

impl Table for AnnotationTable {
    ghost parts = { annotation_members };
}

#[tactic(auto, using(json_members::proofs::PartLaws::reading), unfolding(crate::specs::Span::annotation_members))]
fn read_annotation(alloc: Global, v: &Lent<'_, '_>) -> Result<(Nanos, Text), Halt<Cause>>
    ensures value { IfOk result (λ a. IsAnnotation a (view v.now)) }
    ensures judged { JudgesValue result (annotation_offends (view v.now)) }
{
    object::<AnnotationTable>(v)?;
    let timestamp = bare_member::<AnnotationTable, _>(
        v,
        0,
        required_micros(member_of(v, "timestamp")),
    )?;
    let value = member::<AnnotationTable, _>(v, 1, required_text(alloc, member_of(v, "value")))?;
    Ok((Nanos(timestamp * 1000), value))
}

fn read_annotations(
    alloc: Global,
    elements: Elements<'_, '_>,
) -> Result<Items<(Nanos, Text)>, Halt<Cause>>
    ensures value { IfOk result
        (λ list. AllZip (λ d x. IsAnnotation x d) (elements_left elements.entry) list) }
    ensures judged { JudgesValue result (each annotation_offends (elements_left elements.entry)) }
{
    let mut left = elements;
    let mut list = Items::new(alloc);
    'elements: while let Some(element) = left.next() {
        let annotation = read_annotation(alloc, &element)?;
        list.push(annotation)?;
    }
    Ok(list)
}

fn annotations_in(alloc: Global, v: &Lent<'_, '_>) -> Result<Items<(Nanos, Text)>, Halt<Cause>>
    ensures value { IfOk result (λ list. AreAnnotations list (view v.now)) }
    ensures judged { JudgesValue result (annotations_offend (view v.now)) }
    ensures wants { result ≡ Err halts.OutOfMemory → is_some (as_array (view v.now)) ≡ true }
{
    let Some(elements) = v.elements() else {
        return Err(Halt::Why(Cause::BadShape));
    };
    let list = read_annotations(alloc, elements)?;
    Ok(list)
}

// Annotations that may be absent.
pub fn annotations(
    alloc: Global,
    found: Option<Lent<'_, '_>>,
) -> Result<Items<(Nanos, Text)>, Halt<Cause>>
    ensures value { IfOk result (λ list. Given AreAnnotations (λ l. l ≡ []) list
        (option_map view found.entry)) }
    ensures judged { JudgesValue result
        (optional annotations_offend (option_map view found.entry)) }
{
    match found {
        None => Ok(Items::new(alloc)),
        Some(found) => annotations_in(alloc, &found),
    }
}
