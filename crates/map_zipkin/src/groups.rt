//! The groups of spans: runs of equal resource, and in them runs of equal name and version; and the
//! remarks on them.
ghost use Rattle.std.specs.Prelude.{◌≡◌, ◌+◌, ◌<◌, ◌≤◌, ◌^◌, [], ◌∷◌, ◌++◌, ◌&&◌, List, length, map, All, IfOk, OnOk};
ghost use Rattle.std.specs.Str.{bytes_eq};
ghost use Rattle.trace_model.specs.Remarks.{Keys};
ghost use Rattle.trace_model.specs.Soundness.{IsSoundGroup};
ghost use Rattle.trace_model.specs.declared.place.Place.TheVariants as places;
ghost use Rattle.trace_model.specs.declared.group.Group as model;
ghost use Rattle.trace_model.specs.declared.value.Value.TheVariants as values;
ghost use Rattle.map_zipkin.specs.NotedGroups.{left_out_remarks, noted_group, noted_groups_of, with_left_out};
ghost use Rattle.map_zipkin.specs.private.ReadGroups.{groups_joined, last_alone, moved_to, spans_of_last, with_groups, IsAdded, IsAlone};
ghost use Rattle.map_zipkin.specs.Reading.{groups_of};
ghost use Rattle.map_zipkin.specs.Regrouped as told;

use crate::reading::triple_by;
use crate::run::Run;
use span_io::{Items, OutOfMemory, Text};
use span_tags::{ReadSpan, Runs};
use std::alloc::Global;
use trace_model::{Attrs, EventReader, Group, Place, Remark, Span, Value};
use zipkin_json::ZSpan;

// ---- equal resources

fn same_text(value: &Value, other: &Value) -> bool
    ensures { result ≡ told.same_text value.now other.now }
{
    match value {
        Value::Text(text) => is_text(other, text.as_str()),
        _ => false,
    }
}

fn is_text(value: &Value, text: &str) -> bool
    ensures { result ≡ told.same_text (values.Text text.now) value.now }
{
    match value {
        Value::Text(held) => text == held.as_str(),
        _ => false,
    }
}

fn same_pair(pair: &(Text, Value), other: &(Text, Value)) -> bool
    ensures { result ≡ (bytes_eq pair.now.0 other.now.0 && told.same_text pair.now.1 other.now.1) }
{
    pair.0.as_str() == other.0.as_str() && same_text(&pair.1, &other.1)
}

fn same_resource(resource: &Attrs, other: &Attrs) -> bool
    ensures { result ≡ told.same_resource resource.now other.now }
{
    let others = other.as_slice();
    'pairs: for (i, pair) in resource.as_slice().iter().enumerate() {
        let Some(other) = others.get(i) else {
            return false;
        };
        if !same_pair(pair, other) {
            return false;
        }
    }
    others.len() <= resource.len()
}

// ---- groups

// Adds remarks at the end, each at this place.
fn remark_at(
    remarks: &mut Items<Remark>,
    place: Place,
    more: Items<Remark>,
) -> Result<(), OutOfMemory>
    ensures { OnOk result (remarks.new ≡ remarks.old ++ map (moved_to place) more) }
{
    'remarks: for remark in more.into_vec() {
        let Remark { kind, key, .. } = remark;
        remarks.push(Remark { place, kind, key })?;
    }
    Ok(())
}

// A span that was read: its run, and the remarks on it, which stand at the place of the first span.
#[derive(Drop)]
struct NotedSpan {
    run: Run,
    span: Span,
    remarks: Items<Remark>,
}

// Spans of one resource, in their scopes: how many there are, and the remarks on them.
#[derive(Drop)]
struct Last {
    resource: Attrs,
    scopes: Runs,
    spans: u32,
    remarks: Items<Remark>,
}

impl Last {
    fn of(alloc: Global, one: NotedSpan) -> Result<Last, OutOfMemory>
        ensures alone { IfOk result (λ last. (keys : Keys) → one.remarks ≡ left_out_remarks 1 keys
            → IsAlone (one.run, one.span) keys last) }
        ensures count { IfOk result (λ last. last.spans ≡ 1) }
    {
        let NotedSpan { run, span, remarks } = one;
        let first = ReadSpan {
            name: run.name,
            version: run.version,
            span,
        };
        let scopes = Runs::none(alloc).add(alloc, first)?;
        Ok(Last {
            resource: run.resource,
            scopes,
            spans: 1,
            remarks,
        })
    }

    // With one more span of the resource.
    fn with(self, alloc: Global, one: NotedSpan) -> Result<Last, OutOfMemory>
        requires counted { self.spans + 1 < 2 ^ 32 }
        ensures added { IfOk result (λ more. (keys : Keys) → one.remarks ≡ left_out_remarks 1 keys
            → IsAdded (one.run, one.span) keys self more) }
        ensures count { IfOk result (λ more. more.spans ≡ self.spans + 1) }
    {
        let NotedSpan { run, span, remarks } = one;
        let next = ReadSpan {
            name: run.name,
            version: run.version,
            span,
        };
        let scopes = self.scopes.add(alloc, next)?;
        let spans = self.spans + 1;
        let mut all = self.remarks;
        remark_at(&mut all, Place::Span(spans), remarks)?;
        Ok(Last {
            resource: self.resource,
            scopes,
            spans,
            remarks: all,
        })
    }

    fn group(self, alloc: Global) -> Result<(Group, Items<Remark>), OutOfMemory>
        ensures { IfOk result (λ group. noted_group group ≡ last_alone self) }
    {
        let scopes = self.scopes.finish(alloc)?;
        let group = Group {
            resource: self.resource,
            dropped: 0,
            schema_url: Text::new(alloc),
            scopes,
        };
        Ok((group, self.remarks))
    }
}

// The groups of the spans so far.
#[derive(Drop)]
struct Groups {
    done: Items<(Group, Items<Remark>)>,
    last: Option<Last>,
}

impl Groups {
    // Those of no spans.
    fn none(alloc: Global) -> Groups
        ensures groups { (groups : List model.Group) (left_out : List Keys)
            → with_groups result groups left_out ≡ with_left_out groups left_out }
        ensures count { spans_of_last result.last ≡ 0 }
    {
        Groups {
            done: Items::new(alloc),
            last: None,
        }
    }

    // The groups with one more span.
    fn add(self, alloc: Global, one: NotedSpan) -> Result<Groups, OutOfMemory>
        requires counted { spans_of_last self.last + 1 < 2 ^ 32 }
        ensures groups { IfOk result
            (λ more. (keys : Keys) (groups : List model.Group) (left_out : List Keys)
            → one.remarks ≡ left_out_remarks 1 keys
            → with_groups more groups left_out
            ≡ with_groups self (told.before (one.run, one.span) groups) (keys ∷ left_out)) }
        ensures count { IfOk result
            (λ more. spans_of_last more.last ≤ spans_of_last self.last + 1) }
    {
        let Groups { done, last } = self;
        match last {
            None => begin(alloc, done, one),
            Some(last) => behind(alloc, done, last, one),
        }
    }

    // All groups.
    fn finish(self, alloc: Global) -> Result<Items<(Group, Items<Remark>)>, OutOfMemory>
        ensures { IfOk result (λ groups. map noted_group groups ≡ with_groups self [] []) }
    {
        let mut done = self.done;
        if let Some(last) = self.last {
            done.push(last.group(alloc)?)?;
        }
        Ok(done)
    }
}

// A group of one span, behind these groups.
fn begin(
    alloc: Global,
    done: Items<(Group, Items<Remark>)>,
    one: NotedSpan,
) -> Result<Groups, OutOfMemory>
    ensures groups { IfOk result
        (λ more. (keys : Keys) (groups : List model.Group) (left_out : List Keys)
        → one.remarks ≡ left_out_remarks 1 keys → with_groups more groups left_out
        ≡ map noted_group done
        ++ with_left_out (told.before (one.run, one.span) groups) (keys ∷ left_out)) }
    ensures count { IfOk result (λ more. spans_of_last more.last ≡ 1) }
{
    let first = Last::of(alloc, one)?;
    Ok(Groups {
        done,
        last: Some(first),
    })
}

// One more span, behind these groups and that last one.
fn behind(
    alloc: Global,
    done: Items<(Group, Items<Remark>)>,
    last: Last,
    one: NotedSpan,
) -> Result<Groups, OutOfMemory>
    requires counted { last.spans + 1 < 2 ^ 32 }
    ensures groups { IfOk result
        (λ more. (keys : Keys) (groups : List model.Group) (left_out : List Keys)
        → one.remarks ≡ left_out_remarks 1 keys → with_groups more groups left_out
        ≡ map noted_group done
        ++ groups_joined last (told.before (one.run, one.span) groups) (keys ∷ left_out)) }
    ensures count { IfOk result (λ more. spans_of_last more.last ≤ last.spans + 1) }
{
    let mut done = done;
    if same_resource(&last.resource, &one.run.resource) {
        let more = last.with(alloc, one)?;
        return Ok(Groups {
            done,
            last: Some(more),
        });
    }
    done.push(last.group(alloc)?)?;
    let next = Last::of(alloc, one)?;
    Ok(Groups {
        done,
        last: Some(next),
    })
}

// The groups of spans, one span after the other.
fn gathered(
    alloc: Global,
    spans: Items<ZSpan>,
) -> Result<Items<(Group, Items<Remark>)>, OutOfMemory>
    requires counted { length spans < 2 ^ 32 }
    ensures { IfOk result (λ groups. map noted_group groups ≡ noted_groups_of spans) }
{
    let mut so_far = Groups::none(alloc);
    let mut reader = EventReader::new();
    'spans: for span in spans.into_vec() {
        let (run, read, remarks) = triple_by(alloc, &mut reader, span)?;
        so_far = so_far.add(
            alloc,
            NotedSpan {
                run,
                span: read,
                remarks,
            },
        )?;
    }
    so_far.finish(alloc)
}

/// The groups that spans of Zipkin are, with the remarks on each: maximal runs of equal resource, and
/// in them scopes, which are those of equal name and version.
pub fn groups_of_spans(
    alloc: Global,
    spans: Items<ZSpan>,
) -> Result<Items<(Group, Items<Remark>)>, OutOfMemory>
    requires counted { length spans < 2 ^ 32 }
    ensures value { IfOk result (λ groups. map (λ group. group.0) groups ≡ groups_of spans) }
    ensures remarks { IfOk result (λ groups. map noted_group groups ≡ noted_groups_of spans) }
    ensures sound { IfOk result (All (λ group. IsSoundGroup group.0)) }
{
    trace_model::laws::event_texts_exact();
    trace_model::laws::event_texts_once();
    let groups = gathered(alloc, spans)?;
    Ok(groups)
}
