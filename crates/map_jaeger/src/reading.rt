//! Batches of Jaeger as groups of a trace.
ghost use Rattle.std.specs.Prelude.{◌≡◌, IfOk};
ghost use Rattle.jaeger_model.specs.Counted.{IsCountedBatch};
ghost use Rattle.trace_model.specs.Soundness.{IsSoundGroup};
ghost use Rattle.map_jaeger.specs.Reading.{group_of};
ghost use Rattle.map_jaeger.specs.Remarks.{AreRemarks};

mod attributes;
mod columns;
mod events;
mod links;
mod remarks;
mod spans;
mod tags;
mod values;

use attributes::process_attributes;
use jaeger_model::Batch;
use span_io::{Items, OutOfMemory, Text};
use span_tags::{is_there, remark_if};
use spans::scopes_of;
use std::alloc::Global;
use tags::attributes_of;
use trace_model::{Group, Place, Remark, remark_all, remark_keys};

/// The group that a batch means (OpenTelemetry exporter page for Jaeger, read backwards), and the
/// remarks on it.
pub fn group_of_batch(alloc: Global, batch: Batch) -> Result<(Group, Items<Remark>), OutOfMemory>
    requires counted { IsCountedBatch batch }
    ensures value { IfOk result (λ parts. parts.0 ≡ group_of batch) }
    ensures remarks { IfOk result (λ parts. AreRemarks batch parts.1) }
    ensures sound { IfOk result (λ parts. IsSoundGroup parts.0) }
{
    let (tags, keys) = attributes_of(alloc, batch.tags)?;
    let read = scopes_of(alloc, batch.spans)?;
    let mut remarks = Items::new(alloc);
    remark_keys(&mut remarks, Place::Resource, keys)?;
    let key = "service.name";
    remark_if(
        alloc,
        &mut remarks,
        Place::Resource,
        key,
        is_there(&tags, key),
    )?;
    remark_all(&mut remarks, read.notes)?;
    let resource = process_attributes(alloc, batch.service, tags)?;
    let group = Group {
        resource,
        dropped: 0,
        schema_url: Text::new(alloc),
        scopes: read.means,
    };
    Ok((group, remarks))
}
