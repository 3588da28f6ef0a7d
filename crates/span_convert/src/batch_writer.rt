//! Writes the batches of a file of Jaeger.
ghost use Rattle.std.specs.Prelude.{◌≡◌, ◌++◌, Some, IfOk, OnOk};
ghost use Rattle.jaeger_model.specs.Canonical.{batch_text};
ghost use Rattle.jaeger_model.specs.Writable.{IsWritable};
ghost use Rattle.map_jaeger.specs.Faults.{HasNoFault, IsFaultOf};
ghost use Rattle.map_jaeger.specs.StatedLaws.{IsHeld};
ghost use Rattle.map_jaeger.specs.Normal.{normal_group};
ghost use Rattle.map_jaeger.specs.Writing.{batch_of};
ghost use Rattle.span_io.specs.declared.form.Form.TheVariants as forms;
ghost use Rattle.span_convert.specs.Targets.{form_target};
ghost use Rattle.span_convert.specs.Pens.{StandsForAny};
ghost use Rattle.span_convert.specs.private.WalkSteps.{IfWhy};
ghost use Rattle.trace_model.specs.Soundness.{IsSoundGroup};

use crate::batch_file::{Batches, BinaryBatches, CompactBatches};
use crate::laws::form_targets;
use crate::tally::Tally;
use crate::units::UnitWriter;
use jaeger_model::{Batch, proper_sizes, write_batch};
use map_jaeger::batch_of_group;
use map_jaeger::laws::normal_forms;
use span_io::{Blob, Halt, Items, OutOfMemory};
use std::alloc::Global;
use thrift_binary::Binary;
use thrift_compact::Compact;
use thrift_core::Protocol;
use trace_model::{Fault, Group, Remark, proper_group};

// The batch of a group.
fn writable_batch(alloc: Global, group: Group) -> Result<Batch, Halt<Fault>>
    requires sound { IsSoundGroup group }
    ensures value { IfOk result
        (λ batch. (batch ≡ batch_of group) × IsWritable batch × HasNoFault group) }
    ensures why { IfWhy result (λ fault. IsFaultOf group (Some fault)) }
{
    let batch = batch_of_group(alloc, group)?;
    proper_sizes(&batch);
    Ok(batch)
}

// Appends the batch of a group, or answers the fault in it, and leaves `out` as it was.
fn write_unit<P: Protocol>(alloc: Global, out: &mut Blob, group: Group) -> Result<(), Halt<Fault>>
    requires sound { IsSoundGroup group }
    ensures ok { OnOk result (IsHeld group × IsWritable (batch_of group)
        × (out.new ≡ out.old ++ batch_text P.keeps P.writes (batch_of (normal_group group)))) }
    ensures why { IfWhy result (λ fault. IsFaultOf group (Some fault) × (out.new ≡ out.old)) }
{
    normal_forms();
    proper_group(&group);
    let batch = writable_batch(alloc, group)?;
    Ok(write_batch::<P>(out, &batch)?)
}

impl UnitWriter for BinaryBatches {
    ghost target = { form_target forms.JaegerBinary };

    ghost stands = { StandsForAny };

    fn target_laws() {
        form_targets();
    }

    fn none() -> Self {
        Batches::new()
    }

    fn write(
        &mut self,
        alloc: Global,
        out: &mut Blob,
        _before: Tally,
        unit: (Group, Items<Remark>),
    ) -> Result<(), Halt<Fault>> {
        write_unit::<Binary>(alloc, out, unit.0)
    }

    fn close(&self, _out: &mut Blob, _all: Tally) -> Result<(), OutOfMemory> {
        Ok(())
    }
}

impl UnitWriter for CompactBatches {
    ghost target = { form_target forms.JaegerCompact };

    ghost stands = { StandsForAny };

    fn target_laws() {
        form_targets();
    }

    fn none() -> Self {
        Batches::new()
    }

    fn write(
        &mut self,
        alloc: Global,
        out: &mut Blob,
        _before: Tally,
        unit: (Group, Items<Remark>),
    ) -> Result<(), Halt<Fault>> {
        write_unit::<Compact>(alloc, out, unit.0)
    }

    fn close(&self, _out: &mut Blob, _all: Tally) -> Result<(), OutOfMemory> {
        Ok(())
    }
}
