//! What a move to a form loses of groups, one after the other.
ghost use Rattle.std.specs.Prelude.{◌≡◌, ◌++◌, ◌∷◌, [], List, IfOk, OnOk, MatchOption};
ghost use Rattle.span_io.specs.declared.form.Form.{Form};
ghost use Rattle.span_io.specs.declared.form.Form.TheVariants as forms;
ghost use Rattle.trace_model.specs.Soundness.{IsSoundGroup};
ghost use Rattle.trace_model.specs.declared.group.Group.{Group};
ghost use Rattle.map_zipkin.specs.Faults.{HasNoZipkinFault};
ghost use Rattle.map_zipkin.specs.Losses as zipkin;
ghost use Rattle.span_convert.specs.Reports as told;
ghost use Rattle.span_convert.specs.Units.{CanHold, FaultOf};
ghost use Rattle.span_convert.specs.Pens.{HasLastRun, StandsForAny};

use crate::batch_file::{Batches, BinaryBatches, CompactBatches};
use crate::group_file::GroupFile;
use crate::request::Request;
use map_zipkin::{Run, last_run};
use span_io::{Items, OutOfMemory};
use std::alloc::Global;
use trace_model::{Fault, Group, Loss};

/// Looks for what a move to one form loses.
pub(crate) trait Losing: Drop {
    ghost form: { Form };

    // It looked at these groups, and the next one stands behind them.
    ghost behind: { Self → List Group → Type 0 };

    /// No group was looked at.
    fn start() -> Self
        ensures { behind result [] };

    /// The fault of a group, or none where the form can hold it.
    fn fault_of(alloc: Global, group: &Group) -> Result<Option<Fault>, OutOfMemory>
        requires sound { IsSoundGroup group.now }
        ensures { IfOk result
            (λ found. MatchOption found (CanHold form group.now) (FaultOf form group.now)) };

    /// What is lost of the next group, which the form can hold.
    fn losses_of(&mut self, alloc: Global, group: &Group) -> Result<Items<Loss>, OutOfMemory>
        requires sound { IsSoundGroup group.now }
        requires no_fault { CanHold form group.now }
        ensures value { IfOk result (λ losses. (groups : List Group) → behind self.old groups
            → losses ≡ told.form_losses form (told.last_run_in groups) group.now) }
        ensures behind { OnOk result ((groups : List Group) → behind self.old groups
            → behind self.new (groups ++ group.now ∷ [])) };
}

/// OTLP in protobuf can hold each group, and loses nothing.
impl Losing for Request {
    ghost form = { forms.OtlpProto };

    ghost behind = { StandsForAny };

    fn start() -> Self {
        Request
    }

    fn fault_of(_alloc: Global, _group: &Group) -> Result<Option<Fault>, OutOfMemory> {
        Ok(None)
    }

    fn losses_of(&mut self, alloc: Global, _group: &Group) -> Result<Items<Loss>, OutOfMemory> {
        Ok(Items::new(alloc))
    }
}

/// OTLP in JSON loses nothing of a group in which no double stands.
impl Losing for GroupFile {
    ghost form = { forms.OtlpJson };

    ghost behind = { StandsForAny };

    fn start() -> Self {
        GroupFile
    }

    fn fault_of(_alloc: Global, group: &Group) -> Result<Option<Fault>, OutOfMemory> {
        Ok(otlp_json::fault_of_group(group))
    }

    fn losses_of(&mut self, alloc: Global, _group: &Group) -> Result<Items<Loss>, OutOfMemory> {
        Ok(Items::new(alloc))
    }
}

impl Losing for BinaryBatches {
    ghost form = { forms.JaegerBinary };

    ghost behind = { StandsForAny };

    fn start() -> Self {
        Batches::new()
    }

    fn fault_of(alloc: Global, group: &Group) -> Result<Option<Fault>, OutOfMemory> {
        map_jaeger::fault_of_group(alloc, group)
    }

    fn losses_of(&mut self, alloc: Global, group: &Group) -> Result<Items<Loss>, OutOfMemory> {
        map_jaeger::losses(alloc, group)
    }
}

impl Losing for CompactBatches {
    ghost form = { forms.JaegerCompact };

    ghost behind = { StandsForAny };

    fn start() -> Self {
        Batches::new()
    }

    fn fault_of(alloc: Global, group: &Group) -> Result<Option<Fault>, OutOfMemory> {
        map_jaeger::fault_of_group(alloc, group)
    }

    fn losses_of(&mut self, alloc: Global, group: &Group) -> Result<Items<Loss>, OutOfMemory> {
        map_jaeger::losses(alloc, group)
    }
}

/// The run of the last span so far, if there was one: a span of Zipkin behind it may join it.
#[derive(Drop)]
pub(crate) struct LastRun {
    run: Option<Run>,
}

// The run of the last span, behind this group.
fn run_behind(alloc: Global, before: Option<Run>, group: &Group) -> Result<Option<Run>, OutOfMemory>
    requires sound { IsSoundGroup group.now }
    requires no_fault { HasNoZipkinFault group.now }
    ensures { IfOk result (λ run. run ≡ zipkin.run_behind before group.now) }
{
    match last_run(alloc, group)? {
        Some(run) => Ok(Some(run)),
        None => Ok(before),
    }
}

impl Losing for LastRun {
    ghost form = { forms.ZipkinJson };

    ghost behind = { HasLastRun };

    fn start() -> Self {
        LastRun { run: None }
    }

    fn fault_of(alloc: Global, group: &Group) -> Result<Option<Fault>, OutOfMemory> {
        map_zipkin::fault_of_group(alloc, group)
    }

    fn losses_of(&mut self, alloc: Global, group: &Group) -> Result<Items<Loss>, OutOfMemory> {
        let losses = map_zipkin::losses(alloc, group, self.run.as_ref())?;
        let before = self.run.take();
        self.run = run_behind(alloc, before, group)?;
        Ok(losses)
    }
}
