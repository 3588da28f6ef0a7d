//! What writes each unit of an input at once, whatever it is written as.
ghost use Rattle.std.specs.Prelude.{◌≡◌, ◌<◌, OnOk};
ghost use Rattle.span_io.specs.Outside.{last_count};
ghost use Rattle.trace_model.specs.Soundness.{IsSoundGroup};
ghost use Rattle.map_zipkin.specs.NotedGroups.{noted_group};
ghost use Rattle.span_convert.specs.Pens.{unit_pen_stands, units_written_by};
ghost use Rattle.span_convert.specs.private.PenTargets.{unit_pen_target};
ghost use Rattle.span_convert.specs.private.WalkSteps.{ClosesText, IfWhy, WritesUnit};

use crate::batch_file::{BinaryBatches, CompactBatches};
use crate::check_writer::CheckWriter;
use crate::group_file::GroupFile;
use crate::losing::LastRun;
use crate::loss_writer::LossWriter;
use crate::request::Request;
use crate::show_writer::ShowWriter;
use crate::tally::Tally;
use crate::units::UnitWriter;
use span_io::{Blob, Halt, Items, OutOfMemory};
use std::alloc::Global;
use trace_model::{Fault, Group, Remark};

/// The writer of the units of one input, each of which it writes at once.
#[derive(Drop)]
pub(crate) enum UnitPen {
    Request(Request),
    GroupFile(GroupFile),
    BinaryBatches(BinaryBatches),
    CompactBatches(CompactBatches),
    RequestLosses(LossWriter<Request>),
    GroupFileLosses(LossWriter<GroupFile>),
    BinaryLosses(LossWriter<BinaryBatches>),
    CompactLosses(LossWriter<CompactBatches>),
    SpanFileLosses(LossWriter<LastRun>),
    Show(ShowWriter),
    Check(CheckWriter),
}

impl UnitPen {
    /// Appends what a unit adds to the text of so many units and spans, or answers the fault in it,
    /// and leaves `out` as it was.
    pub(crate) fn write(
        &mut self,
        alloc: Global,
        out: &mut Blob,
        before: Tally,
        unit: (Group, Items<Remark>),
    ) -> Result<(), Halt<Fault>>
        requires room { before.units < last_count }
        requires sound { IsSoundGroup unit.0 }
        ensures same { units_written_by self.new ≡ units_written_by self.old }
        ensures ok { OnOk result
            (WritesUnit (unit_pen_target self.old) unit_pen_stands (noted_group unit) before
            self.old self.new out.old out.new) }
        ensures why { IfWhy result
            (λ fault. (unit_pen_target self.old).FaultOf (noted_group unit) fault
            × (out.new ≡ out.old)) }
    {
        match self {
            UnitPen::Request(writer) => writer.write(alloc, out, before, unit),
            UnitPen::GroupFile(writer) => writer.write(alloc, out, before, unit),
            UnitPen::BinaryBatches(writer) => writer.write(alloc, out, before, unit),
            UnitPen::CompactBatches(writer) => writer.write(alloc, out, before, unit),
            UnitPen::RequestLosses(writer) => writer.write(alloc, out, before, unit),
            UnitPen::GroupFileLosses(writer) => writer.write(alloc, out, before, unit),
            UnitPen::BinaryLosses(writer) => writer.write(alloc, out, before, unit),
            UnitPen::CompactLosses(writer) => writer.write(alloc, out, before, unit),
            UnitPen::SpanFileLosses(writer) => writer.write(alloc, out, before, unit),
            UnitPen::Show(writer) => writer.write(alloc, out, before, unit),
            UnitPen::Check(writer) => writer.write(alloc, out, before, unit),
        }
    }

    /// Appends what closes the text of so many units and spans.
    pub(crate) fn close(&self, out: &mut Blob, all: Tally) -> Result<(), OutOfMemory>
        ensures { OnOk result
            (ClosesText (unit_pen_target self.now) unit_pen_stands self.now all out.old out.new) }
    {
        match self {
            UnitPen::Request(writer) => writer.close(out, all),
            UnitPen::GroupFile(writer) => writer.close(out, all),
            UnitPen::BinaryBatches(writer) => writer.close(out, all),
            UnitPen::CompactBatches(writer) => writer.close(out, all),
            UnitPen::RequestLosses(writer) => writer.close(out, all),
            UnitPen::GroupFileLosses(writer) => writer.close(out, all),
            UnitPen::BinaryLosses(writer) => writer.close(out, all),
            UnitPen::CompactLosses(writer) => writer.close(out, all),
            UnitPen::SpanFileLosses(writer) => writer.close(out, all),
            UnitPen::Show(writer) => writer.close(out, all),
            UnitPen::Check(writer) => writer.close(out, all),
        }
    }
}
