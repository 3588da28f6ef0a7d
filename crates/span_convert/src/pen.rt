//! What writes the units of an input, whatever they are written as.
ghost use Rattle.std.specs.Prelude.{◌≡◌, ◌<◌, ◌++◌, IfOk, OnOk};
ghost use Rattle.span_io.specs.Outside.{last_count};
ghost use Rattle.trace_model.specs.Soundness.{IsSoundGroup};
ghost use Rattle.map_zipkin.specs.NotedGroups.{noted_group};
ghost use Rattle.span_convert.specs.Pens.{pen_stands, written_by};
ghost use Rattle.span_convert.specs.private.PenTargets.{pen_target};
ghost use Rattle.span_convert.specs.SpanFiles.{left_text};
ghost use Rattle.span_convert.specs.private.TargetSteps.{TargetLaws};
ghost use Rattle.span_convert.specs.private.WalkSteps.{ClosesText, IfWhy, WritesUnit};

use crate::laws::form_targets;
use crate::span_file::{SpanFile, SpansLeft};
use crate::tally::Tally;
use crate::unit_pen::UnitPen;
use span_io::{Blob, Halt, Items, OutOfMemory};
use std::alloc::Global;
use trace_model::{Fault, Group, Remark};

/// The writer of the units of one input.
#[derive(Drop)]
pub(crate) enum Pen {
    /// Writes the spans of a unit one at a time.
    Spans(SpanFile),
    /// Writes each unit at once.
    Units(UnitPen),
}

impl Pen {
    /// What the target keeps.
    pub(crate) fn target_laws(&self)
        ensures { TargetLaws (pen_target self.now) }
    {
        form_targets();
    }

    /// Appends what a unit adds to the text of so many units and spans, but for the spans that it
    /// answers, which are left to be written; or answers the fault in it, and leaves `out` as it was.
    pub(crate) fn write(
        &mut self,
        alloc: Global,
        out: &mut Blob,
        before: Tally,
        unit: (Group, Items<Remark>),
    ) -> Result<SpansLeft, Halt<Fault>>
        requires room { before.units < last_count }
        requires sound { IsSoundGroup unit.0 }
        ensures same { written_by self.new ≡ written_by self.old }
        ensures ok { IfOk result
            (λ left. WritesUnit (pen_target self.old) pen_stands (noted_group unit) before
            self.old self.new out.old (out.new ++ left_text left)) }
        ensures why { IfWhy result
            (λ fault. (pen_target self.old).FaultOf (noted_group unit) fault
            × (out.new ≡ out.old)) }
    {
        match self {
            Pen::Spans(writer) => writer.open(alloc, out, before, unit),
            Pen::Units(pen) => {
                pen.write(alloc, out, before, unit)?;
                Ok(SpansLeft::none(alloc))
            }
        }
    }

    /// Appends what closes the text of so many units and spans.
    pub(crate) fn close(&self, out: &mut Blob, all: Tally) -> Result<(), OutOfMemory>
        ensures { OnOk result
            (ClosesText (pen_target self.now) pen_stands self.now all out.old out.new) }
    {
        match self {
            Pen::Spans(writer) => writer.close(out, all),
            Pen::Units(pen) => pen.close(out, all),
        }
    }
}
