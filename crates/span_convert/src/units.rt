//! What the walk over an input asks of its form, and of its target.
ghost use Rattle.std.specs.Prelude.{◌≡◌, ◌<◌, ◌^◌, ◌++◌, if◌then◌else◌, [], List, length, map, All, IfOk, IfSome, OnOk};
ghost use Rattle.span_io.specs.Causes.{cause_number};
ghost use Rattle.span_io.specs.Offences.{Least};
ghost use Rattle.span_io.specs.Paths.{RefusesInput};
ghost use Rattle.span_io.specs.Outside.{last_count};
ghost use Rattle.trace_model.specs.OtlpParts.{NotedGroup};
ghost use Rattle.trace_model.specs.Soundness.{IsSoundGroup};
ghost use Rattle.map_zipkin.specs.NotedGroups.{noted_group};
ghost use Rattle.span_convert.specs.Documents.{DocumentForm};
ghost use Rattle.span_convert.specs.FramedForms.{FramedForm};
ghost use Rattle.span_convert.specs.Targets.{Target};
ghost use Rattle.span_convert.specs.private.TargetSteps.{TargetLaws};
ghost use Rattle.span_convert.specs.Units as told;
ghost use Rattle.span_convert.specs.private.WalkSteps.{lent_bytes, ClosesText, HeldByFrames, Scans, WritesUnit, IfWhy};

use crate::tally::Tally;
use span_io::{Blob, Cause, Form, Halt, Items, Limits, OutOfMemory, Refusal, Scan, Step};
use std::alloc::Global;
use trace_model::{Fault, Group, Remark};

/// The most bytes that an input may have.
pub(crate) fn input_limit(from: Form, limits: &Limits) -> u64
    ensures { result ≡ told.input_limit from limits.now }
{
    match from {
        Form::OtlpProto | Form::JaegerBinary | Form::JaegerCompact => limits.binary,
        Form::OtlpJson | Form::ZipkinJson => limits.json as u64,
    }
}

/// Reads the units of an input of one form, whose units stand in frames.
pub(crate) trait UnitReader {
    ghost form: { FramedForm };

    /// Finds where its frames end.
    type Scanner: Scan;

    /// The units of an input are those that its frames hold, however its bytes come.
    fn held_by_frames()
        ensures { HeldByFrames form };

    /// Takes a piece up to the end of a frame.
    fn push(scanner: &mut Self::Scanner, piece: &[u8]) -> Step
        ensures { Scans form (Self.Scanner.scanning scanner.old)
            (Self.Scanner.scanning scanner.new) piece.now result };

    /// The unit in a frame, if it holds one.
    fn unit_in<'a>(frame: &'a [u8]) -> Option<&'a [u8]>
        requires whole { form.frames.Whole frame.now }
        ensures holds { form.FrameHolds frame.now (lent_bytes result) }
        ensures framed { IfSome result (λ unit. form.Tells unit.now) };

    /// The group that a unit is a text of, with the remarks on it, or the least offence in the unit.
    fn read(alloc: Global, unit: &[u8]) -> Result<(Group, Items<Remark>), Halt<Cause>>
        requires framed { form.Tells unit.now }
        requires counted { length unit.now < 2 ^ 32 }
        ensures value { IfOk result (λ read. form.IsUnit unit.now (noted_group read)) }
        ensures sound { IfOk result (λ read. IsSoundGroup read.0) }
        ensures why { IfWhy result (λ cause. Least (form.Offends unit.now) (cause_number cause)) };
}

/// Reads the groups of an input of one form, which is a document.
pub(crate) trait DocumentReader {
    ghost form: { DocumentForm };

    /// The groups that the bytes are a text of, with the remarks on each, or the least offence in
    /// the bytes.
    fn read(alloc: Global, bytes: &[u8]) -> Result<Items<(Group, Items<Remark>)>, Halt<Refusal>>
        requires counted { length bytes.now < 2 ^ 32 }
        ensures value { IfOk result (λ read. form.Reads bytes.now (map noted_group read)) }
        ensures sound { IfOk result (All (λ unit. IsSoundGroup unit.0)) }
        ensures why { IfWhy result (λ refusal. RefusesInput (form.Offends bytes.now) refusal) };
}

/// Appends these bytes, where they are wanted.
pub(crate) fn append_if(out: &mut Blob, wanted: bool, bytes: &[u8]) -> Result<(), OutOfMemory>
    ensures { OnOk result (out.new ≡ out.old ++ (if wanted then bytes.now else [])) }
{
    if wanted { out.append(bytes) } else { Ok(()) }
}

/// Writes units to one target, one behind the other.
pub(crate) trait UnitWriter: Drop {
    ghost target: { Target };

    // The writer stands for these units, and writes the next one behind them.
    ghost stands: { Self → List NotedGroup → Type 0 };

    /// What the target keeps.
    fn target_laws()
        ensures { TargetLaws target };

    /// A writer that wrote nothing.
    fn none() -> Self
        ensures { stands result [] };

    /// Appends what a unit adds to the text of so many units and spans, or answers the fault in it,
    /// and leaves `out` as it was.
    fn write(
        &mut self,
        alloc: Global,
        out: &mut Blob,
        before: Tally,
        unit: (Group, Items<Remark>),
    ) -> Result<(), Halt<Fault>>
        requires room { before.units < last_count }
        requires sound { IsSoundGroup unit.0 }
        ensures ok { OnOk result
            (WritesUnit target stands (noted_group unit) before self.old self.new out.old out.new) }
        ensures why { IfWhy result
            (λ fault. target.FaultOf (noted_group unit) fault × (out.new ≡ out.old)) };

    /// Appends what closes the text of so many units and spans.
    fn close(&self, out: &mut Blob, all: Tally) -> Result<(), OutOfMemory>
        ensures { OnOk result (ClosesText target stands self.now all out.old out.new) };
}
