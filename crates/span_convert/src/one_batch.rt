//! Conversion of an input that is known to be one batch of Jaeger.
ghost use Rattle.std.specs.Prelude.{◌≡◌, ◌≤◌, ◌<◌, ◌^◌, Some, List, [], length, IfOk, IfErr, OnOk};
ghost use Rattle.span_io.specs.Limits.{AreLimits};
ghost use Rattle.span_io.specs.Outside.{Outlet, last_count};
ghost use Rattle.span_io.specs.declared.limits.Limits.{Limits};
ghost use Rattle.trace_model.specs.OtlpParts.{NotedGroup};
ghost use Rattle.span_convert.specs.private.States.{bad_in, state_at};
ghost use Rattle.span_convert.specs.OneBatches.{ConvertsAll, IsOneBatch};
ghost use Rattle.span_convert.specs.Reports.{written_target};
ghost use Rattle.span_convert.specs.Targets.{open_target};
ghost use Rattle.span_convert.specs.Units.{framed_input, input_form, open_form, open_frames};
ghost use Rattle.span_convert.specs.Verdicts.{Verdict, IsVerdict, Answers};
ghost use Rattle.span_convert.specs.private.WalkSteps.{Converted, StopsWalk};
ghost use Rattle.span_convert.specs.declared.written.Written.{Written};

use crate::bad::Bad;
use crate::batch_file::{BinaryBatches, CompactBatches};
use crate::growing_sink::GrowingSink;
use crate::laws::{one_verdict, outlook_lasts, some_verdict};
use crate::progress::{Progress, WalkStop};
use crate::units::UnitReader;
use crate::walk::convert_frame;
use crate::written::Written;
use span_io::laws::proper_bytes;
use span_io::{Blob, Form, Limits, OutOfMemory, Sink};
use std::alloc::Global;

// Converts the one frame of an input.
fn convert_whole<R: UnitReader, K: Sink>(
    progress: &mut Progress,
    alloc: Global,
    frame: &[u8],
    out: &mut K,
) -> Result<(), WalkStop>
    requires room { progress.old.tally.units < last_count }
    requires whole { R.form.frames.Whole frame.now }
    requires counted { length frame.now < 2 ^ 32 }
    ensures ok { OnOk result ((what : Written) (limits : Limits) → length frame.now ≤ limits.unit
        → length frame.now ≤ limits.binary
        → Converted what [] [] (K.outlet out.old) (K.outlet out.old) progress.old
        → ConvertsAll (framed_input R.form) what limits frame.now (K.outlet out.old)
        (K.outlet out.new) progress.new) }
    ensures stop { IfErr result
        (λ stop. (what : Written) (limits : Limits) → length frame.now ≤ limits.unit
        → length frame.now ≤ limits.binary
        → Converted what [] [] (K.outlet out.old) (K.outlet out.old) progress.old
        → StopsWalk (open_frames R.form)
        (open_target (written_target what)) limits frame.now stop []
        (K.outlet out.old) (K.outlet out.new)) }
{
    R::held_by_frames();
    convert_frame::<R, K>(progress, alloc, frame, out)
}

// Converts the one batch of an input of this form.
fn convert_one<K: Sink>(
    progress: &mut Progress,
    alloc: Global,
    from: Form,
    batch: &[u8],
    out: &mut K,
) -> Result<(), WalkStop>
    requires room { progress.old.tally.units < last_count }
    requires one { IsOneBatch from batch.now }
    requires counted { length batch.now < 2 ^ 32 }
    ensures ok { OnOk result ((what : Written) (limits : Limits) → length batch.now ≤ limits.unit
        → length batch.now ≤ limits.binary
        → Converted what [] [] (K.outlet out.old) (K.outlet out.old) progress.old
        → ConvertsAll (input_form from) what limits batch.now (K.outlet out.old)
        (K.outlet out.new) progress.new) }
    ensures stop { IfErr result
        (λ stop. (what : Written) (limits : Limits) → length batch.now ≤ limits.unit
        → length batch.now ≤ limits.binary
        → Converted what [] [] (K.outlet out.old) (K.outlet out.old) progress.old
        → StopsWalk (open_form from) (open_target (written_target what)) limits batch.now stop []
        (K.outlet out.old) (K.outlet out.new)) }
{
    match from {
        Form::JaegerBinary => convert_whole::<BinaryBatches, K>(progress, alloc, batch, out),
        Form::JaegerCompact => convert_whole::<CompactBatches, K>(progress, alloc, batch, out),
        Form::OtlpProto | Form::OtlpJson | Form::ZipkinJson => unreachable!(),
    }
}

// Why an input has no text, where the walk over it goes no further.
fn bad_of(why: WalkStop) -> Bad
    ensures { result ≡ bad_in (state_at why) }
{
    match why {
        WalkStop::Refused(refusal) => Bad::Refused(refusal),
        WalkStop::Faulted(found) => Bad::Faulted(found),
        WalkStop::Write | WalkStop::OutOfMemory => Bad::OutOfMemory,
    }
}

// The whole text: what the sink took, and what isn't written yet.
fn whole_text(progress: Progress, out: GrowingSink) -> Result<Blob, OutOfMemory>
    ensures { IfOk result (λ text. (what : Written) (units : List NotedGroup) (before now : Outlet)
        → before.held ≡ Some [] → now.held ≡ Some out.text
        → Converted what units [] before now progress
        → text ≡ (written_target what).whole_text units) }
{
    let rest = progress.into_text()?;
    out.with(rest)
}

/// Converts an input of Jaeger that is known to be one batch, as `convert_all` does. Where the batch ends
/// isn't looked for.
pub fn convert_batch(
    alloc: Global,
    from: Form,
    to: Form,
    batch: &[u8],
    limits: &Limits,
) -> Result<Blob, Bad>
    requires limits { AreLimits limits.now }
    requires one { IsOneBatch from batch.now }
    requires unit { length batch.now ≤ limits.now.unit }
    requires binary { length batch.now ≤ limits.now.binary }

    // There is a verdict on the input, whatever is answered, and the answer is by it.
    ensures exists { (verdict : Verdict) × IsVerdict from to limits.now batch.now verdict }
    ensures verdict { (verdict : Verdict) → IsVerdict from to limits.now batch.now verdict
        → Answers verdict result }
{
    proper_bytes(batch);
    some_verdict();
    one_verdict();
    outlook_lasts();
    let mut out = GrowingSink::new(alloc);
    let mut progress = Progress::new(alloc, Written::Form(to).pen());
    progress.target_laws();
    match convert_one(&mut progress, alloc, from, batch, &mut out) {
        Ok(()) => match whole_text(progress, out) {
            Ok(text) => Ok(text),
            Err(OutOfMemory) => Err(Bad::OutOfMemory),
        },
        Err(why) => Err(bad_of(why)),
    }
}
