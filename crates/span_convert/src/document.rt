//! The walk over a document, which is read whole. Its groups are its units.
ghost use Rattle.std.specs.Prelude.{◌≡◌, ◌≢◌, ◌≤◌, ◌+◌, ◌<◌, ◌^◌, ◌++◌, ℕ, List, length, map, All, OnOk, IfOk, IfErr, Err};
ghost use Rattle.span_io.specs.Outside.{Outlet};
ghost use Rattle.span_io.specs.declared.limits.Limits.{Limits};
ghost use Rattle.trace_model.specs.Soundness.{IsSoundGroup};
ghost use Rattle.map_zipkin.specs.NotedGroups.{noted_group};
ghost use Rattle.span_convert.specs.Documents.{IsDocument};
ghost use Rattle.span_convert.specs.Outlooks.{SinkTold};
ghost use Rattle.span_convert.specs.Pens.{written_by};
ghost use Rattle.span_convert.specs.Reports.{written_target};
ghost use Rattle.span_convert.specs.Targets.{open_target};
ghost use Rattle.span_convert.specs.Units.{document_input, open_document};
ghost use Rattle.span_convert.specs.Walks.{DocumentTaken, Reaches};
ghost use Rattle.span_convert.specs.private.WalkSteps.{EndsWalk, IsLookedAt, StopsWalk};
ghost use Rattle.span_convert.specs.declared.progress.Progress.{Progress};
ghost use Rattle.span_convert.specs.declared.written.Written.{Written};

use crate::progress::{Progress, WalkStop};
use crate::tally::Tally;
use crate::units::DocumentReader;
use crate::walk::{convert_unit, hold};
use span_io::laws::gains_then;
use span_io::{Blob, Cause, Halt, Items, Refusal, Sink};
use std::alloc::Global;
use trace_model::{Group, Remark};

/// Takes a piece of a document, which has others behind it that aren't looked at, or hasn't.
pub(crate) fn take_document(held: &mut Blob, piece: &[u8], too_long: bool) -> Result<(), WalkStop>
    ensures short { OnOk result (length held.new ≤ length held.old + length piece.now) }
    ensures ok { OnOk result
        ((what : Written) (limits : Limits) (bytes more said : List ℕ) (progress : Progress)
        (now : Outlet)
        → DocumentTaken what limits bytes said held.old progress
        → IsLookedAt limits.json bytes more piece.now too_long
        → Reaches
        (λ text. DocumentTaken what limits (bytes ++ more) text held.new progress) said now now) }
    ensures stop { IfErr result
        (λ stop. (what : Written) (limits : Limits) (bytes more said : List ℕ) (progress : Progress)
        (now : Outlet) → DocumentTaken what limits bytes said held.old progress
        → IsLookedAt limits.json bytes more piece.now too_long
        → StopsWalk open_document (open_target (written_target what)) limits
        (bytes ++ more) stop said now now) }
    ensures unwritten { result ≢ Err WalkStop.Write }
{
    if too_long {
        return Err(WalkStop::Refused(Refusal {
            unit: 0,
            cause: Cause::InputTooLong,
        }));
    }
    hold(held, piece)
}

// The groups of a document with the remarks on each, or why it isn't read.
fn units_in<R: DocumentReader>(
    alloc: Global,
    bytes: &[u8],
) -> Result<Items<(Group, Items<Remark>)>, WalkStop>
    requires counted { length bytes.now < 2 ^ 32 }
    ensures whole { IfOk result (λ units. R.form.Reads bytes.now (map noted_group units)) }
    ensures sound { IfOk result (All (λ unit. IsSoundGroup unit.0)) }
    ensures stop { IfErr result
        (λ stop. (what : Written) (limits : Limits) (said : List ℕ) (progress : Progress)
        (now : Outlet)
        → DocumentTaken what limits bytes.now said bytes.now progress
        → StopsWalk (document_input R.form)
        (written_target what) limits bytes.now stop said now now) }
    ensures unwritten { result ≢ Err WalkStop.Write }
{
    match R::read(alloc, bytes) {
        Ok(units) => Ok(units),
        Err(Halt::Why(refusal)) => Err(WalkStop::Refused(refusal)),
        Err(Halt::OutOfMemory) => Err(WalkStop::OutOfMemory),
    }
}

// Writes what a target has of the groups of a document.
fn write_groups<R: DocumentReader, K: Sink>(
    progress: &mut Progress,
    alloc: Global,
    units: Items<(Group, Items<Remark>)>,
    out: &mut K,
) -> Result<Tally, WalkStop>
    requires sound { All (λ unit. IsSoundGroup unit.0) units }
    requires room { progress.old.tally.units ≤ 2 ^ 40 }
    ensures same { written_by progress.new.pen ≡ written_by progress.old.pen }
    ensures walk { (what : Written) (limits : Limits) (bytes said : List ℕ)
        → DocumentTaken what limits bytes said bytes progress.old
        → IsDocument R.form limits bytes (map noted_group units)
        → EndsWalk (document_input R.form) (written_target what) limits bytes result said
        (K.outlet out.old) (K.outlet out.new) }
    ensures sink { SinkTold (result ≡ Err WalkStop.Write) (K.outlet out.old) (K.outlet out.new) }
{
    gains_then();
    'units: for unit in units.into_vec() {
        convert_unit(progress, alloc, unit, out)?;
    }
    progress.finish(out)
}

/// Writes the groups of a document, whose bytes are held.
pub(crate) fn walk_document<R: DocumentReader, K: Sink>(
    progress: &mut Progress,
    alloc: Global,
    held: &[u8],
    out: &mut K,
) -> Result<Tally, WalkStop>
    requires counted { length held.now < 2 ^ 32 }
    requires room { progress.old.tally.units ≤ 2 ^ 40 }
    ensures same { written_by progress.new.pen ≡ written_by progress.old.pen }
    ensures walk { (what : Written) (limits : Limits) (bytes said : List ℕ)
        → DocumentTaken what limits bytes said held.now progress.old
        → EndsWalk (document_input R.form) (written_target what) limits bytes result said
        (K.outlet out.old) (K.outlet out.new) }
    ensures sink { SinkTold (result ≡ Err WalkStop.Write) (K.outlet out.old) (K.outlet out.new) }
{
    gains_then();
    let units = units_in::<R>(alloc, held)?;
    write_groups::<R, K>(progress, alloc, units, out)
}
