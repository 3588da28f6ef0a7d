//! The walk over the units of an input, which writes what a target has of each. Its bytes come in pieces, cut anywhere; of
//! them it holds those of a frame that isn't whole yet.
ghost use Rattle.std.specs.Prelude.{◌≡◌, ◌≤◌, ◌+◌, ◌<◌, ◌^◌, ◌++◌, ◌∷◌, [], ℕ, List, length, OnOk, OnErr, IfErr, Err};
ghost use Rattle.span_io.specs.Limits.{AreLimits};
ghost use Rattle.span_io.specs.Outside.{Outlet, last_count};
ghost use Rattle.span_io.specs.declared.limits.Limits.{Limits};
ghost use Rattle.trace_model.specs.OtlpParts.{NotedGroup};
ghost use Rattle.trace_model.specs.Soundness.{IsSoundGroup};
ghost use Rattle.map_zipkin.specs.NotedGroups.{noted_group};
ghost use Rattle.span_convert.specs.Outlooks.{SinkTold};
ghost use Rattle.span_convert.specs.Pens.{written_by};
ghost use Rattle.span_convert.specs.Reports.{written_target};
ghost use Rattle.span_convert.specs.SpanFiles.{left_text};
ghost use Rattle.span_convert.specs.Targets.{open_target};
ghost use Rattle.span_convert.specs.Units.{framed_input, open_frames};
ghost use Rattle.span_convert.specs.private.WalkSteps.{Converted, EndsWalk, IsLookedAt, StopsUnit, StopsWalk, WaitsForMore, WalkedUnits, WalksOn, with_text};
ghost use Rattle.span_convert.specs.Walks.{FramesTaken, Reaches, StandsFor};
ghost use Rattle.span_convert.specs.declared.progress.Progress.{Progress};
ghost use Rattle.span_convert.specs.declared.written.Written.{Written};

use crate::progress::{Progress, WalkStop};
use crate::span_file::SpansLeft;
use crate::tally::Tally;
use crate::units::UnitReader;
use span_io::laws::gains_then;
use span_io::{Blob, Cause, Failed, Halt, Items, Limits, OutOfMemory, Scan, Sink, Step};
use std::alloc::Global;
use trace_model::{Group, Remark};
use zipkin_json::ZSpan;

/// So many bytes of text, or more, are written at once.
const FULL: usize = 65_536;

// Writes what isn't written yet, once it is much, whatever text is left behind it.
fn write_full<K: Sink>(progress: &mut Progress, out: &mut K) -> Result<(), WalkStop>
    ensures pen { progress.new.pen ≡ progress.old.pen }
    ensures ok { OnOk result
        ((what : Written) (units : List NotedGroup) (left said : List ℕ) (before : Outlet)
        → Converted what units said before (K.outlet out.old) (with_text progress.old left)
        → Converted what units said before (K.outlet out.new) (with_text progress.new left)) }
    ensures stop { IfErr result
        (λ stop. (what : Written) (units : List NotedGroup) (unit : NotedGroup) (left said : List ℕ)
        (before : Outlet)
        → Converted what (units ++ unit ∷ []) said before (K.outlet out.old)
        (with_text progress.old left)
        → StopsUnit (written_target what) units unit stop said before (K.outlet out.new)) }
    ensures units { OnOk result (progress.new.tally.units ≡ progress.old.tally.units) }
    ensures sink { SinkTold (result ≡ Err WalkStop.Write) (K.outlet out.old) (K.outlet out.new) }
{
    gains_then();
    if progress.unwritten() < FULL {
        return Ok(());
    }
    match progress.flush(out) {
        Ok(()) => Ok(()),
        Err(Failed) => Err(WalkStop::Write),
    }
}

/// Room for the text of a span, with which its growth begins.
const SPAN_ROOM: usize = 1024;

// An empty text, with that room where one of these spans is to be written, and where there is memory for it.
fn span_room(alloc: Global, spans: &[ZSpan]) -> Blob
    ensures { result ≡ [] }
{
    if spans.is_empty() {
        return Blob::new(alloc);
    }
    match Blob::with_room(alloc, SPAN_ROOM) {
        Ok(text) => text,
        Err(OutOfMemory) => Blob::new(alloc),
    }
}

// Writes the spans of a unit that are left, one at a time.
fn write_spans<K: Sink>(
    progress: &mut Progress,
    alloc: Global,
    left: SpansLeft,
    out: &mut K,
) -> Result<(), WalkStop>
    ensures pen { progress.new.pen ≡ progress.old.pen }
    ensures ok { OnOk result
        ((what : Written) (units : List NotedGroup) (said : List ℕ) (before : Outlet)
        → Converted what units said before (K.outlet out.old)
        (with_text progress.old (left_text left))
        → Converted what units said before (K.outlet out.new) progress.new) }
    ensures stop { IfErr result
        (λ stop. (what : Written) (units : List NotedGroup) (unit : NotedGroup) (said : List ℕ)
        (before : Outlet)
        → Converted what (units ++ unit ∷ []) said before (K.outlet out.old)
        (with_text progress.old (left_text left))
        → StopsUnit (written_target what) units unit stop said before (K.outlet out.new)) }
    ensures units { OnOk result (progress.new.tally.units ≡ progress.old.tally.units) }
    ensures sink { SinkTold (result ≡ Err WalkStop.Write) (K.outlet out.old) (K.outlet out.new) }
{
    gains_then();
    let mut behind = left.behind;
    let mut text = span_room(alloc, left.spans.as_slice());
    'spans: for span in left.spans.as_slice() {
        if progress.add_span(&mut text, behind, span).is_err() {
            return Err(WalkStop::OutOfMemory);
        }
        write_full(progress, out)?;
        behind = true;
    }
    Ok(())
}

/// Converts a unit that was read.
pub(crate) fn convert_unit<K: Sink>(
    progress: &mut Progress,
    alloc: Global,
    unit: (Group, Items<Remark>),
    out: &mut K,
) -> Result<(), WalkStop>
    requires room { progress.old.tally.units < last_count }
    requires sound { IsSoundGroup unit.0 }
    ensures same { written_by progress.new.pen ≡ written_by progress.old.pen }
    ensures ok { OnOk result
        ((what : Written) (units : List NotedGroup) (said : List ℕ) (before : Outlet)
        → Converted what units said before (K.outlet out.old) progress.old
        → Converted what (units ++ noted_group unit ∷ []) said before
        (K.outlet out.new) progress.new) }
    ensures stop { IfErr result
        (λ stop. (what : Written) (units : List NotedGroup) (said : List ℕ) (before : Outlet)
        → Converted what units said before (K.outlet out.old) progress.old
        → StopsUnit (written_target what) units (noted_group unit) stop said before
        (K.outlet out.new)) }
    ensures units { OnOk result (progress.new.tally.units ≡ progress.old.tally.units + 1) }
    ensures sink { SinkTold (result ≡ Err WalkStop.Write) (K.outlet out.old) (K.outlet out.new) }
{
    gains_then();
    match progress.add_unit(alloc, unit) {
        Ok(left) => {
            write_full(progress, out)?;
            write_spans(progress, alloc, left, out)
        }
        Err(Halt::Why(fault)) => Err(progress.stop_at_fault(fault, out)),
        Err(Halt::OutOfMemory) => Err(WalkStop::OutOfMemory),
    }
}

/// Converts the unit in a whole frame, if it holds one.
pub(crate) fn convert_frame<R: UnitReader, K: Sink>(
    progress: &mut Progress,
    alloc: Global,
    frame: &[u8],
    out: &mut K,
) -> Result<(), WalkStop>
    requires room { progress.old.tally.units < last_count }
    requires whole { R.form.frames.Whole frame.now }
    requires counted { length frame.now < 2 ^ 32 }
    ensures same { written_by progress.new.pen ≡ written_by progress.old.pen }
    ensures ok { OnOk result
        ((what : Written) (limits : Limits) (whole behind said : List ℕ) (before : Outlet)
        → length frame.now ≤ limits.unit
        → WalkedUnits R.form what limits whole (frame.now ++ behind) said before
        (K.outlet out.old) progress.old
        → WalkedUnits R.form what limits whole behind said before (K.outlet out.new) progress.new) }
    ensures stop { IfErr result
        (λ stop. (what : Written) (limits : Limits) (whole behind said : List ℕ) (before : Outlet)
        → length frame.now ≤ limits.unit
        → WalkedUnits R.form what limits whole (frame.now ++ behind) said before
        (K.outlet out.old) progress.old
        → StopsWalk (open_frames R.form)
        (open_target (written_target what)) limits whole stop said before (K.outlet out.new)) }
    ensures units { OnOk result (progress.new.tally.units ≤ progress.old.tally.units + 1) }
    ensures sink { SinkTold (result ≡ Err WalkStop.Write) (K.outlet out.old) (K.outlet out.new) }
{
    gains_then();
    R::held_by_frames();
    let Some(unit) = R::unit_in(frame) else {
        return Ok(());
    };
    match R::read(alloc, unit) {
        Ok(read) => convert_unit(progress, alloc, read, out),
        Err(Halt::Why(cause)) => Err(progress.refuse(cause, out)),
        Err(Halt::OutOfMemory) => Err(WalkStop::OutOfMemory),
    }
}

// Converts the unit in a frame of which these bytes are held, and those come last.
fn take_frame<R: UnitReader, K: Sink>(
    held: &mut Blob,
    progress: &mut Progress,
    alloc: Global,
    last: &[u8],
    out: &mut K,
) -> Result<(), WalkStop>
    requires room { progress.old.tally.units < last_count }
    requires whole { R.form.frames.Whole (held.old ++ last.now) }
    requires counted { length (held.old ++ last.now) < 2 ^ 32 }
    ensures same { written_by progress.new.pen ≡ written_by progress.old.pen }
    ensures cleared { OnOk result (held.new ≡ []) }
    ensures ok { OnOk result
        ((what : Written) (limits : Limits) (whole behind said : List ℕ) (before : Outlet)
        → length (held.old ++ last.now) ≤ limits.unit
        → WalkedUnits R.form what limits whole ((held.old ++ last.now) ++ behind) said before
        (K.outlet out.old) progress.old
        → WalkedUnits R.form what limits whole behind said before (K.outlet out.new) progress.new) }
    ensures stop { IfErr result
        (λ stop. (what : Written) (limits : Limits) (whole behind said : List ℕ) (before : Outlet)
        → length (held.old ++ last.now) ≤ limits.unit
        → WalkedUnits R.form what limits whole ((held.old ++ last.now) ++ behind) said before
        (K.outlet out.old) progress.old
        → StopsWalk (open_frames R.form)
        (open_target (written_target what)) limits whole stop said before (K.outlet out.new)) }
    ensures units { OnOk result (progress.new.tally.units ≤ progress.old.tally.units + 1) }
    ensures sink { SinkTold (result ≡ Err WalkStop.Write) (K.outlet out.old) (K.outlet out.new) }
{
    gains_then();
    if held.len() == 0 {
        return convert_frame::<R, K>(progress, alloc, last, out);
    }
    if held.append(last).is_err() {
        return Err(WalkStop::OutOfMemory);
    }
    convert_frame::<R, K>(progress, alloc, held.as_slice(), out)?;
    held.clear();
    Ok(())
}

/// A scanner of the frames of an input of which nothing came yet.
pub(crate) fn new_scanner<R: UnitReader>(limits: &Limits) -> R::Scanner
    requires limits { AreLimits limits.now }
    ensures seen { (R.Scanner.scanning result).seen [] }
    ensures limit { (R.Scanner.scanning result).limit ≡ limits.now.unit }
    ensures taken { (what : Written) (said : List ℕ) (progress : Progress)
        → StandsFor what [] progress
        → progress.unwritten ≡ [] → said ≡ (written_target what).partial_text []
        → FramesTaken R.form what limits.now [] said (R.Scanner.scanning result) [] progress }
{
    R::held_by_frames();
    <R::Scanner as Scan>::new(limits.unit)
}

/// Adds bytes to those that are held.
pub(crate) fn hold(held: &mut Blob, piece: &[u8]) -> Result<(), WalkStop>
    ensures ok { OnOk result (held.new ≡ held.old ++ piece.now) }
    ensures err { OnErr result (result ≡ Err WalkStop.OutOfMemory) }
{
    match held.append(piece) {
        Ok(()) => Ok(()),
        Err(OutOfMemory) => Err(WalkStop::OutOfMemory),
    }
}

// Converts the units that end in a piece, and holds the bytes behind them.
fn take_units<R: UnitReader, K: Sink>(
    scanner: &mut R::Scanner,
    held: &mut Blob,
    progress: &mut Progress,
    alloc: Global,
    piece: &[u8],
    out: &mut K,
) -> Result<(), WalkStop>
    requires seen { ∥ (R.Scanner.scanning scanner.old).seen held.old ∥₁ }
    requires limit { (R.Scanner.scanning scanner.old).limit < 2 ^ 32 }
    requires room { progress.old.tally.units + length piece.now < last_count }
    ensures seen { OnOk result ∥ (R.Scanner.scanning scanner.new).seen held.new ∥₁ }
    ensures limit { (R.Scanner.scanning scanner.new).limit
        ≡ (R.Scanner.scanning scanner.old).limit }
    ensures same { written_by progress.new.pen ≡ written_by progress.old.pen }
    ensures units { OnOk result
        (progress.new.tally.units ≤ progress.old.tally.units + length piece.now) }
    ensures short { OnOk result (length held.new ≤ length held.old + length piece.now) }
    ensures ok { OnOk result
        ((what : Written) (limits : Limits) (whole said : List ℕ) (before : Outlet)
        → WalksOn R.form what limits whole said before (K.outlet out.old)
        (R.Scanner.scanning scanner.old) held.old piece.now progress.old
        → WaitsForMore R.form what limits whole said before (K.outlet out.new)
        (R.Scanner.scanning scanner.new) held.new progress.new) }
    ensures stop { IfErr result
        (λ stop. (what : Written) (limits : Limits) (whole said : List ℕ) (before : Outlet)
        → WalksOn R.form what limits whole said before (K.outlet out.old)
        (R.Scanner.scanning scanner.old) held.old piece.now progress.old
        → StopsWalk (open_frames R.form)
        (open_target (written_target what)) limits whole stop said before (K.outlet out.new)) }
    ensures sink { SinkTold (result ≡ Err WalkStop.Write) (K.outlet out.old) (K.outlet out.new) }
{
    gains_then();
    R::held_by_frames();
    let mut rest = piece;
    'frames: loop {
        match R::push(scanner, rest) {
            Step::Need => return hold(held, rest),
            Step::Unit(size) => {
                let (last, behind) = rest.split_at(size);
                take_frame::<R, K>(held, progress, alloc, last, out)?;
                rest = behind;
            }
            Step::Refused(cause) => return Err(progress.refuse(cause, out)),
        }
    }
}

/// Writes the units that end in a piece, of an input that has others behind it that aren't looked at,
/// or hasn't.
pub(crate) fn take_frames<R: UnitReader, K: Sink>(
    scanner: &mut R::Scanner,
    held: &mut Blob,
    progress: &mut Progress,
    alloc: Global,
    piece: &[u8],
    too_long: bool,
    out: &mut K,
) -> Result<(), WalkStop>
    requires seen { ∥ (R.Scanner.scanning scanner.old).seen held.old ∥₁ }
    requires limit { (R.Scanner.scanning scanner.old).limit < 2 ^ 32 }
    requires room { progress.old.tally.units + length piece.now < last_count }
    ensures seen { OnOk result ∥ (R.Scanner.scanning scanner.new).seen held.new ∥₁ }
    ensures limit { (R.Scanner.scanning scanner.new).limit
        ≡ (R.Scanner.scanning scanner.old).limit }
    ensures same { written_by progress.new.pen ≡ written_by progress.old.pen }
    ensures units { OnOk result
        (progress.new.tally.units ≤ progress.old.tally.units + length piece.now) }
    ensures short { OnOk result (length held.new ≤ length held.old + length piece.now) }
    ensures ok { OnOk result ((what : Written) (limits : Limits) (bytes more said : List ℕ)
        → FramesTaken R.form what limits bytes said
        (R.Scanner.scanning scanner.old) held.old progress.old
        → IsLookedAt limits.binary bytes more piece.now too_long
        → Reaches (λ text. FramesTaken R.form what limits (bytes ++ more) text
        (R.Scanner.scanning scanner.new) held.new progress.new) said (K.outlet out.old)
        (K.outlet out.new)) }
    ensures stop { IfErr result
        (λ stop. (what : Written) (limits : Limits) (bytes more said : List ℕ)
        → FramesTaken R.form what limits bytes said
        (R.Scanner.scanning scanner.old) held.old progress.old
        → IsLookedAt limits.binary bytes more piece.now too_long
        → StopsWalk (open_frames R.form) (open_target (written_target what)) limits
        (bytes ++ more) stop said
        (K.outlet out.old) (K.outlet out.new)) }
    ensures sink { SinkTold (result ≡ Err WalkStop.Write) (K.outlet out.old) (K.outlet out.new) }
{
    gains_then();
    R::held_by_frames();
    take_units::<R, K>(scanner, held, progress, alloc, piece, out)?;
    if too_long {
        return Err(progress.refuse(Cause::InputTooLong, out));
    }
    match progress.flush(out) {
        Ok(()) => Ok(()),
        Err(Failed) => Err(WalkStop::Write),
    }
}

/// Ends an input in frames, of whose last these bytes are held.
pub(crate) fn end_frames<R: UnitReader, K: Sink>(
    held: &Blob,
    progress: &mut Progress,
    out: &mut K,
) -> Result<Tally, WalkStop>
    requires room { progress.old.tally.units < last_count }
    ensures same { written_by progress.new.pen ≡ written_by progress.old.pen }
    ensures walk { (what : Written) (limits : Limits) (bytes said : List ℕ) (s : R.Scanner)
        → FramesTaken R.form what limits bytes said (R.Scanner.scanning s) held.now progress.old
        → EndsWalk (framed_input R.form) (written_target what) limits bytes result said
        (K.outlet out.old) (K.outlet out.new) }
    ensures sink { SinkTold (result ≡ Err WalkStop.Write) (K.outlet out.old) (K.outlet out.new) }
{
    gains_then();
    if held.len() == 0 {
        return progress.finish(out);
    }
    Err(progress.refuse(Cause::Truncated, out))
}
