//! What takes in an input, by its form.
ghost use Rattle.std.specs.Prelude.{◌≡◌, ◌≤◌, ◌+◌, ◌<◌, ◌^◌, ◌++◌, [], ℕ, List, length, OnOk, IfErr, Err};
ghost use Rattle.span_io.specs.Limits.{AreLimits};
ghost use Rattle.span_io.specs.Outside.{last_count};
ghost use Rattle.span_io.specs.declared.limits.Limits.{Limits};
ghost use Rattle.span_convert.specs.private.TargetSteps.{CanBeRead};
ghost use Rattle.span_convert.specs.Intakes.{Taken, form_in, scanning_in};
ghost use Rattle.span_convert.specs.Outlooks.{IfDocument, SinkTold};
ghost use Rattle.span_convert.specs.Pens.{written_by};
ghost use Rattle.span_convert.specs.Reports.{written_target};
ghost use Rattle.span_convert.specs.Targets.{open_target};
ghost use Rattle.span_convert.specs.Units.{input_form, input_limit, open_form};
ghost use Rattle.span_convert.specs.private.WalkSteps.{EndsWalk, IsLookedAt, StopsWalk};
ghost use Rattle.span_convert.specs.Walks.{Reaches, StandsFor};
ghost use Rattle.span_convert.specs.declared.progress.Progress.{Progress};
ghost use Rattle.span_convert.specs.declared.written.Written.{Written};

use crate::batch_file::{BinaryBatches, CompactBatches};
use crate::document::{take_document, walk_document};
use crate::group_file::GroupFile;
use crate::progress::{Progress, WalkStop};
use crate::request::Request;
use crate::span_file::SpanFile;
use crate::tally::Tally;
use crate::walk::{end_frames, new_scanner, take_frames};
use proto_wire::UnitScanner;
use span_io::{Blob, Form, Limits, Sink};
use std::alloc::Global;
use thrift_binary::Binary;
use thrift_compact::Compact;
use thrift_core::StructScanner;

/// An input that comes in pieces, by its form: where it stands in frames, what finds their ends.
#[derive(Drop)]
pub(crate) enum Intake {
    Request(UnitScanner),
    GroupFile,
    BinaryBatches(StructScanner<Binary>),
    CompactBatches(StructScanner<Compact>),
    SpanFile,
}

impl Intake {
    /// An input of which nothing came yet.
    pub(crate) fn new(from: Form, limits: &Limits) -> Intake
        requires limits { AreLimits limits.now }
        ensures form { form_in result ≡ from }
        ensures seen { (scanning_in result).seen [] }
        ensures limit { (scanning_in result).limit ≤ limits.now.unit }
        ensures taken { (what : Written) (said : List ℕ) (progress : Progress)
            → StandsFor what [] progress
            → progress.unwritten ≡ [] → said ≡ (written_target what).partial_text [] → said ≡ []
            → Taken result what limits.now [] said [] progress }
    {
        match from {
            Form::OtlpProto => Intake::Request(new_scanner::<Request>(limits)),
            Form::OtlpJson => Intake::GroupFile,
            Form::JaegerBinary => Intake::BinaryBatches(new_scanner::<BinaryBatches>(limits)),
            Form::JaegerCompact => Intake::CompactBatches(new_scanner::<CompactBatches>(limits)),
            Form::ZipkinJson => Intake::SpanFile,
        }
    }

    pub(crate) fn form(&self) -> Form
        ensures { result ≡ form_in self.now }
    {
        match self {
            Intake::Request(_) => Form::OtlpProto,
            Intake::GroupFile => Form::OtlpJson,
            Intake::BinaryBatches(_) => Form::JaegerBinary,
            Intake::CompactBatches(_) => Form::JaegerCompact,
            Intake::SpanFile => Form::ZipkinJson,
        }
    }
}

/// Takes a piece of an input, which has others behind it that aren't looked at, or hasn't: writes the
/// units that end in it, or holds the bytes of a document.
pub(crate) fn take_piece<K: Sink>(
    intake: &mut Intake,
    held: &mut Blob,
    progress: &mut Progress,
    alloc: Global,
    piece: &[u8],
    too_long: bool,
    out: &mut K,
) -> Result<(), WalkStop>
    requires seen { ∥ (scanning_in intake.old).seen held.old ∥₁ }
    requires limit { (scanning_in intake.old).limit < 2 ^ 32 }
    requires room { progress.old.tally.units + length piece.now < last_count }
    ensures form { form_in intake.new ≡ form_in intake.old }
    ensures limit { (scanning_in intake.new).limit ≡ (scanning_in intake.old).limit }
    ensures unwritten { IfDocument (form_in intake.old) (out.new ≡ out.old) }
    ensures same { written_by progress.new.pen ≡ written_by progress.old.pen }
    ensures seen { OnOk result ∥ (scanning_in intake.new).seen held.new ∥₁ }
    ensures units { OnOk result
        (progress.new.tally.units ≤ progress.old.tally.units + length piece.now) }
    ensures short { OnOk result (length held.new ≤ length held.old + length piece.now) }
    ensures ok { OnOk result ((what : Written) (limits : Limits) (bytes more said : List ℕ)
        → Taken intake.old what limits bytes said held.old progress.old
        → IsLookedAt (input_limit (form_in intake.old) limits) bytes more piece.now too_long
        → Reaches
        (λ text. Taken intake.new what limits (bytes ++ more) text held.new progress.new) said
        (K.outlet out.old) (K.outlet out.new)) }
    ensures stop { IfErr result
        (λ stop. (what : Written) (limits : Limits) (bytes more said : List ℕ)
        → Taken intake.old what limits bytes said held.old progress.old
        → IsLookedAt (input_limit (form_in intake.old) limits) bytes more piece.now too_long
        → StopsWalk (open_form (form_in intake.old)) (open_target (written_target what)) limits
        (bytes ++ more) stop said
        (K.outlet out.old) (K.outlet out.new)) }
    ensures sink { SinkTold (result ≡ Err WalkStop.Write) (K.outlet out.old) (K.outlet out.new) }
{
    match intake {
        Intake::Request(scanner) => {
            take_frames::<Request, K>(scanner, held, progress, alloc, piece, too_long, out)
        }
        Intake::BinaryBatches(scanner) => {
            take_frames::<BinaryBatches, K>(scanner, held, progress, alloc, piece, too_long, out)
        }
        Intake::CompactBatches(scanner) => {
            take_frames::<CompactBatches, K>(scanner, held, progress, alloc, piece, too_long, out)
        }
        Intake::GroupFile => take_document(held, piece, too_long),
        Intake::SpanFile => take_document(held, piece, too_long),
    }
}

/// Ends an input of which these bytes are held.
pub(crate) fn end_input<K: Sink>(
    intake: &Intake,
    held: &Blob,
    progress: &mut Progress,
    alloc: Global,
    out: &mut K,
) -> Result<Tally, WalkStop>
    requires counted { CanBeRead intake.now held.now }
    requires room { progress.old.tally.units ≤ 2 ^ 40 }
    ensures same { written_by progress.new.pen ≡ written_by progress.old.pen }
    ensures walk { (what : Written) (limits : Limits) (bytes said : List ℕ)
        → Taken intake.now what limits bytes said held.now progress.old
        → EndsWalk (input_form (form_in intake.now)) (written_target what) limits bytes result said
        (K.outlet out.old) (K.outlet out.new) }
    ensures sink { SinkTold (result ≡ Err WalkStop.Write) (K.outlet out.old) (K.outlet out.new) }
{
    match intake {
        Intake::Request(_) => end_frames::<Request, K>(held, progress, out),
        Intake::BinaryBatches(_) => end_frames::<BinaryBatches, K>(held, progress, out),
        Intake::CompactBatches(_) => end_frames::<CompactBatches, K>(held, progress, out),
        Intake::GroupFile => walk_document::<GroupFile, K>(progress, alloc, held.as_slice(), out),
        Intake::SpanFile => walk_document::<SpanFile, K>(progress, alloc, held.as_slice(), out),
    }
}
