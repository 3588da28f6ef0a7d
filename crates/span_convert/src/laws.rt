//! Laws of verdicts and outlooks, as contracts of functions that do nothing.
ghost use Rattle.std.specs.Prelude.{◌≡◌, ◌↔◌, ◌<◌, ◌^◌, ◌++◌, ℕ, List, [], length, All, codes};
ghost use Rattle.span_io.specs.Limits.{AreLimits};
ghost use Rattle.span_io.specs.Outside.{Outlet, IsFront};
ghost use Rattle.span_io.specs.declared.cause.Cause.TheVariants as causes;
ghost use Rattle.span_io.specs.declared.form.Form.{Form};
ghost use Rattle.span_io.specs.declared.limits.Limits.{Limits};
ghost use Rattle.trace_model.specs.OtlpParts.{NotedGroup};
ghost use Rattle.trace_model.specs.declared.group.Group.{Group};
ghost use Rattle.span_convert.specs.Canonical.{ConvertsToItself, Reads, ReadsNoted, ReadsPlainly, ReadsBack, Fits, IsHeldBy};
ghost use Rattle.span_convert.specs.BatchFiles.{words};
ghost use Rattle.span_convert.specs.Moves.{IsNormalTrace};
ghost use Rattle.span_convert.specs.CutBatches.{EndsInBatch, IfJaeger};
ghost use Rattle.span_convert.specs.private.InputLaws.{BatchLaws, GroupFileLaws, InputLaws, SpanFileLaws, TextLaws, TreeLaws};
ghost use Rattle.span_convert.specs.SameBatches.{SameBatches};
ghost use Rattle.span_convert.specs.SameDocuments.{AgreeingDocuments, SameDocuments};
ghost use Rattle.span_convert.specs.Outlooks.{IsOutlookAs, IsLasting, IfFrames, EndsSo};
ghost use Rattle.span_convert.specs.Reports.{IsVerdictAs, WritesFrontAs, report_target, written_target};
ghost use Rattle.span_convert.specs.private.TargetSteps.{TargetLaws};
ghost use Rattle.span_convert.specs.Targets.{form_target, open_target};
ghost use Rattle.span_convert.specs.Units.{groups_in, input_form, open_form, IsSizedGroup, normal_form, canonical_text, partial_text, closing_text, span_count};
ghost use Rattle.span_convert.specs.Verdicts.{CanHoldTrace, Verdict, good, refused, IsFaultless, IsVerdict, IsVerdictOn, IsGood, IsTextSoFar, verdict_text};
ghost use Rattle.span_convert.specs.declared.report.Report.{Report};
ghost use Rattle.span_convert.specs.declared.report.Report.TheVariants as reports;
ghost use Rattle.span_convert.specs.declared.written.Written.{Written};

use crate::move_laws::{kept, there_and_back};
use crate::tally::Tally;
use thrift_binary::Binary;
use thrift_compact::Compact;
use thrift_core::Protocol;

// What the crates below say of the batches of a protocol.
fn batch_laws<P: Protocol>()
    ensures { BatchLaws (words P.spells P.reads P.then_varint P.refuses P.keeps P.writes) }
{
    thrift_core::laws::one_framing::<P>();
    thrift_core::laws::one_step::<P>();
    thrift_core::laws::pieces::<P>();
    thrift_core::laws::one_reading::<P>();
    thrift_core::laws::reads_back::<P>();
    thrift_core::laws::written_structs::<P>();
    thrift_core::laws::open_fronts::<P>();
    jaeger_model::laws::one_batch::<P>();
    jaeger_model::laws::some_batch::<P>();
    jaeger_model::laws::free_fields::<P>();
    jaeger_model::laws::free_anywhere::<P>();
    jaeger_model::laws::reads_times::<P>();
    jaeger_model::laws::reads_proper::<P>();
    jaeger_model::written_laws::written_again::<P>();
    jaeger_model::written_laws::equal_texts::<P>();
    trace_model::laws::attributes_once();
    trace_model::laws::attributes_exist();
}

// What they say of one tree in two protocols.
fn tree_laws()
    ensures { TreeLaws }
{
    jaeger_model::laws::one_tree::<Binary, Binary>();
    jaeger_model::laws::one_tree::<Binary, Compact>();
    jaeger_model::laws::one_tree::<Compact, Binary>();
    jaeger_model::laws::one_tree::<Compact, Compact>();
}

// What they say of spans in JSON.
fn span_file_laws()
    ensures { SpanFileLaws }
{
    zipkin_json::laws::one_list();
    zipkin_json::laws::some_list();
    zipkin_json::laws::reads_proper();
    zipkin_json::laws::written_again();
    map_zipkin::laws::read_is_held();
    map_zipkin::laws::read_is_zipkin_normal();
    map_zipkin::laws::spans_read_back();
    map_zipkin::laws::written_is_proper();
    map_zipkin::laws::zipkin_normal_forms();
    map_zipkin::laws::regroupings();
    map_zipkin::laws::groups_noted();
}

// What they say of groups in JSON.
fn group_file_laws()
    ensures { GroupFileLaws }
{
    otlp_json::laws::one_json_groups();
    otlp_json::laws::some_json_groups();
    otlp_json::laws::reads_held_groups();
    otlp_json::laws::groups_written_again();
}

// What they say of the frames and units of an input.
fn input_laws()
    ensures { InputLaws }
{
    proto_wire::laws::one_framing();
    proto_wire::laws::one_reading();
    proto_wire::laws::one_step();
    proto_wire::laws::pieces();
    otlp_proto::laws::one_group();
    batch_laws::<Binary>();
    batch_laws::<Compact>();
    span_file_laws();
    group_file_laws();
}

/// What each form keeps as a target.
pub(crate) fn form_targets()
    ensures { (to : Form) → TargetLaws (form_target to) }
{
    map_jaeger::laws::faults_found();
    map_zipkin::laws::zipkin_faults_found();
    map_zipkin::laws::zipkin_normal_forms();
}

/// What each report keeps as a target.
pub(crate) fn report_targets()
    ensures { (what : Report) → TargetLaws (report_target what) }
{
    form_targets();
}

/// Bytes have one verdict at most. What is written for the bytes begins with each text so far of their
/// first groups.
pub fn one_verdict()
    ensures once { (from : Form) (what : Written) (limits : Limits) (bytes : List ℕ) (v w : Verdict)
        → AreLimits limits
        → IsVerdictAs from what limits bytes v → IsVerdictAs from what limits bytes w → v ≡ w }
    ensures so_far { (from : Form) (what : Written) (limits : Limits) (bytes text : List ℕ)
        (v : Verdict)
        → AreLimits limits → IsTextSoFar (input_form from) (written_target what) limits bytes text
        → IsVerdictAs from what limits bytes v
        → IsFront text (verdict_text v) }
{
    input_laws();
    form_targets();
}

/// Two inputs of Jaeger that hold the same batches have the same verdicts, whichever protocols they are
/// in, and whatever free fields stand in the one and not in the other.
pub fn same_batches()
    ensures { (from other : Form) (what : Written) (limits : Limits) (bytes others : List ℕ)
        → AreLimits limits
        → SameBatches limits from bytes other others → (verdict : Verdict)
        → IsVerdictAs from what limits bytes verdict
        ↔ IsVerdictAs other what limits others verdict }
{
    input_laws();
    tree_laws();
}

/// Two inputs of one form in JSON have the same verdicts, where they are texts of values that mean the
/// same and in which the same offends.
pub fn same_documents()
    ensures { (from : Form) (what : Written) (limits : Limits) (bytes others : List ℕ)
        → SameDocuments limits from bytes others → (verdict : Verdict)
        → IsVerdictAs from what limits bytes verdict ↔ IsVerdictAs from what limits others verdict }
{
    // The clause is the law.
}

/// Members that a form in JSON doesn't know change nothing: two inputs whose values have the same of all
/// others, at every depth, have the same verdicts.
pub fn free_members()
    ensures { (from : Form) (what : Written) (limits : Limits) (bytes others : List ℕ)
        → AgreeingDocuments limits from bytes others → (verdict : Verdict)
        → IsVerdictAs from what limits bytes verdict ↔ IsVerdictAs from what limits others verdict }
{
    same_documents();
    otlp_json::laws::free_members();
    zipkin_json::laws::free_members();
}

/// An input of Jaeger that is refused because it ends too early ends inside a batch, which more bytes make
/// whole once a varint at its end that isn't ended is dropped.
pub fn cut_batches()
    ensures { (from to : Form) (limits : Limits) (bytes text : List ℕ) (unit : ℕ)
        → IsVerdict from to limits bytes
        (refused (record { unit = unit; cause = causes.Truncated }) text)
        → IfJaeger from (λ protocol. EndsInBatch protocol limits bytes unit) }
{
    input_laws();
}

/// Bytes have a verdict.
pub fn some_verdict()
    ensures { (from : Form) (what : Written) (limits : Limits) (bytes : List ℕ)
        → All (λ b. b < 256) bytes
        → (verdict : Verdict) × IsVerdictAs from what limits bytes verdict }
{
    input_laws();
    otlp_proto::laws::some_group();
    otlp_proto::laws::read_proper();
    map_jaeger::laws::read_is_sound();
    map_jaeger::laws::read_is_proper();
    form_targets();
}

/// Bytes have one outlook at most. Its text begins with each text so far of their first units.
pub fn one_outlook()
    ensures once { (from : Form) (what : Written) (limits : Limits) (bytes : List ℕ) (v w : Verdict)
        → AreLimits limits
        → IsOutlookAs from what limits bytes v → IsOutlookAs from what limits bytes w → v ≡ w }
    ensures so_far { (from : Form) (what : Written) (limits : Limits) (bytes text : List ℕ)
        (v : Verdict) → AreLimits limits
        → IsTextSoFar (open_form from) (open_target (written_target what)) limits bytes text
        → IsOutlookAs from what limits bytes v → IsFront text (verdict_text v) }
{
    input_laws();
    form_targets();
}

/// Bytes have an outlook.
pub fn some_outlook()
    ensures { (from : Form) (what : Written) (limits : Limits) (bytes : List ℕ)
        → All (λ b. b < 256) bytes
        → (outlook : Verdict) × IsOutlookAs from what limits bytes outlook }
{
    input_laws();
    otlp_proto::laws::some_group();
    otlp_proto::laws::read_proper();
    map_jaeger::laws::read_is_sound();
    map_jaeger::laws::read_is_proper();
    form_targets();
}

/// Of no bytes nothing is said yet, and nothing stops them.
pub fn outlook_at_first()
    ensures { (from : Form) (what : Written) (limits : Limits) → AreLimits limits
        → IsOutlookAs from what limits [] (good [] (record { units = 0; spans = 0 })) }
{
    input_laws();
    form_targets();
}

/// A refusal or a fault that is the outlook on bytes is the outlook and the verdict on all that begins
/// with them, and the verdict on them alone.
pub fn outlook_lasts()
    ensures stays { (from : Form) (what : Written) (limits : Limits) (bytes more : List ℕ)
        (outlook : Verdict)
        → IsLasting outlook → IsOutlookAs from what limits bytes outlook
        → IsOutlookAs from what limits (bytes ++ more) outlook }
    ensures comes_true { (from : Form) (what : Written) (limits : Limits) (bytes more : List ℕ)
        (outlook : Verdict)
        → IsLasting outlook → IsOutlookAs from what limits bytes outlook
        → IsVerdictAs from what limits (bytes ++ more) outlook }
    ensures at_end { (from : Form) (what : Written) (limits : Limits) (bytes : List ℕ)
        (outlook : Verdict) → IsLasting outlook
        → IsOutlookAs from what limits bytes outlook → IsVerdictAs from what limits bytes outlook }
{
    input_laws();
}

/// What was said of bytes that nothing stops is a front of what is written for all that begins with
/// them.
pub fn outlook_begins()
    ensures so_far { (from : Form) (what : Written) (limits : Limits) (bytes more said : List ℕ)
        (tally : Tally) (v : Verdict)
        → AreLimits limits → IsOutlookAs from what limits bytes (good said tally)
        → IsOutlookAs from what limits (bytes ++ more) v → IsFront said (verdict_text v) }
    ensures at_end { (from : Form) (what : Written) (limits : Limits) (bytes more said : List ℕ)
        (tally : Tally) (v : Verdict)
        → AreLimits limits → IsOutlookAs from what limits bytes (good said tally)
        → IsVerdictAs from what limits (bytes ++ more) v → IsFront said (verdict_text v) }
{
    input_laws();
    form_targets();
}

/// Frames that nothing stops are all of an input that ends with them, or it ends too early behind them.
pub fn outlook_ends()
    ensures { (from : Form) (what : Written) (limits : Limits) (bytes said : List ℕ) (tally : Tally)
        → IsOutlookAs from what limits bytes (good said tally)
        → IfFrames from (EndsSo (input_form from) (written_target what) limits bytes said tally) }
{
    // The clause is the law.
}

/// The canonical text of a trace is its text so far, and then the bytes that close it.
pub fn closed_texts()
    ensures { (to : Form) (groups : List Group)
        → canonical_text to groups ≡ partial_text to groups ++ closing_text to groups }
{
    // The clause is the law.
}

/// A sink that wasn't called gained a front of the text of the first units, of whatever bytes.
pub fn nothing_written()
    ensures { (from : Form) (what : Written) (limits : Limits) (bytes : List ℕ) (now : Outlet)
        → WritesFrontAs from what limits bytes now now }
{
    // The clause is the law.
}

// What the crates below say of texts.
fn text_laws()
    ensures { TextLaws }
{
    input_laws();
    proto_wire::laws::shortest_record();
    otlp_proto::laws::written_again();
    map_jaeger::laws::batches_read_back();
    map_jaeger::laws::normal_forms();
    map_jaeger::laws::written_is_proper();
}

/// The canonical text of a trace is a text of its normal form, without remarks.
pub fn text_read_back()
    ensures { (to : Form) (groups : List Group) → IsHeldBy to groups
        → ReadsPlainly to (canonical_text to groups) (normal_form to groups) }
{
    text_laws();
}

/// A normal form is held by its form, whatever its size, is its own normal form, and has as many spans
/// as its trace. What is read has no fault of its own form, and is its own normal form; bytes are read
/// as one trace at most, with one list of remarks on each group.
pub fn normal_forms()
    ensures held { (to : Form) (groups : List Group) → IsHeldBy to groups
        → IsHeldBy to (normal_form to groups) }
    ensures again { (to : Form) (groups : List Group) → IsHeldBy to groups
        → normal_form to (normal_form to groups) ≡ normal_form to groups }
    ensures can_hold { (to : Form) (groups : List Group) → CanHoldTrace to groups
        → CanHoldTrace to (normal_form to groups) }
    ensures itself { (to : Form) (groups : List Group) → CanHoldTrace to groups
        → normal_form to (normal_form to groups) ≡ normal_form to groups }
    ensures spans { (to : Form) (groups : List Group)
        → span_count (normal_form to groups) ≡ span_count groups }
    ensures no_fault { (from : Form) (bytes : List ℕ) (groups : List Group)
        → Reads from bytes groups → IsFaultless from groups }
    ensures read { (from : Form) (bytes : List ℕ) (groups : List Group) → Reads from bytes groups
        → normal_form from groups ≡ groups }
    ensures once { (from : Form) (bytes : List ℕ) (a b : List Group) → Reads from bytes a
        → Reads from bytes b → a ≡ b }
    ensures remarks { (from : Form) (bytes : List ℕ) (a b : List NotedGroup)
        → ReadsNoted from bytes a → ReadsNoted from bytes b
        → a ≡ b }
{
    input_laws();
    map_jaeger::laws::normal_forms();
    map_jaeger::laws::read_is_normal();
}

/// What is read of bytes in any form can be held by that form, which leaves it as it is: it is sound and
/// proper, has no fault, and is its own normal form.
pub fn read_is_held()
    ensures { (from : Form) (bytes : List ℕ) (groups : List Group) → All (λ b. b < 256) bytes
        → Reads from bytes groups
        → IsNormalTrace from groups }
{
    input_laws();
    otlp_proto::laws::some_group();
    otlp_proto::laws::read_proper();
    map_jaeger::laws::read_is_sound();
    map_jaeger::laws::read_is_proper();
    map_jaeger::laws::read_is_normal();
}

/// Traces of equal normal forms, and only they, have equal texts.
pub fn equal_texts()
    ensures { (to : Form) (a b : List Group) → IsHeldBy to a → IsHeldBy to b
        → (canonical_text to a ≡ canonical_text to b) ↔ (normal_form to a ≡ normal_form to b) }
{
    text_read_back();
    normal_forms();
}

/// Canonical text converts to itself, where it fits as an input of its form.
pub fn converts_to_itself()
    ensures { (to : Form) (limits : Limits) (groups : List Group) → AreLimits limits
        → IsHeldBy to groups
        → Fits to limits (canonical_text to groups)
        → ConvertsToItself to limits (canonical_text to groups) groups }
{
    text_laws();
}

/// What was written for an input is read as the normal form of the input's trace, without remarks,
/// and is the text of no trace of another normal form; where it fits as an input of its form it
/// converts to itself, and back to the input's form; that normal form keeps the spans of the trace.
pub fn output_read_back()
    ensures read { (from to : Form) (limits : Limits) (bytes text : List ℕ) (tally : Tally)
        → (h : IsGood (input_form from) (form_target to) limits bytes text tally)
        → All (IsSizedGroup to) (groups_in h.noted)
        → ReadsPlainly to text (normal_form to (groups_in h.noted)) }
    ensures again { (from to : Form) (limits : Limits) (bytes text : List ℕ) (tally : Tally)
        → AreLimits limits
        → (h : IsGood (input_form from) (form_target to) limits bytes text tally)
        → All (IsSizedGroup to) (groups_in h.noted)
        → Fits to limits text → ConvertsToItself to limits text (groups_in h.noted) }
    ensures back { (from to : Form) (limits : Limits) (bytes text : List ℕ) (tally : Tally)
        → AreLimits limits
        → (h : IsGood (input_form from) (form_target to) limits bytes text tally)
        → All (IsSizedGroup to) (groups_in h.noted) → ReadsBack from to limits bytes text }
{
    input_laws();
    normal_forms();
    equal_texts();
    text_read_back();
    converts_to_itself();
    there_and_back();
    kept();
}

/// The report of the losses of a move to a form is the one line of none exactly where the groups that
/// were read are their own normal form.
pub fn no_losses()
    ensures { (from to : Form) (limits : Limits) (bytes text : List ℕ) (tally : Tally)
        → (h : IsGood (input_form from) (report_target (reports.Losses to)) limits bytes text tally)
        → (text ≡ codes "losses 0\n") ↔ (normal_form to (groups_in h.noted) ≡ groups_in h.noted) }
{
    map_jaeger::laws::none_lost();
    map_zipkin::laws::nothing_lost();
}
