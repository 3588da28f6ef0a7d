//! Conversion in one call.
ghost use Rattle.std.specs.Prelude.{◌≡◌, ℕ, List, IfOk};
ghost use Rattle.span_io.specs.Limits.{AreLimits};
ghost use Rattle.span_io.specs.declared.cause.Cause.TheVariants as causes;
ghost use Rattle.span_io.specs.declared.form.Form.{Form};
ghost use Rattle.span_convert.specs.Canonical.{ReadsBack};
ghost use Rattle.span_convert.specs.CutBatches.{EndsInBatch, IfJaeger};
ghost use Rattle.span_convert.specs.SameBatches.{SameBatches};
ghost use Rattle.span_convert.specs.SameDocuments.{AgreeingDocuments, SameDocuments};
ghost use Rattle.span_convert.specs.Verdicts.{Verdict, IsVerdict, Answers};

use crate::bad::Bad;
use crate::growing_sink::{GrowingSink, convert_into};
use crate::laws::{
    cut_batches, free_members, one_verdict, output_read_back, same_batches, same_documents,
    some_verdict,
};
use span_io::laws::proper_bytes;
use span_io::{Blob, Form, Limits};
use std::alloc::Global;

/// Converts a whole input. The answer is its canonical text in the target form, or why it has none.
/// That text has all spans of the input, and converts back where it fits as an input; no second trip,
/// there or back, loses more.
pub fn convert_all(
    alloc: Global,
    from: Form,
    to: Form,
    bytes: &[u8],
    limits: &Limits,
) -> Result<Blob, Bad>
    requires limits { AreLimits limits.now }

    // There is a verdict on the input, whatever is answered, and the answer is by it.
    ensures exists { (verdict : Verdict) × IsVerdict from to limits.now bytes.now verdict }
    ensures verdict { (verdict : Verdict) → IsVerdict from to limits.now bytes.now verdict
        → Answers verdict result }

    // An input that holds the same batches of Jaeger, in whichever protocol, is answered so, too.
    ensures same { (other : Form) (others : List ℕ)
        → SameBatches limits.now from bytes.now other others
        → (verdict : Verdict) → IsVerdict other to limits.now others verdict
        → Answers verdict result }

    // So is an input in JSON, in the same form, whose value says the same.
    ensures same_document { (others : List ℕ) → SameDocuments limits.now from bytes.now others
        → (verdict : Verdict) → IsVerdict from to limits.now others verdict
        → Answers verdict result }

    // So is one that differs in members alone that the form doesn't know, at whatever depth.
    ensures free_members { (others : List ℕ) → AgreeingDocuments limits.now from bytes.now others
        → (verdict : Verdict) → IsVerdict from to limits.now others verdict
        → Answers verdict result }

    // Where an input of Jaeger ends too early, more bytes make its last batch whole.
    ensures cut { (unit : ℕ)
        → result ≡ Err (Bad.Refused (record { unit = unit; cause = causes.Truncated }))
        → IfJaeger from (λ protocol. EndsInBatch protocol limits.now bytes.now unit) }

    // What is answered is read back as the normal form of the input's trace, which keeps all its spans. Where it fits it converts
    // back to the input's form, which leaves that normal form as it is.
    ensures back { IfOk result (λ out. ReadsBack from to limits.now bytes.now out) }
{
    proper_bytes(bytes);
    some_verdict();
    one_verdict();
    output_read_back();
    same_batches();
    same_documents();
    free_members();
    cut_batches();
    let mut out = GrowingSink::new(alloc);
    match convert_into(alloc, from, to, bytes, limits, &mut out) {
        Ok(_) => Ok(out.text),
        Err(bad) => Err(bad),
    }
}
