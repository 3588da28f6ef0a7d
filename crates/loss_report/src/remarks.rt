//! The line of a remark, and the last line behind all of them.
ghost use Rattle.std.specs.Prelude.{◌≡◌, ◌++◌, OnErr, OnOk};
ghost use Rattle.span_io.specs.Outside.{GrowsFront};
ghost use Rattle.loss_report.specs.Lines.{counts_text, remark_text, remarked};

use crate::pieces::{append_numbered, append_place, append_quoted};
use span_io::{Blob, OutOfMemory};
use trace_model::{Remark, RemarkKind};

// Appends what is remarked, and the key where there is one, or nothing.
fn append_remarked(out: &mut Blob, remark: &Remark) -> Result<(), OutOfMemory>
    ensures ok { OnOk result (out.new ≡ out.old ++ remarked remark.now.kind remark.now.key) }
    ensures err { OnErr result (out.new ≡ out.old) }
{
    match remark.kind {
        RemarkKind::EqualKey => append_quoted(out, b"equal key ", remark.key.as_str()),
        RemarkKind::LinkDropped => out.append(b"link dropped"),
        RemarkKind::TagDropped => append_quoted(out, b"tag dropped ", remark.key.as_str()),
    }
}

/// Appends the line of a remark on a unit, or a front of it.
#[tactic(auto, using(crate::proofs::Growth::in_pieces))]
pub fn remark_line(out: &mut Blob, unit: u64, remark: &Remark) -> Result<(), OutOfMemory>
    ensures ok { OnOk result (out.new ≡ out.old ++ remark_text unit remark.now) }
    ensures err { OnErr result (GrowsFront out.old out.new (remark_text unit remark.now)) }
{
    append_place(out, unit, remark.place)?;
    out.append(b": ")?;
    append_remarked(out, remark)?;
    out.append(b"\n")
}

/// Appends the last line of a check, or a front of it: how many units, spans and remarks there are.
#[tactic(auto, using(crate::proofs::Growth::in_pieces))]
pub fn counts_line(out: &mut Blob, units: u64, spans: u64, remarks: u64) -> Result<(), OutOfMemory>
    ensures ok { OnOk result (out.new ≡ out.old ++ counts_text units spans remarks) }
    ensures err { OnErr result (GrowsFront out.old out.new (counts_text units spans remarks)) }
{
    append_numbered(out, b"units ", units)?;
    append_numbered(out, b", spans ", spans)?;
    append_numbered(out, b", remarks ", remarks)?;
    out.append(b"\n")
}
