//! The line of a loss, and the last line behind all of them.
ghost use Rattle.std.specs.Prelude.{◌≡◌, ◌++◌, OnErr, OnOk};
ghost use Rattle.span_io.specs.Outside.{GrowsFront};
ghost use Rattle.loss_report.specs.Lines.{loss_count_text, loss_text, lost_text};

use crate::pieces::{append_numbered, append_place, append_quoted};
use span_io::{Blob, OutOfMemory};
use trace_model::{Loss, LossRow};

// Appends the name of the row, and the key where there is one.
#[tactic(auto, using(crate::proofs::Growth::in_pieces))]
fn append_lost(out: &mut Blob, loss: &Loss) -> Result<(), OutOfMemory>
    ensures ok { OnOk result (out.new ≡ out.old ++ lost_text loss.now.row loss.now.key) }
    ensures err { OnErr result (GrowsFront out.old out.new (lost_text loss.now.row loss.now.key)) }
{
    out.append(loss.row.name().as_bytes())?;
    match loss.row {
        LossRow::Value | LossRow::Empty => append_quoted(out, b" ", loss.key.as_str()),
        _ => Ok(()),
    }
}

/// Appends the line of a loss in a unit, or a front of it.
#[tactic(auto, using(crate::proofs::Growth::in_pieces))]
pub fn loss_line(out: &mut Blob, unit: u64, loss: &Loss) -> Result<(), OutOfMemory>
    ensures ok { OnOk result (out.new ≡ out.old ++ loss_text unit loss.now) }
    ensures err { OnErr result (GrowsFront out.old out.new (loss_text unit loss.now)) }
{
    append_place(out, unit, loss.place)?;
    out.append(b": ")?;
    append_lost(out, loss)?;
    out.append(b"\n")
}

/// Appends the last line of losses, or a front of it: how many there are.
#[tactic(auto, using(crate::proofs::Growth::in_pieces))]
pub fn loss_count_line(out: &mut Blob, losses: u64) -> Result<(), OutOfMemory>
    ensures ok { OnOk result (out.new ≡ out.old ++ loss_count_text losses) }
    ensures err { OnErr result (GrowsFront out.old out.new (loss_count_text losses)) }
{
    append_numbered(out, b"losses ", losses)?;
    out.append(b"\n")
}
