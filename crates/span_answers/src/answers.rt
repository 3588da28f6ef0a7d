//! The answers to bodies that have no text in the target form.
ghost use Rattle.std.specs.Prelude.{◌≡◌, ◌++◌, OnOk};
ghost use Rattle.http_conn.specs.Replies.{answer_text};
ghost use Rattle.span_answers.specs.Answers.{plain_text};
ghost use Rattle.span_answers.specs.NoteLines.{fault_line, refusal_line};

use crate::note_lines::{write_fault, write_refusal};
use http_conn::answer;
use span_convert::{Refusal, TargetFault};
use span_io::{Blob, OutOfMemory};
use std::alloc::Global;

/// Appends the answer to a body that has a cause.
pub fn answer_refusal(
    alloc: Global,
    out: &mut Blob,
    refusal: &Refusal,
    close: bool,
) -> Result<(), OutOfMemory>
    ensures { OnOk result
        (out.new ≡ out.old ++ answer_text 400 plain_text (refusal_line refusal.now) close) }
{
    let mut line = Blob::new(alloc);
    write_refusal(&mut line, refusal)?;
    answer(out, 400, "text/plain", line.as_slice(), close)
}

/// Appends the answer to a body that the target can't hold.
pub fn answer_fault(
    alloc: Global,
    out: &mut Blob,
    found: &TargetFault,
    close: bool,
) -> Result<(), OutOfMemory>
    ensures { OnOk result
        (out.new ≡ out.old ++ answer_text 422 plain_text (fault_line found.now) close) }
{
    let mut line = Blob::new(alloc);
    write_fault(alloc, &mut line, found)?;
    answer(out, 422, "text/plain", line.as_slice(), close)
}
