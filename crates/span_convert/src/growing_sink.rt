//! Conversion into memory.
ghost use Rattle.std.specs.Prelude.{◌≡◌, ◌++◌, [], All, IfOk, IfErr, Err};
ghost use Rattle.span_io.specs.Limits.{AreLimits};
ghost use Rattle.span_convert.specs.Targets.{form_target};
ghost use Rattle.span_convert.specs.Units.{input_form};
ghost use Rattle.span_convert.specs.Verdicts.{Verdict, Answers, IsGood, IsVerdict};

use crate::bad::Bad;
use crate::laws::{one_verdict, outlook_lasts};
use crate::tally::Tally;
use crate::walker::Walker;
use crate::written::Written;
use span_io::{Blob, Failed, Form, Limits, OutOfMemory, Sink};
use std::alloc::Global;

/// A sink that keeps all that it takes. It fails where memory is wanted.
#[derive(Drop)]
pub(crate) struct GrowingSink {
    pub(crate) text: Blob,
    faults: u64,
}

impl Sink for GrowingSink {
    ghost use Rattle.std.specs.Prelude.{Some, None, length};
    ghost use Rattle.span_io.specs.Outside.{so_many};

    ghost outlet = { λ s. record {
      held = Some s.text;
      taken = Some (length s.text);
      faults = s.faults;
      sure = so_many 0;
      course = None;
    } };

    fn write(&mut self, piece: &[u8]) -> Result<usize, Failed> {
        match self.text.append(piece) {
            Ok(()) => Ok(piece.len()),
            Err(OutOfMemory) => {
                self.faults = self.faults.saturating_add(1);
                Err(Failed)
            }
        }
    }
}

impl GrowingSink {
    /// A sink that took nothing.
    pub(crate) fn new(alloc: Global) -> GrowingSink
        ensures { result.text ≡ [] }
    {
        GrowingSink {
            text: Blob::new(alloc),
            faults: 0,
        }
    }

    /// What it took, and these bytes behind it.
    pub(crate) fn with(self, rest: Blob) -> Result<Blob, OutOfMemory>
        ensures { IfOk result (λ text. text ≡ self.text ++ rest) }
    {
        let mut text = self.text;
        if text.len() == 0 {
            return Ok(rest);
        }
        text.append(rest.as_slice())?;
        Ok(text)
    }
}

/// Converts a whole input into a sink that took nothing. Its text is there, or why there is none is
/// answered.
pub(crate) fn convert_into(
    alloc: Global,
    from: Form,
    to: Form,
    bytes: &[u8],
    limits: &Limits,
    out: &mut GrowingSink,
) -> Result<Tally, Bad>
    requires limits { AreLimits limits.now }
    requires fresh { out.old.text ≡ [] }
    ensures whole { IfOk result (λ tally.
        (is : IsGood (input_form from) (form_target to) limits.now bytes.now out.new.text tally)
        × All (form_target to).IsSized is.noted) }
    ensures bad { IfErr result
        (λ bad. (verdict : Verdict) → IsVerdict from to limits.now bytes.now verdict
        → Answers verdict (Err bad)) }
{
    one_verdict();
    outlook_lasts();
    let mut walker = Walker::new(alloc, from, Written::Form(to), limits);
    match walker.feed(bytes, out) {
        Ok(()) => match walker.finish(out) {
            Ok(tally) => Ok(tally),
            Err(_) => Err(walker.into_bad()),
        },
        Err(_) => Err(walker.into_bad()),
    }
}
