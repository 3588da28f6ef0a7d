//! The run of `headers`.
ghost use Rattle.std.specs.Prelude.{IfOk, IfErr};
ghost use Rattle.span_cli.specs.Jobs.{HeaderLines};
ghost use Rattle.span_cli.specs.private.RunSteps.{EndsRun, TellsLines, HaltsLines};

use crate::block::read_block;
use crate::ending::Ending;
use propagation::laws::{heads_are_sound, one_verdict};
use propagation::{HeaderForm, NoIds, read_headers, write_headers};
use span_io::{Blob, Failed, Halt, Sink, Source, write_all};
use std::alloc::Global;

/// Reads header lines to the end of the input, and writes their context in a form.
pub fn headers<S: Source, K: Sink>(
    alloc: Global,
    form: HeaderForm,
    input: &mut S,
    output: &mut K,
) -> Ending
    ensures { EndsRun K.outlet (HeaderLines form) result (S.inlet input.old)
        (S.inlet input.new) output.old output.new }
{
    one_verdict();
    let block = match read_block(alloc, input) {
        Ok(block) => block,
        Err(ending) => return ending,
    };
    let lines = match lines_of(alloc, form, block.as_slice()) {
        Ok(lines) => lines,
        Err(ending) => return ending,
    };
    match write_all(output, lines.as_slice()) {
        Ok(()) => Ending::Whole,
        Err(Failed) => Ending::OutputFailed,
    }
}

// The lines of the context that a block tells, in a form, or how the run ends without them.
fn lines_of(alloc: Global, form: HeaderForm, block: &[u8]) -> Result<Blob, Ending>
    ensures lines { IfOk result (λ lines. TellsLines form block.now lines) }
    ensures ended { IfErr result (λ ending. HaltsLines ending form block.now) }
{
    heads_are_sound();
    let context = match read_headers(alloc, block) {
        Ok((context, _)) => context,
        Err(Halt::Why(cause)) => return Err(Ending::BadHeaders(cause)),
        Err(Halt::OutOfMemory) => return Err(Ending::NoMemory),
    };
    let mut lines = Blob::new(alloc);
    match write_headers(&mut lines, &context, form) {
        Ok(()) => Ok(lines),
        Err(Halt::Why(NoIds)) => Err(Ending::NoIds),
        Err(Halt::OutOfMemory) => Err(Ending::NoMemory),
    }
}
