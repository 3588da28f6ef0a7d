//! Feeding an input to what converts or reports it.
ghost use Rattle.std.specs.Prelude.{◌≡◌, [], length, vec_len, IfOk, OnOk};
ghost use Rattle.span_convert.specs.Converters.{Fed, work_of};
ghost use Rattle.span_cli.specs.private.ReadBlocks.{IsFed, shipped};
ghost use Rattle.span_cli.specs.Inputs.{piece};
ghost use Rattle.span_cli.specs.Jobs.{Spans};
ghost use Rattle.span_cli.specs.private.RunSteps.{EndsEarly};

use crate::ending::Ending;
use span_convert::Walker;
use span_convert::laws::{
    nothing_written, one_verdict, outlook_begins, outlook_lasts, some_outlook,
};
use span_io::laws::{gains_then, proper_bytes};
use span_io::{OutOfMemory, Sink, Source};
use std::alloc::Global;

/// The most bytes that one read asks for.
pub(crate) const PIECE: usize = 65_536;

/// Feeds an input to what converts or reports it, piece by piece, to the end of the input. What is converted of a piece is
/// written before the next is read. Where the run ends before, the answer is how.
pub fn feed_input<S: Source, K: Sink>(
    alloc: Global,
    walker: &mut Walker,
    input: &mut S,
    output: &mut K,
) -> Result<(), Ending>
    requires fresh { Fed walker.old
        (shipped (work_of walker.old).from (work_of walker.old).what) [] [] }
    ensures fed { OnOk result (IsFed (shipped (work_of walker.old).from (work_of walker.old).what)
        (S.inlet input.old) (S.inlet input.new) (K.outlet output.old)
        (K.outlet output.new) walker.new) }
    ensures ended { EndsEarly K.outlet
        (Spans (work_of walker.old).from (work_of walker.old).what) result
        (S.inlet input.old) (S.inlet input.new) output.old output.new }
{
    nothing_written();
    let Ok(mut buffer) = room(alloc, PIECE) else {
        return Err(Ending::NoMemory);
    };
    feed_pieces(alloc, walker, input, output, buffer.as_mut_slice())
}

// So many bytes of room.
pub(crate) fn room(alloc: Global, size: usize) -> Result<Vec<u8>, OutOfMemory>
    ensures { IfOk result (λ buffer. vec_len buffer ≡ size) }
{
    Ok(Vec::from_elem(alloc, 0u8, size)?)
}

// The same with room for a piece.
fn feed_pieces<S: Source, K: Sink>(
    alloc: Global,
    walker: &mut Walker,
    input: &mut S,
    output: &mut K,
    buffer: &mut [u8],
) -> Result<(), Ending>
    requires room { length buffer.old ≡ piece }
    requires fresh { Fed walker.old
        (shipped (work_of walker.old).from (work_of walker.old).what) [] [] }
    ensures fed { OnOk result (IsFed (shipped (work_of walker.old).from (work_of walker.old).what)
        (S.inlet input.old) (S.inlet input.new) (K.outlet output.old)
        (K.outlet output.new) walker.new) }
    ensures ended { EndsEarly K.outlet
        (Spans (work_of walker.old).from (work_of walker.old).what) result
        (S.inlet input.old) (S.inlet input.new) output.old output.new }
{
    nothing_written();
    gains_then();
    one_verdict();
    some_outlook();
    outlook_lasts();
    outlook_begins();
    'pieces: loop {
        let Ok(given) = input.read(buffer) else {
            return Err(Ending::InputFailed);
        };
        if given == 0 {
            return Ok(());
        }
        let piece = &buffer[..given];
        proper_bytes(piece);
        if let Err(stop) = walker.feed(piece, output) {
            return Err(Ending::at_stop(alloc, walker, stop));
        }
    }
}
