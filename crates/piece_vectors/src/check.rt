//! What a test ends with that finds an answer wrong.
ghost use Rattle.std.specs.Prelude.{◌≢◌, true};
ghost use Rattle.span_convert.specs.Converters.{has_ended};

use span_convert::{Converter, Stop, Tally};
use span_io::MemSink;
use std::process::Abort;

/// What a test ends with that finds no memory.
pub const NO_MEMORY: &str = "no memory";

/// Ends the test where this doesn't hold of a row, behind so many bytes of its input.
pub fn check(rt: &impl Abort, holds: bool, what: &str, name: &str, fed: usize) {
    assert!(rt; holds, "{what} of {name} at {fed}");
}

// Ends the test where a conversion has ended.
fn check_going(rt: &impl Abort, name: &str, converter: &Converter)
    ensures { has_ended converter.now ≢ true }
{
    assert!(rt; !converter.ended(), "{name} ended");
}

/// Feeds a piece to a conversion that goes on. The answer is the stop, if there is one.
pub fn fed(
    rt: &impl Abort,
    name: &str,
    converter: &mut Converter,
    piece: &[u8],
    out: &mut MemSink,
) -> Option<Stop> {
    check_going(rt, name, converter);
    converter.feed(piece, out).err()
}

/// Ends a conversion that goes on.
pub fn finished(
    rt: &impl Abort,
    name: &str,
    converter: &mut Converter,
    out: &mut MemSink,
) -> Result<Tally, Stop> {
    check_going(rt, name, converter);
    converter.finish(out)
}
