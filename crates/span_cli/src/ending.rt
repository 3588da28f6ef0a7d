//! How a run ends.
ghost use Rattle.std.specs.Prelude.{◌≡◌, Some};
ghost use Rattle.span_convert.specs.Converters.{stop_of};
ghost use Rattle.span_cli.specs.private.LineWords.{status_of};
ghost use Rattle.span_cli.specs.private.RunSteps.{IsEndingOf};

use crate::noted_fault::NotedFault;
use propagation::HeaderCause;
use span_convert::{Stop, Walker, Why};
use span_io::{OutOfMemory, Refusal};
use std::alloc::Global;

/// How a run ends.
#[derive(Drop)]
pub enum Ending {
    /// The whole text was written.
    Whole,
    Refused(Refusal),
    /// The target can't hold a unit.
    Faulted(NotedFault),
    /// The header lines tell no context.
    BadHeaders(HeaderCause),
    /// There are more bytes of header lines than are read.
    TooLong,
    /// The form of headers can't tell a context without identifiers.
    NoIds,
    InputFailed,
    OutputFailed,
    NoMemory,
}

impl Ending {
    /// How a run ends whose converter or reporter answered this stop.
    pub fn at_stop(alloc: Global, walker: &Walker, stop: Stop) -> Ending
        requires kept { stop_of walker.now ≡ Some stop }
        ensures { IsEndingOf result stop walker.now }
    {
        match walker.why() {
            Why::Refusal(refusal) => Ending::Refused(*refusal),
            Why::Fault(found) => match NotedFault::of(alloc, found) {
                Ok(noted) => Ending::Faulted(noted),
                Err(OutOfMemory) => Ending::NoMemory,
            },
            Why::Nothing => match stop {
                Stop::Write => Ending::OutputFailed,
                Stop::OutOfMemory => Ending::NoMemory,
                Stop::Refused | Stop::Faulted => unreachable!(),
            },
        }
    }

    /// The exit status.
    pub fn status(&self) -> u8
        ensures { result ≡ status_of self.now }
    {
        match self {
            Ending::Whole => 0,
            Ending::Refused(_) => 3,
            Ending::Faulted(_) => 4,
            Ending::BadHeaders(_) => 3,
            Ending::TooLong => 3,
            Ending::NoIds => 4,
            Ending::InputFailed => 5,
            Ending::OutputFailed => 6,
            Ending::NoMemory => 7,
        }
    }
}
