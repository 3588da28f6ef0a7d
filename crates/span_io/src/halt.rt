//! Want of memory, and why a reader stopped.
ghost use Rattle.std.specs.Prelude.{◌≡◌};
ghost use Rattle.span_io.specs.Paths.{in_unit};
ghost use Rattle.span_io.specs.declared.halt.Halt.TheVariants as halts;

use crate::cause::Cause;
use crate::refusal::Refusal;
use std::alloc::{AllocError, AllocFailed};

/// No memory was found for a growth.
#[derive(Clone, Copy, Debug, PartialEq, Eq)]
pub struct OutOfMemory;

impl From<AllocError> for OutOfMemory {
    fn from(_error: AllocError) -> OutOfMemory {
        OutOfMemory
    }
}

impl<T: Drop> From<AllocFailed<T>> for OutOfMemory {
    fn from(_error: AllocFailed<T>) -> OutOfMemory {
        OutOfMemory
    }
}

/// Why a call that has causes and can want memory gave no value.
#[derive(Clone, Copy, Debug, PartialEq, Eq)]
pub enum Halt<E> {
    Why(E),
    OutOfMemory,
}

impl Halt<Cause> {
    /// The same halt, told of the unit of this number.
    pub fn in_unit(self, unit: u64) -> Halt<Refusal>
        ensures { result ≡ in_unit unit self }
    {
        match self {
            Halt::Why(cause) => Halt::Why(Refusal { unit, cause }),
            Halt::OutOfMemory => Halt::OutOfMemory,
        }
    }
}

impl<E> From<OutOfMemory> for Halt<E> {
    ghost from_gives = { λ _ halt. halt ≡ halts.OutOfMemory };

    fn from(_error: OutOfMemory) -> Halt<E> {
        Halt::OutOfMemory
    }
}

impl From<Cause> for Halt<Cause> {
    ghost from_gives = { λ cause halt. halt ≡ halts.Why cause };

    fn from(cause: Cause) -> Halt<Cause> {
        Halt::Why(cause)
    }
}
