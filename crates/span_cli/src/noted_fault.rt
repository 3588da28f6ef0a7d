//! What is noted of a fault of the target.
ghost use Rattle.std.specs.Prelude.{◌≡◌, IfOk, IsErr};
ghost use Rattle.span_answers.specs.NoteLines.{HasKey, fault_line};
ghost use Rattle.span_cli.specs.private.LineWords.{noted_line};

use span_answers::key_of;
use span_convert::TargetFault;
use span_io::{Blob, OutOfMemory};
use std::alloc::Global;

/// What is noted of a fault of the target: the unit, the fault's number and name, and a space and its
/// key as a JSON string, or nothing where it has none.
#[derive(Drop)]
pub struct NotedFault {
    pub unit: u64,
    pub number: u8,
    pub name: &'static str,
    pub key: Blob,
}

impl NotedFault {
    /// What is noted of this fault. Only a key takes memory.
    pub(crate) fn of(alloc: Global, found: &TargetFault) -> Result<NotedFault, OutOfMemory>
        ensures says { IfOk result (λ noted. noted_line noted ≡ fault_line found.now) }
        ensures wants { IsErr result → HasKey found.now.fault }
    {
        match key_of(alloc, &found.fault) {
            Ok(key) => Ok(NotedFault {
                unit: found.unit,
                number: found.fault.number(),
                name: found.fault.name(),
                key,
            }),
            Err(OutOfMemory) => Err(OutOfMemory),
        }
    }
}
