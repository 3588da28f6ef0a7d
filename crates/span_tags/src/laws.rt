//! Laws of the tables, as contracts of functions that do nothing.
ghost use Rattle.std.specs.Prelude.{Option};
ghost use Rattle.trace_model.specs.Soundness.{IsSoundGroup};
ghost use Rattle.trace_model.specs.declared.fault.Fault.{Fault};
ghost use Rattle.trace_model.specs.declared.group.Group.{Group};
ghost use Rattle.span_tags.specs.Escapes.{KeysReadBack};
ghost use Rattle.span_tags.specs.PlacedFaults.{CountsBy};
ghost use Rattle.span_tags.specs.Escapes.{IsApart};
ghost use Rattle.span_tags.specs.FoundFaults.{FindsFaults};

use crate::escapes::Reserves;
use crate::first_fault::Faults;

/// A sound group has a fault that counts, or none. No memory is wanted for it.
pub fn faults_found<F: Faults>()
    requires lawful { FindsFaults F.table F.of_resource F.of_span }
    ensures { (group : Group) → IsSoundGroup group
        → (found : Option Fault) × CountsBy F.of_resource F.of_span group found }
{
    // The clause is the law.
}

/// No key is written as a reserved one, no two as one, and each is read back.
pub fn keys_read_back<R: Reserves>()
    requires apart { IsApart R.reserved }
    ensures { KeysReadBack R.reserved }
{
    // The clause is the law.
}
