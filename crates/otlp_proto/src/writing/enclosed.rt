//! Messages in a field: each is written behind an opening that tells of no bytes, which then gets its length. So nothing
//! is measured before it is written.
ghost use Rattle.std.specs.Prelude.{◌≡◌, ◌+◌, ◌≤◌, ◌++◌, ℕ, List, length, take, OnOk, OnErr};
ghost use Rattle.proto_wire.specs.Records.{IsFieldNumber};
ghost use Rattle.proto_wire.specs.Wire.{opening_text};
ghost use Rattle.otlp_proto.specs.Canonical.{bytes_field, filled_field};

use proto_wire::{close_record, opening_size};
use span_io::{Blob, OutOfMemory};

/// Closes the field that was opened at `begins` and behind whose opening a message was written.
/// Where memory was wanted, the field is cut off.
#[tactic(auto, using(crate::proofs::Growth::opened))]
pub fn close_field(
    out: &mut Blob,
    number: u32,
    begins: usize,
    written: Result<(), OutOfMemory>,
) -> Result<(), OutOfMemory>
    requires number { IsFieldNumber number }
    requires opened { begins + length (opening_text number 0) ≤ length out.old }
    ensures ok { (before begun held : List ℕ) → begins ≡ length before
        → begun ≡ before ++ opening_text number 0
        → OnOk written (out.old ≡ begun ++ held)
        → OnOk result (out.new ≡ before ++ bytes_field number held) }
    ensures err { OnErr result (out.new ≡ take begins out.old) }
{
    match written {
        Ok(()) => close_record(out, number, begins),
        Err(want) => {
            out.truncate(begins);
            Err(want)
        }
    }
}

/// The same of a message that is left out where it is empty.
#[tactic(auto, using(crate::proofs::Growth::opened))]
pub fn close_filled(
    out: &mut Blob,
    number: u32,
    begins: usize,
    written: Result<(), OutOfMemory>,
) -> Result<(), OutOfMemory>
    requires number { IsFieldNumber number }
    requires opened { begins + length (opening_text number 0) ≤ length out.old }
    ensures ok { (before begun held : List ℕ) → begins ≡ length before
        → begun ≡ before ++ opening_text number 0
        → OnOk written (out.old ≡ begun ++ held)
        → OnOk result (out.new ≡ before ++ filled_field number held) }
    ensures err { OnErr result (out.new ≡ take begins out.old) }
{
    let end = out.len() as u64;
    let holds = begins as u64 + opening_size(number, 0);
    match written {
        Ok(()) if holds < end => close_record(out, number, begins),
        other => {
            out.truncate(begins);
            other
        }
    }
}
