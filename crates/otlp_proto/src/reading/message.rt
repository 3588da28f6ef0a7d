//! The walk over the records of a message.
ghost use Rattle.std.specs.Prelude.{[], ℕ, List, length, IfOk, OnOk};
ghost use Rattle.span_io.specs.Offences.{Offence, OnHalt};
ghost use Rattle.span_io.specs.Offences.{RulesLaws};
ghost use Rattle.span_io.specs.Tables.{Row, rules_by};
ghost use Rattle.proto_wire.specs.Records.{Record, plain_record};
ghost use Rattle.proto_wire.specs.Messages.{messages};
ghost use Rattle.proto_wire.specs.Wire.{Wire};
ghost use Rattle.span_io.specs.private.Gathering.{AddsItem, JudgesItem, GatheredAll};
ghost use Rattle.otlp_proto.specs.private.Numbering.{HaveNumbers, GrewWithin, least_size};

use proto_wire::laws::message_cuts;
use proto_wire::{WireRecord, next_record};
use span_io::{Cause, Cursor, Halt};
use std::alloc::Global;

/// The rows of a message, as they are gathered record by record.
pub trait Rows: Drop {
    // The message's table, and how the message offends at its end.
    ghost table: { List (Row Record) };

    ghost ends: { List Record → ℕ → Type 0 };
    // From the first rows, which gave nothing yet, these records gave the others.
    ghost gathered: { Self → Self → List Record → Type 0 };
    // The counts by which members of the message are numbered. A record adds to each at most as
    // many as it has bytes.
    ghost counts: { Self → List ℕ };

    /// Adds a record.
    fn gather(&mut self, alloc: Global, found: &WireRecord<'_>) -> Result<(), Halt<Cause>>
        requires counted { HaveNumbers (counts self.old) (least_size (plain_record found.now)) }
        ensures ok { OnOk result (AddsItem gathered (plain_record found.now) self.old self.new) }
        ensures judged { JudgesItem gathered table (plain_record found.now) self.old result }
        ensures grown { OnOk result (GrewWithin (least_size (plain_record found.now))
            (counts self.old) (counts self.new)) };
}

/// Gathers the rows of a message, from rows that gave nothing yet.
pub fn read_rows<R: Rows>(alloc: Global, first: R, bytes: &[u8]) -> Result<R, Halt<Cause>>
    requires none { R.gathered first first [] }
    requires lawful { RulesLaws messages (rules_by R.table R.ends) }
    requires counted { HaveNumbers (R.counts first) (length bytes.now) }
    ensures all { IfOk result
        (λ rows. GatheredAll messages (rules_by R.table R.ends) Wire
        (R.gathered first rows) bytes.now) }
    ensures halted { OnHalt result (Offence messages (rules_by R.table R.ends) bytes.now) }
    ensures grown { IfOk result
        (λ rows. GrewWithin (length bytes.now) (R.counts first) (R.counts rows)) }
{
    message_cuts();
    let mut rows = first;
    let mut cursor = Cursor::new(bytes);
    'records: loop {
        match next_record(&mut cursor) {
            Ok(None) => return Ok(rows),
            Ok(Some(found)) => rows.gather(alloc, &found)?,
            Err(cause) => return Err(Halt::Why(cause)),
        }
    }
}
