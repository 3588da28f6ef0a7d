//! The walk over the fields of a struct.
ghost use Rattle.std.specs.Prelude.{◌≡◌, ◌≤◌, ◌++◌, [], ℕ, List, length, IfOk, OnOk};
ghost use Rattle.span_io.specs.Offences.{Offence, OnHalt};
ghost use Rattle.span_io.specs.Offences.{RulesLaws};
ghost use Rattle.span_io.specs.Tables.{Row, rules_by};
ghost use Rattle.span_io.specs.private.Gathering.{AddsItem, JudgesItem};
ghost use Rattle.thrift_core.specs.Messages.{FieldItem, structs, whole_struct};
ghost use Rattle.thrift_core.specs.private.StandingFields.{FieldStands};
ghost use Rattle.thrift_core.specs.Trees.{Fields, StructText, outer_levels};
ghost use Rattle.jaeger_model.specs.private.RowsSoFar.{GatheredStruct};

use span_io::{Cause, Cursor, Halt};
use std::alloc::Global;
use thrift_core::{Field, Parts};

/// The rows of a struct in which so many levels of containers are left, as they are gathered field by field.
pub trait Rows<P: Parts>: Drop {
    // The struct's table by these levels, and how the struct offends at its end.
    ghost table: { ℕ → List (Row FieldItem) };

    ghost ends: { List FieldItem → ℕ → Type 0 };
    // From the first rows, which gave nothing yet, these fields gave the others.
    ghost gathered: { ℕ → Self → Self → List FieldItem → Type 0 };

    /// Adds the field of this head, whose value stands at the cursor.
    fn gather(
        &mut self,
        alloc: Global,
        c: &mut Cursor<'_>,
        found: Field,
        left: u8,
    ) -> Result<(), Halt<Cause>>
        requires levels { left ≤ outer_levels }
        ensures ok { (item : FieldItem) (rest : List ℕ)
            → FieldStands P.spells left found item c.old.rest rest
            → OnOk result ((c.new.rest ≡ rest) × AddsItem (gathered left) item self.old self.new) }
        ensures judged { (item : FieldItem) (rest : List ℕ)
            → FieldStands P.spells left found item c.old.rest rest
            → JudgesItem (gathered left) (table left) item self.old result }
        ensures shorter { length c.new.rest ≤ length c.old.rest };
}

/// Gathers the rows of a struct that is known to stand at the cursor, from rows that gave nothing yet.
pub fn read_rows<P: Parts, R: Rows<P>>(
    alloc: Global,
    first: R,
    c: &mut Cursor<'_>,
    left: u8,
) -> Result<R, Halt<Cause>>
    requires levels { left ≤ outer_levels }
    requires none { R.gathered left first first [] }
    requires lawful { RulesLaws (structs P.spells left) (rules_by (R.table left) R.ends) }
    ensures all { (text tail : List ℕ) (fields : Fields) → c.old.rest ≡ text ++ tail
        → StructText P.spells left fields text
        → IfOk result (λ rows. (c.new.rest ≡ tail)
        × GatheredStruct P.spells left (rules_by (R.table left) R.ends)
        (R.gathered left first rows) fields text) }
    ensures halted { (text tail : List ℕ) (fields : Fields) → c.old.rest ≡ text ++ tail
        → StructText P.spells left fields text
        → OnHalt result
        (Offence (structs P.spells left) (rules_by (R.table left) R.ends) (whole_struct text)) }
    ensures shorter { length c.new.rest ≤ length c.old.rest }
{
    let mut rows = first;
    let mut last: i16 = 0;
    'fields: loop {
        match P::field(c, last, left) {
            Ok(Some(found)) => {
                rows.gather(alloc, c, found, left)?;
                last = found.id;
            }
            Ok(None) => return Ok(rows),
            // A struct stands here, so no field is refused.
            Err(_) => return Ok(rows),
        }
    }
}
