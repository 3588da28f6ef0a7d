//! The references of a span (jaeger.thrift).
ghost use Rattle.std.specs.Prelude.{◌≡◌, ◌≤◌, ◌<◌, ◌^◌, ◌-◌, ◌++◌, ℕ, [], List, Option, None, length, is_none, IfOk, OnOk};
ghost use Rattle.span_io.specs.Offences.{Judges};
ghost use Rattle.span_io.specs.RowsSoFar.{Gave, Sets};
ghost use Rattle.thrift_core.specs.Trees.{Trees, outer_levels};
ghost use Rattle.jaeger_model.specs.private.ListsSoFar.{ListRowOffends, ListValue};
ghost use Rattle.jaeger_model.specs.Reference.{reference_rules};
ghost use Rattle.std.specs.List.{flat_map, count_by};
ghost use Rattle.jaeger_model.specs.declared.span.SpanRef.{SpanRef};
ghost use Rattle.jaeger_model.specs.Span.{kept_reference};
ghost use Rattle.jaeger_model.specs.private.ReferenceSoFar.{KeepsOf, KeepsReferences};

use crate::reading::lists::read_list;
use crate::span::SpanRef;
use span_io::{Cause, Cursor, Halt, Items, OutOfMemory, once};
use std::alloc::Global;
use thrift_core::Parts;

/// The references that point to a span, in their order, and the number of the others.
#[derive(Drop)]
pub(crate) struct References {
    pub kept: Items<SpanRef>,
    pub others: u32,
}

impl References {
    /// None was read.
    pub fn none(alloc: Global) -> References
        ensures { KeepsOf [] result }
    {
        References {
            kept: Items::new(alloc),
            others: 0,
        }
    }

    /// Those of a list.
    pub fn of(alloc: Global, all: Items<Option<SpanRef>>) -> Result<References, OutOfMemory>
        requires counted { length all < 2 ^ 32 }
        ensures { IfOk result (λ references. KeepsOf all references) }
    {
        let mut kept = Items::new(alloc);
        let mut others: u32 = 0;
        'references: for reference in all.into_vec() {
            match reference {
                Some(reference) => kept.push(reference)?,
                None => others += 1,
            }
        }
        Ok(References { kept, others })
    }
}

/// Sets the row of the references.
pub(crate) fn references_row<P: Parts>(
    alloc: Global,
    row: &mut Option<References>,
    c: &mut Cursor<'_>,
    left: u8,
) -> Result<(), Halt<Cause>>
    requires levels { left ≤ outer_levels }
    ensures ok { (text tail : List ℕ) (trees : Trees) → c.old.rest ≡ text ++ tail
        → ListValue P.spells left trees text
        → OnOk result ((c.new.rest ≡ tail) × Sets KeepsReferences (trees, text) row.old row.new) }
    ensures judged { (text tail : List ℕ) (trees : Trees) → c.old.rest ≡ text ++ tail
        → ListValue P.spells left trees text
        → (earlier : List (Trees × List ℕ)) → Gave KeepsReferences earlier row.old
        → Judges result (ListRowOffends P.spells (left - 2) reference_rules earlier (trees, text)) }
    ensures shorter { length c.new.rest ≤ length c.old.rest }
{
    once(row)?;
    let all = read_list::<P, Option<SpanRef>>(alloc, c, left)?;
    *row = Some(References::of(alloc, all)?);
    Ok(())
}
