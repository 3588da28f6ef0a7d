//! Lists of structs.
ghost use Rattle.std.specs.Prelude.{◌<◌, ◌^◌, ◌≡◌, ◌≢◌, ◌≤◌, ◌++◌, ◌-◌, [], ℕ, List, length, None, Some, Err, IfOk, OnOk, OnErr};
ghost use Rattle.span_io.specs.Offences.{Rules, Offence, Judges};
ghost use Rattle.span_io.specs.Offences.{RulesLaws};
ghost use Rattle.span_io.specs.RowsSoFar.{Gave, Sets};
ghost use Rattle.span_io.specs.declared.cause.Cause.TheVariants as causes;
ghost use Rattle.thrift_core.specs.declared.type_code.TypeCode.TheVariants as kinds;
ghost use Rattle.thrift_core.specs.FieldValues.{EachStruct};
ghost use Rattle.thrift_core.specs.Messages.{FieldItem, structs, whole_struct};
ghost use Rattle.thrift_core.specs.Trees.{Fields, Trees, StructText, outer_levels};
ghost use Rattle.jaeger_model.specs.InnerRows.{ElementsOffend};
ghost use Rattle.jaeger_model.specs.private.ListsSoFar.{AreElements, ListRowOffends, ListValue, ListValueOffends, MeansEach, MeansOne, StructRowOffends, StructValue};

use crate::reading::leaves::sure_list;
use span_io::{Cause, Cursor, Halt, Items, once};
use std::alloc::Global;
use thrift_core::{ListHead, Parts, TypeCode};

/// What a list of structs holds, element by element.
pub(crate) trait Element<P: Parts>: Drop {
    // The fields of a struct are those of this element.
    ghost means: { Self → Fields → Type 0 };
    // How a struct offends in which so many levels are left.
    ghost rules: { ℕ → Rules FieldItem };

    /// Reads the element whose struct is known to stand at the cursor.
    fn read(alloc: Global, c: &mut Cursor<'_>, left: u8) -> Result<Self, Halt<Cause>>
        requires levels { left ≤ outer_levels }
        ensures value { (text tail : List ℕ) (fields : Fields) → c.old.rest ≡ text ++ tail
            → StructText P.spells left fields text
            → IfOk result (λ element. (c.new.rest ≡ tail) × means element fields) }
        ensures judged { (text tail : List ℕ) (fields : Fields) → c.old.rest ≡ text ++ tail
            → StructText P.spells left fields text
            → Judges result (Offence (structs P.spells left) (rules left) (whole_struct text)) }
        ensures shorter { length c.new.rest ≤ length c.old.rest };
}

/// A list has room for so many elements at most before they are read.
const ROOM: u32 = 32;

// Reads so many elements, which are known to stand at the cursor.
fn read_elements<P: Parts, E: Element<P>>(
    alloc: Global,
    c: &mut Cursor<'_>,
    size: u32,
    left: u8,
) -> Result<Items<E>, Halt<Cause>>
    requires levels { left ≤ outer_levels }
    requires lawful { RulesLaws (structs P.spells left) (E.rules left) }
    ensures value { (text tail : List ℕ) (trees : Trees) → c.old.rest ≡ text ++ tail
        → AreElements P.spells left size trees text
        → IfOk result (λ elements. (c.new.rest ≡ tail) × EachStruct E.means trees elements) }
    ensures judged { (text tail : List ℕ) (trees : Trees) → c.old.rest ≡ text ++ tail
        → AreElements P.spells left size trees text
        → (total : ℕ) → length text ≤ total
        → Judges result (ElementsOffend P.spells left (E.rules left) total trees text) }
    ensures counted { IfOk result (λ elements. length elements ≡ size) }
    ensures shorter { length c.new.rest ≤ length c.old.rest }
{
    let mut elements = Items::with_room(alloc, size.min(ROOM) as usize)?;
    'elements: for _ in 0..size {
        elements.push(E::read(alloc, c, left)?)?;
    }
    Ok(elements)
}

// Refuses a list that isn't empty and holds other values than structs.
fn only_structs(head: ListHead) -> Result<(), Cause>
    ensures ok { OnOk result (1 ≤ head.size → head.element ≡ Some kinds.Struct) }
    ensures err { OnErr result
        ((result ≡ Err causes.BadElement) × (1 ≤ head.size) × (head.element ≢ Some kinds.Struct)) }
{
    if head.size == 0 {
        return Ok(());
    }
    match head.element {
        Some(TypeCode::Struct) => Ok(()),
        Some(_) | None => Err(Cause::BadElement),
    }
}

/// Reads the list of structs that is known to stand at the cursor, in a struct in which so many levels are left.
pub(crate) fn read_list<P: Parts, E: Element<P>>(
    alloc: Global,
    c: &mut Cursor<'_>,
    left: u8,
) -> Result<Items<E>, Halt<Cause>>
    requires levels { left ≤ outer_levels }
    requires lawful { RulesLaws (structs P.spells (left - 2)) (E.rules (left - 2)) }
    ensures value { (text tail : List ℕ) (trees : Trees) → c.old.rest ≡ text ++ tail
        → ListValue P.spells left trees text
        → IfOk result (λ elements. (c.new.rest ≡ tail) × EachStruct E.means trees elements) }
    ensures judged { (text tail : List ℕ) (trees : Trees) → c.old.rest ≡ text ++ tail
        → ListValue P.spells left trees text
        → Judges result (ListValueOffends P.spells (left - 2) (E.rules (left - 2)) (trees, text)) }
    // No more than its head can count.
    ensures counted { IfOk result (λ elements. length elements < 2 ^ 32) }
    ensures shorter { length c.new.rest ≤ length c.old.rest }
{
    let head = sure_list::<P>(c, left.saturating_sub(1));
    only_structs(head)?;
    read_elements::<P, E>(alloc, c, head.size, left.saturating_sub(2))
}

/// Sets a row that holds a list of structs.
pub(crate) fn structures_row<P: Parts, E: Element<P>>(
    alloc: Global,
    row: &mut Option<Items<E>>,
    c: &mut Cursor<'_>,
    left: u8,
) -> Result<(), Halt<Cause>>
    requires levels { left ≤ outer_levels }
    requires lawful { RulesLaws (structs P.spells (left - 2)) (E.rules (left - 2)) }
    ensures ok { (text tail : List ℕ) (trees : Trees) → c.old.rest ≡ text ++ tail
        → ListValue P.spells left trees text
        → OnOk result
        ((c.new.rest ≡ tail) × Sets (MeansEach E.means) (trees, text) row.old row.new) }
    ensures judged { (text tail : List ℕ) (trees : Trees) → c.old.rest ≡ text ++ tail
        → ListValue P.spells left trees text
        → (earlier : List (Trees × List ℕ)) → Gave (MeansEach E.means) earlier row.old
        → Judges result
        (ListRowOffends P.spells (left - 2) (E.rules (left - 2)) earlier (trees, text)) }
    ensures shorter { length c.new.rest ≤ length c.old.rest }
{
    once(row)?;
    *row = Some(read_list::<P, E>(alloc, c, left)?);
    Ok(())
}

/// Sets a row that holds a struct.
pub(crate) fn structure_row<P: Parts, E: Element<P>>(
    alloc: Global,
    row: &mut Option<E>,
    c: &mut Cursor<'_>,
    left: u8,
) -> Result<(), Halt<Cause>>
    requires levels { left ≤ outer_levels }
    ensures ok { (text tail : List ℕ) (fields : Fields) → c.old.rest ≡ text ++ tail
        → StructValue P.spells left fields text
        → OnOk result
        ((c.new.rest ≡ tail) × Sets (MeansOne E.means) (fields, text) row.old row.new) }
    ensures judged { (text tail : List ℕ) (fields : Fields) → c.old.rest ≡ text ++ tail
        → StructValue P.spells left fields text
        → (earlier : List (Fields × List ℕ)) → Gave (MeansOne E.means) earlier row.old
        → Judges result
        (StructRowOffends P.spells (left - 1) (E.rules (left - 1)) earlier (fields, text)) }
    ensures shorter { length c.new.rest ≤ length c.old.rest }
{
    once(row)?;
    *row = Some(E::read(alloc, c, left.saturating_sub(1))?);
    Ok(())
}
