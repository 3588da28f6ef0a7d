//! Lists of messages, and what is remarked on their elements.
ghost use Rattle.std.specs.Prelude.{ℕ, ◌+◌, ◌<◌, ◌≤◌, ◌^◌, [], Some, List, length, IfOk, OnOk};
ghost use Rattle.serde_json.specs.Data.{Data};
ghost use Rattle.serde_json.specs.View.{items_of};
ghost use Rattle.json_nodes.specs.Lents.{lent_view as view, elements_left};
ghost use Rattle.span_io.specs.Paths.{Offences, each, optional, JudgesValue};
ghost use Rattle.json_members.specs.Counted.{values_in, values_in_items};
ghost use Rattle.json_members.specs.Members.{member, elements_offend};
ghost use Rattle.otlp_json.specs.private.Found.{AreFound, AreGiven, FindsMore};

use json_members::member_of;
use json_nodes::{Elements, Lent};
use span_io::{Cause, Halt, OutOfMemory};
use std::alloc::Global;

/// What is gathered of a list, element by element. The list stands in the span of a number, or its
/// first element has that number.
pub trait Rows: Drop {
    // What an element is found to be, what that means, and how an element offends.
    ghost Found: { Type 0 };

    ghost means: { Found → Data → Type 0 };

    ghost offends: { Data → Offences };
    // What the rows tell of such elements.
    ghost told: { ℕ → List Found → Self → Type 0 };
    // The first number that an element gets, and the number that comes next behind the rows.
    ghost first: { ℕ → ℕ };

    ghost next: { ℕ → Self → ℕ };

    /// Nothing was read, and there is room for so many elements.
    fn with_room(alloc: Global, room: usize) -> Result<Self, OutOfMemory>
        ensures none { IfOk result (λ rows. (number : ℕ) → told number [] rows) }
        ensures begins { IfOk result (λ rows. (number : ℕ) → next number rows ≤ first number) };

    /// Reads one more element.
    fn add(&mut self, alloc: Global, number: u32, v: &Lent<'_, '_>) -> Result<(), Halt<Cause>>
        requires counted { next number self.old + values_in (view v.now) < 2 ^ 32 }
        ensures ok { OnOk result (FindsMore means (told number) (view v.now) self.old self.new) }
        ensures grown { OnOk result
            (next number self.new ≤ next number self.old + values_in (view v.now)) }
        ensures judged { JudgesValue result (offends (view v.now)) };
}

/// How many elements are left, so that there is room for each.
pub fn room_for(elements: Elements<'_, '_>) -> usize
    ensures { result ≤ length (elements_left elements.entry) }
{
    let mut rest = elements;
    let mut room: usize = 0;
    'elements: while rest.next().is_some() {
        room = room.saturating_add(1);
    }
    room
}

fn read_rows<R: Rows>(
    alloc: Global,
    number: u32,
    elements: Elements<'_, '_>,
) -> Result<R, Halt<Cause>>
    requires counted { R.first number + values_in_items (items_of (elements_left elements))
        < 2 ^ 32 }
    ensures value { IfOk result
        (λ rows. AreFound R.means (R.told number) (elements_left elements.entry) rows) }
    ensures judged { JudgesValue result (each R.offends (elements_left elements.entry)) }
{
    let mut rows = R::with_room(alloc, room_for(elements))?;
    let mut rest = elements;
    'elements: while let Some(element) = rest.next() {
        rows.add(alloc, number, &element)?;
    }
    Ok(rows)
}

fn rows_in<R: Rows>(alloc: Global, number: u32, v: &Lent<'_, '_>) -> Result<R, Halt<Cause>>
    requires counted { R.first number + values_in (view v.now) ≤ 2 ^ 32 }
    ensures value { IfOk result
        (λ rows. AreGiven R.means (R.told number) (Some (view v.now)) rows) }
    ensures judged { JudgesValue result (elements_offend R.offends (view v.now)) }
{
    let Some(elements) = v.elements() else {
        return Err(Halt::Why(Cause::BadShape));
    };
    let rows = read_rows(alloc, number, elements)?;
    Ok(rows)
}

/// The rows of a list that may be absent, of which nothing is told then.
pub fn rows_of<R: Rows>(
    alloc: Global,
    number: u32,
    v: &Lent<'_, '_>,
    name: &str,
) -> Result<R, Halt<Cause>>
    requires counted { R.first number + values_in (view v.now) ≤ 2 ^ 32 }
    ensures value { IfOk result
        (λ rows. AreGiven R.means (R.told number) (member name.now (view v.now)) rows) }
    ensures judged { JudgesValue result
        (optional (elements_offend R.offends) (member name.now (view v.now))) }
{
    let Some(found) = member_of(v, name) else {
        let rows = R::with_room(alloc, 0)?;
        return Ok(rows);
    };
    rows_in(alloc, number, &found)
}
