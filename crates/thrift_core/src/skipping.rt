//! Values that no row reads, passed over.
ghost use Rattle.std.specs.Prelude.{◌≡◌, ◌↔◌, ◌<◌, ◌≤◌, ℕ, List, length, None, IfOk, OnErr};
ghost use Rattle.std.specs.Result.{IsOk};
ghost use Rattle.thrift_core.specs.Reading.{Stays, Lends, IsLent, binary_at};
ghost use Rattle.thrift_core.specs.Trees.{BinaryThen, all_levels};
ghost use Rattle.thrift_core.specs.Values.{BeginsValue, RefusesValue};
ghost use Rattle.thrift_core.specs.declared.type_code.TypeCode.TheVariants as kinds;

use crate::parts::Parts;
use crate::passing::pass_value;
use crate::type_code::TypeCode;
use span_io::{Cause, Cursor, Short};

/// Reads the number of a binary's bytes, and lends the bytes, which follow it.
pub fn bytes<'a, P: Parts>(c: &mut Cursor<'a>) -> Result<&'a [u8], Cause>
    // What is lent begins the bytes, and what begins the bytes is lent, whatever follows.
    ensures found { IfOk result (λ lent. BinaryThen P.spells lent.now c.old.rest c.new.rest) }
    ensures only { (held rest : List ℕ) → BinaryThen P.spells held c.old.rest rest
        → IsLent result held × (c.new.rest ≡ rest) }
    ensures exact { Lends result c.new.rest (binary_at P.reads c.old.rest) }
    ensures refused { RefusesValue P.spells P.then_varint P.refuses 0 kinds.Binary None result c.old.rest }

    // A binary takes bytes, and a refusal leaves the place.
    ensures nearer { IfOk result (λ _. length c.new.rest < length c.old.rest) }
    ensures place { Stays c.old c.new }
    ensures err { OnErr result (c.new ≡ c.old) }
{
    let mut at = c.again();
    let size = P::length(&mut at)?;
    match at.take(size as usize) {
        Ok(held) => {
            *c = at;
            Ok(held)
        }
        Err(Short) => Err(Cause::Truncated),
    }
}

/// Passes over one value for which so many levels of containers are left, of 32. A truth value that the head of its field holds
/// already has no bytes. It takes no memory.
pub fn skip<P: Parts>(
    c: &mut Cursor<'_>,
    kind: TypeCode,
    held: Option<bool>,
    left: u8,
) -> Result<(), Cause>
    requires levels { left ≤ all_levels }

    // A value that begins the bytes is passed over, whatever follows.
    ensures value { (rest : List ℕ)
        → (IsOk result × (c.new.rest ≡ rest))
        ↔ BeginsValue P.spells left kind held c.old.rest rest }
    ensures refused { RefusesValue P.spells P.then_varint P.refuses left kind held result c.old.rest }

    ensures onward { length c.new.rest ≤ length c.old.rest }
    ensures place { Stays c.old c.new }
    ensures err { OnErr result (c.new ≡ c.old) }
{
    let mut at = c.again();
    match pass_value::<P>(&mut at, kind, held, left) {
        Ok(()) => {
            *c = at;
            Ok(())
        }
        Err(halted) => Err(halted.cause()),
    }
}
