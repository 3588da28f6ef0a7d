//! Readers of parts that are known to stand at the cursor: they can't fail.
ghost use Rattle.std.specs.Prelude.{◌≡◌, ◌≤◌, ℕ, ℤ, Bool, List, length};
ghost use Rattle.thrift_core.specs.Parts.{Begins, truth, int, long, eight, list_head};
ghost use Rattle.thrift_core.specs.Trees.{BinaryThen, outer_levels};
ghost use Rattle.thrift_core.specs.Values.{BeginsValue};
ghost use Rattle.thrift_core.specs.declared.field.ListHead.{ListHead};

use span_io::Cursor;
use thrift_core::{Field, ListHead, Parts, bytes, skip};

/// The truth value, which the head of its field may hold already.
pub fn sure_truth<P: Parts>(c: &mut Cursor<'_>, held: Option<bool>) -> bool
    ensures stands { (b : Bool) (rest : List ℕ) → Begins P.spells (truth held) b c.old.rest rest
        → (result ≡ b) × (c.new.rest ≡ rest) }
    ensures shorter { length c.new.rest ≤ length c.old.rest }
{
    P::truth(c, held).unwrap_or(false)
}

/// The number of 32 bits.
pub fn sure_int<P: Parts>(c: &mut Cursor<'_>) -> i32
    ensures stands { (n : ℤ) (rest : List ℕ) → Begins P.spells int n c.old.rest rest
        → (result ≡ n) × (c.new.rest ≡ rest) }
    ensures shorter { length c.new.rest ≤ length c.old.rest }
{
    P::int(c).unwrap_or(0)
}

/// The number of 64 bits.
pub fn sure_long<P: Parts>(c: &mut Cursor<'_>) -> i64
    ensures stands { (n : ℤ) (rest : List ℕ) → Begins P.spells long n c.old.rest rest
        → (result ≡ n) × (c.new.rest ≡ rest) }
    ensures shorter { length c.new.rest ≤ length c.old.rest }
{
    P::long(c).unwrap_or(0)
}

/// The eight bytes of a double.
pub fn sure_eight<P: Parts>(c: &mut Cursor<'_>) -> [u8; 8]
    ensures stands { (held rest : List ℕ) → Begins P.spells eight held c.old.rest rest
        → (result ≡ held) × (c.new.rest ≡ rest) }
    ensures shorter { length c.new.rest ≤ length c.old.rest }
{
    P::eight(c).unwrap_or([0; 8])
}

/// The bytes of a binary, which are lent.
pub fn sure_bytes<'a, P: Parts>(c: &mut Cursor<'a>) -> &'a [u8]
    ensures stands { (held rest : List ℕ) → BinaryThen P.spells held c.old.rest rest
        → (result.now ≡ held) × (c.new.rest ≡ rest) }
    ensures shorter { length c.new.rest ≤ length c.old.rest }
{
    bytes::<P>(c).unwrap_or(&[])
}

/// The head of a list.
pub fn sure_list<P: Parts>(c: &mut Cursor<'_>, left: u8) -> ListHead
    ensures stands { (head : ListHead) (rest : List ℕ)
        → Begins P.spells (list_head left) head c.old.rest rest
        → (result ≡ head) × (c.new.rest ≡ rest) }
    ensures shorter { length c.new.rest ≤ length c.old.rest }
{
    P::list(c, left).unwrap_or(ListHead {
        element: None,
        size: 0,
    })
}

/// Passes over the value of a field of this head.
pub fn pass_over<P: Parts>(c: &mut Cursor<'_>, found: Field, left: u8)
    requires levels { left ≤ outer_levels }
    ensures stands { (rest : List ℕ)
        → BeginsValue P.spells left found.kind found.held c.old.rest rest → c.new.rest ≡ rest }
    ensures shorter { length c.new.rest ≤ length c.old.rest }
{
    // A value stands here, so nothing is refused.
    match skip::<P>(c, found.kind, found.held, left) {
        Ok(()) | Err(_) => (),
    }
}
