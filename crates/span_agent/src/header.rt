//! The header of a message.
ghost use Rattle.std.specs.Prelude.{◌≡◌, ◌∷◌, ℕ, Bool, List, IfSome, IsSomeAnd, IsTrue};
ghost use Rattle.span_agent.specs.Headers.{HeaderThen, CompactHeader, BinaryHeader, FourThen, NameThen, SizedName};
ghost use Rattle.span_agent.specs.private.Finding.{Either, FindsName, NameThenNumber, NumberedName};

use span_io::{Cursor, Short};
use thrift_binary::Binary;
use thrift_core::bytes;

/// The name of a message in this protocol, and the bytes behind its header.
#[derive(Clone, Copy)]
pub(crate) struct Header<'a> {
    pub(crate) compact: bool,
    pub(crate) name: &'a [u8],
    pub(crate) rest: &'a [u8],
}

// The header at the front of a datagram.
pub(crate) fn read_header(datagram: &[u8]) -> Option<Header<'_>>
    ensures found { IfSome result
        (λ header. HeaderThen header.compact header.name.now datagram.now header.rest.now) }
    ensures only { (compact : Bool) (name rest : List ℕ) → HeaderThen compact name datagram.now rest
        → IsSomeAnd result
        (λ header. (header.compact ≡ compact) × (header.name.now ≡ name)
        × (header.rest.now ≡ rest)) }
{
    let mut c = Cursor::new(datagram);
    if let Some(name) = compact_header(&mut c) {
        return Some(Header {
            compact: true,
            name,
            rest: c.rest(),
        });
    }
    let mut at = Cursor::new(datagram);
    match binary_header(&mut at) {
        Some(name) => Some(Header {
            compact: false,
            name,
            rest: at.rest(),
        }),
        None => None,
    }
}

// The name in a header of the compact protocol.
fn compact_header<'a>(c: &mut Cursor<'a>) -> Option<&'a [u8]>
    ensures { FindsName CompactHeader result c.old.rest c.new.rest }
{
    if !passes(c, 130) {
        return None;
    }
    if !passes_either(c, 33, 129) {
        return None;
    }
    numbered_name(c)
}

// A number as a varint, and then the name.
fn numbered_name<'a>(c: &mut Cursor<'a>) -> Option<&'a [u8]>
    ensures { FindsName NumberedName result c.old.rest c.new.rest }
{
    match c.varint() {
        Ok(_) => sized_name(c),
        Err(_) => None,
    }
}

// The number of a name's bytes as a varint, and then they.
fn sized_name<'a>(c: &mut Cursor<'a>) -> Option<&'a [u8]>
    ensures { FindsName SizedName result c.old.rest c.new.rest }
{
    match c.varint() {
        Ok(size) => name_of(c, size),
        Err(_) => None,
    }
}

// The bytes of a name.
fn name_of<'a>(c: &mut Cursor<'a>, size: u64) -> Option<&'a [u8]>
    ensures { FindsName
        (λ name whole rest. NameThen size name whole rest) result c.old.rest c.new.rest }
{
    match c.take(size as usize) {
        Ok(name) => Some(name),
        Err(Short) => None,
    }
}

// The name in a header of the binary protocol.
fn binary_header<'a>(c: &mut Cursor<'a>) -> Option<&'a [u8]>
    ensures { FindsName BinaryHeader result c.old.rest c.new.rest }
{
    if !passes(c, 128) {
        return None;
    }
    if !passes(c, 1) {
        return None;
    }
    if !passes(c, 0) {
        return None;
    }
    if !passes_either(c, 1, 4) {
        return None;
    }
    name_then_number(c)
}

// The number of a name's bytes as an i32, they themselves, and four bytes.
fn name_then_number<'a>(c: &mut Cursor<'a>) -> Option<&'a [u8]>
    ensures { FindsName NameThenNumber result c.old.rest c.new.rest }
{
    match bytes::<Binary>(c) {
        Ok(name) => before_number(c, name),
        Err(_) => None,
    }
}

// The name, where four bytes follow.
fn before_number<'a>(c: &mut Cursor<'a>, name: &'a [u8]) -> Option<&'a [u8]>
    ensures { FindsName
        (λ lent whole rest. (lent ≡ name.now) × FourThen whole rest) result c.old.rest c.new.rest }
{
    match c.take(4) {
        Ok(_) => Some(name),
        Err(Short) => None,
    }
}

// Whether this byte comes next. It is passed.
fn passes(c: &mut Cursor<'_>, wanted: u8) -> bool
    ensures found { IsTrue result → c.old.rest ≡ wanted ∷ c.new.rest }
    ensures only { (rest : List ℕ) → c.old.rest ≡ wanted ∷ rest → IsTrue result }
{
    match c.byte() {
        Ok(byte) => byte == wanted,
        Err(Short) => false,
    }
}

// Whether one of these bytes comes next. It is passed.
fn passes_either(c: &mut Cursor<'_>, one: u8, other: u8) -> bool
    ensures found { IsTrue result → Either one other c.old.rest c.new.rest }
    ensures only { (rest : List ℕ) → Either one other c.old.rest rest → IsTrue result }
{
    match c.byte() {
        Ok(byte) => byte == one || byte == other,
        Err(Short) => false,
    }
}
