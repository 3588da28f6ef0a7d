//! A place in bytes, from which parts are read.
ghost use Rattle.std.specs.Prelude.{◌≡◌, ◌+◌, ◌<◌, ◌≤◌, ◌↔◌, ℕ, ℤ, List, length, take, IfOk, OnErr, IsErr, MatchResult, Ok, Err, ◌∷◌};
ghost use Rattle.std.specs.Int.{w16, w32, w64, from_be_bytes, from_le_bytes};
ghost use Rattle.span_io.specs.Varint.{BeginsVarint, IsInsideVarint, BeginsOverlong, varint_at};
ghost use Rattle.span_io.specs.Zigzag.{BeginsZigzag, zigzag_at};
ghost use Rattle.span_io.specs.Walks.{further, Gives};

use crate::varint::unzigzag;
use std::marker::Model;

/// Fewer bytes remain than a read asks for.
#[derive(Clone, Copy, Debug, PartialEq, Eq)]
pub struct Short;

/// Why no varint was read: the bytes end inside it, or it has more than ten bytes or a tenth byte
/// above 1.
#[derive(Clone, Copy, Debug, PartialEq, Eq)]
pub enum Lack {
    Short,
    BadVarint,
}

impl From<Short> for Lack {
    ghost use Rattle.std.specs.Prelude.{◌≡◌};
    ghost use Rattle.span_io.specs.declared.cursor.Lack.TheVariants as lacks;

    ghost from_gives = { λ _ lack. lack ≡ lacks.Short };

    fn from(_short: Short) -> Lack {
        Lack::Short
    }
}

/// Walks bytes that it borrows. A read that refuses leaves the place as it was. Contracts see a
/// cursor as its place and the bytes from there on.
#[derive(Drop)]
pub struct Cursor<'a> {
    whole: usize,
    rest: &'a [u8],
}

impl<'a> Model for Cursor<'a> {
    ghost use Rattle.std.specs.Prelude.{◌-◌, ◌≤◌, length};
    ghost use Rattle.span_io.specs.Walks.{Walk};

    ghost Value = { Walk };

    ghost view = { λ c. record { place = c.whole - length c.rest.now; rest = c.rest.now } };

    ghost invariant = { λ c. length c.rest.now ≤ c.whole };
}

impl<'a> Cursor<'a> {
    pub fn new(bytes: &'a [u8]) -> Cursor<'a>
        ensures { result ≡ record { place = 0; rest = bytes.now } }
    {
        Cursor {
            whole: bytes.len(),
            rest: bytes,
        }
    }

    /// The number of bytes that were passed.
    pub fn place(&self) -> usize
        ensures { result ≡ self.now.place }
    {
        self.whole - self.rest.len()
    }

    /// The number of bytes from the place on.
    pub fn remaining(&self) -> usize
        ensures { result ≡ length self.now.rest }
    {
        self.rest.len()
    }

    /// Lends the bytes from the place on.
    pub fn rest(&self) -> &'a [u8]
        ensures { result.now ≡ self.now.rest }
    {
        self.rest
    }

    /// Another cursor at the same place.
    pub fn again(&self) -> Cursor<'a>
        ensures { result ≡ self.now }
    {
        Cursor {
            whole: self.whole,
            rest: self.rest,
        }
    }

    /// Takes the next n bytes.
    pub fn take(&mut self, n: usize) -> Result<&'a [u8], Short>
        ensures value { IfOk result (λ taken. taken.now ≡ take n self.old.rest) }
        ensures ok { IfOk result (λ _. self.new ≡ further self.old n) }
        ensures short { IsErr result ↔ (length self.old.rest < n) }
        ensures err { OnErr result (self.new ≡ self.old) }
    {
        if self.rest.len() < n {
            return Err(Short);
        }
        let (taken, rest) = self.rest.split_at(n);
        self.rest = rest;
        Ok(taken)
    }

    pub fn byte(&mut self) -> Result<u8, Short>
        ensures value { IfOk result (λ b. self.old.rest ≡ b ∷ self.new.rest) }
        ensures ok { IfOk result (λ _. self.new ≡ further self.old 1) }
        ensures short { IsErr result ↔ (length self.old.rest < 1) }
        ensures err { OnErr result (self.new ≡ self.old) }
    {
        let [byte, rest @ ..] = self.rest else {
            return Err(Short);
        };
        self.rest = rest;
        Ok(*byte)
    }

    /// A number of two bytes, the most significant first.
    pub fn be16(&mut self) -> Result<u16, Short>
        ensures value { IfOk result (λ n. n ≡ from_be_bytes w16 (take 2 self.old.rest)) }
        ensures ok { IfOk result (λ _. self.new ≡ further self.old 2) }
        ensures short { IsErr result ↔ (length self.old.rest < 2) }
        ensures err { OnErr result (self.new ≡ self.old) }
    {
        let [a, b, rest @ ..] = self.rest else {
            return Err(Short);
        };
        self.rest = rest;
        Ok(u16::from_be_bytes([*a, *b]))
    }

    /// A number of four bytes, the most significant first.
    pub fn be32(&mut self) -> Result<u32, Short>
        ensures value { IfOk result (λ n. n ≡ from_be_bytes w32 (take 4 self.old.rest)) }
        ensures ok { IfOk result (λ _. self.new ≡ further self.old 4) }
        ensures short { IsErr result ↔ (length self.old.rest < 4) }
        ensures err { OnErr result (self.new ≡ self.old) }
    {
        let [a, b, c, d, rest @ ..] = self.rest else {
            return Err(Short);
        };
        self.rest = rest;
        Ok(u32::from_be_bytes([*a, *b, *c, *d]))
    }

    /// A number of eight bytes, the most significant first.
    pub fn be64(&mut self) -> Result<u64, Short>
        ensures value { IfOk result (λ n. n ≡ from_be_bytes w64 (take 8 self.old.rest)) }
        ensures ok { IfOk result (λ _. self.new ≡ further self.old 8) }
        ensures short { IsErr result ↔ (length self.old.rest < 8) }
        ensures err { OnErr result (self.new ≡ self.old) }
    {
        let [a, b, c, d, e, f, g, h, rest @ ..] = self.rest else {
            return Err(Short);
        };
        self.rest = rest;
        Ok(u64::from_be_bytes([*a, *b, *c, *d, *e, *f, *g, *h]))
    }

    /// A number of four bytes, the least significant first.
    pub fn le32(&mut self) -> Result<u32, Short>
        ensures value { IfOk result (λ n. n ≡ from_le_bytes w32 (take 4 self.old.rest)) }
        ensures ok { IfOk result (λ _. self.new ≡ further self.old 4) }
        ensures short { IsErr result ↔ (length self.old.rest < 4) }
        ensures err { OnErr result (self.new ≡ self.old) }
    {
        let [a, b, c, d, rest @ ..] = self.rest else {
            return Err(Short);
        };
        self.rest = rest;
        Ok(u32::from_le_bytes([*a, *b, *c, *d]))
    }

    /// A number of eight bytes, the least significant first.
    pub fn le64(&mut self) -> Result<u64, Short>
        ensures value { IfOk result (λ n. n ≡ from_le_bytes w64 (take 8 self.old.rest)) }
        ensures ok { IfOk result (λ _. self.new ≡ further self.old 8) }
        ensures short { IsErr result ↔ (length self.old.rest < 8) }
        ensures err { OnErr result (self.new ≡ self.old) }
    {
        let [a, b, c, d, e, f, g, h, rest @ ..] = self.rest else {
            return Err(Short);
        };
        self.rest = rest;
        Ok(u64::from_le_bytes([*a, *b, *c, *d, *e, *f, *g, *h]))
    }

    /// A varint of one to ten bytes (proto3 wire format).
    pub fn varint(&mut self) -> Result<u64, Lack>
        // What is read is spelled so, and what is spelled so is read, whatever follows.
        ensures found { IfOk result (λ n. BeginsVarint n self.old.rest self.new.rest) }
        ensures only { (n : ℕ) (rest : List ℕ) → BeginsVarint n self.old.rest rest
            → (result ≡ Ok n) × (self.new.rest ≡ rest) }
        ensures exact { Gives result self.new.rest (varint_at self.old.rest) }
        ensures short { (result ≡ Err Lack.Short) ↔ IsInsideVarint self.old.rest }
        ensures bad { (result ≡ Err Lack.BadVarint) ↔ BeginsOverlong self.old.rest }

        ensures place { self.new.place + length self.new.rest
            ≡ self.old.place + length self.old.rest }
        ensures err { OnErr result (self.new ≡ self.old) }
    {
        if let Some((byte, rest)) = self.rest.split_first() {
            if *byte < 128 {
                self.rest = rest;
                return Ok(u64::from(*byte));
            }
        }
        match long_varint(self.rest) {
            Ok((number, rest)) => {
                self.rest = rest;
                Ok(number)
            }
            Err(lack) => Err(lack),
        }
    }

    /// A number that has a sign, as the varint of its zigzag.
    #[inline(always)]
    pub fn zigzag(&mut self) -> Result<i64, Lack>
        ensures found { IfOk result (λ z. BeginsZigzag z self.old.rest self.new.rest) }
        ensures only { (z : ℤ) (rest : List ℕ) → BeginsZigzag z self.old.rest rest
            → (result ≡ Ok z) × (self.new.rest ≡ rest) }
        ensures exact { Gives result self.new.rest (zigzag_at self.old.rest) }

        ensures place { self.new.place + length self.new.rest
            ≡ self.old.place + length self.old.rest }
        ensures err { OnErr result (self.new ≡ self.old) }
    {
        match self.varint() {
            Ok(number) => Ok(unzigzag(number)),
            Err(lack) => Err(lack),
        }
    }
}

// A varint at the front, and the bytes after it. The groups of nine bytes have 63 bits, so only the
// tenth byte can be too large.
#[inline(never)]
fn long_varint(bytes: &[u8]) -> Result<(u64, &[u8]), Lack>
    ensures exact { MatchResult result (λ read. varint_at bytes.now ≡ Ok (read.0, read.1.now))
        (λ lack. varint_at bytes.now ≡ Err lack) }
    ensures shorter { IfOk result (λ read. length read.1.now ≤ length bytes.now) }
{
    let mut number: u64 = 0;
    let mut weight: u64 = 1;
    let mut rest = bytes;
    'groups: for _passed in 0..9_u32 {
        let Some((byte, after)) = rest.split_first() else {
            return Err(Lack::Short);
        };
        rest = after;
        if *byte < 128 {
            return Ok((number + weight * u64::from(*byte), rest));
        }
        number += weight * u64::from(*byte - 128);
        weight *= 128;
    }
    let Some((tenth, after)) = rest.split_first() else {
        return Err(Lack::Short);
    };
    if *tenth > 1 {
        return Err(Lack::BadVarint);
    }
    Ok((number + weight * u64::from(*tenth), after))
}
