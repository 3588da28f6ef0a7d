//! Growing lists of bytes.
ghost use Rattle.std.specs.Prelude.{◌≡◌, ◌+◌, ◌<◌, ◌≤◌, [], ◌∷◌, ◌++◌, length, take, drop, IfOk, OnOk, OnErr};
ghost use Rattle.span_io.specs.Varint.{varint_text};

use crate::halt::OutOfMemory;
use crate::varint::Varint;
use std::alloc::Global;
use std::marker::Model;
use std::mem;

/// A growing list of bytes, which contracts see as the list.
#[derive(Debug, Drop)]
pub struct Blob {
    bytes: Vec<u8>,
}

impl Model for Blob {
    ghost use Rattle.std.specs.Prelude.{ℕ, List};
    ghost use Rattle.std.specs.Coded.{coded_ℕ, coded_list};

    ghost Value = { List ℕ };

    ghost coded = { coded_list coded_ℕ };

    ghost view = { λ b. b.bytes.items };
}

impl Blob {
    pub fn new(alloc: Global) -> Blob
        ensures { result ≡ [] }
    {
        Blob {
            bytes: Vec::new(alloc),
        }
    }

    /// An empty list that has room for so many bytes.
    pub fn with_room(alloc: Global, room: usize) -> Result<Blob, OutOfMemory>
        ensures { IfOk result (λ blob. blob ≡ []) }
    {
        let bytes = Vec::with_capacity(alloc, room)?;
        Ok(Blob { bytes })
    }

    pub fn len(&self) -> usize
        ensures { result ≡ length self.now }
    {
        self.bytes.len()
    }

    pub fn copy(&self) -> Result<Blob, OutOfMemory>
        ensures { IfOk result (λ copy. copy ≡ self.now) }
    {
        let bytes = Vec::from_slice(*self.bytes.allocator(), self.bytes.as_slice())?;
        Ok(Blob { bytes })
    }

    pub fn as_slice(&self) -> &[u8]
        ensures { result.now ≡ self.now }
    {
        self.bytes.as_slice()
    }

    /// Adds bytes at the end, at amortised cost.
    pub fn append(&mut self, piece: &[u8]) -> Result<(), OutOfMemory>
        ensures ok { OnOk result (self.new ≡ self.old ++ piece.now) }
        ensures err { OnErr result (self.new ≡ self.old) }
    {
        self.bytes.extend_from_slice(piece)?;
        Ok(())
    }

    /// Adds two pieces at the end, one behind the other, or none.
    pub fn append_both(&mut self, first: &[u8], second: &[u8]) -> Result<(), OutOfMemory>
        ensures ok { OnOk result (self.new ≡ self.old ++ (first.now ++ second.now)) }
        ensures err { OnErr result (self.new ≡ self.old) }
    {
        let kept = self.bytes.len();
        self.bytes.extend_from_slice(first)?;
        match self.bytes.extend_from_slice(second) {
            Ok(()) => Ok(()),
            Err(refused) => {
                self.bytes.truncate(kept);
                Err(refused.into())
            }
        }
    }

    /// Adds the shortest varint of a number, or nothing.
    #[inline(always)]
    pub fn append_varint(&mut self, n: u64) -> Result<(), OutOfMemory>
        ensures ok { OnOk result (self.new ≡ self.old ++ varint_text n) }
        ensures err { OnErr result (self.new ≡ self.old) }
    {
        if n < 128 {
            return self.append(&[n as u8]);
        }
        if n < 16_384 {
            return self.append(&[(128 + n % 128) as u8, (n / 128) as u8]);
        }
        self.append_long(n)
    }

    #[inline(never)]
    fn append_long(&mut self, n: u64) -> Result<(), OutOfMemory>
        ensures ok { OnOk result (self.new ≡ self.old ++ varint_text n) }
        ensures err { OnErr result (self.new ≡ self.old) }
    {
        self.append(Varint::new(n).as_slice())
    }

    /// Puts a byte in the place of the one that stands there.
    #[inline(always)]
    pub fn set(&mut self, place: usize, byte: u8)
        requires { place < length self.old }
        ensures { self.new ≡ take place self.old ++ (byte ∷ drop (place + 1) self.old) }
    {
        self.bytes[place] = byte;
    }

    /// Puts a byte in at a place, and moves what stands from there on behind it.
    pub fn insert(&mut self, place: usize, byte: u8) -> Result<(), OutOfMemory>
        requires { place ≤ length self.old }
        ensures ok { OnOk result (self.new ≡ take place self.old ++ (byte ∷ drop place self.old)) }
        ensures err { OnErr result (self.new ≡ self.old) }
    {
        match self.bytes.insert(place, byte) {
            Ok(()) => Ok(()),
            Err(_) => Err(OutOfMemory),
        }
    }

    /// Keeps so many of its first bytes, and its room.
    pub fn truncate(&mut self, count: usize)
        ensures { self.new ≡ take count self.old }
    {
        self.bytes.truncate(count);
    }

    /// Takes so many bytes away from the front, and keeps the room.
    #[tactic(auto, using(crate::proofs::Places::turned_front))]
    pub fn cut_front(&mut self, count: usize)
        requires { count ≤ length self.old }
        ensures { self.new ≡ drop count self.old }
    {
        let rest = self.bytes.len() - count;
        self.bytes.rotate_left(count);
        self.bytes.truncate(rest);
    }

    /// Takes the vector that holds the bytes, and leaves an empty list.
    pub fn take(&mut self) -> Vec<u8>
        ensures taken { result.items ≡ self.old }
        ensures left { self.new ≡ [] }
    {
        let alloc = *self.bytes.allocator();
        mem::replace(&mut self.bytes, Vec::new(alloc))
    }

    /// The bytes of a vector, with its room.
    pub fn from_vec(bytes: Vec<u8>) -> Blob
        ensures { result ≡ bytes.items }
    {
        Blob { bytes }
    }

    /// Empties the list, which keeps its room.
    pub fn clear(&mut self)
        ensures { self.new ≡ [] }
    {
        self.bytes.clear();
    }
}
