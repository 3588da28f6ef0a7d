//! The bytes of a value.
ghost use Rattle.std.specs.Prelude.{◌≡◌, ◌<◌, [], length, IfOk, MatchResult};
ghost use Rattle.span_io.specs.Sizes.{IsShort, longest};

use crate::halt::OutOfMemory;
use crate::items::LONGEST;
use std::alloc::Global;
use std::marker::Model;

/// The bytes of a value, of which there are at most `LONGEST`. Contracts see the list.
#[derive(Debug, Drop)]
pub struct Bytes {
    bytes: Vec<u8>,
}

impl Model for Bytes {
    ghost use Rattle.std.specs.Prelude.{ℕ, List};
    ghost use Rattle.std.specs.Coded.{coded_ℕ, coded_list};
    ghost use Rattle.span_io.specs.Sizes.{IsShort, longest};

    ghost Value = { List ℕ };

    ghost coded = { coded_list coded_ℕ };

    ghost view = { λ b. b.bytes.items };

    ghost invariant = { λ b. IsShort b.bytes.items };
}

impl Bytes {
    pub fn new(alloc: Global) -> Bytes
        ensures { result ≡ [] }
    {
        Bytes {
            bytes: Vec::new(alloc),
        }
    }

    /// The same bytes, in memory of their own.
    pub fn of(alloc: Global, piece: &[u8]) -> Result<Bytes, OutOfMemory>
        ensures { IfOk result (λ bytes. bytes ≡ piece.now) }
    {
        if piece.len() > LONGEST {
            return Err(OutOfMemory);
        }
        let bytes = Vec::from_slice(alloc, piece)?;
        Ok(Bytes { bytes })
    }

    /// The bytes of a vector, which is taken over. Too many count as want of memory.
    pub fn from_vec(bytes: Vec<u8>) -> Result<Bytes, OutOfMemory>
        ensures { MatchResult result (λ held. held ≡ bytes.items)
            (λ _. longest < length bytes.items) }
    {
        if bytes.len() > LONGEST {
            return Err(OutOfMemory);
        }
        Ok(Bytes { bytes })
    }

    pub fn len(&self) -> usize
        ensures count { result ≡ length self.now }
        ensures short { IsShort self.now }
    {
        self.bytes.len()
    }

    pub fn copy(&self) -> Result<Bytes, OutOfMemory>
        ensures { IfOk result (λ copy. copy ≡ self.now) }
    {
        let bytes = Vec::from_slice(*self.bytes.allocator(), self.bytes.as_slice())?;
        Ok(Bytes { bytes })
    }

    pub fn as_slice(&self) -> &[u8]
        ensures { result.now ≡ self.now }
    {
        self.bytes.as_slice()
    }
}
