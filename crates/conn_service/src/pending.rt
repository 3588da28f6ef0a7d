//! The bytes of a connection that have no answer yet.
ghost use Rattle.std.specs.Prelude.{◌≡◌, ◌≤◌, ◌++◌, [], drop, length, OnOk};

use span_io::{Blob, OutOfMemory};
use std::alloc::Global;
use std::marker::Model;

/// Bytes that were read and have no answer yet, which contracts see as the list.
#[derive(Drop)]
pub(crate) struct Pending {
    bytes: Blob,
    // So many at the front have their answers.
    done: usize,
}

impl Model for Pending {
    ghost use Rattle.std.specs.Prelude.{ℕ, ◌≤◌, List, drop, length};

    ghost Value = { List ℕ };

    ghost view = { λ p. drop p.done p.bytes };

    ghost invariant = { λ p. p.done ≤ length p.bytes };
}

impl Pending {
    pub(crate) fn new(alloc: Global) -> Pending
        ensures { result ≡ [] }
    {
        Pending {
            bytes: Blob::new(alloc),
            done: 0,
        }
    }

    pub(crate) fn as_slice(&self) -> &[u8]
        ensures { result.now ≡ self.now }
    {
        &self.bytes.as_slice()[self.done..]
    }

    /// Takes so many bytes away from the front: they have their answers.
    pub(crate) fn advance(&mut self, count: usize)
        requires { count ≤ length self.old }
        ensures { self.new ≡ drop count self.old }
    {
        // The sum is at most this number.
        let _end = self.bytes.len();
        self.done += count;
    }

    /// Adds bytes at the end. The room of those that have their answers is used again.
    pub(crate) fn append(&mut self, piece: &[u8]) -> Result<(), OutOfMemory>
        ensures { OnOk result (self.new ≡ self.old ++ piece.now) }
    {
        let done = self.done;
        self.done = 0;
        self.bytes.cut_front(done);
        self.bytes.append(piece)
    }
}
