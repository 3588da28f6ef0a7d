//! The rows that a keeper in memory holds, in their order.
ghost use Rattle.std.specs.Prelude.{◌≡◌, ◌<◌, [], ◌∷◌, ◌++◌, length, drop, OnOk, OnErr};

use crate::kept::Kept;
use span_io::{Blob, OutOfMemory};
use std::alloc::Global;
use std::marker::Model;

/// Rows in their order, which lie one beside the other. Contracts see the list of them. Those that left stand before
/// them without their bodies, until they are as many as those that are left.
#[derive(Drop)]
pub(crate) struct RowQueue {
    rows: Vec<Kept>,
    gone: usize,
}

impl Model for RowQueue {
    ghost use Rattle.std.specs.Prelude.{List, ◌≤◌, drop, length};
    ghost use Rattle.span_spool.specs.declared.kept.Kept.{Kept};

    ghost Value = { List Kept };

    ghost view = { λ q. drop q.gone q.rows.items };

    ghost invariant = { λ q. q.gone ≤ length q.rows.items };
}

impl RowQueue {
    pub(crate) fn new(alloc: Global) -> RowQueue
        ensures { result ≡ [] }
    {
        RowQueue {
            rows: Vec::new(alloc),
            gone: 0,
        }
    }

    pub(crate) fn len(&self) -> usize
        ensures { result ≡ length self.now }
    {
        self.rows.len() - self.gone
    }

    pub(crate) fn as_slice(&self) -> &[Kept]
        ensures { result.now ≡ self.now }
    {
        &self.rows.as_slice()[self.gone..]
    }

    /// Adds a row at the end, at amortised cost.
    pub(crate) fn push(&mut self, row: Kept) -> Result<(), OutOfMemory>
        ensures ok { OnOk result (self.new ≡ self.old ++ row ∷ []) }
        ensures err { OnErr result (self.new ≡ self.old) }
    {
        self.rows.push(row)?;
        Ok(())
    }

    /// Drops the first row, at amortised cost.
    pub(crate) fn drop_first(&mut self)
        requires { 0 < length self.old }
        ensures { self.new ≡ drop 1 self.old }
    {
        let alloc = *self.rows.allocator();
        self.rows[self.gone].body = Blob::new(alloc);
        self.gone += 1;
        let left = self.rows.len() - self.gone;
        if left <= self.gone {
            self.rows.rotate_left(self.gone);
            self.rows.truncate(left);
            self.gone = 0;
        }
    }
}
