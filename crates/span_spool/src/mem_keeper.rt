//! A keeper in memory, for tests and rows.
ghost use Rattle.std.specs.Prelude.{◌≡◌, ◌<◌, ◌≤◌, ◌↔◌, ◌≢◌, Err, IfOk, IsTrue, Contains, cond, length};
ghost use Rattle.span_io.specs.Outside.{counted};
ghost use Rattle.span_spool.specs.Calls.{DropsFirst, GivesFirst, Keeps};
ghost use Rattle.span_spool.specs.MemKeepers.{CountsFailure, fresh_keeper, spool_of};
ghost use Rattle.span_spool.specs.Spools.{IsSpool, most_room};
ghost use Rattle.span_spool.specs.declared.keeper.KeepFault.TheVariants as faults;

use crate::keeper::{KeepFault, Keeper, LAST_NUMBER};
use crate::kept::Kept;
use crate::row_queue::RowQueue;
use span_io::{Blob, Form, Items, OutOfMemory};
use std::alloc::Global;
use std::marker::Model;

/// A keeper in memory. It fails on the listed calls of `keep`, `first` and `drop_first`, which are numbered together
/// from 1. The counts of its calls and faults stay at the end of 64 bits.
#[derive(Drop)]
pub struct MemKeeper {
    rows: RowQueue,
    room: u64,
    next: u64,
    fail: Items<u64>,
    calls: u64,
    faults: u64,
    alloc: Global,
}

impl Model for MemKeeper {
    ghost use Rattle.std.specs.Prelude.{◌≤◌};
    ghost use Rattle.span_spool.specs.MemKeepers.{MemState, spool_of};
    ghost use Rattle.span_spool.specs.Spools.{IsSpool, most_room};

    ghost Value = { MemState };

    ghost view = { λ k. record {
      rows = k.rows;
      room = k.room;
      next = k.next;
      fail = k.fail;
      calls = k.calls;
      faults = k.faults;
    } };

    ghost invariant = { λ k. IsSpool (spool_of (record {
      rows = k.rows;
      room = k.room;
      next = k.next;
      fail = k.fail;
      calls = k.calls;
      faults = k.faults;
    })) × (k.room ≤ most_room) };
}

impl MemKeeper {
    /// A keeper with room for so many bodies, which holds none.
    pub fn new(alloc: Global, room: u64, fail: Items<u64>) -> MemKeeper
        requires least { 1 ≤ room }
        requires most { room ≤ most_room }
        ensures { result ≡ fresh_keeper room fail }
    {
        MemKeeper {
            rows: RowQueue::new(alloc),
            room,
            next: 1,
            fail,
            calls: 0,
            faults: 0,
            alloc,
        }
    }

    /// Lends the bodies that it holds, in their order.
    pub fn rows(&self) -> &[Kept]
        ensures { result.now ≡ self.now.rows }
    {
        self.rows.as_slice()
    }

    // Counts a call, which fails where it is listed.
    fn fails(&mut self) -> bool
        ensures listed { IsTrue result ↔ Contains self.old.fail (counted self.old.calls) }
        ensures counted { self.new ≡ record {
          rows = self.old.rows;
          room = self.old.room;
          next = self.old.next;
          fail = self.old.fail;
          calls = counted self.old.calls;
          faults = cond result (counted self.old.faults) self.old.faults;
        } }
        ensures rises { self.old.faults ≤ self.new.faults }
        ensures sound { IsSpool (spool_of self.old) × IsSpool (spool_of self.new) }
    {
        self.calls = self.calls.saturating_add(1);
        let listed = self.fail.as_slice().contains(&self.calls);
        if listed {
            self.faults = self.faults.saturating_add(1);
        }
        listed
    }

    // Puts a body behind the others.
    #[tactic(auto, using(crate::proofs::SpoolLemmas::grown_rows, crate::proofs::SpoolLemmas::keeps_grown))]
    fn put(&mut self, form: Form, body: &[u8]) -> Result<u64, KeepFault>
        ensures keeps { Keeps form body.now (spool_of self.old) (spool_of self.new) result }
        ensures stays { (self.new.fail ≡ self.old.fail) × (self.new.calls ≡ self.old.calls)
            × (self.new.faults ≡ self.old.faults) }
        ensures answers { result ≢ Err faults.Failed }
        ensures sound { IsSpool (spool_of self.new) }
    {
        if self.rows.len() as u64 == self.room {
            return Err(KeepFault::Full);
        }
        if self.next == LAST_NUMBER {
            return Err(KeepFault::Spent);
        }
        let number = self.next;
        let Ok(body) = copied(self.alloc, body) else {
            return Err(KeepFault::OutOfMemory);
        };
        match self.rows.push(Kept { number, form, body }) {
            Ok(()) => {
                self.next += 1;
                Ok(number)
            }
            Err(OutOfMemory) => Err(KeepFault::OutOfMemory),
        }
    }
}

// A copy of some bytes.
fn copied(alloc: Global, bytes: &[u8]) -> Result<Blob, OutOfMemory>
    ensures { IfOk result (λ copy. copy ≡ bytes.now) }
{
    Ok(Blob::from_vec(Vec::from_slice(alloc, bytes)?))
}

// A copy of a row.
fn copied_row(row: &Kept) -> Result<Kept, OutOfMemory>
    ensures { IfOk result (λ copy. copy ≡ row.now) }
{
    Ok(Kept {
        number: row.number,
        form: row.form,
        body: row.body.copy()?,
    })
}

impl Keeper for MemKeeper {
    ghost spool = { spool_of };

    fn keep(&mut self, form: Form, body: &[u8]) -> Result<u64, KeepFault>
        ensures keeps { Keeps form body.now (spool_of self.old) (spool_of self.new) result }
        ensures counted { (spool_of self.old).faults ≤ (spool_of self.new).faults }
        ensures sound { IsSpool (spool_of self.old) × IsSpool (spool_of self.new) }

        // It fails exactly on the listed calls.
        ensures fails { (result ≡ Err faults.Failed)
            ↔ Contains self.old.fail (counted self.old.calls) }
        ensures calls { self.new.calls ≡ counted self.old.calls }
        ensures faults { CountsFailure result self.old.faults self.new.faults }
        ensures stays { self.new.fail ≡ self.old.fail }
    {
        if self.fails() {
            return Err(KeepFault::Failed);
        }
        self.put(form, body)
    }

    fn first(&mut self) -> Result<Option<Kept>, KeepFault>
        ensures gives { GivesFirst (spool_of self.old) (spool_of self.new) result }
        ensures counted { (spool_of self.old).faults ≤ (spool_of self.new).faults }
        ensures sound { IsSpool (spool_of self.old) × IsSpool (spool_of self.new) }

        // It fails exactly on the listed calls.
        ensures fails { (result ≡ Err faults.Failed)
            ↔ Contains self.old.fail (counted self.old.calls) }
        ensures calls { self.new.calls ≡ counted self.old.calls }
        ensures faults { CountsFailure result self.old.faults self.new.faults }
        ensures stays { self.new.fail ≡ self.old.fail }
    {
        if self.fails() {
            return Err(KeepFault::Failed);
        }
        match self.rows.as_slice() {
            [] => Ok(None),
            [row, ..] => match copied_row(row) {
                Ok(copy) => Ok(Some(copy)),
                Err(OutOfMemory) => Err(KeepFault::OutOfMemory),
            },
        }
    }

    #[tactic(auto, using(crate::proofs::SpoolLemmas::shrunk_rows, crate::proofs::SpoolLemmas::drops_shrunk))]
    fn drop_first(&mut self, number: u64) -> Result<bool, KeepFault>
        ensures drops { DropsFirst number (spool_of self.old) (spool_of self.new) result }
        ensures counted { (spool_of self.old).faults ≤ (spool_of self.new).faults }
        ensures sound { IsSpool (spool_of self.old) × IsSpool (spool_of self.new) }

        // It fails exactly on the listed calls.
        ensures fails { (result ≡ Err faults.Failed)
            ↔ Contains self.old.fail (counted self.old.calls) }
        ensures calls { self.new.calls ≡ counted self.old.calls }
        ensures faults { CountsFailure result self.old.faults self.new.faults }
        ensures stays { self.new.fail ≡ self.old.fail }
    {
        if self.fails() {
            return Err(KeepFault::Failed);
        }
        let held = self.rows.len() as u64;
        if held == 0 || number != self.next - held {
            return Ok(false);
        }
        self.rows.drop_first();
        Ok(true)
    }

    fn size(&self) -> u64
        ensures held { result ≡ (spool_of self.now).held }
        ensures sound { IsSpool (spool_of self.now) }
    {
        self.rows.len() as u64
    }
}
