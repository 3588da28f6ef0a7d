//! A door in memory, for tests and rows.
ghost use Rattle.std.specs.Prelude.{◌≡◌, ◌≢◌, ◌<◌, ◌≤◌, ◌↔◌, ◌⊎◌, [], ◌∷◌, ◌++◌, false, length, Contains, IfOk, OnErr, OnOk, IsErr, refl};
ghost use Rattle.span_io.specs.Connections.{HaveNoFault, doorway_of, link_of};
ghost use Rattle.span_io.specs.Doors.{Accepts, IsAt, IsListening, given_back, listened, not_listened, refused};
ghost use Rattle.span_io.specs.Memory.{CountsFault};
ghost use Rattle.span_io.specs.Outside.{Rose, counted};
ghost use Rattle.span_io.specs.declared.course.DoorCourse.TheVariants as doors;

use crate::course::DoorCourse;
use crate::door::Door;
use crate::halt::OutOfMemory;
use crate::items::Items;
use crate::mem_duplex::MemDuplex;
use crate::source::Failed;
use crate::text::Text;
use std::alloc::Global;
use std::collections::VecDeque;
use std::marker::Model;

/// A door in memory: it gives these connections in their order, and keeps those that are given back, for which
/// it takes the room when it is made. It fails on the listed calls of `listen` and `accept`, which are numbered
/// together from 1, at another address than its own, and where no connection is left. The counts of its calls
/// and faults stay at the end of 64 bits.
#[derive(Drop)]
pub struct MemDoor {
    address: Text,
    waiting: VecDeque<MemDuplex>,
    fail: Items<u64>,
    calls: u64,
    faults: u64,
    listening: bool,
    astray: bool,
    out: u64,
    closed: Vec<MemDuplex>,
    course: DoorCourse,
}

impl Model for MemDoor {
    ghost use Rattle.std.specs.Prelude.{◌+◌, ◌≤◌, length, vec_len, vec_capacity};
    ghost use Rattle.span_io.specs.Connections.{DoorState, HaveNoFault};

    ghost Value = { DoorState };

    ghost view = { λ d. record {
      address = d.address;
      waiting = d.waiting.items;
      fail = d.fail;
      calls = d.calls;
      faults = d.faults;
      listening = d.listening;
      astray = d.astray;
      out = d.out;
      closed = d.closed.items;
      course = d.course;
    } };

    ghost invariant = { λ d. HaveNoFault d.waiting.items
        × (vec_len d.closed + d.out + length d.waiting.items ≤ vec_capacity d.closed) };
}

impl MemDoor {
    /// A door at an address, which doesn't listen yet.
    pub fn new(
        alloc: Global,
        address: Text,
        conns: Items<MemDuplex>,
        fail: Items<u64>,
    ) -> Result<MemDoor, OutOfMemory>
        requires { HaveNoFault conns }
        ensures { IfOk result (λ door. door ≡ record {
          address = address;
          waiting = conns;
          fail = fail;
          calls = 0;
          faults = 0;
          listening = false;
          astray = false;
          out = 0;
          closed = [];
          course = doors.Fresh;
        }) }
    {
        Ok(MemDoor {
            address,
            closed: Vec::with_capacity(alloc, conns.len())?,
            waiting: VecDeque::from_vec(conns.into_vec()),
            fail,
            calls: 0,
            faults: 0,
            listening: false,
            astray: false,
            out: 0,
            course: DoorCourse::Fresh,
        })
    }

    /// Lends the connections that were given back.
    pub fn closed(&self) -> &[MemDuplex]
        ensures { result.now ≡ self.now.closed }
    {
        self.closed.as_slice()
    }

    /// The number of connections that still wait.
    pub fn waiting(&self) -> usize
        ensures { result ≡ length self.now.waiting }
    {
        self.waiting.len()
    }

    /// How its calls went.
    pub fn course(&self) -> DoorCourse
        ensures { result ≡ self.now.course }
    {
        self.course
    }
}

impl Door for MemDoor {
    type Conn = MemDuplex;

    ghost doorway = { doorway_of };

    ghost tells = { λ d. refl };

    #[tactic(auto, using(crate::proofs::Addresses::elsewhere))]
    fn listen(&mut self, address: &str) -> Result<(), Failed>
        ensures ok { OnOk result
            (doorway_of self.new ≡ listened (doorway_of self.old) address.now) }
        ensures right { OnOk result (IsAt (doorway_of self.old) address.now) }
        ensures err { OnErr result (doorway_of self.new
            ≡ not_listened (doorway_of self.old) address.now (doorway_of self.new).faults) }
        ensures failed { OnErr result
            (Rose (doorway_of self.old).faults (doorway_of self.new).faults) }
        ensures counted { (doorway_of self.old).faults ≤ (doorway_of self.new).faults }

        // It fails exactly on the listed calls, and at another address.
        ensures fails { IsErr result
            ↔ (Contains self.old.fail (counted self.old.calls) ⊎ (address.now ≢ self.old.address)) }
        ensures calls { self.new.calls ≡ counted self.old.calls }
        ensures faults { CountsFault result self.old.faults self.new.faults }
        ensures stays { (self.new.fail ≡ self.old.fail) × (self.new.waiting ≡ self.old.waiting)
            × (self.new.closed ≡ self.old.closed) }
    {
        let own = address == self.address.as_str();
        self.astray = self.astray || !own;
        self.calls = self.calls.saturating_add(1);
        if !own || self.fail.as_slice().contains(&self.calls) {
            self.faults = self.faults.saturating_add(1);
            self.course = self.course.listen(false);
            return Err(Failed);
        }
        self.course = self.course.listen(true);
        self.listening = true;
        Ok(())
    }

    fn accept(&mut self) -> Result<MemDuplex, Failed>
        requires { IsListening (doorway_of self.old) }
        ensures ok { IfOk result
            (λ conn. Accepts (doorway_of self.old) (doorway_of self.new) (link_of conn)) }
        ensures err { OnErr result
            (doorway_of self.new ≡ refused (doorway_of self.old) (doorway_of self.new).faults) }
        ensures failed { OnErr result
            (Rose (doorway_of self.old).faults (doorway_of self.new).faults) }
        ensures counted { (doorway_of self.old).faults ≤ (doorway_of self.new).faults }

        // It fails exactly on the listed calls, and where no connection is left.
        ensures fails { IsErr result
            ↔ (Contains self.old.fail (counted self.old.calls) ⊎ (self.old.waiting ≡ [])) }
        ensures calls { self.new.calls ≡ counted self.old.calls }
        ensures faults { CountsFault result self.old.faults self.new.faults }
        ensures gives { IfOk result (λ conn. self.old.waiting ≡ conn ∷ self.new.waiting) }
        ensures stays { (self.new.fail ≡ self.old.fail) × (self.new.closed ≡ self.old.closed) }
    {
        self.calls = self.calls.saturating_add(1);
        if self.fail.as_slice().contains(&self.calls) {
            self.faults = self.faults.saturating_add(1);
            self.course = self.course.accept(false);
            return Err(Failed);
        }
        let Some(conn) = self.waiting.pop_front() else {
            self.faults = self.faults.saturating_add(1);
            self.course = self.course.accept(false);
            return Err(Failed);
        };
        self.course = self.course.accept(true);
        self.out += 1;
        Ok(conn)
    }

    fn close(&mut self, conn: MemDuplex)
        requires { 0 < (doorway_of self.old).out }
        ensures doorway { doorway_of self.new ≡ given_back (doorway_of self.old) (link_of conn) }
        ensures closed { self.new.closed ≡ self.old.closed ++ conn ∷ [] }
        ensures stays { (self.new.fail ≡ self.old.fail) × (self.new.waiting ≡ self.old.waiting)
            × (self.new.calls ≡ self.old.calls) }
    {
        self.out -= 1;
        self.course = self.course.close();
        match self.closed.push(conn) {
            Ok(()) => {}
            Err(_) => unreachable!(),
        }
    }
}
