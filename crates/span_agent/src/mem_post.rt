//! A post in memory, for tests and rows.
ghost use Rattle.std.specs.Prelude.{◌≡◌, ◌≢◌, ◌≤◌, ◌↔◌, ◌⊎◌, [], ◌∷◌, false, length, take, Contains, IfOk, IsErr, OnErr, OnOk, refl};
ghost use Rattle.std.specs.Io.{ReadsAtMost};
ghost use Rattle.span_io.specs.Memory.{CountsFault};
ghost use Rattle.span_io.specs.Outside.{Rose, counted};
ghost use Rattle.span_agent.specs.Datagrams.{AreDatagrams};
ghost use Rattle.span_agent.specs.declared.course.PostCourse.TheVariants as courses;
ghost use Rattle.span_agent.specs.Posts.{IsPostAt, ListensNow, PostListens, Receives, RefusesToListen, RefusesToReceive, mailbox_of, most_bytes};

use crate::course::PostCourse;
use crate::post::Post;
use span_io::{Blob, Failed, Items, Text};
use std::collections::VecDeque;
use std::marker::Model;

/// A post in memory: it gives these datagrams in their order. It fails on the listed calls of `listen` and
/// `receive`, which are numbered together from 1, at another address than its own, and where no datagram is left.
/// The counts of its calls and faults stay at the end of 64 bits.
#[derive(Drop)]
pub struct MemPost {
    address: Text,
    left: VecDeque<Blob>,
    fail: Items<u64>,
    calls: u64,
    faults: u64,
    listening: bool,
    astray: bool,
    course: PostCourse,
}

impl Model for MemPost {
    ghost use Rattle.span_agent.specs.Datagrams.{AreDatagrams};
    ghost use Rattle.span_agent.specs.Posts.{PostState};

    ghost Value = { PostState };

    ghost view = { λ p. record {
      address = p.address;
      left = p.left.items;
      fail = p.fail;
      calls = p.calls;
      faults = p.faults;
      listening = p.listening;
      astray = p.astray;
      course = p.course;
    } };

    ghost invariant = { λ p. AreDatagrams p.left.items };
}

impl MemPost {
    /// A post at an address, which doesn't listen yet.
    pub fn new(address: Text, datagrams: Items<Blob>, fail: Items<u64>) -> MemPost
        requires { AreDatagrams datagrams }
        ensures { result ≡ record {
          address = address;
          left = datagrams;
          fail = fail;
          calls = 0;
          faults = 0;
          listening = false;
          astray = false;
          course = courses.Fresh;
        } }
    {
        MemPost {
            address,
            left: VecDeque::from_vec(datagrams.into_vec()),
            fail,
            calls: 0,
            faults: 0,
            listening: false,
            astray: false,
            course: PostCourse::Fresh,
        }
    }

    /// The number of datagrams that are still to come.
    pub fn left(&self) -> usize
        ensures { result ≡ length self.now.left }
    {
        self.left.len()
    }

    /// How its calls went.
    pub fn course(&self) -> PostCourse
        ensures { result ≡ self.now.course }
    {
        self.course
    }
}

impl Post for MemPost {
    ghost mailbox = { mailbox_of };

    ghost tells = { λ p. refl };

    #[tactic(auto, using(span_io::proofs::Addresses::elsewhere))]
    fn listen(&mut self, address: &str) -> Result<(), Failed>
        ensures ok { OnOk result
            (ListensNow (mailbox_of self.old) (mailbox_of self.new) address.now) }
        ensures right { OnOk result (IsPostAt (mailbox_of self.old) address.now) }
        ensures err { OnErr result
            (RefusesToListen (mailbox_of self.old) (mailbox_of self.new) address.now) }
        ensures failed { OnErr result
            (Rose (mailbox_of self.old).faults (mailbox_of self.new).faults) }
        ensures counted { (mailbox_of self.old).faults ≤ (mailbox_of self.new).faults }

        // It fails exactly on the listed calls, and at another address.
        ensures fails { IsErr result
            ↔ (Contains self.old.fail (counted self.old.calls) ⊎ (address.now ≢ self.old.address)) }
        ensures calls { self.new.calls ≡ counted self.old.calls }
        ensures faults { CountsFault result self.old.faults self.new.faults }
        ensures stays { self.new.fail ≡ self.old.fail }
    {
        let own = address == self.address.as_str();
        self.astray = self.astray || !own;
        self.calls = self.calls.saturating_add(1);
        if !own || self.fail.as_slice().contains(&self.calls) {
            self.faults = self.faults.saturating_add(1);
            self.course = self.course.listen(false);
            return Err(Failed);
        }
        self.course = self.course.listen(true);
        self.listening = true;
        Ok(())
    }

    fn receive(&mut self, buf: &mut [u8]) -> Result<usize, Failed>
        requires listening { PostListens (mailbox_of self.old) }
        requires room { most_bytes ≤ length buf.old }
        ensures bound { ReadsAtMost result buf.new }
        ensures size { length buf.new ≡ length buf.old }
        ensures ok { IfOk result
            (λ n. Receives (mailbox_of self.old) (mailbox_of self.new) (take n buf.new)) }
        ensures small { IfOk result (λ n. n ≤ most_bytes) }
        ensures err { OnErr result (RefusesToReceive (mailbox_of self.old) (mailbox_of self.new)) }
        ensures failed { OnErr result
            (Rose (mailbox_of self.old).faults (mailbox_of self.new).faults) }
        ensures counted { (mailbox_of self.old).faults ≤ (mailbox_of self.new).faults }

        // It fails exactly on the listed calls, and where no datagram is left.
        ensures fails { IsErr result
            ↔ (Contains self.old.fail (counted self.old.calls) ⊎ (self.old.left ≡ [])) }
        ensures calls { self.new.calls ≡ counted self.old.calls }
        ensures faults { CountsFault result self.old.faults self.new.faults }
        ensures gives { IfOk result (λ n. self.old.left ≡ take n buf.new ∷ self.new.left) }
        ensures stays { self.new.fail ≡ self.old.fail }
    {
        self.calls = self.calls.saturating_add(1);
        if self.fail.as_slice().contains(&self.calls) {
            self.faults = self.faults.saturating_add(1);
            self.course = self.course.receive(false);
            return Err(Failed);
        }
        let Some(datagram) = self.left.pop_front() else {
            self.faults = self.faults.saturating_add(1);
            self.course = self.course.receive(false);
            return Err(Failed);
        };
        self.course = self.course.receive(true);
        let size = datagram.len();
        buf[..size].copy_from_slice(datagram.as_slice());
        Ok(size)
    }
}
