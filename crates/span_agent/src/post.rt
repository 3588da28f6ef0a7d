//! What gives datagrams, and what its calls promise.
ghost use Rattle.std.specs.Prelude.{◌≡◌, ◌≤◌, length, take, IfOk, OnOk, OnErr};
ghost use Rattle.std.specs.Io.{ReadsAtMost};
ghost use Rattle.span_io.specs.Doors.{TellsAstray};
ghost use Rattle.span_io.specs.Outside.{Rose};
ghost use Rattle.span_agent.specs.Posts.{IsPostAt, ListensNow, Mailbox, PostListens, Receives, RefusesToListen, RefusesToReceive, as_door, most_bytes};

use span_io::Failed;

/// Where datagrams come from. Contracts see a post as its `mailbox`: a count of its faults, which stays at the
/// end of 64 bits, and, each where it is told, its address, whether it listens, whether it was asked to listen at
/// another address, the datagrams still to come, and how its calls went.
pub trait Post {
    ghost mailbox: { Self → Mailbox };

    /// Listens at an address, from now on. It answers `Ok` only at its own.
    fn listen(&mut self, address: &str) -> Result<(), Failed>
        ensures ok { OnOk result (ListensNow (mailbox self.old) (mailbox self.new) address.now) }
        ensures right { OnOk result (IsPostAt (mailbox self.old) address.now) }
        ensures err { OnErr result
            (RefusesToListen (mailbox self.old) (mailbox self.new) address.now) }
        ensures failed { OnErr result (Rose (mailbox self.old).faults (mailbox self.new).faults) }
        ensures counted { (mailbox self.old).faults ≤ (mailbox self.new).faults };

    /// Puts the next datagram at the front of the buffer, and answers the number of its bytes, which may be 0.
    fn receive(&mut self, buf: &mut [u8]) -> Result<usize, Failed>
        requires listening { PostListens (mailbox self.old) }
        requires room { most_bytes ≤ length buf.old }
        ensures bound { ReadsAtMost result buf.new }
        ensures size { length buf.new ≡ length buf.old }
        ensures ok { IfOk result
            (λ n. Receives (mailbox self.old) (mailbox self.new) (take n buf.new)) }
        ensures small { IfOk result (λ n. n ≤ most_bytes) }
        ensures err { OnErr result (RefusesToReceive (mailbox self.old) (mailbox self.new)) }
        ensures failed { OnErr result (Rose (mailbox self.old).faults (mailbox self.new).faults) }
        ensures counted { (mailbox self.old).faults ≤ (mailbox self.new).faults };

    // Where it tells its address, it tells whether it was led astray.
    ghost tells: { (p : Self) → TellsAstray (as_door (mailbox p)) };
}
