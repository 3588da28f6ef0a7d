//! What gives connections, and what its calls promise.
ghost use Rattle.std.specs.Prelude.{◌≡◌, ◌<◌, ◌≤◌, IfOk, OnOk, OnErr};
ghost use Rattle.span_io.specs.Doors.{Accepts, Doorway, IsAt, IsListening, TellsAstray, given_back, listened, not_listened, refused};
ghost use Rattle.span_io.specs.Outside.{Rose};

use crate::duplex::Duplex;
use crate::source::Failed;

/// Where connections come from. Contracts see it as its `doorway`: a count of its faults, which stays at the
/// end of 64 bits, the number of connections that are out, accepted and not yet given back, and, each where it
/// is told, its address, whether it listens, whether it was asked to listen at another address, the connections
/// still to come, those that were given back, in their order, and how its calls went.
pub trait Door {
    type Conn: Duplex;

    ghost doorway: { Self → Doorway };

    /// Listens at an address, from now on. It answers `Ok` only at its own.
    fn listen(&mut self, address: &str) -> Result<(), Failed>
        ensures ok { OnOk result (doorway self.new ≡ listened (doorway self.old) address.now) }
        ensures right { OnOk result (IsAt (doorway self.old) address.now) }
        ensures err { OnErr result
            (doorway self.new
            ≡ not_listened (doorway self.old) address.now (doorway self.new).faults) }
        ensures failed { OnErr result (Rose (doorway self.old).faults (doorway self.new).faults) }
        ensures counted { (doorway self.old).faults ≤ (doorway self.new).faults };

    /// Accepts the next connection, which is out until it is given back.
    fn accept(&mut self) -> Result<Self::Conn, Failed>
        requires { IsListening (doorway self.old) }
        ensures ok { IfOk result
            (λ conn. Accepts (doorway self.old) (doorway self.new) (Self.Conn.link conn)) }
        ensures err { OnErr result
            (doorway self.new ≡ refused (doorway self.old) (doorway self.new).faults) }
        ensures failed { OnErr result (Rose (doorway self.old).faults (doorway self.new).faults) }
        ensures counted { (doorway self.old).faults ≤ (doorway self.new).faults };

    /// Takes a connection back.
    fn close(&mut self, conn: Self::Conn)
        requires { 0 < (doorway self.old).out }
        ensures { doorway self.new ≡ given_back (doorway self.old) (Self.Conn.link conn) };

    // Where it tells its address, it tells whether it was led astray.
    ghost tells: { (d : Self) → TellsAstray (doorway d) };
}
