//! The run of `serve`.
ghost use Rattle.std.specs.Prelude.{◌≡◌, ◌↔◌, ◌≤◌, Err, IfOk, OnErr, IsTrue};
ghost use Rattle.span_io.specs.Doors.{IsListening, refused};
ghost use Rattle.span_io.specs.Outside.{Rose};
ghost use Rattle.span_cli.specs.Servings.{ServesConnections, end_line, end_status, visit_line};
ghost use Rattle.span_cli.specs.private.ServingSteps.{ServesAt, ServesEach, ServesNext};
ghost use Rattle.span_notes.specs.Notes.{NotesMore};

use span_gateway::{Ended, ServeFault, serve_connection};
use span_io::laws::gains_then;
use span_io::{Door, Failed, Form, Limits, Sink};
use span_notes::{note_more, note_numbered};
use std::alloc::Global;

/// How serving ends.
#[derive(Clone, Copy, PartialEq, Eq)]
enum ServeEnd {
    /// All connections were served.
    AllServed,
    /// The door gave no connection, or didn't listen.
    DoorFailed,
    /// Memory was wanted for a connection.
    NoMemory,
}

impl ServeEnd {
    /// The exit status.
    fn status(self) -> u8
        ensures { result ≡ end_status self }
    {
        match self {
            ServeEnd::AllServed => 0,
            ServeEnd::DoorFailed => 5,
            ServeEnd::NoMemory => 7,
        }
    }

    /// Its line on the notes.
    fn line(self) -> &'static [u8]
        ensures { result.now ≡ end_line self }
    {
        match self {
            ServeEnd::AllServed => b"",
            ServeEnd::DoorFailed => b"door failed\n",
            ServeEnd::NoMemory => b"out of memory\n",
        }
    }
}

/// Serves so many connections of the door, which is to listen at this address. The answer is the exit status:
/// 0 all were served, 5 the door failed before, 7 no memory was found for one. What the notes refuse changes nothing.
pub fn serve<N: Sink, D: Door>(
    alloc: Global,
    address: &str,
    to: Form,
    count: u32,
    notes: &mut N,
    door: &mut D,
) -> u8
    requires { 1 ≤ count }
    ensures { ServesConnections address.now to count result
        (D.doorway door.old) (D.doorway door.new) (N.outlet notes.old) (N.outlet notes.new) }
{
    gains_then();
    let mut holds = true;
    let end = serve_at(alloc, address, to, count, notes, &mut holds, door);
    note_more(notes, holds, &[end.line()]);
    end.status()
}

// Listens, and serves.
#[tactic(auto, using(crate::proofs::ServeLemmas::listen_failed, crate::proofs::ServeLemmas::listen_served))]
fn serve_at<N: Sink, D: Door>(
    alloc: Global,
    address: &str,
    to: Form,
    count: u32,
    notes: &mut N,
    holds: &mut bool,
    door: &mut D,
) -> ServeEnd
    requires { 1 ≤ count }
    ensures { ServesAt address.now to count result holds.old holds.new
        (D.doorway door.old) (D.doorway door.new) (N.outlet notes.old) (N.outlet notes.new) }
{
    match door.listen(address) {
        Ok(()) => serve_each(alloc, to, count, notes, holds, door),
        Err(Failed) => ServeEnd::DoorFailed,
    }
}

// Serves so many connections, one after the other.
fn serve_each<N: Sink, D: Door>(
    alloc: Global,
    to: Form,
    count: u32,
    notes: &mut N,
    holds: &mut bool,
    door: &mut D,
) -> ServeEnd
    requires { IsListening (D.doorway door.old) }
    ensures { ServesEach to count result holds.old holds.new
        (D.doorway door.old) (D.doorway door.new) (N.outlet notes.old) (N.outlet notes.new) }
{
    'visits: for done in 0..count {
        let Ok(ended) = serve_next(alloc, to, door) else {
            return ServeEnd::DoorFailed;
        };
        if wants_memory(ended) {
            return ServeEnd::NoMemory;
        }
        *holds = note_visit(notes, *holds, done + 1, ended);
    }
    ServeEnd::AllServed
}

// Accepts the next connection, serves it, and gives it back.
#[tactic(auto, using(crate::proofs::ServeLemmas::is_next))]
fn serve_next<D: Door>(
    alloc: Global,
    to: Form,
    door: &mut D,
) -> Result<Result<Ended, ServeFault>, Failed>
    requires { IsListening (D.doorway door.old) }
    ensures ok { IfOk result
        (λ ended. ServesNext to ended (D.doorway door.old) (D.doorway door.new)) }
    ensures err { OnErr result
        (D.doorway door.new ≡ refused (D.doorway door.old) (D.doorway door.new).faults) }
    ensures failed { OnErr result (Rose (D.doorway door.old).faults (D.doorway door.new).faults) }
{
    let mut conn = door.accept()?;
    let ended = serve_connection(alloc, &mut conn, to, &Limits::shipped());
    door.close(conn);
    Ok(ended)
}

// Whether memory was wanted to serve a connection that ended so.
fn wants_memory(ended: Result<Ended, ServeFault>) -> bool
    ensures { IsTrue result ↔ (ended ≡ Err ServeFault.OutOfMemory) }
{
    match ended {
        Err(ServeFault::OutOfMemory) => true,
        Ok(_) | Err(ServeFault::Read | ServeFault::Write) => false,
    }
}

// Notes that a call of a connection was refused, where it was, and answers whether no note has failed.
fn note_visit<N: Sink>(
    notes: &mut N,
    holds: bool,
    number: u32,
    ended: Result<Ended, ServeFault>,
) -> bool
    ensures { NotesMore holds result (N.outlet notes.old) (N.outlet notes.new)
        (visit_line number ended) }
{
    match ended {
        Ok(_) => holds,
        Err(ServeFault::Read) => {
            note_numbered(notes, holds, b"connection ", number, b": read failed\n")
        }
        Err(ServeFault::Write) => {
            note_numbered(notes, holds, b"connection ", number, b": write failed\n")
        }
        Err(ServeFault::OutOfMemory) => holds,
    }
}
