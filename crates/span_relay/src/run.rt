//! The run of the relay.
ghost use Rattle.std.specs.Prelude.{◌≡◌, ◌↔◌, ◌≤◌, ◌<◌, length, vec_len, vec_capacity, Some, Ok, Err, IfOk, OnErr, OnOk, IsTrue};
ghost use Rattle.span_io.specs.Doors.{IsListening, refused};
ghost use Rattle.span_io.specs.Outside.{Rose};
ghost use Rattle.span_io.specs.Sizes.{IsShort, longest};
ghost use Rattle.span_notes.specs.Notes.{Notes, NotesMore};
ghost use Rattle.span_notes.specs.Pairs.{texts};
ghost use Rattle.span_spool.specs.Spools.{IsSpool};
ghost use Rattle.span_relay.specs.Peers.{IsPeerAddress};
ghost use Rattle.span_relay.specs.RelayConnections.{outcomes_in};
ghost use Rattle.span_relay.specs.RelayRuns.{RelaysConnections, end_line, end_status, flow_line, link_line, usage_line, why_in};
ghost use Rattle.span_relay.specs.RelayWords.{OnOptions, SpellsOptions};
ghost use Rattle.span_relay.specs.private.RelayRunSteps.{RelaysAt, RelaysEach, RelaysNext, SendsRound};
ghost use Rattle.span_relay.specs.declared.options.Options.{Options};
ghost use Rattle.conn_service.specs.declared.ended.ServeFault.TheVariants as whys;

use crate::connection::{RelayFault, RelayWhy, Served, relay_connection};
use crate::forwarding::{Flow, FlowFault, forward};
use crate::options::read_options;
use crate::peer::Peer;
use crate::round::Round;
use itoa::Buffer;
use span_io::laws::gains_then;
use span_io::{Door, Failed, Form, Items, LONGEST, Limits, OutOfMemory, Sink};
use span_notes::{note_line, note_more, note_numbered};
use span_spool::Keeper;
use std::alloc::Global;
use std::mem;

/// How many bodies are sent on after one connection.
const MOST_SENT: u64 = 1_000;

/// How relaying ends.
#[derive(Clone, Copy, PartialEq, Eq)]
pub(crate) enum RunEnd {
    /// All connections were served, and no body is left.
    AllSent,
    /// All were served, and so many bodies are left.
    Left(u64),
    /// The door gave no connection, or didn't listen.
    DoorFailed,
    /// No memory was found.
    NoMemory,
}

impl RunEnd {
    // The exit status.
    fn status(self) -> u8
        ensures { result ≡ end_status self }
    {
        match self {
            RunEnd::AllSent => 0,
            RunEnd::Left(_) => 8,
            RunEnd::DoorFailed => 5,
            RunEnd::NoMemory => 7,
        }
    }
}

/// What is told of a connection, and whether memory was wanted.
#[derive(Drop)]
pub(crate) struct Turned {
    pub(crate) round: Round,
    pub(crate) halted: bool,
}

/// Runs the relay that the words after the program's name ask for: it serves so many connections that it accepts at the
/// address, and after each it sends the bodies that are kept on to the peer. What became of each connection is told
/// behind the rounds that are there. The answer is the exit status: 0 all were served and no body is left, 2 the words
/// ask for nothing, 5 the door failed before, 7 no memory was found, 8 all were served and bodies are left. What the
/// notes refuse changes nothing.
pub fn relay_run<K: Keeper, P: Peer, N: Sink, D: Door>(
    alloc: Global,
    words: &[String],
    keeper: &mut K,
    peer: &mut P,
    notes: &mut N,
    door: &mut D,
    rounds: &mut Items<Round>,
) -> u8
    // Other words are answered at once: nothing is accepted, kept or sent, and nothing written but a note.
    ensures usage { (result ≡ 2)
        ↔ ((options : Options) → ¬ SpellsOptions options (texts words.now)) }
    ensures untouched { result ≡ 2
        → (keeper.new ≡ keeper.old) × (peer.new ≡ peer.old) × (door.new ≡ door.old)
        × (rounds.new ≡ rounds.old) }
    ensures usage_noted { result ≡ 2 → Notes (N.outlet notes.old) (N.outlet notes.new) usage_line }

    // Connections are accepted at the address of the words, and relayed one after the other.
    ensures relays { OnOptions (texts words.now) (λ address peer_address to count.
        RelaysConnections address peer_address to count result
        (K.spool keeper.old) (K.spool keeper.new) (P.wire peer.old) (P.wire peer.new)
        (D.doorway door.old) (D.doorway door.new) (N.outlet notes.old)
        (N.outlet notes.new) rounds.old rounds.new) }
{
    match read_options(words) {
        Some(options) => relay(
            alloc,
            words[options.address].as_str(),
            words[options.peer].as_str(),
            options.to,
            options.count,
            keeper,
            peer,
            notes,
            door,
            rounds,
        ),
        None => {
            note_line(notes, b"usage: spanx_relay OPTIONS\n");
            2
        }
    }
}

// Relays so many connections, and notes how that ended.
fn relay<K: Keeper, P: Peer, N: Sink, D: Door>(
    alloc: Global,
    address: &str,
    target: &str,
    to: Form,
    count: u32,
    keeper: &mut K,
    peer: &mut P,
    notes: &mut N,
    door: &mut D,
    rounds: &mut Items<Round>,
) -> u8
    requires target { IsPeerAddress target.now }
    requires some { 1 ≤ count }
    ensures { RelaysConnections address.now target.now to count result
        (K.spool keeper.old) (K.spool keeper.new) (P.wire peer.old) (P.wire peer.new)
        (D.doorway door.old) (D.doorway door.new) (N.outlet notes.old)
        (N.outlet notes.new) rounds.old rounds.new }
{
    gains_then();
    let mut holds = true;
    let mut list = mem::replace(rounds, Items::new(alloc)).into_vec();
    let end = relay_at(
        alloc, address, target, to, count, keeper, peer, notes, &mut holds, door, &mut list,
    );
    *rounds = Items::from_vec(list);
    note_end(notes, holds, end);
    end.status()
}

// Notes how relaying ended.
fn note_end<N: Sink>(notes: &mut N, holds: bool, end: RunEnd) -> bool
    ensures { NotesMore holds result (N.outlet notes.old) (N.outlet notes.new) (end_line end) }
{
    match end {
        RunEnd::AllSent => holds,
        RunEnd::Left(left) => {
            let mut digits = Buffer::new();
            note_more(
                notes,
                holds,
                &[
                    b"left ".as_slice(),
                    digits.format(left).as_bytes(),
                    b"\n".as_slice(),
                ],
            )
        }
        RunEnd::DoorFailed => note_more(notes, holds, &[b"door failed\n".as_slice()]),
        RunEnd::NoMemory => note_more(notes, holds, &[b"out of memory\n".as_slice()]),
    }
}

// Listens, and relays.
fn relay_at<K: Keeper, P: Peer, N: Sink, D: Door>(
    alloc: Global,
    address: &str,
    target: &str,
    to: Form,
    count: u32,
    keeper: &mut K,
    peer: &mut P,
    notes: &mut N,
    holds: &mut bool,
    door: &mut D,
    rounds: &mut Vec<Round>,
) -> RunEnd
    requires target { IsPeerAddress target.now }
    requires some { 1 ≤ count }
    requires short { IsShort rounds.old.items }
    ensures relays { RelaysAt address.now target.now to count result holds.old holds.new
        (K.spool keeper.old) (K.spool keeper.new) (P.wire peer.old) (P.wire peer.new)
        (D.doorway door.old) (D.doorway door.new) (N.outlet notes.old) (N.outlet notes.new)
        rounds.old.items rounds.new.items }
    ensures short { IsShort rounds.new.items }
{
    match door.listen(address) {
        Ok(()) => relay_each(
            alloc, target, to, count, keeper, peer, notes, holds, door, rounds,
        ),
        Err(Failed) => RunEnd::DoorFailed,
    }
}

// Relays so many connections, one after the other.
fn relay_each<K: Keeper, P: Peer, N: Sink, D: Door>(
    alloc: Global,
    target: &str,
    to: Form,
    count: u32,
    keeper: &mut K,
    peer: &mut P,
    notes: &mut N,
    holds: &mut bool,
    door: &mut D,
    rounds: &mut Vec<Round>,
) -> RunEnd
    requires target { IsPeerAddress target.now }
    requires listening { IsListening (D.doorway door.old) }
    requires short { IsShort rounds.old.items }
    ensures relays { RelaysEach to target.now count result holds.old holds.new
        (K.spool keeper.old) (K.spool keeper.new) (P.wire peer.old) (P.wire peer.new)
        (D.doorway door.old) (D.doorway door.new) (N.outlet notes.old) (N.outlet notes.new)
        rounds.old.items rounds.new.items }
    ensures short { IsShort rounds.new.items }
{
    'turns: for done in 0..count {
        let Ok(()) = take_room(rounds) else {
            return RunEnd::NoMemory;
        };
        let Ok(ended) = relay_next(alloc, to, keeper, door) else {
            return RunEnd::DoorFailed;
        };
        let turned = send_after(target, done + 1, ended, keeper, peer, notes, holds);
        match rounds.push(turned.round) {
            Ok(()) => {}
            Err(_) => unreachable!(),
        }
        if turned.halted {
            return RunEnd::NoMemory;
        }
    }
    match keeper.size() {
        0 => RunEnd::AllSent,
        left => RunEnd::Left(left),
    }
}

// Room for one more round.
fn take_room(rounds: &mut Vec<Round>) -> Result<(), OutOfMemory>
    ensures same { rounds.new.items ≡ rounds.old.items }
    ensures room { OnOk result (vec_len rounds.new < vec_capacity rounds.new) }
    ensures short { OnOk result (length rounds.new.items < longest) }
{
    if rounds.len() >= LONGEST {
        return Err(OutOfMemory);
    }
    rounds.reserve(1)?;
    Ok(())
}

// Accepts the next connection, serves it, and gives it back.
fn relay_next<K: Keeper, D: Door>(
    alloc: Global,
    to: Form,
    keeper: &mut K,
    door: &mut D,
) -> Result<Result<Served, RelayFault>, Failed>
    requires { IsListening (D.doorway door.old) }
    ensures ok { IfOk result (λ ended. RelaysNext to ended (K.spool keeper.old) (K.spool keeper.new)
        (D.doorway door.old) (D.doorway door.new)) }
    ensures err { OnErr result
        (D.doorway door.new ≡ refused (D.doorway door.old) (D.doorway door.new).faults) }
    ensures failed { OnErr result (Rose (D.doorway door.old).faults (D.doorway door.new).faults) }
    ensures same { OnErr result (keeper.new ≡ keeper.old) }
{
    let mut conn = door.accept()?;
    let ended = relay_connection(alloc, &mut conn, keeper, to, &Limits::shipped());
    door.close(conn);
    Ok(ended)
}

// Sends the kept bodies on after a connection that ended so, and notes both.
fn send_after<K: Keeper, P: Peer, N: Sink>(
    target: &str,
    number: u32,
    ended: Result<Served, RelayFault>,
    keeper: &mut K,
    peer: &mut P,
    notes: &mut N,
    holds: &mut bool,
) -> Turned
    requires { IsPeerAddress target.now }
    ensures { SendsRound target.now number ended result holds.old holds.new
        (K.spool keeper.old) (K.spool keeper.new) (P.wire peer.old) (P.wire peer.new)
        (N.outlet notes.old) (N.outlet notes.new) }
{
    let why = why_of(&ended);
    let outcomes = outcomes_of(ended);
    *holds = note_link(notes, *holds, number, why);
    if wants_link_memory(why) {
        return Turned {
            round: Round { outcomes, gone: 0 },
            halted: true,
        };
    }
    let before = keeper.size();
    let flow = forward(keeper, peer, target, MOST_SENT);
    let gone = before - keeper.size();
    *holds = note_flow(notes, *holds, number, flow);
    Turned {
        round: Round { outcomes, gone },
        halted: wants_memory(flow),
    }
}

// Why a connection wasn't served to its end, if it wasn't.
fn why_of(ended: &Result<Served, RelayFault>) -> Option<RelayWhy>
    ensures { result ≡ why_in ended.now }
{
    match ended {
        Ok(_) => None,
        Err(fault) => Some(fault.why),
    }
}

// Its outcomes.
fn outcomes_of(ended: Result<Served, RelayFault>) -> Items<bool>
    ensures { result ≡ outcomes_in ended }
{
    match ended {
        Ok(served) => served.outcomes,
        Err(fault) => fault.outcomes,
    }
}

// Whether memory was wanted for a connection.
fn wants_link_memory(why: Option<RelayWhy>) -> bool
    ensures { IsTrue result ↔ (why ≡ Some whys.OutOfMemory) }
{
    match why {
        Some(RelayWhy::OutOfMemory) => true,
        None | Some(RelayWhy::Read | RelayWhy::Write) => false,
    }
}

// Whether memory was wanted as bodies were sent on.
fn wants_memory(flow: Result<Flow, FlowFault>) -> bool
    ensures { IsTrue result ↔ (flow ≡ Err FlowFault.OutOfMemory) }
{
    match flow {
        Err(FlowFault::OutOfMemory) => true,
        Ok(_) | Err(FlowFault::Keeper | FlowFault::Peer) => false,
    }
}

// Notes that a call of a connection was refused, where it was, and answers whether no note has failed.
fn note_link<N: Sink>(notes: &mut N, holds: bool, number: u32, why: Option<RelayWhy>) -> bool
    ensures { NotesMore holds result (N.outlet notes.old) (N.outlet notes.new)
        (link_line number why) }
{
    match why {
        None | Some(RelayWhy::OutOfMemory) => holds,
        Some(RelayWhy::Read) => note_numbered(
            notes,
            holds,
            b"connection ",
            number,
            b": read failed\n",
        ),
        Some(RelayWhy::Write) => note_numbered(
            notes,
            holds,
            b"connection ",
            number,
            b": write failed\n",
        ),
    }
}

// Notes how sending on ended, where bodies are left.
fn note_flow<N: Sink>(
    notes: &mut N,
    holds: bool,
    number: u32,
    flow: Result<Flow, FlowFault>,
) -> bool
    ensures { NotesMore holds result (N.outlet notes.old) (N.outlet notes.new)
        (flow_line number flow) }
{
    match flow {
        Ok(Flow::Empty | Flow::Spent) | Err(FlowFault::OutOfMemory) => holds,
        Ok(Flow::Held(status)) => note_status(notes, holds, number, status),
        Err(FlowFault::Keeper) => note_numbered(
            notes,
            holds,
            b"connection ",
            number,
            b": keeper failed\n",
        ),
        Err(FlowFault::Peer) => note_numbered(
            notes,
            holds,
            b"connection ",
            number,
            b": peer failed\n",
        ),
    }
}

// Notes the status that the peer answered the first body with.
fn note_status<N: Sink>(notes: &mut N, holds: bool, number: u32, status: u16) -> bool
    ensures { NotesMore holds result (N.outlet notes.old) (N.outlet notes.new)
        (flow_line number (Ok (Flow.Held status))) }
{
    let mut place = Buffer::new();
    let mut digits = Buffer::new();
    note_more(
        notes,
        holds,
        &[
            b"connection ".as_slice(),
            place.format(number).as_bytes(),
            b": peer answered ".as_slice(),
            digits.format(status).as_bytes(),
            b"\n".as_slice(),
        ],
    )
}
