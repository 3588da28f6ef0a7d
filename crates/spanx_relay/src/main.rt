//! `spanx_relay` takes spans that are posted to it, keeps them in another form, and sends them on to a peer.
#![tactic(auto)]

use span_io::{Items, ListenerDoor, OutOfMemory, WriterSink, write_all};
use span_relay::{TcpPeer, relay_run};
use span_spool::SqlKeeper;
use std::env;
use std::io::ErrorKind;
use std::process::ExitCode;
use std::rt::Env;

/// How many bodies are kept at the most.
const ROOM: u64 = 1_024;

fn main(rt: HostRuntime) -> ExitCode {
    let mut notes = WriterSink::new(rt.stderr());
    let Ok(words) = words_of(&rt) else {
        let _ = write_all(&mut notes, b"out of memory\n");
        return ExitCode::from(7);
    };
    let mut keeper = SqlKeeper::new(rt.alloc(), ROOM);
    let mut peer = TcpPeer::new(rt.alloc(), &rt);
    let mut door = ListenerDoor::new(&rt);
    let mut rounds = Items::new(rt.alloc());
    ExitCode::from(relay_run(
        rt.alloc(),
        words.as_slice(),
        &mut keeper,
        &mut peer,
        &mut notes,
        &mut door,
        &mut rounds,
    ))
}

// The words after the program's name. Where one isn't UTF-8 there are none, which is no command.
fn words_of(rt: &(impl Env + AllocGlobal)) -> Result<Vec<String>, OutOfMemory> {
    let mut words = Vec::new(rt.alloc());
    match env::args(rt) {
        Ok(args) => {
            for word in args.skip(1) {
                words.push(word)?;
            }
            Ok(words)
        }
        Err(error) => match error.kind() {
            ErrorKind::OutOfMemory => Err(OutOfMemory),
            _ => Ok(words),
        },
    }
}
