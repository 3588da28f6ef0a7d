//! `spanx_agent` receives datagrams of Jaeger's clients, and writes the batches in them in another form.
#![tactic(auto)]

use span_agent::{SocketPost, agent_run};
use span_io::{OutOfMemory, WriterSink, write_all};
use std::env;
use std::io::ErrorKind;
use std::process::ExitCode;
use std::rt::Env;

fn main(rt: HostRuntime) -> ExitCode {
    let mut notes = WriterSink::new(rt.stderr());
    let Ok(words) = words_of(&rt) else {
        let _ = write_all(&mut notes, b"out of memory\n");
        return ExitCode::from(7);
    };
    let mut output = WriterSink::new(rt.stdout());
    let mut post = SocketPost::new(rt);
    ExitCode::from(agent_run(
        rt.alloc(),
        words.as_slice(),
        &mut post,
        &mut output,
        &mut notes,
    ))
}

// The words after the program's name. Where one isn't UTF-8 there are none, which is no command.
fn words_of(rt: &(impl Env + AllocGlobal)) -> Result<Vec<String>, OutOfMemory> {
    let mut words = Vec::new(rt.alloc());
    match env::args(rt) {
        Ok(args) => {
            for word in args.skip(1) {
                words.push(word)?;
            }
            Ok(words)
        }
        Err(error) => match error.kind() {
            ErrorKind::OutOfMemory => Err(OutOfMemory),
            _ => Ok(words),
        },
    }
}
