//! The line that says why a datagram has no piece.
ghost use Rattle.std.specs.Prelude.{◌≡◌, ◌++◌, codes, decimal, IfOk};
ghost use Rattle.span_agent.specs.AgentRuns.{bad_text};

use crate::piece::AgentBad;
use itoa::Buffer;
use span_answers::key_of;
use span_io::{Blob, OutOfMemory};
use span_notes::append_pieces;
use std::alloc::Global;

// The line of the datagram of this number.
pub(crate) fn bad_line(alloc: Global, number: u32, bad: &AgentBad) -> Result<Blob, OutOfMemory>
    ensures { IfOk result (λ line. line ≡ codes "datagram " ++ decimal number ++ bad_text bad.now) }
{
    match bad {
        AgentBad::Message(cause) => line_of(
            alloc,
            number,
            b": cause ",
            cause.number(),
            cause.name().as_bytes(),
            b"",
        ),
        AgentBad::Faulted(fault) => {
            let key = key_of(alloc, fault)?;
            line_of(
                alloc,
                number,
                b": fault ",
                fault.number(),
                fault.name().as_bytes(),
                key.as_slice(),
            )
        }
    }
}

// The line of these parts.
fn line_of(
    alloc: Global,
    number: u32,
    what: &[u8],
    code: u8,
    name: &[u8],
    key: &[u8],
) -> Result<Blob, OutOfMemory>
    ensures { IfOk result (λ line. line
        ≡ codes "datagram " ++ decimal number ++ what.now ++ decimal code ++ codes " " ++ name.now
        ++ key.now ++ codes "\n") }
{
    let mut digits = Buffer::new();
    let mut figures = Buffer::new();
    line_in(
        alloc,
        digits.format(number).as_bytes(),
        what,
        figures.format(code).as_bytes(),
        name,
        key,
    )
}

// The same, with its numbers as texts.
fn line_in<'a>(
    alloc: Global,
    number: &'a [u8],
    what: &'a [u8],
    code: &'a [u8],
    name: &'a [u8],
    key: &'a [u8],
) -> Result<Blob, OutOfMemory>
    ensures { IfOk result (λ line. line
        ≡ codes "datagram " ++ number.now ++ what.now ++ code.now ++ codes " " ++ name.now
        ++ key.now ++ codes "\n") }
{
    let mut line = Blob::new(alloc);
    append_pieces(
        &mut line,
        &[
            b"datagram ".as_slice(),
            number,
            what,
            code,
            b" ".as_slice(),
            name,
            key,
            b"\n".as_slice(),
        ],
    )?;
    Ok(line)
}
