//! What is noted: the line that tells how a run ended.
ghost use Rattle.std.specs.Prelude.{◌≡◌, ◌++◌, codes};
ghost use Rattle.span_cli.specs.Lines.{Notes, named_cause_line, refusal_line, usage_line};
ghost use Rattle.span_cli.specs.private.LineWords.{ending_line, noted_line};

use crate::ending::Ending;
use crate::noted_fault::NotedFault;
use itoa::Buffer;
use span_io::{Cause, Refusal, Sink};
use span_notes::{note_line, note_pieces};

/// Notes that the words are no command. What the notes refuse changes nothing.
pub fn note_usage<N: Sink>(notes: &mut N)
    ensures { Notes (N.outlet notes.old) (N.outlet notes.new) usage_line }
{
    note_line(
        notes,
        b"usage: spanx convert|losses|show|check|headers|gauge|serve OPTIONS\n",
    );
}

/// Notes how a run ended, nothing where it wrote the whole text.
pub fn note_ending<N: Sink>(notes: &mut N, ending: &Ending)
    ensures line { Notes (N.outlet notes.old) (N.outlet notes.new) (ending_line ending.now) }
    ensures silent { ending.now ≡ Ending.Whole → notes.new ≡ notes.old }
{
    match ending {
        Ending::Whole => note_line(notes, b""),
        Ending::Refused(refusal) => note_refusal(notes, *refusal),
        Ending::Faulted(noted) => note_fault(notes, noted),
        Ending::BadHeaders(cause) => note_cause(notes, cause.number(), cause.name()),
        Ending::TooLong => note_cause(
            notes,
            Cause::InputTooLong.number(),
            Cause::InputTooLong.name(),
        ),
        Ending::NoIds => note_line(notes, b"fault 36 NoIds\n"),
        Ending::InputFailed => note_line(notes, b"input failed\n"),
        Ending::OutputFailed => note_line(notes, b"output failed\n"),
        Ending::NoMemory => note_line(notes, b"out of memory\n"),
    }
}

// Notes the unit and the cause of a refusal.
fn note_refusal<N: Sink>(notes: &mut N, refusal: Refusal)
    ensures { Notes (N.outlet notes.old) (N.outlet notes.new) (refusal_line refusal) }
{
    let mut unit = Buffer::new();
    let mut number = Buffer::new();
    note_pieces(
        notes,
        &[
            b"unit ".as_slice(),
            unit.format(refusal.unit).as_bytes(),
            b": cause ".as_slice(),
            number.format(refusal.cause.number()).as_bytes(),
            b" ".as_slice(),
            refusal.cause.name().as_bytes(),
            b"\n".as_slice(),
        ],
    );
}

// Notes a cause of header lines, which have no units.
fn note_cause<N: Sink>(notes: &mut N, number: u8, name: &'static str)
    ensures { Notes (N.outlet notes.old) (N.outlet notes.new) (named_cause_line number name.now) }
{
    let mut digits = Buffer::new();
    note_pieces(
        notes,
        &[
            b"cause ".as_slice(),
            digits.format(number).as_bytes(),
            b" ".as_slice(),
            name.as_bytes(),
            b"\n".as_slice(),
        ],
    );
}

// Notes the unit, the fault, and its key, where it has one.
fn note_fault<N: Sink>(notes: &mut N, noted: &NotedFault)
    ensures { Notes (N.outlet notes.old) (N.outlet notes.new) (noted_line noted.now) }
{
    let mut unit = Buffer::new();
    let mut number = Buffer::new();
    note_fault_in(
        notes,
        unit.format(noted.unit).as_bytes(),
        number.format(noted.number).as_bytes(),
        noted.name.as_bytes(),
        noted.key.as_slice(),
    );
}

// The same of its parts.
fn note_fault_in<'a, N: Sink>(
    notes: &mut N,
    unit: &'a [u8],
    number: &'a [u8],
    name: &'a [u8],
    key: &'a [u8],
)
    ensures { Notes (N.outlet notes.old) (N.outlet notes.new)
        (codes "unit " ++ unit.now ++ codes ": fault " ++ number.now ++ codes " " ++ name.now
        ++ key.now ++ codes "\n") }
{
    note_pieces(
        notes,
        &[
            b"unit ".as_slice(),
            unit,
            b": fault ".as_slice(),
            number,
            b" ".as_slice(),
            name,
            key,
            b"\n".as_slice(),
        ],
    );
}
