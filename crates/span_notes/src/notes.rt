//! What a program notes: lines, in pieces.
ghost use Rattle.std.specs.Prelude.{◌≡◌, ◌++◌, [], decimal, OnOk, OnErr};
ghost use Rattle.span_io.specs.Outside.{FailsAt, Gains, OutputHolds};
ghost use Rattle.span_notes.specs.Notes.{Notes, NotesMore};
ghost use Rattle.span_notes.specs.Pieces.{pieces_text};

use itoa::Buffer;
use span_io::laws::gains_then;
use span_io::{Failed, Sink, write_all};

/// Notes a line, up to the byte that fails. What the notes refuse changes nothing.
pub fn note_line<N: Sink>(notes: &mut N, line: &[u8])
    ensures line { Notes (N.outlet notes.old) (N.outlet notes.new) line.now }
    ensures silent { line.now ≡ [] → notes.new ≡ notes.old }
{
    let _ = write_all(notes, line);
}

/// Notes pieces one after the other, up to the first that fails.
pub fn note_pieces<N: Sink>(notes: &mut N, pieces: &[&[u8]])
    ensures { Notes (N.outlet notes.old) (N.outlet notes.new) (pieces_text pieces.now) }
{
    let _ = write_pieces(notes, pieces);
}

/// Notes pieces one after the other, where no note has failed, and answers whether none has then.
pub fn note_more<N: Sink>(notes: &mut N, holds: bool, pieces: &[&[u8]]) -> bool
    ensures { NotesMore holds result (N.outlet notes.old) (N.outlet notes.new)
        (pieces_text pieces.now) }
{
    gains_then();
    if !holds {
        return false;
    }
    match write_pieces(notes, pieces) {
        Ok(()) => true,
        Err(Failed) => false,
    }
}

/// The same of the line of something that has a number: what it is, the number, and what is said of it.
pub fn note_numbered<N: Sink>(
    notes: &mut N,
    holds: bool,
    what: &[u8],
    number: u32,
    said: &[u8],
) -> bool
    ensures { NotesMore holds result (N.outlet notes.old) (N.outlet notes.new)
        (what.now ++ decimal number ++ said.now) }
{
    let mut digits = Buffer::new();
    note_more(
        notes,
        holds,
        &[what, digits.format(number).as_bytes(), said],
    )
}

// Writes pieces one after the other, up to the first that fails.
fn write_pieces<N: Sink>(notes: &mut N, pieces: &[&[u8]]) -> Result<(), Failed>
    ensures ok { OnOk result
        (Gains (N.outlet notes.old) (N.outlet notes.new) (pieces_text pieces.now)) }
    ensures holds { OnOk result (OutputHolds (N.outlet notes.old) (N.outlet notes.new)) }
    ensures at { OnErr result
        (FailsAt (N.outlet notes.old) (N.outlet notes.new) (pieces_text pieces.now)) }
{
    gains_then();
    'pieces: for piece in pieces {
        if let Err(Failed) = write_all(notes, piece) {
            return Err(Failed);
        }
    }
    Ok(())
}
