//! Texts in pieces.
ghost use Rattle.std.specs.Prelude.{◌≡◌, ◌++◌, OnOk};
ghost use Rattle.span_notes.specs.Pieces.{pieces_text};

use span_io::{Blob, OutOfMemory};

/// Appends pieces, one after the other.
pub fn append_pieces(out: &mut Blob, pieces: &[&[u8]]) -> Result<(), OutOfMemory>
    ensures { OnOk result (out.new ≡ out.old ++ pieces_text pieces.now) }
{
    'pieces: for piece in pieces {
        out.append(piece)?;
    }
    Ok(())
}
