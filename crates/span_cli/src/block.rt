//! Reading a block of header lines.
ghost use Rattle.std.specs.Prelude.{◌≡◌, ◌≤◌, [], length, OnOk, IfOk, IfErr};
ghost use Rattle.span_cli.specs.private.ReadBlocks.{IsReadWhole, BlockHalts};
ghost use Rattle.span_cli.specs.Inputs.{header_limit, piece};

use crate::ending::Ending;
use crate::input::{PIECE, room};
use span_io::{Blob, OutOfMemory, Source};
use std::alloc::Global;

/// The most bytes of header lines that are read.
const HEADER_LIMIT: usize = 16_384;

/// Reads an input of header lines to its end. Where the run ends before, the answer is how.
pub fn read_block<S: Source>(alloc: Global, input: &mut S) -> Result<Blob, Ending>
    ensures whole { IfOk result
        (λ block. IsReadWhole (S.inlet input.old) (S.inlet input.new) block) }
    ensures within { IfOk result (λ block. length block ≤ header_limit) }
    ensures ended { IfErr result
        (λ ending. BlockHalts ending (S.inlet input.old) (S.inlet input.new)) }
{
    let Ok(mut buffer) = room(alloc, PIECE) else {
        return Err(Ending::NoMemory);
    };
    let mut block = Blob::new(alloc);
    read_pieces(input, &mut block, buffer.as_mut_slice())?;
    Ok(block)
}

// The same with room for a piece.
fn read_pieces<S: Source>(input: &mut S, block: &mut Blob, buffer: &mut [u8]) -> Result<(), Ending>
    requires room { length buffer.old ≡ piece }
    requires none { block.old ≡ [] }
    ensures whole { OnOk result (IsReadWhole (S.inlet input.old) (S.inlet input.new) block.new) }
    ensures within { OnOk result (length block.new ≤ header_limit) }
    ensures ended { IfErr result
        (λ ending. BlockHalts ending (S.inlet input.old) (S.inlet input.new)) }
{
    'pieces: loop {
        let Ok(given) = input.read(buffer) else {
            return Err(Ending::InputFailed);
        };
        if given == 0 {
            return Ok(());
        }
        if let Err(OutOfMemory) = block.append(&buffer[..given]) {
            return Err(Ending::NoMemory);
        }
        if block.len() > HEADER_LIMIT {
            return Err(Ending::TooLong);
        }
    }
}
