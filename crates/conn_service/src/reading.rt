//! Reading the next bytes of a connection.
ghost use Rattle.std.specs.Prelude.{◌≡◌, ◌<◌, length, min};
ghost use Rattle.conn_service.specs.private.Steps.{Reads};

use crate::ended::ServeFault;
use crate::pending::Pending;
use span_io::{Duplex, Failed, OutOfMemory};

/// Reads some bytes, at most so many, behind those that wait. None come at the end of the stream alone, or where
/// none may be read.
pub(crate) fn read_more<C: Duplex>(
    conn: &mut C,
    pending: &mut Pending,
    buffer: &mut [u8],
    most: u64,
) -> Result<usize, ServeFault>
    requires { 0 < length buffer.old }
    ensures { Reads (C.link conn.old) (C.link conn.new) pending.old pending.new most result }
{
    let room = room_for(buffer.len(), most);
    if room == 0 {
        return Ok(0);
    }
    let piece = &mut buffer[..room];
    let Ok(given) = conn.read(piece) else {
        return Err(ServeFault::Read);
    };
    match pending.append(&piece[..given]) {
        Ok(()) => Ok(given),
        Err(OutOfMemory) => Err(ServeFault::OutOfMemory),
    }
}

// The smaller of two numbers.
fn room_for(room: usize, most: u64) -> usize
    ensures { result ≡ min room most }
{
    if most < room as u64 {
        return most as usize;
    }
    room
}
