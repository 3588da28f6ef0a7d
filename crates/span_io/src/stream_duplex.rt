//! A connection over a stream of TCP.
ghost use Rattle.std.specs.Prelude.{◌≡◌, None, false};
ghost use Rattle.span_io.specs.Outside.{so_many};

use crate::duplex::Duplex;
use crate::interrupted::{read_again, write_again};
use crate::source::Failed;
use std::io::{Read, Write};

/// A connection over a stream of std. It counts the errors of reads and of writes apart, and a write that takes
/// nothing of a piece that isn't empty, and tells no bytes.
#[derive(Drop)]
pub struct StreamDuplex<S> {
    stream: S,
    read_faults: u64,
    write_faults: u64,
}

impl<S: Read + Write> StreamDuplex<S> {
    pub fn new(stream: S) -> StreamDuplex<S>
        ensures { ⟦<StreamDuplex<S> as Duplex>⟧.link result ≡ record {
          inlet = record { left = None; faults = 0; steady = false; course = None };
          outlet = record { held = None; taken = None; faults = 0; sure = so_many 0; course = None };
          mark = None;
        } }
    {
        StreamDuplex {
            stream,
            read_faults: 0,
            write_faults: 0,
        }
    }
}

impl<S: Read + Write> Duplex for StreamDuplex<S> {
    ghost link = { λ s. record {
      inlet = record { left = None; faults = s.read_faults; steady = false; course = None };
      outlet = record { held = None; taken = None; faults = s.write_faults; sure = so_many 0; course = None };
      mark = None;
    } };

    ghost tells = { λ s. tt };

    fn read(&mut self, buf: &mut [u8]) -> Result<usize, Failed> {
        match read_again(&mut self.stream, buf) {
            Ok(given) => Ok(given),
            Err(_) => {
                self.read_faults = self.read_faults.saturating_add(1);
                Err(Failed)
            }
        }
    }

    fn write(&mut self, piece: &[u8]) -> Result<usize, Failed> {
        match write_again(&mut self.stream, piece) {
            Ok(taken) if taken > 0 || piece.is_empty() => Ok(taken),
            _ => {
                self.write_faults = self.write_faults.saturating_add(1);
                Err(Failed)
            }
        }
    }
}
