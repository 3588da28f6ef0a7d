//! A sink over a writer of std.
ghost use Rattle.std.specs.Prelude.{◌≡◌, None};
ghost use Rattle.span_io.specs.Outside.{so_many};

use crate::interrupted::write_again;
use crate::sink::Sink;
use crate::source::Failed;
use std::io::Write;

/// A sink over a writer of std. It counts each error of the writer, and a write that takes nothing
/// of a piece that isn't empty, and tells the bytes that it took where the writer tells them.
#[derive(Drop)]
pub struct WriterSink<W> {
    writer: W,
    faults: u64,
}

impl<W: Write> WriterSink<W> {
    pub fn new(writer: W) -> WriterSink<W>
        ensures { ⟦<WriterSink<W> as Sink>⟧.outlet result
            ≡ record { held = W.contents writer; taken = None; faults = 0; sure = so_many 0; course = None } }
    {
        WriterSink { writer, faults: 0 }
    }

    /// The number of faults so far, which stays at the end of its type.
    pub fn faults(&self) -> u64
        ensures { result ≡ (⟦<WriterSink<W> as Sink>⟧.outlet self.now).faults }
    {
        self.faults
    }
}

impl<W: Write> Sink for WriterSink<W> {
    ghost outlet = { λ s. record { held = W.contents s.writer; taken = None; faults = s.faults; sure = so_many 0; course = None } };

    fn write(&mut self, piece: &[u8]) -> Result<usize, Failed> {
        match write_again(&mut self.writer, piece) {
            Ok(taken) if taken > 0 || piece.is_empty() => Ok(taken),
            _ => {
                self.faults = self.faults.saturating_add(1);
                Err(Failed)
            }
        }
    }
}
