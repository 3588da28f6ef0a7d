//! A source over a reader of std.
ghost use Rattle.std.specs.Prelude.{◌≡◌, None, false};

use crate::interrupted::read_again;
use crate::source::{Failed, Source};
use std::io::Read;

/// A source over a reader of std. It counts each error of the reader, and tells the
/// bytes to come where the reader tells them.
#[derive(Drop)]
pub struct ReaderSource<R> {
    reader: R,
    faults: u64,
}

impl<R: Read> ReaderSource<R> {
    pub fn new(reader: R) -> ReaderSource<R>
        ensures { ⟦<ReaderSource<R> as Source>⟧.inlet result
            ≡ record { left = R.remaining reader; faults = 0; steady = false; course = None } }
    {
        ReaderSource { reader, faults: 0 }
    }

    /// The number of errors so far, which stays at the end of its type.
    pub fn faults(&self) -> u64
        ensures { result ≡ (⟦<ReaderSource<R> as Source>⟧.inlet self.now).faults }
    {
        self.faults
    }
}

impl<R: Read> Source for ReaderSource<R> {
    ghost inlet = { λ s. record { left = R.remaining s.reader; faults = s.faults; steady = false; course = None } };

    fn read(&mut self, buf: &mut [u8]) -> Result<usize, Failed> {
        match read_again(&mut self.reader, buf) {
            Ok(given) => Ok(given),
            Err(_) => {
                self.faults = self.faults.saturating_add(1);
                Err(Failed)
            }
        }
    }
}
