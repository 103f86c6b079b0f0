ghost use Rattle.std.specs.Prelude.{◌≡◌, None};
ghost use Rattle.std.specs.declared.option.Option.{Option};

use crate::Source;
use std::io::Read;
use zbase::{Failed, FaultCount};

/// A source over any reader. It tells only how often it has failed.
#[derive(Drop)]
pub struct ReaderSource<R> {
    reader: R,
    faults: FaultCount,
}

impl<R: Read> ReaderSource<R> {
    /// A source over this reader, which has not failed so far.
    pub fn new(reader: R) -> ReaderSource<R>
        ensures count { (⟦<ReaderSource<R> as Source>⟧.counter result).count ≡ 0 }
    {
        ReaderSource {
            reader,
            faults: FaultCount::new(),
        }
    }
}

impl<R: Read> Source for ReaderSource<R> {
    ghost left = { λ _. None };

    ghost counter = { λ source. source.faults };

    fn read(&mut self, buf: &mut [u8]) -> Result<usize, Failed> {
        match self.reader.read(buf) {
            Ok(count) => Ok(count),
            Err(_) => Err(self.faults.fault()),
        }
    }
}
