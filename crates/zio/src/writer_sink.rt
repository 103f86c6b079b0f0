ghost use Rattle.std.specs.Prelude.{◌≡◌, None};
ghost use Rattle.std.specs.declared.option.Option.{Option};

use crate::{OutsideRefusal, Sink};
use std::io::Write;
use zbase::FaultCount;

/// A sink over any writer. It tells only how often it has failed, and never flushes the writer.
#[derive(Drop)]
pub struct WriterSink<W> {
    writer: W,
    faults: FaultCount,
}

impl<W: Write> WriterSink<W> {
    /// A sink over this writer, which has not failed so far.
    pub fn new(writer: W) -> WriterSink<W>
        ensures count { (⟦<WriterSink<W> as Sink>⟧.counter result).count ≡ 0 }
    {
        WriterSink {
            writer,
            faults: FaultCount::new(),
        }
    }
}

impl<W: Write> Sink for WriterSink<W> {
    ghost written = { λ _. None };

    ghost counter = { λ sink. sink.faults };

    fn write_all(&mut self, bytes: &[u8]) -> Result<(), OutsideRefusal> {
        match self.writer.write_all(bytes) {
            Ok(()) => Ok(()),
            Err(_) => Err(self.faults.fault().into()),
        }
    }
}
