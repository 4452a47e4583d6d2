//! Sources and sinks over std.
use crate::ports::{Got, Put, Sink, Source};
use std::io::{Read, Write};

/// A source over a reader of std. It tells nothing of its bytes, since no contract can say what a file or a terminal gives.
#[derive(Drop)]
pub struct StdSource<T> {
    reader: T,
    faults: u64,
}

impl<T: Read> StdSource<T> {
    ghost use Rattle.std.specs.Prelude.{◌≡◌};

    /// Reads from here on. Each error of the reader is a fault. It takes no memory.
    pub fn new(reader: T) -> StdSource<T>
        ensures { ⟦<StdSource<T> as Source>⟧.faults result ≡ 0 }
    {
        StdSource { reader, faults: 0 }
    }
}

impl<T: Read> Source for StdSource<T> {
    ghost use Rattle.std.specs.Prelude.{None};

    ghost left = { λ _. None };

    ghost faults = { λ s. s.faults };

    fn read(&mut self, buffer: &mut [u8]) -> Got {
        match self.reader.read(buffer) {
            Ok(0) => Got::End,
            Ok(n) => Got::Bytes(n),
            Err(_) => {
                self.faults = self.faults.saturating_add(1);
                Got::Failed
            }
        }
    }
}

/// A sink over a writer of std. It tells nothing of its bytes, since no contract can say what a file or a terminal takes.
#[derive(Drop)]
pub struct StdSink<T> {
    writer: T,
    faults: u64,
}

impl<T: Write> StdSink<T> {
    ghost use Rattle.std.specs.Prelude.{◌≡◌};

    /// Writes from here on. Each error of the writer, and each write that takes nothing, is a fault. It takes no memory.
    pub fn new(writer: T) -> StdSink<T>
        ensures { ⟦<StdSink<T> as Sink>⟧.faults result ≡ 0 }
    {
        StdSink { writer, faults: 0 }
    }
}

impl<T: Write> Sink for StdSink<T> {
    ghost use Rattle.std.specs.Prelude.{None};

    ghost taken = { λ _. None };

    ghost faults = { λ s. s.faults };

    fn write(&mut self, bytes: &[u8]) -> Put {
        match self.writer.write(bytes) {
            Ok(n) if n > 0 => Put::Took(n),
            _ => {
                self.faults = self.faults.saturating_add(1);
                Put::Failed
            }
        }
    }
}
