//! Sources and sinks over memory, whose calls may fail.
ghost use Rattle.std.specs.Prelude.{◌≤◌, length, vec_capacity};

use crate::calls::Calls;
use crate::ports::{Got, Put, Sink, Source};
use cell_key::{ByteText, NoMemory};
use std::alloc::Global;

/// A source over bytes in memory.
#[derive(Drop)]
pub struct MemSource {
    bytes: ByteText,
    at: usize,
    step: usize,
    failing: Calls,
    calls: u64,
    faults: u64,
    ghost moves: { 1 ≤ step },
    ghost bound: { at ≤ length bytes },
}

impl MemSource {
    ghost use Rattle.std.specs.Prelude.{◌≡◌, Some};

    /// Gives at most `step` bytes at a call. The calls whose numbers stand in `failing` fail and are counted. It takes no memory.
    pub fn new(bytes: ByteText, step: usize, failing: Calls) -> MemSource
        requires { 1 ≤ step }
        ensures left { ⟦<MemSource as Source>⟧.left result ≡ Some bytes }
        ensures faults { ⟦<MemSource as Source>⟧.faults result ≡ 0 }
    {
        MemSource {
            bytes,
            at: 0,
            step,
            failing,
            calls: 0,
            faults: 0,
        }
    }
}

impl Source for MemSource {
    ghost use Rattle.std.specs.Prelude.{Some, drop};

    ghost left = { λ s. Some (drop s.at s.bytes) };

    ghost faults = { λ s. s.faults };

    fn read(&mut self, buffer: &mut [u8]) -> Got {
        self.calls = self.calls.saturating_add(1);
        if self.failing.has(self.calls) {
            self.faults = self.faults.saturating_add(1);
            return Got::Failed;
        }
        let rest = &self.bytes.bytes()[self.at..];
        if rest.is_empty() {
            return Got::End;
        }
        let n = rest.len().min(self.step).min(buffer.len());
        buffer[..n].copy_from_slice(&rest[..n]);
        self.at += n;
        Got::Bytes(n)
    }
}

/// A sink into memory that is reserved when it is made.
#[derive(Drop)]
pub struct MemSink {
    taken: Vec<u8>,
    room: usize,
    step: usize,
    failing: Calls,
    calls: u64,
    faults: u64,
    ghost moves: { 1 ≤ step },
    ghost reserved: { room ≤ vec_capacity taken },
    ghost bound: { length taken.items ≤ room },
}

impl MemSink {
    ghost use Rattle.std.specs.Prelude.{◌≡◌, Some, [], IfOk};

    /// Takes at most `step` bytes at a call, into `room` reserved bytes. The calls whose numbers stand in `failing`, and calls with no
    /// room left, fail and are counted.
    pub fn new(alloc: Global, room: usize, step: usize, failing: Calls) -> Result<MemSink, NoMemory>
        requires { 1 ≤ step }
        ensures taken { IfOk result (λ s. ⟦<MemSink as Sink>⟧.taken s ≡ Some []) }
        ensures faults { IfOk result (λ s. ⟦<MemSink as Sink>⟧.faults s ≡ 0) }
    {
        match Vec::with_capacity(alloc, room) {
            Ok(taken) => Ok(MemSink {
                taken,
                room,
                step,
                failing,
                calls: 0,
                faults: 0,
            }),
            Err(_) => Err(NoMemory),
        }
    }

    /// The bytes taken. It takes no memory.
    pub fn bytes(&self) -> &[u8]
        ensures { ⟦<MemSink as Sink>⟧.taken self.now ≡ Some result.now }
    {
        self.taken.as_slice()
    }
}

impl Sink for MemSink {
    ghost use Rattle.std.specs.Prelude.{Some};

    ghost taken = { λ s. Some s.taken.items };

    ghost faults = { λ s. s.faults };

    fn write(&mut self, bytes: &[u8]) -> Put {
        self.calls = self.calls.saturating_add(1);
        let room = self.room - self.taken.len();
        let n = room.min(self.step).min(bytes.len());
        if n == 0 || self.failing.has(self.calls) {
            self.faults = self.faults.saturating_add(1);
            return Put::Failed;
        }
        self.taken.extend_from_slice(&bytes[..n]).unwrap();
        Put::Took(n)
    }
}
