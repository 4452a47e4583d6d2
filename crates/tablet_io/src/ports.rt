//! The traits of sources and sinks of bytes.
ghost use Rattle.std.specs.Prelude.{◌<◌, Option, List, ℕ, length};

/// What a read gave.
#[derive(Clone, Copy, Debug, PartialEq, Eq)]
pub enum Got {
    /// So many bytes stand at the front of the buffer, at least one.
    Bytes(usize),
    /// Nothing is left.
    End,
    /// The read failed, and what was left is left still.
    Failed,
}

/// What a write took.
#[derive(Clone, Copy, Debug, PartialEq, Eq)]
pub enum Put {
    /// So many bytes from the front of the piece, at least one.
    Took(usize),
    /// The write failed, and nothing was taken.
    Failed,
}

/// Where bytes come from.
pub trait Source {
    ghost use Rattle.tablet_io.specs.Ports.{Reads, ReadHasCause};

    /// The bytes that are left, where it tells them.
    ghost left: { Self → Option (List ℕ) };

    /// How many reads failed, 0 at first. It never falls, and stands still at 2^64-1.
    ghost faults: { Self → ℕ };

    /// Puts the next bytes at the front of the buffer, at most as many as it holds. `End` comes exactly where nothing is left, unless
    /// the read failed, and `Failed` only where the count of faults rose.
    fn read(&mut self, buffer: &mut [u8]) -> Got
        requires { 0 < length buffer.old }
        ensures bytes { Reads (left self.old) (left self.new) buffer.new result }
        ensures cause { ReadHasCause (faults self.old) (faults self.new) result };
}

/// Where bytes go to.
pub trait Sink {
    ghost use Rattle.tablet_io.specs.Ports.{Writes, WriteHasCause};

    /// The bytes taken, where it tells them.
    ghost taken: { Self → Option (List ℕ) };

    /// How many writes failed, 0 at first. It never falls, and stands still at 2^64-1.
    ghost faults: { Self → ℕ };

    /// Takes bytes from the front of a piece. `Failed` comes only where the count of faults rose.
    fn write(&mut self, bytes: &[u8]) -> Put
        requires { 0 < length bytes.now }
        ensures bytes { Writes (taken self.old) (taken self.new) bytes.now result }
        ensures cause { WriteHasCause (faults self.old) (faults self.new) result };
}
