//! Whole reads and writes over any source and sink.
ghost use Rattle.std.specs.Prelude.{◌≡◌, ◌≤◌, ◌++◌, Some, IfSome, OnOk, OnErr, IsErrOf};
ghost use Rattle.tablet_io.specs.Causes.{Rose};
ghost use Rattle.tablet_io.specs.Streams.{IsFrontTaken, ReadsAll};

use crate::ports::{Got, Put, Sink, Source};
use cell_key::ByteText;
use std::alloc::Global;
use thiserror::Error;

/// How many bytes a read asks for.
const PIECE: usize = 4096;

/// Why a source wasn't read to its end.
#[derive(Clone, Copy, Debug, Error)]
pub enum ReadError {
    /// A read failed.
    #[error("a read failed")]
    Fault,
    /// There were more bytes than asked for.
    #[error("the input is too long")]
    TooLong,
    /// There was no memory for the bytes.
    #[error("out of memory")]
    NoMemory,
}

/// A write failed.
#[derive(Clone, Copy, Debug, Error)]
#[error("a write failed")]
pub struct WriteFault;

/// All bytes up to the end, at most `max`. `TooLong` comes exactly where more were taken, and the reading stops there; `Fault` only where
/// the source's count rose in this call.
pub fn read_all<I: Source>(alloc: Global, source: &mut I, max: usize) -> Result<ByteText, ReadError>
    ensures bytes { IfSome (I.left source.old) (λ left. ReadsAll max left (I.left source.new) result) }
    ensures fault { IsErrOf result ReadError.Fault → Rose (I.faults source.old) (I.faults source.new) }
    ensures count { I.faults source.old ≤ I.faults source.new }
{
    let mut text = ByteText::new(alloc);
    let mut buffer = [0u8; PIECE];
    loop {
        match source.read(&mut buffer) {
            Got::End => return Ok(text),
            Got::Failed => return Err(ReadError::Fault),
            Got::Bytes(n) => {
                if n > max - text.len() {
                    return Err(ReadError::TooLong);
                }
                match text.append(&buffer[..n]) {
                    Ok(_) => {}
                    Err(_) => return Err(ReadError::NoMemory),
                }
            }
        }
    }
}

/// Writes all the bytes. `WriteFault` comes only where the sink's count rose in this call, and then a prefix of the bytes was taken. It takes
/// no memory.
pub fn write_all<O: Sink>(sink: &mut O, bytes: &[u8]) -> Result<(), WriteFault>
    ensures ok { OnOk result (IfSome (O.taken sink.old) (λ taken. O.taken sink.new ≡ Some (taken ++ bytes.now))) }
    ensures err { OnErr result (IsFrontTaken bytes.now (O.taken sink.old) (O.taken sink.new)) }
    ensures fault { OnErr result (Rose (O.faults sink.old) (O.faults sink.new)) }
    ensures count { O.faults sink.old ≤ O.faults sink.new }
{
    let mut at = 0;
    while at < bytes.len() {
        match sink.write(&bytes[at..]) {
            Put::Took(n) => at += n,
            Put::Failed => return Err(WriteFault),
        }
    }
    Ok(())
}
