//! Sources and sinks.
ghost use Rattle.std.specs.Prelude.{◌≤◌};

use cell_key::{ByteText, NoMemory};
use std::alloc::Global;
use tablet_io::{
    Calls, Gate, Got, MemSink, MemSource, OpenGate, Place, Put, ReadError, Sink, Source, StdSink,
    StdSource, read_all, write_all,
};

/// A source of `hello` that gives so many bytes a call.
fn hello(alloc: Global, step: usize, failing: Calls) -> Result<MemSource, NoMemory>
    requires { 1 ≤ step }
{
    let bytes = ByteText::of(alloc, b"hello")?;
    Ok(MemSource::new(bytes, step, failing))
}

fn is_hello(read: Result<ByteText, ReadError>) -> bool {
    match read {
        Ok(text) => text.bytes() == b"hello".as_slice(),
        Err(_) => false,
    }
}

fn is_read(alloc: Global, step: usize, max: usize) -> Result<bool, NoMemory>
    requires { 1 ≤ step }
{
    let mut source = hello(alloc, step, Calls::none())?;
    let read = read_all(alloc, &mut source, max);
    Ok(is_hello(read))
}

#[test]
fn all_bytes_are_read(rt: HostRuntime) -> Result<(), NoMemory> {
    assert!(rt; is_read(rt.alloc(), 1, 5)?);
    assert!(rt; is_read(rt.alloc(), 2, 6)?);
    assert!(rt; is_read(rt.alloc(), 9, 5)?);
    Ok(())
}

fn is_too_long(alloc: Global, step: usize, max: usize) -> Result<bool, NoMemory>
    requires { 1 ≤ step }
{
    let mut source = hello(alloc, step, Calls::none())?;
    let read = read_all(alloc, &mut source, max);
    Ok(matches!(read, Err(ReadError::TooLong)))
}

#[test]
fn a_long_input_is_refused(rt: HostRuntime) -> Result<(), NoMemory> {
    assert!(rt; is_too_long(rt.alloc(), 2, 4)?);
    Ok(())
}

fn is_at_fault(alloc: Global, step: usize, call: u64, max: usize) -> Result<bool, NoMemory>
    requires { 1 ≤ step }
{
    let failing = Calls::of(alloc, &[call])?;
    let mut source = hello(alloc, step, failing)?;
    let read = read_all(alloc, &mut source, max);
    Ok(matches!(read, Err(ReadError::Fault)))
}

#[test]
fn a_failed_read_is_a_fault(rt: HostRuntime) -> Result<(), NoMemory> {
    assert!(rt; is_at_fault(rt.alloc(), 2, 2, 5)?);
    Ok(())
}

fn sink(alloc: Global, room: usize, step: usize, call: u64) -> Result<MemSink, NoMemory>
    requires { 1 ≤ step }
{
    let failing = Calls::of(alloc, &[call])?;
    MemSink::new(alloc, room, step, failing)
}

/// Whether of `hello` these bytes are taken, where so many have room, a call takes so many, and a call fails.
fn is_taken(
    alloc: Global,
    room: usize,
    step: usize,
    call: u64,
    taken: &[u8],
) -> Result<bool, NoMemory>
    requires { 1 ≤ step }
{
    let mut sink = sink(alloc, room, step, call)?;
    let written = write_all(&mut sink, b"hello").is_ok();
    Ok(sink.bytes() == taken && written == (taken.len() == 5))
}

#[test]
fn all_bytes_are_written_or_a_prefix(rt: HostRuntime) -> Result<(), NoMemory> {
    assert!(rt; is_taken(rt.alloc(), 9, 1, 9, b"hello")?);
    assert!(rt; is_taken(rt.alloc(), 5, 3, 9, b"hello")?);
    assert!(rt; is_taken(rt.alloc(), 4, 3, 9, b"hell")?);
    assert!(rt; is_taken(rt.alloc(), 9, 3, 2, b"hel")?);
    assert!(rt; is_taken(rt.alloc(), 9, 3, 1, b"")?);
    Ok(())
}

fn gives_hel(source: &mut StdSource<&[u8]>) -> bool {
    let mut buffer = [0u8; 3];
    source.read(&mut buffer) == Got::Bytes(3) && buffer == *b"hel"
}

fn gives_lo(alloc: Global, source: &mut StdSource<&[u8]>) -> Result<bool, ReadError> {
    let rest = read_all(alloc, source, 9)?;
    Ok(rest.bytes() == b"lo".as_slice())
}

fn gives_nothing(source: &mut StdSource<&[u8]>) -> bool {
    source.read(&mut [0u8; 3]) == Got::End
}

#[test]
fn a_reader_of_std_is_read(rt: HostRuntime) -> Result<(), ReadError> {
    let mut source = StdSource::new(b"hello".as_slice());
    assert!(rt; gives_hel(&mut source));
    assert!(rt; gives_lo(rt.alloc(), &mut source)?);
    assert!(rt; gives_nothing(&mut source));
    Ok(())
}

fn takes_hello(alloc: Global) -> bool {
    let mut sink = StdSink::new(Vec::new(alloc));
    sink.write(b"hello") == Put::Took(5) && write_all(&mut sink, b", hello").is_ok()
}

#[test]
fn a_writer_of_std_is_written(rt: HostRuntime) {
    assert!(rt; takes_hello(rt.alloc()));
}

#[test]
fn an_open_gate_holds_nothing_back(_rt: HostRuntime) {
    OpenGate.at(Place::Publish(1));
}
