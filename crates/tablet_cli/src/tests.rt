//! Ends and statuses, over sources and sinks that fail.
ghost use Rattle.std.specs.Prelude.{◌≤◌};

use crate::command::{MAX_INPUT, generate, replay, run};
use crate::status::Status;
use cell_key::{ByteText, NoMemory};
use std::alloc::Global;
use std::string::String;
use std::sync::Wait;
use std::thread::Threads;
use tablet_io::{Calls, MemSink, MemSource, OpenGate};

/// A script, and the answers to it.
#[derive(Clone, Copy)]
struct Row {
    script: &'static [u8],
    answers: &'static [u8],
}

const SCAN: Row = Row {
    script: b"%%\nm r1 +a:x:=1\nscan\n",
    answers: b"m 1\nat 1\nr1 a:x: @1 =1\nend 1\n",
};

/// A session that is torn down, and renewed between two columns of a row.
const SESSION: Row = Row {
    script: b"[[iterator]]\nname = \"sum\"\npriority = 10\nkind = \"sum\"\ncolumns = [\"n\"]\nencoding = \"string\"\nscopes = [\"scan\", \"minc\", \"majc\"]\n%%\nm r1 +n:c:=5\nm r1 +n:c:=7\nm r1 +n:d:=1 +n:e:=2\nopen s1\nfetch s1 1\ndrop s1\nfetch s1 1\nm r1 +n:d:=3\nrenew s1\nfetch s1 1\n",
    answers: b"m 1\nm 2\nm 3\nopen s1 3\nat 3\nr1 n:c: @2 =12\nmore\ndrop s1\nat 3\nr1 n:d: @3 =1\nmore\nm 4\nrenew s1 4\nat 4\nr1 n:e: @3 =2\nend 4\n",
};

const USAGE: &[u8] =
    b"usage: replay | live SCANNERS CHUNK BATCH | pack | show | gen START SIZE | upgrade\n";

/// How many bytes a call of a source or a sink moves, and which call fails; none has the number 0.
type Port = (usize, u64);

/// A script at a port.
fn source(alloc: Global, script: &[u8], port: Port) -> Result<MemSource, NoMemory>
    requires { 1 ≤ port.0 }
{
    let bytes = ByteText::of(alloc, script)?;
    let failing = Calls::of(alloc, &[port.1])?;
    Ok(MemSource::new(bytes, port.0, failing))
}

fn sink(alloc: Global, port: Port) -> Result<MemSink, NoMemory>
    requires { 1 ≤ port.0 }
{
    let failing = Calls::of(alloc, &[port.1])?;
    MemSink::new(alloc, 4096, port.0, failing)
}

/// Whether a replay ends so, and this is what was written.
fn ends(
    alloc: Global,
    input: &mut MemSource,
    output: &mut MemSink,
    status: Status,
    text: &[u8],
) -> bool {
    replay(alloc, input, output) == status && output.bytes() == text
}

/// Whether a replay of a script between two ports ends so, and this is what was written.
fn script_ends(
    alloc: Global,
    script: &[u8],
    read: Port,
    written: Port,
    status: Status,
    text: &[u8],
) -> Result<bool, NoMemory>
    requires read { 1 ≤ read.0 }
    requires written { 1 ≤ written.0 }
{
    let mut input = source(alloc, script, read)?;
    let mut output = sink(alloc, written)?;
    Ok(ends(alloc, &mut input, &mut output, status, text))
}

#[test]
fn each_read_may_fail(rt: HostRuntime) -> Result<(), NoMemory> {
    for row in [SCAN, SESSION] {
        // Each byte is read by a call of its own, and one call more finds the end.
        for call in 1..row.script.len() as u64 + 2 {
            assert!(rt;
                script_ends(
                    rt.alloc(),
                    row.script,
                    (1, call),
                    (7, 0),
                    Status::ReadFault,
                    b""
                )?,
                "{call}"
            );
        }
        assert!(rt;
            script_ends(
                rt.alloc(),
                row.script,
                (1, 0),
                (7, 0),
                Status::Done,
                row.answers
            )?
        );
    }
    Ok(())
}

/// What the first calls of a sink take that takes seven bytes at a call.
fn front(text: &[u8], calls: usize) -> &[u8] {
    &text[..calls.saturating_mul(7).min(text.len())]
}

#[test]
fn each_write_may_fail(rt: HostRuntime) -> Result<(), NoMemory> {
    for row in [SCAN, SESSION] {
        for calls in 0..row.answers.len().div_ceil(7) {
            let written = front(row.answers, calls);
            let failing = calls as u64 + 1;
            assert!(rt;
                script_ends(
                    rt.alloc(),
                    row.script,
                    (9, 0),
                    (7, failing),
                    Status::WriteFault,
                    written
                )?,
                "{failing}"
            );
        }
    }
    Ok(())
}

const SUMMARY: &[u8] = b"log 4\nentries 3\ntotal 43\nmemory 0\nfrozen none\nfile f1 4\n";

/// Whether the summary of four generated mutations ends so, and this is what was written.
fn summary_ends(alloc: Global, port: Port, status: Status, text: &[u8]) -> Result<bool, NoMemory>
    requires { 1 ≤ port.0 }
{
    let mut output = sink(alloc, port)?;
    Ok(generate(alloc, 1, 4, &mut output) == status && output.bytes() == text)
}

#[test]
fn each_write_of_a_summary_may_fail(rt: HostRuntime) -> Result<(), NoMemory> {
    for calls in 0..SUMMARY.len().div_ceil(7) {
        let written = front(SUMMARY, calls);
        let failing = calls as u64 + 1;
        assert!(rt;
            summary_ends(rt.alloc(), (7, failing), Status::WriteFault, written)?,
            "{failing}"
        );
    }
    assert!(rt; summary_ends(rt.alloc(), (7, 0), Status::Done, SUMMARY)?);
    Ok(())
}

/// A mutation of a value of some thousand bytes.
fn long_mutation(alloc: Global) -> Result<ByteText, NoMemory> {
    let mut bytes = ByteText::of(alloc, b"%%\nm r1 +a:x:=")?;
    for _ in 0..6_000 {
        bytes.push(b'v')?;
    }
    bytes.append(b"\n")?;
    Ok(bytes)
}

/// A mutation and so many scans that the answers are longer than a piece.
fn long_script(alloc: Global) -> Result<MemSource, NoMemory> {
    let mut bytes = long_mutation(alloc)?;
    for _ in 0..12 {
        bytes.append(b"scan\n")?;
    }
    Ok(MemSource::new(bytes, 1000, Calls::none()))
}

/// How a replay of the long script ends where this call of the sink fails, and the sink.
fn long_run(alloc: Global, failing: u64) -> Result<(Status, MemSink), NoMemory> {
    let mut input = long_script(alloc)?;
    let failing = Calls::of(alloc, &[failing])?;
    let mut output = MemSink::new(alloc, 100_000, 100_000, failing)?;
    let status = replay(alloc, &mut input, &mut output);
    Ok((status, output))
}

/// Whether a text was written, and of it the first piece alone.
fn is_cut_off(whole: &(Status, MemSink), cut: &(Status, MemSink)) -> bool {
    let text = whole.1.bytes();
    let front = cut.1.bytes();
    whole.0 == Status::Done
        && cut.0 == Status::WriteFault
        && 65_536 <= front.len()
        && front.len() < text.len()
        && text.starts_with(front)
}

#[test]
fn a_long_text_goes_out_in_pieces(rt: HostRuntime) -> Result<(), NoMemory> {
    let whole = long_run(rt.alloc(), 0)?;
    let cut = long_run(rt.alloc(), 2)?;
    assert!(rt; is_cut_off(&whole, &cut));
    Ok(())
}

/// A comment of one byte more than an input may have.
fn too_long(alloc: Global) -> Result<MemSource, NoMemory> {
    let mut bytes = ByteText::of(alloc, b"#")?;
    for _ in 0..MAX_INPUT {
        bytes.push(b'#')?;
    }
    Ok(MemSource::new(bytes, 1_000_000, Calls::none()))
}

#[test]
fn an_input_beyond_the_bound_is_too_long(rt: HostRuntime) -> Result<(), NoMemory> {
    let mut input = too_long(rt.alloc())?;
    let mut output = sink(rt.alloc(), (1000, 0))?;
    assert!(rt; ends(rt.alloc(), &mut input, &mut output, Status::TooLong, b""));
    Ok(())
}

/// The one word of a command line.
fn words(alloc: Global, word: &str) -> Result<Vec<String>, NoMemory> {
    let mut words = Vec::new(alloc);
    words.push(String::from_str(alloc, word)?)?;
    Ok(words)
}

/// Whether the words are run so on the script, and this is what was written.
fn runs<R: Threads + Wait + Sync + AllocGlobal>(
    rt: &R,
    words: &[String],
    status: Status,
    text: &[u8],
) -> Result<bool, NoMemory> {
    let mut input = source(rt.alloc(), SCAN.script, (9, 0))?;
    let mut output = sink(rt.alloc(), (1000, 0))?;
    let ended = run(rt, rt.alloc(), words, &mut input, &mut output, &OpenGate);
    Ok(ended == status && output.bytes() == text)
}

#[test]
fn an_unknown_word_has_the_usage(rt: HostRuntime) -> Result<(), NoMemory> {
    let words = words(rt.alloc(), "repaly")?;
    assert!(rt; runs(&rt, &words, Status::Usage, USAGE)?);
    Ok(())
}

#[test]
fn statuses_have_numbers(rt: HostRuntime) {
    let numbers = [
        (Status::Done, 0),
        (Status::Usage, 2),
        (Status::BadConfig, 3),
        (Status::ReadFault, 4),
        (Status::WriteFault, 5),
        (Status::NoMemory, 6),
        (Status::TooLong, 7),
        (Status::BadImage, 8),
    ];
    for (status, number) in numbers {
        assert!(rt; status.number() == number, "{number}");
    }
}
