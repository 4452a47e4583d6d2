//! What each command does.
ghost use Rattle.std.specs.Prelude.{◌≡◌};
ghost use Rattle.tablet_cli.specs.Words.{IsShape, command_of};
ghost use Rattle.tablet_cli.specs.Outcome.{Generates, IsComplete, IsDone, IsRunComplete, Lives, Performs, Runs, port};
ghost use Rattle.tablet_cli.specs.declared.command_word.Reply.TheVariants.{Replay, Pack, Show, Upgrade};

use crate::command_word::{Command, Reply, command_of};
use crate::reply::{end_of, reply_to};
use crate::status::Status;
use cell_key::NoMemory;
use live_script::{LiveShape, live_to};
use std::alloc::Global;
use std::sync::Wait;
use std::thread::Threads;
use tablet_gen::generated_summary;
use tablet_io::{Gate, ReadError, Sink, Source, WriteFault, read_all, write_all};
use tablet_replay::ReplyError;

/// How many bytes an input has at the most.
pub const MAX_INPUT: usize = 8_388_608;

const USAGE: &[u8] =
    b"usage: replay | live SCANNERS CHUNK BATCH | pack | show | gen START SIZE | upgrade\n";

/// Reads an input to its end, and writes what a command makes of it.
fn perform<I: Source, O: Sink>(reply: Reply, alloc: Global, input: &mut I, output: &mut O) -> Status
    ensures outcome { Performs reply (port I.left I.faults input.old input.new) (port O.taken O.faults output.old output.new) result }
    ensures complete { IsComplete reply (port I.left I.faults input.old input.new) (port O.taken O.faults output.old output.new) result }
{
    let bytes = match read_all(alloc, input, MAX_INPUT) {
        Ok(bytes) => bytes,
        Err(ReadError::Fault) => return Status::ReadFault,
        Err(ReadError::TooLong) => return Status::TooLong,
        Err(ReadError::NoMemory) => return Status::NoMemory,
    };
    match reply_to(reply, alloc, bytes, output) {
        Ok(outcome) => end_of(reply, outcome),
        Err(ReplyError::Write) => Status::WriteFault,
        Err(ReplyError::NoMemory) => Status::NoMemory,
    }
}

/// Reads an input to its end, and writes the answers to its script, or why its configuration is refused.
///
/// `ReadFault` and `WriteFault` come only where that end's count of faults rose in this call, `TooLong` exactly where more than
/// `MAX_INPUT` bytes were taken, and `BadConfig` exactly where the configuration is refused.
pub fn replay<I: Source, O: Sink>(alloc: Global, input: &mut I, output: &mut O) -> Status
    ensures outcome { Performs Replay (port I.left I.faults input.old input.new) (port O.taken O.faults output.old output.new) result }
    ensures complete { IsComplete Replay (port I.left I.faults input.old input.new) (port O.taken O.faults output.old output.new) result }
{
    perform(Reply::Replay, alloc, input, output)
}

/// Reads an input to its end, and writes the image of what the iterators of compactions make of the live entries of its script's
/// mutations, or why its configuration is refused. Other lines, and mutations that are refused, have no effect. It ends as
/// [`replay`] does.
pub fn pack<I: Source, O: Sink>(alloc: Global, input: &mut I, output: &mut O) -> Status
    ensures outcome { Performs Pack (port I.left I.faults input.old input.new) (port O.taken O.faults output.old output.new) result }
    ensures complete { IsComplete Pack (port I.left I.faults input.old input.new) (port O.taken O.faults output.old output.new) result }
{
    perform(Reply::Pack, alloc, input, output)
}

/// Reads an image to its end, and writes its entries and how many they are, or why it is none.
///
/// `BadImage` comes exactly where the input is no image, and the other ends as with [`replay`].
pub fn show<I: Source, O: Sink>(alloc: Global, input: &mut I, output: &mut O) -> Status
    ensures outcome { Performs Show (port I.left I.faults input.old input.new) (port O.taken O.faults output.old output.new) result }
    ensures complete { IsComplete Show (port I.left I.faults input.old input.new) (port O.taken O.faults output.old output.new) result }
{
    perform(Reply::Show, alloc, input, output)
}

/// Reads an image to its end, and writes the image of version 2 of the same entries, or why it is none. It ends as [`show`] does.
pub fn upgrade<I: Source, O: Sink>(alloc: Global, input: &mut I, output: &mut O) -> Status
    ensures outcome { Performs Upgrade (port I.left I.faults input.old input.new) (port O.taken O.faults output.old output.new) result }
    ensures complete { IsComplete Upgrade (port I.left I.faults input.old input.new) (port O.taken O.faults output.old output.new) result }
{
    perform(Reply::Upgrade, alloc, input, output)
}

/// Writes the summary of a tablet into which generated mutations were loaded: `size` of them, by draws that begin at `start`.
///
/// `WriteFault` comes only where the sink's count of faults rose in this call, and `NoMemory` before anything is written.
pub fn generate<O: Sink>(alloc: Global, start: u32, size: u32, output: &mut O) -> Status
    ensures outcome { Generates start size (port O.taken O.faults output.old output.new) result }
    ensures complete { IsDone (port O.taken O.faults output.old output.new) result }
{
    let text = match generated_summary(alloc, start, size) {
        Ok(text) => text,
        Err(NoMemory) => return Status::NoMemory,
    };
    match write_all(output, text.bytes()) {
        Ok(_) => Status::Done,
        Err(WriteFault) => Status::WriteFault,
    }
}

/// Reads an input to its end, loads the mutations of its script while scanners read them, and writes what came of it, or why its
/// configuration is refused. It may wait for its threads, and keeps its promise where it returns. It ends as [`replay`] does; nothing
/// was written where memory was wanting.
pub fn live<R: Threads + Wait + Sync, I: Source, O: Sink, G: Gate + Sync>(
    rt: &R,
    alloc: Global,
    shape: LiveShape,
    input: &mut I,
    output: &mut O,
    gate: &G,
) -> Status
    requires { IsShape shape }
    ensures outcome { Lives shape (port I.left I.faults input.old input.new) (port O.taken O.faults output.old output.new) result }
    ensures complete { IsComplete Replay (port I.left I.faults input.old input.new) (port O.taken O.faults output.old output.new) result }
{
    let bytes = match read_all(alloc, input, MAX_INPUT) {
        Ok(bytes) => bytes,
        Err(ReadError::Fault) => return Status::ReadFault,
        Err(ReadError::TooLong) => return Status::TooLong,
        Err(ReadError::NoMemory) => return Status::NoMemory,
    };
    match live_to(rt, alloc, bytes.bytes(), shape, output, gate) {
        Ok(outcome) => end_of(Reply::Replay, outcome),
        Err(ReplyError::Write) => Status::WriteFault,
        Err(ReplyError::NoMemory) => Status::NoMemory,
    }
}

/// Runs the command that the words name.
///
/// `Usage` comes exactly where they name none, unless the sink's count of faults rose; nothing is read then, and the usage line is written.
/// Nothing is read for `gen` either.
pub fn run<R: Threads + Wait + Sync, I: Source, O: Sink, G: Gate + Sync>(
    rt: &R,
    alloc: Global,
    words: &[String],
    input: &mut I,
    output: &mut O,
    gate: &G,
) -> Status
    ensures outcome { Runs (command_of words.now) (port I.left I.faults input.old input.new) (port O.taken O.faults output.old output.new) result }
    ensures complete { IsRunComplete (command_of words.now) (port I.left I.faults input.old input.new) (port O.taken O.faults output.old output.new) result }
{
    match command_of(words) {
        Some(Command::Reply(reply)) => perform(reply, alloc, input, output),
        Some(Command::Generate { start, size }) => generate(alloc, start, size, output),
        Some(Command::Live(shape)) => live(rt, alloc, shape, input, output, gate),
        None => match write_all(output, USAGE) {
            Ok(_) => Status::Usage,
            Err(WriteFault) => Status::WriteFault,
        },
    }
}
