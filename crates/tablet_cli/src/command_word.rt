//! The words of commands.
ghost use Rattle.std.specs.Prelude.{◌≡◌};
ghost use Rattle.tablet_cli.specs.Words.{HasShape, command_of, generate_of, live_of, reply_of_word};

use crate::number::number_between;
use live_script::LiveShape;

/// A command that reads an input and answers it.
#[derive(Clone, Copy, Debug, PartialEq, Eq)]
pub enum Reply {
    /// Writes the answers to a script.
    Replay,
    /// Writes the image of what a script leaves in a compacted file.
    Pack,
    /// Writes the entries of an image.
    Show,
    /// Writes the image of version 2 of the entries of an image.
    Upgrade,
}

/// What the words ask for.
#[derive(Clone, Copy, Debug, PartialEq, Eq)]
pub enum Command {
    /// An input is read and answered.
    Reply(Reply),
    /// The summary of a script is written that is made of two numbers, from 0 to 2147483647 and from 1 to 100000. Nothing is read.
    Generate { start: u32, size: u32 },
    /// A script is read, and its mutations are loaded while scanners read them.
    Live(LiveShape),
}

/// The greatest start of `gen`.
const MAX_START: u32 = 2_147_483_647;

/// The most mutations of `gen`.
const MAX_SIZE: u32 = 100_000;

/// The most scanners of `live`.
const MAX_SCANNERS: u32 = 8;

/// The most mutations of a chunk, and the most entries that a scanner asks for at a time.
const MAX_STRIDE: u32 = 1000;

fn reply_of_word(word: &str) -> Option<Reply>
    ensures { result ≡ reply_of_word word.now }
{
    match word {
        "replay" => Some(Reply::Replay),
        "pack" => Some(Reply::Pack),
        "show" => Some(Reply::Show),
        "upgrade" => Some(Reply::Upgrade),
        _ => None,
    }
}

/// The command `gen` with its words.
fn generate_of(start: &str, size: &str) -> Option<Command>
    ensures { result ≡ generate_of start.now size.now }
{
    let start = number_between(0, MAX_START, start)?;
    let size = number_between(1, MAX_SIZE, size)?;
    Some(Command::Generate { start, size })
}

/// The command `live` with its words.
fn live_of(scanners: &str, chunk: &str, batch: &str) -> Option<Command>
    ensures command { result ≡ live_of scanners.now chunk.now batch.now }
    ensures shape { HasShape result }
{
    let scanners = number_between(1, MAX_SCANNERS, scanners)?;
    let chunk = number_between(1, MAX_STRIDE, chunk)?;
    let batch = number_between(1, MAX_STRIDE, batch)?;
    Some(Command::Live(LiveShape {
        scanners,
        chunk,
        batch,
    }))
}

/// The command that the words after the program's name give, if they give one. It takes no memory.
pub fn command_of(words: &[String]) -> Option<Command>
    ensures command { result ≡ command_of words.now }
    ensures shape { HasShape result }
{
    match words {
        [word] => reply_of_word(word.as_str()).map(Command::Reply),
        [word, start, size] if word.as_str() == "gen" => generate_of(start.as_str(), size.as_str()),
        [word, scanners, chunk, batch] if word.as_str() == "live" => {
            live_of(scanners.as_str(), chunk.as_str(), batch.as_str())
        }
        _ => None,
    }
}
