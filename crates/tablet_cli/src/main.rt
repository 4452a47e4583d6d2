//! The program: the words of the command line, what each command writes, and the status of a run.
#![tactic(auto)]

mod command;
mod command_word;
mod number;
mod reply;
mod status;
#[cfg(test)]
mod tests;

use crate::command::run;
use crate::status::Status;
use std::io::ErrorKind;
use std::process::ExitCode;
use std::{env, io};
use tablet_io::{OpenGate, StdSink, StdSource};

/// The process ends so where the system gave no words for another cause than memory.
const NO_WORDS: u8 = 9;

/// The words behind the program's name.
fn words(rt: &HostRuntime) -> io::Result<Vec<String>> {
    let mut words = Vec::new(rt.alloc());
    for word in env::args(rt)?.skip(1) {
        words.push(word)?;
    }
    Ok(words)
}

fn main(rt: HostRuntime) -> ExitCode {
    match words(&rt) {
        Ok(words) => {
            let mut input = StdSource::new(rt.stdin());
            let mut output = StdSink::new(rt.stdout());
            let status = run(&rt, rt.alloc(), &words, &mut input, &mut output, &OpenGate);
            ExitCode::from(status.number())
        }
        Err(error) if error.kind() == ErrorKind::OutOfMemory => {
            ExitCode::from(Status::NoMemory.number())
        }
        Err(_) => ExitCode::from(NO_WORDS),
    }
}
