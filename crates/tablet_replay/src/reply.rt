//! What the commands write for an input.
ghost use Rattle.std.specs.Prelude.{◌≡◌, true, Err, IfOk};
ghost use Rattle.iter_config.specs.Faults.{fault};
ghost use Rattle.tablet_replay.specs.Packing.{pack_text};
ghost use Rattle.tablet_replay.specs.Refusals.{config_line};
ghost use Rattle.tablet_replay.specs.Replay.{is_refused, replay_text};
ghost use Rattle.tablet_replay.specs.Replies.{HasCause, Replies, is_refusal};
ghost use Rattle.tablet_replay.specs.Showing.{is_no_image, show_text, upgrade_bytes};
ghost use Rattle.tablet_replay.specs.declared.outcome.ReplyError.TheVariants.{NoMemory};

use crate::outcome::{Outcome, ReplyError};
use crate::packing::file_of_script;
use crate::refusal::{config_line, image_line};
use crate::script::answer_script;
use crate::showing::show_file;
use cell_key::ByteText;
use iter_config::{ConfigError, Rule, read_config};
use script_text::split_input;
use sorted_file::{OpenError, SortedFile};
use std::alloc::Global;
use std::sync::Arc;
use tablet_io::{Sink, write_all};

/// Writes all bytes of a reply, and tells its outcome.
fn write_bytes<O: Sink>(
    bytes: &[u8],
    outcome: Outcome,
    output: &mut O,
) -> Result<Outcome, ReplyError>
    ensures text { Replies bytes.now (O.taken output.old) (O.taken output.new) result }
    ensures outcome { IfOk result (λ told. told ≡ outcome) }
    ensures error { ¬ (result ≡ Err NoMemory) }
    ensures cause { HasCause (O.faults output.old) (O.faults output.new) result }
{
    write_all(output, bytes)?;
    Ok(outcome)
}

/// Writes why a configuration is refused. It takes memory for a line.
///
/// After an error a prefix of the line was taken, nothing where memory was wanting, and `Write` comes only where the sink's count of
/// faults rose in this call.
pub fn write_refusal<O: Sink>(
    alloc: Global,
    rule: Rule,
    at: u32,
    output: &mut O,
) -> Result<Outcome, ReplyError>
    ensures text { Replies (config_line (fault rule at)) (O.taken output.old) (O.taken output.new) result }
    ensures untouched { result ≡ Err NoMemory → output.new ≡ output.old }
    ensures refused { IfOk result (λ outcome. is_refusal outcome ≡ true) }
    ensures cause { HasCause (O.faults output.old) (O.faults output.new) result }
{
    let why = config_line(alloc, rule, at)?;
    write_bytes(why.bytes(), Outcome::Refused, output)
}

/// Writes the answers to a script under its configuration, or why the configuration is refused. They go out in pieces while the script
/// runs: it takes memory for the store, the sessions, the entries of a fetch and a piece.
///
/// After an error a prefix of the text was taken, and `Write` comes only where the sink's count of faults rose in this call.
#[tactic(auto, unfolding(crate::specs::Replay::replay_text))]
pub fn replay_to<O: Sink>(
    alloc: Global,
    input: &[u8],
    output: &mut O,
) -> Result<Outcome, ReplyError>
    ensures text { Replies (replay_text input.now) (O.taken output.old) (O.taken output.new) result }
    ensures refused { IfOk result (λ outcome. is_refusal outcome ≡ is_refused input.now) }
    ensures cause { HasCause (O.faults output.old) (O.faults output.new) result }
{
    let (config, script) = split_input(input);
    match read_config(alloc, config) {
        Ok(config) => {
            answer_script(alloc, config, script, output)?;
            Ok(Outcome::Answered)
        }
        Err(ConfigError::Refused { rule, at }) => write_refusal(alloc, rule, at, output),
        Err(ConfigError::NoMemory) => Err(ReplyError::NoMemory),
    }
}

/// Writes the image of what the iterators of compactions make of the live entries of a script's mutations, or why the configuration is
/// refused. Other lines, and mutations that are refused, have no effect. It takes memory for the mutations and the image.
///
/// After an error a prefix of the text was taken, and `Write` comes only where the sink's count of faults rose in this call.
#[tactic(auto, unfolding(crate::specs::Packing::pack_text))]
pub fn pack_to<O: Sink>(alloc: Global, input: &[u8], output: &mut O) -> Result<Outcome, ReplyError>
    ensures text { Replies (pack_text input.now) (O.taken output.old) (O.taken output.new) result }
    ensures refused { IfOk result (λ outcome. is_refusal outcome ≡ is_refused input.now) }
    ensures cause { HasCause (O.faults output.old) (O.faults output.new) result }
{
    let (config, script) = split_input(input);
    match read_config(alloc, config) {
        Ok(config) => {
            let file = file_of_script(alloc, config, script)?;
            write_bytes(file.bytes(), Outcome::Answered, output)
        }
        Err(ConfigError::Refused { rule, at }) => write_refusal(alloc, rule, at, output),
        Err(ConfigError::NoMemory) => Err(ReplyError::NoMemory),
    }
}

/// Writes the entries of an image and how many they are, or why the input is no image. They go out in pieces: it takes memory for a
/// piece.
///
/// After an error a prefix of the text was taken, and `Write` comes only where the sink's count of faults rose in this call.
#[tactic(auto, unfolding(crate::specs::Showing::show_text))]
pub fn show_to<O: Sink>(
    alloc: Global,
    input: ByteText,
    output: &mut O,
) -> Result<Outcome, ReplyError>
    ensures text { Replies (show_text input) (O.taken output.old) (O.taken output.new) result }
    ensures refused { IfOk result (λ outcome. is_refusal outcome ≡ is_no_image input) }
    ensures cause { HasCause (O.faults output.old) (O.faults output.new) result }
{
    match SortedFile::open(alloc, input) {
        Ok(file) => {
            let file = Arc::new(alloc, file)?;
            show_file(alloc, file, output)?;
            Ok(Outcome::Answered)
        }
        Err(OpenError::Image { at, cause }) => {
            let why = image_line(alloc, cause, at)?;
            write_bytes(why.bytes(), Outcome::Refused, output)
        }
        Err(OpenError::NoMemory) => Err(ReplyError::NoMemory),
    }
}

/// Writes the image of version 2 of the same entries, or why the input is no image. An image of version 2 stays as it is. It takes
/// memory for the new image.
///
/// After an error a prefix of the bytes was taken, and `Write` comes only where the sink's count of faults rose in this call.
#[tactic(auto, unfolding(crate::specs::Showing::upgrade_bytes))]
pub fn upgrade_to<O: Sink>(
    alloc: Global,
    input: ByteText,
    output: &mut O,
) -> Result<Outcome, ReplyError>
    ensures text { Replies (upgrade_bytes input) (O.taken output.old) (O.taken output.new) result }
    ensures refused { IfOk result (λ outcome. is_refusal outcome ≡ is_no_image input) }
    ensures cause { HasCause (O.faults output.old) (O.faults output.new) result }
{
    match SortedFile::open(alloc, input) {
        Ok(file) => {
            let newest = file.upgrade(alloc)?;
            write_bytes(newest.bytes(), Outcome::Answered, output)
        }
        Err(OpenError::Image { at, cause }) => {
            let why = image_line(alloc, cause, at)?;
            write_bytes(why.bytes(), Outcome::Refused, output)
        }
        Err(OpenError::NoMemory) => Err(ReplyError::NoMemory),
    }
}
