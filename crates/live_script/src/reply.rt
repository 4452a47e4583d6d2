//! What `live` writes for an input.
ghost use Rattle.std.specs.Prelude.{◌≡◌, ◌≤◌, Err, IfOk};
ghost use Rattle.script_text.specs.Lines.{lines_of};
ghost use Rattle.tablet_replay.specs.Replay.{is_refused};
ghost use Rattle.tablet_replay.specs.Replies.{HasCause, is_refusal};
ghost use Rattle.tablet_replay.specs.declared.outcome.ReplyError.TheVariants.{NoMemory};
ghost use Rattle.live_script.specs.Replies.{RepliesOne};
ghost use Rattle.live_script.specs.Texts.{IsLiveReply, IsLiveText};

use crate::script::read_script;
use crate::text::text_of_run;
use iter_config::{Config, ConfigError, read_config};
use live_tablet::{LiveShape, run_mutations};
use script_text::split_input;
use std::alloc::Global;
use std::sync::{Arc, Wait};
use std::thread::Threads;
use tablet_io::{Gate, Sink, write_all};
use tablet_replay::{Outcome, ReplyError, write_refusal};

/// Loads the mutations of a script while scanners read them, and writes what came of it: the answers to its lines, what each scanner
/// gave beside the loader and then once more, and what the store has. It takes memory, and may wait for its threads; it keeps its promise
/// where it returns.
///
/// Nothing was written where memory was wanting. `Write` comes only where the sink's count of faults rose in this call, and then a
/// prefix of the text was taken.
pub fn run_live<R: Threads + Wait + Sync, O: Sink, G: Gate + Sync>(
    rt: &R,
    alloc: Global,
    config: Config,
    script: &[u8],
    shape: LiveShape,
    output: &mut O,
    gate: &G,
) -> Result<(), ReplyError>
    requires scanners { (1 ≤ shape.scanners) × (shape.scanners ≤ 8) }
    requires sizes { (1 ≤ shape.chunk) × (1 ≤ shape.batch) }
    ensures text { RepliesOne (IsLiveText config (lines_of script.now) shape) (O.taken output.old) (O.taken output.new) result }
    ensures untouched { result ≡ Err NoMemory → output.new ≡ output.old }
    ensures cause { HasCause (O.faults output.old) (O.faults output.new) result }
{
    let script = read_script(alloc, script)?;
    let config = Arc::new(alloc, config)?;
    let mutations = script.mutations.as_slice();
    let run = run_mutations(rt, alloc, config, mutations, shape, gate)?;
    let text = text_of_run(alloc, script.kinds.as_slice(), &run)?;
    Ok(write_all(output, text.bytes())?)
}

/// Answers an input's script as [`run_live`] does, or writes why its configuration is refused.
#[tactic(auto, unfolding(crate::specs::Texts::IsLiveReply))]
pub fn live_to<R: Threads + Wait + Sync, O: Sink, G: Gate + Sync>(
    rt: &R,
    alloc: Global,
    input: &[u8],
    shape: LiveShape,
    output: &mut O,
    gate: &G,
) -> Result<Outcome, ReplyError>
    requires scanners { (1 ≤ shape.scanners) × (shape.scanners ≤ 8) }
    requires sizes { (1 ≤ shape.chunk) × (1 ≤ shape.batch) }
    ensures text { RepliesOne (IsLiveReply shape input.now) (O.taken output.old) (O.taken output.new) result }
    ensures untouched { result ≡ Err NoMemory → output.new ≡ output.old }
    ensures refused { IfOk result (λ outcome. is_refusal outcome ≡ is_refused input.now) }
    ensures cause { HasCause (O.faults output.old) (O.faults output.new) result }
{
    let (config, script) = split_input(input);
    match read_config(alloc, config) {
        Ok(config) => {
            run_live(rt, alloc, config, script, shape, output, gate)?;
            Ok(Outcome::Answered)
        }
        Err(ConfigError::Refused { rule, at }) => write_refusal(alloc, rule, at, output),
        Err(ConfigError::NoMemory) => Err(ReplyError::NoMemory),
    }
}
