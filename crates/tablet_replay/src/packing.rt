//! The image that `pack` writes.
ghost use Rattle.std.specs.Prelude.{◌≡◌, ◌+◌, ◌<◌, ◌≤◌, ◌^◌, [], IfOk, OnOk};
ghost use Rattle.cell_key.specs.Mutations.{row_change_of};
ghost use Rattle.script_text.specs.Grammar.{line_of};
ghost use Rattle.script_text.specs.Lines.{lines_of};
ghost use Rattle.sorted_file.specs.declared.version.Version.TheVariants.{Two};
ghost use Rattle.tablet_view.specs.Snapshot.{IsStanding};
ghost use Rattle.tablet_replay.specs.Packing.{IsInMemory, history_after, history_behind, history_with, pack_entries};

use cell_key::{Families, Mutation, NoMemory};
use compactor::compact;
use iter_config::Config;
use iter_stack::Usage;
use script_text::{Line, LineError, Lines, parse_line};
use sorted_file::SortedFile;
use std::alloc::Global;
use std::sync::Arc;
use tablet_core::{Answer, Core, Event};
use tablet_view::View;

/// The file of what the iterators of compactions make of the mutations of a script.
pub fn file_of_script(alloc: Global, config: Config, script: &[u8]) -> Result<SortedFile, NoMemory>
    ensures { IfOk result (λ file. file ≡ record {
      version = Two;
      cells = pack_entries config (history_behind config [] (lines_of script.now));
    }) }
{
    let core = loaded(alloc, config, script)?;
    packed(alloc, core.view())
}

/// A core into which the mutations of a script came.
fn loaded(alloc: Global, config: Config, script: &[u8]) -> Result<Core, NoMemory>
    ensures config { IfOk result (λ core. core.view.config ≡ config) }
    ensures log { IfOk result (λ core. core.view.log ≡ history_behind config [] (lines_of script.now)) }
    ensures memory { IfOk result (λ core. IsInMemory core.view) }
{
    let mut core = Core::open(alloc, Arc::new(alloc, config)?)?;
    for line in Lines::new(script) {
        take_line(alloc, &mut core, line)?;
    }
    Ok(core)
}

/// Takes the mutation of a line in, if it is one that comes in.
#[tactic(auto, unfolding(crate::specs::Packing::history_after))]
fn take_line(alloc: Global, core: &mut Core, line: &[u8]) -> Result<(), NoMemory>
    requires version { core.old.view.version < 2 ^ 63 }
    requires memory { IsInMemory core.old.view }
    ensures config { OnOk result (core.new.view.config ≡ core.old.view.config) }
    ensures log { OnOk result (core.new.view.log ≡ history_after core.old.view.config core.old.view.log (line_of line.now)) }
    ensures memory { OnOk result (IsInMemory core.new.view) }
    ensures version_rises_by_one_at_most { OnOk result (core.new.view.version ≤ core.old.view.version + 1) }
{
    match parse_line(alloc, line) {
        Err(LineError::NoMemory) => Err(NoMemory),
        Ok(Line::Step(Event::Apply(mutation))) => take_mutation(alloc, core, mutation),
        _ => Ok(()),
    }
}

/// Takes a mutation in, if it comes in.
fn take_mutation(alloc: Global, core: &mut Core, mutation: Mutation) -> Result<(), NoMemory>
    requires version { core.old.view.version < 2 ^ 63 }
    requires memory { IsInMemory core.old.view }
    ensures config { OnOk result (core.new.view.config ≡ core.old.view.config) }
    ensures log { OnOk result (core.new.view.log ≡ history_with core.old.view.config core.old.view.log (row_change_of mutation)) }
    ensures memory { OnOk result (IsInMemory core.new.view) }
    ensures version_rises_by_one_at_most { OnOk result (core.new.view.version ≤ core.old.view.version + 1) }
{
    match core.step(alloc, &Event::Apply(mutation)) {
        Answer::NoMemory => Err(NoMemory),
        _ => Ok(()),
    }
}

/// The file of what all iterators of compactions make of the live entries of a view that has them in memory.
fn packed(alloc: Global, view: &View) -> Result<SortedFile, NoMemory>
    requires stands { IsStanding view.now }
    requires memory { IsInMemory view.now }
    ensures { IfOk result (λ file. file ≡ record { version = Two; cells = pack_entries view.now.config view.now.log }) }
{
    let source = view.source(alloc, &Families::all())?;
    compact(alloc, view.config(), Usage::Pack, source)
}
