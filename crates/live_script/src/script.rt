//! The lines of a script, as `live` takes them.
ghost use Rattle.std.specs.Prelude.{◌≡◌, map, IfOk};
ghost use Rattle.cell_key.specs.Mutations.{row_change_of};
ghost use Rattle.script_text.specs.Grammar.{line_of};
ghost use Rattle.script_text.specs.Lines.{lines_of};
ghost use Rattle.live_script.specs.Scripts.{changes_in, kind_of, kinds_of, mutations_in, mutations_of};

use cell_key::{Items, Mutation, Mutations, NoMemory};
use script_text::{Line, LineError, Lines, parse_line};
use std::alloc::Global;
use tablet_steps::Event;

/// What a line is for `live`.
#[derive(Clone, Copy, Debug, PartialEq, Eq)]
pub enum LineKind {
    /// A blank line or a comment.
    Nothing,
    /// A mutation.
    Mutation,
    /// A line of another reading, which is refused.
    Other,
    /// A line without a reading.
    Unread,
}

pub type LineKinds = Items<LineKind>;

/// A script: what each of its lines is, and its mutations.
#[derive(Drop)]
pub struct Script {
    pub kinds: LineKinds,
    pub mutations: Mutations,
}

/// What a line is, and its mutation, if it is one. It takes memory.
#[tactic(auto, unfolding(crate::specs::Scripts::kind_of, crate::specs::Scripts::mutations_in))]
fn read_line(alloc: Global, line: &[u8]) -> Result<(LineKind, Option<Mutation>), NoMemory>
    ensures kind { IfOk result (λ read. read.0 ≡ kind_of (line_of line.now)) }
    ensures mutation { IfOk result (λ read. changes_in read.1 ≡ mutations_in (line_of line.now)) }
{
    match parse_line(alloc, line) {
        Err(LineError::NoMemory) => Err(NoMemory),
        Err(LineError::Syntax) => Ok((LineKind::Unread, None)),
        Ok(Line::Nothing) => Ok((LineKind::Nothing, None)),
        Ok(Line::Step(Event::Apply(mutation))) => Ok((LineKind::Mutation, Some(mutation))),
        Ok(_) => Ok((LineKind::Other, None)),
    }
}

/// Reads a script. It takes memory.
pub fn read_script(alloc: Global, script: &[u8]) -> Result<Script, NoMemory>
    ensures kinds { IfOk result (λ read. read.kinds ≡ kinds_of (lines_of script.now)) }
    ensures mutations { IfOk result (λ read. map row_change_of read.mutations ≡ mutations_of (lines_of script.now)) }
{
    let mut kinds = LineKinds::new(alloc);
    let mut mutations = Mutations::new(alloc);
    for line in Lines::new(script) {
        let (kind, mutation) = read_line(alloc, line)?;
        kinds.push(kind)?;
        if let Some(mutation) = mutation {
            mutations.push(mutation)?;
        }
    }
    Ok(Script { kinds, mutations })
}
