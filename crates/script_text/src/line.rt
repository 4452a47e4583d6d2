//! What a line says.
use cell_key::{Families, NoMemory, RangeBuf};
use tablet_steps::Event;
use thiserror::Error;

/// What a script line says. Sessions are from 1 to 64, jobs from 1 to 999,999, files from 1 to 9,999,999,999.
#[derive(Drop)]
pub enum Line {
    /// A blank line or a comment. It has no answer.
    Nothing,
    /// `m ROW UPDATE ..`, `freeze`, `flushed`, `compact jN fN ..`, `compactall jN` or `finish jN`: a step of the store. The
    /// bounds of a mutation are not part of the syntax, and a compaction may have no files.
    Step(Event),
    /// `scan`: one whole scan of the present view.
    Scan { range: RangeBuf, families: Families },
    /// A line that asks the session of a number.
    Session { session: u32, step: SessionStep },
    /// `status`: what the store holds.
    Status,
}

/// What a session is asked for.
#[derive(Drop)]
pub enum SessionStep {
    /// `open sN`: it is opened on the present view.
    Open {
        range: RangeBuf,
        families: Families,
        /// Whether its pieces end at rows.
        isolated: bool,
    },
    /// `fetch sN COUNT`: its next entries, `count` of them, from 1 to 1,000,000.
    Fetch {
        count: u32,
    },
    /// `renew sN`: it moves to the present view.
    Renew,
    /// `drop sN`: its stack is torn down.
    Drop,
    /// `close sN`: it ends.
    Close,
}

/// Why a line was not read.
#[derive(Clone, Copy, Debug, PartialEq, Eq, Error)]
pub enum LineError {
    /// The line has no reading.
    #[error("no such line")]
    Syntax,
    #[error("out of memory")]
    NoMemory,
}

impl From<NoMemory> for LineError {
    ghost use Rattle.std.specs.Prelude.{◌≡◌};
    ghost use Rattle.script_text.specs.declared.line.LineError.TheVariants as error;

    ghost from_gives = { λ _ e. e ≡ error.NoMemory };

    fn from(_error: NoMemory) -> LineError {
        LineError::NoMemory
    }
}
