//! The answers to the lines of sessions.
ghost use Rattle.std.specs.Prelude.{◌≡◌, ◌++◌, OnOk};
ghost use Rattle.script_text.specs.SessionAnswers.{closed_line, dropped_line, opened_line, renewed_line, rest_line};

use crate::answers::append_end;
use cell_key::{ByteText, NoMemory};
use std::alloc::Global;
use tablet_steps::append_numbered;

/// Appends `open sN n`: a session was opened on a view of the first `n` mutations.
pub fn append_opened(
    alloc: Global,
    text: &mut ByteText,
    session: u32,
    n: u64,
) -> Result<(), NoMemory>
    ensures { OnOk result (text.new ≡ text.old ++ opened_line session n) }
{
    append_numbered(alloc, text, b"open s", u64::from(session))?;
    append_numbered(alloc, text, b" ", n)?;
    text.append(b"\n")
}

/// Appends `renew sN n`: a session moved to a view of the first `n` mutations.
pub fn append_renewed(
    alloc: Global,
    text: &mut ByteText,
    session: u32,
    n: u64,
) -> Result<(), NoMemory>
    ensures { OnOk result (text.new ≡ text.old ++ renewed_line session n) }
{
    append_numbered(alloc, text, b"renew s", u64::from(session))?;
    append_numbered(alloc, text, b" ", n)?;
    text.append(b"\n")
}

/// Appends `drop sN`: a session's stack was torn down.
pub fn append_dropped(alloc: Global, text: &mut ByteText, session: u32) -> Result<(), NoMemory>
    ensures { OnOk result (text.new ≡ text.old ++ dropped_line session) }
{
    append_numbered(alloc, text, b"drop s", u64::from(session))?;
    text.append(b"\n")
}

/// Appends `close sN`: a session has ended.
pub fn append_closed(alloc: Global, text: &mut ByteText, session: u32) -> Result<(), NoMemory>
    ensures { OnOk result (text.new ≡ text.old ++ closed_line session) }
{
    append_numbered(alloc, text, b"close s", u64::from(session))?;
    text.append(b"\n")
}

/// Appends how a fetch closes: `end N` where nothing is left in a view of the first `n` mutations, else `more`.
pub fn append_rest(alloc: Global, text: &mut ByteText, ended: Option<u64>) -> Result<(), NoMemory>
    ensures { OnOk result (text.new ≡ text.old ++ rest_line ended) }
{
    match ended {
        Some(n) => append_end(alloc, text, n),
        None => text.append(b"more\n"),
    }
}
