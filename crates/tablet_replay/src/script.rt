//! Scripts, line by line.
ghost use Rattle.std.specs.Prelude.{◌≡◌, ◌+◌, ◌<◌, ◌≤◌, ◌^◌, ◌++◌, false, IfOk, OnOk};
ghost use Rattle.script_text.specs.Grammar.{line_of};
ghost use Rattle.script_text.specs.Lines.{lines_of};
ghost use Rattle.tablet_replay.specs.Replay.{after_line, asks_entries, line_answer, replayed_none, script_answers};
ghost use Rattle.tablet_replay.specs.Replies.{HasCause, Replies, Sends};
ghost use Rattle.tablet_replay.specs.TabletParts.{replayed_by};

use crate::outcome::ReplyError;
use crate::sending::send_last;
use crate::tablet::Tablet;
use cell_key::{ByteText, NoMemory};
use iter_config::Config;
use script_text::{Line, LineError, Lines, SessionStep, parse_line};
use std::alloc::Global;
use tablet_io::{Sink, send_full};
use tablet_steps::LineRefusal;

/// Writes the answers to the lines of a script, in pieces while it runs.
pub fn answer_script<O: Sink>(
    alloc: Global,
    config: Config,
    script: &[u8],
    output: &mut O,
) -> Result<(), ReplyError>
    ensures text { Replies (script_answers (replayed_none config) (lines_of script.now)) (O.taken output.old) (O.taken output.new) result }
    ensures cause { HasCause (O.faults output.old) (O.faults output.new) result }
{
    let mut tablet = Tablet::open(alloc, config)?;
    // The first to be dropped: an allocator is slow to take a large block back behind as many small ones as a tablet has.
    let mut text = ByteText::new(alloc);
    for line in Lines::new(script) {
        send_answer(alloc, &mut tablet, line, &mut text, output)?;
    }
    send_last(&mut text, output)
}

/// Answers a line, and sends the text where it is long.
fn send_answer<O: Sink>(
    alloc: Global,
    tablet: &mut Tablet,
    line: &[u8],
    text: &mut ByteText,
    output: &mut O,
) -> Result<(), ReplyError>
    requires { tablet.old.core.view.version < 2 ^ 63 }
    ensures bytes { Sends (text.old ++ line_answer (replayed_by tablet.old) (line_of line.now)) (O.taken output.old) (O.taken output.new) text.new result }
    ensures cause { HasCause (O.faults output.old) (O.faults output.new) result }
    ensures state { OnOk result (replayed_by tablet.new ≡ after_line (replayed_by tablet.old) (line_of line.now)) }
    ensures version_rises_by_one_at_most { OnOk result (tablet.new.core.view.version ≤ tablet.old.core.view.version + 1) }
{
    answer_line(alloc, tablet, line, text, output)?;
    Ok(send_full(text, output)?)
}

/// What a line says, `None` where it has no reading.
fn read_line(alloc: Global, line: &[u8]) -> Result<Option<Line>, NoMemory>
    ensures { IfOk result (λ read. read ≡ line_of line.now) }
{
    match parse_line(alloc, line) {
        Ok(line) => Ok(Some(line)),
        Err(LineError::Syntax) => Ok(None),
        Err(LineError::NoMemory) => Err(NoMemory),
    }
}

/// Answers a line.
#[tactic(auto, using(script_text::proofs::Counting::fetch_asks, tablet_io::proofs::Pieces::unsent), unfolding(crate::specs::Replay::line_answer, crate::specs::Replay::after_line))]
fn answer_line<O: Sink>(
    alloc: Global,
    tablet: &mut Tablet,
    line: &[u8],
    text: &mut ByteText,
    output: &mut O,
) -> Result<(), ReplyError>
    requires { tablet.old.core.view.version < 2 ^ 63 }
    ensures bytes { Sends (text.old ++ line_answer (replayed_by tablet.old) (line_of line.now)) (O.taken output.old) (O.taken output.new) text.new result }
    ensures cause { HasCause (O.faults output.old) (O.faults output.new) result }
    ensures state { OnOk result (replayed_by tablet.new ≡ after_line (replayed_by tablet.old) (line_of line.now)) }
    ensures version_rises_by_one_at_most { OnOk result (tablet.new.core.view.version ≤ tablet.old.core.view.version + 1) }
{
    match read_line(alloc, line)? {
        Some(Line::Scan { range, families }) => tablet.scan(alloc, &range, &families, text, output),
        Some(
            Line::Session {
                session,
                step: SessionStep::Fetch { count },
            },
        ) => tablet.fetch(alloc, session, count, text, output),
        read => Ok(answer_in_text(alloc, tablet, read, text)?),
    }
}

/// Answers a line that asks for no entries.
#[tactic(auto, unfolding(crate::specs::Replay::line_answer, crate::specs::Replay::after_line))]
fn answer_in_text(
    alloc: Global,
    tablet: &mut Tablet,
    read: Option<Line>,
    text: &mut ByteText,
) -> Result<(), NoMemory>
    requires version { tablet.old.core.view.version < 2 ^ 63 }
    requires short { asks_entries read ≡ false }
    ensures text { OnOk result (text.new ≡ text.old ++ line_answer (replayed_by tablet.old) read) }
    ensures state { OnOk result (replayed_by tablet.new ≡ after_line (replayed_by tablet.old) read) }
    ensures version_rises_by_one_at_most { OnOk result (tablet.new.core.view.version ≤ tablet.old.core.view.version + 1) }
{
    match read {
        None => LineRefusal::Syntax.append(alloc, text),
        Some(Line::Nothing) => Ok(()),
        Some(Line::Step(event)) => tablet.step(alloc, &event, text),
        Some(Line::Session { session, step }) => tablet.session_step(alloc, session, &step, text),
        Some(Line::Status) => tablet.status(alloc, text),
        Some(Line::Scan { .. }) => unreachable!(),
    }
}
