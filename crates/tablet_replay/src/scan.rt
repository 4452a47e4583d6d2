//! What scans and fetches found, as it is written: line by line into a text, which is sent where it is long.
ghost use Rattle.std.specs.Prelude.{◌++◌};
ghost use Rattle.tablet_model.specs.Cuts.{within};
ghost use Rattle.tablet_model.specs.Reading.{AreUnmarkedRead};
ghost use Rattle.cell_key.specs.Ranges.{span_of};
ghost use Rattle.cell_key.specs.Views.{cell_of};
ghost use Rattle.iter_config.specs.Stages.{stages_of};
ghost use Rattle.iter_stack.specs.Usages.{usage_cells};
ghost use Rattle.iter_stack.specs.declared.usage.Usage.TheVariants as usage;
ghost use Rattle.script_text.specs.Answers.{entry_line, entry_lines, scan_text};
ghost use Rattle.script_text.specs.SessionAnswers.{rest_line};
ghost use Rattle.tablet_replay.specs.Replies.{HasCause, Sends};
ghost use Rattle.tablet_replay.specs.StatusText.{piece_text, pieces_text};

use crate::outcome::ReplyError;
use cell_key::{ByteText, Entries, EntryRef, NoMemory, Range};
use iter_config::Config;
use iter_contract::SortedSource;
use iter_stack::{Usage, build};
use scan_session::{Fetched, Piece};
use script_text::{append_at, append_end, append_entry, append_rest};
use std::alloc::Global;
use tablet_io::{Sink, send_full};

/// Sends the text of a scan of a leaf in a range, over so many mutations: what the iterators of a configuration for scans show.
pub fn send_scan<S: SortedSource, O: Sink>(
    alloc: Global,
    config: &Config,
    leaf: S,
    range: &Range<'_>,
    mutations: u64,
    text: &mut ByteText,
    output: &mut O,
) -> Result<(), ReplyError>
    requires valid { S.valid leaf }
    requires read { AreUnmarkedRead (stages_of config.now) (S.cells leaf) }
    ensures bytes { Sends (text.old ++ scan_text mutations (within (span_of range.now) (usage_cells config.now usage.Scan (S.cells leaf))))
        (O.taken output.old) (O.taken output.new) text.new result }
    ensures cause { HasCause (O.faults output.old) (O.faults output.new) result }
{
    let stack = build(alloc, config, Usage::Scan, leaf)?;
    send_found(alloc, stack, range, mutations, text, output)
}

/// Sends the text of a scan that finds what a source has in a range, over so many mutations.
fn send_found<S: SortedSource, O: Sink>(
    alloc: Global,
    source: S,
    range: &Range<'_>,
    mutations: u64,
    text: &mut ByteText,
    output: &mut O,
) -> Result<(), ReplyError>
    requires { S.valid source }
    ensures bytes { Sends (text.old ++ scan_text mutations (within (span_of range.now) (S.cells source))) (O.taken output.old) (O.taken output.new) text.new result }
    ensures cause { HasCause (O.faults output.old) (O.faults output.new) result }
{
    let mut source = source;
    source.seek(range)?;
    send_rest(alloc, &mut source, mutations, text, output)
}

/// Sends the text of a scan that finds what a source has left, over so many mutations.
#[tactic(auto, unfolding(script_text::specs::Answers::found_text))]
fn send_rest<S: SortedSource, O: Sink>(
    alloc: Global,
    source: &mut S,
    mutations: u64,
    text: &mut ByteText,
    output: &mut O,
) -> Result<(), ReplyError>
    requires { S.valid source.old }
    ensures bytes { Sends (text.old ++ scan_text mutations (S.rest source.old)) (O.taken output.old) (O.taken output.new) text.new result }
    ensures cause { HasCause (O.faults output.old) (O.faults output.new) result }
{
    if source.top().is_none() {
        return Ok(append_end(alloc, text, mutations)?);
    }
    append_at(alloc, text, mutations)?;
    send_lines(alloc, source, text, output)?;
    Ok(append_end(alloc, text, mutations)?)
}

/// Sends the lines of the entries that a source has left.
pub fn send_lines<S: SortedSource, O: Sink>(
    alloc: Global,
    source: &mut S,
    text: &mut ByteText,
    output: &mut O,
) -> Result<(), ReplyError>
    requires { S.valid source.old }
    ensures bytes { Sends (text.old ++ entry_lines (S.rest source.old)) (O.taken output.old) (O.taken output.new) text.new result }
    ensures cause { HasCause (O.faults output.old) (O.faults output.new) result }
{
    while let Some(entry) = source.top() {
        send_entry(alloc, entry, text, output)?;
        source.next()?;
    }
    Ok(())
}

/// Sends the line of an entry.
fn send_entry<O: Sink>(
    alloc: Global,
    entry: EntryRef<'_>,
    text: &mut ByteText,
    output: &mut O,
) -> Result<(), ReplyError>
    ensures bytes { Sends (text.old ++ entry_line (cell_of entry.entry)) (O.taken output.old) (O.taken output.new) text.new result }
    ensures cause { HasCause (O.faults output.old) (O.faults output.new) result }
{
    append_entry(alloc, text, entry)?;
    Ok(send_full(text, output)?)
}

fn send_entries<O: Sink>(
    alloc: Global,
    entries: &Entries,
    text: &mut ByteText,
    output: &mut O,
) -> Result<(), ReplyError>
    ensures bytes { Sends (text.old ++ entry_lines entries.now) (O.taken output.old) (O.taken output.new) text.new result }
    ensures cause { HasCause (O.faults output.old) (O.faults output.new) result }
{
    for entry in entries.as_slice() {
        send_entry(alloc, entry.entry(), text, output)?;
    }
    Ok(())
}

fn send_piece<O: Sink>(
    alloc: Global,
    piece: &Piece,
    text: &mut ByteText,
    output: &mut O,
) -> Result<(), ReplyError>
    ensures bytes { Sends (text.old ++ piece_text piece.now) (O.taken output.old) (O.taken output.new) text.new result }
    ensures cause { HasCause (O.faults output.old) (O.faults output.new) result }
{
    append_at(alloc, text, piece.n)?;
    send_entries(alloc, &piece.entries, text, output)
}

fn send_pieces<O: Sink>(
    alloc: Global,
    pieces: &[Piece],
    text: &mut ByteText,
    output: &mut O,
) -> Result<(), ReplyError>
    ensures bytes { Sends (text.old ++ pieces_text pieces.now) (O.taken output.old) (O.taken output.new) text.new result }
    ensures cause { HasCause (O.faults output.old) (O.faults output.new) result }
{
    for piece in pieces {
        send_piece(alloc, piece, text, output)?;
    }
    Ok(())
}

/// Sends what a fetch gave.
pub fn send_fetched<O: Sink>(
    alloc: Global,
    fetched: &Fetched,
    text: &mut ByteText,
    output: &mut O,
) -> Result<(), ReplyError>
    ensures bytes { Sends (text.old ++ (pieces_text fetched.now.pieces ++ rest_line fetched.now.ended)) (O.taken output.old) (O.taken output.new) text.new result }
    ensures cause { HasCause (O.faults output.old) (O.faults output.new) result }
{
    send_pieces(alloc, fetched.pieces.as_slice(), text, output)?;
    Ok(append_rest(alloc, text, fetched.ended)?)
}
