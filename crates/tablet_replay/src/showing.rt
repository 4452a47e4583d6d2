//! What `show` writes of an image.
ghost use Rattle.std.specs.Prelude.{◌++◌, Ok};
ghost use Rattle.std.specs.Arc.{arc_value};
ghost use Rattle.script_text.specs.Answers.{entry_lines};
ghost use Rattle.tablet_replay.specs.Replies.{HasCause, Replies, Sends};
ghost use Rattle.tablet_replay.specs.Showing.{listing_text};

use crate::outcome::ReplyError;
use crate::scan::send_lines;
use crate::sending::send_last;
use cell_key::ByteText;
use compactor::ALL_KEYS;
use iter_contract::SortedSource;
use script_text::append_count;
use sorted_file::SortedFile;
use std::alloc::Global;
use std::sync::Arc;
use tablet_io::Sink;

/// Writes the entries of a file, line by line, and how many they are.
pub fn show_file<O: Sink>(
    alloc: Global,
    file: Arc<SortedFile>,
    output: &mut O,
) -> Result<(), ReplyError>
    ensures text { Replies (listing_text (Ok (arc_value file))) (O.taken output.old) (O.taken output.new) result }
    ensures cause { HasCause (O.faults output.old) (O.faults output.new) result }
{
    let mut text = ByteText::new(alloc);
    let cursor = SortedFile::cursor(alloc, &file)?;
    send_cells(alloc, cursor, &mut text, output)?;
    append_count(alloc, &mut text, file.count())?;
    send_last(&mut text, output)
}

/// Sends the lines of all entries of a source.
fn send_cells<S: SortedSource, O: Sink>(
    alloc: Global,
    source: S,
    text: &mut ByteText,
    output: &mut O,
) -> Result<(), ReplyError>
    requires { S.valid source }
    ensures bytes { Sends (text.old ++ entry_lines (S.cells source)) (O.taken output.old) (O.taken output.new) text.new result }
    ensures cause { HasCause (O.faults output.old) (O.faults output.new) result }
{
    let mut source = source;
    source.seek(&ALL_KEYS)?;
    send_lines(alloc, &mut source, text, output)
}
