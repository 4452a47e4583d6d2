//! Entries as they are written, and the lines round them.
//! Each function that appends may leave a part of its line in the text where memory is wanting.
ghost use Rattle.std.specs.Prelude.{◌≡◌, ◌++◌, IfOk, OnOk};
ghost use Rattle.std.specs.Fmt.{signed_decimal};
ghost use Rattle.cell_key.specs.Views.{cell_of};
ghost use Rattle.script_text.specs.Answers.{at_line, count_line, end_line, entry_line, value_text};

use cell_key::{ByteText, EntryRef, NoMemory, append_escape};
use std::alloc::Global;
use tablet_steps::append_number_line;

fn append_time(alloc: Global, text: &mut ByteText, time: i64) -> Result<(), NoMemory>
    ensures { OnOk result (text.new ≡ text.old ++ signed_decimal time) }
{
    let digits = time.to_string(alloc)?;
    text.append(digits.as_str().as_bytes())
}

fn append_value(text: &mut ByteText, entry: EntryRef<'_>) -> Result<(), NoMemory>
    ensures { OnOk result (text.new ≡ text.old ++ value_text (cell_of entry.entry)) }
{
    if entry.key.deleted {
        return text.append(b"-");
    }
    text.append(b"=")?;
    append_escape(text, entry.value)
}

/// Appends an entry's line, `ROW FAMILY:QUALIFIER:VISIBILITY @TIME =VALUE`, with each part escaped. A marker
/// has `-` in place of `=VALUE`.
#[tactic(auto, unfolding(crate::specs::Answers::entry_line))]
pub fn append_entry(alloc: Global, text: &mut ByteText, entry: EntryRef<'_>) -> Result<(), NoMemory>
    ensures { OnOk result (text.new ≡ text.old ++ entry_line (cell_of entry.entry)) }
{
    append_escape(text, entry.key.row)?;
    text.append(b" ")?;
    append_escape(text, entry.key.family)?;
    text.append(b":")?;
    append_escape(text, entry.key.qualifier)?;
    text.append(b":")?;
    append_escape(text, entry.key.visibility)?;
    text.append(b" @")?;
    append_time(alloc, text, entry.key.time)?;
    text.append(b" ")?;
    append_value(text, entry)?;
    text.append(b"\n")
}

/// The line of an entry, as `append_entry` writes it.
pub fn entry_text(alloc: Global, entry: EntryRef<'_>) -> Result<ByteText, NoMemory>
    ensures { IfOk result (λ text. text ≡ entry_line (cell_of entry.entry)) }
{
    let mut text = ByteText::new(alloc);
    append_entry(alloc, &mut text, entry)?;
    Ok(text)
}

/// Appends `at N`: entries follow, of a view of the first `n` mutations.
pub fn append_at(alloc: Global, text: &mut ByteText, n: u64) -> Result<(), NoMemory>
    ensures { OnOk result (text.new ≡ text.old ++ at_line n) }
{
    append_number_line(alloc, text, b"at", n)
}

/// Appends `end N`: nothing is left, in a view of the first `n` mutations.
pub fn append_end(alloc: Global, text: &mut ByteText, n: u64) -> Result<(), NoMemory>
    ensures { OnOk result (text.new ≡ text.old ++ end_line n) }
{
    append_number_line(alloc, text, b"end", n)
}

/// Appends `entries N`: so many entries were shown.
pub fn append_count(alloc: Global, text: &mut ByteText, n: u64) -> Result<(), NoMemory>
    ensures { OnOk result (text.new ≡ text.old ++ count_line n) }
{
    append_number_line(alloc, text, b"entries", n)
}
