//! How the text of a row is written. Each function that appends may leave a part of it where memory is wanting.
ghost use Rattle.std.specs.Prelude.{◌≡◌, ◌<◌, ◌≤◌, ◌++◌, ℕ, List, Ok, length, IfOk, OnOk};
ghost use Rattle.std.specs.Int.{w64, cast_unsigned};
ghost use Rattle.cell_key.specs.Views.{cell_of};
ghost use Rattle.whole_row.specs.RowLists.{IsRow};
ghost use Rattle.whole_row.specs.RowReading.{row_reading};
ghost use Rattle.tablet_model.specs.RowText.{entry_bytes, part_bytes, row_text, value_bytes};

use crate::buf::RowBuf;
use byte_fields::{append_u16, append_u64};
use cell_key::{ByteText, Entries, EntryRef, NoMemory};
use std::alloc::Global;

fn append_part(bytes: &mut Vec<u8>, part: &[u8]) -> Result<(), NoMemory>
    requires { length part.now ≤ 1024 }
    ensures text { OnOk result (bytes.new.items ≡ bytes.old.items ++ part_bytes part.now) }
    ensures longer { length bytes.old.items ≤ length bytes.new.items }
{
    append_u16(bytes, part.len() as u16)?;
    bytes.extend_from_slice(part)?;
    Ok(())
}

fn append_value(bytes: &mut Vec<u8>, value: &[u8]) -> Result<(), NoMemory>
    ensures text { OnOk result (bytes.new.items ≡ bytes.old.items ++ value_bytes value.now) }
    ensures longer { length bytes.old.items ≤ length bytes.new.items }
{
    append_u64(bytes, value.len() as u64)?;
    bytes.extend_from_slice(value)?;
    Ok(())
}

/// Appends an entry without its row.
#[tactic(auto, unfolding(tablet_model::specs::RowText::entry_bytes))]
pub(crate) fn append_entry(bytes: &mut Vec<u8>, entry: EntryRef<'_>) -> Result<(), NoMemory>
    ensures text { OnOk result (bytes.new.items ≡ bytes.old.items ++ entry_bytes (cell_of entry.entry)) }
    ensures longer { length bytes.old.items ≤ length bytes.new.items }
    ensures some { OnOk result (length bytes.old.items < length bytes.new.items) }
{
    append_part(bytes, entry.key.family)?;
    append_part(bytes, entry.key.qualifier)?;
    append_part(bytes, entry.key.visibility)?;
    append_u64(bytes, entry.key.time.cast_unsigned())?;
    append_value(bytes, entry.value)
}

/// The text of a whole row: the number of its entries, and the entries in order, each without its row. The format is this
/// project's own. Where the entries are those of a row, [`decode_row`](crate::decode_row) gives them back.
pub fn encode_row(alloc: Global, entries: &Entries) -> Result<ByteText, NoMemory>
    ensures text { IfOk result (λ text. text ≡ row_text entries.now) }
    ensures read { (row : List ℕ) → IsRow row entries.now → IfOk result (λ text. row_reading row text ≡ Ok entries.now) }
{
    let mut buf = RowBuf::new(alloc)?;
    for entry in entries.as_slice() {
        buf.push(entry.entry())?;
    }
    ByteText::of(alloc, buf.text())
}
