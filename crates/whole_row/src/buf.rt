//! The text of a row, while it is put together.
ghost use Rattle.std.specs.Prelude.{◌≡◌, ◌≤◌, ◌++◌, drop, length, IfOk, OnOk};
ghost use Rattle.byteorder.specs.Endian.{big_bytes};
ghost use Rattle.cell_key.specs.Views.{cell_of};
ghost use Rattle.whole_row.specs.Bodies.{body_text, no_entries, with_entry};

use crate::writing::append_entry;
use byteorder::{BigEndian, ByteOrder};
use cell_key::{EntryRef, NoMemory};
use std::alloc::Global;
use std::marker::Model;

/// How many bytes the number of entries takes.
const COUNT_BYTES: usize = 8;

/// The text of a row that is being put together, entry by entry.
#[derive(Drop)]
pub struct RowBuf {
    /// The number of the entries, and the entries.
    bytes: Vec<u8>,
    count: u64,
}

impl Model for RowBuf {
    ghost use Rattle.whole_row.specs.Bodies.{Body};

    ghost Value = { Body };

    ghost use Rattle.whole_row.specs.BufParts.{buf_body, IsRowBuf};

    ghost view = { buf_body };

    ghost invariant = { IsRowBuf };
}

impl RowBuf {
    /// No entries yet.
    pub fn new(alloc: Global) -> Result<RowBuf, NoMemory>
        ensures { IfOk result (λ buf. buf ≡ no_entries) }
    {
        let bytes = Vec::from_slice(alloc, &[0; COUNT_BYTES])?;
        Ok(RowBuf { bytes, count: 0 })
    }

    /// Takes all entries out; it keeps its room. It takes no memory.
    pub fn clear(&mut self)
        ensures { self.new ≡ no_entries }
    {
        restart(&mut self.bytes);
        self.count = 0;
    }

    /// Puts an entry behind the others; without memory there are no entries then.
    pub fn push(&mut self, entry: EntryRef<'_>) -> Result<(), NoMemory>
        ensures { OnOk result (self.new ≡ with_entry self.old (cell_of entry.entry)) }
    {
        if let Err(error) = append_entry(&mut self.bytes, entry) {
            restart(&mut self.bytes);
            self.count = 0;
            return Err(error);
        }
        self.count += 1;
        write_count(&mut self.bytes, self.count);
        Ok(())
    }

    /// The text of the entries. It takes no memory.
    pub fn text(&self) -> &[u8]
        ensures { result.now ≡ body_text self.now }
    {
        self.bytes.as_slice()
    }
}

/// Leaves the number of no entries.
fn restart(bytes: &mut Vec<u8>)
    requires { 8 ≤ length bytes.old.items }
    ensures { bytes.new.items ≡ big_bytes 8 0 }
{
    bytes.truncate(COUNT_BYTES);
    write_count(bytes, 0);
}

/// Writes the number of entries where it stands.
fn write_count(bytes: &mut Vec<u8>, count: u64)
    requires { 8 ≤ length bytes.old.items }
    ensures { bytes.new.items ≡ big_bytes 8 count ++ drop 8 bytes.old.items }
{
    BigEndian::write_u64(bytes.as_mut_slice(), count);
}
