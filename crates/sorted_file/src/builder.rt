//! Images that are built, entry by entry.
ghost use Rattle.std.specs.Prelude.{◌≡◌, ◌≤◌, false, [], ◌∷◌, ◌++◌, length, is_ok, if◌then◌else◌, IfOk, OnOk};
ghost use Rattle.std.specs.Option.{option_to_list};
ghost use Rattle.cell_key.specs.Views.{cell_of};
ghost use Rattle.sorted_file.specs.Image.{index_bytes};
ghost use Rattle.iter_contract.specs.Following.{is_out_of_order};
ghost use Rattle.sorted_file.specs.Lists.{last_of, longest_value};
ghost use Rattle.sorted_file.specs.declared.version.Version.TheVariants.{Two};

use crate::entry_writing::write_entry;
use crate::file::SortedFile;
use crate::format::{BLOCK_ENTRIES, END_MAGIC, MAGIC};
use crate::outline::{Outline, slices_of};
use crate::sharing::shared_parts;
use crate::version::Version;
use byte_fields::u64_bytes;
use cell_key::{ByteText, EntryRef, NoMemory};
use std::alloc::Global;
use std::marker::Model;

/// A file of version 2 that is being written, entry by entry.
#[derive(Drop)]
pub struct FileBuilder {
    /// The bytes of an entry while it is put, kept for the next one.
    entry: Vec<u8>,
    /// The image so far, up to the last entry.
    bytes: ByteText,
    /// The places of its blocks.
    blocks: Vec<u64>,
    /// The number of entries.
    count: usize,
    /// Where the parts of the last entry stand; before the first one there are none.
    last: Outline,
}

impl Model for FileBuilder {
    ghost use Rattle.std.specs.Prelude.{List};
    ghost use Rattle.tablet_model.specs.Cell.{Cell};

    ghost Value = { List Cell };

    ghost use Rattle.sorted_file.specs.BuilderParts.{built_list, IsBuilt};

    ghost view = { built_list };

    ghost invariant = { IsBuilt };
}

impl FileBuilder {
    /// A builder of no entries yet.
    pub fn new(alloc: Global) -> Result<FileBuilder, NoMemory>
        ensures { IfOk result (λ b. b ≡ []) }
    {
        let mut bytes = ByteText::new(alloc);
        bytes.append(&MAGIC)?;
        bytes.append(&[Version::Two.number()])?;
        Ok(FileBuilder {
            entry: Vec::new(alloc),
            bytes,
            blocks: Vec::new(alloc),
            count: 0,
            last: Outline::none(),
        })
    }

    /// Puts an entry at the end, which does not sort before the last one; without memory the builder stays as it was.
    /// Its value has at most 65,536 bytes, and none in a delete marker.
    pub fn push(&mut self, entry: EntryRef<'_>) -> Result<(), NoMemory>
        requires order { is_out_of_order (last_of self.old) (cell_of entry) ≡ false }
        requires value { length entry.value.now ≤ longest_value entry.key.deleted }
        ensures { self.new ≡ (if is_ok result then self.old ++ cell_of entry.entry ∷ [] else self.old) }
    {
        let begins_block = self.count % BLOCK_ENTRIES == 0;
        let near = Version::Two.shares(self.count).then_some(self.last);
        let same = shared_parts(slices_of(near, self.bytes.bytes()), entry);
        write_entry(&mut self.entry, same, entry)?;
        let place = self.bytes.len();
        let block = begins_block.then_some(place as u64);
        append_entry(&mut self.bytes, &mut self.blocks, block, &self.entry)?;
        self.last = Outline::behind(self.last, same, place + 1, entry, self.bytes.len());
        self.count += 1;
        Ok(())
    }

    /// The file of the entries, in version 2. After `NoMemory` the builder is gone.
    pub fn finish(self) -> Result<SortedFile, NoMemory>
        ensures { IfOk result (λ file. file ≡ record { version = Two; cells = self }) }
    {
        let mut bytes = self.bytes;
        bytes.append(Version::Two.end_mark())?;
        append_index(&mut bytes, self.blocks.as_slice())?;
        bytes.append(&u64_bytes(self.count as u64))?;
        bytes.append(&END_MAGIC)?;
        Ok(SortedFile {
            version: Version::Two,
            bytes,
            blocks: self.blocks,
            count: self.count,
        })
    }
}

/// Appends an entry to an image, and the place of a block to the blocks if it begins one; without memory both stay as
/// they were.
fn append_entry(
    image: &mut ByteText,
    blocks: &mut Vec<u64>,
    block: Option<u64>,
    entry: &[u8],
) -> Result<(), NoMemory>
    ensures image { image.new ≡ (if is_ok result then image.old ++ entry.now else image.old) }
    ensures blocks { blocks.new.items ≡
        (if is_ok result then blocks.old.items ++ option_to_list block else blocks.old.items) }
{
    let before = blocks.len();
    if let Some(place) = block {
        blocks.push(place)?;
    }
    if let Err(error) = image.append(entry) {
        blocks.truncate(before);
        return Err(error);
    }
    Ok(())
}

fn append_index(image: &mut ByteText, blocks: &[u64]) -> Result<(), NoMemory>
    ensures { OnOk result (image.new ≡ image.old ++ index_bytes blocks.now) }
{
    for place in blocks {
        image.append(&u64_bytes(*place))?;
    }
    Ok(())
}
