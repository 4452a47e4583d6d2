//! How an entry of an image is written. Each function that appends may leave a part of it where memory is wanting.
ghost use Rattle.std.specs.Prelude.{◌≡◌, ◌≤◌, ◌++◌, length, OnOk};
ghost use Rattle.std.specs.Int.{cast_unsigned, w64};
ghost use Rattle.byteorder.specs.Endian.{big_bytes};
ghost use Rattle.tablet_model.specs.Limits.{max_part, max_value};
ghost use Rattle.cell_key.specs.Views.{cell_of, key_of};
ghost use Rattle.sorted_file.specs.Image.{flag_bytes, key_bytes, own_bytes, sharing_bytes, value_bytes};
ghost use Rattle.sorted_file.specs.declared.version.Version.TheVariants.{Two};

use byte_fields::{append_u16, append_u32, append_u64};
use cell_key::{EntryRef, KeyRef, NoMemory};

/// Appends a part of a key that isn't shared.
fn append_part(bytes: &mut Vec<u8>, is_shared: bool, part: &[u8]) -> Result<(), NoMemory>
    requires { length part.now ≤ max_part }
    ensures { OnOk result (bytes.new.items ≡ bytes.old.items ++ own_bytes is_shared part.now) }
{
    if is_shared {
        return Ok(());
    }
    append_u16(bytes, part.len() as u16)?;
    bytes.extend_from_slice(part)?;
    Ok(())
}

fn append_time(bytes: &mut Vec<u8>, time: i64) -> Result<(), NoMemory>
    ensures { OnOk result (bytes.new.items ≡ bytes.old.items ++ big_bytes 8 (cast_unsigned w64 time)) }
{
    append_u64(bytes, time.cast_unsigned())?;
    Ok(())
}

fn append_flag(bytes: &mut Vec<u8>, deleted: bool) -> Result<(), NoMemory>
    ensures { OnOk result (bytes.new.items ≡ bytes.old.items ++ flag_bytes deleted) }
{
    bytes.push(if deleted { 1 } else { 0 })?;
    Ok(())
}

fn append_value(bytes: &mut Vec<u8>, value: &[u8]) -> Result<(), NoMemory>
    requires { length value.now ≤ max_value }
    ensures { OnOk result (bytes.new.items ≡ bytes.old.items ++ value_bytes value.now) }
{
    append_u32(bytes, value.len() as u32)?;
    bytes.extend_from_slice(value)?;
    Ok(())
}

fn append_key(bytes: &mut Vec<u8>, same: u8, key: KeyRef<'_>) -> Result<(), NoMemory>
    ensures { OnOk result (bytes.new.items ≡ bytes.old.items ++ key_bytes same (key_of key.entry)) }
{
    append_part(bytes, 0 < same, key.row)?;
    append_part(bytes, 1 < same, key.family)?;
    append_part(bytes, 2 < same, key.qualifier)?;
    append_part(bytes, 3 < same, key.visibility)?;
    append_time(bytes, key.time)?;
    append_flag(bytes, key.deleted)?;
    Ok(())
}

/// Writes the bytes of an entry that shares so many parts, in an image of version 2, over what was there. It takes memory only
/// where an entry is longer than all before it.
#[tactic(auto, unfolding(crate::specs::Image::sharing_bytes))]
pub fn write_entry(bytes: &mut Vec<u8>, same: u8, entry: EntryRef<'_>) -> Result<(), NoMemory>
    requires { length entry.value.now ≤ max_value }
    ensures { OnOk result (bytes.new.items ≡ sharing_bytes Two same (cell_of entry.entry)) }
{
    bytes.clear();
    bytes.push(same)?;
    append_key(bytes, same, entry.key)?;
    append_value(bytes, entry.value)
}
